//! The examples that are proved, by what they show, with tests over the real machine.
mod calling;
mod first_steps;
mod threads;
