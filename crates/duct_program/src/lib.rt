//! The program `host`: what its arguments mean, and what it does over any system. And what programs
//! share: how they read their arguments and their input, and how they end where they can't do their
//! work.
#![tactic(auto)]

mod command;
mod expression;
mod failure;
mod options;
mod program;
mod programs;
mod usage;

pub use command::{Command, Redirection};
pub use expression::{command_expression, line};
pub use failure::Failure;
pub use program::{NoHook, answer, perform};
pub use programs::{Program, arguments, path_and_words, text_at};
pub use usage::Usage;
