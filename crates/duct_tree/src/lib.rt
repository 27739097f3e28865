//! The tree of an expression, and what is made from it: its debug text, what each modifier does,
//! its shape, and the list of actions that runs it. Nothing here makes a request to a system.
#![tactic(auto)]

pub mod compile;
pub mod effect;
mod shape;
pub mod tree;
