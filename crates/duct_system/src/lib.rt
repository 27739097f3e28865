//! The interface to the operating system, its journal, the spec of a command and the errors.
#![tactic(auto)]

pub mod copy;
mod entry;
pub mod error;
mod fault;
pub mod journal;
pub mod names;
pub mod same;
pub mod spec;
pub mod streams;
pub mod system;
pub mod views;
