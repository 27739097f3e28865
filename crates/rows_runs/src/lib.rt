//! What interprets the lines of the tables of calls (`docs/ROWS.md`), over the scripted system and
//! over the real machine.
//! Test support: the code is proved safe, and each function that can't block is proved to return.
#![tactic(auto)]

mod calls;
mod host;
mod machine;
mod programs;
mod scripted;
mod started;
mod tasks;
mod texts;

pub use calls::Calls;
pub use host::HostMachine;
pub use machine::Machine;
pub use scripted::Scripted;
