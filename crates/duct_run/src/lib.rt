//! The second half of a start: it runs a list of actions on a system. Nothing here knows the tree.
#![tactic(auto)]

pub mod action;
pub mod asked;
pub mod change;
pub mod command;
pub mod ending;
pub mod places;
pub mod requests;
pub mod resources;
pub mod run;
pub mod scope;
mod settings;
pub mod start;
pub mod streams;
pub mod variables;
