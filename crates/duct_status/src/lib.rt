//! How an expression ended, from the reports of its commands and workers.
#![tactic(auto)]

pub mod per_side;
pub mod status;
