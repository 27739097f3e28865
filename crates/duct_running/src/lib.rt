//! A running expression: how its children and workers are polled, the orders to its children, and
//! the results so far.
#![tactic(auto)]

pub mod numbers;
pub mod running;
