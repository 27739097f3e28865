//! The definitions that the contracts of a start cite: the requests that a start makes, what it
//! makes, and what it leaves.
#![tactic(auto)]
