//! Tests of what no row of data can express: threads, gates, and allocation failures of the real
//! machine.
#![tactic(auto)]

#[cfg(test)]
mod groups;
#[cfg(test)]
mod machine;
#[cfg(test)]
mod memory;
#[cfg(test)]
mod readers;
#[cfg(test)]
mod starts;
#[cfg(test)]
mod statuses;
#[cfg(test)]
mod threads;
#[cfg(test)]
mod waits;
#[cfg(test)]
mod workers;
