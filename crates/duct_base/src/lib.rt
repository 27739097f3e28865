//! What every part of duct uses: the interface to the operating system, the spec of a command, the
//! errors, statuses and abandoned children; entries as text; workers, which write bytes to an end
//! or read an end to EOF, each on a thread of its own; and the pauses of waits. It knows nothing
//! about expressions.
#![tactic(auto)]

pub use duct_status::{per_side, status};
pub use duct_system::{error, journal, names, spec, streams, system};

pub mod exe;
pub mod pause;
pub mod pool;
pub mod shared;
pub mod spawn;
pub mod text;
pub mod transfer;
pub mod watched;
pub mod worker;
