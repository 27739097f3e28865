//! A system that passes on to another one only the requests that a policy allows, and one that
//! writes each command before it is started.
#![tactic(auto)]

mod counts;
mod crew;
mod fixed;
mod guard;
mod policies;
mod policy;
mod requests;
mod traced;
mod under;

pub use counts::Counts;
pub use crew::GuardedChild;
pub use fixed::{Fixed, FixedRules};
pub use guard::Guarded;
pub use policies::{AtOnce, Both, Folders, Limits, Programs, ReadOnly, Variables};
pub use policy::{Policy, PolicyError, Request};
pub use traced::Traced;
pub use under::{Under, read_under, run_under};
