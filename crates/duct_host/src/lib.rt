//! The interface to the operating system on the real machine: a host that keeps a journal, and
//! calls std for the rest.
#![tactic(auto)]

mod child;
mod clock;
mod end;
mod environment;
mod fault;
mod host;
mod leader;
mod opened;
mod parents;
mod reader;
mod spawn;
mod standard;
mod started;

pub use child::Child;
pub use clock::HostClock;
pub use end::End;
pub use host::Host;
pub use parents::Parents;
pub use reader::{Reader, Writer};
