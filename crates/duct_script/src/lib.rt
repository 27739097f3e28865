//! A system for tests, whose results come from lists that a test sets. It is proved to keep the
//! contracts of the interface to the operating system. Beside it, a checker of the journals that a
//! system keeps.
#![tactic(auto)]

mod answers;
mod calls;
mod checker;
mod child;
mod clock;
mod gate;
mod hook;
mod job;
mod reader;
mod requests;
mod system;

pub use answers::Answers;
pub use calls::{Call, CallLog};
pub use checker::{
    Source, in_trace, is_balanced, open_count, opened_numbers, origin, spent_numbers, trace,
};
pub use child::{ChildScript, PollAnswer, ScriptChild};
pub use clock::ScriptClock;
pub use gate::{Gate, Gated};
pub use hook::{Destination, HookAnswer, ScriptHook, SpecChange};
pub use job::{DrainScript, FeedScript, ScriptDrain, ScriptFeed};
pub use reader::{ReadStep, ReaderScript, ScriptReader};
pub use requests::{Requests, Sort};
pub use system::{Script, ScriptEnd};
