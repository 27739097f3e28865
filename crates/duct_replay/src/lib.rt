//! A system that is recorded while it runs, and one that answers from such a recording: what
//! happened on the machine is run again, with no process at all, up to the first request that
//! differs. A recording is written as text and read back: one line of JSON for each entry, each
//! child that ended and each end that was read. A journal is judged by a start over its replay.
#![tactic(auto)]

mod error;
mod found;
mod journal;
mod judgement;
mod parts;
mod private;
mod read;
mod recorded;
mod recorder;
mod recording;
mod replay;
mod replayed;
mod write;

pub use error::{LineRefusal, Refusal};
pub use journal::{journal_text, read_journal, read_recording, recording_text};
pub use judgement::{Verdict, judge};
pub use private::{PrivateFile, private_file};
pub use read::read_entry;
pub use recorded::{RecordedChild, RecordedDrain, RecordedReader};
pub use recorder::{Recorder, Records};
pub use recording::Recording;
pub use replay::{Replay, ReplayEnd};
pub use replayed::{ReplayChild, ReplayDrain, ReplayFeed, ReplayReader};
pub use write::{Values, entry_text};
