//! Expressions of which only so many run at once, some that are started again each time that they
//! end, what is tried again after an error that may pass, and what runs until a moment of a clock;
//! and the lines of two streams, while both are read.
#![tactic(auto)]

mod attended;
mod capture;
mod crew;
mod expression;
mod failed_run;
mod finished;
mod grace;
mod group;
mod job;
mod keeper;
mod late;
mod lines;
mod many;
mod pauses;
mod repeated;
mod request;
mod run;
mod service;
mod statuses;
mod stop;
mod stream;
mod task;
mod watch;

pub use attended::{run_lines, run_lines_until};
pub use capture::{Captured, run_captured};
pub use expression::{run_attempts, start_attempts};
pub use failed_run::{FailedRun, last_lines};
pub use finished::{Finished, TaskEnd};
pub use keeper::{Kept, Restarts, Services, Turn, Why, keep};
pub use late::{Deadline, Late, LateLines, TERMINATE, Until};
pub use lines::LinesError;
pub use many::{AtFailure, Progress, Tasks, run_all};
pub use repeated::{Retries, attempts};
pub use request::{failed_request, failed_starts, reason, request_text};
pub use run::run_until;
pub use statuses::{CommandStatus, command_statuses};
