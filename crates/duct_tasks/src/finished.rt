//! What came of a task.
ghost use Rattle.std.specs.Prelude.{◌≡◌, [], map, None};
ghost use Rattle.duct_tasks.specs.FailedText.{finished_text};
ghost use Rattle.duct_tasks.specs.Statuses.{command_view};
ghost use Rattle.duct_tasks.specs.Tasks.{has_failed};
ghost use Rattle.duct_tasks.specs.declared.finished.TaskEnd.TheVariants as end;

use crate::late::{Late, write_hung};
use crate::statuses::CommandStatus;
use duct_base::error::Error;
use duct_base::system::Output;
use std::alloc::Global;
use std::fmt;
use std::sync::Arc;
use std::time::Duration;

/// How a task ended.
#[derive(Drop)]
pub enum TaskEnd {
    /// It could not be started.
    Refused(Error),
    /// It ended by itself, as `Expression::run` would return it.
    Ended(Result<Arc<Output>, Error>),
    /// It was stopped.
    Late(Late),
}

/// What came of a task. It prints why it failed: the request that was refused, or the error, as in
/// `spawn of "foo": NotFound` or `command ["make"] exited with code 2`, or the commands that ran
/// when it was stopped, as in `late: command ["sleep", "9"] has not ended`, or, where it ended
/// well, why not all was read, as in `unread: out of memory`. One that did not fail prints as
/// `ended`.
#[derive(Drop)]
pub struct Finished {
    /// How it ended.
    pub end: TaskEnd,
    /// What it wrote to stdout.
    pub stdout: Vec<u8>,
    /// What it wrote to stderr.
    pub stderr: Vec<u8>,
    /// Why not all of both was read, if a read failed or memory ran out.
    pub unread: Option<Error>,
    /// The commands, from left to right, each with its status if it had ended, and before it was
    /// stopped. There are none where it could not be started.
    pub commands: Vec<CommandStatus>,
    /// The request that was refused as it started, as text, where there was memory for it.
    pub request: Option<String>,
    /// How long it ran.
    pub took: Duration,
}

impl Finished {
    /// Returns whether the task could not be started, was stopped, or ended with an error, or not
    /// all that it wrote was read. A failure of an expression that is unchecked is none.
    ///
    /// Example: `finished.iter().filter(|it| it.has_failed()).count()`
    pub fn has_failed(&self) -> bool
        ensures { result ≡ has_failed self.now }
    {
        match &self.end {
            TaskEnd::Refused(_) | TaskEnd::Late(_) => true,
            TaskEnd::Ended(end) => end.is_err() || self.unread.is_some(),
        }
    }

    // What comes of a task that could not be started.
    pub(crate) fn refused(alloc: Global, error: Error, request: Option<String>) -> Finished
        ensures end { result.end ≡ end.Refused error }
        ensures commands { result.commands.items ≡ [] }
        ensures stdout { result.stdout.items ≡ [] }
        ensures stderr { result.stderr.items ≡ [] }
        ensures request { result.request ≡ request }
    {
        Finished {
            end: TaskEnd::Refused(error),
            stdout: Vec::new(alloc),
            stderr: Vec::new(alloc),
            unread: None,
            commands: Vec::new(alloc),
            request,
            took: Duration::ZERO,
        }
    }
}

impl fmt::Display for Finished {
    ghost output = { λ finished. finished_text finished.end finished.unread finished.request
        (map command_view finished.commands.items) };

    fn fmt<W: fmt::Write>(&self, f: &mut fmt::Formatter<W>) -> fmt::Result {
        match (&self.end, &self.request) {
            (TaskEnd::Refused(_), Some(request)) => f.write_str(request),
            (TaskEnd::Refused(error), None) => write!(f, "{error}"),
            (TaskEnd::Ended(Err(error)), _) => write!(f, "{error}"),
            (TaskEnd::Ended(Ok(_)), _) => match &self.unread {
                Some(error) => write!(f, "unread: {error}"),
                None => f.write_str("ended"),
            },
            (TaskEnd::Late(_), _) => {
                f.write_str("late")?;
                write_hung(": ", &self.commands, f)
            }
        }
    }
}
