//! What comes of an expression that runs until a moment.
ghost use Rattle.std.specs.Fmt.{DisplaysOnOk};
ghost use Rattle.std.specs.Prelude.{map};
ghost use Rattle.duct_status.specs.Form.{printed};
ghost use Rattle.duct_tasks.specs.FailedText.{hung_form, late_form};
ghost use Rattle.duct_tasks.specs.Statuses.{command_view};

use crate::statuses::CommandStatus;
use duct_base::error::Error;
use duct_base::system::Output;
use std::sync::Arc;
use std::time::Duration;
use std::{error, fmt};

/// The signal that asks a command to end.
pub const TERMINATE: i32 = 15;

/// How long the streams of what was killed are read on, in seconds.
pub(crate) const LAST_READ: u64 = 1;

/// The moment until which an expression may run.
#[derive(Drop)]
pub struct Deadline<'c, C> {
    pub clock: &'c C,
    /// The moment, which counts from the clock's zero.
    pub moment: Duration,
    /// How long the expression may run on after signal 15 before it is killed.
    pub grace: Duration,
}

/// How an expression ended that runs until a moment: in time, or late.
#[derive(Drop)]
pub enum Until<T, L> {
    /// It had ended before the clock was seen to show the moment.
    Done(T),
    /// It was stopped.
    Late(L),
}

/// How an expression ended that was stopped at its moment.
#[derive(Drop)]
pub struct Late {
    /// How it ended, if it did so before the kill. A command that signal 15 ended makes it an
    /// `Error::Checked`, unless it is unchecked. It is `Error::Memory` where it may have ended, but
    /// the last poll of the grace found no memory to say how.
    pub ended: Option<Result<Arc<Output>, Error>>,
    /// What the kill of the commands that were not known to have ended returned: `Ok` where there
    /// were none, or `Error::System` with the leftmost fault. A command that could not be killed
    /// may run on.
    pub killed: Result<(), Error>,
}

/// What came of an expression whose lines were handed on until its moment, and that was then
/// stopped. It prints the commands that had not ended at the moment, from left to right, as in
/// `late: command ["tee", "log"] has not ended`. Its `{:?}` is the same text.
#[derive(Drop)]
pub struct LateLines {
    /// What it wrote to stdout until then.
    pub stdout: Vec<u8>,
    /// What it wrote to stderr until then.
    pub stderr: Vec<u8>,
    /// The commands, from left to right, each with its status if it had ended at its moment, before
    /// it was stopped.
    pub commands: Vec<CommandStatus>,
    /// How it was stopped.
    pub late: Late,
}

impl fmt::Display for LateLines {
    ghost output = { λ late. printed (late_form (map command_view late.commands.items)) };

    fn fmt<W: fmt::Write>(&self, f: &mut fmt::Formatter<W>) -> fmt::Result {
        f.write_str("late")?;
        write_hung(": ", &self.commands, f)
    }
}

impl fmt::Debug for LateLines {
    ghost debug_output = { λ late. printed (late_form (map command_view late.commands.items)) };

    fn fmt<W: fmt::Write>(&self, f: &mut fmt::Formatter<W>) -> fmt::Result {
        write!(f, "{self}")
    }
}

impl error::Error for LateLines {}

/// Writes each command that has not ended, with a lead before the first one and a newline before
/// the others.
pub(crate) fn write_hung<W: fmt::Write>(
    lead: &str,
    commands: &[CommandStatus],
    f: &mut fmt::Formatter<W>,
) -> fmt::Result
    ensures { DisplaysOnOk W.write_str_gives f.old result
        (printed (hung_form lead.now (map command_view commands.now))) f.new }
{
    let Some((command, others)) = commands.split_first() else {
        return Ok(());
    };
    if command.status.is_some() {
        return write_hung(lead, others, f);
    }
    write!(f, "{lead}{command}")?;
    write_hung("\n", others, f)
}
