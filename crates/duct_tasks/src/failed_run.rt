//! Which commands of a run failed and how, with the end of what it wrote to stderr.
ghost use Rattle.std.specs.Fmt.{DisplaysOnOk};
ghost use Rattle.std.specs.Prelude.{◌≡◌, ◌≤◌, length, map};
ghost use Rattle.std.specs.Io.BufRead.{drop_through};
ghost use Rattle.duct_status.specs.Form.{printed};
ghost use Rattle.duct_tasks.specs.FailedText.{failed_form, failed_text, stderr_text, without_newline};
ghost use Rattle.duct_tasks.specs.FailedText.{BeginsLine, last_lines};
ghost use Rattle.duct_tasks.specs.Statuses.{command_view};

use crate::statuses::CommandStatus;
use duct_base::system::Output;
use std::{error, fmt};

/// A run that failed, with all that it wrote. It prints each command that failed and how, from left
/// to right and on a line of its own, as in `command ["make"] exited with code 2`; then the last
/// lines of stderr behind a line `--- stderr`, in which a byte that isn't UTF-8 is escaped, as in
/// `\xff`. Its `{:?}` is the same text.
#[derive(Drop)]
pub struct FailedRun {
    /// The status of the winning command, and what was written to stdout and stderr.
    pub output: Output,

    /// The commands, from left to right, and how each ended.
    pub commands: Vec<CommandStatus>,

    /// How many bytes of stderr the text has at most.
    pub most: usize,
}

impl FailedRun {
    /// Returns the last whole lines of stderr, at most `most` bytes.
    pub fn last_lines(&self) -> &[u8]
        ensures { result.now ≡ last_lines self.now.most self.now.output.stderr.items }
    {
        last_lines(&self.output.stderr, self.most)
    }
}

impl fmt::Display for FailedRun {
    ghost output = { failed_text };

    fn fmt<W: fmt::Write>(&self, f: &mut fmt::Formatter<W>) -> fmt::Result {
        write_failed("", &self.commands, f)?;
        write_stderr(without_newline(self.last_lines()), f)
    }
}

// Writes each command that failed, with a lead before the first one and a newline before the
// others.
fn write_failed<W: fmt::Write>(
    lead: &str,
    commands: &[CommandStatus],
    f: &mut fmt::Formatter<W>,
) -> fmt::Result
    ensures { DisplaysOnOk W.write_str_gives f.old result
        (printed (failed_form lead.now (map command_view commands.now))) f.new }
{
    let Some((command, others)) = commands.split_first() else {
        return Ok(());
    };
    if !command.has_failed() {
        return write_failed(lead, others, f);
    }
    write!(f, "{lead}{command}")?;
    write_failed("\n", others, f)
}

// Returns the bytes without the newline at their end.
fn without_newline(bytes: &[u8]) -> &[u8]
    ensures { result.now ≡ without_newline bytes.now }
{
    bytes.strip_suffix(b"\n").unwrap_or(bytes)
}

// Writes the end of stderr, if anything is left, with a line before it.
fn write_stderr<W: fmt::Write>(tail: &[u8], f: &mut fmt::Formatter<W>) -> fmt::Result
    ensures { DisplaysOnOk W.write_str_gives f.old result (stderr_text tail.now) f.new }
{
    if tail.is_empty() {
        return Ok(());
    }
    match str::from_utf8(tail) {
        Ok(text) => write!(f, "\n--- stderr\n{text}"),
        Err(_) => write_escaped(tail, f),
    }
}

// Does this with bytes that aren't UTF-8.
fn write_escaped<W: fmt::Write>(tail: &[u8], f: &mut fmt::Formatter<W>) -> fmt::Result {
    f.write_str("\n--- stderr\n")?;
    for chunk in tail.utf8_chunks() {
        f.write_str(chunk.valid())?;
        write!(f, "{}", chunk.invalid().escape_ascii())?;
    }
    Ok(())
}

impl fmt::Debug for FailedRun {
    ghost debug_output = { failed_text };

    fn fmt<W: fmt::Write>(&self, f: &mut fmt::Formatter<W>) -> fmt::Result {
        write!(f, "{self}")
    }
}

impl error::Error for FailedRun {}

/// Returns the last whole lines of these bytes, at most `most` bytes. Of a last line that is longer
/// it returns nothing.
///
/// Example: `last_lines(&output.stderr, 4096)`
pub fn last_lines(bytes: &[u8], most: usize) -> &[u8]
    ensures last { result.now ≡ last_lines most bytes.now }
    ensures few { length result.now ≤ most }
    ensures whole { BeginsLine bytes.now result.now }
{
    if bytes.len() <= most {
        return bytes;
    }
    after_newline(&bytes[bytes.len() - most - 1..])
}

// Returns what follows the first `\n`, and nothing where there is none.
fn after_newline(bytes: &[u8]) -> &[u8]
    ensures { result.now ≡ drop_through 10 bytes.now }
{
    let mut rest = bytes;
    while let Some((first, behind)) = rest.split_first() {
        rest = behind;
        if *first == b'\n' {
            return rest;
        }
    }
    rest
}
