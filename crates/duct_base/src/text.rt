//! The entries of a journal as text.
ghost use Rattle.std.specs.Prelude.{codes, map, string_bytes};
ghost use Rattle.std.specs.Fmt.{DisplaysOnOk};
ghost use Rattle.std.specs.Option.{option_copied};
ghost use Rattle.duct_system.specs.EntryView.{entry_view};
ghost use Rattle.duct_status.specs.Form.{each_form, of_text, printed};
ghost use Rattle.duct_base.specs.EntryForm.{entry_form, folder_form, request_form, spawn_form, request_text, entry_text};

use duct_system::spec::CommandSpec;
use duct_system::system::{Entry, Side};
use std::fmt;

/// The request of an entry as text, as in `spawn of "sort" "-u" in "/in"`, whatever its result is.
/// Ends stand there by their numbers, and texts in quotes, as std's `{:?}` prints them. The text is
/// promised where its paths, or its words and its folder, are printable ASCII.
#[derive(Drop)]
pub struct RequestText<'a>(pub &'a Entry);

impl fmt::Display for RequestText<'_> {
    ghost output = { λ text. request_text (entry_view text.0.now) };

    fn fmt<W: fmt::Write>(&self, f: &mut fmt::Formatter<W>) -> fmt::Result {
        write_request(self.0, f)
    }
}

/// An entry as text, as in `spawn of "foo" in "/in": NotFound`: its `RequestText`, and the kind of
/// its fault if the system refused it.
#[derive(Drop)]
pub struct EntryText<'a>(pub &'a Entry);

impl fmt::Display for EntryText<'_> {
    ghost output = { λ text. entry_text (entry_view text.0.now) };

    fn fmt<W: fmt::Write>(&self, f: &mut fmt::Formatter<W>) -> fmt::Result {
        write_entry(self.0, f)
    }
}

// Writes the request of an entry, and its fault if it has one.
fn write_entry<W: fmt::Write>(entry: &Entry, f: &mut fmt::Formatter<W>) -> fmt::Result
    ensures { DisplaysOnOk W.write_str_gives f.old result
        (printed (entry_form (entry_view entry.now))) f.new }
{
    write_request(entry, f)?;
    match entry.fault() {
        Some(fault) => write!(f, ": {}", fault.kind.name()),
        None => Ok(()),
    }
}

// Writes the request of an entry, without its result.
fn write_request<W: fmt::Write>(entry: &Entry, f: &mut fmt::Formatter<W>) -> fmt::Result
    ensures { DisplaysOnOk W.write_str_gives f.old result
        (printed (request_form (entry_view entry.now))) f.new }
{
    match entry {
        Entry::Environment(_) => f.write_str("environment"),
        Entry::Pipe(_) => f.write_str("pipe"),
        Entry::OpenRead(path, _) => write!(f, "open of {path:?}"),
        Entry::Create(path, _) => write!(f, "create of {path:?}"),
        Entry::Duplicate(lent, _) => write!(f, "duplicate of end {lent}"),
        Entry::Parent(Side::Out, _) => f.write_str("duplicate of the parent's stdout"),
        Entry::Parent(Side::Err, _) => f.write_str("duplicate of the parent's stderr"),
        Entry::Canonicalize(path, _) => write!(f, "canonical path of {path:?}"),
        Entry::Spawn(spec, _, _) => write_spawn(spec, f),
        Entry::Feed(end, _, _) => write!(f, "input worker of end {end}"),
        Entry::Drain(end, _) => write!(f, "capture worker of end {end}"),
        Entry::Reader(end) => write!(f, "reader of end {end}"),
        Entry::Close(end) => write!(f, "close of end {end}"),
    }
}

// Writes the request of a child: its words, and its folder if it has one of its own.
fn write_spawn<W: fmt::Write>(spec: &CommandSpec, f: &mut fmt::Formatter<W>) -> fmt::Result
    ensures { DisplaysOnOk W.write_str_gives f.old result (printed (spawn_form spec.now)) f.new }
{
    match spec.words().split_first() {
        Some((program, arguments)) => {
            write!(f, "spawn of {program:?}")?;
            write_arguments(arguments, f)?;
        }
        None => f.write_str("spawn of no program")?,
    }
    write_folder(spec.folder(), f)
}

/// Writes arguments in quotes, with a space before each. Fails where a write fails.
pub fn write_arguments<W: fmt::Write>(
    arguments: &[String],
    f: &mut fmt::Formatter<W>,
) -> fmt::Result
    ensures { DisplaysOnOk W.write_str_gives f.old result
        (printed (each_form (of_text (codes " ")) (map string_bytes arguments.now))) f.new }
{
    for argument in arguments {
        write!(f, " {argument:?}")?;
    }
    Ok(())
}

/// Writes a folder in quotes, with ` in ` before it, if there is one. Fails where a write fails.
pub fn write_folder<W: fmt::Write>(folder: Option<&str>, f: &mut fmt::Formatter<W>) -> fmt::Result
    ensures { DisplaysOnOk W.write_str_gives f.old result
        (printed (folder_form (option_copied folder.entry))) f.new }
{
    match folder {
        Some(folder) => write!(f, " in {folder:?}"),
        None => Ok(()),
    }
}
