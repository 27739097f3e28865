//! A traced system.
ghost use Rattle.std.specs.Prelude.{◌≡◌, ◌≤◌, ◌<◌, IfOk, IfErr, Ok, Err, None, string_bytes, min, length, map};
ghost use Rattle.std.specs.Arc.{arc_value};
ghost use Rattle.std.specs.Option.{option_copied};
ghost use Rattle.duct_system.specs.Child.{IsUnasked};
ghost use Rattle.duct_system.specs.EntryView.{answer_of, Environment, Pipe, OpenRead, Create, Duplicate, Parent, Canonicalize, Feed, Drain, Reader, Close};
ghost use Rattle.duct_system.specs.Job.{unpolled_job};
ghost use Rattle.duct_system.specs.Journal.{GetsEnds, GivesEnds, IsCleared, IsRefused, RefusesChild, StartsChild};
ghost use Rattle.duct_system.specs.SpecView.{pair_text};
ghost use Rattle.duct_system.specs.Streams.{ends_of};
ghost use Rattle.duct_guard.specs.GuardView.{GotEnd, GotValue};
ghost use Rattle.duct_guard.specs.Traces.{Traces, line_in, line_of};

use duct_base::transfer::write_whole;
use duct_base::watched::Watched;
use duct_system::spec::CommandSpec;
use duct_system::system::{Entry, Fault, Side, Stdio, System};
use duct_words::quote;
use std::alloc::{AllocError, Global};
use std::io::{ErrorKind, Write};
use std::sync::Arc;

// Returns the line of a child that is started by this spec, as in `+ make install`. Fails only at
// an allocation failure.
fn line_of(alloc: Global, spec: &CommandSpec) -> Result<String, AllocError>
    ensures { IfOk result (λ line. string_bytes line ≡ line_of spec.now) }
{
    let text = quote(alloc, spec.words())?;
    line_in(alloc, spec.folder(), text.as_str())
}

// Returns the line of this text of a command, in this folder if there is one.
fn line_in(alloc: Global, folder: Option<&str>, text: &str) -> Result<String, AllocError>
    ensures { IfOk result
        (λ line. string_bytes line ≡ line_in (option_copied folder.entry) text.now) }
{
    match folder {
        Some(folder) => {
            let folder = quote(alloc, &[folder])?;
            format!(in alloc; "+ (cd {folder} && {text})\n")
        }
        None => format!(in alloc; "+ {text}\n"),
    }
}

/// A system over another one that writes each command to a writer before it is started, as `set -x`
/// of a shell does: `+ make install`, or `+ (cd /src && make install)` where it has a folder. The
/// words stand there as hooks left them, in the quotes that a POSIX shell needs; variables and
/// streams don't.
///
/// Each request is passed on as it is, once, and returns what the system below returns. The journal
/// is that of the system below. The first error of the writer ends the trace, as does a line for
/// which there is no memory; no request fails by that. A spawn blocks while the writer does.
#[derive(Drop)]
pub struct Traced<S, W> {
    /// The system below.
    pub system: S,

    /// What gets the lines.
    pub writer: W,

    /// The kind of the error that ended the trace. Set it to `None` to go on.
    pub stopped: Option<ErrorKind>,

    alloc: Global,
}

impl<S, W> Traced<S, W> {
    /// Traces what this system is asked to start.
    ///
    /// Example: `let mut traced = Traced::new(alloc, host, rt.stderr());`
    pub fn new(alloc: Global, system: S, writer: W) -> Traced<S, W>
        ensures system { result.system ≡ system }
        ensures writer { result.writer ≡ writer }
        ensures open { result.stopped ≡ None }
    {
        Traced {
            system,
            writer,
            stopped: None,
            alloc,
        }
    }

    /// Returns the system below and the writer.
    pub fn into_parts(self) -> (S, W)
        ensures system { result.0 ≡ self.system }
        ensures writer { result.1 ≡ self.writer }
    {
        let Traced { system, writer, .. } = self;
        (system, writer)
    }
}

impl<S, W: Write> Traced<S, W> {
    // Writes the line of a child that is started by this spec, unless the trace has ended.
    fn trace(&mut self, spec: &CommandSpec)
        ensures system { self.new.system ≡ self.old.system }
        ensures traced { Traces (W.contents self.old.writer) (W.contents self.new.writer)
            (line_of spec.now) self.old.stopped self.new.stopped }
    {
        if self.stopped.is_some() {
            return;
        }
        self.stopped = match line_of(self.alloc, spec) {
            Ok(line) => written(&mut self.writer, line.as_bytes()),
            Err(_) => Some(ErrorKind::OutOfMemory),
        };
    }
}

// Writes these bytes and flushes the writer. Returns the kind of the error that stopped it, if one
// did.
fn written<W: Write>(writer: &mut W, bytes: &[u8]) -> Option<ErrorKind>
    ensures { Traces (W.contents writer.old) (W.contents writer.new) bytes.now None result }
{
    let mut watched = Watched::new(&mut *writer);
    write_whole(&mut watched, bytes);
    let stopped = watched.stopped();
    if stopped.is_some() {
        return stopped;
    }
    writer.flush().err().map(|error| error.kind())
}

/// Each request is that of the system below, with its result. Before a spawn its line is written.
impl<S: System, W: Write> System for Traced<S, W> {
    type End = S::End;

    type Child = S::Child;

    type Feed = S::Feed;

    type Drain = S::Drain;

    type Reader = S::Reader;

    ghost journal_view = { λ traced. S.journal_view traced.system };

    ghost may_read = { S.may_read };

    ghost streams_fit = { S.streams_fit };

    ghost same_bytes = { S.same_bytes };

    ghost feeds_say_again = { S.feeds_say_again };

    fn environment(&mut self) -> Result<Vec<(String, String)>, Fault>
        ensures got { GotValue (λ pairs. map pair_text pairs.items) Environment result
            (S.journal_view self.old.system) (S.journal_view self.new.system) }
        ensures trace { self.new ≡ record self.old { system = self.new.system } }
    {
        self.system.environment()
    }

    fn pipe(&mut self) -> Result<(S::End, S::End), Fault>
        ensures ok { IfOk result (λ ends.
            let read = S.End.number_of ends.0 in
            let write = S.End.number_of ends.1 in
            GetsEnds (Pipe (Ok (read, write))) read write (S.journal_view self.old.system)
            (S.journal_view self.new.system)) }
        ensures err { IfErr result (λ fault. IsRefused (Pipe (Err fault)) 0 fault
            (S.journal_view self.old.system) (S.journal_view self.new.system)) }
        ensures trace { self.new ≡ record self.old { system = self.new.system } }
    {
        self.system.pipe()
    }

    fn open_read(&mut self, path: &str) -> Result<S::End, Fault>
        ensures got { GotEnd S.End.number_of (λ answer. OpenRead path.now answer) result
            (S.journal_view self.old.system) (S.journal_view self.new.system) }
        ensures trace { self.new ≡ record self.old { system = self.new.system } }
    {
        self.system.open_read(path)
    }

    fn create(&mut self, path: &str) -> Result<S::End, Fault>
        ensures got { GotEnd S.End.number_of (λ answer. Create path.now answer) result
            (S.journal_view self.old.system) (S.journal_view self.new.system) }
        ensures trace { self.new ≡ record self.old { system = self.new.system } }
    {
        self.system.create(path)
    }

    fn duplicate(&mut self, end: &S::End) -> Result<S::End, Fault>
        ensures got { GotEnd S.End.number_of
            (λ answer. Duplicate (S.End.number_of end.now) answer) result
            (S.journal_view self.old.system) (S.journal_view self.new.system) }
        ensures trace { self.new ≡ record self.old { system = self.new.system } }
    {
        self.system.duplicate(end)
    }

    fn parent(&mut self, side: Side) -> Result<S::End, Fault>
        ensures got { GotEnd S.End.number_of (λ answer. Parent side answer) result
            (S.journal_view self.old.system) (S.journal_view self.new.system) }
        ensures trace { self.new ≡ record self.old { system = self.new.system } }
    {
        self.system.parent(side)
    }

    fn canonicalize(&mut self, path: &str) -> Result<String, Fault>
        ensures got { GotValue (λ text. string_bytes text)
            (λ answer. Canonicalize path.now answer) result
            (S.journal_view self.old.system) (S.journal_view self.new.system) }
        ensures trace { self.new ≡ record self.old { system = self.new.system } }
    {
        self.system.canonicalize(path)
    }

    fn spawn(&mut self, spec: CommandSpec, io: [Stdio<S::End>; 3]) -> Result<S::Child, Fault>
        requires { min 1 (length (ends_of io)) ≤ (S.journal_view self.old.system).room }
        ensures ok { IfOk result (λ child. StartsChild S.End.number_of spec io
            (S.Child.number_of child) (S.journal_view self.old.system)
            (S.journal_view self.new.system)) }
        ensures unasked { IfOk result (λ child. IsUnasked (S.Child.child_view child)) }
        ensures err { IfErr result
            (λ fault. RefusesChild S.End.number_of spec io fault
            (S.journal_view self.old.system) (S.journal_view self.new.system)) }
        ensures traced { Traces (W.contents self.old.writer) (W.contents self.new.writer)
            (line_of spec) self.old.stopped self.new.stopped }
    {
        self.trace(&spec);
        self.system.spawn(spec, io)
    }

    fn start_feed(&mut self, end: S::End, bytes: Arc<Vec<u8>>) -> Result<S::Feed, Fault>
        requires { 0 < (S.journal_view self.old.system).room }
        ensures added { let answer = answer_of (λ job. tt) result in
            GivesEnds (Feed (S.End.number_of end) (arc_value bytes).items answer) 1
            (S.journal_view self.old.system) (S.journal_view self.new.system) }
        ensures unasked { IfOk result
            (λ job. S.Feed.job_view job ≡ unpolled_job (S.End.number_of end)) }
        ensures trace { self.new ≡ record self.old { system = self.new.system } }
    {
        self.system.start_feed(end, bytes)
    }

    fn start_drain(&mut self, end: S::End) -> Result<S::Drain, Fault>
        requires { 0 < (S.journal_view self.old.system).room }
        ensures added { GivesEnds (Drain (S.End.number_of end) (answer_of (λ job. tt) result)) 1
            (S.journal_view self.old.system) (S.journal_view self.new.system) }
        ensures unasked { IfOk result
            (λ job. S.Drain.job_view job ≡ unpolled_job (S.End.number_of end)) }
        ensures trace { self.new ≡ record self.old { system = self.new.system } }
    {
        self.system.start_drain(end)
    }

    fn reader(&mut self, end: S::End) -> S::Reader
        requires { 0 < (S.journal_view self.old.system).room }
        ensures added { GivesEnds (Reader (S.End.number_of end)) 1
            (S.journal_view self.old.system) (S.journal_view self.new.system) }
        ensures told { S.may_read (S.End.number_of end) result }
        ensures trace { self.new ≡ record self.old { system = self.new.system } }
    {
        self.system.reader(end)
    }

    fn close(&mut self, end: S::End)
        requires { 0 < (S.journal_view self.old.system).room }
        ensures added { GivesEnds (Close (S.End.number_of end)) 1
            (S.journal_view self.old.system) (S.journal_view self.new.system) }
        ensures trace { self.new ≡ record self.old { system = self.new.system } }
    {
        self.system.close(end);
    }

    fn journal(&self) -> &[Entry] {
        self.system.journal()
    }

    fn clear_journal(&mut self)
        ensures cleared { IsCleared (S.journal_view self.old.system)
            (S.journal_view self.new.system) }
        ensures trace { self.new ≡ record self.old { system = self.new.system } }
    {
        self.system.clear_journal();
    }
}
