//! The interface to the operating system: its requests, their results, and the journal it keeps.
ghost use Rattle.std.specs.Prelude.{◌≡◌, ℕ, Bool, ◌<◌, ◌≤◌, min, length, map, Some, None, Ok, Err, IfOk, IfErr, string_bytes};
ghost use Rattle.std.specs.declared.option.Option.{Option};
ghost use Rattle.std.specs.declared.result.Result.{Result};
ghost use Rattle.std.specs.declared.time.Duration.{Duration};
ghost use Rattle.std.specs.Arc.{arc_value};
ghost use Rattle.duct_system.specs.Child.{Answer, Obeyed, ChildView, PollsChild, OrdersChild, IsUnasked};
ghost use Rattle.duct_system.specs.EntryView.{entry_view, Environment, Pipe, OpenRead, Create, Duplicate, Parent, Canonicalize, Feed, Drain, Reader, Close};
ghost use Rattle.duct_system.specs.Job.{JobView, PollsJob, unpolled_job, MeansSameBytes};
ghost use Rattle.duct_system.specs.Journal.{JournalView, Asks, GetsEnd, GetsEnds, GivesEnds, IsRefused, IsCleared, RefusesChild, StartsChild};
ghost use Rattle.duct_system.specs.SpecView.{pair_text};
ghost use Rattle.duct_system.specs.Status.{is_success, code_of, signal_of};
ghost use Rattle.duct_system.specs.Streams.{StreamsFit, ends_of};
ghost use Rattle.duct_system.specs.declared.system.ExitStatus.{ExitStatus};
ghost use Rattle.duct_system.specs.declared.system.Fault.{Fault};
ghost use Rattle.duct_system.specs.declared.system.Order.{Order};
ghost use Rattle.duct_system.specs.declared.system.Said.{Said};

use crate::spec::CommandSpec;
use std::io::{Read, Write};
use std::sync::Arc;
use std::time::Duration;

/// Why the system refused a request: the kinds of `io::ErrorKind` with these names, and `Other` for
/// all others.
#[derive(Clone, Copy, Debug, PartialEq, Eq)]
pub enum Kind {
    NotFound,
    PermissionDenied,
    BrokenPipe,
    WriteZero,
    InvalidInput,
    Unsupported,
    OutOfMemory,
    Other,
}

/// The error of a request that the system refused.
#[derive(Clone, Copy, Debug, PartialEq, Eq)]
pub struct Fault {
    pub kind: Kind,
}

impl Fault {
    /// Returns the fault of this kind.
    pub fn new(kind: Kind) -> Fault
        ensures { result.kind ≡ kind }
    {
        Fault { kind }
    }
}

/// One of the parent's own output streams.
#[derive(Clone, Copy, Debug, PartialEq, Eq)]
pub enum Side {
    Out,
    Err,
}

/// What a child gets as one of its three streams.
#[derive(Clone, Copy, Debug, PartialEq, Eq, Drop)]
pub enum Stdio<T> {
    /// The parent's own stream.
    Inherit,
    /// Nothing, as `/dev/null`.
    Null,
    /// This end, which is passed on to the child.
    End(T),
}

/// How a child ended.
#[derive(Clone, Copy, Debug, PartialEq, Eq)]
pub enum ExitStatus {
    /// It exited with this code.
    Code(i32),
    /// A signal with this number ended it.
    Signal(i32),
}

impl ExitStatus {
    /// Returns whether it exited with code 0.
    pub fn success(self) -> bool
        ensures { result ≡ is_success self }
    {
        match self {
            ExitStatus::Code(code) => code == 0,
            ExitStatus::Signal(_) => false,
        }
    }

    /// Returns the exit code, or `None` if a signal ended it.
    pub fn code(self) -> Option<i32>
        ensures { result ≡ code_of self }
    {
        match self {
            ExitStatus::Code(code) => Some(code),
            ExitStatus::Signal(_) => None,
        }
    }

    /// Returns the signal that ended it, or `None` if it exited.
    pub fn signal(self) -> Option<i32>
        ensures { result ≡ signal_of self }
    {
        match self {
            ExitStatus::Code(_) => None,
            ExitStatus::Signal(signal) => Some(signal),
        }
    }
}

/// How an expression ended: its exit status, and the bytes that were captured from stdout and
/// stderr.
#[derive(Debug, PartialEq, Eq, Drop)]
pub struct Output {
    pub status: ExitStatus,
    pub stdout: Vec<u8>,
    pub stderr: Vec<u8>,
}

/// An entry of the journal: a request with its result. Ends and children are recorded by their
/// numbers. An end that a request takes by value is spent, whatever the result is.
#[derive(Debug, Drop)]
pub enum Entry {
    /// The variables of the parent's environment, in the order in which the system returned them.
    Environment(Result<Vec<(String, String)>, Fault>),
    /// The read end, then the write end.
    Pipe(Result<(u64, u64), Fault>),
    /// The path, and the end.
    OpenRead(String, Result<u64, Fault>),
    /// The path, and the end.
    Create(String, Result<u64, Fault>),
    /// The end that was borrowed, and the new one.
    Duplicate(u64, Result<u64, Fault>),
    /// The stream, and the new end of it.
    Parent(Side, Result<u64, Fault>),
    /// The path, and its canonical path.
    Canonicalize(String, Result<String, Fault>),
    /// The spec, the three streams in the order stdin, stdout, stderr, and the child.
    Spawn(CommandSpec, [Stdio<u64>; 3], Result<u64, Fault>),
    /// The end that the worker writes to, and the bytes.
    Feed(u64, Arc<Vec<u8>>, Result<(), Fault>),
    /// The end that the worker reads.
    Drain(u64, Result<(), Fault>),
    /// The end that the reader reads.
    Reader(u64),
    /// The end that was closed.
    Close(u64),
}

/// A value with a number from the system. A job has the number of the end that it was given. An
/// implementation has to give no two ends or children of a system the same number. No clause states
/// this: the clauses of `System` give that a new number is at least the journal's `next` before the
/// call, and below its `next` after it.
pub trait Numbered: Drop {
    ghost number_of: { Self → ℕ };

    /// Returns its number, which never changes.
    fn number(&self) -> u64
        ensures { result ≡ number_of self.now };
}

/// An order to a child.
#[derive(Clone, Copy, Debug, PartialEq, Eq)]
pub enum Order {
    Kill,
    Signal(i32),
}

/// A child process. Its number and its `id` never change.
pub trait Child: Numbered {
    /// What a poll of the child with this number may return.
    ghost may_answer: { ℕ → Answer → Type 0 };

    /// What an order to the child with this number may return, for an order that was noted (`true`)
    /// and for one that wasn't.
    ghost may_obey: { ℕ → Order → Bool → Obeyed → Type 0 };

    /// Its number and its `id`, and what it stores of the polls and the orders so far.
    ghost child_view: { Self → ChildView };

    /// Polls the child: returns its exit status if it has ended, and `None` while it runs. Once a
    /// poll has returned an exit status, each later poll returns it again. Fails if the system
    /// refuses the request. An implementation must not block or allocate here; no clause states
    /// this.
    fn poll(&mut self) -> Result<Option<ExitStatus>, Fault>
        ensures { PollsChild may_answer (child_view self.old) result (child_view self.new) };

    /// Kills the child, and doesn't wait until it has ended. Fails if the system refuses the
    /// request. If the allocation that notes the order fails, it fails with `OutOfMemory`, and must
    /// not make the request; no clause states the latter.
    fn kill(&mut self) -> Result<(), Fault>
        ensures { OrdersChild may_obey Order.Kill (child_view self.old) result
            (child_view self.new) };

    /// Sends the child the signal with this number. It may block until a program has ended that the
    /// system runs for this. Fails as `kill` does.
    fn signal(&mut self, signal: i32) -> Result<(), Fault>
        ensures { OrdersChild may_obey (Order.Signal signal) (child_view self.old) result
            (child_view self.new) };

    /// Returns the process id, by which the machine knows the child.
    fn id(&self) -> u32
        ensures { result ≡ (child_view self.now).process };

    /// Returns whether the child leads a group of processes, to which its orders go, also once it
    /// has ended.
    fn leads(&self) -> bool
        ensures { result ≡ (child_view self.now).leads };

    /// The number in the view is the child's number.
    ghost has_number: { (child : Self) → (child_view child).number ≡ Self.number_of child };
}

/// What a poll of a job returns.
#[derive(Clone, Copy, Debug, PartialEq, Eq, Drop)]
pub enum Said<T> {
    Running,
    Done(T),
    Fault(Fault),
}

/// A worker that reads or writes while the caller goes on. Its number is that of the end that it
/// was given, and never changes.
pub trait Job: Numbered {
    /// The result of a job that is done.
    type Result: Drop;

    /// The second result is the first one, held by one more owner.
    ghost same: { Self.Result → Self.Result → Type 0 };

    /// Making one more owner of the result may fail.
    ghost refusable: { Type 0 };

    /// What a poll of the job with this number may return.
    ghost may_say: { ℕ → Said Self.Result → Type 0 };

    /// Its number, and what it stores of the polls so far.
    ghost job_view: { Self → JobView Self.Result };

    /// Polls the job. An implementation must not block here; no clause states this. Once a poll has
    /// returned `Done`, each later poll returns the same result, or `Running` if one more owner of
    /// the result can't be made. Once a poll has returned a fault, each later poll returns it
    /// again.
    fn poll(&mut self) -> Said<Self::Result>
        ensures { PollsJob may_say same refusable (job_view self.old) result (job_view self.new) };

    /// The number in the view is the job's number.
    ghost has_number: { (job : Self) → (job_view job).number ≡ Self.number_of job };
}

/// A clock. It counts time from a zero of its own.
pub trait Clock {
    /// What the clock may show.
    ghost may_show: { Self → Duration → Type 0 };

    /// Returns the time since the clock's zero.
    fn now(&self) -> Duration
        ensures { may_show self.now result };
}

/// The operating system. Each call from `environment` to `close` adds one entry to the journal: the
/// request with its result. A call fails with a fault if the system refuses its request.
///
/// A call that takes no end by value fails with `OutOfMemory` if there is no memory for its entry,
/// or for the room of the ends that it would return. It then adds no entry, and must not make the
/// request; no clause states the latter. A call that takes an end by value spends it, whatever the
/// result is. It always adds its entry, in the room that was reserved when the end was returned.
///
/// Ends and children get their numbers from one count that only grows, also when the journal is
/// cleared.
pub trait System {
    /// An open file descriptor: one side of a pipe, a file, or a stream of the parent. It stays
    /// open until it is spent.
    type End: Numbered;

    /// A child process that was started.
    type Child: Child;

    /// A worker that writes bytes to an end.
    type Feed: Job<Result = ()>;

    /// A worker that reads an end to EOF, and returns the bytes.
    type Drain: Job<Result = Arc<Vec<u8>>>;

    /// A reader of an end, for the caller.
    type Reader: Read + Drop;

    /// The journal, with the count of numbers and the room for more entries.
    ghost journal_view: { Self → JournalView };

    /// What the reader of the end with this number may be, before anything is read.
    ghost may_read: { ℕ → Self.Reader → Type 0 };

    /// Returns the parent's environment variables. A name may occur twice.
    fn environment(&mut self) -> Result<Vec<(String, String)>, Fault>
        ensures ok { IfOk result (λ pairs.
            Asks (Environment (Ok (map pair_text pairs.items))) (journal_view self.old)
            (journal_view self.new)) }
        ensures err { IfErr result (λ fault.
            IsRefused (Environment (Err fault)) 0 fault (journal_view self.old)
            (journal_view self.new)) };

    /// Opens a pipe. Returns its read end, then its write end.
    fn pipe(&mut self) -> Result<(Self::End, Self::End), Fault>
        ensures ok { IfOk result (λ ends.
            let read = Self.End.number_of ends.0 in
            let write = Self.End.number_of ends.1 in
            GetsEnds (Pipe (Ok (read, write))) read write (journal_view self.old)
            (journal_view self.new)) }
        ensures err { IfErr result (λ fault.
            IsRefused (Pipe (Err fault)) 0 fault (journal_view self.old) (journal_view self.new)) };

    /// Opens a file for reading.
    fn open_read(&mut self, path: &str) -> Result<Self::End, Fault>
        ensures ok { IfOk result (λ end.
            let number = Self.End.number_of end in
            GetsEnd (OpenRead path.now (Ok number)) number (journal_view self.old)
            (journal_view self.new)) }
        ensures err { IfErr result (λ fault.
            IsRefused (OpenRead path.now (Err fault)) 0 fault (journal_view self.old)
            (journal_view self.new)) };

    /// Opens a file for writing. The file is created, or truncated if it exists.
    fn create(&mut self, path: &str) -> Result<Self::End, Fault>
        ensures ok { IfOk result (λ end.
            let number = Self.End.number_of end in
            GetsEnd (Create path.now (Ok number)) number (journal_view self.old)
            (journal_view self.new)) }
        ensures err { IfErr result (λ fault.
            IsRefused (Create path.now (Err fault)) 0 fault (journal_view self.old)
            (journal_view self.new)) };

    /// Returns one more end of what the borrowed end reads or writes.
    fn duplicate(&mut self, end: &Self::End) -> Result<Self::End, Fault>
        ensures ok { IfOk result (λ made.
            let lent = Self.End.number_of end.now in
            let number = Self.End.number_of made in
            GetsEnd (Duplicate lent (Ok number)) number (journal_view self.old)
            (journal_view self.new)) }
        ensures err { IfErr result (λ fault.
            let lent = Self.End.number_of end.now in
            IsRefused (Duplicate lent (Err fault)) 0 fault (journal_view self.old)
            (journal_view self.new)) };

    /// Returns one more end of the parent's own stdout or stderr.
    fn parent(&mut self, side: Side) -> Result<Self::End, Fault>
        ensures ok { IfOk result (λ made.
            let number = Self.End.number_of made in
            GetsEnd (Parent side (Ok number)) number (journal_view self.old)
            (journal_view self.new)) }
        ensures err { IfErr result (λ fault.
            IsRefused (Parent side (Err fault)) 0 fault (journal_view self.old)
            (journal_view self.new)) };

    /// Returns the canonical path of a path.
    fn canonicalize(&mut self, path: &str) -> Result<String, Fault>
        ensures ok { IfOk result (λ text.
            Asks (Canonicalize path.now (Ok (string_bytes text))) (journal_view self.old)
            (journal_view self.new)) }
        ensures err { IfErr result (λ fault.
            IsRefused (Canonicalize path.now (Err fault)) 0 fault (journal_view self.old)
            (journal_view self.new)) };

    /// Starts a child with these streams, in the order stdin, stdout, stderr. If none of them is an
    /// end, there may be no memory for the entry.
    fn spawn(&mut self, spec: CommandSpec, io: [Stdio<Self::End>; 3]) -> Result<Self::Child, Fault>
        requires { min 1 (length (ends_of io)) ≤ (journal_view self.old).room }
        ensures ok { IfOk result (λ child. StartsChild Self.End.number_of spec io
            (Self.Child.number_of child) (journal_view self.old) (journal_view self.new)) }
        ensures unasked { IfOk result (λ child. IsUnasked (Self.Child.child_view child)) }
        ensures err { IfErr result
            (λ fault. RefusesChild Self.End.number_of spec io fault
            (journal_view self.old) (journal_view self.new)) };

    /// Starts a worker that writes the bytes to the end and then closes it.
    fn start_feed(&mut self, end: Self::End, bytes: Arc<Vec<u8>>) -> Result<Self::Feed, Fault>
        requires { 0 < (journal_view self.old).room }
        ensures ok { IfOk result (λ job.
            let entry = Feed (Self.End.number_of end) (arc_value bytes).items (Ok tt) in
            GivesEnds entry 1 (journal_view self.old) (journal_view self.new)) }
        ensures unasked { IfOk result
            (λ job. Self.Feed.job_view job ≡ unpolled_job (Self.End.number_of end)) }
        ensures err { IfErr result (λ fault.
            let entry = Feed (Self.End.number_of end) (arc_value bytes).items (Err fault) in
            GivesEnds entry 1 (journal_view self.old) (journal_view self.new)) };

    /// Starts a worker that reads the end to EOF, closes it and returns the bytes.
    fn start_drain(&mut self, end: Self::End) -> Result<Self::Drain, Fault>
        requires { 0 < (journal_view self.old).room }
        ensures ok { IfOk result (λ job.
            GivesEnds (Drain (Self.End.number_of end) (Ok tt)) 1 (journal_view self.old)
            (journal_view self.new)) }
        ensures unasked { IfOk result
            (λ job. Self.Drain.job_view job ≡ unpolled_job (Self.End.number_of end)) }
        ensures err { IfErr result (λ fault.
            GivesEnds (Drain (Self.End.number_of end) (Err fault)) 1 (journal_view self.old)
            (journal_view self.new)) };

    /// Returns a reader of the end. It can't fail. An implementation must not allocate here; no
    /// clause states this.
    fn reader(&mut self, end: Self::End) -> Self::Reader
        requires { 0 < (journal_view self.old).room }
        ensures added { GivesEnds (Reader (Self.End.number_of end)) 1 (journal_view self.old)
            (journal_view self.new) }
        ensures told { may_read (Self.End.number_of end) result };

    /// Closes the end. It can't fail. An implementation must not allocate here; no clause states
    /// this.
    fn close(&mut self, end: Self::End)
        requires { 0 < (journal_view self.old).room }
        ensures { GivesEnds (Close (Self.End.number_of end)) 1 (journal_view self.old)
            (journal_view self.new) };

    /// Returns the entries so far, oldest first.
    fn journal(&self) -> &[Entry]
        ensures { map entry_view result.now ≡ (journal_view self.now).entries };

    /// Clears the journal. The count of numbers isn't reset.
    fn clear_journal(&mut self)
        ensures { IsCleared (journal_view self.old) (journal_view self.new) };

    /// Three streams fit in memory.
    ghost streams_fit: { StreamsFit Self.End.row };

    /// A drain that returns its result again returns the same bytes.
    ghost same_bytes: { MeansSameBytes Self.Drain.same };

    /// One more owner of a feed's result can always be made.
    ghost feeds_say_again: { ¬ Self.Feed.refusable };
}

/// A system whose ends a caller can also write, as `System::reader` lets one read them.
pub trait Writers: System {
    /// A writer to an end, for the caller. Dropping it closes the end.
    type Writer: Write + Drop;

    /// Returns a writer to the end. It can't fail. The entry says that the end was closed, since no
    /// request can name it any more. An implementation must not allocate here; no clause states
    /// this.
    fn writer(&mut self, end: Self::End) -> Self::Writer
        requires { 0 < (Self.journal_view self.old).room }
        ensures { GivesEnds (Close (Self.End.number_of end)) 1 (Self.journal_view self.old)
            (Self.journal_view self.new) };
}
