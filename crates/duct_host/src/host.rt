//! The host: a system over the real machine.
ghost use Rattle.std.specs.Prelude.{◌≡◌, ◌≢◌, ◌⊎◌, ◌+◌, ◌-◌, ◌^◌, ◌<◌, ◌≤◌, [], map, min, Ok, Err, IfOk, IfErr};
ghost use Rattle.duct_system.specs.Journal.{IsNew};
ghost use Rattle.duct_system.specs.SpecView.{leads, pair_text};
ghost use Rattle.duct_system.specs.declared.system.Kind.TheVariants.{Other, OutOfMemory};
ghost use Rattle.duct_host.specs.Commands.{IsCommandOf};
ghost use Rattle.duct_host.specs.Steps.{OnlyCounts};

use crate::child::Child;
use crate::end::End;
use crate::environment::{copy_of, variables};
use crate::fault::{ask, no_memory};
use crate::leader::look_up;
use crate::opened::{canonical_twice, descriptor_of, names_of, open_to_read, open_to_write};
use crate::parents::Parents;
use crate::reader::{Reader, Writer};
use crate::spawn::{all_wired, start};
use crate::standard::Standard;
use duct_base::journal::Journal;
use duct_base::spawn::{spawn_numbered_drain, spawn_numbered_feed};
use duct_base::spec::CommandSpec;
use duct_base::streams::{number_of, numbered_streams};
use duct_base::system::{Entry, Fault, Kind, Numbered, Side, Stdio, System, Writers};
use duct_base::worker::Worker;
use std::alloc::{AllocError, Global};
use std::fs::File;
use std::io;
use std::io::{PipeReader, PipeWriter};
use std::marker::Model;
use std::os::fd::OwnedFd;
use std::process::{ChildStdin, ChildStdout, Processes};
use std::rt::{Env, Files};
use std::sync::Arc;
use std::thread::Threads;

/// A system over the real machine, by the runtime `R`, with its journal. Each request of a start
/// adds an entry: a program that runs for long empties the journal between two starts, by
/// `clear_journal`.
///
/// It owns none of the ends that it returns: whoever has one closes it. Where a standard stream was
/// closed when the host was made, `/dev/null` is open in its place until the host is dropped, for
/// both reading and writing, and a child that inherits that stream gets a duplicate of it.
#[derive(Drop)]
pub struct Host<R> {
    rt: R,
    alloc: Global,
    standard: Standard,
    journal: Journal,
}

/// What contracts see of a host is its journal.
impl<R> Model for Host<R> {
    ghost use Rattle.duct_system.specs.Journal.{JournalView};

    ghost Value = { JournalView };

    ghost view = { λ h. h.journal };
}

impl<R: Files<File = File>> Host<R> {
    /// Makes a host with an empty journal. It keeps the runtime, for which a reference is enough,
    /// and takes its memory from this allocator. It can't fail and doesn't block.
    ///
    /// It opens `/dev/null` in place of each standard stream that is closed. A second host that is
    /// made while the first one lives doesn't know which these were: a child that inherits such a
    /// stream through it gets none.
    ///
    /// Example: `let mut host = Host::new(&rt, rt.alloc());`
    pub fn new(rt: R, alloc: Global) -> Host<R>
        ensures { result ≡ record { entries = []; added = 0; next = 1; room = 0 } }
    {
        let standard = Standard::fill(&rt);
        Host {
            rt,
            alloc,
            standard,
            journal: Journal::new(alloc),
        }
    }
}

impl<R> Host<R> {
    /// Returns the allocator that the host takes its memory from.
    pub fn allocator(&self) -> Global {
        self.alloc
    }

    /// Makes an end of an open file, with the next number, for `stdin_file`, `stdout_file`,
    /// `stderr_file` or a hook. It owns the file from then on, whose position is kept. It adds no
    /// entry to the journal and doesn't block.
    ///
    /// Fails with a fault of kind `Other` where no number is left; the file is then closed.
    ///
    /// Example: `let end = host.adopt_file(file)?;`
    pub fn adopt_file(&mut self, file: File) -> Result<End, Fault>
        ensures ok { IfOk result
            (λ end. (end ≡ self.old.next)
            × (self.new ≡ record self.old { next = self.old.next + 1 })) }
        ensures err { IfErr result
            (λ fault. (fault.kind ≡ Other) × (self.new ≡ self.old) × (2 ^ 64 ≤ self.old.next + 1)) }
    {
        let number = self.take_number()?;
        Ok(End::new(number, OwnedFd::from(file)))
    }

    /// Makes an end of the read end of a pipe, as `adopt_file` makes one of a file.
    ///
    /// Example: `let end = host.adopt_reader(reader)?;`
    pub fn adopt_reader(&mut self, reader: PipeReader) -> Result<End, Fault>
        ensures ok { IfOk result
            (λ end. (end ≡ self.old.next)
            × (self.new ≡ record self.old { next = self.old.next + 1 })) }
        ensures err { IfErr result
            (λ fault. (fault.kind ≡ Other) × (self.new ≡ self.old) × (2 ^ 64 ≤ self.old.next + 1)) }
    {
        let number = self.take_number()?;
        Ok(End::new(number, OwnedFd::from(reader)))
    }

    /// Makes an end of the write end of a pipe, as `adopt_file` makes one of a file. A reader of
    /// the pipe finds EOF only once this end is closed too.
    ///
    /// Example: `let end = host.adopt_writer(writer)?;`
    pub fn adopt_writer(&mut self, writer: PipeWriter) -> Result<End, Fault>
        ensures ok { IfOk result
            (λ end. (end ≡ self.old.next)
            × (self.new ≡ record self.old { next = self.old.next + 1 })) }
        ensures err { IfErr result
            (λ fault. (fault.kind ≡ Other) × (self.new ≡ self.old) × (2 ^ 64 ≤ self.old.next + 1)) }
    {
        let number = self.take_number()?;
        Ok(End::new(number, OwnedFd::from(writer)))
    }

    /// The next number. Fails with `Other` where none is left.
    fn take_number(&mut self) -> Result<u64, Fault>
        ensures ok { IfOk result
            (λ number. (number ≡ self.old.next)
            × (self.new ≡ record self.old { next = self.old.next + 1 })) }
        ensures err { IfErr result
            (λ fault. (fault.kind ≡ Other) × (self.new ≡ self.old) × (2 ^ 64 ≤ self.old.next + 1)) }
    {
        match self.journal.take_numbers(1) {
            Some(number) => Ok(number),
            None => Err(Fault::new(Kind::Other)),
        }
    }

    /// An end with the next number, if one is left and the machine gave its descriptor.
    fn numbered(&mut self, answer: Result<OwnedFd, Fault>) -> Result<End, Fault>
        ensures kept { OnlyCounts self.old self.new }
        ensures fresh { IfOk result (λ end. IsNew self.old self.new end) }
    {
        let fd = answer?;
        Ok(End::new(self.take_number()?, fd))
    }
}

impl<R: Processes + Files<File = File> + Env + Parents + Clone + Drop> Host<R> {
    ghost use Rattle.duct_system.specs.Child.{IsUnasked};
    ghost use Rattle.duct_host.specs.ChildView.{child_view};

    /// Two ends of a new pipe, with the next two numbers.
    fn new_pipe(&mut self) -> Result<(End, End), Fault>
        ensures kept { OnlyCounts self.old self.new }
        ensures fresh { IfOk result
            (λ ends. IsNew self.old self.new ends.0 × IsNew self.old self.new ends.1
            × (ends.0 ≢ ends.1)) }
    {
        let (reader, writer) = ask(|| io::pipe(&self.rt))?;
        let read = self.adopt_reader(reader)?;
        let write = self.adopt_writer(writer)?;
        Ok((read, write))
    }

    /// Starts a child with the next number, which is taken before any call to the machine. Each end
    /// among its streams is closed here, also where the start fails.
    fn new_child(&mut self, spec: &CommandSpec, io: [Stdio<End>; 3]) -> Result<Child<R>, Fault>
        ensures kept { OnlyCounts self.old self.new }
        ensures fresh { IfOk result (λ child. IsNew self.old self.new child.number) }
        ensures unasked { IfOk result (λ child. IsUnasked (child_view child)) }
        ensures command { IfOk result (λ child. IsCommandOf spec.now child.command.value) }
        ensures leads { IfOk result (λ child. child.leads ≡ leads spec.now.words) }
    {
        let number = self.take_number()?;
        let Ok(rt) = self.rt.clone() else {
            return Err(no_memory());
        };
        if spec.leads() {
            look_up(&self.rt, self.alloc, spec)?;
        }
        let streams = all_wired(io, &self.standard)?;
        let started = start(&self.rt, self.alloc, spec, streams)?;
        Ok(Child::new(rt, self.alloc, number, spec.leads(), started))
    }
}

impl<R: Threads> Host<R> {
    ghost use Rattle.duct_system.specs.Job.{unpolled_job};
    ghost use Rattle.duct_base.specs.WorkerView.{worker_view};

    /// Starts a worker that writes the bytes to the end and closes it. Where that fails the end is
    /// closed, and nothing was written.
    fn new_feed(&self, end: End, bytes: &Arc<Vec<u8>>) -> Result<Worker<()>, Fault>
        ensures ok { IfOk result (λ worker. worker_view worker ≡ unpolled_job end) }
        ensures err { IfErr result
            (λ fault. (fault.kind ≡ OutOfMemory) ⊎ (fault.kind ≡ Other)) }
    {
        let number = end.number();
        let Ok(theirs) = Arc::try_clone(bytes) else {
            return Err(no_memory());
        };
        let writer = ChildStdin::from(end.into_descriptor());
        spawn_numbered_feed(&self.rt, self.alloc, number, writer, theirs)
    }

    /// Starts a worker that reads the end to EOF and closes it. Where that fails the end is closed,
    /// and nothing was read.
    fn new_drain(&self, end: End) -> Result<Worker<Arc<Vec<u8>>>, Fault>
        ensures ok { IfOk result (λ worker. worker_view worker ≡ unpolled_job end) }
        ensures err { IfErr result
            (λ fault. (fault.kind ≡ OutOfMemory) ⊎ (fault.kind ≡ Other)) }
    {
        let number = end.number();
        let reader = ChildStdout::from(end.into_descriptor());
        spawn_numbered_drain(&self.rt, self.alloc, number, reader)
    }
}

/// `open_read` and `create` block where the path is a FIFO, until its other side is opened; no
/// other request blocks. Each worker is a thread of its own. A variable of the parent that is not
/// UTF-8, or that has no name or no `=`, is left out of the environment.
///
/// A reader knows the number of its end. What the machine gives through it is left open.
impl<R: Processes + Files<File = File> + Env + Parents + Threads + Clone + Drop> System
    for Host<R> {
    ghost use Rattle.std.specs.Prelude.{◌≤◌, length, min, IfOk, IfErr};
    ghost use Rattle.std.proofs.Common.{lit<};
    ghost use Rattle.duct_system.specs.Child.{IsUnasked};
    ghost use Rattle.duct_system.specs.Journal.{RefusesChild, StartsChild};
    ghost use Rattle.duct_system.specs.Streams.{ends_of};
    ghost use Rattle.duct_host.specs.ChildView.{child_view};

    type End = End;

    type Child = Child<R>;

    type Feed = Worker<()>;

    type Drain = Worker<Arc<Vec<u8>>>;

    type Reader = Reader;

    ghost journal_view = { λ h. h };

    ghost may_read = { λ number reader. reader.number ≡ number };

    fn environment(&mut self) -> Result<Vec<(String, String)>, Fault> {
        self.journal.prepare(0)?;
        match variables_twice(&self.rt, self.alloc) {
            Ok((pairs, kept)) => {
                self.journal.add(Entry::Environment(Ok(kept)));
                Ok(pairs)
            }
            Err(_) => {
                let fault = no_memory();
                self.journal.add(Entry::Environment(Err(fault)));
                Err(fault)
            }
        }
    }

    fn pipe(&mut self) -> Result<(End, End), Fault> {
        self.journal.prepare(2)?;
        match self.new_pipe() {
            Ok((reader, writer)) => {
                let entry = Entry::Pipe(Ok((reader.number(), writer.number())));
                self.journal.add(entry);
                Ok((reader, writer))
            }
            Err(fault) => {
                self.journal.give_back(2);
                self.journal.add(Entry::Pipe(Err(fault)));
                Err(fault)
            }
        }
    }

    fn open_read(&mut self, path: &str) -> Result<End, Fault> {
        let kept = self.journal.prepare_named(path, 1)?;
        let opened = open_to_read(&self.rt, &kept);
        let made = self.numbered(descriptor_of(opened, &kept));
        self.journal.add(Entry::OpenRead(kept, number_of(&made)));
        self.journal.got(made)
    }

    fn create(&mut self, path: &str) -> Result<End, Fault> {
        let kept = self.journal.prepare_named(path, 1)?;
        let opened = open_to_write(&self.rt, &kept);
        let made = self.numbered(descriptor_of(opened, &kept));
        self.journal.add(Entry::Create(kept, number_of(&made)));
        self.journal.got(made)
    }

    fn duplicate(&mut self, end: &End) -> Result<End, Fault> {
        self.journal.prepare(1)?;
        let made = self.numbered(ask(|| end.descriptor().try_clone()));
        self.journal
            .add(Entry::Duplicate(end.number(), number_of(&made)));
        self.journal.got(made)
    }

    fn parent(&mut self, side: Side) -> Result<End, Fault> {
        self.journal.prepare(1)?;
        let answer = match side {
            Side::Out => ask(|| self.rt.duplicate_stdout()),
            Side::Err => ask(|| self.rt.duplicate_stderr()),
        };
        let made = self.numbered(answer);
        self.journal.add(Entry::Parent(side, number_of(&made)));
        self.journal.got(made)
    }

    fn canonicalize(&mut self, path: &str) -> Result<String, Fault> {
        let kept = self.journal.prepare_named(path, 0)?;
        let found = canonical_twice(&self.rt, self.alloc, &kept);
        match names_of(found, &kept) {
            Ok((text, noted)) => {
                self.journal.add(Entry::Canonicalize(kept, Ok(noted)));
                Ok(text)
            }
            Err(fault) => {
                self.journal.add(Entry::Canonicalize(kept, Err(fault)));
                Err(fault)
            }
        }
    }

    fn spawn(&mut self, spec: CommandSpec, io: [Stdio<End>; 3]) -> Result<Child<R>, Fault>
        requires { min 1 (length (ends_of io)) ≤ self.old.room }
        ensures ok { IfOk result (λ child. StartsChild (λ e. e) spec io
            child.number self.old self.new) }
        ensures unasked { IfOk result (λ child. IsUnasked (child_view child)) }
        ensures command { IfOk result (λ child. IsCommandOf spec child.command.value) }
        ensures leads { IfOk result (λ child. child.leads ≡ leads spec.words) }
        ensures err { IfErr result
            (λ fault. RefusesChild (λ e. e) spec io fault self.old self.new) }
    {
        let (kept, ends) = numbered_streams(&io);
        self.journal.prepare_spawn(ends)?;
        match self.new_child(&spec, io) {
            Ok(child) => {
                self.journal
                    .add(Entry::Spawn(spec, kept, Ok(child.number())));
                Ok(child)
            }
            Err(fault) => {
                self.journal.add(Entry::Spawn(spec, kept, Err(fault)));
                Err(fault)
            }
        }
    }

    fn start_feed(&mut self, end: End, bytes: Arc<Vec<u8>>) -> Result<Worker<()>, Fault> {
        let number = end.number();
        match self.new_feed(end, &bytes) {
            Ok(worker) => {
                self.journal.add(Entry::Feed(number, bytes, Ok(())));
                Ok(worker)
            }
            Err(fault) => {
                self.journal.add(Entry::Feed(number, bytes, Err(fault)));
                Err(fault)
            }
        }
    }

    fn start_drain(&mut self, end: End) -> Result<Worker<Arc<Vec<u8>>>, Fault> {
        let number = end.number();
        match self.new_drain(end) {
            Ok(worker) => {
                self.journal.add(Entry::Drain(number, Ok(())));
                Ok(worker)
            }
            Err(fault) => {
                self.journal.add(Entry::Drain(number, Err(fault)));
                Err(fault)
            }
        }
    }

    fn reader(&mut self, end: End) -> Reader {
        let number = end.number();
        self.journal.add(Entry::Reader(number));
        Reader::new(number, end.into_descriptor())
    }

    fn close(&mut self, end: End) {
        self.journal.add(Entry::Close(end.number()));
        drop(end);
    }

    fn journal(&self) -> &[Entry] {
        self.journal.entries()
    }

    fn clear_journal(&mut self) {
        self.journal.clear();
    }

    ghost streams_fit = { lit< tt };

    ghost same_bytes = { λ one other same. same };

    ghost feeds_say_again = { λ refusable. refusable };
}

impl<R: Processes + Files<File = File> + Env + Parents + Threads + Clone + Drop> Writers
    for Host<R> {
    type Writer = Writer;

    fn writer(&mut self, end: End) -> Writer {
        self.journal.add(Entry::Close(end.number()));
        Writer::new(end.into_descriptor())
    }
}

/// The variables of the environment, and a copy of them for the journal.
fn variables_twice<R: Parents + Env>(
    rt: &R,
    alloc: Global,
) -> Result<(Vec<(String, String)>, Vec<(String, String)>), AllocError>
    ensures { IfOk result (λ both. map pair_text both.1.items ≡ map pair_text both.0.items) }
{
    let pairs = variables(rt, alloc)?;
    let kept = copy_of(pairs.as_slice(), alloc)?;
    Ok((pairs, kept))
}
