//! A system of one's own, in a few lines over `Journal`. It starts no process: each command exits at
//! once with its own number, and each reader reads `hello`. It has no files and no workers, and
//! refuses a start that needs them. It is proved to keep the contracts of the interface to the
//! operating system, and callers over it to return what it says.
#![tactic(auto)]

ghost use Rattle.std.specs.Prelude.{◌≡◌, ◌≤◌, length, min, Some, IfOk, IfErr};
ghost use Rattle.std.specs.Arc.{arc_value};
ghost use Rattle.std.specs.Io.Cursor.{cursor_remaining};
ghost use Rattle.std.proofs.Common.{lit<, refl};
ghost use Rattle.duct_system.specs.Child.{IsUnasked};
ghost use Rattle.duct_system.specs.Job.{unpolled_job};
ghost use Rattle.duct_system.specs.Journal.{RefusesChild, StartsChild};
ghost use Rattle.duct_system.specs.Streams.{ends_of};
ghost use Rattle.system_small.specs.ChildView.{child_view};
ghost use Rattle.system_small.specs.Told.{MayAnswer, MayDrain, MayObey, printed};

use duct_base::worker::Worker;
use duct_system::journal::Journal;
use duct_system::spec::CommandSpec;
use duct_system::streams::numbered_streams;
use duct_system::system::{
    Child, Entry, ExitStatus, Fault, Job, Kind, Numbered, Order, Said, Side, Stdio, System,
};
use std::io::Cursor;
use std::sync::Arc;

mod callers;

pub use callers::{kill, read, run, wait};

const NO_MEMORY: Fault = Fault {
    kind: Kind::OutOfMemory,
};

/// An end: it has a number, and nothing else.
#[derive(Drop)]
pub struct SmallEnd(u64);

impl Numbered for SmallEnd {
    ghost number_of = { λ end. end.0 };

    fn number(&self) -> u64 {
        self.0
    }
}

/// A child that has exited with its number as its code. Orders are noted, and change nothing.
#[derive(Drop)]
pub struct SmallChild {
    number: u64,
    polls: u64,
    is_polled: bool,
    orders: Vec<(Order, Result<(), Fault>)>,
}

impl Numbered for SmallChild {
    ghost number_of = { λ child. child.number };

    fn number(&self) -> u64 {
        self.number
    }
}

impl Child for SmallChild {
    ghost may_answer = { MayAnswer };

    ghost may_obey = { λ _ _. MayObey };

    ghost child_view = { child_view };

    ghost has_number = { λ _. refl };

    fn poll(&mut self) -> Result<Option<ExitStatus>, Fault> {
        self.polls = self.polls.saturating_add(1);
        self.is_polled = true;
        let code = self.number.max(1).min(255);
        Ok(Some(ExitStatus::Code(code as i32)))
    }

    fn kill(&mut self) -> Result<(), Fault> {
        self.orders
            .push((Order::Kill, Ok(())))
            .map_err(|_| NO_MEMORY)
    }

    fn signal(&mut self, signal: i32) -> Result<(), Fault> {
        self.orders
            .push((Order::Signal(signal), Ok(())))
            .map_err(|_| NO_MEMORY)
    }

    fn id(&self) -> u32 {
        self.number.min(u64::from(u32::MAX)) as u32
    }

    fn leads(&self) -> bool {
        false
    }
}

/// A worker that reads an end, and never ends. None is started.
#[derive(Drop)]
pub struct SmallDrain {
    number: u64,
    polls: u64,
}

impl Numbered for SmallDrain {
    ghost number_of = { λ drain. drain.number };

    fn number(&self) -> u64 {
        self.number
    }
}

impl Job for SmallDrain {
    type Result = Arc<Vec<u8>>;

    ghost same = { λ one other. (arc_value other).items ≡ (arc_value one).items };

    ghost refusable = { ⊥ };

    ghost may_say = { MayDrain };

    ghost job_view = { λ drain. record (unpolled_job drain.number) { polls = drain.polls } };

    ghost has_number = { λ _. refl };

    fn poll(&mut self) -> Said<Arc<Vec<u8>>> {
        self.polls = self.polls.saturating_add(1);
        Said::Running
    }
}

/// The system: a journal, and nothing else.
#[derive(Drop)]
pub struct SmallSystem(pub Journal);

impl System for SmallSystem {
    type End = SmallEnd;

    type Child = SmallChild;

    type Feed = Worker<()>;

    type Drain = SmallDrain;

    type Reader = Cursor<[u8; 5]>;

    ghost journal_view = { λ system. system.0 };

    ghost may_read = { λ _ reader. cursor_remaining (λ bytes. Some bytes) reader ≡ Some printed };

    ghost streams_fit = { lit< tt };

    ghost same_bytes = { λ one other same. same };

    ghost feeds_say_again = { λ refusable. refusable };

    fn environment(&mut self) -> Result<Vec<(String, String)>, Fault> {
        self.0.prepare(0)?;
        let alloc = self.0.allocator();
        self.0.add(Entry::Environment(Ok(Vec::new(alloc))));
        Ok(Vec::new(alloc))
    }

    fn pipe(&mut self) -> Result<(SmallEnd, SmallEnd), Fault> {
        self.0.prepare(2)?;
        let read = self.0.take_numbers(2).ok_or(NO_MEMORY)?;
        self.0.add(Entry::Pipe(Ok((read, read + 1))));
        Ok((SmallEnd(read), SmallEnd(read + 1)))
    }

    fn open_read(&mut self, _path: &str) -> Result<SmallEnd, Fault> {
        Err(NO_MEMORY)
    }

    fn create(&mut self, _path: &str) -> Result<SmallEnd, Fault> {
        Err(NO_MEMORY)
    }

    fn duplicate(&mut self, _end: &SmallEnd) -> Result<SmallEnd, Fault> {
        Err(NO_MEMORY)
    }

    fn parent(&mut self, _side: Side) -> Result<SmallEnd, Fault> {
        Err(NO_MEMORY)
    }

    fn canonicalize(&mut self, _path: &str) -> Result<String, Fault> {
        Err(NO_MEMORY)
    }

    fn spawn(&mut self, spec: CommandSpec, io: [Stdio<SmallEnd>; 3]) -> Result<SmallChild, Fault>
        requires { min 1 (length (ends_of io)) ≤ self.old.0.room }
        ensures ok { IfOk result (λ child. StartsChild (λ end. end.0) spec io
            child.number self.old.0 self.new.0) }
        ensures unasked { IfOk result (λ child. IsUnasked (child_view child)) }
        ensures err { IfErr result
            (λ fault. RefusesChild (λ end. end.0) spec io fault self.old.0 self.new.0) }
    {
        let (streams, ends) = numbered_streams(&io);
        self.0.prepare_spawn(ends)?;
        let number = self.0.take_numbers(1).ok_or(NO_MEMORY);
        self.0.add(Entry::Spawn(spec, streams, number));
        Ok(SmallChild {
            number: number?,
            polls: 0,
            is_polled: false,
            orders: Vec::new(self.0.allocator()),
        })
    }

    fn start_feed(&mut self, end: SmallEnd, bytes: Arc<Vec<u8>>) -> Result<Worker<()>, Fault> {
        self.0.add(Entry::Feed(end.0, bytes, Err(NO_MEMORY)));
        Err(NO_MEMORY)
    }

    fn start_drain(&mut self, end: SmallEnd) -> Result<SmallDrain, Fault> {
        self.0.add(Entry::Drain(end.0, Err(NO_MEMORY)));
        Err(NO_MEMORY)
    }

    fn reader(&mut self, end: SmallEnd) -> Cursor<[u8; 5]> {
        self.0.add(Entry::Reader(end.0));
        Cursor::new(*b"hello")
    }

    fn close(&mut self, end: SmallEnd) {
        self.0.add(Entry::Close(end.0));
    }

    fn journal(&self) -> &[Entry] {
        self.0.entries()
    }

    fn clear_journal(&mut self) {
        self.0.clear();
    }
}
