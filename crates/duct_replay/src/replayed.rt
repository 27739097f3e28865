//! The children, workers and readers of a replay.
ghost use Rattle.std.specs.Prelude.{◌≡◌, refl, Some, ◌≤◌, ◌++◌, min, take, drop, length, option_map};
ghost use Rattle.std.specs.Io.{ReadsAtMost};
ghost use Rattle.std.specs.Io.KnownBytes.{ReadConsumes};
ghost use Rattle.std.specs.Option.{ForSome};
ghost use Rattle.duct_system.specs.Child.{IsUnasked, OrdersChild, PollsChild};
ghost use Rattle.duct_replay.specs.RecordingView.{HasRead, IsEnded, IsObeyed, MayRead, SameBytes, SaysBytes, bytes_of, had, told_of};
ghost use Rattle.duct_system.specs.Job.{PollsJob, unpolled_job};
ghost use Rattle.duct_system.specs.declared.system.Said.TheVariants as said;

use crate::found::{no_memory, unrecorded};
use duct_system::system::{Child, ExitStatus, Fault, Job, Numbered, Order, Said};
use std::alloc::Global;
use std::io::{self, ErrorKind, Read};
use std::snapshot::Snapshot;
use std::sync::Arc;

/// A child that has ended as the recorded one did. Where that isn't recorded, each poll fails with
/// `Other`. Orders are noted, and change nothing.
#[derive(Drop)]
pub struct ReplayChild {
    number: u64,
    status: Option<ExitStatus>,
    polls: u64,
    last: Option<Result<Option<ExitStatus>, Fault>>,
    ending: Option<ExitStatus>,
    orders: Vec<(Order, Result<(), Fault>)>,
    ghost ended: { ForSome ending (λ found. status ≡ Some found) },
}

impl ReplayChild {
    ghost use Rattle.duct_replay.specs.Replays.{child_view};

    /// Returns the child with this number, which ended with this status if it is recorded, before
    /// any poll or order.
    pub fn new(alloc: Global, number: u64, status: Option<ExitStatus>) -> ReplayChild
        ensures number { result.number ≡ number }
        ensures status { result.status ≡ status }
        ensures unasked { IsUnasked (child_view result) }
    {
        ReplayChild {
            number,
            status,
            polls: 0,
            last: None,
            ending: None,
            orders: Vec::new(alloc),
        }
    }

    /// Returns the orders that were noted, with their results.
    pub fn orders(&self) -> &[(Order, Result<(), Fault>)]
        ensures { result.now ≡ self.now.orders.items }
    {
        self.orders.as_slice()
    }

    // Notes an order that is obeyed. Fails with `OutOfMemory` if there is no memory to note it.
    fn note(&mut self, order: Order) -> Result<(), Fault>
        ensures { OrdersChild (λ _ _. IsObeyed) order (child_view self.old) result
            (child_view self.new) }
    {
        self.orders.push((order, Ok(()))).map_err(|_| no_memory())
    }
}

impl Numbered for ReplayChild {
    ghost number_of = { λ child. child.number };

    fn number(&self) -> u64 {
        self.number
    }
}

impl Child for ReplayChild {
    ghost use Rattle.duct_replay.specs.Replays.{child_view};

    ghost may_answer = { IsEnded };

    ghost may_obey = { λ _ _. IsObeyed };

    ghost child_view = { child_view };

    fn poll(&mut self) -> Result<Option<ExitStatus>, Fault>
        ensures polled { PollsChild IsEnded (child_view self.old) result (child_view self.new) }
        ensures told { result ≡ told_of self.old.status }
        ensures status { self.new.status ≡ self.old.status }
    {
        self.polls = self.polls.saturating_add(1);
        self.ending = self.status;
        let answer = match self.status {
            Some(status) => Ok(Some(status)),
            None => Err(unrecorded()),
        };
        self.last = Some(answer);
        answer
    }

    fn kill(&mut self) -> Result<(), Fault> {
        self.note(Order::Kill)
    }

    fn signal(&mut self, signal: i32) -> Result<(), Fault> {
        self.note(Order::Signal(signal))
    }

    fn id(&self) -> u32 {
        self.number.min(u64::from(u32::MAX)) as u32
    }

    fn leads(&self) -> bool {
        false
    }

    ghost has_number = { λ _. refl };
}

/// A worker that has written its bytes: each poll returns `Done`.
#[derive(Drop)]
pub struct ReplayFeed {
    number: u64,
    polls: u64,
    is_done: bool,
}

impl ReplayFeed {
    ghost use Rattle.duct_replay.specs.Replays.{feed_view};

    /// Returns the worker of the end with this number, before any poll.
    pub fn new(number: u64) -> ReplayFeed
        ensures { feed_view result ≡ unpolled_job number }
    {
        ReplayFeed {
            number,
            polls: 0,
            is_done: false,
        }
    }
}

impl Numbered for ReplayFeed {
    ghost number_of = { λ feed. feed.number };

    fn number(&self) -> u64 {
        self.number
    }
}

impl Job for ReplayFeed {
    ghost use Rattle.duct_replay.specs.Replays.{feed_view};

    type Result = ();

    ghost same = { λ _ _. Unit {0} };

    ghost refusable = { ⊥ };

    ghost may_say = { λ _ heard. heard ≡ said.Done tt };

    ghost job_view = { feed_view };

    fn poll(&mut self) -> Said<()> {
        self.polls = self.polls.saturating_add(1);
        self.is_done = true;
        Said::Done(())
    }

    ghost has_number = { λ _. refl };
}

/// A worker that has read what was recorded of its end: each poll returns these bytes, or `Running`
/// where they can have no further owner. Where nothing is recorded, each poll fails with `Other`.
#[derive(Drop)]
pub struct ReplayDrain {
    number: u64,
    bytes: Option<Arc<Vec<u8>>>,
    polls: u64,
    is_done: bool,
    kept: Snapshot<Said<Arc<Vec<u8>>>>,
    ghost same_bytes: { SaysBytes is_done (option_map bytes_of bytes) kept.value },
}

impl ReplayDrain {
    ghost use Rattle.duct_replay.specs.Replays.{drain_view};

    /// Returns the worker of the end with this number, before any poll. It has read these bytes, if
    /// they are recorded.
    pub fn new(number: u64, bytes: Option<Arc<Vec<u8>>>) -> ReplayDrain
        ensures job { drain_view result ≡ unpolled_job number }
        ensures bytes { result.bytes ≡ bytes }
    {
        ReplayDrain {
            number,
            bytes,
            polls: 0,
            is_done: false,
            kept: Snapshot::of(&Said::Running),
        }
    }
}

impl Numbered for ReplayDrain {
    ghost number_of = { λ drain. drain.number };

    fn number(&self) -> u64 {
        self.number
    }
}

impl Job for ReplayDrain {
    ghost use Rattle.duct_replay.specs.Replays.{drain_view};

    type Result = Arc<Vec<u8>>;

    ghost same = { SameBytes };

    ghost refusable = { Unit {0} };

    ghost may_say = { MayRead };

    ghost job_view = { drain_view };

    fn poll(&mut self) -> Said<Arc<Vec<u8>>>
        ensures polled { PollsJob MayRead SameBytes (Unit {0}) (drain_view self.old) result
            (drain_view self.new) }
        ensures read { HasRead (option_map bytes_of self.old.bytes) result }
        ensures bytes { self.new.bytes ≡ self.old.bytes }
    {
        self.polls = self.polls.saturating_add(1);
        let said = match &self.bytes {
            Some(bytes) => match Arc::try_clone(bytes) {
                Ok(shared) => Said::Done(shared),
                Err(_) => return Said::Running,
            },
            None => Said::Fault(unrecorded()),
        };
        if !self.is_done {
            self.is_done = true;
            self.kept = Snapshot::of(&said);
        }
        said
    }

    ghost has_number = { λ _. refl };
}

/// A reader that reads what was recorded of its end. Where nothing is recorded, each read fails
/// with `Other`, and where the bytes could have no further owner, with `OutOfMemory`.
#[derive(Drop)]
pub struct ReplayReader {
    number: u64,
    bytes: Result<Option<Arc<Vec<u8>>>, Fault>,
    given: usize,
    ghost within: { ForSome (had bytes) (λ bytes. given ≤ length (bytes_of bytes)) },
}

impl ReplayReader {
    /// Returns the reader of these bytes, before anything is read.
    pub fn new(number: u64, bytes: Result<Option<Arc<Vec<u8>>>, Fault>) -> ReplayReader
        ensures number { result.number ≡ number }
        ensures bytes { result.bytes ≡ bytes }
        ensures given { result.given ≡ 0 }
    {
        ReplayReader {
            number,
            bytes,
            given: 0,
        }
    }
}

// Copies bytes into the buffer, as many as it holds, and returns how many.
fn give(bytes: &[u8], buf: &mut [u8]) -> usize
    ensures count { result ≡ min (length bytes.now) (length buf.new) }
    ensures bytes { bytes.now ≡ take result buf.new ++ drop result bytes.now }
{
    let count = bytes.len().min(buf.len());
    let (front, _) = buf.split_at_mut(count);
    front.copy_from_slice(&bytes[..count]);
    count
}

impl Read for ReplayReader {
    ghost use Rattle.duct_replay.specs.Replays.{ReadsOf, left_of};

    ghost remaining = { left_of };

    fn read(&mut self, buf: &mut [u8]) -> io::Result<usize>
        ensures bound { ReadsAtMost result buf.new }
        ensures bytes { ReadConsumes (left_of self.old) (left_of self.new) result buf.new }
        ensures told { ReadsOf self.old.bytes self.old.given (length buf.new) result }
        ensures same { self.new.bytes ≡ self.old.bytes }
    {
        let bytes = match &self.bytes {
            Ok(Some(bytes)) => bytes,
            Ok(None) => return Err(io::Error::from(ErrorKind::Other)),
            Err(_) => return Err(io::Error::from(ErrorKind::OutOfMemory)),
        };
        let count = give(&bytes.as_slice()[self.given..], buf);
        self.given += count;
        Ok(count)
    }
}
