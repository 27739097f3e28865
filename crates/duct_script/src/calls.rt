//! A log to which a scripted system, its children and workers, and the hooks of a test write, so
//! that a test sees the order of their calls. Threads may share it, and no call of it blocks.

use crate::requests::Sort;
use std::alloc::{AllocError, Global};
use std::sync::Arc;
use std::sync::atomic::{AtomicU64, Ordering};

/// What was called.
#[derive(Clone, Copy, Debug, PartialEq, Eq)]
pub enum Call {
    /// A request of this sort.
    Request(Sort),
    /// A hook with this label.
    Hook(u8),
    /// A poll of the child with this number.
    Poll(u64),
    /// A kill or a signal of the child with this number.
    Order(u64),
    /// A poll of the feed of the end with this number.
    PollFeed(u64),
    /// A poll of the drain of the end with this number.
    PollDrain(u64),
}

/// Calls in the order in which they were noted, up to a number that is fixed when the log is made.
#[derive(Drop)]
pub struct CallLog {
    cells: Vec<[AtomicU64; 2]>,
    noted: AtomicU64,
}

impl CallLog {
    /// Returns an empty log for `most` calls. Fails only on allocation failure.
    pub fn new(alloc: Global, most: usize) -> Result<CallLog, AllocError> {
        let mut cells = Vec::with_capacity(alloc, most)?;
        for _ in 0..most {
            cells.push([AtomicU64::new(0), AtomicU64::new(0)])?;
        }
        Ok(CallLog {
            cells,
            noted: AtomicU64::new(0),
        })
    }

    /// Notes a call. Once the log is full, calls are only counted.
    pub fn write(&self, call: Call) {
        let place = self.noted.fetch_add(1, Ordering::SeqCst);
        let (word, number) = match call {
            Call::Request(sort) => (1 + sort.place() as u64, 0),
            Call::Hook(label) => (HOOK, u64::from(label)),
            Call::Poll(child) => (POLL, child),
            Call::Order(child) => (ORDER, child),
            Call::PollFeed(end) => (POLL_FEED, end),
            Call::PollDrain(end) => (POLL_DRAIN, end),
        };
        if let Some(cell) = self.cells.get(place as usize) {
            cell[1].store(number, Ordering::SeqCst);
            cell[0].store(word, Ordering::SeqCst);
        }
    }

    /// Returns how many calls were made, including those that were only counted.
    pub fn noted(&self) -> u64 {
        self.noted.load(Ordering::SeqCst)
    }

    /// Returns the call at this place, counted from 0, or `None` if none is noted there.
    pub fn get(&self, place: usize) -> Option<Call> {
        let cell = self.cells.get(place)?;
        let word = cell[0].load(Ordering::SeqCst);
        let number = cell[1].load(Ordering::SeqCst);
        match word {
            0 => None,
            HOOK => Some(Call::Hook((number % 256) as u8)),
            POLL => Some(Call::Poll(number)),
            ORDER => Some(Call::Order(number)),
            POLL_FEED => Some(Call::PollFeed(number)),
            POLL_DRAIN => Some(Call::PollDrain(number)),
            word => Sort::at((word - 1) as usize).map(Call::Request),
        }
    }
}

/// Notes a call in the log, if there is one.
pub fn note(calls: &Option<Arc<CallLog>>, call: Call) {
    if let Some(calls) = calls {
        calls.write(call);
    }
}

/// The codes of calls that are not requests. The code of a request is 1 plus the place of its sort.
const HOOK: u64 = 100;

const POLL: u64 = 101;

const ORDER: u64 = 102;

const POLL_FEED: u64 = 103;

const POLL_DRAIN: u64 = 104;
