//! A gate at which a test makes threads wait, and readers and writers that wait there.

use std::alloc::{AllocError, Global};
use std::io;
use std::io::{Read, Write};
use std::sync::Arc;
use std::sync::atomic::{AtomicU64, Ordering};
use std::thread::yield_now;

/// A gate that a test shuts and opens. Its owners share it, in any threads.
#[derive(Drop)]
pub struct Gate {
    state: Arc<GateState>,
}

#[derive(Drop)]
struct GateState {
    shut: AtomicU64,
    standing: AtomicU64,
}

/// How often a thread checks whether a gate was opened. Then it goes on anyway, so that each test
/// ends.
const MOST_LOOKS: u64 = 20_000_000;

impl Gate {
    /// Returns an open gate. Fails only on allocation failure.
    pub fn new(alloc: Global) -> Result<Gate, AllocError> {
        let state = GateState {
            shut: AtomicU64::new(0),
            standing: AtomicU64::new(0),
        };
        Ok(Gate {
            state: Arc::new(alloc, state)?,
        })
    }

    /// Returns one more owner of the gate. Fails only if its `Arc` can't be cloned.
    pub fn share(&self) -> Result<Gate, AllocError> {
        Ok(Gate {
            state: Arc::try_clone(&self.state)?,
        })
    }

    /// Shuts the gate: from now on, `pass` waits.
    pub fn shut(&self) {
        self.state.shut.store(1, Ordering::SeqCst);
    }

    /// Opens the gate.
    pub fn open(&self) {
        self.state.shut.store(0, Ordering::SeqCst);
    }

    /// Returns how many threads wait at the gate.
    pub fn standing(&self) -> u64 {
        self.state.standing.load(Ordering::SeqCst)
    }

    /// Waits while the gate is shut. Returns true once it is open, and false if it stays shut too
    /// long.
    pub fn pass(&self) -> bool {
        if self.state.shut.load(Ordering::SeqCst) == 0 {
            return true;
        }
        self.state.standing.fetch_add(1, Ordering::SeqCst);
        let opened = self.opens();
        self.state.standing.fetch_sub(1, Ordering::SeqCst);
        opened
    }

    /// Checks again and again whether the gate is open, at most `MOST_LOOKS` times.
    fn opens(&self) -> bool {
        for _ in 0..MOST_LOOKS {
            if self.state.shut.load(Ordering::SeqCst) == 0 {
                return true;
            }
            yield_now();
        }
        false
    }
}

/// A reader or a writer that waits at a gate before each read and each write, for at most
/// `MOST_LOOKS` checks.
#[derive(Drop)]
pub struct Gated<T> {
    pub gate: Gate,
    pub inner: T,
}

impl<R: Read> Read for Gated<R> {
    ghost remaining = { λ g. R.remaining g.inner };

    fn read(&mut self, buf: &mut [u8]) -> io::Result<usize> {
        let _ = self.gate.pass();
        self.inner.read(buf)
    }
}

impl<W: Write> Write for Gated<W> {
    ghost contents = { λ g. W.contents g.inner };

    fn write(&mut self, buf: &[u8]) -> io::Result<usize> {
        let _ = self.gate.pass();
        self.inner.write(buf)
    }

    fn flush(&mut self) -> io::Result<()> {
        self.inner.flush()
    }
}
