//! The lock around the reader of a pipe. Each time that it is taken, the reader is read once.
ghost use Rattle.std.specs.Prelude.{ℕ, ◌≡◌, ◌<◌, ◌≤◌, length, IfOk, IfErr, OnErr, None};
ghost use Rattle.duct_handle.specs.ReadsText.{IsFault, IsReadFault};

use duct_base::error::Error;
use duct_base::system::{Fault, System};
use duct_base::watched::Watched;
use std::io::Read;
use std::sync::{Mutex, Wait};

/// A lock around a reader.
#[derive(Drop)]
pub(crate) struct Pipe<S: System> {
    reader: Mutex<S::Reader>,
}

impl<S: System> Pipe<S> {
    /// Makes a lock around the reader of some pipe, of which nothing was read.
    pub(crate) fn new(reader: S::Reader) -> Pipe<S>
        requires { (number : ℕ) × S.may_read number reader }
    {
        Pipe {
            reader: Mutex::new(reader),
        }
    }

    /// Reads once, under the lock. Where the buffer has no room, it takes no lock and reads
    /// nothing.
    pub(crate) fn read(&self, rt: &impl Wait, buf: &mut [u8]) -> Result<usize, Error>
        ensures bound { IfOk result (λ read. read ≤ length buf.new) }
        ensures room { length buf.new ≡ length buf.old }
        ensures err { IfErr result IsFault }
        ensures asked { OnErr result (0 < length buf.old) }
    {
        if buf.is_empty() {
            return Ok(0);
        }
        let mut reader = self.reader.lock(rt);
        read_watched(&mut Watched::new(&mut *reader), buf)
    }
}

// One read. A fault is that of what stopped the reader.
fn read_watched<R: Read>(reader: &mut Watched<'_, R>, buf: &mut [u8]) -> Result<usize, Error>
    requires { reader.old.stopped ≡ None }
    ensures bound { IfOk result (λ read. read ≤ length buf.new) }
    ensures room { length buf.new ≡ length buf.old }
    ensures err { IfErr result (IsReadFault reader.new.stopped) }
{
    match reader.read(buf) {
        Ok(read) => Ok(read),
        Err(error) => Err(Error::System(Fault::from(error))),
    }
}
