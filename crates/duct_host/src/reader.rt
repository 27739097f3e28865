//! The reader of an end, and the writer.
ghost use Rattle.std.specs.Prelude.{◌≡◌};

use duct_base::transfer::read_retried;
use std::io;
use std::io::{Read, Write};
use std::os::fd::OwnedFd;
use std::process::{ChildStdin, ChildStdout};

/// A reader of an end, by std's `Read`. A read blocks until there are bytes, or returns 0 at EOF.
/// Dropping it closes the end.
#[derive(Drop)]
pub struct Reader {
    number: u64,
    source: ChildStdout,
}

impl Reader {
    /// The reader of the end with this number and descriptor.
    pub(crate) fn new(number: u64, fd: OwnedFd) -> Reader
        ensures { result.number ≡ number }
    {
        Reader {
            number,
            source: ChildStdout::from(fd),
        }
    }
}

impl Read for Reader {
    /// Reads once. A read that a signal interrupts is tried again.
    fn read(&mut self, buf: &mut [u8]) -> io::Result<usize> {
        read_retried(&mut self.source, buf)
    }
}

/// A writer to an end, by std's `Write`. A write blocks until the pipe takes bytes. Dropping it
/// closes the end.
#[derive(Drop)]
pub struct Writer {
    target: ChildStdin,
}

impl Writer {
    /// The writer to the end with this descriptor.
    pub(crate) fn new(fd: OwnedFd) -> Writer {
        Writer {
            target: ChildStdin::from(fd),
        }
    }
}

impl Write for Writer {
    /// Writes once.
    fn write(&mut self, buf: &[u8]) -> io::Result<usize> {
        self.target.write(buf)
    }

    fn flush(&mut self) -> io::Result<()> {
        self.target.flush()
    }
}
