//! Writers and readers that are watched: what stopped one is kept.
ghost use Rattle.std.specs.Prelude.{◌≡◌, ◌≢◌, ◌<◌, ◌≤◌, IfOk, IfErr, OnErr, None, take, length};
ghost use Rattle.std.specs.Io.{ReadsAtMost};
ghost use Rattle.std.specs.Io.KnownBytes.{Appends, Consumes, IsAtEnd, Keeps};
ghost use Rattle.std.specs.IoError.{error_kind};
ghost use Rattle.duct_base.specs.Transfer.{stop_of};

use crate::transfer::{read_retried, write_retried};
use std::io;
use std::io::{ErrorKind, Read, Write};

/// A writer or a reader that is watched, and the kind of the error that stopped it, if one did.
/// Only the result of its own `write` or `read` sets that kind: the fields are private, and who is
/// passed a watched writer has no other writer of its type.
#[derive(Drop)]
pub struct Watched<'a, W> {
    inner: &'a mut W,
    stopped: Option<ErrorKind>,
}

impl<'a, W> Watched<'a, W> {
    /// Watches this writer or reader, which nothing has stopped yet.
    pub fn new(inner: &'a mut W) -> Watched<'a, W>
        ensures same_reference { result.inner.ghost_name ≡ inner.entry.ghost_name }
        ensures inner { result.inner.now ≡ inner.old }
        ensures open { result.stopped ≡ None }
    {
        Watched {
            inner,
            stopped: None,
        }
    }

    /// Returns the kind of the error that stopped it, or `None` if nothing did.
    pub fn stopped(&self) -> Option<ErrorKind>
        ensures { result ≡ self.now.stopped }
    {
        self.stopped
    }
}

impl<'a, W: Write> Watched<'a, W> {
    /// Writes once, and retries a write that is interrupted. Returns how many of the bytes were
    /// written, which is not 0. It blocks while the writer does.
    ///
    /// Fails with `WriteZero` if the write takes none of the bytes, with any other error of the
    /// writer, and with `Other` after `u64::MAX` interrupted writes. Nothing was then written, and
    /// the writer counts as stopped by that error.
    pub fn write(&mut self, bytes: &[u8]) -> io::Result<usize>
        requires open { self.old.stopped ≡ None }
        requires some { 0 < length bytes.now }
        ensures same_reference { self.new.inner.ghost_name ≡ self.old.inner.ghost_name }
        ensures bound { IfOk result (λ taken. (0 < taken) × (taken ≤ length bytes.now)) }
        ensures ok { IfOk result (λ taken. Appends (W.contents self.old.inner.now)
            (W.contents self.new.inner.now) (take taken bytes.now)) }
        ensures err { OnErr result
            (Keeps (W.contents self.old.inner.now) (W.contents self.new.inner.now)) }
        ensures retried { IfErr result (λ error. error_kind error ≢ ErrorKind.Interrupted) }
        ensures kept { self.new.stopped ≡ stop_of result }
    {
        let answer = write_retried(&mut *self.inner, bytes);
        self.stopped = stop_of(&answer);
        answer
    }
}

impl<'a, R: Read> Watched<'a, R> {
    /// Reads once, as `read_retried` does. The reader counts as stopped by an error.
    pub fn read(&mut self, buffer: &mut [u8]) -> io::Result<usize>
        requires open { self.old.stopped ≡ None }
        ensures same_reference { self.new.inner.ghost_name ≡ self.old.inner.ghost_name }
        ensures bound { ReadsAtMost result buffer.new }
        ensures ok { IfOk result (λ read. Consumes (R.remaining self.old.inner.now)
            (R.remaining self.new.inner.now) (take read buffer.new)) }
        ensures err { OnErr result
            (Keeps (R.remaining self.old.inner.now) (R.remaining self.new.inner.now)) }
        ensures end { IfOk result (λ read. read ≡ 0 → 0 < length buffer.old
            → IsAtEnd (R.remaining self.new.inner.now)) }
        ensures kept { self.new.stopped ≡ stop_of result }
    {
        let answer = read_retried(&mut *self.inner, buffer);
        self.stopped = stop_of(&answer);
        answer
    }
}

/// Returns the kind of the answer's error, or `None` if it is Ok.
fn stop_of(answer: &io::Result<usize>) -> Option<ErrorKind>
    ensures { result ≡ stop_of answer.now }
{
    match answer {
        Ok(_) => None,
        Err(error) => Some(error.kind()),
    }
}
