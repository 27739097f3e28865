//! What a worker does: it writes bytes to a writer, or reads a reader to EOF.
ghost use Rattle.std.specs.Prelude.{◌≡◌, ◌≢◌, ◌↔◌, ◌+◌, ◌<◌, ◌≤◌, IsTrue, IfOk, IfErr, IfSome, OnOk, OnErr, None, take, drop, length, vec_len};
ghost use Rattle.std.specs.Io.{ReadsAtMost};
ghost use Rattle.std.specs.Io.KnownBytes.{Appends, Consumes, IsAtEnd, Keeps};
ghost use Rattle.std.specs.declared.option.Option.{Option};
ghost use Rattle.std.specs.IoError.{error_kind};
ghost use Rattle.duct_system.specs.declared.system.Kind.TheVariants.{OutOfMemory};
ghost use Rattle.duct_base.specs.Transfer.{ConsumesFront, IsDrainFault, Writes, stop_fault, fed, stop_of};

use crate::watched::Watched;
use duct_system::system::{Fault, Kind};
use std::alloc::Global;
use std::io;
use std::io::{ErrorKind, Read, Write};

/// How many bytes each read of a drain may return.
const BLOCK: usize = 64 * 1024;

/// Returns whether a signal interrupted the call that returned this error.
fn is_interrupted(error: &io::Error) -> bool
    ensures { IsTrue result ↔ (error_kind error.now ≡ ErrorKind.Interrupted) }
{
    error.kind() == ErrorKind::Interrupted
}

/// Writes once, and retries a write that is interrupted. Returns how many of the bytes were
/// written. It blocks while the writer does.
///
/// Fails with `WriteZero` if the write takes none of the bytes, with any other error of the writer,
/// and with `Other` after `u64::MAX` interrupted writes. Nothing was then written.
pub(crate) fn write_retried<W: Write>(writer: &mut W, bytes: &[u8]) -> io::Result<usize>
    requires some { 0 < length bytes.now }
    ensures bound { IfOk result (λ taken. (0 < taken) × (taken ≤ length bytes.now)) }
    ensures ok { IfOk result (λ taken. Appends (W.contents writer.old) (W.contents writer.new)
        (take taken bytes.now)) }
    ensures err { OnErr result (Keeps (W.contents writer.old) (W.contents writer.new)) }
    ensures retried { IfErr result (λ error. error_kind error ≢ ErrorKind.Interrupted) }
{
    for _ in 0..u64::MAX {
        match writer.write(bytes) {
            Ok(0) => return Err(io::Error::from(ErrorKind::WriteZero)),
            Ok(taken) => return Ok(taken),
            Err(error) => {
                if !is_interrupted(&error) {
                    return Err(error);
                }
            }
        }
    }
    Err(io::Error::from(ErrorKind::Other))
}

/// Writes all of the bytes, in order, by `Watched::write`. If there are no bytes, the writer isn't
/// called. It blocks while the writer does.
///
/// At the first error it stops: a prefix of the bytes was then written, nothing is retried, and
/// `Watched::stopped` returns the error's kind.
pub fn write_whole<W: Write>(writer: &mut Watched<'_, W>, bytes: &[u8])
    requires open { writer.old.stopped ≡ None }
    ensures same_reference { writer.new.inner.ghost_name ≡ writer.old.inner.ghost_name }
    ensures written { Writes (W.contents writer.old.inner.now) (W.contents writer.new.inner.now)
        bytes.now writer.new.stopped }
{
    let mut rest = bytes;
    while !rest.is_empty() {
        match writer.write(rest) {
            Ok(taken) => rest = &rest[taken..],
            Err(_) => return,
        }
    }
}

/// Writes all of the bytes to the writer, in order, as `write_whole` does. A broken pipe is a
/// success, though there may be bytes left that nobody reads.
///
/// Fails with the fault of any other error that stopped the writer. A prefix of the bytes was then
/// written.
pub fn feed_watched<W: Write>(writer: &mut Watched<'_, W>, bytes: &[u8]) -> Result<(), Fault>
    requires open { writer.old.stopped ≡ None }
    ensures same_reference { writer.new.inner.ghost_name ≡ writer.old.inner.ghost_name }
    ensures written { Writes (W.contents writer.old.inner.now) (W.contents writer.new.inner.now)
        bytes.now writer.new.stopped }
    ensures answer { result ≡ fed writer.new.stopped }
{
    write_whole(writer, bytes);
    match writer.stopped() {
        None | Some(ErrorKind::BrokenPipe) => Ok(()),
        Some(kind) => Err(stop_fault(kind)),
    }
}

/// Writes all of the bytes to the writer, in order, as `feed_watched` does. An interrupted write is
/// retried. If there are no bytes, the writer isn't called. A broken pipe is a success, though
/// there may be bytes left that nobody reads. It blocks while the writer does.
///
/// Fails with `WriteZero` if a write takes none of the bytes, with the fault of any other error of
/// the writer, and with `Other` after `u64::MAX` interrupted writes in a row. A prefix of the bytes
/// was then written.
pub fn feed<W: Write>(writer: &mut W, bytes: &[u8]) -> Result<(), Fault>
    ensures { (stopped : Option ErrorKind)
        × Writes (W.contents writer.old) (W.contents writer.new) bytes.now stopped
        × (result ≡ fed stopped) }
{
    let mut watched = Watched::new(writer);
    feed_watched(&mut watched, bytes)
}

/// Returns the fault of the error kind that stopped a writer or a reader.
fn stop_fault(kind: ErrorKind) -> Fault
    ensures { result ≡ stop_fault kind }
{
    Fault::from(io::Error::from(kind))
}

/// Reads the reader to EOF and returns its bytes. An interrupted read is retried. Each read may
/// return up to 64 KiB, and goes straight into the list. It blocks while the reader does.
///
/// Fails with the fault of the error that stopped the reader, or with `OutOfMemory` if none did and
/// the list can't grow, which no list does beyond `u64::MAX` bytes. The bytes that were read so far
/// are then lost.
pub fn drain_watched<R: Read>(alloc: Global, reader: &mut Watched<'_, R>) -> Result<Vec<u8>, Fault>
    requires open { reader.old.stopped ≡ None }
    ensures same_reference { reader.new.inner.ghost_name ≡ reader.old.inner.ghost_name }
    ensures bytes { IfOk result
        (λ read. IfSome (R.remaining reader.old.inner.now) (λ left. read.items ≡ left)) }
    ensures end { OnOk result (IsAtEnd (R.remaining reader.new.inner.now)) }
    ensures open { OnOk result (reader.new.stopped ≡ None) }
    ensures lost { OnErr result
        (ConsumesFront (R.remaining reader.old.inner.now) (R.remaining reader.new.inner.now)) }
    ensures fault { IfErr result (IsDrainFault reader.new.stopped) }
{
    let mut bytes = Vec::new(alloc);
    let mut filled = 0;
    for _ in 0..u64::MAX {
        let read = read_block(reader, &mut bytes, filled)?;
        if read == 0 {
            bytes.truncate(filled);
            return Ok(bytes);
        }
        filled += read;
    }
    Err(Fault::new(Kind::OutOfMemory))
}

/// Reads the reader to EOF and returns its bytes, as `drain_watched` does. An interrupted read is
/// retried. Each read may return up to 64 KiB, and goes straight into the list. It blocks while the
/// reader does.
///
/// Fails with the fault of any other error of the reader, with `OutOfMemory` if the list can't
/// grow, and with `Other` after `u64::MAX` interrupted reads in a row. The bytes that were read so
/// far are then lost.
pub fn drain<R: Read>(alloc: Global, reader: &mut R) -> Result<Vec<u8>, Fault>
    ensures bytes { IfOk result
        (λ read. IfSome (R.remaining reader.old) (λ left. read.items ≡ left)) }
    ensures end { OnOk result (IsAtEnd (R.remaining reader.new)) }
    ensures lost { OnErr result
        (ConsumesFront (R.remaining reader.old) (R.remaining reader.new)) }
{
    let mut watched = Watched::new(reader);
    drain_watched(alloc, &mut watched)
}

/// Reads once into the list, after the bytes that are filled, and returns how many bytes it read.
/// What follows them in the list is room for a later read.
fn read_block<R: Read>(
    reader: &mut Watched<'_, R>,
    bytes: &mut Vec<u8>,
    filled: usize,
) -> Result<usize, Fault>
    requires open { reader.old.stopped ≡ None }
    requires filled { filled ≤ vec_len bytes.old }
    ensures same_reference { reader.new.inner.ghost_name ≡ reader.old.inner.ghost_name }
    ensures within { filled ≤ vec_len bytes.new }
    ensures front { take filled bytes.new.items ≡ take filled bytes.old.items }
    ensures fits { IfOk result (λ read. filled + read ≤ vec_len bytes.new) }
    ensures ok { IfOk result (λ read. Consumes (R.remaining reader.old.inner.now)
        (R.remaining reader.new.inner.now) (take read (drop filled bytes.new.items))) }
    ensures err { OnErr result
        (Keeps (R.remaining reader.old.inner.now) (R.remaining reader.new.inner.now)) }
    ensures end { IfOk result (λ read. read ≡ 0 → IsAtEnd (R.remaining reader.new.inner.now)) }
    ensures open { OnOk result (reader.new.stopped ≡ None) }
    ensures fault { IfErr result (IsDrainFault reader.new.stopped) }
{
    make_room(bytes, filled)?;
    match read_behind(reader, bytes.as_mut_slice(), filled) {
        Ok(read) => Ok(read),
        Err(error) => Err(Fault::from(error)),
    }
}

/// Extends the list with zeros, so that a block fits after the bytes that are filled.
fn make_room(bytes: &mut Vec<u8>, filled: usize) -> Result<(), Fault>
    requires { filled ≤ vec_len bytes.old }
    ensures within { filled ≤ vec_len bytes.new }
    ensures front { take filled bytes.new.items ≡ take filled bytes.old.items }
    ensures room { OnOk result (filled < vec_len bytes.new) }
    ensures fault { IfErr result (λ fault. fault.kind ≡ OutOfMemory) }
{
    let Some(end) = filled.checked_add(BLOCK) else {
        return Err(Fault::new(Kind::OutOfMemory));
    };
    if bytes.len() < end && bytes.resize(end, 0).is_err() {
        return Err(Fault::new(Kind::OutOfMemory));
    }
    Ok(())
}

/// Reads once into the buffer, from this place on.
fn read_behind<R: Read>(
    reader: &mut Watched<'_, R>,
    buffer: &mut [u8],
    at: usize,
) -> io::Result<usize>
    requires open { reader.old.stopped ≡ None }
    requires room { at < length buffer.old }
    ensures same_reference { reader.new.inner.ghost_name ≡ reader.old.inner.ghost_name }
    ensures front { take at buffer.new ≡ take at buffer.old }
    ensures fits { IfOk result (λ read. at + read ≤ length buffer.new) }
    ensures ok { IfOk result (λ read. Consumes (R.remaining reader.old.inner.now)
        (R.remaining reader.new.inner.now) (take read (drop at buffer.new))) }
    ensures err { OnErr result
        (Keeps (R.remaining reader.old.inner.now) (R.remaining reader.new.inner.now)) }
    ensures end { IfOk result (λ read. read ≡ 0 → IsAtEnd (R.remaining reader.new.inner.now)) }
    ensures kept { reader.new.stopped ≡ stop_of result }
{
    reader.read(&mut buffer[at..])
}

/// Reads once, and retries a read that is interrupted. Fails with any other error, and with `Other`
/// after `u64::MAX` interrupted reads; nothing was then read. It blocks while the reader does.
pub fn read_retried<R: Read>(reader: &mut R, buffer: &mut [u8]) -> io::Result<usize>
    ensures bound { ReadsAtMost result buffer.new }
    ensures ok { IfOk result (λ read. Consumes (R.remaining reader.old) (R.remaining reader.new)
        (take read buffer.new)) }
    ensures err { OnErr result (Keeps (R.remaining reader.old) (R.remaining reader.new)) }
    ensures end { IfOk result
        (λ read. read ≡ 0 → 0 < length buffer.old → IsAtEnd (R.remaining reader.new)) }
{
    for _ in 0..u64::MAX {
        match reader.read(buffer) {
            Ok(read) => return Ok(read),
            Err(error) => {
                if !is_interrupted(&error) {
                    return Err(error);
                }
            }
        }
    }
    Err(io::Error::from(ErrorKind::Other))
}
