//! A reader that is read while the caller goes on: each read is made on a thread of its own, and
//! the next one once the bytes of the one before were taken.
ghost use Rattle.std.specs.Prelude.{◌≡◌, ◌<◌, IfOk, IfSome, None, Ok, OnErr, length};
ghost use Rattle.std.specs.Io.{ReadsAtMost};
ghost use Rattle.std.specs.Io.KnownBytes.{Consumes, IsAtEnd};
ghost use Rattle.duct_system.specs.declared.system.Said.TheVariants as said;
ghost use Rattle.duct_tasks.specs.Streams.{IsBlock, IsStream, Takes, bytes_of};

use duct_base::system::{Fault, Kind, Said};
use duct_base::transfer::read_retried;
use std::alloc::{AllocError, Global};
use std::io::Read;
use std::snapshot::Snapshot;
use std::sync::{Arc, OnceLock, Wait};
use std::thread::{Promise, PromisedHandle, Threads};
use std::{io, thread};

/// How many bytes a read takes at most.
const BLOCK: usize = 65_536;

/// What a read left: the reader, the buffer, and how many bytes of it were read.
#[derive(Drop)]
pub(crate) struct Block<R> {
    reader: R,
    buffer: Vec<u8>,
    read: io::Result<usize>,
}

/// That a block is what a read of this reader left.
#[derive(Drop)]
pub(crate) struct BlockOf<R>(Snapshot<R>);

impl<R: Read> Promise<Block<R>> for BlockOf<R> {
    ghost kept_by = { λ of block. IsBlock (R.remaining of.0.value) (R.remaining block.reader)
        block.read block.buffer.items };
}

/// A read that goes on, or is over.
#[derive(Drop)]
struct Reading<R: Read> {
    over: Arc<OnceLock<()>>,
    thread: PromisedHandle<Block<R>, BlockOf<R>>,
}

/// A reader that is read on threads, to EOF or until a read fails. Where it is dropped, a read that
/// goes on ends by itself.
#[derive(Drop)]
pub(crate) struct Stream<R: Read> {
    // A read that goes on, or one whose bytes were not taken yet, or why none is begun any more, if
    // that is not EOF.
    reading: Option<Reading<R>>,
    block: Option<Block<R>>,
    fault: Option<Fault>,
    // The reader before that read.
    left: Snapshot<R>,
}

// Starts a thread that reads once.
fn start_read<T: Threads, R: Read + Send + Drop + 'static>(
    rt: &T,
    alloc: Global,
    reader: R,
    buffer: Vec<u8>,
) -> Result<Reading<R>, Fault>
    requires { 0 < length buffer.items }
    ensures { IfOk result (λ reading. reading.thread.promise.0.value ≡ reader) }
{
    let (over, theirs) = two_owners(alloc)?;
    let of = BlockOf(Snapshot::of(&reader));
    let thread = thread::spawn_with(rt, of, move || -> Block<R> {
        let block = read_block(reader, buffer);
        let _ = theirs.try_set(());
        block
    });
    match thread {
        Ok(thread) => Ok(Reading { over, thread }),
        Err(_) => Err(Fault::new(Kind::Other)),
    }
}

// Reads once into this buffer.
fn read_block<R: Read>(mut reader: R, mut buffer: Vec<u8>) -> Block<R>
    requires { 0 < length buffer.items }
    ensures { IsBlock (R.remaining reader) (R.remaining result.reader) result.read
        result.buffer.items }
{
    let read = read_retried(&mut reader, buffer.as_mut_slice());
    Block {
        reader,
        buffer,
        read,
    }
}

// Returns two owners of a cell that says whether a read is over.
fn two_owners(alloc: Global) -> Result<(Arc<OnceLock<()>>, Arc<OnceLock<()>>), Fault> {
    let refused = Fault::new(Kind::OutOfMemory);
    let Ok(over) = Arc::new(alloc, OnceLock::new()) else {
        return Err(refused);
    };
    match Arc::try_clone(&over) {
        Ok(theirs) => Ok((over, theirs)),
        Err(_) => Err(refused),
    }
}

impl<R: Read + Send + Drop + 'static> Stream<R> {
    /// Begins to read this reader.
    ///
    /// Fails with `OutOfMemory` at an allocation failure, and with `Other` where no thread can be
    /// started. The reader is then dropped, and nothing was read.
    pub fn new<T: Threads>(rt: &T, alloc: Global, reader: R) -> Result<Stream<R>, Fault>
        ensures stream { IfOk result (IsStream R.remaining) }
        ensures left { IfOk result (λ stream. stream.left.value ≡ reader) }
    {
        let Ok(buffer) = vec![in alloc; 0; BLOCK] else {
            return Err(Fault::new(Kind::OutOfMemory));
        };
        let left = Snapshot::of(&reader);
        let reading = start_read(rt, alloc, reader, buffer)?;
        Ok(Stream {
            reading: Some(reading),
            block: None,
            fault: None,
            left,
        })
    }

    /// Appends what a read left to these bytes, if it is over, and begins the next one. Returns
    /// `Done` at EOF, and `Fault` where a read failed or the next one couldn't be begun; the reader
    /// is dropped then, and each later call returns the same. It doesn't block.
    ///
    /// Fails only where the bytes can't grow; then nothing has changed.
    pub fn poll<T: Threads + Wait>(
        &mut self,
        rt: &T,
        alloc: Global,
        bytes: &mut Vec<u8>,
    ) -> Result<Said<()>, AllocError>
        requires { IsStream R.remaining self.old }
        ensures stream { IsStream R.remaining self.new }
        ensures takes { Takes (R.remaining self.old.left.value) (R.remaining self.new.left.value)
            bytes.old.items bytes.new.items }
        ensures done { result ≡ Ok (said.Done tt) → IsAtEnd (R.remaining self.new.left.value) }
        ensures err { OnErr result (bytes.new.items ≡ bytes.old.items) }
    {
        self.fetch(rt);
        if let Some(block) = &self.block {
            bytes.extend_from_slice(new_bytes(block))?;
        }
        self.begin_next(rt, alloc);
        Ok(self.said())
    }

    // Fetches what a read left, if it is over.
    fn fetch(&mut self, rt: &(impl Threads + Wait))
        requires { IsStream R.remaining self.old }
        ensures stream { IsStream R.remaining self.new }
        ensures left { self.new.left.value ≡ self.old.left.value }
    {
        match &self.reading {
            Some(reading) if reading.over.get().is_some() => {}
            Some(_) | None => return,
        }
        if let Some(Reading { over, thread }) = self.reading.take() {
            drop(over);
            self.block = Some(thread.join(rt));
        }
    }

    // Begins the next read, where the bytes of the one before were taken.
    fn begin_next<T: Threads>(&mut self, rt: &T, alloc: Global)
        requires { IsStream R.remaining self.old }
        ensures stream { IsStream R.remaining self.new }
        ensures taken { IfSome self.old.block (λ block. Consumes (R.remaining self.old.left.value)
            (R.remaining self.new.left.value) (bytes_of block.read block.buffer.items)) }
        ensures same { self.old.block ≡ None → self.new.left.value ≡ self.old.left.value }
        ensures none { self.new.block ≡ None }
    {
        let Some(block) = self.block.take() else {
            return;
        };
        let Block {
            reader,
            buffer,
            read,
        } = block;
        self.left = Snapshot::of(&reader);
        match read {
            Ok(0) => {}
            Ok(_) => match start_read(rt, alloc, reader, buffer) {
                Ok(reading) => self.reading = Some(reading),
                Err(fault) => self.fault = Some(fault),
            },
            Err(error) => self.fault = Some(Fault::from(error)),
        }
    }

    // What a poll returns, once the bytes of the last read were taken.
    fn said(&self) -> Said<()>
        requires stream { IsStream R.remaining self.now }
        requires taken { self.now.block ≡ None }
        ensures { result ≡ said.Done tt → IsAtEnd (R.remaining self.now.left.value) }
    {
        match (&self.reading, self.fault) {
            (Some(_), _) => Said::Running,
            (None, Some(fault)) => Said::Fault(fault),
            (None, None) => Said::Done(()),
        }
    }
}

// The bytes that were read.
fn new_bytes<R>(block: &Block<R>) -> &[u8]
    requires { ReadsAtMost block.now.read block.now.buffer.items }
    ensures { result.now ≡ bytes_of block.now.read block.now.buffer.items }
{
    match &block.read {
        Ok(read) => &block.buffer[..*read],
        Err(_) => &[],
    }
}
