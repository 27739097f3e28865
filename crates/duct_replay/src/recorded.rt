//! The children, workers and readers of a recorder, and what they note while its system runs: once
//! for each child and each end.
ghost use Rattle.std.specs.Prelude.{Ok, Some, IfOk};
ghost use Rattle.duct_replay.specs.RecordingView.{MayEnd, MayGive, HasGiven, HasGivenAll, KeepsMore, bytes_of};
ghost use Rattle.std.specs.Io.{ReadsAtMost};
ghost use Rattle.std.specs.Io.KnownBytes.{ReadConsumes};
ghost use Rattle.std.specs.Option.{ForSome};

use crate::recording::listed;
use duct_system::system::{Child, ExitStatus, Fault, Job, Numbered, Said, System};
use std::alloc::{AllocError, Global};
use std::io::{self, ErrorKind, Read};
use std::marker::PhantomData;
use std::sync::{Arc, OnceLock};

/// How a child ended: one of its polls returned this exit status.
#[derive(Drop)]
pub(crate) struct Ending<C: Child> {
    pub(crate) number: u64,
    pub(crate) status: ExitStatus,
    child: PhantomData<C>,
    ghost told: { ∥ MayEnd C.may_answer number status ∥₁ },
}

/// What was read of an end, up to EOF.
#[derive(Drop)]
pub(crate) struct Output<S: System> {
    pub(crate) number: u64,
    bytes: Arc<Vec<u8>>,
    system: PhantomData<S>,
    ghost told: { ∥ MayGive S.may_read S.Reader.remaining S.Drain.may_say number
        (bytes_of bytes) ∥₁ },
}

impl<S: System> Output<S> {
    pub(crate) fn shared(&self) -> Result<Arc<Vec<u8>>, AllocError>
        ensures { IfOk result (λ bytes. ∥ MayGive S.may_read S.Reader.remaining S.Drain.may_say
            self.now.number (bytes_of bytes) ∥₁) }
    {
        Ok(Arc::try_clone(&self.bytes)?)
    }
}

/// A note that is set once, by a child or a reader, and read by its recorder.
pub(crate) type Note<T> = Arc<OnceLock<T>>;

/// The notes of children or of ends, by their numbers.
pub(crate) type Notes<T> = Vec<(u64, Note<T>)>;

/// Adds a note and returns one more owner of it, or `None` where there is no memory for it.
pub(crate) fn add_note<T: Drop>(
    alloc: Global,
    notes: &mut Notes<T>,
    number: u64,
) -> Option<Note<T>> {
    let note = Arc::new(alloc, OnceLock::new()).ok()?;
    let theirs = Arc::try_clone(&note).ok()?;
    notes.push((number, note)).ok()?;
    Some(theirs)
}

/// Returns one more owner of the note with this number, if there is one.
pub(crate) fn note_of<T: Drop>(notes: &Notes<T>, number: u64) -> Option<Note<T>> {
    Arc::try_clone(listed(notes.as_slice(), number)?).ok()
}

// Notes what was read of an end.
fn note_output<S: System>(note: &Note<Output<S>>, number: u64, bytes: Arc<Vec<u8>>)
    requires { ∥ MayGive S.may_read S.Reader.remaining S.Drain.may_say number
        (bytes_of bytes) ∥₁ }
{
    let _ = note.try_set(Output {
        number,
        bytes,
        system: PhantomData,
    });
}

/// A child that a recorder started. It is the child of the system below, and the exit status that a
/// poll returns is noted.
#[derive(Drop)]
pub struct RecordedChild<C: Child> {
    pub(crate) inner: C,
    pub(crate) note: Option<Note<Ending<C>>>,
}

impl<C: Child> Numbered for RecordedChild<C> {
    ghost number_of = { λ child. C.number_of child.inner };

    fn number(&self) -> u64 {
        self.inner.number()
    }
}

impl<C: Child> Child for RecordedChild<C> {
    ghost may_answer = { C.may_answer };

    ghost may_obey = { C.may_obey };

    ghost child_view = { λ child. C.child_view child.inner };

    ghost has_number = { λ child. C.has_number child.inner };

    fn poll(&mut self) -> Result<Option<ExitStatus>, Fault> {
        let answer = self.inner.poll();
        if let (Ok(Some(status)), Some(note)) = (answer, &self.note) {
            let _ = note.try_set(Ending {
                number: self.inner.number(),
                status,
                child: PhantomData,
            });
        }
        answer
    }

    fn kill(&mut self) -> Result<(), Fault> {
        self.inner.kill()
    }

    fn signal(&mut self, signal: i32) -> Result<(), Fault> {
        self.inner.signal(signal)
    }

    fn id(&self) -> u32 {
        self.inner.id()
    }

    fn leads(&self) -> bool {
        self.inner.leads()
    }
}

/// A worker that a recorder started, and that reads. It is the worker of the system below, and the
/// bytes that a poll returns are noted.
#[derive(Drop)]
pub struct RecordedDrain<S: System> {
    pub(crate) inner: S::Drain,
    pub(crate) note: Option<Note<Output<S>>>,
}

impl<S: System> Numbered for RecordedDrain<S> {
    ghost number_of = { λ drain. S.Drain.number_of drain.inner };

    fn number(&self) -> u64 {
        self.inner.number()
    }
}

impl<S: System> Job for RecordedDrain<S> {
    type Result = Arc<Vec<u8>>;

    ghost same = { S.Drain.same };

    ghost refusable = { S.Drain.refusable };

    ghost may_say = { S.Drain.may_say };

    ghost job_view = { λ drain. S.Drain.job_view drain.inner };

    ghost has_number = { λ drain. S.Drain.has_number drain.inner };

    fn poll(&mut self) -> Said<Arc<Vec<u8>>> {
        let said = self.inner.poll();
        if let (Said::Done(bytes), Some(note)) = (&said, &self.note) {
            if let Ok(shared) = Arc::try_clone(bytes) {
                note_output(note, self.inner.number(), shared);
            }
        }
        said
    }
}

/// What was read so far of an end, for its note.
pub(crate) type Kept<S> = (Note<Output<S>>, Vec<u8>);

/// A reader that a recorder returned. It is the reader of the system below, and what it read is
/// noted at EOF: where a read fails before, other than by an interruption, or there is no memory to
/// keep the bytes, nothing is.
#[derive(Drop)]
pub struct RecordedReader<S: System> {
    pub(crate) inner: S::Reader,
    pub(crate) number: u64,
    pub(crate) kept: Option<Kept<S>>,
    ghost given: { ForSome kept (λ kept. ∥ HasGiven S.may_read S.Reader.remaining number
        kept.1.items inner ∥₁) },
}

// Reads once. Returns what the reader did, and what is then kept of the end with this number.
fn read_kept<S: System>(
    inner: &mut S::Reader,
    number: u64,
    kept: Option<Kept<S>>,
    buf: &mut [u8],
) -> (io::Result<usize>, Option<Kept<S>>)
    requires { ForSome kept (λ kept. ∥ HasGiven S.may_read S.Reader.remaining number
        kept.1.items inner.old ∥₁) }
    ensures bound { ReadsAtMost result.0 buf.new }
    ensures bytes { ReadConsumes (S.Reader.remaining inner.old) (S.Reader.remaining inner.new)
        result.0 buf.new }
    ensures given { ForSome result.1 (λ kept. ∥ HasGiven S.may_read S.Reader.remaining number
        kept.1.items inner.new ∥₁) }
{
    match inner.read(buf) {
        Ok(count) => {
            if count == 0 && !buf.is_empty() {
                note_all(kept, number);
                (Ok(count), None)
            } else {
                (Ok(count), more_kept(kept, &buf[..count]))
            }
        }
        Err(error) if error.kind() == ErrorKind::Interrupted => (Err(error), kept),
        Err(error) => (Err(error), None),
    }
}

// Keeps these bytes behind those that were kept, or nothing any more where there is no memory.
fn more_kept<S: System>(kept: Option<Kept<S>>, bytes: &[u8]) -> Option<Kept<S>>
    ensures { KeepsMore kept bytes.now result }
{
    let (note, mut all) = kept?;
    all.extend_from_slice(bytes).ok()?;
    Some((note, all))
}

// Notes the bytes that were kept of the end with this number, if there is memory for it.
fn note_all<S: System>(kept: Option<Kept<S>>, number: u64)
    requires { ForSome kept (λ kept.
        ∥ HasGivenAll S.may_read S.Reader.remaining number kept.1.items ∥₁) }
{
    if let Some((note, bytes)) = kept {
        if let Ok(shared) = Arc::new(*bytes.allocator(), bytes) {
            note_output(&note, number, shared);
        }
    }
}

impl<S: System> Read for RecordedReader<S> {
    ghost remaining = { λ reader. S.Reader.remaining reader.inner };

    fn read(&mut self, buf: &mut [u8]) -> io::Result<usize> {
        let kept = self.kept.take();
        let (answer, kept) = read_kept(&mut self.inner, self.number, kept, buf);
        self.kept = kept;
        answer
    }
}
