//! A system that is recorded.
ghost use Rattle.std.specs.Prelude.{◌≡◌, [], IfOk, ◌≤◌, min, length, IfErr};
ghost use Rattle.duct_replay.specs.RecordingView.{NotesOnly, RecordingView};
ghost use Rattle.duct_system.specs.Child.{IsUnasked};
ghost use Rattle.duct_system.specs.Journal.{IsCleared, RefusesChild, StartsChild};
ghost use Rattle.duct_system.specs.Streams.{ends_of};

use crate::recorded::{
    Ending, Notes, Output, RecordedChild, RecordedDrain, RecordedReader, add_note, note_of,
};
use crate::recording::Recording;
use duct_system::copy::copies_of_entries;
use duct_system::spec::CommandSpec;
use duct_system::system::{Entry, Fault, Numbered, Side, Stdio, System};
use std::alloc::{AllocError, Global};
use std::sync::Arc;

/// A system that notes what no journal has.
pub trait Records: System {
    /// A recording that may be returned, for what is noted. No generic code knows more of it, so a
    /// recording of which this is promised was returned by `recording`.
    ghost may_record: { Self → RecordingView → Type 0 };

    /// Returns the journal so far with the endings and the bytes that are noted so far. A child has
    /// no ending there before a poll has returned its exit status, and an end has no bytes before
    /// they were read to EOF. Fails only at an allocation failure, and changes nothing.
    fn recording(&self) -> Result<Recording, AllocError>
        ensures entries { IfOk result (λ recording.
            recording.entries ≡ (Self.journal_view self.now).entries) }
        ensures noted { IfOk result (λ recording. may_record self.now recording) };
}

/// A system over another one that notes what no journal has: how children ended, and which bytes
/// were read, by a worker or by a reader to EOF, of ends that `pipe`, `open_read` and `duplicate`
/// returned. So a replay of its `recording` returns what was returned here. `clear_journal` drops
/// what was noted: the recording then has what came after it alone, and not how children ended that
/// were started before.
///
/// Each request is passed on as it is, once, and returns what the system below returns; so does
/// each poll, order and read. The journal is that of the system below. No request fails by a note
/// for which there is no memory: its child's end or its bytes aren't recorded then.
#[derive(Drop)]
pub struct Recorder<S: System> {
    inner: S,
    alloc: Global,
    endings: Notes<Ending<S::Child>>,
    outputs: Notes<Output<S>>,
}

impl<S: System> Recorder<S> {
    /// Returns a recorder over a system, which should be new: what was requested of it before is in
    /// the recording only as the entries of its journal.
    ///
    /// Example: `let mut recorder = Recorder::new(alloc, Host::new(&rt, alloc));`
    pub fn new(alloc: Global, inner: S) -> Recorder<S>
        ensures { result.inner ≡ inner }
    {
        Recorder {
            inner,
            alloc,
            endings: Vec::new(alloc),
            outputs: Vec::new(alloc),
        }
    }

    /// Returns the system below.
    pub fn inner(&self) -> &S
        ensures { result.now ≡ self.now.inner }
    {
        &self.inner
    }

    /// Returns the system below. What was noted is dropped.
    pub fn into_inner(self) -> S
        ensures { result ≡ self.inner }
    {
        let Recorder { inner, .. } = self;
        inner
    }

    // Makes a note for what will be read of an end, if there is memory for it.
    fn expect(&mut self, number: u64)
        ensures { self.new.inner ≡ self.old.inner }
    {
        let _ = add_note(self.alloc, &mut self.outputs, number);
    }
}

/// Each request is that of the system below, with its result.
impl<S: System> System for Recorder<S> {
    type End = S::End;

    type Child = RecordedChild<S::Child>;

    type Feed = S::Feed;

    type Drain = RecordedDrain<S>;

    type Reader = RecordedReader<S>;

    ghost journal_view = { λ recorder. S.journal_view recorder.inner };

    ghost may_read = { λ number reader. S.may_read number reader.inner };

    ghost streams_fit = { S.streams_fit };

    ghost same_bytes = { S.same_bytes };

    ghost feeds_say_again = { S.feeds_say_again };

    fn environment(&mut self) -> Result<Vec<(String, String)>, Fault> {
        self.inner.environment()
    }

    fn pipe(&mut self) -> Result<(S::End, S::End), Fault> {
        let (reader, writer) = self.inner.pipe()?;
        self.expect(reader.number());
        Ok((reader, writer))
    }

    fn open_read(&mut self, path: &str) -> Result<S::End, Fault> {
        let end = self.inner.open_read(path)?;
        self.expect(end.number());
        Ok(end)
    }

    fn create(&mut self, path: &str) -> Result<S::End, Fault> {
        self.inner.create(path)
    }

    fn duplicate(&mut self, end: &S::End) -> Result<S::End, Fault> {
        let made = self.inner.duplicate(end)?;
        self.expect(made.number());
        Ok(made)
    }

    fn parent(&mut self, side: Side) -> Result<S::End, Fault> {
        self.inner.parent(side)
    }

    fn canonicalize(&mut self, path: &str) -> Result<String, Fault> {
        self.inner.canonicalize(path)
    }

    fn spawn(
        &mut self,
        spec: CommandSpec,
        io: [Stdio<S::End>; 3],
    ) -> Result<RecordedChild<S::Child>, Fault>
        requires { min 1 (length (ends_of io)) ≤ (S.journal_view self.old.inner).room }
        ensures ok { IfOk result (λ child. StartsChild S.End.number_of spec io
            (S.Child.number_of child.inner) (S.journal_view self.old.inner)
            (S.journal_view self.new.inner)) }
        ensures unasked { IfOk result (λ child. IsUnasked (S.Child.child_view child.inner)) }
        ensures err { IfErr result
            (λ fault. RefusesChild S.End.number_of spec io fault
            (S.journal_view self.old.inner) (S.journal_view self.new.inner)) }
    {
        let child = self.inner.spawn(spec, io)?;
        let note = add_note(self.alloc, &mut self.endings, child.number());
        Ok(RecordedChild { inner: child, note })
    }

    fn start_feed(&mut self, end: S::End, bytes: Arc<Vec<u8>>) -> Result<S::Feed, Fault> {
        self.inner.start_feed(end, bytes)
    }

    fn start_drain(&mut self, end: S::End) -> Result<RecordedDrain<S>, Fault> {
        let note = note_of(&self.outputs, end.number());
        let inner = self.inner.start_drain(end)?;
        Ok(RecordedDrain { inner, note })
    }

    // It allocates nothing: the note was made when the end was returned.
    fn reader(&mut self, end: S::End) -> RecordedReader<S> {
        let number = end.number();
        let note = note_of(&self.outputs, number);
        RecordedReader {
            inner: self.inner.reader(end),
            number,
            kept: note.map(|note| (note, Vec::new(self.alloc))),
        }
    }

    fn close(&mut self, end: S::End) {
        self.inner.close(end);
    }

    fn journal(&self) -> &[Entry] {
        self.inner.journal()
    }

    // What was noted is dropped too.
    fn clear_journal(&mut self)
        ensures cleared { IsCleared (S.journal_view self.old.inner)
            (S.journal_view self.new.inner) }
        ensures endings { self.new.endings.items ≡ [] }
        ensures outputs { self.new.outputs.items ≡ [] }
    {
        self.inner.clear_journal();
        self.endings.clear();
        self.outputs.clear();
    }
}

/// Each exit status in a recording was returned by a poll of this child, and the bytes of an end by
/// a poll of its worker, or they were all that its reader had.
impl<S: System> Records for Recorder<S> {
    ghost may_record = { λ _ recording. NotesOnly S.Child.may_answer S.may_read S.Reader.remaining
        S.Drain.may_say recording };

    fn recording(&self) -> Result<Recording, AllocError> {
        let entries = copies_of_entries(self.alloc, self.inner.journal())?;
        let mut recording = Recording::new(self.alloc, entries);
        for (_, note) in &self.endings {
            if let Some(ending) = note.get() {
                recording.ends_with(ending.number, ending.status)?;
            }
        }
        for (_, noted) in &self.outputs {
            if let Some(output) = noted.get() {
                recording.reads(output.number, output.shared()?)?;
            }
        }
        Ok(recording)
    }
}
