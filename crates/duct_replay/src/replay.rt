//! A system that answers from a recording.
ghost use Rattle.std.specs.Prelude.{◌≡◌, ◌≤◌, ◌<◌, ◌+◌, ◌-◌, [], map, min, length, string_bytes, Some, Ok, Err, IfOk, IfErr, OnOk, OnErr, option_map};
ghost use Rattle.std.proofs.Common.{lit<};
ghost use Rattle.std.specs.Arc.{arc_value};
ghost use Rattle.duct_system.specs.Child.{IsUnasked};
ghost use Rattle.duct_system.specs.EntryView.{entry_view, answer_of, Environment, Pipe, OpenRead, Create, Duplicate, Parent, Canonicalize, Spawn, Feed, Drain, Reader, Close};
ghost use Rattle.duct_system.specs.Job.{unpolled_job};
ghost use Rattle.duct_system.specs.Journal.{Asks, GetsEnds, GivesEnds, IsCleared, IsRefused, RefusesChild, StartsChild};
ghost use Rattle.duct_system.specs.SpecView.{pair_text};
ghost use Rattle.duct_system.specs.Streams.{stream_of, ends_of};
ghost use Rattle.duct_replay.specs.RecordingView.{bytes_of, no_memory, output_of, status_of};
ghost use Rattle.duct_replay.specs.Replays.{Fits, FitsChild, FitsNumber, FitsPipe, HasFound, IsNext, IsToldRight, IsUnread, MayReplay, ReplayView, Replays, ReplaysEnd, Retraces, Steps, child_view, difference_after, drain_view, feed_view, next_of, next_view, noted};

use crate::found::{
    environment_copy, found_canonicalize, found_create, found_drain, found_duplicate,
    found_environment, found_feed, found_open_read, found_parent, found_pipe, found_spawn,
    is_close, is_reader, path_copy, text_copy,
};
use crate::recording::Recording;
use crate::replayed::{ReplayChild, ReplayDrain, ReplayFeed, ReplayReader};
use duct_system::journal::Journal;
use duct_system::spec::CommandSpec;
use duct_system::streams::numbered_streams;
use duct_system::system::{Entry, Fault, Numbered, Side, Stdio, System};
use std::alloc::Global;
use std::marker::Model;
use std::sync::Arc;

/// An end of a replay: it has the number of the recorded end, and nothing else.
#[derive(Drop)]
pub struct ReplayEnd {
    number: u64,
}

impl Numbered for ReplayEnd {
    ghost number_of = { λ end. end.number };

    fn number(&self) -> u64 {
        self.number
    }
}

/// A system that starts no process and opens no file: it answers each request as the recording
/// does, while its requests are the recorded ones. At the first that isn't, it keeps the place in
/// the recording, and from then on each request that can fail fails with `Other`.
///
/// A recorded number of an end or a child that can't be given, since it was given before, makes its
/// request differ too. At an allocation failure a request fails with `OutOfMemory`; where it adds
/// an entry nevertheless, that entry differs.
#[derive(Drop)]
pub struct Replay {
    recording: Recording,
    difference: Option<usize>,
    journal: Journal,
    ghost retraces: { ∥ Retraces recording.entries journal.entries journal.added difference ∥₁ },
}

impl Model for Replay {
    ghost Value = { ReplayView };

    ghost view = { λ r. record {
      recording = r.recording;
      difference = r.difference;
      journal = r.journal;
    } };
}

impl Replay {
    /// Returns a replay that was asked nothing, and answers from the first entry of the recording.
    pub fn new(alloc: Global, recording: Recording) -> Replay
        ensures { result ≡ record {
          recording = recording;
          difference = None;
          journal = record { entries = []; added = 0; next = 1; room = 0 };
        } }
    {
        Replay {
            recording,
            difference: None,
            journal: Journal::new(alloc),
        }
    }

    /// Returns the recording.
    pub fn recording(&self) -> &Recording
        ensures { result.now ≡ self.now.recording }
    {
        &self.recording
    }

    /// Returns the place of the first entry that differs, counted from 0, or `None` while each
    /// entry was the recorded one. Entries that were cleared count too.
    pub fn difference(&self) -> Option<usize>
        ensures place { result ≡ self.now.difference }
        ensures retraces { ∥ Retraces self.now.recording.entries self.now.journal.entries
            self.now.journal.added result ∥₁ }
    {
        self.difference
    }

    // Returns the entry that is recorded next, or `None` at the end and after a difference.
    fn next(&self) -> Option<&Entry>
        ensures { next_view result ≡ next_of self.now }
    {
        if self.difference.is_some() {
            return None;
        }
        self.recording.entries().get(self.journal.added() as usize)
    }

    // Makes room for an entry and for this many after it.
    fn prepare(&mut self, ends: usize) -> Result<(), Fault>
        ensures ok { OnOk result (self.new ≡ record self.old {
          journal = record self.old.journal { room = self.old.journal.room + ends + 1 };
        }) }
        ensures err { IfErr result (λ fault. fault ≡ no_memory) }
        ensures unchanged { OnErr result (self.new ≡ self.old) }
    {
        self.journal.prepare(ends)
    }

    // Makes room for the entry of a spawn that takes this many ends, by `prepare_spawn`.
    fn prepare_spawn(&mut self, ends: usize) -> Result<(), Fault>
        requires { min 1 ends ≤ self.old.journal.room }
        ensures ok { OnOk result (self.new ≡ record self.old {
          journal = record self.old.journal { room = (self.old.journal.room - ends) + 1 };
        }) }
        ensures err { IfErr result
            (λ fault. (fault ≡ no_memory) × (self.new ≡ self.old) × (ends ≡ 0)) }
    {
        self.journal.prepare_spawn(ends)
    }

    // Counts up to the number of a result. If it has none, releases the room for this many ends.
    fn count(&mut self, answer: &Result<u64, Fault>, ends: usize)
        requires next { FitsNumber self.old.journal.next answer.now }
        requires room { ends ≤ self.old.journal.room }
        ensures ok { IfOk answer.now (λ number. self.new ≡ record self.old {
          journal = record self.old.journal { next = number + 1 };
        }) }
        ensures err { OnErr answer.now (self.new ≡ record self.old {
          journal = record self.old.journal { room = self.old.journal.room - ends };
        }) }
        ensures rest { self.new ≡ record self.old {
          journal = record self.old.journal
              { next = self.new.journal.next; room = self.new.journal.room };
        } }
        ensures same { next_of self.new ≡ next_of self.old }
    {
        match answer {
            Ok(number) => count_to(&mut self.journal, *number),
            Err(_) => self.journal.give_back(ends),
        }
    }

    // Adds an entry, which is the one that is recorded next or isn't. Keeps the place of the first
    // that isn't.
    fn note(&mut self, entry: Entry, agrees: bool)
        requires room { 0 < self.old.journal.room }
        requires agrees { IsToldRight agrees (entry_view entry) (next_of self.old) }
        ensures { self.new ≡ noted agrees (entry_view entry) self.old }
    {
        let place = self.journal.added() as usize;
        self.difference = difference_after(agrees, place, self.difference);
        self.journal.add(entry);
    }
}

// Returns the place of the first difference after one more entry, at this place.
fn difference_after(agrees: bool, place: usize, difference: Option<usize>) -> Option<usize>
    ensures { result ≡ difference_after agrees place difference }
{
    if agrees || difference.is_some() {
        difference
    } else {
        Some(place)
    }
}

fn count_to(journal: &mut Journal, number: u64)
    requires { IsNext journal.old.next number }
    ensures { journal.new ≡ record journal.old { next = number + 1 } }
{
    let count = number - journal.next() + 1;
    let _ = journal.take_numbers(count);
}

impl System for Replay {
    type End = ReplayEnd;

    type Child = ReplayChild;

    type Feed = ReplayFeed;

    type Drain = ReplayDrain;

    type Reader = ReplayReader;

    ghost journal_view = { λ replay. replay.journal };

    ghost may_read = { IsUnread };

    ghost streams_fit = { lit< tt };

    ghost same_bytes = { λ one other same. same };

    ghost feeds_say_again = { λ refusable. refusable };

    fn environment(&mut self) -> Result<Vec<(String, String)>, Fault>
        ensures ok { IfOk result (λ pairs.
            Asks (Environment (Ok (map pair_text pairs.items))) self.old.journal
            self.new.journal) }
        ensures err { IfErr result (λ fault.
            IsRefused (Environment (Err fault)) 0 fault self.old.journal self.new.journal) }
        ensures replayed { MayReplay Environment Fits self.old
            (answer_of (λ pairs. map pair_text pairs.items) result) self.new }
    {
        let alloc = self.journal.allocator();
        let (answer, agrees) = found_environment(alloc, self.next())?;
        let kept = environment_copy(alloc, &answer)?;
        self.prepare(0)?;
        self.note(Entry::Environment(kept), agrees);
        answer
    }

    fn pipe(&mut self) -> Result<(ReplayEnd, ReplayEnd), Fault>
        ensures ok { IfOk result (λ ends.
            let read = ends.0.number in
            let write = ends.1.number in
            GetsEnds (Pipe (Ok (read, write))) read write self.old.journal self.new.journal) }
        ensures err { IfErr result (λ fault.
            IsRefused (Pipe (Err fault)) 0 fault self.old.journal self.new.journal) }
        ensures replayed { MayReplay Pipe (FitsPipe self.old.journal.next) self.old
            (answer_of (λ ends. (ends.0.number, ends.1.number)) result) self.new }
    {
        self.prepare(2)?;
        let (answer, agrees) = found_pipe(self.next(), self.journal.next());
        self.count(&answer.map(|(reader, writer)| reader.max(writer)), 2);
        self.note(Entry::Pipe(answer), agrees);
        let (reader, writer) = answer?;
        Ok((ReplayEnd { number: reader }, ReplayEnd { number: writer }))
    }

    fn open_read(&mut self, path: &str) -> Result<ReplayEnd, Fault>
        ensures { ReplaysEnd (λ e. e.number) (OpenRead path.now) self.old result self.new }
    {
        let kept = text_copy(self.journal.allocator(), path)?;
        self.prepare(1)?;
        let (answer, agrees) = found_open_read(self.next(), path, self.journal.next());
        self.count(&answer, 1);
        self.note(Entry::OpenRead(kept, answer), agrees);
        Ok(ReplayEnd { number: answer? })
    }

    fn create(&mut self, path: &str) -> Result<ReplayEnd, Fault>
        ensures { ReplaysEnd (λ e. e.number) (Create path.now) self.old result self.new }
    {
        let kept = text_copy(self.journal.allocator(), path)?;
        self.prepare(1)?;
        let (answer, agrees) = found_create(self.next(), path, self.journal.next());
        self.count(&answer, 1);
        self.note(Entry::Create(kept, answer), agrees);
        Ok(ReplayEnd { number: answer? })
    }

    fn duplicate(&mut self, end: &ReplayEnd) -> Result<ReplayEnd, Fault>
        ensures { ReplaysEnd (λ e. e.number) (Duplicate end.now.number) self.old result self.new }
    {
        self.prepare(1)?;
        let (answer, agrees) = found_duplicate(self.next(), end.number, self.journal.next());
        self.count(&answer, 1);
        self.note(Entry::Duplicate(end.number, answer), agrees);
        Ok(ReplayEnd { number: answer? })
    }

    fn parent(&mut self, side: Side) -> Result<ReplayEnd, Fault>
        ensures { ReplaysEnd (λ e. e.number) (Parent side) self.old result self.new }
    {
        self.prepare(1)?;
        let (answer, agrees) = found_parent(self.next(), side, self.journal.next());
        self.count(&answer, 1);
        self.note(Entry::Parent(side, answer), agrees);
        Ok(ReplayEnd { number: answer? })
    }

    fn canonicalize(&mut self, path: &str) -> Result<String, Fault>
        ensures ok { IfOk result (λ text.
            Asks (Canonicalize path.now (Ok (string_bytes text))) self.old.journal
            self.new.journal) }
        ensures err { IfErr result (λ fault.
            IsRefused (Canonicalize path.now (Err fault)) 0 fault self.old.journal
            self.new.journal) }
        ensures replayed { MayReplay (Canonicalize path.now) Fits self.old
            (answer_of (λ text. string_bytes text) result) self.new }
    {
        let alloc = self.journal.allocator();
        let asked = text_copy(alloc, path)?;
        let (answer, agrees) = found_canonicalize(alloc, self.next(), path)?;
        let kept = path_copy(alloc, &answer)?;
        self.prepare(0)?;
        self.note(Entry::Canonicalize(asked, kept), agrees);
        answer
    }

    fn spawn(&mut self, spec: CommandSpec, io: [Stdio<ReplayEnd>; 3]) -> Result<ReplayChild, Fault>
        requires { min 1 (length (ends_of io)) ≤ self.old.journal.room }
        ensures ok { IfOk result (λ child. StartsChild (λ end. end.number) spec io
            child.number self.old.journal self.new.journal) }
        ensures unasked { IfOk result (λ child. IsUnasked (child_view child)) }
        ensures err { IfErr result
            (λ fault. RefusesChild (λ end. end.number) spec io fault
            self.old.journal self.new.journal) }
        // Where a recorded child failed with `OutOfMemory`, there may be no memory to compare the
        // specs.
        ensures replayed { MayReplay (Spawn spec (map (stream_of (λ end. end.number)) io))
            (FitsChild self.old.journal.next) self.old (answer_of (λ child. child.number) result)
            self.new }
        ensures status { IfOk result
            (λ child. child.status ≡ status_of child.number self.old.recording) }
    {
        let (streams, ends) = numbered_streams(&io);
        self.prepare_spawn(ends)?;
        match found_spawn(self.next(), &spec, &streams, self.journal.next()) {
            Ok((answer, agrees)) => {
                self.count(&answer, 0);
                self.note(Entry::Spawn(spec, streams, answer), agrees);
                let number = answer?;
                let status = self.recording.status(number);
                Ok(ReplayChild::new(self.journal.allocator(), number, status))
            }
            Err(fault) => {
                self.note(Entry::Spawn(spec, streams, Err(fault)), false);
                Err(fault)
            }
        }
    }

    fn start_feed(&mut self, end: ReplayEnd, bytes: Arc<Vec<u8>>) -> Result<ReplayFeed, Fault>
        requires { 0 < self.old.journal.room }
        ensures ok { IfOk result (λ job.
            let entry = Feed end.number (arc_value bytes).items (Ok tt) in
            GivesEnds entry 1 self.old.journal self.new.journal) }
        ensures unasked { IfOk result (λ job. feed_view job ≡ unpolled_job end.number) }
        ensures err { IfErr result (λ fault.
            let entry = Feed end.number (arc_value bytes).items (Err fault) in
            GivesEnds entry 1 self.old.journal self.new.journal) }
        ensures replayed { Replays (Feed end.number (arc_value bytes).items) Fits self.old
            (answer_of (λ job. tt) result) self.new }
    {
        let (answer, agrees) = found_feed(self.next(), end.number, &bytes);
        self.note(Entry::Feed(end.number, bytes, answer), agrees);
        answer?;
        Ok(ReplayFeed::new(end.number))
    }

    fn start_drain(&mut self, end: ReplayEnd) -> Result<ReplayDrain, Fault>
        requires { 0 < self.old.journal.room }
        ensures ok { IfOk result (λ job.
            GivesEnds (Drain end.number (Ok tt)) 1 self.old.journal self.new.journal) }
        ensures unasked { IfOk result (λ job. drain_view job ≡ unpolled_job end.number) }
        ensures err { IfErr result (λ fault.
            GivesEnds (Drain end.number (Err fault)) 1 self.old.journal self.new.journal) }
        ensures replayed { MayReplay (Drain end.number) Fits self.old
            (answer_of (λ job. tt) result) self.new }
        ensures read { IfOk result
            (λ job. option_map bytes_of job.bytes ≡ output_of end.number self.old.recording) }
    {
        let (answer, agrees) = found_drain(self.next(), end.number);
        if let Err(fault) = answer {
            self.note(Entry::Drain(end.number, answer), agrees);
            return Err(fault);
        }
        match self.recording.output(end.number) {
            Ok(bytes) => {
                self.note(Entry::Drain(end.number, Ok(())), agrees);
                Ok(ReplayDrain::new(end.number, bytes))
            }
            Err(fault) => {
                self.note(Entry::Drain(end.number, Err(fault)), false);
                Err(fault)
            }
        }
    }

    fn reader(&mut self, end: ReplayEnd) -> ReplayReader
        requires { 0 < self.old.journal.room }
        ensures added { GivesEnds (Reader end.number) 1 self.old.journal
            self.new.journal }
        ensures told { IsUnread end.number result }
        ensures steps { Steps self.old self.new }
        ensures read { HasFound (output_of end.number self.old.recording) result.bytes }
    {
        let agrees = is_reader(self.next(), end.number);
        self.note(Entry::Reader(end.number), agrees);
        ReplayReader::new(end.number, self.recording.output(end.number))
    }

    fn close(&mut self, end: ReplayEnd)
        requires { 0 < self.old.journal.room }
        ensures added { GivesEnds (Close end.number) 1 self.old.journal
            self.new.journal }
        ensures steps { Steps self.old self.new }
    {
        let agrees = is_close(self.next(), end.number);
        self.note(Entry::Close(end.number), agrees);
    }

    fn journal(&self) -> &[Entry] {
        self.journal.entries()
    }

    // Only the entries are cleared: what has differed is still known.
    fn clear_journal(&mut self)
        ensures cleared { IsCleared self.old.journal self.new.journal }
        ensures difference { self.new.difference ≡ self.old.difference }
        ensures recording { self.new.recording ≡ self.old.recording }
    {
        self.journal.clear();
    }
}
