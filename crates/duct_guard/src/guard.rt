//! A guarded system.
ghost use Rattle.std.specs.Prelude.{◌≡◌, ◌≤◌, ◌<◌, [], false, length, map, string_bytes, IfOk, IfErr, min, Ok, Err};
ghost use Rattle.std.specs.Arc.{arc_value};
ghost use Rattle.duct_system.specs.EntryView.{entry_view, answer_of, Environment, Pipe, OpenRead, Create, Duplicate, Parent, Canonicalize, Spawn, Feed, Drain, Reader, Close};
ghost use Rattle.duct_system.specs.Child.{IsUnasked};
ghost use Rattle.duct_system.specs.Job.{unpolled_job};
ghost use Rattle.duct_system.specs.Journal.{GetsEnds, GivesEnds, IsCleared, IsRefused, RefusesChild, StartsChild};
ghost use Rattle.duct_system.specs.SpecView.{pair_text};
ghost use Rattle.duct_system.specs.Streams.{stream_of, ends_of};
ghost use Rattle.duct_guard.specs.Rules.{AreAllowed, AreDenied};
ghost use Rattle.duct_guard.specs.GuardView.{ClosesFirst, ForwardsAll, GotEnd, GotValue, GuardView, Keeps, OnlyForwards, SpendsEnds, allows_spawn, end_entry};
ghost use Rattle.duct_guard.specs.Held.{AlwaysFits, Fits, IsBegun, IsCrew, counts_of, held_after, nothing_held};

use crate::counts::{Counts, Held};
use crate::crew::{GuardedChild, Member, forget_ended};
use crate::policy::Policy;
use crate::requests::{
    EndRequest, canonicalize_noted, end_allowed, environment_noted, pipe_allowed, spawn_allowed,
    start_shared_feed,
};
use duct_system::journal::Journal;
use duct_system::spec::CommandSpec;
use duct_system::streams::{number_of, numbered_streams};
use duct_system::system::{Entry, Fault, Numbered, Side, Stdio, System};
use std::alloc::Global;
use std::marker::Model;
use std::sync::Arc;

/// A system over another one, to which it passes on only the requests that its policy allows. Each
/// other request fails with `PermissionDenied`. Ends, children, workers and readers are those of
/// the system below.
///
/// It has a journal of its own, with an entry for each request, also for one that it refused. A
/// forbidden request asks nothing below but to close the ends that it took. What is passed on is
/// asked once and returns what the system below returns; it fails with `OutOfMemory` where there is
/// no memory for the entry.
#[derive(Drop)]
pub struct Guarded<S: System, P: Policy> {
    inner: S,
    policy: P,
    journal: Journal,
    earlier: Held,
    held: Held,
    crew: Vec<Member<S::Child>>,
    ghost keeps: { Keeps S.Child.may_answer (P.rules policy) earlier held journal
        (S.journal_view inner) (map (λ m. m.number) crew.items) },
}

impl<S: System, P: Policy> Model for Guarded<S, P> {
    ghost Value = { GuardView S P };

    ghost view = { λ g. record {
      inner = g.inner;
      policy = g.policy;
      journal = record g.journal { next = (S.journal_view g.inner).next };
      earlier = g.earlier;
      held = g.held;
      running = map (λ m. m.number) g.crew.items;
    } };
}

impl<S: System, P: Policy> Guarded<S, P> {
    /// Returns a guard over a system whose journal is empty, as it is at first and after
    /// `clear_journal`. The guard's own journal is empty.
    pub fn new(alloc: Global, inner: S, policy: P) -> Guarded<S, P>
        requires { (S.journal_view inner).entries ≡ [] }
        ensures inner { result.inner ≡ inner }
        ensures policy { result.policy ≡ policy }
        ensures journal { result.journal ≡ record
            { entries = []; added = 0; next = (S.journal_view inner).next; room = 0 } }
        ensures earlier { result.earlier ≡ nothing_held }
        ensures held { result.held ≡ nothing_held }
        ensures running { result.running ≡ [] }
    {
        Guarded {
            inner,
            policy,
            journal: Journal::new(alloc),
            earlier: Held::nothing(),
            held: Held::nothing(),
            crew: Vec::new(alloc),
        }
    }

    /// Returns the system below. Its journal has what the guard forwards of each of its own
    /// entries, and nothing else, so the policy allows each request in it.
    pub fn inner(&self) -> &S
        ensures same { result.now ≡ self.now.inner }
        ensures allowed { AreAllowed (P.rules self.now.policy)
            (S.journal_view result.now).entries }
        ensures forwards { ∥ ForwardsAll (P.rules self.now.policy) self.now.earlier
            self.now.journal.entries (S.journal_view result.now).entries ∥₁ }
    {
        &self.inner
    }

    /// Returns the policy.
    pub fn policy(&self) -> &P
        ensures { result.now ≡ self.now.policy }
    {
        &self.policy
    }

    /// Returns the entries of the guard's own journal, oldest first. Each that the policy doesn't
    /// allow failed with `PermissionDenied`. Neither before nor after any of them more is held than
    /// the policy's limits.
    pub fn asked(&self) -> &[Entry]
        ensures same { map entry_view result.now ≡ self.now.journal.entries }
        ensures denied { AreDenied (P.rules self.now.policy) (map entry_view result.now) }
        ensures fits { AlwaysFits (P.rules self.now.policy).limits self.now.earlier
            (map entry_view result.now) }
    {
        self.journal.entries()
    }

    /// Returns how many ends are open and how many children were started, by all requests of the
    /// guard. It is never more than the policy's limits.
    pub fn held(&self) -> Counts
        ensures same { result ≡ counts_of self.now.held }
        ensures counted { result
            ≡ counts_of (held_after self.now.earlier self.now.journal.entries) }
        ensures fits { Fits (P.rules self.now.policy).limits result }
    {
        self.held.counts()
    }

    /// Returns how many children run, as far as the guard knows: it started them, and no poll of
    /// theirs has returned an exit status. It is never more than the policy allows at once.
    pub fn running(&mut self) -> usize
        ensures same { self.new ≡ record self.old { running = self.new.running } }
        ensures count { result ≡ length self.new.running }
        ensures few { result ≤ (P.rules self.new.policy).at_once }
        ensures knows { ∥ IsCrew S.Child.may_answer (P.rules self.new.policy).at_once
            self.new.earlier.children self.new.journal.entries self.new.running ∥₁ }
    {
        forget_ended(&mut self.crew);
        self.crew.len()
    }

    /// Returns the system below, whose journal has only requests that the policy allows, and the
    /// policy. The guard's journal is dropped.
    pub fn into_parts(self) -> (S, P)
        ensures inner { result.0 ≡ self.inner }
        ensures policy { result.1 ≡ self.policy }
        ensures allowed { AreAllowed (P.rules result.1) (S.journal_view result.0).entries }
        ensures begun { IsBegun self.earlier self.journal.added self.journal.entries }
        ensures forwards { ∥ ForwardsAll (P.rules result.1) self.earlier self.journal.entries
            (S.journal_view result.0).entries ∥₁ }
    {
        let Guarded { inner, policy, .. } = self;
        (inner, policy)
    }

    fn end(&mut self, asked: &EndRequest<S::End>) -> Result<S::End, Fault>
        ensures got { GotEnd S.End.number_of (end_entry S.End.number_of asked.now) result
            self.old.journal self.new.journal }
        ensures below { OnlyForwards S.journal_view P.rules self.old self.new }
    {
        let kept = self.journal.prepare_named(asked.path(), 1)?;
        let answer = end_allowed(&self.policy, self.held, &mut self.inner, asked);
        let made = self.journal.got(answer);
        self.held.count_end(&made);
        self.journal.add(asked.entry(kept, number_of(&made)));
        made
    }
}

// Returns whether a worker was started.
fn done<T>(made: &Result<T, Fault>) -> Result<(), Fault>
    ensures { result ≡ answer_of (λ job. tt) made.now }
{
    match made {
        Ok(_) => Ok(()),
        Err(fault) => Err(*fault),
    }
}

/// Where a request is forbidden, it fails with `PermissionDenied`; its entry is added, but nothing
/// is asked below except to close ends. All else is as below.
///
/// Ends that a refused spawn took are closed below in their order, as far as there is room for the
/// entries. Each end from a request of the guard brings this room; without it an end is dropped.
impl<S: System, P: Policy> System for Guarded<S, P> {
    type End = S::End;

    type Child = GuardedChild<S::Child>;

    type Feed = S::Feed;

    type Drain = S::Drain;

    type Reader = S::Reader;

    ghost journal_view = { λ guard. guard.journal };

    ghost may_read = { S.may_read };

    ghost streams_fit = { S.streams_fit };

    ghost same_bytes = { S.same_bytes };

    ghost feeds_say_again = { S.feeds_say_again };

    fn environment(&mut self) -> Result<Vec<(String, String)>, Fault>
        ensures got { GotValue (λ pairs. map pair_text pairs.items) Environment result
            self.old.journal self.new.journal }
        ensures below { OnlyForwards S.journal_view P.rules self.old self.new }
    {
        self.journal.prepare(0)?;
        let (pairs, entry) = environment_noted(self.journal.allocator(), &mut self.inner);
        self.journal.add(entry);
        pairs
    }

    fn pipe(&mut self) -> Result<(S::End, S::End), Fault>
        ensures ok { IfOk result (λ ends.
            let read = S.End.number_of ends.0 in
            let write = S.End.number_of ends.1 in
            GetsEnds (Pipe (Ok (read, write))) read write self.old.journal self.new.journal) }
        ensures err { IfErr result (λ fault.
            IsRefused (Pipe (Err fault)) 0 fault self.old.journal self.new.journal) }
        ensures below { OnlyForwards S.journal_view P.rules self.old self.new }
    {
        self.journal.prepare(2)?;
        match pipe_allowed(&self.policy, self.held, &mut self.inner) {
            Ok((reader, writer)) => {
                let (read, write) = (reader.number(), writer.number());
                self.held.open(read);
                self.held.open(write);
                self.journal.add(Entry::Pipe(Ok((read, write))));
                Ok((reader, writer))
            }
            Err(fault) => {
                self.journal.give_back(2);
                self.journal.add(Entry::Pipe(Err(fault)));
                Err(fault)
            }
        }
    }

    fn open_read(&mut self, path: &str) -> Result<S::End, Fault>
        ensures got { GotEnd S.End.number_of (λ answer. OpenRead path.now answer) result
            self.old.journal self.new.journal }
        ensures below { OnlyForwards S.journal_view P.rules self.old self.new }
    {
        self.end(&EndRequest::Read(path))
    }

    fn create(&mut self, path: &str) -> Result<S::End, Fault>
        ensures got { GotEnd S.End.number_of (λ answer. Create path.now answer) result
            self.old.journal self.new.journal }
        ensures below { OnlyForwards S.journal_view P.rules self.old self.new }
    {
        self.end(&EndRequest::Create(path))
    }

    fn duplicate(&mut self, end: &S::End) -> Result<S::End, Fault>
        ensures got { GotEnd S.End.number_of
            (λ answer. Duplicate (S.End.number_of end.now) answer) result
            self.old.journal self.new.journal }
        ensures below { OnlyForwards S.journal_view P.rules self.old self.new }
    {
        self.end(&EndRequest::Duplicate(end))
    }

    fn parent(&mut self, side: Side) -> Result<S::End, Fault>
        ensures got { GotEnd S.End.number_of (λ answer. Parent side answer) result
            self.old.journal self.new.journal }
        ensures below { OnlyForwards S.journal_view P.rules self.old self.new }
    {
        self.end(&EndRequest::Parent(side))
    }

    fn canonicalize(&mut self, path: &str) -> Result<String, Fault>
        ensures got { GotValue (λ text. string_bytes text)
            (λ answer. Canonicalize path.now answer) result self.old.journal self.new.journal }
        ensures below { OnlyForwards S.journal_view P.rules self.old self.new }
    {
        let asked = self.journal.prepare_named(path, 0)?;
        let alloc = self.journal.allocator();
        let (text, entry) = canonicalize_noted(alloc, &self.policy, &mut self.inner, path, asked);
        self.journal.add(entry);
        text
    }

    fn spawn(
        &mut self,
        spec: CommandSpec,
        io: [Stdio<S::End>; 3],
    ) -> Result<GuardedChild<S::Child>, Fault>
        requires { min 1 (length (ends_of io)) ≤ self.old.journal.room }
        ensures ok { IfOk result (λ child. StartsChild S.End.number_of spec io
            (S.Child.number_of child.inner) self.old.journal self.new.journal) }
        ensures unasked { IfOk result (λ child. IsUnasked (S.Child.child_view child.inner)) }
        ensures err { IfErr result
            (λ fault. RefusesChild S.End.number_of spec io fault
            self.old.journal self.new.journal) }
        // Without ends, nothing is asked: there may be no memory for the entry.
        ensures closes { allows_spawn (P.rules self.old.policy) self.old.held spec ≡ false →
            ClosesFirst self.old.journal.room (map S.End.number_of (ends_of io))
            (S.journal_view self.old.inner) (S.journal_view self.new.inner) }
        ensures spends { IfErr result (λ fault.
            let entry = Spawn spec (map (stream_of S.End.number_of) io) (Err fault) in
            SpendsEnds self.old.journal.room entry fault (S.journal_view self.old.inner)
            (S.journal_view self.new.inner)) }
        ensures below { OnlyForwards S.journal_view P.rules self.old self.new }
    {
        let (streams, ends) = numbered_streams(&io);
        let room = self.journal.room();
        self.journal.prepare_spawn(ends)?;
        let alloc = self.journal.allocator();
        let held = self.held;
        let started = spawn_allowed(
            alloc,
            &self.policy,
            held,
            &mut self.crew,
            &mut self.inner,
            &spec,
            io,
            room,
        );
        self.held.count_spawn(&streams, &started);
        self.journal
            .add(Entry::Spawn(spec, streams, number_of(&started)));
        started
    }

    fn start_feed(&mut self, end: S::End, bytes: Arc<Vec<u8>>) -> Result<S::Feed, Fault>
        requires { 0 < self.old.journal.room }
        ensures ok { IfOk result (λ job.
            let entry = Feed (S.End.number_of end) (arc_value bytes).items (Ok tt) in
            GivesEnds entry 1 self.old.journal self.new.journal) }
        ensures unasked { IfOk result
            (λ job. S.Feed.job_view job ≡ unpolled_job (S.End.number_of end)) }
        ensures err { IfErr result (λ fault.
            let entry = Feed (S.End.number_of end) (arc_value bytes).items (Err fault) in
            GivesEnds entry 1 self.old.journal self.new.journal) }
        ensures spends { IfErr result (λ fault.
            let entry = Feed (S.End.number_of end) (arc_value bytes).items (Err fault) in
            SpendsEnds 1 entry fault (S.journal_view self.old.inner)
            (S.journal_view self.new.inner)) }
        ensures below { OnlyForwards S.journal_view P.rules self.old self.new }
    {
        let number = end.number();
        self.held.spend(number);
        let started = start_shared_feed(&mut self.inner, end, &bytes);
        self.journal.add(Entry::Feed(number, bytes, done(&started)));
        started
    }

    fn start_drain(&mut self, end: S::End) -> Result<S::Drain, Fault>
        requires { 0 < self.old.journal.room }
        ensures ok { IfOk result (λ job.
            GivesEnds (Drain (S.End.number_of end) (Ok tt)) 1 self.old.journal self.new.journal) }
        ensures unasked { IfOk result
            (λ job. S.Drain.job_view job ≡ unpolled_job (S.End.number_of end)) }
        ensures err { IfErr result (λ fault.
            GivesEnds (Drain (S.End.number_of end) (Err fault)) 1 self.old.journal
            self.new.journal) }
        ensures asked { GivesEnds (Drain (S.End.number_of end) (answer_of (λ job. tt) result)) 1
            (S.journal_view self.old.inner) (S.journal_view self.new.inner) }
        ensures below { OnlyForwards S.journal_view P.rules self.old self.new }
    {
        let number = end.number();
        self.held.spend(number);
        let started = self.inner.start_drain(end);
        self.journal.add(Entry::Drain(number, done(&started)));
        started
    }

    fn reader(&mut self, end: S::End) -> S::Reader
        requires { 0 < self.old.journal.room }
        ensures added { GivesEnds (Reader (S.End.number_of end)) 1 self.old.journal
            self.new.journal }
        ensures told { S.may_read (S.End.number_of end) result }
        ensures below { OnlyForwards S.journal_view P.rules self.old self.new }
    {
        let number = end.number();
        self.held.spend(number);
        self.journal.add(Entry::Reader(number));
        self.inner.reader(end)
    }

    fn close(&mut self, end: S::End)
        requires { 0 < self.old.journal.room }
        ensures added { GivesEnds (Close (S.End.number_of end)) 1 self.old.journal
            self.new.journal }
        ensures below { OnlyForwards S.journal_view P.rules self.old self.new }
    {
        let number = end.number();
        self.held.spend(number);
        self.journal.add(Entry::Close(number));
        self.inner.close(end);
    }

    fn journal(&self) -> &[Entry] {
        self.journal.entries()
    }

    // Both journals are cleared. What is held, and which children run, stays.
    fn clear_journal(&mut self)
        ensures cleared { IsCleared self.old.journal self.new.journal }
        ensures below { IsCleared (S.journal_view self.old.inner) (S.journal_view self.new.inner) }
        ensures policy { self.new.policy ≡ self.old.policy }
        ensures earlier { self.new.earlier ≡ self.old.held }
        ensures held { self.new.held ≡ self.old.held }
        ensures running { self.new.running ≡ self.old.running }
    {
        self.inner.clear_journal();
        self.journal.clear();
        self.earlier = self.held;
    }
}
