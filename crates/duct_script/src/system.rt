//! The scripted system.
ghost use Rattle.std.specs.Prelude.{◌≡◌, ◌+◌, ◌-◌, ◌^◌, ◌<◌, ◌≤◌, max, min, length, drop, map, string_bytes, unwrap_or, false, IfSome, IfNone, IfOk, IfErr, OnOk, OnErr, Ok, Err, Some, None, [], ◌∷◌, ◌++◌};
ghost use Rattle.std.specs.Arc.{arc_value};
ghost use Rattle.duct_system.specs.declared.system.Kind.TheVariants.{OutOfMemory, Other};
ghost use Rattle.duct_system.specs.SpecView.{pair_text};
ghost use Rattle.duct_script.specs.Settings.{canonical_of, with_path, next_fault, with_request, SharesLog, IsUnset};
ghost use Rattle.duct_script.specs.Told.{IsObeying, child_view, feed_view, drain_view};
ghost use Rattle.duct_script.specs.declared.child.ChildScript.{ChildScript};
ghost use Rattle.duct_system.specs.declared.system.Said.TheVariants.{Done};
ghost use Rattle.duct_script.specs.Answers.{IsNext, bytes_said};
ghost use Rattle.duct_script.specs.declared.requests.Sort.TheVariants.{Drain};
ghost use Rattle.duct_system.specs.Child.{IsUnasked};
ghost use Rattle.duct_system.specs.Job.{unpolled_job};
ghost use Rattle.duct_system.specs.Journal.{RefusesChild, StartsChild};
ghost use Rattle.duct_system.specs.Streams.{ends_of};
ghost use Rattle.std.proofs.Common.{lit<};

use crate::answers::Answers;
use crate::calls::{Call, CallLog, note};
use crate::child::{ChildScript, PollAnswer, ScriptChild};
use crate::job::{DrainScript, FeedScript, ScriptDrain, ScriptFeed};
use crate::reader::{ReaderScript, ScriptReader};
use crate::requests::{Requests, Sort};
use duct_system::journal::Journal;
use duct_system::spec::CommandSpec;
use duct_system::streams::numbered_streams;
use duct_system::system::{Entry, Fault, Kind, Numbered, Side, Stdio, System};
use std::alloc::{AllocError, Global};
use std::collections::{BTreeMap, VecDeque};
use std::sync::Arc;

/// An end of a scripted system. It has a number, and nothing reads from it or writes to it.
#[derive(Debug, Drop)]
pub struct ScriptEnd {
    number: u64,
}

impl Numbered for ScriptEnd {
    ghost number_of = { λ e. e.number };

    fn number(&self) -> u64 {
        self.number
    }
}

/// A system whose results come from lists that a test sets. A request succeeds unless a fault is
/// set for it, it finds no memory, or no number is left. The calls that set something fail only on
/// allocation failure, and then set nothing.
#[derive(Drop)]
pub struct Script {
    journal: Journal,
    requests: Requests,
    variables: Vec<(String, String)>,
    canonical: BTreeMap<String, String>,
    children: VecDeque<ChildScript>,
    feeds: VecDeque<FeedScript>,
    drains: VecDeque<DrainScript>,
    readers: VecDeque<ReaderScript>,
    empty: Arc<Vec<u8>>,
    calls: Option<Arc<CallLog>>,
    starved: bool,
}

impl Script {
    /// Returns a system with no variables and no faults set, whose next number is 1. Fails only on
    /// allocation failure.
    pub fn new(alloc: Global) -> Result<Script, AllocError>
        ensures journal { IfOk result
            (λ sys. sys.journal ≡ record { entries = []; added = 0; next = 1; room = 0 }) }
        ensures asked { IfOk result (λ sys. sys.requests.asked ≡ 0) }
        ensures refusals { IfOk result (λ sys. sys.requests.refusals.items ≡ []) }
        ensures unset { IfOk result IsUnset }
    {
        Ok(Script {
            journal: Journal::new(alloc),
            requests: Requests::new(alloc),
            variables: Vec::new(alloc),
            canonical: BTreeMap::new(alloc),
            children: VecDeque::new(alloc),
            feeds: VecDeque::new(alloc),
            drains: VecDeque::new(alloc),
            readers: VecDeque::new(alloc),
            empty: Arc::new(alloc, Vec::new(alloc))?,
            calls: None,
            starved: false,
        })
    }

    /// Sets a fault for the request with this number, counted from 1 among all requests. A fault
    /// for a `Close` or a `Reader` is ignored.
    pub fn refuse(&mut self, request: u64, fault: Fault) -> Result<(), AllocError>
        ensures ok { OnOk result
            (self.new.requests.refusals.items ≡ self.old.requests.refusals.items
            ++ record { sort = None; request = request; fault = fault } ∷ []) }
        ensures err { OnErr result
            (self.new.requests.refusals.items ≡ self.old.requests.refusals.items) }
        ensures rest { self.new ≡ record self.old {
          requests = record self.old.requests { refusals = self.new.requests.refusals };
        } }
    {
        self.requests.refuse(None, request, fault)
    }

    /// Sets a fault for the request with this number, counted from 1 among those of its sort. A
    /// fault for a `Close` or a `Reader` is ignored.
    pub fn refuse_sort(&mut self, sort: Sort, request: u64, fault: Fault) -> Result<(), AllocError>
        ensures ok { OnOk result
            (self.new.requests.refusals.items ≡ self.old.requests.refusals.items
            ++ record { sort = Some sort; request = request; fault = fault } ∷ []) }
        ensures err { OnErr result
            (self.new.requests.refusals.items ≡ self.old.requests.refusals.items) }
        ensures rest { self.new ≡ record self.old {
          requests = record self.old.requests { refusals = self.new.requests.refusals };
        } }
    {
        self.requests.refuse(Some(sort), request, fault)
    }

    /// Adds a variable to the environment, after those that are set. A name may be set twice.
    pub fn variable(&mut self, name: &str, value: &str) -> Result<(), AllocError>
        ensures ok { OnOk result
            (map pair_text self.new.variables.items ≡ map pair_text self.old.variables.items
            ++ (name.now, value.now) ∷ []) }
        ensures err { OnErr result (self.new.variables.items ≡ self.old.variables.items) }
        ensures rest { self.new ≡ record self.old { variables = self.new.variables } }
    {
        let alloc = self.journal.allocator();
        let pair = (
            String::from_str(alloc, name)?,
            String::from_str(alloc, value)?,
        );
        self.variables.push(pair)?;
        Ok(())
    }

    /// Sets the canonical path of a path. Every other path is its own canonical path.
    pub fn canonical(&mut self, path: &str, text: &str) -> Result<(), AllocError>
        ensures ok { OnOk result
            (map pair_text self.new.canonical.entries
            ≡ with_path path.now text.now (map pair_text self.old.canonical.entries)) }
        ensures err { OnErr result (self.new.canonical.entries ≡ self.old.canonical.entries) }
        ensures rest { self.new ≡ record self.old { canonical = self.new.canonical } }
    {
        let alloc = self.journal.allocator();
        let path = String::from_str(alloc, path)?;
        let text = String::from_str(alloc, text)?;
        self.canonical.insert(path, text)?;
        Ok(())
    }

    /// Sets the results of one more child. Each successful spawn takes the first results that are
    /// left. If there are none, its child keeps running, and its orders succeed.
    pub fn child(&mut self, script: ChildScript) -> Result<(), AllocError>
        ensures ok { OnOk result
            (self.new.children.items ≡ self.old.children.items ++ script ∷ []) }
        ensures err { OnErr result (self.new.children.items ≡ self.old.children.items) }
        ensures rest { self.new ≡ record self.old { children = self.new.children } }
    {
        self.children.push_back(script)?;
        Ok(())
    }

    /// Sets the poll results of one more child, as `child` does. Its orders succeed.
    pub fn polls(&mut self, answers: &[PollAnswer]) -> Result<(), AllocError>
        ensures ok { OnOk result
            ((script : ChildScript)
            × (self.new.children.items ≡ self.old.children.items ++ script ∷ [])
            × IsObeying answers.now script) }
        ensures err { OnErr result (self.new.children.items ≡ self.old.children.items) }
        ensures rest { self.new ≡ record self.old { children = self.new.children } }
    {
        let alloc = self.journal.allocator();
        let mut script = ChildScript::running(alloc);
        script.polls = Answers::of(Vec::from_slice(alloc, answers)?);
        self.child(script)?;
        Ok(())
    }

    /// Sets the results of one more feed, as `child` does. Without any, its polls return `Done`.
    pub fn feed(&mut self, script: FeedScript) -> Result<(), AllocError>
        ensures ok { OnOk result (self.new.feeds.items ≡ self.old.feeds.items ++ script ∷ []) }
        ensures err { OnErr result (self.new.feeds.items ≡ self.old.feeds.items) }
        ensures rest { self.new ≡ record self.old { feeds = self.new.feeds } }
    {
        self.feeds.push_back(script)?;
        Ok(())
    }

    /// Sets the results of one more drain, as `child` does. Without any, its polls return `Done`
    /// with no bytes.
    pub fn drain(&mut self, script: DrainScript) -> Result<(), AllocError>
        ensures ok { OnOk result (self.new.drains.items ≡ self.old.drains.items ++ script ∷ []) }
        ensures err { OnErr result (self.new.drains.items ≡ self.old.drains.items) }
        ensures rest { self.new ≡ record self.old { drains = self.new.drains } }
    {
        self.drains.push_back(script)?;
        Ok(())
    }

    /// Sets the bytes and the reads of one more reader, as `child` does. Without any, it returns no
    /// bytes.
    pub fn bytes(&mut self, script: ReaderScript) -> Result<(), AllocError>
        ensures ok { OnOk result (self.new.readers.items ≡ self.old.readers.items ++ script ∷ []) }
        ensures err { OnErr result (self.new.readers.items ≡ self.old.readers.items) }
        ensures rest { self.new ≡ record self.old { readers = self.new.readers } }
    {
        self.readers.push_back(script)?;
        Ok(())
    }

    /// Sets the log that notes each later request, each poll and order of the children that are
    /// spawned later, and each poll of the workers that are started later. A child or worker notes
    /// nothing if the log can't get one more owner when it is started. An order that fails on
    /// allocation failure isn't noted.
    pub fn note_in(&mut self, calls: Arc<CallLog>)
        ensures { self.new ≡ record self.old { calls = Some calls } }
    {
        self.calls = Some(calls);
    }

    /// Sets whether the system finds no memory from now on. A request that takes an end is not
    /// affected.
    pub fn starve(&mut self, starved: bool)
        ensures { self.new ≡ record self.old { starved = starved } }
    {
        self.starved = starved;
    }

    /// Skips the numbers below this one.
    pub fn skip_numbers_below(&mut self, number: u64)
        ensures { self.new ≡ record self.old {
          journal = record self.old.journal { next = max self.old.journal.next number };
        } }
    {
        let next = self.journal.next();
        let _ = self.journal.take_numbers(number.saturating_sub(next));
    }

    /// Returns an end that no request returned, with the next number. No entry is added and no room
    /// is made, so that such an end may only be lent. Fails with `Other` if no number is left;
    /// nothing is then changed.
    pub fn adopt(&mut self) -> Result<ScriptEnd, Fault>
        ensures number { IfOk result
            (λ end. (end.number ≡ self.old.journal.next)
            × (self.new ≡ record self.old {
              journal = record self.old.journal { next = self.old.journal.next + 1 };
            })) }
        ensures none_left { IfErr result
            (λ fault. (fault.kind ≡ Other) × (self.new ≡ self.old)
            × (2 ^ 64 ≤ self.old.journal.next + 1)) }
    {
        let number = self.answer(None, 1)?;
        Ok(ScriptEnd { number })
    }

    /// Returns how many requests were counted since the system was made.
    pub fn requests(&self) -> u64
        ensures { result ≡ self.now.requests.asked }
    {
        self.requests.asked()
    }

    /// Counts a request, notes it in the log, and returns the fault that is set for it, if there is
    /// one.
    fn ask(&mut self, sort: Sort) -> Option<Fault>
        ensures fault { result ≡ next_fault sort self.old.requests }
        ensures counted { self.new
            ≡ record self.old { requests = with_request sort self.old.requests } }
    {
        note(&self.calls, Call::Request(sort));
        self.requests.count(sort)
    }

    /// Makes room for the entry of a request and for the ends that it returns. Then counts the
    /// request, and returns the fault that is set for it, if there is one. If making room fails,
    /// nothing is counted.
    fn begin(&mut self, sort: Sort, ends: usize) -> Result<Option<Fault>, Fault>
        ensures fault { IfOk result (λ fault. fault ≡ next_fault sort self.old.requests) }
        ensures ok { OnOk result (self.new ≡ record self.old {
          journal = record self.old.journal { room = self.old.journal.room + ends + 1 };
          requests = with_request sort self.old.requests;
        }) }
        ensures has_memory { OnOk result (self.old.starved ≡ false) }
        ensures err { IfErr result (λ fault. fault.kind ≡ OutOfMemory) }
        ensures unchanged { OnErr result (self.new ≡ self.old) }
    {
        if self.starved {
            return Err(Fault::new(Kind::OutOfMemory));
        }
        self.journal.prepare(ends)?;
        Ok(self.ask(sort))
    }

    /// Takes this many consecutive numbers for the result of a request, and returns the first.
    /// Fails with the fault that is set for the request, if there is one, and with `Other` if too
    /// few numbers are left.
    fn answer(&mut self, fault: Option<Fault>, count: u64) -> Result<u64, Fault>
        ensures ok { IfOk result (λ first. (first ≡ self.old.journal.next)
            × (self.new ≡ record self.old {
              journal = record self.old.journal { next = self.old.journal.next + count };
            })) }
        ensures fits { OnOk result (self.new.journal.next < 2 ^ 64) }
        ensures unchanged { OnErr result (self.new ≡ self.old) }
        ensures refused { IfSome fault (λ fault. result ≡ Err fault) }
        ensures none_left { IfNone fault (IfErr result (λ fault. (fault.kind ≡ Other)
            × (2 ^ 64 ≤ self.old.journal.next + count))) }
    {
        if let Some(fault) = fault {
            return Err(fault);
        }
        let first = self.journal.take_numbers(count);
        first.ok_or(Fault::new(Kind::Other))
    }

    /// Returns the end of a request's result. If the request failed, the room that was made for the
    /// end is given back.
    fn got(&mut self, answer: Result<u64, Fault>) -> Result<ScriptEnd, Fault>
        requires { 0 < self.old.journal.room }
        ensures ok { IfOk result (λ end. answer ≡ Ok end.number) }
        ensures err { IfErr result (λ fault. answer ≡ Err fault) }
        ensures made { OnOk result (self.new ≡ self.old) }
        ensures given_back { OnErr result (self.new ≡ record self.old {
          journal = record self.old.journal { room = self.old.journal.room - 1 };
        }) }
    {
        let number = self.journal.got(answer)?;
        Ok(ScriptEnd { number })
    }

    /// Gives back the room of these ends, except for that of one: the entry that spent them has
    /// used it.
    fn spent(&mut self, ends: usize)
        ensures { self.new ≡ record self.old {
          journal = record self.old.journal { room = self.old.journal.room - (ends - 1) };
        } }
    {
        let others = ends.saturating_sub(1);
        let room = self.journal.room();
        self.journal.give_back(others.min(room));
    }

    /// Returns the canonical path of a path: the text that was set for it, or the path itself.
    fn canonical_text<'a>(&'a self, path: &'a str) -> &'a str
        ensures { result.now
            ≡ unwrap_or (canonical_of path.now (map pair_text self.now.canonical.entries))
            path.now }
    {
        match self.canonical.get(path) {
            Some(text) => text.as_str(),
            None => path,
        }
    }

    /// Returns the next child, with this number, which leads a group or doesn't.
    fn next_child(&mut self, number: u64, leads: bool) -> ScriptChild
        ensures number { result.number ≡ number }
        ensures unasked { IsUnasked (child_view result) }
        ensures script { IsNext self.old.children.items (IsObeying []) result.script }
        ensures calls { SharesLog self.old.calls result.calls }
        ensures children { self.new.children.items ≡ drop 1 self.old.children.items }
        ensures rest { self.new ≡ record self.old { children = self.new.children } }
    {
        let alloc = self.journal.allocator();
        let none = ChildScript::running(alloc);
        let script = self.children.pop_front().unwrap_or(none);
        ScriptChild::new(alloc, number, leads, script, self.shared_calls())
    }

    /// Returns one more owner of the log, or `None` if there is no log or that owner can't be made.
    fn shared_calls(&self) -> Option<Arc<CallLog>>
        ensures { SharesLog self.now.calls result }
    {
        let calls = self.calls.as_ref()?;
        Arc::try_clone(calls).ok()
    }

    /// Returns the next feed, with this number.
    fn next_feed(&mut self, number: u64) -> ScriptFeed
        ensures job { feed_view result ≡ unpolled_job number }
        ensures script { IsNext self.old.feeds.items
            (λ script. script.items.items ≡ []) result.script }
        ensures calls { SharesLog self.old.calls result.calls }
        ensures feeds { self.new.feeds.items ≡ drop 1 self.old.feeds.items }
        ensures rest { self.new ≡ record self.old { feeds = self.new.feeds } }
    {
        let none = FeedScript::none(self.journal.allocator());
        let script = self.feeds.pop_front().unwrap_or(none);
        ScriptFeed::new(number, script, self.shared_calls())
    }

    /// Counts the start of a drain, and returns the next one, with this number. Fails with the
    /// fault that is set for it, if there is one, and with `OutOfMemory` if its bytes can't get one
    /// more owner.
    fn next_drain(&mut self, number: u64) -> Result<ScriptDrain, Fault>
        ensures job { IfOk result (λ job. drain_view job ≡ unpolled_job number) }
        ensures script { IfOk result (λ job.
            IsNext self.old.drains.items (λ script. script.items ≡ []) job.script) }
        ensures empty { IfOk result (λ job.
            bytes_said job.otherwise ≡ Done (arc_value self.old.empty).items) }
        ensures calls { IfOk result (λ job. SharesLog self.old.calls job.calls) }
        ensures refused { IfSome (next_fault Drain self.old.requests)
            (λ fault. result ≡ Err fault) }
        ensures err { IfNone (next_fault Drain self.old.requests)
            (IfErr result (λ fault. fault.kind ≡ OutOfMemory)) }
        ensures drains { OnOk result (self.new.drains.items ≡ drop 1 self.old.drains.items) }
        ensures ok { OnOk result (self.new ≡ record self.old {
          requests = with_request Drain self.old.requests;
          drains = self.new.drains;
        }) }
        ensures unchanged { OnErr result (self.new ≡ record self.old
            { requests = with_request Drain self.old.requests }) }
    {
        if let Some(fault) = self.ask(Sort::Drain) {
            return Err(fault);
        }
        let empty = Arc::try_clone(&self.empty).map_err(|_| Fault::new(Kind::OutOfMemory))?;
        let none = DrainScript::new(self.journal.allocator());
        let script = self.drains.pop_front().unwrap_or(none);
        Ok(ScriptDrain::new(number, script, empty, self.shared_calls()))
    }
}

/// Returns a copy of a text.
fn copy_of(alloc: Global, text: &str) -> Result<String, Fault>
    ensures ok { IfOk result (λ copy. string_bytes copy ≡ text.now) }
    ensures err { IfErr result (λ fault. fault.kind ≡ OutOfMemory) }
{
    String::from_str(alloc, text).map_err(|_| Fault::new(Kind::OutOfMemory))
}

/// Returns a copy of these variables.
fn copies_of(alloc: Global, variables: &[(String, String)]) -> Result<Vec<(String, String)>, Fault>
    ensures ok { IfOk result (λ copies. map pair_text copies.items ≡ map pair_text variables.now) }
    ensures err { IfErr result (λ fault. fault.kind ≡ OutOfMemory) }
{
    let mut copies = Vec::new(alloc);
    for (name, value) in variables.iter() {
        let copy = (
            copy_of(alloc, name.as_str())?,
            copy_of(alloc, value.as_str())?,
        );
        if copies.push(copy).is_err() {
            return Err(Fault::new(Kind::OutOfMemory));
        }
    }
    Ok(copies)
}

impl System for Script {
    type End = ScriptEnd;

    type Child = ScriptChild;

    type Feed = ScriptFeed;

    type Drain = ScriptDrain;

    type Reader = ScriptReader;

    ghost journal_view = { λ s. s.journal };

    ghost may_read = { λ number reader. reader.number ≡ number };

    ghost streams_fit = { lit< tt };

    ghost same_bytes = { λ one other same. same };

    ghost feeds_say_again = { λ refusable. refusable };

    fn environment(&mut self) -> Result<Vec<(String, String)>, Fault> {
        let alloc = self.journal.allocator();
        let kept = copies_of(alloc, self.variables.as_slice())?;
        let answer = copies_of(alloc, self.variables.as_slice())?;
        if let Some(fault) = self.begin(Sort::Environment, 0)? {
            self.journal.add(Entry::Environment(Err(fault)));
            return Err(fault);
        }
        self.journal.add(Entry::Environment(Ok(kept)));
        Ok(answer)
    }

    fn pipe(&mut self) -> Result<(ScriptEnd, ScriptEnd), Fault> {
        let fault = self.begin(Sort::Pipe, 2)?;
        match self.answer(fault, 2) {
            Ok(first) => {
                let second = first + 1;
                self.journal.add(Entry::Pipe(Ok((first, second))));
                Ok((ScriptEnd { number: first }, ScriptEnd { number: second }))
            }
            Err(fault) => {
                self.journal.add(Entry::Pipe(Err(fault)));
                self.journal.give_back(2);
                Err(fault)
            }
        }
    }

    fn open_read(&mut self, path: &str) -> Result<ScriptEnd, Fault> {
        let kept = copy_of(self.journal.allocator(), path)?;
        let fault = self.begin(Sort::OpenRead, 1)?;
        let got = self.answer(fault, 1);
        self.journal.add(Entry::OpenRead(kept, got));
        self.got(got)
    }

    fn create(&mut self, path: &str) -> Result<ScriptEnd, Fault> {
        let kept = copy_of(self.journal.allocator(), path)?;
        let fault = self.begin(Sort::Create, 1)?;
        let got = self.answer(fault, 1);
        self.journal.add(Entry::Create(kept, got));
        self.got(got)
    }

    fn duplicate(&mut self, end: &ScriptEnd) -> Result<ScriptEnd, Fault> {
        let fault = self.begin(Sort::Duplicate, 1)?;
        let got = self.answer(fault, 1);
        self.journal.add(Entry::Duplicate(end.number, got));
        self.got(got)
    }

    fn parent(&mut self, side: Side) -> Result<ScriptEnd, Fault> {
        let fault = self.begin(Sort::Parent, 1)?;
        let got = self.answer(fault, 1);
        self.journal.add(Entry::Parent(side, got));
        self.got(got)
    }

    fn canonicalize(&mut self, path: &str) -> Result<String, Fault> {
        let alloc = self.journal.allocator();
        let asked = copy_of(alloc, path)?;
        let kept = copy_of(alloc, self.canonical_text(path))?;
        let answer = copy_of(alloc, kept.as_str())?;
        if let Some(fault) = self.begin(Sort::Canonicalize, 0)? {
            self.journal.add(Entry::Canonicalize(asked, Err(fault)));
            return Err(fault);
        }
        self.journal.add(Entry::Canonicalize(asked, Ok(kept)));
        Ok(answer)
    }

    fn spawn(&mut self, spec: CommandSpec, io: [Stdio<ScriptEnd>; 3]) -> Result<ScriptChild, Fault>
        requires { min 1 (length (ends_of io)) ≤ self.old.journal.room }
        ensures ok { IfOk result (λ child. StartsChild (λ e. e.number) spec io
            child.number self.old.journal self.new.journal) }
        ensures unasked { IfOk result (λ child. IsUnasked (child_view child)) }
        ensures err { IfErr result
            (λ fault. RefusesChild (λ e. e.number) spec io fault
            self.old.journal self.new.journal) }
    {
        let (streams, ends) = numbered_streams(&io);
        let fault = if ends == 0 {
            self.begin(Sort::Spawn, 0)?
        } else {
            self.ask(Sort::Spawn)
        };
        let (answer, leads) = (self.answer(fault, 1), spec.leads());
        self.journal.add(Entry::Spawn(spec, streams, answer));
        self.spent(ends);
        Ok(self.next_child(answer?, leads))
    }

    fn start_feed(&mut self, end: ScriptEnd, bytes: Arc<Vec<u8>>) -> Result<ScriptFeed, Fault> {
        let started = self.ask(Sort::Feed).map_or(Ok(()), Err);
        self.journal.add(Entry::Feed(end.number, bytes, started));
        started?;
        Ok(self.next_feed(end.number))
    }

    fn start_drain(&mut self, end: ScriptEnd) -> Result<ScriptDrain, Fault> {
        let started = self.next_drain(end.number);
        let answer = started.as_ref().map(|_| ()).map_err(|fault| *fault);
        self.journal.add(Entry::Drain(end.number, answer));
        started
    }

    fn reader(&mut self, end: ScriptEnd) -> ScriptReader {
        let _ = self.ask(Sort::Reader);
        self.journal.add(Entry::Reader(end.number));
        let none = ReaderScript::empty(self.journal.allocator());
        let script = self.readers.pop_front().unwrap_or(none);
        ScriptReader::new(end.number, script)
    }

    fn close(&mut self, end: ScriptEnd) {
        let _ = self.ask(Sort::Close);
        self.journal.add(Entry::Close(end.number));
    }

    fn journal(&self) -> &[Entry] {
        self.journal.entries()
    }

    fn clear_journal(&mut self) {
        self.journal.clear();
    }
}
