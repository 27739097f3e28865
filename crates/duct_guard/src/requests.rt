//! Requests to the system below, where a guard does more than to pass them on: it looks at its
//! policy, or copies what the request takes or returns.
ghost use Rattle.std.specs.Prelude.{◌≡◌, ◌<◌, ◌≤◌, ◌+◌, false, true, ◌⊎◌, min, nat_le, length, map, string_bytes, vec_len, vec_capacity, IfOk, IfErr, OnOk, OnErr, Ok, Err, ◌-◌};
ghost use Rattle.std.specs.Arc.{arc_value};
ghost use Rattle.duct_system.specs.Child.{IsUnasked};
ghost use Rattle.duct_system.specs.EntryView.{Environment, Pipe, Canonicalize, Spawn, Feed, answer_of, entry_view};
ghost use Rattle.duct_system.specs.Job.{unpolled_job};
ghost use Rattle.duct_system.specs.Journal.{GetsEnds, IsNew};
ghost use Rattle.duct_system.specs.SpecView.{pair_text};
ghost use Rattle.duct_system.specs.Streams.{stream_of, ends_of, end_of};
ghost use Rattle.duct_guard.specs.GuardView.{ClosesFirst, GotEnd, IsForwarded, SpendsEnds, allows_spawn, asked_of, end_entry, path_of, refusal};
ghost use Rattle.duct_guard.specs.Held.{Joins, Leaves};
ghost use Rattle.duct_guard.specs.Rules.{Rules, request_view};
ghost use Rattle.duct_guard.specs.declared.counts.Held.{Held};

use crate::counts::Held;
use crate::crew::{GuardedChild, Member, Notes, forget_ended, join, prepare};
use crate::policy::{Policy, Request};
use duct_system::copy::{copies_of, spec_copy};
use duct_system::spec::CommandSpec;
use duct_system::system::{Child, Entry, Fault, Kind, Numbered, Side, Stdio, System};
use std::alloc::Global;
use std::sync::Arc;

fn forbidden() -> Fault
    ensures { result ≡ refusal false }
{
    Fault::new(Kind::PermissionDenied)
}

// Returns the fault at an allocation failure.
fn no_memory() -> Fault
    ensures { result ≡ refusal true }
{
    Fault::new(Kind::OutOfMemory)
}

/// Requests the environment. Returns it with its entry. Fails with `OutOfMemory` where there is no
/// memory for the copy that the entry has.
pub(crate) fn environment_noted<S: System>(
    alloc: Global,
    sys: &mut S,
) -> (Result<Vec<(String, String)>, Fault>, Entry)
    ensures entry { entry_view result.1
        ≡ Environment (answer_of (λ pairs. map pair_text pairs.items) result.0) }
    ensures forwards { (rules : Rules) (held : Held) → IsForwarded rules held
        (Environment (answer_of (λ pairs. map pair_text pairs.items) result.0))
        (S.journal_view sys.old) (S.journal_view sys.new) }
{
    match sys.environment() {
        Ok(pairs) => match copies_of(alloc, pairs.as_slice()) {
            Ok(kept) => (Ok(pairs), Entry::Environment(Ok(kept))),
            Err(_) => (Err(no_memory()), Entry::Environment(Err(no_memory()))),
        },
        Err(fault) => (Err(fault), Entry::Environment(Err(fault))),
    }
}

// Returns whether the policy allows this many more ends to be open.
fn allows_ends<P: Policy>(policy: &P, held: Held, more: usize) -> bool
    ensures within { result ≡ nat_le (held.ends + more) (P.rules policy.now).limits.ends }
    ensures counts { result ≡ true → held.ends + more ≤ 18446744073709551615 }
{
    let limit = policy.limits().ends;
    let ends = held.ends.checked_add(more);
    ends.is_some_and(|ends| ends <= limit)
}

/// Opens a pipe, if the policy allows two more ends.
pub(crate) fn pipe_allowed<S: System, P: Policy>(
    policy: &P,
    held: Held,
    sys: &mut S,
) -> Result<(S::End, S::End), Fault>
    ensures forwards { IsForwarded (P.rules policy.now) held
        (Pipe (answer_of (λ ends. (S.End.number_of ends.0, S.End.number_of ends.1)) result))
        (S.journal_view sys.old) (S.journal_view sys.new) }
    ensures ok { IfOk result (λ ends.
        let read = S.End.number_of ends.0 in
        let write = S.End.number_of ends.1 in
        GetsEnds (Pipe (Ok (read, write))) read write (S.journal_view sys.old)
        (S.journal_view sys.new)) }
    ensures counts { OnOk result (held.ends + 2 ≤ 18446744073709551615) }
{
    if allows_ends(policy, held, 2) {
        sys.pipe()
    } else {
        Err(forbidden())
    }
}

/// A request for an end.
#[derive(Drop)]
pub(crate) enum EndRequest<'a, E> {
    /// To open this file for reading.
    Read(&'a str),
    /// To open this file for writing.
    Create(&'a str),
    /// To return one more end of what this end reads or writes.
    Duplicate(&'a E),
    /// To return one more end of this stream of the parent.
    Parent(Side),
}

impl<E: Numbered> EndRequest<'_, E> {
    /// Returns the path that it names, or the empty text.
    pub fn path(&self) -> &str
        ensures { result.now ≡ path_of self.now }
    {
        match self {
            EndRequest::Read(path) | EndRequest::Create(path) => path,
            EndRequest::Duplicate(_) | EndRequest::Parent(_) => "",
        }
    }

    /// Returns the entry of the request with this answer, by a copy of its path.
    pub fn entry(&self, path: String, answer: Result<u64, Fault>) -> Entry
        requires { string_bytes path ≡ path_of self.now }
        ensures { entry_view result ≡ end_entry E.number_of self.now answer }
    {
        match self {
            EndRequest::Read(_) => Entry::OpenRead(path, answer),
            EndRequest::Create(_) => Entry::Create(path, answer),
            EndRequest::Duplicate(end) => Entry::Duplicate(end.number(), answer),
            EndRequest::Parent(side) => Entry::Parent(*side, answer),
        }
    }

    // Returns what a policy is asked about it.
    fn request(&self) -> Request<'_>
        ensures { request_view result ≡ asked_of self.now }
    {
        match self {
            EndRequest::Read(path) => Request::Read(path),
            EndRequest::Create(path) => Request::Create(path),
            EndRequest::Duplicate(_) => Request::Duplicate,
            EndRequest::Parent(side) => Request::Parent(*side),
        }
    }
}

/// Makes a request for an end, if the policy allows it and one more end.
pub(crate) fn end_allowed<S: System, P: Policy>(
    policy: &P,
    held: Held,
    sys: &mut S,
    asked: &EndRequest<S::End>,
) -> Result<S::End, Fault>
    ensures forwards { IsForwarded (P.rules policy.now) held
        (end_entry S.End.number_of asked.now (answer_of S.End.number_of result))
        (S.journal_view sys.old) (S.journal_view sys.new) }
    ensures fresh { IfOk result (λ end.
        IsNew (S.journal_view sys.old) (S.journal_view sys.new) (S.End.number_of end)) }
    ensures counts { OnOk result (held.ends + 1 ≤ 18446744073709551615) }
{
    if policy.allows(asked.request()) && allows_ends(policy, held, 1) {
        end_asked(sys, asked)
    } else {
        Err(forbidden())
    }
}

fn end_asked<S: System>(sys: &mut S, asked: &EndRequest<S::End>) -> Result<S::End, Fault>
    ensures { GotEnd S.End.number_of (end_entry S.End.number_of asked.now) result
        (S.journal_view sys.old) (S.journal_view sys.new) }
{
    match asked {
        EndRequest::Read(path) => sys.open_read(path),
        EndRequest::Create(path) => sys.create(path),
        EndRequest::Duplicate(end) => sys.duplicate(end),
        EndRequest::Parent(side) => sys.parent(*side),
    }
}

/// Requests a canonical path, if the policy allows it. Returns it with its entry, which has this
/// copy of the path. Fails with `OutOfMemory` where there is no memory for the entry's own copy.
pub(crate) fn canonicalize_noted<S: System, P: Policy>(
    alloc: Global,
    policy: &P,
    sys: &mut S,
    path: &str,
    asked: String,
) -> (Result<String, Fault>, Entry)
    requires { string_bytes asked ≡ path.now }
    ensures entry { entry_view result.1
        ≡ Canonicalize path.now (answer_of (λ text. string_bytes text) result.0) }
    ensures forwards { (held : Held) → IsForwarded (P.rules policy.now) held
        (Canonicalize path.now (answer_of (λ text. string_bytes text) result.0))
        (S.journal_view sys.old) (S.journal_view sys.new) }
{
    if !policy.allows(Request::Canonicalize(path)) {
        return (
            Err(forbidden()),
            Entry::Canonicalize(asked, Err(forbidden())),
        );
    }
    match sys.canonicalize(path) {
        Ok(text) => match String::from_str(alloc, text.as_str()) {
            Ok(kept) => (Ok(text), Entry::Canonicalize(asked, Ok(kept))),
            Err(_) => (
                Err(no_memory()),
                Entry::Canonicalize(asked, Err(no_memory())),
            ),
        },
        Err(fault) => (Err(fault), Entry::Canonicalize(asked, Err(fault))),
    }
}

/// Starts a child by a copy of the spec, if the policy allows it, one more child and one more that
/// runs. Where it is not asked for, the ends are closed, as far as there is this much room. Forgets
/// the children that have ended.
pub(crate) fn spawn_allowed<S: System, P: Policy>(
    alloc: Global,
    policy: &P,
    held: Held,
    crew: &mut Vec<Member<S::Child>>,
    sys: &mut S,
    spec: &CommandSpec,
    io: [Stdio<S::End>; 3],
    room: usize,
) -> Result<GuardedChild<S::Child>, Fault>
    requires fits { room ≤ (S.journal_view sys.old).room }
    requires one { min 1 (length (ends_of io)) ≤ room }
    requires started { vec_len crew.old ≤ held.children }
    ensures forwards { let entry = Spawn spec.now (map (stream_of S.End.number_of) io)
        (answer_of (λ child. S.Child.number_of child.inner) result) in
        IsForwarded (P.rules policy.now) held entry (S.journal_view sys.old)
        (S.journal_view sys.new) }
    ensures fresh { IfOk result (λ child.
        IsNew (S.journal_view sys.old) (S.journal_view sys.new) (S.Child.number_of child.inner)) }
    ensures unasked { IfOk result (λ child. IsUnasked (S.Child.child_view child.inner)) }
    ensures counts { OnOk result (held.children + 1 ≤ 18446744073709551615) }
    ensures closes { allows_spawn (P.rules policy.now) held spec.now ≡ false →
        ClosesFirst room (map S.End.number_of (ends_of io)) (S.journal_view sys.old)
        (S.journal_view sys.new) }
    ensures spends { IfErr result (λ fault.
        SpendsEnds room (Spawn spec.now (map (stream_of S.End.number_of) io) (Err fault)) fault
        (S.journal_view sys.old) (S.journal_view sys.new)) }
    ensures joins { IfOk result (λ child. ∥ Joins S.Child.may_answer (P.rules policy.now).at_once
        (map (λ m. m.number) crew.old.items) (S.Child.number_of child.inner)
        (map (λ m. m.number) crew.new.items) ∥₁) }
    ensures stays { OnErr result (∥ Leaves S.Child.may_answer
        (map (λ m. m.number) crew.old.items) (map (λ m. m.number) crew.new.items) ∥₁) }
{
    forget_ended(crew);
    match prepared(alloc, policy, held, crew, spec) {
        Ok((copy, notes)) => match sys.spawn(copy, io) {
            Ok(child) => Ok(join(crew, child, notes)),
            Err(fault) => Err(fault),
        },
        Err(fault) => {
            close_ends(sys, io, room);
            Err(fault)
        }
    }
}

// Returns a copy of a spec that the policy allows, and the owners of a note for its child. Fails
// with `PermissionDenied` if it doesn't allow it or no more children, and with `OutOfMemory` at an
// allocation failure.
fn prepared<P: Policy, C: Child>(
    alloc: Global,
    policy: &P,
    held: Held,
    crew: &mut Vec<Member<C>>,
    spec: &CommandSpec,
) -> Result<(CommandSpec, Notes<C>), Fault>
    ensures same { crew.new.items ≡ crew.old.items }
    ensures copy { IfOk result (λ made. made.0 ≡ spec.now) }
    ensures allowed { OnOk result (allows_spawn (P.rules policy.now) held spec.now ≡ true) }
    ensures few { OnOk result (vec_len crew.new < (P.rules policy.now).at_once) }
    ensures room { OnOk result (vec_len crew.new < vec_capacity crew.new) }
    ensures counts { OnOk result (held.children + 1 ≤ 18446744073709551615) }
    ensures err { IfErr result (λ fault.
        (fault ≡ refusal (allows_spawn (P.rules policy.now) held spec.now))
        ⊎ ((fault ≡ refusal false) × ((P.rules policy.now).at_once ≤ vec_len crew.new))) }
{
    let allowed = policy.allows(Request::Spawn(spec)) && held.children < policy.limits().children;
    if !allowed || crew.len() >= policy.at_once() {
        return Err(forbidden());
    }
    let notes = prepare(alloc, crew).ok_or(no_memory())?;
    let copy = spec_copy(alloc, spec).map_err(|_| no_memory())?;
    Ok((copy, notes))
}

/// Starts a worker that writes the bytes to the end. Where the bytes can have no further owner, it
/// closes the end and fails with `OutOfMemory`.
pub(crate) fn start_shared_feed<S: System>(
    sys: &mut S,
    end: S::End,
    bytes: &Arc<Vec<u8>>,
) -> Result<S::Feed, Fault>
    requires { 0 < (S.journal_view sys.old).room }
    ensures forwards { (rules : Rules) (held : Held) →
        let entry = Feed (S.End.number_of end) (arc_value bytes.now).items
        (answer_of (λ job. tt) result) in
        IsForwarded rules held entry (S.journal_view sys.old) (S.journal_view sys.new) }
    ensures spends { IfErr result (λ fault.
        SpendsEnds 1 (Feed (S.End.number_of end) (arc_value bytes.now).items (Err fault)) fault
        (S.journal_view sys.old) (S.journal_view sys.new)) }
    ensures unasked { IfOk result
        (λ job. S.Feed.job_view job ≡ unpolled_job (S.End.number_of end)) }
{
    match Arc::try_clone(bytes) {
        Ok(shared) => sys.start_feed(end, shared),
        Err(_) => {
            sys.close(end);
            Err(no_memory())
        }
    }
}

/// Closes the ends of three streams in their order, as many as there is room for; without room an
/// end is dropped.
pub(crate) fn close_ends<S: System>(sys: &mut S, io: [Stdio<S::End>; 3], room: usize)
    requires { room ≤ (S.journal_view sys.old).room }
    ensures { ClosesFirst room (map S.End.number_of (ends_of io)) (S.journal_view sys.old)
        (S.journal_view sys.new) }
{
    let [input, output, error] = io;
    let room = close_end(sys, input, room);
    let room = close_end(sys, output, room);
    close_end(sys, error, room);
}

// Closes the end of a stream, if it has one and there is room for the entry; without room the end
// is dropped. Returns what is left of the room.
fn close_end<S: System>(sys: &mut S, stream: Stdio<S::End>, room: usize) -> usize
    requires { room ≤ (S.journal_view sys.old).room }
    ensures left { result ≡ room - length (end_of stream) }
    ensures closes { ClosesFirst room (map S.End.number_of (end_of stream))
        (S.journal_view sys.old) (S.journal_view sys.new) }
{
    match stream {
        Stdio::Inherit | Stdio::Null => room,
        Stdio::End(end) => {
            if room == 0 {
                return 0;
            }
            sys.close(end);
            room - 1
        }
    }
}
