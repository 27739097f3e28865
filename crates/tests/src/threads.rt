//! Tests of threads that share a handle.
ghost use Rattle.std.specs.Prelude.{◌≡◌};

use crate::waits::until;
use duct::{Error, ExitStatus, Handle, Output, Seen};
use duct_script::{Answers, Call, CallLog, ChildScript, Gate, PollAnswer, Script, ScriptClock};
use rows_table::{Bench, TableError, written};
use std::alloc::{AllocError, Global};
use std::sync::{Arc, Wait};
use std::test::Fail;
use std::thread;
use std::thread::Threads;
use std::time::Duration;

/// Whether an output is the greeting: code 0, and `hi` on stdout.
fn is_greeting(output: &Output) -> bool {
    output.status == ExitStatus::Code(0) && output.stdout.as_slice() == b"hi".as_slice()
}

/// Whether a wait returned the greeting.
fn is_greeted(waited: Result<Option<Arc<Output>>, Error>) -> bool {
    match waited {
        Ok(Some(output)) => is_greeting(&output),
        Ok(None) | Err(_) => false,
    }
}

/// Waits with a new token. Returns the token, and whether the wait returned the greeting.
fn told(rt: &impl Wait, handle: &Handle<Script>) -> (Seen<Script>, bool)
    ensures { result.0.cell ≡ handle.now.cell }
{
    let mut seen = handle.seen();
    let greeted = is_greeted(handle.wait_as(rt, &mut seen).map(Some));
    (seen, greeted)
}

/// Waits in all four ways with a token that knows the output. Returns whether each wait returned
/// the greeting.
fn knows(rt: &impl Wait, alloc: Global, handle: &Handle<Script>, seen: &mut Seen<Script>) -> bool
    requires { seen.old.cell ≡ handle.now.cell }
{
    let clock = ScriptClock::new(Vec::new(alloc));
    let tried = is_greeted(handle.try_wait_as(rt, seen));
    let waited = is_greeted(handle.wait_as(rt, seen).map(Some));
    let timed = is_greeted(handle.wait_timeout_as(rt, &clock, Duration::MAX, seen));
    let late = is_greeted(handle.wait_deadline_as(rt, &clock, Duration::ZERO, seen));
    tried && waited && timed && late
}

/// A command that says this many times that it runs, and then exits with code 0. A call for its
/// number passes the gate.
fn child(alloc: Global, runs: usize, gate: &Gate) -> Result<ChildScript, AllocError> {
    let mut script = ChildScript::running(alloc);
    let mut polls = vec![in alloc; PollAnswer::Running; runs]?;
    polls.push(PollAnswer::Ended(ExitStatus::Code(0)))?;
    script.polls = Answers::of(polls);
    script.gate = Some(gate.share()?);
    Ok(script)
}

/// Starts a pipe of two such commands, whose output is the greeting.
fn start(
    alloc: Global,
    bench: &mut Bench,
    runs: usize,
    gate: &Gate,
) -> Result<Handle<Script>, TableError> {
    bench.sys.child(child(alloc, runs, gate)?)?;
    bench.sys.child(child(alloc, runs, gate)?)?;
    let _ = bench.set(alloc, "drains", "done hi")?;
    let tree = written(alloc, "a b pipe stdout_capture")?;
    Ok(tree.start(&mut bench.sys, &mut bench.pool)?)
}

/// Kills many times. Returns whether each kill succeeded.
fn kills(rt: &impl Wait, handle: &Handle<Script>) -> bool {
    for _ in 0..20 {
        if handle.kill(rt).is_err() {
            return false;
        }
    }
    true
}

/// Waits in one thread, and kills in another. Returns whether all was as it should be.
fn waits_beside_kills<R: Wait + Threads + Sync>(rt: &R, handle: &Handle<Script>) -> bool {
    let (killed, waited) = thread::join(rt, || kills(rt, handle), || told(rt, handle).1);
    killed && waited
}

/// Whether the calls on children are whole steps: both are polled, the left one first, or both are
/// given an order, the right one first.
fn are_steps(log: &CallLog) -> bool {
    let mut begun = None;
    for place in 0..log.noted() {
        begun = match (begun, log.get(place as usize)) {
            (None, Some(Call::Request(_) | Call::PollDrain(_))) => None,
            (None, Some(call)) => Some(call),
            (Some(Call::Poll(left)), Some(Call::Poll(right))) if left < right => None,
            (Some(Call::Order(right)), Some(Call::Order(left))) if left < right => None,
            _ => return false,
        };
    }
    begun.is_none()
}

/// Whether kills beside a wait are as they should be, and no other thread interrupts their steps.
fn steps<R: Wait + Threads + Sync>(rt: &R, alloc: Global) -> Result<bool, TableError> {
    let gate = Gate::new(alloc)?;
    let mut bench = Bench::new(alloc)?;
    let handle = start(alloc, &mut bench, 400, &gate)?;
    let well = waits_beside_kills(rt, &handle);
    handle.give_up(&mut bench.pool);
    Ok(well && are_steps(&bench.calls))
}

/// Waits with a token that knows the output while another thread stands at the gate, and then opens
/// the gate. Returns whether that thread stood there all the time, and each wait returned the
/// greeting.
fn knows_at(
    rt: &impl Wait,
    alloc: Global,
    handle: &Handle<Script>,
    gate: &Gate,
    seen: Seen<Script>,
) -> bool
    requires { seen.cell ≡ handle.now.cell }
{
    let mut seen = seen;
    let stood = until(|| gate.standing() > 0);
    let knows = knows(rt, alloc, handle, &mut seen);
    let stands = gate.standing() > 0;
    gate.open();
    stood && knows && stands
}

/// Does this while the other thread holds the lock for a kill.
fn knows_beside_kills<R: Wait + Threads + Sync>(
    rt: &R,
    alloc: Global,
    handle: &Handle<Script>,
    gate: &Gate,
) -> bool {
    let (seen, waited) = told(rt, handle);
    gate.shut();
    let (killed, knew) = thread::join(
        rt,
        || kills(rt, handle),
        move || -> bool
            requires { seen.cell ≡ handle.now.cell }
        { knows_at(rt, alloc, handle, gate, seen) },
    );
    waited && killed && knew
}

/// Waits in two threads, each with a new token, and compares the tokens. Returns whether each wait
/// returned the greeting, and waits with the first token then return it.
fn both_told<R: Wait + Threads + Sync>(rt: &R, alloc: Global, handle: &Handle<Script>) -> bool {
    let (one, other) = thread::join(rt, || told(rt, handle), || told(rt, handle));
    let (mut seen, first) = one;
    let (token, second) = other;
    seen.agree(token);
    first && second && knows(rt, alloc, handle, &mut seen)
}

/// Whether this holds of a new handle, and what knows the output returns it beside kills, and then
/// `into_output` does.
fn all_are_told<R: Wait + Threads + Sync>(rt: &R, alloc: Global) -> Result<bool, TableError> {
    let gate = Gate::new(alloc)?;
    let mut bench = Bench::new(alloc)?;
    let handle = start(alloc, &mut bench, 100, &gate)?;
    let well = both_told(rt, alloc, &handle) && knows_beside_kills(rt, alloc, &handle, &gate);
    let own = handle.into_output(rt, &mut bench.pool)?;
    Ok(well && is_greeting(&own))
}

/// Checks that the tokens of two threads agree, that waits with one return the output also while a
/// kill holds the lock, and that `into_output` then returns it. And checks that each poll and each
/// order is one step.
#[test]
fn threads_share_a_handle(rt: HostRuntime) -> Result<(), Fail> {
    assert!(rt; all_are_told(&rt, rt.alloc())?);
    for _ in 0..40 {
        assert!(rt; steps(&rt, rt.alloc())?);
    }
    Ok(())
}
