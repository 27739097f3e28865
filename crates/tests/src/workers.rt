//! Tests of workers on their threads: they run beside their caller, and each later poll returns the
//! same result.
use crate::waits::{heard, until};
use duct_base::spawn::{spawn_drain, spawn_feed};
use duct_base::system::{Job, Numbered, Said, System};
use duct_base::worker::Worker;
use duct_script::{Gate, Gated, Script};
use rows_table::{TableError, set_system};
use std::alloc::Global;
use std::rt::Clock;
use std::sync::Arc;
use std::test::Fail;
use std::thread::Threads;

/// Starts a drain of a scripted reader, which waits at a gate before each read.
fn drain_at(
    rt: &impl Threads,
    alloc: Global,
    gate: &Gate,
) -> Result<Worker<Arc<Vec<u8>>>, TableError> {
    let gate = gate.share()?;
    let mut sys = Script::new(alloc)?;
    let _ = set_system(alloc, &mut sys, "reads", "xy, z")?;
    let end = sys.open_read("f")?;
    let inner = sys.reader(end);
    Ok(spawn_drain(rt, alloc, Gated { gate, inner })?)
}

/// Starts a feed of three bytes, which waits at a gate before each write.
fn feed_at(rt: &impl Threads, alloc: Global, gate: &Gate) -> Result<Worker<()>, TableError> {
    let bytes = Arc::new(alloc, Vec::from_slice(alloc, b"abc")?)?;
    let (inner, gate): (Vec<u8>, Gate) = (Vec::new(alloc), gate.share()?);
    Ok(spawn_feed(rt, alloc, Gated { gate, inner }, bytes)?)
}

/// Whether a feed finishes, and a later poll says so again.
fn is_fed(rt: &impl Clock, feed: &mut Worker<()>) -> bool {
    let first = matches!(heard(rt, feed), Ok(Ok(())));
    first && feed.poll() == Said::Done(()) && feed.number() == 0
}

/// Whether a drain finishes with all that its reader has.
fn is_drained(rt: &impl Clock, drain: &mut Worker<Arc<Vec<u8>>>) -> bool {
    match heard(rt, drain) {
        Ok(Ok(bytes)) => bytes.as_slice() == b"xyz".as_slice(),
        Ok(Err(_)) | Err(_) => false,
    }
}

/// Whether the caller and each worker go on while a worker is blocked in a write and another in a
/// read. Then opens their gate, and returns also whether each of them finishes, and a later poll
/// returns the same.
fn run_at_a_gate<R: Threads + Clock>(
    rt: &R,
    alloc: Global,
) -> Result<(bool, bool, bool), TableError> {
    let gate = Gate::new(alloc)?;
    gate.shut();
    let mut feed = feed_at(rt, alloc, &gate)?;
    let mut drain = drain_at(rt, alloc, &gate)?;
    let stand = until(|| gate.standing() == 2);
    let run = matches!((feed.poll(), drain.poll()), (Said::Running, Said::Running));
    gate.open();
    let fed = is_fed(rt, &mut feed);
    let drained = is_drained(rt, &mut drain) && is_drained(rt, &mut drain);
    Ok((stand && run, fed, drained))
}

#[test]
fn workers_run_and_tell_the_same(rt: HostRuntime) -> Result<(), Fail> {
    assert_eq!(rt; run_at_a_gate(&rt, rt.alloc())?, (true, true, true));
    Ok(())
}
