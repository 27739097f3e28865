//! Waits for tests. Each wait ends, even if what it waits for never happens.
use duct_base::system::{Fault, Job, Said};
use rows_table::TableError;
use std::rt::Clock;
use std::thread;
use std::time::Duration;

/// Checks a condition until it holds, at most ten million times, and yields the thread between the
/// checks. Returns whether it held.
pub fn until<F: Fn() -> bool>(is_so: F) -> bool
    requires { F.IsAlwaysCallable is_so }
{
    for _ in 0..10_000_000 {
        if is_so() {
            return true;
        }
        thread::yield_now();
    }
    false
}

/// Polls a worker until it has a result or a fault, which is returned. Blocks the thread: it polls
/// at most 30000 times, and sleeps one millisecond between two polls. Fails if the worker is still
/// running after that.
pub fn heard<J: Job>(
    rt: &impl Clock,
    worker: &mut J,
) -> Result<Result<J::Result, Fault>, TableError> {
    for _ in 0..30_000 {
        match worker.poll() {
            Said::Running => thread::sleep(rt, Duration::from_millis(1)),
            Said::Done(done) => return Ok(Ok(done)),
            Said::Fault(fault) => return Ok(Err(fault)),
        }
    }
    Err(TableError::Text("the worker goes on"))
}
