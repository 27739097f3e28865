//! A test of threads that share a handle of commands on the real machine. No command sleeps for
//! much more than 20 seconds, so that a test that loses an order fails and doesn't hang.
use duct::{Clock, Error, ExitStatus, Expression, Output, cmd};
use duct_host::HostClock;
use duct_shell::{SharedHandle, Shell};
use rows_table::count_left;
use std::alloc::Global;
use std::sync::{Arc, Wait};
use std::test::Fail;
use std::thread::Threads;
use std::time::Duration;
use std::{rt, thread};

/// How long a wait waits that should time out, in milliseconds.
const SOON: u64 = 10;

/// The number of rounds with eight threads. Of each three rounds, the first has no order, in the
/// second the commands sleep until one ends them, and in the third either the end or the order
/// comes first.
const ROUNDS: u32 = 42;

/// What the commands of those rounds print.
const PRINTED: &str = "hi\n";

/// How the commands ended: an exit code, or a negated signal, and how many of the printed bytes
/// were captured. Of a result that no round may have, code 1000.
type Ending = (i32, usize);

fn ending(answer: Result<Arc<Output>, Error>) -> Ending {
    let Ok(output) = answer else {
        return (1000, 0);
    };
    if !PRINTED.as_bytes().starts_with(output.stdout.as_slice()) {
        return (1000, 0);
    }
    let code = match output.status {
        ExitStatus::Code(code) => code,
        ExitStatus::Signal(signal) => signal.saturating_neg(),
    };
    (code, output.stdout.len())
}

/// The same for a result that may be that the commands still run.
fn told(answer: Result<Option<Arc<Output>>, Error>) -> Option<Ending> {
    answer.transpose().map(ending)
}

/// Waits for a time that depends on the round, and then orders, if the round has an order, by a
/// kill or by signal 9. Returns the result of the wait.
fn wait_and_order<H: SharedHandle, C: Clock>(
    rt: &impl Wait,
    handle: &H,
    clock: &C,
    round: u32,
) -> Result<Option<Arc<Output>>, Error> {
    let pause = Duration::from_millis(u64::from(round % 5).saturating_mul(15));
    let waited = handle.wait_timeout(rt, clock, pause)?;
    match round % 6 {
        1 | 2 => handle.kill(rt)?,
        4 | 5 => handle.send_signal(rt, 9)?,
        _ => {}
    }
    Ok(waited)
}

/// Makes a first call, which depends on the thread, then waits to the end and polls again. Returns
/// how the commands ended, if all results were the same. The first result may also be that they
/// still run.
fn plays<H: SharedHandle, R: Wait + rt::Clock>(
    rt: &R,
    handle: &H,
    thread: usize,
    round: u32,
) -> Option<Ending> {
    let clock = HostClock::new(rt).ok()?;
    let soon = Duration::from_millis(SOON);
    let first = match thread {
        0 => told(handle.try_wait(rt)),
        1 | 3 => told(handle.wait_timeout(rt, &clock, soon)),
        2 => told(handle.wait_deadline(rt, &clock, clock.now())),
        4 => told(wait_and_order(rt, handle, &clock, round)),
        5 => told(handle.wait_timeout(rt, &clock, Duration::from_secs(1))),
        _ => None,
    };
    let last = ending(handle.wait(rt));
    let again = told(handle.try_wait(rt));
    let same = (first.is_none() || first == Some(last)) && again == Some(last);
    (same && handle.pids().len() == 2).then_some(last)
}

/// Whether a round may end in this way: by itself with all bytes captured, or by the order.
fn may_end(round: u32, ending: Ending) -> bool {
    let by_itself = ending == (0, PRINTED.len());
    match round % 3 {
        0 => by_itself,
        1 => ending.0 == -9,
        _ => by_itself || ending.0 == -9,
    }
}

/// Whether eight threads got the same results, and the round may end in this way.
fn eight_agree<H: SharedHandle, R: Wait + Threads + rt::Clock + Sync>(
    rt: &R,
    alloc: Global,
    handle: &H,
    round: u32,
) -> bool {
    match thread::map_indices(rt, alloc, 8, &|thread| plays(rt, handle, thread, round)) {
        Ok(told) => match told.first() {
            Some(Some(ending)) => {
                may_end(round, *ending) && told.iter().all(|one| *one == Some(*ending))
            }
            Some(None) | None => false,
        },
        Err(_) => false,
    }
}

/// A command that prints and then sleeps, for 20 seconds in the second of each three rounds,
/// otherwise for a few hundredths of a second, with a pipe to another one, whose output is
/// captured.
fn captured_nap<E: Drop>(alloc: Global, round: u32) -> Result<Expression<E>, Error> {
    let whole = if round % 3 == 1 { 20 } else { 0 };
    let script = format!(in alloc; "echo hi; exec sleep {}.0{}", whole, round % 7)?;
    let nap: Expression<E> = cmd!(in alloc; "sh", "-c", script.as_str())?;
    let both = nap.pipe(&cmd!(in alloc; "cat")?)?;
    both.stdout_capture()?.unchecked()
}

/// Checks eight threads that poll, wait with and without deadlines, give orders and get ids, in
/// many rounds that end at different moments, by themselves or by an order. All threads get the
/// same results, and nothing is left.
#[test]
fn eight_threads_are_told_the_same(rt: HostRuntime) -> Result<(), Fail> {
    let before = count_left(&rt)?;
    for round in 0..ROUNDS {
        let mut sh = Shell::new(&rt);
        let handle = sh.start(&captured_nap(rt.alloc(), round)?)?;
        let agree = eight_agree(&rt, rt.alloc(), &handle, round);
        handle.give_up(&mut sh.pool);
        assert_eq!(rt; (agree, sh.pool.len()), (true, 0), "{round}");
    }
    assert_eq!(rt; count_left(&rt)?, before);
    Ok(())
}
