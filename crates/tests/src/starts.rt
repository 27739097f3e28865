//! Tests of starts by two threads: with one pool, on the real machine and on scripted systems, and
//! with a host each.
use duct::{Clock, Error, Expression, Fault, Pool, System, cmd};
use duct_host::{Child, End, Host, HostClock};
use duct_script::{Script, ScriptChild};
use rows_table::{Real, count_left};
use std::alloc::Global;
use std::rt::Clock as Ticks;
use std::sync::{Mutex, Wait};
use std::test::Fail;
use std::thread;
use std::thread::Threads;
use std::time::Duration;

/// Sweeps a pool until it is empty, at most 30,000 times. Returns whether it is empty.
fn emptied<C: duct::Child>(rt: &impl Ticks, pool: &mut Pool<C>) -> bool {
    for _ in 0..30_000 {
        pool.sweep();
        if pool.len() == 0 {
            return true;
        }
        thread::sleep(rt, Duration::from_millis(1));
    }
    false
}

/// How many times each thread starts commands on the real machine.
const STARTS: u32 = 20;

/// What threads share to start commands.
trait Starts<R> {
    /// Starts commands and gives up their handles. Returns how many starts succeeded.
    fn starts(&self, rt: &R, alloc: Global) -> u32;
}

impl<R: Real + Wait> Starts<R> for Mutex<Pool<Child<R>>> {
    fn starts(&self, rt: &R, alloc: Global) -> u32 {
        match rt.clone() {
            Ok(own) => start_all(rt, alloc, &mut Host::new(own, alloc), self, STARTS),
            Err(_) => 0,
        }
    }
}

impl<R: Wait> Starts<R> for Mutex<Pool<ScriptChild>> {
    fn starts(&self, rt: &R, alloc: Global) -> u32 {
        match Script::new(alloc) {
            Ok(mut sys) => start_all(rt, alloc, &mut sys, self, 10),
            Err(_) => 0,
        }
    }
}

/// Starts this many commands, and gives up their handles. Returns how many starts succeeded.
fn start_all<S: System>(
    rt: &impl Wait,
    alloc: Global,
    sys: &mut S,
    pool: &Mutex<Pool<S::Child>>,
    count: u32,
) -> u32 {
    let mut well = 0_u32;
    for _ in 0..count {
        if start_one(rt, alloc, sys, pool).is_ok() {
            well = well.saturating_add(1);
        }
    }
    well
}

/// Starts a command, and gives up its handle.
fn start_one<S: System>(
    rt: &impl Wait,
    alloc: Global,
    sys: &mut S,
    pool: &Mutex<Pool<S::Child>>,
) -> Result<(), Error> {
    let tree: Expression<S::End> = cmd!(in alloc; "sleep", "0.01")?;
    let handle = tree.start(sys, &mut *pool.lock(rt))?;
    handle.give_up(&mut *pool.lock(rt));
    Ok(())
}

/// Returns how many starts succeeded in each of two threads.
fn both_start<P: Starts<R> + Sync, R: Threads + Sync>(
    rt: &R,
    alloc: Global,
    pool: &P,
) -> (u32, u32) {
    thread::join(rt, || pool.starts(rt, alloc), || pool.starts(rt, alloc))
}

/// Checks that two threads can share a pool: it is given each of their children, all are reaped,
/// and no descriptor and no child is left.
#[test]
fn two_threads_share_a_pool(rt: HostRuntime) -> Result<(), Fail> {
    let before = count_left(&rt)?;
    let pool: Mutex<Pool<Child<&HostRuntime>>> = Mutex::new(Pool::new(rt.alloc()));
    let well = both_start(&&rt, rt.alloc(), &pool);
    let mut pool = pool.into_inner();
    let empty = emptied(&rt, &mut pool);
    let counts = (pool.given(), pool.reaped(), pool.lost());
    let told = (well, empty, counts, count_left(&rt)?);
    assert_eq!(rt; told, ((STARTS, STARTS), true, (40, 40, 0), before));
    Ok(())
}

/// Checks that two threads can share a pool of children that go on running: it keeps all of them.
#[test]
fn two_threads_share_a_pool_of_scripted_children(rt: HostRuntime) {
    let pool: Mutex<Pool<ScriptChild>> = Mutex::new(Pool::new(rt.alloc()));
    let well = both_start(&rt, rt.alloc(), &pool);
    let pool = pool.into_inner();
    let counts = (pool.given(), pool.len(), pool.reaped(), pool.lost());
    assert_eq!(rt; (well, counts), ((10, 10), (20, 20, 0, 0)));
}

/// A pipe of two commands that copy an input, whose output is captured. Both of them end at EOF
/// alone.
fn copying<E: Drop>(alloc: Global) -> Result<Expression<E>, Error> {
    let input = Vec::from_slice(alloc, b"hi")?;
    let copy = cmd!(in alloc; "cat")?;
    copy.stdin_bytes(input)?
        .pipe(&cmd!(in alloc; "cat")?)?
        .stdout_capture()
}

/// Starts a command that sleeps for 8 seconds, gives up its handle, and then waits for commands
/// that copy an input. Returns whether they did within 5 seconds.
fn is_copied<S: System, C: Clock>(
    rt: &impl Wait,
    alloc: Global,
    clock: &C,
    sys: &mut S,
    pool: &mut Pool<S::Child>,
) -> Result<bool, Error> {
    let sleeper: Expression<S::End> = cmd!(in alloc; "sleep", "8")?;
    sleeper.start(sys, pool)?.give_up(pool);
    let copying: Expression<S::End> = copying(alloc)?;
    let handle = copying.start(sys, pool)?;
    let waited = handle.wait_timeout(rt, clock, Duration::from_secs(5));
    handle.give_up(pool);
    Ok(waited?.is_some_and(|output| output.stdout.as_slice() == b"hi".as_slice()))
}

/// Does this many times with a host and a pool of its own. Returns how many times it went well, or
/// 0 if a child is left in the pool.
fn copies<R: Real + Wait>(rt: &R, alloc: Global) -> Result<u32, Error> {
    let clock = HostClock::new(rt.clone()?).map_err(Fault::from)?;
    let mut host = Host::new(rt.clone()?, alloc);
    let mut pool = Pool::new(alloc);
    let mut well = 0_u32;
    for _ in 0..STARTS {
        // No start follows one that went wrong, which costs five seconds.
        if !is_copied(rt, alloc, &clock, &mut host, &mut pool)? {
            break;
        }
        well = well.saturating_add(1);
    }
    Ok(if emptied(rt, &mut pool) { well } else { 0 })
}

/// Threads that share nothing to start commands: each has a host and a pool of its own.
struct Apart;

impl<R: Real + Wait> Starts<R> for Apart {
    fn starts(&self, rt: &R, alloc: Global) -> u32 {
        copies(rt, alloc).unwrap_or(0)
    }
}

/// Checks that no child inherits the end of a pipe that another thread opens meanwhile. A command
/// that sleeps would else hold a pipe open, and the commands that read it would not end.
#[test]
fn two_threads_have_a_host_each(rt: HostRuntime) -> Result<(), Fail> {
    let before = count_left(&rt)?;
    let well = both_start(&&rt, rt.alloc(), &Apart);
    assert_eq!(rt; (well, count_left(&rt)?), ((STARTS, STARTS), before));
    Ok(())
}
