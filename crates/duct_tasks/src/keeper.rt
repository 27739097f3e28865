//! Services: expressions that are started again each time that they end.
ghost use Rattle.std.specs.Prelude.{◌≡◌, ◌≤◌, All, length, vec_capacity, true, false, [], IfErr, IfOk};
ghost use Rattle.std.specs.List.{AllZip};
ghost use Rattle.duct_system.specs.declared.error.Error.TheVariants.{Memory};
ghost use Rattle.duct_tasks.specs.Services.{CameTo, Goes, HasLeft, IsFresh, KeepsAll};

use crate::service::{Came, Service};
use duct::Expression;
use duct_base::error::Error;
use duct_base::pause::Pause;
use duct_base::pool::Pool;
use duct_base::spec::Hook;
use duct_base::system::{Clock, Output, System};
use duct_running::running::Running;
use duct_system::views::Viewed;
use std::alloc::{AllocError, Global};
use std::sync::{Arc, Wait};
use std::time::Duration;

/// How often a service is started, and how it is stopped.
#[derive(Clone, Copy, Debug, PartialEq, Eq, Drop)]
pub struct Restarts {
    /// How often it is started at most before it has run for `healthy`, and again after that.
    pub most: u32,
    /// How long to pause before the second of these starts. Each later pause is twice the one
    /// before.
    pub pause: Duration,
    /// How long to pause at most.
    pub greatest: Duration,
    /// How long it has to run until it ends, so that starts and pauses count anew: the next start
    /// then comes without a pause. If this is zero it is so after each end, and only a start that
    /// is refused is followed by a pause and counts towards `most`.
    pub healthy: Duration,
    /// How long it may run on after signal 15, where it is stopped, before it is killed.
    pub grace: Duration,
}

/// Expressions that are kept running.
#[derive(Drop)]
pub struct Services<'s, E, H, C> {
    pub all: &'s [Expression<E, H>],
    pub restarts: Restarts,
    /// What says how long pauses, runs and the grace last.
    pub clock: &'s C,
}

/// What is told of a service.
#[derive(Drop)]
pub enum Turn<'a> {
    /// It was started, and its commands have these process ids, from left to right.
    Started(&'a [u32]),
    /// It could not be started.
    Refused(&'a Error),
    /// It has ended with this.
    Ended(&'a Result<Arc<Output>, Error>),
}

/// Why a service is not started again.
#[derive(Clone, Copy, Debug, PartialEq, Eq, Drop)]
pub enum Why {
    /// The stop function said so.
    Stopped,
    /// It was started as often as it may be.
    GaveUp,
    /// Commands of it may still run: it could not be started after some of them were, or it can't
    /// be told how it ended.
    Failed,
}

/// What came of a service.
#[derive(Drop)]
pub struct Kept {
    /// How often it was started, or could not be.
    pub starts: u64,
    /// Why it is not started again.
    pub why: Why,
    /// How it ended the last time, or why it could not be started. It is `None` where it never was,
    /// or was killed when it was stopped.
    pub last: Option<Result<Arc<Output>, Error>>,
}

/// Starts each expression as `Expression::launch` does, polls it as `Expression::run` does until it
/// has ended, and then, after a pause, starts it again, whether it succeeded or failed. A start
/// that is refused is tried again in the same way. It never starts one while a command of it may
/// still run, nor more often than `restarts.most` times before a run that lasts for
/// `restarts.healthy`.
///
/// All take turns in one loop. Each round asks `stop` whether to stop, until it says yes. From then
/// on none is started, and those that run are sent signal 15; what is not known to have ended after
/// the grace is killed, and so is what is left of a group that ended in it, groups of commands that
/// lead one as in `run_until`. Nothing waits for what was killed. Between two rounds of turns in
/// which nothing came the call pauses as `Expression::run` does. It blocks until none runs, and
/// none is to be started again.
///
/// `tell` is called with the place of a service where it is started or that is refused, and where it
/// ends. A kill is not told.
///
/// Returns how often each was started, why it is not started again, and how it ended the last time.
/// A failure of the commands themselves (`Error::Checked`) is an end like a success. After every
/// other error of what was started a command may still run, so the service has failed, and the
/// others go on: so has one whose start is refused after it had started a command. The children of
/// what failed or was killed are given to the pool.
///
/// Fails with `Error::Memory`, before anything is started. After that only starts and polls
/// allocate.
///
/// Example: `keep(&rt, alloc, &mut host, &mut pool, &services, || stops.load(SeqCst), &mut |_, _|
/// {})?`
pub fn keep<H: Hook, S: System, C: Clock, F: Fn() -> bool, T: FnMut(usize, Turn<'_>)>(
    rt: &impl Wait,
    alloc: Global,
    sys: &mut S,
    pool: &mut Pool<S::Child>,
    services: &Services<'_, S::End, H, C>,
    stop: F,
    tell: &mut T,
) -> Result<Vec<Kept>, Error>
    requires asked { F.IsAlwaysCallable stop }
    requires told { (t : T) (place : _) (told : _) → T.pre t place told }
    ensures kept { IfOk result (λ kept. KeepsAll ⟦<S as Viewed>⟧.views H.allows H.refuses
        services.now.restarts (F.post stop) (C.may_show services.now.clock.now)
        services.now.all.now (sys.old, pool.old) kept.items (sys.new, pool.new)) }
    ensures failed { IfErr result
        (λ e. (e ≡ Memory) × (sys.new ≡ sys.old) × (pool.new ≡ pool.old)) }
{
    let room = Vec::with_capacity(alloc, services.all.len())?;
    let mut kept = before_starts(alloc, services.all.len())?;
    work(rt, sys, pool, services, &mut kept, &stop, tell);
    Ok(kept_of(kept, room))
}

// Returns so many services before their first starts.
fn before_starts<R>(alloc: Global, count: usize) -> Result<Vec<Service<R>>, AllocError>
    ensures count { IfOk result (λ services. length services.items ≡ count) }
    ensures fresh { IfOk result (λ services. All IsFresh services.items) }
{
    let mut kept = Vec::with_capacity(alloc, count)?;
    for _ in 0..count {
        kept.push_reserved(Service::new());
    }
    Ok(kept)
}

// Gives the services turns until none is to be started again.
fn work<H: Hook, S: System, C: Clock, F: Fn() -> bool, T: FnMut(usize, Turn<'_>)>(
    rt: &impl Wait,
    sys: &mut S,
    pool: &mut Pool<S::Child>,
    services: &Services<'_, S::End, H, C>,
    kept: &mut Vec<Service<Running<S>>>,
    stop: &F,
    tell: &mut T,
)
    requires asked { F.IsAlwaysCallable stop.now }
    requires told { (t : T) (place : _) (told : _) → T.pre t place told }
    requires count { length kept.old.items ≡ length services.now.all.now }
    ensures count { length kept.new.items ≡ length kept.old.items }
    ensures left { All HasLeft kept.new.items }
    ensures goes { Goes ⟦<S as Viewed>⟧.views C.may_show services.now H.allows H.refuses
        (F.post stop.now) (sys.old, pool.old) kept.old.items (sys.new, pool.new) kept.new.items }
{
    let mut pauses = Pause::new();
    let mut stops = false;
    for _ in rt.forever() {
        stops = is_to_stop(stop, stops);
        if turn_all(rt, sys, pool, services, kept, stops, tell) {
            pauses.restart();
        }
        if are_over(kept) {
            return;
        }
        pauses.rest(rt);
    }
    unreachable!()
}

// Returns whether none is started again.
fn are_over<R>(services: &[Service<R>]) -> bool
    ensures { result ≡ true → All HasLeft services.now }
{
    services.iter().all(Service::is_over)
}

// Returns whether it is to stop, which is asked unless it was said before.
fn is_to_stop<F: Fn() -> bool>(stop: &F, said: bool) -> bool
    requires asked { F.IsAlwaysCallable stop.now }
    requires said { said ≡ true → F.post stop.now true }
    ensures { F.post stop.now result }
{
    if said {
        return true;
    }
    stop()
}

// Gives each service a turn. Returns whether something came of one.
fn turn_all<H: Hook, S: System, C: Clock, T: FnMut(usize, Turn<'_>)>(
    rt: &impl Wait,
    sys: &mut S,
    pool: &mut Pool<S::Child>,
    services: &Services<'_, S::End, H, C>,
    kept: &mut Vec<Service<Running<S>>>,
    stops: bool,
    tell: &mut T,
) -> bool
    requires told { (t : T) (place : _) (told : _) → T.pre t place told }
    requires count { length kept.old.items ≡ length services.now.all.now }
    ensures count { length kept.new.items ≡ length kept.old.items }
    ensures goes { Goes ⟦<S as Viewed>⟧.views C.may_show services.now H.allows H.refuses
        (λ said. stops ≡ said) (sys.old, pool.old) kept.old.items (sys.new, pool.new)
        kept.new.items }
{
    let all = services.all;
    let mut came = false;
    for at in 0..kept.len() {
        let turned = kept[at].turn(rt, sys, pool, services, &all[at], stops);
        came |= !matches!(turned, Came::Nothing);
        if let Some(told) = kept[at].told(turned) {
            tell(at, told);
        }
    }
    came
}

// Returns what came of the services, in this room. None is started again.
fn kept_of<R>(services: Vec<Service<R>>, mut room: Vec<Kept>) -> Vec<Kept>
    requires left { All HasLeft services.items }
    requires empty { room.items ≡ [] }
    requires fits { length services.items ≤ vec_capacity room }
    ensures { AllZip CameTo services.items result.items }
{
    let mut services = services.into_iter();
    for _ in 0..services.len() {
        match services.next() {
            Some(service) => room.push_reserved(service.into_kept()),
            None => unreachable!(),
        }
    }
    services.destroy_empty();
    room
}
