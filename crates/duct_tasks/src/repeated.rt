//! Attempts at anything that borrows a system and a pool.
ghost use Rattle.std.specs.Prelude.{◌≡◌, ◌<◌};
ghost use Rattle.std.specs.Duration.{as_nanos};
ghost use Rattle.std.specs.Fn.{FnReturnsAt};
ghost use Rattle.duct_tasks.specs.Pauses.{HasRested, longer_than};
ghost use Rattle.duct_tasks.specs.Turns.{Attempts, FnReturnsAtPairMut};
ghost use Rattle.duct_tasks.specs.Until.{HasPassed};

use crate::pauses::{longer, pause};
use duct_base::system::Clock;
use std::sync::Wait;
use std::time::Duration;

/// How often something is tried, and the pauses between the tries.
#[derive(Drop)]
pub struct Retries<'c, C> {
    /// How often it is tried at most, which is not 0.
    pub most: u32,
    /// How long to pause before the second try. Each later pause is twice the one before.
    pub pause: Duration,
    /// How long to pause at most.
    pub greatest: Duration,
    /// What says how long a pause lasts.
    pub clock: &'c C,
}

impl<C: Clock> Retries<'_, C> {
    // Pauses for longer than before, and returns for how long.
    pub(crate) fn rest(&self, rt: &impl Wait, before: Duration) -> Duration
        ensures longer { as_nanos result
            ≡ longer_than self.now.pause self.now.greatest (as_nanos before) }
        ensures passed { HasPassed (C.may_show self.now.clock.now) result }
    {
        let next = longer(before, self.pause, self.greatest);
        pause(rt, self.clock, next);
        next
    }
}

/// Calls `attempt`, and again each time that it fails with an error that `is_transient` calls
/// transient, at most `retries.most` times in all, which is not 0. Returns what the last call
/// returned. It blocks while a call does, and in the pauses between two calls. Where
/// `retries.pause` is zero it makes none.
///
/// Example: `attempts(&rt, &mut host, &mut pool, &retries, is_busy, |host, pool| step(host, pool))`
pub fn attempts<S, P, T, C: Clock, E: Drop, F, A>(
    rt: &impl Wait,
    system: &mut S,
    pool: &mut P,
    retries: &Retries<'_, C>,
    is_transient: F,
    attempt: A,
) -> Result<T, E>
where
    F: Fn(&E) -> bool,
    A: Fn(&mut S, &mut P) -> Result<T, E>,
    requires some { 0 < retries.now.most }
    requires test { F.IsAlwaysCallable is_transient }
    requires attempt { A.IsAlwaysCallable attempt }
    ensures { Attempts (FnReturnsAtPairMut A.Fn attempt) (FnReturnsAt F.Fn is_transient)
        (HasRested (C.may_show retries.now.clock.now) retries.now.pause retries.now.greatest)
        retries.now.most (system.old, pool.old) result (system.new, pool.new) }
{
    let mut pause = Duration::ZERO;
    for _ in 1..retries.most {
        match attempt(system, pool) {
            Ok(value) => return Ok(value),
            Err(error) => {
                if !is_transient(&error) {
                    return Err(error);
                }
                pause = retries.rest(rt, pause);
            }
        }
    }
    attempt(system, pool)
}
