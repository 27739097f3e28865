//! Attempts at starts and runs of an expression.
ghost use Rattle.std.specs.Prelude.{◌<◌};
ghost use Rattle.std.specs.Fn.{FnReturnsAt};
ghost use Rattle.duct.specs.Launched.{IsRun, IsStart, draining};
ghost use Rattle.duct_tasks.specs.Pauses.{HasRested};
ghost use Rattle.duct_tasks.specs.Turns.{Attempts};

use crate::repeated::{Retries, attempts};
use duct::{Clock, Error, Expression, Handle, Hook, Output, Pool, System};
use duct_system::views::Viewed;
use std::sync::Wait;
use std::time::Duration;

/// Starts an expression as `Expression::start` does, and again each time that the start fails with
/// an error that `is_transient` calls transient, at most `retries.most` times in all, which is not
/// 0. Returns what the last start returned. Each start follows the expression's plan, and gives
/// what it leaves running to the pool. It blocks in the pauses between two starts. Where
/// `retries.pause` is zero it makes none.
///
/// Example: `start_attempts(&rt, &mut host, &mut pool, &server, &retries, is_busy)?`
pub fn start_attempts<S: System, H: Hook, C: Clock, F: Fn(&Error) -> bool>(
    rt: &impl Wait,
    system: &mut S,
    pool: &mut Pool<S::Child>,
    expression: &Expression<S::End, H>,
    retries: &Retries<'_, C>,
    is_transient: F,
) -> Result<Handle<S>, Error>
    requires some { 0 < retries.now.most }
    requires test { F.IsAlwaysCallable is_transient }
    ensures { Attempts
        (IsStart ⟦<S as Viewed>⟧.views H.allows H.refuses expression.now draining)
        (FnReturnsAt F.Fn is_transient)
        (HasRested (C.may_show retries.now.clock.now) retries.now.pause retries.now.greatest)
        retries.now.most (system.old, pool.old) result (system.new, pool.new) }
{
    let mut pause = Duration::ZERO;
    for _ in 1..retries.most {
        match start_once(system, pool, expression) {
            Ok(handle) => return Ok(handle),
            Err(error) => {
                if !is_transient(&error) {
                    return Err(error);
                }
                pause = retries.rest(rt, pause);
            }
        }
    }
    start_once(system, pool, expression)
}

/// Runs an expression as `Expression::run` does, and again each time that the run fails with an
/// error that `is_transient` calls transient, at most `retries.most` times in all, which is not 0.
/// Returns what the last run returned. It blocks while one runs, and in the pauses between two.
/// Where `retries.pause` is zero it makes none.
///
/// Example: `run_attempts(&rt, &mut host, &mut pool, &fetch, &retries, is_checked)?`
pub fn run_attempts<S: System, H: Hook, C: Clock, F: Fn(&Error) -> bool>(
    rt: &impl Wait,
    system: &mut S,
    pool: &mut Pool<S::Child>,
    expression: &Expression<S::End, H>,
    retries: &Retries<'_, C>,
    is_transient: F,
) -> Result<Output, Error>
    requires some { 0 < retries.now.most }
    requires test { F.IsAlwaysCallable is_transient }
    ensures { Attempts
        (IsRun ⟦<S as Viewed>⟧.views H.allows H.refuses expression.now)
        (FnReturnsAt F.Fn is_transient)
        (HasRested (C.may_show retries.now.clock.now) retries.now.pause retries.now.greatest)
        retries.now.most (system.old, pool.old) result (system.new, pool.new) }
{
    attempts(rt, system, pool, retries, is_transient, |system, pool| {
        run_once(rt, system, pool, expression)
    })
}

fn start_once<S: System, H: Hook>(
    system: &mut S,
    pool: &mut Pool<S::Child>,
    expression: &Expression<S::End, H>,
) -> Result<Handle<S>, Error>
    ensures { IsStart ⟦<S as Viewed>⟧.views H.allows H.refuses expression.now draining
        (system.old, pool.old) result (system.new, pool.new) }
{
    expression.start(system, pool)
}

fn run_once<S: System, H: Hook>(
    rt: &impl Wait,
    system: &mut S,
    pool: &mut Pool<S::Child>,
    expression: &Expression<S::End, H>,
) -> Result<Output, Error>
    ensures { IsRun ⟦<S as Viewed>⟧.views H.allows H.refuses expression.now
        (system.old, pool.old) result (system.new, pool.new) }
{
    expression.run(rt, system, pool)
}
