//! An expression that runs until a moment.
ghost use Rattle.std.specs.Prelude.{◌≡◌, ◌+◌, true, false, min, IfErr, IfOk, OnOk};
ghost use Rattle.std.specs.Duration.{as_nanos, max_nanos};
ghost use Rattle.duct_status.specs.ReplyView.{answered};
ghost use Rattle.duct_running.specs.Allowed.{StoresAllowed};
ghost use Rattle.duct_running.specs.Ordered.{IsUnordered};
ghost use Rattle.duct_running.specs.Polled.{ReturnsOutcome};
ghost use Rattle.duct_handle.specs.Finished.{RanUntil, RanUntilGiven, StoresError, StoresReply};
ghost use Rattle.duct_handle.specs.Waited.{at_end};
ghost use Rattle.duct.specs.Launched.{Fails, Launched, RunFailed, draining};
ghost use Rattle.duct_tasks.specs.Until.{HasReached, HasShownLess, IfDone, IfLate, IsRunUntil, MayStillRun, ReturnsInTime, UnlessEnded, WasStopped};

use crate::grace::Lapsed;
use crate::late::{Deadline, Late, Until};
use crate::stop::stop;
use crate::watch::{is_over, watch};
use duct::Expression;
use duct_base::error::Error;
use duct_base::pool::Pool;
use duct_base::spec::Hook;
use duct_base::system::{Clock, Output, System};
use duct_handle::finish::finish;
use duct_running::running::Running;
use duct_system::views::Viewed;
use std::sync::{Arc, Wait};

// Returns how what runs ended: the output itself, or the error, after which the children are given
// to the pool.
fn closed<S: System>(
    rt: &impl Wait,
    pool: &mut Pool<S::Child>,
    running: Running<S>,
    ended: Result<Arc<Output>, Error>,
) -> Result<Output, Error>
    requires unordered { IsUnordered ⟦<S as Viewed>⟧.views running }
    requires ended { ReturnsOutcome ⟦<S as Viewed>⟧.views running (at_end ended) }
    requires allowed { ∥ StoresAllowed ⟦<S as Viewed>⟧.views running ∥₁ }
    ensures output { IfOk result (λ output. RanUntil ⟦<S as Viewed>⟧.views running
        (λ waited. StoresReply ⟦<S as Viewed>⟧.views waited
        (answered output.status output.stdout.items output.stderr.items))) }
    ensures kept { OnOk result (pool.new ≡ pool.old) }
    ensures failed { IfErr result (λ e. RanUntilGiven ⟦<S as Viewed>⟧.views running
        (λ waited. StoresError ⟦<S as Viewed>⟧.views waited e) pool.old pool.new) }
{
    match ended {
        Ok(output) => {
            let alloc = *output.stdout.allocator();
            drop(output); // so that `finish` need not copy it
            finish(alloc, rt, running, pool)
        }
        Err(error) => {
            running.give_up(pool);
            Err(error)
        }
    }
}

/// Starts the expression and waits until it has ended, but not beyond its deadline, at which it is
/// stopped. What was stopped is returned with what had its grace, whose children are then still to
/// be given to a pool.
pub(crate) fn launch_until<E: Drop, H: Hook, S: System<End = E>, C: Clock>(
    rt: &impl Wait,
    sys: &mut S,
    pool: &mut Pool<S::Child>,
    expression: &Expression<E, H>,
    deadline: &Deadline<'_, C>,
) -> Result<Until<Output, (Late, Lapsed<S>)>, Error>
    ensures done { IfOk result (λ until. IfDone until (λ output. Launched ⟦<S as Viewed>⟧.views
        H.allows draining expression.now sys.old sys.new pool.old pool.new
        (ReturnsInTime ⟦<S as Viewed>⟧.views (C.may_show deadline.now.clock.now)
        (as_nanos deadline.now.moment) output))) }
    ensures stopped { IfOk result (λ until. IfLate until (λ stopped. WasStopped
        ⟦<S as Viewed>⟧.views H.allows H.refuses draining (MayStillRun ⟦<S as Viewed>⟧.views)
        expression.now (sys.old, pool.old) stopped.0 (sys.new, pool.new) stopped.1.running)) }
    ensures late { IfOk result (λ until. IfLate until (λ stopped.
        HasReached (C.may_show deadline.now.clock.now) (as_nanos deadline.now.moment))) }
    ensures grace { IfOk result (λ until. IfLate until (λ stopped. UnlessEnded stopped.0.ended
        (HasReached (C.may_show deadline.now.clock.now)
        (min (as_nanos deadline.now.moment + as_nanos deadline.now.grace) max_nanos)))) }
    ensures failed { IfErr result (RunFailed ⟦<S as Viewed>⟧.views H.allows H.refuses draining
        expression.now sys.old sys.new pool.old pool.new (Fails ⟦<S as Viewed>⟧.views)) }
{
    let (clock, moment) = (deadline.clock, deadline.moment);
    let mut running = expression.launch(sys, pool)?;
    let is_late = ||
        ensures over { result ≡ true → HasReached (C.may_show clock.entry.now) (as_nanos moment) }
        ensures early { result ≡ false
            → HasShownLess (C.may_show clock.entry.now) (as_nanos moment) }
    { is_over(clock, moment) };
    match watch(rt, &is_late, false, &mut running) {
        Some(ended) => match closed(rt, pool, running, ended) {
            Ok(output) => Ok(Until::Done(output)),
            Err(error) => Err(error),
        },
        None => Ok(Until::Late(stop(rt, sys, pool, expression, deadline, running))),
    }
}

/// Runs the expression as `Expression::run` does, but not beyond its deadline. The clock is read
/// after each poll that doesn't end the wait.
///
/// Where the clock shows the moment or a later one while the expression has not ended, it is
/// stopped: each command that is not known to have ended is sent signal 15, and each that is still
/// not known to have ended at the end of the grace, or once a poll finds a fault while no command
/// runs, is killed, each once and from right to left. A command that leads a group, which is one
/// whose program is `setsid` or a path to it, is sent neither where its whole group can be sent the
/// signal, 15 and then 9, by a line of `/bin/sh` over the same system; that is tried even if the
/// command is known to have ended. Nothing waits for what was killed: the children are given to the
/// pool, where a sweep reaps them. That it was stopped is no error but
/// `Until::Late`, with how it ended and what the kill returned. A command is sent neither once it is
/// known to have ended; and a command whose order finds no memory to be noted gets the other one
/// alone, or none. An allocation failure of a poll doesn't end the grace: it is polled again.
///
/// The call blocks until then, and returns late by the pause between two polls, at most 50
/// milliseconds, and by as long as the signals take: each waits for a shell, that to a group over
/// any system, and that to a command over a `Host`. What the commands started themselves gets no
/// signal, unless it is in a group that one of them leads, and is not waited for beyond the grace:
/// where it holds a capture pipe, the expression is late with all its commands ended. Once all have
/// ended in the grace, what is left of their groups is killed at once. What calls `setsid` itself
/// has left the group, and stays. A group's id is that of its command's process, which the machine
/// may give to another once nothing of the group is left.
///
/// Fails as `run` does, and leaves the same: where a fault ends the wait in time, its commands may
/// run on in the pool, without an order.
///
/// Example: `run_until(&rt, &mut host, &mut pool, &make, &Deadline { clock, moment, grace })?`
pub fn run_until<E: Drop, H: Hook, S: System<End = E>, C: Clock>(
    rt: &impl Wait,
    sys: &mut S,
    pool: &mut Pool<S::Child>,
    expression: &Expression<E, H>,
    deadline: &Deadline<'_, C>,
) -> Result<Until<Output, Late>, Error>
    ensures { IsRunUntil ⟦<S as Viewed>⟧.views H.allows H.refuses expression.now
        deadline.now.grace (C.may_show deadline.now.clock.now) (as_nanos deadline.now.moment)
        (sys.old, pool.old) result (sys.new, pool.new) }
{
    match launch_until(rt, sys, pool, expression, deadline)? {
        Until::Done(output) => Ok(Until::Done(output)),
        Until::Late((late, lapsed)) => {
            lapsed.into_running().give_up(pool);
            Ok(Until::Late(late))
        }
    }
}
