//! The wait for what runs.
ghost use Rattle.std.specs.Prelude.{◌≡◌, ◌⊎◌, true, false, IfNone, IfSome, IsSome, Err};
ghost use Rattle.std.specs.Duration.{as_nanos};
ghost use Rattle.duct_system.specs.declared.error.Error.TheVariants as error;
ghost use Rattle.duct_running.specs.Polled.{PolledOnce, StaysSame};
ghost use Rattle.duct_handle.specs.Waited.{at_end};
ghost use Rattle.duct_tasks.specs.Groups.{processes_of};
ghost use Rattle.duct_tasks.specs.Until.{HasNotEnded, HasReached, HasShownLess, StoresEnd, WasPolled};

use duct_base::error::Error;
use duct_base::pause::Pause;
use duct_base::system::{Clock, Output, System};
use duct_handle::poll::polled;
use duct_running::running::Running;
use duct_system::views::Viewed;
use std::sync::{Arc, Wait};
use std::time::Duration;

// Returns whether the clock shows this moment or a later one.
pub(crate) fn is_over<C: Clock>(clock: &C, moment: Duration) -> bool
    ensures over { result ≡ true → HasReached (C.may_show clock.now) (as_nanos moment) }
    ensures early { result ≡ false → HasShownLess (C.may_show clock.now) (as_nanos moment) }
{
    moment.as_nanos() <= clock.now().as_nanos()
}

/// Polls what runs, once, and returns how it ended, if it did. A fault is no end while a command
/// says that it runs.
pub(crate) fn ended<S: System>(running: &mut Running<S>) -> Option<Result<Arc<Output>, Error>>
    ensures polls { PolledOnce ⟦<S as Viewed>⟧.views running.old running.new }
    ensures stays { StaysSame ⟦<S as Viewed>⟧.views running.old running.new }
    ensures stores { StoresEnd ⟦<S as Viewed>⟧.views result running.new }
    ensures runs { IfNone result (HasNotEnded ⟦<S as Viewed>⟧.views running.new) }
{
    match polled(running) {
        Ok(Some(output)) => Some(Ok(output)),
        Ok(None) => None,
        Err(Error::System(_)) if running.is_busy() => None,
        Err(error) => Some(Err(error)),
    }
}

/// Returns whether a poll that returned this ends a wait, which an allocation failure does unless
/// it is patient.
pub(crate) fn is_final(end: &Option<Result<Arc<Output>, Error>>, is_patient: bool) -> bool
    ensures some { result ≡ true → IsSome end.now }
    ensures memory { result ≡ true → is_patient ≡ true
        → IfSome end.now (λ end. at_end end ≡ Err error.Memory → ⊥) }
{
    match end {
        None => false,
        Some(Err(Error::Memory)) => !is_patient,
        Some(Err(Error::System(_) | Error::Checked(_) | Error::NotUtf8)) => true,
        Some(Err(Error::Hook(_) | Error::HookEnd(_) | Error::Deadline)) => true,
        Some(Ok(_)) => true,
    }
}

/// Polls what runs until it has ended and returns how, or `None` where it is to stop before that,
/// which is asked after each poll that doesn't end the wait. An allocation failure of a poll
/// doesn't end a patient one: the next poll tries again. It gives the children no order.
pub(crate) fn watch<S: System, F: Fn() -> bool>(
    rt: &impl Wait,
    stop: &F,
    is_patient: bool,
    running: &mut Running<S>,
) -> Option<Result<Arc<Output>, Error>>
    requires { F.IsAlwaysCallable stop.now }
    ensures stays { StaysSame ⟦<S as Viewed>⟧.views running.old running.new }
    ensures processes { processes_of ⟦<S as Viewed>⟧.views running.new
        ≡ processes_of ⟦<S as Viewed>⟧.views running.old }
    ensures polls { WasPolled ⟦<S as Viewed>⟧.views running.old running.new }
    ensures stores { StoresEnd ⟦<S as Viewed>⟧.views result running.new }
    ensures in_time { F.post stop.now false
        ⊎ PolledOnce ⟦<S as Viewed>⟧.views running.old running.new }
    ensures says { IfNone result (F.post stop.now true) }
    ensures patient { is_patient ≡ true
        → IfSome result (λ end. at_end end ≡ Err error.Memory → F.post stop.now true) }
    ensures runs { IfNone result (HasNotEnded ⟦<S as Viewed>⟧.views running.new) }
{
    let mut pauses = Pause::new();
    for _ in rt.forever() {
        let end = ended(running);
        if is_final(&end, is_patient) || stop() {
            return end;
        }
        drop(end);
        pauses.rest(rt);
    }
    unreachable!()
}
