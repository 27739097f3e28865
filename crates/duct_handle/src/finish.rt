//! The wait for a start that no thread shares: as a handle waits, but without a lock.
ghost use Rattle.std.specs.Prelude.{◌≡◌, IfErr, IfOk, OnOk};
ghost use Rattle.duct_status.specs.ReplyView.{answered};
ghost use Rattle.duct_running.specs.Allowed.{StoresAllowed};
ghost use Rattle.duct_running.specs.Ordered.{IsUnordered};
ghost use Rattle.duct_running.specs.Polled.{ReturnsOutcome, StaysSame};
ghost use Rattle.duct_handle.specs.Finished.{RanUntil, RanUntilGiven, StoresError, StoresReply};
ghost use Rattle.duct_handle.specs.Waited.{at_end};

use crate::output::output_or_give_up;
use crate::poll::polled;
use duct_base::error::Error;
use duct_base::pause::Pause;
use duct_base::pool::Pool;
use duct_base::system::{Output, System};
use duct_running::running::Running;
use duct_system::views::Viewed;
use std::alloc::Global;
use std::sync::{Arc, Wait};

/// Waits until the expression has ended and returns how, as `Handle::wait` does. A fault is
/// returned by the first poll that finds one while no command says that it runs. It blocks, and
/// gives the children no order. None of them may have been given one before.
pub fn wait_for<S: System>(rt: &impl Wait, running: &mut Running<S>) -> Result<Arc<Output>, Error>
    requires { IsUnordered ⟦<S as Viewed>⟧.views running.old }
    ensures stays { StaysSame ⟦<S as Viewed>⟧.views running.old running.new }
    ensures outcome { ReturnsOutcome ⟦<S as Viewed>⟧.views running.new (at_end result) }
    ensures allowed { ∥ StoresAllowed ⟦<S as Viewed>⟧.views running.new ∥₁ }
{
    let mut pause = Pause::new();
    for _ in rt.forever() {
        match polled(running) {
            Ok(Some(output)) => return Ok(output),
            Ok(None) => (),
            Err(Error::System(_)) if running.is_busy() => (),
            Err(error) => return Err(error),
        }
        pause.rest(rt);
    }
    unreachable!()
}

/// Waits as `wait_for` does and returns the output itself, copied only where another owner shares
/// it. The pool is left as it was.
///
/// Where it fails, the children are given to the pool as `Running::give_up` gives them.
pub fn finish<S: System>(
    alloc: Global,
    rt: &impl Wait,
    mut running: Running<S>,
    pool: &mut Pool<S::Child>,
) -> Result<Output, Error>
    requires { IsUnordered ⟦<S as Viewed>⟧.views running }
    ensures output { IfOk result (λ output. RanUntil ⟦<S as Viewed>⟧.views running
        (λ waited. StoresReply ⟦<S as Viewed>⟧.views waited
        (answered output.status output.stdout.items output.stderr.items))) }
    ensures kept { OnOk result (pool.new ≡ pool.old) }
    ensures failed { IfErr result (λ e. RanUntilGiven ⟦<S as Viewed>⟧.views running
        (λ waited. StoresError ⟦<S as Viewed>⟧.views waited e) pool.old pool.new) }
{
    let waited = wait_for(rt, &mut running);
    output_or_give_up(alloc, running, waited, pool)
}
