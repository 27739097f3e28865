//! How what was late is stopped.
ghost use Rattle.std.specs.Prelude.{◌+◌, false, min};
ghost use Rattle.std.specs.Duration.{as_nanos, max_nanos};
ghost use Rattle.duct_tasks.specs.Until.{HasReached, IsStopped, UnlessEnded};
ghost use Rattle.duct_tasks.specs.Turns.{HasOrders};

use crate::grace::{Asked, Lapsed};
use crate::late::{Deadline, Late};
use duct::Expression;
use duct_base::pool::Pool;
use duct_base::spec::Hook;
use duct_base::system::{Clock, System};
use duct_running::running::Running;
use duct_system::views::Viewed;
use std::sync::Wait;

/// Sends signal 15 to what this expression runs, waits patiently until the end of the grace, and
/// then kills what it still runs, each as `order_all` gives an order, and once. Only what the clock
/// showed to be late is stopped, which was given no order before.
pub(crate) fn stop<H: Hook, S: System, C: Clock>(
    rt: &impl Wait,
    sys: &mut S,
    pool: &mut Pool<S::Child>,
    like: &Expression<S::End, H>,
    deadline: &Deadline<'_, C>,
    running: Running<S>,
) -> (Late, Lapsed<S>)
    requires late { HasReached (C.may_show deadline.now.clock.now)
        (as_nanos deadline.now.moment) }
    requires unordered { HasOrders ⟦<S as Viewed>⟧.views false running }
    ensures grace { UnlessEnded result.0.ended (HasReached (C.may_show deadline.now.clock.now)
        (min (as_nanos deadline.now.moment + as_nanos deadline.now.grace) max_nanos)) }
    ensures stopped { IsStopped ⟦<S as Viewed>⟧.views H.allows H.refuses result.0
        (sys.old, pool.old) running (sys.new, pool.new) result.1.running }
{
    let last = deadline.moment.saturating_add(deadline.grace);
    let asked = Asked::new(rt, sys, pool, like, running);
    let (ended, mut lapsed) = asked.wait(rt, deadline.clock, last);
    let killed = lapsed.kill(rt, sys, pool, like);
    (Late { ended, killed }, lapsed)
}
