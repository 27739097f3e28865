//! How what runs is ended: by signal 15, a grace, and only then a kill. The types say how far that
//! has come, so that no other order is possible.
ghost use Rattle.std.specs.Prelude.{◌≡◌, true, false, pos, IfNone, IfSome, Err};
ghost use Rattle.std.specs.Duration.{as_nanos};
ghost use Rattle.duct_system.specs.declared.error.Error.TheVariants as error;
ghost use Rattle.duct_system.specs.declared.system.Order.TheVariants.{Kill};
ghost use Rattle.duct_status.specs.ShapeView.{shape_view};
ghost use Rattle.duct_handle.specs.Waited.{at_end};
ghost use Rattle.duct_tasks.specs.Groups.{OrdersAll, SignalsGroups, Tries, processes_of};
ghost use Rattle.duct_tasks.specs.Until.{AreSignalled, HasLapsed, HasReached, RunsAlike};
ghost use Rattle.duct_tasks.specs.Turns.{HasOrders};

use crate::group::order_all;
use crate::late::TERMINATE;
use crate::watch::{is_over, watch};
use duct::Expression;
use duct_base::error::Error;
use duct_base::pool::Pool;
use duct_base::spec::Hook;
use duct_base::system::{Clock, Order, Output, System};
use duct_running::running::Running;
use duct_system::views::Viewed;
use std::sync::{Arc, Wait};
use std::time::Duration;

/// What runs and was sent signal 15.
pub(crate) struct Asked<S: System> {
    running: Running<S>,
}

/// What was sent signal 15 and has ended since, or had its grace. Nothing else can be killed.
pub(crate) struct Lapsed<S: System> {
    running: Running<S>,
}

impl<S: System> Asked<S> {
    /// Sends signal 15 to what this expression runs, as `order_all` gives an order. None was given
    /// one before. A command that can't be sent it runs on as before.
    pub(crate) fn new<H: Hook>(
        rt: &impl Wait,
        sys: &mut S,
        pool: &mut Pool<S::Child>,
        like: &Expression<S::End, H>,
        running: Running<S>,
    ) -> Self
        requires { HasOrders ⟦<S as Viewed>⟧.views false running }
        ensures alike { RunsAlike ⟦<S as Viewed>⟧.views running result.running }
        ensures processes { processes_of ⟦<S as Viewed>⟧.views result.running
            ≡ processes_of ⟦<S as Viewed>⟧.views running }
        ensures signalled { (tries : Tries) × SignalsGroups ⟦<S as Viewed>⟧.views H.allows
            H.refuses (pos 15) (shape_view running.shape)
            (processes_of ⟦<S as Viewed>⟧.views running) tries (sys.old, pool.old)
            (sys.new, pool.new) × AreSignalled ⟦<S as Viewed>⟧.views tries result.running }
    {
        let mut running = running;
        let _ = order_all(rt, sys, pool, like, Order::Signal(TERMINATE), &mut running);
        Asked { running }
    }

    /// Polls until it has ended and returns how, or `None` where it has not by this moment. An
    /// allocation failure of a poll doesn't end the wait before that.
    pub(crate) fn wait<C: Clock>(
        self,
        rt: &impl Wait,
        clock: &C,
        last: Duration,
    ) -> (Option<Result<Arc<Output>, Error>>, Lapsed<S>)
        ensures alike { RunsAlike ⟦<S as Viewed>⟧.views self.running result.1.running }
        ensures processes { processes_of ⟦<S as Viewed>⟧.views result.1.running
            ≡ processes_of ⟦<S as Viewed>⟧.views self.running }
        ensures lapsed { (tries : Tries) → AreSignalled ⟦<S as Viewed>⟧.views tries self.running
            → HasLapsed ⟦<S as Viewed>⟧.views tries result.0 result.1.running }
        ensures late { IfNone result.0 (HasReached (C.may_show clock.now) (as_nanos last)) }
        ensures patient { IfSome result.0 (λ end.
            at_end end ≡ Err error.Memory → HasReached (C.may_show clock.now) (as_nanos last)) }
    {
        let Asked { mut running } = self;
        let is_last = ||
            ensures { result ≡ true → HasReached (C.may_show clock.entry.now) (as_nanos last) }
        { is_over(clock, last) };
        let ended = watch(rt, &is_last, true, &mut running);
        (ended, Lapsed { running })
    }
}

impl<S: System> Lapsed<S> {
    /// Kills what this expression still runs, as `order_all` gives an order.
    pub(crate) fn kill<H: Hook>(
        &mut self,
        rt: &impl Wait,
        sys: &mut S,
        pool: &mut Pool<S::Child>,
        like: &Expression<S::End, H>,
    ) -> Result<(), Error>
        ensures alike { RunsAlike ⟦<S as Viewed>⟧.views self.old.running self.new.running }
        ensures ordered { (tries : Tries) × OrdersAll ⟦<S as Viewed>⟧.views Kill H.allows H.refuses
            tries (sys.old, pool.old) self.old.running result (sys.new, pool.new)
            self.new.running }
    {
        order_all(rt, sys, pool, like, Order::Kill, &mut self.running)
    }

    /// Returns what runs, or has ended.
    pub(crate) fn into_running(self) -> Running<S>
        ensures { result ≡ self.running }
    {
        let Lapsed { running } = self;
        running
    }
}
