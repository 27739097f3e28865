//! The orders of a handle to its commands, and their ids.
ghost use Rattle.std.specs.Prelude.{◌≡◌};
ghost use Rattle.duct_system.specs.declared.system.Order.TheVariants.{Kill};
ghost use Rattle.duct_running.specs.NumbersView.{numbers_view};
ghost use Rattle.duct_handle.specs.Obeyed.{IsObeyed, IsOrderedOnce};

use crate::handle::Handle;
use crate::poll::mismatch_error;
use duct_base::error::Error;
use duct_base::status::Shape;
use duct_base::system::{Order, System};
use duct_running::numbers::Numbers;
use duct_running::running::Running;
use duct_system::views::Viewed;
use std::sync::Wait;

// Gives the order to what runs, once. Where the shape or the numbers differ from these, it fails
// and gives nothing.
pub(crate) fn ordered<S: System>(
    running: &mut Running<S>,
    shape: &Shape,
    numbers: &Numbers,
    order: Order,
) -> Result<(), Error>
    ensures orders { IsOrderedOnce ⟦<S as Viewed>⟧.views order running.old result running.new }
    ensures obeyed { IsObeyed ⟦<S as Viewed>⟧.views order (numbers_view numbers.now).children
        result }
{
    running.answers_allowed();
    if !running.is_of(shape, numbers) {
        return Err(mismatch_error());
    }
    match order {
        Order::Kill => running.kill(),
        Order::Signal(signal) => running.signal(signal),
    }
}

impl<S: System> Handle<S> {
    /// Kills each command that is not known as ended, from right to left, and the group of each that
    /// leads one, also of one that has ended. Where one can't be killed, the others still are.
    ///
    /// It doesn't wait until they have ended: a wait or a poll reaps them. It doesn't reach what
    /// other commands started themselves: while such a process holds a capture pipe open, a wait
    /// still blocks. It doesn't wait for another thread's wait, but does for its `send_signal`.
    ///
    /// Fails with `Error::System`, the leftmost fault. If the note of the order can't be allocated
    /// for a command, the command is not given the order, and its fault is `OutOfMemory`.
    pub fn kill(&self, rt: &impl Wait) -> Result<(), Error>
        ensures { IsObeyed ⟦<S as Viewed>⟧.views Kill self.now.numbers.children result }
    {
        self.order(rt, Order::Kill)
    }

    // Gives an order under the lock.
    pub(crate) fn order(&self, rt: &impl Wait, order: Order) -> Result<(), Error>
        ensures { IsObeyed ⟦<S as Viewed>⟧.views order self.now.numbers.children result }
    {
        let guard = self.lock.lock(rt);
        let (obeyed, _spent) = guard.order(&self.shape, &self.numbers, order);
        obeyed
    }

    /// Returns the process ids of the children, one a command, from left to right. They stay the
    /// same after the commands have ended, when an id may be another process's. It takes no lock
    /// and allocates nothing.
    pub fn pids(&self) -> &[u32]
        ensures { result.now ≡ self.now.ids }
    {
        &self.ids
    }
}
