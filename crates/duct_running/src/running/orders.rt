//! The orders to the commands of a running expression, and how it is given up.
ghost use Rattle.std.specs.Prelude.{◌≡◌, ◌<◌, length};
ghost use Rattle.duct_system.specs.Child.{OrdersChild};
ghost use Rattle.duct_system.specs.declared.system.Order.TheVariants.{Kill, Signal};
ghost use Rattle.duct_run.specs.Requested.{PoolGets};
ghost use Rattle.duct_running.specs.Ordered.{ChildOrderedAt, ChildrenOrdered, OrderAnswers};

use crate::running::Running;
use duct_base::error::Error;
use duct_base::pool::Pool;
use duct_base::system::{Child, Fault, Order, System};
use duct_run::ending::give_all;
use duct_system::views::Viewed;

// Gives a child an order.
fn give<C: Child>(child: &mut C, order: Order) -> Result<(), Fault>
    ensures { OrdersChild C.may_obey order (C.child_view child.old) result
        (C.child_view child.new) }
{
    match order {
        Order::Kill => child.kill(),
        Order::Signal(signal) => child.signal(signal),
    }
}

// Converts the result of an order: a fault becomes `Error::System`.
fn result_of(answer: Result<(), Fault>) -> Result<(), Error>
    ensures { OrderAnswers answer result }
{
    Ok(answer?)
}

impl<S: System> Running<S> {
    /// Kills each command that is not known to have ended, or leads a group, once and from right to
    /// left, so that no command finds that its input has ended before its own order. Where one can't
    /// be killed, the others still are. It doesn't wait until they have ended.
    ///
    /// Fails with `Error::System`, the leftmost fault. Where there is no memory to note the order
    /// for a command, the command is not killed and its fault is `OutOfMemory`.
    pub fn kill(&mut self) -> Result<(), Error>
        ensures shape { self.new.shape ≡ self.old.shape }
        ensures ordered { ChildrenOrdered ⟦<S as Viewed>⟧.views Kill self.old result self.new }
        ensures feeds { self.new.feeds ≡ self.old.feeds }
        ensures output { self.new.output ≡ self.old.output }
        ensures error { self.new.error ≡ self.old.error }
    {
        self.order_all(Order::Kill)
    }

    /// Sends the signal of this number to each command that is not known to have ended, or leads a
    /// group, in the order of `kill`. It may wait for a program that the system runs to send it. Fails as `kill`
    /// does.
    pub fn signal(&mut self, signal: i32) -> Result<(), Error>
        ensures shape { self.new.shape ≡ self.old.shape }
        ensures ordered { ChildrenOrdered ⟦<S as Viewed>⟧.views (Signal signal) self.old result
            self.new }
        ensures feeds { self.new.feeds ≡ self.old.feeds }
        ensures output { self.new.output ≡ self.old.output }
        ensures error { self.new.error ≡ self.old.error }
    {
        self.order_all(Order::Signal(signal))
    }

    /// Gives the children to a pool, from left to right, and drops the workers. Each child is
    /// polled once: one that runs is appended to the pool, one that has ended counts as reaped, and
    /// one whose poll returned a fault counts as lost. A pool has room for fewer than 2^63
    /// children: one that runs and finds no room is dropped and counts as lost. It allocates
    /// nothing and doesn't block.
    pub fn give_up(self, pool: &mut Pool<S::Child>)
        ensures { PoolGets ⟦<S as Viewed>⟧.views self.children pool.old pool.new }
    {
        let (children, feeds, drains) = self.into_parts();
        drop((feeds, drains));
        give_all(pool, children);
    }

    /// Gives an order to the command at this place, counted from 0 on the left, unless it is known
    /// to have ended and leads no group. It may wait for a program that the system runs to send a signal. Fails with
    /// the fault of the order, as `kill` does.
    pub fn order_at(&mut self, at: usize, order: Order) -> Result<(), Fault>
        requires { at < length self.old.children }
        ensures shape { self.new.shape ≡ self.old.shape }
        ensures ordered { ChildOrderedAt ⟦<S as Viewed>⟧.views order at self.old result self.new }
        ensures feeds { self.new.feeds ≡ self.old.feeds }
        ensures output { self.new.output ≡ self.old.output }
        ensures error { self.new.error ≡ self.old.error }
    {
        if !self.core.is_due(at) && !self.children[at].leads() {
            return Ok(());
        }
        give(&mut self.children[at], order)
    }

    // Gives an order to each child that has not ended or leads a group, from right to left, and
    // returns the leftmost fault.
    fn order_all(&mut self, order: Order) -> Result<(), Error>
        ensures shape { self.new.shape ≡ self.old.shape }
        ensures ordered { ChildrenOrdered ⟦<S as Viewed>⟧.views order self.old result self.new }
        ensures feeds { self.new.feeds ≡ self.old.feeds }
        ensures output { self.new.output ≡ self.old.output }
        ensures error { self.new.error ≡ self.old.error }
    {
        let mut answer = Ok(());
        for at in (0..self.children.len()).rev() {
            answer = self.order_at(at, order).and(answer);
        }
        result_of(answer)
    }
}
