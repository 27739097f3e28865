//! The calls of a handle, for functions over several threads.
ghost use Rattle.std.specs.Prelude.{ℕ, ◌≡◌, ◌⊎◌, List, Ok, Err, None};
ghost use Rattle.std.specs.declared.result.Result.{Result};
ghost use Rattle.duct_system.specs.declared.error.Error.{Error};
ghost use Rattle.duct_system.specs.declared.error.Error.TheVariants.{Deadline};
ghost use Rattle.duct_system.specs.declared.system.Order.{Order};
ghost use Rattle.duct_system.specs.declared.system.Order.TheVariants.{Kill, Signal};
ghost use Rattle.duct_running.specs.Polled.{Polled};
ghost use Rattle.duct_handle.specs.Waited.{IsLate, IsTimely, at_end};
ghost use Rattle.duct_status.specs.ShapeView.{shape_view};
ghost use Rattle.duct_running.specs.Allowed.{OneRuns};
ghost use Rattle.duct_running.specs.Answered.{IsAnswer};
ghost use Rattle.duct_handle.specs.Obeyed.{IsObeyed};

use duct_base::error::Error;
use duct_base::system::{Clock, Output, System};
use duct_handle::handle::Handle;
use duct_handle::unix::HandleExt;
use duct_system::views::Viewed;
use std::sync::{Arc, Wait};
use std::time::Duration;

/// The calls of a `Handle` that threads share.
pub trait SharedHandle: Sync {
    /// What a poll or a wait may return.
    ghost may_return: { Self → Polled → Type 0 };

    /// Whether a command or a worker may report that it runs.
    ghost may_run: { Self → Type 0 };

    /// What an order to all commands may return.
    ghost may_obey: { Self → Order → Result (Unit {0}) Error → Type 0 };

    /// The process ids of the children.
    ghost ids: { Self → List ℕ };

    /// Polls once, unless the result is published already, and returns the output, or `None` while
    /// the expression runs. It doesn't wait until it has ended.
    ///
    /// Fails with `Error::Checked` for a failure that is not unchecked, with `Error::System` for a
    /// fault of a command or a worker, and with `Error::Memory` only at an allocation failure.
    /// After the last two the call may be repeated.
    fn try_wait(&self, rt: &impl Wait) -> Result<Option<Arc<Output>>, Error>
        ensures told { may_return self.now result }
        ensures pending { result ≡ Ok None → may_run self.now };

    /// Blocks until the expression has ended, and returns the output. It blocks as `Handle::wait`
    /// does, for as long as any process holds a pipe open that is captured.
    ///
    /// Fails as `try_wait` does, with `Error::System` only while no command says that it runs.
    fn wait(&self, rt: &impl Wait) -> Result<Arc<Output>, Error>
        ensures { may_return self.now (at_end result) };

    /// Blocks as `wait` does, but no longer than until this moment, which counts from the clock's
    /// zero. It polls at least once. At the moment or later it returns what the last poll returned:
    /// `None` while the expression runs, or a fault, also while a command runs. Nothing is killed
    /// then.
    ///
    /// Fails as `try_wait` does.
    fn wait_deadline<C: Clock>(
        &self,
        rt: &impl Wait,
        clock: &C,
        moment: Duration,
    ) -> Result<Option<Arc<Output>>, Error>
        ensures told { may_return self.now result }
        ensures pending { result ≡ Ok None → may_run self.now };

    /// Blocks as `wait_deadline` does, until this long after the moment that the clock shows first.
    ///
    /// Fails as `try_wait` does, and with `Error::Deadline` where the sum of the two is no
    /// `Duration`; then nothing was polled.
    fn wait_timeout<C: Clock>(
        &self,
        rt: &impl Wait,
        clock: &C,
        timeout: Duration,
    ) -> Result<Option<Arc<Output>>, Error>
        ensures late { result ≡ Err Deadline → IsLate (C.may_show clock.now) timeout }
        ensures timely { (result ≡ Err Deadline) ⊎ IsTimely (C.may_show clock.now) timeout }
        ensures told { (result ≡ Err Deadline) ⊎ may_return self.now result }
        ensures pending { result ≡ Ok None → may_run self.now };

    /// Kills each command that is not known as ended, as `Handle::kill` does. It doesn't wait until
    /// they have ended, nor for another thread's wait.
    ///
    /// Fails with `Error::System`, the leftmost fault.
    fn kill(&self, rt: &impl Wait) -> Result<(), Error>
        ensures { may_obey self.now Kill result };

    /// Sends a signal, by its number, to each command that is not known as ended. Over a `Host` it
    /// blocks until the signal is sent, as `HandleExt::send_signal` does.
    ///
    /// Fails with `Error::System`, the leftmost fault.
    fn send_signal(&self, rt: &impl Wait, signal: i32) -> Result<(), Error>
        ensures { may_obey self.now (Signal signal) result };

    /// Returns the process ids of the children, one a command, from left to right. It doesn't
    /// block, allocate or fail.
    fn pids(&self) -> &[u32]
        ensures { result.now ≡ ids self.now };
}

impl<S: System + Send + Sync> SharedHandle for Handle<S>
where
    S::Child: Send,
    S::Feed: Send,
    S::Drain: Send,
{
    ghost may_return = { λ handle polled. IsAnswer ⟦<S as Viewed>⟧.views (shape_view handle.shape)
        handle.numbers polled };

    ghost may_run = { λ handle. OneRuns ⟦<S as Viewed>⟧.views handle.numbers };

    ghost may_obey = { λ handle order result. IsObeyed ⟦<S as Viewed>⟧.views order
        handle.numbers.children result };

    ghost ids = { λ handle. handle.ids };

    fn try_wait(&self, rt: &impl Wait) -> Result<Option<Arc<Output>>, Error> {
        Handle::try_wait(self, rt)
    }

    fn wait(&self, rt: &impl Wait) -> Result<Arc<Output>, Error> {
        Handle::wait(self, rt)
    }

    fn wait_deadline<C: Clock>(
        &self,
        rt: &impl Wait,
        clock: &C,
        moment: Duration,
    ) -> Result<Option<Arc<Output>>, Error> {
        Handle::wait_deadline(self, rt, clock, moment)
    }

    fn wait_timeout<C: Clock>(
        &self,
        rt: &impl Wait,
        clock: &C,
        timeout: Duration,
    ) -> Result<Option<Arc<Output>>, Error> {
        Handle::wait_timeout(self, rt, clock, timeout)
    }

    fn kill(&self, rt: &impl Wait) -> Result<(), Error> {
        Handle::kill(self, rt)
    }

    fn send_signal(&self, rt: &impl Wait, signal: i32) -> Result<(), Error> {
        HandleExt::send_signal(self, rt, signal)
    }

    fn pids(&self) -> &[u32] {
        Handle::pids(self)
    }
}
