//! The waits of a handle. A wait polls again and again, with pauses in between, and holds the lock
//! only while it polls.
ghost use Rattle.std.specs.Prelude.{◌≡◌, ◌⊎◌, is_some, true, IfSome, Ok, Err, Some, None};
ghost use Rattle.duct_status.specs.ShapeView.{shape_view};
ghost use Rattle.duct_running.specs.Answered.{IsAnswer};
ghost use Rattle.duct_running.specs.Allowed.{OneRuns};
ghost use Rattle.duct_handle.specs.Waited.{IsLate, IsTimely, Waited, at_end};

use crate::handle::{Handle, Seen};
use duct_base::error::Error;
use duct_base::pause::Pause;
use duct_base::system::{Clock, Output, System};
use duct_system::views::Viewed;
use std::sync::{Arc, Wait};
use std::time::Duration;

impl<S: System> Handle<S> {
    /// Blocks until the expression has ended, and returns the output. It has ended once its
    /// commands, its input workers and its capture workers have. A capture worker reads to EOF: the
    /// wait goes on while any process holds the pipe open, also one that a command started.
    ///
    /// Fails with `Error::Checked` for a failure that is not unchecked, and with `Error::Memory`
    /// only at an allocation failure. Fails with `Error::System` at the first poll that finds a
    /// fault while no command says that it runs. After `Error::System` and `Error::Memory` the call
    /// may be repeated.
    pub fn wait_as(&self, rt: &impl Wait, seen: &mut Seen<S>) -> Result<Arc<Output>, Error>
        requires { seen.old.cell ≡ self.now.cell }
        ensures { Waited ⟦<S as Viewed>⟧.views self.now seen.old seen.new (at_end result) }
    {
        let mut pause = Pause::new();
        for _ in rt.forever() {
            let mut busy = false;
            match self.poll_as(rt, seen, &mut busy) {
                Ok(Some(output)) => return Ok(output),
                Ok(None) => (),
                Err(Error::System(_)) if busy => (),
                Err(error) => return Err(error),
            }
            pause.rest(rt);
        }
        unreachable!()
    }

    /// Waits as `wait_as` does, with a token of its own.
    pub fn wait(&self, rt: &impl Wait) -> Result<Arc<Output>, Error>
        ensures { IsAnswer ⟦<S as Viewed>⟧.views (shape_view self.now.shape)
            self.now.numbers (at_end result) }
    {
        let mut seen = self.seen();
        self.wait_as(rt, &mut seen)
    }

    /// Waits as `wait_as` does, but no longer than until this moment, which counts from the clock's
    /// zero. It polls at least once, and reads the clock after each poll that doesn't end the wait.
    /// At the moment or later it returns what the last poll returned: `None` while the expression
    /// runs, or a fault, also while a command runs. Nothing is killed then. It may return late by
    /// one pause, of at most 50 milliseconds, and by as long as a `send_signal` of another thread
    /// holds the lock.
    pub fn wait_deadline_as<C: Clock>(
        &self,
        rt: &impl Wait,
        clock: &C,
        moment: Duration,
        seen: &mut Seen<S>,
    ) -> Result<Option<Arc<Output>>, Error>
        requires { seen.old.cell ≡ self.now.cell }
        ensures { Waited ⟦<S as Viewed>⟧.views self.now seen.old seen.new result }
    {
        let mut pause = Pause::new();
        for _ in rt.forever() {
            if let Some(polled) = self.poll_until(rt, clock, moment, seen) {
                return polled;
            }
            pause.rest(rt);
        }
        unreachable!()
    }

    // One poll of a wait until this moment. It returns `None` where the wait goes on.
    fn poll_until<C: Clock>(
        &self,
        rt: &impl Wait,
        clock: &C,
        moment: Duration,
        seen: &mut Seen<S>,
    ) -> Option<Result<Option<Arc<Output>>, Error>>
        requires { seen.old.cell ≡ self.now.cell }
        ensures ends { IfSome result
            (Waited ⟦<S as Viewed>⟧.views self.now seen.old seen.new) }
        ensures cell { seen.new.cell ≡ self.now.cell }
        ensures kept { IfSome seen.old.known (λ known. seen.new.known ≡ Some known) }
    {
        let mut busy = false;
        let polled = self.poll_as(rt, seen, &mut busy);
        if !waits_on(&polled, busy) || moment <= clock.now() {
            return Some(polled);
        }
        None
    }

    /// Waits as `wait_deadline_as` does, with a token of its own.
    pub fn wait_deadline<C: Clock>(
        &self,
        rt: &impl Wait,
        clock: &C,
        moment: Duration,
    ) -> Result<Option<Arc<Output>>, Error>
        ensures told { IsAnswer ⟦<S as Viewed>⟧.views (shape_view self.now.shape)
            self.now.numbers result }
        ensures pending { result ≡ Ok None
            → OneRuns ⟦<S as Viewed>⟧.views self.now.numbers }
    {
        let mut seen = self.seen();
        self.wait_deadline_as(rt, clock, moment, &mut seen)
    }

    /// Waits as `wait_deadline_as` does, until this long after the moment that the clock shows
    /// first.
    ///
    /// Fails with `Error::Deadline` where the sum of the two is no `Duration`; then nothing was
    /// polled. A token that knows the result returns it without reading the clock.
    pub fn wait_timeout_as<C: Clock>(
        &self,
        rt: &impl Wait,
        clock: &C,
        timeout: Duration,
        seen: &mut Seen<S>,
    ) -> Result<Option<Arc<Output>>, Error>
        requires { seen.old.cell ≡ self.now.cell }
        ensures cell { seen.new.cell ≡ self.now.cell }
        ensures late { result ≡ Err Error.Deadline
            → (seen.old.known ≡ None) × IsLate (C.may_show clock.now) timeout }
        ensures timely { (result ≡ Err Error.Deadline)
            ⊎ (is_some seen.old.known ≡ true) ⊎ IsTimely (C.may_show clock.now) timeout }
        ensures waited { (result ≡ Err Error.Deadline)
            ⊎ Waited ⟦<S as Viewed>⟧.views self.now seen.old seen.new result }
    {
        if seen.knows {
            return self.try_wait_as(rt, seen);
        }
        match clock.now().checked_add(timeout) {
            Some(moment) => self.wait_deadline_as(rt, clock, moment, seen),
            None => Err(Error::Deadline),
        }
    }

    /// Waits as `wait_timeout_as` does, with a token of its own.
    pub fn wait_timeout<C: Clock>(
        &self,
        rt: &impl Wait,
        clock: &C,
        timeout: Duration,
    ) -> Result<Option<Arc<Output>>, Error>
        ensures late { result ≡ Err Error.Deadline → IsLate (C.may_show clock.now) timeout }
        ensures timely { (result ≡ Err Error.Deadline) ⊎ IsTimely (C.may_show clock.now) timeout }
        ensures told { (result ≡ Err Error.Deadline)
            ⊎ IsAnswer ⟦<S as Viewed>⟧.views (shape_view self.now.shape) self.now.numbers
            result }
        ensures pending { result ≡ Ok None
            → OneRuns ⟦<S as Viewed>⟧.views self.now.numbers }
    {
        let mut seen = self.seen();
        self.wait_timeout_as(rt, clock, timeout, &mut seen)
    }
}

// Whether a wait goes on after this poll: nothing has ended, or there is a fault while a command
// says that it runs.
fn waits_on(polled: &Result<Option<Arc<Output>>, Error>, busy: bool) -> bool {
    match polled {
        Ok(None) => true,
        Err(Error::System(_)) => busy,
        Ok(Some(_)) | Err(_) => false,
    }
}
