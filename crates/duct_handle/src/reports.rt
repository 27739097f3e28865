//! What the commands of a handle have reported, and their words.
ghost use Rattle.std.specs.Prelude.{◌≡◌, IfErr, IfOk};
ghost use Rattle.duct_status.specs.ShapeView.{shape_view};
ghost use Rattle.duct_running.specs.Allowed.{HaveReported};
ghost use Rattle.duct_running.specs.NumbersView.{numbers_view};
ghost use Rattle.duct_handle.specs.Waited.{IsMemoryOrOther};

use crate::handle::Handle;
use crate::poll::mismatch_error;
use duct_base::error::Error;
use duct_base::status::{Shape, Word};
use duct_base::system::System;
use duct_running::numbers::Numbers;
use duct_running::running::Running;
use duct_system::views::Viewed;
use std::alloc::Global;
use std::sync::Wait;

// Returns the latest report of each command of what runs. It fails where the shape or the numbers
// differ from these.
pub(crate) fn reports<S: System>(
    alloc: Global,
    running: &Running<S>,
    shape: &Shape,
    numbers: &Numbers,
) -> Result<Vec<Word>, Error>
    ensures reports { IfOk result (λ words. HaveReported ⟦<S as Viewed>⟧.views
        (numbers_view numbers.now).children words.items) }
    ensures err { IfErr result IsMemoryOrOther }
{
    running.answers_allowed();
    if !running.is_of(shape, numbers) {
        return Err(mismatch_error());
    }
    Ok(running.reports().to_vec(alloc)?)
}

impl<S: System> Handle<S> {
    /// Returns the latest report of each command, from left to right: its exit status once a poll
    /// has returned one, the fault of its last poll, or `Running`. It polls nothing, and waits for
    /// no wait of another thread, but for its `send_signal`.
    ///
    /// Fails with `Error::Memory` at an allocation failure, and with `Error::System` of kind
    /// `Other` where `try_wait_as` does.
    pub fn reports(&self, rt: &impl Wait) -> Result<Vec<Word>, Error>
        ensures reports { IfOk result (λ words. HaveReported ⟦<S as Viewed>⟧.views
            self.now.numbers.children words.items) }
        ensures err { IfErr result IsMemoryOrOther }
    {
        let guard = self.lock.lock(rt);
        guard.reports(self.alloc, &self.shape, &self.numbers)
    }

    /// Returns the shape of the expression, which has the words of each command.
    pub fn shape(&self) -> &Shape
        ensures { shape_view result.now ≡ shape_view self.now.shape }
    {
        &self.shape
    }
}
