//! What Unix adds to a handle: signals by their numbers.
ghost use Rattle.std.specs.Prelude.{ℤ, Result};
ghost use Rattle.duct_system.specs.declared.error.Error.{Error};

use crate::handle::Handle;
use duct_base::error::Error;
use duct_base::system::{Order, System};
use duct_system::views::Viewed;
use std::sync::Wait;

/// Signals to the commands of a handle.
pub trait HandleExt {
    /// What `send_signal` may return for a signal.
    ghost obeyed: { Self → ℤ → Result (Unit {0}) Error → Type 0 };

    /// Sends a signal, by its number, to each command that is not known as ended, from right to
    /// left, and to the group of each that leads one, also of one that has ended. Where one can't be
    /// sent it, the others still are. It doesn't reach what other commands started themselves, and
    /// doesn't wait until a command has ended.
    ///
    /// The system decides which numbers it serves. A `Host` serves 1, 2, 3, 6, 9, 14 and 15. Number
    /// 9 is a kill. The others are sent by `/bin/sh`: the call blocks until that shell has ended,
    /// and the other calls of the handle that take its lock wait meanwhile.
    ///
    /// Fails with `Error::System`, the leftmost fault. Over a `Host` that is `InvalidInput` for a
    /// number that isn't served, and `Other` where the shell reports a failure.
    fn send_signal(&self, rt: &impl Wait, signal: i32) -> Result<(), Error>
        ensures { obeyed self.now signal result };
}

impl<S: System> HandleExt for Handle<S> {
    ghost use Rattle.duct_system.specs.declared.system.Order.TheVariants.{Signal};
    ghost use Rattle.duct_handle.specs.Obeyed.{IsObeyed};

    ghost obeyed = { λ handle signal result. IsObeyed ⟦<S as Viewed>⟧.views (Signal signal)
        handle.numbers.children result };

    fn send_signal(&self, rt: &impl Wait, signal: i32) -> Result<(), Error> {
        self.order(rt, Order::Signal(signal))
    }
}
