//! Calls to the machine: a call that a signal interrupts is made again.
ghost use Rattle.std.specs.Prelude.{◌≡◌};
ghost use Rattle.duct_system.specs.declared.system.Kind.TheVariants.{OutOfMemory};

use duct_base::system::{Fault, Kind};
use std::io;
use std::io::ErrorKind;

/// Makes a call to the machine, and makes it again as long as a signal interrupts it.
pub(crate) fn ask<T, F: FnMut() -> io::Result<T>>(mut question: F) -> Result<T, Fault>
    requires { F.IsAlwaysCallable question }
{
    for _ in 0..u64::MAX {
        match question() {
            Ok(answer) => return Ok(answer),
            Err(error) if error.kind() == ErrorKind::Interrupted => {}
            Err(error) => return Err(Fault::from(error)),
        }
    }
    Err(Fault::new(Kind::Other))
}

/// The fault of an allocation failure.
pub(crate) fn no_memory() -> Fault
    ensures { result.kind ≡ OutOfMemory }
{
    Fault::new(Kind::OutOfMemory)
}
