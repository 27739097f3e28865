//! Errors of the library as errors of std.
ghost use Rattle.std.specs.Prelude.{◌≡◌};
ghost use Rattle.std.specs.IoError.{error_kind};
ghost use Rattle.duct_handle.specs.Reads.{kind_read};

use duct_base::error::Error;
use std::io;
use std::io::ErrorKind;

// A fault has its kind, an allocation failure is `OutOfMemory`, and each other error is `Other`.
pub(crate) fn io_error(error: Error) -> io::Error
    ensures { error_kind result ≡ kind_read error }
{
    io::Error::from(match error {
        Error::System(fault) => ErrorKind::from(fault.kind),
        Error::Memory => ErrorKind::OutOfMemory,
        Error::Checked(_) | Error::NotUtf8 | Error::Hook(_) | Error::HookEnd(_) | Error::Deadline =>
            ErrorKind::Other,
    })
}
