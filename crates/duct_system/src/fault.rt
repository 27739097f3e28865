//! The conversion of an error of std into a fault, and of a kind of fault into std's.
use crate::system::{Fault, Kind};
use std::io;
use std::io::ErrorKind;

/// The fault has the kind with the same name as the error's kind, or `Other` if there is none.
impl From<io::Error> for Fault {
    ghost use Rattle.std.specs.Prelude.{◌≡◌};
    ghost use Rattle.std.specs.IoError.{error_kind};
    ghost use Rattle.duct_system.specs.Kinds.{kind_of};

    ghost from_gives = { λ error fault. fault.kind ≡ kind_of (error_kind error) };

    fn from(error: io::Error) -> Fault {
        Fault::new(match error.kind() {
            ErrorKind::NotFound => Kind::NotFound,
            ErrorKind::PermissionDenied => Kind::PermissionDenied,
            ErrorKind::BrokenPipe => Kind::BrokenPipe,
            ErrorKind::WriteZero => Kind::WriteZero,
            ErrorKind::InvalidInput => Kind::InvalidInput,
            ErrorKind::Unsupported => Kind::Unsupported,
            ErrorKind::OutOfMemory => Kind::OutOfMemory,
            _ => Kind::Other,
        })
    }
}

/// The kind with the same name.
impl From<Kind> for ErrorKind {
    ghost use Rattle.std.specs.Prelude.{◌≡◌};
    ghost use Rattle.duct_system.specs.Kinds.{name_of};

    ghost from_gives = { λ kind named. named ≡ name_of kind };

    fn from(kind: Kind) -> ErrorKind {
        match kind {
            Kind::NotFound => ErrorKind::NotFound,
            Kind::PermissionDenied => ErrorKind::PermissionDenied,
            Kind::BrokenPipe => ErrorKind::BrokenPipe,
            Kind::WriteZero => ErrorKind::WriteZero,
            Kind::InvalidInput => ErrorKind::InvalidInput,
            Kind::Unsupported => ErrorKind::Unsupported,
            Kind::OutOfMemory => ErrorKind::OutOfMemory,
            Kind::Other => ErrorKind::Other,
        }
    }
}
