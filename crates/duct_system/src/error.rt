//! The errors of the library.
ghost use Rattle.std.specs.Prelude.{◌≡◌};
ghost use Rattle.duct_system.specs.declared.error.Error.TheVariants.{System, Memory};

use crate::system::Fault;
use std::alloc::{AllocError, AllocFailed};
use std::sync::Arc;
use thiserror::Error;

/// Why a call failed.
#[derive(Debug, PartialEq, Eq, Drop, Error)]
pub enum Error {
    /// The system, a child, a worker or the reader returned this fault.
    #[error("system: {:?}", .0.kind)]
    System(Fault),
    /// The winning command failed, and is not unchecked. The text names its words and how it ended.
    #[error("{0}")]
    Checked(Arc<String>),
    /// The bytes that were read are not UTF-8.
    #[error("text is not UTF-8")]
    NotUtf8,
    /// A hook refused the spec with this fault.
    #[error("hook: {:?}", .0.kind)]
    Hook(Fault),
    /// A hook named the end at this place, and there is none.
    #[error("hook end {0} is not there")]
    HookEnd(usize),
    /// The sum of the clock's time and the timeout is too great for a `Duration`.
    #[error("deadline out of range")]
    Deadline,
    /// An allocation failed, an `Arc` can have no further owner, or a count overflowed.
    #[error("out of memory")]
    Memory,
}

impl From<Fault> for Error {
    ghost from_gives = { λ fault e. e ≡ System fault };

    fn from(fault: Fault) -> Error {
        Error::System(fault)
    }
}

impl From<AllocError> for Error {
    ghost from_gives = { λ _ e. e ≡ Memory };

    fn from(_error: AllocError) -> Error {
        Error::Memory
    }
}

impl<T: Drop> From<AllocFailed<T>> for Error {
    ghost from_gives = { λ _ e. e ≡ Memory };

    fn from(_error: AllocFailed<T>) -> Error {
        Error::Memory
    }
}
