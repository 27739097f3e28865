//! What a child reads or writes: a descriptor with its number.
ghost use Rattle.std.specs.Prelude.{◌≡◌};

use duct_base::system::Numbered;
use std::marker::Model;
use std::os::fd::OwnedFd;

/// An end: a descriptor that nothing else owns, with the number that the host gave it. Dropping it
/// closes it.
#[derive(Debug, Drop)]
pub struct End {
    number: u64,
    fd: OwnedFd,
}

/// What contracts see of an end is its number.
impl Model for End {
    ghost use Rattle.std.specs.Prelude.{ℕ};

    ghost Value = { ℕ };

    ghost view = { λ e. e.number };
}

impl End {
    /// The end of a number and a descriptor.
    pub(crate) fn new(number: u64, fd: OwnedFd) -> End
        ensures { result ≡ number }
    {
        End { number, fd }
    }

    /// Borrows the descriptor.
    pub(crate) fn descriptor(&self) -> &OwnedFd {
        &self.fd
    }

    /// Returns the descriptor, which the caller then owns.
    pub(crate) fn into_descriptor(self) -> OwnedFd {
        self.fd
    }
}

impl Numbered for End {
    ghost number_of = { λ e. e };

    fn number(&self) -> u64 {
        self.number
    }
}
