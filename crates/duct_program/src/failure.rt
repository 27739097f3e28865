//! Why the program has no text to print.
ghost use Rattle.std.specs.Prelude.{◌≡◌};
ghost use Rattle.duct_program.specs.Answered.{status_of, failure_text};

use crate::usage::Usage;
use duct::Error;
use std::{error, fmt};

/// Why the program has no text to print.
#[derive(Debug, Drop)]
pub enum Failure {
    /// The arguments are no valid line, or an allocation failed while they were read: nothing was
    /// started.
    Usage(Usage),
    /// The expression failed, at its start or later.
    Error(Error),
}

impl Failure {
    /// Returns the exit status of the program: 2 where its arguments are wrong, otherwise 1.
    pub fn status(&self) -> u8
        ensures { result ≡ status_of self.now }
    {
        match self {
            Failure::Usage(Usage::Memory) | Failure::Error(_) => 1,
            Failure::Usage(_) => 2,
        }
    }
}

impl fmt::Display for Failure {
    ghost output = { failure_text };

    fn fmt<W: fmt::Write>(&self, f: &mut fmt::Formatter<W>) -> fmt::Result {
        match self {
            Failure::Usage(usage) => write!(f, "{usage}"),
            Failure::Error(error) => write!(f, "{error}"),
        }
    }
}

impl error::Error for Failure {}
