//! Why arguments are no valid line.
ghost use Rattle.std.specs.Prelude.{◌≡◌, Some};
ghost use Rattle.duct_program.specs.declared.usage.Usage.TheVariants.{Memory};
ghost use Rattle.duct_program.specs.Answered.{usage_text};

use std::alloc::{AllocError, AllocFailed};
use std::{error, fmt};

/// Why arguments are no valid line. The first error, from left to right, is named.
#[derive(Clone, Copy, Debug, Drop, PartialEq, Eq)]
pub enum Usage {
    /// A command has no words. It is found where the command ends: at its `|`, or at the end.
    EmptyCommand,
    /// Nothing follows a `--stdin`.
    MissingText,
    /// No path follows a `<`, `>` or `2>`.
    MissingPath,
    /// An allocation failed.
    Memory,
}

impl fmt::Display for Usage {
    ghost output = { λ usage. Some (usage_text usage) };

    fn fmt<W: fmt::Write>(&self, f: &mut fmt::Formatter<W>) -> fmt::Result {
        f.write_str(match self {
            Usage::EmptyCommand => "empty command",
            Usage::MissingText => "missing text",
            Usage::MissingPath => "missing path",
            Usage::Memory => "out of memory",
        })
    }
}

impl error::Error for Usage {}

impl From<AllocError> for Usage {
    ghost from_gives = { λ _ usage. usage ≡ Memory };

    fn from(_error: AllocError) -> Usage {
        Usage::Memory
    }
}

impl<T: Drop> From<AllocFailed<T>> for Usage {
    ghost from_gives = { λ _ usage. usage ≡ Memory };

    fn from(_error: AllocFailed<T>) -> Usage {
        Usage::Memory
    }
}
