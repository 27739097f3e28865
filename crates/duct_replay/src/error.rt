//! Why a text is no entry of a journal.
ghost use Rattle.std.specs.Prelude.{◌≡◌};
ghost use Rattle.duct_replay.specs.declared.error.Refusal.TheVariants.{Memory};

use std::alloc::{AllocError, AllocFailed};
use thiserror::Error;

/// Why a line is read as no entry. The first reason, from left to right, is named.
#[derive(Clone, Copy, Debug, PartialEq, Eq, Drop, Error)]
pub enum Refusal {
    /// The line is no JSON, or nests deeper than 127.
    #[error("line is no JSON")]
    NotJson,
    /// It is JSON, and no entry is written like that.
    #[error("line is no entry")]
    NotEntry,
    /// It is an entry that was written without the values of its variables.
    #[error("values of variables are hidden")]
    Hidden,
    /// An allocation failed.
    #[error("out of memory")]
    Memory,
}

impl From<AllocError> for Refusal {
    ghost from_gives = { λ _ refusal. refusal ≡ Memory };

    fn from(_error: AllocError) -> Refusal {
        Refusal::Memory
    }
}

impl<T: Drop> From<AllocFailed<T>> for Refusal {
    ghost from_gives = { λ _ refusal. refusal ≡ Memory };

    fn from(_error: AllocFailed<T>) -> Refusal {
        Refusal::Memory
    }
}

/// Why a text is read as no journal: its first line that is read as no entry, and why.
#[derive(Clone, Copy, Debug, PartialEq, Eq, Drop, Error)]
#[error("line {line}: {refusal}")]
pub struct LineRefusal {
    /// The line, counted from 1.
    pub line: usize,
    /// Why it is read as no entry.
    pub refusal: Refusal,
}
