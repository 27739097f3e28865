//! Why a text has no tokens or means no expression, and why an expression has no text.
ghost use Rattle.std.specs.Prelude.{◌≡◌};
ghost use Rattle.duct_words.specs.declared.error.ShellTextError.TheVariants as shells;
ghost use Rattle.duct_words.specs.declared.error.SplitError.TheVariants as splits;
ghost use Rattle.duct_words.specs.declared.error.VariablesError.TheVariants as pairs;

use duct_program::Usage;
use std::alloc::{AllocError, AllocFailed};
use thiserror::Error;

/// Why a text has no tokens. The first reason, from left to right, is named, with its place: the
/// index of a byte.
#[derive(Clone, Copy, Debug, PartialEq, Eq, Drop, Error)]
pub enum SplitError {
    /// A shell would expand or obey this character where it stands, and no token says that.
    #[error("unquoted {character:?} at byte {place}")]
    Unquoted { character: char, place: usize },
    /// The quote that was opened here isn't closed.
    #[error("unclosed quote at byte {place}")]
    UnclosedQuote { place: usize },
    /// Nothing follows the backslash that stands here.
    #[error("nothing after the backslash at byte {place}")]
    LastBackslash { place: usize },
    /// An allocation failed.
    #[error("out of memory")]
    Memory,
}

impl From<AllocError> for SplitError {
    ghost from_gives = { λ _ error. error ≡ splits.Memory };

    fn from(_error: AllocError) -> SplitError {
        SplitError::Memory
    }
}

impl<T: Drop> From<AllocFailed<T>> for SplitError {
    ghost from_gives = { λ _ error. error ≡ splits.Memory };

    fn from(_error: AllocFailed<T>) -> SplitError {
        SplitError::Memory
    }
}

/// Why a text means no expression.
#[derive(Clone, Copy, Debug, PartialEq, Eq, Drop, Error)]
pub enum LineError {
    /// The text has no tokens, or an allocation failed.
    #[error("{0}")]
    Split(SplitError),
    /// The text has tokens, but a command has no words, or no path follows a `<`, `>` or `2>`; or
    /// an allocation failed. The first error, from left to right, is named.
    #[error("{0}")]
    Usage(Usage),
}

/// Why a text has no variables. The first reason, from top to bottom, is named, with the number of
/// its line, from 1 on.
#[derive(Clone, Copy, Debug, PartialEq, Eq, Drop, Error)]
pub enum VariablesError {
    /// The line has no words. The place is the index of a byte of the line.
    #[error("line {line}: {error}")]
    Split { line: usize, error: SplitError },
    /// The line is not one word with a `=`.
    #[error("line {line}: no name=value")]
    NoPair { line: usize },
    /// What stands before the first `=` is no name, or is quoted with no `export` before it.
    #[error("line {line}: no name before the =")]
    Name { line: usize },
    /// An earlier line has this name, in this spelling or another one.
    #[error("line {line}: a name for the second time")]
    Twice { line: usize },
    /// An allocation failed.
    #[error("out of memory")]
    Memory,
}

impl From<AllocError> for VariablesError {
    ghost from_gives = { λ _ error. error ≡ pairs.Memory };

    fn from(_error: AllocError) -> VariablesError {
        VariablesError::Memory
    }
}

impl<T: Drop> From<AllocFailed<T>> for VariablesError {
    ghost from_gives = { λ _ error. error ≡ pairs.Memory };

    fn from(_error: AllocFailed<T>) -> VariablesError {
        VariablesError::Memory
    }
}

/// Why an expression has no text. The first reason, from left to right, is named: a node comes
/// before those inside it.
#[derive(Clone, Copy, Debug, PartialEq, Eq, Drop, Error)]
pub enum ShellTextError {
    /// Bytes for stdin.
    #[error("bytes for stdin have no text")]
    Bytes,
    /// A stream that goes to an end of the caller.
    #[error("an end of the caller has no text")]
    End,
    /// A stream that is captured.
    #[error("a capture has no text")]
    Capture,
    /// A variable that is removed, or all that are replaced.
    #[error("a removal of variables has no text")]
    Removal,
    /// A hook.
    #[error("a hook has no text")]
    Hook,
    /// A folder whose path is empty.
    #[error("an empty path of a folder has no text")]
    Folder,
    /// A variable whose name is empty, begins with a `-` or has a `=`.
    #[error("a variable's name has no text")]
    Name,
    /// A program whose name begins with a `-` or has a `=`.
    #[error("a program's name has no text")]
    Program,
    /// A program in a folder of its own whose path is relative: it is relative to the folder of the
    /// parent.
    #[error("a relative path of a program in another folder has no text")]
    RelativeProgram,
    /// A NUL in a word, a path, or a variable's name or value.
    #[error("a NUL has no text")]
    Nul,
    /// An allocation failed.
    #[error("out of memory")]
    Memory,
}

impl From<AllocError> for ShellTextError {
    ghost from_gives = { λ _ error. error ≡ shells.Memory };

    fn from(_error: AllocError) -> ShellTextError {
        ShellTextError::Memory
    }
}
