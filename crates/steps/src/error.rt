//! Why steps can't be read, or what became of them can't be told.
ghost use Rattle.std.specs.Prelude.{◌≡◌, ◌⊎◌};

use duct_replay::LineRefusal;
use duct_words::{LineError, ShellTextError};
use std::alloc::AllocError;
use std::io::{self, ErrorKind};
use thiserror::Error;

/// Why steps can't be read, or what became of them can't be told. Lines are counted from 1.
#[derive(Debug, Drop, Error)]
pub enum StepsError {
    #[error("the file can't be read: {0}")]
    File(io::Error),
    #[error("line {line}: not UTF-8")]
    NotUtf8 { line: usize },
    #[error("line {line}: no name without a slash before a colon")]
    NoName { line: usize },
    #[error("line {line}: a name for the second time")]
    Twice { line: usize },
    #[error("line {line}: a name too long for the file of a recording")]
    LongName { line: usize },
    #[error("line {line}: {error}")]
    Command { line: usize, error: LineError },
    #[error("no steps")]
    NoSteps,
    #[error("no such step")]
    NoSuchStep,
    #[error("--over takes words alone")]
    Over,
    #[error("{0}")]
    Script(ShellTextError),
    /// The file of a recording can't be read.
    #[error("the recording can't be read: {0}")]
    Unread(io::Error),
    /// A line of a recording can't be read.
    #[error("the recording can't be read: {0}")]
    Recording(LineRefusal),
    #[error("the step differs from the recorded one at entry {0}")]
    Differs(usize),
    #[error("a recording can't be written: {0}")]
    Unkept(io::Error),
    #[error("the output can't be written: {0}")]
    Unwritten(#[from] io::Error),
    #[error("no clock: {0}")]
    Clock(io::Error),
    #[error("out of memory")]
    Memory(#[from(alloc)] AllocError),
}

impl StepsError {
    /// Returns the exit status of the program: 2 where its words or files are wrong, 3 where memory
    /// runs out or not all could be told.
    pub fn status(&self) -> u8
        ensures { (result ≡ 2) ⊎ (result ≡ 3) }
    {
        match self {
            StepsError::File(error) | StepsError::Unread(error) => match error.kind() {
                ErrorKind::OutOfMemory => 3,
                _ => 2,
            },
            StepsError::Differs(_) | StepsError::Unkept(_) | StepsError::Unwritten(_) => 3,
            StepsError::Clock(_) | StepsError::Memory(_) => 3,
            _ => 2,
        }
    }
}
