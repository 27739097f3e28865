//! Why a line of a table stops its row.
use duct_base::error;
use duct_base::system::{Fault, Kind};
use std::alloc::AllocError;
use std::io;
use std::num::ParseIntError;
use thiserror::Error;

/// Why a line stops its row.
#[derive(Debug, Drop, Error)]
pub enum TableError {
    /// An error of the library.
    #[error("{0}")]
    Error(#[from] error::Error),
    /// A fault of a system.
    #[error("system: {:?}", .0.kind)]
    System(#[from] Fault),
    /// An allocation failed.
    #[error("out of memory")]
    Memory(#[from(alloc)] AllocError),
    /// An error of the test's own files and streams.
    #[error("{:?}", .0.kind())]
    Io(#[from] io::Error),
    /// A text that is not a number.
    #[error("no number")]
    Number(#[from] ParseIntError),
    /// An unknown word, or a condition that does not hold.
    #[error("{0}")]
    Text(#[from] &'static str),
}

/// Whether an error is an allocation failure of the library, of the system or of a hook.
pub fn is_memory(error: &error::Error) -> bool {
    match error {
        error::Error::Memory => true,
        error::Error::System(fault) | error::Error::Hook(fault) => fault.kind == Kind::OutOfMemory,
        _ => false,
    }
}

impl TableError {
    /// Whether it is an allocation failure.
    pub fn is_memory(&self) -> bool {
        match self {
            TableError::Error(error) => is_memory(error),
            TableError::System(fault) => fault.kind == Kind::OutOfMemory,
            TableError::Memory(_) => true,
            TableError::Io(error) => error.kind() == io::ErrorKind::OutOfMemory,
            _ => false,
        }
    }
}
