//! The actions that a start runs.
use duct_base::spec::Port;
use duct_base::system::Side;
use std::alloc::AllocError;
use std::sync::Arc;

/// The ports of the three streams of a command. The ends of the `Given` ports are on the stack,
/// stderr's on top.
#[derive(Clone, Copy)]
pub struct Ports {
    pub input: Port,
    pub output: Port,
    pub error: Port,
}

/// One action of a start. An end that it gets is pushed onto the stack of ends, except those of a
/// capture pipe; an end that it gives away is popped.
pub enum Action<'a, E> {
    /// Opens the file at this path for reading.
    OpenRead(&'a str),
    /// Creates or empties the file at this path, and opens it for writing.
    Create(&'a str),
    /// Opens a pipe and pushes both ends, the write end on top.
    Pipe,
    /// Opens a pipe and pushes both ends, the read end on top.
    Input,
    /// Opens the capture pipe of this stream, unless it is open.
    Capture(Side),
    /// Duplicates the end at this depth of the stack, counted from the bottom.
    Duplicate(usize),
    /// Duplicates the write end of the capture pipe of this stream.
    DuplicateCapture(Side),
    /// Duplicates this caller's end.
    DuplicateCallerEnd(&'a E),
    /// Gets one more end of this stream of the parent.
    Parent(Side),
    /// Closes the end on top.
    Close,
    /// Starts the command with these words in the scope of this index. Its ports pop their ends.
    Spawn(usize, &'a Arc<Vec<String>>, Ports),
    /// Starts the worker that writes these bytes to the end on top.
    Feed(&'a Arc<Vec<u8>>),
}

impl<E> Clone for Action<'_, E> {
    fn clone(&self) -> Result<Self, AllocError> {
        Ok(*self)
    }
}

impl<E> Copy for Action<'_, E> {}
