//! Commands, pipes between them and modifiers around them: a description of child processes, their
//! start, and how they ended.
//!
//! ```
//! let hello: Expression<End> = cmd!(in alloc; "echo", "hi")?;
//! let text = hello.read(&rt, &mut system, &mut pool)?; // hi
//! let handle = hello.start(&mut system, &mut pool)?; // it runs in the background
//! let output = handle.into_output(&rt, &mut pool)?; // waits until it has ended
//! ```
#![tactic(auto)]

mod expression;
mod run;
mod start;

// An expression: a command, a pipe, or a modifier around an expression.
pub use duct_base::exe::{IntoExecutablePath, asks_canonical};
pub use expression::{Expression, cmd};

/// The tree of an expression, for crates that read it.
pub mod tree {
    pub use duct_base::names::EnvNameString;
    pub use duct_tree::tree::{Modifier, Node};
}

// What changes a command before it is started.
pub use duct_base::spec::{CommandSpec, Hook, HookBox, Port, Stream};

// What a start borrows: the operating system, and a pool for children that are given up.
pub use duct_base::pool::{Place, Pool};
pub use duct_base::system::{
    Child, Clock, Entry, Fault, Job, Kind, Numbered, Order, Said, Side, Stdio, System, Writers,
};

// What runs, how it ended, and why a call failed.
pub use duct_base::error::Error;
pub use duct_base::system::{ExitStatus, Output};
pub use duct_handle::handle::{Handle, Seen};
pub use duct_handle::reader::ReaderHandle;
pub use duct_running::running::Running;

/// What Unix adds: signals to the commands of a handle.
pub mod unix {
    pub use duct_handle::unix::HandleExt;
}

/// What a worker does, and workers on threads of their own.
pub mod worker {
    pub use duct_base::shared::Shared;
    pub use duct_base::spawn::{spawn_drain, spawn_feed};
    pub use duct_base::transfer::{drain, feed};
    pub use duct_base::worker::Worker;
}

/// How an expression ended, by what its commands and workers reported.
pub mod status {
    pub use duct_base::status::{Core, Drains, Event, Reply, Shape, Word};
}

/// A command: `cmd!(in alloc; program, arg, ..)` is `cmd(alloc, program, &[arg, ..])`. A trailing
/// comma is allowed.
///
/// Example: `cmd!(in alloc; "ls", "-l")?`
#[macro_export]
macro_rules! cmd {
    (in $alloc:expr; $program:expr $(, $arg:expr)* $(,)?) => {
        $crate::cmd($alloc, $program, &[$($arg),*])
    };
}
