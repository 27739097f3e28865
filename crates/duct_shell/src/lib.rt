//! A shell: a system with the pool, the runtime and the allocator that each call over it needs.
//!
//! ```
//! let mut sh = Shell::new(&rt);
//! let text = read!(sh; "echo", "hi")?; // hi
//! run!(sh; "make", "install")?;
//! ```
//!
//! Beside it stand the keys of what it runs in the background, why a call failed (`reason`), and
//! handles in several threads.
//!
//! The calls of a handle are a trait here, with `Sync` above it: a function over `H: SharedHandle`
//! may lend its handle to other threads, and needs no proof. Where it is given a handle of a
//! `Host`, the program owes one line of proof, by a rule set of this crate's `proofs/Sharing`:
//! `search main_handle_sync`; and `search main_running_send` where it sends a `Running` to another
//! thread. What a call may return is a relation of the trait, and a function's own clauses cite it,
//! as in `ensures { IfSome result (λ e. H.may_return handle.now (Err e)) }`. Of a `Handle` it is
//! what the clause of the call of that name says.
#![tactic(auto)]

mod append;
mod captured;
mod chain;
mod failure;
mod jobs;
mod shell;
mod threads;

pub use chain::{Chain, ChainSettings};
pub use failure::{Cause, Failure};
pub use jobs::Job;
pub use shell::Shell;
pub use threads::SharedHandle;

// What a program over a shell needs of the library.
pub use duct::{Clock, Error, ExitStatus, Expression, Handle, Output, ReaderHandle, System};
pub use duct_base::text::{EntryText, RequestText, write_arguments};
pub use duct_tasks::{
    AtFailure, Captured, CommandStatus, FailedRun, Finished, Kept, Late, LateLines, Progress,
    Restarts, Services, TaskEnd, Tasks, Turn, Until, Why, command_statuses, failed_request,
    failed_starts, last_lines, reason, request_text, run_captured,
};

/// A command: `cmd!(sh; program, arg, ..)` is `sh.cmd(program, &[arg, ..])`. A trailing comma is
/// allowed.
///
/// Example: `cmd!(sh; "ls", "-l")?`
#[macro_export]
macro_rules! cmd {
    ($shell:expr; $program:expr $(, $arg:expr)* $(,)?) => {
        $shell.cmd($program, &[$($arg),*])
    };
}

/// What a command prints: `read!(sh; program, arg, ..)` makes the command and reads it, as
/// `Shell::read` does.
///
/// Example: `read!(sh; "git", "rev-parse", "HEAD")?`
#[macro_export]
macro_rules! read {
    ($shell:expr; $program:expr $(, $arg:expr)* $(,)?) => {
        match $shell.cmd($program, &[$($arg),*]) {
            Ok(command) => $shell.read(&command),
            Err(error) => Err($crate::Failure::from(error)),
        }
    };
}

/// Runs a command: `run!(sh; program, arg, ..)` makes the command and runs it, as `Shell::run`
/// does.
///
/// Example: `run!(sh; "make", "install")?`
#[macro_export]
macro_rules! run {
    ($shell:expr; $program:expr $(, $arg:expr)* $(,)?) => {
        match $shell.cmd($program, &[$($arg),*]) {
            Ok(command) => $shell.run(&command),
            Err(error) => Err($crate::Failure::from(error)),
        }
    };
}
