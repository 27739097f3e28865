//! The program: the expression that its arguments mean, and what it does.
use duct::{Expression, System};
use duct_program::{line, perform};
use duct_script::ScriptHook;
use rows_table::{Bytes, arguments};
use std::alloc::{AllocError, Global};
use std::sync::Wait;

/// Adds the debug text of the expression that these arguments mean, or the text of the error if
/// they mean none. Fails on an allocation failure.
pub fn push_line(text: &mut String, alloc: Global, args: &str) -> Result<(), AllocError> {
    let args = arguments(alloc, args)?;
    let made: Result<Expression<u64, ScriptHook>, _> = line(alloc, args.as_slice());
    match made {
        Ok(expression) => write!(text, "{expression:?}"),
        Err(usage) => write!(text, "{usage:?}: {usage}"),
    }
}

/// The greatest number of bytes that the program writes to a stream in a row.
const ROOM: usize = 4096;

/// Does what the program does with these arguments, and adds its status and what it wrote. Blocks
/// until it is done. Fails on an allocation failure.
pub fn push_performed<S: System>(
    text: &mut String,
    rt: &impl Wait,
    alloc: Global,
    system: &mut S,
    args: &str,
) -> Result<(), AllocError> {
    let args = arguments(alloc, args)?;
    let mut out = Vec::with_capacity(alloc, ROOM)?;
    let mut err = Vec::with_capacity(alloc, ROOM)?;
    let status = perform(rt, alloc, system, args.as_slice(), &mut out, &mut err);
    let (out, err) = (Bytes(out.as_slice()), Bytes(err.as_slice()));
    write!(text, "{status} out={out} err={err}")
}
