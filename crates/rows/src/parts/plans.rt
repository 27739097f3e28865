//! What the program `plan` writes, and drawings of plans.
use crate::parts::Parts;
use duct::Error;
use duct_plan::{PlanDot, plan, print};
use rows_table::{TableError, arguments, written};

/// Adds the drawing of what a start of the expression of a row requests.
pub fn push_drawn(text: &mut String, row: &Parts) -> Result<(), TableError> {
    let tree = written(row.alloc, row.text("expression"))?;
    Ok(write!(text, "{}", PlanDot(&plan(row.alloc, &tree)?))?)
}

/// The greatest number of bytes that the program `plan` writes in a row.
const ROOM: usize = 4096;

/// Adds the status of the program `plan` for the arguments of a row, and what it writes.
pub fn push_planned(text: &mut String, row: &Parts) -> Result<(), TableError> {
    let args = arguments(row.alloc, row.text("arguments"))?;
    let mut out = Vec::with_capacity(row.alloc, ROOM)?;
    let mut err = Vec::with_capacity(row.alloc, ROOM)?;
    let status = print(row.alloc, args.as_slice(), &mut out, &mut err);
    let out = str::from_utf8(out.as_slice()).unwrap_or("?");
    let err = str::from_utf8(err.as_slice()).unwrap_or("?");
    if err.contains("out of memory") {
        return Err(TableError::Error(Error::Memory));
    }
    Ok(write!(text, "{status} out={out} err={err}")?)
}
