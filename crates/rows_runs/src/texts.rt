//! Texts for the results of calls.
use duct::{Error, Output, ReaderHandle, System};
use duct_tasks::{Finished, Late, TaskEnd, Until};
use rows_table::{Bytes, LONG};
use std::alloc::{AllocError, Global};
use std::io::Read;
use std::sync::{Arc, Wait};

/// Adds the text of an error.
pub fn push_error(text: &mut String, error: &Error) -> Result<(), AllocError> {
    write!(text, "{error}. ")
}

/// Adds the result of a poll: nothing, a status with what was captured, or the text of an error.
pub fn push_polled(
    text: &mut String,
    polled: &Result<Option<Arc<Output>>, Error>,
) -> Result<(), AllocError> {
    match polled {
        Ok(None) => text.push_str("nothing. "),
        Ok(Some(output)) => push_output(text, output),
        Err(error) => push_error(text, error),
    }
}

/// Adds that an order was obeyed, or the text of its error.
pub fn push_done(text: &mut String, answer: &Result<(), Error>) -> Result<(), AllocError> {
    match answer {
        Ok(()) => text.push_str("done. "),
        Err(error) => push_error(text, error),
    }
}

/// Adds the result of a run: a status with what was captured, how it was late, or the text of an
/// error.
pub fn push_run(
    text: &mut String,
    ran: &Result<Until<Output, Late>, Error>,
) -> Result<(), AllocError> {
    match ran {
        Ok(Until::Done(output)) => push_output(text, output),
        Ok(Until::Late(late)) => push_late(text, late),
        Err(error) => push_error(text, error),
    }
}

/// Adds what came of a task: its status with what it wrote, how it was late, or why it failed.
pub fn push_finished(text: &mut String, finished: &Finished) -> Result<(), AllocError> {
    match &finished.end {
        TaskEnd::Late(late) => push_late(text, late),
        TaskEnd::Ended(Ok(output)) if !finished.has_failed() => {
            let out = Bytes(finished.stdout.as_slice());
            let err = Bytes(finished.stderr.as_slice());
            write!(text, "{:?} out={out} err={err}. ", output.status)
        }
        TaskEnd::Refused(_) | TaskEnd::Ended(_) => write!(text, "{finished}. "),
    }
}

/// Adds a text that was read, in quotes, or of a long one its length, or the text of an error.
pub fn push_read(text: &mut String, read: &Result<String, Error>) -> Result<(), AllocError> {
    match read {
        Ok(read) if read.len() > LONG => write!(text, "{}. ", Bytes(read.as_bytes())),
        Ok(read) => write!(text, "{read:?}. "),
        Err(error) => push_error(text, error),
    }
}

/// Adds how an expression ended that was late, and what its kill returned.
fn push_late(text: &mut String, late: &Late) -> Result<(), AllocError> {
    text.push_str("late. ")?;
    match &late.ended {
        Some(Ok(output)) => push_output(text, output)?,
        Some(Err(error)) => push_error(text, error)?,
        None => text.push_str("not ended. ")?,
    }
    push_done(text, &late.killed)
}

/// Adds a status with what was captured.
pub fn push_output(text: &mut String, output: &Output) -> Result<(), AllocError> {
    let out = Bytes(output.stdout.as_slice());
    let err = Bytes(output.stderr.as_slice());
    write!(text, "{:?} out={out} err={err}. ", output.status)
}

/// Reads to the end, and adds what was read, or the kind of the error.
pub fn push_all<S: System, R: Wait>(
    text: &mut String,
    alloc: Global,
    mut handle: &ReaderHandle<S, R>,
) -> Result<(), AllocError> {
    let mut bytes = Vec::new(alloc);
    match handle.read_to_end(&mut bytes) {
        Ok(_) => write!(text, "{}. ", Bytes(bytes.as_slice())),
        Err(error) => write!(text, "{:?}. ", error.kind()),
    }
}
