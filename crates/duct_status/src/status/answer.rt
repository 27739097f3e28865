//! The answer of an expression that has ended.
ghost use Rattle.std.specs.Prelude.{◌≡◌, IfOk, map, string_bytes};
ghost use Rattle.std.specs.Arc.{arc_value};
ghost use Rattle.duct_status.specs.Message.{IsMessage};

use crate::status::message::message;
use duct_system::system::{ExitStatus, Output};
use std::alloc::{AllocError, Global};
use std::sync::Arc;

/// Returns an output with this status and copies of these bytes.
pub(crate) fn answer(
    alloc: Global,
    status: ExitStatus,
    stdout: &[u8],
    stderr: &[u8],
) -> Result<Arc<Output>, AllocError>
    ensures status { IfOk result (λ made. (arc_value made).status ≡ status) }
    ensures stdout { IfOk result (λ made. (arc_value made).stdout.items ≡ stdout.now) }
    ensures stderr { IfOk result (λ made. (arc_value made).stderr.items ≡ stderr.now) }
{
    let stdout = Vec::from_slice(alloc, stdout)?;
    let stderr = Vec::from_slice(alloc, stderr)?;
    let made = Arc::new(
        alloc,
        Output {
            status,
            stdout,
            stderr,
        },
    )?;
    Ok(made)
}

/// Returns the message of a command with these words and this exit status.
pub(crate) fn failure(
    alloc: Global,
    words: &Vec<String>,
    status: ExitStatus,
) -> Result<Arc<String>, AllocError>
    ensures { IfOk result
        (λ made. IsMessage (map string_bytes words.now.items) status
        (string_bytes (arc_value made))) }
{
    let text = message(alloc, words, status)?;
    let made = Arc::new(alloc, text)?;
    Ok(made)
}
