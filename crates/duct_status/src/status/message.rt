//! The message of a failure that is not unchecked.
ghost use Rattle.std.specs.Prelude.{◌≡◌, IfOk, IfSome, map, string_bytes};
ghost use Rattle.duct_status.specs.Message.{printed_message};

use duct_system::system::ExitStatus;
use std::alloc::{AllocError, Global};

/// Returns the message: a command's words and how it ended.
#[tactic(auto, using(crate::proofs::Shown::list_of_map))]
pub(crate) fn message(
    alloc: Global,
    words: &Vec<String>,
    status: ExitStatus,
) -> Result<String, AllocError>
    ensures { IfOk result
        (λ text. IfSome (printed_message (map string_bytes words.now.items) status)
        (λ bytes. string_bytes text ≡ bytes)) }
{
    match status {
        ExitStatus::Code(code) => { format!(in alloc; "command {words:?} exited with code {code}") }
        ExitStatus::Signal(signal) => {
            format!(in alloc; "command {words:?} exited with code <signal {signal}>")
        }
    }
}
