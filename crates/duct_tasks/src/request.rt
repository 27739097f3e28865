//! The request that made a start fail, and its text.
ghost use Rattle.std.specs.Prelude.{ℕ, ◌≡◌, map, Some, IfOk, IfSome};
ghost use Rattle.std.specs.Option.{option_map};
ghost use Rattle.duct_system.specs.EntryView.{entry_view};
ghost use Rattle.duct_system.specs.Journal.{JournalView};
ghost use Rattle.duct_system.specs.Trace.{segment};
ghost use Rattle.duct_system.specs.declared.error.Error.{Error};
ghost use Rattle.duct_start.specs.Plan.{Plan};
ghost use Rattle.duct_start.specs.Start.{StartRefused};
ghost use Rattle.duct_start.specs.TreeView.{TreeView};
ghost use Rattle.duct_tasks.specs.FailedRequest.{Explains, IsTextOf, Names, failed_request, last_asked};

use duct_base::text::EntryText;
use duct_system::error::Error;
use duct_system::spec::Hook;
use duct_system::system::{Entry, System};
use std::alloc::{AllocError, Global};

/// Returns the request that made a start fail: the last of these entries that is no close, if it
/// has a fault. It doesn't block and allocates nothing.
///
/// It is meant for the entries that the start added, which are those of the journal where that was
/// cleared before. Of a start that succeeded it returns `None`.
pub fn failed_request(entries: &[Entry]) -> Option<&Entry>
    ensures { option_map (λ entry. entry_view entry.now) result
        ≡ failed_request (map entry_view entries.now) }
{
    let last = last_asked(entries)?;
    last.fault()?;
    Some(last)
}

/// The law of failed starts with ends of type `E` and hooks of type `H`. It does nothing: its
/// contract is the law. Where the entries that the start added have a failed request, its error is
/// `Error::System` of that request's fault. Where they have none, an allocation or a hook failed.
pub fn failed_starts<E, H: Hook>()
    ensures { (number_of : E → ℕ) (tree : TreeView E H) (plan : Plan E H) (old new : JournalView)
        (error : Error) → StartRefused H.allows H.refuses number_of tree plan old new error
        → Explains (failed_request (segment old.entries new.entries)) error }
{}

// Returns the last entry that is no close.
fn last_asked(entries: &[Entry]) -> Option<&Entry>
    ensures { option_map (λ entry. entry_view entry.now) result
        ≡ last_asked (map entry_view entries.now) }
{
    let mut rest = entries;
    while let Some((last, earlier)) = rest.split_last() {
        if !last.is_close() {
            return Some(last);
        }
        rest = earlier;
    }
    None
}

/// Returns the text of the request that made a start fail, if `failed_request` finds one in these
/// entries. It doesn't block. Fails only at an allocation failure.
pub fn request_text(alloc: Global, entries: &[Entry]) -> Result<Option<String>, AllocError>
    ensures { IfOk result (IsTextOf (failed_request (map entry_view entries.now))) }
{
    match failed_request(entries) {
        Some(request) => Ok(Some(format!(in alloc; "{}", EntryText(request))?)),
        None => Ok(None),
    }
}

/// Returns the text of the request that made a start fail, if `failed_request` finds one in these
/// entries and there is memory for it.
pub fn request_of(alloc: Global, added: &[Entry]) -> Option<String>
    ensures { Names (map entry_view added.now) result }
{
    request_text(alloc, added).unwrap_or(None)
}

/// Returns why a call failed: the text of the failed request of the journal, if there is one, and
/// else that of the error. Clear the journal before the call, so that no earlier request is told.
/// It doesn't block. Fails only at an allocation failure.
///
/// Example: `reason(alloc, &host, &error)?`, which is `spawn of "foo" in "/in": NotFound`
pub fn reason<S: System>(alloc: Global, system: &S, error: &Error) -> Result<String, AllocError>
    ensures { IfOk result (λ text. IfSome (failed_request (S.journal_view system.now).entries)
        (λ request. IsTextOf (Some request) (Some text))) }
{
    match request_text(alloc, system.journal())? {
        Some(text) => Ok(text),
        None => format!(in alloc; "{error}"),
    }
}
