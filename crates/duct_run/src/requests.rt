//! The requests of a run: one function for each action but the spawn, and those that finish the
//! capture pipes.
ghost use Rattle.std.specs.Prelude.{◌≡◌, ◌<◌, ◌≤◌, ◌+◌, length, None, Ok, OnOk, IfErr, IsSome, is_some, vec_len, vec_capacity};
ghost use Rattle.std.specs.Arc.{arc_value};
ghost use Rattle.duct_status.specs.PerSide.{at_side, with_side};
ghost use Rattle.duct_run.specs.Actions as action;
ghost use Rattle.duct_run.specs.ResourcesView.{open_ends};
ghost use Rattle.duct_run.specs.Requested.{HoldsUnasked, RequestSucceeds, RequestFails, Requested, resources_of};

use crate::resources::{Resources, top};
use duct_base::error::Error;
use duct_base::pool::Place;
use duct_base::spec::Hook;
use duct_base::system::{Side, System};
use duct_system::views::Viewed;
use std::sync::Arc;

// Opens a file for reading.
pub(crate) fn open_read<S: System, H: Hook>(
    sys: &mut S,
    path: &str,
    held: &mut Resources<S::End, Place<S::Child>, S::Feed, S::Drain>,
) -> Result<(), Error>
    requires reserved { vec_len held.old.stack + 1 ≤ vec_capacity held.old.stack }
    ensures { Requested ⟦<S as Viewed>⟧.views H.allows (action.open_read path.now) result sys.old
        sys.new held.old held.new }
{
    let end = sys.open_read(path)?;
    held.stack.push_reserved(end);
    Ok(())
}

// Creates or empties a file and opens it for writing.
pub(crate) fn create<S: System, H: Hook>(
    sys: &mut S,
    path: &str,
    held: &mut Resources<S::End, Place<S::Child>, S::Feed, S::Drain>,
) -> Result<(), Error>
    requires reserved { vec_len held.old.stack + 1 ≤ vec_capacity held.old.stack }
    ensures { Requested ⟦<S as Viewed>⟧.views H.allows (action.create path.now)
        result sys.old sys.new held.old held.new }
{
    let end = sys.create(path)?;
    held.stack.push_reserved(end);
    Ok(())
}

// Opens a pipe and pushes both ends, the write end on top.
pub(crate) fn open_pipe<S: System, H: Hook>(
    sys: &mut S,
    held: &mut Resources<S::End, Place<S::Child>, S::Feed, S::Drain>,
) -> Result<(), Error>
    requires reserved { vec_len held.old.stack + 2 ≤ vec_capacity held.old.stack }
    ensures { Requested ⟦<S as Viewed>⟧.views H.allows (action.pipe) result sys.old sys.new held.old
        held.new }
{
    let (reader, writer) = sys.pipe()?;
    held.stack.push_reserved(reader);
    held.stack.push_reserved(writer);
    Ok(())
}

// Opens a pipe and pushes both ends, the read end on top.
pub(crate) fn open_input<S: System, H: Hook>(
    sys: &mut S,
    held: &mut Resources<S::End, Place<S::Child>, S::Feed, S::Drain>,
) -> Result<(), Error>
    requires reserved { vec_len held.old.stack + 2 ≤ vec_capacity held.old.stack }
    ensures { Requested ⟦<S as Viewed>⟧.views H.allows (action.input)
        result sys.old sys.new held.old held.new }
{
    let (reader, writer) = sys.pipe()?;
    held.stack.push_reserved(writer);
    held.stack.push_reserved(reader);
    Ok(())
}

// Duplicates the end at a depth of the stack.
pub(crate) fn duplicate<S: System, H: Hook>(
    sys: &mut S,
    depth: usize,
    held: &mut Resources<S::End, Place<S::Child>, S::Feed, S::Drain>,
) -> Result<(), Error>
    requires reserved { vec_len held.old.stack + 1 ≤ vec_capacity held.old.stack }
    requires within { depth < length held.old.stack.items }
    ensures { Requested ⟦<S as Viewed>⟧.views H.allows (action.duplicate depth)
        result sys.old sys.new held.old held.new }
{
    let end = sys.duplicate(&held.stack[depth])?;
    held.stack.push_reserved(end);
    Ok(())
}

// Duplicates a caller's end.
pub(crate) fn duplicate_caller_end<S: System, H: Hook>(
    sys: &mut S,
    end: &S::End,
    held: &mut Resources<S::End, Place<S::Child>, S::Feed, S::Drain>,
) -> Result<(), Error>
    requires reserved { vec_len held.old.stack + 1 ≤ vec_capacity held.old.stack }
    ensures { Requested ⟦<S as Viewed>⟧.views H.allows (action.duplicate_caller_end end.now) result
        sys.old sys.new held.old held.new }
{
    let made = sys.duplicate(end)?;
    held.stack.push_reserved(made);
    Ok(())
}

// Gets one more end of one of the parent's own streams.
pub(crate) fn parent<S: System, H: Hook>(
    sys: &mut S,
    side: Side,
    held: &mut Resources<S::End, Place<S::Child>, S::Feed, S::Drain>,
) -> Result<(), Error>
    requires reserved { vec_len held.old.stack + 1 ≤ vec_capacity held.old.stack }
    ensures { Requested ⟦<S as Viewed>⟧.views H.allows (action.parent side) result sys.old sys.new
        held.old held.new }
{
    let end = sys.parent(side)?;
    held.stack.push_reserved(end);
    Ok(())
}

// Closes the end on top.
pub(crate) fn close<S: System, H: Hook>(
    sys: &mut S,
    held: &mut Resources<S::End, Place<S::Child>, S::Feed, S::Drain>,
)
    requires full { 1 ≤ vec_len held.old.stack }
    requires room { 0 < (S.journal_view sys.old).room }
    ensures { Requested ⟦<S as Viewed>⟧.views H.allows (action.close)
        (Ok tt) sys.old sys.new held.old held.new }
{
    let end = top(&mut held.stack);
    sys.close(end);
}

// Opens the capture pipe of a stream, unless it is open.
pub(crate) fn capture<S: System, H: Hook>(
    sys: &mut S,
    side: Side,
    held: &mut Resources<S::End, Place<S::Child>, S::Feed, S::Drain>,
) -> Result<(), Error>
    ensures { Requested ⟦<S as Viewed>⟧.views H.allows (action.capture side) result sys.old sys.new
        held.old held.new }
{
    match held.pipes.of(side) {
        Some(_) => Ok(()),
        None => {
            let (reader, writer) = sys.pipe()?;
            *held.pipes.of_mut(side) = Some((reader, writer));
            Ok(())
        }
    }
}

// Duplicates the write end of the capture pipe of a stream.
pub(crate) fn duplicate_capture<S: System, H: Hook>(
    sys: &mut S,
    side: Side,
    held: &mut Resources<S::End, Place<S::Child>, S::Feed, S::Drain>,
) -> Result<(), Error>
    requires reserved { vec_len held.old.stack + 1 ≤ vec_capacity held.old.stack }
    requires open { IsSome (at_side held.old.pipes side) }
    ensures { Requested ⟦<S as Viewed>⟧.views H.allows (action.duplicate_capture side)
        result sys.old sys.new held.old held.new }
{
    let end = match held.pipes.of(side) {
        Some((_, writer)) => sys.duplicate(writer)?,
        None => unreachable!(),
    };
    held.stack.push_reserved(end);
    Ok(())
}

// Starts the worker that writes the bytes to the end on top.
pub(crate) fn feed<S: System, H: Hook>(
    sys: &mut S,
    bytes: &Arc<Vec<u8>>,
    held: &mut Resources<S::End, Place<S::Child>, S::Feed, S::Drain>,
) -> Result<(), Error>
    requires full { 1 ≤ vec_len held.old.stack }
    requires room { 0 < (S.journal_view sys.old).room }
    requires reserved { vec_len held.old.feeds + 1 ≤ vec_capacity held.old.feeds }
    ensures { Requested ⟦<S as Viewed>⟧.views H.allows (action.feed (arc_value bytes.now).items)
        result sys.old sys.new held.old held.new }
{
    let bytes = Arc::try_clone(bytes)?;
    let end = top(&mut held.stack);
    let job = sys.start_feed(end, bytes)?;
    held.feeds.push_reserved(job);
    Ok(())
}

// If the capture pipe of a stream is open, closes its write end and starts the worker of its read
// end.
pub(crate) fn finish<S: System, H: Hook>(
    sys: &mut S,
    side: Side,
    held: &mut Resources<S::End, Place<S::Child>, S::Feed, S::Drain>,
) -> Result<(), Error>
    requires room { length (open_ends (resources_of ⟦<S as Viewed>⟧.views held.old))
        ≤ (S.journal_view sys.old).room }
    requires none { at_side held.old.drains side ≡ None }
    requires last { held.old.drains.err ≡ None }
    ensures ok { OnOk result (RequestSucceeds ⟦<S as Viewed>⟧.views H.allows (action.finish side)
        sys.old sys.new held.old held.new) }
    ensures err { IfErr result (RequestFails ⟦<S as Viewed>⟧.views H.allows (action.finish side)
        sys.old sys.new held.old held.new) }
    ensures new { HoldsUnasked ⟦<S as Viewed>⟧.views held.old
        → HoldsUnasked ⟦<S as Viewed>⟧.views held.new }
    ensures drains { held.new.drains
        ≡ with_side held.old.drains side (at_side held.new.drains side) }
    ensures worker { OnOk result (is_some (at_side held.new.drains side)
        ≡ is_some (at_side held.old.pipes side)) }
{
    let Some((reader, writer)) = held.pipes.of_mut(side).take() else {
        return Ok(());
    };
    sys.close(writer);
    let job = sys.start_drain(reader)?;
    *held.drains.of_mut(side) = Some(job);
    Ok(())
}
