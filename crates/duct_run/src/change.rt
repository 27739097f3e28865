//! Runs the hooks of a command, one after the other.
ghost use Rattle.std.specs.Prelude.{◌≤◌, ◌+◌, ◌∷◌, [], OnOk, IfErr};
ghost use Rattle.duct_run.specs.Requested.{ChangeFails, ChangeSucceeds};
ghost use Rattle.duct_run.specs.Settings.{hooks_of};
ghost use Rattle.duct_run.specs.StreamsView.{many_ends};

use crate::places::{find, missing_place};
use crate::streams::{Streams, redirect};
use duct_base::error::Error;
use duct_base::spec::{CommandSpec, Hook, Stream};
use duct_base::system::System;
use duct_system::views::Viewed;

// Runs one hook on the spec, then sets the streams according to the ports of the new spec. A place
// that the spec names is looked up among the hook's ends.
fn change<S: System, H: Hook>(
    sys: &mut S,
    hook: &H,
    ends: &[S::End],
    spec: &mut CommandSpec,
    streams: &mut Streams<S::End>,
) -> Result<(), Error>
    requires room { many_ends streams.old ≤ (S.journal_view sys.old).room }
    ensures ok { OnOk result (ChangeSucceeds ⟦<S as Viewed>⟧.views H.allows
        ((hook.now, ends.now) ∷ []) sys.old sys.new spec.old spec.new streams.old streams.new) }
    ensures err { IfErr result (ChangeFails ⟦<S as Viewed>⟧.views H.allows H.refuses
        ((hook.now, ends.now) ∷ []) sys.old sys.new spec.old streams.old streams.new) }
    ensures left { OnOk result (many_ends streams.new + (S.journal_view sys.old).room
        ≤ (S.journal_view sys.new).room + many_ends streams.old) }
{
    if let Err(fault) = hook.change(spec) {
        return Err(Error::Hook(fault));
    }
    if let Some(place) = missing_place(ends.len(), spec) {
        return Err(Error::HookEnd(place));
    }
    redirect::<S, H>(sys, ends, spec.port(Stream::In), &mut streams.input)?;
    redirect::<S, H>(sys, ends, spec.port(Stream::Out), &mut streams.output)?;
    redirect::<S, H>(sys, ends, spec.port(Stream::Err), &mut streams.error)?;
    find(spec);
    Ok(())
}

// Runs these hooks of a command, the last one first.
pub(crate) fn change_all<S: System, H: Hook>(
    sys: &mut S,
    mut hooks: Vec<(&H, &[S::End])>,
    spec: &mut CommandSpec,
    streams: &mut Streams<S::End>,
) -> Result<(), Error>
    requires room { many_ends streams.old ≤ (S.journal_view sys.old).room }
    ensures ok { OnOk result (ChangeSucceeds ⟦<S as Viewed>⟧.views H.allows
        (hooks_of hooks.entry.items) sys.old sys.new spec.old spec.new streams.old streams.new) }
    ensures err { IfErr result (ChangeFails ⟦<S as Viewed>⟧.views H.allows H.refuses
        (hooks_of hooks.entry.items) sys.old sys.new spec.old streams.old streams.new) }
    ensures left { OnOk result (many_ends streams.new + (S.journal_view sys.old).room
        ≤ (S.journal_view sys.new).room + many_ends streams.old) }
{
    while let Some((hook, ends)) = hooks.pop() {
        change(sys, hook, ends, spec, streams)?;
    }
    Ok(())
}
