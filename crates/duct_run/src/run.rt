//! Runs a list of actions on a system.
ghost use Rattle.std.specs.Prelude.{◌≤◌, All, length, map, OnOk, IfErr, vec_len, []};
ghost use Rattle.duct_system.specs.SpecView.{pair_text};
ghost use Rattle.duct_run.specs.Actions.{pop_count};
ghost use Rattle.duct_run.specs.ResourcesView.{open_ends, HasRoom, HasSameWorkers};
ghost use Rattle.duct_run.specs.ActionList.{AreOutwards, IsWithin, resolved};
ghost use Rattle.duct_run.specs.RunInvariant.{FindsItsEnds, SomeReadyForActions};
ghost use Rattle.duct_run.specs.ActionView.{action_view, actions_view, resolved_in, all_scopes, scopes_view};
ghost use Rattle.duct_run.specs.Requested.{ActionsPerformed, ActionsStopped, HoldsUnasked, Performed, resources_of};
ghost use Rattle.duct_start.specs.Left.{Leaves, pool_view};

use crate::action::Action;
use crate::command::command;
use crate::requests::{
    capture, close, create, duplicate, duplicate_caller_end, duplicate_capture, feed, open_input,
    open_pipe, open_read, parent,
};
use crate::resources::{Resources, make_room};
use crate::scope::Scope;
use duct_base::error::Error;
use duct_base::pool::{Place, Pool};
use duct_base::spec::Hook;
use duct_base::system::System;
use duct_system::views::Viewed;

// Performs one action. A spawn sweeps the pool first.
fn perform_one<S: System, H: Hook>(
    sys: &mut S,
    pool: &mut Pool<S::Child>,
    pairs: &Vec<(String, String)>,
    scopes: &[Scope<'_, S::End, H>],
    action: Action<'_, S::End>,
    held: &mut Resources<S::End, Place<S::Child>, S::Feed, S::Drain>,
) -> Result<(), Error>
    requires outwards { AreOutwards (scopes_view scopes.now) }
    requires within { IsWithin (length scopes.now) (action_view action) }
    requires full { pop_count (action_view action) ≤ vec_len held.old.stack }
    requires can { FindsItsEnds (resolved (all_scopes scopes.now) (action_view action))
        (resources_of ⟦<S as Viewed>⟧.views held.old) }
    requires room { length (open_ends (resources_of ⟦<S as Viewed>⟧.views held.old))
        ≤ (S.journal_view sys.old).room }
    requires reserved { HasRoom held.old }
    ensures performed { Performed ⟦<S as Viewed>⟧.views H.allows H.refuses (map pair_text
        pairs.now.items) (resolved (all_scopes scopes.now) (action_view action.entry)) result
        sys.old sys.new held.old held.new }
    ensures pool { Leaves ⟦<S as Viewed>⟧.views.may_answer []
        (pool_view ⟦<S as Viewed>⟧.views.child pool.old)
        (pool_view ⟦<S as Viewed>⟧.views.child pool.new) }
{
    match action {
        Action::OpenRead(path) => open_read::<S, H>(sys, path, held),
        Action::Create(path) => create::<S, H>(sys, path, held),
        Action::Pipe => open_pipe::<S, H>(sys, held),
        Action::Input => open_input::<S, H>(sys, held),
        Action::Capture(side) => capture::<S, H>(sys, side, held),
        Action::Duplicate(depth) => duplicate::<S, H>(sys, depth, held),
        Action::DuplicateCapture(side) => duplicate_capture::<S, H>(sys, side, held),
        Action::DuplicateCallerEnd(end) => duplicate_caller_end::<S, H>(sys, end, held),
        Action::Parent(side) => parent::<S, H>(sys, side, held),
        Action::Close => {
            close::<S, H>(sys, held);
            Ok(())
        }
        Action::Spawn(scope, words, ports) => {
            pool.sweep();
            command(sys, pairs, scopes, scope, words, ports, held)
        }
        Action::Feed(bytes) => feed::<S, H>(sys, bytes, held),
    }
}

// Performs the actions in order, up to the first that fails.
pub(crate) fn perform_all<S: System, H: Hook>(
    sys: &mut S,
    pool: &mut Pool<S::Child>,
    pairs: &Vec<(String, String)>,
    scopes: &[Scope<'_, S::End, H>],
    actions: &[Action<'_, S::End>],
    held: &mut Resources<S::End, Place<S::Child>, S::Feed, S::Drain>,
) -> Result<(), Error>
    requires outwards { AreOutwards (scopes_view scopes.now) }
    requires within { All (IsWithin (length scopes.now)) (actions_view actions.now) }
    requires stood { SomeReadyForActions H.allows S.End.number_of (map pair_text pairs.now.items)
        (resolved_in scopes.now actions.now) (S.journal_view sys.old)
        (resources_of ⟦<S as Viewed>⟧.views held.old) }
    ensures ok { OnOk result (ActionsPerformed ⟦<S as Viewed>⟧.views H.allows (map pair_text
        pairs.now.items) (resolved_in scopes.now actions.now) sys.old sys.new held.old held.new) }
    ensures err { IfErr result (ActionsStopped ⟦<S as Viewed>⟧.views H.allows H.refuses (map
        pair_text pairs.now.items) (resolved_in scopes.now actions.now) sys.old sys.new held.old
        held.new) }
    ensures new { HoldsUnasked ⟦<S as Viewed>⟧.views held.old
        → HoldsUnasked ⟦<S as Viewed>⟧.views held.new }
    ensures workers { HasSameWorkers held.old held.new }
    ensures pool { Leaves ⟦<S as Viewed>⟧.views.may_answer []
        (pool_view ⟦<S as Viewed>⟧.views.child pool.old)
        (pool_view ⟦<S as Viewed>⟧.views.child pool.new) }
{
    for action in actions {
        make_room(held)?;
        perform_one(sys, pool, pairs, scopes, *action, held)?;
    }
    Ok(())
}
