//! A start: it runs its actions, and where one of them fails it gives up its resources.
ghost use Rattle.std.specs.Prelude.{◌≡◌, ◌≤◌, All, length, is_some, None, OnOk, IfOk, IfErr, IsSome, []};
ghost use Rattle.duct_system.specs.Trace.{segment};
ghost use Rattle.duct_run.specs.ResourcesView.{empty_resources, pipe_view, HasSameWorkers};
ghost use Rattle.duct_run.specs.ActionList.{AreOutwards, IsWithin};
ghost use Rattle.duct_run.specs.RunContract.{HaveWorkers, IsRead, IsReaderOf, LeadToSomePlan, no_tail, tail_for};
ghost use Rattle.duct_run.specs.ActionView.{CanStart, actions_view, resolved_in, scopes_view};
ghost use Rattle.duct_run.specs.Requested.{AreUnused, HoldsUnasked, RunFails, RunGivesUp, RunSucceeds, StartRuns, resources_of};
ghost use Rattle.duct_start.specs.Left.{Leaves, pool_view};

use crate::action::Action;
use crate::ending::give_up;
use crate::requests::finish;
use crate::resources::Resources;
use crate::run::perform_all;
use crate::scope::Scope;
use duct_base::error::Error;
use duct_base::pool::{Place, Pool};
use duct_base::spec::Hook;
use duct_base::system::{Side, System};
use duct_system::views::Viewed;

/// How a start ends.
#[derive(Clone, Copy)]
pub enum StartKind {
    /// With the workers of the capture pipes.
    Draining,
    /// With the worker of stderr's capture pipe and the reader of stdout's.
    Reading,
}

// Asks for the environment, then performs the actions.
fn run_actions<S: System, H: Hook>(
    sys: &mut S,
    pool: &mut Pool<S::Child>,
    scopes: &[Scope<'_, S::End, H>],
    actions: &[Action<'_, S::End>],
    held: &mut Resources<S::End, Place<S::Child>, S::Feed, S::Drain>,
) -> Result<(), Error>
    requires outwards { AreOutwards (scopes_view scopes.now) }
    requires within { All (IsWithin (length scopes.now)) (actions_view actions.now) }
    requires begun { resources_of ⟦<S as Viewed>⟧.views held.old ≡ empty_resources }
    requires leads { LeadToSomePlan S.End.number_of (resolved_in scopes.now actions.now) }
    ensures ok { OnOk result (RunSucceeds ⟦<S as Viewed>⟧.views H.allows no_tail (resolved_in
        scopes.now actions.now) sys.old sys.new held.new) }
    ensures err { IfErr result (RunFails ⟦<S as Viewed>⟧.views H.allows H.refuses no_tail
        (resolved_in scopes.now actions.now) sys.old sys.new held.new) }
    ensures workers { HasSameWorkers held.old held.new }
    ensures new { HoldsUnasked ⟦<S as Viewed>⟧.views held.old
        → HoldsUnasked ⟦<S as Viewed>⟧.views held.new }
    ensures pool { Leaves ⟦<S as Viewed>⟧.views.may_answer []
        (pool_view ⟦<S as Viewed>⟧.views.child pool.old)
        (pool_view ⟦<S as Viewed>⟧.views.child pool.new) }
{
    let pairs = sys.environment()?;
    perform_all(sys, pool, &pairs, scopes, actions, held)
}

// Closes the write end of stdout's capture pipe and returns a reader of its read end.
fn read_output<S: System>(sys: &mut S, output: &mut Option<(S::End, S::End)>) -> S::Reader
    requires open { IsSome output.old }
    requires room { 2 ≤ (S.journal_view sys.old).room }
    ensures read { IsRead S.may_read (pipe_view S.End.number_of output.old)
        (S.journal_view sys.old) (S.journal_view sys.new) result }
    ensures output { output.new ≡ None }
{
    match output.take() {
        Some((reader, writer)) => {
            sys.close(writer);
            sys.reader(reader)
        }
        None => unreachable!(),
    }
}

// Asks for the environment, performs the actions, and ends as a start of this kind does: with the
// workers of the capture pipes, or with the reader of stdout's, which it returns.
fn run<S: System, H: Hook>(
    sys: &mut S,
    pool: &mut Pool<S::Child>,
    scopes: &[Scope<'_, S::End, H>],
    actions: &[Action<'_, S::End>],
    kind: StartKind,
    held: &mut Resources<S::End, Place<S::Child>, S::Feed, S::Drain>,
) -> Result<Option<S::Reader>, Error>
    requires can { CanStart S.End.number_of kind scopes.now actions.now }
    requires begun { resources_of ⟦<S as Viewed>⟧.views held.old ≡ empty_resources }
    ensures ok { OnOk result (RunSucceeds ⟦<S as Viewed>⟧.views H.allows (tail_for kind)
        (resolved_in scopes.now actions.now) sys.old sys.new held.new) }
    ensures reader { IfOk result (IsReaderOf S.may_read kind (segment
        (S.journal_view sys.old).entries (S.journal_view sys.new).entries)) }
    ensures err { IfErr result (RunFails ⟦<S as Viewed>⟧.views H.allows H.refuses (tail_for kind)
        (resolved_in scopes.now actions.now) sys.old sys.new held.new) }
    ensures workers { OnOk result (HaveWorkers kind S.End.number_of (resolved_in scopes.now
        actions.now) (is_some held.new.drains.out) (is_some held.new.drains.err)) }
    ensures new { HoldsUnasked ⟦<S as Viewed>⟧.views held.old
        → HoldsUnasked ⟦<S as Viewed>⟧.views held.new }
    ensures pool { Leaves ⟦<S as Viewed>⟧.views.may_answer []
        (pool_view ⟦<S as Viewed>⟧.views.child pool.old)
        (pool_view ⟦<S as Viewed>⟧.views.child pool.new) }
{
    run_actions(sys, pool, scopes, actions, held)?;
    match kind {
        StartKind::Draining => {
            finish::<S, H>(sys, Side::Out, held)?;
            finish::<S, H>(sys, Side::Err, held)?;
            Ok(None)
        }
        StartKind::Reading => {
            finish::<S, H>(sys, Side::Err, held)?;
            Ok(Some(read_output(sys, &mut held.pipes.out)))
        }
    }
}

/// Runs the actions of a start and returns the resources that they leave, and for a start that
/// reads the reader of stdout's capture pipe, which the actions have to open. `held` has to be
/// empty. The pool is swept before each command. It doesn't wait for the commands.
///
/// Fails with `Error::System` where the system refuses a request, with `Error::Hook` or
/// `Error::HookEnd` where a hook stops a command, and with `Error::Memory`. Then each open end is
/// closed, the children that were started are given to the pool as `give_all` gives them, and the
/// workers are dropped.
pub fn start<S: System, H: Hook>(
    sys: &mut S,
    pool: &mut Pool<S::Child>,
    scopes: &[Scope<'_, S::End, H>],
    actions: &[Action<'_, S::End>],
    kind: StartKind,
    held: Resources<S::End, Place<S::Child>, S::Feed, S::Drain>,
) -> Result<
    (
        Resources<S::End, Place<S::Child>, S::Feed, S::Drain>,
        Option<S::Reader>,
    ),
    Error,
>
    requires can { CanStart S.End.number_of kind scopes.now actions.now }
    requires unused { AreUnused ⟦<S as Viewed>⟧.views held }
    ensures ok { IfOk result (λ made. StartRuns ⟦<S as Viewed>⟧.views H.allows kind
        (resolved_in scopes.now actions.now) sys.old sys.new pool.old pool.new made.0) }
    ensures reader { IfOk result (λ made. IsReaderOf S.may_read kind (segment
        (S.journal_view sys.old).entries (S.journal_view sys.new).entries) made.1) }
    ensures err { IfErr result (RunGivesUp ⟦<S as Viewed>⟧.views H.allows H.refuses (tail_for kind)
        (resolved_in scopes.now actions.now) sys.old sys.new pool.old pool.new) }
{
    let mut held = held;
    match run(sys, pool, scopes, actions, kind, &mut held) {
        Ok(reader) => Ok((held, reader)),
        Err(error) => {
            give_up(sys, pool, held);
            Err(error)
        }
    }
}
