//! Callers without a shell: one that spends its handle on each way out, and one whose clause cites
//! the plan of its start.
ghost use Rattle.std.specs.Prelude.{◌≡◌, ◌<◌, [], OnOk};
ghost use Rattle.duct_system.specs.Trace.{segment};
ghost use Rattle.duct_start.specs.Follows.{FollowsWhole};
ghost use Rattle.duct_start.specs.Plan.{plan_of};
ghost use Rattle.duct_start.specs.Start.{ends_in};
ghost use Rattle.duct_start.specs.TreeView.{around, stdout_file};
ghost use Rattle.duct.specs.TreeView.{tree_view};

use duct::{Clock, Error, Expression, Handle, Hook, Output, Pool, System};
use std::sync::Wait;
use std::time::Duration;

/// Runs a step for at most this long. Returns its output, or `None` if it took longer. A step that
/// returns no output is killed, and its children are given to the pool.
fn build<S: System, C: Clock>(
    rt: &impl Wait,
    system: &mut S,
    pool: &mut Pool<S::Child>,
    clock: &C,
    step: &Expression<S::End>,
    limit: Duration,
) -> Result<Option<Output>, Error> {
    let handle = step.start(system, pool)?;
    let waited = handle.wait_timeout(rt, clock, limit); // `Ok(None)` where the time is over
    if matches!(waited, Ok(Some(_))) {
        return Ok(Some(handle.into_output(rt, pool)?));
    }
    let killed = handle.kill(rt);
    handle.give_up(pool); // the compiler wants every handle spent
    waited?;
    killed?;
    Ok(None)
}

/// Starts a command that holds no end, with its stdout at an end to which this system gave its
/// number before. Such a start is proved to follow its plan exactly.
fn start_to<S: System, H: Hook>(
    command: &Expression<S::End, H>,
    end: S::End,
    system: &mut S,
    pool: &mut Pool<S::Child>,
) -> Result<Handle<S>, Error>
    requires no_ends { ends_in (tree_view command.now) ≡ [] }
    requires earlier { S.End.number_of end < (S.journal_view system.old).next }
    ensures { OnOk result (let tree = around (stdout_file end) (tree_view command.now) in
        FollowsWhole H.allows S.End.number_of (plan_of tree)
        (segment (S.journal_view system.old).entries (S.journal_view system.new).entries)) }
{
    let redirected = command.stdout_file(end)?;
    redirected.start(system, pool)
}
