//! Callers over the small system, whose children return one exit status each. Each function makes
//! one call, and its clauses follow from those of the call: where the call promises less, they are
//! refused.
ghost use Rattle.std.specs.Prelude.{List, ℕ, ◌≡◌, IfOk, IfErr, OnOk, string_bytes};
ghost use Rattle.duct_system.specs.Trace.{segment};
ghost use Rattle.duct_status.specs.ShapeView.{shape_view};
ghost use Rattle.duct_start.specs.TreeView.{command};
ghost use Rattle.duct.specs.TreeView.{tree_view};
ghost use Rattle.system_small.specs.Exits.{IsRun, IsUnnoted, IsWait};
ghost use Rattle.system_small.specs.Told.{printed};

use crate::{SmallChild, SmallEnd, SmallSystem};
use duct::{Error, Expression, Handle, Hook, Output, Pool};
use std::sync::{Arc, Wait};

/// Runs an expression. An output has the exit status and the captured bytes that children and
/// workers return, and a command alone returns none.
pub fn run<H: Hook>(
    rt: &impl Wait,
    expression: &Expression<SmallEnd, H>,
    system: &mut SmallSystem,
    pool: &mut Pool<SmallChild>,
) -> Result<Output, Error>
    ensures { IfOk result (IsRun (tree_view expression.now)
        (segment system.old.0.entries system.new.0.entries)) }
{
    expression.run(rt, system, pool)
}

/// Waits for a handle. A handle of a command alone returns no output, but the message of its exit
/// status.
pub fn wait(rt: &impl Wait, handle: &Handle<SmallSystem>) -> Result<Arc<Output>, Error>
    ensures { IsWait (shape_view handle.now.shape) handle.now.numbers.children result }
{
    handle.wait(rt)
}

/// Kills what a handle runs. An order that is noted is obeyed, so it fails only where there was no
/// memory to note one, or where the handle isn't one of this system.
pub fn kill(rt: &impl Wait, handle: &Handle<SmallSystem>) -> Result<(), Error>
    ensures { IfErr result IsUnnoted }
{
    handle.kill(rt)
}

/// Reads an expression. A text is what each reader reads; and an expression that is a command alone
/// returns none.
pub fn read<H: Hook>(
    rt: &impl Wait,
    expression: &Expression<SmallEnd, H>,
    system: &mut SmallSystem,
    pool: &mut Pool<SmallChild>,
) -> Result<String, Error>
    ensures text { IfOk result (λ text. string_bytes text ≡ printed) }
    ensures failing { (words : List (List ℕ))
        → tree_view expression.now ≡ command words → OnOk result ⊥ }
{
    expression.read(rt, system, pool)
}
