//! Runs whose output is kept, also where they fail.
ghost use Rattle.std.specs.Prelude.{◌≡◌, All, false, if◌then◌else◌, map, true, Err, IfErr, IfOk, IsOkUnless, Ok};
ghost use Rattle.duct_system.specs.Status.{is_success};
ghost use Rattle.duct_system.specs.declared.error.Error.TheVariants.{Memory};
ghost use Rattle.duct.specs.TreeView.{tree_view};
ghost use Rattle.duct_tasks.specs.Captures.{IsRunCaptured, with_captures};
ghost use Rattle.duct_tasks.specs.Statuses.{HasEnded, OnlyPipesFailed, command_view};

use crate::failed_run::FailedRun;
use crate::statuses::{CommandStatus, add_commands, noted, only_pipes_failed};
use duct::Expression;
use duct_base::error::Error;
use duct_base::pool::Pool;
use duct_base::spec::Hook;
use duct_base::system::{Output, System};
use duct_handle::finish::wait_for;
use duct_handle::output::output_or_give_up;
use duct_system::views::Viewed;
use std::sync::Wait;

/// What a run came to, with all that it wrote.
#[derive(Debug, Drop)]
pub struct Captured {
    /// The status of the winning command, and what was written to stdout and stderr.
    pub output: Output,

    /// The commands, from left to right, each with its status.
    pub commands: Vec<CommandStatus>,
}

impl Captured {
    /// Returns the output if its status is a success. Else fails with all of it; the error's text
    /// has each command that failed, and ends with the last lines of stderr, at most `most` bytes.
    ///
    /// Example: `run_captured(&rt, &mut host, &mut pool, &make)?.checked(4096)?`
    pub fn checked(self, most: usize) -> Result<Output, FailedRun>
        ensures output { IfOk result (λ output. output ≡ self.output) }
        ensures success { IfOk result (λ output. is_success output.status ≡ true) }
        ensures failed { IfErr result (λ failed. failed
            ≡ record { output = self.output; commands = self.commands; most = most }) }
        ensures failure { IfErr result (λ failed. is_success failed.output.status ≡ false) }
    {
        let succeeded = self.output.status.success();
        self.checked_by(succeeded, most)
    }

    /// Returns the output if no command failed but by signal 13, `SIGPIPE`, and the last one did
    /// not fail: so `yes | head -1` is a success. The status of its output is still that of the
    /// winning command, as the signal. Else fails as `checked` does.
    ///
    /// Example: `run_captured(&rt, &mut host, &mut pool, &line)?.checked_but_pipes(4096)?`
    pub fn checked_but_pipes(self, most: usize) -> Result<Output, FailedRun>
        ensures output { IfOk result (λ output. output ≡ self.output) }
        ensures success { IfOk result
            (λ output. OnlyPipesFailed (map (λ c. c.status) self.commands.items)) }
        ensures failed { IfErr result (λ failed. failed
            ≡ record { output = self.output; commands = self.commands; most = most }) }
        ensures failure { IfErr result
            (λ failed. OnlyPipesFailed (map (λ c. c.status) self.commands.items) → ⊥) }
    {
        let succeeded = only_pipes_failed(&self.commands);
        self.checked_by(succeeded, most)
    }

    // Returns the output if it is that of a success. Else fails with all of it.
    fn checked_by(self, succeeded: bool, most: usize) -> Result<Output, FailedRun>
        ensures { result ≡ if succeeded then Ok self.output else Err
            (record { output = self.output; commands = self.commands; most = most }) }
    {
        let Captured { output, commands } = self;
        if succeeded {
            Ok(output)
        } else {
            Err(FailedRun {
                output,
                commands,
                most,
            })
        }
    }
}

/// Runs an expression as `Expression::run` does, with its stdout and its stderr captured, and
/// returns what they got with the status, also where that is no success, and each command with its
/// own status. A stream that is redirected inside has nothing in it.
///
/// Fails as `run` does, and leaves the same, but never with `Error::Checked`. The list of the
/// commands is allocated before anything is started.
///
/// Example: `run_captured(&rt, &mut host, &mut pool, &make)?.output`
pub fn run_captured<S: System, H: Hook>(
    rt: &impl Wait,
    system: &mut S,
    pool: &mut Pool<S::Child>,
    expression: &Expression<S::End, H>,
) -> Result<Captured, Error>
    ensures run { IsRunCaptured ⟦<S as Viewed>⟧.views H.allows H.refuses expression.now
        (system.old, pool.old) result (system.new, pool.new) }
    ensures ended { IfOk result (λ captured. All HasEnded
        (map command_view captured.commands.items)) }
{
    let alloc = expression.allocator();
    let mut commands = Vec::new(alloc);
    add_commands(&mut commands, expression.root())?;
    let mut running = with_captures(expression)?.launch(system, pool)?;
    let waited = wait_for(rt, &mut running);
    let commands = noted(commands, running.reports());
    let output = output_or_give_up(alloc, running, waited, pool)?;
    Ok(Captured { output, commands })
}

// Returns the expression with both streams captured, whose failure is no error.
fn with_captures<E: Drop, H: Hook>(expression: &Expression<E, H>) -> Result<Expression<E, H>, Error>
    ensures tree { IfOk result
        (λ made. tree_view made ≡ with_captures (tree_view expression.now)) }
    ensures memory { IsOkUnless result Memory }
{
    expression.stdout_capture()?.stderr_capture()?.unchecked()
}
