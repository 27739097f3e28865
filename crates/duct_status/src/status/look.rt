//! The first fault in tree order, and whether something runs.
ghost use Rattle.std.specs.Prelude.{◌≡◌, ◌+◌, ◌≤◌, ◌||◌, ◌<◌, length, [], ◌∷◌, slice_get};
ghost use Rattle.std.specs.Option.{option_or};
ghost use Rattle.duct_status.specs.ShapeView.{command_count, input_count, shape_view};
ghost use Rattle.duct_status.specs.Outcome.{command_said, input_said, in_tree_order, first_fault, some_runs};

use crate::status::{Shape, Word};
use duct_system::system::{Fault, Said};

/// What was found in a part of a shape, and the numbers of the command and of the input worker
/// after it.
#[derive(Clone, Copy)]
pub(crate) struct Findings {
    pub(crate) fault: Option<Fault>,
    pub(crate) runs: bool,
    next_command: usize,
    next_input: usize,
}

impl Findings {
    /// Returns what is found in one report, with the numbers after it.
    fn new(said: Said<()>, next_command: usize, next_input: usize) -> Findings
        ensures fault { result.fault ≡ first_fault (said ∷ []) }
        ensures runs { result.runs ≡ some_runs (said ∷ []) }
        ensures next_command { result.next_command ≡ next_command }
        ensures next_input { result.next_input ≡ next_input }
    {
        let (fault, runs) = match said {
            Said::Running => (None, true),
            Said::Done(()) => (None, false),
            Said::Fault(fault) => (Some(fault), false),
        };
        Findings {
            fault,
            runs,
            next_command,
            next_input,
        }
    }

    /// Returns what was found in both parts; this one comes first.
    fn before(self, later: Findings) -> Findings
        ensures fault { result.fault ≡ option_or self.fault later.fault }
        ensures runs { result.runs ≡ (self.runs || later.runs) }
        ensures next_command { result.next_command ≡ later.next_command }
        ensures next_input { result.next_input ≡ later.next_input }
    {
        Findings {
            fault: self.fault.or(later.fault),
            runs: self.runs || later.runs,
            next_command: later.next_command,
            next_input: later.next_input,
        }
    }
}

/// Returns the report of a command in the form of a worker's.
fn command_at(commands: &[Word], at: usize) -> Said<()>
    requires { at < length commands.now }
    ensures { result ≡ command_said (slice_get commands.now at) }
{
    match commands[at] {
        Word::Running => Said::Running,
        Word::Ended(_) => Said::Done(()),
        Word::Fault(fault) => Said::Fault(fault),
    }
}

/// Returns the report of an input worker.
fn input_at(inputs: &[Said<()>], at: usize) -> Said<()>
    requires { at < length inputs.now }
    ensures { result ≡ input_said (slice_get inputs.now at) }
{
    inputs[at]
}

/// Looks through the reports of a part of a shape. Its first command and its first input worker
/// have these numbers.
#[tactic(auto, using(crate::proofs::Looks::fault_append, crate::proofs::Looks::runs_append))]
pub(crate) fn look(
    shape: &Shape,
    commands: &[Word],
    inputs: &[Said<()>],
    command: usize,
    input: usize,
) -> Findings
    requires commands { command + command_count (shape_view shape.now) ≤ length commands.now }
    requires inputs { input + input_count (shape_view shape.now) ≤ length inputs.now }
    ensures fault { result.fault
        ≡ first_fault (in_tree_order (shape_view shape.now) command input commands.now inputs.now) }
    ensures runs { result.runs
        ≡ some_runs (in_tree_order (shape_view shape.now) command input commands.now inputs.now) }
    ensures next_command { result.next_command ≡ command + command_count (shape_view shape.now) }
    ensures next_input { result.next_input ≡ input + input_count (shape_view shape.now) }
{
    match shape {
        Shape::Command(_) => { Findings::new(command_at(commands, command), command + 1, input) }
        Shape::Pipe(left, right) => {
            let left = look(left, commands, inputs, command, input);
            left.before(look(right, commands, inputs, left.next_command, left.next_input))
        }
        Shape::Input(inner) => {
            let inner = look(inner, commands, inputs, command, input);
            let said = input_at(inputs, inner.next_input);
            inner.before(Findings::new(said, inner.next_command, inner.next_input + 1))
        }
        Shape::Unchecked(inner) => look(inner, commands, inputs, command, input),
    }
}
