//! The reports before the first event.
ghost use Rattle.std.specs.Prelude.{◌≡◌, ◌++◌, replicate, if◌then◌else◌, OnOk, Some, None};
ghost use Rattle.std.specs.Option.{option_map};
ghost use Rattle.duct_status.specs.EventView.{bytes_said};
ghost use Rattle.duct_status.specs.ShapeView.{command_count, input_count, shape_view};
ghost use Rattle.duct_system.specs.declared.system.Said.TheVariants as said;
ghost use Rattle.duct_status.specs.declared.status.Word.TheVariants as word;

use crate::status::{Shape, Word};
use duct_system::system::Said;
use std::alloc::AllocError;
use std::sync::Arc;

/// Adds a report for each command and each input worker of a shape: all run.
#[tactic(auto, using(crate::proofs::Begins::more))]
pub(crate) fn begin(
    shape: &Shape,
    commands: &mut Vec<Word>,
    inputs: &mut Vec<Said<()>>,
) -> Result<(), AllocError>
    ensures commands { OnOk result
        (commands.new.items ≡ commands.old.items
        ++ replicate (command_count (shape_view shape.now)) word.Running) }
    ensures inputs { OnOk result
        (inputs.new.items ≡ inputs.old.items
        ++ replicate (input_count (shape_view shape.now)) said.Running) }
{
    match shape {
        Shape::Command(_) => commands.push(Word::Running)?,
        Shape::Pipe(left, right) => {
            begin(left, commands, inputs)?;
            begin(right, commands, inputs)?;
        }
        Shape::Input(inner) => {
            begin(inner, commands, inputs)?;
            inputs.push(Said::Running)?;
        }
        Shape::Unchecked(inner) => begin(inner, commands, inputs)?,
    }
    Ok(())
}

/// Returns the first report of a capture worker, if it is there: it runs.
pub(crate) fn first_word(is_there: bool) -> Option<Said<Arc<Vec<u8>>>>
    ensures { option_map bytes_said result ≡ (if is_there then Some said.Running else None) }
{
    if is_there { Some(Said::Running) } else { None }
}
