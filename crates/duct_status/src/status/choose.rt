//! The winning command, chosen pipe by pipe.
ghost use Rattle.std.specs.Prelude.{◌≡◌, ◌+◌, ◌<◌, ◌≤◌, not, ◌&&◌, ◌||◌, length, map, string_bytes, slice_get};
ghost use Rattle.std.specs.Arc.{arc_value};
ghost use Rattle.duct_status.specs.Winner.{chosen, is_failure, is_checked_failure};
ghost use Rattle.duct_status.specs.Endings.{endings_of, status_at, status_of, texts_at, is_checked};
ghost use Rattle.duct_status.specs.ShapeView.{command_count, shape_view};
ghost use Rattle.duct_system.specs.Status.{is_success};

use crate::status::{Shape, Word};
use duct_system::system::ExitStatus;
use std::sync::Arc;

/// The command that was chosen in a part of a shape, and the number of the first command after that
/// part.
#[derive(Clone, Copy)]
pub(crate) struct Chosen<'a> {
    pub(crate) words: &'a Arc<Vec<String>>,
    pub(crate) status: ExitStatus,
    is_checked: bool,
    next: usize,
}

impl Chosen<'_> {
    /// Returns whether it failed.
    fn is_failure(&self) -> bool
        ensures { result ≡ not (is_success self.now.status) }
    {
        !self.status.success()
    }

    /// Returns whether it failed and is not unchecked.
    pub(crate) fn is_checked_failure(&self) -> bool
        ensures { result ≡ (not (is_success self.now.status) && self.now.is_checked) }
    {
        self.is_failure() && self.is_checked
    }
}

/// Returns the exit status of a command. One that has not ended counts as a success.
fn status_at(commands: &[Word], at: usize) -> ExitStatus
    requires { at < length commands.now }
    ensures { result ≡ status_of (slice_get commands.now at) }
{
    match commands[at] {
        Word::Ended(status) => status,
        Word::Running | Word::Fault(_) => ExitStatus::Code(0),
    }
}

/// Chooses the winning command of a part of a shape whose first command has this number.
pub(crate) fn choose<'a>(shape: &'a Shape, commands: &[Word], first: usize) -> Chosen<'a>
    requires { first + command_count (shape_view shape.now) ≤ length commands.now }
    ensures words { let t = endings_of (shape_view shape.now) first commands.now
        in map string_bytes (arc_value result.words.now).items ≡ texts_at t (chosen t) }
    ensures status { let t = endings_of (shape_view shape.now) first commands.now in result.status
        ≡ status_at t (chosen t) }
    ensures checked { let t = endings_of (shape_view shape.now) first commands.now
        in result.is_checked ≡ is_checked t (chosen t) }
    ensures next { result.next ≡ first + command_count (shape_view shape.now) }
{
    match shape {
        Shape::Command(words) => Chosen {
            words,
            status: status_at(commands, first),
            is_checked: true,
            next: first + 1,
        },
        Shape::Pipe(left, right) => {
            let left = choose(left, commands, first);
            let right = choose(right, commands, left.next);
            if right.is_checked_failure() || (!left.is_checked_failure() && right.is_failure()) {
                right
            } else {
                Chosen {
                    next: right.next,
                    ..left
                }
            }
        }
        Shape::Input(inner) => choose(inner, commands, first),
        Shape::Unchecked(inner) => Chosen {
            is_checked: false,
            ..choose(inner, commands, first)
        },
    }
}
