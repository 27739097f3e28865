//! One poll of what a handle runs.
ghost use Rattle.std.specs.Prelude.{◌≡◌, ◌↔◌, IfOk, IfErr, IfSome, IsTrue, Ok, Err, None};
ghost use Rattle.std.specs.Arc.{arc_value};
ghost use Rattle.duct_status.specs.ShapeView.{shape_view};
ghost use Rattle.duct_running.specs.Answered.{ReturnsConclusion, IsAnswer, IsConcluded};
ghost use Rattle.duct_running.specs.NumbersView.{numbers_of, numbers_view};
ghost use Rattle.duct_running.specs.Polled.{ReturnsOutcome, PolledOnce, StaysSame};
ghost use Rattle.duct_running.specs.Allowed.{OneRuns, StoresAllowed};
ghost use Rattle.duct_handle.specs.HandleView.{answer_view};
ghost use Rattle.duct_handle.specs.Waited.{IsNoEnding};

use crate::published::{Answer, Published};
use duct_base::error::Error;
use duct_base::status::Shape;
use duct_base::system::{Fault, Kind, Output, System};
use duct_running::numbers::Numbers;
use duct_running::running::Running;
use duct_system::views::Viewed;
use std::sync::Arc;

// The error if shape or numbers differ, or if there is no result, which no start causes.
pub(crate) fn mismatch_error() -> Error
    ensures { result ≡ Error.System (record { kind = Kind.Other }) }
{
    Error::System(Fault::new(Kind::Other))
}

/// Polls what runs, once, as `Running::poll` does. The result is concluded from what was reported
/// under its numbers.
pub fn polled<S: System>(running: &mut Running<S>) -> Result<Option<Arc<Output>>, Error>
    ensures polls { PolledOnce ⟦<S as Viewed>⟧.views running.old running.new }
    ensures stays { StaysSame ⟦<S as Viewed>⟧.views running.old running.new }
    ensures outcome { ReturnsOutcome ⟦<S as Viewed>⟧.views running.new result }
    ensures allowed { ∥ StoresAllowed ⟦<S as Viewed>⟧.views running.new ∥₁ }
    ensures ending { ReturnsConclusion ⟦<S as Viewed>⟧.views running.new result }
    ensures runs { result ≡ Ok None
        → OneRuns ⟦<S as Viewed>⟧.views (numbers_of ⟦<S as Viewed>⟧.views running.new) }
{
    let polled = running.poll();
    running.answers_allowed();
    polled
}

// Polls what runs, once. It fails where the shape or the numbers differ from these.
pub(crate) fn poll_checked<S: System>(
    running: &mut Running<S>,
    shape: &Shape,
    numbers: &Numbers,
) -> Result<Option<Answer>, Error>
    ensures polls { PolledOnce ⟦<S as Viewed>⟧.views running.old running.new }
    ensures stays { StaysSame ⟦<S as Viewed>⟧.views running.old running.new }
    ensures answer { IfOk result (λ o. IfSome o (λ a. IsConcluded ⟦<S as Viewed>⟧.views
        (shape_view shape.now) (numbers_view numbers.now) (answer_view a))) }
    ensures runs { result ≡ Ok None → OneRuns ⟦<S as Viewed>⟧.views (numbers_view numbers.now) }
    ensures waits { result ≡ Ok None → IsAnswer ⟦<S as Viewed>⟧.views (shape_view shape.now)
        (numbers_view numbers.now) (Ok None) }
    ensures fault { IfErr result IsNoEnding }
    ensures err { IfErr result (λ e. IsAnswer ⟦<S as Viewed>⟧.views (shape_view shape.now)
        (numbers_view numbers.now) (Err e)) }
{
    let ended = polled(running);
    if !running.is_of(shape, numbers) {
        return Err(mismatch_error());
    }
    match ended {
        Ok(None) => Ok(None),
        Ok(Some(output)) => Ok(Some(Answer::Output(output))),
        Err(Error::Checked(text)) => Ok(Some(Answer::Failed(text))),
        Err(error) => Err(error),
    }
}

// Whether this has the given shape and the given numbers.
pub(crate) fn same<S: System>(published: &Published<S>, shape: &Shape, numbers: &Numbers) -> bool
    ensures { IsTrue result ↔ ((shape_view (arc_value published.now.shape) ≡ shape_view shape.now)
        × (numbers_view published.now.numbers ≡ numbers_view numbers.now)) }
{
    published.shape.is_same(shape) && published.numbers.is_same(numbers)
}
