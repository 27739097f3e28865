//! The result that a handle publishes, with the shape and the numbers of what gave it.
ghost use Rattle.std.specs.Arc.{arc_value};
ghost use Rattle.std.specs.Prelude.{IfSome};
ghost use Rattle.duct_status.specs.ShapeView.{shape_view};
ghost use Rattle.duct_running.specs.Answered.{Concluded};
ghost use Rattle.duct_running.specs.NumbersView.{numbers_view};
ghost use Rattle.duct_handle.specs.HandleView.{answer_view};

use duct_base::status::Shape;
use duct_base::system::{Child, Job, Output, System};
use duct_running::numbers::Numbers;
use std::marker::PhantomData;
use std::sync::Arc;

/// How an expression ended: with an output, or as a checked failure with this message.
#[derive(Drop)]
pub enum Answer {
    Output(Arc<Output>),
    Failed(Arc<String>),
}

/// A result with the shape and the numbers of what gave it. It has no result before it is
/// published.
#[derive(Drop)]
pub struct Published<S: System> {
    pub shape: Arc<Shape>,
    pub numbers: Numbers,
    pub answer: Option<Answer>,
    pub of: PhantomData<S>,
    pub ghost told: { ∥ IfSome answer (λ a. Concluded S.Child.may_answer S.Feed.may_say
        S.Drain.may_say (shape_view (arc_value shape)) (numbers_view numbers) (answer_view a)) ∥₁ },
}
