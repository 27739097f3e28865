//! The requests of a start of an expression, computed from the tree alone: the plan, as text and as
//! a drawing. Duplicates, the parent's streams and closes are in no plan.
#![tactic(auto)]

mod dot;
mod items;
mod program;
mod requests;
mod text;

pub use dot::PlanDot;
pub use items::{Item, Plan, Surroundings, Target, VariableChange};
pub use program::{NoEnd, drawing, preview, print};
pub use requests::{plan, plan_of_reader};
pub use text::PlanText;
