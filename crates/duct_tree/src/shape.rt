//! The shape of a tree: what counts for the result of a start. It has the commands with their
//! words, the pipes, and the input and unchecked nodes.
ghost use Rattle.std.specs.Prelude.{◌≡◌, IfOk, IsOkUnless};
ghost use Rattle.duct_status.specs.ShapeView.{pipe, shape_view};
ghost use Rattle.duct_start.specs.ShapeOfTree.{marked};
ghost use Rattle.duct_tree.specs.EffectView.{mark_view};

use crate::effect::Mark;
use duct_base::error::Error;
use duct_base::status::Shape;
use std::alloc::Global;

/// Returns the shape of a pipe from `left` to `right`.
pub(crate) fn piped(alloc: Global, left: Shape, right: Shape) -> Result<Shape, Error>
    ensures shape { IfOk result
        (λ shape. shape_view shape ≡ pipe (shape_view left) (shape_view right)) }
    ensures memory { IsOkUnless result Error.Memory }
{
    let left = Box::new(alloc, left)?;
    let right = Box::new(alloc, right)?;
    Ok(Shape::Pipe(left, right))
}

/// Returns the shape of a node with this mark around an expression of shape `inner`.
pub(crate) fn marked(alloc: Global, mark: Mark, inner: Shape) -> Result<Shape, Error>
    ensures shape { IfOk result (λ shape. shape_view shape ≡ marked (mark_view mark)
        (shape_view inner)) }
    ensures memory { IsOkUnless result Error.Memory }
{
    match mark {
        Mark::Plain => Ok(inner),
        Mark::Input => Ok(Shape::Input(Box::new(alloc, inner)?)),
        Mark::Unchecked => Ok(Shape::Unchecked(Box::new(alloc, inner)?)),
    }
}
