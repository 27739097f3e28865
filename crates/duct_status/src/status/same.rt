//! Comparing and copying shapes.
ghost use Rattle.std.specs.Prelude.{◌≡◌, ◌↔◌, IfOk, IsTrue, map, string_bytes};
ghost use Rattle.duct_status.specs.ShapeView.{shape_view};

use crate::status::Shape;
use std::alloc::{AllocError, Global};

impl Shape {
    /// Returns whether both have the same commands, with the same words, in the same tree.
    pub fn is_same(&self, other: &Shape) -> bool
        ensures { IsTrue result ↔ (shape_view self.now ≡ shape_view other.now) }
    {
        match (self, other) {
            (Shape::Command(words), Shape::Command(others)) => same_words(
                words.as_slice(),
                others.as_slice(),
            ),
            (Shape::Pipe(left, right), Shape::Pipe(other_left, other_right)) => {
                left.is_same(other_left) && right.is_same(other_right)
            }
            (Shape::Input(inner), Shape::Input(other)) => inner.is_same(other),
            (Shape::Unchecked(inner), Shape::Unchecked(other)) => inner.is_same(other),
            (Shape::Command(_), Shape::Pipe(_, _) | Shape::Input(_) | Shape::Unchecked(_)) => false,
            (Shape::Pipe(_, _), Shape::Command(_) | Shape::Input(_) | Shape::Unchecked(_)) => false,
            (Shape::Input(_), Shape::Command(_) | Shape::Pipe(_, _) | Shape::Unchecked(_)) => false,
            (Shape::Unchecked(_), Shape::Command(_) | Shape::Pipe(_, _) | Shape::Input(_)) => false,
        }
    }

    /// Returns the same shape, with one more owner of each command's words. Fails at an allocation
    /// failure, and if such an owner can't be made.
    pub fn try_clone(&self, alloc: Global) -> Result<Shape, AllocError>
        ensures { IfOk result (λ copy. shape_view copy ≡ shape_view self.now) }
    {
        match self {
            Shape::Command(words) => Ok(Shape::Command(words.clone()?)),
            Shape::Pipe(left, right) => {
                let left = Box::new(alloc, left.try_clone(alloc)?)?;
                let right = Box::new(alloc, right.try_clone(alloc)?)?;
                Ok(Shape::Pipe(left, right))
            }
            Shape::Input(inner) => Ok(Shape::Input(Box::new(alloc, inner.try_clone(alloc)?)?)),
            Shape::Unchecked(inner) => {
                Ok(Shape::Unchecked(Box::new(alloc, inner.try_clone(alloc)?)?))
            }
        }
    }
}

// Returns whether two lists of words are the same.
fn same_words(one: &[String], other: &[String]) -> bool
    ensures { IsTrue result ↔ (map string_bytes one.now ≡ map string_bytes other.now) }
{
    one == other
}
