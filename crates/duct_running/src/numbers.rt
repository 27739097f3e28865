//! The numbers of a start's children and workers, and how they are compared with those of a running
//! expression.
ghost use Rattle.std.specs.Prelude.{◌≡◌, ◌↔◌, ◌≤◌, [], length, map, vec_capacity, IfOk, IsOkUnless, IsTrue};
ghost use Rattle.std.specs.Option.{option_map};
ghost use Rattle.duct_running.specs.NumbersView.{HaveRoom, numbers_of, numbers_view};
ghost use Rattle.duct_status.specs.ShapeView.{shape_view};

use crate::running::Running;
use duct_base::error::Error;
use duct_base::status::Shape;
use duct_base::system::{Numbered, System};
use duct_system::views::Viewed;
use std::alloc::Global;

/// The numbers of a start's children and workers.
#[derive(Drop)]
pub struct Numbers {
    /// The numbers of the children, from left to right.
    pub children: Vec<u64>,
    /// The numbers of the input workers, in tree order.
    pub feeds: Vec<u64>,
    /// The number of stdout's capture worker, if there is one.
    pub output: Option<u64>,
    /// The number of stderr's capture worker, if there is one.
    pub error: Option<u64>,
}

impl Numbers {
    /// Returns a `Numbers` without numbers, with room for those of this many children and input
    /// workers. Fails only with `Error::Memory`, on allocation failure.
    pub fn with_room(alloc: Global, children: usize, feeds: usize) -> Result<Numbers, Error>
        ensures children { IfOk result (λ numbers. numbers.children.items ≡ []) }
        ensures feeds { IfOk result (λ numbers. numbers.feeds.items ≡ []) }
        ensures children_room { IfOk result (λ numbers. children ≤ vec_capacity numbers.children) }
        ensures feeds_room { IfOk result (λ numbers. feeds ≤ vec_capacity numbers.feeds) }
        ensures memory { IsOkUnless result Error.Memory }
    {
        let children = Vec::with_capacity(alloc, children)?;
        let feeds = Vec::with_capacity(alloc, feeds)?;
        Ok(Numbers {
            children,
            feeds,
            output: None,
            error: None,
        })
    }

    /// Returns whether both have the same numbers.
    pub fn is_same(&self, other: &Numbers) -> bool
        ensures { IsTrue result ↔ (numbers_view self.now ≡ numbers_view other.now) }
    {
        self.children.as_slice() == other.children.as_slice()
            && self.feeds.as_slice() == other.feeds.as_slice()
            && self.output == other.output
            && self.error == other.error
    }
}

// Appends the numbers of these items, for which there is room.
fn note<N: Numbered>(numbers: &mut Vec<u64>, items: &[N])
    requires empty { numbers.old.items ≡ [] }
    requires room { length items.now ≤ vec_capacity numbers.old }
    ensures { numbers.new.items ≡ map N.number_of items.now }
{
    for item in items {
        numbers.push_reserved(item.number());
    }
}

// Returns the number of an item, if there is one.
fn number_of<N: Numbered>(item: &Option<N>) -> Option<u64>
    ensures { result ≡ option_map N.number_of item.now }
{
    match item {
        Some(item) => Some(item.number()),
        None => None,
    }
}

// Returns whether these items have these numbers, in order.
fn have_numbers<N: Numbered>(items: &[N], numbers: &[u64]) -> bool
    ensures { IsTrue result ↔ (map N.number_of items.now ≡ numbers.now) }
{
    if items.len() != numbers.len() {
        return false;
    }
    for at in 0..items.len() {
        if items[at].number() != numbers[at] {
            return false;
        }
    }
    true
}

// Returns whether these children and workers have these numbers.
fn are_numbered<C: Numbered, F: Numbered, D: Numbered>(
    children: &[C],
    feeds: &[F],
    output: &Option<D>,
    error: &Option<D>,
    numbers: &Numbers,
) -> bool
    ensures { IsTrue result ↔ (numbers_view numbers.now ≡ record {
      children = map C.number_of children.now;
      feeds = map F.number_of feeds.now;
      output = option_map D.number_of output.now;
      error = option_map D.number_of error.now;
    }) }
{
    have_numbers(children, &numbers.children)
        && have_numbers(feeds, &numbers.feeds)
        && number_of(output) == numbers.output
        && number_of(error) == numbers.error
}

impl<S: System> Running<S> {
    /// Writes the numbers of the children and the workers to `numbers`, which has none of children
    /// and input workers yet, and room for them. It allocates nothing.
    pub fn note_numbers(&self, numbers: &mut Numbers)
        requires { HaveRoom (shape_view self.now.shape) numbers.old }
        ensures { numbers_view numbers.new ≡ numbers_of ⟦<S as Viewed>⟧.views self.now }
    {
        note(&mut numbers.children, &self.children);
        note(&mut numbers.feeds, &self.feeds);
        numbers.output = number_of(&self.drains.out);
        numbers.error = number_of(&self.drains.err);
    }

    /// Returns whether it has this shape, and children and workers with these numbers.
    pub fn is_of(&self, shape: &Shape, numbers: &Numbers) -> bool
        ensures { IsTrue result ↔ ((shape_view self.now.shape ≡ shape_view shape.now)
            × (numbers_of ⟦<S as Viewed>⟧.views self.now ≡ numbers_view numbers.now)) }
    {
        let numbered = are_numbered(
            &self.children,
            &self.feeds,
            &self.drains.out,
            &self.drains.err,
            numbers,
        );
        numbered && self.core.shape().is_same(shape)
    }
}
