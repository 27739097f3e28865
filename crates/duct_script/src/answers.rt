//! Lists of results that a test sets.
ghost use Rattle.std.specs.Prelude.{◌≡◌, []};
ghost use Rattle.duct_script.specs.Answers.{next_or, left_of};

use std::alloc::Global;
use std::collections::VecDeque;

/// Results, in the order in which they are returned. The last one is repeated.
#[derive(Drop)]
pub struct Answers<T> {
    items: VecDeque<T>,
}

impl<T: Copy + Drop> Answers<T> {
    /// Returns the list of these results.
    pub fn of(items: Vec<T>) -> Answers<T>
        ensures { result.items.items ≡ items.items }
    {
        Answers {
            items: VecDeque::from_vec(items),
        }
    }

    /// Returns the empty list.
    pub fn none(alloc: Global) -> Answers<T>
        ensures { result.items.items ≡ [] }
    {
        Answers {
            items: VecDeque::new(alloc),
        }
    }

    /// Returns the next result, or `other` if the list is empty. The last result stays in the list.
    pub fn next_or(&mut self, other: T) -> T
        ensures answer { result ≡ next_or other self.old.items.items }
        ensures rest { self.new.items.items ≡ left_of self.old.items.items }
    {
        if self.items.len() > 1 {
            return self.items.pop_front().unwrap_or(other);
        }
        self.items.front().copied().unwrap_or(other)
    }
}
