//! What a guard holds, and how much of it a policy allows.
ghost use Rattle.std.specs.Prelude.{◌≡◌, ◌+◌, ◌≤◌, [], ◌∷◌, IfOk, OnOk, OnErr};
ghost use Rattle.duct_system.specs.Streams.{ends_of};
ghost use Rattle.duct_guard.specs.Held.{counts_of, nothing_held, with_children, with_ends, without_end, without_ends};
ghost use Rattle.duct_guard.specs.Policies.{unlimited};

use duct_system::system::{Fault, Numbered, Stdio};

/// A number of ends and a number of children.
#[derive(Clone, Copy, Debug, PartialEq, Eq)]
pub struct Counts {
    /// Of ends that are open at once: those that requests returned and that no request took. An end
    /// that is dropped still counts; one that was adopted or lent counts neither when it comes nor
    /// when it is taken.
    pub ends: usize,
    /// Of children that were started, also of those that have ended.
    pub children: usize,
}

impl Counts {
    /// Returns more ends and children than any machine has: the limits of a policy that has none.
    pub fn unlimited() -> Counts
        ensures { result ≡ unlimited }
    {
        Counts {
            ends: usize::MAX,
            children: usize::MAX,
        }
    }
}

/// What a guard holds, and the least number of an end that a request of it returned. An end with a
/// lower one came by another way: it was adopted before the guard was made, or lent.
#[derive(Clone, Copy)]
pub(crate) struct Held {
    pub ends: usize,
    pub children: usize,
    first: u64,
}

impl Held {
    /// Returns no end and no child.
    pub fn nothing() -> Held
        ensures { result ≡ nothing_held }
    {
        Held {
            ends: 0,
            children: 0,
            first: u64::MAX,
        }
    }

    /// Returns how many ends are open, and how many children were started.
    pub fn counts(self) -> Counts
        ensures { result ≡ counts_of self }
    {
        Counts {
            ends: self.ends,
            children: self.children,
        }
    }

    /// Counts an end that a request returned.
    pub fn open(&mut self, number: u64)
        requires { self.old.ends + 1 ≤ 18446744073709551615 }
        ensures { self.new ≡ with_ends self.old (number ∷ []) }
    {
        self.ends += 1;
        self.first = self.first.min(number);
    }

    /// Does the same, if the request returned one.
    pub fn count_end<E: Numbered>(&mut self, made: &Result<E, Fault>)
        requires { OnOk made.now (self.old.ends + 1 ≤ 18446744073709551615) }
        ensures one { IfOk made.now
            (λ end. self.new ≡ with_ends self.old (E.number_of end ∷ [])) }
        ensures none { OnErr made.now (self.new ≡ self.old) }
    {
        if let Ok(end) = made {
            self.open(end.number());
        }
    }

    /// Counts an end less that a request took, if a request had returned it.
    pub fn spend(&mut self, number: u64)
        ensures { self.new ≡ without_end self.old number }
    {
        if self.first <= number {
            self.ends = self.ends.saturating_sub(1);
        }
    }

    /// Does the same for the ends of the streams of a spawn, and counts a child if it was started.
    pub fn count_spawn<T>(&mut self, streams: &[Stdio<u64>], started: &Result<T, Fault>)
        requires { OnOk started.now (self.old.children + 1 ≤ 18446744073709551615) }
        ensures one { OnOk started.now
            (self.new ≡ with_children (without_ends self.old (ends_of streams.now)) 1) }
        ensures none { OnErr started.now (self.new ≡ without_ends self.old (ends_of streams.now)) }
    {
        for stream in streams {
            if let Stdio::End(number) = stream {
                self.spend(*number);
            }
        }
        if started.is_ok() {
            self.children += 1;
        }
    }
}
