//! A policy whose rules are known by its type.
ghost use Rattle.std.specs.Prelude.{◌≡◌};
ghost use Rattle.duct_guard.specs.Rules.{Rules};
ghost use Rattle.duct_guard.specs.Policies.{all_allowed};

use crate::counts::Counts;
use crate::policy::{Policy, Request};
use std::marker::{Brand, PhantomData};

/// Stands for rules that are known only while the program runs.
pub trait FixedRules {
    /// The rules.
    ghost rules: { Rules };
}

/// The proof of a call picks the rules for which the mark stands.
impl FixedRules for Brand {
    ghost rules = { all_allowed };
}

/// A policy with the rules of its mark `K`. A function over any `System` promises nothing of the
/// policy in a guard that it borrows; by the type, the rules are known to be the same afterwards,
/// also where they were read from a file or an argument.
#[derive(Drop)]
pub struct Fixed<P: Policy, K: FixedRules> {
    policy: P,
    mark: PhantomData<K>,
    ghost is: { ∥ P.rules policy ≡ K.rules ∥₁ },
}

impl<P: Policy, K: FixedRules> Fixed<P, K> {
    /// Returns the policy with its rules fixed.
    pub fn new(policy: P) -> Fixed<P, K>
        requires { P.rules policy ≡ K.rules }
    {
        Fixed {
            policy,
            mark: PhantomData,
        }
    }
}

impl<P: Policy, K: FixedRules> Policy for Fixed<P, K> {
    ghost rules = { λ _. K.rules };

    fn allows(&self, request: Request) -> bool {
        self.policy.allows(request)
    }

    fn limits(&self) -> Counts {
        self.policy.limits()
    }

    fn at_once(&self) -> usize {
        self.policy.at_once()
    }
}
