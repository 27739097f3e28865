//! A read and a run under a policy, also where its rules are known only while the program runs.
ghost use Rattle.std.specs.Prelude.{◌≡◌, ◌≤◌, []};
ghost use Rattle.duct.specs.Launched.{IsRead, IsRun};
ghost use Rattle.duct_guard.specs.Rules.{AreAllowed};
ghost use Rattle.duct_guard.specs.Held.{Fits, IsBegun};
ghost use Rattle.duct_guard.specs.Under.{Guards, IsLeft, guard_views};

use crate::counts::Counts;
use crate::crew::GuardedChild;
use crate::fixed::{Fixed, FixedRules};
use crate::guard::Guarded;
use crate::policy::Policy;
use duct::{Error, Expression, Hook, Output, Pool, System};
use duct_system::views::Viewed;
use std::marker::Brand;
use std::sync::Wait;

/// What came of an expression under a policy.
#[derive(Drop)]
pub struct Under<S, T> {
    /// The system below the guard. It was asked only what the policy allows.
    pub system: S,
    /// How many ends are open, and how many children were started.
    pub held: Counts,
    /// How many children run still, as far as the guard knows.
    pub running: usize,
    /// What the expression returned, or why it failed.
    pub returned: Result<T, Error>,
}

/// Reads what an expression prints, as `Expression::read` does, over a guard of this system with
/// this policy. What is forbidden fails with `PermissionDenied`; the system is asked nothing else
/// than what the policy allows, and nothing more is held than its limits. The policy is dropped. It
/// returns what `Expression::read` returns there, and leaves the same in the pool. The system's
/// journal has to be empty, as after `clear_journal`.
///
/// Example: `read_under(&rt, system, &mut pool, Programs::new(tools), &step)`
pub fn read_under<S: System, P: Policy + Drop, H: Hook>(
    rt: &impl Wait,
    system: S,
    pool: &mut Pool<GuardedChild<S::Child>>,
    policy: P,
    expression: &Expression<S::End, H>,
) -> Under<S, String>
    requires { (S.journal_view system).entries ≡ [] }
    ensures allowed { AreAllowed (P.rules policy) (S.journal_view result.system).entries }
    ensures fits { Fits (P.rules policy).limits result.held }
    ensures few { result.running ≤ (P.rules policy).at_once }
    ensures read { Guards {K = Brand} ⟦<S as Viewed>⟧.views P.Policy.own
        (record { rules = P.rules policy })
        (IsRead (guard_views ⟦<S as Viewed>⟧.views) H.allows H.refuses expression.now S.may_read
        S.Reader.remaining) (system, pool.old) (result, pool.new) }
{
    read_fixed::<S, P, H, Brand>(rt, system, pool, policy, expression)
}

/// Runs an expression, as `Expression::run` does, under the same conditions.
///
/// Example: `run_under(&rt, system, &mut pool, ReadOnly, &step)`
pub fn run_under<S: System, P: Policy + Drop, H: Hook>(
    rt: &impl Wait,
    system: S,
    pool: &mut Pool<GuardedChild<S::Child>>,
    policy: P,
    expression: &Expression<S::End, H>,
) -> Under<S, Output>
    requires { (S.journal_view system).entries ≡ [] }
    ensures allowed { AreAllowed (P.rules policy) (S.journal_view result.system).entries }
    ensures fits { Fits (P.rules policy).limits result.held }
    ensures few { result.running ≤ (P.rules policy).at_once }
    ensures run { Guards {K = Brand} ⟦<S as Viewed>⟧.views P.Policy.own
        (record { rules = P.rules policy })
        (IsRun (guard_views ⟦<S as Viewed>⟧.views) H.allows H.refuses expression.now)
        (system, pool.old) (result, pool.new) }
{
    run_fixed::<S, P, H, Brand>(rt, system, pool, policy, expression)
}

// Reads by a policy whose rules are those of the mark.
fn read_fixed<S: System, P: Policy + Drop, H: Hook, K: FixedRules>(
    rt: &impl Wait,
    system: S,
    pool: &mut Pool<GuardedChild<S::Child>>,
    policy: P,
    expression: &Expression<S::End, H>,
) -> Under<S, String>
    requires fixed { P.rules policy ≡ K.rules }
    requires empty { (S.journal_view system).entries ≡ [] }
    ensures allowed { AreAllowed K.rules (S.journal_view result.system).entries }
    ensures fits { Fits K.rules.limits result.held }
    ensures few { result.running ≤ K.rules.at_once }
    ensures read { Guards ⟦<S as Viewed>⟧.views P.Policy.own K.FixedRules.own
        (IsRead (guard_views ⟦<S as Viewed>⟧.views) H.allows H.refuses expression.now S.may_read
        S.Reader.remaining) (system, pool.old) (result, pool.new) }
{
    let policy: Fixed<P, K> = Fixed::new(policy);
    let mut guarded = Guarded::new(expression.allocator(), system, policy);
    let text = expression.read(rt, &mut guarded, pool);
    ended(guarded, text)
}

// Runs by a policy whose rules are those of the mark.
fn run_fixed<S: System, P: Policy + Drop, H: Hook, K: FixedRules>(
    rt: &impl Wait,
    system: S,
    pool: &mut Pool<GuardedChild<S::Child>>,
    policy: P,
    expression: &Expression<S::End, H>,
) -> Under<S, Output>
    requires fixed { P.rules policy ≡ K.rules }
    requires empty { (S.journal_view system).entries ≡ [] }
    ensures allowed { AreAllowed K.rules (S.journal_view result.system).entries }
    ensures fits { Fits K.rules.limits result.held }
    ensures few { result.running ≤ K.rules.at_once }
    ensures run { Guards ⟦<S as Viewed>⟧.views P.Policy.own K.FixedRules.own
        (IsRun (guard_views ⟦<S as Viewed>⟧.views) H.allows H.refuses expression.now)
        (system, pool.old) (result, pool.new) }
{
    let policy: Fixed<P, K> = Fixed::new(policy);
    let mut guarded = Guarded::new(expression.allocator(), system, policy);
    let output = expression.run(rt, &mut guarded, pool);
    ended(guarded, output)
}

// Takes a guard apart.
fn ended<S: System, P: Policy + Drop, K: FixedRules, T>(
    mut guarded: Guarded<S, Fixed<P, K>>,
    returned: Result<T, Error>,
) -> Under<S, T>
    ensures allowed { AreAllowed K.rules (S.journal_view result.system).entries }
    ensures fits { Fits K.rules.limits result.held }
    ensures few { result.running ≤ K.rules.at_once }
    ensures left { IsLeft ⟦<S as Viewed>⟧.views P.Policy.own K.FixedRules.own guarded.earlier
        guarded result }
    ensures begun { IsBegun guarded.earlier guarded.journal.added guarded.journal.entries }
    ensures returned { result.returned ≡ returned }
{
    let (held, running) = (guarded.held(), guarded.running());
    let (system, _policy) = guarded.into_parts();
    Under {
        system,
        held,
        running,
        returned,
    }
}
