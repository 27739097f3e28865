//! Laws of the definitions that the contracts of a start cite. Each function does nothing: its
//! contract is the law. Ends are of type `E`, hooks of `H`.
#![tactic(auto)]

ghost use Rattle.std.specs.Prelude.{ℕ, List, ◌≡◌, ◌≤◌, true, length, map};
ghost use Rattle.std.specs.Cmp.{IsEquivalence, IsTotalOrder};
ghost use Rattle.std.specs.Ordering.{is_eq};
ghost use Rattle.duct_system.specs.EntryView.{EntryView};
ghost use Rattle.duct_system.specs.Ledger.{count_of, opened_numbers};
ghost use Rattle.duct_system.specs.Name.{is_same_name, name_cmp, name_hash_input};
ghost use Rattle.duct_system.specs.Origin.{Lent, origin};
ghost use Rattle.duct_system.specs.Trace.{trace};
ghost use Rattle.duct_start.specs.Follows.{AsksPlan};
ghost use Rattle.duct_start.specs.Plan.{Plan};
ghost use Rattle.duct_start.specs.Sources.{IsDuplicate};
ghost use Rattle.duct_run.specs.Kinds.{entry_kind, item_kind};
ghost use Rattle.duct_laws.specs.Laws.{InnerRedirectionCounts, OverriddenStillOpens, SwapsCancel, InnerFolderReplaces, NearestVariableCounts, InnerVariableHides, InnerEnvironmentHides};

use duct_base::spec::Hook;

/// Of two redirections of one stream, one directly around the other, the inner one counts alone,
/// and what the outer one opens is still opened. Two swaps of stdout and stderr, one directly
/// around the other, change nothing.
pub fn redirections<E, H>()
    ensures inner { InnerRedirectionCounts E H }
    ensures opened { OverriddenStillOpens E H }
    ensures swaps { SwapsCancel E H }
{}

/// An inner folder replaces an outer one, the nearest change that sets a variable decides its value
/// and hides the value of an outer one, and an inner full environment hides all that is set of
/// variables outside of it.
pub fn settings<E, H>()
    ensures folder { InnerFolderReplaces E H }
    ensures nearest { NearestVariableCounts E H }
    ensures variable { InnerVariableHides E H }
    ensures environment { InnerEnvironmentHides E H }
{}

/// Entries that make the requests of a whole plan start a child, or a feed worker, or neither, each
/// where the plan does.
pub fn starts<E, H: Hook>()
    ensures { (number_of : E → ℕ) (plan : Plan E H) (added : List EntryView)
        → AsksPlan H.allows number_of plan added → length (trace added) ≡ length plan.items
        → map (λ entry. entry_kind entry) (trace added) ≡ map (λ item. item_kind item) plan.items }
{}

/// The duplicate of a caller's end comes from exactly that end, where no request got the number of
/// that end, and none got a number twice.
pub fn duplicates()
    ensures { (entries : List EntryView) (lent number : ℕ) → IsDuplicate entries lent number
        → count_of lent (opened_numbers entries) ≡ 0
        → ((k : ℕ) → count_of k (opened_numbers entries) ≤ 1)
        → origin entries number ≡ Lent lent }
{}

/// To be the same name is an equivalence, and names are in a total order. The two agree, and names
/// that are the same have the same hash.
pub fn names()
    ensures equal { IsEquivalence is_same_name }
    ensures order { IsTotalOrder name_cmp }
    ensures agree { (one other : List ℕ) → is_same_name one other ≡ is_eq (name_cmp one other) }
    ensures hash { (one other : List ℕ)
        → is_same_name one other ≡ true → name_hash_input one ≡ name_hash_input other }
{}
