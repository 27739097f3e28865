//! The law of precedence.
ghost use Rattle.duct_status.specs.Winner.{chosen, IsWinner};
ghost use Rattle.duct_status.specs.Endings.{Endings};
ghost use Rattle.duct_status.specs.Laws.{IsStrictTotalOrder, ExactlyOneWins, FailsWhereSomeFails, UncheckedKeeps};

/// Does nothing: its contract is the law. In every tree, with unchecked at any depth and any exit
/// statuses, `Beats` is a strict total order on the commands, so exactly one command wins. The
/// choice that is made pipe by pipe finds it. It failed if and only if some command failed.
/// Unchecked changes no exit status and no winning command of what it wraps.
pub fn precedence()
    ensures order { (t : Endings) → IsStrictTotalOrder t }
    ensures one { (t : Endings) → ExactlyOneWins t }
    ensures choice { (t : Endings) → IsWinner t (chosen t) }
    ensures failure { (t : Endings) → FailsWhereSomeFails t }
    ensures unchecked { (t : Endings) → UncheckedKeeps t }
{}
