//! How a run gives up its resources: it closes its ends and gives its children to a pool.
ghost use Rattle.std.specs.Prelude.{◌≤◌, length, map};
ghost use Rattle.std.specs.Option.{option_map};
ghost use Rattle.duct_base.specs.Pool.{IsGiven};
ghost use Rattle.duct_run.specs.GivesUp.{Closes};
ghost use Rattle.duct_run.specs.ResourcesView.{pipe_ends, ends_of_resources};
ghost use Rattle.duct_run.specs.Requested.{PoolGets};

use crate::resources::Resources;
use duct_base::pool::{Place, Pool, pool_take};
use duct_base::system::{Child, System};
use duct_system::views::Viewed;

// Closes each end of a stack, from the bottom to the top.
fn close_stack<S: System>(sys: &mut S, stack: Vec<S::End>)
    requires { length (map S.End.number_of stack.items) ≤ (S.journal_view sys.old).room }
    ensures { Closes (map S.End.number_of stack.items) (S.journal_view sys.old)
        (S.journal_view sys.new) }
{
    for end in stack {
        sys.close(end);
    }
}

// Closes both ends of a capture pipe, the read end first, if the pipe is open.
fn close_pair<S: System>(sys: &mut S, pair: Option<(S::End, S::End)>)
    requires { length (pipe_ends (option_map (λ p. (S.End.number_of p.0, S.End.number_of p.1))
        pair)) ≤ (S.journal_view sys.old).room }
    ensures { Closes (pipe_ends (option_map (λ p. (S.End.number_of p.0, S.End.number_of p.1)) pair))
        (S.journal_view sys.old) (S.journal_view sys.new) }
{
    if let Some((reader, writer)) = pair {
        sys.close(reader);
        sys.close(writer);
    }
}

/// Gives these children to a pool, in order. Each is polled once: one that runs is appended to the
/// pool, one that has ended counts as reaped, and one whose poll returned a fault counts as lost. A
/// pool has room for fewer than 2^63 children: one that runs and finds no room is dropped and
/// counts as lost. It allocates nothing and doesn't block.
pub fn give_all<C: Child>(pool: &mut Pool<C>, children: Vec<Place<C>>)
    ensures { IsGiven C.may_answer C.child_view children.items pool.old pool.new }
{
    for child in children {
        pool_take(pool, child);
    }
}

// Closes each open end of a run: the stack from the bottom, then the capture pipes of stdout and
// stderr. Gives its children to a pool and drops its workers.
pub(crate) fn give_up<S: System>(
    sys: &mut S,
    pool: &mut Pool<S::Child>,
    held: Resources<S::End, Place<S::Child>, S::Feed, S::Drain>,
)
    requires room { length (ends_of_resources S.End.number_of held)
        ≤ (S.journal_view sys.old).room }
    ensures closes { Closes (ends_of_resources S.End.number_of held) (S.journal_view sys.old)
        (S.journal_view sys.new) }
    ensures given { PoolGets ⟦<S as Viewed>⟧.views held.children.items pool.old pool.new }
{
    close_stack(sys, held.stack);
    close_pair(sys, held.pipes.out);
    close_pair(sys, held.pipes.err);
    give_all(pool, held.children);
}
