//! Workers: what they returned, which each later poll returns again.
ghost use Rattle.std.specs.Prelude.{◌≡◌, ◌↔◌, IsTrue, IfSome, IfNone};
ghost use Rattle.duct_system.specs.Job.{unpolled_job};
ghost use Rattle.duct_system.specs.declared.system.Said.TheVariants.{Running, Done};
ghost use Rattle.duct_base.specs.Word.{word_of};

use crate::shared::Shared;
use duct_system::system::{Fault, Job, Numbered, Said};
use std::snapshot::Snapshot;
use std::sync::{Arc, OnceLock};

/// Where a thread stores its result, for all who poll.
pub(crate) type Left<T> = Arc<OnceLock<Result<T, Fault>>>;

/// A worker on a thread of its own, with what its polls returned. If it is dropped, its thread runs
/// on until the work is done.
#[derive(Drop)]
pub struct Worker<T: Shared> {
    number: u64,
    polls: u64,
    left: Left<T>,
    said: Said<T>,
    kept: Snapshot<Said<T>>,
    ghost same_word: { word_of T.bytes_of said ≡ word_of T.bytes_of kept.value },
}

impl<T: Shared> Worker<T> {
    ghost use Rattle.duct_base.specs.WorkerView.{worker_view};

    /// Returns the worker with this number whose thread stores its result there. It was never
    /// polled.
    pub(crate) fn new(number: u64, left: Left<T>) -> Worker<T>
        ensures { worker_view result ≡ unpolled_job number }
    {
        let said = Said::Running;
        let kept = Snapshot::of(&said);
        Worker {
            number,
            polls: 0,
            left,
            said,
            kept,
        }
    }
}

impl<T: Shared> Numbered for Worker<T> {
    ghost number_of = { λ w. w.number };

    fn number(&self) -> u64 {
        self.number
    }
}

/// Nothing is promised about what a worker returns, except that it returns its result again.
impl<T: Shared> Job for Worker<T> {
    ghost use Rattle.std.proofs.Common.{refl};
    ghost use Rattle.duct_base.specs.WorkerView.{worker_view};

    type Result = T;

    ghost same = { λ one other. T.bytes_of other ≡ T.bytes_of one };

    ghost refusable = { T.refusable };

    ghost may_say = { λ _ _. Unit {0} };

    ghost job_view = { worker_view };

    ghost has_number = { λ w. refl };

    fn poll(&mut self) -> Said<T> {
        self.polls = self.polls.saturating_add(1);
        if !is_running(&self.said) {
            return said_again(&self.said).unwrap_or(Said::Running);
        }
        let Some(answer) = look(&self.left) else {
            return Said::Running;
        };
        let Some(said) = said_again(&answer) else {
            return Said::Running;
        };
        self.kept = Snapshot::of(&answer);
        self.said = said;
        answer
    }
}

/// Returns what the thread has stored so far, or `None` if one more owner of its result can't be
/// made.
fn look<T: Shared>(left: &OnceLock<Result<T, Fault>>) -> Option<Said<T>> {
    match left.get() {
        None => Some(Said::Running),
        Some(Ok(value)) => Some(Said::Done(value.share()?)),
        Some(Err(fault)) => Some(Said::Fault(*fault)),
    }
}

/// Returns whether there is no result yet.
fn is_running<T>(said: &Said<T>) -> bool
    ensures { IsTrue result ↔ (said.now ≡ Running) }
{
    matches!(said, Said::Running)
}

/// Returns the same, with one more owner of its result, or `None` if that owner can't be made.
fn said_again<T: Shared>(said: &Said<T>) -> Option<Said<T>>
    ensures same { IfSome result (λ again. word_of T.bytes_of again ≡ word_of T.bytes_of said.now) }
    ensures refused { IfNone result (T.refusable × ((value : T) × (said.now ≡ Done value))) }
{
    match said {
        Said::Running => Some(Said::Running),
        Said::Done(value) => Some(Said::Done(value.share()?)),
        Said::Fault(fault) => Some(Said::Fault(*fault)),
    }
}
