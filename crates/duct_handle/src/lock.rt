//! The lock of a handle. Each time that it is taken, what it holds is polled once or given one
//! order.
ghost use Rattle.std.specs.Prelude.{◌≡◌, IfOk, IfErr, IfSome, is_some, true, Ok, Err, None};
ghost use Rattle.std.specs.Arc.{arc_value};
ghost use Rattle.std.specs.Sync.Mutex.{mutex_guard_value};
ghost use Rattle.duct_status.specs.ShapeView.{shape_view};
ghost use Rattle.duct_running.specs.Allowed.{HaveReported, OneRuns};
ghost use Rattle.duct_running.specs.Answered.{IsAnswer};
ghost use Rattle.duct_running.specs.NumbersView.{numbers_of, numbers_view};
ghost use Rattle.duct_running.specs.Polled.{PolledOnce, StaysSame};
ghost use Rattle.duct_running.specs.Stored.{AreUnasked};
ghost use Rattle.duct_handle.specs.Obeyed.{IsObeyed, IsOrderedOnce};
ghost use Rattle.duct_handle.specs.Waited.{IsMemoryOrOther, IsNoEnding};

use crate::orders::ordered;
use crate::poll::{mismatch_error, poll_checked, same};
use crate::published::Published;
use crate::reports::reports;
use duct_base::error::Error;
use duct_base::status::{Shape, Word};
use duct_base::system::{Order, System};
use duct_running::numbers::Numbers;
use duct_running::running::Running;
use duct_system::views::Viewed;
use std::alloc::Global;
use std::sync::{Mutex, MutexGuard, Wait};

// What runs, and what is published once it has ended.
struct HandleState<S: System> {
    running: Running<S>,
    spare: Option<Box<Published<S>>>,
}

/// The lock around what a handle runs.
pub(crate) struct Lock<S: System> {
    state: Mutex<HandleState<S>>,
}

/// The lock, once it is taken: what it holds can be polled once, or given one order.
#[derive(Drop)]
pub(crate) struct Guard<'a, S: System> {
    state: MutexGuard<'a, HandleState<S>>,
}

/// The lock, still taken after that: what it holds can't be polled or given an order.
#[derive(Drop)]
pub(crate) struct SpentGuard<'a, S: System> {
    state: MutexGuard<'a, HandleState<S>>,
}

impl<S: System> Lock<S> {
    /// Makes a lock around what a start left, which nobody polled and which was given no order, and
    /// a spare that has its shape and its numbers, and no result.
    pub(crate) fn new(running: Running<S>, spare: Box<Published<S>>) -> Lock<S>
        requires unasked { AreUnasked ⟦<S as Viewed>⟧.views running.children running.feeds
            running.output running.error }
        requires shape { shape_view (arc_value spare.value.shape) ≡ shape_view running.shape }
        requires numbers { numbers_view spare.value.numbers
            ≡ numbers_of ⟦<S as Viewed>⟧.views running }
        requires silent { spare.value.answer ≡ None }
    {
        Lock {
            state: Mutex::new(HandleState {
                running,
                spare: Some(spare),
            }),
        }
    }

    /// Takes the lock. It blocks while another thread has it.
    pub(crate) fn lock(&self, rt: &impl Wait) -> Guard<'_, S> {
        Guard {
            state: self.state.lock(rt),
        }
    }

    /// Returns what it holds, once no thread shares it.
    pub(crate) fn into_running(self) -> Running<S> {
        let Lock { state } = self;
        let HandleState { running, spare } = state.into_inner();
        drop(spare);
        running
    }
}

impl<'a, S: System> Guard<'a, S> {
    /// Polls what runs, once. Where it has ended, returns the spare with its result, to be
    /// published; before that `None`. It fails where the shape or the numbers differ from these.
    pub(crate) fn poll(
        self,
        shape: &Shape,
        numbers: &Numbers,
    ) -> (Result<Option<Box<Published<S>>>, Error>, SpentGuard<'a, S>)
        ensures polls { PolledOnce ⟦<S as Viewed>⟧.views
            (mutex_guard_value self.entry.state).running
            (mutex_guard_value result.1.state).running }
        ensures stays { StaysSame ⟦<S as Viewed>⟧.views
            (mutex_guard_value self.entry.state).running
            (mutex_guard_value result.1.state).running }
        ensures ended { IfOk result.0 (λ o. IfSome o (λ b. is_some b.value.answer ≡ true)) }
        ensures runs { result.0 ≡ Ok None
            → OneRuns ⟦<S as Viewed>⟧.views (numbers_view numbers.now) }
        ensures waits { result.0 ≡ Ok None → IsAnswer ⟦<S as Viewed>⟧.views
            (shape_view shape.now) (numbers_view numbers.now) (Ok None) }
        ensures fault { IfErr result.0 IsNoEnding }
        ensures err { IfErr result.0 (λ e. IsAnswer ⟦<S as Viewed>⟧.views (shape_view shape.now)
            (numbers_view numbers.now) (Err e)) }
    {
        let Guard { mut state } = self;
        let looked = poll_state(&mut *state, shape, numbers);
        (looked, SpentGuard { state })
    }

    /// Gives the order to what runs, once. It fails, and gives nothing, where the shape or the
    /// numbers differ from these.
    pub(crate) fn order(
        self,
        shape: &Shape,
        numbers: &Numbers,
        order: Order,
    ) -> (Result<(), Error>, SpentGuard<'a, S>)
        ensures orders { IsOrderedOnce ⟦<S as Viewed>⟧.views order
            (mutex_guard_value self.entry.state).running result.0
            (mutex_guard_value result.1.state).running }
        ensures obeyed { IsObeyed ⟦<S as Viewed>⟧.views order
            (numbers_view numbers.now).children result.0 }
    {
        let Guard { mut state } = self;
        let obeyed = ordered(&mut (*state).running, shape, numbers, order);
        (obeyed, SpentGuard { state })
    }
}

impl<S: System> Guard<'_, S> {
    /// Returns the latest report of each command of what runs. It fails where the shape or the
    /// numbers differ from these.
    pub(crate) fn reports(
        self,
        alloc: Global,
        shape: &Shape,
        numbers: &Numbers,
    ) -> Result<Vec<Word>, Error>
        ensures reports { IfOk result (λ words. HaveReported ⟦<S as Viewed>⟧.views
            (numbers_view numbers.now).children words.items) }
        ensures err { IfErr result IsMemoryOrOther }
    {
        reports(alloc, &self.state.running, shape, numbers)
    }
}

impl<'a, S: System> SpentGuard<'a, S> {
    /// Returns whether a command said `Running` at the last poll.
    pub(crate) fn is_busy(&self) -> bool {
        self.state.running.is_busy()
    }
}

// Polls what runs, once, and fills the spare where it has ended.
fn poll_state<S: System>(
    state: &mut HandleState<S>,
    shape: &Shape,
    numbers: &Numbers,
) -> Result<Option<Box<Published<S>>>, Error>
    ensures polls { PolledOnce ⟦<S as Viewed>⟧.views state.old.running state.new.running }
    ensures stays { StaysSame ⟦<S as Viewed>⟧.views state.old.running state.new.running }
    ensures ended { IfOk result (λ o. IfSome o (λ b. is_some b.value.answer ≡ true)) }
    ensures runs { result ≡ Ok None → OneRuns ⟦<S as Viewed>⟧.views (numbers_view numbers.now) }
    ensures waits { result ≡ Ok None → IsAnswer ⟦<S as Viewed>⟧.views (shape_view shape.now)
        (numbers_view numbers.now) (Ok None) }
    ensures fault { IfErr result IsNoEnding }
    ensures err { IfErr result (λ e. IsAnswer ⟦<S as Viewed>⟧.views (shape_view shape.now)
        (numbers_view numbers.now) (Err e)) }
{
    let Some(answer) = poll_checked(&mut state.running, shape, numbers)? else {
        return Ok(None);
    };
    let Some(mut published) = state.spare.take() else {
        return Err(mismatch_error());
    };
    if !same(&published, shape, numbers) {
        return Err(mismatch_error());
    }
    published.answer = Some(answer);
    Ok(Some(published))
}
