//! One of several services: how often it was started, what runs of it, and what becomes of that.
ghost use Rattle.std.specs.Prelude.{◌≡◌, ◌+◌, ◌<◌, ◌≤◌, true, false, if◌then◌else◌, min, Some};
ghost use Rattle.std.specs.Duration.{as_nanos, max_nanos};
ghost use Rattle.std.specs.declared.time.Duration.{Duration};
ghost use Rattle.duct_base.specs.Pool.{greatest};
ghost use Rattle.duct_tasks.specs.Services.{Advances, CameTo, EndsByItself, HasLeft, IsFresh, Spends, is_over};
ghost use Rattle.duct_tasks.specs.Turns.{gives};
ghost use Rattle.duct_tasks.specs.declared.keeper.Why.TheVariants.{Failed};
ghost use Rattle.duct_tasks.specs.declared.service.State.TheVariants as state;

use crate::group::order_all;
use crate::job::has_lapsed;
use crate::keeper::{Kept, Services, Turn, Why};
use crate::late::TERMINATE;
use crate::pauses::longer;
use crate::task::{is_failure, spend};
use crate::watch::ended;
use duct::Expression;
use duct_base::error::Error;
use duct_base::pool::Pool;
use duct_base::spec::Hook;
use duct_base::system::{Clock, Order, Output, System};
use duct_running::running::Running;
use duct_system::views::Viewed;
use std::mem::replace;
use std::sync::{Arc, Wait};
use std::time::Duration;

/// What runs of a service.
pub(crate) struct Live<R> {
    running: R,
    began: Duration,
    /// Until when it may run on, where it was sent signal 15.
    asked: Option<Duration>,
}

/// How far a service has come.
pub(crate) enum State<R> {
    /// Nothing of it runs, and it may be started from this moment on.
    Rests(Duration),
    Runs(Live<R>),
    /// It is not started again.
    Over(Why),
}

/// What came of a turn.
#[derive(Clone, Copy)]
pub(crate) enum Came {
    Nothing,
    /// It was sent signal 15, or is not started again.
    Step,
    Started,
    /// It could not be started.
    Refused,
    /// It has ended, or was killed.
    Ended,
}

/// A service.
pub(crate) struct Service<R> {
    pub starts: u64,
    /// How many starts there were since the last run of a healthy length.
    row: u32,
    /// The pause after the last of those.
    pause: Duration,
    pub last: Option<Result<Arc<Output>, Error>>,
    pub state: State<R>,
}

impl<R> Service<R> {
    /// Before its first start.
    pub fn new() -> Self
        ensures { IsFresh result }
    {
        Service {
            starts: 0,
            row: 0,
            pause: Duration::ZERO,
            last: None,
            state: State::Rests(Duration::ZERO),
        }
    }

    /// Returns whether it is not started again.
    pub fn is_over(&self) -> bool
        ensures { result ≡ true → HasLeft self.now }
    {
        matches!(self.state, State::Over(_))
    }

    // What rests goes on like this, of which this came.
    fn move_to(&mut self, next: State<R>, came: Came) -> Came
        requires { (from : Duration) × (self.old.state ≡ state.Rests from) }
        ensures { self.new ≡ record self.old { state = next } }
    {
        match replace(&mut self.state, next) {
            State::Rests(_) | State::Over(_) => {}
            State::Runs(_live) => unreachable!(),
        }
        came
    }

    // Counts anew after a run of a healthy length.
    fn count_anew(&mut self, is_healthy: bool)
        ensures row { self.new.row ≡ (if is_healthy then 0 else self.old.row) }
        ensures pause { as_nanos self.new.pause
            ≡ (if is_healthy then 0 else as_nanos self.old.pause) }
        ensures stays { self.new
            ≡ record self.old { row = self.new.row; pause = self.new.pause } }
    {
        if is_healthy {
            self.row = 0;
            self.pause = Duration::ZERO;
        }
    }

    // Returns the state from this moment on, if it may be started again after its pause.
    fn after(&self, may_start: bool, now: Duration) -> State<R>
        ensures rests { may_start ≡ true → (from : Duration) × (result ≡ state.Rests from)
            × (as_nanos from ≡ min (as_nanos now + as_nanos self.now.pause) max_nanos) }
        ensures over { may_start ≡ false → result ≡ state.Over Failed }
    {
        if may_start {
            State::Rests(now.saturating_add(self.pause))
        } else {
            State::Over(Why::Failed)
        }
    }

    /// Returns what came of it. It is not started again.
    pub fn into_kept(self) -> Kept
        requires { HasLeft self }
        ensures { CameTo self result }
    {
        let Service {
            starts,
            row: _,
            pause: _,
            last,
            state,
        } = self;
        match state {
            State::Over(why) => Kept { starts, why, last },
            State::Runs(_live) => unreachable!(),
            State::Rests(_) => unreachable!(),
        }
    }
}

impl<S: System> Service<Running<S>> {
    // Starts it once this moment has come, unless it is to stop or was started as often as it may
    // be.
    fn start<H: Hook, C: Clock>(
        &mut self,
        sys: &mut S,
        pool: &mut Pool<S::Child>,
        services: &Services<'_, S::End, H, C>,
        like: &Expression<S::End, H>,
        stops: bool,
        from: Duration,
    ) -> Came
        requires { self.old.state ≡ state.Rests from }
        ensures { Advances ⟦<S as Viewed>⟧.views C.may_show services.now H.allows H.refuses
            (λ said. stops ≡ said) like.now (sys.old, pool.old) self.old (sys.new, pool.new)
            self.new }
    {
        let restarts = services.restarts;
        if restarts.most <= self.row {
            return self.move_to(State::Over(Why::GaveUp), Came::Step);
        }
        if stops {
            return self.move_to(State::Over(Why::Stopped), Came::Step);
        }
        let (began, asked) = (services.clock.now(), None);
        if began.as_nanos() < from.as_nanos() {
            return Came::Nothing;
        }
        self.starts = self.starts.saturating_add(1);
        self.row += 1;
        self.pause = longer(self.pause, restarts.pause, restarts.greatest);
        let given = pool.given();
        match like.launch(sys, pool) {
            Ok(running) => {
                let live = Live {
                    running,
                    began,
                    asked,
                };
                self.move_to(State::Runs(live), Came::Started)
            }
            Err(error) => {
                self.last = Some(Err(error));
                let none = has_none(given, pool.given());
                self.move_to(self.after(none, services.clock.now()), Came::Refused)
            }
        }
    }

    // What runs of it has ended like this, or was killed. Its children are given to the pool,
    // unless it succeeded.
    fn end(
        &mut self,
        pool: &mut Pool<S::Child>,
        last: Option<Result<Arc<Output>, Error>>,
        next: State<Running<S>>,
    ) -> Came
        requires { (live : _) × (self.old.state ≡ state.Runs live) }
        ensures stands { self.new ≡ record self.old { last = last; state = next } }
        ensures spends { (live : _) → self.old.state ≡ state.Runs live
            → Spends ⟦<S as Viewed>⟧.views (gives last) live.running pool.old pool.new }
    {
        let failed = has_failed(&last);
        self.last = last;
        match replace(&mut self.state, next) {
            State::Runs(live) => {
                let Live {
                    running,
                    began: _,
                    asked: _,
                } = live;
                spend(pool, running, failed);
            }
            State::Rests(_) | State::Over(_) => unreachable!(),
        }
        Came::Ended
    }

    // What runs of it since this moment has ended by itself.
    fn end_by_itself<H, C: Clock>(
        &mut self,
        pool: &mut Pool<S::Child>,
        services: &Services<'_, S::End, H, C>,
        began: Duration,
        end: Result<Arc<Output>, Error>,
    ) -> Came
        requires { (live : _) × (self.old.state ≡ state.Runs live) }
        ensures stands { EndsByItself ⟦<S as Viewed>⟧.views C.may_show services.now began self.old
            end self.new }
        ensures spends { (live : _) → self.old.state ≡ state.Runs live
            → Spends ⟦<S as Viewed>⟧.views (gives (Some end)) live.running pool.old pool.new }
    {
        let now = services.clock.now();
        self.count_anew(lasts(services.restarts.healthy, began, now));
        let next = self.after(is_over(&end), now);
        self.end(pool, Some(end), next)
    }

    /// Starts what rests, polls what runs, and stops it where it is to stop. Returns what came of
    /// that.
    pub fn turn<H: Hook, C: Clock>(
        &mut self,
        rt: &impl Wait,
        sys: &mut S,
        pool: &mut Pool<S::Child>,
        services: &Services<'_, S::End, H, C>,
        like: &Expression<S::End, H>,
        stops: bool,
    ) -> Came
        ensures { Advances ⟦<S as Viewed>⟧.views C.may_show services.now H.allows H.refuses
            (λ said. stops ≡ said) like.now (sys.old, pool.old) self.old (sys.new, pool.new)
            self.new }
    {
        match &mut self.state {
            State::Rests(from) => {
                let from = *from;
                self.start(sys, pool, services, like, stops, from)
            }
            State::Runs(live) => {
                let ended = ended(&mut live.running);
                if let Some(last) = live.asked {
                    if !has_lapsed(&ended, services.clock, last) {
                        return Came::Nothing;
                    }
                    let _ = order_all(rt, sys, pool, like, Order::Kill, &mut live.running);
                    return self.end(pool, ended, State::Over(Why::Stopped));
                }
                if let Some(end) = ended {
                    let began = live.began;
                    return self.end_by_itself(pool, services, began, end);
                }
                if stops {
                    let order = Order::Signal(TERMINATE);
                    let _ = order_all(rt, sys, pool, like, order, &mut live.running);
                    let grace = services.restarts.grace;
                    live.asked = Some(services.clock.now().saturating_add(grace));
                    return Came::Step;
                }
                Came::Nothing
            }
            State::Over(_) => Came::Nothing,
        }
    }

    /// Returns what is to be told of its last turn, of which this came.
    pub fn told(&self, came: Came) -> Option<Turn<'_>> {
        match came {
            Came::Nothing | Came::Step => None,
            Came::Started => match &self.state {
                State::Runs(live) => Some(Turn::Started(live.running.pids())),
                State::Rests(_) | State::Over(_) => None,
            },
            Came::Refused => match &self.last {
                Some(Err(error)) => Some(Turn::Refused(error)),
                Some(Ok(_)) | None => None,
            },
            Came::Ended => match &self.last {
                Some(end) => Some(Turn::Ended(end)),
                None => None,
            },
        }
    }
}

// Returns whether a pool was given no child between two counts of it. Beyond the greatest count
// that can't be told.
fn has_none(before: u64, after: u64) -> bool
    ensures yes { result ≡ true → (after ≡ before) × (before < greatest) }
    ensures no { result ≡ false → after ≡ before → before ≡ greatest }
{
    after == before && before < u64::MAX
}

// Returns whether it takes at least so long from one moment to another.
fn lasts(length: Duration, from: Duration, to: Duration) -> bool
    ensures yes { result ≡ true → min (as_nanos from + as_nanos length) max_nanos ≤ as_nanos to }
    ensures no { result ≡ false → as_nanos to < min (as_nanos from + as_nanos length) max_nanos }
{
    from.saturating_add(length).as_nanos() <= to.as_nanos()
}

// Returns whether what ended like this failed, or was killed.
fn has_failed(last: &Option<Result<Arc<Output>, Error>>) -> bool
    ensures { result ≡ gives last.now }
{
    match last {
        Some(end) => is_failure(end),
        None => true,
    }
}

// Returns whether no command runs any more of what ended by itself like this.
fn is_over(end: &Result<Arc<Output>, Error>) -> bool
    ensures { result ≡ is_over end.now }
{
    match end {
        Ok(_) | Err(Error::Checked(_)) => true,
        Err(Error::System(_) | Error::NotUtf8 | Error::Hook(_)) => false,
        Err(Error::HookEnd(_) | Error::Deadline | Error::Memory) => false,
    }
}
