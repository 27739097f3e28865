//! What runs of a task, with its streams. Each call moves it on, and none waits.
ghost use Rattle.std.specs.Prelude.{ℕ, ◌≡◌, Bool, true, false, length, IfErr, IfOk, Ok, Option};
ghost use Rattle.std.specs.Duration.{as_nanos};
ghost use Rattle.duct_base.specs.Pool.{counted};
ghost use Rattle.duct_running.specs.NumbersView.{numbers_of};
ghost use Rattle.duct_tasks.specs.Tasks.{Comes, FailsToStart, GoesIfDue, HasNotFailed, IsDue, IsEndOf, IsLastRead, IsOver, IsReady, IsStopped, MayStop, StartsTask, TaskGoes, WasAsked, has_failed, has_failed_at};
ghost use Rattle.duct_tasks.specs.Until.{HasReached, UnlessEnded};
ghost use Rattle.duct_tasks.specs.declared.job.Came.TheVariants.{End};
ghost use Rattle.duct_tasks.specs.declared.job.Step.TheVariants as step;
ghost use Rattle.duct_tasks.specs.declared.task.Task.TheVariants as state;

use crate::attended::piped;
use crate::finished::{Finished, TaskEnd};
use crate::group::order_all;
use crate::late::{LAST_READ, Late, TERMINATE};
use crate::lines::BothLines;
use crate::many::Tasks;
use crate::statuses::{CommandStatus, add_commands, note};
use crate::watch::{ended, is_final, is_over};
use duct::Expression;
use duct_base::error::Error;
use duct_base::pool::Pool;
use duct_base::spec::Hook;
use duct_base::system::{Clock, Order, Output, Side, System};
use duct_running::running::Running;
use duct_system::views::Viewed;
use std::alloc::Global;
use std::io;
use std::io::Read;
use std::mem::replace;
use std::sync::{Arc, Wait};
use std::thread::Threads;
use std::time::Duration;

/// How far what runs has come.
#[derive(Drop)]
pub(crate) enum Step {
    /// It was given no order, and has not failed.
    Runs,
    /// It was sent signal 15, and may run on until this moment.
    Asked(Duration),
    /// It was stopped like this, and its streams are read on until this moment.
    Killed(Late, Duration),
    /// It has ended with this failure, and its streams are read on until this moment.
    Failed(Error, Duration),
    /// It has ended with no failure, and its streams too.
    Over(Arc<Output>),
}

/// What came of a turn.
#[derive(Clone, Copy)]
pub(crate) enum Came {
    Nothing,
    Bytes,
    /// All is over.
    End,
}

/// What runs of a task.
pub(crate) struct Job<R, L: Read> {
    running: R,
    streams: BothLines<L>,
    commands: Vec<CommandStatus>,
    began: Duration,
    pub step: Step,
}

/// Returns whether a poll has said how it ended, or this moment has come.
pub(crate) fn has_lapsed<C: Clock>(
    ended: &Option<Result<Arc<Output>, Error>>,
    clock: &C,
    last: Duration,
) -> bool
    ensures { result ≡ true
        → UnlessEnded ended.now (HasReached (C.may_show clock.now) (as_nanos last)) }
{
    if is_final(ended, true) {
        return true;
    }
    is_over(clock, last)
}

// Returns how what is over has ended.
fn end_of(step: Step) -> TaskEnd
    requires { IsStopped step }
    ensures { IsEndOf step result }
{
    match step {
        Step::Over(output) => TaskEnd::Ended(Ok(output)),
        Step::Failed(error, _) => TaskEnd::Ended(Err(error)),
        Step::Killed(late, _) => TaskEnd::Late(late),
        Step::Runs | Step::Asked(_) => unreachable!(),
    }
}

// Returns the moment until which streams are read that don't come to EOF.
fn last_read<C: Clock>(clock: &C) -> Duration
    ensures { IsLastRead (C.may_show clock.now) result }
{
    clock.now().saturating_add(Duration::from_secs(LAST_READ))
}

impl<S: System> Job<Running<S>, S::Reader>
where
    S::Reader: Send + 'static,
{
    /// Starts an expression, and begins to read its streams.
    pub fn start<H: Hook, C: Clock>(
        rt: &(impl Threads + Wait),
        sys: &mut S,
        pool: &mut Pool<S::Child>,
        tasks: &Tasks<'_, S::End, H, C>,
        task: &Expression<S::End, H>,
    ) -> Result<Self, Error>
        ensures ok { IfOk result (λ job. StartsTask ⟦<S as Viewed>⟧.views S.may_read
            S.Reader.remaining H.allows H.refuses C.may_show tasks.now
            task.now sys.old sys.new pool.old.given pool.new.given (state.Running job)) }
        ensures ready { IfOk result (IsReady ⟦<S as Viewed>⟧.views S.Reader.remaining
            (C.may_show tasks.now.clock.now)) }
        ensures err { IfErr result (λ e. (given : ℕ) × FailsToStart ⟦<S as Viewed>⟧.views
            S.may_read H.allows H.refuses task.now sys.old e given sys.new
            × (pool.new.given ≡ counted pool.old.given given)) }
    {
        let began = tasks.clock.now();
        let alloc = task.allocator();
        let mut commands = Vec::new(alloc);
        add_commands(&mut commands, task.root())?;
        let (inside, err) = piped(sys, task, true)?;
        let (running, out) = inside.launch_reader(sys, pool)?;
        drop(inside); // so that stderr comes to EOF
        match BothLines::new(rt, alloc, out, err) {
            Ok(streams) => {
                let _ids = running.pids(); // there are as many as commands
                Ok(Job {
                    running,
                    streams,
                    commands,
                    began,
                    step: Step::Runs,
                })
            }
            Err(fault) => {
                running.give_up(pool);
                Err(Error::System(fault))
            }
        }
    }

    /// Returns the process ids of its commands, from left to right.
    pub fn pids(&self) -> &[u32] {
        self.running.pids()
    }

    /// Sends signal 15 to what runs, if that was given no order yet.
    pub fn ask<H: Hook, C: Clock>(
        &mut self,
        rt: &impl Wait,
        sys: &mut S,
        pool: &mut Pool<S::Child>,
        tasks: &Tasks<'_, S::End, H, C>,
        like: &Expression<S::End, H>,
    )
        requires ready { IsReady ⟦<S as Viewed>⟧.views S.Reader.remaining
            (C.may_show tasks.now.clock.now) self.old }
        ensures ready { IsReady ⟦<S as Viewed>⟧.views S.Reader.remaining
            (C.may_show tasks.now.clock.now) self.new }
        ensures goes { (stopped : Bool) → MayStop C.may_show tasks.now stopped
            → TaskGoes ⟦<S as Viewed>⟧.views S.may_read S.Reader.remaining H.allows H.refuses
            C.may_show tasks.now stopped (state.Running self.old) (state.Running self.new)
            sys.old sys.new pool.old.given pool.new.given }
        ensures asked { WasAsked self.new.step }
        ensures fails { has_failed_at self.new.step ≡ has_failed_at self.old.step }
    {
        if let Step::Runs = self.step {
            let _ended = ended(&mut self.running); // what has ended keeps its status
            let _ = order_all(
                rt,
                sys,
                pool,
                like,
                Order::Signal(TERMINATE),
                &mut self.running,
            );
            note(&mut self.commands, self.running.reports());
            self.step = Step::Asked(tasks.clock.now().saturating_add(tasks.grace));
        }
    }

    /// Reads what came, polls, and stops what is late.
    pub fn turn<H: Hook, C: Clock, F: FnMut(Side, &[u8]) -> io::Result<()>>(
        &mut self,
        rt: &(impl Threads + Wait),
        sys: &mut S,
        pool: &mut Pool<S::Child>,
        tasks: &Tasks<'_, S::End, H, C>,
        like: &Expression<S::End, H>,
        each: &mut F,
    ) -> Came
        requires callable { F.IsAlwaysCallable each.old }
        requires ready { IsReady ⟦<S as Viewed>⟧.views S.Reader.remaining
            (C.may_show tasks.now.clock.now) self.old }
        ensures callable { F.IsAlwaysCallable each.new }
        ensures ready { IsReady ⟦<S as Viewed>⟧.views S.Reader.remaining
            (C.may_show tasks.now.clock.now) self.new }
        ensures goes { GoesIfDue ⟦<S as Viewed>⟧.views S.may_read S.Reader.remaining H.allows
            H.refuses C.may_show tasks.now (state.Running self.old) (state.Running self.new)
            sys.old sys.new pool.old.given pool.new.given }
        ensures over { result ≡ End → IsOver (C.may_show tasks.now.clock.now) self.new }
        ensures fails { has_failed_at self.old.step ≡ true → has_failed_at self.new.step ≡ true }
    {
        let before = self.streams.count();
        self.streams.turn(rt, like.allocator(), each);
        if !self.go_on(rt, sys, pool, tasks, like) {
            self.streams.give_up(each);
            return Came::End;
        }
        if before < self.streams.count() {
            Came::Bytes
        } else {
            Came::Nothing
        }
    }

    // Polls, and stops what is late. Returns whether it goes on.
    fn go_on<H: Hook, C: Clock>(
        &mut self,
        rt: &impl Wait,
        sys: &mut S,
        pool: &mut Pool<S::Child>,
        tasks: &Tasks<'_, S::End, H, C>,
        like: &Expression<S::End, H>,
    ) -> bool
        requires ready { IsReady ⟦<S as Viewed>⟧.views S.Reader.remaining
            (C.may_show tasks.now.clock.now) self.old }
        ensures ready { IsReady ⟦<S as Viewed>⟧.views S.Reader.remaining
            (C.may_show tasks.now.clock.now) self.new }
        ensures goes { GoesIfDue ⟦<S as Viewed>⟧.views S.may_read S.Reader.remaining H.allows
            H.refuses C.may_show tasks.now (state.Running self.old) (state.Running self.new)
            sys.old sys.new pool.old.given pool.new.given }
        ensures over { result ≡ false → IsOver (C.may_show tasks.now.clock.now) self.new }
        ensures fails { has_failed_at self.old.step ≡ true → has_failed_at self.new.step ≡ true }
    {
        match self.step {
            Step::Runs => self.run_on(rt, sys, pool, tasks, like),
            Step::Asked(last) => {
                self.lapse(rt, sys, pool, tasks, like, last);
                true
            }
            Step::Killed(_, last) | Step::Failed(_, last) => {
                self.streams.go_on() && !is_over(tasks.clock, last)
            }
            Step::Over(_) => false,
        }
    }

    // Polls what was given no order, and asks it to end where it is late. It goes on until its
    // streams are read, or a second longer where it has failed. Returns whether it does.
    fn run_on<H: Hook, C: Clock>(
        &mut self,
        rt: &impl Wait,
        sys: &mut S,
        pool: &mut Pool<S::Child>,
        tasks: &Tasks<'_, S::End, H, C>,
        like: &Expression<S::End, H>,
    ) -> bool
        requires runs { self.old.step ≡ step.Runs }
        requires ready { IsReady ⟦<S as Viewed>⟧.views S.Reader.remaining
            (C.may_show tasks.now.clock.now) self.old }
        ensures ready { IsReady ⟦<S as Viewed>⟧.views S.Reader.remaining
            (C.may_show tasks.now.clock.now) self.new }
        ensures goes { GoesIfDue ⟦<S as Viewed>⟧.views S.may_read S.Reader.remaining H.allows
            H.refuses C.may_show tasks.now (state.Running self.old) (state.Running self.new)
            sys.old sys.new pool.old.given pool.new.given }
        ensures over { result ≡ false → IsOver (C.may_show tasks.now.clock.now) self.new }
        ensures notices { self.new.step ≡ step.Runs
            → HasNotFailed ⟦<S as Viewed>⟧.views self.new.running }
    {
        let is_open = self.streams.go_on();
        match ended(&mut self.running) {
            Some(Err(error)) => {
                note(&mut self.commands, self.running.reports());
                self.step = Step::Failed(error, last_read(tasks.clock));
                is_open
            }
            Some(Ok(output)) if !is_open => {
                note(&mut self.commands, self.running.reports());
                self.step = Step::Over(output);
                false
            }
            Some(Ok(_)) | None => {
                self.ask_if_late(rt, sys, pool, tasks, like);
                true
            }
        }
    }

    // Asks what has run for longer than it may to end, if it was given no order yet.
    fn ask_if_late<H: Hook, C: Clock>(
        &mut self,
        rt: &impl Wait,
        sys: &mut S,
        pool: &mut Pool<S::Child>,
        tasks: &Tasks<'_, S::End, H, C>,
        like: &Expression<S::End, H>,
    )
        requires ready { IsReady ⟦<S as Viewed>⟧.views S.Reader.remaining
            (C.may_show tasks.now.clock.now) self.old }
        ensures ready { IsReady ⟦<S as Viewed>⟧.views S.Reader.remaining
            (C.may_show tasks.now.clock.now) self.new }
        ensures goes { GoesIfDue ⟦<S as Viewed>⟧.views S.may_read S.Reader.remaining H.allows
            H.refuses C.may_show tasks.now (state.Running self.old) (state.Running self.new)
            sys.old sys.new pool.old.given pool.new.given }
        ensures stays { self.new.step ≡ step.Runs → self.new.running ≡ self.old.running }
    {
        if tasks.are_late(self.began) {
            self.ask(rt, sys, pool, tasks, like);
        }
    }

    // Polls what was asked to end, and kills it once it has ended or its grace has.
    fn lapse<H: Hook, C: Clock>(
        &mut self,
        rt: &impl Wait,
        sys: &mut S,
        pool: &mut Pool<S::Child>,
        tasks: &Tasks<'_, S::End, H, C>,
        like: &Expression<S::End, H>,
        last: Duration,
    )
        requires ready { IsReady ⟦<S as Viewed>⟧.views S.Reader.remaining
            (C.may_show tasks.now.clock.now) self.old }
        requires asked { self.old.step ≡ step.Asked last }
        ensures ready { IsReady ⟦<S as Viewed>⟧.views S.Reader.remaining
            (C.may_show tasks.now.clock.now) self.new }
        ensures goes { GoesIfDue ⟦<S as Viewed>⟧.views S.may_read S.Reader.remaining H.allows
            H.refuses C.may_show tasks.now (state.Running self.old) (state.Running self.new)
            sys.old sys.new pool.old.given pool.new.given }
    {
        let ended = ended(&mut self.running);
        if has_lapsed(&ended, tasks.clock, last) {
            let killed = order_all(rt, sys, pool, like, Order::Kill, &mut self.running);
            self.step = Step::Killed(Late { ended, killed }, last_read(tasks.clock));
        }
    }

    /// Takes what came of what is over.
    pub fn finish<C: Clock>(&mut self, alloc: Global, clock: &C) -> Finished
        requires over { IsOver (C.may_show clock.now) self.old }
        requires ready { IsReady ⟦<S as Viewed>⟧.views S.Reader.remaining (C.may_show clock.now)
            self.old }
        ensures came { (grace : Duration) (limit : Option Duration) (stopped : Bool)
            → Comes ⟦<S as Viewed>⟧.views S.Reader.remaining (C.may_show clock.now) grace
            (IsDue (C.may_show clock.now) limit stopped) self.old result }
        ensures running { self.new.running ≡ self.old.running }
        ensures fails { has_failed_at self.old.step ≡ true → has_failed result ≡ true }
        ensures count { length result.commands.items
            ≡ length (numbers_of ⟦<S as Viewed>⟧.views self.old.running).children }
    {
        let end = end_of(replace(&mut self.step, Step::Runs));
        let (stdout, stderr, unread) = self.streams.take(alloc);
        Finished {
            end,
            stdout,
            stderr,
            unread,
            commands: replace(&mut self.commands, Vec::new(alloc)),
            request: None,
            took: clock.now().saturating_sub(self.began),
        }
    }

    /// Returns what runs, or has ended.
    pub fn into_running(self) -> Running<S>
        ensures { result ≡ self.running }
    {
        let Job {
            running,
            streams: _,
            commands: _,
            began: _,
            step: _,
        } = self;
        running
    }
}
