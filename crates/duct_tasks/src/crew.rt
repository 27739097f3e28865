//! The tasks that were started, of which only so many run.
ghost use Rattle.std.specs.Prelude.{◌≡◌, ◌+◌, ◌<◌, ◌≤◌, ◌⊎◌, true, false, [], All, length, sum_by, vec_capacity, IfOk};
ghost use Rattle.duct_tasks.specs.Tasks.{AreEnds, Goes, AreReady, WasAskedTask, failed_of, running_of};
ghost use Rattle.duct_tasks.specs.Turns.{GoesOn};
ghost use Rattle.duct_tasks.specs.declared.many.AtFailure.TheVariants.{Stop};

use crate::finished::Finished;
use crate::job::Came;
use crate::many::{AtFailure, Progress, Tasks};
use crate::task::{Task, advance, ask, ends_of, has_failed, running, started};
use duct_base::pool::Pool;
use duct_base::spec::Hook;
use duct_base::system::{Clock, Side, System};
use duct_running::running::Running;
use duct_system::views::Viewed;
use std::alloc::{AllocError, Global};
use std::io;
use std::io::Read;
use std::sync::Wait;
use std::thread::Threads;

/// Tasks of which those at the front were started. No more of these run than may at once.
pub(crate) struct Crew<'t, E, H, C, R, L: Read> {
    tasks: Tasks<'t, E, H, C>,
    started: Vec<Task<R, L>>,
    running: usize,
    failed: bool,
    stopped: bool,
    pub ghost some: { 0 < tasks.at_once },
    pub ghost few: { running ≤ tasks.at_once },
    pub ghost runs: { running ≡ sum_by running_of started.items },
    pub ghost fails: { failed ≡ true → 0 < sum_by failed_of started.items },
    pub ghost well: { failed ≡ false → sum_by failed_of started.items ≡ 0 },
    pub ghost stops: { stopped ≡ true → (failed ≡ true) × (tasks.at_failure ≡ Stop) },
    pub ghost room: { length tasks.all.now ≤ vec_capacity started },
    pub ghost within: { length started.items ≤ length tasks.all.now },
}

impl<'t, H: Hook, S: System, C: Clock> Crew<'t, S::End, H, C, Running<S>, S::Reader>
where
    S::Reader: Send + 'static,
{
    /// No task was started yet.
    pub fn new(alloc: Global, tasks: Tasks<'t, S::End, H, C>) -> Result<Self, AllocError>
        requires some { 0 < tasks.at_once }
        ensures tasks { IfOk result (λ crew. crew.tasks ≡ tasks.entry) }
        ensures none { IfOk result (λ crew. crew.started.items ≡ []) }
        ensures unasked { IfOk result (λ crew. crew.stopped ≡ false) }
    {
        let started = Vec::with_capacity(alloc, tasks.all.len())?;
        Ok(Crew {
            tasks,
            started,
            running: 0,
            failed: false,
            stopped: false,
        })
    }

    // Whether one more task may start.
    fn has_room(&self) -> bool
        ensures few { result ≡ true → self.now.running < self.now.tasks.at_once }
        ensures goes_on { result ≡ true → GoesOn self.now.tasks.at_failure self.now.failed }
        ensures full { result ≡ false → self.now.running ≡ 0
            → GoesOn self.now.tasks.at_failure self.now.failed → ⊥ }
    {
        match self.tasks.at_failure {
            AtFailure::GoOn => self.running < self.tasks.at_once,
            AtFailure::Wait | AtFailure::Stop => !self.failed && self.running < self.tasks.at_once,
        }
    }

    // Starts the next task. One that can't be started has failed.
    fn start(&mut self, rt: &(impl Threads + Wait), sys: &mut S, pool: &mut Pool<S::Child>)
        requires some { length self.old.started.items < length self.old.tasks.all.now }
        requires few { self.old.running < self.old.tasks.at_once }
        requires goes_on { GoesOn self.old.tasks.at_failure self.old.failed }
        requires ready { AreReady ⟦<S as Viewed>⟧.views S.Reader.remaining C.may_show
            self.old.tasks self.old.stopped self.old.started.items }
        ensures tasks { self.new.tasks ≡ self.old.tasks }
        ensures ready { AreReady ⟦<S as Viewed>⟧.views S.Reader.remaining C.may_show
            self.new.tasks self.new.stopped self.new.started.items }
        ensures one { length self.new.started.items ≡ length self.old.started.items + 1 }
        ensures goes { Goes ⟦<S as Viewed>⟧.views S.may_read S.Reader.remaining H.allows H.refuses
            C.may_show self.old.tasks self.old.stopped self.new.stopped
            self.old.started.items self.new.started.items sys.old sys.new pool.old.given
            pool.new.given }
    {
        let _limit = self.tasks.at_once; // it is below 2^64
        let all = self.tasks.all;
        let made = started(rt, sys, pool, &self.tasks, &all[self.started.len()]);
        self.running += running(&made);
        self.failed |= has_failed(&made);
        self.started.push_reserved(made);
    }

    /// Starts tasks while there is room.
    pub fn start_more<T: FnMut(usize, Progress<'_>)>(
        &mut self,
        rt: &(impl Threads + Wait),
        sys: &mut S,
        pool: &mut Pool<S::Child>,
        tell: &mut T,
    )
        requires told { (t : T) (place : _) (told : _) → T.pre t place told }
        requires ready { AreReady ⟦<S as Viewed>⟧.views S.Reader.remaining C.may_show
            self.old.tasks self.old.stopped self.old.started.items }
        ensures tasks { self.new.tasks ≡ self.old.tasks }
        ensures ready { AreReady ⟦<S as Viewed>⟧.views S.Reader.remaining C.may_show
            self.new.tasks self.new.stopped self.new.started.items }
        ensures goes { Goes ⟦<S as Viewed>⟧.views S.may_read S.Reader.remaining H.allows H.refuses
            C.may_show self.old.tasks self.old.stopped self.new.stopped
            self.old.started.items self.new.started.items sys.old sys.new pool.old.given
            pool.new.given }
        ensures over { (length self.new.tasks.all.now ≤ length self.new.started.items)
            ⊎ (self.new.running ≡ 0 → GoesOn self.new.tasks.at_failure self.new.failed → ⊥) }
    {
        for at in self.started.len()..self.tasks.all.len() {
            if !self.has_room() {
                return;
            }
            self.start(rt, sys, pool);
            match &self.started[at] {
                Task::Running(job) => tell(at, Progress::Started(job.pids())),
                Task::Ended(finished) => tell(at, Progress::Refused(finished)),
            }
        }
    }

    // Gives the task at this place a turn, if it runs. Returns what came of it.
    fn turn<T: FnMut(usize, Progress<'_>)>(
        &mut self,
        rt: &(impl Threads + Wait),
        sys: &mut S,
        pool: &mut Pool<S::Child>,
        at: usize,
        tell: &mut T,
    ) -> Came
        requires within { at < length self.old.started.items }
        requires told { (t : T) (place : _) (told : _) → T.pre t place told }
        requires ready { AreReady ⟦<S as Viewed>⟧.views S.Reader.remaining C.may_show
            self.old.tasks self.old.stopped self.old.started.items }
        ensures tasks { self.new.tasks ≡ self.old.tasks }
        ensures ready { AreReady ⟦<S as Viewed>⟧.views S.Reader.remaining C.may_show
            self.new.tasks self.new.stopped self.new.started.items }
        ensures count { length self.new.started.items ≡ length self.old.started.items }
        ensures stopped { self.new.stopped ≡ self.old.stopped }
        ensures goes { Goes ⟦<S as Viewed>⟧.views S.may_read S.Reader.remaining H.allows H.refuses
            C.may_show self.old.tasks self.old.stopped self.new.stopped
            self.old.started.items self.new.started.items sys.old sys.new pool.old.given
            pool.new.given }
    {
        let all = self.tasks.all;
        let task = &mut self.started[at];
        self.running -= running(task);
        let mut each = |side: Side, line: &[u8]| -> io::Result<()>
            requires { (t : T) (place : _) (told : _) → T.pre t place told }
        {
            tell(at, Progress::Line(side, line));
            Ok(())
        };
        let came = advance(rt, sys, pool, &self.tasks, &all[at], task, &mut each);
        self.running += running(task);
        self.failed |= has_failed(task);
        came
    }

    /// Gives the tasks that run a turn each. Returns whether something came of one.
    pub fn turn_all<T: FnMut(usize, Progress<'_>)>(
        &mut self,
        rt: &(impl Threads + Wait),
        sys: &mut S,
        pool: &mut Pool<S::Child>,
        tell: &mut T,
    ) -> bool
        requires told { (t : T) (place : _) (told : _) → T.pre t place told }
        requires ready { AreReady ⟦<S as Viewed>⟧.views S.Reader.remaining C.may_show
            self.old.tasks self.old.stopped self.old.started.items }
        ensures tasks { self.new.tasks ≡ self.old.tasks }
        ensures ready { AreReady ⟦<S as Viewed>⟧.views S.Reader.remaining C.may_show
            self.new.tasks self.new.stopped self.new.started.items }
        ensures goes { Goes ⟦<S as Viewed>⟧.views S.may_read S.Reader.remaining H.allows H.refuses
            C.may_show self.old.tasks self.old.stopped self.new.stopped
            self.old.started.items self.new.started.items sys.old sys.new pool.old.given
            pool.new.given }
    {
        let mut came = false;
        for at in 0..self.started.len() {
            let turned = self.turn(rt, sys, pool, at, tell);
            came |= !matches!(turned, Came::Nothing);
            if let Came::End = turned {
                tell_end(tell, at, &self.started[at]);
            }
        }
        came
    }

    /// Asks the tasks that run to end, once, where one has failed and that is to stop them.
    pub fn stop_after_failure(&mut self, rt: &impl Wait, sys: &mut S, pool: &mut Pool<S::Child>)
        requires ready { AreReady ⟦<S as Viewed>⟧.views S.Reader.remaining C.may_show
            self.old.tasks self.old.stopped self.old.started.items }
        ensures tasks { self.new.tasks ≡ self.old.tasks }
        ensures ready { AreReady ⟦<S as Viewed>⟧.views S.Reader.remaining C.may_show
            self.new.tasks self.new.stopped self.new.started.items }
        ensures goes { Goes ⟦<S as Viewed>⟧.views S.may_read S.Reader.remaining H.allows H.refuses
            C.may_show self.old.tasks self.old.stopped self.new.stopped
            self.old.started.items self.new.started.items sys.old sys.new pool.old.given
            pool.new.given }
        ensures stops { self.old.failed ≡ true → self.old.tasks.at_failure ≡ Stop
            → self.new.stopped ≡ true }
        ensures asked { self.old.stopped ≡ false → self.new.stopped ≡ true
            → All WasAskedTask self.new.started.items }
    {
        if self.failed && !self.stopped && matches!(self.tasks.at_failure, AtFailure::Stop) {
            let all = self.tasks.all;
            for at in 0..self.started.len() {
                ask(rt, sys, pool, &self.tasks, &all[at], &mut self.started[at]);
            }
            self.stopped = true;
        }
    }

    /// Returns whether a task runs.
    pub fn is_busy(&self) -> bool
        ensures { result ≡ false → self.now.running ≡ 0 }
    {
        self.running > 0
    }

    /// Returns what came of the tasks, in this room. None runs.
    pub fn into_ends(self, room: Vec<Finished>) -> Vec<Finished>
        requires over { self.running ≡ 0 }
        requires empty { room.items ≡ [] }
        requires fits { length self.started.items ≤ vec_capacity room }
        ensures { AreEnds self.entry.started.items result.items }
    {
        let Crew {
            tasks: _,
            started,
            running: _,
            failed: _,
            stopped: _,
        } = self;
        ends_of(started, room)
    }
}

// Tells what came of a task that has ended.
fn tell_end<R, L: Read, T: FnMut(usize, Progress<'_>)>(tell: &mut T, at: usize, task: &Task<R, L>)
    requires { (t : T) (place : _) (told : _) → T.pre t place told }
{
    match task {
        Task::Running(_) => {}
        Task::Ended(finished) => tell(at, Progress::Ended(finished)),
    }
}
