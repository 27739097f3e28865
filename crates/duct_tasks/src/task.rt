//! A task that was started: how it runs on, and how it ends.
ghost use Rattle.std.specs.Prelude.{Bool, ◌≡◌, ◌≤◌, if◌then◌else◌, true, false, [], drop, length, sum_by, vec_capacity, Some};
ghost use Rattle.duct_base.specs.Pool.{counted};
ghost use Rattle.duct_run.specs.Requested.{PoolGets};
ghost use Rattle.duct_running.specs.NumbersView.{numbers_of};
ghost use Rattle.duct_tasks.specs.Tasks.{AreEnds, GoesIfDue, IsReadyTask, MayStop, StartsTask, TaskGoes, WasAskedTask, failed_of, running_of};
ghost use Rattle.duct_tasks.specs.Turns.{gives};

use crate::finished::Finished;
use crate::job::{Came, Job, Step};
use crate::many::Tasks;
use crate::request::request_of;
use duct::Expression;
use duct_base::error::Error;
use duct_base::pool::Pool;
use duct_base::spec::Hook;
use duct_base::system::{Entry, Output, Side, System};
use duct_running::running::Running;
use duct_system::system::Clock;
use duct_system::views::Viewed;
use std::io;
use std::io::Read;
use std::mem::replace;
use std::sync::{Arc, Wait};
use std::thread::Threads;

/// A task that was started: it runs, or has ended.
pub(crate) enum Task<R, L: Read> {
    Running(Job<R, L>),
    Ended(Finished),
}

/// Starts a task. One that can't be started has ended.
pub(crate) fn started<H: Hook, S: System, C: Clock>(
    rt: &(impl Threads + Wait),
    sys: &mut S,
    pool: &mut Pool<S::Child>,
    tasks: &Tasks<'_, S::End, H, C>,
    task: &Expression<S::End, H>,
) -> Task<Running<S>, S::Reader>
where
    S::Reader: Send + 'static,
    ensures starts { StartsTask ⟦<S as Viewed>⟧.views S.may_read S.Reader.remaining H.allows
        H.refuses C.may_show tasks.now task.now sys.old sys.new
        pool.old.given pool.new.given result }
    ensures ready { IsReadyTask ⟦<S as Viewed>⟧.views S.Reader.remaining
        (C.may_show tasks.now.clock.now) result }
{
    let before = sys.journal().len();
    match Job::start(rt, sys, pool, tasks, task) {
        Ok(job) => Task::Running(job),
        Err(error) => {
            let added = added_since(sys.journal(), before);
            let request = request_of(task.allocator(), added);
            Task::Ended(Finished::refused(task.allocator(), error, request))
        }
    }
}

// Returns the entries that came after the first so many.
fn added_since(entries: &[Entry], before: usize) -> &[Entry]
    ensures { result.now ≡ drop before entries.now }
{
    if before <= entries.len() {
        &entries[before..]
    } else {
        &[]
    }
}

/// Returns whether this is a failure.
pub(crate) fn is_failure(end: &Result<Arc<Output>, Error>) -> bool
    ensures { result ≡ gives (Some end.now) }
{
    matches!(end, Err(_))
}

/// Spends what has ended or was killed. Where it has failed, its children are given to the pool as
/// they are.
pub(crate) fn spend<S: System>(pool: &mut Pool<S::Child>, running: Running<S>, failed: bool)
    ensures gets { failed ≡ true
        → PoolGets ⟦<S as Viewed>⟧.views running.children pool.old pool.new }
    ensures stays { failed ≡ false → pool.new ≡ pool.old }
    ensures count { pool.new.given ≡ counted pool.old.given
        (if failed then length (numbers_of ⟦<S as Viewed>⟧.views running).children else 0) }
{
    if failed {
        running.give_up(pool);
    } else {
        drop(running.into_parts());
    }
}

/// Gives the task at this place a turn, if it runs.
pub(crate) fn advance<H: Hook, S: System, C: Clock, F: FnMut(Side, &[u8]) -> io::Result<()>>(
    rt: &(impl Threads + Wait),
    sys: &mut S,
    pool: &mut Pool<S::Child>,
    tasks: &Tasks<'_, S::End, H, C>,
    like: &Expression<S::End, H>,
    task: &mut Task<Running<S>, S::Reader>,
    each: &mut F,
) -> Came
where
    S::Reader: Send + 'static,
    requires callable { F.IsAlwaysCallable each.old }
    requires ready { IsReadyTask ⟦<S as Viewed>⟧.views S.Reader.remaining
        (C.may_show tasks.now.clock.now) task.old }
    ensures callable { F.IsAlwaysCallable each.new }
    ensures ready { IsReadyTask ⟦<S as Viewed>⟧.views S.Reader.remaining
        (C.may_show tasks.now.clock.now) task.new }
    ensures goes { GoesIfDue ⟦<S as Viewed>⟧.views S.may_read S.Reader.remaining H.allows H.refuses
        C.may_show tasks.now task.old task.new sys.old sys.new pool.old.given pool.new.given }
    ensures runs { running_of task.new ≤ running_of task.old }
    ensures fails { failed_of task.old ≤ failed_of task.new }
{
    let Task::Running(job) = task else {
        return Came::Nothing;
    };
    let came = job.turn(rt, sys, pool, tasks, like, each);
    if let Came::End = came {
        let finished = job.finish(like.allocator(), tasks.clock);
        let failed = finished.has_failed();
        match replace(task, Task::Ended(finished)) {
            Task::Running(job) => spend(pool, job.into_running(), failed),
            Task::Ended(_) => unreachable!(),
        }
    }
    came
}

/// Asks a task to end, if it runs and was not asked before.
pub(crate) fn ask<H: Hook, S: System, C: Clock>(
    rt: &impl Wait,
    sys: &mut S,
    pool: &mut Pool<S::Child>,
    tasks: &Tasks<'_, S::End, H, C>,
    like: &Expression<S::End, H>,
    task: &mut Task<Running<S>, S::Reader>,
)
where
    S::Reader: Send + 'static,
    requires ready { IsReadyTask ⟦<S as Viewed>⟧.views S.Reader.remaining
        (C.may_show tasks.now.clock.now) task.old }
    ensures ready { IsReadyTask ⟦<S as Viewed>⟧.views S.Reader.remaining
        (C.may_show tasks.now.clock.now) task.new }
    ensures goes { (stopped : Bool) → MayStop C.may_show tasks.now stopped
        → TaskGoes ⟦<S as Viewed>⟧.views S.may_read S.Reader.remaining H.allows H.refuses
        C.may_show tasks.now stopped task.old task.new
        sys.old sys.new pool.old.given pool.new.given }
    ensures runs { running_of task.new ≡ running_of task.old }
    ensures fails { failed_of task.new ≡ failed_of task.old }
    ensures asked { WasAskedTask task.new }
{
    if let Task::Running(job) = task {
        job.ask(rt, sys, pool, tasks, like);
    }
}

/// How many run of a task alone.
pub(crate) fn running<R, L: Read>(task: &Task<R, L>) -> usize
    ensures is { result ≡ running_of task.now }
    ensures one { result ≤ 1 }
{
    match task {
        Task::Running(_) => 1,
        Task::Ended(_) => 0,
    }
}

/// Whether a task has failed: once its commands have ended with a failure, or were killed.
pub(crate) fn has_failed<R, L: Read>(task: &Task<R, L>) -> bool
    ensures { failed_of task.now ≡ (if result then 1 else 0) }
{
    match task {
        Task::Running(job) => matches!(job.step, Step::Killed(_, _) | Step::Failed(_, _)),
        Task::Ended(finished) => finished.has_failed(),
    }
}

/// Returns what came of these tasks, in this room. None runs.
pub(crate) fn ends_of<R, L: Read>(tasks: Vec<Task<R, L>>, mut room: Vec<Finished>) -> Vec<Finished>
    requires none { sum_by running_of tasks.items ≡ 0 }
    requires empty { room.items ≡ [] }
    requires fits { length tasks.items ≤ vec_capacity room }
    ensures { AreEnds tasks.items result.items }
{
    let mut tasks = tasks.into_iter();
    for _ in 0..tasks.len() {
        match tasks.next() {
            Some(Task::Ended(finished)) => room.push_reserved(finished),
            Some(Task::Running(_running)) => unreachable!(),
            None => unreachable!(),
        }
    }
    tasks.destroy_empty();
    room
}
