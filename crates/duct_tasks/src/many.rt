//! Tasks of which only so many run at once.
ghost use Rattle.std.specs.Prelude.{◌≡◌, ◌<◌, ◌≤◌, ◌⊎◌, All, length, true, IfErr, IfOk};
ghost use Rattle.duct_system.specs.declared.error.Error.TheVariants.{Memory};
ghost use Rattle.duct_tasks.specs.Tasks.{Goes, AreReady, IsPast, RanAll};
ghost use Rattle.duct_tasks.specs.Turns.{GoesOn};

use crate::crew::Crew;
use crate::finished::Finished;
use crate::watch::is_over;
use duct::Expression;
use duct_base::error::Error;
use duct_base::pause::Pause;
use duct_base::pool::Pool;
use duct_base::spec::Hook;
use duct_base::system::{Clock, Side, System};
use duct_running::running::Running;
use duct_system::views::Viewed;
use std::alloc::Global;
use std::sync::Wait;
use std::thread::Threads;
use std::time::Duration;

/// What becomes of the other tasks once one has failed.
#[derive(Clone, Copy, Debug, PartialEq, Eq, Drop)]
pub enum AtFailure {
    /// All are started and waited for.
    GoOn,
    /// None is started any more, and those that run are waited for.
    Wait,
    /// None is started any more, and those that run are stopped.
    Stop,
}

/// Tasks, and how they run.
#[derive(Drop)]
pub struct Tasks<'t, E, H, C> {
    pub all: &'t [Expression<E, H>],
    /// How many run at once at most, which is not 0.
    pub at_once: usize,
    pub at_failure: AtFailure,
    /// How long a task may run before it is stopped.
    pub limit: Option<Duration>,
    /// How long a task that is stopped may run on after signal 15 before it is killed.
    pub grace: Duration,
    /// What says how long tasks run.
    pub clock: &'t C,
}

impl<E, H, C: Clock> Tasks<'_, E, H, C> {
    // Returns whether what began at this moment has run for longer than it may.
    pub(crate) fn are_late(&self, began: Duration) -> bool
        ensures { result ≡ true → C.may_show self.now.clock.now began
            → IsPast (C.may_show self.now.clock.now) self.now.limit }
    {
        match self.limit {
            Some(limit) => is_over(self.clock, began.saturating_add(limit)),
            None => false,
        }
    }
}

/// What is told of a task.
#[derive(Drop)]
pub enum Progress<'a> {
    /// It was started, and its commands have these process ids, from left to right.
    Started(&'a [u32]),
    /// It wrote this line, without its `\n` or `\r\n`.
    Line(Side, &'a [u8]),
    /// It could not be started.
    Refused(&'a Finished),
    /// It has ended or was stopped.
    Ended(&'a Finished),
}

/// Starts the tasks in order, each as `Expression::launch_reader` does with its stderr in a pipe
/// too, and never while as many run as may: a task runs until a poll has said how it ended and both
/// streams came to EOF. Returns what came of those that were started, each in its place: of all,
/// unless a failure ended the starts. A task fails where `Expression::run` would, where it can't be
/// started, and where it is stopped. Its failure counts as soon as its commands have ended, and its
/// streams are then read on until EOF, but no more than a second.
///
/// A task that runs for longer than the limit is stopped, as are all where one has failed and
/// `at_failure` says so: each of its commands that is not known to have ended is sent signal 15,
/// and killed once the task has ended or the grace has, groups of commands that lead one as in
/// `run_until`.
///
/// `tell` is called with the place of a task where it starts, with each line that it writes once it
/// is read, and where it ends. The lines of one stream come in their order; between those of both
/// the order is that in which they are found. Between two rounds of turns in which nothing came the
/// call pauses as `Expression::run` does. It blocks until no task runs.
///
/// The children of a task that has failed are given to the pool. Fails with `Error::Memory`, before
/// anything is started.
///
/// Example: `run_all(&rt, alloc, &mut host, &mut pool, tasks, &mut |place, told| log.add(told))?`
pub fn run_all<H: Hook, S: System, C: Clock, T: FnMut(usize, Progress<'_>)>(
    rt: &(impl Threads + Wait),
    alloc: Global,
    sys: &mut S,
    pool: &mut Pool<S::Child>,
    tasks: Tasks<'_, S::End, H, C>,
    tell: &mut T,
) -> Result<Vec<Finished>, Error>
where
    S::Reader: Send + 'static,
    requires some { 0 < tasks.at_once }
    requires told { (t : T) (place : _) (told : _) → T.pre t place told }
    ensures ran { IfOk result (λ ends. RanAll ⟦<S as Viewed>⟧.views S.may_read S.Reader.remaining
        H.allows H.refuses C.may_show tasks.entry (sys.old, pool.old)
        ends.items (sys.new, pool.new)) }
    ensures failed { IfErr result
        (λ e. (e ≡ Memory) × (sys.new ≡ sys.old) × (pool.new ≡ pool.old)) }
{
    let room = Vec::with_capacity(alloc, tasks.all.len())?;
    let mut crew = Crew::new(alloc, tasks)?;
    work(rt, sys, pool, &mut crew, tell);
    Ok(crew.into_ends(room))
}

// Starts the tasks and gives them turns until none runs.
fn work<H: Hook, S: System, C: Clock, T: FnMut(usize, Progress<'_>)>(
    rt: &(impl Threads + Wait),
    sys: &mut S,
    pool: &mut Pool<S::Child>,
    crew: &mut Crew<'_, S::End, H, C, Running<S>, S::Reader>,
    tell: &mut T,
)
where
    S::Reader: Send + 'static,
    requires told { (t : T) (place : _) (told : _) → T.pre t place told }
    requires ready { AreReady ⟦<S as Viewed>⟧.views S.Reader.remaining C.may_show
        crew.old.tasks crew.old.stopped crew.old.started.items }
    ensures tasks { crew.new.tasks ≡ crew.old.tasks }
    ensures none { crew.new.running ≡ 0 }
    ensures goes { Goes ⟦<S as Viewed>⟧.views S.may_read S.Reader.remaining H.allows H.refuses
        C.may_show crew.old.tasks crew.old.stopped crew.new.stopped crew.old.started.items
        crew.new.started.items sys.old sys.new pool.old.given pool.new.given }
    ensures over { (length crew.new.tasks.all.now ≤ length crew.new.started.items)
        ⊎ (GoesOn crew.new.tasks.at_failure crew.new.failed → ⊥) }
{
    let mut pauses = Pause::new();
    for _ in rt.forever() {
        crew.start_more(rt, sys, pool, tell);
        if !crew.is_busy() {
            return;
        }
        crew.stop_after_failure(rt, sys, pool);
        if crew.turn_all(rt, sys, pool, tell) {
            pauses.restart();
        }
        pauses.rest(rt);
    }
    unreachable!()
}
