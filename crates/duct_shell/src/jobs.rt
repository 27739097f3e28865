//! Jobs: what a shell runs in the background, each with a key.
ghost use Rattle.std.specs.Prelude.{◌≡◌, [], IfNone, IfSome, IsOkAnd, IsSomeAnd, None, Ok, option_map};
ghost use Rattle.duct_system.specs.declared.system.Order.TheVariants.{Kill, Signal};
ghost use Rattle.duct_status.specs.ShapeView.{shape_view};
ghost use Rattle.duct_running.specs.Allowed.{OneRuns};
ghost use Rattle.duct_running.specs.Answered.{IsAnswer};
ghost use Rattle.duct_handle.specs.Finished.{AreGiven};
ghost use Rattle.duct_handle.specs.Obeyed.{IsObeyed};
ghost use Rattle.duct_shell.specs.Calls.{Calls};
ghost use Rattle.duct_shell.specs.Jobs.{AreAllGiven, ByKey, IsLaunch, IsPlace, IsSpent, find, spend};

use crate::failure::{Cause, Failure};
use crate::shell::{Shell, begin};
use duct::unix::HandleExt;
use duct::{Error, Expression, Handle, Hook, Output, Pool, System};
use duct_system::views::Viewed;
use std::alloc::Global;
use std::marker::Model;
use std::sync::{Arc, Wait};

/// The key of a job of a shell. Calls of that shell find the job by it until it is spent, and never
/// again.
///
/// It has the number of jobs that the shell launched before, and the process id of the job's first
/// command. So another shell refuses it, unless it has a job with the same number whose first
/// command has the same process id.
#[derive(Clone, Copy, Debug, PartialEq, Eq)]
pub struct Job {
    count: u64,
    process: u32,
}

// The jobs of a shell: how many were launched, and the handles of those that are not spent.
pub(crate) struct Jobs<S: System> {
    launched: u64,
    kept: Vec<(Job, Handle<S>)>,
}

impl<S: System> Model for Jobs<S> {
    ghost use Rattle.std.specs.Coded.{codes};
    ghost use Rattle.duct_status.specs.contracts.status.Shape as shapes;
    ghost use Rattle.duct_shell.specs.Jobs.{AreCounted, JobsView};

    ghost Value = { JobsView };

    ghost coded = { Prim.hlevel (codes, shapes.the_row.coded) };

    ghost view = { λ jobs. record { launched = jobs.launched; kept = jobs.kept.items } };

    ghost invariant = { λ jobs. AreCounted jobs.launched jobs.kept.items };
}

impl<S: System> Jobs<S> {
    // Returns no jobs.
    pub(crate) fn new(alloc: Global) -> Jobs<S>
        ensures { result ≡ record { launched = 0; kept = [] } }
    {
        Jobs {
            launched: 0,
            kept: Vec::new(alloc),
        }
    }

    // Starts an expression as `Expression::start` does, and keeps its handle. There is room for it
    // before anything is requested.
    fn launch<H: Hook>(
        &mut self,
        system: &mut S,
        pool: &mut Pool<S::Child>,
        expression: &Expression<S::End, H>,
    ) -> Result<Job, Error>
        ensures { IsLaunch ⟦<S as Viewed>⟧.views H.allows H.refuses expression.now self.old self.new
            (system.old, pool.old) result (system.new, pool.new) }
    {
        self.kept.reserve(1)?;
        let Some(launched) = self.launched.checked_add(1) else {
            return Err(Error::Memory);
        };
        let handle = expression.start(system, pool)?;
        let job = Job {
            count: self.launched,
            process: handle.pids().first().copied().unwrap_or(0),
        };
        self.launched = launched;
        self.kept.push_reserved((job, handle));
        Ok(job)
    }

    // Returns the first place of the key.
    fn place(&self, job: Job) -> Option<usize>
        ensures found { IfSome result (IsPlace job self.now.kept) }
        ensures none { IfNone result (find job self.now ≡ None) }
        ensures others { IfNone result (spend job self.now ≡ self.now) }
    {
        let mut place = 0;
        while place < self.kept.len() {
            if self.kept[place].0 == job {
                return Some(place);
            }
            place += 1;
        }
        None
    }

    // Returns the handle with this key.
    fn find(&self, job: Job) -> Option<&Handle<S>>
        ensures { option_map (λ handle. handle.now) result ≡ find job self.now }
    {
        let place = self.place(job)?;
        Some(&self.kept[place].1)
    }

    // Takes out the handle with this key.
    fn take(&mut self, job: Job) -> Option<Handle<S>>
        ensures handle { result ≡ find job self.old }
        ensures spent { self.new ≡ spend job self.old }
        ensures gone { find job self.new ≡ None }
        ensures none { IfNone result (self.new ≡ self.old) }
    {
        let place = self.place(job)?;
        let (_, handle) = self.kept.remove(place);
        Some(handle)
    }

    // Gives up all handles to a pool, the last one first.
    pub(crate) fn give_up(self, pool: &mut Pool<S::Child>)
        ensures { AreAllGiven ⟦<S as Viewed>⟧.views self.kept pool.old pool.new }
    {
        let Jobs {
            launched: _,
            mut kept,
        } = self;
        while let Some((_, handle)) = kept.pop() {
            handle.give_up(pool);
        }
        kept.destroy_empty();
    }
}

impl<S: System, R, H: Hook> Shell<S, R, H> {
    /// Starts an expression as `Expression::start` does, and keeps its handle as a job of the
    /// shell, which `poll`, `wait`, `kill`, `signal`, `pids` and `give_up` find by the key. It
    /// doesn't wait until that has ended. A job that is never spent is given up where the shell is
    /// dropped.
    ///
    /// Fails as `Expression::launch` does, and leaves the same, and with `Error::Memory` where
    /// there is no room for the job; then nothing was requested.
    ///
    /// Example: `let server = sh.launch(&cmd!(sh; "server")?)?;`
    pub fn launch(&mut self, expression: &Expression<S::End, H>) -> Result<Job, Failure>
        ensures calls { Calls S.journal_view self.old.keeps_journal
            (IsLaunch ⟦<S as Viewed>⟧.views H.allows H.refuses expression.now
            self.old.jobs self.new.jobs)
            (self.old.system, self.old.pool) result (self.new.system, self.new.pool) }
        ensures stays { self.new ≡ record self.old
            { system = self.new.system; pool = self.new.pool; jobs = self.new.jobs } }
    {
        let entries = begin(&mut self.system, self.keeps_journal);
        let (system, pool) = (&mut self.system, &mut self.pool);
        match self.jobs.launch(system, pool, expression) {
            Ok(job) => Ok(job),
            Err(error) => Err(self.failure(entries, error)),
        }
    }
}

impl<S: System, R: Wait, H> Shell<S, R, H> {
    /// Polls a job once, as `Handle::try_wait` does, and returns its output, or `None` while it
    /// runs. It doesn't block. The job is not spent: further calls return the same output.
    ///
    /// Fails as `Handle::try_wait` does, and with `Cause::NoJob`.
    ///
    /// Example: `if sh.poll(server)?.is_some() { .. }`
    pub fn poll(&self, job: Job) -> Result<Option<Arc<Output>>, Failure>
        ensures told { ByKey (find job self.now.jobs) (λ handle. IsAnswer ⟦<S as Viewed>⟧.views
            (shape_view handle.shape) handle.numbers) result }
        ensures pending { result ≡ Ok None → IsSomeAnd (find job self.now.jobs)
            (λ handle. OneRuns ⟦<S as Viewed>⟧.views handle.numbers) }
    {
        let handle = self.jobs.find(job).ok_or(Cause::NoJob)?;
        Ok(handle.try_wait(&self.rt)?)
    }

    /// Waits for a job as `Handle::into_output` does, and spends it: it blocks until the job has
    /// ended, and returns the output.
    ///
    /// Fails as `Handle::into_output` does. The children are then given to the shell's pool, and
    /// the job is spent, too. Fails with `Cause::NoJob`, and then nothing has changed.
    ///
    /// Example: `let output = sh.wait(server)?;`
    pub fn wait(&mut self, job: Job) -> Result<Output, Failure>
        ensures output { ByKey (find job self.old.jobs)
            (IsSpent ⟦<S as Viewed>⟧.views self.old.pool self.new.pool) result }
        ensures stays { self.new ≡ record self.old
            { pool = self.new.pool; jobs = spend job self.old.jobs } }
        ensures no_job { IfNone (find job self.old.jobs) (self.new ≡ self.old) }
        ensures spent { find job self.new.jobs ≡ None }
    {
        let handle = self.jobs.take(job).ok_or(Cause::NoJob)?;
        Ok(handle.into_output(&self.rt, &mut self.pool)?)
    }

    /// Kills each command of a job that is not known as ended, as `Handle::kill` does. It doesn't
    /// wait until they have ended, and the job is not spent.
    ///
    /// Fails as `Handle::kill` does, and with `Cause::NoJob`.
    ///
    /// Example: `sh.kill(server)?;`
    pub fn kill(&self, job: Job) -> Result<(), Failure>
        ensures { ByKey (find job self.now.jobs)
            (λ handle. IsObeyed ⟦<S as Viewed>⟧.views Kill handle.numbers.children) result }
    {
        let handle = self.jobs.find(job).ok_or(Cause::NoJob)?;
        Ok(handle.kill(&self.rt)?)
    }

    /// Sends a signal, by its number, to each command of a job that is not known as ended, as
    /// `send_signal` of a handle does: over a `Host` it blocks until the signal is sent. The job is
    /// not spent.
    ///
    /// Fails as `send_signal` does, and with `Cause::NoJob`.
    ///
    /// Example: `sh.signal(server, 15)?;`
    pub fn signal(&self, job: Job, signal: i32) -> Result<(), Failure>
        ensures { ByKey (find job self.now.jobs) (λ handle.
            IsObeyed ⟦<S as Viewed>⟧.views (Signal signal) handle.numbers.children) result }
    {
        let handle = self.jobs.find(job).ok_or(Cause::NoJob)?;
        Ok(handle.send_signal(&self.rt, signal)?)
    }
}

impl<S: System, R, H> Shell<S, R, H> {
    /// Returns the process ids of a job's children, as `Handle::pids` does: one a command, from
    /// left to right. It doesn't block.
    ///
    /// Fails with `Cause::NoJob`.
    ///
    /// Example: `sh.pids(server)?`
    pub fn pids(&self, job: Job) -> Result<&[u32], Failure>
        ensures { ByKey (find job self.now.jobs)
            (λ handle ids. IsOkAnd ids (λ ids. ids.now ≡ handle.ids)) result }
    {
        Ok(self.jobs.find(job).ok_or(Cause::NoJob)?.pids())
    }

    /// Gives up a job, as `Handle::give_up` does, and spends it: its children go to the shell's
    /// pool. Nothing is killed and nothing is waited for.
    ///
    /// Fails with `Cause::NoJob`, and then nothing has changed.
    ///
    /// Example: `sh.give_up(server)?;`
    pub fn give_up(&mut self, job: Job) -> Result<(), Failure>
        ensures given { ByKey (find job self.old.jobs) (λ handle done. (done ≡ Ok tt)
            × AreGiven ⟦<S as Viewed>⟧.views handle.numbers (Unit {0}) self.old.pool self.new.pool)
            result }
        ensures stays { self.new ≡ record self.old
            { pool = self.new.pool; jobs = spend job self.old.jobs } }
        ensures no_job { IfNone (find job self.old.jobs) (self.new ≡ self.old) }
        ensures spent { find job self.new.jobs ≡ None }
    {
        let handle = self.jobs.take(job).ok_or(Cause::NoJob)?;
        handle.give_up(&mut self.pool);
        Ok(())
    }
}
