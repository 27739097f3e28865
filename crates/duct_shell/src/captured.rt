//! Runs of a shell whose output is kept, or handed on by lines, and services.
ghost use Rattle.std.specs.Prelude.{◌≡◌, ◌<◌, All, Ok, drop, map, IfOk};
ghost use Rattle.std.specs.Duration.{as_nanos};
ghost use Rattle.duct_tasks.specs.Captures.{IsRunCaptured};
ghost use Rattle.duct_tasks.specs.LinesRun.{IsLinesRun, in_time};
ghost use Rattle.duct_tasks.specs.Services.{IsAllKept};
ghost use Rattle.duct_tasks.specs.Statuses.{HasEnded, command_view};
ghost use Rattle.duct_tasks.specs.Streams.{Hands};
ghost use Rattle.duct_tasks.specs.Tasks.{IsAllRun, items_of};
ghost use Rattle.duct_shell.specs.Calls.{Calls, CallsLines, FromNow, IsFailureOf};

use crate::failure::Failure;
use crate::shell::{Shell, begin};
use duct::{Clock, Expression, Hook, System};
use duct_base::system::Side;
use duct_system::views::Viewed;
use duct_tasks::{
    Captured, Deadline, Finished, Kept, LateLines, LinesError, Progress, Services, Tasks, Turn,
    Until, keep, run_all, run_captured, run_lines, run_lines_until,
};
use std::io;
use std::sync::Wait;
use std::thread::Threads;
use std::time::Duration;

impl<S: System, R: Wait, H: Hook> Shell<S, R, H> {
    /// Runs an expression as the function of this name does: it blocks until it has ended, and
    /// returns what was written to stdout and stderr with the status, also where that is no
    /// success. `checked` of the result makes an error of that, which shows the end of stderr.
    ///
    /// Fails as `run_captured` does, and leaves the same.
    ///
    /// Example: `sh.run_captured(&cmd!(sh; "make")?)?.checked(4096)?`
    pub fn run_captured(&mut self, expression: &Expression<S::End, H>) -> Result<Captured, Failure>
        ensures calls { Calls S.journal_view self.old.keeps_journal
            (IsRunCaptured ⟦<S as Viewed>⟧.views H.allows H.refuses expression.now)
            (self.old.system, self.old.pool) result (self.new.system, self.new.pool) }
        ensures ended { IfOk result (λ captured. All HasEnded
            (map command_view captured.commands.items)) }
        ensures stays { self.new
            ≡ record self.old { system = self.new.system; pool = self.new.pool } }
    {
        let entries = begin(&mut self.system, self.keeps_journal);
        match run_captured(&self.rt, &mut self.system, &mut self.pool, expression) {
            Ok(captured) => Ok(captured),
            Err(error) => Err(self.failure(entries, error)),
        }
    }

    /// Keeps expressions running, as the function of this name does, and returns what came of each.
    /// It blocks until none runs, and none is to be started again.
    ///
    /// Fails as the function does, and leaves the same.
    ///
    /// Example: `sh.keep(&services, || stops.load(SeqCst), |place, told| print(place, told))?`
    pub fn keep<C: Clock, F: Fn() -> bool, T: FnMut(usize, Turn<'_>)>(
        &mut self,
        services: &Services<'_, S::End, H, C>,
        stop: F,
        mut tell: T,
    ) -> Result<Vec<Kept>, Failure>
        requires asked { F.IsAlwaysCallable stop }
        requires told { (t : T) (place : _) (told : _) → T.pre t place told }
        ensures calls { Calls S.journal_view self.old.keeps_journal
            (λ before result after. IsAllKept ⟦<S as Viewed>⟧.views C.may_show services.now
            H.allows H.refuses (F.post stop) before (items_of result) after)
            (self.old.system, self.old.pool) result (self.new.system, self.new.pool) }
        ensures stays { self.new
            ≡ record self.old { system = self.new.system; pool = self.new.pool } }
    {
        let entries = begin(&mut self.system, self.keeps_journal);
        let (system, pool) = (&mut self.system, &mut self.pool);
        match keep(
            &self.rt, self.alloc, system, pool, services, stop, &mut tell,
        ) {
            Ok(kept) => Ok(kept),
            Err(error) => Err(self.failure(entries, error)),
        }
    }
}

impl<S: System, R: Threads + Wait, H: Hook> Shell<S, R, H>
where
    S::Reader: Send + 'static,
{
    /// Runs an expression, and hands on each line that it writes to stdout or to stderr once it is
    /// read, with its stream and without its `\n` or `\r\n`, as the function of this name does. It
    /// blocks until the expression has ended, and returns all that it wrote, as `run_captured`
    /// does.
    ///
    /// Fails as the function does, with an error of the closure as `Cause::Io`, and leaves the
    /// same.
    ///
    /// Example: `sh.run_lines(&cmd!(sh; "make")?, |_, line| log.add(line))?.checked(4096)?`
    pub fn run_lines<F: FnMut(Side, &[u8]) -> io::Result<()>>(
        &mut self,
        expression: &Expression<S::End, H>,
        mut each: F,
    ) -> Result<Captured, Failure>
        requires { F.IsAlwaysCallable each }
        ensures calls { (last : F) × CallsLines S.journal_view self.old.keeps_journal
            (λ before result after. (grace : Duration) × IsLinesRun ⟦<S as Viewed>⟧.views S.may_read
            S.Reader.remaining (Hands F.FnMut) H.allows H.refuses expression.now grace
            (λ moment. as_nanos moment ≡ 0) 1 each last before (in_time result) after)
            (self.old.system, self.old.pool) result (self.new.system, self.new.pool) }
        ensures stays { self.new
            ≡ record self.old { system = self.new.system; pool = self.new.pool } }
    {
        let entries = begin(&mut self.system, self.keeps_journal);
        let (system, pool) = (&mut self.system, &mut self.pool);
        match run_lines(&self.rt, system, pool, expression, &mut each) {
            Ok(captured) => Ok(captured),
            Err(error) => Err(self.lines_failure(entries, error)),
        }
    }

    /// Runs an expression as `run_lines` does, but for no longer than `limit`, after which it is
    /// stopped as `run_for` does it. That it was stopped is no failure but `Until::Late`, with what
    /// it wrote until then, and which of its commands still ran. It blocks until then, at most a
    /// second longer than `grace`.
    ///
    /// Fails as `run_lines` does, and leaves the same.
    ///
    /// Example: `sh.run_lines_for(&clock, limit, grace, &cmd!(sh; "make")?, |_, _| Ok(()))?`
    pub fn run_lines_for<C: Clock, F: FnMut(Side, &[u8]) -> io::Result<()>>(
        &mut self,
        clock: &C,
        limit: Duration,
        grace: Duration,
        expression: &Expression<S::End, H>,
        mut each: F,
    ) -> Result<Until<Captured, LateLines>, Failure>
        requires { F.IsAlwaysCallable each }
        ensures calls { (last : F) × CallsLines S.journal_view self.old.keeps_journal
            (FromNow (C.may_show clock.now) limit (λ shows moment. IsLinesRun
            ⟦<S as Viewed>⟧.views S.may_read S.Reader.remaining (Hands F.FnMut) H.allows
            H.refuses expression.now grace shows moment each last))
            (self.old.system, self.old.pool) result (self.new.system, self.new.pool) }
        ensures stays { self.new
            ≡ record self.old { system = self.new.system; pool = self.new.pool } }
    {
        let entries = begin(&mut self.system, self.keeps_journal);
        let moment = clock.now().saturating_add(limit);
        let deadline = Deadline {
            clock,
            moment,
            grace,
        };
        let (system, pool) = (&mut self.system, &mut self.pool);
        match run_lines_until(&self.rt, system, pool, expression, &deadline, &mut each) {
            Ok(until) => Ok(until),
            Err(error) => Err(self.lines_failure(entries, error)),
        }
    }
}

impl<S: System, R: Threads + Wait, H: Hook> Shell<S, R, H>
where
    S::Reader: Send + 'static,
{
    /// Runs expressions as tasks, as the function of this name does, and returns what came of each.
    /// It blocks until none runs.
    ///
    /// Fails as the function does, and leaves the same.
    ///
    /// Example: `sh.run_all(tasks, |place, told| print(place, told))?`
    pub fn run_all<C: Clock, T: FnMut(usize, Progress<'_>)>(
        &mut self,
        tasks: Tasks<'_, S::End, H, C>,
        mut tell: T,
    ) -> Result<Vec<Finished>, Failure>
        requires some { 0 < tasks.at_once }
        requires told { (t : T) (place : _) (told : _) → T.pre t place told }
        ensures calls { Calls S.journal_view self.old.keeps_journal
            (λ before result after. IsAllRun ⟦<S as Viewed>⟧.views S.may_read S.Reader.remaining
            H.allows H.refuses C.may_show tasks.entry before (items_of result) after)
            (self.old.system, self.old.pool) result (self.new.system, self.new.pool) }
        ensures stays { self.new
            ≡ record self.old { system = self.new.system; pool = self.new.pool } }
    {
        let entries = begin(&mut self.system, self.keeps_journal);
        let (system, pool) = (&mut self.system, &mut self.pool);
        match run_all(&self.rt, self.alloc, system, pool, tasks, &mut tell) {
            Ok(ends) => Ok(ends),
            Err(error) => Err(self.failure(entries, error)),
        }
    }
}

impl<S: System, R, H: Drop> Shell<S, R, H> {
    // Returns the failure of a call that began with so many entries, and failed with this error.
    fn lines_failure(&self, entries: usize, error: LinesError) -> Failure
        ensures { IsFailureOf error (drop entries (S.journal_view self.now.system).entries) result }
    {
        match error {
            LinesError::Run(error) => self.failure(entries, error),
            LinesError::Closure(error) => Failure::from(error),
        }
    }
}
