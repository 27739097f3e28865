//! A system with the pool, the runtime and the allocator that each call over it needs.
ghost use Rattle.std.specs.Prelude.{◌≡◌, ◌∷◌, [], codes, drop, length, map, string_bytes, false, IfOk, IsOkUnless};
ghost use Rattle.duct_system.specs.EntryView.{entry_view};
ghost use Rattle.duct_system.specs.Journal.{IsCleared};
ghost use Rattle.duct_system.specs.SpecView.{texts_of};
ghost use Rattle.duct_system.specs.declared.error.Error.TheVariants.{Memory};
ghost use Rattle.duct_start.specs.TreeView.{command};
ghost use Rattle.duct.specs.Launched.{IsRead, IsRun, IsStart, draining};
ghost use Rattle.duct.specs.TreeView.{tree_view};
ghost use Rattle.duct_tasks.specs.Until.{IsRunUntil};
ghost use Rattle.duct_shell.specs.Calls.{Begins, Calls, FromNow, IsReader};
ghost use Rattle.duct_tasks.specs.FailedRequest.{Names};
ghost use Rattle.duct_shell.specs.Jobs.{AreAllGiven};
ghost use Rattle.duct_shell.specs.declared.failure.Cause.TheVariants as cause;

use crate::failure::Failure;
use crate::jobs::Jobs;
use duct::{
    Clock, Entry, Error, Expression, Handle, Hook, HookBox, IntoExecutablePath, Output, Pool,
    ReaderHandle, System, cmd,
};
use duct_host::{Host, Parents};
use duct_system::copy::copies_of_texts;
use duct_system::views::Viewed;
use duct_tasks::{Deadline, Late, Until, run_until};
use std::alloc::Global;
use std::fs::File;
use std::marker::PhantomData;
use std::process::Processes;
use std::rt::{Env, Files};
use std::sync::Wait;
use std::thread::Threads;
use std::time::Duration;

/// A system, and what each call over it needs: a runtime, an allocator, and a pool, which keeps
/// the children that a failed call leaves. Expressions that it makes have hooks of type `H`.
///
/// A call that starts an expression begins by clearing the journal, so that the journal is that of
/// the last start; a shell whose `keeps_journal` is set leaves it. The other fields may be lent to
/// any call of the library.
///
/// Where a shell is dropped its pool is swept once: children that have ended are reaped. Nothing is
/// killed and nothing is waited for: what still runs goes on, and stays a zombie once it has ended,
/// until the program ends.
pub struct Shell<S: System, R, H = HookBox> {
    pub rt: R,
    pub alloc: Global,
    pub system: S,
    pub pool: Pool<S::Child>,
    pub keeps_journal: bool,
    pub(crate) jobs: Jobs<S>,
    hooks: PhantomData<H>,
}

impl<S: System + Drop, R: Drop, H> Drop for Shell<S, R, H> {
    fn drop(self) {
        let (system, mut pool) = self.into_parts();
        pool.sweep();
        drop((system, pool));
    }
}

impl<'r, R: Processes + Files<File = File> + Env + Parents + Threads + AllocGlobal> Shell<
    Host<&'r R>,
    &'r R,
> {
    /// Makes a shell over the real machine. It can't fail and doesn't block.
    ///
    /// Example: `let mut sh = Shell::new(&rt);`
    pub fn new(rt: &'r R) -> Shell<Host<&'r R>, &'r R>
        ensures system { result.system ≡ record { entries = []; added = 0; next = 1; room = 0 } }
        ensures pool { result.pool ≡ record { children = []; given = 0; reaped = 0; lost = 0 } }
        ensures keeps { result.keeps_journal ≡ false }
        ensures jobs { result.jobs ≡ record { launched = 0; kept = [] } }
    {
        Shell::over(rt, rt.alloc(), Host::new(rt, rt.alloc()))
    }
}

impl<S: System, R: Drop> Shell<S, R> {
    /// Makes a shell over any system, as a scripted one in a test, with an empty pool.
    ///
    /// Example: `let mut sh = Shell::over(&rt, rt.alloc(), Script::new(rt.alloc())?);`
    pub fn over(rt: R, alloc: Global, system: S) -> Shell<S, R>
        ensures system { result.system ≡ system }
        ensures pool { result.pool ≡ record { children = []; given = 0; reaped = 0; lost = 0 } }
        ensures keeps { result.keeps_journal ≡ false }
        ensures jobs { result.jobs ≡ record { launched = 0; kept = [] } }
    {
        Shell::with_hooks(rt, alloc, system)
    }
}

impl<S: System, R: Drop, H> Shell<S, R, H> {
    /// Makes a shell over any system, whose expressions have hooks of type `H`.
    pub fn with_hooks(rt: R, alloc: Global, system: S) -> Shell<S, R, H>
        ensures system { result.system ≡ system }
        ensures pool { result.pool ≡ record { children = []; given = 0; reaped = 0; lost = 0 } }
        ensures keeps { result.keeps_journal ≡ false }
        ensures jobs { result.jobs ≡ record { launched = 0; kept = [] } }
    {
        Shell {
            rt,
            alloc,
            system,
            pool: Pool::new(alloc),
            keeps_journal: false,
            jobs: Jobs::new(alloc),
            hooks: PhantomData,
        }
    }

    /// Returns the system and the pool. The jobs that are not spent are given up first, from the
    /// last to the first: their children go to the pool. Nothing is swept.
    pub fn into_parts(self) -> (S, Pool<S::Child>)
        ensures system { result.0 ≡ self.system }
        ensures pool { AreAllGiven ⟦<S as Viewed>⟧.views self.jobs.kept self.pool result.1 }
    {
        let Shell {
            rt,
            alloc: _,
            system,
            mut pool,
            keeps_journal: _,
            jobs,
            hooks: _,
        } = self;
        drop(rt);
        jobs.give_up(&mut pool);
        (system, pool)
    }
}

impl<S: System, R, H: Drop> Shell<S, R, H> {
    /// Makes a command: a program and its arguments, which no shell reads. Nothing is started.
    ///
    /// Fails with `Error::Memory`, and only at an allocation failure.
    ///
    /// Example: `sh.cmd("ls", &["-l"])?`, or `cmd!(sh; "ls", "-l")?`
    pub fn cmd<P: IntoExecutablePath>(
        &self,
        program: P,
        args: &[&str],
    ) -> Result<Expression<S::End, H>, Error>
        ensures tree { IfOk result
            (λ made. tree_view made ≡ command (P.executable program ∷ texts_of args.now)) }
        ensures memory { IsOkUnless result Memory }
    {
        cmd(self.alloc, program, args)
    }

    /// Makes a command that leads a process group of its own: `setsid`, the program and its
    /// arguments. Where it is killed, sent a signal or stopped, its whole group is: the command and
    /// what it has started, but for what called `setsid` itself. Nothing is started.
    ///
    /// Fails with `Error::Memory`, and only at an allocation failure.
    ///
    /// Example: `sh.group("make", &["-j8"])?`
    pub fn group<P: IntoExecutablePath>(
        &self,
        program: P,
        args: &[&str],
    ) -> Result<Expression<S::End, H>, Error>
        ensures tree { IfOk result (λ made. tree_view made
            ≡ command (codes "setsid" ∷ P.executable program ∷ texts_of args.now)) }
        ensures memory { IsOkUnless result Memory }
    {
        let mut texts = Vec::new(self.alloc);
        texts.push(program.to_executable(self.alloc)?)?;
        texts.append(&mut copies_of_texts(self.alloc, args)?)?;
        self.leader(&texts)
    }

    // Makes a command that leads a process group of its own, of its words.
    fn leader(&self, texts: &[String]) -> Result<Expression<S::End, H>, Error>
        ensures tree { IfOk result (λ made. tree_view made
            ≡ command (codes "setsid" ∷ map string_bytes texts.now)) }
        ensures memory { IsOkUnless result Memory }
    {
        let mut words = Vec::new(self.alloc);
        for text in texts {
            words.push(text.as_str())?;
        }
        cmd(self.alloc, "setsid", &words)
    }

    /// Clears the journal.
    pub fn clear(&mut self)
        ensures cleared { IsCleared (S.journal_view self.old.system)
            (S.journal_view self.new.system) }
        ensures stays { self.new ≡ record self.old { system = self.new.system } }
    {
        self.system.clear_journal();
    }

    // Returns the failure of a call that began with so many entries, and failed with this error.
    pub(crate) fn failure(&self, entries: usize, error: Error) -> Failure
        ensures cause { result.cause ≡ cause.Run error }
        ensures request { Names (drop entries (S.journal_view self.now.system).entries)
            result.request }
    {
        Failure::new(self.alloc, after(self.system.journal(), entries), error)
    }
}

// Begins a call that starts an expression. Returns how many entries the journal has.
pub(crate) fn begin<S: System>(system: &mut S, keeps_journal: bool) -> usize
    ensures begins { Begins S.journal_view keeps_journal system.old system.new }
    ensures entries { result ≡ length (S.journal_view system.new).entries }
{
    if !keeps_journal {
        system.clear_journal();
    }
    system.journal().len()
}

// Returns the entries after the first so many.
fn after(journal: &[Entry], entries: usize) -> &[Entry]
    ensures { map entry_view result.now ≡ drop entries (map entry_view journal.now) }
{
    match journal.split_at_checked(entries) {
        Some((_, added)) => added,
        None => &[],
    }
}

impl<S: System, R, H: Hook> Shell<S, R, H> {
    /// Starts an expression as `Expression::start` does, and returns a handle of what runs, for
    /// threads that share it. It has to be spent: by `handle.into_output(&sh.rt, &mut sh.pool)` or
    /// `handle.give_up(&mut sh.pool)`. It doesn't wait until that has ended.
    ///
    /// Fails as `Expression::launch` does, and leaves the same.
    ///
    /// Example: `let server = sh.start(&cmd!(sh; "server")?)?;`
    pub fn start(&mut self, expression: &Expression<S::End, H>) -> Result<Handle<S>, Failure>
        ensures calls { Calls S.journal_view self.old.keeps_journal
            (IsStart ⟦<S as Viewed>⟧.views H.allows H.refuses expression.now draining)
            (self.old.system, self.old.pool) result (self.new.system, self.new.pool) }
        ensures stays { self.new
            ≡ record self.old { system = self.new.system; pool = self.new.pool } }
    {
        let entries = begin(&mut self.system, self.keeps_journal);
        match expression.start(&mut self.system, &mut self.pool) {
            Ok(handle) => Ok(handle),
            Err(error) => Err(self.failure(entries, error)),
        }
    }
}

impl<S: System, R: Wait + Clone + Drop, H: Hook> Shell<S, R, H> {
    /// Starts an expression as `Expression::reader` does, and returns a handle whose reads give
    /// what it writes to stdout, and block in the pipe. The handle has to be spent, by its
    /// `give_up` with this shell's pool.
    ///
    /// Fails as `Expression::launch` does, and leaves the same, and with `Error::Memory` where the
    /// runtime can have no further owner.
    ///
    /// Example: `let mut lines = sh.reader(&cmd!(sh; "tail", "-f", "log")?)?;`
    pub fn reader(
        &mut self,
        expression: &Expression<S::End, H>,
    ) -> Result<ReaderHandle<S, R>, Failure>
        ensures calls { Calls S.journal_view self.old.keeps_journal
            (IsReader ⟦<S as Viewed>⟧.views H.allows H.refuses expression.now)
            (self.old.system, self.old.pool) result (self.new.system, self.new.pool) }
        ensures stays { self.new
            ≡ record self.old { system = self.new.system; pool = self.new.pool } }
    {
        let entries = begin(&mut self.system, self.keeps_journal);
        let rt = match self.rt.clone() {
            Ok(rt) => rt,
            Err(_) => return Err(self.failure(entries, Error::Memory)),
        };
        match expression.reader(rt, &mut self.system, &mut self.pool) {
            Ok(handle) => Ok(handle),
            Err(error) => Err(self.failure(entries, error)),
        }
    }
}

impl<S: System, R: Wait, H: Hook> Shell<S, R, H> {
    /// Runs an expression as `Expression::run` does, blocks until it has ended, and returns its
    /// output: the status, and what was captured.
    ///
    /// Fails as `Expression::run` does, and leaves the same.
    ///
    /// Example: `sh.run(&cmd!(sh; "make")?.env("V", "1")?)?`
    pub fn run(&mut self, expression: &Expression<S::End, H>) -> Result<Output, Failure>
        ensures calls { Calls S.journal_view self.old.keeps_journal
            (IsRun ⟦<S as Viewed>⟧.views H.allows H.refuses expression.now)
            (self.old.system, self.old.pool) result (self.new.system, self.new.pool) }
        ensures stays { self.new
            ≡ record self.old { system = self.new.system; pool = self.new.pool } }
    {
        let entries = begin(&mut self.system, self.keeps_journal);
        match expression.run(&self.rt, &mut self.system, &mut self.pool) {
            Ok(output) => Ok(output),
            Err(error) => Err(self.failure(entries, error)),
        }
    }

    /// Reads what an expression prints, as `Expression::read` does: it blocks until it has ended,
    /// and returns the text without the newlines and carriage returns at its end.
    ///
    /// Fails as `Expression::read` does, and leaves the same.
    ///
    /// Example: `sh.read(&cmd!(sh; "git", "status")?.dir(folder)?)?`
    pub fn read(&mut self, expression: &Expression<S::End, H>) -> Result<String, Failure>
        ensures calls { Calls S.journal_view self.old.keeps_journal
            (IsRead ⟦<S as Viewed>⟧.views H.allows H.refuses expression.now S.may_read
            S.Reader.remaining)
            (self.old.system, self.old.pool) result (self.new.system, self.new.pool) }
        ensures stays { self.new
            ≡ record self.old { system = self.new.system; pool = self.new.pool } }
    {
        let entries = begin(&mut self.system, self.keeps_journal);
        match expression.read(&self.rt, &mut self.system, &mut self.pool) {
            Ok(text) => Ok(text),
            Err(error) => Err(self.failure(entries, error)),
        }
    }

    /// Runs an expression as `run` does, but for no longer than `limit`. Then each command that
    /// still runs is sent signal 15, and is killed `grace` later, with its group if it leads one, as
    /// `run_until` of `duct_tasks` does it. That it was stopped is no failure but `Until::Late`; its
    /// children are then in the shell's pool. It blocks until then.
    ///
    /// Fails as `run` does, and leaves the same.
    ///
    /// Example: `sh.run_for(&clock, Duration::from_secs(60), grace, &cmd!(sh; "make")?)?`
    pub fn run_for<C: Clock>(
        &mut self,
        clock: &C,
        limit: Duration,
        grace: Duration,
        expression: &Expression<S::End, H>,
    ) -> Result<Until<Output, Late>, Failure>
        ensures calls { Calls S.journal_view self.old.keeps_journal
            (FromNow (C.may_show clock.now) limit
            (IsRunUntil ⟦<S as Viewed>⟧.views H.allows H.refuses expression.now grace))
            (self.old.system, self.old.pool) result (self.new.system, self.new.pool) }
        ensures stays { self.new
            ≡ record self.old { system = self.new.system; pool = self.new.pool } }
    {
        let entries = begin(&mut self.system, self.keeps_journal);
        let moment = clock.now().saturating_add(limit);
        let deadline = Deadline {
            clock,
            moment,
            grace,
        };
        let (system, pool) = (&mut self.system, &mut self.pool);
        match run_until(&self.rt, system, pool, expression, &deadline) {
            Ok(until) => Ok(until),
            Err(error) => Err(self.failure(entries, error)),
        }
    }
}
