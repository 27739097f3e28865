//! Steps, of lines `name: command line`: so many run at once, up to the first failure.
ghost use Rattle.std.specs.Prelude.{◌≡◌, IfErr, IfOk};
ghost use Rattle.std.specs.List.{list_any};
ghost use Rattle.duct_tasks.specs.Tasks.{has_failed};
ghost use Rattle.steps.specs.Runs.{Ran};

use crate::error::StepsError;
use crate::words::{behind, named};
use duct::{Clock, Expression, Hook, Pool, System};
use duct_program::{NoHook, Usage};
use duct_system::views::Viewed;
use duct_tasks::{AtFailure, Finished, Progress, TaskEnd, Tasks, last_lines, run_all};
use duct_words::{LineError, SplitError};
use std::alloc::{AllocError, Global};
use std::collections::HashSet;
use std::io::{self, Write};
use std::sync::Wait;
use std::thread::Threads;
use std::time::Duration;

/// The names of steps, and what each runs.
#[derive(Drop)]
pub struct Steps<'t, E> {
    pub names: Vec<&'t str>,
    pub commands: Vec<Expression<E, NoHook>>,
    /// The names of all lines, also of those that were not asked for.
    known: HashSet<&'t str>,
}

/// Reads lines `name: command line`, each up to `\n` or `\r\n`, but for empty ones and those that
/// begin with `#`. These words stand before those of each command. Returns the steps that have one
/// of these names, or all where there are no names. Fails at the first line that is no step, or is
/// one to return whose name has more bytes than `longest`, and where a name or all steps are
/// missing.
pub fn read_steps<'t, E: Drop>(
    alloc: Global,
    text: &'t str,
    words: &str,
    only: &[&str],
    longest: usize,
) -> Result<Steps<'t, E>, StepsError> {
    let asked: HashSet<&str> = only.iter().copied().collect(alloc)?;
    let mut steps = Steps {
        names: Vec::new(alloc),
        commands: Vec::new(alloc),
        known: HashSet::new(alloc),
    };
    for (place, line) in text.lines().enumerate() {
        if !line.is_empty() && !line.starts_with('#') {
            steps.add(alloc, place.saturating_add(1), line, words, &asked, longest)?;
        }
    }
    if !only.iter().all(|name| steps.known.contains(name)) {
        return Err(StepsError::NoSuchStep);
    }
    if steps.names.is_empty() {
        return Err(StepsError::NoSteps);
    }
    Ok(steps)
}

impl<'t, E: Drop> Steps<'t, E> {
    // Adds the step of the line with this number and text, if it is one of those asked for, or all
    // are.
    fn add(
        &mut self,
        alloc: Global,
        line: usize,
        text: &'t str,
        words: &str,
        asked: &HashSet<&str>,
        longest: usize,
    ) -> Result<(), StepsError> {
        let Some((name, command)) = named(text) else {
            return Err(StepsError::NoName { line });
        };
        if !self.known.insert(name)? {
            return Err(StepsError::Twice { line });
        }
        let command = match behind(alloc, words, command) {
            Ok(command) => command,
            Err(LineError::Split(SplitError::Memory) | LineError::Usage(Usage::Memory)) => {
                return Err(StepsError::Memory(AllocError));
            }
            Err(error) => return Err(StepsError::Command { line, error }),
        };
        if !asked.is_empty() && !asked.contains(&name) {
            return Ok(());
        }
        if name.len() > longest {
            return Err(StepsError::LongName { line });
        }
        self.commands.push(command)?;
        Ok(self.names.push(name)?)
    }
}

/// Runs steps over a system, at most so many at once, and none for longer than the limit, if there
/// is one. Once one has failed, no other is started, and those that run are ended, with the groups
/// that their commands lead. Returns what came of those that were started. `tell` is called as by
/// `run_all`. Blocks until no step runs. Fails if memory runs out, before any is started.
pub fn run_steps<'s, S: System, C: Clock, T: FnMut(usize, Progress<'_>)>(
    rt: &(impl Threads + Wait + AllocGlobal),
    system: &mut S,
    steps: &'s Steps<'_, S::End>,
    clock: &'s C,
    at_once: usize,
    limit: Option<Duration>,
    mut tell: T,
) -> Result<Vec<Finished>, StepsError>
where
    S::Reader: Send + 'static,
    requires { (t : T) (place : _) (told : _) → T.pre t place told }
    ensures ran { IfOk result (λ ends. Ran ⟦<S as Viewed>⟧.views S.may_read S.Reader.remaining
        ⟦<NoHook as Hook>⟧.allows ⟦<NoHook as Hook>⟧.refuses C.may_show
        steps.now.commands.items at_once limit system.old ends.items system.new) }
    ensures failed { IfErr result (λ error. system.new ≡ system.old) }
{
    let tasks = Tasks {
        all: &steps.commands,
        at_once: at_once.max(1),
        at_failure: AtFailure::Stop,
        limit,
        grace: Duration::from_secs(1),
        clock,
    };
    let mut pool = Pool::new(rt.alloc());
    match run_all(rt, rt.alloc(), system, &mut pool, tasks, &mut tell) {
        Ok(ends) => Ok(ends),
        Err(_) => Err(StepsError::Memory(AllocError)), // no other error comes
    }
}

/// Writes a line of a step, which has no end, with its name in front.
pub fn write_line<W: Write>(out: &mut W, name: &str, line: &[u8]) -> io::Result<()> {
    write!(out, "{name}: ")?;
    out.write_all(line)?;
    out.write_all(b"\n")?;
    out.flush()
}

/// Whether a step was stopped before its limit: another one had failed.
pub fn was_stopped(end: &Finished, limit: Option<Duration>) -> bool {
    matches!(end.end, TaskEnd::Late(_)) && limit.is_none_or(|limit| end.took < limit)
}

/// Whether one of these steps has failed.
pub fn have_failed(ends: &[Finished]) -> bool
    ensures { result ≡ list_any has_failed ends.now }
{
    ends.iter().any(|end| end.has_failed())
}

/// Writes how each step ended, and the last lines of stderr of each that failed.
pub fn summarize<W: Write>(
    out: &mut W,
    names: &[&str],
    ends: &[Finished],
    limit: Option<Duration>,
) -> io::Result<()> {
    for (place, name) in names.iter().enumerate() {
        match ends.get(place) {
            None => writeln!(out, "{name}: not started")?,
            Some(it) if was_stopped(it, limit) => {
                writeln!(out, "{name}: stopped, {} s", it.took.as_secs())?;
            }
            Some(it) => writeln!(out, "{name}: {it}, {} s", it.took.as_secs())?,
        }
    }
    for (end, name) in ends.iter().zip(names) {
        let lines = last_lines(&end.stderr, 4096);
        if end.has_failed() && !lines.is_empty() {
            writeln!(out, "--- {name}: stderr")?;
            out.write_all(lines)?;
            if !lines.ends_with(b"\n") {
                out.write_all(b"\n")?;
            }
        }
    }
    out.flush()
}
