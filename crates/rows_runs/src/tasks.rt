//! Expressions of which only so many run at once, and some that are started again each time that
//! they end.
use crate::texts::{push_error, push_finished, push_polled};
use duct::{Clock, Pool, System};
use duct_tasks::{AtFailure, Kept, Restarts, Services, Tasks, keep, run_all};
use rows_table::{TableError, Tree, duration, first_word};
use std::cell::Cell;
use std::sync::Wait;
use std::thread::Threads;
use std::time::Duration;

/// Returns what becomes of the other tasks once one has failed, by its name.
fn at_failure(name: &str) -> Result<AtFailure, TableError> {
    match name {
        "go_on" => Ok(AtFailure::GoOn),
        "wait" => Ok(AtFailure::Wait),
        "stop" => Ok(AtFailure::Stop),
        _ => Err(TableError::Text("no such name")),
    }
}

/// Runs expressions as tasks. The text has how many run at once, what becomes of the others once
/// one has failed, and the grace and the limit of each, if there are any. Adds what came of each.
pub fn run_tasks<S: System, C: Clock>(
    rt: &(impl Threads + Wait),
    clock: &C,
    trees: &[Tree<S::End>],
    text: &str,
    system: &mut S,
    pool: &mut Pool<S::Child>,
    answers: &mut String,
) -> Result<(), TableError>
where
    S::Reader: Send + 'static,
{
    let (at_once, text) = first_word(text);
    let (name, text) = first_word(text);
    let (grace, limit) = first_word(text);
    let (at_once, at_failure) = (at_once.parse::<usize>()?, at_failure(name)?);
    if at_once == 0 {
        return Err(TableError::Text("none at once"));
    }
    let (grace, limit) = (time(grace)?, time(limit)?);
    let tasks = Tasks {
        all: trees,
        at_once,
        at_failure,
        limit,
        grace: grace.unwrap_or(Duration::ZERO),
        clock,
    };
    let alloc = *answers.allocator();
    match run_all(rt, alloc, system, pool, tasks, &mut |_, _| {}) {
        Ok(ends) => {
            for end in ends {
                push_finished(answers, &end)?;
            }
        }
        Err(error) => push_error(answers, &error)?,
    }
    Ok(())
}

/// Reads a duration, if there is one.
fn time(text: &str) -> Result<Option<Duration>, TableError> {
    match text {
        "" => Ok(None),
        text => Ok(Some(duration(text)?)),
    }
}

/// Starts expressions again each time that they end. The text has how often each is started at most
/// in a row, its first and its greatest pause, how long it has to run so that these count anew, its
/// grace, and how often the stop function says no, if it ever says yes. Adds of each why it is not
/// started again, after how many starts, and how the last one ended.
pub fn keep_running<S: System, C: Clock>(
    rt: &impl Wait,
    clock: &C,
    trees: &[Tree<S::End>],
    text: &str,
    system: &mut S,
    pool: &mut Pool<S::Child>,
    answers: &mut String,
) -> Result<(), TableError> {
    let (restarts, noes) = restarts(text)?;
    let asked = Cell::new(0_u64);
    let stop = || noes <= asked.replace(asked.get().saturating_add(1));
    let services = Services {
        all: trees,
        restarts,
        clock,
    };
    let alloc = *answers.allocator();
    match keep(rt, alloc, system, pool, &services, stop, &mut |_, _| {}) {
        Ok(all) => {
            for kept in all {
                push_kept(answers, kept)?;
            }
        }
        Err(error) => push_error(answers, &error)?,
    }
    Ok(())
}

/// Adds what came of an expression that was started again and again.
fn push_kept(answers: &mut String, kept: Kept) -> Result<(), TableError> {
    let Kept { starts, why, last } = kept;
    write!(answers, "{why:?} after {starts}")?;
    match last {
        Some(end) => Ok(
            answers
                .push_str(": ")
                .and(push_polled(answers, &end.map(Some)))?,
        ),
        None => Ok(answers.push_str(". ")?),
    }
}

/// Reads how often an expression is started, and how often its stop function says no.
fn restarts(text: &str) -> Result<(Restarts, u64), TableError> {
    let (most, text) = first_word(text);
    let (pause, text) = first_word(text);
    let (greatest, text) = first_word(text);
    let (healthy, text) = first_word(text);
    let (grace, noes) = first_word(text);
    let restarts = Restarts {
        most: most.parse()?,
        pause: duration(pause)?,
        greatest: duration(greatest)?,
        healthy: duration(healthy)?,
        grace: duration(grace)?,
    };
    match noes {
        "" => Ok((restarts, u64::MAX)),
        noes => Ok((restarts, noes.parse()?)),
    }
}
