//! Expressions written as texts: `a stdin_null b pipe` is `a.stdin_null().pipe(&b)`
//! (`docs/ROWS.md`).
use crate::hooks::hook;
use crate::stop::TableError;
use crate::words::{first_word, pairs, pieces};
use duct::{Error, Expression, Numbered};
use duct_script::{CallLog, Script, ScriptEnd, ScriptHook};
use std::alloc::Global;
use std::path::{Path, PathBuf};
use std::sync::Arc;

/// An expression of a row, with hooks of the scripted system.
pub type Tree<E> = Expression<E, ScriptHook>;

/// The log in which the hooks of an expression note their calls, if there is one.
pub type Log<'c> = Option<&'c Arc<CallLog>>;

/// Lends the ends that an expression names by their numbers.
pub trait Lender {
    /// The ends that it lends.
    type End: Numbered;

    /// Returns the end with this number. Fails if it can't be lent.
    fn lend(&mut self, number: u64) -> Result<Self::End, TableError>;

    /// Returns no log, unless the lender has one.
    fn calls(&self) -> Log<'_> {
        None
    }
}

/// Lends ends of other scripted systems, with any number from 1 to `u64::MAX - 1`.
#[derive(Clone, Copy)]
pub struct Strangers {
    /// The allocator of those systems.
    pub alloc: Global,
}

impl Lender for Strangers {
    type End = ScriptEnd;

    fn lend(&mut self, number: u64) -> Result<ScriptEnd, TableError> {
        let mut other = Script::new(self.alloc)?;
        other.skip_numbers_below(number);
        Ok(other.adopt()?)
    }
}

/// Builds the expression of a text over the scripted system, with ends from `Strangers`. Fails as
/// `written_with` does.
pub fn written(alloc: Global, text: &str) -> Result<Tree<ScriptEnd>, TableError> {
    written_with(alloc, &mut Strangers { alloc }, text)
}

/// Builds the expression of a text, with ends from this lender. Fails if a step is malformed, if an
/// end can't be lent, if the steps don't leave exactly one expression, or on an allocation failure.
pub fn written_with<L: Lender>(
    alloc: Global,
    lender: &mut L,
    text: &str,
) -> Result<Tree<L::End>, TableError> {
    let mut writing = Writing::new(alloc, lender);
    writing.write(text)?;
    writing.only()
}

/// Returns the name of the first step of a text, its arguments, and the text after the step. A step
/// that is quoted as a whole has arguments, and no name.
fn first_step(text: &str) -> (&str, Option<&str>, &str) {
    let (step, rest) = first_word(text);
    if let Some((call, _)) = step.split_once('`') {
        let (_, quoted) = text.split_once('`').unwrap_or((text, ""));
        let (values, rest) = quoted.split_once('`').unwrap_or((quoted, ""));
        return (call.strip_suffix('=').unwrap_or(call), Some(values), rest);
    }
    match step.split_once('=') {
        Some((call, values)) if is_call(call) => (call, Some(values), rest),
        _ => (step, None, rest),
    }
}

/// Whether a step is a call with arguments, by its text before the `=`.
fn is_call(name: &str) -> bool {
    name.bytes()
        .all(|byte| byte == b'_' || byte.is_ascii_lowercase())
}

/// Why a step fails that needs an expression before it.
const NONE: TableError = TableError::Text("no expression");

/// Expressions that are built, with ends from this lender.
#[derive(Drop)]
pub struct Writing<'l, L: Lender> {
    alloc: Global,
    lender: &'l mut L,
    /// The expressions that the steps so far left, in order.
    pub built: Vec<Tree<L::End>>,
}

impl<'l, L: Lender> Writing<'l, L> {
    /// Returns no expression yet.
    pub fn new(alloc: Global, lender: &'l mut L) -> Writing<'l, L> {
        Writing {
            alloc,
            lender,
            built: Vec::new(alloc),
        }
    }

    /// Adds all expressions that the steps of a text leave. If a step fails, those that the steps
    /// before it left stay. Fails if a step is malformed, if an end can't be lent, or on an
    /// allocation failure.
    pub fn write(&mut self, text: &str) -> Result<(), TableError> {
        let mut rest = text;
        for _ in 0..text.len() {
            let (name, values, others) = first_step(rest);
            if !name.is_empty() || values.is_some() {
                self.step(name, values)?;
            }
            rest = others;
        }
        Ok(())
    }

    fn only(&mut self) -> Result<Tree<L::End>, TableError> {
        match self.built.pop() {
            Some(made) if self.built.is_empty() => Ok(made),
            _ => Err(TableError::Text("not exactly one expression")),
        }
    }

    /// Adds what a step makes in place of the expressions that it is made of.
    fn step(&mut self, name: &str, values: Option<&str>) -> Result<(), TableError> {
        let (made, parts) = match (name, values) {
            ("", Some(words)) => (command(self.alloc, words)?, 0),
            ("pipe" | "pipes", _) => (self.repeated(values, true)?, 2),
            ("unchecked", _) => (self.repeated(values, false)?, 1),
            ("again", _) => (self.built.last().ok_or(NONE)?.clone()?, 0),
            (_, None) if name.starts_with("std") => (self.redirected(name)?, 1),
            (_, None) => (command(self.alloc, name)?, 0),
            (_, Some(program)) if FORMS.contains(&name) => (of(self.alloc, name, program)?, 0),
            (_, Some(values)) => (self.with_values(name, values)?, 1),
        };
        let length = self.built.len().saturating_sub(parts);
        self.built.truncate(length);
        Ok(self.built.push(made)?)
    }

    /// So many `unchecked` nodes, or pipes with the last expression as their right side.
    fn repeated(&self, count: Option<&str>, is_pipe: bool) -> Result<Tree<L::End>, TableError> {
        let (last, others) = self.built.split_last().ok_or(NONE)?;
        let first = if is_pipe {
            others.last().ok_or(NONE)?
        } else {
            last
        };
        let count = count.unwrap_or("1").parse::<u64>()?;
        let mut made = first.clone()?;
        for _ in 0..count {
            made = if is_pipe {
                made.pipe(last)
            } else {
                made.unchecked()
            }?;
        }
        Ok(made)
    }

    /// Makes a call on a stream that takes no arguments.
    fn redirected(&self, call: &str) -> Result<Tree<L::End>, TableError> {
        let inner = self.built.last().ok_or(NONE)?;
        let made = match call {
            "stdin_null" => inner.stdin_null(),
            "stdout_null" => inner.stdout_null(),
            "stderr_null" => inner.stderr_null(),
            "stdout_capture" => inner.stdout_capture(),
            "stderr_capture" => inner.stderr_capture(),
            "stdout_to_stderr" => inner.stdout_to_stderr(),
            "stderr_to_stdout" => inner.stderr_to_stdout(),
            "stdout_stderr_swap" => inner.stdout_stderr_swap(),
            _ => return Err(TableError::Text("no such call")),
        };
        Ok(made?)
    }

    /// Makes a call with ends or texts as arguments.
    fn with_values(&mut self, call: &str, values: &str) -> Result<Tree<L::End>, TableError> {
        match call {
            "stdin_file" | "stdout_file" | "stderr_file" => {
                let end = self.lender.lend(values.parse()?)?;
                let inner = self.built.last().ok_or(NONE)?;
                let made = match call {
                    "stdin_file" => inner.stdin_file(end),
                    "stdout_file" => inner.stdout_file(end),
                    _ => inner.stderr_file(end),
                };
                Ok(made?)
            }
            "before_spawn" => self.hooked(values),
            _ => with_texts(self.alloc, self.built.last().ok_or(NONE)?, call, values),
        }
    }

    /// Adds the hook of a text to an expression, with the ends whose numbers follow the text.
    fn hooked(&mut self, values: &str) -> Result<Tree<L::End>, TableError> {
        let (text, numbers) = values.split_once(',').unwrap_or((values, ""));
        let mut ends = Vec::new(self.alloc);
        for number in numbers.split_terminator(',') {
            ends.push(self.lender.lend(number.parse()?)?)?;
        }
        let hook = hook(self.alloc, self.lender.calls(), text)?;
        Ok(self.built.last().ok_or(NONE)?.before_spawn(hook, ends)?)
    }
}

/// Returns a command whose words are separated by commas.
fn command<E: Drop>(alloc: Global, words: &str) -> Result<Tree<E>, TableError> {
    match pieces(alloc, words)?.split_first() {
        Some((program, args)) => Ok(duct::cmd(alloc, *program, args)?),
        None => Err(TableError::Text("no program")),
    }
}

/// The forms in which a program is given.
const FORMS: [&str; 5] = ["string", "string_ref", "path", "path_buf", "path_buf_ref"];

/// Returns the command whose program is given in this form.
fn of<E: Drop>(alloc: Global, form: &str, text: &str) -> Result<Tree<E>, Error> {
    match form {
        "string" => duct::cmd(alloc, String::from_str(alloc, text)?, &[]),
        "string_ref" => duct::cmd(alloc, &String::from_str(alloc, text)?, &[]),
        "path" => duct::cmd(alloc, Path::new(text), &[]),
        "path_buf" => duct::cmd(alloc, PathBuf::from_str(alloc, text)?, &[]),
        _ => duct::cmd(alloc, &PathBuf::from_str(alloc, text)?, &[]),
    }
}

/// Makes a call with texts as arguments. Fails if there is no such call, if an argument is
/// malformed, or on an allocation failure.
fn with_texts<E: Drop>(
    alloc: Global,
    inner: &Tree<E>,
    call: &str,
    values: &str,
) -> Result<Tree<E>, TableError> {
    let (name, value) = values.split_once(',').unwrap_or((values, ""));
    let made = match call {
        "stdin_bytes" => inner.stdin_bytes(Vec::from_slice(alloc, values.as_bytes())?),
        "stdin_many" => inner.stdin_bytes(vec![in alloc; value.parse()?; name.parse()?]?),
        "stdin_path" => inner.stdin_path(values),
        "stdout_path" => inner.stdout_path(values),
        "stderr_path" => inner.stderr_path(values),
        "dir" => inner.dir(values),
        "env" => inner.env(name, value),
        "env_remove" => inner.env_remove(values),
        "full_env" => inner.full_env(pairs(alloc, values)?.as_slice()),
        _ => return Err(TableError::Text("no such call")),
    };
    Ok(made?)
}
