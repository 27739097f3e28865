//! Expressions of the lines of standard input, run on the real machine one after the other, all in
//! one process. The result of each is printed. The last line says whether a file descriptor or a
//! child is left that wasn't there before the first.
//!
//! A line has the arguments of the program `host`, separated by blanks, and its expression is run
//! by `read`. After `+ ` a line has an expression in the notation of rows (`docs/ROWS.md`), which
//! is run by `run`.
use duct::System;
use duct_program::line;
use rows_runs::{HostMachine, Machine};
use rows_table::{Real, TableError, Tree, written_with};
use std::alloc::{AllocError, Global};
use std::io::{Read, Write};
use std::sync::Wait;

/// The words of a text.
fn words(alloc: Global, text: &str) -> Result<Vec<String>, AllocError> {
    let mut words = Vec::new(alloc);
    for word in text.split_whitespace() {
        words.push(String::from_str(alloc, word)?)?;
    }
    Ok(words)
}

/// Reads the expression of a line of arguments. Returns its text or its error as text.
fn read_text<M: Machine>(
    rt: &impl Wait,
    alloc: Global,
    machine: &mut M,
    text: &str,
) -> Result<String, TableError> {
    let words = words(alloc, text)?;
    let tree: Tree<M::End> = match line(alloc, words.as_slice()) {
        Ok(tree) => tree,
        Err(usage) => return Ok(format!(in alloc; "{usage}")?),
    };
    let (system, pool, _) = machine.stage();
    let read = tree.read(rt, system, pool)?;
    Ok(format!(in alloc; "{read:?}")?)
}

/// Runs the expression of a text in the notation of rows. Returns its output as text.
fn run_text<M: Machine>(
    rt: &impl Wait,
    alloc: Global,
    machine: &mut M,
    text: &str,
) -> Result<String, TableError> {
    let tree = written_with(alloc, machine, text)?;
    let (system, pool, _) = machine.stage();
    let ran = tree.run(rt, system, pool)?;
    let (status, out, err) = (ran.status, ran.stdout.as_slice(), ran.stderr.as_slice());
    Ok(format!(in alloc; "{status:?} {out:?} {err:?}")?)
}

/// Runs a line, and writes its result or its error.
fn run_line<M: Machine, W: Write>(
    rt: &impl Wait,
    alloc: Global,
    machine: &mut M,
    line: &str,
    out: &mut W,
) -> Result<(), TableError> {
    let result = match line.strip_prefix("+ ") {
        Some(text) => run_text(rt, alloc, machine, text),
        None => read_text(rt, alloc, machine, line),
    };
    machine.stage().0.clear_journal();
    match result {
        Ok(text) => Ok(writeln!(out, "{text}")?),
        Err(stop) => Ok(writeln!(out, "{stop}")?),
    }
}

/// Runs the lines of `input`, and writes their results and whether something is left. Fails if they
/// can't be read, if the machine can't be set up, or if the output can't be written.
pub fn run_lines<R: Real + Wait, I: Read, W: Write>(
    rt: &R,
    input: &mut I,
    out: &mut W,
) -> Result<(), TableError> {
    let mut text = String::new(rt.alloc());
    input.read_to_string(&mut text)?;
    let mut machine = HostMachine::new(rt)?;
    for line in text.lines() {
        run_line(rt, rt.alloc(), &mut machine, line, out)?;
    }
    // The machine holds what stands in place of a closed stdout, so it has to outlast the write.
    let left = if machine.clear()? {
        "nothing is left"
    } else {
        "a file descriptor or a child is left"
    };
    Ok(writeln!(out, "{left}")?)
}
