//! The program `rows`: reads the files of rows that its arguments name, and tries each row. Prints
//! a line for each file with the number of texts that were compared, and a line for each row that
//! differs: its file and line, what was found and what was wanted. Exits with status 1 if a row
//! differs or stops, if a file can't be read, and if nothing is compared in a file.
//!
//! Options are for the files after them. With `--quiet` only the rows that differ are printed. With
//! `--tell` nothing is compared: each text that is found is printed after its line's number and
//! key, and so is the reason why a row stops. The line `spent 7` before them says that seven
//! allocations were made before the first row, as many as `--spend=7` asks for. The line `left 9`
//! after them says that nine more succeeded before one failed, of ten thousand at most. So if the
//! Nth allocation of the process fails, `--spend` chooses which one of a row that is.
//!
//! With `--lines` the program runs what the lines of standard input say (`lines`), and with
//! `--guarded` as the first argument it reads a line under a policy (`guarded`).
#![tactic(auto)]

mod guarded;
mod lines;
mod parts;

use crate::guarded::read_line;
use crate::lines::run_lines;
use crate::parts::Parts;
use duct_program::arguments;
use rows_runs::{Calls, HostMachine, Scripted};
use rows_table::{Real, RowFile, TableError, Tally, compare, filled};
use std::alloc::Global;
use std::io::{self, Read, Write};
use std::process::ExitCode;
use std::sync::Wait;
use std::{env, fs};

/// Tries the rows of a file by the table that its first line names. Fails if there is no such
/// table, if its first row can't be set up, or if the output can't be written.
fn rows<R: Real + Wait, W: Write>(rt: &R, file: RowFile, out: &mut W) -> Result<Tally, TableError> {
    let alloc = rt.alloc();
    let first = file.text.lines().next().unwrap_or("");
    match first.strip_prefix("table: ").unwrap_or("") {
        "calls" => {
            let mut calls = Calls::new(rt, alloc, Scripted::new(alloc)?);
            Ok(compare(alloc, &mut calls, file, out)?)
        }
        "host calls" => {
            let text = filled(rt, file.text)?;
            let file = RowFile {
                text: text.as_str(),
                ..file
            };
            let mut calls = Calls::new(rt, alloc, HostMachine::new(rt)?);
            Ok(compare(alloc, &mut calls, file, out)?)
        }
        "parts" => Ok(compare(alloc, &mut Parts::new(alloc), file, out)?),
        _ => Err(TableError::Text("no such table")),
    }
}

/// How files are tried.
#[derive(Clone, Copy, Default)]
struct Options {
    is_told: bool,
    is_quiet: bool,
    /// How many allocations are made before the rows of a file that are told.
    spent: u64,
}

/// Makes this many allocations, and frees each of them at once. Stops at one that fails. Returns
/// how many succeeded.
fn allocations(alloc: Global, count: u64) -> u64 {
    for made in 0..count {
        if Box::new(alloc, 0_u8).is_err() {
            return made;
        }
    }
    count
}

/// The greatest number of allocations that are made after the rows of a file that are told.
const LEFT: u64 = 10_000;

/// Tries the file of this name, and prints how many texts were compared, or how many allocations
/// were made before its rows and how many more succeed. Returns whether all of its rows hold.
fn file<R: Real + Wait, W: Write>(
    rt: &R,
    name: &str,
    options: Options,
    out: &mut W,
) -> io::Result<bool> {
    let text = fs::read_to_string(rt, name)?;
    let file = RowFile {
        name,
        text: text.as_str(),
        is_told: options.is_told,
    };
    if options.is_told {
        let spent = allocations(rt.alloc(), options.spent);
        writeln!(out, "{name}\nspent {spent}")?;
    }
    let counts = match rows(rt, file, out) {
        Ok(counts) => counts,
        Err(stop) => {
            writeln!(out, "1 stops: {stop}")?;
            Tally::default()
        }
    };
    if options.is_told {
        let left = allocations(rt.alloc(), LEFT);
        writeln!(out, "left {left}")?;
    } else if !options.is_quiet {
        let (compared, differing) = (counts.compared, counts.differing);
        writeln!(out, "{name}: {compared} compared, {differing} differ")?;
    }
    Ok(counts.differing == 0 && counts.compared > 0)
}

/// Tries the files that the arguments name, each with the options before it. Returns whether all of
/// their rows hold.
fn files<R: Real + Wait, I: Read, W: Write>(
    rt: &R,
    arguments: &[String],
    input: &mut I,
    out: &mut W,
) -> io::Result<bool> {
    let mut options = Options::default();
    let mut holds = true;
    for argument in arguments {
        match argument.as_str() {
            "--quiet" => options.is_quiet = true,
            "--tell" => options.is_told = true,
            "--lines" => {
                if let Err(stop) = run_lines(rt, input, out) {
                    writeln!(out, "{stop}")?;
                    holds = false;
                }
            }
            argument => match argument.strip_prefix("--spend=") {
                Some(count) => options.spent = count.parse().unwrap_or(0),
                None => holds = file(rt, argument, options, out)? && holds,
            },
        }
    }
    Ok(holds)
}

fn main(rt: HostRuntime) -> io::Result<ExitCode> {
    let words = arguments(rt.alloc(), env::args(&rt)?)?;
    let mut out = io::writer(&rt);
    let mut holds = true;
    match words.as_slice() {
        [first, line @ ..] if first.as_str() == "--guarded" => read_line(&&rt, line, &mut out)?,
        words => holds = files(&&rt, words, &mut rt.stdin(), &mut out)?,
    }
    Ok(ExitCode::from(u8::from(!holds)))
}
