//! The program `steps`: runs the steps of a file, so many at once, up to the first that fails, and
//! tells what came of each.
#![tactic(auto)]

ghost use Rattle.std.specs.Prelude.{◌≤◌};

mod error;
mod options;
mod progress;
mod recordings;
mod runner;
mod steps;
mod words;

use crate::options::options_of;
use crate::runner::{PROGRAM, Runner};
use clap::Error;
use clap::error::ErrorKind;
use duct_host::Host;
use duct_program::arguments;
use std::process::ExitCode;
use std::{env, io};

fn main(rt: HostRuntime) -> ExitCode {
    // Before any file, which would else take the place of a closed standard stream.
    let mut host = Host::new(&rt, rt.alloc());
    let words = match env::args(&rt).and_then(|all| arguments(rt.alloc(), all)) {
        Ok(words) => words,
        Err(error) => {
            let line = "steps: argument is not UTF-8\n";
            return ExitCode::from(PROGRAM.tell_error(&mut rt.stderr(), &error, 2, line));
        }
    };
    let options = match options_of(rt.alloc(), &words) {
        Ok(options) => options,
        Err(error) => return ExitCode::from(refuse(&rt, &error)),
    };
    let (out, err) = (io::writer(&rt), rt.stderr());
    let mut runner = Runner {
        rt: &rt,
        options,
        out,
        err,
    };
    ExitCode::from(runner.run(&mut host))
}

// Writes why the words ask for nothing, or the help that they ask for. Returns the status.
fn refuse<R: Print + Eprint>(rt: &R, error: &Error) -> u8
    ensures { result ≤ 3 }
{
    match (error.print(rt), error.kind()) {
        (Ok(()), ErrorKind::DisplayHelp) => 0,
        (Err(_), _) | (Ok(()), ErrorKind::OutOfMemory) => 3,
        (Ok(()), _) => 2,
    }
}
