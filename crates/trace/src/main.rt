//! The program `trace`: what `host` requests of the system for its words. `trace plan` prints it
//! before anything runs, `trace record` writes it to a file while it runs, `trace judge` says
//! whether such a file is that of these words, and `trace replay` does the same again from the
//! file.
#![tactic(auto)]

mod commands;

use crate::commands::{JUDGE, REPLAY, judge_line, recorded, recording_of, replay};
use duct_host::Host;
use duct_plan::print;
use duct_program::{Program, arguments};
use duct_replay::Recorder;
use std::io::Write;
use std::process::ExitCode;
use std::{env, io};

const PROGRAM: Program = Program {
    no_memory: "trace: out of memory\n",
    failed: 3,
};

/// What is written where the first word is none of the four.
const USAGE: &str = "trace: usage: trace plan|record|judge|replay WORD..\n";

fn main(rt: HostRuntime) -> ExitCode {
    let (alloc, mut out, mut err) = (rt.alloc(), io::writer(&rt), rt.stderr());
    let words = match env::args(&rt).and_then(|all| arguments(alloc, all)) {
        Ok(words) => words,
        Err(error) => {
            let line = "trace: argument is not UTF-8\n";
            return ExitCode::from(PROGRAM.tell_error(&mut err, &error, 2, line));
        }
    };
    let Some((command, words)) = words.as_slice().split_first() else {
        return ExitCode::from(PROGRAM.tell(&mut err, 2, USAGE));
    };
    ExitCode::from(match command.as_str() {
        "plan" => print(alloc, words, &mut out, &mut err),
        "record" => {
            // Before the host, and that before the file: each takes the place of a closed stream.
            let is_closed = out.write(&[]).is_err();
            let mut recorder = Recorder::new(alloc, Host::new(&rt, alloc));
            recorded(&rt, &mut recorder, words, &mut out, &mut err).max(u8::from(is_closed))
        }
        "judge" => match recording_of(&rt, &mut rt.stdin(), &JUDGE, words, &mut err) {
            Ok((journal, words)) => judge_line(alloc, words, journal.entries(), &mut out, &mut err),
            Err(status) => status,
        },
        "replay" => match recording_of(&rt, &mut rt.stdin(), &REPLAY, words, &mut err) {
            Ok((recording, words)) => replay(&rt, alloc, recording, words, &mut out, &mut err),
            Err(status) => status,
        },
        _ => PROGRAM.tell(&mut err, 2, USAGE),
    })
}
