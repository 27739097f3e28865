//! The words of the program.
use clap::{Command, Error, arg, value_parser};
use std::alloc::{AllocError, Global};
use std::time::Duration;

/// What the words ask for.
#[derive(Drop)]
pub struct Options<'a> {
    /// The path of the steps.
    pub file: &'a str,
    /// How many run at once at most.
    pub jobs: usize,
    /// How long each may run.
    pub limit: Option<Duration>,
    /// The names of those that run, or none where all do.
    pub only: Vec<&'a str>,
    /// What stands before the words of each command.
    pub over: &'a str,
    /// Whether a script is written, and nothing runs.
    pub is_dry: bool,
    /// Whether how many have ended is written to stderr.
    pub shows_progress: bool,
    /// The folder of recordings of those that fail.
    pub record: Option<&'a str>,
    /// The recording from which a step runs again.
    pub replay: Option<&'a str>,
}

/// Returns what the words ask for. Fails where they are wrong or ask for help, or memory runs out.
pub fn options_of<'a>(alloc: Global, words: &'a [String]) -> Result<Options<'a>, Error> {
    let matches = command(alloc)?.try_get_matches_from(words)?;
    Ok(Options {
        file: matches.get_str("FILE").unwrap_or(""),
        jobs: matches.get_one("jobs").unwrap_or(1),
        limit: matches.get_one("limit").map(Duration::from_secs),
        only: Vec::from_slice(alloc, matches.get_strs("only").unwrap_or(&[]))?,
        over: matches.get_str("over").unwrap_or(""),
        is_dry: matches.get_flag("dry-run"),
        shows_progress: matches.get_flag("progress"),
        record: matches.get_str("record"),
        replay: matches.get_str("replay"),
    })
}

// Returns the words that the program takes.
fn command<'a>(alloc: Global) -> Result<Command<'a>, AllocError> {
    let about = "Runs the steps of a file, of lines `name: command line`, up to the first failure.";
    let jobs = arg!(in alloc; -j --jobs <N> "How many run at once at most").default_value("1");
    let limit = arg!(in alloc; --limit <SECONDS> "How long each may run");
    let (kept, again) = (
        "Keep a recording of each step that fails in this folder",
        "Run a step again from its recording, with no process",
    );
    Command::new(alloc, "steps")
        .no_binary_name(true)
        .about(about)
        .arg(arg!(in alloc; <FILE> "The file of steps"))?
        .arg(jobs.value_parser(value_parser!(usize).range(1..)))?
        .arg(limit.value_parser(value_parser!(u64).range(1..)))?
        .arg(arg!(in alloc; --only <NAME> ... "Only the step of this name; may be repeated"))?
        .arg(arg!(in alloc; --over <WORDS> "Words before those of each command, as `srun -n1`"))?
        .arg(arg!(in alloc; --"dry-run" "Print a script for sh, and run nothing"))?
        .arg(arg!(in alloc; --progress "Show on stderr how many have ended"))?
        .arg(
            arg!(in alloc; --record <FOLDER>)
                .help(kept)
                .conflicts_with("dry-run")?,
        )?
        .arg(
            arg!(in alloc; --replay <RECORDING>)
                .help(again)
                .conflicts_with("dry-run")?
                .conflicts_with("record")?,
        )
}
