//! What the program does.
ghost use Rattle.std.specs.Prelude.{◌≡◌, ◌⊎◌, ◌≤◌, true, false, IfOk};
ghost use Rattle.steps.specs.Runs.{Ran, RanTo, RunsNone};

use crate::error::StepsError;
use crate::options::Options;
use crate::progress::ProgressLine;
use crate::recordings::recording_of;
use crate::steps::{Steps, have_failed, read_steps, run_steps, summarize, was_stopped, write_line};
use crate::words::check_words;
use duct::{Clock, Entry, Hook, System};
use duct_host::HostClock;
use duct_program::{NoHook, Program};
use duct_replay::{Recording, Replay, Values, private_file, read_recording, recording_text};
use duct_script::ScriptClock;
use duct_system::views::Viewed;
use duct_tasks::{Finished, Progress};
use duct_words::{quote, shell_text};
use std::alloc::AllocError;
use std::fs;
use std::io::Write;
use std::rt::{self, Files};
use std::sync::Wait;
use std::thread::Threads;

pub const PROGRAM: Program = Program {
    no_memory: "steps: out of memory\n",
    failed: 3,
};

/// What the program runs on, what is asked of it, and where it writes.
#[derive(Drop)]
pub struct Runner<'r, R, O, E> {
    pub rt: &'r R,
    pub options: Options<'r>,
    pub out: O,
    pub err: E,
}

impl<'r, R: Threads + Wait + rt::Clock + Files + AllocGlobal, O: Write, E: Write> Runner<
    'r,
    R,
    O,
    E,
> {
    /// Does what the options ask for over a system. Returns the status: 0 where all steps ended
    /// well, 1 where one did not, 2 where the file or an option is wrong, and 3 where memory runs
    /// out or not all could be written.
    pub fn run<S: System>(&mut self, system: &mut S) -> u8
    where
        S::Reader: Send + 'static,
        ensures well { result ≡ 0 → RunsNone self.old.options ⊎ RanTo ⟦<S as Viewed>⟧.views
            S.may_read S.Reader.remaining ⟦<NoHook as Hook>⟧.allows ⟦<NoHook as Hook>⟧.refuses
            ⟦<HostClock<&'r R> as Clock>⟧.may_show self.old.options true system.old system.new }
        ensures failed { result ≡ 1 → RunsNone self.old.options ⊎ RanTo ⟦<S as Viewed>⟧.views
            S.may_read S.Reader.remaining ⟦<NoHook as Hook>⟧.allows ⟦<NoHook as Hook>⟧.refuses
            ⟦<HostClock<&'r R> as Clock>⟧.may_show self.old.options false system.old system.new }
        ensures status { result ≤ 3 }
    {
        match self.perform(system) {
            Ok(true) => 0,
            Ok(false) => 1,
            Err(error) => {
                let line = format!(in self.rt.alloc(); "steps: {error}\n");
                PROGRAM.tell_made(&mut self.err, error.status(), line)
            }
        }
    }

    // Does what the options ask for. Returns whether all steps ended well.
    fn perform<S: System>(&mut self, system: &mut S) -> Result<bool, StepsError>
    where
        S::Reader: Send + 'static,
        ensures { IfOk result (λ well. RunsNone self.old.options ⊎ RanTo ⟦<S as Viewed>⟧.views
            S.may_read S.Reader.remaining ⟦<NoHook as Hook>⟧.allows ⟦<NoHook as Hook>⟧.refuses
            ⟦<HostClock<&'r R> as Clock>⟧.may_show self.old.options well system.old system.new) }
    {
        let bytes = fs::read(self.rt, self.options.file).map_err(StepsError::File)?;
        let text = text_of(&bytes)?;
        check_words(self.rt.alloc(), self.options.over)?;
        match self.options.replay {
            _ if self.options.is_dry => self.write_script(text),
            Some(path) => self.replay(path, text),
            None => {
                let clock = HostClock::new(self.rt).map_err(StepsError::Clock)?;
                self.run_over(system, text, &clock)
            }
        }
    }

    // Runs a step over its recording, all of which is read: the clock stands still. Returns whether
    // it ended well.
    fn replay(&mut self, path: &str, text: &str) -> Result<bool, StepsError> {
        let alloc = self.rt.alloc();
        let lines = fs::read_to_string(self.rt, path).map_err(StepsError::Unread)?;
        let recording = read_recording(alloc, lines.as_str()).map_err(StepsError::Recording)?;
        let mut replay = Replay::new(alloc, recording);
        let clock = ScriptClock::new(Vec::new(alloc));
        let well = self.run_over(&mut replay, text, &clock)?;
        match replay.difference() {
            None => Ok(well),
            Some(place) => Err(StepsError::Differs(place)),
        }
    }

    // Runs the steps over a system, writes what they write and how they ended, and keeps the
    // recordings that are asked for. Returns whether all ended well.
    fn run_over<S: System, C: Clock>(
        &mut self,
        system: &mut S,
        text: &str,
        clock: &C,
    ) -> Result<bool, StepsError>
    where
        S::Reader: Send + 'static,
        ensures { IfOk result (λ well. RanTo ⟦<S as Viewed>⟧.views S.may_read S.Reader.remaining
            ⟦<NoHook as Hook>⟧.allows ⟦<NoHook as Hook>⟧.refuses C.may_show self.old.options well
            system.old system.new) }
    {
        let alloc = self.rt.alloc();
        let words = format!(in alloc; "setsid {}", self.options.over)?;
        // The name of a file has at most 255 bytes, of which `.recording` takes ten.
        let longest = self.options.record.map_or(usize::MAX, |_| 245);
        let steps = read_steps(alloc, text, words.as_str(), &self.options.only, longest)?;
        if let Some(folder) = self.options.record {
            fs::create_dir_all(self.rt, folder).map_err(StepsError::Unkept)?;
        }
        let ends = self.tell_all(system, &steps, clock)?;
        summarize(&mut self.out, &steps.names, &ends, self.options.limit)?;
        if let Some(folder) = self.options.record {
            self.keep(folder, system.journal(), &steps.names, &ends)?;
        }
        Ok(!have_failed(&ends))
    }

    // Runs the steps, and writes what they write. Returns what came of those that were started.
    fn tell_all<'s, S: System, C: Clock>(
        &mut self,
        system: &mut S,
        steps: &'s Steps<'_, S::End>,
        clock: &'s C,
    ) -> Result<Vec<Finished>, StepsError>
    where
        S::Reader: Send + 'static,
        ensures { IfOk result (λ ends. Ran ⟦<S as Viewed>⟧.views S.may_read S.Reader.remaining
            ⟦<NoHook as Hook>⟧.allows ⟦<NoHook as Hook>⟧.refuses C.may_show
            steps.now.commands.items self.old.options.jobs self.old.options.limit
            system.old ends.items system.new) }
    {
        let (jobs, limit) = (self.options.jobs, self.options.limit);
        let mut line = ProgressLine {
            is_shown: self.options.shows_progress,
            all: steps.names.len(),
            run: 0,
            ended: 0,
        };
        let mut written = Ok(());
        let tell = |place: usize, told: Progress<'_>| {
            line.erase(&mut self.err);
            if let (Some(name), Progress::Line(_, text)) = (steps.names.get(place), &told) {
                let wrote = write_line(&mut self.out, name, text);
                if written.is_ok() {
                    written = wrote;
                }
            }
            line.tell(&told, &mut self.err);
        };
        let ends = run_steps(self.rt, system, steps, clock, jobs, limit, tell);
        line.erase(&mut self.err);
        written?;
        ends
    }
}

impl<R: Files + AllocGlobal, O: Write, E> Runner<'_, R, O, E> {
    // Writes a script that runs the steps one after the other, up to the first that fails.
    fn write_script(&mut self, text: &str) -> Result<bool, StepsError> {
        let (alloc, options) = (self.rt.alloc(), &self.options);
        let steps: Steps<u64> = read_steps(alloc, text, options.over, &options.only, usize::MAX)?;
        let mut script = String::from_str(alloc, "set -e\n")?;
        for (name, command) in steps.names.iter().zip(&steps.commands) {
            let line = shell_text(alloc, command).map_err(StepsError::Script)?;
            writeln!(script, "# {name}\n{line}")?;
        }
        self.out.write_all(script.as_bytes())?;
        Ok(true)
    }

    // Keeps the recording of each step that failed, and writes how to run it again.
    fn keep(
        &mut self,
        folder: &str,
        journal: &[Entry],
        names: &[&str],
        ends: &[Finished],
    ) -> Result<(), StepsError> {
        let alloc = self.rt.alloc();
        for (place, (name, end)) in names.iter().zip(ends).enumerate() {
            if end.has_failed() && !was_stopped(end, self.options.limit) {
                let path = format!(in alloc; "{folder}/{name}.recording")?;
                self.write_recording(path.as_str(), &recording_of(alloc, journal, place, end)?)?;
                let line = self.replay_line(name, path.as_str())?;
                writeln!(self.out, "replay: {line}")?;
            }
        }
        Ok(self.out.flush()?)
    }

    // Writes a recording to the file at this path.
    fn write_recording(&self, path: &str, recording: &Recording) -> Result<(), StepsError> {
        let text = recording_text(self.rt.alloc(), recording, Values::Shown)?;
        let opened = private_file(self.rt, path);
        let mut file = opened.map_err(StepsError::Unkept)?.file;
        file.write_all(text.as_bytes()).map_err(StepsError::Unkept)
    }

    // Returns the words that run a step again from the recording at this path, also where a name
    // begins with `-`.
    fn replay_line(&self, name: &str, path: &str) -> Result<String, AllocError> {
        let (alloc, file, over) = (self.rt.alloc(), self.options.file, self.options.over);
        let only = format!(in alloc; "--only={name}")?;
        let replay = format!(in alloc; "--replay={path}")?;
        let (only, replay) = (only.as_str(), replay.as_str());
        if over.is_empty() {
            return quote(alloc, &["steps", only, replay, "--", file]);
        }
        let over = format!(in alloc; "--over={over}")?;
        quote(alloc, &["steps", only, replay, over.as_str(), "--", file])
    }
}

// Returns the text of bytes.
fn text_of(bytes: &[u8]) -> Result<&str, StepsError> {
    str::from_utf8(bytes).map_err(|error| {
        let before = bytes.get(..error.valid_up_to()).unwrap_or(&[]);
        let ends = before.iter().filter(|it| **it == b'\n').count();
        let line = ends.saturating_add(1);
        StepsError::NotUtf8 { line }
    })
}
