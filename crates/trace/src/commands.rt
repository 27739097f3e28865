//! The commands over the recording of a start: the journal, how children ended, and what was read.
//! `trace record` makes its file before anything starts, and writes it when everything has ended;
//! the others run the start of the words again from it, with no process and no file.
ghost use Rattle.std.specs.Prelude.{◌≡◌, ◌⊎◌, ◌≤◌, map, string_bytes, IfOk, IfSome, Some};
ghost use Rattle.std.specs.Io.KnownBytes.{Appends};
ghost use Rattle.duct_system.specs.EntryView.{entry_view};
ghost use Rattle.duct_program.specs.Answered.{WritesText, WritesUsage, line_of};
ghost use Rattle.duct_program.specs.Parsed.{RefusesAs};
ghost use Rattle.duct_program.specs.declared.usage.Usage.{Usage};
ghost use Rattle.duct_replay.specs.Judged.{IsRight};
ghost use Rattle.duct_replay.specs.Lines.{recorded_text, recorded_view};
ghost use Rattle.duct_replay.specs.RecordingView.{RecordingView};
ghost use Rattle.duct_replay.specs.declared.judgement.Verdict.{Verdict};
ghost use Rattle.duct_replay.specs.declared.private.PrivateFile.{PrivateFile};
ghost use Rattle.trace.specs.Commands.{AsksFor, IsJudged, IsReplayed, record_of, verdict_status, verdict_text};

use duct::{Entry, Expression, Hook, Numbered, System};
use duct_base::text::RequestText;
use duct_program::{NoHook, Program, Usage, line, path_and_words, perform, text_at};
use duct_replay::{
    Recording, Records, Refusal, Replay, ReplayEnd, ReplayReader, Values, Verdict, judge,
    private_file, read_recording, recording_text,
};
use duct_system::views::Viewed;
use std::alloc::{AllocError, Global};
use std::io::{Read, Write};
use std::rt::Files;
use std::sync::Wait;

const RECORD: Program = Program {
    no_memory: "record: out of memory\n",
    failed: 3,
};

/// Does what the arguments ask for: starts the words as `record` does, and writes the recording to
/// a file that its owner alone may read. Returns the status. It blocks as `record` does.
pub fn recorded<R: Files + Wait + AllocGlobal, S: Records, O: Write, E: Write>(
    rt: &R,
    sys: &mut S,
    arguments: &[String],
    out: &mut O,
    err: &mut E,
) -> u8
    ensures file { result ≤ 1 → (opened : PrivateFile R.File) × (recording : RecordingView)
        × (written : R.File) × (opened.mode.value ≡ 0o600)
        × (recording.entries ≡ (S.journal_view sys.new).entries) × S.may_record sys.new recording
        × AsksFor (map string_bytes arguments.now) opened.path.value.now (λ values. Appends
        (⟦<R::File as Write>⟧.contents opened.file) (⟦<R::File as Write>⟧.contents written)
        (recorded_text values (recorded_view recording))) }
    ensures status { result ≤ 3 }
{
    let Some((values, path, words)) = record_arguments(arguments) else {
        let usage = "record: usage: trace record [--hide] JOURNAL -- WORD..\n";
        return RECORD.tell(err, 2, usage);
    };
    match private_file(rt, path) {
        Ok(mut opened) => {
            let journal = &mut opened.file;
            record(rt, rt.alloc(), sys, words, values, journal, out, err)
        }
        Err(error) => RECORD.tell_error(err, &error, 2, "record: journal can't be opened\n"),
    }
}

// Returns how values stand, the path and the words that the arguments ask for, or `None` where a path
// or the mark `--` is missing.
fn record_arguments(arguments: &[String]) -> Option<(Values, &str, &[String])>
    ensures { IfSome result (λ asked. record_of (map string_bytes arguments.now)
        ≡ Some (asked.0, asked.1.now, map string_bytes asked.2.now)) }
{
    let (values, arguments) = match arguments.split_first() {
        Some((first, others)) if first.as_str() == "--hide" => (Values::Hidden, others),
        Some(_) | None => (Values::Shown, arguments),
    };
    let (path, words) = path_and_words(arguments)?;
    Some((values, path, words))
}

/// Does the work of `host` by `perform`, and returns its status. Whatever that is, the text of the
/// recording is then written to `journal`. If that can't be written, or memory runs out for it,
/// that is said on `err`, and the status is 3; a part of it may be written. It blocks as `perform`
/// and the writers do.
fn record<S: Records, J: Write, O: Write, E: Write>(
    rt: &impl Wait,
    alloc: Global,
    sys: &mut S,
    args: &[String],
    values: Values,
    journal: &mut J,
    out: &mut O,
    err: &mut E,
) -> u8
    ensures text { result ≡ 0 → WritesText ⟦<S as Viewed>⟧.views ⟦<NoHook as Hook>⟧.allows
        S.may_read S.Reader.remaining O.contents (map string_bytes args.now) sys.old sys.new
        out.old out.new err.old err.new }
    ensures usage { result ≡ 2 → WritesUsage ⟦<S as Viewed>⟧.views ⟦<NoHook as Hook>⟧.allows
        S.may_read S.Reader.remaining E.contents (map string_bytes args.now) sys.old sys.new
        out.old out.new err.old err.new }
    ensures journal { result ≤ 2 → (recording : RecordingView)
        × (recording.entries ≡ (S.journal_view sys.new).entries)
        × S.may_record sys.new recording
        × Appends (J.contents journal.old) (J.contents journal.new)
        (recorded_text values (recorded_view recording)) }
    ensures one { result ≤ 2 → (out.new ≡ out.old) ⊎ (err.new ≡ err.old) }
    ensures status { result ≤ 3 }
{
    let status = perform(rt, alloc, sys, args, out, err);
    let Ok(recording) = sys.recording() else {
        return RECORD.tell(err, 3, RECORD.no_memory);
    };
    let Ok(text) = recording_text(alloc, &recording, values) else {
        return RECORD.tell(err, 3, RECORD.no_memory);
    };
    match journal.write_all(text.as_bytes()) {
        Ok(()) => status,
        Err(error) => RECORD.tell_error(err, &error, 3, "record: journal can't be written\n"),
    }
}

/// A command that reads what `trace record` wrote, and what it says where that can't be read.
#[derive(Clone, Copy)]
pub struct Reading {
    program: Program,
    name: &'static str,
    usage: &'static str,
    unread: &'static str,
}

pub const JUDGE: Reading = Reading {
    program: Program {
        no_memory: "judge: out of memory\n",
        failed: 3,
    },
    name: "judge",
    usage: "judge: usage: trace judge JOURNAL -- WORD..\n",
    unread: "judge: journal can't be read\n",
};

pub const REPLAY: Reading = Reading {
    program: Program {
        no_memory: "replay: out of memory\n",
        failed: 3,
    },
    name: "replay",
    usage: "replay: usage: trace replay FILE -- WORD..\n",
    unread: "replay: recording can't be read\n",
};

/// Reads the recording that is named before the mark `--`. Returns it, and the words behind the
/// mark; or the status, after it was said why there is none.
pub fn recording_of<'a, R: Files + AllocGlobal, I: Read, E: Write>(
    rt: &R,
    stdin: &mut I,
    reading: &Reading,
    arguments: &'a [String],
    err: &mut E,
) -> Result<(Recording, &'a [String]), u8> {
    let (program, name) = (&reading.program, reading.name);
    let Some((path, words)) = path_and_words(arguments) else {
        return Err(program.tell(err, 2, reading.usage));
    };
    let text = match text_at(rt, path, stdin) {
        Ok(text) => text,
        Err(error) => return Err(program.tell_error(err, &error, 2, reading.unread)),
    };
    match read_recording(rt.alloc(), text.as_str()) {
        Ok(recording) => Ok((recording, words)),
        Err(at) if at.refusal == Refusal::Memory => Err(program.tell(err, 3, program.no_memory)),
        Err(at) => Err(program.tell_made(err, 2, format!(in rt.alloc(); "{name}: {at}\n"))),
    }
}

/// Judges these entries by the words of `host`: writes the verdict to `out`, with the status 0 for
/// `yes` and else 1. An error in the words is written to `err`, and the status is 2; it is 3 at an
/// allocation failure, which is said on `err`, and where a write fails.
pub fn judge_line<O: Write, E: Write>(
    alloc: Global,
    words: &[String],
    entries: &[Entry],
    out: &mut O,
    err: &mut E,
) -> u8
    ensures judged { result ≤ 1 → IsJudged ⟦<NoHook as Hook>⟧.allows ⟦<NoHook as Hook>⟧.refuses
        ⟦<ReplayEnd as Numbered>⟧.number_of (map string_bytes words.now) (map entry_view entries.now)
        (λ verdict made. (result ≡ verdict_status verdict)
        × IfSome (verdict_text verdict (map entry_view entries.now) made) (λ text.
        Appends (O.contents out.old) (O.contents out.new) text)) × (err.new ≡ err.old) }
    ensures usage { result ≡ 2 → (usage : Usage) × RefusesAs usage (line_of
        ⟦<ReplayEnd as Numbered>⟧.number_of ⟦<NoHook as Hook>⟧.allows (map string_bytes words.now))
        × (out.new ≡ out.old) }
    ensures status { result ≤ 3 }
{
    let program = JUDGE.program;
    let expression: Expression<ReplayEnd, NoHook> = match line(alloc, words) {
        Ok(expression) => expression,
        Err(Usage::Memory) => return program.tell(err, 3, program.no_memory),
        Err(usage) => return program.tell_made(err, 2, format!(in alloc; "judge: {usage}\n")),
    };
    let Ok((verdict, replay)) = judge(alloc, &expression, entries) else {
        return program.tell(err, 3, program.no_memory);
    };
    match verdict_line(alloc, verdict, entries, replay.journal()) {
        Ok((status, line)) => program.tell(out, status, line.as_str()),
        Err(_) => program.tell(err, 3, program.no_memory),
    }
}

// Returns the status and the line of a verdict, where the start made these entries.
fn verdict_line(
    alloc: Global,
    verdict: Verdict,
    recorded: &[Entry],
    made: &[Entry],
) -> Result<(u8, String), AllocError>
    requires { IsRight verdict (map entry_view recorded.now) (map entry_view made.now) }
    ensures status { IfOk result (λ made. made.0 ≡ verdict_status verdict) }
    ensures line { IfOk result (λ told. IfSome (verdict_text verdict
        (map entry_view recorded.now) (map entry_view made.now))
        (λ text. string_bytes told.1 ≡ text)) }
{
    let line = match verdict {
        Verdict::Yes => return Ok((0, String::from_str(alloc, "yes\n")?)),
        Verdict::Differs(place) => {
            let (found, due) = (RequestText(&recorded[place]), RequestText(&made[place]));
            format!(in alloc; "no: entry {place} differs: {found} in place of {due}\n")?
        }
        Verdict::Ends(place) => {
            format!(in alloc; "no: ends where {} was due\n", RequestText(&made[place]))?
        }
        Verdict::GoesOn(place) => format!(in alloc; "no: goes on at entry {place}\n")?,
    };
    Ok((1, line))
}

/// Does the work of `host` by `perform` over a replay of this recording, and returns its status. If
/// a request differs from the recorded one, that is then said on `err`, and the status is 3. It
/// blocks as `perform` does.
pub fn replay<O: Write, E: Write>(
    rt: &impl Wait,
    alloc: Global,
    recording: Recording,
    args: &[String],
    out: &mut O,
    err: &mut E,
) -> u8
    ensures text { result ≡ 0 → IsReplayed recording args.now (WritesText
        ⟦<Replay as Viewed>⟧.views ⟦<NoHook as Hook>⟧.allows ⟦<Replay as System>⟧.may_read
        ⟦<ReplayReader as Read>⟧.remaining O.contents) (out.old, out.new) (err.old, err.new) }
    ensures usage { result ≡ 2 → IsReplayed recording args.now (WritesUsage
        ⟦<Replay as Viewed>⟧.views ⟦<NoHook as Hook>⟧.allows ⟦<Replay as System>⟧.may_read
        ⟦<ReplayReader as Read>⟧.remaining E.contents) (out.old, out.new) (err.old, err.new) }
    ensures status { result ≤ 3 }
{
    let mut replay = Replay::new(alloc, recording);
    let status = perform(rt, alloc, &mut replay, args, out, err);
    let program = REPLAY.program;
    match replay.difference() {
        None => status,
        Some(place) => program.tell_made(err, 3, difference_line(alloc, place, &replay)),
    }
}

// Returns the line that says which request was made at this place, and which is recorded there.
fn difference_line(alloc: Global, place: usize, replay: &Replay) -> Result<String, AllocError> {
    let made = replay.journal().get(place);
    match (made, replay.recording().entries().get(place)) {
        (Some(made), Some(recorded)) => {
            let (made, recorded) = (RequestText(made), RequestText(recorded));
            format!(in alloc; "replay: entry {place} differs: {made} in place of {recorded}\n")
        }
        (Some(made), None) => {
            let made = RequestText(made);
            format!(in alloc; "replay: entry {place} differs: {made} behind the last one\n")
        }
        (None, _) => format!(in alloc; "replay: entry {place} differs\n"),
    }
}
