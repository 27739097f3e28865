//! A journal and a recording as text: one line for each entry, and for what a recording has beside.
ghost use Rattle.std.specs.Prelude.{◌≡◌, ◌≢◌, Ok, map, string_bytes, Err, IfErr, IfOk, OnOk};
ghost use Rattle.std.specs.Str.Lines.{lines};
ghost use Rattle.duct_system.specs.EntryView.{entry_view};
ghost use Rattle.duct_replay.specs.Lines.{AddsItem, JournalParses, entries_text, journal_meant, lines_meant, recorded_text, recorded_view, recording_meant, item_line};
ghost use Rattle.duct_replay.specs.declared.error.Refusal.{Refusal};
ghost use Rattle.duct_replay.specs.declared.write.Values.{Values};

use crate::error::{LineRefusal, Refusal};
use crate::read::{Item, read_item};
use crate::recording::Recording;
use crate::write::{Values, push_lines};
use duct_system::copy::copies_of_texts;
use duct_system::system::Entry;
use std::alloc::{AllocError, Global};

/// Returns the text of a journal: the line of each entry, with a newline at its end. With
/// `Values::Shown`, `read_journal` reads it back as these entries. Fails only at an allocation
/// failure.
pub fn journal_text(alloc: Global, entries: &[Entry], values: Values) -> Result<String, AllocError>
    ensures text { IfOk result
        (λ text. string_bytes text ≡ entries_text values (map entry_view entries.now)) }
    ensures shown { values ≡ Values.Shown → IfOk result
        (λ text. journal_meant (string_bytes text) ≡ Ok (map entry_view entries.now)) }
{
    let mut text = String::new(alloc);
    push_lines(alloc, &mut text, entries, values)?;
    Ok(text)
}

/// Returns the text of a recording: that of its journal, and then a line for each child that ended,
/// as in `["ended",5,"code",0]`, and for each end that was read, as in `["read",2,"text"]`. With
/// `Values::Shown`, `read_recording` reads it back as this recording. Fails only at an allocation
/// failure.
pub fn recording_text(
    alloc: Global,
    recording: &Recording,
    values: Values,
) -> Result<String, AllocError>
    ensures text { IfOk result (λ text. string_bytes text
        ≡ recorded_text values (recorded_view recording.now)) }
    ensures shown { values ≡ Values.Shown → IfOk result
        (λ text. recording_meant (string_bytes text) ≡ Ok (recorded_view recording.now)) }
{
    let mut text = String::new(alloc);
    push_lines(alloc, &mut text, recording.entries(), values)?;
    push_lines(alloc, &mut text, recording.endings(), values)?;
    push_lines(alloc, &mut text, recording.outputs(), values)?;
    Ok(text)
}

/// Returns the entries of the text of a journal or of a recording, as `read_recording` does.
pub fn read_journal(alloc: Global, text: &str) -> Result<Vec<Entry>, LineRefusal>
    ensures { JournalParses (λ entries. map entry_view entries.items) result
        (journal_meant text.now) }
{
    Ok(read_recording(alloc, text)?.into_entries())
}

/// Returns the recording of a text, which has one item a line: an entry, how a child ended, or what
/// was read of an end. A line ends with a newline, with a carriage return and a newline, or with
/// the text. The text of a journal is that of a recording without the rest.
///
/// Fails at the first line that is read as no item, and with `Refusal::Memory` at an allocation
/// failure.
#[tactic(auto, unfolding(crate::specs::Lines::recording_meant))]
pub fn read_recording(alloc: Global, text: &str) -> Result<Recording, LineRefusal>
    ensures { JournalParses recorded_view result (recording_meant text.now) }
{
    match all_lines(alloc, text) {
        Ok(lines) => read_lines(alloc, lines.as_slice()),
        Err(_) => Err(LineRefusal {
            line: 1,
            refusal: Refusal::Memory,
        }),
    }
}

fn all_lines(alloc: Global, text: &str) -> Result<Vec<String>, AllocError>
    ensures { IfOk result (λ all. map string_bytes all.items ≡ lines text.now) }
{
    let pieces: Vec<&str> = text.lines().collect(alloc)?;
    copies_of_texts(alloc, pieces.as_slice())
}

fn read_lines(alloc: Global, lines: &[String]) -> Result<Recording, LineRefusal>
    ensures { JournalParses recorded_view result (lines_meant 1 (map string_bytes lines.now)) }
{
    let mut recording = Recording::new(alloc, Vec::new(alloc));
    let mut rest = lines;
    while let Some((text, behind)) = rest.split_first() {
        let line = lines.len() - behind.len();
        push_item(alloc, &mut recording, text.as_str()).map_err(|refusal| LineRefusal {
            line,
            refusal,
        })?;
        rest = behind;
    }
    Ok(recording)
}

fn push_item(alloc: Global, recording: &mut Recording, line: &str) -> Result<(), Refusal>
    ensures ok { OnOk result
        (AddsItem line.now (recorded_view recording.old) (recorded_view recording.new)) }
    ensures err { IfErr result
        (λ refusal. refusal ≢ Refusal.Memory → item_line line.now ≡ Err refusal) }
{
    match read_item(alloc, line)? {
        Item::Entry(entry) => recording.push_entry(entry)?,
        Item::Ended(child, status) => recording.ends_with(child, status)?,
        Item::Read(end, bytes) => recording.reads(end, bytes)?,
    }
    Ok(())
}
