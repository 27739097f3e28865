//! How a report is stored.
ghost use Rattle.std.specs.Prelude.{◌≡◌, is_some, nat_lt, vec_len};
ghost use Rattle.std.specs.Option.{option_map};
ghost use Rattle.duct_status.specs.EventView.{bytes_said};
ghost use Rattle.duct_system.specs.Job.{kept_after};
ghost use Rattle.duct_status.specs.Latest.{word_after, change_at};

use crate::status::Word;
use duct_system::system::Said;
use std::sync::Arc;

/// Stores a worker's report: its first `Done` or `Fault` stays.
pub(crate) fn keep<T: Drop>(kept: &mut Said<T>, heard: Said<T>)
    ensures { kept.new ≡ kept_after kept.old heard }
{
    match kept {
        Said::Running => *kept = heard,
        Said::Done(_) | Said::Fault(_) => {}
    }
}

/// Stores an input worker's report, and returns whether that worker is there.
pub(crate) fn keep_at(inputs: &mut Vec<Said<()>>, at: usize, heard: Said<()>) -> bool
    ensures items { inputs.new.items ≡ change_at (λ old. kept_after old heard) at inputs.old.items }
    ensures len { vec_len inputs.new ≡ vec_len inputs.old }
    ensures known { result ≡ nat_lt at (vec_len inputs.old) }
{
    if at >= inputs.len() {
        return false;
    }
    let mut kept = inputs[at];
    keep(&mut kept, heard);
    inputs[at] = kept;
    true
}

/// Returns the report that a command has after one more: a command that has ended keeps its exit
/// status.
fn after(word: Word, heard: Word) -> Word
    ensures { result ≡ word_after word heard }
{
    match word {
        Word::Ended(_) => word,
        Word::Running | Word::Fault(_) => heard,
    }
}

/// Stores a command's report, and returns whether that command is there.
pub(crate) fn record_at(commands: &mut Vec<Word>, at: usize, heard: Word) -> bool
    ensures items { commands.new.items
        ≡ change_at (λ old. word_after old heard) at commands.old.items }
    ensures len { vec_len commands.new ≡ vec_len commands.old }
    ensures known { result ≡ nat_lt at (vec_len commands.old) }
{
    if at >= commands.len() {
        return false;
    }
    commands[at] = after(commands[at], heard);
    true
}

/// Stores a capture worker's report, and returns whether there is such a worker.
pub(crate) fn keep_bytes(drain: &mut Option<Said<Arc<Vec<u8>>>>, heard: Said<Arc<Vec<u8>>>) -> bool
    ensures bytes { option_map bytes_said drain.new
        ≡ option_map (λ old. kept_after old (bytes_said heard)) (option_map bytes_said drain.old) }
    ensures known { result ≡ is_some (option_map bytes_said drain.old) }
{
    match drain {
        Some(kept) => {
            keep(kept, heard);
            true
        }
        None => false,
    }
}
