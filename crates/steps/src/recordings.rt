//! The recording of one step, from the journal of all.
use duct::Entry;
use duct_replay::Recording;
use duct_system::copy::copies_of_entries;
use duct_tasks::Finished;
use std::alloc::{AllocError, Global};
use std::sync::Arc;

// Whether a step's start begins with the first of these entries: a pipe for its stderr, whose
// reader comes at once.
fn begins(entries: &[Entry]) -> bool {
    match entries {
        [Entry::Pipe(Ok((read, _))), Entry::Reader(end), ..] => read == end,
        _ => false,
    }
}

// Returns the entries from the start of a step on, before which so many were started; or none where
// it was not.
fn from_start(entries: &[Entry], others: usize) -> &[Entry] {
    let mut left = others;
    for place in 0..entries.len() {
        let rest = &entries[place..];
        if begins(rest) {
            if left == 0 {
                return rest;
            }
            left -= 1;
        }
    }
    &[]
}

/// Returns the recording of a step, before which so many were started: its start, how its commands
/// ended, and what it wrote.
pub fn recording_of(
    alloc: Global,
    journal: &[Entry],
    others: usize,
    finished: &Finished,
) -> Result<Recording, AllocError> {
    let own = from_start(journal, others);
    let count = own.len().saturating_sub(from_start(own, 1).len());
    let own = own.get(..count).unwrap_or(&[]);
    let mut recording = Recording::new(alloc, copies_of_entries(alloc, own)?);
    add_ends(alloc, &mut recording, own, finished)?;
    Ok(recording)
}

// Adds how the commands of a step ended, whose children are the first of its entries, and what it
// wrote: its stderr has the first reader of its entries, and its stdout the next.
fn add_ends(
    alloc: Global,
    recording: &mut Recording,
    own: &[Entry],
    finished: &Finished,
) -> Result<(), AllocError> {
    let outputs = [&finished.stderr, &finished.stdout];
    let (mut commands, mut outputs) = (finished.commands.iter(), outputs.iter());
    for entry in own {
        if let Entry::Spawn(_, _, Ok(child)) = entry
            && let Some(status) = commands.next().and_then(|command| command.status)
        {
            recording.ends_with(*child, status)?;
        }
        if let Entry::Reader(end) = entry
            && let Some(bytes) = outputs.next()
        {
            let bytes = Vec::from_slice(alloc, bytes.as_slice())?;
            recording.reads(*end, Arc::new(alloc, bytes)?)?;
        }
    }
    Ok(())
}
