//! Whether a journal is that of a start of an expression.
ghost use Rattle.std.specs.Prelude.{◌≡◌, ◌↔◌, map, IfOk, IsTrue, slice_get};
ghost use Rattle.std.specs.List.{list_any};
ghost use Rattle.duct_system.specs.EntryView.{entry_view};
ghost use Rattle.duct.specs.TreeView.{tree_view};
ghost use Rattle.duct_replay.specs.Replays.{next_view};
ghost use Rattle.duct_replay.specs.Judged.{HadMemory, IsLostSpawn, IsRight, Judges, SameBefore, Starts, is_memory, lacks_memory, place_of, stops_without_memory};

use crate::recording::Recording;
use crate::replay::{Replay, ReplayEnd};
use crate::write::{Values, entry_text};
use duct::{Entry, Error, Expression, Hook, Kind, Numbered, Pool, System};
use duct_system::copy::copies_of_entries;
use duct_system::same::{same_spec, same_streams};
use std::alloc::{AllocError, Global};

/// Whether the entries of a journal are those that a start of an expression makes, where each
/// request has the result of the entry at its place.
#[derive(Clone, Copy, Debug, PartialEq, Eq)]
pub enum Verdict {
    /// They are.
    Yes,
    /// The entry at this place isn't the one that the start made there: it is another request, or
    /// its result can't be given, since its number isn't new.
    Differs(usize),
    /// The journal ends at this place, where the start made one more request.
    Ends(usize),
    /// The start ended before the entry at this place.
    GoesOn(usize),
}

/// Judges whether these entries are the journal of a start of an expression, as `launch_reader`
/// makes it over a system that was asked nothing before. It runs the start over a replay of them,
/// with no process and no file. Returns the verdict, and the replay, in whose journal are the
/// entries that the start made: at the place that the verdict names is the one that was due.
///
/// Where duplicates, ends of the parent's streams and closes stand is part of a journal, so a start
/// of another implementation may be judged to differ. A start that failed is judged as far as it
/// went.
///
/// Fails only at an allocation failure, also where that is a hook's. One that the journal has is
/// none of the judge: the start then fails as it did.
pub fn judge<H: Hook>(
    alloc: Global,
    expression: &Expression<ReplayEnd, H>,
    entries: &[Entry],
) -> Result<(Verdict, Replay), AllocError>
    ensures { IfOk result (λ judged. Judges H.allows H.refuses ⟦<ReplayEnd as Numbered>⟧.number_of
        (tree_view expression.now) (map entry_view entries.now) judged.0 judged.1.journal) }
{
    let recording = Recording::new(alloc, copies_of_entries(alloc, entries)?);
    let mut replay = Replay::new(alloc, recording);
    let error = start(alloc, expression, &mut replay);
    let verdict = verdict_on(alloc, entries, replay.journal(), &error)?;
    Ok((verdict, replay))
}

// Starts an expression over a replay, and gives up what runs. Returns the error of a start that
// failed.
fn start<H: Hook>(
    alloc: Global,
    expression: &Expression<ReplayEnd, H>,
    replay: &mut Replay,
) -> Option<Error>
    ensures { Starts H.allows H.refuses ⟦<ReplayEnd as Numbered>⟧.number_of
        (tree_view expression.now) replay.old.journal replay.new.journal result }
{
    let mut pool = Pool::new(alloc);
    match expression.launch_reader(replay, &mut pool) {
        Ok((running, _)) => {
            running.give_up(&mut pool);
            None
        }
        Err(error) => Some(error),
    }
}

// Returns the verdict on recorded entries, where the start made those and failed with this error,
// if it failed. Fails at an allocation failure, also at one of the start that isn't recorded.
fn verdict_on(
    alloc: Global,
    recorded: &[Entry],
    made: &[Entry],
    error: &Option<Error>,
) -> Result<Verdict, AllocError>
    ensures right { IfOk result (λ verdict.
        IsRight verdict (map entry_view recorded.now) (map entry_view made.now)) }
    ensures memory { IfOk result (λ verdict.
        HadMemory (place_of verdict (map entry_view recorded.now)) (map entry_view recorded.now)
        (map entry_view made.now) error.now) }
{
    let place = first_difference(alloc, recorded, made)?;
    if stops_without_memory(error) && !made[..place].iter().any(|entry| lacks_memory(entry)) {
        return Err(AllocError);
    }
    if is_lost_spawn(entry_at(recorded, place), entry_at(made, place))? {
        return Err(AllocError);
    }
    Ok(verdict_at(place, recorded, made))
}

// Returns how many entries are the same, from the first on.
fn first_difference(alloc: Global, recorded: &[Entry], made: &[Entry]) -> Result<usize, AllocError>
    ensures { IfOk result (λ place.
        SameBefore place (map entry_view recorded.now) (map entry_view made.now)) }
{
    let mut place = 0;
    while place < recorded.len() && place < made.len() {
        if !is_same(alloc, &recorded[place], &made[place])? {
            return Ok(place);
        }
        place += 1;
    }
    Ok(place)
}

// Returns whether two entries are the same. They are where they are written as the same text.
fn is_same(alloc: Global, one: &Entry, other: &Entry) -> Result<bool, AllocError>
    ensures { IfOk result (λ same. IsTrue same ↔ (entry_view one.now ≡ entry_view other.now)) }
{
    let text = entry_text(alloc, one, Values::Shown)?;
    Ok(text == entry_text(alloc, other, Values::Shown)?)
}

fn entry_at(entries: &[Entry], place: usize) -> Option<&Entry>
    ensures { next_view result ≡ slice_get (map entry_view entries.now) place }
{
    entries.get(place)
}

// Returns the verdict where the entries are the same before this place, and not there.
fn verdict_at(place: usize, recorded: &[Entry], made: &[Entry]) -> Verdict
    requires { SameBefore place (map entry_view recorded.now) (map entry_view made.now) }
    ensures right { IsRight result (map entry_view recorded.now) (map entry_view made.now) }
    ensures place { place_of result (map entry_view recorded.now) ≡ place }
{
    match (place < recorded.len(), place < made.len()) {
        (true, true) => Verdict::Differs(place),
        (false, true) => Verdict::Ends(place),
        (true, false) => Verdict::GoesOn(place),
        (false, false) => Verdict::Yes,
    }
}

fn is_memory(kind: Kind) -> bool
    ensures { result ≡ is_memory kind }
{
    matches!(kind, Kind::OutOfMemory)
}

// Returns whether a start ended for lack of memory.
fn stops_without_memory(error: &Option<Error>) -> bool
    ensures { result ≡ stops_without_memory error.now }
{
    match error {
        Some(Error::System(fault)) | Some(Error::Hook(fault)) => is_memory(fault.kind),
        Some(Error::Memory) => true,
        _ => false,
    }
}

// Returns whether the request of an entry was refused for lack of memory.
fn lacks_memory(entry: &Entry) -> bool
    ensures { result ≡ lacks_memory (entry_view entry.now) }
{
    matches!(entry.fault(), Some(fault) if is_memory(fault.kind))
}

// Returns whether a spawn that is recorded with a lack of memory was made with another result,
// since a replay had no memory to compare it.
fn is_lost_spawn(recorded: Option<&Entry>, made: Option<&Entry>) -> Result<bool, AllocError>
    ensures { IfOk result
        (λ lost. IsTrue lost ↔ IsLostSpawn (next_view recorded.entry) (next_view made.entry)) }
{
    let Some(Entry::Spawn(spec, io, Err(fault))) = recorded else {
        return Ok(false);
    };
    let Some(Entry::Spawn(other, streams, _)) = made else {
        return Ok(false);
    };
    Ok(is_memory(fault.kind) && same_streams(streams, io) && same_spec(other, spec)?)
}
