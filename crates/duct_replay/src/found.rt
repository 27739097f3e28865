//! What the entry that is recorded next has as the result of a request.
ghost use Rattle.std.specs.Prelude.{◌≡◌, ◌↔◌, map, string_bytes, IfOk, IfErr, IsTrue};
ghost use Rattle.std.specs.Arc.{arc_value};
ghost use Rattle.duct_system.specs.EntryView.{answer_of, Environment, Pipe, OpenRead, Create, Duplicate, Parent, Canonicalize, Spawn, Feed, Drain, Reader, Close};
ghost use Rattle.duct_system.specs.SpecView.{pair_text};
ghost use Rattle.duct_replay.specs.Replays.{Finds, Fits, FitsNumber, FitsPipe, IsNext, IsLost, IsToldRight, next_view};
ghost use Rattle.duct_replay.specs.RecordingView.{no_memory, unrecorded};

use duct_system::copy::copies_of;
use duct_system::same::{same_spec, same_streams};
use duct_system::spec::CommandSpec;
use duct_system::system::{Entry, Fault, Kind, Side, Stdio};
use std::alloc::Global;
use std::sync::Arc;

/// The result of a request, and whether that is recorded next: else the request isn't, and the
/// result is the fault `Other`.
pub(crate) type Found<T> = (Result<T, Fault>, bool);

/// Returns the fault of a request that isn't what is recorded next.
pub(crate) fn unrecorded() -> Fault
    ensures { result ≡ unrecorded }
{
    Fault::new(Kind::Other)
}

/// Returns the fault at an allocation failure.
pub(crate) fn no_memory() -> Fault
    ensures { result ≡ no_memory }
{
    Fault::new(Kind::OutOfMemory)
}

// Returns whether a number can be given, where this one is the count's next.
fn is_next(number: u64, count: u64) -> bool
    ensures { IsTrue result ↔ IsNext count number }
{
    count <= number && number < u64::MAX
}

// Returns whether the number of a result, if it has one, can be given.
fn fits(answer: &Result<u64, Fault>, count: u64) -> bool
    ensures { IsTrue result ↔ FitsNumber count answer.now }
{
    match answer {
        Ok(number) => is_next(*number, count),
        Err(_) => true,
    }
}

// Returns whether the numbers of a pipe, if it has been made, can be given.
fn fits_pipe(answer: &Result<(u64, u64), Fault>, count: u64) -> bool
    ensures { IsTrue result ↔ FitsPipe count answer.now }
{
    match answer {
        Ok((reader, writer)) => {
            is_next(*reader, count) && is_next(*writer, count) && reader != writer
        }
        Err(_) => true,
    }
}

/// Returns a copy of a text. Fails only with `OutOfMemory`.
pub(crate) fn text_copy(alloc: Global, text: &str) -> Result<String, Fault>
    ensures ok { IfOk result (λ copy. string_bytes copy ≡ text.now) }
    ensures err { IfErr result (λ fault. fault ≡ no_memory) }
{
    String::from_str(alloc, text).map_err(|_| no_memory())
}

/// Returns a copy of a canonical path, or the fault. Fails only with `OutOfMemory`.
pub(crate) fn path_copy(
    alloc: Global,
    answer: &Result<String, Fault>,
) -> Result<Result<String, Fault>, Fault>
    ensures ok { IfOk result (λ copy. answer_of string_bytes copy
        ≡ answer_of string_bytes answer.now) }
    ensures err { IfErr result (λ fault. fault ≡ no_memory) }
{
    match answer {
        Ok(path) => Ok(Ok(text_copy(alloc, path.as_str())?)),
        Err(fault) => Ok(Err(*fault)),
    }
}

/// Returns a copy of an environment, or the fault. Fails only with `OutOfMemory`.
pub(crate) fn environment_copy(
    alloc: Global,
    answer: &Result<Vec<(String, String)>, Fault>,
) -> Result<Result<Vec<(String, String)>, Fault>, Fault>
    ensures ok { IfOk result (λ copy. answer_of (λ pairs. map pair_text pairs.items) copy
        ≡ answer_of (λ pairs. map pair_text pairs.items) answer.now) }
    ensures err { IfErr result (λ fault. fault ≡ no_memory) }
{
    match answer {
        Ok(pairs) => Ok(Ok(copies_of(alloc, pairs.as_slice()).map_err(|_| no_memory())?)),
        Err(fault) => Ok(Err(*fault)),
    }
}

/// Returns what is found for the environment. Fails only with `OutOfMemory`.
pub(crate) fn found_environment(
    alloc: Global,
    next: Option<&Entry>,
) -> Result<Found<Vec<(String, String)>>, Fault>
    ensures found { IfOk result (λ found. Finds Environment Fits (next_view next.entry)
        (answer_of (λ pairs. map pair_text pairs.items) found.0) found.1) }
    ensures err { IfErr result (λ fault. fault ≡ no_memory) }
{
    let Some(Entry::Environment(answer)) = next else {
        return Ok((Err(unrecorded()), false));
    };
    Ok((environment_copy(alloc, answer)?, true))
}

pub(crate) fn found_pipe(next: Option<&Entry>, count: u64) -> Found<(u64, u64)>
    ensures { Finds Pipe (FitsPipe count) (next_view next.entry) result.0 result.1 }
{
    match next {
        Some(Entry::Pipe(answer)) if fits_pipe(answer, count) => (*answer, true),
        _ => (Err(unrecorded()), false),
    }
}

pub(crate) fn found_open_read(next: Option<&Entry>, path: &str, count: u64) -> Found<u64>
    ensures { Finds (OpenRead path.now) (FitsNumber count) (next_view next.entry) result.0
        result.1 }
{
    match next {
        Some(Entry::OpenRead(other, answer)) if other.as_str() == path && fits(answer, count) => {
            (*answer, true)
        }
        _ => (Err(unrecorded()), false),
    }
}

pub(crate) fn found_create(next: Option<&Entry>, path: &str, count: u64) -> Found<u64>
    ensures { Finds (Create path.now) (FitsNumber count) (next_view next.entry) result.0 result.1 }
{
    match next {
        Some(Entry::Create(other, answer)) if other.as_str() == path && fits(answer, count) => {
            (*answer, true)
        }
        _ => (Err(unrecorded()), false),
    }
}

pub(crate) fn found_duplicate(next: Option<&Entry>, lent: u64, count: u64) -> Found<u64>
    ensures { Finds (Duplicate lent) (FitsNumber count) (next_view next.entry) result.0 result.1 }
{
    match next {
        Some(Entry::Duplicate(other, answer)) if *other == lent && fits(answer, count) => {
            (*answer, true)
        }
        _ => (Err(unrecorded()), false),
    }
}

pub(crate) fn found_parent(next: Option<&Entry>, side: Side, count: u64) -> Found<u64>
    ensures { Finds (Parent side) (FitsNumber count) (next_view next.entry) result.0 result.1 }
{
    match next {
        Some(Entry::Parent(other, answer)) if *other == side && fits(answer, count) => {
            (*answer, true)
        }
        _ => (Err(unrecorded()), false),
    }
}

/// Returns what is found for the canonical path of this path. Fails only with `OutOfMemory`.
pub(crate) fn found_canonicalize(
    alloc: Global,
    next: Option<&Entry>,
    path: &str,
) -> Result<Found<String>, Fault>
    ensures found { IfOk result (λ found. Finds (Canonicalize path.now) Fits (next_view next.entry)
        (answer_of string_bytes found.0) found.1) }
    ensures err { IfErr result (λ fault. fault ≡ no_memory) }
{
    match next {
        Some(Entry::Canonicalize(other, answer)) if other.as_str() == path => {
            Ok((path_copy(alloc, answer)?, true))
        }
        _ => Ok((Err(unrecorded()), false)),
    }
}

/// Returns what is found for starting a child with this spec and these streams. Fails with
/// `OutOfMemory` where there is no memory to compare the specs, or with `Other` where `OutOfMemory`
/// is the fault of the child that was recorded.
pub(crate) fn found_spawn(
    next: Option<&Entry>,
    spec: &CommandSpec,
    io: &[Stdio<u64>; 3],
    count: u64,
) -> Result<Found<u64>, Fault>
    ensures found { IfOk result (λ found.
        Finds (Spawn spec.now io.now) (FitsNumber count) (next_view next.entry) found.0 found.1) }
    ensures err { IfErr result
        (λ fault. IsLost (Spawn spec.now io.now) (next_view next.entry) fault) }
{
    let unfound = (Err(unrecorded()), false);
    let Some(Entry::Spawn(other, streams, answer)) = next else {
        return Ok(unfound);
    };
    if !same_streams(streams, io) || !fits(answer, count) {
        return Ok(unfound);
    }
    match same_spec(other, spec) {
        Ok(true) => Ok((*answer, true)),
        Ok(false) => Ok(unfound),
        Err(_) if *answer == Err(no_memory()) => Err(unrecorded()),
        Err(_) => Err(no_memory()),
    }
}

pub(crate) fn found_feed(next: Option<&Entry>, number: u64, bytes: &Arc<Vec<u8>>) -> Found<()>
    ensures { Finds (Feed number (arc_value bytes.now).items) Fits (next_view next.entry) result.0
        result.1 }
{
    match next {
        Some(Entry::Feed(end, other, answer))
            if *end == number && other.as_slice() == bytes.as_slice() => { (*answer, true) }
        _ => (Err(unrecorded()), false),
    }
}

pub(crate) fn found_drain(next: Option<&Entry>, number: u64) -> Found<()>
    ensures { Finds (Drain number) Fits (next_view next.entry) result.0 result.1 }
{
    match next {
        Some(Entry::Drain(end, answer)) if *end == number => (*answer, true),
        _ => (Err(unrecorded()), false),
    }
}

/// Returns whether a reader of this end is recorded next.
pub(crate) fn is_reader(next: Option<&Entry>, number: u64) -> bool
    ensures { IsToldRight result (Reader number) (next_view next.entry) }
{
    matches!(next, Some(Entry::Reader(end)) if *end == number)
}

/// Returns whether the close of this end is recorded next.
pub(crate) fn is_close(next: Option<&Entry>, number: u64) -> bool
    ensures { IsToldRight result (Close number) (next_view next.entry) }
{
    matches!(next, Some(Entry::Close(end)) if *end == number)
}
