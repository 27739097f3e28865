//! Texts for the entries of journals, and for what came of a start over the scripted system.
use crate::scenes::{Bench, FIRST};
use crate::stop::TableError;
use duct::{CommandSpec, Entry, Pool, Stdio, System};
use duct_base::text::EntryText;
use duct_script::{Call, CallLog, Sort, Source, origin, trace};
use std::alloc::{AllocError, Global};

/// Adds a comma and a space, unless the text is empty.
fn push_comma(text: &mut String) -> Result<(), AllocError> {
    if text.is_empty() {
        Ok(())
    } else {
        text.push_str(", ")
    }
}

/// Adds the requests of the entries, and of those that were refused the fault. Fails on an
/// allocation failure.
pub fn push_journal(text: &mut String, journal: &[Entry]) -> Result<(), AllocError> {
    for entry in journal {
        write!(text, "{}. ", EntryText(entry))?;
    }
    Ok(())
}

/// Adds the entries of the trace. An entry that was refused has the kind of its fault. An end is
/// shown by where it comes from: the index in the trace of the entry that opened it, the parent's
/// stream, or the number of a lent end. Fails only on an allocation failure.
pub fn push_trace(text: &mut String, alloc: Global, entries: &[Entry]) -> Result<(), TableError> {
    let trace = trace(alloc, entries)?;
    for entry in &trace {
        push_comma(text)?;
        push_request(text, (entries, trace.as_slice()), entry)?;
        if let Some(fault) = entry.fault() {
            write!(text, " refused={:?}", fault.kind)?;
        }
    }
    Ok(())
}

/// The entries of a journal, and those of its trace.
type Both<'a> = (&'a [Entry], &'a [&'a Entry]);

fn push_request(text: &mut String, both: Both, entry: &Entry) -> Result<(), TableError> {
    match entry {
        Entry::Environment(_) => text.push_str("Environment")?,
        Entry::Pipe(_) => text.push_str("Pipe")?,
        Entry::OpenRead(path, _) => write!(text, "OpenRead {path}")?,
        Entry::Create(path, _) => write!(text, "Create {path}")?,
        Entry::Canonicalize(path, _) => write!(text, "Canonicalize {path}")?,
        Entry::Spawn(spec, io, _) => push_spawn(text, both, spec, io)?,
        Entry::Feed(end, bytes, _) => {
            push_end(text, both, "Feed", *end)?;
            write!(text, " {:?}", bytes.as_slice())?;
        }
        Entry::Drain(end, _) => push_end(text, both, "Drain", *end)?,
        Entry::Reader(end) => push_end(text, both, "Reader", *end)?,
        Entry::Duplicate(_, _) | Entry::Parent(_, _) | Entry::Close(_) => {}
    }
    Ok(())
}

fn push_spawn(
    text: &mut String,
    both: Both,
    spec: &CommandSpec,
    io: &[Stdio<u64>; 3],
) -> Result<(), TableError> {
    text.push_str("Spawn")?;
    for word in spec.words() {
        write!(text, " {word}")?;
    }
    text.push_str(" ->")?;
    for stream in io {
        match stream {
            Stdio::Inherit => text.push_str(" inherit")?,
            Stdio::Null => text.push_str(" null")?,
            Stdio::End(end) => push_end(text, both, "", *end)?,
        }
    }
    if let Some(folder) = spec.folder() {
        write!(text, " in {folder}")?;
    }
    for (name, value) in spec.vars()?.iter() {
        write!(text, " {name}={value}")?;
    }
    Ok(())
}

/// Adds a word, and where the end with this number comes from.
fn push_end(text: &mut String, both: Both, word: &str, end: u64) -> Result<(), AllocError> {
    text.push_str(word)?;
    let (entries, trace) = both;
    let number = match origin(entries, end) {
        Source::Opened(number) => number,
        Source::ParentOf(side) => return write!(text, " parent-{side:?}"),
        Source::Lent(number) => return write!(text, " lent-{number}"),
    };
    for (place, entry) in trace.iter().enumerate() {
        if let Some(end) = end_of(entry, number) {
            return write!(text, " {end}-{place}");
        }
    }
    write!(text, " unknown-{number}")
}

/// What the end with this number is, if this entry returned it.
fn end_of(entry: &Entry, number: u64) -> Option<&'static str> {
    match entry {
        Entry::Pipe(Ok((reader, _))) if *reader == number => Some("reader"),
        Entry::Pipe(Ok((_, writer))) if *writer == number => Some("writer"),
        Entry::OpenRead(_, Ok(file)) | Entry::Create(_, Ok(file)) if *file == number => {
            Some("file")
        }
        _ => None,
    }
}

/// Returns how many children were started.
pub fn children_started(entries: &[Entry]) -> u64 {
    let started = entries
        .iter()
        .filter(|entry| matches!(entry, Entry::Spawn(_, _, Ok(_))));
    started.count() as u64
}

/// Returns how many pipes were opened for the stderr of tasks, which are read at once. Their write
/// ends belong to expressions, so that no request closes them.
pub fn pipes_of_tasks(entries: &[Entry]) -> usize {
    let pairs = entries.iter().zip(entries.iter().skip(1));
    let pipes = pairs.filter(|it| matches!(it, (Entry::Pipe(_), Entry::Reader(_))));
    pipes.count()
}

/// Adds how many children the pool keeps, was given, has reaped, and has lost. Fails on an
/// allocation failure.
pub fn push_pool<C: Drop>(text: &mut String, pool: &Pool<C>) -> Result<(), AllocError> {
    let (len, given, reaped, lost) = (pool.len(), pool.given(), pool.reaped(), pool.lost());
    write!(
        text,
        "len {len}, given {given}, reaped {reaped}, lost {lost}"
    )
}

/// Returns the greatest number of ends that were held at once.
pub fn most_held(entries: &[Entry]) -> usize {
    let (mut most, mut held) = (0_usize, 0_usize);
    for entry in entries {
        held = held.saturating_add(entry.opened().iter().flatten().count());
        held = held.saturating_sub(entry.spent().iter().flatten().count());
        most = most.max(held);
    }
    most
}

/// Adds a `p` for each poll of a child in the log and an `o` for each order, in their order. Fails
/// on an allocation failure.
pub fn push_turns(text: &mut String, calls: &CallLog) -> Result<(), AllocError> {
    for place in 0..calls.noted() {
        match calls.get(place as usize) {
            Some(Call::Poll(_)) => text.push('p')?,
            Some(Call::Order(_)) => text.push('o')?,
            _ => {}
        }
    }
    Ok(())
}

/// Adds the calls in the log from the first of two indices up to the second, in order and without
/// the requests `Duplicate`, `Parent` and `Close`. Fails on an allocation failure.
pub fn push_calls(text: &mut String, bench: &Bench, from: u64, to: u64) -> Result<(), AllocError> {
    for place in from..to {
        match bench.calls.get(place as usize) {
            None | Some(Call::Request(Sort::Duplicate | Sort::Parent | Sort::Close)) => {}
            Some(call) => push_call(text, bench.sys.journal(), call)?,
        }
    }
    Ok(())
}

fn push_call(text: &mut String, entries: &[Entry], call: Call) -> Result<(), AllocError> {
    push_comma(text)?;
    let (word, child) = match call {
        Call::Request(sort) => return write!(text, "{sort:?}"),
        Call::Hook(label) => return write!(text, "hook {label}"),
        Call::Poll(child) => ("poll", child),
        Call::Order(child) => ("order", child),
        Call::PollFeed(end) => return write!(text, "poll feed {}", bytes_of_feed(entries, end)),
        Call::PollDrain(end) => return write!(text, "poll drain {}", drain_place(entries, end)),
    };
    match program_of(entries, child) {
        Some(program) if child >= FIRST => write!(text, "{word} {program}"),
        _ => write!(text, "{word} {child}"),
    }
}

/// Returns the bytes of the feed of the end with this number, as a text.
fn bytes_of_feed(entries: &[Entry], feed: u64) -> &str {
    for entry in entries {
        if let Entry::Feed(end, bytes, Ok(())) = entry {
            if *end == feed {
                return str::from_utf8(bytes.as_slice()).unwrap_or("?");
            }
        }
    }
    ""
}

/// Returns the place of a drain among those that were started.
fn drain_place(entries: &[Entry], drain: u64) -> usize {
    let mut place = 0_usize;
    for entry in entries {
        if let Entry::Drain(end, Ok(())) = entry {
            place = place.saturating_add(1);
            if *end == drain {
                break;
            }
        }
    }
    place
}

/// Returns the program of the child with this number, if the journal has its spawn.
pub fn program_of(entries: &[Entry], child: u64) -> Option<&str> {
    for entry in entries {
        if let Entry::Spawn(spec, _, Ok(number)) = entry {
            if *number == child {
                return spec.words().first().map(String::as_str);
            }
        }
    }
    None
}
