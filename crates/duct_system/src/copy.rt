//! Copies of texts and of what stands in a journal.
ghost use Rattle.std.specs.Prelude.{◌≡◌, [], map, string_bytes, IfOk, OnOk};
ghost use Rattle.std.specs.Option.{option_map, option_copied};
ghost use Rattle.duct_system.specs.EntryView.{entry_view};
ghost use Rattle.duct_system.specs.SpecView.{pair_text, texts_of, with_var};

use crate::spec::{CommandSpec, Stream, spec_of};
use crate::system::Entry;
use std::alloc::{AllocError, Global};
use std::collections::BTreeMap;
use std::sync::Arc;

/// Returns copies of these texts. Fails only at an allocation failure.
pub fn copies_of_texts(alloc: Global, texts: &[&str]) -> Result<Vec<String>, AllocError>
    ensures { IfOk result (λ copies. map string_bytes copies.items ≡ texts_of texts.now) }
{
    let mut copies = Vec::with_capacity(alloc, texts.len())?;
    for text in texts {
        copies.push(String::from_str(alloc, text)?)?;
    }
    Ok(copies)
}

/// Returns copies of these pairs of texts. Fails only at an allocation failure.
pub fn copies_of(
    alloc: Global,
    pairs: &[(String, String)],
) -> Result<Vec<(String, String)>, AllocError>
    ensures { IfOk result (λ copies. map pair_text copies.items ≡ map pair_text pairs.now) }
{
    let mut copies = Vec::new(alloc);
    for (name, value) in pairs.iter() {
        let name = String::from_str(alloc, name.as_str())?;
        copies.push((name, String::from_str(alloc, value.as_str())?))?;
    }
    Ok(copies)
}

/// Returns a copy of a spec, which shares its words. Fails only at an allocation failure, or where
/// the words have too many owners.
pub fn spec_copy(alloc: Global, spec: &CommandSpec) -> Result<CommandSpec, AllocError>
    ensures { IfOk result (λ copy. copy ≡ spec.now) }
{
    let mut copy = bare_spec(alloc, spec)?;
    let Ok(vars) = spec.vars() else {
        return Err(AllocError);
    };
    for (name, value) in vars {
        set_variable(&mut copy, name, value)?;
    }
    Ok(copy)
}

// Returns a copy of a spec without its variables.
fn bare_spec(alloc: Global, spec: &CommandSpec) -> Result<CommandSpec, AllocError>
    ensures { IfOk result (λ copy. copy ≡ record spec.now { vars = [] }) }
{
    let words = Arc::try_clone(spec.shared_words())?;
    let folder = folder_of(alloc, spec.folder())?;
    Ok(spec_of(
        words,
        folder,
        BTreeMap::new(alloc),
        spec.port(Stream::In),
        spec.port(Stream::Out),
        spec.port(Stream::Err),
    ))
}

// Returns a copy of the folder, if there is one.
fn folder_of(alloc: Global, folder: Option<&str>) -> Result<Option<String>, AllocError>
    ensures { IfOk result (λ copy. option_map string_bytes copy ≡ option_copied folder.entry) }
{
    match folder {
        Some(folder) => Ok(Some(String::from_str(alloc, folder)?)),
        None => Ok(None),
    }
}

// Sets a variable of a spec.
fn set_variable(spec: &mut CommandSpec, name: &str, value: &str) -> Result<(), AllocError>
    ensures { OnOk result
        (spec.new ≡ record spec.old { vars = with_var name.now value.now spec.old.vars }) }
{
    match spec.env(name, value) {
        Ok(()) => Ok(()),
        Err(_) => Err(AllocError),
    }
}

/// Returns copies of these entries, as a recording takes them. Fails only at an allocation failure.
///
/// Example: `Recording::new(alloc, copies_of_entries(alloc, host.journal())?)?`
pub fn copies_of_entries(alloc: Global, entries: &[Entry]) -> Result<Vec<Entry>, AllocError>
    ensures { IfOk result (λ copies. map entry_view copies.items ≡ map entry_view entries.now) }
{
    let mut copies = Vec::new(alloc);
    for entry in entries {
        copies.push(entry_copy(alloc, entry)?)?;
    }
    Ok(copies)
}

// Returns a copy of an entry.
fn entry_copy(alloc: Global, entry: &Entry) -> Result<Entry, AllocError>
    ensures { IfOk result (λ copy. entry_view copy ≡ entry_view entry.now) }
{
    Ok(match entry {
        Entry::Environment(Ok(pairs)) => {
            Entry::Environment(Ok(copies_of(alloc, pairs.as_slice())?))
        }
        Entry::Environment(Err(fault)) => Entry::Environment(Err(*fault)),
        Entry::Pipe(answer) => Entry::Pipe(*answer),
        Entry::OpenRead(path, answer) => {
            Entry::OpenRead(String::from_str(alloc, path.as_str())?, *answer)
        }
        Entry::Create(path, answer) => {
            Entry::Create(String::from_str(alloc, path.as_str())?, *answer)
        }
        Entry::Duplicate(lent, answer) => Entry::Duplicate(*lent, *answer),
        Entry::Parent(side, answer) => Entry::Parent(*side, *answer),
        Entry::Canonicalize(path, Ok(text)) => Entry::Canonicalize(
            String::from_str(alloc, path.as_str())?,
            Ok(String::from_str(alloc, text.as_str())?),
        ),
        Entry::Canonicalize(path, Err(fault)) => {
            Entry::Canonicalize(String::from_str(alloc, path.as_str())?, Err(*fault))
        }
        Entry::Spawn(spec, io, answer) => Entry::Spawn(spec_copy(alloc, spec)?, *io, *answer),
        Entry::Feed(end, bytes, answer) => Entry::Feed(*end, Arc::try_clone(bytes)?, *answer),
        Entry::Drain(end, answer) => Entry::Drain(*end, *answer),
        Entry::Reader(end) => Entry::Reader(*end),
        Entry::Close(end) => Entry::Close(*end),
    })
}
