//! The parent's environment, read at once, or entry by entry where the runtime can't do that, or
//! has more or fewer entries by now.
ghost use Rattle.std.specs.Prelude.{◌≡◌, [], ◌∷◌, ◌++◌, map, IfOk, OnOk};
ghost use Rattle.std.specs.Option.{option_map};
ghost use Rattle.duct_system.specs.SpecView.{pair_text};
ghost use Rattle.duct_host.specs.Entries.{AddsVariable, parts_at_sign, variable_of, with_front};

use crate::parents::Parents;
use std::alloc::{AllocError, Global};
use std::env::FillError;
use std::rt::Env;

/// The variables in the order in which the environment has them. An entry that is not UTF-8, or
/// that has no name or no `=`, is left out. Fails only at an allocation failure.
pub(crate) fn variables<R: Parents + Env>(
    rt: &R,
    alloc: Global,
) -> Result<Vec<(String, String)>, AllocError> {
    match rt.environment(alloc) {
        Ok(entries) if has_as_many(rt, entries.as_slice()) => {
            variables_at_once(entries.as_slice(), alloc)
        }
        _ => variables_in_turn(rt, alloc),
    }
}

/// Whether the runtime has as many entries as these, which have a NUL after each.
fn has_as_many<E: Env>(rt: &E, entries: &[u8]) -> bool {
    let count = entries.iter().filter(|byte| **byte == 0).count();
    (count == 0 || has_entry(rt, count - 1)) && !has_entry(rt, count)
}

/// Whether there is an entry at this place.
fn has_entry<E: Env>(rt: &E, i: usize) -> bool {
    let mut start = [0u8; 1];
    !matches!(rt.var_at(i, &mut start), Err(FillError::NotPresent))
}

/// The variables of entries that have a NUL after each.
fn variables_at_once(entries: &[u8], alloc: Global) -> Result<Vec<(String, String)>, AllocError> {
    let mut pairs = Vec::new(alloc);
    for entry in entries.split(|byte| *byte == 0) {
        push_variable(&mut pairs, alloc, entry)?;
    }
    Ok(pairs)
}

/// The variables, read one by one. A runtime may search for each from the first entry on.
fn variables_in_turn<E: Env>(rt: &E, alloc: Global) -> Result<Vec<(String, String)>, AllocError> {
    let mut pairs = Vec::new(alloc);
    for i in 0..usize::MAX {
        let Some(entry) = entry_at(rt, alloc, i)? else {
            break;
        };
        push_variable(&mut pairs, alloc, entry.as_slice())?;
    }
    Ok(pairs)
}

/// Adds the variable of an entry, if it has one.
fn push_variable(
    pairs: &mut Vec<(String, String)>,
    alloc: Global,
    entry: &[u8],
) -> Result<(), AllocError>
    ensures { OnOk result (AddsVariable entry.now (map pair_text pairs.old.items)
        (map pair_text pairs.new.items)) }
{
    let Ok(text) = str::from_utf8(entry) else {
        return Ok(());
    };
    if let Some(pair) = split_entry(alloc, text)? {
        pairs.push(pair)?;
    }
    Ok(())
}

/// The size of the buffer at first, in bytes.
const FIRST_SIZE: usize = 256;

/// The bytes of an entry, or none after the last one. The buffer grows until the entry fits.
fn entry_at<E: Env>(rt: &E, alloc: Global, i: usize) -> Result<Option<Vec<u8>>, AllocError> {
    let mut bytes = Vec::new(alloc);
    let mut size = FIRST_SIZE;
    for _ in 0..usize::BITS {
        bytes.resize(size, 0u8)?;
        match rt.var_at(i, bytes.as_mut_slice()) {
            Ok(length) => {
                bytes.truncate(length);
                return Ok(Some(bytes));
            }
            Err(FillError::NotPresent) => return Ok(None),
            Err(FillError::TooLong) => size = size.saturating_mul(2),
        }
    }
    Err(AllocError)
}

/// The name and the value of an entry. The name has at least one byte, so that an entry's first
/// byte belongs to the name, even if it is a `=`.
fn split_entry(alloc: Global, entry: &str) -> Result<Option<(String, String)>, AllocError>
    ensures { IfOk result (λ found. option_map pair_text found ≡ variable_of entry.now) }
{
    match entry.strip_prefix('=') {
        Some(rest) => split_behind(alloc, "=", rest),
        None => split_behind(alloc, "", entry),
    }
}

/// The parts of a text before its first `=` and after it, the first part with the prefix `front`.
fn split_behind(
    alloc: Global,
    front: &str,
    text: &str,
) -> Result<Option<(String, String)>, AllocError>
    ensures { IfOk result (λ found. option_map pair_text found
        ≡ option_map (with_front front.now) (parts_at_sign text.now)) }
{
    let Some((back, value)) = text.split_once('=') else {
        return Ok(None);
    };
    let mut name = String::from_str(alloc, front)?;
    name.push_str(back)?;
    Ok(Some((name, String::from_str(alloc, value)?)))
}

/// A copy of some variables.
pub(crate) fn copy_of(
    pairs: &[(String, String)],
    alloc: Global,
) -> Result<Vec<(String, String)>, AllocError>
    ensures { IfOk result (λ copies. map pair_text copies.items ≡ map pair_text pairs.now) }
{
    let mut copies = Vec::new(alloc);
    for pair in pairs {
        push_copy(&mut copies, pair)?;
    }
    Ok(copies)
}

/// Adds a copy of a variable.
fn push_copy(copies: &mut Vec<(String, String)>, pair: &(String, String)) -> Result<(), AllocError>
    ensures { OnOk result
        (map pair_text copies.new.items ≡ map pair_text copies.old.items ++ pair_text pair.now
        ∷ []) }
{
    let name = pair.0.clone()?;
    let value = pair.1.clone()?;
    copies.push((name, value))?;
    Ok(())
}
