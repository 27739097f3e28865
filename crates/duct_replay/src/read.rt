//! What a line says: an entry, how a child ended, or what was read of an end.
ghost use Rattle.std.specs.Prelude.{◌≡◌, map, OnOk};
ghost use Rattle.duct_system.specs.EntryView.{entry_view};
ghost use Rattle.duct_system.specs.SpecView.{pair_text};
ghost use Rattle.duct_replay.specs.Lines.{ParsesAs, ending_meant, feed_meant, integer_meant, item_line, item_meant, item_named, item_view, line_meant, named_meant, output_meant, set_in_turn, spawn_meant, spec_meant, status_named};
ghost use Rattle.serde_json.specs.View.{view};

use crate::error::Refusal;
use crate::parts::{
    bytes, ends_answer, first, list, number, number_answer, only, port, side_named, stream, text,
    text_answer, text_copy, text_or_null, three, unit_answer, variables, variables_answer, words,
};
use duct_system::spec::{CommandSpec, spec_of};
use duct_system::system::{Entry, ExitStatus};
use serde_json::Value;
use std::alloc::{AllocError, Global};
use std::collections::BTreeMap;
use std::sync::Arc;

/// Returns the entry of a line that `entry_text` wrote with `Values::Shown`, and of each other
/// text with the same meaning: JSON may have spaces and escapes of its own, and the variables of a
/// spec are set one by one, so that they end in order of name. The line has no newline at its end.
///
/// Fails with `Refusal::Memory` at an allocation failure, and else only where the line means no
/// entry, with the first reason from left to right.
#[tactic(auto, unfolding(crate::specs::Lines::line_meant))]
pub fn read_entry(alloc: Global, line: &str) -> Result<Entry, Refusal>
    ensures { ParsesAs entry_view result (line_meant line.now) }
{
    match read_item(alloc, line)? {
        Item::Entry(entry) => Ok(entry),
        Item::Ended(_, _) | Item::Read(_, _) => Err(Refusal::NotEntry),
    }
}

/// What a line of a recording says.
#[derive(Drop)]
pub(crate) enum Item {
    /// An entry of the journal.
    Entry(Entry),
    /// The number of a child, and how it ended.
    Ended(u64, ExitStatus),
    /// The number of an end, and what was read of it.
    Read(u64, Arc<Vec<u8>>),
}

/// Returns the item of a line. Fails as `read_entry` does.
#[tactic(auto, unfolding(crate::specs::Lines::item_line))]
pub(crate) fn read_item(alloc: Global, line: &str) -> Result<Item, Refusal>
    ensures { ParsesAs item_view result (item_line line.now) }
{
    match Value::from_str(alloc, line) {
        Ok(value) => item_of(alloc, &value),
        Err(error) if error.is_memory() => Err(Refusal::Memory),
        Err(_) => Err(Refusal::NotJson),
    }
}

// The item that was written as this value.
#[tactic(auto, unfolding(crate::specs::Lines::item_meant))]
fn item_of(alloc: Global, line: &Value) -> Result<Item, Refusal>
    ensures { ParsesAs item_view result (item_meant (view line.now)) }
{
    let (name, items) = first(list(line)?)?;
    item_named(alloc, text(name)?, items)
}

#[tactic(auto, unfolding(crate::specs::Lines::item_named))]
fn item_named(alloc: Global, name: &str, items: &[Value]) -> Result<Item, Refusal>
    ensures { ParsesAs item_view result (item_named name.now (map view items.now)) }
{
    match name {
        "ended" => ending(items),
        "read" => output(alloc, items),
        _ => Ok(Item::Entry(named(alloc, name, items)?)),
    }
}

#[tactic(auto, unfolding(crate::specs::Lines::ending_meant, crate::specs::Lines::status_named))]
fn ending(items: &[Value]) -> Result<Item, Refusal>
    ensures { ParsesAs item_view result (ending_meant (map view items.now)) }
{
    let (child, items) = first(items)?;
    let (name, items) = first(items)?;
    let child = number(child)?;
    let name = text(name)?;
    let code = integer(only(items)?)?;
    match name {
        "code" => Ok(Item::Ended(child, ExitStatus::Code(code))),
        "signal" => Ok(Item::Ended(child, ExitStatus::Signal(code))),
        _ => Err(Refusal::NotEntry),
    }
}

#[tactic(auto, unfolding(crate::specs::Lines::output_meant))]
fn output(alloc: Global, items: &[Value]) -> Result<Item, Refusal>
    ensures { ParsesAs item_view result (output_meant (map view items.now)) }
{
    let (end, items) = first(items)?;
    let end = number(end)?;
    let bytes = bytes(alloc, only(items)?)?;
    Ok(Item::Read(end, Arc::new(alloc, bytes)?))
}

// The integer of 32 bits that a value is.
#[tactic(auto, unfolding(crate::specs::Lines::integer_meant))]
fn integer(value: &Value) -> Result<i32, Refusal>
    ensures { ParsesAs (λ n. n) result (integer_meant (view value.now)) }
{
    match value.as_i64() {
        Some(n) if -2147483648 <= n && n <= 2147483647 => Ok(n as i32),
        _ => Err(Refusal::NotEntry),
    }
}

// ---- entries

// The entry of the request with this name.
#[tactic(auto, unfolding(crate::specs::Lines::named_meant))]
fn named(alloc: Global, name: &str, items: &[Value]) -> Result<Entry, Refusal>
    ensures { ParsesAs entry_view result (named_meant name.now (map view items.now)) }
{
    match name {
        "environment" => Ok(Entry::Environment(variables_answer(alloc, items)?)),
        "pipe" => Ok(Entry::Pipe(ends_answer(items)?)),
        "open_read" => {
            let (path, answer) = first(items)?;
            Ok(Entry::OpenRead(text_copy(alloc, path)?, number_answer(answer)?))
        }
        "create" => {
            let (path, answer) = first(items)?;
            Ok(Entry::Create(text_copy(alloc, path)?, number_answer(answer)?))
        }
        "duplicate" => {
            let (end, answer) = first(items)?;
            Ok(Entry::Duplicate(number(end)?, number_answer(answer)?))
        }
        "parent" => {
            let (side, answer) = first(items)?;
            Ok(Entry::Parent(side_named(text(side)?)?, number_answer(answer)?))
        }
        "canonicalize" => {
            let (path, answer) = first(items)?;
            Ok(Entry::Canonicalize(text_copy(alloc, path)?, text_answer(alloc, answer)?))
        }
        "spawn" => spawn(alloc, items),
        "feed" => feed(alloc, items),
        "drain" => {
            let (end, answer) = first(items)?;
            Ok(Entry::Drain(number(end)?, unit_answer(answer)?))
        }
        "reader" => Ok(Entry::Reader(number(only(items)?)?)),
        "close" => Ok(Entry::Close(number(only(items)?)?)),
        _ => Err(Refusal::NotEntry),
    }
}

#[tactic(auto, unfolding(crate::specs::Lines::feed_meant))]
fn feed(alloc: Global, items: &[Value]) -> Result<Entry, Refusal>
    ensures { ParsesAs entry_view result (feed_meant (map view items.now)) }
{
    let (end, items) = first(items)?;
    let (input, answer) = first(items)?;
    let end = number(end)?;
    let input = bytes(alloc, input)?;
    let answer = unit_answer(answer)?;
    Ok(Entry::Feed(end, Arc::new(alloc, input)?, answer))
}

#[tactic(auto, unfolding(crate::specs::Lines::spawn_meant))]
fn spawn(alloc: Global, items: &[Value]) -> Result<Entry, Refusal>
    ensures { ParsesAs entry_view result (spawn_meant (map view items.now)) }
{
    let (words, items) = first(items)?;
    let (folder, items) = first(items)?;
    let (vars, items) = first(items)?;
    let (ports, items) = first(items)?;
    let (io, answer) = first(items)?;
    let spec = spec(alloc, words, folder, vars, ports)?;
    let (input, output, error) = three(io)?;
    let io = [stream(input)?, stream(output)?, stream(error)?];
    Ok(Entry::Spawn(spec, io, number_answer(answer)?))
}

#[tactic(auto, unfolding(crate::specs::Lines::spec_meant))]
fn spec(
    alloc: Global,
    said: &Value,
    place: &Value,
    vars: &Value,
    connected: &Value,
) -> Result<CommandSpec, Refusal>
    ensures { ParsesAs (λ spec. spec) result
        (spec_meant (view said.now) (view place.now) (view vars.now) (view connected.now)) }
{
    let words = Arc::new(alloc, words(alloc, said)?)?;
    let folder = text_or_null(alloc, place)?;
    let vars = variables(alloc, vars)?;
    let (input, output, error) = three(connected)?;
    let (input, output, error) = (port(input)?, port(output)?, port(error)?);
    let mut spec = spec_of(words, folder, BTreeMap::new(alloc), input, output, error);
    set_variables(&mut spec, vars.as_slice())?;
    Ok(spec)
}

// Sets variables of a spec, one by one.
fn set_variables(spec: &mut CommandSpec, vars: &[(String, String)]) -> Result<(), AllocError>
    ensures { OnOk result (spec.new
        ≡ record spec.old { vars = set_in_turn spec.old.vars (map pair_text vars.now) }) }
{
    let mut rest = vars;
    while let Some((pair, behind)) = rest.split_first() {
        match spec.env(pair.0.as_str(), pair.1.as_str()) {
            Ok(()) => rest = behind,
            Err(_) => return Err(AllocError),
        }
    }
    Ok(())
}
