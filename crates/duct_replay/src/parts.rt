//! The parts of an entry, read from a line's JSON.
ghost use Rattle.std.specs.Prelude.{[], map, string_bytes, option_map};
ghost use Rattle.duct_system.specs.EntryView.{answer_of};
ghost use Rattle.duct_system.specs.SpecView.{pair_text};
ghost use Rattle.duct_replay.specs.Lines.{text_meant, number_meant, list_meant, first_meant, only_meant, kind_named, answer_meant, unit_meant, ends_meant, unit_answer, number_answer, ends_answer, text_answer, pair_meant, variable_meant, variables_meant, variables_answer, byte_meant, bytes_meant, text_or_null, port_meant, stream_meant, three_meant, side_named, all_meant, words_meant, ParsesAs};
ghost use Rattle.serde_json.specs.View.{view};

use crate::error::Refusal;
use duct_system::spec::Port;
use duct_system::system::{Fault, Kind, Side, Stdio};
use serde_json::Value;
use std::alloc::Global;

// ---- values

#[tactic(auto, unfolding(crate::specs::Lines::text_meant))]
pub(crate) fn text(value: &Value) -> Result<&str, Refusal>
    ensures { ParsesAs (λ text. text.now) result (text_meant (view value.now)) }
{
    value.as_str().ok_or(Refusal::NotEntry)
}

pub(crate) fn text_copy(alloc: Global, value: &Value) -> Result<String, Refusal>
    ensures { ParsesAs string_bytes result (text_meant (view value.now)) }
{
    Ok(String::from_str(alloc, text(value)?)?)
}

#[tactic(auto, unfolding(crate::specs::Lines::number_meant))]
pub(crate) fn number(value: &Value) -> Result<u64, Refusal>
    ensures { ParsesAs (λ n. n) result (number_meant (view value.now)) }
{
    value.as_u64().ok_or(Refusal::NotEntry)
}

#[tactic(auto, using(crate::proofs::Lists::list_of_items), unfolding(crate::specs::Lines::list_meant))]
pub(crate) fn list(value: &Value) -> Result<&[Value], Refusal>
    ensures { ParsesAs (λ items. map view items.now) result (list_meant (view value.now)) }
{
    Ok(value.as_array().ok_or(Refusal::NotEntry)?.as_slice())
}

/// The first of these, and those behind it.
#[tactic(auto, unfolding(crate::specs::Lines::first_meant))]
pub(crate) fn first(items: &[Value]) -> Result<(&Value, &[Value]), Refusal>
    ensures { ParsesAs (λ parts. (view parts.0.now, map view parts.1.now)) result
        (first_meant (map view items.now)) }
{
    items.split_first().ok_or(Refusal::NotEntry)
}

/// The item of these that is the only one.
#[tactic(auto, unfolding(crate::specs::Lines::only_meant))]
pub(crate) fn only(items: &[Value]) -> Result<&Value, Refusal>
    ensures { ParsesAs (λ item. view item.now) result (only_meant (map view items.now)) }
{
    match items {
        [item] => Ok(item),
        _ => Err(Refusal::NotEntry),
    }
}

// ---- answers

#[tactic(auto, unfolding(crate::specs::Lines::kind_named))]
fn kind_named(name: &str) -> Result<Kind, Refusal>
    ensures { ParsesAs (λ kind. kind) result (kind_named name.now) }
{
    match name {
        "NotFound" => Ok(Kind::NotFound),
        "PermissionDenied" => Ok(Kind::PermissionDenied),
        "BrokenPipe" => Ok(Kind::BrokenPipe),
        "WriteZero" => Ok(Kind::WriteZero),
        "InvalidInput" => Ok(Kind::InvalidInput),
        "Unsupported" => Ok(Kind::Unsupported),
        "OutOfMemory" => Ok(Kind::OutOfMemory),
        "Other" => Ok(Kind::Other),
        _ => Err(Refusal::NotEntry),
    }
}

// An answer: what was returned, or a fault.
#[tactic(auto, unfolding(crate::specs::Lines::answer_meant, crate::specs::Lines::fault_meant))]
fn answer(items: &[Value]) -> Result<Result<&[Value], Fault>, Refusal>
    ensures { ParsesAs (answer_of (λ values. map view values.now)) result
        (answer_meant (map view items.now)) }
{
    let (word, values) = first(items)?;
    match text(word)? {
        "ok" => Ok(Ok(values)),
        "fault" => Ok(Err(Fault::new(kind_named(text(only(values)?)?)?))),
        _ => Err(Refusal::NotEntry),
    }
}

#[tactic(auto, unfolding(crate::specs::Lines::unit_answer, crate::specs::Lines::unit_meant))]
pub(crate) fn unit_answer(items: &[Value]) -> Result<Result<(), Fault>, Refusal>
    ensures { ParsesAs (λ answer. answer) result (unit_answer (map view items.now)) }
{
    match answer(items)? {
        Ok([]) => Ok(Ok(())),
        Ok(_) => Err(Refusal::NotEntry),
        Err(fault) => Ok(Err(fault)),
    }
}

#[tactic(auto, unfolding(crate::specs::Lines::number_answer))]
pub(crate) fn number_answer(items: &[Value]) -> Result<Result<u64, Fault>, Refusal>
    ensures { ParsesAs (λ answer. answer) result (number_answer (map view items.now)) }
{
    match answer(items)? {
        Ok(values) => Ok(Ok(number(only(values)?)?)),
        Err(fault) => Ok(Err(fault)),
    }
}

/// An answer that returned a read end and a write end.
#[tactic(auto, unfolding(crate::specs::Lines::ends_answer, crate::specs::Lines::ends_meant))]
pub(crate) fn ends_answer(items: &[Value]) -> Result<Result<(u64, u64), Fault>, Refusal>
    ensures { ParsesAs (λ answer. answer) result (ends_answer (map view items.now)) }
{
    match answer(items)? {
        Ok([reader, writer]) => Ok(Ok((number(reader)?, number(writer)?))),
        Ok(_) => Err(Refusal::NotEntry),
        Err(fault) => Ok(Err(fault)),
    }
}

#[tactic(auto, unfolding(crate::specs::Lines::text_answer))]
pub(crate) fn text_answer(alloc: Global, items: &[Value]) -> Result<Result<String, Fault>, Refusal>
    ensures { ParsesAs (answer_of string_bytes) result (text_answer (map view items.now)) }
{
    match answer(items)? {
        Ok(values) => Ok(Ok(text_copy(alloc, only(values)?)?)),
        Err(fault) => Ok(Err(fault)),
    }
}

#[tactic(auto, unfolding(crate::specs::Lines::variables_answer))]
pub(crate) fn variables_answer(
    alloc: Global,
    items: &[Value],
) -> Result<Result<Vec<(String, String)>, Fault>, Refusal>
    ensures { ParsesAs (answer_of (λ pairs. map pair_text pairs.items)) result
        (variables_answer (map view items.now)) }
{
    match answer(items)? {
        Ok(values) => Ok(Ok(variables(alloc, only(values)?)?)),
        Err(fault) => Ok(Err(fault)),
    }
}

// ---- variables, words, bytes

#[tactic(auto, unfolding(crate::specs::Lines::variables_meant))]
pub(crate) fn variables(alloc: Global, value: &Value) -> Result<Vec<(String, String)>, Refusal>
    ensures { ParsesAs (λ pairs. map pair_text pairs.items) result
        (variables_meant (view value.now)) }
{
    let mut pairs = Vec::new(alloc);
    let mut rest = list(value)?;
    while let Some((value, behind)) = rest.split_first() {
        pairs.push(variable(alloc, value)?)?;
        rest = behind;
    }
    Ok(pairs)
}

#[tactic(auto, unfolding(crate::specs::Lines::variable_meant, crate::specs::Lines::pair_meant))]
fn variable(alloc: Global, value: &Value) -> Result<(String, String), Refusal>
    ensures { ParsesAs pair_text result (variable_meant (view value.now)) }
{
    match list(value)? {
        [name, value] => {
            let name = text_copy(alloc, name)?;
            Ok((name, text_or_null(alloc, value)?.ok_or(Refusal::Hidden)?))
        }
        _ => Err(Refusal::NotEntry),
    }
}

#[tactic(auto, unfolding(crate::specs::Lines::words_meant))]
pub(crate) fn words(alloc: Global, value: &Value) -> Result<Vec<String>, Refusal>
    ensures { ParsesAs (λ words. map string_bytes words.items) result
        (words_meant (view value.now)) }
{
    let mut words = Vec::new(alloc);
    let mut rest = list(value)?;
    while let Some((value, behind)) = rest.split_first() {
        words.push(text_copy(alloc, value)?)?;
        rest = behind;
    }
    Ok(words)
}

/// Bytes: those of a text, or the numbers of an array.
#[tactic(auto, unfolding(crate::specs::Lines::bytes_meant))]
pub(crate) fn bytes(alloc: Global, value: &Value) -> Result<Vec<u8>, Refusal>
    ensures { ParsesAs (λ bytes. bytes.items) result (bytes_meant (view value.now)) }
{
    match value.as_str() {
        Some(text) => Ok(Vec::from_slice(alloc, text.as_bytes())?),
        None => numbered_bytes(alloc, list(value)?),
    }
}

fn numbered_bytes(alloc: Global, values: &[Value]) -> Result<Vec<u8>, Refusal>
    ensures { ParsesAs (λ bytes. bytes.items) result (all_meant byte_meant (map view values.now)) }
{
    let mut bytes = Vec::new(alloc);
    let mut rest = values;
    while let Some((value, behind)) = rest.split_first() {
        bytes.push(byte(value)?)?;
        rest = behind;
    }
    Ok(bytes)
}

#[tactic(auto, unfolding(crate::specs::Lines::byte_meant))]
fn byte(value: &Value) -> Result<u8, Refusal>
    ensures { ParsesAs (λ byte. byte) result (byte_meant (view value.now)) }
{
    match number(value)? {
        number if number < 256 => Ok(number as u8),
        _ => Err(Refusal::NotEntry),
    }
}

// ---- folders, ports, streams

/// A text, or none where it is null.
#[tactic(auto, unfolding(crate::specs::Lines::text_or_null))]
pub(crate) fn text_or_null(alloc: Global, value: &Value) -> Result<Option<String>, Refusal>
    ensures { ParsesAs (option_map string_bytes) result (text_or_null (view value.now)) }
{
    match value {
        Value::Null => Ok(None),
        Value::String(text) => Ok(Some(String::from_str(alloc, text.as_str())?)),
        _ => Err(Refusal::NotEntry),
    }
}

/// The items of an array of three.
#[tactic(auto, unfolding(crate::specs::Lines::three_meant))]
pub(crate) fn three(value: &Value) -> Result<(&Value, &Value, &Value), Refusal>
    ensures { ParsesAs (λ parts. (view parts.0.now, view parts.1.now, view parts.2.now)) result
        (three_meant (view value.now)) }
{
    match list(value)? {
        [input, output, error] => Ok((input, output, error)),
        _ => Err(Refusal::NotEntry),
    }
}

/// A port: its name, or the place of an end.
#[tactic(auto, unfolding(crate::specs::Lines::port_meant, crate::specs::Lines::number_meant))]
pub(crate) fn port(value: &Value) -> Result<Port, Refusal>
    ensures { ParsesAs (λ port. port) result (port_meant (view value.now)) }
{
    match value {
        Value::String(name) => match name.as_str() {
            "inherit" => Ok(Port::Inherit),
            "null" => Ok(Port::Null),
            "given" => Ok(Port::Given),
            _ => Err(Refusal::NotEntry),
        },
        Value::Number(_) => Ok(Port::Place(number(value)? as usize)),
        _ => Err(Refusal::NotEntry),
    }
}

/// A stream: its name, or the number of its end.
#[tactic(auto, unfolding(crate::specs::Lines::stream_meant, crate::specs::Lines::number_meant))]
pub(crate) fn stream(value: &Value) -> Result<Stdio<u64>, Refusal>
    ensures { ParsesAs (λ stream. stream) result (stream_meant (view value.now)) }
{
    match value {
        Value::String(name) => match name.as_str() {
            "inherit" => Ok(Stdio::Inherit),
            "null" => Ok(Stdio::Null),
            _ => Err(Refusal::NotEntry),
        },
        Value::Number(_) => Ok(Stdio::End(number(value)?)),
        _ => Err(Refusal::NotEntry),
    }
}

/// The output stream of the parent with this name.
#[tactic(auto, unfolding(crate::specs::Lines::side_named))]
pub(crate) fn side_named(name: &str) -> Result<Side, Refusal>
    ensures { ParsesAs (λ side. side) result (side_named name.now) }
{
    match name {
        "stdout" => Ok(Side::Out),
        "stderr" => Ok(Side::Err),
        _ => Err(Refusal::NotEntry),
    }
}
