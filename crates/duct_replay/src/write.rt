//! The lines of a recording: of an entry, of how a child ended, and of what was read of an end.
ghost use Rattle.std.specs.Prelude.{◌≡◌, ◌++◌, ◌∷◌, [], Some, Ok, flat_map, length, map, string_bytes, IfOk, OnOk, option_copied};
ghost use Rattle.duct_system.specs.EntryView.{entry_view};
ghost use Rattle.duct_system.specs.SpecView.{AreOrdered, pair_text};
ghost use Rattle.duct_replay.specs.Lines.{AreBytes, Ended, IsWritable, ItemView, Noted, Read, answer_data, bytes_data, entry_data, folder_data, item_data, item_text, list_data, number_data, port_data, ports_data, request_data, side_name, spawn_data, stream_data, variable_data, variables_data, AllRead, ReadsFirst, output_view, line_meant};
ghost use Rattle.duct_replay.specs.declared.write.Values.{Values};
ghost use Rattle.serde_json.specs.Data.{string};
ghost use Rattle.serde_json.specs.Read.{read};
ghost use Rattle.serde_json.specs.View.{view};
ghost use Rattle.serde_json.specs.Written.{compact_text};

use duct_system::spec::{CommandSpec, Port, Stream};
use duct_system::system::{Entry, ExitStatus, Side, Stdio};
use serde_json::Value;
use std::alloc::{AllocError, Global};
use std::sync::Arc;

/// Whether the values of variables are written.
#[derive(Clone, Copy, Debug, PartialEq, Eq)]
pub enum Values {
    /// They are.
    Shown,
    /// Each stands as `null`. Such an entry can't be read back.
    Hidden,
}

/// Returns the line of an entry, without a newline, as in `["open_read","notes","ok",3]`: an array
/// of the request's name, what it was made with, and either `"ok"` and what was returned, or
/// `"fault"` and its kind. Fails only at an allocation failure.
pub fn entry_text(alloc: Global, entry: &Entry, values: Values) -> Result<String, AllocError>
    ensures text { IfOk result (λ text. string_bytes text
        ≡ compact_text (entry_data values (entry_view entry.now))) }
    ensures json { IfOk result
        (λ text. read (string_bytes text) ≡ Some (entry_data values (entry_view entry.now))) }
    ensures shown { values ≡ Values.Shown → IfOk result
        (λ text. line_meant (string_bytes text) ≡ Ok (entry_view entry.now)) }
{
    let value = entry.value(alloc, values)?;
    value.to_string(alloc)
}

// ---- items of a recording

/// What a line of a recording is written from.
pub(crate) trait Written {
    /// The item that the line says.
    ghost item: { Self → ItemView };

    /// Returns the value that the line has.
    fn value(&self, alloc: Global, values: Values) -> Result<Value, AllocError>
        ensures value { IfOk result (λ value. view value ≡ item_data values (item self.now)) }
        ensures writable { OnOk result (IsWritable (item self.now)) };
}

/// Adds the line of each of these, with a newline at its end.
pub(crate) fn push_lines<T: Written>(
    alloc: Global,
    text: &mut String,
    items: &[T],
    values: Values,
) -> Result<(), AllocError>
    ensures text { OnOk result (string_bytes text.new ≡ string_bytes text.old
        ++ flat_map (item_text values) (map T.item items.now)) }
    ensures shown { values ≡ Values.Shown →
        OnOk result (AllRead values (map T.item items.now)) }
{
    let mut rest = items;
    while let Some((item, behind)) = rest.split_first() {
        text.push_str(line(alloc, item, values)?.as_str())?;
        rest = behind;
    }
    Ok(())
}

#[tactic(auto, unfolding(crate::specs::Lines::item_text))]
fn line<T: Written>(alloc: Global, item: &T, values: Values) -> Result<String, AllocError>
    ensures text { IfOk result
        (λ line. string_bytes line ≡ item_text values (T.item item.now)) }
    ensures shown { values ≡ Values.Shown → OnOk result
        (ReadsFirst (item_text values (T.item item.now)) (T.item item.now)) }
{
    let value = item.value(alloc, values)?;
    let mut line = value.to_string(alloc)?;
    line.push('\n')?;
    Ok(line)
}

impl Written for Entry {
    ghost item = { λ entry. Noted (entry_view entry) };

    #[tactic(auto, unfolding(crate::specs::Lines::item_data, crate::specs::Lines::entry_data))]
    fn value(&self, alloc: Global, values: Values) -> Result<Value, AllocError> {
        let mut items = request(alloc, self, values)?;
        let mut more = answer(alloc, self, values)?;
        items.append(&mut more)?;
        Ok(Value::Array(items))
    }
}

/// The number of a child, and how it ended.
impl Written for (u64, ExitStatus) {
    ghost item = { Ended };

    #[tactic(auto, unfolding(crate::specs::Lines::item_data))]
    fn value(&self, alloc: Global, _values: Values) -> Result<Value, AllocError> {
        let (child, status) = self;
        let name = text(alloc, "ended")?;
        let (kind, code) = match status {
            ExitStatus::Code(code) => ("code", *code),
            ExitStatus::Signal(signal) => ("signal", *signal),
        };
        let kind = text(alloc, kind)?;
        let items = vec![in alloc; name, Value::from(*child), kind, Value::from(code)]?;
        Ok(Value::Array(items))
    }
}

/// The number of an end, and what was read of it.
impl Written for (u64, Arc<Vec<u8>>) {
    ghost item = { λ output. Read (output_view output) };

    #[tactic(auto, unfolding(crate::specs::Lines::item_data))]
    fn value(&self, alloc: Global, _values: Values) -> Result<Value, AllocError> {
        let (end, bytes) = self;
        let name = text(alloc, "read")?;
        let bytes = input(alloc, bytes.as_slice())?;
        Ok(Value::Array(vec![in alloc; name, Value::from(*end), bytes]?))
    }
}

// ---- requests

// A request: its name, and what it was made with.
#[tactic(auto, unfolding(crate::specs::Lines::request_data))]
fn request(alloc: Global, entry: &Entry, values: Values) -> Result<Vec<Value>, AllocError>
    ensures items { IfOk result
        (λ items. map view items.items ≡ request_data values (entry_view entry.now)) }
    ensures writable { OnOk result (IsWritable (Noted (entry_view entry.now))) }
{
    match entry {
        Entry::Environment(_) => one(alloc, "environment"),
        Entry::Pipe(_) => one(alloc, "pipe"),
        Entry::OpenRead(path, _) => two(alloc, "open_read", text(alloc, path.as_str())?),
        Entry::Create(path, _) => two(alloc, "create", text(alloc, path.as_str())?),
        Entry::Duplicate(end, _) => two(alloc, "duplicate", Value::from(*end)),
        Entry::Parent(side, _) => two(alloc, "parent", text(alloc, side_name(*side))?),
        Entry::Canonicalize(path, _) => two(alloc, "canonicalize", text(alloc, path.as_str())?),
        Entry::Spawn(spec, io, _) => spawn(alloc, spec, io, values),
        Entry::Feed(end, bytes, _) => {
            let name = text(alloc, "feed")?;
            let bytes = input(alloc, bytes.as_slice())?;
            Ok(vec![in alloc; name, Value::from(*end), bytes]?)
        }
        Entry::Drain(end, _) => two(alloc, "drain", Value::from(*end)),
        Entry::Reader(end) => two(alloc, "reader", Value::from(*end)),
        Entry::Close(end) => two(alloc, "close", Value::from(*end)),
    }
}

fn spawn(
    alloc: Global,
    spec: &CommandSpec,
    io: &[Stdio<u64>; 3],
    values: Values,
) -> Result<Vec<Value>, AllocError>
    ensures items { IfOk result
        (λ items. map view items.items ≡ spawn_data values spec.now io.now) }
    ensures ordered { OnOk result (AreOrdered spec.now.vars) }
    ensures three { OnOk result (length io.now ≡ 3) }
{
    let name = text(alloc, "spawn")?;
    let words = words(alloc, spec.words())?;
    let folder = folder(alloc, spec.folder())?;
    let Ok(vars) = spec.vars() else {
        return Err(AllocError);
    };
    let vars = listed(alloc, vars.as_slice(), values)?;
    let ports = ports(alloc, spec)?;
    let streams = streams(alloc, io)?;
    Ok(vec![in alloc; name, words, folder, vars, ports, streams]?)
}

// Bytes, as text or as numbers.
#[tactic(auto, unfolding(crate::specs::Lines::bytes_data))]
fn input(alloc: Global, bytes: &[u8]) -> Result<Value, AllocError>
    ensures value { IfOk result (λ value. view value ≡ bytes_data bytes.now) }
    ensures bytes { AreBytes bytes.now }
{
    match str::from_utf8(bytes) {
        Ok(input) => text(alloc, input),
        Err(_) => numbers(alloc, bytes),
    }
}

fn numbers(alloc: Global, bytes: &[u8]) -> Result<Value, AllocError>
    ensures { IfOk result (λ value. view value ≡ list_data (map number_data bytes.now)) }
{
    let mut items = Vec::new(alloc);
    for byte in bytes {
        items.push(Value::from(*byte))?;
    }
    Ok(Value::Array(items))
}

fn words(alloc: Global, words: &[String]) -> Result<Value, AllocError>
    ensures { IfOk result
        (λ value. view value ≡ list_data (map string (map string_bytes words.now))) }
{
    let mut items = Vec::new(alloc);
    for word in words {
        items.push(text(alloc, word.as_str())?)?;
    }
    Ok(Value::Array(items))
}

fn folder(alloc: Global, folder: Option<&str>) -> Result<Value, AllocError>
    ensures { IfOk result (λ value. view value ≡ folder_data (option_copied folder.entry)) }
{
    match folder {
        Some(folder) => text(alloc, folder),
        None => Ok(Value::Null),
    }
}

#[tactic(auto, unfolding(crate::specs::Lines::variables_data))]
fn listed(alloc: Global, pairs: &[(&str, &str)], values: Values) -> Result<Value, AllocError>
    ensures { IfOk result (λ value. view value
        ≡ variables_data values (map (λ p. (p.0.now, p.1.now)) pairs.now)) }
{
    let mut items = Vec::new(alloc);
    for pair in pairs {
        items.push(variable(alloc, pair.0, pair.1, values)?)?;
    }
    Ok(Value::Array(items))
}

#[tactic(auto, unfolding(crate::specs::Lines::variables_data))]
fn environment(
    alloc: Global,
    pairs: &[(String, String)],
    values: Values,
) -> Result<Value, AllocError>
    ensures { IfOk result
        (λ value. view value ≡ variables_data values (map pair_text pairs.now)) }
{
    let mut items = Vec::new(alloc);
    for pair in pairs {
        items.push(variable(alloc, pair.0.as_str(), pair.1.as_str(), values)?)?;
    }
    Ok(Value::Array(items))
}

#[tactic(auto, unfolding(crate::specs::Lines::variable_data))]
fn variable(alloc: Global, name: &str, value: &str, values: Values) -> Result<Value, AllocError>
    ensures { IfOk result
        (λ pair. view pair ≡ variable_data values (name.now, value.now)) }
{
    let value = match values {
        Values::Shown => text(alloc, value)?,
        Values::Hidden => Value::Null,
    };
    Ok(Value::Array(vec![in alloc; text(alloc, name)?, value]?))
}

fn ports(alloc: Global, spec: &CommandSpec) -> Result<Value, AllocError>
    ensures { IfOk result (λ value. view value ≡ ports_data spec.now) }
{
    let input = port(alloc, spec.port(Stream::In))?;
    let output = port(alloc, spec.port(Stream::Out))?;
    let error = port(alloc, spec.port(Stream::Err))?;
    Ok(Value::Array(vec![in alloc; input, output, error]?))
}

fn port(alloc: Global, port: Port) -> Result<Value, AllocError>
    ensures { IfOk result (λ value. view value ≡ port_data port) }
{
    match port {
        Port::Inherit => text(alloc, "inherit"),
        Port::Null => text(alloc, "null"),
        Port::Given => text(alloc, "given"),
        Port::Place(place) => Ok(Value::from(place)),
    }
}

fn streams(alloc: Global, io: &[Stdio<u64>; 3]) -> Result<Value, AllocError>
    ensures value { IfOk result (λ value. view value ≡ list_data (map stream_data io.now)) }
    ensures three { OnOk result (length io.now ≡ 3) }
{
    let [input, output, error] = io;
    let input = stream(alloc, input)?;
    let output = stream(alloc, output)?;
    let error = stream(alloc, error)?;
    Ok(Value::Array(vec![in alloc; input, output, error]?))
}

fn stream(alloc: Global, stream: &Stdio<u64>) -> Result<Value, AllocError>
    ensures { IfOk result (λ value. view value ≡ stream_data stream.now) }
{
    match stream {
        Stdio::Inherit => text(alloc, "inherit"),
        Stdio::Null => text(alloc, "null"),
        Stdio::End(end) => Ok(Value::from(*end)),
    }
}

fn side_name(side: Side) -> &'static str
    ensures { result.now ≡ side_name side }
{
    match side {
        Side::Out => "stdout",
        Side::Err => "stderr",
    }
}

// ---- answers

#[tactic(auto, unfolding(crate::specs::Lines::answer_data))]
fn answer(alloc: Global, entry: &Entry, values: Values) -> Result<Vec<Value>, AllocError>
    ensures { IfOk result
        (λ items. map view items.items ≡ answer_data values (entry_view entry.now)) }
{
    match entry {
        Entry::Environment(Ok(pairs)) => {
            let pairs = environment(alloc, pairs.as_slice(), values)?;
            two(alloc, "ok", pairs)
        }
        Entry::Pipe(Ok((reader, writer))) => {
            let word = text(alloc, "ok")?;
            Ok(vec![in alloc; word, Value::from(*reader), Value::from(*writer)]?)
        }
        Entry::Canonicalize(_, Ok(path)) => two(alloc, "ok", text(alloc, path.as_str())?),
        Entry::OpenRead(_, Ok(number))
        | Entry::Create(_, Ok(number))
        | Entry::Duplicate(_, Ok(number))
        | Entry::Parent(_, Ok(number))
        | Entry::Spawn(_, _, Ok(number)) => two(alloc, "ok", Value::from(*number)),
        Entry::Feed(_, _, Ok(())) | Entry::Drain(_, Ok(())) => one(alloc, "ok"),
        Entry::Reader(_) | Entry::Close(_) => Ok(Vec::new(alloc)),
        Entry::Environment(Err(fault))
        | Entry::Pipe(Err(fault))
        | Entry::OpenRead(_, Err(fault))
        | Entry::Create(_, Err(fault))
        | Entry::Duplicate(_, Err(fault))
        | Entry::Parent(_, Err(fault))
        | Entry::Canonicalize(_, Err(fault))
        | Entry::Spawn(_, _, Err(fault))
        | Entry::Feed(_, _, Err(fault))
        | Entry::Drain(_, Err(fault)) => two(alloc, "fault", text(alloc, fault.kind.name())?),
    }
}

// ---- items

fn text(alloc: Global, text: &str) -> Result<Value, AllocError>
    ensures { IfOk result (λ value. view value ≡ string text.now) }
{
    Value::try_from_str(alloc, text)
}

fn one(alloc: Global, word: &str) -> Result<Vec<Value>, AllocError>
    ensures { IfOk result (λ items. map view items.items ≡ string word.now ∷ []) }
{
    Ok(vec![in alloc; text(alloc, word)?]?)
}

fn two(alloc: Global, word: &str, value: Value) -> Result<Vec<Value>, AllocError>
    ensures { IfOk result
        (λ items. map view items.items ≡ string word.now ∷ view value ∷ []) }
{
    Ok(vec![in alloc; text(alloc, word)?, value]?)
}
