//! Hooks written as texts (`docs/ROWS.md`).
use crate::expressions::Log;
use crate::stop::TableError;
use crate::words::{fault, stream};
use duct_script::{Destination, HookAnswer, ScriptHook, SpecChange};
use std::alloc::Global;
use std::sync::Arc;

/// Builds the hook of a text. The hook notes its calls in the log, if there is one. Fails if a part
/// is malformed, or on an allocation failure.
pub fn hook(alloc: Global, calls: Log, text: &str) -> Result<ScriptHook, TableError> {
    let mut hook = ScriptHook::new(alloc);
    if let Some(calls) = calls {
        hook.calls = Some(Arc::try_clone(calls)?);
    }
    for part in text.split('+') {
        tell(alloc, &mut hook, part)?;
    }
    Ok(hook)
}

/// Adds one part to a hook.
fn tell(alloc: Global, hook: &mut ScriptHook, part: &str) -> Result<(), TableError> {
    let (key, text) = part.split_once(':').unwrap_or(("", part));
    let (name, value) = text.split_once(':').unwrap_or((text, ""));
    match key {
        "refuse" => hook.answer = HookAnswer::Refuse(fault(text)?),
        "refuse_word" => {
            let fault = fault(value)?;
            hook.answer = HookAnswer::RefuseWord(String::from_str(alloc, name)?, fault);
        }
        "label" => hook.label = text.parse::<u8>()?,
        _ => hook.changes.push(change(alloc, key, text)?)?,
    }
    Ok(())
}

fn change(alloc: Global, key: &str, text: &str) -> Result<SpecChange, TableError> {
    let (name, value) = text.split_once(':').unwrap_or((text, ""));
    match (key, text.split_once('>')) {
        ("set", _) => Ok(SpecChange::Var(
            String::from_str(alloc, name)?,
            String::from_str(alloc, value)?,
        )),
        ("unset", _) if text.is_empty() => Ok(SpecChange::NoVars),
        ("unset", _) => Ok(SpecChange::NoVar(String::from_str(alloc, text)?)),
        ("dir", _) => Ok(SpecChange::Folder(String::from_str(alloc, text)?)),
        ("", Some((name, place))) => Ok(SpecChange::Port(stream(name)?, destination(place)?)),
        ("", None) => Ok(SpecChange::Word(String::from_str(alloc, text)?)),
        _ => Err(TableError::Text("no such part of a hook")),
    }
}

fn destination(place: &str) -> Result<Destination, TableError> {
    match place {
        "inherit" => Ok(Destination::Inherit),
        "null" => Ok(Destination::Null),
        place => Ok(Destination::HookEnd(place.parse::<usize>()?)),
    }
}
