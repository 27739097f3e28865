//! The spec of a command before its hooks run.
ghost use Rattle.std.specs.Arc.{arc_value};
ghost use Rattle.std.specs.Prelude.{◌≡◌, map, string_bytes, IfOk, IsOkUnless, option_copied, option_map};
ghost use Rattle.duct_system.specs.SpecView.{pair_text};
ghost use Rattle.duct_start.specs.Asked.{with_program};
ghost use Rattle.duct_run.specs.ActionView.{ports_view};
ghost use Rattle.duct_run.specs.Settings.{changes_of};
ghost use Rattle.duct_run.specs.Made.{IsMade, program_text};

use crate::action::Ports;
use crate::variables::{Changes, changed_variables};
use duct_base::error::Error;
use duct_base::spec::{CommandSpec, spec_of};
use std::alloc::Global;
use std::sync::Arc;

/// Returns the spec of a command in this folder and with these changes of the variables. `pairs` is
/// the environment that the system returned. The spec has the words, with the canonical path of the
/// program where `program` is one, and the ports. It shares the words where `program` is none.
/// Fails only with `Error::Memory`, on allocation failure or where the words have too many owners.
pub(crate) fn asked_spec(
    alloc: Global,
    pairs: &[(String, String)],
    folder: Option<&str>,
    changes: Changes<'_>,
    program: Option<String>,
    words: &Arc<Vec<String>>,
    ports: Ports,
) -> Result<CommandSpec, Error>
    ensures asked { IfOk result (λ spec. let texts = map string_bytes (arc_value words.now).items in
        IsMade (map pair_text pairs.now) (program_text program texts)
        (option_copied folder.entry) (changes_of changes.entry) texts (ports_view ports) spec) }
    ensures memory { IsOkUnless result Error.Memory }
{
    let words = words_with(alloc, program, words)?;
    let folder = copied(alloc, folder)?;
    let vars = changed_variables(alloc, pairs, changes)?;
    let spec = spec_of(words, folder, vars, ports.input, ports.output, ports.error);
    Ok(spec)
}

// Returns the words, shared, or a copy of them with `program` in place of the first one if there is
// a `program`.
fn words_with(
    alloc: Global,
    program: Option<String>,
    words: &Arc<Vec<String>>,
) -> Result<Arc<Vec<String>>, Error>
    ensures words { IfOk result (λ with. let texts = map string_bytes (arc_value words.now).items in
        map string_bytes (arc_value with).items ≡ with_program (program_text program texts) texts) }
    ensures memory { IsOkUnless result Error.Memory }
{
    let Some(program) = program else {
        return Ok(Arc::try_clone(words)?);
    };
    let mut copy = Vec::with_capacity(alloc, words.len())?;
    if let Some((_, arguments)) = words.split_first() {
        copy.push(program)?;
        for argument in arguments {
            copy.push(argument.clone()?)?;
        }
    }
    Ok(Arc::new(alloc, copy)?)
}

// Copies a text, if there is one.
fn copied(alloc: Global, text: Option<&str>) -> Result<Option<String>, Error>
    ensures text { IfOk result (λ copy. option_map string_bytes copy ≡ option_copied text.entry) }
    ensures memory { IsOkUnless result Error.Memory }
{
    match text {
        Some(text) => Ok(Some(String::from_str(alloc, text)?)),
        None => Ok(None),
    }
}
