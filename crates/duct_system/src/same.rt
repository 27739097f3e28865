//! Whether two specs, or the streams of two children, are equal.
ghost use Rattle.std.specs.Prelude.{◌≡◌, ◌↔◌, map, string_bytes, IfOk, IsTrue};
ghost use Rattle.std.specs.Option.{option_copied};
ghost use Rattle.duct_system.specs.SpecView.{HaveSamePorts, pair_seen};

use crate::spec::{CommandSpec, Port, Stream};
use crate::system::Stdio;
use std::alloc::AllocError;

/// Returns whether two specs are equal. Fails only at an allocation failure.
pub fn same_spec(one: &CommandSpec, other: &CommandSpec) -> Result<bool, AllocError>
    ensures { IfOk result (λ same. IsTrue same ↔ (one.now ≡ other.now)) }
{
    let one_vars = vars(one)?;
    let other_vars = vars(other)?;
    Ok(
        same_texts(one.words(), other.words())
            && same_folder(one.folder(), other.folder())
            && same_ports(one, other)
            && same_vars(one_vars.as_slice(), other_vars.as_slice()),
    )
}

// Returns the variables of a spec.
fn vars(spec: &CommandSpec) -> Result<Vec<(&str, &str)>, AllocError>
    ensures { IfOk result (λ vars. map pair_seen vars.items ≡ spec.now.vars) }
{
    match spec.vars() {
        Ok(vars) => Ok(vars),
        Err(_) => Err(AllocError),
    }
}

// Returns whether two lists of texts are equal.
fn same_texts(one: &[String], other: &[String]) -> bool
    ensures { IsTrue result ↔ (map string_bytes one.now ≡ map string_bytes other.now) }
{
    one == other
}

// Returns whether two folders are equal, or both are missing.
fn same_folder(one: Option<&str>, other: Option<&str>) -> bool
    ensures { IsTrue result ↔ (option_copied one.entry ≡ option_copied other.entry) }
{
    one == other
}

// Returns whether two lists of variables are equal.
fn same_vars(one: &[(&str, &str)], other: &[(&str, &str)]) -> bool
    ensures { IsTrue result ↔ (map pair_seen one.now ≡ map pair_seen other.now) }
{
    one == other
}

// Returns whether the streams of two specs have the same ports.
fn same_ports(one: &CommandSpec, other: &CommandSpec) -> bool
    ensures { IsTrue result ↔ HaveSamePorts one.now other.now }
{
    same_port(one.port(Stream::In), other.port(Stream::In))
        && same_port(one.port(Stream::Out), other.port(Stream::Out))
        && same_port(one.port(Stream::Err), other.port(Stream::Err))
}

// Returns whether two ports are equal.
fn same_port(one: Port, other: Port) -> bool
    ensures { IsTrue result ↔ (one ≡ other) }
{
    one == other
}

/// Returns whether the streams of two children are equal.
pub fn same_streams(one: &[Stdio<u64>; 3], other: &[Stdio<u64>; 3]) -> bool
    ensures { IsTrue result ↔ (one.now ≡ other.now) }
{
    let [input, output, error] = one;
    let [other_input, other_output, other_error] = other;
    same_stream(*input, *other_input)
        && same_stream(*output, *other_output)
        && same_stream(*error, *other_error)
}

// Returns whether two streams are equal.
fn same_stream(one: Stdio<u64>, other: Stdio<u64>) -> bool
    ensures { IsTrue result ↔ (one ≡ other) }
{
    one == other
}
