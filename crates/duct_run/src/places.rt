//! The places that a hook names in a spec: indexes into the hook's ends.
ghost use Rattle.std.specs.Prelude.{◌≡◌};
ghost use Rattle.duct_start.specs.Chain.{missing_place, missing_at, with_resolved_port};
ghost use Rattle.duct_run.specs.Made.{with_places_found};

use duct_base::spec::{CommandSpec, Port, Stream, give};

/// Returns the first place of a spec that is out of range for this many ends, in the order stdin,
/// stdout, stderr.
pub(crate) fn missing_place(count: usize, spec: &CommandSpec) -> Option<usize>
    ensures { result ≡ missing_place count spec.now }
{
    missing_at(count, spec.port(Stream::In))
        .or(missing_at(count, spec.port(Stream::Out)))
        .or(missing_at(count, spec.port(Stream::Err)))
}

// Returns the place that a port names, if it is out of range.
fn missing_at(count: usize, port: Port) -> Option<usize>
    ensures { result ≡ missing_at count port }
{
    match port {
        Port::Place(place) if place >= count => Some(place),
        Port::Place(_) | Port::Inherit | Port::Null | Port::Given => None,
    }
}

/// Makes each stream `Given` that names a place.
pub(crate) fn find(spec: &mut CommandSpec)
    ensures { spec.new ≡ with_places_found spec.old }
{
    find_one(spec, Stream::In);
    find_one(spec, Stream::Out);
    find_one(spec, Stream::Err);
}

// Makes a stream `Given` if it names a place.
fn find_one(spec: &mut CommandSpec, stream: Stream)
    ensures { spec.new ≡ with_resolved_port stream spec.old }
{
    if let Port::Place(_) = spec.port(stream) {
        give(spec, stream);
    }
}
