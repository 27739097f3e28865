//! The three streams of a command, while its hooks change them.
ghost use Rattle.std.specs.Prelude.{◌≡◌, ◌≤◌, ◌+◌, length, None, OnOk, OnErr, IfErr};
ghost use Rattle.duct_system.specs.Streams.{end_of, stream_of};
ghost use Rattle.duct_start.specs.Chain.{missing_at};
ghost use Rattle.duct_run.specs.Commands.{CloseSucceeds, RedirectSucceeds, RedirectFails};

use duct_base::error::Error;
use duct_base::spec::{Hook, Port};
use duct_base::system::{Stdio, System};
use std::mem::replace;

/// The three streams of a command.
#[derive(Drop)]
pub struct Streams<E> {
    pub input: Stdio<E>,
    pub output: Stdio<E>,
    pub error: Stdio<E>,
}

// Closes the end of a stream, if it has one.
pub(crate) fn let_go<S: System, H: Hook>(sys: &mut S, stream: Stdio<S::End>)
    requires room { length (end_of stream) ≤ (S.journal_view sys.old).room }
    ensures goes { CloseSucceeds {E = S.End} {H = H} H.allows S.End.number_of
        (S.journal_view sys.old) (S.journal_view sys.new) (stream_of S.End.number_of stream) }
    ensures left { (S.journal_view sys.old).room
        ≤ (S.journal_view sys.new).room + length (end_of stream) }
{
    match stream {
        Stdio::Inherit => {}
        Stdio::Null => {}
        Stdio::End(end) => sys.close(end),
    }
}

// Sets a stream according to a hook's port. For a place the stream gets a duplicate of that end of
// the hook. The end that the stream had is closed; a `Given` port leaves the stream as it is.
pub(crate) fn redirect<S: System, H: Hook>(
    sys: &mut S,
    ends: &[S::End],
    port: Port,
    stream: &mut Stdio<S::End>,
) -> Result<(), Error>
    requires place { missing_at (length ends.now) port ≡ None }
    requires room { length (end_of stream.old) ≤ (S.journal_view sys.old).room }
    ensures ok { OnOk result (RedirectSucceeds {E = S.End}
        {H = H} H.allows S.End.number_of ends.now port (S.journal_view sys.old)
        (S.journal_view sys.new) (stream_of S.End.number_of stream.old)
        (stream_of S.End.number_of stream.new)) }
    ensures err { IfErr result (RedirectFails {E = S.End} {H = H} H.allows S.End.number_of ends.now
        (S.journal_view sys.old) (S.journal_view sys.new)) }
    ensures left { OnOk result (length (end_of stream.new) + (S.journal_view sys.old).room
        ≤ (S.journal_view sys.new).room + length (end_of stream.old)) }
    ensures kept { OnErr result (stream.new ≡ stream.old) }
{
    match port {
        Port::Given => Ok(()),
        Port::Inherit => {
            let_go::<S, H>(sys, replace(stream, Stdio::Inherit));
            Ok(())
        }
        Port::Null => {
            let_go::<S, H>(sys, replace(stream, Stdio::Null));
            Ok(())
        }
        Port::Place(place) => {
            let end = sys.duplicate(&ends[place])?;
            let_go::<S, H>(sys, replace(stream, Stdio::End(end)));
            Ok(())
        }
    }
}
