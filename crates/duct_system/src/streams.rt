//! The streams of a child, and what a request returned, by their numbers.
ghost use Rattle.std.specs.Prelude.{◌≡◌, ◌≤◌, length, map};
ghost use Rattle.duct_system.specs.EntryView.{answer_of};
ghost use Rattle.duct_system.specs.Streams.{StreamsFit, stream_of, end_of, ends_of};

use crate::system::{Fault, Numbered, Stdio};

/// Returns the streams with their ends' numbers in place of the ends, and how many ends they have.
pub fn numbered_streams<E: Numbered>(io: &[Stdio<E>; 3]) -> ([Stdio<u64>; 3], usize)
    requires { StreamsFit E.row }
    ensures streams { result.0 ≡ map (stream_of E.number_of) io.now }
    ensures ends { result.1 ≡ length (ends_of io.now) }
{
    let [input, output, error] = io;
    let (input, first) = numbered(input);
    let (output, second) = numbered(output);
    let (error, third) = numbered(error);
    ([input, output, error], first + second + third)
}

// Returns the stream with its end's number in place of the end, and how many ends it has.
fn numbered<E: Numbered>(stream: &Stdio<E>) -> (Stdio<u64>, usize)
    ensures stream { result.0 ≡ stream_of E.number_of stream.now }
    ensures ends { result.1 ≡ length (end_of stream.now) }
    ensures one { result.1 ≤ 1 }
{
    match stream {
        Stdio::Inherit => (Stdio::Inherit, 0),
        Stdio::Null => (Stdio::Null, 0),
        Stdio::End(end) => (Stdio::End(end.number()), 1),
    }
}

/// Returns the number of the end or child that a request returned, or its fault.
pub fn number_of<T: Numbered>(made: &Result<T, Fault>) -> Result<u64, Fault>
    ensures { result ≡ answer_of T.number_of made.now }
{
    match made {
        Ok(it) => Ok(it.number()),
        Err(fault) => Err(*fault),
    }
}
