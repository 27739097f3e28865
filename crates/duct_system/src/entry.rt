//! What is read off an entry of a journal, and the name of a kind of fault.
ghost use Rattle.std.specs.Prelude.{◌≡◌, option_to_list};
ghost use Rattle.duct_system.specs.EntryView.{entry_view};
ghost use Rattle.duct_system.specs.Kinds.{kind_name};
ghost use Rattle.duct_system.specs.Ledger.{opened_by, spent_by};
ghost use Rattle.duct_system.specs.Streams.{end_of, ends_of, present};
ghost use Rattle.duct_system.specs.Trace.{fault_of, is_close};

use crate::system::{Entry, Fault, Kind, Stdio};

impl Entry {
    /// Returns the fault of the entry, if the system refused its request.
    pub fn fault(&self) -> Option<Fault>
        ensures { result ≡ fault_of (entry_view self.now) }
    {
        match self {
            Entry::Environment(Err(fault))
            | Entry::Pipe(Err(fault))
            | Entry::OpenRead(_, Err(fault))
            | Entry::Create(_, Err(fault))
            | Entry::Duplicate(_, Err(fault))
            | Entry::Parent(_, Err(fault))
            | Entry::Canonicalize(_, Err(fault))
            | Entry::Spawn(_, _, Err(fault))
            | Entry::Feed(_, _, Err(fault))
            | Entry::Drain(_, Err(fault)) => Some(*fault),
            Entry::Environment(Ok(_))
            | Entry::Pipe(Ok(_))
            | Entry::OpenRead(_, Ok(_))
            | Entry::Create(_, Ok(_))
            | Entry::Duplicate(_, Ok(_))
            | Entry::Parent(_, Ok(_))
            | Entry::Canonicalize(_, Ok(_))
            | Entry::Spawn(_, _, Ok(_))
            | Entry::Feed(_, _, Ok(()))
            | Entry::Drain(_, Ok(()))
            | Entry::Reader(_)
            | Entry::Close(_) => None,
        }
    }

    /// Returns the numbers of the ends that the request returned, in order.
    pub fn opened(&self) -> [Option<u64>; 2]
        ensures { present result ≡ opened_by (entry_view self.now) }
    {
        match self {
            Entry::Pipe(Ok((reader, writer))) => [Some(*reader), Some(*writer)],
            Entry::OpenRead(_, Ok(end))
            | Entry::Create(_, Ok(end))
            | Entry::Duplicate(_, Ok(end))
            | Entry::Parent(_, Ok(end)) => [Some(*end), None],
            Entry::Pipe(Err(_))
            | Entry::OpenRead(_, Err(_))
            | Entry::Create(_, Err(_))
            | Entry::Duplicate(_, Err(_))
            | Entry::Parent(_, Err(_))
            | Entry::Environment(_)
            | Entry::Canonicalize(_, _)
            | Entry::Spawn(_, _, _)
            | Entry::Feed(_, _, _)
            | Entry::Drain(_, _)
            | Entry::Reader(_)
            | Entry::Close(_) => [None, None],
        }
    }

    /// Returns the numbers of the ends that the request took, in order, whatever its result is.
    pub fn spent(&self) -> [Option<u64>; 3]
        ensures { present result ≡ spent_by (entry_view self.now) }
    {
        match self {
            Entry::Spawn(_, io, _) => ends_in(io),
            Entry::Feed(end, _, _)
            | Entry::Drain(end, _)
            | Entry::Reader(end)
            | Entry::Close(end) => [Some(*end), None, None],
            Entry::Environment(_)
            | Entry::Pipe(_)
            | Entry::OpenRead(_, _)
            | Entry::Create(_, _)
            | Entry::Duplicate(_, _)
            | Entry::Parent(_, _)
            | Entry::Canonicalize(_, _) => [None, None, None],
        }
    }

    /// Returns whether the entry is a close.
    pub fn is_close(&self) -> bool
        ensures { result ≡ is_close (entry_view self.now) }
    {
        matches!(self, Entry::Close(_))
    }
}

// Returns the number of the end of each stream that has one.
fn ends_in(io: &[Stdio<u64>; 3]) -> [Option<u64>; 3]
    ensures { present result ≡ ends_of io.now }
{
    let [input, output, error] = io;
    [end_in(input), end_in(output), end_in(error)]
}

// Returns the number of the end of a stream, if it has one.
fn end_in(stream: &Stdio<u64>) -> Option<u64>
    ensures { option_to_list result ≡ end_of stream.now }
{
    match stream {
        Stdio::Inherit | Stdio::Null => None,
        Stdio::End(end) => Some(*end),
    }
}

impl Kind {
    /// Returns the name of the kind, as in `NotFound`.
    pub fn name(self) -> &'static str
        ensures { result.now ≡ kind_name self }
    {
        match self {
            Kind::NotFound => "NotFound",
            Kind::PermissionDenied => "PermissionDenied",
            Kind::BrokenPipe => "BrokenPipe",
            Kind::WriteZero => "WriteZero",
            Kind::InvalidInput => "InvalidInput",
            Kind::Unsupported => "Unsupported",
            Kind::OutOfMemory => "OutOfMemory",
            Kind::Other => "Other",
        }
    }
}
