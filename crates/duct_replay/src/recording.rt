//! What a replay answers from.
ghost use Rattle.std.specs.Prelude.{◌≡◌, [], ◌∷◌, ◌++◌, map, IfOk, IfErr, OnOk, OnErr, option_copied, option_map};
ghost use Rattle.duct_system.specs.EntryView.{entry_view};
ghost use Rattle.duct_replay.specs.RecordingView.{RecordingView, bytes_of, listed, no_memory, output_of, status_of};

use crate::found::no_memory;
use duct_system::system::{Entry, ExitStatus, Fault};
use std::alloc::{AllocError, Global};
use std::marker::Model;
use std::sync::Arc;

/// The journal of a system from its first entry, with what no journal has: how its children ended,
/// and which bytes were read from its ends.
#[derive(Drop)]
pub struct Recording {
    entries: Vec<Entry>,
    endings: Vec<(u64, ExitStatus)>,
    outputs: Vec<(u64, Arc<Vec<u8>>)>,
}

impl Model for Recording {
    ghost Value = { RecordingView };

    ghost view = { λ r. record {
      entries = map entry_view r.entries.items;
      endings = r.endings.items;
      outputs = r.outputs.items;
    } };
}

impl Recording {
    /// Returns the recording with these entries, in which nothing is recorded yet of how children
    /// ended and of what was read.
    pub fn new(alloc: Global, entries: Vec<Entry>) -> Recording
        ensures { result
            ≡ record { entries = map entry_view entries.items; endings = []; outputs = [] } }
    {
        Recording {
            entries,
            endings: Vec::new(alloc),
            outputs: Vec::new(alloc),
        }
    }

    /// Adds an entry behind the others. Fails at an allocation failure, and leaves the recording as
    /// it was.
    pub fn push_entry(&mut self, entry: Entry) -> Result<(), AllocError>
        ensures ok { OnOk result (self.new ≡ record self.old {
          entries = self.old.entries ++ entry_view entry ∷ [];
        }) }
        ensures err { OnErr result (self.new ≡ self.old) }
    {
        Ok(self.entries.push(entry)?)
    }

    /// Sets how the child with this number ended. Only the first call for a number counts. Fails at
    /// an allocation failure, and leaves the recording as it was.
    pub fn ends_with(&mut self, number: u64, status: ExitStatus) -> Result<(), AllocError>
        ensures ok { OnOk result (self.new ≡ record self.old {
          endings = self.old.endings ++ (number, status) ∷ [];
        }) }
        ensures err { OnErr result (self.new ≡ self.old) }
    {
        Ok(self.endings.push((number, status))?)
    }

    /// Sets what a reader or a worker reads of the end with this number. Only the first call for a
    /// number counts. Fails at an allocation failure, and leaves the recording as it was.
    pub fn reads(&mut self, number: u64, bytes: Arc<Vec<u8>>) -> Result<(), AllocError>
        ensures ok { OnOk result (self.new ≡ record self.old {
          outputs = self.old.outputs ++ (number, bytes) ∷ [];
        }) }
        ensures err { OnErr result (self.new ≡ self.old) }
    {
        Ok(self.outputs.push((number, bytes))?)
    }

    /// Returns the entries, oldest first.
    pub fn entries(&self) -> &[Entry]
        ensures { map entry_view result.now ≡ self.now.entries }
    {
        self.entries.as_slice()
    }

    /// Returns the entries, oldest first, without the rest.
    pub fn into_entries(self) -> Vec<Entry>
        ensures { map entry_view result.items ≡ self.entries }
    {
        let Recording { entries, .. } = self;
        entries
    }

    /// Returns the numbers of children with the exit statuses that were set, in their order.
    pub fn endings(&self) -> &[(u64, ExitStatus)]
        ensures { result.now ≡ self.now.endings }
    {
        self.endings.as_slice()
    }

    /// Returns the numbers of ends with the bytes that were set, in their order.
    pub fn outputs(&self) -> &[(u64, Arc<Vec<u8>>)]
        ensures { result.now ≡ self.now.outputs }
    {
        self.outputs.as_slice()
    }

    /// Returns how the child with this number ended, or `None` if that isn't recorded.
    pub fn status(&self, number: u64) -> Option<ExitStatus>
        ensures { result ≡ status_of number self.now }
    {
        listed(self.endings.as_slice(), number).copied()
    }

    /// Returns what was read of the end with this number, or `None` if that isn't recorded. Fails
    /// only with `OutOfMemory`, where the bytes can have no further owner.
    pub fn output(&self, number: u64) -> Result<Option<Arc<Vec<u8>>>, Fault>
        ensures ok { IfOk result (λ found. option_map bytes_of found ≡ output_of number self.now) }
        ensures err { IfErr result (λ fault. fault ≡ no_memory) }
    {
        match listed(self.outputs.as_slice(), number) {
            Some(bytes) => Ok(Some(Arc::try_clone(bytes).map_err(|_| no_memory())?)),
            None => Ok(None),
        }
    }
}

/// Returns what stands first for a number, if something does.
pub(crate) fn listed<T>(pairs: &[(u64, T)], number: u64) -> Option<&T>
    ensures { option_copied result ≡ listed number pairs.now }
{
    let (pair, rest) = pairs.split_first()?;
    if pair.0 == number {
        Some(&pair.1)
    } else {
        listed(rest, number)
    }
}
