//! The journal of a system: its entries, the room for more entries, and the count of numbers.
ghost use Rattle.std.specs.Prelude.{◌≡◌, ◌+◌, ◌-◌, ◌^◌, ◌<◌, ◌≤◌, [], ◌∷◌, ◌++◌, map, min, string_bytes, IfSome, IfNone, OnSome, IfOk, OnOk, OnErr, IfErr};
ghost use Rattle.duct_system.specs.EntryView.{entry_view};
ghost use Rattle.duct_system.specs.declared.system.Kind.TheVariants.{OutOfMemory};

use crate::system::{Entry, Fault, Kind};
use std::alloc::Global;
use std::marker::Model;

/// The entries of a system, in the order in which they were added. Room is reserved before a
/// request is made, so that no entry is lost: `prepare` reserves it, `add` uses it, and `give_back`
/// releases what isn't needed.
#[derive(Drop)]
pub struct Journal {
    entries: Vec<Entry>,
    added: u64,
    next: u64,
    room: usize,
}

impl Model for Journal {
    ghost use Rattle.std.specs.Prelude.{◌+◌, ◌<◌, ◌≤◌, ◌^◌, map, vec_len, vec_capacity};
    ghost use Rattle.duct_system.specs.EntryView.{entry_view};
    ghost use Rattle.duct_system.specs.Journal.{JournalView};

    ghost Value = { JournalView };

    ghost view = { λ j. record {
      entries = map entry_view j.entries.items;
      added = j.added;
      next = j.next;
      room = j.room;
    } };

    ghost invariant = { λ j.
        (vec_len j.entries + j.room ≤ vec_capacity j.entries) × (j.added + j.room < 2 ^ 64) };
}

impl Journal {
    /// Returns an empty journal with no room, whose first number is 1.
    pub fn new(alloc: Global) -> Journal
        ensures { result ≡ record { entries = []; added = 0; next = 1; room = 0 } }
    {
        Journal {
            entries: Vec::new(alloc),
            added: 0,
            next: 1,
            room: 0,
        }
    }

    /// Returns the allocator of the entries.
    pub fn allocator(&self) -> Global {
        *self.entries.allocator()
    }

    /// Returns how many entries were ever added, also those that were cleared.
    pub fn added(&self) -> u64
        ensures { result ≡ self.now.added }
    {
        self.added
    }

    /// Returns how many more entries can be added without an allocation.
    pub fn room(&self) -> usize
        ensures { result ≡ self.now.room }
    {
        self.room
    }

    /// Reserves room for one entry and for this many more. Fails with `OutOfMemory` if the
    /// allocation fails, or if that many entries can't be counted. The journal is then as it was.
    pub fn prepare(&mut self, ends: usize) -> Result<(), Fault>
        ensures ok { OnOk result (self.new ≡ record self.old { room = self.old.room + ends + 1 }) }
        ensures err { IfErr result (λ fault. fault.kind ≡ OutOfMemory) }
        ensures unchanged { OnErr result (self.new ≡ self.old) }
    {
        match self.room_with(ends) {
            Some(room) if self.entries.reserve(room).is_ok() => {
                self.room = room;
                Ok(())
            }
            _ => Err(Fault::new(Kind::OutOfMemory)),
        }
    }

    /// Reserves room as `prepare` does, and returns a copy of the path that the entry names. Fails
    /// as `prepare` does, and with `OutOfMemory` if there is no memory for the copy. The journal is
    /// then as it was.
    pub fn prepare_named(&mut self, path: &str, ends: usize) -> Result<String, Fault>
        ensures ok { IfOk result (λ kept. (string_bytes kept ≡ path.now)
            × (self.new ≡ record self.old { room = self.old.room + ends + 1 })) }
        ensures err { IfErr result
            (λ fault. (fault.kind ≡ OutOfMemory) × (self.new ≡ self.old)) }
    {
        let Ok(kept) = String::from_str(self.allocator(), path) else {
            return Err(Fault::new(Kind::OutOfMemory));
        };
        self.prepare(ends)?;
        Ok(kept)
    }

    /// Leaves room for the entry of a spawn that takes this many ends: releases the room of the
    /// other ends, or reserves it if there are none. Fails only in the latter case, as `prepare`
    /// does. The journal is then as it was.
    pub fn prepare_spawn(&mut self, ends: usize) -> Result<(), Fault>
        requires { min 1 ends ≤ self.old.room }
        ensures ok { OnOk result
            (self.new ≡ record self.old { room = (self.old.room - ends) + 1 }) }
        ensures err { IfErr result
            (λ fault. (fault.kind ≡ OutOfMemory) × (self.new ≡ self.old) × (ends ≡ 0)) }
    {
        match ends.checked_sub(1) {
            None => self.prepare(0),
            Some(others) => {
                let spare = others.min(self.room - 1);
                self.give_back(spare);
                Ok(())
            }
        }
    }

    // Returns the room plus one entry and this many ends, or `None` if that many entries can't be
    // counted.
    fn room_with(&self, ends: usize) -> Option<usize>
        ensures { IfSome result
            (λ room. (room ≡ self.now.room + ends + 1) × (self.now.added + room < 2 ^ 64)) }
    {
        let room = self.room.checked_add(ends)?.checked_add(1)?;
        let _ = self.added.checked_add(room as u64)?;
        Some(room)
    }

    /// Adds an entry, in the room that was reserved for it.
    pub fn add(&mut self, entry: Entry)
        requires { 0 < self.old.room }
        ensures { self.new ≡ record self.old {
          entries = self.old.entries ++ entry_view entry ∷ [];
          added = self.old.added + 1;
          room = self.old.room - 1;
        } }
    {
        self.room -= 1;
        self.added += 1;
        self.entries.push_reserved(entry);
    }

    /// Releases the room for this many entries.
    pub fn give_back(&mut self, ends: usize)
        requires { ends ≤ self.old.room }
        ensures { self.new ≡ record self.old { room = self.old.room - ends } }
    {
        self.room -= ends;
    }

    /// Returns the result of a request for an end. If it failed, releases the room for the end.
    pub fn got<T>(&mut self, made: Result<T, Fault>) -> Result<T, Fault>
        requires { 0 < self.old.room }
        ensures same { result ≡ made }
        ensures ok { OnOk result (self.new ≡ self.old) }
        ensures err { OnErr result (self.new ≡ record self.old { room = self.old.room - 1 }) }
    {
        if made.is_err() {
            self.give_back(1);
        }
        made
    }

    /// Returns the number that is given next.
    pub fn next(&self) -> u64
        ensures { result ≡ self.now.next }
    {
        self.next
    }

    /// Takes this many consecutive numbers and returns the first of them. If fewer are left, it
    /// returns `None` and takes none.
    pub fn take_numbers(&mut self, count: u64) -> Option<u64>
        ensures some { IfSome result (λ first.
            (first ≡ self.old.next)
            × (self.new ≡ record self.old { next = self.old.next + count })) }
        ensures fits { OnSome result (self.new.next < 2 ^ 64) }
        ensures none { IfNone result ((self.new ≡ self.old) × (2 ^ 64 ≤ self.old.next + count)) }
    {
        let first = self.next;
        self.next = first.checked_add(count)?;
        Some(first)
    }

    /// Returns the entries so far, oldest first.
    pub fn entries(&self) -> &[Entry]
        ensures { map entry_view result.now ≡ self.now.entries }
    {
        self.entries.as_slice()
    }

    /// Removes all entries. The room and the counts stay.
    pub fn clear(&mut self)
        ensures { self.new ≡ record self.old { entries = [] } }
    {
        self.entries.clear();
    }
}
