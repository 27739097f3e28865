//! The readers of a scripted system.
ghost use Rattle.std.specs.Prelude.{◌≡◌, ◌<◌, ◌≤◌, ◌-◌, min, [], ◌++◌, take, drop, length, vec_len, Some, None, IfOk};
ghost use Rattle.duct_script.specs.Answers.{step_of};

use crate::gate::Gate;
use std::alloc::Global;
use std::collections::VecDeque;
use std::io;
use std::io::{ErrorKind, Read};

/// What a read does.
#[derive(Clone, Copy, Drop)]
pub enum ReadStep {
    /// It returns a piece of this length, or less if the buffer or the bytes are shorter. The reads
    /// that follow return the rest of the piece. A piece of 0 bytes counts as one of 1 byte.
    Piece(usize),
    /// It fails with an error of this kind.
    Fault(ErrorKind),
}

/// The bytes that a reader returns, and what its reads do. After the last step, a read returns all
/// that is left, as far as its buffer holds it.
#[derive(Drop)]
pub struct ReaderScript {
    pub bytes: Vec<u8>,
    pub steps: VecDeque<ReadStep>,
    /// A gate at which each read waits, for at most `MOST_LOOKS` checks.
    pub gate: Option<Gate>,
}

impl ReaderScript {
    /// Returns the script of a reader with no bytes.
    pub fn empty(alloc: Global) -> ReaderScript
        ensures bytes { result.bytes.items ≡ [] }
        ensures steps { result.steps.items ≡ [] }
        ensures gate { result.gate ≡ None }
    {
        ReaderScript {
            bytes: Vec::new(alloc),
            steps: VecDeque::new(alloc),
            gate: None,
        }
    }
}

/// A reader whose bytes come from a list.
#[derive(Drop)]
pub struct ScriptReader {
    number: u64,
    bytes: Vec<u8>,
    given: usize,
    steps: VecDeque<ReadStep>,
    gate: Option<Gate>,
    ghost within: { given ≤ vec_len bytes },
}

impl ScriptReader {
    /// Returns the reader of the end with this number, before anything is read.
    pub fn new(number: u64, script: ReaderScript) -> ScriptReader
        ensures number { result.number ≡ number }
        ensures bytes { result.bytes ≡ script.bytes }
        ensures given { result.given ≡ 0 }
        ensures steps { result.steps ≡ script.steps }
        ensures gate { result.gate ≡ script.gate }
    {
        let ReaderScript { bytes, steps, gate } = script;
        ScriptReader {
            number,
            bytes,
            given: 0,
            steps,
            gate,
        }
    }

    /// Takes the next step. Returns the most bytes that the read may return, which is at least 1,
    /// or the kind of its error.
    fn step(&mut self) -> Result<usize, ErrorKind>
        ensures told { result ≡ step_of self.old.steps.items }
        ensures most { IfOk result (λ most. 0 < most) }
        ensures steps { self.new.steps.items ≡ drop 1 self.old.steps.items }
        ensures bytes { self.new.bytes ≡ self.old.bytes }
        ensures given { self.new.given ≡ self.old.given }
    {
        match self.steps.pop_front() {
            Some(ReadStep::Piece(length)) => Ok(length.max(1)),
            Some(ReadStep::Fault(kind)) => Err(kind),
            None => Ok(usize::MAX),
        }
    }

    /// Copies bytes into the buffer, at most `most`, and returns how many.
    fn give(&mut self, buf: &mut [u8], most: usize) -> usize
        requires { 0 < most }
        ensures count { result
            ≡ min most (min (length buf.new) (vec_len self.old.bytes - self.old.given)) }
        ensures within { result ≤ length buf.new }
        ensures most { result ≤ most }
        ensures bytes { drop self.old.given self.old.bytes.items ≡ take result buf.new
            ++ drop self.new.given self.new.bytes.items }
        ensures end { result ≡ 0 → 0 < length buf.new
            → drop self.new.given self.new.bytes.items ≡ [] }
    {
        let bytes = &self.bytes.as_slice()[self.given..];
        let count = most.min(buf.len().min(bytes.len()));
        let (front, _) = buf.split_at_mut(count);
        front.copy_from_slice(&bytes[..count]);
        self.given += count;
        count
    }

    /// Puts the rest of a piece back before the steps that follow, if bytes are left.
    fn put_back(&mut self, length: usize)
        ensures bytes { self.new.bytes ≡ self.old.bytes }
        ensures given { self.new.given ≡ self.old.given }
    {
        if length > 0 && self.given < self.bytes.len() {
            let _ = self.steps.push_front(ReadStep::Piece(length));
        }
    }
}

impl Read for ScriptReader {
    ghost remaining = { λ r. Some (drop r.given r.bytes.items) };

    fn read(&mut self, buf: &mut [u8]) -> io::Result<usize> {
        if let Some(gate) = &self.gate {
            let _ = gate.pass();
        }
        let most = self.step()?;
        let count = self.give(buf, most);
        self.put_back(most - count);
        Ok(count)
    }
}
