//! A writer that hides secrets.
ghost use Rattle.std.specs.Prelude.{◌≡◌, ◌∷◌, ◌++◌, [], ◌≤◌, true, None, IfOk, OnErr, OnOk, ◌&&◌, length, map, nat_eq, nat_lt, not};
ghost use Rattle.std.specs.Io.{WritesAtMost};
ghost use Rattle.std.specs.Io.KnownBytes.{Appends, Keeps, WriteAppends};
ghost use Rattle.std.specs.List.{starts_with};
ghost use Rattle.duct_base.specs.Transfer.{AppendsFront};
ghost use Rattle.duct_words.specs.Hidden.{Hides, IsHeld, Passes, PassesFront, hidden, is_begun, longest};

use duct_base::watched::Watched;
use std::alloc::{AllocError, Global};
use std::convert::AsStr;
use std::io;
use std::io::Write;

/// A writer over another one that replaces each secret by `***`: for traces, failures and logs. It
/// replaces the first secret from the left, and of those that begin at one byte the longest; a
/// secret inside of a replaced one isn't looked for. An empty secret is ignored. Only the exact
/// bytes of a secret are found: no quoted, escaped or encoded form of it.
///
/// A secret is found too where it is written in pieces: what may be its beginning is held back
/// until more is written, also over a `flush`. At the end, call `finish`, which writes what is held
/// back: where the writer is dropped without it, these bytes are lost. They are fewer than those of
/// the longest secret.
///
/// It keeps the allocator that it was made with. It blocks while the writer below does.
#[derive(Drop)]
pub struct Redacted<'s, T, W> {
    alloc: Global,
    secrets: &'s [T],
    /// The writer below. What is written to it directly is not looked at.
    pub writer: W,
    held: Vec<u8>,
}

impl<'s, T, W> Redacted<'s, T, W> {
    /// Hides these secrets in what is written to this writer. It writes nothing.
    ///
    /// Example: `let mut log = Redacted::new(alloc, &[token], rt.stderr());`
    pub fn new(alloc: Global, secrets: &'s [T], writer: W) -> Redacted<'s, T, W>
        ensures secrets { result.secrets.now ≡ secrets.entry.now }
        ensures writer { result.writer ≡ writer }
        ensures held { result.held.items ≡ [] }
    {
        Redacted {
            alloc,
            secrets,
            writer,
            held: Vec::new(alloc),
        }
    }
}

impl<T: AsStr, W: Write> Redacted<'_, T, W> {
    /// Writes what is held back. A secret that has only begun is written as it is. Nothing is held
    /// back then, and the writer may go on.
    ///
    /// Fails with an error of the writer below, which may have got a front of it, and with
    /// `OutOfMemory` at an allocation failure. The same is then still held back.
    ///
    /// Example: `log.finish()?`
    pub fn finish(&mut self) -> io::Result<()>
        ensures secrets { self.new.secrets.now ≡ self.old.secrets.now }
        ensures ok { OnOk result (Appends (W.contents self.old.writer) (W.contents self.new.writer)
            (hidden (map T.text self.old.secrets.now) self.old.held.items)) }
        ensures front { AppendsFront (W.contents self.old.writer) (W.contents self.new.writer)
            (hidden (map T.text self.old.secrets.now) self.old.held.items) }
        ensures held { OnOk result (self.new.held.items ≡ []) }
        ensures err { OnErr result (self.new.held.items ≡ self.old.held.items) }
    {
        let mut all = Vec::new(self.alloc);
        let _ = push_hidden(&mut all, self.secrets, self.held.as_slice(), true)?;
        write_front(&mut self.writer, all.as_slice())?;
        self.held.clear();
        Ok(())
    }
}

/// Each write takes all bytes. One that fails takes none, and leaves what is held back as it was;
/// the writer below may have got a front of what it was to get, in which secrets are hidden.
impl<T: AsStr, W: Write> Write for Redacted<'_, T, W> {
    fn write(&mut self, buf: &[u8]) -> io::Result<usize>
        ensures bound { WritesAtMost result buf.now }
        ensures bytes { WriteAppends None None result buf.now }
        ensures all { IfOk result (λ taken. taken ≡ length buf.now) }
        ensures ok { OnOk result (Passes (map T.text self.old.secrets.now)
            (W.contents self.old.writer) (W.contents self.new.writer)
            self.old.held.items buf.now self.new.held.items) }
        ensures front { PassesFront (map T.text self.old.secrets.now)
            (W.contents self.old.writer) (W.contents self.new.writer)
            self.old.held.items buf.now }
        ensures err { OnErr result (self.new.held.items ≡ self.old.held.items) }
        ensures secrets { self.new.secrets.now ≡ self.old.secrets.now }
    {
        let mut bytes = Vec::new(self.alloc);
        bytes.extend_from_slice(self.held.as_slice())?;
        bytes.extend_from_slice(buf)?;
        let mut shown = Vec::new(self.alloc);
        let rest = push_hidden(&mut shown, self.secrets, bytes.as_slice(), false)?;
        let mut held = Vec::new(self.alloc);
        held.extend_from_slice(rest)?;
        write_front(&mut self.writer, shown.as_slice())?;
        self.held = held;
        Ok(buf.len())
    }

    /// Flushes the writer below. What is held back stays so.
    fn flush(&mut self) -> io::Result<()>
        ensures kept { Keeps (W.contents self.old.writer) (W.contents self.new.writer) }
        ensures held { self.new.held.items ≡ self.old.held.items }
        ensures secrets { self.new.secrets.now ≡ self.old.secrets.now }
    {
        self.writer.flush()
    }
}

// Writes all of these bytes, in order. Where it fails, it wrote a front of them.
fn write_front<W: Write>(writer: &mut W, bytes: &[u8]) -> io::Result<()>
    ensures ok { OnOk result (Appends (W.contents writer.old) (W.contents writer.new) bytes.now) }
    ensures front { AppendsFront (W.contents writer.old) (W.contents writer.new) bytes.now }
{
    let mut watched = Watched::new(&mut *writer);
    let mut rest = bytes;
    while !rest.is_empty() {
        let taken = watched.write(rest)?;
        rest = &rest[taken..];
    }
    Ok(())
}

// Adds bytes with the secrets hidden, and returns the rest of them, which may be the beginning of a
// secret; at the end there is none.
fn push_hidden<'b, T: AsStr>(
    shown: &mut Vec<u8>,
    secrets: &[T],
    bytes: &'b [u8],
    at_end: bool,
) -> Result<&'b [u8], AllocError>
    ensures hides { IfOk result (λ rest. (others : _) → (at_end ≡ true → others ≡ [])
        → shown.old.items ++ hidden (map T.text secrets.now) (bytes.entry.now ++ others)
        ≡ shown.new.items ++ hidden (map T.text secrets.now) (rest.now ++ others)) }
    ensures held { IfOk result (λ rest. IsHeld (map T.text secrets.now) rest.now) }
    ensures end { IfOk result (λ rest. at_end ≡ true → rest.now ≡ []) }
{
    let mut rest = bytes;
    while let Some((first, others)) = rest.split_first() {
        if may_grow(secrets, rest, at_end) {
            return Ok(rest);
        }
        let found = longest(secrets, rest);
        if found == 0 {
            shown.push(*first)?;
            rest = others;
        } else {
            shown.extend_from_slice(b"***")?;
            rest = rest.split_at(found).1;
        }
    }
    Ok(rest)
}

// Whether bytes that may follow make a secret of these.
fn may_grow<T: AsStr>(secrets: &[T], bytes: &[u8], at_end: bool) -> bool
    ensures { result ≡ (not at_end && is_begun (map T.text secrets.now) bytes.now) }
{
    !at_end && is_begun(secrets, bytes)
}

// Whether bytes are the beginning of a secret, and not all of it.
fn is_begun<T: AsStr>(secrets: &[T], bytes: &[u8]) -> bool
    ensures { result ≡ is_begun (map T.text secrets.now) bytes.now }
{
    for secret in secrets {
        if begins(bytes, secret.as_str().as_bytes()) {
            return true;
        }
    }
    false
}

// Whether bytes are the beginning of this secret, and not all of it.
fn begins(bytes: &[u8], secret: &[u8]) -> bool
    ensures { result ≡ (nat_lt (length bytes.now) (length secret.now)
        && starts_with nat_eq secret.now bytes.now) }
{
    bytes.len() < secret.len() && secret.starts_with(bytes)
}

// The length of the longest secret that bytes begin with, or 0.
fn longest<T: AsStr>(secrets: &[T], bytes: &[u8]) -> usize
    ensures value { result ≡ longest (map T.text secrets.now) bytes.now }
    ensures within { result ≤ length bytes.now }
{
    let mut found = 0;
    for secret in secrets {
        let secret = secret.as_str().as_bytes();
        if bytes.starts_with(secret) {
            found = secret.len().max(found);
        }
    }
    found
}
