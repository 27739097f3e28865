//! Feeds, drains and writers that hide secrets, over a stream that follows the words of a script.
use crate::parts::Parts;
use duct::Error;
use duct_base::system::{Fault, Kind};
use duct_base::transfer::{drain, feed};
use duct_words::Redacted;
use rows_table::{TableError, error_kind, first_word};
use std::alloc::{AllocError, Global};
use std::io::{self, ErrorKind, Read, Write};

/// Adds the result of a feed or of a drain, and the bytes that it moved, or their number if there
/// are many. Fails if other bytes were moved.
pub fn push(text: &mut String, row: &Parts, call: &str, script: &str) -> Result<(), TableError> {
    let all = all(row.alloc, row.text("bytes").parse().unwrap_or(3))?;
    let mut stream = WordStream {
        script,
        taken: Vec::new(row.alloc),
        left: all.as_slice(),
    };
    let done = moved_by(row.alloc, call, &mut stream, all.as_slice());
    push_moved(text, done, stream.taken.as_slice(), all.as_slice())
}

/// Feeds all bytes to a stream, or drains it, and keeps in it what it read.
fn moved_by(alloc: Global, call: &str, stream: &mut WordStream, all: &[u8]) -> Result<(), Fault> {
    if call == "fed" {
        return feed(stream, all);
    }
    let bytes = drain(alloc, &mut *stream)?;
    stream.taken = bytes;
    Ok(())
}

/// Adds a result, and the moved bytes or their number.
fn push_moved(
    text: &mut String,
    done: Result<(), Fault>,
    moved: &[u8],
    all: &[u8],
) -> Result<(), TableError> {
    if !all.starts_with(moved) {
        return Err(TableError::Text("other bytes were moved"));
    }
    match done {
        Ok(()) => text.push_str("Ok ")?,
        Err(fault) if fault == Fault::new(Kind::OutOfMemory) => return Err(TableError::from(fault)),
        Err(fault) => write!(text, "{:?} ", fault.kind)?,
    }
    match str::from_utf8(moved) {
        Ok(few) if few.len() <= 10 => Ok(text.push_str(few)?),
        _ => Ok(write!(text, "{} bytes", moved.len())?),
    }
}

/// Adds the results of writes of the pieces of a row, and of the end, by a writer that hides the
/// secrets of the row, and what the writer below got.
pub fn push_hidden(text: &mut String, row: &Parts, script: &str) -> Result<(), TableError> {
    let secrets: Vec<&str> = row.text("secrets").split(' ').collect(row.alloc)?;
    let below = WordStream {
        script,
        taken: Vec::new(row.alloc),
        left: &[],
    };
    let mut log = Redacted::new(row.alloc, secrets.as_slice(), below);
    for piece in row.text("pieces").split('|') {
        push_result(text, log.write(piece.as_bytes()).err())?;
    }
    push_result(text, log.finish().err())?;
    let got = str::from_utf8(log.writer.taken.as_slice()).unwrap_or("");
    Ok(write!(text, "{got:?}")?)
}

/// Adds the kind of an error, or `Ok` if there is none.
fn push_result(text: &mut String, error: Option<io::Error>) -> Result<(), TableError> {
    match error.map(|error| error.kind()) {
        None => Ok(text.push_str("Ok ")?),
        Some(ErrorKind::OutOfMemory) => Err(TableError::Error(Error::Memory)),
        Some(kind) => Ok(write!(text, "{kind:?} ")?),
    }
}

/// So many bytes, which begin with `abc`.
fn all(alloc: Global, count: usize) -> Result<Vec<u8>, AllocError> {
    let mut bytes = Vec::with_capacity(alloc, count)?;
    for place in 0..count {
        bytes.push((97 + place % 151) as u8)?;
    }
    Ok(bytes)
}

/// A writer, and a reader.
#[derive(Drop)]
struct WordStream<'a> {
    /// The words of the calls that follow.
    script: &'a str,
    /// The bytes that were written.
    taken: Vec<u8>,
    /// The bytes that are not read yet.
    left: &'a [u8],
}

impl WordStream<'_> {
    /// Returns the most bytes that the next call moves, or its error.
    fn next(&mut self) -> io::Result<usize> {
        let (word, rest) = first_word(self.script);
        self.script = rest;
        match word.parse() {
            Ok(count) => Ok(count),
            Err(_) if word.is_empty() => Ok(usize::MAX),
            Err(_) => Err(io::Error::from(error_kind(word).unwrap_or(ErrorKind::Other))),
        }
    }
}

impl Write for WordStream<'_> {
    fn write(&mut self, buf: &[u8]) -> io::Result<usize> {
        let count = self.next()?.min(buf.len());
        self.taken.extend_from_slice(&buf[..count])?;
        Ok(count)
    }

    fn flush(&mut self) -> io::Result<()> {
        Ok(())
    }
}

impl Read for WordStream<'_> {
    fn read(&mut self, buf: &mut [u8]) -> io::Result<usize> {
        let count = self.next()?.min(buf.len());
        self.left.read(&mut buf[..count])
    }
}
