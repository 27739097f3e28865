//! Parts of the lines of tables, and the names of streams and of kinds of faults.
use crate::stop::TableError;
use duct_base::spec::Stream;
use duct_base::system::Fault;
use std::alloc::{AllocError, Global};
use std::io::{self, ErrorKind};
use std::sync::Arc;
use std::time::Duration;

/// Splits a text at its first space. Without a space, the second part is empty.
pub fn first_word(text: &str) -> (&str, &str) {
    text.split_once(' ').unwrap_or((text, ""))
}

/// Splits a text at its commas. An empty text has no pieces. Fails on an allocation failure.
pub fn pieces(alloc: Global, text: &str) -> Result<Vec<&str>, AllocError> {
    if text.is_empty() {
        return Ok(Vec::new(alloc));
    }
    text.split(',').collect(alloc)
}

/// Returns the arguments in a text, separated by spaces. In them `_` is a space, and `~` is an
/// empty argument. Fails on an allocation failure.
pub fn arguments(alloc: Global, text: &str) -> Result<Vec<String>, AllocError> {
    let mut args = Vec::new(alloc);
    for word in text.split_whitespace() {
        let argument = word.replace(alloc, "_", " ")?;
        args.push(argument.as_str().replace(alloc, "~", "")?)?;
    }
    Ok(args)
}

/// Returns copies of the parts of a text between commas. Fails on an allocation failure.
pub fn texts(alloc: Global, text: &str) -> Result<Arc<Vec<String>>, AllocError> {
    let mut texts = Vec::new(alloc);
    for part in text.split(',') {
        texts.push(String::from_str(alloc, part)?)?;
    }
    Ok(Arc::new(alloc, texts)?)
}

/// Returns the pairs of names and values in a text: `A:1,B:2`. Pieces without a colon are skipped.
/// Fails on an allocation failure.
pub fn pairs(alloc: Global, text: &str) -> Result<Vec<(&str, &str)>, AllocError> {
    let mut pairs = Vec::new(alloc);
    for piece in text.split(',') {
        if let Some(pair) = piece.split_once(':') {
            pairs.push(pair)?;
        }
    }
    Ok(pairs)
}

/// Why a name is refused.
const UNKNOWN: TableError = TableError::Text("no such name");

/// Returns the stream with this name: `in`, `out` or `err`. Fails for any other name.
pub fn stream(name: &str) -> Result<Stream, TableError> {
    match name {
        "in" => Ok(Stream::In),
        "out" => Ok(Stream::Out),
        "err" => Ok(Stream::Err),
        _ => Err(UNKNOWN),
    }
}

/// Returns a fault of the kind with this name. Fails if there is no such kind.
pub fn fault(kind: &str) -> Result<Fault, TableError> {
    Ok(Fault::from(io::Error::from(error_kind(kind)?)))
}

/// Returns the kind of errors with this name. Fails if there is none.
pub fn error_kind(name: &str) -> Result<ErrorKind, TableError> {
    match name {
        "NotFound" => Ok(ErrorKind::NotFound),
        "PermissionDenied" => Ok(ErrorKind::PermissionDenied),
        "BrokenPipe" => Ok(ErrorKind::BrokenPipe),
        "WriteZero" => Ok(ErrorKind::WriteZero),
        "InvalidInput" => Ok(ErrorKind::InvalidInput),
        "Unsupported" => Ok(ErrorKind::Unsupported),
        "OutOfMemory" => Ok(ErrorKind::OutOfMemory),
        "Interrupted" => Ok(ErrorKind::Interrupted),
        "Other" => Ok(ErrorKind::Other),
        _ => Err(UNKNOWN),
    }
}

/// Reads a duration: `0`, `5s`, `1ns`, or `most` for the greatest.
pub fn duration(text: &str) -> Result<Duration, TableError> {
    if text == "most" {
        return Ok(Duration::MAX);
    }
    match text.strip_suffix("ns") {
        Some(count) => Ok(Duration::from_nanos(count.parse()?)),
        None => Ok(Duration::from_secs(text.strip_suffix('s').unwrap_or(text).parse()?)),
    }
}

/// Reads for how long an expression may run, and its grace: `5s 2s`. An empty text has no limits.
pub fn limits(text: &str) -> Result<Option<(Duration, Duration)>, TableError> {
    if text.is_empty() {
        return Ok(None);
    }
    let (limit, grace) = first_word(text);
    Ok(Some((duration(limit)?, duration(grace)?)))
}
