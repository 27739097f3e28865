//! What the programs share: how they read their arguments and their input, and how they end where
//! they can't do their work.
ghost use Rattle.std.specs.Prelude.{◌≡◌, ◌≢◌, ◌⊎◌, ℕ, List, ◌∷◌, codes, drop, map, string_bytes, None, IfErr, IfOk, IfSome};
ghost use Rattle.std.specs.Io.KnownBytes.{Appends, IsAtEnd};
ghost use Rattle.std.specs.Vec.Iter.{into_iter_items};

use std::alloc::{AllocError, Global};
use std::io::{ErrorKind, Read, Write};
use std::rt::Files;
use std::{env, fs, io};

/// Returns the arguments after the first, which is the program's own name. Fails only at an
/// allocation failure.
///
/// Example: `arguments(alloc, env::args(&rt)?)?`
pub fn arguments(alloc: Global, all: env::Args) -> io::Result<Vec<String>>
    ensures { IfOk result (λ words. words.items ≡ drop 1 (into_iter_items all)) }
{
    Ok(all.skip(1).collect(alloc)?)
}

/// Returns a path and words that stand in front of the mark `--` and behind it, or `None` where the
/// second argument isn't the mark.
pub fn path_and_words(arguments: &[String]) -> Option<(&str, &[String])>
    ensures some { IfSome result (λ asked. map string_bytes arguments.now
        ≡ asked.0.now ∷ codes "--" ∷ map string_bytes asked.1.now) }
    ensures none { result ≡ None → (path : List ℕ) → (words : List (List ℕ))
        → map string_bytes arguments.now ≢ path ∷ codes "--" ∷ words }
{
    let (path, behind) = arguments.split_first()?;
    let (mark, words) = behind.split_first()?;
    if mark.as_str() == "--" {
        Some((path.as_str(), words))
    } else {
        None
    }
}

/// Returns the text of the file at this path, or all that is left of `stdin` where the path is `-`.
/// Fails if it can't be read, is not UTF-8, or memory runs out.
pub fn text_at<R: Files + AllocGlobal, I: Read>(
    rt: &R,
    path: &str,
    stdin: &mut I,
) -> io::Result<String>
    ensures stdin { path.now ≡ codes "-" → IfOk result (λ text.
        IfSome (I.remaining stdin.old) (λ left. string_bytes text ≡ left)
        × IsAtEnd (I.remaining stdin.new)) }
    ensures file { path.now ≢ codes "-" → stdin.new ≡ stdin.old }
{
    if path != "-" {
        return fs::read_to_string(rt, path);
    }
    let mut text = String::new(rt.alloc());
    stdin.read_to_string(&mut text)?;
    Ok(text)
}

/// What a program says, and how it ends, where it can't do its work.
#[derive(Clone, Copy, Debug)]
pub struct Program {
    /// Its line where memory runs out.
    pub no_memory: &'static str,
    /// Its exit status then, and where it can't write its own text.
    pub failed: u8,
}

impl Program {
    /// Writes a line, and returns this status, or `failed` where the write fails; a part of the
    /// line may then be written. It blocks as the writer does.
    pub fn tell<E: Write>(&self, err: &mut E, status: u8, line: &str) -> u8
        ensures status { (result ≡ status) ⊎ (result ≡ self.now.failed) }
        ensures text { result ≢ self.now.failed
            → Appends (E.contents err.old) (E.contents err.new) line.now }
    {
        match err.write_all(line.as_bytes()) {
            Ok(()) => status,
            Err(_) => self.failed,
        }
    }

    /// Tells of an error, as `tell` does: by this line and status, or where memory ran out by those
    /// that the program has for that.
    pub fn tell_error<E: Write>(&self, err: &mut E, error: &io::Error, status: u8, line: &str) -> u8
        ensures status { (result ≡ status) ⊎ (result ≡ self.now.failed) }
        ensures text { result ≢ self.now.failed
            → Appends (E.contents err.old) (E.contents err.new) line.now }
    {
        match error.kind() {
            ErrorKind::OutOfMemory => self.tell(err, self.failed, self.no_memory),
            _ => self.tell(err, status, line),
        }
    }

    /// Tells of a line that was made, as `tell` does: by this line and status, or where memory ran
    /// out by those that the program has for that.
    pub fn tell_made<E: Write>(
        &self,
        err: &mut E,
        status: u8,
        line: Result<String, AllocError>,
    ) -> u8
        ensures status { (result ≡ status) ⊎ (result ≡ self.now.failed) }
        ensures memory { IfErr line (λ _. result ≡ self.now.failed) }
        ensures text { result ≢ self.now.failed → IfOk line (λ line.
            Appends (E.contents err.old) (E.contents err.new) (string_bytes line)) }
    {
        match line {
            Ok(line) => self.tell(err, status, line.as_str()),
            Err(_) => self.tell(err, self.failed, self.no_memory),
        }
    }
}
