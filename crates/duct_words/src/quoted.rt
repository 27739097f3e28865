//! The text of some words.
ghost use Rattle.std.specs.Prelude.{◌≡◌, ◌++◌, map, string_bytes, IfOk, OnOk};
ghost use Rattle.std.specs.List.{list_all};
ghost use Rattle.duct_words.specs.Quote.{has_no_quotes, is_bare_byte, is_marked, is_reserved, quote_of, quoted};
ghost use Rattle.duct_words.specs.Split.{split_of, word};

use crate::kind::is_plain;
use std::alloc::{AllocError, Global};
use std::convert::AsStr;

/// Returns a text that a POSIX shell and [`split`](crate::split) read as these words, with a space
/// between two. A word stands as it is where it has only letters and digits of ASCII and
/// `@%+:,./-_`, or a `=` that isn't in the first word, and where it isn't the first word and one
/// that a shell obeys there, as `if`, bash's `time`, and what begins with `-`, `+` or `%`. Else it
/// stands in single quotes, with `'\''` for each single quote in it. The empty word is `''`. Fails
/// only at an allocation failure.
///
/// bash takes a first word that begins with `%` for a job even in quotes: put `env` before it.
///
/// Example: `quote(alloc, &["grep", "a b"])?` is `grep 'a b'`.
#[tactic(auto, using(crate::proofs::RoundTrip::round_trip))]
pub fn quote<W: AsStr>(alloc: Global, words: &[W]) -> Result<String, AllocError>
    ensures text { IfOk result (λ text. string_bytes text ≡ quote_of (map W.text words.now)) }
    ensures split { IfOk result (λ text.
        split_of (string_bytes text) ≡ Ok (map word (map W.text words.now))) }
{
    let mut text = String::new(alloc);
    push_words(&mut text, words)?;
    Ok(text)
}

/// Adds the text of some words.
pub(crate) fn push_words<W: AsStr>(text: &mut String, words: &[W]) -> Result<(), AllocError>
    ensures { OnOk result
        (string_bytes text.new ≡ string_bytes text.old ++ quote_of (map W.text words.now)) }
{
    let Some((first, others)) = words.split_first() else {
        return Ok(());
    };
    push_word(text, first.as_str(), true)?;
    for other in others {
        text.push(' ')?;
        push_word(text, other.as_str(), false)?;
    }
    Ok(())
}

/// Adds the text of a word, which is the first of its command or not.
pub(crate) fn push_word(text: &mut String, word: &str, is_first: bool) -> Result<(), AllocError>
    ensures { OnOk result
        (string_bytes text.new ≡ string_bytes text.old ++ quoted is_first word.now) }
{
    if !word.is_empty() && is_bare(word, is_first) {
        return text.push_str(word);
    }
    text.push('\'')?;
    for c in word.chars() {
        if c == '\'' {
            text.push_str("'\\''")?;
        } else {
            text.push(c)?;
        }
    }
    text.push('\'')
}

// Whether a word needs no quotes as the first of its command, nor do its bytes.
fn is_bare(word: &str, is_first: bool) -> bool
    ensures { result ≡ has_no_quotes is_first word.now }
{
    !(is_first && (is_marked(word) || is_reserved(word))) && has_bare_bytes(word, is_first)
}

// Whether no byte of a word needs quotes.
fn has_bare_bytes(word: &str, is_first: bool) -> bool
    ensures { result ≡ list_all (is_bare_byte is_first) word.now }
{
    word.bytes()
        .all(|b| is_plain(char::from(b)) || b == b'=' && !is_first)
}

// Whether a word begins as an option of `sh` does, or as a job.
fn is_marked(word: &str) -> bool
    ensures { result ≡ is_marked word.now }
{
    matches!(word.as_bytes(), [b'-' | b'+' | b'%', ..])
}

// Whether a shell obeys a word as the first of its command.
fn is_reserved(word: &str) -> bool
    ensures { result ≡ is_reserved word.now }
{
    matches!(word, "if" | "for" | "case" | "while" | "until")
        || matches!(
            word,
            "then" | "elif" | "else" | "fi" | "in" | "do" | "done" | "esac"
        )
        || matches!(word, "function" | "select" | "time" | "coproc")
}
