//! What a text is split into.

use duct_system::spec::Stream;

/// A word or an operator of a text. A quoted `|` is a word.
#[derive(Debug, Drop, PartialEq, Eq)]
pub enum Token {
    /// A word, without its quotes and backslashes.
    Word(String),
    /// An unquoted `|`.
    Pipe,
    /// An unquoted `<`, `>` or `2>`, which redirects this stream.
    Redirect(Stream),
}
