//! Words and command lines of a POSIX shell: the tokens of a text and a text of words, the
//! expression of a text and a text of an expression, words that run elsewhere, files of variables,
//! and a writer that hides secrets.
#![tactic(auto)]

mod environment;
mod error;
mod kind;
mod lexer;
mod place;
mod quoted;
mod reader;
mod redacted;
mod token;
mod writer;

pub use environment::{variables, with_variables};
pub use error::{LineError, ShellTextError, SplitError, VariablesError};
pub use lexer::split;
pub use place::{Place, over};
pub use quoted::quote;
pub use reader::parse;
pub use redacted::Redacted;
pub use token::Token;
pub use writer::shell_text;
