//! What a line says, and words before those of its commands.
ghost use Rattle.std.specs.Prelude.{◌≡◌, ◌++◌, map, option_map, string_bytes, IfOk, OnOk};
ghost use Rattle.duct.specs.TreeView.{tree_view};
ghost use Rattle.duct_words.specs.Line.{ParsesAs};
ghost use Rattle.duct_words.specs.Split.{token_view};
ghost use Rattle.steps.specs.Words.{behind, has_slash, named_of, parts_of, token_text, tokens_text};

use crate::error::StepsError;
use duct::{Expression, Stream};
use duct_program::NoHook;
use duct_words::{LineError, SplitError, Token, parse, quote, split};
use std::alloc::{AllocError, Global};

/// Returns the name and the command line of a line `name: command line`, where it has a name, which
/// has no slash.
pub fn named(line: &str) -> Option<(&str, &str)>
    ensures { option_map (λ parts. (parts.0.now, parts.1.now)) result ≡ named_of line.now }
{
    let (name, command) = parts_of(line)?;
    if name.is_empty() || has_slash(name) {
        return None;
    }
    Some((name, command))
}

// The texts before the first colon of a line and after it, if there is one.
fn parts_of(line: &str) -> Option<(&str, &str)>
    ensures { option_map (λ parts. (parts.0.now, parts.1.now)) result ≡ parts_of line.now }
{
    line.split_once(':')
}

// Whether a text has a slash.
fn has_slash(text: &str) -> bool
    ensures { result ≡ has_slash text.now }
{
    text.bytes().any(|b| b == b'/')
}

/// Fails where a text has more than words.
pub fn check_words(alloc: Global, text: &str) -> Result<(), StepsError> {
    match split(alloc, text) {
        Ok(tokens) if tokens.iter().all(|it| matches!(it, Token::Word(_))) => Ok(()),
        Err(SplitError::Memory) => Err(StepsError::Memory(AllocError)),
        Ok(_) | Err(_) => Err(StepsError::Over),
    }
}

/// Returns the expression of a command line with these words before those of each of its commands.
/// Fails as `parse` does where it is none.
pub fn behind<E: Drop>(
    alloc: Global,
    words: &str,
    line: &str,
) -> Result<Expression<E, NoHook>, LineError>
    ensures { ParsesAs tree_view result (behind words.now line.now) }
{
    let _line: Expression<E, NoHook> = parse(alloc, line)?;
    let tokens = split(alloc, line).map_err(LineError::Split)?;
    let Ok(text) = text_of(alloc, words, &tokens) else {
        return Err(LineError::Split(SplitError::Memory));
    };
    parse(alloc, text.as_str())
}

// The text of tokens, with these words before those of each command.
fn text_of(alloc: Global, words: &str, tokens: &[Token]) -> Result<String, AllocError>
    ensures { IfOk result (λ text. string_bytes text
        ≡ words.now ++ tokens_text words.now (map token_view tokens.now)) }
{
    let mut text = String::from_str(alloc, words)?;
    for token in tokens {
        push_token(alloc, &mut text, words, token)?;
    }
    Ok(text)
}

// Adds the text of a token behind a space. These words stand behind a `|`.
fn push_token(
    alloc: Global,
    text: &mut String,
    words: &str,
    token: &Token,
) -> Result<(), AllocError>
    ensures { OnOk result (string_bytes text.new
        ≡ string_bytes text.old ++ token_text words.now (token_view token.now)) }
{
    match token {
        Token::Word(word) => {
            text.push(' ')?;
            text.push_str(quote(alloc, &[word.as_str()])?.as_str())
        }
        Token::Redirect(Stream::In) => text.push_str(" <"),
        Token::Redirect(Stream::Out) => text.push_str(" >"),
        Token::Redirect(Stream::Err) => text.push_str(" 2>"),
        Token::Pipe => {
            text.push_str(" | ")?;
            text.push_str(words)
        }
    }
}
