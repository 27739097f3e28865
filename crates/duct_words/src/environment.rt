//! The variables of a text, for an expression.
ghost use Rattle.std.specs.Prelude.{◌≡◌, map, option_map, IfOk, IsOkUnless};
ghost use Rattle.std.specs.List.{list_all, list_any};
ghost use Rattle.std.specs.Str.Lines.{lines, strip_carriage_return};
ghost use Rattle.duct_system.specs.Name.{is_same_name};
ghost use Rattle.duct_system.specs.SpecView.{pair_text};
ghost use Rattle.duct.specs.TreeView.{tree_view};
ghost use Rattle.duct_words.specs.Split.{token_view};
ghost use Rattle.duct_words.specs.Variables.{ParsesAs, at_line, first_of, has_quoted_name, is_comment, is_name, is_name_byte, parts_of, variables_of, with_line, with_pairs, with_tokens, with_word};

use crate::error::{SplitError, VariablesError};
use crate::lexer::tokens_of;
use crate::token::Token;
use duct::{Error, Expression};
use std::alloc::{AllocError, Global};

/// Returns the variables of a text, as pairs of a name and a value. Each line is one word
/// `name=value` by the quoting rules of [`split`](crate::split), as in `A=1`, `A="two words"` and
/// `A='$1'`. An `export` may stand before it. A line is left out where it is blank, or where a `#`
/// is its first character but for spaces and tabs. A line ends with `\n` or `\r\n`, and the last
/// one also with `\r` alone. Nothing is expanded, and a name that a shell sets itself, as bash's
/// `UID`, is one as any other.
///
/// Fails at the first line, from top to bottom, that a shell would expand or obey in another way,
/// and tells its number: with `VariablesError::Split` as `split` does, so also at a quoted newline
/// and at a comment behind a word; with `NoPair` where it isn't one word with a `=`; with `Name`
/// where the name has other characters than letters and digits of ASCII and `_`, or a digit first,
/// and where it or the `=` is quoted with no `export` before it, as in `"A"=1`, which a shell runs
/// as a command; and with `Twice` where an earlier line has the name, in any spelling. Fails also
/// at an allocation failure.
///
/// Example: `variables(alloc, fs::read_to_string(&rt, ".env")?.as_str())?`
pub fn variables(alloc: Global, text: &str) -> Result<Vec<(String, String)>, VariablesError>
    ensures { ParsesAs (λ pairs. map pair_text pairs.items) result (variables_of text.now) }
{
    let lines = lines_of(alloc, text)?;
    let mut pairs = Vec::new(alloc);
    for (index, line) in lines.as_slice().iter().enumerate() {
        push_line(alloc, &mut pairs, index + 1, line)?;
    }
    Ok(pairs)
}

/// Sets these variables for an expression, by `Expression::env` for each of them in order. Nothing
/// is started. Fails with `Error::Memory`, and only at an allocation failure.
///
/// Example: `with_variables(&cmd!(in alloc; "make")?, pairs.as_slice())?`
pub fn with_variables<E: Drop, H: Drop>(
    expression: &Expression<E, H>,
    pairs: &[(String, String)],
) -> Result<Expression<E, H>, Error>
    ensures tree { IfOk result (λ made. tree_view made
        ≡ with_pairs (map pair_text pairs.now) (tree_view expression.now)) }
    ensures memory { IsOkUnless result Error.Memory }
{
    let mut made = expression.clone()?;
    for pair in pairs {
        made = made.env(pair.0.as_str(), pair.1.as_str())?;
    }
    Ok(made)
}

// The lines of a text, of which the last one may end in a carriage return.
fn lines_of(alloc: Global, text: &str) -> Result<Vec<&str>, AllocError>
    ensures { IfOk result
        (λ all. map (λ line. line.now) all.items ≡ lines (strip_carriage_return text.now)) }
{
    let text = text.strip_suffix('\r').unwrap_or(text);
    text.lines().collect(alloc)
}

// Adds the pair of the line with this number, if it has one.
fn push_line(
    alloc: Global,
    pairs: &mut Vec<(String, String)>,
    number: usize,
    line: &str,
) -> Result<(), VariablesError>
    ensures { ParsesAs (λ _. map pair_text pairs.new.items) result
        (with_line number (map pair_text pairs.old.items) line.now) }
{
    if is_comment(line) {
        return Ok(());
    }
    let tokens = tokens_of(alloc, line, false).map_err(|error| at_line(number, error))?;
    push_tokens(alloc, pairs, number, line, tokens.as_slice())
}

// Whether a line is a comment.
fn is_comment(line: &str) -> bool
    ensures { result ≡ is_comment line.now }
{
    matches!(first_of(line), Some(b'#'))
}

// The first byte of a line that is no space or tab.
fn first_of(line: &str) -> Option<u8>
    ensures { result ≡ first_of line.now }
{
    line.bytes().find(|b| *b != b' ' && *b != b'\t')
}

// The error of the line with this number, which has no tokens.
fn at_line(line: usize, error: SplitError) -> VariablesError
    ensures { result ≡ at_line line error }
{
    match error {
        SplitError::Memory => VariablesError::Memory,
        SplitError::Unquoted { .. }
        | SplitError::UnclosedQuote { .. }
        | SplitError::LastBackslash { .. } => VariablesError::Split { line, error },
    }
}

// Adds the pair of the tokens of the line with this number, if there are any.
fn push_tokens(
    alloc: Global,
    pairs: &mut Vec<(String, String)>,
    number: usize,
    line: &str,
    tokens: &[Token],
) -> Result<(), VariablesError>
    ensures { ParsesAs (λ _. map pair_text pairs.new.items) result
        (with_tokens number (map pair_text pairs.old.items) line.now (map token_view tokens.now)) }
{
    match tokens {
        [] => Ok(()),
        [Token::Word(_)] if has_quoted_name(line) => Err(VariablesError::Name { line: number }),
        [Token::Word(word)] => push_word(alloc, pairs, number, word.as_str()),
        [Token::Word(first), Token::Word(word)] if first.as_str() == "export" => {
            push_word(alloc, pairs, number, word.as_str())
        }
        _ => Err(VariablesError::NoPair { line: number }),
    }
}

// Adds the pair of a word, which stands in this line.
fn push_word(
    alloc: Global,
    pairs: &mut Vec<(String, String)>,
    line: usize,
    word: &str,
) -> Result<(), VariablesError>
    ensures { ParsesAs (λ _. map pair_text pairs.new.items) result
        (with_word line (map pair_text pairs.old.items) word.now) }
{
    let Some((name, value)) = parts_of(word) else {
        return Err(VariablesError::NoPair { line });
    };
    if !is_name(name) {
        return Err(VariablesError::Name { line });
    }
    if has_name(pairs.as_slice(), name) {
        return Err(VariablesError::Twice { line });
    }
    let name = String::from_str(alloc, name)?;
    let value = String::from_str(alloc, value)?;
    pairs.push((name, value))?;
    Ok(())
}

// The texts before the first `=` of a word and after it, if there is one.
fn parts_of(word: &str) -> Option<(&str, &str)>
    ensures { option_map (λ parts. (parts.0.now, parts.1.now)) result ≡ parts_of word.now }
{
    word.split_once('=')
}

// Whether a quote or a backslash stands before the first `=` of a line.
fn has_quoted_name(line: &str) -> bool
    ensures { result ≡ has_quoted_name line.now }
{
    match parts_of(line) {
        None => false,
        Some((name, _)) => name.bytes().any(|b| b == b'"' || b == b'\'' || b == b'\\'),
    }
}

// Whether a text is a name: letters, digits and `_`, and no digit first.
fn is_name(text: &str) -> bool
    ensures { result ≡ is_name text.now }
{
    match text.as_bytes().split_first() {
        None => false,
        Some((first, _)) => !first.is_ascii_digit() && has_name_bytes(text),
    }
}

// Whether a text has letters, digits and `_` alone.
fn has_name_bytes(text: &str) -> bool
    ensures { result ≡ list_all is_name_byte text.now }
{
    text.bytes().all(|b| b.is_ascii_alphanumeric() || b == b'_')
}

// Whether one of these pairs has this name, in any spelling.
fn has_name(pairs: &[(String, String)], name: &str) -> bool
    ensures { result ≡ list_any (λ pair. is_same_name name.now pair.0) (map pair_text pairs.now) }
{
    for pair in pairs {
        if is_same(name, pair.0.as_str()) {
            return true;
        }
    }
    false
}

// Whether two names are those of one variable.
fn is_same(one: &str, other: &str) -> bool
    ensures { result ≡ is_same_name one.now other.now }
{
    one.eq_ignore_ascii_case(other)
}
