//! The tokens and the variables of texts of a shell, and texts of words and of expressions.
use crate::parts::Parts;
use duct::{Error, Stream};
use duct_words::{
    Place, ShellTextError, SplitError, Token, VariablesError, over, quote, shell_text, split,
    variables,
};
use rows_table::{TableError, arguments, first_word, written};
use std::alloc::{AllocError, Global};

/// Adds what is said of the text, the arguments or the expression of a row.
pub fn push(text: &mut String, row: &Parts, key: &str) -> Result<(), TableError> {
    match key {
        "tokens" => push_tokens(text, row),
        "variables" => push_variables(text, row),
        "quoted" => {
            let words = arguments(row.alloc, row.text("arguments"))?;
            let quoted = quote(row.alloc, words.as_slice())?;
            Ok(text.push_str(quoted.as_str())?)
        }
        _ => push_shell_text(text, row),
    }
}

/// Returns the text of a row, with its line ends and tabs.
fn lines(row: &Parts) -> Result<String, AllocError> {
    let text = row.text("text").replace(row.alloc, "␤", "\n")?;
    let text = text.as_str().replace(row.alloc, "␍", "\r")?;
    text.as_str().replace(row.alloc, "␉", "\t")
}

/// Adds the variables of the text of a row, or why it has none.
fn push_variables(text: &mut String, row: &Parts) -> Result<(), TableError> {
    match variables(row.alloc, lines(row)?.as_str()) {
        Ok(pairs) => {
            for (name, value) in &pairs {
                write!(text, "{name}={value:?} ")?;
            }
        }
        Err(VariablesError::Memory) => return Err(TableError::Error(Error::Memory)),
        Err(error) => write!(text, "{error}")?,
    }
    Ok(())
}

/// Adds the tokens of the text of a row, or why it has none.
fn push_tokens(text: &mut String, row: &Parts) -> Result<(), TableError> {
    match split(row.alloc, lines(row)?.as_str()) {
        Ok(tokens) => {
            for token in &tokens {
                match token {
                    Token::Word(word) => write!(text, "{word:?} ")?,
                    Token::Pipe => text.push_str("| ")?,
                    Token::Redirect(Stream::In) => text.push_str("< ")?,
                    Token::Redirect(Stream::Out) => text.push_str("> ")?,
                    Token::Redirect(Stream::Err) => text.push_str("2> ")?,
                }
            }
        }
        Err(SplitError::Memory) => return Err(TableError::Error(Error::Memory)),
        Err(error) => write!(text, "{error}")?,
    }
    Ok(())
}

/// Adds a shell's text of the expression of a row, or why it has none.
fn push_shell_text(text: &mut String, row: &Parts) -> Result<(), TableError> {
    let tree = written(row.alloc, row.text("expression"))?;
    match shell_text(row.alloc, &tree) {
        Ok(shell) => text.push_str(shell.as_str())?,
        Err(ShellTextError::Memory) => return Err(TableError::Error(Error::Memory)),
        Err(error) => write!(text, "{error}")?,
    }
    Ok(())
}

/// Adds the words that run the arguments of a row at a place.
pub fn push_placed(text: &mut String, row: &Parts, place: &str) -> Result<(), TableError> {
    let words = arguments(row.alloc, row.text("arguments"))?;
    for word in &placed(row.alloc, place, words.as_slice())? {
        write!(text, "{word:?} ")?;
    }
    Ok(())
}

/// Returns the words that run these words at a place.
fn placed(alloc: Global, place: &str, words: &[String]) -> Result<Vec<String>, AllocError> {
    match first_word(place) {
        ("ssh", machine) => over(alloc, &Place::Ssh(machine), words),
        ("srun", "") => over(alloc, &Place::Srun, words),
        _ => {
            let before: Vec<&str> = place.split(' ').collect(alloc)?;
            over(alloc, &Place::Behind(before.as_slice()), words)
        }
    }
}
