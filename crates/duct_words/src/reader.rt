//! The expression of a text.
ghost use Rattle.std.specs.Prelude.{◌≡◌, None, OnOk, map};
ghost use Rattle.duct.specs.TreeView.{tree_view};
ghost use Rattle.duct_program.specs.Line.{command_view};
ghost use Rattle.duct_program.specs.Parsed as usages;
ghost use Rattle.duct_words.specs.Line.{ParsesAs, after_command, ended, line_of, no_words, reader_view, redirected, start, step, tree_of, with_word};
ghost use Rattle.duct_words.specs.Split.{token_view};

use crate::error::LineError;
use crate::lexer::split;
use crate::token::Token;
use duct::{Error, Expression, Stream};
use duct_program::{Command, Redirection, Usage, command_expression};
use std::alloc::Global;
use std::mem;

/// Returns the expression of a text: words and operators as [`split`](crate::split) has them,
/// with a `|` between two commands. The commands are piped from left to right. In a command `<`,
/// `>` and `2>` redirect stdin, stdout and stderr to the path after them; the first one is the
/// outermost. So it means what `duct_program::line` makes of the words without options, but a
/// quoted operator is a word. Nothing is started.
///
/// Fails with `LineError::Split` as `split` does, and with `LineError::Usage` at an operator with
/// no path behind it and at a command without words.
///
/// Example: `parse(alloc, "grep 'a | b' < in | wc -l")?`
pub fn parse<E: Drop, H: Drop>(alloc: Global, text: &str) -> Result<Expression<E, H>, LineError>
    ensures { ParsesAs tree_view result (line_of text.now) }
{
    let tokens = split(alloc, text).map_err(LineError::Split)?;
    tree_of(alloc, tokens.as_slice()).map_err(LineError::Usage)
}

// What was read of the tokens so far.
#[derive(Drop)]
struct Reader<'t, E, H> {
    alloc: Global,
    /// The commands before, piped, if there is one.
    left: Option<Expression<E, H>>,
    /// The command that has begun.
    command: Command<'t>,
    /// The stream that the operator before redirects, if one stands there.
    stream: Option<Stream>,
}

// The expression of tokens.
fn tree_of<E: Drop, H: Drop>(alloc: Global, tokens: &[Token]) -> Result<Expression<E, H>, Usage>
    ensures { usages.ParsesAs tree_view result (tree_of start (map token_view tokens.now)) }
{
    let mut reader = Reader {
        alloc,
        left: None,
        command: no_words(alloc),
        stream: None,
    };
    for token in tokens {
        reader.step(token)?;
    }
    reader.ended()
}

// A command before its first word.
fn no_words<'t>(alloc: Global) -> Command<'t>
    ensures { command_view result ≡ no_words }
{
    Command {
        words: Vec::new(alloc),
        redirections: Vec::new(alloc),
    }
}

impl<'t, E: Drop, H: Drop> Reader<'t, E, H> {
    // Reads one token.
    fn step(&mut self, token: &'t Token) -> Result<(), Usage>
        ensures { usages.ParsesAs (λ _. reader_view self.new) result
            (step (reader_view self.old) (token_view token.now)) }
    {
        match token {
            Token::Word(text) => self.word(text.as_str()),
            Token::Redirect(stream) => self.redirect(*stream),
            Token::Pipe => {
                self.left = Some(self.ended()?);
                Ok(())
            }
        }
    }

    // Adds a word, or the path that the operator before redirects to.
    fn word(&mut self, text: &'t str) -> Result<(), Usage>
        ensures { usages.ParsesAs (λ _. reader_view self.new) result
            (Ok (with_word text.now (reader_view self.old))) }
    {
        match self.stream {
            None => self.command.words.push(text)?,
            Some(stream) => {
                let redirection = Redirection { stream, path: text };
                self.command.redirections.push(redirection)?;
                self.stream = None;
            }
        }
        Ok(())
    }

    // Reads an operator that redirects a stream.
    fn redirect(&mut self, stream: Stream) -> Result<(), Usage>
        ensures { usages.ParsesAs (λ _. reader_view self.new) result
            (redirected stream (reader_view self.old)) }
    {
        if self.stream.is_some() {
            return Err(Usage::MissingPath);
        }
        self.stream = Some(stream);
        Ok(())
    }

    // Ends the command, and returns the pipe of all commands.
    fn ended(&mut self) -> Result<Expression<E, H>, Usage>
        ensures tree { usages.ParsesAs tree_view result (ended (reader_view self.old)) }
        ensures after { OnOk result (reader_view self.new ≡ after_command (reader_view self.old)) }
    {
        if self.stream.is_some() {
            return Err(Usage::MissingPath);
        }
        let command = mem::replace(&mut self.command, no_words(self.alloc));
        let right = command_expression(self.alloc, command)?;
        match &self.left {
            None => Ok(right),
            Some(left) => left.pipe(&right).map_err(out_of_memory),
        }
    }
}

// The error of a builder, which fails only at an allocation failure.
fn out_of_memory(_error: Error) -> Usage
    ensures { result ≡ Usage.Memory }
{
    Usage::Memory
}
