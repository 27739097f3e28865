//! The tokens of a text, read one character after the other.
ghost use Rattle.std.specs.Prelude.{◌≡◌, map, encode_utf8};
ghost use Rattle.std.specs.Char.{is_ascii_digit};
ghost use Rattle.std.specs.List.{list_all};
ghost use Rattle.duct_words.specs.Split.{ParsesAs, bare, double, double_escaped, end_of, escaped, finished, is_number, lexer_view, operator, ordinary, read, redirection, single, split_of, start_at, step, token_view};
ghost use Rattle.duct_words.specs.declared.error.SplitError.TheVariants.{Unquoted};

use crate::error::SplitError;
use crate::kind::{Kind, kind_of};
use crate::token::Token;
use duct_system::spec::Stream;
use std::alloc::{AllocError, Global};
use std::mem;

// What stands before a character, where no quote is open.
#[derive(Clone, Copy, PartialEq, Eq)]
enum Part {
    /// Blanks, or nothing: no word has begun.
    Gap,
    /// An operator, directly: no word has begun.
    Operator,
    /// A word, of which nothing was quoted.
    Plain,
    /// A word, of which a part was quoted.
    Quoted,
}

// What quotes a character, and where that stands.
#[derive(Clone, Copy)]
enum Mode {
    Bare,
    Escape(usize),
    Single(usize),
    Double(usize),
    /// A backslash inside the double quotes that were opened here.
    DoubleEscape(usize),
}

// What was read so far.
#[derive(Drop)]
struct Lexer {
    alloc: Global,
    tokens: Vec<Token>,
    word: String,
    part: Part,
    mode: Mode,
    /// Whether no word but paths of redirections has ended since the last `|`, so that a shell
    /// takes the next such word for an assignment or a command.
    at_command: bool,
    /// Whether a redirection stands before the next word, which is its path.
    at_path: bool,
}

/// Returns the words and operators of a text, by the quoting rules of a POSIX shell: spaces and
/// tabs stand between words; `'..'` quotes all; `".."` quotes all but `$` and a backtick, and a
/// backslash in it quotes `"`, `\`, `$` and a backtick; a backslash outside quotes the next
/// character; and a backslash before a newline is left out with it.
///
/// Nothing is expanded, and no character passes that a shell would expand or obey. Fails with
/// `SplitError::Unquoted` at a newline and at each of `` $ ` * ? [ ~ # ; & ( ) { } ! `` that isn't
/// quoted; at an `=` in the first word of a command, which is an assignment there, and at a `%` at
/// its begin, which is a job, behind redirections too; at a second operator directly behind one, as
/// in `>>`; and at a number directly before `<` or `>`, other than `2>`. Names are words: those of
/// a shell's functions, aliases and reserved words too.
///
/// Fails also at an unclosed quote, at a last backslash, and at an allocation failure.
///
/// Example: `split(alloc, "grep 'a b' < in | wc -l")?`
pub fn split(alloc: Global, text: &str) -> Result<Vec<Token>, SplitError>
    ensures { ParsesAs (λ tokens. map token_view tokens.items) result (split_of text.now) }
{
    tokens_of(alloc, text, true)
}

/// Returns the tokens of a text as `split` does, where a shell may take its first word for an
/// assignment or a command, or may not.
pub(crate) fn tokens_of(
    alloc: Global,
    text: &str,
    at_command: bool,
) -> Result<Vec<Token>, SplitError>
    ensures { ParsesAs (λ tokens. map token_view tokens.items) result
        (read 0 (start_at at_command) text.now) }
{
    let mut lexer = Lexer {
        alloc,
        tokens: Vec::new(alloc),
        word: String::new(alloc),
        part: Part::Gap,
        mode: Mode::Bare,
        at_command,
        at_path: false,
    };
    for (place, character) in text.char_indices() {
        lexer.step(place, character)?;
    }
    lexer.end()
}

impl Lexer {
    // Reads the character at this place.
    fn step(&mut self, place: usize, c: char) -> Result<(), SplitError>
        ensures { ParsesAs (λ _. lexer_view self.new) result
            (step place (lexer_view self.old) c (encode_utf8 c)) }
    {
        match self.mode {
            Mode::Bare => self.bare(place, c),
            Mode::Escape(_) => self.escaped(c),
            Mode::Single(_) => self.single(c),
            Mode::Double(opened) => self.double(opened, place, c),
            Mode::DoubleEscape(opened) => self.double_escaped(opened, c),
        }
    }

    // Reads a character outside of quotes.
    fn bare(&mut self, place: usize, c: char) -> Result<(), SplitError>
        ensures { ParsesAs (λ _. lexer_view self.new) result
            (bare place (lexer_view self.old) c (encode_utf8 c)) }
    {
        match kind_of(c) {
            Kind::Ordinary => self.ordinary(c),
            Kind::Blank => {
                self.finish()?;
                self.part = Part::Gap;
                Ok(())
            }
            Kind::SingleQuote => {
                self.part = Part::Quoted;
                self.mode = Mode::Single(place);
                Ok(())
            }
            Kind::DoubleQuote => {
                self.part = Part::Quoted;
                self.mode = Mode::Double(place);
                Ok(())
            }
            Kind::Backslash => {
                self.mode = Mode::Escape(place);
                Ok(())
            }
            Kind::Pipe => {
                self.operator(Token::Pipe, place, c)?;
                self.at_command = true;
                self.at_path = false;
                Ok(())
            }
            Kind::Less => self.redirection(Stream::In, place, c),
            Kind::Greater => self.redirection(Stream::Out, place, c),
            Kind::Equals if self.at_path || !self.at_command => self.ordinary(c),
            Kind::Percent if self.at_path || !self.at_command || !self.word.is_empty() => {
                self.ordinary(c)
            }
            Kind::Newline | Kind::Percent | Kind::Equals | Kind::Expansion | Kind::Special => {
                unquoted(place, c)
            }
        }
    }

    // Adds an unquoted character to the word.
    fn ordinary(&mut self, c: char) -> Result<(), SplitError>
        ensures { ParsesAs (λ _. lexer_view self.new) result
            (Ok (ordinary (lexer_view self.old) (encode_utf8 c))) }
    {
        if self.part != Part::Quoted {
            self.part = Part::Plain;
        }
        self.word.push(c)?;
        Ok(())
    }

    // Reads a character after a backslash that is outside of quotes.
    fn escaped(&mut self, c: char) -> Result<(), SplitError>
        ensures { ParsesAs (λ _. lexer_view self.new) result
            (Ok (escaped (lexer_view self.old) c (encode_utf8 c))) }
    {
        self.mode = Mode::Bare;
        if c != '\n' {
            self.part = Part::Quoted;
            self.word.push(c)?;
        }
        Ok(())
    }

    // Reads a character between single quotes.
    fn single(&mut self, c: char) -> Result<(), SplitError>
        ensures { ParsesAs (λ _. lexer_view self.new) result
            (Ok (single (lexer_view self.old) c (encode_utf8 c))) }
    {
        if c == '\'' {
            self.mode = Mode::Bare;
        } else {
            self.word.push(c)?;
        }
        Ok(())
    }

    // Reads a character between the double quotes that were opened at `opened`.
    fn double(&mut self, opened: usize, place: usize, c: char) -> Result<(), SplitError>
        ensures { ParsesAs (λ _. lexer_view self.new) result
            (double opened place (lexer_view self.old) c (encode_utf8 c)) }
    {
        match c {
            '"' => self.mode = Mode::Bare,
            '\\' => self.mode = Mode::DoubleEscape(opened),
            '$' | '`' => return unquoted(place, c),
            _ => self.word.push(c)?,
        }
        Ok(())
    }

    // Reads a character after a backslash between the double quotes that were opened at `opened`.
    fn double_escaped(&mut self, opened: usize, c: char) -> Result<(), SplitError>
        ensures { ParsesAs (λ _. lexer_view self.new) result
            (Ok (double_escaped opened (lexer_view self.old) c (encode_utf8 c))) }
    {
        self.mode = Mode::Double(opened);
        if c == '\n' {
            return Ok(());
        }
        if !matches!(c, '"' | '\\' | '$' | '`') {
            self.word.push('\\')?;
        }
        self.word.push(c)?;
        Ok(())
    }

    // Reads an unquoted `<` or `>`, which redirects this stream unless a 2 stands before it.
    fn redirection(&mut self, stream: Stream, place: usize, c: char) -> Result<(), SplitError>
        ensures { ParsesAs (λ _. lexer_view self.new) result
            (redirection stream place (lexer_view self.old) c) }
    {
        if !self.is_number() {
            return self.operator(Token::Redirect(stream), place, c);
        }
        if stream != Stream::Out || self.word.as_str() != "2" {
            return unquoted(place, c);
        }
        self.word.clear();
        self.part = Part::Operator;
        self.at_path = true;
        self.tokens.push(Token::Redirect(Stream::Err))?;
        Ok(())
    }

    // Whether the word is an unquoted number.
    fn is_number(&self) -> bool
        ensures { result ≡ is_number (lexer_view self.now) }
    {
        match self.part {
            Part::Plain => is_digits(&self.word),
            Part::Gap | Part::Operator | Part::Quoted => false,
        }
    }

    // Ends the word, and adds an operator.
    fn operator(&mut self, token: Token, place: usize, c: char) -> Result<(), SplitError>
        ensures { ParsesAs (λ _. lexer_view self.new) result
            (operator (token_view token) place (lexer_view self.old) c) }
    {
        if self.part == Part::Operator {
            return unquoted(place, c);
        }
        self.finish()?;
        self.part = Part::Operator;
        self.at_path = true;
        self.tokens.push(token)?;
        Ok(())
    }

    // Adds the word, if one has begun. After a path an assignment may stand where it could before.
    fn finish(&mut self) -> Result<(), SplitError>
        ensures { ParsesAs (λ _. lexer_view self.new) result
            (Ok (finished (lexer_view self.old))) }
    {
        if matches!(self.part, Part::Plain | Part::Quoted) {
            let word = mem::replace(&mut self.word, String::new(self.alloc));
            self.tokens.push(Token::Word(word))?;
            self.at_command = self.at_path && self.at_command;
            self.at_path = false;
        }
        Ok(())
    }

    // Returns the tokens at the end of the text.
    fn end(mut self) -> Result<Vec<Token>, SplitError>
        ensures { ParsesAs (λ tokens. map token_view tokens.items) result
            (end_of (lexer_view self)) }
    {
        match self.mode {
            Mode::Bare => {
                self.finish()?;
                Ok(self.tokens)
            }
            Mode::Escape(place) => Err(SplitError::LastBackslash { place }),
            Mode::Single(place) | Mode::Double(place) | Mode::DoubleEscape(place) => {
                Err(SplitError::UnclosedQuote { place })
            }
        }
    }
}

// Whether a text has digits alone.
fn is_digits(text: &str) -> bool
    ensures { result ≡ list_all is_ascii_digit text.now }
{
    text.bytes().all(|b| b.is_ascii_digit())
}

// The error of a character that no token says where it stands unquoted.
fn unquoted(place: usize, character: char) -> Result<(), SplitError>
    ensures { result ≡ Err (Unquoted character place) }
{
    Err(SplitError::Unquoted { character, place })
}
