//! One command of a line: its words, and where its streams go.
ghost use Rattle.std.specs.Prelude.{◌≡◌, None, map, string_bytes};
ghost use Rattle.duct_program.specs.Line.{command_view, parts_of, redirected};
ghost use Rattle.duct_program.specs.Parsed.{ParsesAs};

use crate::usage::Usage;
use duct_base::spec::Stream;
use std::alloc::Global;

/// A stream of a command that is read from or written to a file.
#[derive(Clone, Copy)]
pub struct Redirection<'a> {
    pub stream: Stream,
    pub path: &'a str,
}

/// A command of a line: what the arguments between two `|` mean.
#[derive(Drop)]
pub struct Command<'a> {
    /// The program and its arguments.
    pub words: Vec<&'a str>,
    /// In the order in which they were written.
    pub redirections: Vec<Redirection<'a>>,
}

/// The stream that an argument redirects, or `None` if it is a word.
fn redirected(arg: &str) -> Option<Stream>
    ensures { result ≡ redirected arg.now }
{
    match arg {
        "<" => Some(Stream::In),
        ">" => Some(Stream::Out),
        "2>" => Some(Stream::Err),
        _ => None,
    }
}

/// Reads the arguments of one command.
pub(crate) fn read_command<'a>(alloc: Global, args: &'a [String]) -> Result<Command<'a>, Usage>
    ensures { ParsesAs command_view result (parts_of None (map string_bytes args.now)) }
{
    let mut words = Vec::new(alloc);
    let mut redirections = Vec::new(alloc);
    let mut rest = args;
    while let Some((arg, behind)) = rest.split_first() {
        rest = behind;
        if let Some(stream) = redirected(arg.as_str()) {
            let Some((path, behind)) = rest.split_first() else {
                return Err(Usage::MissingPath);
            };
            let path = path.as_str();
            redirections.push(Redirection { stream, path })?;
            rest = behind;
        } else {
            words.push(arg.as_str())?;
        }
    }
    Ok(Command {
        words,
        redirections,
    })
}
