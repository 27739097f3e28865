//! The expression that the program's arguments mean.
ghost use Rattle.std.specs.Prelude.{◌≡◌, ◌∷◌, map, position, Ok, string_bytes, IfOk, IsOkUnless, option_map};
ghost use Rattle.duct_start.specs.TreeView.{around};
ghost use Rattle.duct.specs.TreeView.{tree_view};
ghost use Rattle.duct_program.specs.Line.{command_view, redirection_view, further, is_bar, meant, pieces, pipeline_of, redirected_tree, redirects, with_options, worded_tree, options_view};
ghost use Rattle.duct_program.specs.Parsed.{ParsesAs};

use crate::command::{Command, Redirection, read_command};
use crate::options::{Options, read_options};
use crate::usage::Usage;
use duct::{Error, Expression, Stream, cmd};
use std::alloc::Global;

/// Returns the expression of these arguments: options, and then commands with a `|` between two.
/// The commands are piped from left to right. In a command `<`, `>` and `2>` redirect stdin, stdout
/// and stderr to the path after them; the first one is the outermost. `--stdin` gives the whole its
/// text, and `--unchecked` is around that. Nothing is started.
///
/// Fails with the first error from left to right, and with `Usage::Memory` at an allocation
/// failure.
pub fn line<E: Drop, H: Drop>(alloc: Global, args: &[String]) -> Result<Expression<E, H>, Usage>
    ensures { ParsesAs tree_view result (meant (map string_bytes args.now)) }
{
    let (options, words) = read_options(args)?;
    let commands = pipeline(alloc, words)?;
    with_options(alloc, commands, options)
}

// Commands piped from left to right.
fn pipeline<E: Drop, H: Drop>(alloc: Global, args: &[String]) -> Result<Expression<E, H>, Usage>
    ensures { ParsesAs tree_view result (pipeline_of (pieces (map string_bytes args.now))) }
{
    let (piece, mut rest) = first_piece(args);
    let mut left = command_expression(alloc, read_command(alloc, piece)?)?;
    while let Some(args) = rest {
        let (piece, behind) = first_piece(args);
        let right = command_expression(alloc, read_command(alloc, piece)?)?;
        left = left.pipe(&right).map_err(out_of_memory)?;
        rest = behind;
    }
    Ok(left)
}

// The arguments before the first `|`, and those after it, if there is one.
fn first_piece(args: &[String]) -> (&[String], Option<&[String]>)
    ensures { pieces (map string_bytes args.now) ≡ map string_bytes result.0.now
        ∷ further (option_map (λ behind. map string_bytes behind.now) result.1) }
{
    match bar(args) {
        Some(at) => (&args[..at], Some(&args[at + 1..])),
        None => (args, None),
    }
}

// The place of the first `|`.
fn bar(args: &[String]) -> Option<usize>
    ensures { result ≡ position (λ arg. is_bar (string_bytes arg)) args.now }
{
    args.iter().position(|arg| arg.as_str() == "|")
}

/// Returns the expression of a command: its words, with its redirections around them, the first one
/// outermost. Nothing is started. Fails with `Usage::EmptyCommand` if it has no words, and with
/// `Usage::Memory` at an allocation failure.
pub fn command_expression<E: Drop, H: Drop>(
    alloc: Global,
    command: Command<'_>,
) -> Result<Expression<E, H>, Usage>
    ensures { ParsesAs tree_view result (worded_tree (command_view command.entry)) }
{
    let Command {
        words,
        redirections,
    } = command;
    let Some((program, arguments)) = words.split_first() else {
        return Err(Usage::EmptyCommand);
    };
    let command = cmd(alloc, *program, arguments).map_err(out_of_memory)?;
    redirected_by(command, redirections)
}

// Puts redirections around a command, the first one outermost.
#[tactic(auto, using(crate::proofs::Pipes::last_stands_inside))]
fn redirected_by<E: Drop, H: Drop>(
    command: Expression<E, H>,
    redirections: Vec<Redirection<'_>>,
) -> Result<Expression<E, H>, Usage>
    ensures { ParsesAs tree_view result
        (Ok (redirected_tree (map redirection_view redirections.entry.items) (tree_view command))) }
{
    let mut inner = command;
    let mut left = redirections;
    while let Some(redirection) = left.pop() {
        inner = redirect(redirection, &inner).map_err(out_of_memory)?;
    }
    Ok(inner)
}

// Puts one redirection around an expression.
fn redirect<E: Drop, H: Drop>(
    redirection: Redirection<'_>,
    inner: &Expression<E, H>,
) -> Result<Expression<E, H>, Error>
    ensures tree { IfOk result (λ made. tree_view made
        ≡ around (redirects (redirection_view redirection.entry)) (tree_view inner.now)) }
    ensures memory { IsOkUnless result Error.Memory }
{
    match redirection.stream {
        Stream::In => inner.stdin_path(redirection.path),
        Stream::Out => inner.stdout_path(redirection.path),
        Stream::Err => inner.stderr_path(redirection.path),
    }
}

// Puts what the options ask for around a whole line.
fn with_options<E: Drop, H: Drop>(
    alloc: Global,
    line: Expression<E, H>,
    options: Options<'_>,
) -> Result<Expression<E, H>, Usage>
    ensures { ParsesAs tree_view result
        (Ok (with_options (options_view options.entry) (tree_view line))) }
{
    let mut whole = line;
    if let Some(text) = options.stdin {
        let bytes = Vec::from_slice(alloc, text.as_bytes())?;
        whole = whole.stdin_bytes(bytes).map_err(out_of_memory)?;
    }
    if options.unchecked {
        whole = whole.unchecked().map_err(out_of_memory)?;
    }
    Ok(whole)
}

// The error of a builder, which fails only at an allocation failure.
fn out_of_memory(_error: Error) -> Usage
    ensures { result ≡ Usage.Memory }
{
    Usage::Memory
}
