//! A text of an expression.
ghost use Rattle.std.specs.Prelude.{◌≡◌, ◌==◌, IfOk, map, string_bytes};
ghost use Rattle.std.specs.List.{list_any};
ghost use Rattle.std.specs.Option.{option_copied};
ghost use Rattle.duct_start.specs.Plan.{program_of};
ghost use Rattle.duct_tree.specs.NodeView.{modifier_view, node_view};
ghost use Rattle.duct.specs.TreeView.{tree_view};
ghost use Rattle.duct_words.specs.ShellText.{ParsesAs, command_in, command_text, folder_text, is_setting, part_of, part_view, shell_text_of, text_of, with_setting, word_text};

use crate::error::ShellTextError;
use crate::quoted::quote;
use duct::tree::{Modifier, Node};
use duct::{Expression, asks_canonical};
use std::alloc::{AllocError, Global};
use std::convert::AsStr;

/// Returns a text that a POSIX shell runs as this expression is run: with the same words, files and
/// streams, and with the same variables but for those that a shell sets itself, as `PWD`. Names
/// that differ only in the case of ASCII letters are one variable here, and two to a shell.
///
/// Each program stands behind `env`, with the variables that the expression sets, so a shell takes
/// it for no function and no command of its own. `unchecked` is `|| true`, a folder is that of
/// `cd -P`, and subshells stand around what these and redirections are for. Without `pipefail` a
/// shell doesn't see that the left side of a pipe failed.
///
/// After `set -o pipefail` the status is 0 where the run succeeds, and another where a command
/// fails that is checked. Where a file can't be opened, a folder isn't there or a program can't be
/// started, the run fails; a shell goes on with the rest, and inside of `unchecked` its status is
/// 0. It may also write `Killed` and the like into the stderr of what a signal ended. zsh runs the
/// text so only after `emulate sh`: in its own mode it sends a stream to a file and a pipe both.
///
/// Fails with the reason where a shell can't say it: at hooks, captures, bytes for stdin, ends of
/// the caller, removed variables, and some names and paths; and at an allocation failure. A text is
/// built at each node, on the stack of the caller: for deeply nested trees it needs time and stack.
///
/// Example: `shell_text(alloc, &a.pipe(&b.stdout_path("f")?)?)?` is `env a | ( env b) > f`.
pub fn shell_text<E: Drop, H: Drop>(
    alloc: Global,
    expression: &Expression<E, H>,
) -> Result<String, ShellTextError>
    ensures { ParsesAs string_bytes result (shell_text_of (tree_view expression.now)) }
{
    let text = text_of(alloc, None, "", expression.root())?;
    if has_nul(text.as_str()) {
        return Err(ShellTextError::Nul);
    }
    Ok(text)
}

// Whether a text has a NUL.
fn has_nul(text: &str) -> bool
    ensures { result ≡ list_any (λ b. b == 0) text.now }
{
    text.as_bytes().contains(&0)
}

// The text of a node in this folder, if there is one, and with the text of these variables.
fn text_of<E, H>(
    alloc: Global,
    folder: Option<&str>,
    settings: &str,
    node: &Node<E, H>,
) -> Result<String, ShellTextError>
    ensures { ParsesAs string_bytes result
        (text_of (option_copied folder.entry) settings.now (node_view node.now)) }
{
    match node {
        Node::Cmd(words) => command_text(alloc, folder, settings, words.as_slice()),
        Node::Pipe(left, right) => {
            let left = text_of(alloc, folder, settings, left)?;
            let right = text_of(alloc, folder, settings, right)?;
            Ok(format!(in alloc; "{left} | {right}")?)
        }
        Node::Io(modifier, inner) => match part_of(modifier)? {
            Part::Folder(path) => text_of(alloc, Some(path), settings, inner),
            Part::Setting(name, value) => {
                let settings = with_setting(alloc, settings, name, value)?;
                text_of(alloc, folder, settings.as_str(), inner)
            }
            Part::File(operator, path) => {
                let path = word_text(alloc, path)?;
                let text = text_of(alloc, folder, settings, inner)?;
                Ok(format!(in alloc; "( {text}) {operator} {path}")?)
            }
            Part::Fixed(end) => {
                let text = text_of(alloc, folder, settings, inner)?;
                Ok(format!(in alloc; "( {text}{end}")?)
            }
        },
    }
}

// The text of a command in this folder, if there is one, and with the text of these variables.
fn command_text(
    alloc: Global,
    folder: Option<&str>,
    settings: &str,
    words: &[String],
) -> Result<String, ShellTextError>
    ensures { ParsesAs string_bytes result
        (command_text (option_copied folder.entry) settings.now (map string_bytes words.now)) }
{
    let program = program_of(words);
    if is_setting(program) {
        return Err(ShellTextError::Program);
    }
    if asks_canonical(program, folder.is_some()) {
        return Err(ShellTextError::RelativeProgram);
    }
    let words = quote(alloc, words)?;
    command_in(alloc, folder, settings, words.as_str())
}

// The program of these words: the first word, or an empty text if there are none.
fn program_of(words: &[String]) -> &str
    ensures { result.now ≡ program_of (map string_bytes words.now) }
{
    match words.split_first() {
        None => "",
        Some((program, _)) => program.as_str(),
    }
}

// The text of words as a command in this folder, if there is one, and with the text of these
// variables.
fn command_in(
    alloc: Global,
    folder: Option<&str>,
    settings: &str,
    words: &str,
) -> Result<String, ShellTextError>
    ensures { ParsesAs string_bytes result
        (command_in (option_copied folder.entry) settings.now words.now) }
{
    match folder {
        None => Ok(format!(in alloc; "env{settings} {words}")?),
        Some(path) => {
            let folder = folder_text(alloc, path)?;
            Ok(format!(in alloc; "(cd -P {folder} && env{settings} {words})")?)
        }
    }
}

// The text that makes a folder the current one: a relative path begins with `./`, so that a shell
// looks for it nowhere else.
fn folder_text(alloc: Global, path: &str) -> Result<String, ShellTextError>
    ensures { ParsesAs string_bytes result (folder_text path.now) }
{
    match path.as_bytes() {
        [] => Err(ShellTextError::Folder),
        [b'/', ..] => Ok(word_text(alloc, path)?),
        _ => {
            let dotted = format!(in alloc; "./{path}")?;
            Ok(word_text(alloc, dotted.as_str())?)
        }
    }
}

// The text of variables with one more, which is nearer to the command.
fn with_setting(
    alloc: Global,
    settings: &str,
    name: &str,
    value: &str,
) -> Result<String, ShellTextError>
    ensures { ParsesAs string_bytes result (with_setting settings.now name.now value.now) }
{
    if name.is_empty() || is_setting(name) {
        return Err(ShellTextError::Name);
    }
    let setting = format!(in alloc; "{name}={value}")?;
    let setting = word_text(alloc, setting.as_str())?;
    Ok(format!(in alloc; "{settings} {setting}")?)
}

// Whether `env` takes a text for an option or a variable.
fn is_setting(text: &str) -> bool
    ensures { result ≡ is_setting text.now }
{
    matches!(text.as_bytes(), [b'-', ..]) || text.as_bytes().contains(&b'=')
}

// The text of one word.
fn word_text(alloc: Global, word: &str) -> Result<String, AllocError>
    ensures { IfOk result (λ text. string_bytes text ≡ word_text word.now) }
{
    quote(alloc, &[word])
}

// What a modifier is to a shell.
#[derive(Clone, Copy)]
enum Part<'a> {
    /// The folder of the commands inside.
    Folder(&'a str),
    /// A variable of the commands inside.
    Setting(&'a str, &'a str),
    /// An operator behind parentheses, and the path of its file.
    File(&'static str, &'a str),
    /// The end of parentheses, with what stands before and behind it.
    Fixed(&'static str),
}

// Returns what a modifier is to a shell.
fn part_of<E, H>(modifier: &Modifier<E, H>) -> Result<Part<'_>, ShellTextError>
    ensures { ParsesAs part_view result (part_of (modifier_view modifier.now)) }
{
    match modifier {
        Modifier::StdinPath(path) => Ok(Part::File("<", path.as_str())),
        Modifier::StdinNull => Ok(Part::File("<", "/dev/null")),
        Modifier::StdoutPath(path) => Ok(Part::File(">", path.as_str())),
        Modifier::StdoutNull => Ok(Part::File(">", "/dev/null")),
        Modifier::StderrPath(path) => Ok(Part::File("2>", path.as_str())),
        Modifier::StderrNull => Ok(Part::File("2>", "/dev/null")),
        Modifier::StdoutToStderr => Ok(Part::Fixed(") >&2")),
        Modifier::StderrToStdout => Ok(Part::Fixed(") 2>&1")),
        Modifier::StdoutStderrSwap => Ok(Part::Fixed(") 3>&1 >&2 2>&3 3>&-")),
        Modifier::Unchecked => Ok(Part::Fixed(" || true)")),
        Modifier::Dir(path) => Ok(Part::Folder(path.as_str())),
        Modifier::Env(name, value) => Ok(Part::Setting(name.as_str(), value.as_str())),
        Modifier::StdinBytes(_) => Err(ShellTextError::Bytes),
        Modifier::StdinFile(_) | Modifier::StdoutFile(_) | Modifier::StderrFile(_) => {
            Err(ShellTextError::End)
        }
        Modifier::StdoutCapture | Modifier::StderrCapture => Err(ShellTextError::Capture),
        Modifier::EnvRemove(_) | Modifier::FullEnv(_) => Err(ShellTextError::Removal),
        Modifier::BeforeSpawn(_, _) => Err(ShellTextError::Hook),
    }
}
