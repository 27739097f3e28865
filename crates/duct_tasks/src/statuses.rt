//! How each command of an expression ended.
ghost use Rattle.std.specs.Fmt.{DisplaysOnOk};
ghost use Rattle.std.specs.Prelude.{◌≡◌, ◌↔◌, [], ◌∷◌, ◌++◌, map, pos, slice_get, string_bytes, IfOk, IsTrue, OnOk, Some};
ghost use Rattle.std.specs.Arc.{arc_value};
ghost use Rattle.duct_system.specs.declared.system.ExitStatus.TheVariants.{Signal};
ghost use Rattle.duct_status.specs.Form.{printed};
ghost use Rattle.duct_status.specs.ShapeView.{shape_view};
ghost use Rattle.duct_start.specs.ShapeOfTree.{shape_of_tree};
ghost use Rattle.duct_tree.specs.NodeView.{node_view};
ghost use Rattle.duct_tasks.specs.Statuses.{OnlyPipesFailed, command_form, command_view, commands_in, ending_in, ending_text, has_failed, with_reports, words_of};

use duct_base::status::{Shape, Word};
use duct_base::system::ExitStatus;
use duct_tree::tree::Node;
use std::alloc::{AllocError, Global};
use std::fmt;
use std::sync::Arc;

/// The signal that a process gets which writes into a pipe that nobody can read any more.
const SIGPIPE: i32 = 13;

/// A command, and how it ended. It prints as `command ["make"] exited with code 2`, or as
/// `command ["make"] has not ended`.
#[derive(Debug, Drop)]
pub struct CommandStatus {
    /// The words of the command.
    pub words: Arc<Vec<String>>,

    /// How it ended. It is `None` where the command is not known to have ended.
    pub status: Option<ExitStatus>,
}

impl CommandStatus {
    /// Returns whether the command ended with a status that is no success.
    ///
    /// Example: `captured.commands.iter().filter(|command| command.has_failed())`
    pub fn has_failed(&self) -> bool
        ensures { result ≡ has_failed self.now.status }
    {
        match self.status {
            Some(status) => !status.success(),
            None => false,
        }
    }

    /// Returns whether signal 13 ended the command, `SIGPIPE`, which it got as it wrote into a pipe
    /// whose readers had all closed it. A command that catches or ignores this signal ends in
    /// another way, and so does a shell whose last command got it: with code 141.
    ///
    /// Example: `captured.commands[0].ended_by_pipe()`
    pub fn ended_by_pipe(&self) -> bool
        ensures { IsTrue result ↔ (self.now.status ≡ Some (Signal (pos 13))) }
    {
        self.status == Some(ExitStatus::Signal(SIGPIPE))
    }
}

impl fmt::Display for CommandStatus {
    ghost output = { λ command. printed (command_form (command_view command)) };

    fn fmt<W: fmt::Write>(&self, f: &mut fmt::Formatter<W>) -> fmt::Result {
        write!(f, "command {:?}", self.words.as_slice())?;
        write_ending(self.status, f)
    }
}

// Writes how a command ended, if it did.
fn write_ending<W: fmt::Write>(status: Option<ExitStatus>, f: &mut fmt::Formatter<W>) -> fmt::Result
    ensures { DisplaysOnOk W.write_str_gives f.old result (Some (ending_text status)) f.new }
{
    match status {
        Some(ExitStatus::Code(code)) => write!(f, " exited with code {code}"),
        Some(ExitStatus::Signal(signal)) => write!(f, " exited with code <signal {signal}>"),
        None => f.write_str(" has not ended"),
    }
}

/// Returns the commands of a shape, from left to right, each with its status by these reports,
/// which are those of its commands in this order. A command whose report is that it runs, a fault,
/// or missing, has no status.
///
/// Fails at an allocation failure, and only there.
///
/// Example: `command_statuses(alloc, running.shape(), running.reports())?`
pub fn command_statuses(
    alloc: Global,
    shape: &Shape,
    reports: &[Word],
) -> Result<Vec<CommandStatus>, AllocError>
    ensures { IfOk result (λ commands. map command_view commands.items
        ≡ with_reports (commands_in (shape_view shape.now)) reports.now) }
{
    let mut commands = Vec::new(alloc);
    add_commands_of(&mut commands, shape)?;
    Ok(noted(commands, reports))
}

// Appends the commands of a shape, from left to right, none of which is known to have ended.
fn add_commands_of(commands: &mut Vec<CommandStatus>, shape: &Shape) -> Result<(), AllocError>
    ensures { OnOk result (map words_of commands.new.items
        ≡ map words_of commands.old.items ++ commands_in (shape_view shape.now)) }
{
    match shape {
        Shape::Command(words) => add(commands, words),
        Shape::Pipe(left, right) => {
            add_commands_of(commands, left)?;
            add_commands_of(commands, right)
        }
        Shape::Input(inner) | Shape::Unchecked(inner) => add_commands_of(commands, inner),
    }
}

/// Appends the commands of a node, from left to right, none of which is known to have ended.
pub(crate) fn add_commands<E, H>(
    commands: &mut Vec<CommandStatus>,
    node: &Node<E, H>,
) -> Result<(), AllocError>
    ensures { OnOk result (map words_of commands.new.items
        ≡ map words_of commands.old.items ++ commands_in (shape_of_tree (node_view node.now))) }
{
    match node {
        Node::Cmd(words) => add(commands, words),
        Node::Pipe(left, right) => {
            add_commands(commands, left)?;
            add_commands(commands, right)
        }
        Node::Io(_, inner) => add_commands(commands, inner),
    }
}

// Appends the command of these words, which is not known to have ended.
fn add(commands: &mut Vec<CommandStatus>, words: &Arc<Vec<String>>) -> Result<(), AllocError>
    ensures { OnOk result (map words_of commands.new.items
        ≡ map words_of commands.old.items
        ++ map string_bytes (arc_value words.now).items ∷ []) }
{
    let words = Arc::try_clone(words)?;
    commands.push(CommandStatus {
        words,
        status: None,
    })?;
    Ok(())
}

/// Returns these commands, each with its ending by its report.
pub(crate) fn noted(mut commands: Vec<CommandStatus>, reports: &[Word]) -> Vec<CommandStatus>
    ensures { map command_view result.items
        ≡ with_reports (map words_of commands.items) reports.now }
{
    note(&mut commands, reports);
    commands
}

/// Notes how each of these commands ended, by its report.
pub(crate) fn note(commands: &mut [CommandStatus], reports: &[Word])
    ensures { map command_view commands.new
        ≡ with_reports (map words_of commands.old) reports.now }
{
    for (at, command) in commands.iter_mut().enumerate() {
        command.status = ending(reports, at);
    }
}

// Returns how the command at this place ended, by its report.
fn ending(reports: &[Word], at: usize) -> Option<ExitStatus>
    ensures { result ≡ ending_in (slice_get reports.now at) }
{
    match reports.get(at) {
        Some(Word::Ended(status)) => Some(*status),
        Some(Word::Running | Word::Fault(_)) | None => None,
    }
}

/// Returns whether each of these commands that failed was ended by signal 13, and the last one did
/// not fail.
pub(crate) fn only_pipes_failed(commands: &[CommandStatus]) -> bool
    ensures { IsTrue result ↔ OnlyPipesFailed (map (λ c. c.status) commands.now) }
{
    let Some((command, others)) = commands.split_first() else {
        return true;
    };
    let passes = !command.has_failed() || !others.is_empty() && command.ended_by_pipe();
    passes && only_pipes_failed(others)
}
