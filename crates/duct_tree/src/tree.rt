//! The nodes of a tree, which share their inner nodes, and their debug text.
ghost use Rattle.std.specs.Prelude.{[], ◌∷◌, codes, map, string_bytes};
ghost use Rattle.std.specs.Fmt.{DisplaysOnOk};
ghost use Rattle.duct_system.specs.SpecView.{var_view};
ghost use Rattle.duct_status.specs.Form.{joined, numbers, plain, printed, quote, texts};
ghost use Rattle.duct_tree.specs.NodeView.{named, vars_form};

use duct_base::names::EnvNameString;
use std::collections::BTreeMap;
use std::collections::btree_map::Iter;
use std::fmt;
use std::sync::Arc;

/// What a node changes for the one expression inside it. `Expression` has a method for each, of the
/// same name in snake case.
#[derive(Drop)]
pub enum Modifier<E, H> {
    StdinBytes(Arc<Vec<u8>>),
    StdinPath(String),
    StdinFile(E),
    StdinNull,
    StdoutPath(String),
    StdoutFile(E),
    StdoutNull,
    StdoutCapture,
    StdoutToStderr,
    StderrPath(String),
    StderrFile(E),
    StderrNull,
    StderrCapture,
    StderrToStdout,
    StdoutStderrSwap,
    Dir(String),
    Env(EnvNameString, String),
    EnvRemove(EnvNameString),
    FullEnv(BTreeMap<EnvNameString, String>),
    Unchecked,
    BeforeSpawn(H, Vec<E>),
}

/// A node of a tree: a command with its words, the program first; a pipe from its left side to its
/// right side; or a modifier around one expression. The words of a command are shared with the
/// shape that a start returns.
pub enum Node<E, H> {
    Cmd(Arc<Vec<String>>),
    Pipe(Arc<Node<E, H>>, Arc<Node<E, H>>),
    Io(Modifier<E, H>, Arc<Node<E, H>>),
}

// A loop, so that a drop of deeply nested nodes takes no stack. Only the right sides of pipes are
// dropped by recursion.
impl<E: Drop, H: Drop> Drop for Node<E, H> {
    fn drop(mut self) {
        loop {
            let inner = match self {
                Node::Cmd(_) => return,
                Node::Pipe(left, _) => left,
                Node::Io(_, inner) => inner,
            };
            match Arc::into_inner(inner) {
                Some(node) => self = node,
                None => return,
            }
        }
    }
}

impl<E, H> fmt::Debug for Node<E, H> {
    ghost use Rattle.duct_status.specs.Form.{printed};
    ghost use Rattle.duct_tree.specs.NodeView.{node_view, tree_form};

    ghost debug_output = { λ node. printed (tree_form (node_view node)) };

    fn fmt<W: fmt::Write>(&self, f: &mut fmt::Formatter<W>) -> fmt::Result {
        match self {
            Node::Cmd(words) => write_command(words.as_slice(), f),
            Node::Pipe(left, right) => {
                write!(f, "Pipe(")?;
                (**left).fmt(f)?;
                write!(f, ", ")?;
                (**right).fmt(f)?;
                write!(f, ")")
            }
            Node::Io(modifier, inner) => {
                write!(f, "Io({modifier:?}, ")?;
                (**inner).fmt(f)?;
                write!(f, ")")
            }
        }
    }
}

impl<E, H> fmt::Debug for Modifier<E, H> {
    ghost use Rattle.duct_status.specs.Form.{printed};
    ghost use Rattle.duct_tree.specs.NodeView.{modifier_form, modifier_view};

    ghost debug_output = { λ modifier. printed (modifier_form (modifier_view modifier)) };

    fn fmt<W: fmt::Write>(&self, f: &mut fmt::Formatter<W>) -> fmt::Result {
        match self {
            Modifier::StdinBytes(bytes) => write_bytes(bytes.as_slice(), f),
            Modifier::StdinPath(path) => write_text("StdinPath(", path, f),
            Modifier::StdinFile(_) => f.write_str("StdinFile(<end>)"),
            Modifier::StdinNull => f.write_str("StdinNull"),
            Modifier::StdoutPath(path) => write_text("StdoutPath(", path, f),
            Modifier::StdoutFile(_) => f.write_str("StdoutFile(<end>)"),
            Modifier::StdoutNull => f.write_str("StdoutNull"),
            Modifier::StdoutCapture => f.write_str("StdoutCapture"),
            Modifier::StdoutToStderr => f.write_str("StdoutToStderr"),
            Modifier::StderrPath(path) => write_text("StderrPath(", path, f),
            Modifier::StderrFile(_) => f.write_str("StderrFile(<end>)"),
            Modifier::StderrNull => f.write_str("StderrNull"),
            Modifier::StderrCapture => f.write_str("StderrCapture"),
            Modifier::StderrToStdout => f.write_str("StderrToStdout"),
            Modifier::StdoutStderrSwap => f.write_str("StdoutStderrSwap"),
            Modifier::Dir(path) => write_text("Dir(", path, f),
            Modifier::Env(name, value) => write_env(name, value, f),
            Modifier::EnvRemove(name) => write_env_remove(name, f),
            Modifier::FullEnv(vars) => write_full_env(vars.iter(), f),
            Modifier::Unchecked => f.write_str("Unchecked"),
            Modifier::BeforeSpawn(_, _) => f.write_str("BeforeSpawn(<closure>)"),
        }
    }
}

// Writes a name that ends with its opening parenthesis, a text in quotes, and the closing
// parenthesis.
fn write_text<W: fmt::Write>(name: &str, text: &str, f: &mut fmt::Formatter<W>) -> fmt::Result
    ensures { DisplaysOnOk W.write_str_gives f.old result
        (printed (named name.now (quote text.now))) f.new }
{
    write!(f, "{name}{text:?})")
}

fn write_bytes<W: fmt::Write>(bytes: &[u8], f: &mut fmt::Formatter<W>) -> fmt::Result
    ensures { DisplaysOnOk W.write_str_gives f.old result
        (printed (named (codes "StdinBytes(") (numbers bytes.now))) f.new }
{
    write!(f, "StdinBytes({bytes:?})")
}

fn write_env<W: fmt::Write>(
    name: &EnvNameString,
    value: &str,
    f: &mut fmt::Formatter<W>,
) -> fmt::Result
    ensures { DisplaysOnOk W.write_str_gives f.old result
        (printed (joined (plain (codes "Env(") ∷ quote name.now ∷ plain (codes ", ")
        ∷ quote value.now ∷ plain (codes ")") ∷ []))) f.new }
{
    write!(f, "Env({name:?}, {value:?})")
}

fn write_env_remove<W: fmt::Write>(name: &EnvNameString, f: &mut fmt::Formatter<W>) -> fmt::Result
    ensures { DisplaysOnOk W.write_str_gives f.old result
        (printed (named (codes "EnvRemove(") (quote name.now))) f.new }
{
    write!(f, "EnvRemove({name:?})")
}

fn write_full_env<W: fmt::Write>(
    vars: Iter<'_, EnvNameString, String>,
    f: &mut fmt::Formatter<W>,
) -> fmt::Result
    ensures { DisplaysOnOk W.write_str_gives f.old result
        (printed (joined (plain (codes "FullEnv({") ∷ vars_form [] (map var_view vars.entry)
        ∷ plain (codes "})") ∷ []))) f.new }
{
    f.write_str("FullEnv({")?;
    write_vars(vars, "", f)?;
    f.write_str("})")
}

// Writes a command with these words.
#[tactic(auto, using(duct_status::proofs::Shown::list_of_map))]
fn write_command<W: fmt::Write>(words: &[String], f: &mut fmt::Formatter<W>) -> fmt::Result
    ensures { DisplaysOnOk W.write_str_gives f.old result
        (printed (named (codes "Cmd(") (texts (map string_bytes words.now)))) f.new }
{
    write!(f, "Cmd({words:?})")
}

// Writes the remaining variables, with `lead` before the first and a comma before each other one.
fn write_vars<W: fmt::Write>(
    mut rest: Iter<'_, EnvNameString, String>,
    lead: &str,
    f: &mut fmt::Formatter<W>,
) -> fmt::Result
    ensures { DisplaysOnOk W.write_str_gives f.old result
        (printed (vars_form lead.now (map var_view rest.entry))) f.new }
{
    match rest.next() {
        None => Ok(()),
        Some((name, value)) => {
            write!(f, "{lead}{name:?}: {value:?}")?;
            write_vars(rest, ", ", f)
        }
    }
}
