//! What each kind of modifier does, as one row.
ghost use Rattle.std.specs.Prelude.{◌≡◌};
ghost use Rattle.duct_start.specs.Row.{row};
ghost use Rattle.duct_tree.specs.EffectView.{effect_view};
ghost use Rattle.duct_tree.specs.NodeView.{modifier_view};

use crate::tree::Modifier;
use duct_base::system::Side;
use duct_run::scope::Setting;
use std::alloc::AllocError;
use std::sync::Arc;

/// What a node opens before its inner expression.
pub enum Opening<'a> {
    /// Nothing.
    Nothing,
    /// A pipe that the inner expression reads from, and to which a worker writes these bytes.
    Input(&'a Arc<Vec<u8>>),
    /// The file at this path, for reading.
    Read(&'a str),
    /// The file at this path, created or emptied, for writing.
    Create(&'a str),
    /// The capture pipe of this stream.
    Capture(Side),
}

impl Clone for Opening<'_> {
    fn clone(&self) -> Result<Self, AllocError> {
        Ok(*self)
    }
}

impl Copy for Opening<'_> {}

/// Where stdin goes inside a node.
pub enum InputRoute<'a, E> {
    /// Where it goes outside the node.
    Outside,
    /// To nothing.
    Nothing,
    /// To this caller's end.
    Lent(&'a E),
    /// To what the node opens.
    Opened,
}

impl<E> Clone for InputRoute<'_, E> {
    fn clone(&self) -> Result<Self, AllocError> {
        Ok(*self)
    }
}

impl<E> Copy for InputRoute<'_, E> {}

/// Where stdout or stderr goes inside a node.
pub enum OutputRoute<'a, E> {
    /// Where this one of the two goes outside the node.
    Outside(Side),
    /// To nothing.
    Nothing,
    /// To this caller's end.
    Lent(&'a E),
    /// To what the node opens.
    Opened,
}

impl<E> Clone for OutputRoute<'_, E> {
    fn clone(&self) -> Result<Self, AllocError> {
        Ok(*self)
    }
}

impl<E> Copy for OutputRoute<'_, E> {}

/// What the shape of a start shows of a node.
#[derive(Clone, Copy)]
pub enum Mark {
    /// Nothing: the shape leaves the node out.
    Plain,
    /// That the node has an input worker.
    Input,
    /// That the failure of the inner expression is no error.
    Unchecked,
}

/// What a node does.
pub struct Effect<'a, E, H> {
    /// What it opens.
    pub opening: Opening<'a>,
    /// Where stdin goes.
    pub input: InputRoute<'a, E>,
    /// Where stdout goes.
    pub output: OutputRoute<'a, E>,
    /// Where stderr goes.
    pub error: OutputRoute<'a, E>,
    /// What it sets, if anything: the folder, a change of the variables, or a hook.
    pub setting: Option<Setting<'a, E, H>>,
    /// What the shape shows of it.
    pub mark: Mark,
}

impl<E, H> Clone for Effect<'_, E, H> {
    fn clone(&self) -> Result<Self, AllocError> {
        Ok(*self)
    }
}

impl<E, H> Copy for Effect<'_, E, H> {}

/// Returns what a modifier does: the row of its kind.
#[rattlefmt::skip]
pub fn effect_of<E, H>(modifier: &Modifier<E, H>) -> Effect<'_, E, H>
    ensures { effect_view result ≡ row (modifier_view modifier.now) }
{
    let idle = Effect {
        opening: Opening::Nothing,
        input: InputRoute::Outside,
        output: OutputRoute::Outside(Side::Out),
        error: OutputRoute::Outside(Side::Err),
        setting: None,
        mark: Mark::Plain,
    };
    match modifier {
        Modifier::StdinBytes(bytes) => Effect { opening: Opening::Input(bytes), input: InputRoute::Opened, mark: Mark::Input, ..idle },
        Modifier::StdinPath(path) => Effect { opening: Opening::Read(path.as_str()), input: InputRoute::Opened, ..idle },
        Modifier::StdinFile(end) => Effect { input: InputRoute::Lent(end), ..idle },
        Modifier::StdinNull => Effect { input: InputRoute::Nothing, ..idle },
        Modifier::StdoutPath(path) => Effect { opening: Opening::Create(path.as_str()), output: OutputRoute::Opened, ..idle },
        Modifier::StdoutFile(end) => Effect { output: OutputRoute::Lent(end), ..idle },
        Modifier::StdoutNull => Effect { output: OutputRoute::Nothing, ..idle },
        Modifier::StdoutCapture => Effect { opening: Opening::Capture(Side::Out), output: OutputRoute::Opened, ..idle },
        Modifier::StdoutToStderr => Effect { output: OutputRoute::Outside(Side::Err), ..idle },
        Modifier::StderrPath(path) => Effect { opening: Opening::Create(path.as_str()), error: OutputRoute::Opened, ..idle },
        Modifier::StderrFile(end) => Effect { error: OutputRoute::Lent(end), ..idle },
        Modifier::StderrNull => Effect { error: OutputRoute::Nothing, ..idle },
        Modifier::StderrCapture => Effect { opening: Opening::Capture(Side::Err), error: OutputRoute::Opened, ..idle },
        Modifier::StderrToStdout => Effect { error: OutputRoute::Outside(Side::Out), ..idle },
        Modifier::StdoutStderrSwap => Effect { output: OutputRoute::Outside(Side::Err), error: OutputRoute::Outside(Side::Out), ..idle },
        Modifier::Dir(path) => Effect { setting: Some(Setting::Dir(path.as_str())), ..idle },
        Modifier::Env(name, value) => Effect { setting: Some(Setting::Env(name, value.as_str())), ..idle },
        Modifier::EnvRemove(name) => Effect { setting: Some(Setting::EnvRemove(name)), ..idle },
        Modifier::FullEnv(vars) => Effect { setting: Some(Setting::FullEnv(vars)), ..idle },
        Modifier::Unchecked => Effect { mark: Mark::Unchecked, ..idle },
        Modifier::BeforeSpawn(hook, ends) => Effect { setting: Some(Setting::BeforeSpawn(hook, ends.as_slice())), ..idle },
    }
}
