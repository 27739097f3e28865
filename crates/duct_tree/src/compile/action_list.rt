//! The list that the first pass of a start makes.
ghost use Rattle.std.specs.Prelude.{◌≡◌, ◌+◌, ◌++◌, ◌||◌, [], ◌∷◌, length, IfOk, OnOk, IsOkUnless};
ghost use Rattle.duct_system.specs.declared.system.Side.TheVariants as side;
ghost use Rattle.duct_run.specs.Actions.{captures_in, is_capture};
ghost use Rattle.duct_run.specs.ActionView.{action_view, actions_view, scopes_view, setting_view};
ghost use Rattle.duct_tree.specs.ActionCounts.{feed_count, spawn_count};

use duct_base::error::Error;
use duct_base::status::Drains;
use duct_base::system::Side;
use duct_run::action::Action;
use duct_run::scope::{Scope, Setting};
use std::alloc::Global;

/// The actions of a tree and the scopes that they name, with the numbers by which a start makes
/// room.
#[derive(Drop)]
pub struct ActionList<'a, E, H> {
    pub actions: Vec<Action<'a, E>>,
    pub scopes: Vec<Scope<'a, E, H>>,
    /// How many commands the actions start.
    pub commands: usize,
    /// How many input workers the actions start.
    pub inputs: usize,
    /// Which capture pipes the actions open.
    pub captures: Drains,
    /// The stack never has more ends than this.
    pub deepest: usize,
    pub ghost commands_counted: { commands ≡ spawn_count (actions_view actions.items) },
    pub ghost inputs_counted: { inputs ≡ feed_count (actions_view actions.items) },
    pub ghost output_noted: { captures.out ≡ captures_in side.Out (actions_view actions.items) },
    pub ghost error_noted: { captures.err ≡ captures_in side.Err (actions_view actions.items) },
}

impl<'a, E, H> ActionList<'a, E, H> {
    /// Returns an empty list.
    pub(crate) fn new(alloc: Global) -> ActionList<'a, E, H>
        ensures actions { result.actions.items ≡ [] }
        ensures scopes { result.scopes.items ≡ [] }
    {
        ActionList {
            actions: Vec::new(alloc),
            scopes: Vec::new(alloc),
            commands: 0,
            inputs: 0,
            captures: Drains {
                out: false,
                err: false,
            },
            deepest: 0,
        }
    }

    /// Adds an action.
    pub(crate) fn add(&mut self, action: Action<'a, E>) -> Result<(), Error>
        ensures actions { OnOk result (actions_view self.new.actions.items
            ≡ actions_view self.old.actions.items ++ action_view action.entry ∷ []) }
        ensures scopes { self.new.scopes ≡ self.old.scopes }
        ensures memory { IsOkUnless result Error.Memory }
    {
        let starts = started(action);
        let commands = more(self.commands, starts.0)?;
        let inputs = more(self.inputs, starts.1)?;
        let captures = noted(self.captures, action);
        self.actions.push(action)?;
        self.commands = commands;
        self.inputs = inputs;
        self.captures = captures;
        Ok(())
    }

    /// Notes that this many ends are on the stack.
    pub(crate) fn reach(&mut self, depth: usize)
        ensures actions { self.new.actions ≡ self.old.actions }
        ensures scopes { self.new.scopes ≡ self.old.scopes }
    {
        self.deepest = self.deepest.max(depth);
    }

    /// Adds a scope and returns its index.
    pub(crate) fn add_scope(
        &mut self,
        setting: Setting<'a, E, H>,
        outer: usize,
    ) -> Result<usize, Error>
        ensures index { IfOk result
            (λ index. index ≡ length (scopes_view self.old.scopes.items) + 1) }
        ensures scopes { OnOk result (scopes_view self.new.scopes.items
            ≡ scopes_view self.old.scopes.items ++ (setting_view setting.entry, outer) ∷ []) }
        ensures actions { self.new.actions ≡ self.old.actions }
        ensures memory { IsOkUnless result Error.Memory }
    {
        let index = more(self.scopes.len(), 1)?;
        self.scopes.push(Scope { setting, outer })?;
        Ok(index)
    }
}

// Returns how many commands and how many input workers an action starts.
fn started<E>(action: Action<'_, E>) -> (usize, usize)
    ensures commands { result.0 ≡ spawn_count (action_view action.entry ∷ []) }
    ensures inputs { result.1 ≡ feed_count (action_view action.entry ∷ []) }
{
    match action {
        Action::Spawn(_, _, _) => (1, 0),
        Action::Feed(_) => (0, 1),
        Action::OpenRead(_)
        | Action::Create(_)
        | Action::Pipe
        | Action::Input
        | Action::Capture(_)
        | Action::Duplicate(_)
        | Action::DuplicateCapture(_)
        | Action::DuplicateCallerEnd(_)
        | Action::Parent(_)
        | Action::Close => (0, 0),
    }
}

// Returns which capture pipes are opened by an action, or were before it.
fn noted<E>(captures: Drains, action: Action<'_, E>) -> Drains
    ensures out { result.out ≡ (is_capture side.Out (action_view action.entry) || captures.out) }
    ensures err { result.err ≡ (is_capture side.Err (action_view action.entry) || captures.err) }
{
    match action {
        Action::Capture(Side::Out) => Drains {
            out: true,
            ..captures
        },
        Action::Capture(Side::Err) => Drains {
            err: true,
            ..captures
        },
        Action::OpenRead(_)
        | Action::Create(_)
        | Action::Pipe
        | Action::Input
        | Action::Duplicate(_)
        | Action::DuplicateCapture(_)
        | Action::DuplicateCallerEnd(_)
        | Action::Parent(_)
        | Action::Close
        | Action::Spawn(_, _, _)
        | Action::Feed(_) => captures,
    }
}

/// Returns `count + by`. Fails with `Error::Memory` where that does not fit in a `usize`.
pub(crate) fn more(count: usize, by: usize) -> Result<usize, Error>
    ensures sum { IfOk result (λ sum. sum ≡ count + by) }
    ensures memory { IsOkUnless result Error.Memory }
{
    count.checked_add(by).ok_or(Error::Memory)
}
