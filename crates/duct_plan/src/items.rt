//! The items of a plan, each a request of a start, the plan itself, and what a command finds on its
//! path to the root: its folder, the changes of variables, where its streams go, and its hooks.
ghost use Rattle.std.specs.Prelude.{◌≡◌, IfOk, OnOk};
ghost use Rattle.duct_system.specs.declared.spec.Stream.TheVariants.{In};
ghost use Rattle.duct_run.proofs.PlanInward.{surroundings_within};
ghost use Rattle.duct_start.specs.Lookup.{resolved_turn};
ghost use Rattle.duct_start.specs.Step as node;
ghost use Rattle.duct_start.specs.Surroundings as outwards;
ghost use Rattle.duct_tree.specs.EffectView.{effect_view, input_route_view, opening_view, output_route_view};
ghost use Rattle.duct_plan.specs.PlanView.{found_of, target_of};

use duct::{Side, Stream};
use duct_base::names::EnvNameString;
use duct_run::scope::Setting;
use duct_tree::effect::{Effect, InputRoute, Opening, OutputRoute};
use std::alloc::{AllocError, Global};
use std::collections::BTreeMap;
use std::convert::AsStr;

/// Where a stream of a command goes.
#[derive_where(Clone, Copy)]
#[derive_where(Debug; E)]
pub enum Target<'t, E> {
    /// To this stream of the parent.
    Parents(Stream),
    /// To nothing.
    Nothing,
    /// To the read end of the pipe that the item at this place opens.
    ReaderAt(usize),
    /// To the write end of the pipe that the item at this place opens.
    WriterAt(usize),
    /// To the file that the item at this place opens.
    FileAt(usize),
    /// To this caller's end.
    Lends(&'t E),
}

/// How a node changes the variables.
#[derive(Clone, Copy, Debug)]
pub enum VariableChange<'t> {
    /// Sets this name to this value.
    Sets(&'t str, &'t str),
    /// Removes this name.
    Removes(&'t str),
    /// Replaces all variables with these.
    Replaces(&'t BTreeMap<EnvNameString, String>),
}

/// What a command finds on its path to the root.
#[derive(Drop)]
pub struct Surroundings<'t, E, H> {
    /// The folder of the nearest node that sets one.
    pub folder: Option<&'t str>,
    /// The changes of variables, the nearest first.
    pub changes: Vec<VariableChange<'t>>,
    /// Where stdin goes.
    pub input: Target<'t, E>,
    /// Where stdout goes.
    pub output: Target<'t, E>,
    /// Where stderr goes.
    pub error: Target<'t, E>,
    /// The hooks with their ends, the outermost first.
    pub hooks: Vec<(&'t H, &'t [E])>,
}

/// One request of a start. A place is that of another item of the same plan, counted from 0.
///
/// Its debug text is for example `Pipe`, `Create("f")` or `Feed(1, [120])`. A spawn shows only its
/// words: `Spawn(["a", "b"])`.
#[derive(Drop)]
#[derive_where(Debug)]
pub enum Item<'t, E, H> {
    Environment,
    Pipe,
    OpenRead(&'t str),
    Create(&'t str),
    Canonicalize(&'t str),
    /// The spawn of a command: what the command finds on its path to the root, and its words.
    Spawn(#[derive_where(skip)] Surroundings<'t, E, H>, &'t [String]),
    /// The start of a worker that writes these bytes to the pipe that the item at this place opens.
    Feed(usize, &'t [u8]),
    /// The start of a worker that reads the pipe that the item at this place opens.
    Drain(usize),
    /// A reader of the pipe that the item at this place opens.
    Reader(usize),
}

/// The requests of a start, and the places of its capture pipes.
#[derive(Drop)]
#[derive_where(Debug)]
pub struct Plan<'t, E, H> {
    /// The requests, in order.
    pub items: Vec<Item<'t, E, H>>,
    /// The place of stdout's capture pipe, if that is open.
    pub out: Option<usize>,
    /// The place of stderr's capture pipe, if that is open.
    pub err: Option<usize>,
}

impl<'t, E, H> Surroundings<'t, E, H> {
    /// Returns what a command finds that no node is around.
    pub(crate) fn at_root(alloc: Global) -> Surroundings<'t, E, H>
        ensures { found_of result ≡ outwards.root_surroundings }
    {
        Surroundings {
            folder: None,
            changes: Vec::new(alloc),
            input: Target::Parents(Stream::In),
            output: Target::Parents(Stream::Out),
            error: Target::Parents(Stream::Err),
            hooks: Vec::new(alloc),
        }
    }

    /// Returns the same once more. Fails only on allocation failure.
    pub(crate) fn copied(&self, alloc: Global) -> Result<Surroundings<'t, E, H>, AllocError>
        ensures { IfOk result (λ copy. found_of copy ≡ found_of self.now) }
    {
        Ok(Surroundings {
            folder: self.folder,
            changes: Vec::from_slice(alloc, self.changes.as_slice())?,
            input: self.input,
            output: self.output,
            error: self.error,
            hooks: Vec::from_slice(alloc, self.hooks.as_slice())?,
        })
    }

    /// Goes on to what is found inside a node at this place that does this. Fails only on
    /// allocation failure.
    pub(crate) fn enter(&mut self, effect: Effect<'t, E, H>, place: usize) -> Result<(), AllocError>
        ensures { OnOk result (found_of self.new ≡ surroundings_within
            (node.step_of_row (effect_view effect.entry)) place (found_of self.old)) }
    {
        let input = self.input(effect.input, effect.opening, place);
        let output = self.output(effect.output, effect.opening, place);
        self.error = self.output(effect.error, effect.opening, place);
        self.output = output;
        self.input = input;
        let change = match effect.setting {
            None => return Ok(()),
            Some(Setting::Dir(path)) => {
                self.folder = Some(path);
                return Ok(());
            }
            Some(Setting::BeforeSpawn(hook, ends)) => return Ok(self.hooks.push((hook, ends))?),
            Some(Setting::Env(name, value)) => VariableChange::Sets(name.as_str(), value),
            Some(Setting::EnvRemove(name)) => VariableChange::Removes(name.as_str()),
            Some(Setting::FullEnv(vars)) => VariableChange::Replaces(vars),
        };
        Ok(self.changes.insert(0, change)?)
    }

    // Returns where stdin goes that takes this route inside a node at this place.
    fn input(&self, route: InputRoute<'t, E>, opening: Opening<'t>, place: usize) -> Target<'t, E>
        ensures { target_of result ≡ resolved_turn (node.turn_of (λ stream. In)
            (opening_view opening.entry) place (input_route_view route.entry))
            (outwards.target_of (found_of self.now)) }
    {
        match route {
            InputRoute::Outside => self.input,
            InputRoute::Nothing => Target::Nothing,
            InputRoute::Lent(end) => Target::Lends(end),
            InputRoute::Opened => opened_target(opening, place),
        }
    }

    // Returns where stdout or stderr goes that takes this route inside a node at this place.
    fn output(&self, route: OutputRoute<'t, E>, opening: Opening<'t>, place: usize) -> Target<'t, E>
        ensures { target_of result ≡ resolved_turn (node.turn_of node.stream_on
            (opening_view opening.entry) place (output_route_view route.entry))
            (outwards.target_of (found_of self.now)) }
    {
        match route {
            OutputRoute::Outside(Side::Out) => self.output,
            OutputRoute::Outside(Side::Err) => self.error,
            OutputRoute::Nothing => Target::Nothing,
            OutputRoute::Lent(end) => Target::Lends(end),
            OutputRoute::Opened => opened_target(opening, place),
        }
    }
}

// Returns where a stream goes that leads to what a node at this place opens.
fn opened_target<'t, E>(opening: Opening<'t>, place: usize) -> Target<'t, E>
    ensures { target_of result ≡ node.opened_target (opening_view opening.entry) place }
{
    match opening {
        Opening::Nothing => Target::Nothing,
        Opening::Input(_) => Target::ReaderAt(place),
        Opening::Read(_) | Opening::Create(_) => Target::FileAt(place),
        Opening::Capture(_) => Target::WriterAt(place),
    }
}
