//! The first pass of a start: it compiles a tree to a flat list of actions, the scopes that they
//! name, and the shape of the tree. It makes no request to a system.
ghost use Rattle.std.specs.Arc.{arc_value};
ghost use Rattle.std.specs.Prelude.{◌≡◌, ◌+◌, ◌++◌, ◌∷◌, [], length, map, string_bytes, IfOk, OnOk, IsOkUnless};
ghost use Rattle.duct_status.specs.ShapeView.{command_count, input_count, shape_view};
ghost use Rattle.duct_run.specs.Flat.{command_actions, depth_inside, on_side, opened_source, port_at, slot, source_actions, source_inside};
ghost use Rattle.duct_run.specs.ActionList.{list_of, scope_index};
ghost use Rattle.duct_start.specs.ShapeOfTree.{shape_of_tree};
ghost use Rattle.duct_start.specs.Row.{row};
ghost use Rattle.duct_start.specs.TreeView.{ModifierView, TreeView, around};
ghost use Rattle.duct_run.specs.RunContract.{tree_for};
ghost use Rattle.duct_run.specs.ActionView.{action_view, actions_view, scopes_view};
ghost use Rattle.duct_tree.specs.EffectView.{effect_view, input_route_view, opening_view, output_route_view, says_view};
ghost use Rattle.duct_tree.specs.ActionListView.{source_view, sources_view, closings, action_list_view, openings, with_ending, with_scope, with_tree};
ghost use Rattle.duct_tree.specs.NodeView.{node_view};

mod action_list;
mod context;

use crate::compile::action_list::more;
use crate::compile::context::{NodeContext, StreamSource};
use crate::effect::{Effect, InputRoute, Opening, OutputRoute, effect_of};
use crate::shape::{marked, piped};
use crate::tree::{Modifier, Node};
pub use action_list::ActionList;
use duct_base::error::Error;
use duct_base::spec::{Port, Stream};
use duct_base::status::Shape;
use duct_base::system::Side;
use duct_run::action::{Action, Ports};
use duct_run::scope::Setting;
use duct_run::start::StartKind;
use std::alloc::Global;
use std::sync::Arc;

/// What a start runs, and the shape of its tree.
#[derive(Drop)]
pub struct Compiled<'a, E, H> {
    /// The actions and the scopes that they name.
    pub list: ActionList<'a, E, H>,
    /// The shape of the tree. It shares the words of the commands.
    pub shape: Arc<Shape>,
    pub ghost commands_counted: { list.commands ≡ command_count (shape_view (arc_value shape)) },
    pub ghost inputs_counted: { list.inputs ≡ input_count (shape_view (arc_value shape)) },
}

/// Compiles a node's tree for a start of this kind, in one pass. A start that reads has one more
/// capture of stdout around its tree, which leaves the shape as it is. Fails only with
/// `Error::Memory`, on allocation failure, where a count does not fit in a `usize`, or where the
/// words of a command have too many owners.
pub fn compile<'a, E, H>(
    alloc: Global,
    root: &'a Node<E, H>,
    kind: StartKind,
) -> Result<Compiled<'a, E, H>, Error>
    ensures list { IfOk result (λ compiled.
        action_list_view compiled.list ≡ list_of (tree_for kind (node_view root.now))) }
    ensures shape { IfOk result (λ compiled.
        shape_view (arc_value compiled.shape) ≡ shape_of_tree (node_view root.now)) }
    ensures memory { IsOkUnless result Error.Memory }
{
    let (mut list, inside) = begin(alloc, kind)?;
    let shape = walk(alloc, root, inside, &mut list)?;
    let shape = Arc::new(alloc, shape)?;
    Ok(Compiled { list, shape })
}

// Returns a list of what a start of this kind has before its tree, and the context of the tree.
fn begin<'a, E, H>(
    alloc: Global,
    kind: StartKind,
) -> Result<(ActionList<'a, E, H>, NodeContext<'a, E>), Error>
    ensures list { IfOk result (λ begun. (tree : TreeView E H) →
        with_tree begun.1 tree (action_list_view begun.0) ≡ list_of (tree_for kind tree)) }
    ensures memory { IsOkUnless result Error.Memory }
{
    let mut list = ActionList::new(alloc);
    let root = NodeContext::root();
    match kind {
        StartKind::Draining => Ok((list, root)),
        StartKind::Reading => {
            list.add(Action::Capture(Side::Out))?;
            Ok((list, root.with_output(StreamSource::Captured(Side::Out))))
        }
    }
}

// Adds the actions and the scopes of a tree in this context. Returns the shape of the tree.
fn walk<'a, E, H>(
    alloc: Global,
    node: &'a Node<E, H>,
    inside: NodeContext<'a, E>,
    list: &mut ActionList<'a, E, H>,
) -> Result<Shape, Error>
    ensures list { OnOk result (action_list_view list.new
        ≡ with_tree inside.entry (node_view node.now) (action_list_view list.old)) }
    ensures shape { IfOk result (λ shape. shape_view shape ≡ shape_of_tree (node_view node.now)) }
    ensures memory { IsOkUnless result Error.Memory }
{
    match node {
        Node::Cmd(words) => {
            command(words, inside, list)?;
            Ok(Shape::Command(words.clone()?))
        }
        Node::Pipe(left, right) => {
            let reader = inside.depth;
            let writer = more(reader, 1)?;
            let writing = inside.deeper(2)?.with_output(StreamSource::Slot(writer));
            let reading = inside.deeper(1)?.with_input(StreamSource::Slot(reader));
            list.add(Action::Pipe)?;
            let left = walk(alloc, left, writing, list)?;
            list.add(Action::Close)?;
            let right = walk(alloc, right, reading, list)?;
            let shape = piped(alloc, left, right)?;
            list.add(Action::Close)?;
            Ok(shape)
        }
        Node::Io(modifier, inner) => {
            let effect = effect_of(modifier);
            let within = enter(effect, inside, list)?;
            let inner = walk(alloc, inner, within, list)?;
            let shape = marked(alloc, effect.mark, inner)?;
            close(effect.opening, list)?;
            Ok(shape)
        }
    }
}

// Adds the scope of a node, and its actions that come before those of the inner expression. Returns
// the context of the inner expression.
fn enter<'a, E, H>(
    effect: Effect<'a, E, H>,
    inside: NodeContext<'a, E>,
    list: &mut ActionList<'a, E, H>,
) -> Result<NodeContext<'a, E>, Error>
    ensures list { IfOk result (λ within. (modifier : ModifierView E H) (tree : TreeView E H)
        → effect_view effect.entry ≡ row modifier
        → with_ending modifier (with_tree within tree (action_list_view list.new))
        ≡ with_tree inside.entry (around modifier tree) (action_list_view list.old)) }
    ensures memory { IsOkUnless result Error.Memory }
{
    let opened = open(effect.opening, inside.depth, list)?;
    let scope = scoped(effect.setting, inside.scope, list)?;
    Ok(NodeContext {
        scope,
        input: input_source(effect.input, opened.source, inside),
        output: output_source(effect.output, opened.source, inside),
        error: output_source(effect.error, opened.source, inside),
        depth: opened.depth,
    })
}

// What an opening leaves: the source of what it opened, and how many ends are on the stack then.
#[derive(Drop)]
struct Opened<'a, E> {
    source: StreamSource<'a, E>,
    depth: usize,
}

// Adds the action of an opening, where the stack has this depth.
fn open<'a, E, H>(
    opening: Opening<'a>,
    depth: usize,
    list: &mut ActionList<'a, E, H>,
) -> Result<Opened<'a, E>, Error>
    ensures source { IfOk result
        (λ opened. source_view opened.source ≡ opened_source (opening_view opening.entry) depth) }
    ensures depth { IfOk result (λ opened. opened.depth ≡ depth_inside
        (opening_view opening.entry) depth) }
    ensures actions { OnOk result (actions_view list.new.actions.items
        ≡ openings (opening_view opening.entry) (actions_view list.old.actions.items)) }
    ensures scopes { list.new.scopes ≡ list.old.scopes }
    ensures memory { IsOkUnless result Error.Memory }
{
    match opening {
        Opening::Nothing => Ok(Opened {
            source: StreamSource::Nothing,
            depth,
        }),
        Opening::Capture(which) => {
            list.add(Action::Capture(which))?;
            Ok(Opened {
                source: StreamSource::Captured(which),
                depth,
            })
        }
        Opening::Input(_) => pushed(Action::Input, more(depth, 1)?, list),
        Opening::Read(path) => pushed(Action::OpenRead(path), depth, list),
        Opening::Create(path) => pushed(Action::Create(path), depth, list),
    }
}

// Adds an action after which the end on top of the stack is at this depth.
fn pushed<'a, E, H>(
    action: Action<'a, E>,
    top: usize,
    list: &mut ActionList<'a, E, H>,
) -> Result<Opened<'a, E>, Error>
    ensures source { IfOk result (λ opened. source_view opened.source ≡ slot top) }
    ensures depth { IfOk result (λ opened. opened.depth ≡ top + 1) }
    ensures actions { OnOk result (actions_view list.new.actions.items
        ≡ actions_view list.old.actions.items ++ action_view action.entry ∷ []) }
    ensures scopes { list.new.scopes ≡ list.old.scopes }
    ensures memory { IsOkUnless result Error.Memory }
{
    let depth = more(top, 1)?;
    list.add(action)?;
    Ok(Opened {
        source: StreamSource::Slot(top),
        depth,
    })
}

// Adds the scope of a setting inside the scope `outer`, if there is a setting. Returns the index of
// the scope inside the node.
fn scoped<'a, E, H>(
    setting: Option<Setting<'a, E, H>>,
    outer: usize,
    list: &mut ActionList<'a, E, H>,
) -> Result<usize, Error>
    ensures index { IfOk result (λ index. index ≡ scope_index (says_view setting.entry) outer
        (length (scopes_view list.old.scopes.items) + 1)) }
    ensures scopes { OnOk result (scopes_view list.new.scopes.items
        ≡ with_scope (says_view setting.entry) outer (scopes_view list.old.scopes.items)) }
    ensures actions { list.new.actions ≡ list.old.actions }
    ensures memory { IsOkUnless result Error.Memory }
{
    match setting {
        None => Ok(outer),
        Some(setting) => list.add_scope(setting, outer),
    }
}

// Returns the source of stdin where it goes this way.
fn input_source<'a, E>(
    route: InputRoute<'a, E>,
    opened: StreamSource<'a, E>,
    inside: NodeContext<'a, E>,
) -> StreamSource<'a, E>
    ensures { source_view result ≡ source_inside (λ stream. (sources_view inside.entry).input)
        (input_route_view route.entry) (source_view opened.entry) }
{
    match route {
        InputRoute::Outside => inside.input,
        InputRoute::Nothing => StreamSource::Nothing,
        InputRoute::Lent(end) => StreamSource::Lent(end),
        InputRoute::Opened => opened,
    }
}

// Returns the source of stdout or stderr where it goes this way.
fn output_source<'a, E>(
    route: OutputRoute<'a, E>,
    opened: StreamSource<'a, E>,
    inside: NodeContext<'a, E>,
) -> StreamSource<'a, E>
    ensures { source_view result ≡ source_inside (on_side (sources_view inside.entry))
        (output_route_view route.entry) (source_view opened.entry) }
{
    match route {
        OutputRoute::Outside(Side::Out) => inside.output,
        OutputRoute::Outside(Side::Err) => inside.error,
        OutputRoute::Nothing => StreamSource::Nothing,
        OutputRoute::Lent(end) => StreamSource::Lent(end),
        OutputRoute::Opened => opened,
    }
}

// Adds the actions of an opening that come after those of the inner expression.
fn close<'a, E, H>(opening: Opening<'a>, list: &mut ActionList<'a, E, H>) -> Result<(), Error>
    ensures actions { OnOk result (actions_view list.new.actions.items
        ≡ closings (opening_view opening.entry) (actions_view list.old.actions.items)) }
    ensures scopes { list.new.scopes ≡ list.old.scopes }
    ensures memory { IsOkUnless result Error.Memory }
{
    match opening {
        Opening::Nothing | Opening::Capture(_) => Ok(()),
        Opening::Read(_) | Opening::Create(_) => list.add(Action::Close),
        Opening::Input(bytes) => {
            list.add(Action::Close)?;
            list.add(Action::Feed(bytes))
        }
    }
}

// Adds the actions of a command in this context.
fn command<'a, E, H>(
    words: &'a Arc<Vec<String>>,
    inside: NodeContext<'a, E>,
    list: &mut ActionList<'a, E, H>,
) -> Result<(), Error>
    ensures actions { OnOk result (let words = map string_bytes (arc_value words.now).items in
        actions_view list.new.actions.items
        ≡ actions_view list.old.actions.items
        ++ command_actions inside.entry.scope (sources_view inside.entry) words) }
    ensures scopes { list.new.scopes ≡ list.old.scopes }
    ensures memory { IsOkUnless result Error.Memory }
{
    let input = fetch(Stream::In, inside.input, list)?;
    let output = fetch(Stream::Out, inside.output, list)?;
    let error = fetch(Stream::Err, inside.error, list)?;
    let ports = Ports {
        input,
        output,
        error,
    };
    list.reach(more(inside.depth, 3)?);
    list.add(Action::Spawn(inside.scope, words, ports))
}

// Adds the action that gets the end of this stream for a command, if one is needed. Returns the
// port of the stream.
fn fetch<'a, E, H>(
    stream: Stream,
    source: StreamSource<'a, E>,
    list: &mut ActionList<'a, E, H>,
) -> Result<Port, Error>
    ensures port { IfOk result (λ port. port ≡ port_at (source_view source.entry) stream) }
    ensures actions { OnOk result (actions_view list.new.actions.items
        ≡ actions_view list.old.actions.items ++ source_actions (source_view source.entry) stream) }
    ensures scopes { list.new.scopes ≡ list.old.scopes }
    ensures memory { IsOkUnless result Error.Memory }
{
    let action = match source {
        StreamSource::Nothing => return Ok(Port::Null),
        StreamSource::Slot(depth) => Action::Duplicate(depth),
        StreamSource::Captured(which) => Action::DuplicateCapture(which),
        StreamSource::Lent(end) => Action::DuplicateCallerEnd(end),
        StreamSource::Parents(parents) => match (stream, parents) {
            (_, Stream::In) | (Stream::Out, Stream::Out) | (Stream::Err, Stream::Err) => {
                return Ok(Port::Inherit);
            }
            (_, Stream::Out) => Action::Parent(Side::Out),
            (_, Stream::Err) => Action::Parent(Side::Err),
        },
    };
    list.add(action)?;
    Ok(Port::Given)
}
