//! The requests of a start, computed from the tree alone.
ghost use Rattle.std.specs.Prelude.{◌≡◌, ◌+◌, ◌<◌, IfOk, OnOk, map, string_bytes};
ghost use Rattle.duct_run.proofs.PlanInward.{plan_inward};
ghost use Rattle.duct_start.specs.Plan.{with_item, with_capture, with_opening, place_for, with_closing, program_of, is_canonical, initial_plan, with_drain, plan_of, plan_of_reader};
ghost use Rattle.duct_start.specs.Step.{Captures, closing_of, opening_of};
ghost use Rattle.duct_tree.specs.EffectView.{opening_view};
ghost use Rattle.duct_tree.specs.NodeView.{node_view};
ghost use Rattle.duct.specs.TreeView.{tree_view};
ghost use Rattle.duct_plan.specs.PlanView.{found_of, item_of, plan_view};
ghost use Rattle.duct_plan.specs.Inside.{after_tasks, tasks_left, tasks_of_tree};

use crate::items::{Item, Plan, Surroundings, Target};
use duct::tree::Node;
use duct::{Expression, Side, asks_canonical};
use duct_tree::effect::{Opening, effect_of};
use std::alloc::{AllocError, Global};

/// Returns the plan of a start. The workers of the capture pipes come after all commands, stdout's
/// worker first. Fails only on allocation failure.
pub fn plan<'t, E: Drop, H: Drop>(
    alloc: Global,
    expression: &'t Expression<E, H>,
) -> Result<Plan<'t, E, H>, AllocError>
    ensures { IfOk result (λ plan. plan_view plan ≡ plan_of (tree_view expression.now)) }
{
    let mut plan = Plan::initial(alloc)?;
    plan.add_tree(alloc, Surroundings::at_root(alloc), expression.root())?;
    let (out, err) = (plan.out, plan.err);
    plan.add_drain(out)?;
    plan.add_drain(err)?;
    Ok(plan)
}

/// Returns the plan of a reader's start: that of the tree inside one capture of stdout. The reader
/// is its last item, in place of stdout's worker. Fails only on allocation failure.
pub fn plan_of_reader<'t, E: Drop, H: Drop>(
    alloc: Global,
    expression: &'t Expression<E, H>,
) -> Result<Plan<'t, E, H>, AllocError>
    ensures { IfOk result (λ plan. plan_view plan ≡ plan_of_reader (tree_view expression.now)) }
{
    let mut plan = Plan::initial(alloc)?;
    let place = plan.capture(Side::Out)?;
    let mut found = Surroundings::at_root(alloc);
    found.output = Target::WriterAt(place);
    plan.add_tree(alloc, found, expression.root())?;
    let (out, err) = (plan.out, plan.err);
    plan.add_drain(err)?;
    match out {
        None => {}
        Some(pipe) => plan.add(Item::Reader(pipe))?,
    }
    Ok(plan)
}

/// Returns the program of these words: the first word, or an empty text if there are none.
pub(crate) fn program_of(words: &[String]) -> &str
    ensures { result.now ≡ program_of (map string_bytes words.now) }
{
    words.first().map_or("", |program| program.as_str())
}

/// Returns whether the canonical path of a command's program is requested before its spawn.
pub(crate) fn is_canonical<E, H>(found: &Surroundings<'_, E, H>, words: &[String]) -> bool
    ensures { result ≡ is_canonical (found_of found.now) (map string_bytes words.now) }
{
    asks_canonical(program_of(words), found.folder.is_some())
}

/// What is left to do for the plan of a tree.
#[derive(Drop)]
enum Task<'t, E, H> {
    /// Adds the requests of a tree. Its commands find this, and what the tree's own nodes set.
    Visit(Surroundings<'t, E, H>, &'t Node<E, H>),
    /// Adds the request that a node at this place which opens this makes after its inner
    /// expression's: for an input, the worker that feeds the bytes to its pipe.
    Close(Opening<'t>, usize),
}

impl<'t, E: Drop, H: Drop> Plan<'t, E, H> {
    // Returns the plan before its tree: its first request is for the environment.
    fn initial(alloc: Global) -> Result<Plan<'t, E, H>, AllocError>
        ensures { IfOk result (λ plan. plan_view plan ≡ initial_plan) }
    {
        Ok(Plan {
            items: vec![in alloc; Item::Environment]?,
            out: None,
            err: None,
        })
    }

    // Adds one more item at the end.
    fn add(&mut self, item: Item<'t, E, H>) -> Result<(), AllocError>
        ensures { OnOk result
            (plan_view self.new ≡ with_item (item_of item.entry) (plan_view self.old)) }
    {
        Ok(self.items.push(item)?)
    }

    // Adds the worker of a capture pipe, if that pipe is open.
    fn add_drain(&mut self, pipe: Option<usize>) -> Result<(), AllocError>
        ensures { OnOk result (plan_view self.new ≡ with_drain pipe (plan_view self.old)) }
    {
        match pipe {
            None => Ok(()),
            Some(place) => self.add(Item::Drain(place)),
        }
    }

    // Adds the requests of a tree. Its commands find this, and what the tree's own nodes set. A
    // node's first request comes before those of its inner expression, and the left side of a pipe
    // before the right.
    #[tactic(auto, using(crate::proofs::Planned::after_last, crate::proofs::Planned::left_with))]
    fn add_tree(
        &mut self,
        alloc: Global,
        found: Surroundings<'t, E, H>,
        node: &'t Node<E, H>,
    ) -> Result<(), AllocError>
        ensures { OnOk result (plan_view self.new
            ≡ plan_inward (found_of found.entry) (node_view node.now) (plan_view self.old)) }
    {
        let mut tasks = Vec::new(alloc);
        tasks.push(Task::Visit(found, node))?;
        while let Some(task) = tasks.pop() {
            match task {
                Task::Visit(found, node) => self.visit(alloc, &mut tasks, found, node)?,
                Task::Close(opening, place) => self.close(opening, place)?,
            }
        }
        Ok(())
    }

    // Adds the first request of a tree, and to the tasks what is left to do for the tree.
    #[tactic(auto, using(crate::proofs::Planned::after_last, crate::proofs::Planned::left_with))]
    fn visit(
        &mut self,
        alloc: Global,
        tasks: &mut Vec<Task<'t, E, H>>,
        mut found: Surroundings<'t, E, H>,
        node: &'t Node<E, H>,
    ) -> Result<(), AllocError>
        ensures plan { OnOk result (after_tasks tasks.new.items (plan_view self.new)
            ≡ after_tasks tasks.old.items
            (plan_inward (found_of found.entry) (node_view node.now) (plan_view self.old))) }
        ensures fewer { OnOk result (tasks_left tasks.new.items
            < tasks_left tasks.old.items + tasks_of_tree (node_view node.now)) }
    {
        match node {
            Node::Cmd(words) => {
                if is_canonical(&found, words.as_slice()) {
                    self.add(Item::Canonicalize(program_of(words.as_slice())))?;
                }
                self.add(Item::Spawn(found, words.as_slice()))
            }
            Node::Pipe(left, right) => {
                let place = self.items.len();
                let mut reading = found.copied(alloc)?;
                reading.input = Target::ReaderAt(place);
                tasks.push(Task::Visit(reading, right))?;
                found.output = Target::WriterAt(place);
                tasks.push(Task::Visit(found, left))?;
                self.add(Item::Pipe)
            }
            Node::Io(modifier, inner) => {
                let effect = effect_of(modifier);
                let place = self.open(effect.opening)?;
                tasks.push(Task::Close(effect.opening, place))?;
                found.enter(effect, place)?;
                tasks.push(Task::Visit(found, inner))?;
                Ok(())
            }
        }
    }

    // Adds the request that a node which opens this makes before those of its inner expression.
    // Returns the node's place: that of the item or, for a capture, that of its stream's one pipe.
    fn open(&mut self, opening: Opening<'t>) -> Result<usize, AllocError>
        ensures plan { OnOk result (plan_view self.new
            ≡ with_opening (opening_of (opening_view opening.entry)) (plan_view self.old)) }
        ensures place { IfOk result (λ place. place
            ≡ place_for (opening_of (opening_view opening.entry)) (plan_view self.old)) }
    {
        let next = self.items.len();
        match opening {
            Opening::Nothing => {}
            Opening::Input(_) => self.add(Item::Pipe)?,
            Opening::Read(path) => self.add(Item::OpenRead(path))?,
            Opening::Create(path) => self.add(Item::Create(path))?,
            Opening::Capture(side) => return self.capture(side),
        }
        Ok(next)
    }

    // Adds the request for the capture pipe of this stream, if that isn't open yet. Returns its
    // place.
    fn capture(&mut self, side: Side) -> Result<usize, AllocError>
        ensures plan { OnOk result (plan_view self.new ≡ with_capture side (plan_view self.old)) }
        ensures place { IfOk result
            (λ place. place ≡ place_for (Captures side) (plan_view self.old)) }
    {
        let next = self.items.len();
        match (side, self.out, self.err) {
            (Side::Out, Some(place), _) | (Side::Err, _, Some(place)) => return Ok(place),
            (Side::Out, None, _) => self.out = Some(next),
            (Side::Err, _, None) => self.err = Some(next),
        }
        self.items.push(Item::Pipe)?;
        Ok(next)
    }

    // Adds the request that a node at this place which opens this makes after those of its inner
    // expression.
    fn close(&mut self, opening: Opening<'t>, place: usize) -> Result<(), AllocError>
        ensures { OnOk result (plan_view self.new
            ≡ with_closing (closing_of (opening_view opening.entry) place) (plan_view self.old)) }
    {
        match opening {
            Opening::Input(bytes) => self.add(Item::Feed(place, bytes.as_slice())),
            Opening::Nothing | Opening::Read(_) | Opening::Create(_) | Opening::Capture(_) => {
                Ok(())
            }
        }
    }
}
