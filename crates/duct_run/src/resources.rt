//! The resources of a run: a stack of ends, the ends of its capture pipes, its children and its
//! workers.
ghost use Rattle.std.specs.Prelude.{◌≡◌, ◌≤◌, ◌+◌, ◌++◌, [], ◌∷◌, vec_len, vec_capacity, IfOk, OnOk, IsOkUnless};
ghost use Rattle.duct_run.specs.ResourcesView.{HasRoom, AreSame, IsEmpty};

use duct_base::error::Error;
use duct_base::per_side::PerSide;
use duct_base::system::Numbered;
use std::alloc::Global;

/// The resources of a run.
#[derive(Drop)]
pub struct Resources<E, C, F, D> {
    /// The stack of ends, its top last.
    pub stack: Vec<E>,
    /// The capture pipe of each output stream while it is open: the read end, then the write end.
    pub pipes: PerSide<Option<(E, E)>>,
    /// The children, from left to right.
    pub children: Vec<C>,
    /// The input workers, in the order of their starts.
    pub feeds: Vec<F>,
    /// The worker of each capture pipe.
    pub drains: PerSide<Option<D>>,
}

/// Returns empty resources, with room for this many ends, children and input workers. Fails only
/// with `Error::Memory`, on allocation failure.
pub fn no_resources<E: Drop, C: Drop, F: Drop, D: Drop>(
    alloc: Global,
    ends: usize,
    children: usize,
    feeds: usize,
) -> Result<Resources<E, C, F, D>, Error>
    ensures empty { IfOk result IsEmpty }
    ensures memory { IsOkUnless result Error.Memory }
{
    let stack = Vec::with_capacity(alloc, ends)?;
    let children = Vec::with_capacity(alloc, children)?;
    let feeds = Vec::with_capacity(alloc, feeds)?;
    Ok(Resources {
        stack,
        pipes: PerSide {
            out: None,
            err: None,
        },
        children,
        feeds,
        drains: PerSide {
            out: None,
            err: None,
        },
    })
}

// Pops the end on top.
pub(crate) fn top<E: Numbered>(stack: &mut Vec<E>) -> E
    requires { 1 ≤ vec_len stack.old }
    ensures items { stack.old.items ≡ stack.new.items ++ result ∷ [] }
    ensures len { vec_len stack.new + 1 ≡ vec_len stack.old }
    ensures capacity { vec_capacity stack.new ≡ vec_capacity stack.old }
{
    match stack.pop() {
        Some(end) => end,
        None => unreachable!(),
    }
}

// Makes room for what any one action gets. It allocates nothing if there is room already.
pub(crate) fn make_room<E, C, F, D>(held: &mut Resources<E, C, F, D>) -> Result<(), Error>
    ensures same { AreSame held.old held.new }
    ensures room { OnOk result (HasRoom held.new) }
    ensures memory { IsOkUnless result Error.Memory }
{
    held.stack.reserve(3)?;
    held.children.reserve(1)?;
    held.feeds.reserve(1)?;
    Ok(())
}
