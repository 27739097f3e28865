//! How a handle is made of what runs, and how it is given up.
ghost use Rattle.std.specs.Prelude.{◌≡◌, ◌≤◌, [], length, map, vec_capacity, IfOk, IsOkUnless, None};
ghost use Rattle.std.specs.Arc.{arc_value};
ghost use Rattle.duct_status.specs.ShapeView.{command_count, input_count, shape_view};
ghost use Rattle.duct_running.specs.NumbersView.{HaveRoom, numbers_of, numbers_view};
ghost use Rattle.duct_running.specs.Stored.{AreUnasked};
ghost use Rattle.duct_handle.specs.Finished.{AreGiven};

use crate::handle::Handle;
use crate::lock::Lock;
use crate::published::Published;
use duct_base::error::Error;
use duct_base::pool::{Pool, pool_lose};
use duct_base::status::Shape;
use duct_base::system::System;
use duct_running::numbers::Numbers;
use duct_running::running::Running;
use duct_system::views::Viewed;
use once_cell::race::OnceBox;
use std::alloc::Global;
use std::marker::PhantomData;
use std::sync::Arc;

/// What a handle keeps outside its lock, and its result, allocated before the first request of a
/// start: the shape of its tree, with room for the numbers and the ids of its children and workers.
#[derive(Drop)]
pub struct HandleBuffers<S: System> {
    pub shape: Arc<Shape>,
    numbers: Numbers,
    ids: Vec<u32>,
    spare: Box<Published<S>>,
    pub ghost numbers_fit: { HaveRoom (shape_view (arc_value shape)) numbers },
    pub ghost ids_fit: { command_count (shape_view (arc_value shape)) ≤ vec_capacity ids },
    pub ghost no_ids: { ids.items ≡ [] },
    pub ghost spare_fits: { HaveRoom (shape_view (arc_value shape)) spare.value.numbers },
    pub ghost same: { arc_value spare.value.shape ≡ arc_value shape },
    pub ghost silent: { spare.value.answer ≡ None },
}

/// Allocates the buffers for a handle of a tree of this shape, with this many commands and inputs.
/// Fails only with `Error::Memory`, on allocation failure or where the shape has too many owners.
pub fn handle_buffers<S: System>(
    alloc: Global,
    shape: &Arc<Shape>,
    commands: usize,
    inputs: usize,
) -> Result<HandleBuffers<S>, Error>
    requires commands { commands ≡ command_count (shape_view (arc_value shape.now)) }
    requires inputs { inputs ≡ input_count (shape_view (arc_value shape.now)) }
    ensures shape { IfOk result (λ room. arc_value room.shape ≡ arc_value shape.now) }
    ensures memory { IsOkUnless result Error.Memory }
{
    let published = Published {
        shape: shape.clone()?,
        numbers: Numbers::with_room(alloc, commands, inputs)?,
        answer: None,
        of: PhantomData,
    };
    let spare = Box::new(alloc, published)?;
    Ok(HandleBuffers {
        shape: shape.clone()?,
        numbers: Numbers::with_room(alloc, commands, inputs)?,
        ids: Vec::with_capacity(alloc, commands)?,
        spare,
    })
}

// Copies these ids, for which there is room.
fn copy_ids(ids: &mut Vec<u32>, from: &[u32])
    requires empty { ids.old.items ≡ [] }
    requires room { length from.now ≤ vec_capacity ids.old }
    ensures { ids.new.items ≡ from.now }
{
    for id in from {
        ids.push_reserved(*id);
    }
}

/// Makes a handle of what runs, in these buffers. It allocates nothing. `running` is as its start
/// left it: no child was polled or given an order, and no worker was polled.
pub fn handle_of<S: System>(alloc: Global, running: Running<S>, room: HandleBuffers<S>) -> Handle<S>
    requires shape { shape_view (arc_value room.shape) ≡ shape_view running.shape }
    requires unasked { AreUnasked ⟦<S as Viewed>⟧.views running.children running.feeds
        running.output running.error }
    ensures shape { shape_view result.shape ≡ shape_view running.shape }
    ensures numbers { result.numbers ≡ numbers_of ⟦<S as Viewed>⟧.views running }
    ensures ids { result.ids ≡ map (λ c. c.process) (map S.Child.child_view running.children) }
{
    let HandleBuffers {
        shape,
        mut numbers,
        mut ids,
        mut spare,
    } = room;
    copy_ids(&mut ids, running.pids());
    running.note_numbers(&mut numbers);
    running.note_numbers(&mut spare.numbers);
    Handle {
        alloc,
        shape,
        numbers,
        ids,
        lock: Lock::new(running, spare),
        cell: OnceBox::new(alloc),
    }
}

// What the lock of a handle held, with the shape and the numbers that were kept outside it.
pub(crate) fn into_locked<S: System>(handle: Handle<S>) -> (Running<S>, Arc<Shape>, Numbers)
    ensures shape { arc_value result.1 ≡ handle.shape }
    ensures numbers { numbers_view result.2 ≡ handle.numbers }
{
    let Handle {
        alloc: _,
        shape,
        numbers,
        ids,
        lock,
        cell,
    } = handle;
    drop((ids, cell));
    (lock.into_running(), shape, numbers)
}

// Gives the children of what a lock held to a pool. Where they don't have the numbers that were
// kept outside the lock, which no start causes, as many as those are counted as lost besides.
pub(crate) fn give_up_released<S: System>(
    released: (Running<S>, Arc<Shape>, Numbers),
    pool: &mut Pool<S::Child>,
)
    ensures { AreGiven ⟦<S as Viewed>⟧.views (numbers_view released.2) (Unit {0}) pool.old
        pool.new }
{
    let (running, shape, numbers) = released;
    let is_known = running.is_of(&shape, &numbers);
    running.give_up(pool);
    if !is_known {
        pool_lose(pool, numbers.children.len());
    }
}

impl<S: System> Handle<S> {
    /// Gives the children to a pool, which may be another one than the start's. Each is polled
    /// once: one that still runs goes to the end of the pool, one that has ended counts as reaped,
    /// and one whose poll is a fault counts as lost. A pool has room for fewer than 2^63 children:
    /// one that runs and finds no room is dropped and counts as lost.
    ///
    /// Nothing is killed and nothing is waited for. The workers go on by themselves. It allocates
    /// nothing and can't fail.
    pub fn give_up(self, pool: &mut Pool<S::Child>)
        ensures { AreGiven ⟦<S as Viewed>⟧.views self.numbers (Unit {0}) pool.old pool.new }
    {
        give_up_released(into_locked(self), pool);
    }
}
