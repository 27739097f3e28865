//! The output itself, once no thread shares the handle.
ghost use Rattle.std.specs.Prelude.{◌≡◌, ◌⊎◌, OnErr, OnOk, IfOk, IfErr, IsOkAnd, IsOkUnless, Err};
ghost use Rattle.std.specs.Arc.{arc_value};
ghost use Rattle.duct_status.specs.ShapeView.{shape_view};
ghost use Rattle.duct_run.specs.Requested.{PoolGets};
ghost use Rattle.duct_running.specs.Answered.{IsAnswer, IsConcluded};
ghost use Rattle.duct_running.specs.Polled.{IsOutput};
ghost use Rattle.duct_status.specs.ReplyView.{answered};
ghost use Rattle.duct_running.specs.NumbersView.{numbers_view};
ghost use Rattle.duct_handle.specs.Finished.{AreGiven, IsMismatch};

use crate::buffers::{give_up_released, into_locked};
use crate::handle::Handle;
use crate::poll::mismatch_error;
use duct_base::error::Error;
use duct_base::pool::Pool;
use duct_base::status::Shape;
use duct_base::system::{Kind, Output, System};
use duct_run::ending::give_all;
use duct_running::numbers::Numbers;
use duct_running::running::Running;
use duct_system::views::Viewed;
use std::alloc::{AllocError, Global};
use std::sync::{Arc, Wait};

// A copy of an output.
fn copy(alloc: Global, output: &Output) -> Result<Output, AllocError>
    ensures status { IfOk result (λ copy. copy.status ≡ output.now.status) }
    ensures stdout { IfOk result (λ copy. copy.stdout.items ≡ output.now.stdout.items) }
    ensures stderr { IfOk result (λ copy. copy.stderr.items ≡ output.now.stderr.items) }
{
    Ok(Output {
        status: output.status,
        stdout: Vec::from_slice(alloc, &output.stdout)?,
        stderr: Vec::from_slice(alloc, &output.stderr)?,
    })
}

// The output itself, copied where another owner shares it.
fn owned_output(alloc: Global, output: Arc<Output>) -> Result<Output, Error>
    ensures status { IfOk result (λ own. own.status ≡ (arc_value output).status) }
    ensures stdout { IfOk result (λ own. own.stdout.items ≡ (arc_value output).stdout.items) }
    ensures stderr { IfOk result (λ own. own.stderr.items ≡ (arc_value output).stderr.items) }
    ensures memory { IsOkUnless result Error.Memory }
{
    match Arc::try_unwrap(output) {
        Ok(output) => Ok(output),
        Err(shared) => Ok(copy(alloc, &shared)?),
    }
}

/// Returns what follows a wait: the output itself, copied only where another owner shares it; the
/// pool is then left as it was. Where the wait failed, or the copy at an allocation failure, the
/// children are given to the pool.
pub fn output_or_give_up<S: System>(
    alloc: Global,
    running: Running<S>,
    waited: Result<Arc<Output>, Error>,
    pool: &mut Pool<S::Child>,
) -> Result<Output, Error>
    ensures ok { IfOk result (λ own. IsOkAnd waited (λ output. IsOutput (arc_value output).status
        (arc_value output).stdout.items (arc_value output).stderr.items own)) }
    ensures err { IfErr result (λ e. (waited ≡ Err e) ⊎ (e ≡ Error.Memory)) }
    ensures kept { OnOk result (pool.new ≡ pool.old) }
    ensures given { OnErr result
        (PoolGets ⟦<S as Viewed>⟧.views running.children pool.old pool.new) }
{
    let output = match waited {
        Ok(output) => output,
        Err(error) => {
            running.give_up(pool);
            return Err(error);
        }
    };
    let (children, feeds, drains) = running.into_parts();
    drop((feeds, drains));
    match owned_output(alloc, output) {
        Ok(output) => {
            drop(children);
            Ok(output)
        }
        Err(error) => {
            give_all(pool, children);
            Err(error)
        }
    }
}

// Does the same with what a lock held. Where that doesn't have the shape and the numbers that were
// kept outside the lock, it fails, and gives it up.
fn checked_output_or_give_up<S: System>(
    alloc: Global,
    released: (Running<S>, Arc<Shape>, Numbers),
    waited: Result<Arc<Output>, Error>,
    pool: &mut Pool<S::Child>,
) -> Result<Output, Error>
    ensures ok { IfOk result (λ own. IsOkAnd waited (λ output. IsOutput (arc_value output).status
        (arc_value output).stdout.items (arc_value output).stderr.items own)) }
    ensures err { IfErr result (λ e. (waited ≡ Err e) ⊎ (e ≡ Error.Memory)
        ⊎ (e ≡ Error.System (record { kind = Kind.Other }))) }
    ensures kept { OnOk result (pool.new ≡ pool.old) }
    ensures given { IfErr result (λ e. AreGiven ⟦<S as Viewed>⟧.views (numbers_view released.2)
        (IsMismatch e) pool.old pool.new) }
{
    let (ran, shape, numbers) = released;
    if !ran.is_of(&shape, &numbers) {
        give_up_released((ran, shape, numbers), pool);
        return Err(mismatch_error());
    }
    output_or_give_up(alloc, ran, waited, pool)
}

impl<S: System> Handle<S> {
    /// Waits as `wait` does and returns the output itself, copied only where another owner shares
    /// it. The pool is left as it was. It blocks until the expression has ended.
    ///
    /// Fails as `wait` does, and with `Error::Memory` at an allocation failure of the copy. The
    /// children are then given to the pool, as `give_up` gives them. After `Error::Checked` the
    /// captured bytes are lost.
    pub fn into_output(self, rt: &impl Wait, pool: &mut Pool<S::Child>) -> Result<Output, Error>
        ensures output { IfOk result
            (λ output. IsConcluded ⟦<S as Viewed>⟧.views (shape_view self.shape) self.numbers
            (answered output.status output.stdout.items output.stderr.items)) }
        ensures err { IfErr result
            (λ e. IsAnswer ⟦<S as Viewed>⟧.views (shape_view self.shape) self.numbers (Err e)) }
        ensures kept { OnOk result (pool.new ≡ pool.old) }
        ensures given { IfErr result (λ e. AreGiven ⟦<S as Viewed>⟧.views self.numbers
            (IsMismatch e) pool.old pool.new) }
    {
        let waited = self.wait(rt);
        let alloc = self.alloc;
        checked_output_or_give_up(alloc, into_locked(self), waited, pool)
    }
}
