//! The handle of an expression whose stdout is read from a pipe while it runs.
ghost use Rattle.std.specs.Prelude.{ℕ, ◌≡◌, ◌<◌, ◌≤◌, length, IfOk, Ok, None};
ghost use Rattle.duct_system.specs.declared.system.Order.TheVariants.{Kill};
ghost use Rattle.duct_status.specs.ShapeView.{shape_view};
ghost use Rattle.duct_running.specs.Answered.{IsAnswer};
ghost use Rattle.duct_running.specs.Allowed.{OneRuns};
ghost use Rattle.duct_handle.specs.Finished.{AreGiven};
ghost use Rattle.duct_handle.specs.Obeyed.{IsObeyed};
ghost use Rattle.duct_handle.specs.Reads.{ClosesAs, KnowsOutput, ReadsAs};

use crate::handle::{Handle, Seen};
use crate::pipe::Pipe;
use duct_base::error::Error;
use duct_base::pool::Pool;
use duct_base::system::{Output, System};
use duct_system::views::Viewed;
use std::marker::Model;
use std::sync::{Arc, Wait};

/// A running expression, and the end of the pipe that its stdout is written to. Threads share it by
/// reference. The pipe has a lock of its own: `kill`, `try_wait` and `pids` never wait for a read,
/// and threads that read take turns.
///
/// It reads by std's `Read`, itself and by reference. A read blocks until the pipe has bytes or
/// each process that may write to it has closed it. At EOF it waits for the expression as
/// `Handle::wait` does, and then reads 0 bytes or fails. A fault keeps its kind, an allocation
/// failure is `OutOfMemory`, and a failure that is not unchecked is `Other`, whose message only
/// `read_as` returns. `read_exact` fails with `UnexpectedEof` where the expression ended with an
/// output before the buffer was full.
///
/// A command that finds the pipe full blocks until somebody reads. A reader handle has to be spent,
/// by `give_up`: the compiler rejects a program that drops one.
pub struct ReaderHandle<S: System, R> {
    rt: R,
    handle: Handle<S>,
    pipe: Pipe<S>,
}

impl<S: System, R> Model for ReaderHandle<S, R> {
    ghost use Rattle.std.specs.Coded.{codes};
    ghost use Rattle.duct_status.specs.contracts.status.Shape as shape;
    ghost use Rattle.duct_handle.specs.HandleView.{HandleView};

    ghost Value = { HandleView };

    ghost coded = { Prim.hlevel (codes, shape.the_row.coded) };

    ghost view = { λ r. r.handle };
}

/// Makes a reader handle of a handle and the reader of its stdout, of which nothing was read. Reads
/// and waits take locks and pause by the runtime.
pub fn reader_handle_of<S: System, R>(
    rt: R,
    handle: Handle<S>,
    reader: S::Reader,
) -> ReaderHandle<S, R>
    requires { (number : ℕ) × S.may_read number reader }
    ensures { result ≡ handle }
{
    ReaderHandle {
        rt,
        handle,
        pipe: Pipe::new(reader),
    }
}

impl<S: System, R> ReaderHandle<S, R> {
    /// Returns the process ids of the children, one a command, from left to right. They stay the
    /// same after the commands have ended, when an id may be another process's. It takes no lock
    /// and allocates nothing.
    pub fn pids(&self) -> &[u32]
        ensures { result.now ≡ self.now.ids }
    {
        self.handle.pids()
    }

    /// Returns a token that knows no result yet.
    pub fn seen(&self) -> Seen<S>
        ensures cell { result.cell ≡ self.now.cell }
        ensures unknown { result.known ≡ None }
    {
        self.handle.seen()
    }
}

impl<S: System, R: Wait> ReaderHandle<S, R> {
    /// Polls once and returns the output, or `None` while the expression runs; it fails as
    /// `Handle::try_wait` does. It doesn't read and doesn't wait for a read. The output's `stdout`
    /// is empty: those bytes come out of the reads.
    pub fn try_wait(&self) -> Result<Option<Arc<Output>>, Error>
        ensures told { IsAnswer ⟦<S as Viewed>⟧.views (shape_view self.now.shape)
            self.now.numbers result }
        ensures pending { result ≡ Ok None
            → OneRuns ⟦<S as Viewed>⟧.views self.now.numbers }
    {
        self.handle.try_wait(&self.rt)
    }

    /// Kills each command that is not known as ended, as `Handle::kill` does. It doesn't wait until
    /// they have ended, doesn't wait for a read, and doesn't reach what the commands started
    /// themselves: while such a process holds the pipe open, a read still blocks.
    ///
    /// Fails with `Error::System`, the leftmost fault.
    pub fn kill(&self) -> Result<(), Error>
        ensures { IsObeyed ⟦<S as Viewed>⟧.views Kill self.now.numbers.children result }
    {
        self.handle.kill(&self.rt)
    }

    /// Reads into the buffer and returns how many bytes. It blocks until the pipe has bytes or is
    /// at EOF. At EOF it waits as `Handle::wait_as` does, and returns 0 where the expression ended
    /// with an output. Where the buffer has no room it returns 0 and reads nothing.
    ///
    /// Fails with `Error::System` for a fault of the pipe; the next read reads on. At EOF it fails
    /// as `Handle::wait_as` does: with `Error::Checked` at this and at each further read, with
    /// `Error::System` for a fault of a command or a worker, and with `Error::Memory` only at an
    /// allocation failure. After the last two the next read tries again.
    pub fn read_as(&self, buf: &mut [u8], seen: &mut Seen<S>) -> Result<usize, Error>
        requires { seen.old.cell ≡ self.now.cell }
        ensures bound { IfOk result (λ read. read ≤ length buf.new) }
        ensures reads { ReadsAs ⟦<S as Viewed>⟧.views self.now (length buf.old) seen.old
            seen.new result }
        ensures ended { result ≡ Ok 0 → 0 < length buf.old → KnowsOutput self.now seen.new }
    {
        let read = self.pipe.read(&self.rt, buf)?;
        if read > 0 || buf.is_empty() {
            return Ok(read);
        }
        self.close_as(seen)
    }

    // Waits for what runs, as a read does at EOF.
    fn close_as(&self, seen: &mut Seen<S>) -> Result<usize, Error>
        requires { seen.old.cell ≡ self.now.cell }
        ensures { ClosesAs ⟦<S as Viewed>⟧.views self.now seen.old seen.new result }
    {
        drop(self.handle.wait_as(&self.rt, seen)?);
        Ok(0)
    }
}

impl<S: System, R: Drop> ReaderHandle<S, R> {
    /// Closes the pipe and gives the children to a pool, as `Handle::give_up` does. A command that
    /// goes on writing to the pipe gets a broken pipe. It doesn't block and can't fail.
    pub fn give_up(self, pool: &mut Pool<S::Child>)
        ensures { AreGiven ⟦<S as Viewed>⟧.views self.numbers (Unit {0}) pool.old pool.new }
    {
        let ReaderHandle { rt, handle, pipe } = self;
        drop((rt, pipe));
        handle.give_up(pool);
    }
}
