//! What the table of calls needs of a machine besides the requests of the library.
use duct::{Clock, Place, Pool, System};
use rows_table::{Lender, TableError, Tree};
use std::sync::Wait;
use std::thread::Threads;

/// The greatest number of polls or sweeps while something still runs.
pub const TURNS: u32 = 30_000;

/// The pool of a system's children.
pub type PoolOf<S> = Pool<<S as System>::Child>;

/// The children, the feeds and the drains of what ran.
pub type PartsOf<S> = (
    Vec<Place<<S as System>::Child>>,
    Vec<<S as System>::Feed>,
    Vec<<S as System>::Drain>,
);

/// A system with a pool. An expression names the ends that the machine lends by their numbers.
pub trait Machine: Lender + Drop {
    /// The system over which expressions are started.
    type System: System<End = Self::End> + Drop;

    /// The clock of the waits with a deadline or a timeout.
    type Clock: Clock;

    /// Returns the system, the pool and the clock.
    fn stage(&mut self) -> (&mut Self::System, &mut PoolOf<Self::System>, &Self::Clock);

    /// Notes what the log has at this moment, if there is one: 0 is when a start begins, 1 when it
    /// has returned, and 2 when the calls since then were made.
    fn mark(&mut self, _moment: usize) {}

    /// Reads a line about the machine, as `Table::line` does.
    fn line(&mut self, key: &str, text: &str, out: &mut String) -> Result<bool, TableError>;

    /// Makes a call that only this machine has, and adds its result. What runs has children of
    /// these ids. Fails if there is no such call.
    fn call(&mut self, call: &str, ids: &[u32], answer: &mut String) -> Result<(), TableError>;

    /// Runs expressions as tasks over the system, as a line of the row says, and adds what came of
    /// each. Fails if the machine has no tasks.
    fn tasks(
        &mut self,
        _rt: &(impl Threads + Wait),
        _trees: &[Tree<Self::End>],
        _text: &str,
        _answers: &mut String,
    ) -> Result<(), TableError> {
        Err(TableError::Text("no tasks"))
    }

    /// Takes the children and workers of what ran, and keeps of them what later lines of the row
    /// are compared with.
    fn spend(&mut self, parts: PartsOf<Self::System>) -> Result<(), TableError>;

    /// Waits for a short time between two polls of what still runs.
    fn pause(&self);

    /// Ends a row, and begins the next one with a new system and an empty pool. Fails if something
    /// is left.
    fn end(&mut self) -> Result<(), TableError>;
}
