//! The handle: a lock around what runs, and outside the lock the shape, the numbers, the ids and
//! the result.
ghost use Rattle.std.specs.Prelude.{◌≡◌, IfNone, IfSome, Ok, Some, None};
ghost use Rattle.std.specs.Arc.{arc_value};
ghost use Rattle.duct_status.specs.ShapeView.{shape_view};
ghost use Rattle.duct_running.specs.Answered.{IsAnswer};
ghost use Rattle.duct_running.specs.NumbersView.{numbers_view};
ghost use Rattle.duct_running.specs.Allowed.{OneRuns};
ghost use Rattle.duct_handle.specs.Waited.{GivesAgain, KnowsIfEnded, Waited};

use crate::lock::{Guard, Lock};
use crate::poll::{mismatch_error, same};
use crate::published::{Answer, Published};
use duct_base::error::Error;
use duct_base::status::Shape;
use duct_base::system::{Output, System};
use duct_running::numbers::Numbers;
use duct_system::views::Viewed;
use once_cell::race::{Note, OnceBox};
use std::alloc::Global;
use std::marker::Model;
use std::sync::{Arc, Wait};

/// A running expression, which threads share by reference. The result is published once, and every
/// wait returns it.
///
/// Calls that take its lock wait for one another: a poll holds it no longer than it polls,
/// `send_signal` until the signal is sent. A handle has to be spent, by `into_output` or `give_up`:
/// the compiler rejects a program that drops one.
pub struct Handle<S: System> {
    pub(crate) alloc: Global,
    pub(crate) shape: Arc<Shape>,
    pub(crate) numbers: Numbers,
    pub(crate) ids: Vec<u32>,
    pub(crate) lock: Lock<S>,
    pub(crate) cell: OnceBox<Published<S>>,
}

impl<S: System> Model for Handle<S> {
    ghost use Rattle.std.specs.Arc.{arc_value};
    ghost use Rattle.std.specs.Coded.{codes};
    ghost use Rattle.duct_status.specs.contracts.status.Shape as shapes;
    ghost use Rattle.duct_running.specs.NumbersView.{numbers_view};
    ghost use Rattle.duct_handle.specs.HandleView.{HandleView};
    ghost use Rattle.once_cell.specs.Once.{cell_name};

    ghost Value = { HandleView };

    ghost coded = { Prim.hlevel (codes, shapes.the_row.coded) };

    ghost view = { λ h. record {
      shape = arc_value h.shape;
      numbers = numbers_view h.numbers;
      ids = h.ids.items;
      cell = cell_name h.cell;
    } };
}

/// What a caller knows of the result of one handle, and of no other. A call that returns an output
/// or `Error::Checked` makes its token know that result. A wait with a token that knows it returns
/// it again, without the lock.
#[derive(Drop)]
pub struct Seen<S: System> {
    note: Note<Published<S>>,
    // Whether the note knows what is published.
    pub(crate) knows: bool,
}

impl<S: System> Model for Seen<S> {
    ghost use Rattle.std.specs.Arc.{arc_value};
    ghost use Rattle.std.specs.Coded.{codes};
    ghost use Rattle.std.specs.Prelude.{◌≡◌, is_some, option_map};
    ghost use Rattle.duct_status.specs.contracts.status.Shape as shape;
    ghost use Rattle.duct_running.specs.NumbersView.{numbers_view};
    ghost use Rattle.duct_handle.specs.contracts.published.Answer as answer;
    ghost use Rattle.duct_handle.specs.HandleView.{SeenView};

    ghost Value = { SeenView };

    ghost coded = { Prim.hlevel (codes, shape.the_row.coded, answer.the_row.coded) };

    ghost invariant = { λ s. s.knows ≡ is_some s.note.known };

    ghost view = { λ s. record {
      cell = s.note.cell;
      known = option_map (λ p. record {
        shape = arc_value p.shape;
        numbers = numbers_view p.numbers;
        answer = p.answer;
      }) s.note.known;
    } };
}

impl<S: System> Seen<S> {
    /// Compares with another token of the same handle: two that know a result know the same one, in
    /// whatever threads they were. It changes nothing; it is for proofs.
    pub fn agree(&mut self, other: Seen<S>)
        requires { other.cell ≡ self.old.cell }
        ensures same { self.new ≡ self.old }
        ensures agree { IfSome other.known
            (λ known. IfSome self.old.known (λ mine. mine ≡ known)) }
    {
        let Seen { note, knows: _ } = other;
        self.note.compare(note);
    }
}

impl<S: System> Handle<S> {
    /// Returns a token that knows no result yet.
    pub fn seen(&self) -> Seen<S>
        ensures cell { result.cell ≡ self.now.cell }
        ensures unknown { result.known ≡ None }
    {
        Seen {
            note: self.cell.note(),
            knows: false,
        }
    }

    /// Polls once, unless the result is published already, and returns the output, or `None` while
    /// the expression runs. It doesn't wait until it has ended.
    ///
    /// Fails with `Error::Checked` for a failure that is not unchecked, and with `Error::System`
    /// for a fault of a command or a worker. It also fails with `Error::System` of kind `Other` if
    /// the lock holds something else than the handle was made of, which no start causes. Fails with
    /// `Error::Memory` only at an allocation failure. After `Error::System` and `Error::Memory` the
    /// call may be repeated.
    pub fn try_wait_as(
        &self,
        rt: &impl Wait,
        seen: &mut Seen<S>,
    ) -> Result<Option<Arc<Output>>, Error>
        requires { seen.old.cell ≡ self.now.cell }
        ensures { Waited ⟦<S as Viewed>⟧.views self.now seen.old seen.new result }
    {
        let mut busy = false;
        self.poll_as(rt, seen, &mut busy)
    }

    /// Does what `try_wait_as` does, with a token of its own.
    pub fn try_wait(&self, rt: &impl Wait) -> Result<Option<Arc<Output>>, Error>
        ensures told { IsAnswer ⟦<S as Viewed>⟧.views (shape_view self.now.shape)
            self.now.numbers result }
        ensures pending { result ≡ Ok None
            → OneRuns ⟦<S as Viewed>⟧.views self.now.numbers }
    {
        let mut seen = self.seen();
        self.try_wait_as(rt, &mut seen)
    }

    // Does what `try_wait_as` does, and sets `busy` where a command said `Running` in that poll.
    pub(crate) fn poll_as(
        &self,
        rt: &impl Wait,
        seen: &mut Seen<S>,
        busy: &mut bool,
    ) -> Result<Option<Arc<Output>>, Error>
        requires { seen.old.cell ≡ self.now.cell }
        ensures { Waited ⟦<S as Viewed>⟧.views self.now seen.old seen.new result }
    {
        if let Some(answer) = self.recall(seen) {
            return answer;
        }
        let guard = self.lock.lock(rt);
        if let Some(answer) = self.recall(seen) {
            return answer;
        }
        self.poll_locked(guard, seen, busy)
    }

    // The result, if it is published already.
    fn recall(&self, seen: &mut Seen<S>) -> Option<Result<Option<Arc<Output>>, Error>>
        requires { seen.old.cell ≡ self.now.cell }
        ensures known { IfSome result
            (Waited ⟦<S as Viewed>⟧.views self.now seen.old seen.new) }
        ensures unknown { IfNone result ((seen.old.known ≡ None) × (seen.new ≡ seen.old)) }
    {
        if let Some(published) = self.cell.get_as(&mut seen.note) {
            seen.knows = true;
            return Some(self.share(published));
        }
        None
    }

    // Polls what the lock holds, once, and publishes how it ended.
    fn poll_locked(
        &self,
        guard: Guard<'_, S>,
        seen: &mut Seen<S>,
        busy: &mut bool,
    ) -> Result<Option<Arc<Output>>, Error>
        requires cell { seen.old.cell ≡ self.now.cell }
        requires unknown { seen.old.known ≡ None }
        ensures { Waited ⟦<S as Viewed>⟧.views self.now seen.old seen.new result }
    {
        let (looked, spent) = guard.poll(&self.shape, &self.numbers);
        *busy = spent.is_busy();
        let published = match looked {
            Ok(Some(published)) => published,
            Ok(None) => return Ok(None),
            Err(error) => return Err(error),
        };
        let _ = self.cell.set_as(published, &mut seen.note);
        seen.knows = true;
        match self.cell.get_as(&mut seen.note) {
            Some(published) => self.share(published),
            None => unreachable!(),
        }
    }

    // Returns what was published, with one more owner.
    fn share(&self, published: &Published<S>) -> Result<Option<Arc<Output>>, Error>
        ensures told { IsAnswer ⟦<S as Viewed>⟧.views (shape_view self.now.shape)
            self.now.numbers result }
        ensures pending { result ≡ Ok None → ⊥ }
        ensures knows { KnowsIfEnded self.now (record {
          cell = self.now.cell;
          known = Some (record {
            shape = arc_value published.now.shape;
            numbers = numbers_view published.now.numbers;
            answer = published.now.answer;
          });
        }) result }
        ensures again { GivesAgain self.now (record {
          shape = arc_value published.now.shape;
          numbers = numbers_view published.now.numbers;
          answer = published.now.answer;
        }) result }
    {
        if !same(published, &self.shape, &self.numbers) {
            return Err(mismatch_error());
        }
        match &published.answer {
            Some(Answer::Output(output)) => Ok(Some(Arc::try_clone(output)?)),
            Some(Answer::Failed(text)) => Err(Error::Checked(Arc::try_clone(text)?)),
            None => Err(mismatch_error()),
        }
    }
}
