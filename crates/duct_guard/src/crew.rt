//! The children that a guard started and that may still run.
ghost use Rattle.std.specs.Prelude.{◌≡◌, true, Some, Ok, ◌<◌, ◌++◌, ◌∷◌, [], map, vec_len, vec_capacity, OnSome};
ghost use Rattle.duct_guard.specs.Held.{HasEnded, Leaves};

use duct_system::system::{Child, ExitStatus, Fault, Numbered};
use std::alloc::Global;
use std::marker::PhantomData;
use std::sync::{Arc, OnceLock};

/// Says that a child has ended: one of its polls returned an exit status.
#[derive(Drop)]
pub(crate) struct Ended<C: Child> {
    number: u64,
    status: ExitStatus,
    child: PhantomData<C>,
    ghost told: { ∥ C.may_answer number (Ok (Some status)) ∥₁ },
}

/// Where a child's end is noted for its guard.
pub(crate) type Note<C> = Arc<OnceLock<Ended<C>>>;

/// A child that a guard started. It is the child of the system below, and its guard learns from its
/// polls that it has ended: until a poll has returned an exit status, it counts as one that runs,
/// also where it was dropped.
#[derive(Drop)]
pub struct GuardedChild<C: Child> {
    inner: C,
    note: Note<C>,
}

/// Returns whether it is noted that the child with this number has ended.
pub(crate) fn has_ended<C: Child>(note: &Note<C>, number: u64) -> bool
    ensures { result ≡ true → HasEnded C.may_answer number }
{
    match note.get() {
        Some(ended) => ended.number == number,
        None => false,
    }
}

impl<C: Child> Numbered for GuardedChild<C> {
    ghost number_of = { λ child. C.number_of child.inner };

    fn number(&self) -> u64 {
        self.inner.number()
    }
}

impl<C: Child> Child for GuardedChild<C> {
    ghost may_answer = { C.may_answer };

    ghost may_obey = { C.may_obey };

    ghost child_view = { λ child. C.child_view child.inner };

    ghost has_number = { λ child. C.has_number child.inner };

    fn poll(&mut self) -> Result<Option<ExitStatus>, Fault> {
        let answer = self.inner.poll();
        if let Ok(Some(status)) = answer {
            let _ = self.note.try_set(Ended {
                number: self.inner.number(),
                status,
                child: PhantomData,
            });
        }
        answer
    }

    fn kill(&mut self) -> Result<(), Fault> {
        self.inner.kill()
    }

    fn signal(&mut self, signal: i32) -> Result<(), Fault> {
        self.inner.signal(signal)
    }

    fn id(&self) -> u32 {
        self.inner.id()
    }

    fn leads(&self) -> bool {
        self.inner.leads()
    }
}

/// The two owners of a note: the guard and the child.
pub(crate) type Notes<C> = (Note<C>, Note<C>);

/// A child that a guard started, with the note of its end.
#[derive(Drop)]
pub(crate) struct Member<C: Child> {
    number: u64,
    note: Note<C>,
}

/// Forgets the children that have ended.
pub(crate) fn forget_ended<C: Child>(crew: &mut Vec<Member<C>>)
    ensures { ∥ Leaves C.may_answer (map (λ m. m.number) crew.old.items)
        (map (λ m. m.number) crew.new.items) ∥₁ }
{
    let mut place = 0;
    while place < crew.len() {
        let member = &crew[place];
        if has_ended(&member.note, member.number) {
            crew.swap_remove(place);
        } else {
            place += 1;
        }
    }
}

/// Makes room for one more child and returns two owners of its note. Returns `None` only at an
/// allocation failure.
pub(crate) fn prepare<C: Child>(alloc: Global, crew: &mut Vec<Member<C>>) -> Option<Notes<C>>
    ensures same { crew.new.items ≡ crew.old.items }
    ensures room { OnSome result (vec_len crew.new < vec_capacity crew.new) }
{
    crew.reserve(1).ok()?;
    let note = Arc::new(alloc, OnceLock::new()).ok()?;
    let theirs = Arc::try_clone(&note).ok()?;
    Some((note, theirs))
}

/// Adds a child that was just started.
pub(crate) fn join<C: Child>(
    crew: &mut Vec<Member<C>>,
    child: C,
    notes: Notes<C>,
) -> GuardedChild<C>
    requires { vec_len crew.old < vec_capacity crew.old }
    ensures child { result.inner ≡ child }
    ensures crew { map (λ m. m.number) crew.new.items
        ≡ map (λ m. m.number) crew.old.items ++ C.number_of child ∷ [] }
{
    let (note, theirs) = notes;
    crew.push_reserved(Member {
        number: child.number(),
        note,
    });
    GuardedChild {
        inner: child,
        note: theirs,
    }
}
