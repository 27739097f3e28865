//! A running expression: its children, its workers, and the results so far.
ghost use Rattle.std.specs.Prelude.{◌≡◌, ◌↔◌, ◌<◌, ◌≤◌, [], ◌++◌, length, map, is_some, vec_capacity, IsTrue, Ok, None};
ghost use Rattle.std.specs.Arc.{arc_value};
ghost use Rattle.std.specs.Option.{option_to_list};
ghost use Rattle.duct_system.specs.declared.system.Side.TheVariants.{Out, Err};
ghost use Rattle.duct_status.specs.CoreView.{latest_in, shape_in};
ghost use Rattle.duct_status.specs.Latest.{latest_told};
ghost use Rattle.duct_status.specs.ReplyView.{reply_view};
ghost use Rattle.duct_status.specs.ShapeView.{command_count, input_count, shape_view};
ghost use Rattle.duct_running.specs.Polled.{IsConclusion, Gives, ReturnsOutcome, ChildAskedAt, ChildrenAsked, FeedPolledAt, FeedsPolled, StreamPolled, is_awaited, PolledOnce};
ghost use Rattle.duct_running.specs.Stored.{answer_word, stored_in};
ghost use Rattle.duct_running.specs.RunningInvariant.{FitsShape};
ghost use Rattle.duct_run.specs.Requested.{HoldsUnasked};
ghost use Rattle.duct_running.specs.NumbersView.{numbers_of};
ghost use Rattle.duct_running.specs.Allowed.{OneIsRunning, OneRuns, StoresAllowed};

mod orders;

use duct_base::error::Error;
use duct_base::per_side::PerSide;
use duct_base::pool::Place;
use duct_base::status::{Core, Event, Reply, Shape, Word};
use duct_base::system::{Child, ExitStatus, Fault, Job, Output, Side, System};
use duct_run::resources::Resources;
use duct_system::views::Viewed;
use std::marker::Model;
use std::sync::Arc;

/// What a start leaves: its children, its workers, and their results so far. `poll` polls them, and
/// `kill` and `signal` send orders to the children. It has to be spent, by `into_parts` or
/// `give_up`.
pub struct Running<S: System> {
    pub(crate) core: Core,
    // The ids of the children.
    ids: Vec<u32>,
    pub(crate) children: Vec<Place<S::Child>>,
    pub(crate) feeds: Vec<S::Feed>,
    pub(crate) drains: PerSide<Option<S::Drain>>,
    // Empty, with room for the capture workers, so that `into_parts` allocates nothing.
    room: Vec<S::Drain>,
}

impl<S: System> Model for Running<S> {
    ghost use Rattle.std.specs.Arc.{arc_value};
    ghost use Rattle.std.specs.Coded.{codes};
    ghost use Rattle.duct_status.specs.CoreView.{latest_in, shape_in};
    ghost use Rattle.duct_status.specs.contracts.status.Shape as shape;
    ghost use Rattle.duct_start.specs.Running.{RunningView};
    ghost use Rattle.duct_running.specs.RunningInvariant.{RunningInvariant};

    ghost Value = { RunningView S.Child S.Feed S.Drain };

    ghost coded = { Prim.hlevel (codes, shape.the_row.coded) };

    ghost view = { λ r. record {
      shape = arc_value r.core.shape;
      children = r.children.items;
      feeds = r.feeds.items;
      output = r.drains.out;
      error = r.drains.err;
    } };

    ghost invariant = { λ r. RunningInvariant S.Child.child_view S.Feed.job_view S.Drain.job_view
        S.Child.may_answer S.Feed.may_say S.Drain.may_say (shape_in r.core) (latest_in r.core)
        r.ids.items r.children.items r.feeds.items r.drains.out r.drains.err r.room };
}

// Returns the word for the result of a child's poll.
fn word(answer: Result<Option<ExitStatus>, Fault>) -> Word
    ensures { result ≡ answer_word answer }
{
    match answer {
        Ok(Some(status)) => Word::Ended(status),
        Ok(None) => Word::Running,
        Err(fault) => Word::Fault(fault),
    }
}

// Returns whether the outcome waits for the capture worker of this stream.
fn is_awaited(stream: Side, awaited: Option<Side>) -> bool
    ensures { result ≡ is_awaited stream awaited }
{
    match (stream, awaited) {
        (Side::Out, Some(Side::Out)) | (Side::Err, Some(Side::Err)) => true,
        (Side::Out, Some(Side::Err)) | (Side::Err, Some(Side::Out)) | (_, None) => false,
    }
}

// Appends the ids of these children, for which there is room.
fn note_ids<C: Child>(ids: &mut Vec<u32>, children: &[Place<C>])
    requires empty { ids.old.items ≡ [] }
    requires room { length children.now ≤ vec_capacity ids.old }
    ensures { ids.new.items ≡ map (λ c. c.process) (map C.child_view children.now) }
{
    for child in children {
        ids.push_reserved(child.id());
    }
}

/// The buffers that a `Running` needs besides what a start gets.
#[derive(Drop)]
pub struct RunningBuffers<D> {
    /// Empty, with room for the ids of the children.
    pub ids: Vec<u32>,
    /// Empty, with room for the capture workers.
    pub drains: Vec<D>,
}

/// Makes a `Running` of what a start leaves: a core that was given no result yet, and resources
/// whose children and workers were never polled. There are as many children and input workers as
/// the shape has commands and inputs, and the capture workers that the core expects. The room fits
/// the shape, so it allocates nothing. Only a start calls it.
pub fn running_of<S: System>(
    core: Core,
    kept: Resources<S::End, Place<S::Child>, S::Feed, S::Drain>,
    room: RunningBuffers<S::Drain>,
) -> Running<S>
    requires silent { latest_in core ≡ latest_told (shape_in core)
        (record { out = is_some kept.drains.out; err = is_some kept.drains.err }) [] }
    requires commands { length kept.children.items ≡ command_count (shape_in core) }
    requires inputs { length kept.feeds.items ≡ input_count (shape_in core) }
    requires new { HoldsUnasked ⟦<S as Viewed>⟧.views kept }
    requires room { FitsShape (shape_in core) room }
    ensures { result ≡ record {
      shape = arc_value core.shape;
      children = kept.children.items;
      feeds = kept.feeds.items;
      output = kept.drains.out;
      error = kept.drains.err;
    } }
{
    let Resources {
        stack,
        pipes,
        children,
        feeds,
        drains,
    } = kept;
    let RunningBuffers {
        mut ids,
        drains: room,
    } = room;
    drop((stack, pipes));
    note_ids(&mut ids, &children);
    Running {
        core,
        ids,
        children,
        feeds,
        drains,
        room,
    }
}

impl<S: System> Running<S> {
    /// Returns the process ids of the children, one for each command, from left to right. It
    /// allocates nothing.
    pub fn pids(&self) -> &[u32]
        ensures count { length result.now ≡ command_count (shape_view self.now.shape) }
        ensures ids { result.now ≡ map (λ c. c.process) (map S.Child.child_view self.now.children) }
    {
        &self.ids
    }

    /// Returns whether a command reported `Running` at the last poll; true before the first poll.
    pub fn is_busy(&self) -> bool
        ensures { IsTrue result ↔ OneIsRunning ⟦<S as Viewed>⟧.views self.now }
    {
        self.core.is_busy()
    }

    /// Returns the latest report of each command, from left to right: its exit status once a poll
    /// has returned one, the fault of its last poll, or `Running`. It allocates nothing.
    pub fn reports(&self) -> &[Word]
        ensures { result.now ≡ (stored_in S.Child.child_view S.Feed.job_view S.Drain.job_view
            self.now).commands }
    {
        self.core.reports()
    }

    /// Returns the shape of the expression that runs, which has the words of each command.
    pub fn shape(&self) -> &Shape
        ensures { shape_view result.now ≡ shape_view self.now.shape }
    {
        self.core.shape()
    }

    /// Does nothing. Its contract says that each result which a child or a worker stores is one
    /// that a child or a worker of its number may return.
    pub fn answers_allowed(&self)
        ensures { ∥ StoresAllowed ⟦<S as Viewed>⟧.views self.now ∥₁ }
    {
        let _ = &self.core;
    }

    /// Returns the children from left to right, the input workers in tree order, and the capture
    /// workers of stdout and of stderr. It allocates nothing. After that only the caller can poll
    /// them.
    pub fn into_parts(self) -> (Vec<Place<S::Child>>, Vec<S::Feed>, Vec<S::Drain>)
        ensures children { result.0.items ≡ self.children }
        ensures feeds { result.1.items ≡ self.feeds }
        ensures drains { result.2.items ≡ option_to_list self.output ++ option_to_list self.error }
    {
        let Running {
            core,
            ids,
            children,
            feeds,
            drains: PerSide {
                out: output,
                err: error,
            },
            room: mut drains,
        } = self;
        drop((core, ids));
        if let Some(worker) = output {
            drains.push_reserved(worker);
        }
        if let Some(worker) = error {
            drains.push_reserved(worker);
        }
        (children, feeds, drains)
    }

    // Polls the child at this place, if it has not ended, and passes the result to the core.
    fn poll_child(&mut self, at: usize)
        requires { at < length self.old.children }
        ensures shape { shape_view self.new.shape ≡ shape_view self.old.shape }
        ensures asked { ChildAskedAt ⟦<S as Viewed>⟧.views at self.old self.new }
        ensures feeds { self.new.feeds ≡ self.old.feeds }
        ensures output { self.new.output ≡ self.old.output }
        ensures error { self.new.error ≡ self.old.error }
    {
        if !self.core.is_due(at) {
            return;
        }
        let heard = word(self.children[at].poll());
        let _ = self.core.step(Event::Command(at, heard));
    }

    // Polls each child that has not ended, once and from left to right.
    fn poll_children(&mut self)
        ensures shape { shape_view self.new.shape ≡ shape_view self.old.shape }
        ensures asked { ChildrenAsked ⟦<S as Viewed>⟧.views self.old self.new }
        ensures feeds { self.new.feeds ≡ self.old.feeds }
        ensures output { self.new.output ≡ self.old.output }
        ensures error { self.new.error ≡ self.old.error }
    {
        for at in 0..self.children.len() {
            self.poll_child(at);
        }
    }

    // Polls the input worker at this place, if it has not finished, and passes the result to the
    // core.
    fn poll_feed(&mut self, at: usize)
        requires { at < length self.old.feeds }
        ensures shape { shape_view self.new.shape ≡ shape_view self.old.shape }
        ensures children { self.new.children ≡ self.old.children }
        ensures asked { FeedPolledAt ⟦<S as Viewed>⟧.views at self.old self.new }
        ensures output { self.new.output ≡ self.old.output }
        ensures error { self.new.error ≡ self.old.error }
    {
        if !self.core.is_input_due(at) {
            return;
        }
        let heard = self.feeds[at].poll();
        let _ = self.core.step(Event::Input(at, heard));
    }

    // Polls each input worker that has not finished, once and in tree order.
    fn poll_feeds(&mut self)
        ensures shape { shape_view self.new.shape ≡ shape_view self.old.shape }
        ensures children { self.new.children ≡ self.old.children }
        ensures asked { FeedsPolled ⟦<S as Viewed>⟧.views self.old self.new }
        ensures output { self.new.output ≡ self.old.output }
        ensures error { self.new.error ≡ self.old.error }
    {
        for at in 0..self.feeds.len() {
            self.poll_feed(at);
        }
    }

    // Polls the capture worker of this stream, if the outcome waits for it, and passes the result
    // to the core.
    fn poll_drain(&mut self, side: Side)
        ensures shape { shape_view self.new.shape ≡ shape_view self.old.shape }
        ensures children { self.new.children ≡ self.old.children }
        ensures feeds { self.new.feeds ≡ self.old.feeds }
        ensures asked { StreamPolled ⟦<S as Viewed>⟧.views side self.old self.new }
    {
        if !is_awaited(side, self.core.awaited()) {
            return;
        }
        let Some(worker) = self.drains.of_mut(side) else {
            return;
        };
        let heard = worker.poll();
        let _ = self.core.step(Event::Drain(side, heard));
    }

    /// Polls each child that has not ended, once and from left to right, and then each input worker
    /// that has not finished, once and in tree order. Then it polls stdout's capture worker, if the
    /// outcome waits for it, and then stderr's likewise. It doesn't block.
    ///
    /// Returns the outcome of all results that are stored then: `Ok(None)` while it waits for a
    /// child or a worker, or the output once all have ended.
    ///
    /// Fails with `Error::System` for the first fault in tree order, also while others run, with
    /// `Error::Checked` for a checked failure, and with `Error::Memory` only on allocation failure
    /// or where the output has too many owners. No result is lost by `Error::Memory`: the next poll
    /// tries again.
    pub fn poll(&mut self) -> Result<Option<Arc<Output>>, Error>
        ensures polls { PolledOnce ⟦<S as Viewed>⟧.views self.old self.new }
        ensures outcome { ReturnsOutcome ⟦<S as Viewed>⟧.views self.new result }
        ensures pending { result ≡ Ok None
            → OneRuns ⟦<S as Viewed>⟧.views (numbers_of ⟦<S as Viewed>⟧.views self.new) }
    {
        self.poll_children();
        self.poll_feeds();
        self.poll_drain(Side::Out);
        self.poll_drain(Side::Err);
        self.conclude()
    }

    // Returns the outcome of the results of the children and the workers.
    fn conclude(&mut self) -> Result<Option<Arc<Output>>, Error>
        ensures shape { shape_view self.new.shape ≡ shape_view self.old.shape }
        ensures commands { length self.new.children ≡ command_count (shape_view self.new.shape) }
        ensures inputs { length self.new.feeds ≡ input_count (shape_view self.new.shape) }
        ensures children { self.new.children ≡ self.old.children }
        ensures feeds { self.new.feeds ≡ self.old.feeds }
        ensures output { self.new.output ≡ self.old.output }
        ensures error { self.new.error ≡ self.old.error }
        ensures outcome { ReturnsOutcome ⟦<S as Viewed>⟧.views self.new result }
    {
        answer(self.core.step(Event::Conclude))
    }
}

// Converts the core's reply to the result of a poll.
fn answer(reply: Reply) -> Result<Option<Arc<Output>>, Error>
    requires { IsConclusion (reply_view reply) }
    ensures { Gives (reply_view reply) result }
{
    match reply {
        Reply::Pending => Ok(None),
        Reply::Fault(fault) => Err(Error::System(fault)),
        Reply::Answer(output) => Ok(Some(output)),
        Reply::Failed(text) => Err(Error::Checked(text)),
        Reply::Memory => Err(Error::Memory),
        Reply::Noted | Reply::Unknown => unreachable!(),
    }
}
