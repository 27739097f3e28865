//! How an expression ended, from a list of events: the reports of its commands and its workers.
ghost use Rattle.std.specs.Prelude.{◌≡◌, vec_len};
ghost use Rattle.std.specs.Arc.{arc_value};
ghost use Rattle.std.specs.Option.{ForSome};
ghost use Rattle.duct_status.specs.Fits.{latest_of, FitsAnswer, FitsMessage};
ghost use Rattle.duct_status.specs.ShapeView.{command_count, input_count, shape_view};

mod answer;
mod begin;
mod choose;
mod copy;
mod keep;
pub mod law;
mod look;
mod message;
mod outcome;
mod same;

use crate::per_side::PerSide;
use crate::status::answer::{answer, failure};
use crate::status::begin::{begin, first_word};
use crate::status::choose::choose;
use crate::status::copy::copy;
use crate::status::keep::{keep_at, keep_bytes, record_at};
use crate::status::look::{Findings, look};
use crate::status::outcome::{Outcome, awaited, judge};
use duct_system::error::Error;
use duct_system::system::{ExitStatus, Fault, Output, Said, Side};
use std::alloc::Global;
use std::sync::Arc;

/// The shape of an expression: the tree of its commands, each with its words as the expression has
/// them. Commands are numbered from 0, left to right. Each `Input` has an input worker. These are
/// numbered from 0, left before right and inner before outer.
#[derive(Debug, Drop)]
pub enum Shape {
    /// A command with its words.
    Command(Arc<Vec<String>>),
    /// A pipe, with its left and its right side.
    Pipe(Box<Shape>, Box<Shape>),
    /// An expression with an input worker.
    Input(Box<Shape>),
    /// An expression whose failure is no error.
    Unchecked(Box<Shape>),
}

/// Which of the two output streams have a capture worker.
#[derive(Clone, Copy, Debug, PartialEq, Eq)]
pub struct Drains {
    /// Stdout has one.
    pub out: bool,
    /// Stderr has one.
    pub err: bool,
}

/// A report of a command.
#[derive(Clone, Copy, Debug, PartialEq, Eq)]
pub enum Word {
    Running,
    Ended(ExitStatus),
    Fault(Fault),
}

/// What the core is given: a report, or the question how the expression has ended.
#[derive(Debug, PartialEq, Eq, Drop)]
pub enum Event {
    /// The command with this number reported this.
    Command(usize, Word),
    /// The input worker with this number reported this.
    Input(usize, Said<()>),
    /// The capture worker of this stream reported this.
    Drain(Side, Said<Arc<Vec<u8>>>),
    /// How has the expression ended?
    Conclude,
}

/// The core's reply to an event.
#[derive(Debug, PartialEq, Eq, Drop)]
pub enum Reply {
    /// The report was noted.
    Noted,
    /// The report names no command and no worker that is there. Nothing has changed.
    Unknown,
    /// A command or a worker still runs.
    Pending,
    /// A command or a worker reported this fault.
    Fault(Fault),
    /// All have ended. The status is that of the winning command.
    Answer(Arc<Output>),
    /// All have ended, and the winning command failed and is not unchecked. The text is the
    /// message.
    Failed(Arc<String>),
    /// An allocation for the answer failed, or one more owner of it couldn't be made.
    Memory,
}

/// The latest reports of an expression's commands and workers, and the final reply once there is
/// one. Each command and each worker counts as running before its first report. A command keeps its
/// first exit status, and a worker its first `Done` or `Fault`. A command's fault lasts until its
/// next report.
#[derive(Drop)]
pub struct Core {
    alloc: Global,
    shape: Arc<Shape>,
    commands: Vec<Word>,
    inputs: Vec<Said<()>>,
    drains: PerSide<Option<Said<Arc<Vec<u8>>>>>,
    answer: Option<Arc<Output>>,
    failure: Option<Arc<String>>,
    pub ghost commands_fit: { vec_len commands ≡ command_count (shape_view (arc_value shape)) },
    pub ghost inputs_fit: { vec_len inputs ≡ input_count (shape_view (arc_value shape)) },
    pub ghost answer_fits: { ForSome answer (λ a. FitsAnswer (shape_view (arc_value shape))
        (latest_of commands.items inputs.items drains) (arc_value a)) },
    pub ghost failure_fits: { ForSome failure (λ a. FitsMessage (shape_view (arc_value shape))
        (latest_of commands.items inputs.items drains) (arc_value a)) },
}

impl Core {
    ghost use Rattle.std.specs.Prelude.{◌≡◌, ◌↔◌, Contains, IfNone, IfSome, IsSomeAnd, IsTrue, None};
    ghost use Rattle.duct_status.specs.declared.status.Word.TheVariants.{Running};
    ghost use Rattle.duct_status.specs.Outcome.{Concludes, Responds, awaited, finished, first_fault, in_tree_order, outcome, some_runs};
    ghost use Rattle.duct_status.specs.Fits.{Fits};
    ghost use Rattle.duct_status.specs.EventView.{event_view, conclude};
    ghost use Rattle.duct_status.specs.ShapeView.{command_count, input_count};
    ghost use Rattle.duct_status.specs.ReplyView.{reply_view};
    ghost use Rattle.duct_status.specs.Standing.{Again, Repeats, standing_after};
    ghost use Rattle.duct_status.specs.CoreView.{shape_in, latest_in, standing_in};
    ghost use Rattle.duct_status.specs.Latest.{is_due, is_input_due, latest_after};

    /// Stores a report of a command.
    fn record_command(&mut self, at: usize, word: Word) -> Reply
        ensures shape { shape_in self.new ≡ shape_in self.old }
        ensures words { latest_in self.new
            ≡ latest_after (latest_in self.old) (event_view (Event.Command at word)) }
        ensures standing { standing_in self.new ≡ standing_in self.old }
        ensures reply { Responds (shape_in self.old) (latest_in self.old)
            (event_view (Event.Command at word)) (reply_view result) }
    {
        if record_at(&mut self.commands, at, word) {
            Reply::Noted
        } else {
            Reply::Unknown
        }
    }

    /// Stores a report of an input worker.
    fn record_input(&mut self, at: usize, said: Said<()>) -> Reply
        ensures shape { shape_in self.new ≡ shape_in self.old }
        ensures words { latest_in self.new
            ≡ latest_after (latest_in self.old) (event_view (Event.Input at said)) }
        ensures standing { standing_in self.new ≡ standing_in self.old }
        ensures reply { Responds (shape_in self.old) (latest_in self.old)
            (event_view (Event.Input at said)) (reply_view result) }
    {
        if keep_at(&mut self.inputs, at, said) {
            Reply::Noted
        } else {
            Reply::Unknown
        }
    }

    /// Stores a report of the capture worker of this stream.
    fn record_drain(&mut self, side: Side, said: Said<Arc<Vec<u8>>>) -> Reply
        ensures shape { shape_in self.new ≡ shape_in self.old }
        ensures words { latest_in self.new
            ≡ latest_after (latest_in self.old) (event_view (Event.Drain side said)) }
        ensures standing { standing_in self.new ≡ standing_in self.old }
        ensures reply { Responds (shape_in self.old) (latest_in self.old)
            (event_view (Event.Drain side said)) (reply_view result) }
    {
        if keep_bytes(self.drains.of_mut(side), said) {
            Reply::Noted
        } else {
            Reply::Unknown
        }
    }

    /// Returns the reply for the winning command: its message, or the answer with these captured
    /// bytes.
    fn answer_with(&self, output: &[u8], error: &[u8]) -> Reply
        requires { outcome (shape_in self.now) (latest_in self.now)
            ≡ finished output.now error.now }
        ensures { Fits (shape_in self.now) (latest_in self.now) result }
    {
        let winner = choose(self.shape(), self.commands.as_slice(), 0);
        if winner.is_checked_failure() {
            match failure(self.alloc, winner.words, winner.status) {
                Ok(text) => Reply::Failed(text),
                Err(_) => Reply::Memory,
            }
        } else {
            match answer(self.alloc, winner.status, output, error) {
                Ok(output) => Reply::Answer(output),
                Err(_) => Reply::Memory,
            }
        }
    }

    /// Returns what is found in the latest reports of the commands and the input workers.
    fn found(&self) -> Findings
        ensures fault { result.fault
            ≡ first_fault (in_tree_order (shape_in self.now) 0 0 (latest_in self.now).commands
            (latest_in self.now).inputs) }
        ensures runs { result.runs
            ≡ some_runs (in_tree_order (shape_in self.now) 0 0 (latest_in self.now).commands
            (latest_in self.now).inputs) }
    {
        look(
            self.shape(),
            self.commands.as_slice(),
            self.inputs.as_slice(),
            0,
            0,
        )
    }

    /// Returns the reply for the latest reports.
    fn outcome(&self) -> Reply
        ensures { Fits (shape_in self.now) (latest_in self.now) result }
    {
        match judge(self.found(), &self.drains) {
            Outcome::Waits => Reply::Pending,
            Outcome::Faults(fault) => Reply::Fault(fault),
            Outcome::Finished(output, error) => self.answer_with(output, error),
        }
    }

    /// Returns the final reply, with one more owner of it, or `Memory` if that owner can't be made.
    /// Returns `None` if there is no final reply yet.
    fn repeat_answer(&self) -> Option<Reply>
        ensures none { IfNone result (standing_in self.now ≡ None) }
        ensures fits { IfSome result
            (λ reply. Fits (shape_in self.now) (latest_in self.now) reply) }
        ensures again { IfSome result
            (λ reply. IsSomeAnd (standing_in self.now)
            (λ answer. Again answer (reply_view reply))) }
    {
        if let Some(output) = &self.answer {
            return Some(match output.clone() {
                Ok(output) => Reply::Answer(output),
                Err(_) => Reply::Memory,
            });
        }
        if let Some(text) = &self.failure {
            return Some(match text.clone() {
                Ok(text) => Reply::Failed(text),
                Err(_) => Reply::Memory,
            });
        }
        None
    }

    /// Stores the reply as the final one, if it is an answer or a failure, and returns it. Returns
    /// `Memory` and stores nothing if one more owner of it can't be made.
    fn keep_answer(&mut self, reply: Reply) -> Reply
        requires fits { Fits (shape_in self.old) (latest_in self.old) reply }
        requires first { standing_in self.old ≡ None }
        ensures shape { shape_in self.new ≡ shape_in self.old }
        ensures words { latest_in self.new ≡ latest_in self.old }
        ensures fits { Fits (shape_in self.old) (latest_in self.old) result }
        ensures standing { standing_in self.new ≡ standing_after None (reply_view result) }
    {
        match reply {
            Reply::Answer(output) => match output.clone() {
                Ok(kept) => {
                    self.answer = Some(kept);
                    Reply::Answer(output)
                }
                Err(_) => Reply::Memory,
            },
            Reply::Failed(text) => match text.clone() {
                Ok(kept) => {
                    self.failure = Some(kept);
                    Reply::Failed(text)
                }
                Err(_) => Reply::Memory,
            },
            reply => reply,
        }
    }

    /// Returns the final reply if there is one, else the reply for the latest reports.
    fn conclude(&mut self) -> Reply
        ensures shape { shape_in self.new ≡ shape_in self.old }
        ensures words { latest_in self.new ≡ latest_in self.old }
        ensures reply { Concludes (shape_in self.old) (latest_in self.old) (reply_view result) }
        ensures repeats { Repeats (standing_in self.old) conclude (reply_view result) }
        ensures standing { standing_in self.new
            ≡ standing_after (standing_in self.old) (reply_view result) }
    {
        if let Some(reply) = self.repeat_answer() {
            return reply;
        }
        let reply = self.outcome();
        self.keep_answer(reply)
    }

    /// Takes an event and returns the reply. A report is stored and gets `Noted`. It gets `Unknown`
    /// if it names no command and no worker that is there.
    ///
    /// `Conclude` gets the outcome of the reports so far: the first fault in tree order; else
    /// `Pending` while a command or an input worker runs; else the fault of stdout's capture
    /// worker, or `Pending` while it runs; else the same of stderr's; else `Answer` or `Failed`,
    /// for the winning command. The first `Answer` or `Failed` is final: each later `Conclude` gets
    /// it again. `Memory` comes only in place of these two. Nothing is then lost, and the next
    /// `Conclude` tries again.
    pub fn step(&mut self, event: Event) -> Reply
        ensures shape { shape_in self.new ≡ shape_in self.old }
        ensures words { latest_in self.new ≡ latest_after (latest_in self.old) (event_view event) }
        ensures reply { Responds (shape_in self.old) (latest_in self.old) (event_view event)
            (reply_view result) }
        ensures repeats { Repeats (standing_in self.old) (event_view event) (reply_view result) }
        ensures standing { standing_in self.new
            ≡ standing_after (standing_in self.old) (reply_view result) }
    {
        match event {
            Event::Command(at, word) => self.record_command(at, word),
            Event::Input(at, said) => self.record_input(at, said),
            Event::Drain(side, said) => self.record_drain(side, said),
            Event::Conclude => self.conclude(),
        }
    }

    /// Returns whether there is a command with this number that has not ended.
    pub fn is_due(&self, i: usize) -> bool
        ensures { result ≡ is_due (latest_in self.now) i }
    {
        match self.commands.get(i) {
            Some(Word::Running | Word::Fault(_)) => true,
            Some(Word::Ended(_)) | None => false,
        }
    }

    /// Returns whether the latest report of a command is that it runs, as it is before the first.
    pub fn is_busy(&self) -> bool
        ensures { IsTrue result ↔ Contains (latest_in self.now).commands Running }
    {
        self.commands.contains(&Word::Running)
    }

    /// Returns whether there is an input worker with this number that has not finished.
    pub fn is_input_due(&self, i: usize) -> bool
        ensures { result ≡ is_input_due (latest_in self.now) i }
    {
        matches!(self.inputs.get(i), Some(Said::Running))
    }

    /// Returns the stream whose capture worker the outcome waits for. There is none unless all
    /// commands and input workers have ended without a fault.
    pub fn awaited(&self) -> Option<Side>
        ensures { result ≡ awaited (shape_in self.now) (latest_in self.now) }
    {
        awaited(self.found(), &self.drains)
    }

    /// Returns the latest report of each command, from left to right.
    pub fn reports(&self) -> &[Word]
        ensures { result.now ≡ (latest_in self.now).commands }
    {
        &self.commands
    }

    /// Returns the shape of the expression whose reports it stores.
    pub fn shape(&self) -> &Shape
        ensures { shape_view result.now ≡ shape_in self.now }
    {
        &self.shape
    }
}

impl Core {
    ghost use Rattle.std.specs.Arc.{arc_value};
    ghost use Rattle.std.specs.Prelude.{◌≡◌, [], map, IfOk, IfErr, None};
    ghost use Rattle.duct_system.specs.declared.error.Error.TheVariants.{Memory};
    ghost use Rattle.duct_status.specs.Outcome.{RespondsToAll};
    ghost use Rattle.duct_status.specs.EventView.{event_view};
    ghost use Rattle.duct_status.specs.ReplyView.{reply_view};
    ghost use Rattle.duct_status.specs.ShapeView.{shape_view};
    ghost use Rattle.duct_status.specs.Standing.{AllRepeated};
    ghost use Rattle.duct_status.specs.CoreView.{shape_in, latest_in, standing_in};
    ghost use Rattle.duct_status.specs.Latest.{latest_told};

    /// Returns a core without reports. Fails only with `Error::Memory`, at an allocation failure.
    pub fn new(alloc: Global, shape: Shape, drains: Drains) -> Result<Core, Error>
        ensures shape { IfOk result (λ core. shape_in core ≡ shape_view shape) }
        ensures words { IfOk result
            (λ core. latest_in core ≡ latest_told (shape_view shape) drains []) }
        ensures standing { IfOk result (λ core. standing_in core ≡ None) }
        ensures err { IfErr result (λ error. error ≡ Memory) }
    {
        Core::sharing(alloc, Arc::new(alloc, shape)?, drains)
    }

    /// Returns a core without reports that shares its shape with other owners. Fails only with
    /// `Error::Memory`, at an allocation failure.
    pub fn sharing(alloc: Global, shape: Arc<Shape>, drains: Drains) -> Result<Core, Error>
        ensures shape { IfOk result (λ core. shape_in core ≡ shape_view (arc_value shape)) }
        ensures words { IfOk result
            (λ core. latest_in core ≡ latest_told (shape_view (arc_value shape)) drains []) }
        ensures standing { IfOk result (λ core. standing_in core ≡ None) }
        ensures err { IfErr result (λ error. error ≡ Memory) }
    {
        let mut commands = Vec::new(alloc);
        let mut inputs = Vec::new(alloc);
        begin(&shape, &mut commands, &mut inputs)?;
        Ok(Core {
            alloc,
            shape,
            commands,
            inputs,
            drains: PerSide {
                out: first_word(drains.out),
                err: first_word(drains.err),
            },
            answer: None,
            failure: None,
        })
    }

    /// Returns the replies of a new core to these events, one for each. Fails only with
    /// `Error::Memory`: at an allocation failure for the core or the replies, or if one more owner
    /// of captured bytes can't be made.
    pub fn run(
        alloc: Global,
        shape: Shape,
        drains: Drains,
        events: &[Event],
    ) -> Result<Vec<Reply>, Error>
        ensures replies { IfOk result
            (λ replies. RespondsToAll (shape_view shape) drains [] (map event_view events.now)
            (map reply_view replies.items)) }
        ensures repeated { IfOk result
            (λ replies. AllRepeated (map event_view events.now) (map reply_view replies.items)) }
        ensures err { IfErr result (λ error. error ≡ Memory) }
    {
        let mut core = Core::new(alloc, shape, drains)?;
        let mut replies = Vec::new(alloc);
        for event in events {
            let event = copy(event)?;
            replies.push(core.step(event))?;
        }
        Ok(replies)
    }
}
