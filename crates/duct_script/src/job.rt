//! The feeds and drains of a scripted system.
ghost use Rattle.std.specs.Prelude.{◌≡◌, ℕ, List, IfSome, IfNone, IsTrue, ◌↔◌};
ghost use Rattle.duct_system.specs.Job.{unpolled_job};
ghost use Rattle.duct_system.specs.declared.system.Said.TheVariants.{Running, Done};
ghost use Rattle.duct_script.specs.Answers.{bytes_said, SameBytes};

use crate::answers::Answers;
use crate::calls::{Call, CallLog, note};
use duct_system::system::{Job, Numbered, Said};
use std::collections::VecDeque;
use std::snapshot::Snapshot;
use std::sync::Arc;

/// The results of a feed's polls, in order, up to the first `Done` or `Fault`, which later polls
/// repeat. If there is none, the last result is repeated. With an empty list, a poll returns
/// `Done`.
pub type FeedScript = Answers<Said<()>>;

/// The same of a drain, where an empty list stands for `Done` with no bytes. In place of a `Done`
/// whose bytes can't get one more owner, a poll returns `Running`.
pub type DrainScript = VecDeque<Said<Arc<Vec<u8>>>>;

/// A worker that writes nothing and whose results come from a list.
#[derive(Drop)]
pub struct ScriptFeed {
    number: u64,
    script: FeedScript,
    polls: u64,
    kept: Said<()>,
    calls: Option<Arc<CallLog>>,
}

impl ScriptFeed {
    ghost use Rattle.duct_script.specs.Told.{feed_view};

    /// Returns the feed of the end with this number, before any poll. It notes its polls in this
    /// log, if there is one.
    pub fn new(number: u64, script: FeedScript, calls: Option<Arc<CallLog>>) -> ScriptFeed
        ensures job { feed_view result ≡ unpolled_job number }
        ensures script { result.script ≡ script }
        ensures calls { result.calls ≡ calls }
    {
        ScriptFeed {
            number,
            script,
            polls: 0,
            kept: Said::Running,
            calls,
        }
    }

    /// Returns how often the feed was polled.
    pub fn polls(&self) -> u64
        ensures { result ≡ self.now.polls }
    {
        self.polls
    }
}

impl Numbered for ScriptFeed {
    ghost number_of = { λ f. f.number };

    fn number(&self) -> u64 {
        self.number
    }
}

impl Job for ScriptFeed {
    ghost use Rattle.std.specs.Prelude.{◌≡◌};
    ghost use Rattle.std.proofs.Common.{refl};
    ghost use Rattle.duct_system.specs.Job.{PollsJob};
    ghost use Rattle.duct_script.specs.Told.{said_by, feed_view};

    type Result = ();

    ghost same = { λ _ _. Unit {0} };

    ghost refusable = { ⊥ };

    ghost may_say = { λ _ _. Unit {0} };

    ghost job_view = { feed_view };

    ghost has_number = { λ f. refl };

    fn poll(&mut self) -> Said<()>
        ensures polled { PollsJob
            (λ _ _. Unit {0}) (λ _ _. Unit {0}) ⊥ (feed_view self.old) result (feed_view self.new) }
        ensures told { result ≡ said_by self.old }
    {
        note(&self.calls, Call::PollFeed(self.number));
        self.polls = self.polls.saturating_add(1);
        if self.kept == Said::Running {
            self.kept = self.script.next_or(Said::Done(()));
        }
        self.kept
    }
}

/// A worker that reads nothing and whose results come from a list.
#[derive(Drop)]
pub struct ScriptDrain {
    number: u64,
    script: DrainScript,
    otherwise: Said<Arc<Vec<u8>>>,
    polls: u64,
    said: Said<Arc<Vec<u8>>>,
    kept: Snapshot<Said<Arc<Vec<u8>>>>,
    calls: Option<Arc<CallLog>>,
    ghost same_word: { bytes_said said ≡ bytes_said kept.value },
}

impl ScriptDrain {
    ghost use Rattle.duct_script.specs.Told.{drain_view};

    /// Returns the drain of the end with this number, before any poll. If `script` is empty, its
    /// polls return `empty`, which should hold no bytes. It notes its polls in this log, if there
    /// is one.
    pub fn new(
        number: u64,
        script: DrainScript,
        empty: Arc<Vec<u8>>,
        calls: Option<Arc<CallLog>>,
    ) -> ScriptDrain
        ensures job { drain_view result ≡ unpolled_job number }
        ensures script { result.script ≡ script }
        ensures otherwise { result.otherwise ≡ Done empty }
        ensures calls { result.calls ≡ calls }
    {
        let said = Said::Running;
        let kept = Snapshot::of(&said);
        ScriptDrain {
            number,
            script,
            otherwise: Said::Done(empty),
            polls: 0,
            said,
            kept,
            calls,
        }
    }

    /// Returns how often the drain was polled.
    pub fn polls(&self) -> u64
        ensures { result ≡ self.now.polls }
    {
        self.polls
    }
}

impl Numbered for ScriptDrain {
    ghost number_of = { λ d. d.number };

    fn number(&self) -> u64 {
        self.number
    }
}

impl Job for ScriptDrain {
    ghost use Rattle.std.proofs.Common.{refl};
    ghost use Rattle.duct_script.specs.Told.{drain_view};

    type Result = Arc<Vec<u8>>;

    ghost same = { SameBytes };

    ghost refusable = { Unit {0} };

    ghost may_say = { λ _ _. Unit {0} };

    ghost job_view = { drain_view };

    ghost has_number = { λ d. refl };

    fn poll(&mut self) -> Said<Arc<Vec<u8>>> {
        note(&self.calls, Call::PollDrain(self.number));
        self.polls = self.polls.saturating_add(1);
        if !is_running(&self.said) {
            return said_again(&self.said).unwrap_or(Said::Running);
        }
        let next = self.script.front().unwrap_or(&self.otherwise);
        let Some(answer) = said_again(next) else {
            return Said::Running;
        };
        let Some(said) = said_again(&answer) else {
            return Said::Running;
        };
        if self.script.len() > 1 {
            let _ = self.script.pop_front();
        }
        self.kept = Snapshot::of(&answer);
        self.said = said;
        answer
    }
}

/// Returns whether there is no result yet.
fn is_running(said: &Said<Arc<Vec<u8>>>) -> bool
    ensures { IsTrue result ↔ (said.now ≡ Running) }
{
    matches!(said, Said::Running)
}

/// Returns the same result, with one more owner of its bytes, or `None` if that owner can't be
/// made.
fn said_again(said: &Said<Arc<Vec<u8>>>) -> Option<Said<Arc<Vec<u8>>>>
    ensures same { IfSome result (λ again. bytes_said again ≡ bytes_said said.now) }
    ensures refused { IfNone result ((bytes : List ℕ) × (bytes_said said.now ≡ Done bytes)) }
{
    match said {
        Said::Running => Some(Said::Running),
        Said::Done(bytes) => Arc::try_clone(bytes).ok().map(Said::Done),
        Said::Fault(fault) => Some(Said::Fault(*fault)),
    }
}
