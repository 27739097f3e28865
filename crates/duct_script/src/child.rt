//! The children of a scripted system.
ghost use Rattle.std.specs.Prelude.{◌≡◌, []};
ghost use Rattle.duct_system.specs.Child.{OrdersChild, IsUnasked, PollsChild};
ghost use Rattle.duct_script.specs.Told.{IsObeying, told_by, Obeys, child_view, poll_of};
ghost use Rattle.std.proofs.Common.{refl};

use crate::answers::Answers;
use crate::calls::{Call, CallLog, note};
use crate::gate::Gate;
use duct_system::system::{Child, ExitStatus, Fault, Kind, Numbered, Order};
use std::alloc::Global;
use std::sync::Arc;

/// The result of a poll of a child.
#[derive(Clone, Copy, Debug, PartialEq, Eq)]
pub enum PollAnswer {
    /// The child still runs.
    Running,
    /// The child has ended with this exit status.
    Ended(ExitStatus),
    /// The poll fails with this fault.
    Fault(Fault),
}

impl PollAnswer {
    /// Returns the result in the form of the interface.
    fn told(self) -> Result<Option<ExitStatus>, Fault>
        ensures { result ≡ told_by self }
    {
        match self {
            PollAnswer::Running => Ok(None),
            PollAnswer::Ended(status) => Ok(Some(status)),
            PollAnswer::Fault(fault) => Err(fault),
        }
    }
}

/// The results of a child's polls, kills and signals. Once a poll has returned an exit status,
/// later polls return it again. With an empty list, a poll returns `Running`, and a kill or a
/// signal `Ok`.
#[derive(Drop)]
pub struct ChildScript {
    pub polls: Answers<PollAnswer>,
    pub kills: Answers<Result<(), Fault>>,
    pub signals: Answers<Result<(), Fault>>,
    /// A gate at which each call of the child's `number` waits, for at most `MOST_LOOKS` checks.
    pub gate: Option<Gate>,
}

impl ChildScript {
    /// Returns the script of a child that keeps running and whose orders succeed.
    pub fn running(alloc: Global) -> ChildScript
        ensures { IsObeying [] result }
    {
        ChildScript {
            polls: Answers::none(alloc),
            kills: Answers::none(alloc),
            signals: Answers::none(alloc),
            gate: None,
        }
    }
}

/// A child whose results come from lists.
#[derive(Drop)]
pub struct ScriptChild {
    number: u64,
    leads: bool,
    script: ChildScript,
    polls: u64,
    last: Option<Result<Option<ExitStatus>, Fault>>,
    ending: Option<ExitStatus>,
    orders: Vec<(Order, Result<(), Fault>)>,
    calls: Option<Arc<CallLog>>,
}

impl ScriptChild {
    /// Returns the child with this number, before any poll or order. It notes its calls in this
    /// log, if there is one.
    pub fn new(
        alloc: Global,
        number: u64,
        leads: bool,
        script: ChildScript,
        calls: Option<Arc<CallLog>>,
    ) -> ScriptChild
        ensures number { result.number ≡ number }
        ensures leads { result.leads ≡ leads }
        ensures unasked { IsUnasked (child_view result) }
        ensures script { result.script ≡ script }
        ensures calls { result.calls ≡ calls }
    {
        ScriptChild {
            number,
            leads,
            script,
            polls: 0,
            last: None,
            ending: None,
            orders: Vec::new(alloc),
            calls,
        }
    }

    /// Notes an order with the next result of its list, and returns that result. On allocation
    /// failure nothing is noted, and the result is `OutOfMemory`.
    fn order(&mut self, order: Order) -> Result<(), Fault>
        ensures { OrdersChild
            (Obeys self.old.script) order (child_view self.old) result (child_view self.new) }
    {
        if self.orders.reserve(1).is_err() {
            return Err(Fault::new(Kind::OutOfMemory));
        }
        note(&self.calls, Call::Order(self.number));
        let answer = match order {
            Order::Kill => self.script.kills.next_or(Ok(())),
            Order::Signal(_) => self.script.signals.next_or(Ok(())),
        };
        self.orders.push_reserved((order, answer));
        answer
    }

    /// Returns how often the child was polled.
    pub fn polls(&self) -> u64
        ensures { result ≡ self.now.polls }
    {
        self.polls
    }

    /// Returns the orders that were noted, with their results.
    pub fn orders(&self) -> &[(Order, Result<(), Fault>)]
        ensures { result.now ≡ self.now.orders.items }
    {
        self.orders.as_slice()
    }
}

impl Numbered for ScriptChild {
    ghost number_of = { λ c. c.number };

    fn number(&self) -> u64 {
        if let Some(gate) = &self.script.gate {
            let _ = gate.pass();
        }
        self.number
    }
}

impl Child for ScriptChild {
    ghost may_answer = { λ _ _. Unit {0} };

    ghost may_obey = { λ _ _ _ _. Unit {0} };

    ghost child_view = { child_view };

    fn poll(&mut self) -> Result<Option<ExitStatus>, Fault>
        ensures polled { PollsChild
            (λ _ _. Unit {0}) (child_view self.old) result (child_view self.new) }
        ensures told { result ≡ poll_of self.old }
    {
        note(&self.calls, Call::Poll(self.number));
        self.polls = self.polls.saturating_add(1);
        let answer = match self.ending {
            Some(status) => Ok(Some(status)),
            None => self.script.polls.next_or(PollAnswer::Running).told(),
        };
        if let Ok(Some(status)) = answer {
            self.ending = Some(status);
        }
        self.last = Some(answer);
        answer
    }

    fn kill(&mut self) -> Result<(), Fault>
        ensures ordered { OrdersChild (λ _ _ _ _. Unit {0})
            Order.Kill (child_view self.old) result (child_view self.new) }
        ensures obeyed { OrdersChild (Obeys self.old.script)
            Order.Kill (child_view self.old) result (child_view self.new) }
    {
        self.order(Order::Kill)
    }

    fn signal(&mut self, signal: i32) -> Result<(), Fault>
        ensures ordered { OrdersChild (λ _ _ _ _. Unit {0})
            (Order.Signal signal) (child_view self.old) result (child_view self.new) }
        ensures obeyed { OrdersChild (Obeys self.old.script)
            (Order.Signal signal) (child_view self.old) result (child_view self.new) }
    {
        self.order(Order::Signal(signal))
    }

    fn id(&self) -> u32 {
        let id = self.number.saturating_add(1000).min(u64::from(u32::MAX));
        id as u32
    }

    fn leads(&self) -> bool {
        self.leads
    }

    ghost has_number = { λ c. refl };
}
