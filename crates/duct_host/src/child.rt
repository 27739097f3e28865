//! A child process of the host.
ghost use Rattle.std.specs.Prelude.{◌≡◌, ◌≢◌, ◌↔◌, pos, map, string_bytes, Contains, IsTrue, None, Some, Ok, Err, IfSome, IfNone, IfOk, IfErr, true, false};
ghost use Rattle.duct_system.specs.declared.system.Kind.TheVariants.{Other};
ghost use Rattle.std.specs.Process.{child_status, exit_code, exit_signal};
ghost use Rattle.duct_host.specs.Commands.{RunsLine, kill_line, printed_line};
ghost use Rattle.duct_host.specs.Groups.{signal_of, SentBy, IsGroupAnswer};
ghost use Rattle.duct_host.specs.Endings.{IsTold, can_answer, can_end, ending_said};
ghost use Rattle.duct_host.specs.Signals.{signals};

use crate::fault::{ask, no_memory};
use crate::started::{Started, start_command, status_of, wait_for};
use duct_base::system::{self, ExitStatus, Fault, Kind, Numbered, Order};
use std::alloc::{AllocError, Global};
use std::os::unix::process::ExitStatusExt;
use std::process::{self, Command, OpenProcess, Processes, Stdio};
use std::snapshot::Snapshot;

/// A child that the host started. It keeps the runtime, with which it has a shell send a signal.
///
/// A poll doesn't block, and reaps a child that has ended. A kill is `SIGKILL`; it doesn't block,
/// and is `Ok` for a child that was reaped. A signal blocks until the shell has ended. Dropping a
/// child neither ends it nor waits for it: if no poll saw it end, it stays a zombie until the
/// program ends.
///
/// A child whose program is `setsid` leads a process group. Each order to it, a kill too, goes to
/// the whole group, also once the child has ended, and blocks until the shell that sends it has
/// ended. Where there is no group yet, the order goes to the process, as for any other child.
#[derive(Drop)]
pub struct Child<R: Processes> {
    rt: R,
    alloc: Global,
    number: u64,
    id: u32,
    leads: bool,
    polls: u64,
    last: Option<Result<Option<ExitStatus>, Fault>>,
    seen: SeenEnding,
    orders: Vec<(Order, Result<(), Fault>)>,
    command: Snapshot<Command>,
    started: process::Child<R::Started>,
}

/// How a poll saw a child end, if one did.
#[derive(Clone, Copy)]
struct SeenEnding {
    ending: Option<ExitStatus>,
    ghost possible: { IsTrue (can_answer (Ok ending)) },
}

impl<R: Processes> Child<R> {
    ghost use Rattle.duct_system.specs.Child.{IsUnasked};
    ghost use Rattle.duct_host.specs.ChildView.{child_view};

    /// A child that was just started, before any call.
    pub(crate) fn new(
        rt: R,
        alloc: Global,
        number: u64,
        leads: bool,
        started: Started<R::Started>,
    ) -> Child<R>
        ensures number { result.number ≡ number }
        ensures leads { result.leads ≡ leads }
        ensures command { result.command.value ≡ started.command.value }
        ensures unasked { IsUnasked (child_view result) }
    {
        let Started { process, command } = started;
        Child {
            rt,
            alloc,
            number,
            id: process.id(),
            leads,
            polls: 0,
            last: None,
            seen: SeenEnding { ending: None },
            orders: Vec::new(alloc),
            command,
            started: process,
        }
    }
}

/// The number of the signal of an order.
fn signal_of(order: Order) -> i32
    ensures { result ≡ signal_of order }
{
    match order {
        Order::Kill => KILL,
        Order::Signal(signal) => signal,
    }
}

/// Kills a child, if it has not been seen to end.
fn kill_process<P: OpenProcess>(started: &mut process::Child<P>) -> Result<(), Fault> {
    ask(|| started.kill())
}

/// What a poll returns: the ending that was seen before, or else what the machine says now.
fn answer_of<P: OpenProcess>(
    seen: SeenEnding,
    started: &mut process::Child<P>,
) -> Result<Option<ExitStatus>, Fault>
    ensures again { IfSome seen.ending (λ status. result ≡ Ok (Some status)) }
    ensures told { IfNone seen.ending (IfOk result (IsTold (child_status started.new))) }
    ensures possible { IsTrue (can_answer result) }
{
    match seen.ending {
        Some(ending) => Ok(Some(ending)),
        None => ending(started),
    }
}

/// Asks the machine how a child ended, without waiting.
fn ending<P: OpenProcess>(started: &mut process::Child<P>) -> Result<Option<ExitStatus>, Fault>
    ensures told { IfOk result (IsTold (child_status started.new)) }
    ensures possible { IsTrue (can_answer result) }
{
    match status_of(started)? {
        Some(status) => Ok(Some(ending_of(status)?)),
        None => Ok(None),
    }
}

/// Whether a child has ended: as a poll saw, or else as the machine says now. Fails with `Other`
/// where its last poll was a fault: it may have been reaped, and its id be another process's.
fn has_ended<P: OpenProcess>(
    seen: Option<ExitStatus>,
    last: Option<Result<Option<ExitStatus>, Fault>>,
    started: &mut process::Child<P>,
) -> Result<bool, Fault>
    ensures ended { IfSome seen (λ _. result ≡ Ok true) }
    ensures lost { IfNone seen
        (IfSome last (λ answer. IfErr answer (λ _. result ≡ Err (record { kind = Other })))) }
{
    match (seen, last) {
        (Some(_), _) => Ok(true),
        (None, Some(Err(_))) => Err(Fault::new(Kind::Other)),
        (None, _) => Ok(status_of(started)?.is_some()),
    }
}

/// The signals that a child can be sent.
const SIGNALS: [i32; 7] = [1, 2, 3, 6, KILL, 14, 15];

/// The signal that is a kill.
const KILL: i32 = 9;

/// Whether a child can be sent this signal.
fn is_served(signal: i32) -> bool
    ensures { IsTrue result ↔ Contains signals signal }
{
    SIGNALS.contains(&signal)
}

/// The command that has the system's shell send a signal to a process, or to the group that it
/// leads, without the parent's variables.
fn kill_command(alloc: Global, signal: i32, group: bool, id: u32) -> Result<Command, AllocError>
    ensures { IfOk result (RunsLine (kill_line signal group id)) }
{
    let line = kill_text(alloc, signal, group, id)?;
    shell_command(alloc, line.as_str())
}

/// The line by which a shell sends a signal to a process, or to the group that it leads.
fn kill_text(alloc: Global, signal: i32, group: bool, id: u32) -> Result<String, AllocError>
    ensures { IfOk result
        (λ line. IfSome (printed_line signal group id) (λ text. string_bytes line ≡ text)) }
{
    if group {
        format!(in alloc; "kill -{signal} -{id}")
    } else {
        format!(in alloc; "kill -{signal} {id}")
    }
}

/// The command that has the system's shell run a line, without the parent's variables.
fn shell_command(alloc: Global, line: &str) -> Result<Command, AllocError>
    ensures { IfOk result (RunsLine line.now) }
{
    let mut shell = Command::new(alloc, "/bin/sh")?;
    shell.arg("-c")?;
    shell.arg(line)?;
    shell.env_clear();
    Ok(shell)
}

/// How a child ended, by what std says of it.
#[tactic(auto, using(crate::proofs::Endings::ending_possible))]
fn ending_of(status: process::ExitStatus) -> Result<ExitStatus, Fault>
    ensures said { result ≡ ending_said (exit_code status) (exit_signal status) }
    ensures possible { IfOk result (λ ending. IsTrue (can_end ending)) }
{
    if let Some(code) = status.code() {
        return Ok(ExitStatus::Code(code));
    }
    match status.signal() {
        Some(signal) => Ok(ExitStatus::Signal(signal)),
        None => Err(Fault::new(Kind::Other)),
    }
}

impl<R: Processes + Drop> Numbered for Child<R> {
    ghost number_of = { λ c. c.number };

    fn number(&self) -> u64 {
        self.number
    }
}

/// A poll returns an exit code from 0 to 255 or a signal from 1 to 126, if it returns an ending.
/// Nothing more is promised of what the machine returns, except that a signal that isn't served
/// fails with `InvalidInput`, where the order is noted.
impl<R: Processes + Drop> system::Child for Child<R> {
    ghost use Rattle.std.proofs.Common.{refl};
    ghost use Rattle.duct_host.specs.ChildView.{child_view};
    ghost use Rattle.duct_host.specs.Signals.{MayObey};

    ghost may_answer = { λ _ answer. IsTrue (can_answer answer) };

    ghost may_obey = { λ _ order noted answer. MayObey order noted answer };

    ghost child_view = { child_view };

    fn poll(&mut self) -> Result<Option<ExitStatus>, Fault> {
        self.polls = self.polls.saturating_add(1);
        let answer = answer_of(self.seen, &mut self.started);
        if let Ok(Some(ending)) = answer {
            self.seen = SeenEnding {
                ending: Some(ending),
            };
        }
        self.last = Some(answer);
        answer
    }

    fn kill(&mut self) -> Result<(), Fault> {
        self.order(Order::Kill)
    }

    fn signal(&mut self, signal: i32) -> Result<(), Fault> {
        self.order(Order::Signal(signal))
    }

    fn id(&self) -> u32 {
        self.id
    }

    fn leads(&self) -> bool {
        self.leads
    }

    ghost has_number = { λ c. refl };
}

impl<R: Processes> Child<R> {
    ghost use Rattle.duct_system.specs.Child.{OrdersChild};
    ghost use Rattle.duct_host.specs.ChildView.{child_view};
    ghost use Rattle.duct_host.specs.Signals.{MayObey};

    /// Gives the child an order, and notes it with its result. Where the note can't be allocated,
    /// the order is not given.
    fn order(&mut self, order: Order) -> Result<(), Fault>
        ensures { OrdersChild (λ _ order noted answer. MayObey order noted answer) order
            (child_view self.old) result (child_view self.new) }
    {
        if self.orders.reserve(1).is_err() {
            return Err(no_memory());
        }
        let answer = self.answer_to(order);
        self.orders.push_reserved((order, answer));
        answer
    }

    /// Gives the child an order, or the group that it leads, and returns the result.
    fn answer_to(&mut self, order: Order) -> Result<(), Fault>
        ensures allowed { MayObey order true result }
        ensures view { child_view self.new ≡ child_view self.old }
        ensures leads { self.new.leads ≡ self.old.leads }
        ensures orders { self.new.orders ≡ self.old.orders }
    {
        match order {
            Order::Signal(signal) if !is_served(signal) => Err(Fault::new(Kind::InvalidInput)),
            _ if self.leads => self.order_group(signal_of(order)),
            Order::Kill => self.order_process(KILL),
            Order::Signal(signal) => self.order_process(signal),
        }
    }

    /// Sends the process a signal that is served: a kill by std, any other by a shell.
    fn order_process(&mut self, signal: i32) -> Result<(), Fault>
        ensures view { child_view self.new ≡ child_view self.old }
        ensures leads { self.new.leads ≡ self.old.leads }
        ensures orders { self.new.orders ≡ self.old.orders }
    {
        if signal == KILL {
            return kill_process(&mut self.started);
        }
        let asked = has_ended(self.seen.ending, self.last, &mut self.started);
        self.send(signal, asked)
    }

    /// Sends the group that the child leads a signal, by a shell. Where that reached none, and the
    /// child has not been seen to end, the process is sent the signal, and then the group again,
    /// which the process may have begun to lead meanwhile.
    fn order_group(&mut self, signal: i32) -> Result<(), Fault>
        ensures view { child_view self.new ≡ child_view self.old }
        ensures leads { self.new.leads ≡ self.old.leads }
        ensures orders { self.new.orders ≡ self.old.orders }
    {
        let sent = self.send_by_shell(signal, true);
        match group_answer(self.seen.ending, sent) {
            Some(answer) => answer,
            None => {
                let answer = self.order_process(signal);
                let _ = self.send_by_shell(signal, true);
                answer
            }
        }
    }

    /// Sends the child a signal. Where it has ended nothing is sent and the result is `Ok`, as a
    /// kill's. Where it isn't known whether it has, that fault is the error.
    fn send(&self, signal: i32, asked: Result<bool, Fault>) -> Result<(), Fault>
        ensures ended { asked ≡ Ok true → result ≡ Ok tt }
        ensures refused { IfErr asked (λ fault. result ≡ Err fault) }
    {
        if asked? {
            return Ok(());
        }
        match self.send_by_shell(signal, false)? {
            true => Ok(()),
            false => Err(Fault::new(Kind::Other)),
        }
    }

    /// Has a shell send a signal to the child, or to the group that it leads, and blocks until the
    /// shell has ended. Returns whether the signal was sent, or that there is no such process.
    fn send_by_shell(&self, signal: i32, group: bool) -> Result<bool, Fault> {
        let mut shell = self.start_shell(signal, group)?;
        sent_by(wait_for(&mut shell.process)?)
    }

    /// Starts a shell that sends the signal, and has no streams.
    fn start_shell(&self, signal: i32, group: bool) -> Result<Started<R::Started>, Fault>
        ensures { IfOk result
            (λ shell. RunsLine (kill_line signal group self.now.id) shell.command.value) }
    {
        let Ok(command) = kill_command(self.alloc, signal, group, self.id) else {
            return Err(no_memory());
        };
        start_command(
            &self.rt,
            &command,
            &[Stdio::null(), Stdio::null(), Stdio::null()],
        )
    }
}

/// The result of an order to a group, by what came of the shell: `None` where the order is to go to
/// the process, since the group can't have been reached and the process has not been seen to end.
fn group_answer(seen: Option<ExitStatus>, sent: Result<bool, Fault>) -> Option<Result<(), Fault>>
    ensures { IsGroupAnswer seen sent result }
{
    match (sent, seen) {
        (Ok(true), _) | (Ok(false), Some(_)) => Some(Ok(())),
        (Err(fault), Some(_)) => Some(Err(fault)),
        (_, None) => None,
    }
}

/// Whether a shell that ended so has sent its signal: it has where it exited with code 0. It found
/// no such process where it exited with code 1. Any other ending is the fault `Other`.
fn sent_by(shell: process::ExitStatus) -> Result<bool, Fault>
    ensures { SentBy (exit_code shell) result }
{
    match shell.code() {
        Some(0) => Ok(true),
        Some(1) => Ok(false),
        _ => Err(Fault::new(Kind::Other)),
    }
}
