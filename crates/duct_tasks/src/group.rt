//! Orders to what runs, which go to the whole group of a command that leads one.
ghost use Rattle.std.specs.Prelude.{◌≡◌, ◌+◌, ◌<◌, length, map, string_bytes, slice_get, Bool, IfErr, IfOk, IfSome, Option, Some};
ghost use Rattle.duct_status.specs.ShapeView.{command_count, shape_view};
ghost use Rattle.duct_running.specs.Ordered.{OrderAnswers};
ghost use Rattle.duct.specs.TreeView.{tree_view};
ghost use Rattle.duct_tasks.specs.Groups.{IsGivenAt, OrdersAll, TriedAt, TriedGroup, Tries, group_line, leaders, leads, line_tree, printed_line, signal_of};
ghost use Rattle.duct_tasks.specs.Until.{RunsAlike};

use duct::{Expression, cmd};
use duct_base::error::Error;
use duct_base::pool::Pool;
use duct_base::spec::Hook;
use duct_base::status::Shape;
use duct_base::system::{Fault, Order, System};
use duct_running::running::Running;
use duct_system::views::Viewed;
use std::alloc::{AllocError, Global};
use std::sync::Wait;

/// The signal that is a kill.
const KILL: i32 = 9;

// Returns whether a command with these words leads a group.
fn leads(words: &[String]) -> bool
    ensures { result ≡ leads (map string_bytes words.now) }
{
    match words.first() {
        Some(program) => {
            let program = program.as_str();
            program == "setsid" || program.ends_with("/setsid")
        }
        None => false,
    }
}

// Returns whether the command at this place of a shape leads a group, or how many places it is
// behind the last one.
#[tactic(auto, using(crate::proofs::Trying::only, crate::proofs::Trying::in_left, crate::proofs::Trying::in_right))]
fn leads_at(shape: &Shape, at: usize) -> Result<bool, usize>
    ensures found { IfOk result
        (λ leads. slice_get (leaders (shape_view shape.now)) at ≡ Some leads) }
    ensures behind { IfErr result (λ rest. at ≡ command_count (shape_view shape.now) + rest) }
{
    match shape {
        Shape::Command(words) => {
            if at == 0 {
                Ok(leads(words))
            } else {
                Err(at - 1)
            }
        }
        Shape::Pipe(left, right) => match leads_at(left, at) {
            Ok(leads) => Ok(leads),
            Err(rest) => leads_at(right, rest),
        },
        Shape::Input(inner) | Shape::Unchecked(inner) => leads_at(inner, at),
    }
}

// Returns the line by which a shell sends the signal of an order to the group of a process.
fn group_text(alloc: Global, order: Order, process: u32) -> Result<String, AllocError>
    ensures { IfOk result (λ line. IfSome (printed_line (signal_of order) process)
        (λ text. string_bytes line ≡ text)) }
{
    match order {
        Order::Kill => format!(in alloc; "kill -{KILL} -{process}"),
        Order::Signal(signal) => format!(in alloc; "kill -{signal} -{process}"),
    }
}

// Returns the expression that has the system's shell run that line.
fn line<E: Drop, H: Drop>(
    alloc: Global,
    order: Order,
    process: u32,
) -> Result<Expression<E, H>, Error>
    ensures { IfOk result
        (λ made. tree_view made ≡ line_tree (group_line (signal_of order) process)) }
{
    let text = group_text(alloc, order, process)?;
    let shell = cmd(alloc, "/bin/sh", &["-c", text.as_str()])?;
    let quiet = shell.stdin_null()?.stdout_null()?.stderr_null()?;
    quiet.unchecked()
}

// Sends the signal of an order to the group of a process, by a run of the system's shell, and waits
// until that has ended. Returns whether it was sent.
fn signal_group<H: Hook, S: System>(
    rt: &impl Wait,
    sys: &mut S,
    pool: &mut Pool<S::Child>,
    like: &Expression<S::End, H>,
    order: Order,
    process: u32,
) -> bool
    ensures { TriedGroup ⟦<S as Viewed>⟧.views H.allows H.refuses (signal_of order) process
        (sys.old, pool.old) result (sys.new, pool.new) }
{
    let Ok(line) = line::<S::End, H>(like.allocator(), order, process) else {
        return false;
    };
    match line.run(rt, sys, pool) {
        Ok(output) => output.status.success(),
        Err(_) => false,
    }
}

// Returns whether the command at this place leads a group.
fn is_leader(shape: &Shape, at: usize) -> bool
    requires { at < command_count (shape_view shape.now) }
    ensures { slice_get (leaders (shape_view shape.now)) at ≡ Some result }
{
    match leads_at(shape, at) {
        Ok(leads) => leads,
        Err(_) => unreachable!(),
    }
}

// Tries to send the signal of an order to the group of the command at this place. Returns whether
// it was sent, if that leads one.
fn try_group<H: Hook, S: System>(
    rt: &impl Wait,
    sys: &mut S,
    pool: &mut Pool<S::Child>,
    like: &Expression<S::End, H>,
    order: Order,
    running: &Running<S>,
    at: usize,
) -> Option<bool>
    requires { at < command_count (shape_view running.now.shape) }
    ensures { TriedAt ⟦<S as Viewed>⟧.views H.allows H.refuses (signal_of order) at
        (sys.old, pool.old) running.now result (sys.new, pool.new) }
{
    let process = running.pids()[at];
    if !is_leader(running.shape(), at) {
        return None;
    }
    Some(signal_group(rt, sys, pool, like, order, process))
}

// Gives an order to the command at this place, unless it leads a group that was sent the signal.
fn order_at<H: Hook, S: System>(
    rt: &impl Wait,
    sys: &mut S,
    pool: &mut Pool<S::Child>,
    like: &Expression<S::End, H>,
    order: Order,
    running: &mut Running<S>,
    at: usize,
) -> Result<(), Fault>
    requires within { at < length running.old.children }
    requires place { at < command_count (shape_view running.old.shape) }
    ensures shape { running.new.shape ≡ running.old.shape }
    ensures given { (led : Option Bool) × TriedAt ⟦<S as Viewed>⟧.views H.allows H.refuses
        (signal_of order) at (sys.old, pool.old) running.old led (sys.new, pool.new)
        × IsGivenAt ⟦<S as Viewed>⟧.views order at running.old (led, result) running.new }
    ensures feeds { running.new.feeds ≡ running.old.feeds }
    ensures output { running.new.output ≡ running.old.output }
    ensures error { running.new.error ≡ running.old.error }
{
    let led = try_group(rt, sys, pool, like, order, running, at);
    if led.unwrap_or(false) {
        return Ok(());
    }
    running.order_at(at, order)
}

// Converts the result of an order: a fault becomes `Error::System`.
fn result_of(answer: Result<(), Fault>) -> Result<(), Error>
    ensures { OrderAnswers answer result }
{
    Ok(answer?)
}

/// Gives an order to each command of what this expression runs that is not known to have ended,
/// once and from right to left. The group of a command that leads one is sent the signal instead,
/// also where the command is known to have ended; where it can't be, the command is given the order
/// as the others are. Returns the leftmost fault of those that were given it.
pub(crate) fn order_all<H: Hook, S: System>(
    rt: &impl Wait,
    sys: &mut S,
    pool: &mut Pool<S::Child>,
    like: &Expression<S::End, H>,
    order: Order,
    running: &mut Running<S>,
) -> Result<(), Error>
    ensures alike { RunsAlike ⟦<S as Viewed>⟧.views running.old running.new }
    ensures ordered { (tries : Tries) × OrdersAll ⟦<S as Viewed>⟧.views order H.allows H.refuses
        tries (sys.old, pool.old) running.old result (sys.new, pool.new) running.new }
{
    let mut answer = Ok(());
    for at in (0..running.pids().len()).rev() {
        answer = order_at(rt, sys, pool, like, order, running, at).and(answer);
    }
    result_of(answer)
}
