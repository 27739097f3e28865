//! The outcome of the latest reports.
ghost use Rattle.std.specs.Prelude.{◌≡◌, option_map};
ghost use Rattle.duct_status.specs.Bytes.{lent_bytes, outcome_view};
ghost use Rattle.duct_status.specs.EventView.{bytes_said};
ghost use Rattle.duct_status.specs.Outcome.{awaited_by, captured, ended, finished, with_bytes};

use crate::per_side::PerSide;
use crate::status::look::Findings;
use duct_system::system::{Fault, Said, Side};
use std::sync::Arc;

/// The outcome: something still runs, a fault, or all have ended, with the bytes of stdout and of
/// stderr.
#[derive(Clone, Copy)]
pub(crate) enum Outcome<'a> {
    Waits,
    Faults(Fault),
    Finished(&'a [u8], &'a [u8]),
}

/// Returns the report of a capture worker. If there is none, no bytes are captured.
fn bytes_of(drain: &Option<Said<Arc<Vec<u8>>>>) -> Said<&[u8]>
    ensures { lent_bytes result ≡ captured (option_map bytes_said drain.now) }
{
    match drain {
        None => Said::Done(&[]),
        Some(Said::Running) => Said::Running,
        Some(Said::Fault(fault)) => Said::Fault(*fault),
        Some(Said::Done(bytes)) => Said::Done(bytes.as_slice()),
    }
}

/// Returns the outcome: the fault that was found; else `Waits` if something runs; else stdout's
/// capture worker decides, and then stderr's.
pub(crate) fn judge<'a>(
    found: Findings,
    drains: &'a PerSide<Option<Said<Arc<Vec<u8>>>>>,
) -> Outcome<'a>
    ensures { outcome_view result
        ≡ ended found.fault found.runs
        (with_bytes (captured (option_map bytes_said drains.now.out))
        (λ out. with_bytes (captured (option_map bytes_said drains.now.err))
        (λ err. finished out err))) }
{
    if let Some(fault) = found.fault {
        return Outcome::Faults(fault);
    }
    if found.runs {
        return Outcome::Waits;
    }
    match (bytes_of(&drains.out), bytes_of(&drains.err)) {
        (Said::Running, _) => Outcome::Waits,
        (Said::Fault(fault), _) => Outcome::Faults(fault),
        (Said::Done(_), Said::Running) => Outcome::Waits,
        (Said::Done(_), Said::Fault(fault)) => Outcome::Faults(fault),
        (Said::Done(output), Said::Done(error)) => Outcome::Finished(output, error),
    }
}

/// Returns the stream whose capture worker decides and has not finished, if no fault was found and
/// nothing runs.
pub(crate) fn awaited(found: Findings, drains: &PerSide<Option<Said<Arc<Vec<u8>>>>>) -> Option<Side>
    ensures { result
        ≡ awaited_by found.fault found.runs (captured (option_map bytes_said drains.now.out))
        (captured (option_map bytes_said drains.now.err)) }
{
    if found.fault.is_some() || found.runs {
        return None;
    }
    match (bytes_of(&drains.out), bytes_of(&drains.err)) {
        (Said::Running, _) => Some(Side::Out),
        (Said::Done(_), Said::Running) => Some(Side::Err),
        (Said::Fault(_), _) | (Said::Done(_), Said::Fault(_) | Said::Done(_)) => None,
    }
}
