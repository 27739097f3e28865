//! The text of all that a start writes to its pipe, without a lock.
ghost use Rattle.std.specs.Prelude.{◌≡◌, IfErr, IfOk, None, OnOk};
ghost use Rattle.duct_running.specs.Ordered.{IsUnordered};
ghost use Rattle.duct_running.specs.Polled.{StaysSame};
ghost use Rattle.duct_handle.specs.ReadsText.{FailsToRead, HasText, ReadsText, StopsReading};

use crate::finish::wait_for;
use crate::text::text_of;
use duct_base::error::Error;
use duct_base::pool::Pool;
use duct_base::system::System;
use duct_base::transfer::drain_watched;
use duct_base::watched::Watched;
use duct_running::running::Running;
use duct_system::views::Viewed;
use std::alloc::Global;
use std::io::Read;
use std::sync::Wait;

// Reads the pipe to EOF, waits, and makes the text of what was read. A fault is that of what
// stopped the pipe, and comes before anything is waited for.
fn read_all<S: System>(
    alloc: Global,
    rt: &impl Wait,
    running: &mut Running<S>,
    pipe: &mut Watched<'_, S::Reader>,
) -> Result<String, Error>
    requires unordered { IsUnordered ⟦<S as Viewed>⟧.views running.old }
    requires open { pipe.old.stopped ≡ None }
    ensures stays { OnOk result (StaysSame ⟦<S as Viewed>⟧.views running.old running.new) }
    ensures text { IfOk result (λ text. HasText ⟦<S as Viewed>⟧.views
        (S.Reader.remaining pipe.old.inner.now) text running.new) }
    ensures failed { IfErr result (λ e. StopsReading ⟦<S as Viewed>⟧.views pipe.new.stopped
        (S.Reader.remaining pipe.old.inner.now) e running.old running.new) }
{
    let bytes = drain_watched(alloc, pipe)?;
    drop(wait_for(rt, running)?);
    text_of(bytes)
}

/// Reads the pipe to EOF, waits until what runs has ended, as `wait_for` does, and returns the
/// bytes as text without the newlines and carriage returns at its end. No second copy of the bytes
/// is made: they become the text. The pool is left as it was. None of the children may have been
/// given an order before.
///
/// Fails with `Error::System` for a fault of the pipe, of kind `OutOfMemory` where the list can't
/// grow. Both come before anything is waited for, and an error of the wait comes before
/// `Error::NotUtf8`. Where it fails, the children are given to the pool, as `Running::give_up`
/// gives them.
pub fn read_text<S: System>(
    alloc: Global,
    rt: &impl Wait,
    mut running: Running<S>,
    mut reader: S::Reader,
    pool: &mut Pool<S::Child>,
) -> Result<String, Error>
    requires { IsUnordered ⟦<S as Viewed>⟧.views running }
    ensures text { IfOk result (ReadsText ⟦<S as Viewed>⟧.views running
        (S.Reader.remaining reader)) }
    ensures kept { OnOk result (pool.new ≡ pool.old) }
    ensures failed { IfErr result (λ e. FailsToRead ⟦<S as Viewed>⟧.views running
        (S.Reader.remaining reader) e pool.old pool.new) }
{
    match read_all(alloc, rt, &mut running, &mut Watched::new(&mut reader)) {
        Ok(text) => {
            drop(running.into_parts());
            Ok(text)
        }
        Err(error) => {
            running.give_up(pool);
            Err(error)
        }
    }
}
