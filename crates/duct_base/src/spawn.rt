//! Starting workers, each on a thread of its own.
ghost use Rattle.std.specs.Prelude.{◌≡◌, ◌⊎◌, IfOk, IfErr, IfSome, OnOk, None};
ghost use Rattle.std.specs.Arc.{arc_value};
ghost use Rattle.std.specs.Io.KnownBytes.{IsAtEnd};
ghost use Rattle.duct_system.specs.Job.{unpolled_job};
ghost use Rattle.duct_system.specs.declared.system.Kind.TheVariants.{OutOfMemory, Other};
ghost use Rattle.duct_base.specs.Transfer.{IsDrainFault};
ghost use Rattle.duct_base.specs.WorkerView.{worker_view};

use crate::shared::Shared;
use crate::transfer::{drain_watched, feed_watched};
use crate::watched::Watched;
use crate::worker::{Left, Worker};
use duct_system::system::{Fault, Kind};
use std::alloc::Global;
use std::io::{Read, Write};
use std::sync::{Arc, OnceLock};
use std::thread;
use std::thread::Threads;

/// Starts a worker that writes the bytes to the writer as `feed` does, and drops the writer. Polls
/// of the worker then return `Done`, or the fault. Its number is 0.
///
/// Fails with `OutOfMemory` at an allocation failure, and with `Other` if no thread can be started.
/// The writer is then dropped, and nothing was written.
pub fn spawn_feed<R: Threads, W: Write + Send + Drop + 'static>(
    rt: &R,
    alloc: Global,
    writer: W,
    bytes: Arc<Vec<u8>>,
) -> Result<Worker<()>, Fault>
    ensures ok { IfOk result (λ worker. worker_view worker ≡ unpolled_job 0) }
    ensures err { IfErr result
        (λ fault. (fault.kind ≡ OutOfMemory) ⊎ (fault.kind ≡ Other)) }
{
    spawn_numbered_feed(rt, alloc, 0, writer, bytes)
}

/// Starts a worker as `spawn_feed` does, with this number.
pub fn spawn_numbered_feed<R: Threads, W: Write + Send + Drop + 'static>(
    rt: &R,
    alloc: Global,
    number: u64,
    writer: W,
    bytes: Arc<Vec<u8>>,
) -> Result<Worker<()>, Fault>
    ensures ok { IfOk result (λ worker. worker_view worker ≡ unpolled_job number) }
    ensures err { IfErr result
        (λ fault. (fault.kind ≡ OutOfMemory) ⊎ (fault.kind ≡ Other)) }
{
    spawn_work(rt, alloc, number, move || {
        let mut writer = writer;
        let mut watched = Watched::new(&mut writer);
        feed_watched(&mut watched, bytes.as_slice())
    })
}

/// Starts a worker that reads the reader to EOF as `drain` does, and drops the reader. Polls of the
/// worker then return the bytes, or the fault. Its number is 0.
///
/// Fails as `spawn_feed` does. The reader is then dropped, and nothing was read.
pub fn spawn_drain<R: Threads, S: Read + Send + Drop + 'static>(
    rt: &R,
    alloc: Global,
    reader: S,
) -> Result<Worker<Arc<Vec<u8>>>, Fault>
    ensures ok { IfOk result (λ worker. worker_view worker ≡ unpolled_job 0) }
    ensures err { IfErr result
        (λ fault. (fault.kind ≡ OutOfMemory) ⊎ (fault.kind ≡ Other)) }
{
    spawn_numbered_drain(rt, alloc, 0, reader)
}

/// Starts a worker as `spawn_drain` does, with this number.
pub fn spawn_numbered_drain<R: Threads, S: Read + Send + Drop + 'static>(
    rt: &R,
    alloc: Global,
    number: u64,
    reader: S,
) -> Result<Worker<Arc<Vec<u8>>>, Fault>
    ensures ok { IfOk result (λ worker. worker_view worker ≡ unpolled_job number) }
    ensures err { IfErr result
        (λ fault. (fault.kind ≡ OutOfMemory) ⊎ (fault.kind ≡ Other)) }
{
    spawn_work(rt, alloc, number, move || {
        let mut reader = reader;
        let mut watched = Watched::new(&mut reader);
        drained(alloc, &mut watched)
    })
}

/// Reads the reader to EOF, as `drain_watched` does, and returns its bytes, ready to be shared.
fn drained<S: Read>(alloc: Global, reader: &mut Watched<'_, S>) -> Result<Arc<Vec<u8>>, Fault>
    requires open { reader.old.stopped ≡ None }
    ensures bytes { IfOk result (λ shared.
        IfSome (S.remaining reader.old.inner.now) (λ left. (arc_value shared).items ≡ left)) }
    ensures end { OnOk result (IsAtEnd (S.remaining reader.new.inner.now)) }
    ensures fault { IfErr result (IsDrainFault reader.new.stopped) }
{
    let bytes = drain_watched(alloc, reader)?;
    Arc::new(alloc, bytes).map_err(|_| Fault::new(Kind::OutOfMemory))
}

/// Starts a thread that does the work and then stores the result for the polls.
fn spawn_work<R: Threads, T: Shared + Send + Sync + 'static, F: FnOnce() -> Result<T, Fault>>(
    rt: &R,
    alloc: Global,
    number: u64,
    work: F,
) -> Result<Worker<T>, Fault>
where
    F: Send + 'static,
    requires { F.pre work }
    ensures ok { IfOk result (λ worker. worker_view worker ≡ unpolled_job number) }
    ensures err { IfErr result
        (λ fault. (fault.kind ≡ OutOfMemory) ⊎ (fault.kind ≡ Other)) }
{
    let (left, theirs) = two_owners(alloc)?;
    let started = thread::spawn(
        rt,
        move ||
            requires { F.pre work }
        {
            let _ = theirs.try_set(work());
        },
    );
    if started.is_err() {
        return Err(Fault::new(Kind::Other));
    }
    Ok(Worker::new(number, left))
}

/// Returns two owners of an empty cell for a result.
fn two_owners<T: Drop>(alloc: Global) -> Result<(Left<T>, Left<T>), Fault>
    ensures { IfErr result (λ fault. fault.kind ≡ OutOfMemory) }
{
    let refused = Fault::new(Kind::OutOfMemory);
    let Ok(left) = Arc::new(alloc, OnceLock::new()) else {
        return Err(refused);
    };
    match Arc::try_clone(&left) {
        Ok(theirs) => Ok((left, theirs)),
        Err(_) => Err(refused),
    }
}
