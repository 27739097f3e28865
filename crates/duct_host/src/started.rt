//! A process that was started, with the command that it was started by.
ghost use Rattle.std.specs.Prelude.{◌≡◌, Some, IfOk};
ghost use Rattle.std.specs.Process.{child_status};

use duct_base::system::{Fault, Kind};
use std::io::ErrorKind;
use std::process::{Child, Command, ExitStatus, OpenProcess, Processes, Stdio};
use std::snapshot::Snapshot;

/// A process. Contracts see the command that it was started by, which takes no memory here.
#[derive(Drop)]
pub(crate) struct Started<P: OpenProcess> {
    pub process: Child<P>,
    pub command: Snapshot<Command>,
}

/// Starts a command with these streams, in the order stdin, stdout, stderr. A start that a signal
/// interrupts is tried again.
pub(crate) fn start_command<R: Processes>(
    rt: &R,
    command: &Command,
    streams: &[Stdio; 3],
) -> Result<Started<R::Started>, Fault>
    ensures { IfOk result (λ started. started.command.value ≡ command.now) }
{
    let [input, output, errors] = streams;
    for _ in 0..u64::MAX {
        match rt.spawn(command, input, output, errors) {
            Ok(process) => {
                let command = Snapshot::of(command);
                return Ok(Started { process, command });
            }
            Err(error) if error.kind() == ErrorKind::Interrupted => {}
            Err(error) => return Err(Fault::from(error)),
        }
    }
    Err(Fault::new(Kind::Other))
}

/// Asks the machine for a process's status, without waiting. A question that a signal interrupts is
/// asked again.
pub(crate) fn status_of<P: OpenProcess>(process: &mut Child<P>) -> Result<Option<ExitStatus>, Fault>
    ensures { IfOk result (λ status. child_status process.new ≡ status) }
{
    for _ in 0..u64::MAX {
        match process.try_wait() {
            Ok(status) => return Ok(status),
            Err(error) if error.kind() == ErrorKind::Interrupted => {}
            Err(error) => return Err(Fault::from(error)),
        }
    }
    Err(Fault::new(Kind::Other))
}

/// Waits until a process has ended, and returns its status. A wait that a signal interrupts goes
/// on.
pub(crate) fn wait_for<P: OpenProcess>(process: &mut Child<P>) -> Result<ExitStatus, Fault>
    ensures { IfOk result (λ status. child_status process.new ≡ Some status) }
{
    for _ in 0..u64::MAX {
        match process.wait() {
            Ok(status) => return Ok(status),
            Err(error) if error.kind() == ErrorKind::Interrupted => {}
            Err(error) => return Err(Fault::from(error)),
        }
    }
    Err(Fault::new(Kind::Other))
}
