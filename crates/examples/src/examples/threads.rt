//! A handle that is lent to another thread.
ghost use Rattle.std.specs.Prelude.{IfSome, Err};

use duct::{Error, Fault};
use duct_host::HostClock;
use duct_shell::{SharedHandle, Shell};
use std::rt;
use std::sync::Wait;
use std::test::Fail;
use std::thread::{self, Threads};
use std::time::Duration;

/// Waits for what runs, and kills it from another thread if it runs for longer than this. Returns
/// the error of the wait.
fn wait_or_kill<H: SharedHandle, R: Wait + Threads + rt::Clock + Sync>(
    rt: &R,
    handle: &H,
    limit: Duration,
) -> Option<Error>
    ensures { IfSome result (λ error. H.may_return handle.now (Err error)) }
{
    let (waited, _killed) = thread::join(
        rt,
        || handle.wait(rt).err(),
        || kill_late(rt, handle, limit).err(),
    );
    waited
}

/// Waits for this long, and kills what still runs then.
fn kill_late<H: SharedHandle, R: Wait + rt::Clock>(
    rt: &R,
    handle: &H,
    limit: Duration,
) -> Result<(), Error> {
    let clock = HostClock::new(rt).map_err(Fault::from)?;
    if handle.wait_timeout(rt, &clock, limit)?.is_none() {
        handle.kill(rt)?;
    }
    Ok(())
}

#[test]
fn a_late_command_is_killed(rt: HostRuntime) -> Result<(), Fail> {
    let mut sh = Shell::new(&rt);
    let handle = sh.start(&sh.cmd("sleep", &["20"])?)?;
    let ended = wait_or_kill(&&rt, &handle, Duration::from_millis(200));
    handle.give_up(&mut sh.pool);
    let told = format!(in sh.alloc; "{ended:?}")?;
    let wanted =
        "Some(Checked(\"command [\\\"sleep\\\", \\\"20\\\"] exited with code <signal 9>\"))";
    assert_eq!(rt; told.as_str(), wanted);
    Ok(())
}
