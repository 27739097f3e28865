//! Tests of groups of processes on the real machine, of which nothing is left that belongs to them.
use duct_host::HostClock;
use duct_shell::Shell;
use std::test::Fail;
use std::time::Duration;

/// How long the group may run, and its grace, in milliseconds.
const SOON: u64 = 100;

/// Starts three processes of the group, of which one ignores signal 15, and one that leaves it.
/// Their names have the id of this test's process in them.
const STARTS: &str = "(trap '' 15; exec sleep 39.00$PPID) & sleep 39.00$PPID & \
     setsid sleep 38.00$PPID & sleep 39.00$PPID";

/// Waits two seconds at most until none of the three runs, or fails. Then kills the one that left,
/// and says so.
const LOOKS: &str = "n=20; while grep -qs \"39[.]00$PPID\" /proc/[0-9]*/cmdline; do \
     n=$((n - 1)); [ $n -gt 0 ] || exit 1; sleep 0.1; done; \
     for p in $(grep -ls \"38[.]00$PPID\" /proc/[0-9]*/cmdline); do \
     p=${p%/cmdline}; kill -9 \"${p#/proc/}\"; echo stays; done";

/// Checks that a limit ends all of a group a hundred times, and not what has left it.
#[test]
fn a_limit_ends_a_whole_group(rt: HostRuntime) -> Result<(), Fail> {
    let mut sh = Shell::new(&rt);
    let clock = HostClock::new(&rt)?;
    let soon = Duration::from_millis(SOON);
    let group = sh.group("sh", &["-c", STARTS])?;
    let looks = sh.cmd("sh", &["-c", LOOKS])?;
    let mut stayed = 0;
    for _ in 0..100 {
        let _ = sh.run_for(&clock, soon, soon, &group)?;
        if sh.read(&looks)?.as_str() == "stays" {
            stayed = 1_u32.saturating_add(stayed);
        }
    }
    assert!(rt; stayed > 0 && stayed <= 100, "{stayed}");
    Ok(())
}

/// Checks that a kill ends a whole group right after its start, and what is left of one whose leader
/// has ended, fifty times each.
#[test]
fn a_kill_ends_a_whole_group(rt: HostRuntime) -> Result<(), Fail> {
    let mut sh = Shell::new(&rt);
    let group = sh.group("sh", &["-c", STARTS])?;
    let short = sh.group("sh", &["-c", "sleep 39.00$PPID & exit 0"])?;
    let (looks, nap) = (sh.cmd("sh", &["-c", LOOKS])?, sh.cmd("sleep", &["0.01"])?);
    for _ in 0..50 {
        let begun = sh.launch(&group)?;
        sh.kill(begun)?;
        sh.give_up(begun)?;
        let ended = sh.launch(&short)?;
        for _ in 0..1000 {
            if sh.poll(ended)?.is_some() {
                break;
            }
            sh.run(&nap)?;
        }
        sh.kill(ended)?;
        sh.give_up(ended)?;
        sh.run(&looks)?;
    }
    Ok(())
}
