//! Tests of threads that share a reader handle. A thread that waits for another one checks a
//! limited number of times, and then goes on.
use crate::waits::until;
use duct::ReaderHandle;
use duct_script::{Gate, ReaderScript, Script};
use rows_table::{Bench, TableError, written};
use std::alloc::Global;
use std::sync::Wait;
use std::test::Fail;
use std::thread;
use std::thread::Threads;

/// Starts one command, whose reader returns this many bytes, and passes the gate before each read.
/// Returns its reader handle.
fn handle_of<'r, R: Wait>(
    rt: &'r R,
    alloc: Global,
    bench: &mut Bench,
    count: usize,
    gate: &Gate,
) -> Result<ReaderHandle<Script, &'r R>, TableError> {
    let mut script = ReaderScript::empty(alloc);
    script.bytes = vec![in alloc; 7; count]?;
    script.gate = Some(gate.share()?);
    bench.sys.bytes(script)?;
    let tree = written(alloc, "a")?;
    Ok(tree.reader(rt, &mut bench.sys, &mut bench.pool)?)
}

/// Reads at most this many times, until a read returns no bytes or fails. Returns how many bytes
/// were read.
fn count<R: Wait>(handle: &ReaderHandle<Script, R>, times: u32) -> usize {
    let mut buffer = [0; 16];
    let mut total = 0_usize;
    for _ in 0..times {
        let mut seen = handle.seen();
        match handle.read_as(&mut buffer, &mut seen) {
            Ok(0) | Err(_) => return total,
            Ok(read) => total = total.saturating_add(read),
        }
    }
    total
}

/// Calls a handle while another thread reads from it. Returns whether that thread waited at the
/// gate, how many ids there are, whether a poll returned that the command runs, and whether a kill
/// succeeded. Starts once a thread waits at the gate, and opens the gate at the end.
fn ask_beside<R: Wait>(handle: &ReaderHandle<Script, R>, gate: &Gate) -> (bool, usize, bool, bool) {
    let stood = until(|| gate.standing() > 0);
    let ids = handle.pids().len();
    let runs = matches!(handle.try_wait(), Ok(None));
    let killed = handle.kill().is_ok();
    let stands = gate.standing() > 0;
    gate.open();
    (stood && stands, ids, runs, killed)
}

/// Reads once in one thread, and calls `ask_beside` in another. Returns both results.
fn count_and_ask<R: Wait + Threads + Sync>(
    rt: &R,
    handle: &ReaderHandle<Script, &R>,
    gate: &Gate,
) -> (usize, (bool, usize, bool, bool)) {
    thread::join(rt, || count(handle, 1), || ask_beside(handle, gate))
}

/// Does this with a new reader handle.
fn ask_in_a_read<R: Wait + Threads + Sync>(
    rt: &R,
    alloc: Global,
) -> Result<(usize, (bool, usize, bool, bool)), TableError> {
    let gate = Gate::new(alloc)?;
    let mut bench = Bench::new(alloc)?;
    let handle = handle_of(rt, alloc, &mut bench, 3, &gate)?;
    gate.shut();
    let told = count_and_ask(rt, &handle, &gate);
    handle.give_up(&mut bench.pool);
    Ok(told)
}

/// Returns how many bytes two threads read together.
fn count_together<R: Wait + Threads + Sync>(rt: &R, handle: &ReaderHandle<Script, &R>) -> usize {
    let (one, other) = thread::join(rt, || count(handle, 1_000_000), || count(handle, 1_000_000));
    one.saturating_add(other)
}

/// Does this with a new reader handle, whose reader has a thousand bytes.
fn read_together<R: Wait + Threads + Sync>(rt: &R, alloc: Global) -> Result<usize, TableError> {
    let gate = Gate::new(alloc)?;
    let mut bench = Bench::new(alloc)?;
    let _ = bench.set(alloc, "children", "code 0")?;
    let handle = handle_of(rt, alloc, &mut bench, 1000, &gate)?;
    let total = count_together(rt, &handle);
    handle.give_up(&mut bench.pool);
    Ok(total)
}

/// Checks that the ids, a poll and a kill return while another thread is blocked in a read, and
/// that two threads that read from one handle get as many bytes together as its reader has.
#[test]
fn threads_share_a_reader_handle(rt: HostRuntime) -> Result<(), Fail> {
    assert_eq!(rt; ask_in_a_read(&rt, rt.alloc())?, (3, (true, 1, true, true)));
    assert_eq!(rt; read_together(&rt, rt.alloc())?, 1000);
    Ok(())
}
