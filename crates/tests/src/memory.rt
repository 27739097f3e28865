//! A test of allocation failures: whichever single allocation of the process fails, the results are
//! the same as with ample memory, or the fault `OutOfMemory`. After that fault a file is as it was,
//! a child still runs, no descriptor stays open, and the pool has what a shell launched. So if the
//! Nth allocation of the process fails, the variable `SPEND` chooses which one of the test's calls
//! that is.
use duct::Error;
use duct_base::spec::{CommandSpec, Port, spec_of};
use duct_base::system::{Child, Fault, Stdio, System};
use duct_host::Host;
use duct_shell::{Cause, Failure, Shell};
use rows_table::{Real, children_started, is_memory};
use std::alloc::{AllocError, Global};
use std::collections::BTreeMap;
use std::os::fd::AsRawFd;
use std::rt::Files;
use std::sync::{Arc, Wait};
use std::{env, fs, io};

/// Makes as many allocations as the variable `SPEND` says, or none without it. Each is freed at
/// once. Stops at one that fails.
fn spend<R: Real>(rt: &R) {
    let Ok(text) = env::var(rt, "SPEND") else {
        return;
    };
    let count: u64 = text.parse().unwrap_or(0);
    for _ in 0..count {
        if Box::new(rt.alloc(), 0_u8).is_err() {
            return;
        }
    }
}

/// Writes a text to this file, and creates it. Returns whether it is then empty. Fails with the
/// fault of the create if the file has its text, and returns false if it hasn't.
fn created<R: Real>(rt: &R, path: &str) -> Result<bool, Error> {
    fs::write(rt, path, "text").map_err(Fault::from)?;
    let refused = Host::new(rt.clone()?, rt.alloc()).create(path).err();
    let length = match fs::metadata(rt, path) {
        Ok(found) => Some(found.len()),
        Err(_) => None,
    };
    match (refused, length) {
        (None, length) => Ok(length == Some(0)),
        (Some(fault), Some(4)) => Err(Error::System(fault)),
        _ => Ok(false),
    }
}

/// The spec of a command that has this word, and inherits its streams.
fn spec(alloc: Global, word: &str) -> Result<CommandSpec, AllocError> {
    let mut words = Vec::new(alloc);
    words.push(String::from_str(alloc, word)?)?;
    let inherit = Port::Inherit;
    let variables = BTreeMap::new(alloc);
    let words = Arc::new(alloc, words)?;
    Ok(spec_of(words, None, variables, inherit, inherit, inherit))
}

/// Starts a child that runs until it is killed.
fn lasting<R: Real>(rt: &R) -> Result<duct_host::Child<R>, Error> {
    let spec = spec(rt.alloc(), "/usr/bin/yes")?;
    let null = [Stdio::Null, Stdio::Null, Stdio::Null];
    Ok(Host::new(rt.clone()?, rt.alloc()).spawn(spec, null)?)
}

/// Kills a child that runs. Fails with the fault of the kill if the child still runs, and returns
/// false if it doesn't.
fn killed<R: Real>(rt: &R) -> Result<bool, Error> {
    let mut child = lasting(rt)?;
    match child.kill() {
        Ok(()) => Ok(true),
        Err(fault) if child.poll() == Ok(None) && child.kill() == Ok(()) => {
            Err(Error::System(fault))
        }
        Err(_) => Ok(false),
    }
}

/// The file descriptors that a new pipe gets.
fn free<R: Files>(rt: &R) -> Result<(i32, i32), Error> {
    let (read, write) = io::pipe(rt).map_err(Fault::from)?;
    Ok((read.as_raw_fd(), write.as_raw_fd()))
}

/// Spawns a child that takes both ends of a pipe. Returns whether they are closed then. Fails with
/// the fault of the spawn if they are, and returns false if they aren't.
fn spawned<R: Real>(rt: &R) -> Result<bool, Error> {
    let spec = spec(rt.alloc(), "/bin/true")?;
    let mut host = Host::new(rt.clone()?, rt.alloc());
    let before = free(rt)?;
    let (read, write) = host.pipe()?;
    let answer = host.spawn(spec, [Stdio::End(read), Stdio::End(write), Stdio::Null]);
    match (answer, free(rt)? == before) {
        (Err(fault), true) => Err(Error::System(fault)),
        (_, are_closed) => Ok(are_closed),
    }
}

/// Launches a job of a shell and waits for it. Returns whether it succeeds. Fails with the error of
/// either if the pool then has each child that was started, and returns false if it hasn't.
fn launched<R: Real + Wait>(rt: &R) -> Result<bool, Error> {
    let mut sh = Shell::over(rt.clone()?, rt.alloc(), Host::new(rt.clone()?, rt.alloc()));
    let command = sh.cmd("true", &[])?;
    let ran = match sh.launch(&command) {
        Ok(job) => sh.wait(job),
        Err(failure) => Err(failure),
    };
    let (host, pool) = sh.into_parts();
    let is_given = pool.given() == children_started(host.journal());
    match ran {
        Ok(output) => Ok(output.status.success() && pool.given() == 0),
        Err(failure) => {
            let Failure { cause, request: _ } = failure;
            match cause {
                Cause::Run(error) if is_given => Err(error),
                _ => Ok(false),
            }
        }
    }
}

/// Whether all is as it should be, or a call failed with an allocation failure, which it may do.
fn is_right(made: Result<bool, Error>, may_fail: bool) -> bool {
    match made {
        Ok(is_right) => is_right,
        Err(error) => may_fail && is_memory(&error),
    }
}

/// Makes a create, a kill, a spawn and a launch, after as many allocations as `SPEND` says. Returns
/// whether each is right. Stops at one that isn't.
fn are_right<R: Real + Wait>(rt: &R, may_fail: bool) -> bool {
    spend(rt);
    is_right(created(rt, "created"), may_fail)
        && is_right(killed(rt), may_fail)
        && is_right(spawned(rt), may_fail)
        && is_right(launched(rt), may_fail)
}

#[test]
fn memory_of_requests(rt: HostRuntime) {
    assert!(rt; are_right(&rt, true));
}

/// Checks that none of them fails. So if the allocation that fails is one of theirs, this test
/// fails.
#[test]
fn all_memory_is_there(rt: HostRuntime) {
    assert!(rt; are_right(&rt, false));
}
