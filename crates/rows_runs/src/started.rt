//! What was started: a launch, a handle or a reader handle, and the calls on it.
ghost use Rattle.std.specs.Prelude.{◌≡◌};

use crate::machine::{Machine, PoolOf, TURNS};
use crate::texts::{push_all, push_error};
use duct::unix::HandleExt;
use duct::{Clock, Error, Handle, Output, ReaderHandle, Running, Seen, System};
use rows_table::{Bytes, TableError, Tree, duration, first_word};
use std::alloc::{AllocError, Global};
use std::io::Read;
use std::sync::{Arc, Wait};

/// What a poll or a wait returns.
type Polled = Result<Option<Arc<Output>>, Error>;

/// What was started.
pub enum Started<'r, R, S: System> {
    Running(Running<S>),
    Handle(LineHandle<S>),
    Reader(ReaderHandle<S, &'r R>),
}

/// A handle, and the token of its line.
pub struct LineHandle<S: System> {
    handle: Handle<S>,
    seen: Seen<S>,
    ghost same: { seen.cell ≡ handle.cell },
}

/// Starts an expression by the call of this key: with a handle, with a reader handle, or by a
/// launch. The reader of a launch is dropped.
pub fn start<'r, R: Wait, S: System>(
    tree: &Tree<S::End>,
    rt: &'r R,
    key: &str,
    system: &mut S,
    pool: &mut PoolOf<S>,
) -> Result<Started<'r, R, S>, Error> {
    match key {
        "handle" => {
            let handle = tree.start(system, pool)?;
            let seen = handle.seen();
            Ok(Started::Handle(LineHandle { handle, seen }))
        }
        "reader" => Ok(Started::Reader(tree.reader(rt, system, pool)?)),
        "launch_reader" => {
            let (running, _reader) = tree.launch_reader(system, pool)?;
            Ok(Started::Running(running))
        }
        _ => Ok(Started::Running(tree.launch(system, pool)?)),
    }
}

impl<R: Wait, S: System> Started<'_, R, S> {
    /// Returns the ids of its children.
    pub fn pids(&self) -> &[u32] {
        match self {
            Started::Running(running) => running.pids(),
            Started::Handle(line) => line.handle.pids(),
            Started::Reader(handle) => handle.pids(),
        }
    }

    /// Gives its children to a pool.
    pub fn give_up(self, pool: &mut PoolOf<S>) {
        match self {
            Started::Running(running) => running.give_up(pool),
            Started::Handle(line) => line.into_handle().give_up(pool),
            Started::Reader(handle) => handle.give_up(pool),
        }
    }

    /// Kills what runs.
    pub fn kill(&mut self, rt: &R) -> Result<(), Error> {
        match self {
            Started::Running(running) => running.kill(),
            Started::Handle(line) => line.handle.kill(rt),
            Started::Reader(handle) => handle.kill(),
        }
    }

    /// Sends a signal. A reader handle has no such call.
    pub fn signal(&mut self, rt: &R, signal: i32) -> Result<Result<(), Error>, TableError> {
        match self {
            Started::Running(running) => Ok(running.signal(signal)),
            Started::Handle(line) => Ok(line.handle.send_signal(rt, signal)),
            Started::Reader(_) => Err(TableError::Text("no signal to a reader handle")),
        }
    }

    /// Makes a read, and adds its result.
    pub fn push_read(
        &mut self,
        alloc: Global,
        call: &str,
        text: &mut String,
    ) -> Result<(), TableError> {
        let Started::Reader(handle) = self else {
            return Err(TableError::Text("no reader handle"));
        };
        let (name, length) = first_word(call);
        if name == "all" {
            return Ok(push_all(text, alloc, handle)?);
        }
        let mut buffer = vec![in alloc; 0; length.parse()?]?;
        Ok(push_read(text, handle, name, buffer.as_mut_slice())?)
    }
}

/// Makes a poll or a wait.
pub fn polled<R: Wait, M: Machine>(
    started: &mut Started<'_, R, M::System>,
    rt: &R,
    machine: &mut M,
    call: &str,
) -> Result<Polled, TableError> {
    match started {
        Started::Running(running) if call == "finish" => Ok(finished(running, machine)),
        Started::Running(running) => Ok(running.poll()),
        Started::Handle(line) => line.waited(rt, machine.stage().2, call),
        Started::Reader(handle) => Ok(handle.try_wait()),
    }
}

/// Polls what runs until there is a result, or until it was polled too often. Returns the last
/// result.
fn finished<M: Machine>(running: &mut Running<M::System>, machine: &M) -> Polled {
    let mut answer = running.poll();
    for _ in 0..TURNS {
        if !matches!(answer, Ok(None)) {
            return answer;
        }
        machine.pause();
        answer = running.poll();
    }
    answer
}

impl<S: System> LineHandle<S> {
    /// Returns the handle.
    pub fn into_handle(self) -> Handle<S> {
        let LineHandle { handle, seen } = self;
        drop(seen);
        handle
    }

    /// Returns the result of a wait: with the token of the line, a new one, or none.
    fn waited<C: Clock>(
        &mut self,
        rt: &impl Wait,
        clock: &C,
        call: &str,
    ) -> Result<Polled, TableError> {
        let handle = &self.handle;
        if let Some(call) = call.strip_suffix(" as") {
            return waited_as(rt, handle, clock, &mut self.seen, call);
        }
        if let Some(call) = call.strip_suffix(" new") {
            return waited_as(rt, handle, clock, &mut handle.seen(), call);
        }
        match first_word(call) {
            ("try", _) => Ok(handle.try_wait(rt)),
            ("wait", _) => Ok(handle.wait(rt).map(Some)),
            ("timeout", length) => Ok(handle.wait_timeout(rt, clock, duration(length)?)),
            (_, moment) => Ok(handle.wait_deadline(rt, clock, duration(moment)?)),
        }
    }
}

fn waited_as<S: System, C: Clock>(
    rt: &impl Wait,
    handle: &Handle<S>,
    clock: &C,
    seen: &mut Seen<S>,
    call: &str,
) -> Result<Polled, TableError>
    requires { seen.old.cell ≡ handle.now.cell }
    ensures { seen.new.cell ≡ handle.now.cell }
{
    match first_word(call) {
        ("try", _) => Ok(handle.try_wait_as(rt, seen)),
        ("wait", _) => Ok(handle.wait_as(rt, seen).map(Some)),
        ("timeout", length) => Ok(handle.wait_timeout_as(rt, clock, duration(length)?, seen)),
        (_, moment) => Ok(handle.wait_deadline_as(rt, clock, duration(moment)?, seen)),
    }
}

/// Reads into a buffer: with a new token, or by a read of std. Adds the result. Of an error of std,
/// adds the kind.
fn push_read<S: System, R: Wait>(
    text: &mut String,
    handle: &mut ReaderHandle<S, R>,
    name: &str,
    buffer: &mut [u8],
) -> Result<(), AllocError> {
    if name == "read" {
        return match handle.read_as(buffer, &mut handle.seen()) {
            Ok(count) => push_prefix(text, buffer, count),
            Err(error) => push_error(text, &error),
        };
    }
    match handle.read(buffer) {
        Ok(count) => push_prefix(text, buffer, count),
        Err(error) => write!(text, "{:?}. ", error.kind()),
    }
}

/// Adds a count, and that many bytes of the buffer, if there are any.
fn push_prefix(text: &mut String, buffer: &[u8], count: usize) -> Result<(), AllocError> {
    match buffer.split_at(count.min(buffer.len())) {
        ([], _) => write!(text, "{count}. "),
        (prefix, _) => write!(text, "{count} {}. ", Bytes(prefix)),
    }
}
