//! Starts that are waited for: the output of an expression, the text that it prints, or a reader of
//! it.
ghost use Rattle.std.specs.Prelude.{IfOk, IfErr};
ghost use Rattle.duct.specs.Launched.{Fails, Handles, LaunchRefused, Launched, ReadFails, Reads, Returns, RunFailed, draining, reading};

use crate::expression::Expression;
use duct_base::error::Error;
use duct_base::pool::Pool;
use duct_base::spec::Hook;
use duct_base::system::{Child, Job, Output, System};
use duct_handle::buffers::{handle_buffers, handle_of};
use duct_handle::finish::finish;
use duct_handle::read::read_text;
use duct_handle::reader::{ReaderHandle, reader_handle_of};
use duct_run::start::StartKind;
use duct_system::views::Viewed;
use std::io::Read;
use std::sync::Wait;

impl<E: Drop, H: Hook> Expression<E, H> {
    /// Starts the expression as `launch_reader` does, and returns a handle whose reads give what it
    /// writes to stdout. Reads block in the pipe, and a command that finds the pipe full blocks
    /// until somebody reads. The handle keeps the runtime, which it uses to take locks and to
    /// pause. What it needs is allocated before the first request. It has to be spent, by
    /// `ReaderHandle::give_up`.
    ///
    /// Fails as `launch` does, and leaves the same.
    ///
    /// Example: `hello.reader(&rt, &mut host, &mut pool)?`
    pub fn reader<S: System<End = E>, R: Drop>(
        &self,
        rt: R,
        sys: &mut S,
        pool: &mut Pool<S::Child>,
    ) -> Result<ReaderHandle<S, R>, Error>
        ensures launched { IfOk result (λ handle. Launched ⟦<S as Viewed>⟧.views H.allows reading
            self.now sys.old sys.new pool.old pool.new (Handles ⟦<S as Viewed>⟧.views handle)) }
        ensures refused { IfErr result (LaunchRefused ⟦<S as Viewed>⟧.views H.allows H.refuses
            reading self.now sys.old sys.new pool.old pool.new) }
    {
        let alloc = self.allocator();
        let ready = self.ready(StartKind::Reading)?;
        let list = &ready.compiled.list;
        let room = handle_buffers(alloc, &ready.compiled.shape, list.commands, list.inputs)?;
        let (running, reader) = self.launch_ready(sys, pool, StartKind::Reading, ready)?;
        let Some(reader) = reader else { unreachable!() };
        Ok(reader_handle_of(rt, handle_of(alloc, running, room), reader))
    }

    /// Starts the expression as `launch` does, blocks until it has ended as `Handle::wait` does,
    /// and returns its output: the status and what was captured.
    ///
    /// Fails as `launch` does. Once it was started it fails with `Error::Checked` where it failed
    /// and is not unchecked, with `Error::System` for a fault of a command or a worker, and with
    /// `Error::Memory`. Then its children are given to the pool, as `Running::give_up` gives them,
    /// and every end that the start got is closed, or is a worker's that ends by itself.
    ///
    /// Example: `hello.run(&rt, &mut host, &mut pool)?.status`
    pub fn run<S: System<End = E>>(
        &self,
        rt: &impl Wait,
        sys: &mut S,
        pool: &mut Pool<S::Child>,
    ) -> Result<Output, Error>
        ensures output { IfOk result (λ output. Launched ⟦<S as Viewed>⟧.views H.allows draining
            self.now sys.old sys.new pool.old pool.new (Returns ⟦<S as Viewed>⟧.views output)) }
        ensures failed { IfErr result (RunFailed ⟦<S as Viewed>⟧.views H.allows H.refuses draining
            self.now sys.old sys.new pool.old pool.new (Fails ⟦<S as Viewed>⟧.views)) }
    {
        let running = self.launch(sys, pool)?;
        finish(self.allocator(), rt, running, pool)
    }

    /// Starts the expression as `launch_reader` does, reads its stdout to EOF, waits as `run` does,
    /// and returns the text without the newlines and carriage returns at its end. It blocks in the
    /// pipe until each process that may write to it has closed it. The bytes that were read become
    /// the text: no second copy is made.
    ///
    /// Fails as `run` does, and leaves the same. Fails with `Error::System` for a fault of the
    /// pipe, of kind `OutOfMemory` where there is no room for more bytes; it then doesn't wait for
    /// the commands. Fails with `Error::NotUtf8` where the expression ended with an output and its
    /// bytes are not UTF-8.
    ///
    /// Example: `hello.read(&rt, &mut host, &mut pool)?`
    pub fn read<S: System<End = E>>(
        &self,
        rt: &impl Wait,
        sys: &mut S,
        pool: &mut Pool<S::Child>,
    ) -> Result<String, Error>
        ensures text { IfOk result (λ text. Launched ⟦<S as Viewed>⟧.views H.allows reading self.now
            sys.old sys.new pool.old pool.new (Reads ⟦<S as Viewed>⟧.views S.may_read
            S.Reader.remaining text)) }
        ensures failed { IfErr result (RunFailed ⟦<S as Viewed>⟧.views H.allows H.refuses reading
            self.now sys.old sys.new pool.old pool.new (ReadFails ⟦<S as Viewed>⟧.views S.may_read
            S.Reader.remaining)) }
    {
        let (running, reader) = self.launch_reader(sys, pool)?;
        read_text(self.allocator(), rt, running, reader, pool)
    }
}
