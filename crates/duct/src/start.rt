//! The start of an expression: the requests that it makes to the system, and what it keeps of their
//! results.
ghost use Rattle.std.specs.Prelude.{◌≡◌, IfOk, IfErr, IsOkUnless};
ghost use Rattle.duct_run.specs.RunContract.{drains_if_open};
ghost use Rattle.duct.specs.Launched.{Handles, LaunchRefused, Launched, Runs, RunsRead, RunsWith, draining, reading};
ghost use Rattle.duct.specs.Ready.{IsReadyStart};
ghost use Rattle.duct.specs.TreeView.{tree_view};

use crate::expression::Expression;
use duct_base::error::Error;
use duct_base::pool::{Place, Pool};
use duct_base::spec::Hook;
use duct_base::status::{Core, Drains};
use duct_base::system::System;
use duct_handle::buffers::{handle_buffers, handle_of};
use duct_handle::handle::Handle;
use duct_run::resources::{Resources, no_resources};
use duct_run::start::{StartKind, start};
use duct_running::running::{Running, RunningBuffers, running_of};
use duct_system::views::Viewed;
use duct_tree::compile::{Compiled, compile};

// What a start allocates before its first request: what its tree was compiled to, a core for its
// tree, room for what runs, and nothing held, with room for what the list gets.
#[derive(Drop)]
pub(crate) struct Ready<'a, E, H, C, F, D> {
    pub compiled: Compiled<'a, E, H>,
    core: Core,
    room: RunningBuffers<D>,
    held: Resources<E, C, F, D>,
}

// Returns which of these capture pipes get a worker at a start of this kind.
fn drained(kind: StartKind, captures: Drains) -> Drains
    ensures { result ≡ record captures { out = drains_if_open kind captures.out } }
{
    match kind {
        StartKind::Draining => captures,
        StartKind::Reading => Drains {
            out: false,
            ..captures
        },
    }
}

impl<E: Drop, H: Hook> Expression<E, H> {
    /// Starts the expression and returns what runs, for one thread and without a lock. It doesn't
    /// wait for the commands. Over a `Host` it blocks only where it opens a FIFO, until the other
    /// side of that is opened.
    ///
    /// It requests the environment, then what the nodes need, each before what it wraps and the
    /// left side of a pipe before the right, and at the end the workers of the capture pipes.
    /// Before each command the pool is swept. The list of these requests, and the room for what
    /// runs, are allocated before the first request. A start that succeeds makes the requests of
    /// the plan, and one that fails those of a prefix of it. A stream that goes to an end of the
    /// caller gets a duplicate of that end's number. That the duplicate's origin is exactly that
    /// end is promised where the number of each end of the caller in the expression is lower than
    /// the next one that the system gives.
    ///
    /// Fails with `Error::System` where the system refuses a request, with `Error::Hook` and
    /// `Error::HookEnd` where a hook stops a command, and with `Error::Memory`. After that its only
    /// requests are closes: each end that the start got is closed, the children that it had started
    /// are given to the pool as `Running::give_up` gives them, and a worker that it had started
    /// ends by itself.
    ///
    /// What runs has to be spent: by `Running::give_up`, which gives the children to a pool, or by
    /// `Running::into_parts`. A child that `into_parts` returns is not reaped if it is dropped
    /// before a poll saw it end: over a `Host` it stays a zombie until the program ends.
    ///
    /// Example: `hello.launch(&mut host, &mut pool)?`
    pub fn launch<S: System<End = E>>(
        &self,
        sys: &mut S,
        pool: &mut Pool<S::Child>,
    ) -> Result<Running<S>, Error>
        ensures launched { IfOk result (λ running. Launched ⟦<S as Viewed>⟧.views H.allows draining
            self.now sys.old sys.new pool.old pool.new (Runs ⟦<S as Viewed>⟧.views running)) }
        ensures refused { IfErr result (LaunchRefused ⟦<S as Viewed>⟧.views H.allows H.refuses
            draining self.now sys.old sys.new pool.old pool.new) }
    {
        let ready = self.ready(StartKind::Draining)?;
        let (running, _) = self.launch_ready(sys, pool, StartKind::Draining, ready)?;
        Ok(running)
    }

    /// Starts the expression as `launch` does, inside one more `stdout_capture`, and returns what
    /// runs and a reader of stdout's capture pipe, which has no worker. The reader is the start's
    /// last request. A command that finds the pipe full blocks until the caller reads.
    ///
    /// Fails as `launch` does, and leaves the same.
    pub fn launch_reader<S: System<End = E>>(
        &self,
        sys: &mut S,
        pool: &mut Pool<S::Child>,
    ) -> Result<(Running<S>, S::Reader), Error>
        ensures launched { IfOk result (λ made. Launched ⟦<S as Viewed>⟧.views H.allows reading
            self.now sys.old sys.new pool.old pool.new (RunsRead ⟦<S as Viewed>⟧.views S.may_read
            made.0 made.1)) }
        ensures refused { IfErr result (LaunchRefused ⟦<S as Viewed>⟧.views H.allows H.refuses
            reading self.now sys.old sys.new pool.old pool.new) }
    {
        let ready = self.ready(StartKind::Reading)?;
        let (running, reader) = self.launch_ready(sys, pool, StartKind::Reading, ready)?;
        let Some(reader) = reader else { unreachable!() };
        Ok((running, reader))
    }

    /// Starts the expression as `launch` does, and returns a handle of what runs, which threads can
    /// share. What the handle needs is allocated before the first request. The handle has to be
    /// spent, by `Handle::into_output` or `Handle::give_up`.
    ///
    /// Fails as `launch` does, and leaves the same.
    ///
    /// Example: `hello.start(&mut host, &mut pool)?`
    pub fn start<S: System<End = E>>(
        &self,
        sys: &mut S,
        pool: &mut Pool<S::Child>,
    ) -> Result<Handle<S>, Error>
        ensures launched { IfOk result (λ handle. Launched ⟦<S as Viewed>⟧.views H.allows draining
            self.now sys.old sys.new pool.old pool.new (Handles ⟦<S as Viewed>⟧.views handle)) }
        ensures refused { IfErr result (LaunchRefused ⟦<S as Viewed>⟧.views H.allows H.refuses
            draining self.now sys.old sys.new pool.old pool.new) }
    {
        let alloc = self.allocator();
        let ready = self.ready(StartKind::Draining)?;
        let list = &ready.compiled.list;
        let room = handle_buffers(alloc, &ready.compiled.shape, list.commands, list.inputs)?;
        let (running, _) = self.launch_ready(sys, pool, StartKind::Draining, ready)?;
        Ok(handle_of(alloc, running, room))
    }
}

// The parts of a launch: what it allocates before the first request, and its requests.
impl<E: Drop, H: Hook> Expression<E, H> {
    // Allocates what a start of this kind needs.
    pub(crate) fn ready<C: Drop, F: Drop, D: Drop>(
        &self,
        kind: StartKind,
    ) -> Result<Ready<'_, E, H, C, F, D>, Error>
        ensures ready { IfOk result (IsReadyStart kind (tree_view self.now)) }
        ensures memory { IsOkUnless result Error.Memory }
    {
        let alloc = self.allocator();
        let compiled = compile(alloc, self.root(), kind)?;
        let list = &compiled.list;
        let drains = drained(kind, list.captures);
        let core = Core::sharing(alloc, compiled.shape.clone()?, drains)?;
        let room = RunningBuffers {
            ids: Vec::with_capacity(alloc, list.commands)?,
            drains: Vec::with_capacity(alloc, 2)?,
        };
        let held = no_resources(
            alloc,
            list.deepest.saturating_add(3),
            list.commands.saturating_add(1),
            list.inputs.saturating_add(1),
        )?;
        Ok(Ready {
            compiled,
            core,
            room,
            held,
        })
    }

    // Starts what `ready` returned for a start of this kind. Returns what runs, and for a start
    // that reads the reader of stdout.
    pub(crate) fn launch_ready<S: System<End = E>>(
        &self,
        sys: &mut S,
        pool: &mut Pool<S::Child>,
        kind: StartKind,
        ready: Ready<'_, E, H, Place<S::Child>, S::Feed, S::Drain>,
    ) -> Result<(Running<S>, Option<S::Reader>), Error>
        requires { IsReadyStart kind (tree_view self.now) ready }
        ensures launched { IfOk result (λ made. Launched ⟦<S as Viewed>⟧.views H.allows kind
            self.now sys.old sys.new pool.old pool.new (RunsWith ⟦<S as Viewed>⟧.views S.may_read
            made.0 made.1)) }
        ensures refused { IfErr result (LaunchRefused ⟦<S as Viewed>⟧.views H.allows H.refuses
            kind self.now sys.old sys.new pool.old pool.new) }
    {
        let Ready {
            compiled,
            core,
            room,
            held,
        } = ready;
        let list = &compiled.list;
        let (kept, reader) = start(sys, pool, &list.scopes, &list.actions, kind, held)?;
        Ok((running_of(core, kept, room), reader))
    }
}
