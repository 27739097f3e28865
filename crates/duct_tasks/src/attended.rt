//! Runs whose lines are handed on while they come.
ghost use Rattle.std.specs.Prelude.{◌≡◌, ◌+◌, ◌⊎◌, Bool, false, map, min, IfErr, IfNone, IfOk, IfSome, IsOk, Ok, OnOk, Some, true};
ghost use Rattle.std.specs.Duration.{as_nanos, max_nanos};
ghost use Rattle.duct_system.specs.declared.error.Error.TheVariants as error;
ghost use Rattle.duct_status.specs.ReplyView.{answered};
ghost use Rattle.duct_run.specs.Requested.{PoolGets};
ghost use Rattle.duct_running.specs.Allowed.{StoresAllowed};
ghost use Rattle.duct_running.specs.Polled.{PolledOnce, ReturnsOutcome, StaysSame};
ghost use Rattle.duct_running.specs.Stored.{stored_in};
ghost use Rattle.duct_handle.specs.Finished.{StoresError, StoresReply};
ghost use Rattle.duct_handle.specs.Waited.{at_end};
ghost use Rattle.duct_tasks.specs.LinesRun.{IsLinesRun, OpenFails, Pipes, in_time};
ghost use Rattle.duct_tasks.specs.Statuses.{command_view, with_reports, words_of};
ghost use Rattle.duct_tasks.specs.Streams.{FailedBy, GivesLines, Handed, Hands, ReadsBoth};
ghost use Rattle.duct_tasks.specs.Turns.{HasOrders};
ghost use Rattle.duct_tasks.specs.Until.{HasReached, HasShownLess, IsStoppedAt, StopsAndGives, StoresEnd};
ghost use Rattle.duct_tasks.specs.declared.lines.LinesError.TheVariants as lines;

use crate::capture::Captured;
use crate::grace::Asked;
use crate::late::{Deadline, LAST_READ, Late, LateLines, Until};
use crate::lines::{BothLines, LinesError};
use crate::statuses::{CommandStatus, add_commands, note};
use crate::watch::{is_over, watch};
use duct::Expression;
use duct_base::error::Error;
use duct_base::pool::Pool;
use duct_base::spec::Hook;
use duct_base::system::{Clock, Output, Side, System};
use duct_handle::output::output_or_give_up;
use duct_running::running::Running;
use duct_system::views::Viewed;
use std::alloc::Global;
use std::io;
use std::io::Read;
use std::sync::{Arc, Wait};
use std::thread::Threads;
use std::time::Duration;

/// A clock that stands still, by which no moment comes but the first one.
struct Still;

impl Clock for Still {
    ghost may_show = { λ still moment. as_nanos moment ≡ 0 };

    fn now(&self) -> Duration {
        Duration::ZERO
    }
}

// What runs, its streams, and its commands.
struct Attended<S: System> {
    running: Running<S>,
    streams: BothLines<S::Reader>,
    commands: Vec<CommandStatus>,
}

/// Opens a pipe for what an expression writes to stderr. Returns the expression that writes into
/// it, and a reader of the pipe. Its failure is no error unless it is checked.
pub(crate) fn piped<H: Hook, S: System>(
    sys: &mut S,
    expression: &Expression<S::End, H>,
    is_checked: bool,
) -> Result<(Expression<S::End, H>, S::Reader), Error>
    ensures ok { IfOk result (λ made. Pipes ⟦<S as Viewed>⟧.views S.may_read is_checked
        expression.now sys.old made.0 made.1 sys.new) }
    ensures err { IfErr result
        (λ e. OpenFails ⟦<S as Viewed>⟧.views S.may_read sys.old e sys.new) }
{
    let (read, write) = sys.pipe()?;
    let err = sys.reader(read);
    let inside = expression.stderr_file(write)?;
    if is_checked {
        Ok((inside, err))
    } else {
        Ok((inside.unchecked()?, err))
    }
}

// Returns the end of the grace, which is over at once where the lines can't be handed on.
fn end_of_grace<C, R: Read + Send + Drop + 'static>(
    deadline: &Deadline<'_, C>,
    streams: &BothLines<R>,
) -> Duration
    ensures { IsOk streams.now.over → as_nanos result ≡ min
        (as_nanos deadline.now.moment + as_nanos deadline.now.grace) max_nanos }
{
    if streams.have_failed() {
        Duration::ZERO
    } else {
        deadline.moment.saturating_add(deadline.grace)
    }
}

impl<S: System> Attended<S>
where
    S::Reader: Send + 'static,
{
    // Reads the streams to EOF, but not beyond the moment, and polls until the expression has
    // ended. Returns how, or `None` where it is late, or a stream is, or where the lines can't be
    // handed on. The commands get their statuses as they are then.
    fn wait<C: Clock, F: FnMut(Side, &[u8]) -> io::Result<()>>(
        &mut self,
        rt: &(impl Threads + Wait),
        alloc: Global,
        deadline: &Deadline<'_, C>,
        each: &mut F,
    ) -> Option<Result<Arc<Output>, Error>>
        requires callable { F.IsAlwaysCallable each.old }
        requires both { ReadsBoth S.Reader.remaining self.old.streams }
        ensures callable { F.IsAlwaysCallable each.new }
        ensures both { ReadsBoth S.Reader.remaining self.new.streams }
        ensures out { self.new.streams.out.first.value ≡ self.old.streams.out.first.value }
        ensures err { self.new.streams.err.first.value ≡ self.old.streams.err.first.value }
        ensures hands { (f : F) → Handed F.FnMut self.old.streams f each.old
            → Handed F.FnMut self.new.streams f each.new }
        ensures stays { StaysSame ⟦<S as Viewed>⟧.views self.old.running self.new.running }
        ensures stores { IfSome result
            (λ end. StoresEnd ⟦<S as Viewed>⟧.views (Some end) self.new.running) }
        ensures over { IfSome result (λ end. self.new.streams.over ≡ Ok true) }
        ensures in_time { IfSome result
            (λ end. HasShownLess (C.may_show deadline.now.clock.now) (as_nanos deadline.now.moment)
            ⊎ PolledOnce ⟦<S as Viewed>⟧.views self.old.running self.new.running) }
        ensures late { IfNone result (IsOk self.new.streams.over
            → HasReached (C.may_show deadline.now.clock.now) (as_nanos deadline.now.moment)) }
        ensures noted { IsOk self.new.streams.over → map command_view self.new.commands.items
            ≡ with_reports (map words_of self.old.commands.items) (stored_in S.Child.child_view
            S.Feed.job_view S.Drain.job_view self.new.running).commands }
    {
        let (clock, moment) = (deadline.clock, deadline.moment);
        self.streams.read(rt, alloc, clock, moment, each);
        if self.streams.have_failed() {
            return None;
        }
        let is_late = ||
            ensures over { result ≡ true
                → HasReached (C.may_show clock.entry.now) (as_nanos moment) }
            ensures early { result ≡ false
                → HasShownLess (C.may_show clock.entry.now) (as_nanos moment) }
        { is_over(clock, moment) };
        let ended = watch(rt, &is_late, false, &mut self.running);
        note(&mut self.commands, self.running.reports());
        if self.streams.are_over() { ended } else { None }
    }

    // Returns what came of an expression that has ended like this, and whose streams were read.
    fn finish(
        self,
        alloc: Global,
        pool: &mut Pool<S::Child>,
        ended: Result<Arc<Output>, Error>,
    ) -> Result<Captured, LinesError>
        requires over { self.streams.over ≡ Ok true }
        requires ended { ReturnsOutcome ⟦<S as Viewed>⟧.views self.running (at_end ended) }
        requires allowed { ∥ StoresAllowed ⟦<S as Viewed>⟧.views self.running ∥₁ }
        ensures commands { IfOk result (λ captured. captured.commands ≡ self.commands) }
        ensures stdout { IfOk result
            (λ captured. captured.output.stdout.items ≡ self.streams.out.bytes.items) }
        ensures stderr { IfOk result
            (λ captured. captured.output.stderr.items ≡ self.streams.err.bytes.items) }
        ensures status { IfOk result (λ captured. (own : Output)
            × (own.status ≡ captured.output.status)
            × StoresReply ⟦<S as Viewed>⟧.views self.running
            (answered own.status own.stdout.items own.stderr.items)) }
        ensures kept { OnOk result (pool.new ≡ pool.old) }
        ensures failed { IfErr result (λ failed. (e : Error) × (failed ≡ lines.Run e)
            × StoresError ⟦<S as Viewed>⟧.views self.running e
            × PoolGets ⟦<S as Viewed>⟧.views self.running.children pool.old pool.new) }
    {
        let Attended {
            running,
            streams,
            commands,
        } = self;
        let own = output_or_give_up(alloc, running, ended, pool)?;
        let (stdout, stderr) = streams.into_bytes()?;
        let output = Output {
            status: own.status,
            stdout,
            stderr,
        };
        Ok(Captured { output, commands })
    }

    // Stops what runs, and reads its streams meanwhile.
    fn stop<H: Hook, C: Clock, F: FnMut(Side, &[u8]) -> io::Result<()>>(
        self,
        rt: &(impl Threads + Wait),
        sys: &mut S,
        pool: &mut Pool<S::Child>,
        like: &Expression<S::End, H>,
        deadline: &Deadline<'_, C>,
        each: &mut F,
    ) -> Result<LateLines, LinesError>
        requires callable { F.IsAlwaysCallable each.old }
        requires both { ReadsBoth S.Reader.remaining self.streams }
        requires unordered { HasOrders ⟦<S as Viewed>⟧.views false self.running }
        requires late { IsOk self.streams.over
            → HasReached (C.may_show deadline.now.clock.now) (as_nanos deadline.now.moment) }
        ensures late { IfOk result (λ lines. IsStoppedAt deadline.now.grace
            (C.may_show deadline.now.clock.now) (as_nanos deadline.now.moment) lines.late) }
        ensures stopped { (late : Late) × IfOk result (λ lines. lines.late ≡ late)
            × StopsAndGives ⟦<S as Viewed>⟧.views H.allows H.refuses late (sys.old, pool.old)
            self.running (sys.new, pool.new) }
        ensures ok { OnOk result (IsOk self.streams.over) }
        ensures commands { IfOk result (λ lines. lines.commands ≡ self.commands) }
        ensures gives { IfOk result (λ lines. (f : F) → Handed F.FnMut self.streams f each.old
            → (over : Bool) × GivesLines S.Reader.remaining (Hands F.FnMut (Ok tt)) over f each.new
            self.streams.out.first.value self.streams.err.first.value lines.stdout.items
            lines.stderr.items) }
        ensures failed { IfErr result (λ error. (f : F) → Handed F.FnMut self.streams f each.old
            → FailedBy (Hands F.FnMut) error each.new) }
    {
        let alloc = like.allocator();
        let Attended {
            running,
            mut streams,
            commands,
        } = self;
        let last = end_of_grace(deadline, &streams);
        let asked = Asked::new(rt, sys, pool, like, running);
        streams.read(rt, alloc, deadline.clock, last, each);
        let (ended, mut lapsed) = asked.wait(rt, deadline.clock, last);
        let killed = lapsed.kill(rt, sys, pool, like);
        lapsed.into_running().give_up(pool);
        let last = last.saturating_add(Duration::from_secs(LAST_READ));
        streams.read(rt, alloc, deadline.clock, last, each);
        let (stdout, stderr) = streams.into_bytes()?;
        Ok(LateLines {
            stdout,
            stderr,
            commands,
            late: Late { ended, killed },
        })
    }
}

/// Runs the expression as `run_until` does, and hands on each line that it writes to stdout or to
/// stderr once it is read, with its stream and without its `\n` or `\r\n`. The lines of one stream
/// come in their order; between those of both the order is that in which they are found. A last
/// line without a newline comes at EOF. Returns all bytes of both streams with the status, also
/// where that is no success, and each command with its own status. A stream that is redirected
/// inside has nothing in it.
///
/// Each stream has a pipe, which is read on threads, one block ahead: a command that finds its pipe
/// full waits for the closure. The call ends at EOF of both, once no process may write to them.
///
/// At the moment the expression is stopped as by `run_until`, and its streams are read on until
/// EOF, but no more than a second longer than the grace. `Until::Late` has the bytes that came
/// until then, whose whole lines were all handed on; and the commands, with the statuses that they
/// had at the moment: those without one hung.
///
/// Fails at once with an error of the closure, and with that of a read. Then each command that is
/// not known to have ended is sent signal 15 and killed, groups of commands that lead one as by
/// `run_until`. Fails as `run` does where the expression can't be started or waited for, but never
/// with `Error::Checked`; with `Error::System` also where the system refuses the pipe of stderr,
/// and with its kind `Other` where no thread can be started: what was started runs on then. The
/// children are given to the pool. The list of the commands is allocated before anything else.
///
/// Example: `run_lines_until(&rt, &mut host, &mut pool, &make, &deadline, &mut each)?`
pub fn run_lines_until<H: Hook, S: System, C: Clock, F: FnMut(Side, &[u8]) -> io::Result<()>>(
    rt: &(impl Threads + Wait),
    sys: &mut S,
    pool: &mut Pool<S::Child>,
    expression: &Expression<S::End, H>,
    deadline: &Deadline<'_, C>,
    each: &mut F,
) -> Result<Until<Captured, LateLines>, LinesError>
where
    S::Reader: Send + 'static,
    requires { F.IsAlwaysCallable each.old }
    ensures run { IsLinesRun ⟦<S as Viewed>⟧.views S.may_read S.Reader.remaining
        (Hands F.FnMut) H.allows H.refuses expression.now deadline.now.grace
        (C.may_show deadline.now.clock.now) (as_nanos deadline.now.moment) each.old each.new
        (sys.old, pool.old) result (sys.new, pool.new) }
{
    let alloc = expression.allocator();
    let mut commands = Vec::new(alloc);
    add_commands(&mut commands, expression.root())?;
    let (inside, err) = piped(sys, expression, false)?;
    let (running, out) = inside.launch_reader(sys, pool)?;
    drop(inside); // so that stderr comes to EOF
    let streams = match BothLines::new(rt, alloc, out, err) {
        Ok(streams) => streams,
        Err(fault) => {
            running.give_up(pool);
            return Err(LinesError::Run(Error::System(fault)));
        }
    };
    let mut attended = Attended {
        running,
        streams,
        commands,
    };
    match attended.wait(rt, alloc, deadline, each) {
        Some(ended) => Ok(Until::Done(attended.finish(alloc, pool, ended)?)),
        None => Ok(Until::Late(attended.stop(rt, sys, pool, expression, deadline, each)?)),
    }
}

/// Does the same without a moment: it blocks until the expression has ended and both streams came
/// to EOF.
///
/// Fails as `run_lines_until` does, and leaves the same.
///
/// Example: `run_lines(&rt, &mut host, &mut pool, &make, &mut |stream, line| log.add(line))?`
pub fn run_lines<H: Hook, S: System, F: FnMut(Side, &[u8]) -> io::Result<()>>(
    rt: &(impl Threads + Wait),
    sys: &mut S,
    pool: &mut Pool<S::Child>,
    expression: &Expression<S::End, H>,
    each: &mut F,
) -> Result<Captured, LinesError>
where
    S::Reader: Send + 'static,
    requires { F.IsAlwaysCallable each.old }
    ensures run { (grace : Duration) × IsLinesRun ⟦<S as Viewed>⟧.views S.may_read
        S.Reader.remaining (Hands F.FnMut) H.allows H.refuses expression.now grace
        (λ moment. as_nanos moment ≡ 0) 1 each.old each.new (sys.old, pool.old) (in_time result)
        (sys.new, pool.new) }
{
    let (moment, grace) = (Duration::from_nanos(1), Duration::from_nanos(0));
    let never = Deadline {
        clock: &Still,
        moment,
        grace,
    };
    match run_lines_until(rt, sys, pool, expression, &never, each)? {
        Until::Done(captured) => Ok(captured),
        Until::Late(_) => unreachable!(),
    }
}
