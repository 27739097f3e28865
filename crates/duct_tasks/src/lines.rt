//! The lines of two streams, handed on while both are read.
ghost use Rattle.std.specs.Prelude.{ℕ, ◌≡◌, ◌≤◌, ◌++◌, Bool, true, false, [], List, IfErr, IfOk, IfNone, IfSome, IsErr, IsOk, OnOk, Ok, Err, take, drop, length};
ghost use Rattle.std.specs.Duration.{as_nanos};
ghost use Rattle.std.specs.Io.BufRead.{take_through};
ghost use Rattle.duct_system.specs.declared.error.Error.TheVariants.{Memory};
ghost use Rattle.duct_tasks.specs.Streams.{FailedBy, Handed, Hands, HandsRest, HandsTo, HandsWhole, IsLines, IsPart, IsWhole, ReadsBoth, Turns, without_end};
ghost use Rattle.duct_tasks.specs.Until.{HasReached};
ghost use Rattle.duct_tasks.specs.declared.lines.LinesError.TheVariants as lines;

use crate::stream::Stream;
use crate::watch::is_over;
use duct_base::error::Error;
use duct_base::pause::Pause;
use duct_base::system::{Clock, Fault, Said, Side};
use std::alloc::{AllocError, Global};
use std::io;
use std::io::Read;
use std::mem::replace;
use std::snapshot::Snapshot;
use std::sync::Wait;
use std::thread::Threads;
use std::time::Duration;

/// Why a run whose lines are handed on has failed.
#[derive(Debug, Drop)]
pub enum LinesError {
    /// It could not be started, a read or a wait failed, or memory ran out.
    Run(Error),
    /// The closure that got a line failed with this.
    Closure(io::Error),
}

impl From<Error> for LinesError {
    ghost from_gives = { λ error made. made ≡ lines.Run error };

    fn from(error: Error) -> LinesError {
        LinesError::Run(error)
    }
}

impl From<AllocError> for LinesError {
    ghost from_gives = { λ _ made. made ≡ lines.Run Memory };

    fn from(_error: AllocError) -> LinesError {
        LinesError::Run(Error::Memory)
    }
}

// A stream that is read while the caller goes on, with all bytes that it gave so far. Each read is
// made on a thread of its own, and the next one begins once the bytes of the one before were taken:
// a writer that finds its pipe full waits for the caller.
#[derive(Drop)]
struct Lines<R: Read> {
    stream: Stream<R>,
    bytes: Vec<u8>,
    told: usize,
    is_open: bool,
    // The reader before anything was read.
    first: Snapshot<R>,
}

// Returns the first line of these bytes with its newline, if they have one.
fn first_line(bytes: &[u8]) -> Option<&[u8]>
    ensures line { IfSome result (λ line. line.now ≡ take_through 10 bytes.now) }
    ensures whole { IfSome result (λ line. IsWhole line.now) }
    ensures none { IfNone result (IsPart bytes.now) }
{
    for at in 0..bytes.len() {
        if bytes[at] == b'\n' {
            return Some(&bytes[..at + 1]);
        }
    }
    None
}

// Returns whether these bytes have the end of a line.
fn has_end(bytes: &[u8]) -> bool
    ensures { result ≡ false → IsPart bytes.now }
{
    first_line(bytes).is_some()
}

// Returns a line without its `\n` or `\r\n`.
fn without_end(line: &[u8]) -> &[u8]
    ensures { result.now ≡ without_end line.now }
{
    match line.strip_suffix(b"\n") {
        Some(line) => line.strip_suffix(b"\r").unwrap_or(line),
        None => line,
    }
}

// Hands on the lines of these bytes that are whole. Returns how many bytes they have.
fn hand_on<F: FnMut(Side, &[u8]) -> io::Result<()>>(
    side: Side,
    bytes: &[u8],
    each: &mut F,
) -> io::Result<usize>
    requires { F.IsAlwaysCallable each.old }
    ensures callable { F.IsAlwaysCallable each.new }
    ensures bound { IfOk result (λ told. told ≤ length bytes.now) }
    ensures rest { IfOk result (λ told. IsPart (drop told bytes.now)) }
    ensures ok { IfOk result (λ told.
        HandsWhole (Hands F.FnMut (Ok tt)) side each.old (take told bytes.now) each.new) }
    ensures err { IfErr result (λ error. FailedBy (Hands F.FnMut) (lines.Closure error) each.new) }
{
    let mut told = 0;
    while let Some(line) = first_line(&bytes[told..]) {
        each(side, without_end(line))?;
        told += line.len();
    }
    Ok(told)
}

impl<R: Read + Send + Drop + 'static> Lines<R> {
    // Begins to read this reader, on a thread of its own. Nothing is handed on yet.
    fn new<T: Threads>(rt: &T, alloc: Global, reader: R) -> Result<Lines<R>, Fault>
        ensures lines { IfOk result (IsLines R.remaining) }
        ensures reader { IfOk result (λ lines. lines.first.value ≡ reader) }
        ensures none { IfOk result (λ lines. lines.bytes.items ≡ []) }
    {
        let first = Snapshot::of(&reader);
        Ok(Lines {
            stream: Stream::new(rt, alloc, reader)?,
            bytes: Vec::new(alloc),
            told: 0,
            is_open: true,
            first,
        })
    }

    // Returns all bytes that were read. A read that goes on ends by itself.
    fn into_bytes(self) -> Vec<u8>
        ensures { result.items ≡ self.bytes.items }
    {
        let Lines {
            stream,
            bytes,
            told: _,
            is_open: _,
            first: _,
        } = self;
        drop(stream);
        bytes
    }

    // Takes what a read left, if it is over. Returns whether it has the end of a line.
    fn take(&mut self, rt: &(impl Threads + Wait), alloc: Global) -> Result<bool, Error>
        requires { IsLines R.remaining self.old }
        ensures lines { IsLines R.remaining self.new }
        ensures first { self.new.first.value ≡ self.old.first.value }
        ensures told { self.new.told ≡ self.old.told }
        ensures grows { (added : List ℕ)
            × (self.new.bytes.items ≡ self.old.bytes.items ++ added)
            × (result ≡ Ok false → IsPart added) }
    {
        if !self.is_open {
            return Ok(false);
        }
        let before = self.bytes.len();
        match self.stream.poll(rt, alloc, &mut self.bytes)? {
            Said::Fault(fault) => Err(Error::System(fault)),
            Said::Running => Ok(has_end(&self.bytes[before..])),
            Said::Done(()) => {
                self.is_open = false;
                Ok(has_end(&self.bytes[before..]))
            }
        }
    }

    // Takes what a read left, if it is over, and hands on the lines that are whole then.
    fn turn<F: FnMut(Side, &[u8]) -> io::Result<()>>(
        &mut self,
        rt: &(impl Threads + Wait),
        alloc: Global,
        side: Side,
        each: &mut F,
    ) -> Result<(), LinesError>
        requires lines { IsLines R.remaining self.old }
        requires callable { F.IsAlwaysCallable each.old }
        ensures lines { IsLines R.remaining self.new }
        ensures callable { F.IsAlwaysCallable each.new }
        ensures first { self.new.first.value ≡ self.old.first.value }
        ensures ok { OnOk result (Turns (Hands F.FnMut (Ok tt)) side self.old.bytes.items
            self.old.told each.old self.new.bytes.items self.new.told each.new) }
        ensures failed { IfErr result (λ error. FailedBy (Hands F.FnMut) error each.new) }
    {
        match self.take(rt, alloc) {
            Ok(true) => {}
            Ok(false) => return Ok(()),
            Err(error) => return Err(LinesError::Run(error)),
        }
        match hand_on(side, &self.bytes[self.told..], each) {
            Ok(told) => {
                self.told += told;
                Ok(())
            }
            Err(error) => Err(LinesError::Closure(error)),
        }
    }

    // Hands on the last line, if it has no newline.
    fn hand_on_rest<F: FnMut(Side, &[u8]) -> io::Result<()>>(
        &self,
        side: Side,
        each: &mut F,
    ) -> Result<(), LinesError>
        requires fits { self.now.told ≤ length self.now.bytes.items }
        requires callable { F.IsAlwaysCallable each.old }
        ensures callable { F.IsAlwaysCallable each.new }
        ensures ok { OnOk result (HandsRest (Hands F.FnMut (Ok tt)) side each.old
            (drop self.now.told self.now.bytes.items) each.new) }
        ensures failed { IfErr result (λ error. FailedBy (Hands F.FnMut) error each.new) }
    {
        let rest = &self.bytes[self.told..];
        if rest.is_empty() {
            return Ok(());
        }
        match each(side, without_end(rest)) {
            Ok(()) => Ok(()),
            Err(error) => Err(LinesError::Closure(error)),
        }
    }
}

/// Both streams of what runs.
#[derive(Drop)]
pub(crate) struct BothLines<R: Read> {
    out: Lines<R>,
    err: Lines<R>,
    // Whether both were read to EOF, or why they aren't read any more.
    over: Result<bool, LinesError>,
}

impl<R: Read + Send + Drop + 'static> BothLines<R> {
    /// Begins to read both streams, each on threads of its own. Nothing is handed on yet.
    ///
    /// Fails with `OutOfMemory` at an allocation failure, and with `Other` where no thread can be
    /// started. The readers are then dropped.
    pub fn new<T: Threads>(rt: &T, alloc: Global, out: R, err: R) -> Result<BothLines<R>, Fault>
        ensures both { IfOk result (ReadsBoth R.remaining) }
        ensures out { IfOk result (λ both. both.out.first.value ≡ out) }
        ensures err { IfOk result (λ both. both.err.first.value ≡ err) }
        ensures none { IfOk result (λ both. both.over ≡ Ok false) }
        ensures no_output { IfOk result (λ both. both.out.bytes.items ≡ []) }
        ensures no_error { IfOk result (λ both. both.err.bytes.items ≡ []) }
    {
        Ok(BothLines {
            out: Lines::new(rt, alloc, out)?,
            err: Lines::new(rt, alloc, err)?,
            over: Ok(false),
        })
    }

    // Takes what a read of either stream left, if it is over, and hands on the lines that are whole
    // then; at EOF of both it hands on last lines without a newline. Returns whether both came to
    // EOF.
    fn turn_both<F: FnMut(Side, &[u8]) -> io::Result<()>>(
        &mut self,
        rt: &(impl Threads + Wait),
        alloc: Global,
        each: &mut F,
    ) -> Result<bool, LinesError>
        requires callable { F.IsAlwaysCallable each.old }
        requires output { IsLines R.remaining self.old.out }
        requires error { IsLines R.remaining self.old.err }
        ensures callable { F.IsAlwaysCallable each.new }
        ensures output { IsLines R.remaining self.new.out }
        ensures error { IsLines R.remaining self.new.err }
        ensures out { self.new.out.first.value ≡ self.old.out.first.value }
        ensures err { self.new.err.first.value ≡ self.old.err.first.value }
        ensures ok { IfOk result (λ over. (f : F) → HandsTo (Hands F.FnMut (Ok tt)) false f each.old
            self.old.out.bytes.items self.old.out.told self.old.err.bytes.items self.old.err.told
            → HandsTo (Hands F.FnMut (Ok tt)) over f each.new self.new.out.bytes.items
            self.new.out.told self.new.err.bytes.items self.new.err.told) }
        ensures failed { IfErr result (λ error. FailedBy (Hands F.FnMut) error each.new) }
        ensures ends { result ≡ Ok true
            → (self.new.out.is_open ≡ false) × (self.new.err.is_open ≡ false) }
    {
        self.out.turn(rt, alloc, Side::Out, each)?;
        self.err.turn(rt, alloc, Side::Err, each)?;
        if self.out.is_open || self.err.is_open {
            return Ok(false);
        }
        self.out.hand_on_rest(Side::Out, each)?;
        self.err.hand_on_rest(Side::Err, each)?;
        Ok(true)
    }

    /// Takes what was read since the last call, and hands on the lines that are whole by it; at EOF
    /// of both streams also last lines without a newline. Where both came to EOF, or a read or the
    /// closure has failed, it does nothing. It doesn't block.
    pub fn turn<F: FnMut(Side, &[u8]) -> io::Result<()>>(
        &mut self,
        rt: &(impl Threads + Wait),
        alloc: Global,
        each: &mut F,
    )
        requires callable { F.IsAlwaysCallable each.old }
        requires both { ReadsBoth R.remaining self.old }
        ensures callable { F.IsAlwaysCallable each.new }
        ensures both { ReadsBoth R.remaining self.new }
        ensures out { self.new.out.first.value ≡ self.old.out.first.value }
        ensures err { self.new.err.first.value ≡ self.old.err.first.value }
        ensures hands { (f : F) → Handed F.FnMut self.old f each.old
            → Handed F.FnMut self.new f each.new }
        ensures failed { IsErr self.old.over → IsErr self.new.over }
        ensures closed { (self.old.over ≡ Ok false → ⊥) → self.new.over ≡ self.old.over }
    {
        if let Ok(false) = self.over {
            self.over = self.turn_both(rt, alloc, each);
        }
    }

    /// Hands on the last lines without a newline of streams that are read no more before EOF.
    pub fn give_up<F: FnMut(Side, &[u8]) -> io::Result<()>>(&self, each: &mut F)
        requires callable { F.IsAlwaysCallable each.old }
        requires both { ReadsBoth R.remaining self.now }
        ensures { F.IsAlwaysCallable each.new }
    {
        if self.go_on() {
            let _ = self.out.hand_on_rest(Side::Out, each);
            let _ = self.err.hand_on_rest(Side::Err, each);
        }
    }

    /// Reads both streams, as far as they come by this moment, and hands on their lines. It blocks
    /// until EOF, until the clock shows the moment, or until a read or the closure fails, after
    /// which nothing is read any more.
    pub fn read<C: Clock, F: FnMut(Side, &[u8]) -> io::Result<()>>(
        &mut self,
        rt: &(impl Threads + Wait),
        alloc: Global,
        clock: &C,
        moment: Duration,
        each: &mut F,
    )
        requires callable { F.IsAlwaysCallable each.old }
        requires both { ReadsBoth R.remaining self.old }
        ensures callable { F.IsAlwaysCallable each.new }
        ensures both { ReadsBoth R.remaining self.new }
        ensures out { self.new.out.first.value ≡ self.old.out.first.value }
        ensures err { self.new.err.first.value ≡ self.old.err.first.value }
        ensures hands { (f : F) → Handed F.FnMut self.old f each.old
            → Handed F.FnMut self.new f each.new }
        ensures failed { IsErr self.old.over → IsErr self.new.over }
        ensures late { self.new.over ≡ Ok false
            → HasReached (C.may_show clock.now) (as_nanos moment) }
    {
        let mut pauses = Pause::new();
        for _ in rt.forever() {
            let before = self.count();
            self.turn(rt, alloc, each);
            if !self.go_on() || is_over(clock, moment) {
                return;
            }
            if before < self.count() {
                pauses = Pause::new();
            }
            pauses.rest(rt);
        }
        unreachable!()
    }

    /// Returns how many bytes were read so far.
    pub fn count(&self) -> usize {
        self.out.bytes.len().saturating_add(self.err.bytes.len())
    }

    /// Returns whether there may be more to read.
    pub fn go_on(&self) -> bool
        ensures yes { result ≡ true → self.now.over ≡ Ok false }
        ensures no { result ≡ false → self.now.over ≡ Ok false → ⊥ }
    {
        matches!(self.over, Ok(false))
    }

    /// Returns whether both streams were read to EOF.
    pub fn are_over(&self) -> bool
        ensures yes { result ≡ true → self.now.over ≡ Ok true }
        ensures no { result ≡ false → IsOk self.now.over → self.now.over ≡ Ok false }
    {
        matches!(self.over, Ok(true))
    }

    /// Returns whether a read or the closure has failed.
    pub fn have_failed(&self) -> bool
        ensures yes { result ≡ true → IsErr self.now.over }
        ensures no { result ≡ false → IsOk self.now.over }
    {
        matches!(self.over, Err(_))
    }

    /// Takes all bytes that were read of stdout and of stderr, and why reading failed, if it has.
    pub fn take(&mut self, alloc: Global) -> (Vec<u8>, Vec<u8>, Option<Error>)
        ensures stdout { result.0.items ≡ self.old.out.bytes.items }
        ensures stderr { result.1.items ≡ self.old.err.bytes.items }
        ensures read { IfNone result.2 (IsOk self.old.over) }
    {
        let stdout = replace(&mut self.out.bytes, Vec::new(alloc));
        let stderr = replace(&mut self.err.bytes, Vec::new(alloc));
        let unread = match replace(&mut self.over, Ok(true)) {
            Ok(_) => None,
            Err(LinesError::Run(error)) => Some(error),
            Err(LinesError::Closure(error)) => Some(Error::System(Fault::from(error))),
        };
        (stdout, stderr, unread)
    }

    /// Returns all bytes that were read of stdout and of stderr, or why reading failed. A read that
    /// goes on ends by itself.
    pub fn into_bytes(self) -> Result<(Vec<u8>, Vec<u8>), LinesError>
        ensures ok { IfOk result (λ bytes. (bytes.0.items ≡ self.out.bytes.items)
            × (bytes.1.items ≡ self.err.bytes.items)) }
        ensures over { OnOk result ((over : Bool) × (self.over ≡ Ok over)) }
        ensures err { IfErr result (λ error. self.over ≡ Err error) }
    {
        let BothLines { out, err, over } = self;
        match over {
            Ok(_) => Ok((out.into_bytes(), err.into_bytes())),
            Err(error) => Err(error),
        }
    }
}
