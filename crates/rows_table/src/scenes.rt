//! What a row sets up before a start, over the scripted system (`docs/ROWS.md`).
use crate::stop::TableError;
use crate::words::{error_kind, fault, first_word, pairs};
use duct::{ExitStatus, Fault, Pool, Said};
use duct_base::pool::{place_new, pool_take, reservation_new};
use duct_script::{
    Answers, CallLog, ChildScript, DrainScript, Gate, PollAnswer, ReadStep, ReaderScript, Script,
    ScriptChild, Sort,
};
use std::alloc::Global;
use std::sync::Arc;

/// A system and a pool for a start, and the log of calls. The numbers below `FIRST` are those of
/// lent ends and of the children that the pool keeps.
#[derive(Drop)]
pub struct Bench {
    pub sys: Script,
    pub pool: Pool<ScriptChild>,
    pub calls: Arc<CallLog>,
    /// Where readers wait that are held.
    pub gate: Gate,
}

/// The first number that the system assigns.
pub const FIRST: u64 = 100;

/// How many calls the log keeps.
const CALLS: usize = 8192;

impl Bench {
    /// Returns an empty pool, and a system with no variables that refuses no request and whose
    /// children keep running. Fails on an allocation failure.
    pub fn new(alloc: Global) -> Result<Bench, TableError> {
        let calls = Arc::new(alloc, CallLog::new(alloc, CALLS)?)?;
        let mut sys = Script::new(alloc)?;
        sys.skip_numbers_below(FIRST);
        sys.note_in(Arc::try_clone(&calls)?);
        Ok(Bench {
            sys,
            pool: Pool::new(alloc),
            calls,
            gate: Gate::new(alloc)?,
        })
    }

    /// Sets up the pool or the system by the line of this key. Returns whether there is such a key.
    /// Fails if the text is malformed, or on an allocation failure.
    pub fn set(&mut self, alloc: Global, key: &str, text: &str) -> Result<bool, TableError> {
        if key == "held" {
            self.gate.shut();
            let mut script = reader_script(alloc, text)?;
            script.gate = Some(self.gate.share()?);
            self.sys.bytes(script)?;
            return Ok(true);
        }
        if key != "kept" {
            return set_system(alloc, &mut self.sys, key, text);
        }
        let mut number = 0_u64;
        for child in text.split_terminator(';') {
            number = number.saturating_add(1);
            self.keep(alloc, number, child)?;
        }
        Ok(true)
    }

    fn keep(&mut self, alloc: Global, number: u64, child: &str) -> Result<(), TableError> {
        let reservation = reservation_new(alloc)?;
        let calls = Arc::try_clone(&self.calls)?;
        let script = child_script(alloc, child)?;
        let child = ScriptChild::new(alloc, number, false, script, Some(calls));
        pool_take(&mut self.pool, place_new(child, reservation));
        Ok(())
    }
}

/// Sets up a system by the line of this key. Returns whether there is such a key. Fails if the text
/// is malformed, or on an allocation failure.
pub fn set_system(
    alloc: Global,
    sys: &mut Script,
    key: &str,
    text: &str,
) -> Result<bool, TableError> {
    match key {
        "parent" => {
            for (name, value) in pairs(alloc, text)? {
                sys.variable(name, value)?;
            }
        }
        "canonical" => {
            for (path, name) in pairs(alloc, text)? {
                sys.canonical(path, name)?;
            }
        }
        "refuse" | "children" | "feeds" | "drains" => {
            for item in text.split_terminator(';') {
                set_next(alloc, sys, key, item)?;
            }
        }
        "reads" => sys.bytes(reader_script(alloc, text)?)?,
        "starve" => sys.starve(true),
        _ => return Ok(false),
    }
    Ok(true)
}

/// Sets what the next child, feed or drain returns, or a request that is refused.
fn set_next(alloc: Global, sys: &mut Script, key: &str, text: &str) -> Result<(), TableError> {
    match key {
        "refuse" => {
            let (name, rest) = first_word(text.trim());
            let (number, kind) = first_word(rest);
            let (number, fault) = (number.parse()?, fault(kind)?);
            match name {
                "any" => sys.refuse(number, fault)?,
                name => sys.refuse_sort(sort(name)?, number, fault)?,
            }
        }
        "children" => sys.child(child_script(alloc, text)?)?,
        "feeds" => sys.feed(Answers::of(answers(alloc, text)?))?,
        _ => sys.drain(DrainScript::from_vec(answers(alloc, text)?))?,
    }
    Ok(())
}

/// Returns the sort of requests with this name.
fn sort(name: &str) -> Result<Sort, TableError> {
    match name {
        "Environment" => Ok(Sort::Environment),
        "Pipe" => Ok(Sort::Pipe),
        "OpenRead" => Ok(Sort::OpenRead),
        "Create" => Ok(Sort::Create),
        "Duplicate" => Ok(Sort::Duplicate),
        "Parent" => Ok(Sort::Parent),
        "Canonicalize" => Ok(Sort::Canonicalize),
        "Spawn" => Ok(Sort::Spawn),
        "Feed" => Ok(Sort::Feed),
        "Drain" => Ok(Sort::Drain),
        "Close" => Ok(Sort::Close),
        _ => Err(TableError::Text("no such sort of requests")),
    }
}

fn child_script(alloc: Global, child: &str) -> Result<ChildScript, TableError> {
    let (polls, orders) = child.split_once('/').unwrap_or((child, ""));
    let (kills, signals) = orders.split_once('/').unwrap_or((orders, orders));
    let mut script = ChildScript::running(alloc);
    script.polls = Answers::of(answers(alloc, polls)?);
    script.kills = Answers::of(answers(alloc, kills)?);
    script.signals = Answers::of(answers(alloc, signals)?);
    Ok(script)
}

/// A result that a text names.
pub trait Named: Drop + Sized {
    /// Returns the result with this name. Fails if there is none, or on an allocation failure.
    fn named(alloc: Global, text: &str) -> Result<Self, TableError>;
}

/// `running`, `code 0`, `signal 9`, or the kind of a fault.
impl Named for PollAnswer {
    fn named(_alloc: Global, text: &str) -> Result<PollAnswer, TableError> {
        match first_word(text) {
            ("running", _) => Ok(PollAnswer::Running),
            ("code", code) => Ok(PollAnswer::Ended(ExitStatus::Code(code.parse()?))),
            ("signal", signal) => Ok(PollAnswer::Ended(ExitStatus::Signal(signal.parse()?))),
            (kind, _) => Ok(PollAnswer::Fault(fault(kind)?)),
        }
    }
}

/// `done`, or the kind of a fault.
impl Named for Result<(), Fault> {
    fn named(_alloc: Global, text: &str) -> Result<Result<(), Fault>, TableError> {
        if text == "done" {
            return Ok(Ok(()));
        }
        Ok(Err(fault(text)?))
    }
}

/// `running`, `done`, or the kind of a fault.
impl Named for Said<()> {
    fn named(_alloc: Global, text: &str) -> Result<Said<()>, TableError> {
        match text {
            "running" => Ok(Said::Running),
            "done" => Ok(Said::Done(())),
            kind => Ok(Said::Fault(fault(kind)?)),
        }
    }
}

/// `running`, `done abc`, or the kind of a fault.
impl Named for Said<Arc<Vec<u8>>> {
    fn named(alloc: Global, text: &str) -> Result<Said<Arc<Vec<u8>>>, TableError> {
        match first_word(text) {
            ("running", _) => Ok(Said::Running),
            ("done", bytes) => {
                let bytes = Vec::from_slice(alloc, bytes.as_bytes())?;
                Ok(Said::Done(Arc::new(alloc, bytes)?))
            }
            (kind, _) => Ok(Said::Fault(fault(kind)?)),
        }
    }
}

/// Returns the results of a text, which are separated by commas. Fails if there is no such result,
/// or on an allocation failure.
fn answers<A: Named>(alloc: Global, text: &str) -> Result<Vec<A>, TableError> {
    let mut answers = Vec::new(alloc);
    for name in text.split_terminator(',') {
        answers.push(A::named(alloc, name.trim())?)?;
    }
    Ok(answers)
}

fn reader_script(alloc: Global, pieces: &str) -> Result<ReaderScript, TableError> {
    let mut script = ReaderScript::empty(alloc);
    for piece in pieces.split_terminator(',') {
        let piece = piece.trim();
        if let Ok(kind) = error_kind(piece) {
            script.steps.push_back(ReadStep::Fault(kind))?;
            continue;
        }
        let (bytes, length) = piece.split_once('=').unwrap_or((piece, ""));
        for byte in bytes.bytes() {
            script.bytes.push(byte_of(byte))?;
        }
        let length = length.parse().unwrap_or(bytes.len());
        script.steps.push_back(ReadStep::Piece(length))?;
    }
    Ok(script)
}

fn byte_of(byte: u8) -> u8 {
    match byte {
        b'_' => b' ',
        b'$' => b'\n',
        b'^' => b'\r',
        b'?' => 255,
        byte => byte,
    }
}
