//! The table of calls over the scripted system (`docs/ROWS.md`).
use crate::machine::{Machine, PartsOf, PoolOf};
use crate::tasks::run_tasks;
use duct::{Numbered, System};
use duct_script::{Script, ScriptChild, ScriptClock, ScriptEnd};
use rows_table::{
    Bench, Lender, Log, Strangers, TableError, Tree, duration, most_held, program_of, push_calls,
    push_turns,
};
use std::alloc::{AllocError, Global};
use std::sync::Wait;
use std::thread::Threads;

/// The scripted system of a row.
#[derive(Drop)]
pub struct Scripted {
    alloc: Global,
    bench: Bench,
    clock: ScriptClock,
    parts: String,
    /// How many calls the log had at each moment of the last start.
    marks: [u64; 3],
}

impl Scripted {
    /// Returns a plain scripted system with an empty pool, and a clock that shows zero. Fails on an
    /// allocation failure.
    pub fn new(alloc: Global) -> Result<Scripted, TableError> {
        Ok(Scripted {
            alloc,
            bench: Bench::new(alloc)?,
            clock: ScriptClock::new(Vec::new(alloc)),
            parts: String::new(alloc),
            marks: [0; 3],
        })
    }

    fn push_times(&self, text: &mut String) -> Result<(), AllocError> {
        let mut turns = String::new(self.alloc);
        push_turns(&mut turns, &self.bench.calls)?;
        let polls = turns.bytes().filter(|turn| *turn == b'p').count();
        let orders = turns.len().saturating_sub(polls);
        write!(text, "polls {polls}, orders {orders}")
    }

    fn set_clock(&mut self, text: &str) -> Result<(), TableError> {
        let mut moments = Vec::new(self.alloc);
        for moment in text.split(',') {
            moments.push(duration(moment)?)?;
        }
        self.clock = ScriptClock::new(moments);
        Ok(())
    }

    fn push_child(&mut self, child: &ScriptChild) -> Result<(), AllocError> {
        let program = program_of(self.bench.sys.journal(), child.number()).unwrap_or("nobody");
        write!(self.parts, "{program} {}", child.polls())?;
        for (order, _) in child.orders() {
            write!(self.parts, " {order:?}")?;
        }
        self.parts.push_str(", ")
    }
}

impl Lender for Scripted {
    type End = ScriptEnd;

    fn lend(&mut self, number: u64) -> Result<ScriptEnd, TableError> {
        Strangers { alloc: self.alloc }.lend(number)
    }

    fn calls(&self) -> Log<'_> {
        Some(&self.bench.calls)
    }
}

impl Machine for Scripted {
    type System = Script;

    type Clock = ScriptClock;

    fn stage(&mut self) -> (&mut Script, &mut PoolOf<Script>, &ScriptClock) {
        let bench = &mut self.bench;
        (&mut bench.sys, &mut bench.pool, &self.clock)
    }

    fn mark(&mut self, moment: usize) {
        let (noted, [begun, started, _]) = (self.bench.calls.noted(), self.marks);
        self.marks = match moment {
            0 => [noted; 3],
            1 => [begun, noted, noted],
            _ => [begun, started, noted],
        };
    }

    fn line(&mut self, key: &str, text: &str, out: &mut String) -> Result<bool, TableError> {
        let [begun, started, called] = self.marks;
        match key {
            "during" => push_calls(out, &self.bench, begun, started)?,
            "calls" => push_calls(out, &self.bench, started, called)?,
            "within" => {
                let most = most_held(self.bench.sys.journal());
                write!(out, "{}", most.max(text.parse().unwrap_or(0)))?;
            }
            "times" => self.push_times(out)?,
            "turns" => push_turns(out, &self.bench.calls)?,
            "asked" => write!(out, "{}", self.clock.asked())?,
            "parts" => {
                let parts = self.parts.as_str();
                out.push_str(parts.strip_suffix(", ").unwrap_or(parts))?;
            }
            "clock" => return self.set_clock(text).map(|()| false),
            _ if self.bench.set(self.alloc, key, text)? => return Ok(false),
            _ => return Err(TableError::Text("no such key")),
        }
        Ok(true)
    }

    fn tasks(
        &mut self,
        rt: &(impl Threads + Wait),
        trees: &[Tree<Self::End>],
        text: &str,
        answers: &mut String,
    ) -> Result<(), TableError> {
        let (system, pool) = (&mut self.bench.sys, &mut self.bench.pool);
        run_tasks(rt, &self.clock, trees, text, system, pool, answers)?;
        self.bench.gate.open();
        Ok(())
    }

    fn call(&mut self, call: &str, ids: &[u32], answer: &mut String) -> Result<(), TableError> {
        if call != "ids" {
            return Err(TableError::Text("no such call"));
        }
        answer.push_str("ids")?;
        for id in ids {
            // The id of a scripted child is its number plus 1000.
            let number = u64::from(*id).saturating_sub(1000);
            let program = program_of(self.bench.sys.journal(), number).unwrap_or("nobody");
            write!(answer, " {program}")?;
        }
        Ok(answer.push_str(". ")?)
    }

    fn spend(&mut self, parts: PartsOf<Script>) -> Result<(), TableError> {
        let (children, feeds, drains) = parts;
        self.parts.clear();
        for place in children {
            self.push_child(&place.into_child())?;
        }
        for feed in feeds.iter() {
            write!(self.parts, "feed {}, ", feed.polls())?;
        }
        for drain in drains.iter() {
            write!(self.parts, "drain {}, ", drain.polls())?;
        }
        Ok(())
    }

    fn pause(&self) {}

    fn end(&mut self) -> Result<(), TableError> {
        *self = Scripted::new(self.alloc)?;
        Ok(())
    }
}
