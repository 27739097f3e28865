//! The tables of calls over any system (`docs/ROWS.md`): expressions that are run, read or started,
//! with the results of the calls on what was started.
use crate::machine::{Machine, TURNS};
use crate::programs::{push_line, push_performed};
use crate::started::{Started, polled, start};
use crate::tasks::keep_running;
use crate::texts::{push_done, push_error, push_polled, push_read, push_run};
use duct::{Clock, Error, Handle, System};
use duct_script::{is_balanced, open_count};
use duct_tasks::{Deadline, Until, run_until};
use rows_table::{
    Table, TableError, Tree, Writing, children_started, first_word, limits, pipes_of_tasks,
    push_journal, push_pool, push_trace, written_with,
};
use std::alloc::{AllocError, Global};
use std::mem;
use std::sync::Wait;
use std::thread::{self, Threads};

type Made<'r, R, M> = Started<'r, R, <M as Machine>::System>;

/// The table of calls over a machine.
#[derive(Drop)]
pub struct Calls<'t, 'r, R, M> {
    rt: &'r R,
    alloc: Global,
    machine: M,
    expression: &'t str,
    arguments: &'t str,
    answers: String,
    /// Whether the call of the line gives no child that it started to the pool.
    is_kept: bool,
    /// Whether the pool was given another number of children than it had to be.
    is_lost: bool,
}

impl<'t, 'r, R: Wait + Threads, M: Machine> Calls<'t, 'r, R, M> {
    /// Returns the table over a machine, at the beginning of a row.
    pub fn new(rt: &'r R, alloc: Global, machine: M) -> Calls<'t, 'r, R, M> {
        Calls {
            rt,
            alloc,
            machine,
            expression: "",
            arguments: "",
            answers: String::new(alloc),
            is_kept: false,
            is_lost: false,
        }
    }

    fn tree(&mut self) -> Result<Tree<M::End>, TableError> {
        written_with(self.alloc, &mut self.machine, self.expression)
    }

    /// Returns all expressions of the row's line.
    fn trees(&mut self) -> Result<Vec<Tree<M::End>>, TableError> {
        let mut writing = Writing::new(self.alloc, &mut self.machine);
        writing.write(self.expression)?;
        Ok(mem::replace(&mut writing.built, Vec::new(self.alloc)))
    }

    /// Returns how many children the journal shows as started, and how many the pool was given.
    fn counts(&mut self) -> (u64, u64) {
        let (system, pool, _) = self.machine.stage();
        (children_started(system.journal()), pool.given())
    }

    /// Makes the calls of a line. Notes if the pool was given another number of children than were
    /// started, or was given one although the call keeps them. A run with a limit, `tasks`
    /// and `keep` may also start lines of a shell, whose children they keep.
    fn call(&mut self, key: &str, text: &str) -> Result<(), TableError> {
        self.answers.clear();
        self.is_kept = false;
        let before = self.counts();
        self.machine.mark(0);
        let made = match key {
            "run" => self.run(text),
            "read" if text.is_empty() => self.read(),
            "tasks" | "keep" => self.tasks(key, text),
            "perform" => self.run_program(),
            _ => self.start(key, text),
        };
        let after = self.counts();
        let started = after.0.saturating_sub(before.0);
        let given = after.1.saturating_sub(before.1);
        let owed = if self.is_kept { 0 } else { started };
        let is_right = match key {
            "tasks" | "keep" => given <= started,
            "run" if !text.is_empty() && !self.is_kept => given <= started,
            _ => given == owed,
        };
        self.is_lost = self.is_lost || !is_right;
        made
    }

    /// Runs the expressions of the row as tasks, or starts each again each time that it ends.
    fn tasks(&mut self, key: &str, text: &str) -> Result<(), TableError> {
        let trees = self.trees()?;
        let (rt, answers) = (self.rt, &mut self.answers);
        if key == "tasks" {
            return self.machine.tasks(rt, trees.as_slice(), text, answers);
        }
        let (system, pool, clock) = self.machine.stage();
        keep_running(rt, clock, trees.as_slice(), text, system, pool, answers)
    }

    /// Starts the expression of the row, and makes these calls on what was started. The last one
    /// spends it.
    fn start(&mut self, key: &str, calls: &str) -> Result<(), TableError> {
        let (calls, end) = calls.rsplit_once(',').unwrap_or(("", calls));
        let tree = self.tree()?;
        let (system, pool, _) = self.machine.stage();
        let started = start(&tree, self.rt, key, system, pool);
        drop(tree);
        self.machine.mark(1);
        match started {
            Ok(mut started) => {
                let made = self.each(&mut started, calls);
                self.machine.mark(2);
                let spent = self.spend(started, end);
                made.and(spent)
            }
            Err(error) => Ok(push_error(&mut self.answers, &error)?),
        }
    }

    fn each(&mut self, started: &mut Made<'r, R, M>, calls: &str) -> Result<(), TableError> {
        for call in calls.split(',') {
            let (mark, call) = marked(call);
            let from = self.answers.len();
            self.made(started, call)?;
            self.check_mark(mark, from)?;
        }
        Ok(())
    }

    fn made(&mut self, started: &mut Made<'r, R, M>, call: &str) -> Result<(), TableError> {
        let answers = &mut self.answers;
        match first_word(call) {
            ("", _) => Ok(()),
            ("pids", _) => Ok(write!(answers, "{} ids. ", started.pids().len())?),
            ("kill", "") => Ok(push_done(answers, &started.kill(self.rt))?),
            ("signal", number) => {
                let sent = started.signal(self.rt, number.parse()?)?;
                Ok(push_done(answers, &sent)?)
            }
            ("poll" | "finish" | "try" | "wait" | "timeout" | "deadline", _) => {
                let polled = polled(started, self.rt, &mut self.machine, call)?;
                Ok(push_polled(answers, &polled)?)
            }
            ("read" | "std" | "all", _) => { started.push_read(self.alloc, call, answers) }
            _ => self.machine.call(call, started.pids(), answers),
        }
    }

    /// Fails if a call with this mark had an allocation failure, after which the row doesn't go on.
    /// Its result begins at this index of the answers.
    fn check_mark(&self, mark: &str, from: usize) -> Result<(), TableError> {
        let answer = self.answers.as_str().get(from..).unwrap_or("");
        let is_refused = answer.contains("out of memory") || answer.contains("OutOfMemory");
        match mark {
            "sure" if is_refused => Err(TableError::Text("a call that needs none was refused")),
            "needed" if is_refused => Err(TableError::Memory(AllocError)),
            _ => Ok(()),
        }
    }

    fn spend(&mut self, started: Made<'r, R, M>, end: &str) -> Result<(), TableError> {
        let (mark, end) = marked(end);
        match (started, end) {
            (Started::Running(running), "parts") => {
                self.is_kept = true;
                self.machine.spend(running.into_parts())
            }
            (Started::Handle(line), "into" | "lend") => {
                self.into_output(line.into_handle(), end, mark)
            }
            (started, _) => {
                started.give_up(self.machine.stage().1);
                match end {
                    "give" => Ok(()),
                    _ => Err(TableError::Text("no call that spends this")),
                }
            }
        }
    }

    /// Calls `into_output`, alone or while another thread keeps the output of a wait. Adds what the
    /// other thread has afterwards.
    fn into_output(
        &mut self,
        handle: Handle<M::System>,
        end: &str,
        mark: &str,
    ) -> Result<(), TableError> {
        if end == "into" {
            return self.push_output(handle, mark);
        }
        let kept = handle.wait(self.rt);
        let keeper = thread::spawn(self.rt, move || kept);
        let pushed = self.push_output(handle, mark);
        match keeper {
            Ok(keeper) => push_polled(&mut self.answers, &keeper.join(self.rt).map(Some))?,
            Err(error) => return Err(TableError::Memory(AllocError::from(error))),
        }
        pushed
    }

    fn push_output(&mut self, handle: Handle<M::System>, mark: &str) -> Result<(), TableError> {
        let from = self.answers.len();
        let output = handle.into_output(self.rt, self.machine.stage().1);
        self.is_kept = output.is_ok();
        self.machine.mark(2);
        push_run(&mut self.answers, &output.map(Until::Done))?;
        self.check_mark(mark, from)
    }

    /// Runs the expression of the row, for as long as its limits say if there are any.
    fn run(&mut self, text: &str) -> Result<(), TableError> {
        let limits = limits(text)?;
        let tree = self.tree()?;
        let rt = self.rt;
        let (system, pool, clock) = self.machine.stage();
        let ran = match limits {
            None => tree.run(rt, system, pool).map(Until::Done),
            Some((length, grace)) => {
                let moment = clock.now().saturating_add(length);
                let deadline = Deadline {
                    clock,
                    moment,
                    grace,
                };
                run_until(rt, system, pool, &tree, &deadline)
            }
        };
        self.is_kept = matches!(ran, Ok(Until::Done(_)));
        Ok(push_run(&mut self.answers, &ran)?)
    }

    /// Reads the expression of the row.
    fn read(&mut self) -> Result<(), TableError> {
        let tree = self.tree()?;
        let rt = self.rt;
        let (system, pool, _) = self.machine.stage();
        let read = tree.read(rt, system, pool);
        self.is_kept = read.is_ok();
        Ok(push_read(&mut self.answers, &read)?)
    }

    fn run_program(&mut self) -> Result<(), TableError> {
        let (system, _, _) = self.machine.stage();
        self.is_kept = true;
        let (rt, alloc, arguments) = (self.rt, self.alloc, self.arguments);
        Ok(push_performed(&mut self.answers, rt, alloc, system, arguments)?)
    }

    fn sweep(&mut self, text: &str) -> Result<(), TableError> {
        for _ in 0..TURNS {
            let (_, pool, _) = self.machine.stage();
            pool.sweep();
            if text == "once" || pool.len() == 0 {
                return Ok(());
            }
            self.machine.pause();
        }
        Err(TableError::Text("the children go on"))
    }

    /// Adds what the line of this key is compared with. Returns whether it is compared.
    fn found(&mut self, key: &str, text: &str, out: &mut String) -> Result<bool, TableError> {
        let (system, pool, _) = self.machine.stage();
        match key {
            "answers" if self.answers.is_empty() => out.push_str("started.")?,
            "answers" => out.push_str(self.answers.as_str())?,
            "line" => push_line(out, self.alloc, self.arguments)?,
            "pool" => push_pool(out, pool)?,
            "trace" => push_trace(out, self.alloc, system.journal())?,
            "journal" => push_journal(out, system.journal())?,
            _ => return self.machine.line(key, text, out),
        }
        Ok(true)
    }

    /// Fails if an end is not spent, or if the pool was given another number of children than it
    /// had to be.
    fn check(&mut self) -> Result<(), TableError> {
        let journal = self.machine.stage().0.journal();
        let is_spent = match pipes_of_tasks(journal) {
            0 => is_balanced(self.alloc, journal)?,
            owned => open_count(self.alloc, journal)? == owned,
        };
        if !is_spent {
            return Err(TableError::Text("an end is not spent"));
        }
        if self.is_lost {
            return Err(TableError::Text("the pool was not given each child"));
        }
        Ok(())
    }
}

impl<'t, R: Wait + Threads, M: Machine> Table<'t> for Calls<'t, '_, R, M> {
    fn line(&mut self, key: &'t str, text: &'t str, out: &mut String) -> Result<bool, TableError> {
        match key {
            "expression" => self.expression = text,
            "arguments" => self.arguments = text,
            "sweep" => self.sweep(text)?,
            "clear" => self.machine.stage().0.clear_journal(),
            "launch" | "launch_reader" | "handle" | "reader" => self.call(key, text)?,
            "run" | "read" | "perform" | "tasks" | "keep" => self.call(key, text)?,
            _ => return self.found(key, text, out),
        }
        Ok(false)
    }

    fn end(&mut self) -> Result<(), TableError> {
        let checked = self.check();
        (self.expression, self.arguments) = ("", "");
        self.is_lost = false;
        let ended = self.machine.end();
        checked.and(ended)
    }
}

/// Returns the mark of a call, or an empty one, and the call without it.
fn marked(call: &str) -> (&str, &str) {
    let call = call.trim();
    match first_word(call) {
        (mark @ ("sure" | "needed"), rest) => (mark, rest),
        _ => ("", call),
    }
}
