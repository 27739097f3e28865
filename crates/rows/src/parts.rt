//! The table `parts`, of parts of the library that make no request (`docs/ROWS.md`).

mod plans;
mod statuses;
mod transfers;
mod words;

use rows_table::{Strangers, Table, TableError, Writing, first_word};
use std::alloc::Global;

/// The keys of the lines that set something up.
const SET: &str = "shape captured events bytes expression arguments text secrets pieces";

/// The table of parts.
#[derive(Drop)]
pub struct Parts<'t> {
    alloc: Global,
    /// The keys and the texts of the lines that set something up, in their order.
    set: Vec<(&'t str, &'t str)>,
}

impl<'t> Parts<'t> {
    /// Returns a table that has read no line yet.
    pub fn new(alloc: Global) -> Parts<'t> {
        Parts {
            alloc,
            set: Vec::new(alloc),
        }
    }

    /// Returns the text of the last line with this key, or an empty text if there is none.
    fn text(&self, key: &str) -> &'t str {
        let mut last = "";
        for (known, text) in &self.set {
            if *known == key {
                last = *text;
            }
        }
        last
    }

    /// Adds the text that a line is compared with.
    fn push(&self, text: &mut String, key: &str) -> Result<(), TableError> {
        match first_word(key) {
            ("replies", _) => statuses::push_replies(text, self),
            (call @ ("fed" | "drained"), script) => transfers::push(text, self, call, script),
            ("shows", _) => self.push_shown(text, usize::MAX),
            ("first", _) => self.push_shown(text, 1),
            ("hidden", script) => transfers::push_hidden(text, self, script),
            ("tokens" | "variables" | "quoted" | "shell", _) => words::push(text, self, key),
            ("over", place) => words::push_placed(text, self, place),
            ("drawn", _) => plans::push_drawn(text, self),
            ("planned", _) => plans::push_planned(text, self),
            _ => Err(TableError::Text("no such key")),
        }
    }

    /// Adds the debug texts of the first expressions of a row, at most so many.
    fn push_shown(&self, text: &mut String, most: usize) -> Result<(), TableError> {
        let mut strangers = Strangers { alloc: self.alloc };
        let mut writing = Writing::new(self.alloc, &mut strangers);
        let wrote = writing.write(self.text("expression"));
        for tree in writing.built.iter().take(most) {
            write!(text, "{tree:?}; ")?;
        }
        match wrote {
            Err(stop) if stop.is_memory() => Ok(write!(text, "{stop}; ")?),
            wrote => wrote,
        }
    }
}

impl<'t> Table<'t> for Parts<'t> {
    fn line(&mut self, key: &'t str, text: &'t str, out: &mut String) -> Result<bool, TableError> {
        if SET.split(' ').any(|set| set == key) {
            self.set.push((key, text))?;
            return Ok(false);
        }
        let mut found = String::new(self.alloc);
        self.push(&mut found, key)?;
        out.push_str(found.replace(self.alloc, "\n", "\\n")?.as_str())?;
        Ok(true)
    }

    fn end(&mut self) -> Result<(), TableError> {
        self.set.clear();
        Ok(())
    }
}
