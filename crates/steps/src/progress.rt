//! A line on stderr that says how many steps have ended.
use duct_tasks::Progress;
use std::io::Write;

/// How many steps there are, run and have ended, and whether that is shown. A write that fails is
/// nothing.
#[derive(Clone, Copy)]
pub struct ProgressLine {
    pub is_shown: bool,
    pub all: usize,
    pub run: usize,
    pub ended: usize,
}

impl ProgressLine {
    /// Takes the line away, so that another one may be written.
    pub fn erase<E: Write>(&self, err: &mut E) {
        if self.is_shown {
            let _ = err.write_all(b"\r\x1b[K");
        }
    }

    /// Shows the line after this.
    pub fn tell<E: Write>(&mut self, told: &Progress<'_>, err: &mut E) {
        match told {
            Progress::Line(_, _) => {}
            Progress::Started(_) => self.run = self.run.saturating_add(1),
            Progress::Refused(_) => self.ended = self.ended.saturating_add(1),
            Progress::Ended(_) => {
                self.run = self.run.saturating_sub(1);
                self.ended = self.ended.saturating_add(1);
            }
        }
        if self.is_shown {
            let (all, run, ended) = (self.all, self.run, self.ended);
            let _ = write!(err, "{ended} of {all} ended, {run} run");
        }
    }
}
