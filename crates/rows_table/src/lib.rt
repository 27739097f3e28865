//! What all tables of rows share: the reader of files of rows, the notation of expressions, hooks
//! and scripted systems, texts for what came of them, and what a row finds of the real machine.
//! Test support: the code is proved safe, and each function that can't block is proved to return.
#![tactic(auto)]

mod bytes;
mod expressions;
mod hooks;
mod journals;
mod real;
mod scenes;
mod stop;
mod table;
mod words;

pub use bytes::{Bytes, LONG};
pub use expressions::{Lender, Log, Strangers, Tree, Writing, written, written_with};
pub use journals::{
    children_started, most_held, pipes_of_tasks, program_of, push_calls, push_journal, push_pool,
    push_trace, push_turns,
};
pub use real::{Real, count_left, filled};
pub use scenes::{Bench, Named, set_system};
pub use stop::{TableError, is_memory};
pub use table::{RowFile, Table, Tally, compare};
pub use words::{arguments, duration, error_kind, first_word, limits, texts};
