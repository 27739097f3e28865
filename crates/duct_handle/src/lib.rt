//! A handle of a running expression, which threads share: waits, orders, and a result that is
//! published once. With the pipe that its expression writes to: reads that at EOF end as the
//! expression does, and the text of all bytes that are read.
#![tactic(auto)]

pub mod buffers;
mod error;
pub mod finish;
pub mod handle;
mod io;
mod lock;
mod orders;
pub mod output;
mod pipe;
pub mod poll;
pub mod published;
pub mod read;
pub mod reader;
mod reports;
pub mod text;
pub mod unix;
mod wait;
