//! The words that run a command somewhere else.
ghost use Rattle.std.specs.Prelude.{◌≡◌, ◌++◌, map, string_bytes, IfOk};
ghost use Rattle.duct_system.specs.SpecView.{texts_of};
ghost use Rattle.duct_words.specs.Place.{placed_words};

use crate::quoted::quote;
use duct_system::copy::copies_of_texts;
use std::alloc::{AllocError, Global};
use std::convert::AsStr;

/// Where a command runs.
#[derive(Clone, Copy)]
pub enum Place<'a> {
    /// On the machine of this name, by `ssh`. A POSIX shell there reads the words as one text.
    Ssh(&'a str),
    /// As one task of a job of Slurm, by `srun`.
    Srun,
    /// Wherever these words run the words behind them, as `nice -n 5` does.
    Behind(&'a [&'a str]),
}

/// Returns the words that run the command of these words at a place. They get there as they are:
/// for `ssh` they are one text of [`quote`](crate::quote). Nothing is started. Fails only at an
/// allocation failure.
///
/// No name is looked at: a machine to `ssh`, and a program to `srun`, is an option if it begins with
/// `-`. To `srun` a word `:` ends the command, and to bash on the other machine a program that begins
/// with `%` is a job.
///
/// Example: `over(alloc, &Place::Ssh("web"), &["ls", "a b"])?` has `ssh`, `web`, `--` and
/// `ls 'a b'`.
pub fn over<W: AsStr>(
    alloc: Global,
    place: &Place<'_>,
    words: &[W],
) -> Result<Vec<String>, AllocError>
    ensures { IfOk result
        (λ made. map string_bytes made.items ≡ placed_words place.now (map W.text words.now)) }
{
    match *place {
        Place::Ssh(machine) => {
            let text = quote(alloc, words)?;
            joined(alloc, &["ssh", machine, "--"], &[text])
        }
        Place::Srun => joined(alloc, &["srun", "-Qn1"], words),
        Place::Behind(before) => joined(alloc, before, words),
    }
}

// Copies of these words, and of those behind them.
fn joined<W: AsStr>(alloc: Global, before: &[&str], words: &[W]) -> Result<Vec<String>, AllocError>
    ensures { IfOk result
        (λ all. map string_bytes all.items ≡ texts_of before.now ++ map W.text words.now) }
{
    let mut all = copies_of_texts(alloc, before)?;
    for word in words {
        all.push(String::from_str(alloc, word.as_str())?)?;
    }
    Ok(all)
}
