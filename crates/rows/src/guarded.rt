//! A line that is read over the real machine under a policy:
//! `rows --guarded PROGRAMS FOLDERS ENDS CHILDREN AT_ONCE CREATES WORD..`, where the words are those
//! of the program `host`. It allows the programs and the folders of these lists, whose items `:`
//! separates; so many ends that are open, so many children that are ever started, and so many that
//! run at once; and files to be created where `CREATES` is `yes`. It prints the text or the error,
//! the machine's journal, and what is held and how many children run at the end.
ghost use Rattle.std.specs.Prelude.{◌≡◌, []};

use duct::{Expression, Pool, System};
use duct_guard::{
    AtOnce, Both, Counts, Folders, Limits, Policy, Programs, ReadOnly, Under, read_under,
};
use duct_host::Host;
use duct_program::line;
use duct_replay::{Values, journal_text};
use rows_table::Real;
use std::alloc::{AllocError, Global};
use std::io;
use std::io::{ErrorKind, Write};
use std::sync::Wait;

/// A policy by two lists and three limits.
type Listed = Both<Both<Programs, Folders>, Both<Limits, AtOnce>>;

/// The items of a list.
fn items(alloc: Global, list: &str) -> Result<Vec<String>, AllocError> {
    let mut items = Vec::new(alloc);
    for item in list.split(':') {
        items.push(String::from_str(alloc, item)?)?;
    }
    Ok(items)
}

/// The number that a text is, or 0.
fn number(text: &str) -> usize {
    text.parse().unwrap_or(0)
}

/// The policy of these lists and limits. Fails where a folder is empty.
fn listed(alloc: Global, lists: [&str; 2], limits: [&str; 3]) -> io::Result<Listed> {
    let [programs, folders] = lists;
    let [ends, children, at_once] = limits;
    let programs = Programs::new(items(alloc, programs)?);
    let folders = Folders::new(items(alloc, folders)?);
    let counts = Counts {
        ends: number(ends),
        children: number(children),
    };
    Ok(Both {
        first: Both {
            first: programs,
            second: folders.map_err(|_| io::Error::from(ErrorKind::InvalidInput))?,
        },
        second: Both {
            first: Limits(counts),
            second: AtOnce(number(at_once)),
        },
    })
}

/// Reads an expression under a policy. Returns what came of it as text.
fn read_text<S: System + Drop, P: Policy + Drop>(
    rt: &impl Wait,
    alloc: Global,
    system: S,
    policy: P,
    expression: &Expression<S::End>,
) -> Result<String, AllocError>
    requires { (S.journal_view system).entries ≡ [] }
{
    let mut pool = Pool::new(alloc);
    let Under {
        system,
        held,
        running,
        returned,
    } = read_under(rt, system, &mut pool, policy, expression);
    let journal = journal_text(alloc, system.journal(), Values::Shown)?;
    let (ends, children) = (held.ends, held.children);
    match returned {
        Ok(text) => format!(in alloc; "{text:?}\n{journal}{ends} {children} {running}\n"),
        Err(error) => format!(in alloc; "{error}\n{journal}{ends} {children} {running}\n"),
    }
}

/// Reads a line under a policy, or under that and `ReadOnly`. Returns what came of it as text.
fn line_text<S: System + Drop>(
    rt: &impl Wait,
    alloc: Global,
    system: S,
    policy: Listed,
    creates: bool,
    words: &[String],
) -> io::Result<String>
    requires { (S.journal_view system).entries ≡ [] }
{
    let Ok(expression) = line(alloc, words) else {
        return Err(io::Error::from(ErrorKind::InvalidInput));
    };
    if creates {
        return Ok(read_text(rt, alloc, system, policy, &expression)?);
    }
    let policy = Both {
        first: ReadOnly,
        second: policy,
    };
    Ok(read_text(rt, alloc, system, policy, &expression)?)
}

/// Reads the line of these arguments, and writes what came of it.
pub fn read_line<R: Real + Wait, O: Write>(
    rt: &R,
    words: &[String],
    out: &mut O,
) -> io::Result<()> {
    let [
        programs,
        folders,
        ends,
        children,
        at_once,
        creates,
        words @ ..,
    ] = words
    else {
        return Err(io::Error::from(ErrorKind::InvalidInput));
    };
    let lists = [programs.as_str(), folders.as_str()];
    let limits = [ends.as_str(), children.as_str(), at_once.as_str()];
    let policy = listed(rt.alloc(), lists, limits)?;
    let host = Host::new(rt.clone()?, rt.alloc());
    let creates = creates.as_str() == "yes";
    let text = line_text(rt, rt.alloc(), host, policy, creates, words)?;
    out.write_all(text.as_bytes())
}
