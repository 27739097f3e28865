//! The real machine as tables see it: its runtime, and the file descriptors and children of this
//! process.
use duct_host::Parents;
use std::fs::File;
use std::io::ErrorKind;
use std::process::Processes;
use std::rt::{Clock, Env, Files};
use std::thread::Threads;
use std::{env, fs, io};

/// A runtime with the processes, the files and the environment that a host uses.
pub trait Platform: Processes + Files<File = File> + Env + Parents {}

impl<R: Processes + Files<File = File> + Env + Parents> Platform for R {}

/// A runtime with everything that a host and its tables use.
pub trait Real: Platform + Threads + Clock + AllocGlobal + Clone + Drop {}

impl<R: Platform + Threads + Clock + AllocGlobal + Clone + Drop> Real for R {}

/// Returns how many file descriptors are open, and how many children every thread has, including
/// those that have ended and are not reaped yet. Counting itself needs a file descriptor, and never
/// two at a time. Fails if `/proc` can't be read, or on an allocation failure.
pub fn count_left<R: Files + AllocGlobal + Clone>(rt: &R) -> io::Result<(usize, usize)> {
    let mut descriptors = 0_usize;
    for entry in fs::read_dir(rt, "/proc/self/fd")? {
        entry?;
        descriptors = descriptors.saturating_add(1);
    }
    let mut threads = Vec::new(rt.alloc());
    for thread in fs::read_dir(rt, "/proc/self/task")? {
        threads.push(thread?)?;
    }
    let mut children = 0_usize;
    for thread in threads {
        children = children.saturating_add(children_of(rt, thread.file_name())?);
    }
    Ok((descriptors, children))
}

/// How many children a thread has started, or 0 if the thread has ended, because its children then
/// belong to another thread.
fn children_of<R: Files + AllocGlobal>(rt: &R, thread: &str) -> io::Result<usize> {
    let path = format!(in rt.alloc(); "/proc/self/task/{thread}/children")?;
    match fs::read_to_string(rt, path.as_str()) {
        Ok(text) => Ok(text.split_whitespace().count()),
        Err(error) if error.kind() == ErrorKind::NotFound => Ok(0),
        Err(error) => Err(error),
    }
}

/// Returns the text of a file of rows for this process: `{place}` and `{nul}` in it are replaced
/// (`docs/ROWS.md`). Fails if the folder for temporary files or the id of the process can't be
/// determined, or on an allocation failure.
pub fn filled<R: Files + Env + AllocGlobal>(rt: &R, text: &str) -> io::Result<String> {
    let alloc = rt.alloc();
    let folder = env::temp_dir(rt)?.into_string();
    let process = fs::canonicalize(rt, "/proc/self")?.into_string();
    let (_, id) = process.as_str().rsplit_once('/').unwrap_or(("", ""));
    let place = format!(in alloc; "{folder}/duct_host-{id}-")?;
    let text = text.replace(alloc, "{place}", place.as_str())?;
    Ok(text.replace(alloc, "{nul}", "\0")?)
}
