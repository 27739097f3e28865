//! Files that grow.
ghost use Rattle.std.specs.Fs.{new_options, with_append, with_create};
ghost use Rattle.std.specs.Prelude.{◌≡◌, ◌+◌, true, IfOk, OnErr};

use crate::failure::Failure;
use crate::shell::Shell;
use duct_host::{End, Host, Parents};
use std::fs::{File, OpenOptions};
use std::io;
use std::process::Processes;
use std::rt::{Env, Files};
use std::snapshot::Snapshot;
use std::thread::Threads;

impl<'r, R: Processes + Files<File = File> + Env + Parents + Threads, H> Shell<
    Host<&'r R>,
    &'r R,
    H,
> {
    /// Opens a file for appending, as `>>` of a shell does, and returns it as an end for
    /// `stdout_file` or `stderr_file`. What a command writes comes behind all that the file has
    /// then. The file is created if it isn't there. The journal gets no entry.
    ///
    /// Fails with std's error and the path, and with kind `Other` where no number is left; nothing
    /// is then open. It blocks at a FIFO until that has a reader.
    ///
    /// Example: `let log = sh.append("log")?;`, and then `sh.run(&command.stdout_file(log)?)?`
    pub fn append(&mut self, path: &str) -> Result<End, Failure>
        ensures ok { IfOk result (λ end. (end ≡ self.old.system.next)
            × (self.new.system ≡ record self.old.system { next = self.old.system.next + 1 })) }
        ensures err { OnErr result (self.new.system ≡ self.old.system) }
        ensures stays { self.new ≡ record self.old { system = self.new.system } }
    {
        let mut how = OpenOptions::new();
        how.append(true).create(true);
        match file_at(open(self.rt, &how, path), path) {
            Ok(file) => Ok(self.system.adopt_file(file)?),
            Err(error) => Err(Failure::at(self.alloc, path, error)),
        }
    }
}

// A file that was opened. Contracts see by which path.
type Opened<'a> = io::Result<(File, Snapshot<&'a str>)>;

// Opens a file for appending.
fn open<'a, R: Files<File = File>>(rt: &R, how: &OpenOptions, path: &'a str) -> Opened<'a>
    requires { how.now ≡ with_create (with_append new_options true) true }
    ensures { IfOk result (λ opened. opened.1.value.now ≡ path.now) }
{
    Ok((how.open(rt, path)?, Snapshot::of(&path)))
}

// Returns the file that was opened by this path.
fn file_at(opened: Opened<'_>, path: &str) -> io::Result<File>
    requires { IfOk opened (λ opened. opened.1.value.now ≡ path.now) }
{
    Ok(opened?.0)
}
