//! What the machine gave for a path, with that path.
ghost use Rattle.std.specs.Prelude.{◌≡◌, true, IfOk, string_bytes};
ghost use Rattle.std.specs.Fs.{new_options, with_read, with_write, with_create, with_truncate};

use crate::fault::{ask, no_memory};
use duct_base::system::Fault;
use std::alloc::Global;
use std::fs::{File, OpenOptions};
use std::os::fd::OwnedFd;
use std::rt::Files;
use std::snapshot::Snapshot;

/// A file that was opened. Contracts see by which path, and how.
#[derive(Drop)]
pub(crate) struct Opened {
    fd: OwnedFd,
    pub path: Snapshot<String>,
    pub how: Snapshot<OpenOptions>,
}

/// Opens a file for reading.
pub(crate) fn open_to_read<R: Files<File = File>>(rt: &R, path: &String) -> Result<Opened, Fault>
    ensures path { IfOk result (λ file. file.path.value ≡ path.now) }
    ensures how { IfOk result (λ file. file.how.value ≡ with_read new_options true) }
{
    let mut how = OpenOptions::new();
    how.read(true);
    open(rt, &how, path)
}

/// Opens a file for writing. The file is created, or truncated if it exists.
pub(crate) fn open_to_write<R: Files<File = File>>(rt: &R, path: &String) -> Result<Opened, Fault>
    ensures path { IfOk result (λ file. file.path.value ≡ path.now) }
    ensures how { IfOk result (λ file. file.how.value
        ≡ with_truncate (with_create (with_write new_options true) true) true) }
{
    let mut how = OpenOptions::new();
    how.write(true).create(true).truncate(true);
    open(rt, &how, path)
}

/// Opens a file. A call that a signal interrupts is made again.
fn open<R: Files<File = File>>(rt: &R, how: &OpenOptions, path: &String) -> Result<Opened, Fault>
    ensures path { IfOk result (λ file. file.path.value ≡ path.now) }
    ensures how { IfOk result (λ file. file.how.value ≡ how.now) }
{
    let file = ask(|| how.open(rt, path.as_str()))?;
    Ok(Opened {
        fd: OwnedFd::from(file),
        path: Snapshot::of(path),
        how: Snapshot::of(how),
    })
}

/// The descriptor of a file that was opened by the path that the journal notes.
pub(crate) fn descriptor_of(opened: Result<Opened, Fault>, noted: &String) -> Result<OwnedFd, Fault>
    requires { IfOk opened (λ file. file.path.value ≡ noted.now) }
{
    Ok(opened?.fd)
}

/// The canonical name of a path, twice. Contracts see of which path.
#[derive(Drop)]
pub(crate) struct Canonical {
    text: String,
    copy: String,
    pub path: Snapshot<String>,
    ghost same: { string_bytes copy ≡ string_bytes text },
}

/// The canonical name of a path, and a copy of it for the journal.
pub(crate) fn canonical_twice<R: Files>(
    rt: &R,
    alloc: Global,
    path: &String,
) -> Result<Canonical, Fault>
    ensures { IfOk result (λ names. names.path.value ≡ path.now) }
{
    let text = ask(|| rt.canonicalize(alloc, path.as_str()))?.into_string();
    let Ok(copy) = String::from_str(alloc, text.as_str()) else {
        return Err(no_memory());
    };
    Ok(Canonical {
        text,
        copy,
        path: Snapshot::of(path),
    })
}

/// The two names of a path that the journal notes.
pub(crate) fn names_of(
    found: Result<Canonical, Fault>,
    noted: &String,
) -> Result<(String, String), Fault>
    requires { IfOk found (λ names. names.path.value ≡ noted.now) }
    ensures { IfOk result (λ texts. string_bytes texts.1 ≡ string_bytes texts.0) }
{
    let Canonical { text, copy, .. } = found?;
    Ok((text, copy))
}
