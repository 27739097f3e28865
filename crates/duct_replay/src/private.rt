//! A file that its owner alone may read.
ghost use Rattle.std.specs.Prelude.{◌≡◌, IfOk};

use std::fs::{OpenFile, OpenOptions, Permissions};
use std::io;
use std::os::unix::fs::{OpenOptionsExt, PermissionsExt};
use std::rt::Files;
use std::snapshot::Snapshot;

/// A file that `private_file` opened. Contracts see by which path, and with which mode.
#[derive(Drop)]
pub struct PrivateFile<'a, F> {
    pub file: F,
    pub path: Snapshot<&'a str>,
    pub mode: Snapshot<u32>,
}

/// Makes a file for what others must not read, as a recording, or empties it if it is there. If it
/// is a regular file, it is then its owner's alone (mode 0600). Fails, with what was there
/// unchanged, if the file can't be written.
///
/// Example: `private_file(rt, path)?.file.write_all(text.as_bytes())?`
pub fn private_file<'a, R: Files>(rt: &R, path: &'a str) -> io::Result<PrivateFile<'a, R::File>>
    ensures path { IfOk result (λ opened. opened.path.value.now ≡ path.now) }
    ensures mode { IfOk result (λ opened. opened.mode.value ≡ 0o600) }
{
    open(rt, path, 0o600)
}

// Makes or empties the file at this path, and gives it this mode if it is a regular file.
fn open<'a, R: Files>(rt: &R, path: &'a str, mode: u32) -> io::Result<PrivateFile<'a, R::File>>
    ensures path { IfOk result (λ opened. opened.path.value.now ≡ path.now) }
    ensures mode { IfOk result (λ opened. opened.mode.value ≡ mode) }
{
    let mut options = OpenOptions::new();
    let file = options.write(true).create(true).mode(mode).open(rt, path)?;
    if file.metadata()?.is_file() {
        file.set_permissions(Permissions::from_mode(mode))?;
        file.set_len(0)?;
    }
    let (path, mode) = (Snapshot::of(&path), Snapshot::of(&mode));
    Ok(PrivateFile { file, path, mode })
}
