//! The names of programs.
ghost use Rattle.std.specs.Prelude.{◌≡◌, ℕ, List, IfOk, IsOkUnless, string_bytes};
ghost use Rattle.std.specs.Path.{path_bytes, path_buf_bytes};
ghost use Rattle.duct_base.specs.Executable.{begins_with_slash, dotted, asks_canonical};

use duct_system::error::Error;
use std::alloc::Global;
use std::path::{Path, PathBuf};

/// A name of a program. A text is used unchanged. A path that doesn't begin with `/` gets the
/// prefix `./`, so that a file of the current folder is started and not one that the system finds
/// elsewhere.
pub trait IntoExecutablePath {
    /// The program as a text.
    ghost executable: { Self → List ℕ };

    /// Returns the program as a text. Fails only with `Error::Memory`, at an allocation failure;
    /// the name that was passed in is then dropped.
    fn to_executable(self, alloc: Global) -> Result<String, Error>
        ensures text { IfOk result (λ text. string_bytes text ≡ executable self) }
        ensures memory { IsOkUnless result Error.Memory };
}

impl IntoExecutablePath for &str {
    ghost executable = { λ text. text.now };

    fn to_executable(self, alloc: Global) -> Result<String, Error> {
        Ok(String::from_str(alloc, self)?)
    }
}

impl IntoExecutablePath for String {
    ghost executable = { λ text. string_bytes text };

    fn to_executable(self, _alloc: Global) -> Result<String, Error> {
        Ok(self)
    }
}

impl IntoExecutablePath for &String {
    ghost executable = { λ text. string_bytes text.now };

    fn to_executable(self, alloc: Global) -> Result<String, Error> {
        Ok(String::from_str(alloc, self.as_str())?)
    }
}

impl IntoExecutablePath for Path<'_> {
    ghost executable = { λ path. dotted (path_bytes path) };

    fn to_executable(self, alloc: Global) -> Result<String, Error> {
        dot(alloc, self.as_os_str())
    }
}

impl IntoExecutablePath for PathBuf {
    ghost executable = { λ path. dotted (path_buf_bytes path) };

    fn to_executable(self, alloc: Global) -> Result<String, Error> {
        dot(alloc, self.as_str())
    }
}

impl IntoExecutablePath for &PathBuf {
    ghost executable = { λ path. dotted (path_buf_bytes path.now) };

    fn to_executable(self, alloc: Global) -> Result<String, Error> {
        self.as_path().to_executable(alloc)
    }
}

// Returns the path, with the prefix `./` if it doesn't begin with `/`.
fn dot(alloc: Global, path: &str) -> Result<String, Error>
    ensures text { IfOk result (λ text. string_bytes text ≡ dotted path.now) }
    ensures memory { IsOkUnless result Error.Memory }
{
    let mut text = String::new(alloc);
    if !begins_with_slash(path) {
        text.push_str("./")?;
    }
    text.push_str(path)?;
    Ok(text)
}

fn begins_with_slash(text: &str) -> bool
    ensures { result ≡ begins_with_slash text.now }
{
    matches!(text.as_bytes(), [b'/', ..])
}

/// Returns whether a start requests the canonical path of a program before it spawns it: a folder
/// is set, and the program has a `/`, but doesn't begin with it.
pub fn asks_canonical(program: &str, folder_is_set: bool) -> bool
    ensures { result ≡ asks_canonical program.now folder_is_set }
{
    folder_is_set && program.as_bytes().contains(&b'/') && !begins_with_slash(program)
}
