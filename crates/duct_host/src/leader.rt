//! The program that `setsid` is to run, which is looked up before `setsid` is started.
use crate::fault::{ask, no_memory};
use duct_base::spec::CommandSpec;
use duct_base::system::{Fault, Kind};
use std::alloc::{AllocError, Global};
use std::convert::AsStr;
use std::fs;
use std::os::unix::fs::PermissionsExt;
use std::rt::Files;

/// Where `execvp` looks in the place of a `PATH` that isn't set.
const NO_PATH: &str = "/bin:/usr/bin";

/// Fails where the second word of a spec names no program that can be run, as a start without the
/// first would: with `NotFound`, or `PermissionDenied` where one was found that can't be executed.
/// A word that begins with `-` is an option of `setsid`, and isn't looked up.
pub(crate) fn look_up<R: Files>(rt: &R, alloc: Global, spec: &CommandSpec) -> Result<(), Fault> {
    let Some(program) = spec.words().get(1) else {
        return Ok(());
    };
    let program = program.as_str();
    if program.starts_with('-') {
        return Ok(());
    }
    if program.contains('/') {
        return try_program(rt, alloc, spec, "", program);
    }
    let mut found = Fault::new(Kind::NotFound);
    let path = spec
        .iter_vars()
        .find(|variable| variable.0.as_str() == "PATH");
    for folder in path.map_or(NO_PATH, |variable| variable.1).split(':') {
        match try_program(rt, alloc, spec, folder, program) {
            Ok(()) => return Ok(()),
            Err(fault) if fault.kind == Kind::OutOfMemory => return Err(fault),
            Err(fault) if fault.kind == Kind::PermissionDenied => found = fault,
            Err(_) => {}
        }
    }
    Err(found)
}

/// Fails where there is no file in this folder, seen from that of the spec, that can be executed.
fn try_program<R: Files>(
    rt: &R,
    alloc: Global,
    spec: &CommandSpec,
    folder: &str,
    name: &str,
) -> Result<(), Fault> {
    let Ok(path) = path_of(alloc, spec.folder(), folder, name) else {
        return Err(no_memory());
    };
    let file = ask(|| fs::metadata(rt, path.as_str()))?;
    if file.is_file() && file.permissions().mode() & 0o111 != 0 {
        Ok(())
    } else {
        Err(Fault::new(Kind::PermissionDenied))
    }
}

/// The path of a name in a folder, which may be seen from another folder.
fn path_of(
    alloc: Global,
    from: Option<&str>,
    folder: &str,
    name: &str,
) -> Result<String, AllocError> {
    let path = if folder.is_empty() {
        String::from_str(alloc, name)?
    } else {
        format!(in alloc; "{folder}/{name}")?
    };
    match from {
        Some(from) if !path.starts_with('/') => format!(in alloc; "{from}/{path}"),
        Some(_) | None => Ok(path),
    }
}
