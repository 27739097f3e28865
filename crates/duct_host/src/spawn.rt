//! From the spec of a command to a process.
ghost use Rattle.std.specs.Prelude.{◌≡◌, ◌⊎◌, [], ◌∷◌, ◌++◌, map, string_bytes, IfOk, IfErr, OnOk};
ghost use Rattle.std.specs.Process.{command_program, command_args, command_dir, SameProgramAndArgs, SameEnv, SameDir};
ghost use Rattle.duct_system.specs.declared.system.Kind.TheVariants.{InvalidInput, OutOfMemory};
ghost use Rattle.duct_host.specs.Commands.{IsCommandOf};
ghost use Rattle.duct_host.specs.Variables.{IsWholeEnvironment, Sets};

use crate::end::End;
use crate::fault::{ask, no_memory};
use crate::standard::Standard;
use crate::started::{Started, start_command};
use duct_base::spec::CommandSpec;
use duct_base::system::{Fault, Kind, Numbered, Stdio};
use std::alloc::{AllocError, Global};
use std::fs::File;
use std::process;
use std::process::{Command, Processes};

/// Starts a process by a spec, with these streams in the order stdin, stdout, stderr. Each end
/// among the streams is closed here, also where the start fails.
pub(crate) fn start<R: Processes>(
    rt: &R,
    alloc: Global,
    spec: &CommandSpec,
    streams: [process::Stdio; 3],
) -> Result<Started<R::Started>, Fault>
    ensures { IfOk result (λ started. IsCommandOf spec.now started.command.value) }
{
    let command = command_of(alloc, spec)?;
    start_command(rt, &command, &streams)
}

/// The command of a spec, with the spec's variables for its whole environment. Fails with
/// `InvalidInput` for a spec without words.
fn command_of(alloc: Global, spec: &CommandSpec) -> Result<Command, Fault>
    ensures words { IfOk result (λ c. command_program c ∷ command_args c ≡ spec.now.words) }
    ensures folder { IfOk result (λ c. command_dir c ≡ spec.now.folder) }
    ensures vars { IfOk result (IsWholeEnvironment spec.now.vars) }
    ensures empty { spec.now.words ≡ [] → IfErr result (λ fault. fault.kind ≡ InvalidInput) }
    ensures memory { IfErr result
        (λ fault. (fault.kind ≡ OutOfMemory) ⊎ (spec.now.words ≡ [])) }
{
    let Some((program, arguments)) = spec.words().split_first() else {
        return Err(Fault::new(Kind::InvalidInput));
    };
    match command_with(alloc, spec, program.as_str(), arguments) {
        Ok(command) => Ok(command),
        Err(_) => Err(no_memory()),
    }
}

/// The command of a spec whose words are these.
fn command_with(
    alloc: Global,
    spec: &CommandSpec,
    program: &str,
    arguments: &[String],
) -> Result<Command, AllocError>
    ensures words { IfOk result
        (λ c. command_program c ∷ command_args c ≡ program.now ∷ map string_bytes arguments.now) }
    ensures folder { IfOk result (λ c. command_dir c ≡ spec.now.folder) }
    ensures vars { IfOk result (IsWholeEnvironment spec.now.vars) }
{
    let mut command = Command::new(alloc, program)?;
    add_arguments(&mut command, arguments)?;
    set_variables(&mut command, spec)?;
    set_folder(&mut command, spec)?;
    Ok(command)
}

/// Adds arguments after those that the command has.
fn add_arguments(command: &mut Command, arguments: &[String]) -> Result<(), AllocError>
    ensures arguments { OnOk result
        (command_args command.new ≡ command_args command.old ++ map string_bytes arguments.now) }
    ensures program { OnOk result (command_program command.new ≡ command_program command.old) }
    ensures folder { OnOk result (SameDir command.old command.new) }
{
    for argument in arguments {
        command.arg(argument.as_str())?;
    }
    Ok(())
}

/// Makes the spec's variables the whole environment of the command.
fn set_variables(command: &mut Command, spec: &CommandSpec) -> Result<(), AllocError>
    ensures vars { OnOk result (IsWholeEnvironment spec.now.vars command.new) }
    ensures call { OnOk result (SameProgramAndArgs command.old command.new) }
    ensures folder { OnOk result (SameDir command.old command.new) }
{
    command.env_clear();
    let Ok(variables) = spec.vars() else {
        return Err(AllocError);
    };
    set_each(command, variables.as_slice())
}

/// Sets variables in their order, where the command has none.
fn set_each(command: &mut Command, variables: &[(&str, &str)]) -> Result<(), AllocError>
    requires { IsWholeEnvironment [] command.old }
    ensures vars { OnOk result
        (IsWholeEnvironment (map (λ p. (p.0.now, p.1.now)) variables.now) command.new) }
    ensures call { OnOk result (SameProgramAndArgs command.old command.new) }
    ensures folder { OnOk result (SameDir command.old command.new) }
{
    for variable in variables {
        set_variable(command, variable.0, variable.1)?;
    }
    Ok(())
}

/// Sets a variable besides those that the command has.
fn set_variable(command: &mut Command, name: &str, value: &str) -> Result<(), AllocError>
    ensures vars { OnOk result (Sets name.now value.now command.old command.new) }
    ensures call { OnOk result (SameProgramAndArgs command.old command.new) }
    ensures folder { OnOk result (SameDir command.old command.new) }
{
    command.env(name, value)?;
    Ok(())
}

/// Has the command start in the spec's folder, if it has one.
fn set_folder(command: &mut Command, spec: &CommandSpec) -> Result<(), AllocError>
    requires { command_dir command.old ≡ None }
    ensures folder { OnOk result (command_dir command.new ≡ spec.now.folder) }
    ensures call { OnOk result (SameProgramAndArgs command.old command.new) }
    ensures env { OnOk result (SameEnv command.old command.new) }
{
    if let Some(folder) = spec.folder() {
        command.current_dir(folder)?;
    }
    Ok(())
}

/// Three streams as std takes them. Where this fails, each end among them is closed.
pub(crate) fn all_wired(
    streams: [Stdio<End>; 3],
    standard: &Standard,
) -> Result<[process::Stdio; 3], Fault> {
    let [input, output, error] = streams;
    let [no_input, no_output, no_error] = standard.filled();
    let input = wired(input, no_input);
    let output = wired(output, no_output);
    let error = wired(error, no_error);
    Ok([input?, output?, error?])
}

/// A stream as std takes it. Where the parent's was closed, what is open in its place is inherited,
/// by a descriptor that the child keeps.
fn wired(stream: Stdio<End>, filled: &Option<File>) -> Result<process::Stdio, Fault> {
    match stream {
        Stdio::Inherit => match filled {
            None => Ok(process::Stdio::inherit()),
            Some(file) => Ok(process::Stdio::from(ask(|| file.try_clone())?)),
        },
        Stdio::Null => Ok(process::Stdio::null()),
        Stdio::End(end) => Ok(process::Stdio::from(end.into_descriptor())),
    }
}
