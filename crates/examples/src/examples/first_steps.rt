//! The first steps, as README shows them.
use duct_host::HostClock;
use duct_shell::{
    Chain, ChainSettings, Clock, Expression, Failure, Output, Shell, System, Until, cmd, run,
};
use std::sync::Wait;
use std::test::Fail;
use std::time::Duration;

/// Returns what a pipeline prints to each stream, and why another command fails.
fn piped<S: System, R: Wait>(
    sh: &mut Shell<S, R>,
) -> Result<(Output, Result<Output, Failure>), Failure> {
    let hello = cmd!(sh; "sh", "-c", "echo hello; echo careful >&2");
    let loud = hello.pipe(cmd!(sh; "tr", "a-z", "A-Z"));
    let output = sh.run(&loud.stdout_capture().stderr_capture()?)?; // stdout HELLO, stderr careful
    let failed = run!(sh; "sh", "-c", "exit 3"); // Err: it exited with code 3
    Ok((output, failed))
}

/// Returns what a command writes to a file.
fn filed<S: System, R: Wait>(sh: &mut Shell<S, R>, path: &str) -> Result<String, Failure> {
    let there = cmd!(sh; "sh", "-c", "echo $WHO; pwd; echo no >&2")
        .env("WHO", "me")
        .dir("/");
    sh.run(&there.stdout_path(path).stderr_null()?)?; // > path 2> /dev/null
    sh.read(&cmd!(sh; "cat").stdin_path(path)?) // cat < path
}

/// Runs a test, and returns whether it succeeds within a limit of time.
fn passes<S: System, R: Wait, C: Clock>(
    sh: &mut Shell<S, R>,
    clock: &C,
    test: &Expression<S::End>,
    limit: Duration,
) -> Result<bool, Failure> {
    match sh.run_for(clock, limit, Duration::from_secs(1), &test.unchecked()?)? {
        Until::Done(output) => Ok(output.status.success()),
        Until::Late(_) => Ok(false), // signal 15 ended it, or a kill a second later
    }
}

/// Returns what comes of these steps.
fn told<S: System, R: Wait, C: Clock>(sh: &mut Shell<S, R>, clock: &C) -> Result<String, Failure> {
    let (output, failed) = piped(sh)?;
    let filed = filed(sh, "filed")?;
    let test = sh.cmd("test", &["-e", "filed"])?;
    let passes = passes(sh, clock, &test, Duration::from_secs(60))?;
    Ok(format!(in sh.alloc; "{output:?}; {failed:?}; {filed}; {passes}")?)
}

#[test]
fn first_steps(rt: HostRuntime) -> Result<(), Fail> {
    let clock = HostClock::new(&rt)?;
    let told = told(&mut Shell::new(&rt), &clock)?;
    let wanted = "Output { status: Code(0), stdout: [72, 69, 76, 76, 79, 10], \
stderr: [99, 97, 114, 101, 102, 117, 108, 10] }; \
Err(command [\"sh\", \"-c\", \"exit 3\"] exited with code 3); me\n/; true";
    assert_eq!(rt; told.as_str(), wanted);
    Ok(())
}
