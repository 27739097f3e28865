//! A test of how each command of a run on the real machine ended. What is expected is what a shell
//! has: its array `PIPESTATUS`, and its option `pipefail`.
use duct::{ExitStatus, Expression, System};
use duct_shell::{Failure, Shell, cmd};
use std::sync::Wait;
use std::test::Fail;

/// Runs an expression. Returns the code of each command, and the check that the run passes, or why
/// it passes none.
fn told<S: System, R: Wait>(
    sh: &mut Shell<S, R>,
    expression: &Expression<S::End>,
) -> Result<String, Failure> {
    let ran = sh.run_captured(expression)?;
    let mut text = String::new(sh.alloc);
    for command in &ran.commands {
        write!(text, "{:?} ", command.status.and_then(ExitStatus::code))?;
    }
    if ran.output.status.success() {
        text.push_str("checked")?;
        return Ok(text);
    }
    match ran.checked_but_pipes(100) {
        Ok(_) => text.push_str("checked but pipes")?,
        Err(failed) => write!(text, "{failed}")?,
    }
    Ok(text)
}

#[test]
fn commands_of_the_machine_end(rt: HostRuntime) -> Result<(), Fail> {
    let mut sh = Shell::new(&rt);
    let (three, four) = (
        cmd!(sh; "sh", "-c", "exit 3")?,
        cmd!(sh; "sh", "-c", "exit 4")?,
    );
    let codes = three.pipe(&four)?.pipe(&cmd!(sh; "cat")?)?;
    let wanted = "Some(3) Some(4) Some(0) command [\"sh\", \"-c\", \"exit 3\"] exited with code 3
command [\"sh\", \"-c\", \"exit 4\"] exited with code 4";
    assert_eq!(rt; told(&mut sh, &codes)?.as_str(), wanted);
    let writes = cmd!(sh; "sh", "-c", "echo no >&2; exit 2")?.pipe(&cmd!(sh; "cat")?)?;
    let wanted =
        "Some(2) Some(0) command [\"sh\", \"-c\", \"echo no >&2; exit 2\"] exited with code 2
--- stderr
no";
    assert_eq!(rt; told(&mut sh, &writes)?.as_str(), wanted);
    let yes = cmd!(sh; "yes")?.pipe(&cmd!(sh; "head", "-1")?)?;
    assert_eq!(rt;
        told(&mut sh, &yes)?.as_str(),
        "None Some(0) checked but pipes"
    );
    Ok(())
}
