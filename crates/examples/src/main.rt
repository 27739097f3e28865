//! Prints what `echo hi` prints.
#![tactic(auto)]

#[cfg(test)]
mod examples;

use duct_shell::{Failure, Shell, read};

fn main(rt: HostRuntime) -> Result<(), Failure> {
    let mut sh = Shell::new(&rt);
    let text = read!(sh; "echo", "hi")?;
    Ok(println!(rt; "{text}")?)
}
