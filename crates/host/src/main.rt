//! The program `host`: reads the expression of its arguments over the real machine, prints its
//! text, and exits with its status.
#![tactic(auto)]

use duct_host::Host;
use duct_program::{Program, arguments, perform};
use std::io::Write;
use std::process::ExitCode;
use std::{env, io};

const PROGRAM: Program = Program {
    no_memory: "host: out of memory\n",
    failed: 1,
};

fn main(rt: HostRuntime) -> ExitCode {
    let (alloc, mut out, mut err) = (rt.alloc(), io::writer(&rt), rt.stderr());
    ExitCode::from(match env::args(&rt).and_then(|all| arguments(alloc, all)) {
        Ok(words) => {
            // Before the host, which opens `/dev/null` in place of a closed stream.
            let is_closed = out.write(&[]).is_err();
            let mut host = Host::new(&rt, alloc);
            let status = perform(&rt, alloc, &mut host, words.as_slice(), &mut out, &mut err);
            status.max(u8::from(is_closed))
        }
        Err(error) => PROGRAM.tell_error(&mut err, &error, 2, "host: argument is not UTF-8\n"),
    })
}
