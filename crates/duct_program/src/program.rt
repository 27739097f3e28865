//! What the program does over any system: it reads the expression of its arguments, and prints the
//! text or the error.
ghost use Rattle.std.specs.Prelude.{◌≡◌, ◌≢◌, ◌⊎◌, ◌≤◌, ℕ, List, map, string_bytes, IfOk, IfErr, IfSome};
ghost use Rattle.std.specs.Io.KnownBytes.{Appends};
ghost use Rattle.std.specs.declared.alloc.Global.{Global};
ghost use Rattle.std.specs.declared.string.String.{String};
ghost use Rattle.duct_program.specs.Answered.{IfRefused, IfUsage, PrintsError, PrintsText, WritesText, WritesUsage, line_of, AppendsFailure, PrintsFailure, failure_text, line_of_error, line_of_text};
ghost use Rattle.duct_program.specs.Parsed.{RefusesAs};
ghost use Rattle.duct_program.specs.declared.usage.Usage.{Usage};
ghost use Rattle.duct_program.specs.declared.usage.Usage.TheVariants.{Memory};
ghost use Rattle.duct_program.specs.declared.failure.Failure.TheVariants as failures;

use crate::expression::line;
use crate::failure::Failure;
use duct::{CommandSpec, Expression, Fault, Hook, Pool, System};
use duct_system::views::Viewed;
use std::alloc::{AllocError, Global};
use std::io;
use std::io::Write;
use std::sync::Wait;

/// Returns what the expression of these arguments prints to stdout, read as `Expression::read`
/// reads it; it blocks and fails as that does. Where the arguments are no valid line, or an
/// allocation fails while they are read, it fails with `Failure::Usage` and makes no request. The
/// children that a failed read leaves run on, and nothing waits for them.
pub fn answer<S: System, H: Hook + Drop>(
    rt: &impl Wait,
    alloc: Global,
    sys: &mut S,
    args: &[String],
) -> Result<String, Failure>
    ensures usage { IfUsage result (λ usage.
        RefusesAs usage (line_of S.End.number_of H.allows (map string_bytes args.now))
        × (S.journal_view sys.new ≡ S.journal_view sys.old)) }
    ensures text { IfOk result (PrintsText ⟦<S as Viewed>⟧.views H.allows S.may_read
        S.Reader.remaining (map string_bytes args.now) sys.old sys.new) }
    ensures err { IfErr result (λ failure. IfRefused failure (PrintsError ⟦<S as Viewed>⟧.views
        H.allows S.may_read S.Reader.remaining H.refuses (map string_bytes args.now) sys.old
        sys.new)) }
{
    let expression: Expression<S::End, H> = line(alloc, args).map_err(Failure::Usage)?;
    let mut pool = Pool::new(alloc);
    match expression.read(rt, sys, &mut pool) {
        Ok(text) => Ok(text),
        Err(error) => Err(Failure::Error(error)),
    }
}

/// The type of a line's hooks, of which it has none. Such a hook changes nothing.
#[derive(Drop)]
pub struct NoHook;

impl Hook for NoHook {
    ghost allows = { λ _ spec changed. changed ≡ spec };

    ghost refuses = { λ _ _ _. ⊥ };

    fn change(&self, _spec: &mut CommandSpec) -> Result<(), Fault> {
        Ok(())
    }
}

/// Does the program's work and returns its exit status. The text that is read is written to `out`
/// with a newline, and the status is 0. An error is written to `err` with `host: ` before it and a
/// newline after it, and the status is 2 where the arguments are no valid line, otherwise 1. It
/// blocks as `answer` does, and as the writers do.
///
/// The line is one piece, for one call of `write_all`. Where an allocation fails while it is made,
/// `host: out of memory` is the line, for `err`, and the status is 1. The status is also 1 where
/// the write fails; a part of the line may then be written.
pub fn perform<S: System, O: Write, E: Write>(
    rt: &impl Wait,
    alloc: Global,
    sys: &mut S,
    args: &[String],
    out: &mut O,
    err: &mut E,
) -> u8
    ensures text { result ≡ 0 → WritesText ⟦<S as Viewed>⟧.views ⟦<NoHook as Hook>⟧.allows
        S.may_read S.Reader.remaining O.contents (map string_bytes args.now) sys.old sys.new
        out.old out.new err.old err.new }
    ensures usage { result ≡ 2 → WritesUsage ⟦<S as Viewed>⟧.views ⟦<NoHook as Hook>⟧.allows
        S.may_read S.Reader.remaining E.contents (map string_bytes args.now) sys.old sys.new
        out.old out.new err.old err.new }
    ensures status { result ≤ 2 }
    ensures one { (out.new ≡ out.old) ⊎ (err.new ≡ err.old) }
{
    match answer::<S, NoHook>(rt, alloc, sys, args) {
        Ok(text) => print_text(text, out, err).unwrap_or(1),
        Err(failure) => print_failure(alloc, &failure, err).unwrap_or(1),
    }
}

// Writes the line of a text, and returns the status 0. Where no memory is left for its newline,
// writes that to `err`, and returns the status 1. Fails where the write fails.
fn print_text<O: Write, E: Write>(text: String, out: &mut O, err: &mut E) -> io::Result<u8>
    ensures text { IfOk result (λ status. status ≡ 0
        → Appends (O.contents out.old) (O.contents out.new) (line_of_text (string_bytes text))
        × (err.new ≡ err.old)) }
    ensures memory { IfOk result (λ status. status ≢ 0 → (status ≡ 1)
        × AppendsFailure (failures.Usage Memory) (E.contents err.old) (E.contents err.new)
        × (out.new ≡ out.old)) }
    ensures one { (out.new ≡ out.old) ⊎ (err.new ≡ err.old) }
{
    let mut line = text;
    if line.push('\n').is_err() {
        return print_no_memory(err);
    }
    out.write_all(line.as_bytes())?;
    Ok(0)
}

// Writes the line of a failure, and returns its status. Where no memory is left for the line,
// writes that, and returns the status 1. Fails where the write fails.
fn print_failure<E: Write>(alloc: Global, failure: &Failure, err: &mut E) -> io::Result<u8>
    ensures { IfOk result (λ status. PrintsFailure failure.now status (E.contents err.old)
        (E.contents err.new)) }
{
    let Ok(line) = error_line(alloc, failure) else {
        return print_no_memory(err);
    };
    err.write_all(line.as_bytes())?;
    Ok(failure.status())
}

// Returns the line of a failure.
fn error_line(alloc: Global, failure: &Failure) -> Result<String, AllocError>
    ensures { IfOk result (λ line. (text : List ℕ)
        × IfSome (failure_text failure.now) (λ known. text ≡ known)
        × (string_bytes line ≡ line_of_error text)) }
{
    let text = failure.to_string(alloc)?;
    format!(in alloc; "host: {text}\n")
}

// Writes that no memory is left, and returns the status 1. Fails where the write fails.
fn print_no_memory<E: Write>(err: &mut E) -> io::Result<u8>
    ensures { IfOk result (λ status. (status ≡ 1) × AppendsFailure (failures.Usage Memory)
        (E.contents err.old) (E.contents err.new)) }
{
    err.write_all(b"host: out of memory\n")?;
    Ok(1)
}
