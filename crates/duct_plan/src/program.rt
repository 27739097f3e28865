//! What a line of words will request, and what `trace plan` prints of that.
ghost use Rattle.std.specs.Prelude.{◌≡◌, ◌≤◌, ℕ, List, map, string_bytes, IfErr, IfOk, IsOk, OnOk};
ghost use Rattle.std.specs.Io.KnownBytes.{Appends};
ghost use Rattle.duct_program.specs.Parsed.{RefusesAs};
ghost use Rattle.duct_program.specs.declared.usage.Usage.{Usage};
ghost use Rattle.duct_plan.specs.Previewed.{IsPreview, IsPrinted, asked_of, line_of, usage_line};

use crate::dot::PlanDot;
use crate::requests::plan_of_reader;
use crate::text::PlanText;
use duct::Expression;
use duct_program::{NoHook, Program, Usage, line};
use std::alloc::Global;
use std::io::Write;

const PROGRAM: Program = Program {
    no_memory: "plan: out of memory\n",
    failed: 1,
};

/// The type of a line's ends of the caller, of which it has none.
#[derive(Drop)]
pub struct NoEnd;

/// Returns what `host` will request of the system for these arguments, as text: a line for each
/// request of the start of their expression, as `PlanText` has it. Nothing is requested and nothing
/// runs. Fails with the first error in the arguments, from left to right, and with `Usage::Memory`
/// at an allocation failure.
pub fn preview(alloc: Global, args: &[String]) -> Result<String, Usage>
    ensures text { IfOk result
        (λ text. IsPreview (line_of (map string_bytes args.now)) (string_bytes text)) }
    ensures usage { IfErr result
        (λ usage. RefusesAs usage (line_of (map string_bytes args.now))) }
{
    let expression: Expression<NoEnd, NoHook> = line(alloc, args)?;
    Ok(PlanText(&plan_of_reader(alloc, &expression)?).to_string(alloc)?)
}

/// Returns what `host` will request of the system for these arguments, as a graph in the DOT
/// language: that of the start of their expression, as `PlanDot` has it. Nothing is requested and
/// nothing runs. Fails as `preview` does.
pub fn drawing(alloc: Global, args: &[String]) -> Result<String, Usage>
    ensures known { OnOk result (IsOk (line_of (map string_bytes args.now))) }
    ensures usage { IfErr result
        (λ usage. RefusesAs usage (line_of (map string_bytes args.now))) }
{
    let expression: Expression<NoEnd, NoHook> = line(alloc, args)?;
    Ok(PlanDot(&plan_of_reader(alloc, &expression)?).to_string(alloc)?)
}

/// Does the work of `trace plan` and returns its exit status. What the arguments' start requests is
/// written to `out`, and the status is 0: as `preview` has it or, where the first argument is
/// `--dot`, as `drawing` has it for the arguments after that. An error in the arguments is written
/// to `err` with `plan: ` before it and a newline after it, and the status is 2; at an allocation
/// failure it is `plan: out of memory`, and the status is 1. The status is also 1 where the write
/// fails; a part of the text may then be written. It blocks as the writers do.
pub fn print<O: Write, E: Write>(alloc: Global, args: &[String], out: &mut O, err: &mut E) -> u8
    ensures text { result ≡ 0 → (text : List ℕ)
        × IsPrinted (asked_of (map string_bytes args.now)) text
        × Appends (O.contents out.old) (O.contents out.new) text × (err.new ≡ err.old) }
    ensures usage { result ≡ 2 → (usage : Usage)
        × RefusesAs usage (line_of (asked_of (map string_bytes args.now)).1)
        × Appends (E.contents err.old) (E.contents err.new) (usage_line usage)
        × (out.new ≡ out.old) }
    ensures status { result ≤ 2 }
{
    let printed = match args.split_first() {
        Some((first, words)) if first.as_str() == "--dot" => drawing(alloc, words),
        _ => preview(alloc, args),
    };
    match printed {
        Ok(text) => PROGRAM.tell(out, 0, text.as_str()),
        Err(Usage::Memory) => PROGRAM.tell(err, 1, PROGRAM.no_memory),
        Err(usage) => PROGRAM.tell_made(err, 2, format!(in alloc; "plan: {usage}\n")),
    }
}
