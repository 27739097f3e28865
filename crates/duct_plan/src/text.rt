//! The text of a plan: a line for each request, with its place.
ghost use Rattle.std.specs.Prelude.{◌≡◌, codes, map, string_bytes};
ghost use Rattle.std.specs.Fmt.{DisplaysOnOk};
ghost use Rattle.duct_system.specs.SpecView.{var_view};
ghost use Rattle.duct_status.specs.Form.{each_form, printed};
ghost use Rattle.duct_plan.specs.PlanView.{change_of, found_of, item_of, plan_view, target_of};
ghost use Rattle.duct_plan.specs.PlanForm.{change_form, command_form, hooks_form, item_form, line_form, of_variable, parents_text, plan_text, program_form, spawn_form, stream_form};

use crate::items::{Item, Plan, Surroundings, Target, VariableChange};
use crate::requests::{is_canonical, program_of};
use duct::Stream;
use duct_base::names::EnvNameString;
use duct_base::text::{write_arguments, write_folder};
use std::collections::btree_map::Iter;
use std::fmt::{self, Formatter, Write};

/// A plan as text: a line for each request, with its place, as in `3 open of "f"` or
/// `4 spawn of "sort" "-u", stdin file 3, stdout pipe 1, stderr inherited`. A pipe, a file or a
/// worker's pipe stands there by the place of the request that opens it. A program whose canonical
/// path is requested first stands there as `?`. Changes of variables stand behind the folder, the
/// nearest first. The text is promised where all texts of the plan are printable ASCII.
#[derive(Drop)]
pub struct PlanText<'a, 't, E, H>(pub &'a Plan<'t, E, H>);

impl<E, H> fmt::Display for PlanText<'_, '_, E, H> {
    ghost output = { λ text. plan_text (plan_view text.0.now) };

    fn fmt<W: Write>(&self, f: &mut Formatter<W>) -> fmt::Result {
        for (place, item) in self.0.items.iter().enumerate() {
            item.write_line(place, f)?;
        }
        Ok(())
    }
}

impl<E, H> Item<'_, E, H> {
    // Writes the line of the request, which has this place.
    fn write_line<W: Write>(&self, place: usize, f: &mut Formatter<W>) -> fmt::Result
        ensures { DisplaysOnOk W.write_str_gives f.old result
            (printed (line_form place (item_of self.now))) f.new }
    {
        write!(f, "{place} ")?;
        self.write_request(f)?;
        f.write_str("\n")
    }

    // Writes the request.
    #[tactic(auto, unfolding(crate::specs::PlanForm::item_form))]
    fn write_request<W: Write>(&self, f: &mut Formatter<W>) -> fmt::Result
        ensures { DisplaysOnOk W.write_str_gives f.old result
            (printed (item_form (item_of self.now))) f.new }
    {
        match self {
            Item::Environment => f.write_str("environment"),
            Item::Pipe => f.write_str("pipe"),
            Item::OpenRead(path) => write!(f, "open of {path:?}"),
            Item::Create(path) => write!(f, "create of {path:?}"),
            Item::Canonicalize(program) => write!(f, "canonical path of {program:?}"),
            Item::Spawn(found, words) => found.write_spawn(words, f),
            Item::Feed(place, _) => write!(f, "input worker of pipe {place}"),
            Item::Drain(place) => write!(f, "capture worker of pipe {place}"),
            Item::Reader(place) => write!(f, "reader of pipe {place}"),
        }
    }
}

impl<E, H> Surroundings<'_, E, H> {
    // Writes the spawn of a command that finds this.
    #[tactic(auto, unfolding(crate::specs::PlanForm::spawn_form))]
    fn write_spawn<W: Write>(&self, words: &[String], f: &mut Formatter<W>) -> fmt::Result
        ensures { DisplaysOnOk W.write_str_gives f.old result
            (printed (spawn_form (found_of self.now) (map string_bytes words.now))) f.new }
    {
        f.write_str("spawn of ")?;
        self.write_command(words, f)?;
        write_stream(", stdin ", Stream::In, self.input, f)?;
        write_stream(", stdout ", Stream::Out, self.output, f)?;
        write_stream(", stderr ", Stream::Err, self.error, f)?;
        write_hooks(self.hooks.as_slice(), f)
    }

    // Writes what is started: a program, its arguments, its folder and the changes of its
    // variables.
    #[tactic(auto, unfolding(crate::specs::PlanForm::command_form))]
    fn write_command<W: Write>(&self, words: &[String], f: &mut Formatter<W>) -> fmt::Result
        ensures { DisplaysOnOk W.write_str_gives f.old result
            (printed (command_form (found_of self.now) (map string_bytes words.now))) f.new }
    {
        self.write_program(words, f)?;
        write_arguments(words.get(1..).unwrap_or(&[]), f)?;
        write_folder(self.folder, f)?;
        write_changes(self.changes.as_slice(), f)
    }

    // Writes a program, or a question mark where its canonical path is requested first.
    #[tactic(auto, unfolding(crate::specs::PlanForm::program_form))]
    fn write_program<W: Write>(&self, words: &[String], f: &mut Formatter<W>) -> fmt::Result
        ensures { DisplaysOnOk W.write_str_gives f.old result
            (printed (program_form (found_of self.now) (map string_bytes words.now))) f.new }
    {
        if is_canonical(self, words) {
            return f.write_str("?");
        }
        write!(f, "{:?}", program_of(words))
    }
}

// Writes changes of the variables, the nearest first.
fn write_changes<W: Write>(changes: &[VariableChange<'_>], f: &mut Formatter<W>) -> fmt::Result
    ensures { DisplaysOnOk W.write_str_gives f.old result
        (printed (each_form change_form (map change_of changes.now))) f.new }
{
    let Some((change, further)) = changes.split_first() else {
        return Ok(());
    };
    write_change(*change, f)?;
    write_changes(further, f)
}

// Writes a change of the variables.
fn write_change<W: Write>(change: VariableChange<'_>, f: &mut Formatter<W>) -> fmt::Result
    ensures { DisplaysOnOk W.write_str_gives f.old result
        (printed (change_form (change_of change.entry))) f.new }
{
    match change {
        VariableChange::Sets(name, value) => write!(f, " with {name:?}={value:?}"),
        VariableChange::Removes(name) => write!(f, " without {name:?}"),
        VariableChange::Replaces(vars) => {
            f.write_str(" with only")?;
            write_variables(vars.iter(), f)
        }
    }
}

// Writes the remaining variables, with a space before each.
fn write_variables<W: Write>(
    mut rest: Iter<'_, EnvNameString, String>,
    f: &mut Formatter<W>,
) -> fmt::Result
    ensures { DisplaysOnOk W.write_str_gives f.old result
        (printed (each_form (of_variable (codes " ")) (map var_view rest.entry))) f.new }
{
    let Some((name, value)) = rest.next() else {
        return Ok(());
    };
    write!(f, " {name:?}={value:?}")?;
    write_variables(rest, f)
}

// Writes a stream, by its name, and where it goes.
#[tactic(auto, unfolding(crate::specs::PlanForm::stream_form))]
fn write_stream<E, W: Write>(
    name: &str,
    stream: Stream,
    target: Target<'_, E>,
    f: &mut Formatter<W>,
) -> fmt::Result
    ensures { DisplaysOnOk W.write_str_gives f.old result
        (printed (stream_form name.now stream (target_of target.entry))) f.new }
{
    f.write_str(name)?;
    match target {
        Target::Parents(parents) => f.write_str(parents_text(stream, parents)),
        Target::Nothing => f.write_str("nothing"),
        Target::ReaderAt(place) | Target::WriterAt(place) => write!(f, "pipe {place}"),
        Target::FileAt(place) => write!(f, "file {place}"),
        Target::Lends(_) => f.write_str("an end of the caller"),
    }
}

// Returns where a stream goes that goes to this stream of the parent.
fn parents_text(stream: Stream, parents: Stream) -> &'static str
    ensures { result.now ≡ parents_text stream parents }
{
    match (stream, parents) {
        (_, Stream::In) | (Stream::Out, Stream::Out) | (Stream::Err, Stream::Err) => "inherited",
        (Stream::In | Stream::Err, Stream::Out) => "the parent's stdout",
        (Stream::In | Stream::Out, Stream::Err) => "the parent's stderr",
    }
}

// Writes how many hooks may change the command, if any.
fn write_hooks<A, W: Write>(hooks: &[A], f: &mut Formatter<W>) -> fmt::Result
    ensures { DisplaysOnOk W.write_str_gives f.old result (printed (hooks_form hooks.now)) f.new }
{
    match hooks.len() {
        0 => Ok(()),
        count => write!(f, ", hooks {count}"),
    }
}
