//! Starts a command: makes the reservation of its child, asks for the canonical path of its
//! program, runs its hooks and spawns it.

ghost use Rattle.std.specs.Arc.{arc_value};
ghost use Rattle.std.specs.Prelude.{◌≡◌, ◌≤◌, ◌+◌, ◌++◌, length, map, string_bytes, IfOk, IfErr, OnOk, vec_len, vec_capacity, option_copied};
ghost use Rattle.duct_system.specs.SpecView.{pair_text};
ghost use Rattle.duct_system.specs.Streams.{end_of, stream_of};
ghost use Rattle.duct_run.specs.Actions as plan;
ghost use Rattle.duct_run.specs.Actions.{stack_after_ports, stack_after_port, port_end_count};
ghost use Rattle.duct_run.specs.Commands.{NameSucceeds, ActionFailsWith, stack_with_streams, port_stream, port_streams};
ghost use Rattle.duct_run.specs.ResourcesView.{ResourcesView, open_ends, HasRoom, HasSameWorkers, stack_view};
ghost use Rattle.duct_run.specs.ActionList.{AreOutwards, scope_in};
ghost use Rattle.duct_start.specs.Plan.{program_of};
ghost use Rattle.duct_run.specs.ActionView.{ports_view, spawn_in, scopes_view};
ghost use Rattle.duct_run.specs.Made.{IsPrepared, program_text, NameRefused};
ghost use Rattle.duct_run.specs.Requested.{CommandSucceeds, CommandFails, HoldsUnasked, resources_of};
ghost use Rattle.duct_run.specs.Settings.{hooks_of};
ghost use Rattle.duct_run.specs.StreamsView.{streams_view};

use crate::action::Ports;
use crate::asked::asked_spec;
use crate::change::change_all;
use crate::resources::{Resources, top};
use crate::scope::Scope;
use crate::settings::{Settings, settings_in};
use crate::streams::Streams;
use duct_base::error::Error;
use duct_base::exe::asks_canonical;
use duct_base::pool::{Place, Reservation, place_new, reservation_new};
use duct_base::spec::{CommandSpec, Hook, Port};
use duct_base::system::{Numbered, Stdio, System};
use duct_system::views::Viewed;
use std::sync::Arc;

// Returns the program of a command: the first of its words, or an empty text if it has none.
fn program_of(words: &Arc<Vec<String>>) -> &str
    ensures { result.now ≡ program_of (map string_bytes (arc_value words.now).items) }
{
    match words.first() {
        Some(program) => program.as_str(),
        None => "",
    }
}

// Asks for the canonical path of a command's program, if a command in this folder needs it.
fn canonical<S: System, H: Hook>(
    sys: &mut S,
    folder: Option<&str>,
    words: &Arc<Vec<String>>,
) -> Result<Option<String>, Error>
    ensures ok { IfOk result (λ name. let texts = map string_bytes (arc_value words.now).items in
        (scope : plan.Scope S.End H) → option_copied folder.entry ≡ scope.folder
        → NameSucceeds {E = S.End} {H = H} H.allows S.End.number_of scope texts
        (S.journal_view sys.old) (S.journal_view sys.new) (program_text name texts)) }
    ensures err { IfErr result (λ e. (scope : plan.Scope S.End H)
        → option_copied folder.entry ≡ scope.folder
        → NameRefused scope (map string_bytes (arc_value words.now).items)
        (S.journal_view sys.old) (S.journal_view sys.new) e) }
    ensures left { OnOk result ((S.journal_view sys.old).room ≤ (S.journal_view sys.new).room) }
{
    let program = program_of(words);
    if !asks_canonical(program, folder.is_some()) {
        return Ok(None);
    }
    Ok(Some(sys.canonicalize(program)?))
}

// Returns the stream of a port. A `Given` port pops the end on top of the stack.
fn take<E: Numbered>(stack: &mut Vec<E>, port: Port) -> Stdio<E>
    requires { port_end_count port ≤ vec_len stack.old }
    ensures stream { stream_of E.number_of result ≡ port_stream port (stack_view E.number_of
        stack.old.items) }
    ensures left { stack_view E.number_of stack.new.items ≡ stack_after_port port
        (stack_view E.number_of stack.old.items) }
    ensures len { vec_len stack.new + port_end_count port ≡ vec_len stack.old }
    ensures capacity { vec_capacity stack.new ≡ vec_capacity stack.old }
{
    match port {
        Port::Given => Stdio::End(top(stack)),
        Port::Null => Stdio::Null,
        Port::Inherit | Port::Place(_) => Stdio::Inherit,
    }
}

// Returns the streams of three ports. Stderr's end is on top of the stack.
fn take_all<E: Numbered>(stack: &mut Vec<E>, ports: Ports) -> Streams<E>
    requires { port_end_count ports.input + (port_end_count ports.output
        + port_end_count ports.error) ≤ vec_len stack.old }
    ensures streams { streams_view E.number_of result ≡ port_streams (ports_view ports)
        (stack_view E.number_of stack.old.items) }
    ensures left { stack_view E.number_of stack.new.items ≡ stack_after_ports (ports_view ports)
        (stack_view E.number_of stack.old.items) }
    ensures len { vec_len stack.new ≤ vec_len stack.old }
    ensures capacity { vec_capacity stack.new ≡ vec_capacity stack.old }
{
    let error = take(stack, ports.error);
    let output = take(stack, ports.output);
    let input = take(stack, ports.input);
    Streams {
        input,
        output,
        error,
    }
}

// Pushes the end of a stream back onto the stack, if it has one.
fn put<E: Numbered>(stack: &mut Vec<E>, stream: Stdio<E>)
    requires { vec_len stack.old + 1 ≤ vec_capacity stack.old }
    ensures items { stack_view E.number_of stack.new.items ≡ end_of (stream_of E.number_of stream)
        ++ stack_view E.number_of stack.old.items }
    ensures len { vec_len stack.new ≤ vec_len stack.old + 1 }
    ensures capacity { vec_capacity stack.new ≡ vec_capacity stack.old }
{
    match stream {
        Stdio::End(end) => stack.push_reserved(end),
        Stdio::Inherit | Stdio::Null => {}
    }
}

// Pushes the ends of three streams back onto the stack, stderr's last.
fn put_all<E: Numbered>(stack: &mut Vec<E>, streams: Streams<E>)
    requires { vec_len stack.old + 3 ≤ vec_capacity stack.old }
    ensures { stack_view E.number_of stack.new.items ≡ stack_with_streams
        (streams_view E.number_of streams) (stack_view E.number_of stack.old.items) }
{
    put(stack, streams.input);
    put(stack, streams.output);
    put(stack, streams.error);
}

// What a command needs before its hooks run.
#[derive(Drop)]
struct BeforeHooks<'a, C, E, H> {
    reservation: Reservation<C>,
    spec: CommandSpec,
    // Its hooks, the innermost first.
    hooks: Vec<(&'a H, &'a [E])>,
}

// Makes the reservation of a command's child and the spec of the command before its hooks, with the
// canonical path of its program where it needs one.
fn prepared<'a, S: System, H: Hook>(
    sys: &mut S,
    pairs: &Vec<(String, String)>,
    scopes: &[Scope<'a, S::End, H>],
    scope: usize,
    words: &Arc<Vec<String>>,
    ports: Ports,
) -> Result<BeforeHooks<'a, S::Child, S::End, H>, Error>
    requires within { scope ≤ length scopes.now }
    requires outwards { AreOutwards (scopes_view scopes.now) }
    ensures ok { IfOk result (λ made. IsPrepared {E = S.End} {H = H} H.allows S.End.number_of (map
        pair_text pairs.now.items) (scope_in (scopes_view scopes.now) scope) (map string_bytes
        (arc_value words.now).items) (ports_view ports) (S.journal_view sys.old)
        (S.journal_view sys.new) made.spec) }
    ensures hooks { IfOk result (λ made.
        hooks_of made.hooks.items ≡ (scope_in (scopes_view scopes.now) scope).hooks) }
    ensures err { IfErr result (λ error. (held : ResourcesView) → ActionFailsWith H.allows H.refuses
        S.End.number_of (map pair_text pairs.now.items)
        (spawn_in scopes.now scope (arc_value words.now).items ports)
        (S.journal_view sys.old) (S.journal_view sys.new) held held error) }
    ensures left { OnOk result ((S.journal_view sys.old).room ≤ (S.journal_view sys.new).room) }
{
    let alloc = *pairs.allocator();
    let reservation = reservation_new(alloc)?;
    let Settings {
        folder,
        changes,
        hooks,
    } = settings_in(alloc, scopes, scope)?;
    let program = canonical::<S, H>(sys, folder, words)?;
    let spec = asked_spec(alloc, pairs, folder, changes, program, words, ports)?;
    Ok(BeforeHooks {
        reservation,
        spec,
        hooks,
    })
}

// Starts the command with these words in the scope of this index, with the ends that its ports pop
// off the stack.
pub(crate) fn command<S: System, H: Hook>(
    sys: &mut S,
    pairs: &Vec<(String, String)>,
    scopes: &[Scope<'_, S::End, H>],
    scope: usize,
    words: &Arc<Vec<String>>,
    ports: Ports,
    held: &mut Resources<S::End, Place<S::Child>, S::Feed, S::Drain>,
) -> Result<(), Error>
    requires within { scope ≤ length scopes.now }
    requires outwards { AreOutwards (scopes_view scopes.now) }
    requires full { port_end_count ports.input + (port_end_count ports.output
        + port_end_count ports.error) ≤ vec_len held.old.stack }
    requires room { length (open_ends (resources_of ⟦<S as Viewed>⟧.views held.old))
        ≤ (S.journal_view sys.old).room }
    requires reserved { HasRoom held.old }
    ensures ok { OnOk result (CommandSucceeds ⟦<S as Viewed>⟧.views H.allows (map pair_text
        pairs.now.items) (spawn_in scopes.now scope (arc_value words.now).items ports)
        sys.old sys.new held.old held.new) }
    ensures err { IfErr result (CommandFails ⟦<S as Viewed>⟧.views H.allows H.refuses (map pair_text
        pairs.now.items) (spawn_in scopes.now scope (arc_value words.now).items ports)
        sys.old sys.new held.old held.new) }
    ensures new { HoldsUnasked ⟦<S as Viewed>⟧.views held.old
        → HoldsUnasked ⟦<S as Viewed>⟧.views held.new }
    ensures workers { HasSameWorkers held.old held.new }
{
    let BeforeHooks {
        reservation,
        mut spec,
        hooks,
    } = prepared(sys, pairs, scopes, scope, words, ports)?;
    let mut streams = take_all(&mut held.stack, ports);
    if let Err(error) = change_all(sys, hooks, &mut spec, &mut streams) {
        put_all(&mut held.stack, streams);
        return Err(error);
    }
    let Streams {
        input,
        output,
        error,
    } = streams;
    let child = sys.spawn(spec, [input, output, error])?;
    held.children.push_reserved(place_new(child, reservation));
    Ok(())
}
