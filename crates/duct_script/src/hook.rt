//! A hook that makes the changes of a list.
ghost use Rattle.std.specs.Prelude.{◌≡◌, ◌≢◌, [], string_bytes, map, None, OnOk, OnErr, IfErr, ◌⊎◌, Some};
ghost use Rattle.duct_system.specs.declared.spec.Port.TheVariants.{Given};
ghost use Rattle.duct_system.specs.declared.system.Kind.TheVariants.{OutOfMemory};
ghost use Rattle.duct_system.specs.SpecView.{GivesNothing};
ghost use Rattle.duct_script.specs.declared.hook.HookAnswer.TheVariants.{Obey};
ghost use Rattle.duct_script.specs.Settings.{port_to, with_port, changed_by, changed, has_word, refusal_of};

use crate::calls::{Call, CallLog, note};
use duct_system::error::Error;
use duct_system::spec::{CommandSpec, Hook, Port, Stream};
use duct_system::system::{Fault, Kind};
use std::alloc::Global;
use std::sync::Arc;

/// Where a hook sends a stream.
#[derive(Clone, Copy, Debug, PartialEq, Eq, Drop)]
pub enum Destination {
    /// To the parent's own stream.
    Inherit,
    /// To nothing.
    Null,
    /// To the end at this place among the hook's ends, counted from 0.
    HookEnd(usize),
}

/// One change of a spec.
#[derive(Debug, PartialEq, Eq, Drop)]
pub enum SpecChange {
    /// Adds an argument at the end.
    Word(String),
    /// Sets a variable: its name, then its value.
    Var(String, String),
    /// Removes a variable.
    NoVar(String),
    /// Removes all variables.
    NoVars,
    /// Sets the folder.
    Folder(String),
    /// Sends a stream to this destination.
    Port(Stream, Destination),
}

/// What a hook returns after its changes.
#[derive(Debug, PartialEq, Eq, Drop)]
pub enum HookAnswer {
    /// It allows the child to be started.
    Obey,
    /// It refuses each spec with this fault.
    Refuse(Fault),
    /// It refuses, with this fault, each spec that has this word when the hook first sees it. It
    /// allows every other spec.
    RefuseWord(String, Fault),
}

/// A hook that makes the changes of a list, in order, and then returns `answer`. If a change finds
/// no memory, it returns `OutOfMemory`.
#[derive(Drop)]
pub struct ScriptHook {
    /// The changes that it makes, in order.
    pub changes: Vec<SpecChange>,
    /// What it returns after the changes.
    pub answer: HookAnswer,
    /// Its label in the log.
    pub label: u8,
    /// The log in which it notes its calls, if there is one.
    pub calls: Option<Arc<CallLog>>,
}

impl ScriptHook {
    /// Returns a hook that changes nothing and allows each child to be started.
    pub fn new(alloc: Global) -> ScriptHook
        ensures changes { result.changes.items ≡ [] }
        ensures answer { result.answer ≡ Obey }
        ensures label { result.label ≡ 0 }
        ensures calls { result.calls ≡ None }
    {
        ScriptHook {
            changes: Vec::new(alloc),
            answer: HookAnswer::Obey,
            label: 0,
            calls: None,
        }
    }
}

impl Hook for ScriptHook {
    ghost allows = { λ hook before after. (refusal_of hook.answer before ≡ None)
        × (after ≡ changed hook.changes.items before) };

    ghost refuses = { λ hook before fault. (refusal_of hook.answer before ≡ Some fault)
        ⊎ (fault.kind ≡ OutOfMemory) };

    fn change(&self, spec: &mut CommandSpec) -> Result<(), Fault> {
        note(&self.calls, Call::Hook(self.label));
        let refusal = refusal(&self.answer, spec);
        make_all(self.changes.as_slice(), spec)?;
        refusal.map_or(Ok(()), Err)
    }
}

/// Returns the fault with which a spec is refused, if it is.
fn refusal(answer: &HookAnswer, spec: &CommandSpec) -> Option<Fault>
    ensures { result ≡ refusal_of answer.now spec.now }
{
    match answer {
        HookAnswer::Refuse(fault) => Some(*fault),
        HookAnswer::RefuseWord(word, fault) if contains(spec.words(), word) => Some(*fault),
        HookAnswer::Obey | HookAnswer::RefuseWord(_, _) => None,
    }
}

/// Returns whether a word is one of these words.
fn contains(words: &[String], word: &str) -> bool
    ensures { result ≡ has_word word.now (map string_bytes words.now) }
{
    for other in words {
        if other.as_str() == word {
            return true;
        }
    }
    false
}

/// Makes all changes, in order. Fails only with `OutOfMemory`.
fn make_all(changes: &[SpecChange], spec: &mut CommandSpec) -> Result<(), Fault>
    ensures ok { OnOk result (spec.new ≡ changed changes.now spec.old) }
    ensures given { OnOk result (GivesNothing spec.old spec.new) }
    ensures err { IfErr result (λ fault. fault.kind ≡ OutOfMemory) }
{
    for change in changes {
        make(change, spec).map_err(|_| Fault::new(Kind::OutOfMemory))?;
    }
    Ok(())
}

/// Makes a change. Fails only on allocation failure; the spec is then unchanged.
fn make(change: &SpecChange, spec: &mut CommandSpec) -> Result<(), Error>
    ensures ok { OnOk result (spec.new ≡ changed_by change.now spec.old) }
    ensures err { OnErr result (spec.new ≡ spec.old) }
{
    match change {
        SpecChange::Word(word) => spec.arg(word.as_str())?,
        SpecChange::Var(name, value) => spec.env(name.as_str(), value.as_str())?,
        SpecChange::NoVar(name) => spec.env_remove(name.as_str()),
        SpecChange::NoVars => spec.env_clear(),
        SpecChange::Folder(folder) => spec.current_dir(folder.as_str())?,
        SpecChange::Port(stream, destination) => redirect(spec, *stream, port(*destination)),
    }
    Ok(())
}

/// Returns the destination as a port.
fn port(destination: Destination) -> Port
    ensures port { result ≡ port_to destination }
    ensures given { result ≢ Given }
{
    match destination {
        Destination::Inherit => Port::Inherit,
        Destination::Null => Port::Null,
        Destination::HookEnd(place) => Port::Place(place),
    }
}

/// Sends a stream to a port.
fn redirect(spec: &mut CommandSpec, stream: Stream, port: Port)
    requires { port ≢ Given }
    ensures { spec.new ≡ with_port stream port spec.old }
{
    match stream {
        Stream::In => spec.stdin(port),
        Stream::Out => spec.stdout(port),
        Stream::Err => spec.stderr(port),
    }
}
