//! The spec of a command: the words, folder, variables and streams that its child is started with.
ghost use Rattle.std.specs.Arc.{arc_value};
ghost use Rattle.std.specs.Prelude.{◌≡◌, ◌≢◌, [], ◌∷◌, ◌++◌, map, string_bytes, Some, IfOk, IfErr, IsOkUnless, OnOk, OnErr, option_copied, option_map};
ghost use Rattle.duct_system.specs.SpecView.{SpecView, AreOrdered, leads, value_of, with_var, without_var, var_view, texts_of, port_of, gives, GivesNothing};
ghost use Rattle.duct_system.specs.declared.system.Fault.{Fault};

use crate::copy::copies_of_texts;
use crate::error::Error;
use crate::names::EnvNameString;
use crate::system::Fault;
use std::collections::BTreeMap;
use std::collections::btree_map::Iter;
use std::convert::AsStr;
use std::marker::Model;
use std::sync::Arc;

/// What one of the three streams of a child is connected to.
#[derive(Clone, Copy, Debug, PartialEq, Eq)]
pub enum Port {
    /// The parent's own stream.
    Inherit,
    /// Nothing.
    Null,
    /// An end that the start found for it.
    Given,
    /// The end at this place, counted from 0, among the ends that were passed with the hook that
    /// names it.
    Place(usize),
}

/// One of the three streams of a child.
#[derive(Clone, Copy, Debug, PartialEq, Eq)]
pub enum Stream {
    In,
    Out,
    Err,
}

/// What a child is started with. A start makes it, the hooks may change it, and `System::spawn`
/// takes it. It shares its words with the expression until an argument is added.
#[derive(Debug, Drop)]
pub struct CommandSpec {
    words: Arc<Vec<String>>,
    folder: Option<String>,
    vars: BTreeMap<EnvNameString, String>,
    stdin: Port,
    stdout: Port,
    stderr: Port,
}

impl Model for CommandSpec {
    ghost use Rattle.std.specs.Arc.{arc_value};
    ghost use Rattle.std.specs.Prelude.{map, string_bytes, option_map};
    ghost use Rattle.duct_system.specs.SpecView.{SpecView, var_view};

    ghost Value = { SpecView };

    ghost view = { λ s. record {
      words = map string_bytes (arc_value s.words).items;
      folder = option_map string_bytes s.folder;
      vars = map var_view s.vars.entries;
      input = s.stdin;
      output = s.stdout;
      error = s.stderr;
    } };
}

/// Returns the spec with these parts: the program and its arguments, the folder if one is set, the
/// whole environment of the child, and its streams. It is meant for a start only.
pub fn spec_of(
    words: Arc<Vec<String>>,
    folder: Option<String>,
    vars: BTreeMap<EnvNameString, String>,
    stdin: Port,
    stdout: Port,
    stderr: Port,
) -> CommandSpec
    ensures { result ≡ record {
      words = map string_bytes (arc_value words).items;
      folder = option_map string_bytes folder;
      vars = map var_view vars.entries;
      input = stdin;
      output = stdout;
      error = stderr;
    } }
{
    CommandSpec {
        words,
        folder,
        vars,
        stdin,
        stdout,
        stderr,
    }
}

impl CommandSpec {
    /// Returns the program and its arguments.
    pub fn words(&self) -> &[String]
        ensures { map string_bytes result.now ≡ self.now.words }
    {
        self.words.as_slice()
    }

    /// Returns whether the command leads a group of processes: its program is `setsid`, or a path
    /// that ends so.
    pub fn leads(&self) -> bool
        ensures { result ≡ leads self.now.words }
    {
        match self.words().first() {
            Some(program) => {
                let program = program.as_str();
                program == "setsid" || program.ends_with("/setsid")
            }
            None => false,
        }
    }

    // Returns the program and its arguments, as the spec shares them.
    pub(crate) fn shared_words(&self) -> &Arc<Vec<String>>
        ensures { map string_bytes (arc_value result.now).items ≡ self.now.words }
    {
        &self.words
    }

    /// Returns the folder that the child starts in, or `None` if it is the parent's.
    pub fn folder(&self) -> Option<&str>
        ensures { option_copied result ≡ self.now.folder }
    {
        match &self.folder {
            Some(folder) => Some(folder.as_str()),
            None => None,
        }
    }

    /// Returns the value of the child's variable with this name, in any spelling, or `None` if
    /// there is none.
    pub fn var(&self, name: &str) -> Option<&str>
        ensures { option_copied result ≡ value_of name.now self.now.vars }
    {
        for (other, value) in self.vars.iter() {
            if other.is(name) {
                return Some(value.as_str());
            }
        }
        None
    }

    /// Returns an iterator over all variables of the child, each in its spelling, in order of name.
    pub fn iter_vars(&self) -> Iter<'_, EnvNameString, String>
        ensures { map var_view result ≡ self.now.vars }
    {
        self.vars.iter()
    }

    /// Returns all variables of the child, each in its spelling, in order of name. Fails only with
    /// `Error::Memory`, at an allocation failure.
    pub fn vars(&self) -> Result<Vec<(&str, &str)>, Error>
        ensures vars { IfOk result
            (λ pairs. map (λ p. (p.0.now, p.1.now)) pairs.items ≡ self.now.vars) }
        ensures ordered { OnOk result (AreOrdered self.now.vars) }
        ensures memory { IsOkUnless result Error.Memory }
    {
        let mut pairs = Vec::with_capacity(*self.words.allocator(), self.vars.len())?;
        for (name, value) in self.vars.iter() {
            pairs.push((name.as_str(), value.as_str()))?;
        }
        Ok(pairs)
    }

    /// Returns what a stream of the child is connected to.
    pub fn port(&self, stream: Stream) -> Port
        ensures { result ≡ port_of stream self.now }
    {
        match stream {
            Stream::In => self.stdin,
            Stream::Out => self.stdout,
            Stream::Err => self.stderr,
        }
    }
}

impl CommandSpec {
    /// Adds an argument at the end. Fails only with `Error::Memory`, at an allocation failure, and
    /// leaves the spec as it was.
    pub fn arg(&mut self, arg: &str) -> Result<(), Error>
        ensures ok { OnOk result
            (self.new ≡ record self.old { words = self.old.words ++ arg.now ∷ [] }) }
        ensures err { OnErr result (self.new ≡ self.old) }
        ensures memory { IsOkUnless result Error.Memory }
    {
        self.args(&[arg])
    }

    /// Adds arguments at the end. Fails only with `Error::Memory`, at an allocation failure, and
    /// leaves the spec as it was.
    pub fn args(&mut self, args: &[&str]) -> Result<(), Error>
        ensures ok { OnOk result
            (self.new ≡ record self.old { words = self.old.words ++ texts_of args.now }) }
        ensures err { OnErr result (self.new ≡ self.old) }
        ensures memory { IsOkUnless result Error.Memory }
    {
        let mut more = copies_of_texts(*self.words.allocator(), args)?;
        Arc::make_mut(&mut self.words)?.append(&mut more)?;
        Ok(())
    }

    /// Sets a variable. If there is one with this name, in any spelling, its value is replaced and
    /// its spelling is kept. Fails only with `Error::Memory`, at an allocation failure, and leaves
    /// the spec as it was.
    pub fn env(&mut self, name: &str, value: &str) -> Result<(), Error>
        ensures ok { OnOk result
            (self.new ≡ record self.old { vars = with_var name.now value.now self.old.vars }) }
        ensures err { OnErr result (self.new ≡ self.old) }
        ensures memory { IsOkUnless result Error.Memory }
    {
        let alloc = *self.words.allocator();
        let name = String::from_str(alloc, name)?;
        let value = String::from_str(alloc, value)?;
        self.vars.insert(EnvNameString::from(name), value)?;
        Ok(())
    }

    /// Removes the variable with this name, in any spelling, if the child has one.
    pub fn env_remove(&mut self, name: &str)
        ensures { self.new ≡ record self.old { vars = without_var name.now self.old.vars } }
    {
        self.vars.retain(|other, _| !other.is(name));
    }

    /// Removes all variables.
    pub fn env_clear(&mut self)
        ensures { self.new ≡ record self.old { vars = [] } }
    {
        self.vars.clear();
    }

    /// Sets the folder that the child starts in. Fails only with `Error::Memory`, at an allocation
    /// failure, and leaves the spec as it was.
    pub fn current_dir(&mut self, folder: &str) -> Result<(), Error>
        ensures ok { OnOk result (self.new ≡ record self.old { folder = Some folder.now }) }
        ensures err { OnErr result (self.new ≡ self.old) }
        ensures memory { IsOkUnless result Error.Memory }
    {
        self.folder = Some(String::from_str(*self.words.allocator(), folder)?);
        Ok(())
    }

    /// Connects the child's stdin to the parent's stdin, to nothing, or to an end that was passed
    /// with the hook.
    pub fn stdin(&mut self, port: Port)
        requires { port ≢ Port.Given }
        ensures { self.new ≡ record self.old { input = port } }
    {
        self.stdin = port;
    }

    /// Connects the child's stdout to the parent's stdout, to nothing, or to an end that was passed
    /// with the hook.
    pub fn stdout(&mut self, port: Port)
        requires { port ≢ Port.Given }
        ensures { self.new ≡ record self.old { output = port } }
    {
        self.stdout = port;
    }

    /// Connects the child's stderr to the parent's stderr, to nothing, or to an end that was passed
    /// with the hook.
    pub fn stderr(&mut self, port: Port)
        requires { port ≢ Port.Given }
        ensures { self.new ≡ record self.old { error = port } }
    {
        self.stderr = port;
    }
}

/// Sets a stream to `Given`. It is meant for a start only: a hook that calls it breaks its
/// contract.
pub fn give(spec: &mut CommandSpec, stream: Stream)
    ensures { spec.new ≡ gives stream spec.old }
{
    match stream {
        Stream::In => spec.stdin = Port::Given,
        Stream::Out => spec.stdout = Port::Given,
        Stream::Err => spec.stderr = Port::Given,
    }
}

/// A hook: it changes the spec of a command before its child is started.
pub trait Hook: Drop {
    /// The specs into which it may change a spec.
    ghost allows: { Self → SpecView → SpecView → Type 0 };

    /// The faults with which it may refuse a spec.
    ghost refuses: { Self → SpecView → Fault → Type 0 };

    /// Changes the spec, or refuses it with a fault: the child is then not started. It makes no
    /// stream `Given` that was not `Given` before.
    fn change(&self, spec: &mut CommandSpec) -> Result<(), Fault>
        ensures ok { OnOk result (allows self.now spec.old spec.new) }
        ensures err { IfErr result (refuses self.now spec.old) }
        ensures given { OnOk result (GivesNothing spec.old spec.new) };
}

/// A hook of any type, as an expression stores it.
pub type HookBox = Box<dyn Hook + Send + Sync>;

impl Hook for HookBox {
    ghost allows = { λ hook. (Hook-box hook).allows hook.value };

    ghost refuses = { λ hook. (Hook-box hook).refuses hook.value };

    fn change(&self, spec: &mut CommandSpec) -> Result<(), Fault> {
        (**self).change(spec)
    }
}
