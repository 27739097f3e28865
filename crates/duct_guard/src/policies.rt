//! Policies that come with the guard.
ghost use Rattle.std.specs.Prelude.{◌≡◌, ◌&&◌, ℕ, List, [], true, false, map, string_bytes, Some, None, IfOk, OnOk, OnErr};
ghost use Rattle.std.specs.List.{list_any};
ghost use Rattle.std.specs.Option.{option_map};
ghost use Rattle.duct_system.specs.SpecView.{pair_text};
ghost use Rattle.duct_guard.specs.Policies.{ProgramsView, VariablesView, are_kept, at_once_rules, both_rules, climbs, folder_rules, has_value, is_below, is_found, is_listed, limit_rules, program_rules, read_only, variable_rules};

use crate::counts::Counts;
use crate::policy::{Policy, PolicyError, Request};
use duct_system::spec::CommandSpec;
use std::convert::AsStr;
use std::marker::Model;
use std::path::Path;

/// Allows to start the programs of a list alone: the first word of the spec, which names the
/// program, has to be one of these texts. It has to be an absolute path, which begins with `/`, or
/// a name without `/` where the child's `PATH` is the given one. Any other path depends on the
/// folder that the child starts in, and is forbidden, also where it is listed. All other requests
/// are allowed.
///
/// Which file an absolute path is, is up to the machine, and so is what the program starts.
#[derive(Drop)]
pub struct Programs {
    names: Vec<String>,
    path: Option<String>,
}

impl Model for Programs {
    ghost Value = { ProgramsView };

    ghost view = { λ p. record {
      names = map string_bytes p.names.items;
      path = option_map string_bytes p.path;
    } };
}

impl Programs {
    /// Returns the policy that allows the absolute paths among these.
    pub fn new(names: Vec<String>) -> Programs
        ensures { result ≡ record { names = map string_bytes names.items; path = None } }
    {
        Programs { names, path: None }
    }

    /// Returns the policy that allows the absolute paths among these, and the names without `/`
    /// where the child has exactly this `PATH`. A folder in it that isn't absolute depends on the
    /// folder that the child starts in.
    pub fn on_path(names: Vec<String>, path: String) -> Programs
        ensures { result ≡ record
            { names = map string_bytes names.items; path = Some (string_bytes path) } }
    {
        Programs {
            names,
            path: Some(path),
        }
    }
}

impl Policy for Programs {
    ghost rules = { program_rules };

    fn allows(&self, request: Request) -> bool {
        match request {
            Request::Spawn(spec) => match spec.words() {
                [program, ..] => {
                    let program = program.as_str();
                    is_listed(self.names.as_slice(), program)
                        && (matches!(program.as_bytes(), [b'/', ..])
                            || is_found(&self.path, spec, program))
                }
                [] => false,
            },
            _ => true,
        }
    }

    fn limits(&self) -> Counts {
        Counts::unlimited()
    }

    fn at_once(&self) -> usize {
        usize::MAX
    }
}

// Returns whether a program is a name that is looked up on this path.
fn is_found(path: &Option<String>, spec: &CommandSpec, program: &str) -> bool
    ensures { result ≡ is_found (option_map string_bytes path.now) spec.now.vars program.now }
{
    match path {
        Some(path) => {
            !program.as_bytes().contains(&b'/') && has_value(spec, "PATH", path.as_str())
        }
        None => false,
    }
}

// Returns whether a child has a variable with exactly this name and this value.
fn has_value(spec: &CommandSpec, name: &str, value: &str) -> bool
    ensures { result ≡ has_value name.now value.now spec.now.vars }
{
    spec.iter_vars().any(|(other, found)| other.as_str() == name && found.as_str() == value)
}

// Returns whether a text is one of these.
fn is_listed(names: &[String], text: &str) -> bool
    ensures { result ≡ is_listed (map string_bytes names.now) text.now }
{
    names.iter().any(|name| name.as_str() == text)
}

/// Allows to open files at or below some folders alone. Paths are compared name by name, as they
/// are written: a path with `..` is forbidden, a relative path lies below a relative folder alone,
/// and a path without a leading `./` doesn't lie below `.`. What a relative path is below is up to
/// the parent's current folder. All other requests are allowed.
///
/// Symbolic links are followed by the machine, and not seen here: a link in such a folder opens
/// what it points at. Open what `canonicalize` returns, and give the folders by their canonical
/// paths; where others can change the folder, a link may still appear between the two.
#[derive(Drop)]
pub struct Folders {
    folders: Vec<String>,
}

impl Model for Folders {
    ghost Value = { List (List ℕ) };

    ghost view = { λ f. map string_bytes f.folders.items };
}

impl Folders {
    /// Returns the policy that allows files at or below these folders. Without a folder it allows
    /// none. Fails with `PolicyError::EmptyFolder` if one is the empty text; the folders are then
    /// dropped. The folder that contains all absolute paths is `/`.
    pub fn new(folders: Vec<String>) -> Result<Folders, PolicyError>
        ensures ok { IfOk result (λ policy. policy ≡ map string_bytes folders.items) }
        ensures filled { OnOk result (is_listed (map string_bytes folders.items) [] ≡ false) }
        ensures err { OnErr result (is_listed (map string_bytes folders.items) [] ≡ true) }
    {
        if is_listed(folders.as_slice(), "") {
            return Err(PolicyError::EmptyFolder);
        }
        Ok(Folders { folders })
    }
}

impl Policy for Folders {
    ghost rules = { folder_rules };

    fn allows(&self, request: Request) -> bool {
        match request {
            Request::Read(path) | Request::Create(path) => {
                !climbs(path) && is_below_one(self.folders.as_slice(), path)
            }
            _ => true,
        }
    }

    fn limits(&self) -> Counts {
        Counts::unlimited()
    }

    fn at_once(&self) -> usize {
        usize::MAX
    }
}

// Returns whether a path has `..` among its names.
fn climbs(path: &str) -> bool
    ensures { result ≡ climbs path.now }
{
    for component in Path::new(path).components() {
        if component.as_os_str() == ".." {
            return true;
        }
    }
    false
}

// Returns whether the names of a path begin with those of one of these folders.
fn is_below_one(folders: &[String], path: &str) -> bool
    ensures { result ≡ list_any (is_below path.now) (map string_bytes folders.now) }
{
    folders.iter().any(|folder| is_below(path, folder.as_str()))
}

// Returns whether the names of a path begin with those of a folder, which isn't empty.
fn is_below(path: &str, folder: &str) -> bool
    ensures { result ≡ is_below path.now folder.now }
{
    !folder.is_empty() && Path::new(path).starts_with(folder)
}

/// Allows to start children that have exactly the given variables: each variable of a child has to
/// be one of them, with the same spelling and value, and none of them may be missing. Variables
/// with some names are free: a child may have them with any value, or not have them. All other
/// requests are allowed.
///
/// `PATH` and names that begin with `LD_` choose the code that a child runs, so they aren't free
/// unless they are listed.
#[derive(Drop)]
pub struct Variables {
    given: Vec<(String, String)>,
    free: Vec<String>,
}

impl Model for Variables {
    ghost Value = { VariablesView };

    ghost view = { λ v. record {
      given = map pair_text v.given.items;
      free = map string_bytes v.free.items;
    } };
}

impl Variables {
    /// Returns the policy with these given variables, as `System::environment` returns them, and
    /// these free names.
    pub fn new(given: Vec<(String, String)>, free: Vec<String>) -> Variables
        ensures { result ≡ record
            { given = map pair_text given.items; free = map string_bytes free.items } }
    {
        Variables { given, free }
    }

    // Returns whether a child has the given variables and no others, but for those with free names.
    fn are_kept_by(&self, spec: &CommandSpec) -> bool
        ensures { result ≡ (are_kept self.now.free self.now.given spec.now.vars
            && are_kept self.now.free spec.now.vars self.now.given) }
    {
        adds_none(self.free.as_slice(), self.given.as_slice(), spec)
            && misses_none(self.free.as_slice(), self.given.as_slice(), spec)
    }
}

impl Policy for Variables {
    ghost rules = { variable_rules };

    fn allows(&self, request: Request) -> bool {
        match request {
            Request::Spawn(spec) => self.are_kept_by(spec),
            _ => true,
        }
    }

    fn limits(&self) -> Counts {
        Counts::unlimited()
    }

    fn at_once(&self) -> usize {
        usize::MAX
    }
}

// Returns whether each variable of a child has a free name, or is a given one.
fn adds_none(free: &[String], given: &[(String, String)], spec: &CommandSpec) -> bool
    ensures { result ≡ are_kept (map string_bytes free.now) (map pair_text given.now)
        spec.now.vars }
{
    spec.iter_vars().all(|(name, value)| {
        is_listed(free, name.as_str()) || is_given(given, name.as_str(), value.as_str())
    })
}

// Returns whether each given variable has a free name, or the child has it.
fn misses_none(free: &[String], given: &[(String, String)], spec: &CommandSpec) -> bool
    ensures { result ≡ are_kept (map string_bytes free.now) spec.now.vars
        (map pair_text given.now) }
{
    given.iter().all(|(name, value)| {
        is_listed(free, name.as_str()) || has_value(spec, name.as_str(), value.as_str())
    })
}

// Returns whether one of some variables has exactly this name and this value.
fn is_given(given: &[(String, String)], name: &str, value: &str) -> bool
    ensures { result ≡ has_value name.now value.now (map pair_text given.now) }
{
    given.iter().any(|(other, found)| other.as_str() == name && found.as_str() == value)
}

/// Allows no file to be created or truncated. All other requests are allowed, so what a child does
/// is up to its program.
#[derive(Drop)]
pub struct ReadOnly;

impl Policy for ReadOnly {
    ghost rules = { λ _. read_only };

    fn allows(&self, request: Request) -> bool {
        !matches!(request, Request::Create(_))
    }

    fn limits(&self) -> Counts {
        Counts::unlimited()
    }

    fn at_once(&self) -> usize {
        usize::MAX
    }
}

/// Allows everything within these limits: no more ends are open at once, and no more children are
/// ever started.
#[derive(Drop)]
pub struct Limits(pub Counts);

impl Policy for Limits {
    ghost rules = { λ limits. limit_rules limits.0 };

    fn allows(&self, _request: Request) -> bool {
        true
    }

    fn limits(&self) -> Counts {
        self.0
    }

    fn at_once(&self) -> usize {
        usize::MAX
    }
}

/// Allows everything, but no more than this many children that run at once. A child runs until one
/// of its polls has returned an exit status.
#[derive(Drop)]
pub struct AtOnce(pub usize);

impl Policy for AtOnce {
    ghost rules = { λ children. at_once_rules children.0 };

    fn allows(&self, _request: Request) -> bool {
        true
    }

    fn limits(&self) -> Counts {
        Counts::unlimited()
    }

    fn at_once(&self) -> usize {
        self.0
    }
}

/// Allows what both of two policies allow, within the limits of both.
#[derive(Drop)]
pub struct Both<P, Q> {
    pub first: P,
    pub second: Q,
}

impl<P: Policy, Q: Policy> Policy for Both<P, Q> {
    ghost rules = { λ both. both_rules (P.rules both.first) (Q.rules both.second) };

    fn allows(&self, request: Request) -> bool {
        self.first.allows(request) && self.second.allows(request)
    }

    fn limits(&self) -> Counts {
        let (one, other) = (self.first.limits(), self.second.limits());
        Counts {
            ends: one.ends.min(other.ends),
            children: one.children.min(other.children),
        }
    }

    fn at_once(&self) -> usize {
        self.first.at_once().min(self.second.at_once())
    }
}
