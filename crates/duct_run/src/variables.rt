//! The environment variables of a command.
ghost use Rattle.std.specs.Prelude.{ℕ, ◌≡◌, ◌∷◌, [], List, map, IfOk, IsOkUnless, OnOk};
ghost use Rattle.duct_system.specs.SpecView.{AreOrdered, Vars, pair_text, said_of, var_view, variable_in};
ghost use Rattle.duct_start.specs.Surroundings.{Replaces, variable};
ghost use Rattle.duct_run.specs.Settings.{AddsChange, change_of, changes_of};

use duct_base::error::Error;
use duct_base::names::EnvNameString;
use std::alloc::Global;
use std::collections::BTreeMap;

/// A change of one variable.
#[derive(Clone, Copy)]
pub(crate) enum VariableChange<'a> {
    Sets(&'a EnvNameString, &'a str),
    Removes(&'a EnvNameString),
}

/// The changes that the scopes around a command make to the variables, from the inside out.
#[derive(Drop)]
pub(crate) struct Changes<'a> {
    // The changes of single variables, the innermost first.
    single: Vec<VariableChange<'a>>,
    // The variables of the nearest scope that replaces all variables, if there is one. What is
    // outside of it doesn't count.
    whole: Option<&'a BTreeMap<EnvNameString, String>>,
}

impl<'a> Changes<'a> {
    /// Returns no changes.
    pub(crate) fn none(alloc: Global) -> Changes<'a>
        ensures { changes_of result ≡ [] }
    {
        Changes {
            single: Vec::new(alloc),
            whole: None,
        }
    }

    /// Adds a change outside of these. Fails only with `Error::Memory`, on allocation failure.
    pub(crate) fn add(&mut self, change: VariableChange<'a>) -> Result<(), Error>
        ensures adds { OnOk result (AddsChange (change_of change.entry) self.old self.new) }
        ensures memory { IsOkUnless result Error.Memory }
    {
        if self.whole.is_some() {
            return Ok(());
        }
        Ok(self.single.push(change)?)
    }

    /// Adds, outside of these, that these variables replace all others.
    pub(crate) fn replace(&mut self, vars: &'a BTreeMap<EnvNameString, String>)
        ensures { AddsChange (Replaces (map var_view vars.now.entries)) self.old self.new }
    {
        self.whole = self.whole.or(Some(vars));
    }
}

/// Returns the variables of a command for which the scopes around it make these changes. `pairs` is
/// the environment that the system returned. Each name occurs once, and the names are in order.
/// Fails only with `Error::Memory`, on allocation failure.
pub(crate) fn changed_variables(
    alloc: Global,
    pairs: &[(String, String)],
    changes: Changes<'_>,
) -> Result<BTreeMap<EnvNameString, String>, Error>
    ensures found { IfOk result (λ vars. (name : List ℕ) →
        variable_in name (map var_view vars.entries)
        ≡ variable (map pair_text pairs.now) (changes_of changes.entry) name) }
    ensures ordered { IfOk result (λ vars. AreOrdered (map var_view vars.entries)) }
    ensures memory { IsOkUnless result Error.Memory }
{
    let Changes { mut single, whole } = changes;
    let mut vars = match whole {
        Some(whole) => copied(whole)?,
        None => said(alloc, pairs)?,
    };
    while let Some(change) = single.pop() {
        vars = changed(alloc, change, vars)?;
    }
    Ok(vars)
}

// Makes a map of these pairs. Each name has its first spelling and its last value.
fn said(alloc: Global, pairs: &[(String, String)]) -> Result<BTreeMap<EnvNameString, String>, Error>
    ensures found { IfOk result (λ vars. (name : List ℕ) →
        variable_in name (map var_view vars.entries) ≡ said_of name (map pair_text pairs.now)) }
    ensures ordered { IfOk result (λ vars. AreOrdered (map var_view vars.entries)) }
    ensures memory { IsOkUnless result Error.Memory }
{
    let mut vars = BTreeMap::new(alloc);
    for (name, value) in pairs {
        vars.insert(EnvNameString::from(name.clone()?), value.clone()?)?;
    }
    Ok(vars)
}

// Copies some variables.
fn copied(vars: &BTreeMap<EnvNameString, String>) -> Result<BTreeMap<EnvNameString, String>, Error>
    ensures vars { IfOk result
        (λ copy. map var_view copy.entries ≡ map var_view vars.now.entries) }
    ensures ordered { IfOk result (λ copy. AreOrdered (map var_view copy.entries)) }
    ensures memory { IsOkUnless result Error.Memory }
{
    let copy = vars.clone()?;
    // The contract of `len` ensures that the names of the map ascend.
    let _ = copy.len();
    Ok(copy)
}

// Applies a change to the variables.
fn changed(
    alloc: Global,
    change: VariableChange<'_>,
    mut vars: BTreeMap<EnvNameString, String>,
) -> Result<BTreeMap<EnvNameString, String>, Error>
    requires { AreOrdered (map var_view vars.entries) }
    ensures found { IfOk result (λ after. (pairs : Vars) (name : List ℕ) →
        let before = Replaces (map var_view vars.entries) in
        variable_in name (map var_view after.entries)
        ≡ variable pairs (change_of change.entry ∷ before ∷ []) name) }
    ensures ordered { IfOk result (λ after. AreOrdered (map var_view after.entries)) }
    ensures memory { IsOkUnless result Error.Memory }
{
    match change {
        VariableChange::Sets(name, value) => {
            vars.insert(name.clone()?, String::from_str(alloc, value)?)?;
            Ok(vars)
        }
        VariableChange::Removes(name) => {
            vars.remove(name);
            Ok(vars)
        }
    }
}
