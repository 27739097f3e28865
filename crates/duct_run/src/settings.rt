//! What the scopes around a command set for it.
ghost use Rattle.std.specs.Prelude.{◌≤◌, length, IfOk, OnOk, IsOkUnless};
ghost use Rattle.duct_run.specs.Actions as plan;
ghost use Rattle.duct_run.specs.ActionList.{AreOutwards, scope_in};
ghost use Rattle.duct_run.specs.Flat.{root_scope, scope_inside};
ghost use Rattle.duct_run.specs.ActionView.{scopes_view, setting_view};
ghost use Rattle.duct_run.specs.Settings.{Sets};
ghost use Rattle.duct_start.specs.Step.{step_of_setting};

use crate::scope::{Scope, Setting};
use crate::variables::{Changes, VariableChange};
use duct_base::error::Error;
use std::alloc::Global;

/// What the scopes around a command set for it. Of two folders the inner one counts.
#[derive(Drop)]
pub(crate) struct Settings<'a, E, H> {
    /// The folder, if there is one.
    pub folder: Option<&'a str>,
    /// The changes of the variables.
    pub changes: Changes<'a>,
    /// The hooks and their ends, the innermost first.
    pub hooks: Vec<(&'a H, &'a [E])>,
}

/// Returns what the scope of this index (0 is the root's) and those outside it set. Fails only with
/// `Error::Memory`, on allocation failure.
pub(crate) fn settings_in<'a, E, H>(
    alloc: Global,
    scopes: &[Scope<'a, E, H>],
    scope: usize,
) -> Result<Settings<'a, E, H>, Error>
    requires within { scope ≤ length scopes.now }
    requires outwards { AreOutwards (scopes_view scopes.now) }
    ensures sets { IfOk result (λ settings.
        Sets settings root_scope (scope_in (scopes_view scopes.now) scope)) }
    ensures memory { IsOkUnless result Error.Memory }
{
    let mut settings = Settings {
        folder: None,
        changes: Changes::none(alloc),
        hooks: Vec::new(alloc),
    };
    let mut inner = scope;
    while inner > 0 {
        let here = scopes[inner - 1];
        settings.add(here.setting)?;
        inner = here.outer;
    }
    Ok(settings)
}

impl<'a, E, H> Settings<'a, E, H> {
    // Adds what the next scope outside sets.
    fn add(&mut self, setting: Setting<'a, E, H>) -> Result<(), Error>
        ensures sets { OnOk result ((outer scope : plan.Scope E H)
            → Sets self.old (scope_inside (step_of_setting (setting_view setting.entry)) outer)
            scope
            → Sets self.new outer scope) }
        ensures memory { IsOkUnless result Error.Memory }
    {
        match setting {
            Setting::Dir(folder) => {
                self.folder = self.folder.or(Some(folder));
                Ok(())
            }
            Setting::Env(name, value) => self.changes.add(VariableChange::Sets(name, value)),
            Setting::EnvRemove(name) => self.changes.add(VariableChange::Removes(name)),
            Setting::FullEnv(vars) => {
                self.changes.replace(vars);
                Ok(())
            }
            Setting::BeforeSpawn(hook, ends) => Ok(self.hooks.push((hook, ends))?),
        }
    }
}
