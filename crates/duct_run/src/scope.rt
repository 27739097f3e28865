//! What is set around the commands of a start besides their streams: a list of scopes, each with
//! the index of the scope outside it.
use duct_base::names::EnvNameString;
use std::alloc::AllocError;
use std::collections::BTreeMap;

/// What a node sets: the folder, a change of the variables, or a hook.
pub enum Setting<'a, E, H> {
    Dir(&'a str),
    Env(&'a EnvNameString, &'a str),
    EnvRemove(&'a EnvNameString),
    FullEnv(&'a BTreeMap<EnvNameString, String>),
    BeforeSpawn(&'a H, &'a [E]),
}

impl<E, H> Clone for Setting<'_, E, H> {
    fn clone(&self) -> Result<Self, AllocError> {
        Ok(*self)
    }
}

impl<E, H> Copy for Setting<'_, E, H> {}

/// One scope. The root's scope has index 0 and is not in the list; the first scope of a list has
/// index 1.
pub struct Scope<'a, E, H> {
    /// What its node sets.
    pub setting: Setting<'a, E, H>,
    /// The index of the scope outside it.
    pub outer: usize,
}

impl<E, H> Clone for Scope<'_, E, H> {
    fn clone(&self) -> Result<Self, AllocError> {
        Ok(*self)
    }
}

impl<E, H> Copy for Scope<'_, E, H> {}
