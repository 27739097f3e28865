//! The names of environment variables.
ghost use Rattle.std.specs.Prelude.{◌≡◌, ◌↔◌, IsTrue, Some, map, refl, string_bytes};
ghost use Rattle.std.specs.Char.{to_ascii_lowercase};
ghost use Rattle.std.specs.Fmt.{debug_str};
ghost use Rattle.std.proofs.Common.{rules};
ghost use Rattle.std.specs.Cmp;
ghost use Rattle.std.specs.Cmp.{on_equiv, on_per, on_total, partial_order_from_agreeing_total};
ghost use Rattle.std.specs.Cmp.Rules.{comparing, hashing};
ghost use Rattle.std.specs.Cmp.Lexicographic.{nat_list_cmp_total, nat_list_eq_equiv, slice_cmp, texts_ties};
ghost use Rattle.std.specs.Ordering.{nat_cmp};
ghost use Rattle.duct_system.specs.Name.{name_form, is_same_name, name_cmp, name_hash_input};

use std::alloc::AllocError;
use std::cmp::Ordering;
use std::convert::AsStr;
use std::fmt;
use std::hash::{Hash, Hasher};
use std::marker::Model;

/// The name of an environment variable. Two names are equal, and have the same hash, if their texts
/// are the same with A to Z taken as a to z. They are ordered by the bytes of that form. The
/// spelling is kept.
#[derive(Drop)]
pub struct EnvNameString {
    text: String,
}

impl Model for EnvNameString {
    ghost use Rattle.std.specs.Prelude.{ℕ, List, string_bytes};

    ghost Value = { List ℕ };

    ghost view = { λ name. string_bytes name.text };
}

impl EnvNameString {
    /// Returns whether a text is this name, in any spelling.
    pub fn is(&self, text: &str) -> bool
        ensures { result ≡ is_same_name text.now self.now }
    {
        text.eq_ignore_ascii_case(self.as_str())
    }
}

impl From<String> for EnvNameString {
    ghost from_gives = { λ text name. name ≡ string_bytes text };

    fn from(text: String) -> EnvNameString {
        EnvNameString { text }
    }
}

impl Clone for EnvNameString {
    ghost is_clone = { λ name copy. copy ≡ name };

    fn clone(&self) -> Result<EnvNameString, AllocError> {
        let text = self.text.clone()?;
        Ok(EnvNameString { text })
    }
}

impl AsStr for EnvNameString {
    ghost text = { λ name. name };

    fn as_str(&self) -> &str {
        self.text.as_str()
    }
}

impl fmt::Debug for EnvNameString {
    ghost debug_output = { debug_str };

    fn fmt<W: fmt::Write>(&self, f: &mut fmt::Formatter<W>) -> fmt::Result {
        self.text.fmt(f)
    }
}

impl PartialEq for EnvNameString {
    ghost eq = { is_same_name };

    ghost laws = { on_per name_form (Cmp.partial_equiv_from_equiv nat_list_eq_equiv) };

    fn eq(&self, other: &EnvNameString) -> bool
        ensures value { result ≡ is_same_name self.now other.now }
        ensures same { IsTrue result ↔ (name_form self.now ≡ name_form other.now) }
    {
        self.text.eq_ignore_ascii_case(other.text.as_str())
    }
}

impl Eq for EnvNameString {
    ghost laws = { on_equiv name_form nat_list_eq_equiv };
}

impl PartialOrd for EnvNameString {
    ghost partial_cmp = { λ x y. Some (name_cmp x y) };

    ghost laws = { partial_order_from_agreeing_total name_cmp
        (on_total name_form nat_list_cmp_total) (λ x y. refl)
        (λ x y. texts_ties (name_form x) (name_form y)) };

    fn partial_cmp(&self, other: &EnvNameString) -> Option<Ordering> {
        Some(self.cmp(other))
    }
}

impl Ord for EnvNameString {
    ghost cmp = { name_cmp };

    ghost total = { on_total name_form nat_list_cmp_total };

    ghost matches_partial_cmp = { Prim.search (comparing, rules) };

    ghost matches_eq = { λ x y. texts_ties (name_form x) (name_form y) };

    fn cmp(&self, other: &EnvNameString) -> Ordering {
        order(self.text.as_bytes(), other.text.as_bytes())
    }
}

impl Hash for EnvNameString {
    ghost hash_input = { name_hash_input };

    ghost respects_eq = { Prim.search (hashing, rules) };

    fn hash<H: Hasher>(&self, state: &mut H) {
        for byte in self.text.as_bytes() {
            state.write_u8(byte.to_ascii_lowercase());
        }
        state.write_u8(255);
    }
}

// Compares two texts by their bytes, with A to Z taken as a to z.
fn order(one: &[u8], other: &[u8]) -> Ordering
    ensures { result
        ≡ slice_cmp nat_cmp (map to_ascii_lowercase one.now) (map to_ascii_lowercase other.now) }
{
    let both = one.len().min(other.len());
    for i in 0..both {
        let order = one[i]
            .to_ascii_lowercase()
            .cmp(&other[i].to_ascii_lowercase());
        if order != Ordering::Equal {
            return order;
        }
    }
    one.len().cmp(&other.len())
}
