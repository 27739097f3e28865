//! The results of workers, which can have several owners.
ghost use Rattle.std.specs.Prelude.{◌≡◌, ℕ, List, [], IfSome, IfNone};

use std::sync::Arc;

/// A result that can have several owners.
pub trait Shared: Drop {
    /// Its bytes, the same for each owner. A result that only tells that the work is done has none.
    ghost bytes_of: { Self → List ℕ };

    /// Making one more owner may fail.
    ghost refusable: { Type 0 };

    /// Returns the same result, for one more owner, or `None` if that owner can't be made. It
    /// doesn't allocate.
    fn share(&self) -> Option<Self>
        ensures same { IfSome result (λ again. bytes_of again ≡ bytes_of self.now) }
        ensures refused { IfNone result refusable };
}

impl Shared for () {
    ghost bytes_of = { λ _. [] };

    ghost refusable = { ⊥ };

    fn share(&self) -> Option<()> {
        Some(())
    }
}

/// The owners share the bytes. Making one more owner fails only if there are too many.
impl Shared for Arc<Vec<u8>> {
    ghost use Rattle.std.specs.Arc.{arc_value};

    ghost bytes_of = { λ bytes. (arc_value bytes).items };

    ghost refusable = { Unit {0} };

    fn share(&self) -> Option<Arc<Vec<u8>>> {
        Arc::try_clone(self).ok()
    }
}
