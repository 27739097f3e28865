//! A value for each of the two output streams.
ghost use Rattle.std.specs.Prelude.{◌≡◌};
ghost use Rattle.std.specs.Borrow.{sem};
ghost use Rattle.duct_status.specs.PerSide.{at_side};

use duct_system::system::Side;

/// A value for stdout and one for stderr.
#[derive(Debug, PartialEq, Eq, Drop)]
pub struct PerSide<T> {
    /// Stdout's.
    pub out: T,
    /// Stderr's.
    pub err: T,
}

impl<T> PerSide<T> {
    ghost use Rattle.duct_status.specs.LendsSide.{LendsSide};

    /// Returns the value of this stream.
    pub fn of(&self, side: Side) -> &T
        ensures { result.now ≡ at_side self.now side }
    {
        match side {
            Side::Out => &self.out,
            Side::Err => &self.err,
        }
    }

    /// Lends the value of this stream.
    pub fn of_mut(&mut self, side: Side) -> &mut T
        ensures* writes_back { sem 𝓛 (LendsSide T.row self.entry side result) }
        ensures value { result.now ≡ at_side self.old side }
    {
        match side {
            Side::Out => &mut self.out,
            Side::Err => &mut self.err,
        }
    }
}
