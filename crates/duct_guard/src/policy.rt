//! What a guarded system may be asked, and why a policy can't be made.
ghost use Rattle.std.specs.Prelude.{◌≡◌};
ghost use Rattle.duct_guard.specs.Rules.{Rules, request_view};

use crate::counts::Counts;
use duct_system::spec::CommandSpec;
use duct_system::system::Side;
use thiserror::Error;

/// Why a policy can't be made.
#[derive(Clone, Copy, Debug, PartialEq, Eq, Drop, Error)]
pub enum PolicyError {
    /// A folder is the empty text.
    #[error("a folder is empty")]
    EmptyFolder,
}

/// A request that a policy may forbid. Those that aren't here are always allowed: to read the
/// environment, to open a pipe, to start a worker or a reader, and to close an end.
#[derive(Clone, Copy, Debug)]
pub enum Request<'a> {
    /// To start a child by this spec. It is that of the spawn, so hooks have changed it already.
    Spawn(&'a CommandSpec),
    /// To open this file for reading.
    Read(&'a str),
    /// To open this file for writing, which creates or truncates it.
    Create(&'a str),
    /// To look up the canonical path of this path.
    Canonicalize(&'a str),
    /// To return one more end of what an end reads or writes.
    Duplicate,
    /// To return one more end of this stream of the parent.
    Parent(Side),
}

/// Which requests a guard passes on. What it allows depends on the policy and on the request alone
/// but for its limits, which the guard itself compares with what it holds. No method may block.
pub trait Policy {
    /// What it allows.
    ghost rules: { Self → Rules };

    /// Returns whether this request is allowed.
    fn allows(&self, request: Request) -> bool
        ensures { result ≡ (rules self.now).allows (request_view request.entry) };

    /// Returns the greatest numbers of ends that are open at once and of children that are ever
    /// started.
    fn limits(&self) -> Counts
        ensures { result ≡ (rules self.now).limits };

    /// Returns the greatest number of children that run at once.
    fn at_once(&self) -> usize
        ensures { result ≡ (rules self.now).at_once };
}
