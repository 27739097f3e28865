//! What contracts read of a system and its handles, under one name.
ghost use Rattle.std.specs.declared.alloc.Global.{Global};
ghost use Rattle.std.specs.declared.sync.Arc.{Arc};
ghost use Rattle.std.specs.Prelude.{ℕ, Vec};
ghost use Rattle.duct_system.specs.SystemViews.{SystemViews};

use crate::system::System;

/// Every `System` has this trait, and no bound names it. Under the bound `S: System` a clause
/// writes `⟦<S as Viewed>⟧.views`.
pub trait Viewed: System {
    /// The views of the system and its handles.
    ghost views: { SystemViews Self Self.End Self.Child Self.Feed Self.Drain (Unit {0})
        (Arc (Vec ℕ Global) Global) };
}

impl<S: System> Viewed for S {
    ghost views = { record {
      journal = S.journal_view;
      number_of = S.End.number_of;
      child = S.Child.child_view;
      may_answer = S.Child.may_answer;
      may_obey = S.Child.may_obey;
      feed = S.Feed.job_view;
      feed_says = S.Feed.may_say;
      feed_same = S.Feed.same;
      feed_refusable = S.Feed.refusable;
      drain = S.Drain.job_view;
      drain_says = S.Drain.may_say;
      drain_same = S.Drain.same;
      drain_refusable = S.Drain.refusable;
    } };
}
