//! The pauses between the polls of a wait. No clock is read: the time waited is the sum of the
//! pauses.
ghost use Rattle.std.specs.Prelude.{◌≡◌, ◌⊎◌, ◌+◌, ◌-◌, ◌*◌, ◌^◌, ◌<◌, ◌≤◌, min, IfNone, IfSome};

use std::sync::Wait;
use std::thread::{Parker, yield_now};
use std::time::Duration;

/// How many times a wait yields before it parks.
const YIELDS: u32 = 64;

/// The first park, in microseconds. Each is twice the one before.
const FIRST: u64 = 20;

/// The longest park while the sum of the pauses is below 100 milliseconds, in microseconds.
const SHORT: u64 = 1_000;

/// The longest park, in microseconds.
const LONG: u64 = 50_000;

/// The state of a wait's pauses: some yields, then parks that grow. A park takes at most a
/// millisecond while the sum of the pauses is below 100 milliseconds, then one percent of that sum,
/// at most 50 milliseconds.
#[derive(Drop)]
pub struct Pause {
    parker: Parker,
    yields: u32,
    waited: u64,
    park: u64,
}

impl Pause {
    /// Returns the state before the first pause.
    pub fn new() -> Pause
        ensures { (result.yields ≡ 0) × (result.waited ≡ 0) × (result.park ≡ 20) }
    {
        Pause {
            parker: Parker::new(),
            yields: 0,
            waited: 0,
            park: FIRST,
        }
    }

    /// Begins the parks anew, without more yields: for a wait for several things, once one came.
    pub fn restart(&mut self)
        ensures { (self.new.yields ≡ self.old.yields) × (self.new.waited ≡ 0)
            × (self.new.park ≡ 20) }
    {
        self.waited = 0;
        self.park = FIRST;
    }

    /// How long the next pause parks, in microseconds, or `None` for one that yields.
    fn next(&mut self) -> Option<u64>
        ensures yields { IfNone result ((self.old.yields < 64)
            × (self.new.yields ≡ self.old.yields + 1)
            × (self.new.waited ≡ self.old.waited) × (self.new.park ≡ self.old.park)) }
        ensures parks { IfSome result (λ park. (park ≤ self.old.park) × (park ≤ 50000)
            × ((park ≤ 1000) ⊎ (100 * park ≤ self.old.waited))
            × (self.new.yields ≡ self.old.yields)) }
        ensures waits { IfSome result (λ park.
            self.new.waited ≡ min (self.old.waited + park) (2 ^ 64 - 1)) }
        ensures grows { IfSome result (λ park. ((park ≡ self.old.park) ⊎ (1000 ≤ park))
            × (self.new.park ≡ min (self.old.park * 2) (2 ^ 64 - 1))) }
    {
        if self.yields < YIELDS {
            self.yields += 1;
            return None;
        }
        let most = (self.waited / 100).clamp(SHORT, LONG);
        let park = self.park.min(most);
        self.park = self.park.saturating_mul(2);
        self.waited = self.waited.saturating_add(park);
        Some(park)
    }

    /// Pauses once: it yields, or blocks for at most 50 milliseconds.
    pub fn rest(&mut self, rt: &impl Wait) {
        match self.next() {
            Some(park) => self.parker.park_timeout(rt, Duration::from_micros(park)),
            None => yield_now(),
        }
    }

    /// Pauses once as `rest` does, but at most this long, and until this parker is woken.
    pub fn rest_on(&mut self, rt: &impl Wait, parker: &Parker, most: Duration) {
        match self.next() {
            Some(park) => parker.park_timeout(rt, Duration::from_micros(park).min(most)),
            None => yield_now(),
        }
    }
}
