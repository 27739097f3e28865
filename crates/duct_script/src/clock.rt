//! A clock that returns the times of a list.
ghost use Rattle.std.specs.Prelude.{◌≡◌};
ghost use Rattle.duct_script.specs.Answers.{Shows};

use duct_system::system::Clock;
use std::sync::atomic::{AtomicU64, Ordering};
use std::time::Duration;

/// A clock that returns the next time of a list at each call of `now`. The last one is repeated;
/// with an empty list the clock returns its zero. Threads may share it.
#[derive(Drop)]
pub struct ScriptClock {
    moments: Vec<Duration>,
    asked: AtomicU64,
}

impl ScriptClock {
    /// Returns a clock with these times.
    pub fn new(moments: Vec<Duration>) -> ScriptClock
        ensures { result.moments ≡ moments }
    {
        ScriptClock {
            moments,
            asked: AtomicU64::new(0),
        }
    }

    /// Returns how often the time was read.
    pub fn asked(&self) -> u64 {
        self.asked.load(Ordering::SeqCst)
    }
}

impl Clock for ScriptClock {
    ghost may_show = { λ c moment. Shows c.moments.items moment };

    fn now(&self) -> Duration {
        let place = self.asked.fetch_add(1, Ordering::SeqCst);
        let moments = self.moments.as_slice();
        let moment = moments.get(place as usize).or(moments.last());
        moment.copied().unwrap_or(Duration::ZERO)
    }
}
