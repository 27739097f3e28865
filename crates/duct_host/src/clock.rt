//! The machine's clock, for waits with a deadline.
ghost use Rattle.std.specs.Prelude.{◌+◌};
ghost use Rattle.std.specs.Duration.{as_nanos};
ghost use Rattle.std.specs.Time.{instant_nanos, FitsClock};

use duct_base::system::Clock;
use std::time::{Duration, Instant};
use std::{io, rt};

/// The machine's monotonic clock, by the runtime `R`. Its zero is the moment at which it was made.
#[derive(Drop)]
pub struct HostClock<R> {
    rt: R,
    zero: Instant,
    ghost zero_fits: { FitsClock (instant_nanos zero) },
}

impl<R: rt::Clock + Drop> HostClock<R> {
    /// Makes a clock that shows zero now. It keeps the runtime, for which a reference is enough. It
    /// doesn't block or allocate. Fails if the machine doesn't tell the time.
    ///
    /// Example: `let clock = HostClock::new(&rt)?;`
    pub fn new(rt: R) -> io::Result<HostClock<R>> {
        let zero = Instant::now(&rt)?;
        Ok(HostClock { rt, zero })
    }
}

/// It shows the time that has passed since its zero, which never goes back on the real machine. It
/// shows zero while the machine doesn't tell the time. What it shows is promised to end before
/// 2^63 seconds of the machine, and nothing more.
impl<R: rt::Clock> Clock for HostClock<R> {
    ghost may_show = { λ clock moment. FitsClock (instant_nanos clock.zero + as_nanos moment) };

    fn now(&self) -> Duration {
        match Instant::now(&self.rt) {
            Ok(moment) => moment.duration_since(self.zero),
            Err(_) => Duration::ZERO,
        }
    }
}
