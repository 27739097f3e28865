//! Pauses between two starts or two tries, each longer than the one before.
ghost use Rattle.std.specs.Prelude.{◌≡◌};
ghost use Rattle.std.specs.Duration.{as_nanos};
ghost use Rattle.duct_tasks.specs.Until.{HasPassed};
ghost use Rattle.duct_tasks.specs.Pauses.{longer_than};

use crate::watch::is_over;
use duct_base::pause::Pause;
use duct_base::system::Clock;
use std::sync::Wait;
use std::time::Duration;

/// Returns the pause after this one: `first` where that is zero, or twice as long; but no longer
/// than `greatest`.
pub(crate) fn longer(pause: Duration, first: Duration, greatest: Duration) -> Duration
    ensures { as_nanos result ≡ longer_than first greatest (as_nanos pause) }
{
    let next = if pause.is_zero() {
        first
    } else {
        pause.saturating_mul(2)
    };
    if next.as_nanos() <= greatest.as_nanos() {
        next
    } else {
        greatest
    }
}

/// Pauses for this long.
pub(crate) fn pause<C: Clock>(rt: &impl Wait, clock: &C, pause: Duration)
    ensures { HasPassed (C.may_show clock.now) pause }
{
    let mut pauses = Pause::new();
    let end = clock.now().saturating_add(pause);
    for _ in rt.forever() {
        if is_over(clock, end) {
            return;
        }
        pauses.rest(rt);
    }
    unreachable!()
}
