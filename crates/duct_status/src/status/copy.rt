//! Copies of events, made without an allocation.
ghost use Rattle.std.specs.Prelude.{◌≡◌, IfOk};
ghost use Rattle.duct_status.specs.EventView.{bytes_said, event_view};

use crate::status::Event;
use duct_system::system::Said;
use std::alloc::AllocError;
use std::sync::Arc;

/// Returns the same report, with one more owner of its bytes. Fails only if that owner can't be
/// made.
fn copy_said(said: &Said<Arc<Vec<u8>>>) -> Result<Said<Arc<Vec<u8>>>, AllocError>
    ensures { IfOk result (λ copy. bytes_said copy ≡ bytes_said said.now) }
{
    match said {
        Said::Running => Ok(Said::Running),
        Said::Done(bytes) => Ok(Said::Done(bytes.clone()?)),
        Said::Fault(fault) => Ok(Said::Fault(*fault)),
    }
}

/// Returns the same event, with one more owner of its bytes. Fails only if that owner can't be
/// made.
pub(crate) fn copy(event: &Event) -> Result<Event, AllocError>
    ensures { IfOk result (λ copy. event_view copy ≡ event_view event.now) }
{
    match event {
        Event::Command(at, word) => Ok(Event::Command(*at, *word)),
        Event::Input(at, said) => Ok(Event::Input(*at, *said)),
        Event::Drain(side, said) => {
            let said = copy_said(said)?;
            Ok(Event::Drain(*side, said))
        }
        Event::Conclude => Ok(Event::Conclude),
    }
}
