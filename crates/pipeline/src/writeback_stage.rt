// Writeback: hands out the event and writes its register.
ghost use Rattle.std.specs.Prelude.{◌≡◌};
ghost use Rattle.pipeline.specs.Writeback.{handed_out, register_of, hands_out_stop};

use crate::slots::WritebackSlot;
use stepper::event::{Event, Kind, RegisterWrite};

/// The event that the slot hands out, if it is full.
pub fn event_of(slot: Option<WritebackSlot>) -> Option<Event>
    ensures { result ≡ handed_out slot }
{
    slot.map(|content| content.event)
}

/// The register that the slot writes, if it writes one.
pub fn register_of(slot: Option<WritebackSlot>) -> Option<RegisterWrite>
    ensures { result ≡ register_of slot }
{
    slot?.event.register
}

/// Whether the slot holds a stop.
pub fn holds_stop(slot: Option<WritebackSlot>) -> bool
    ensures { result ≡ hands_out_stop slot }
{
    slot.is_some_and(|content| matches!(content.event.kind, Kind::Stopped(_)))
}
