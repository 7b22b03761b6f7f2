// The sorts of events that the clock law counts.
ghost use Rattle.std.specs.Prelude.{◌≡◌};
ghost use Rattle.refinement.specs.ClockLaw.{taken_branch, done_write_15, skipped_write_15, load_of, feeds, brought_by};

use isa::instruction::{Action, Instruction};
use isa::register::Register;
use stepper::event::{Event, Kind};

/// A branch that was done.
pub fn taken_branch(event: Event) -> bool
    ensures { result ≡ taken_branch event }
{
    let is_branch = |i: Instruction| matches!(i.action, Action::Branch { .. });
    matches!(event.kind, Kind::Done) && event.instruction().is_some_and(is_branch)
}

/// A write of register 15 that was done.
pub fn done_write_15(event: Event) -> bool
    ensures { result ≡ done_write_15 event }
{
    matches!(event.kind, Kind::Done) && event.instruction().is_some_and(Instruction::writes_15)
}

/// A write of register 15 that was skipped.
pub fn skipped_write_15(event: Event) -> bool
    ensures { result ≡ skipped_write_15 event }
{
    matches!(event.kind, Kind::Skipped) && event.instruction().is_some_and(Instruction::writes_15)
}

fn brought_by(action: Action) -> Option<Register>
    ensures { result ≡ brought_by action }
{
    match action {
        Action::Load(transfer) if transfer.rd.number() != 15 => Some(transfer.rd),
        _ => None,
    }
}

// The register that a load brings, done or skipped, if it is another than 15.
fn load_of(event: Event) -> Option<Register>
    ensures { result ≡ load_of event }
{
    match event.kind {
        Kind::Done | Kind::Skipped => brought_by(event.instruction()?.action),
        Kind::Stopped(_) => None,
    }
}

/// A load, and right behind it an instruction that has its register in a source field.
pub fn feeds(event: Event, next: Event) -> bool
    ensures { result ≡ feeds event next }
{
    let needs = |register| next.instruction().is_some_and(|i| i.reads(register));
    load_of(event).is_some_and(needs)
}
