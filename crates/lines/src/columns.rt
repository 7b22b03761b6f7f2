//! The columns whose text depends on what the event was.

ghost use Rattle.std.specs.Prelude.{◌≡◌, ◌++◌, IfOk, Some, string_bytes, codes, decimal};
ghost use Rattle.lines.specs.Columns.{kind_text, letter, flags_text, stop_text, effect_text, instruction_text};

use isa::Disassembly;
use isa::flags::Flags;
use isa::hex::Hex;
use std::alloc::{AllocError, Global};
use std::fmt;
use stepper::event::{Event, Kind, Stop};

/// The instruction's text; a dash for a word outside the subset, and where no word was read.
pub fn instruction_column(heap: Global, event: Event) -> Result<String, AllocError>
    ensures { IfOk result (λ text. string_bytes text ≡ instruction_text event) }
{
    let address = event.address;
    let instruction = event.instruction();
    let text = Disassembly {
        address,
        instruction,
    };
    text.to_string(heap)
}

/// `done`, `skipped` or `stop`.
pub fn kind_column(kind: Kind) -> &'static str
    ensures { result.now ≡ kind_text kind }
{
    match kind {
        Kind::Done => "done",
        Kind::Skipped => "skipped",
        Kind::Stopped(_) => "stop",
    }
}

fn flag_letter(set: bool, name: &'static str) -> &'static str
    ensures { result.now ≡ letter set name.now }
{
    if set { name } else { "-" }
}

/// The letters of the flags, with a dash for one that is clear.
#[derive(Clone, Copy)]
pub struct FlagsColumn(pub Flags);

impl fmt::Display for FlagsColumn {
    ghost output = { λ f. Some (flags_text f.0) };

    fn fmt<W: fmt::Write>(&self, f: &mut fmt::Formatter<W>) -> fmt::Result {
        let n = flag_letter(self.0.n, "N");
        let z = flag_letter(self.0.z, "Z");
        let c = flag_letter(self.0.c, "C");
        let v = flag_letter(self.0.v, "V");
        write!(f, "{n}{z}{c}{v}")
    }
}

/// A stop's cause, and the memory's fault if one made it.
#[derive(Clone, Copy)]
struct StopEffect(Stop);

impl fmt::Display for StopEffect {
    ghost output = { λ s. Some (stop_text s.0) };

    fn fmt<W: fmt::Write>(&self, f: &mut fmt::Formatter<W>) -> fmt::Result {
        let number = self.0.number();
        match self.0.fault() {
            Some(fault) => {
                let cause = fault.cause.number();
                let address = Hex(fault.address);
                let tag = fault.tag;
                write!(f, "  stop {number}: fault {cause} at {address}, tag {tag}")
            }
            None => write!(f, "  stop {number}"),
        }
    }
}

/// What the event changed, or why it is a stop, with the gap before it; no text if it did neither.
#[derive(Clone, Copy)]
pub struct EffectColumn(pub Event);

impl fmt::Display for EffectColumn {
    ghost output = { λ e. Some (effect_text e.0.kind e.0.register e.0.store) };

    fn fmt<W: fmt::Write>(&self, f: &mut fmt::Formatter<W>) -> fmt::Result {
        let event = self.0;
        if let Kind::Stopped(stop) = event.kind {
            let effect = StopEffect(stop);
            return write!(f, "{effect}");
        }
        match (event.register, event.store) {
            (Some(write), _) => {
                let register = write.register;
                let value = Hex(write.value);
                write!(f, "  {register} = {value}")
            }
            (None, Some(store)) => {
                let address = Hex(store.address);
                let value = Hex(store.value);
                write!(f, "  [{address}] = {value}")
            }
            (None, None) => Ok(()),
        }
    }
}
