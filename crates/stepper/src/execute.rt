// What a done instruction makes of its operands: the flags after it, and the work that is left.
ghost use Rattle.std.specs.Prelude.{◌≡◌};
ghost use Rattle.isa.specs.declared.instruction.Action.TheVariants.{Data};
ghost use Rattle.stepper.specs.Execute.{work_of, flags_of};

use super::event::{MemoryWrite, RegisterWrite};
use isa::flags::Flags;
use isa::instruction::{Action, DataProcessing};
use isa::operation::Operation;
use isa::register::Register;
use isa::roles::byte_offset;

/// What is left to do once an instruction has its operands.
#[derive(Clone, Copy, PartialEq, Eq, Debug)]
pub enum Work {
    /// A comparison: only the flags change.
    Compare,
    /// A result for a register.
    Write(RegisterWrite),
    /// A word of the data memory for a register.
    Load { register: Register, address: u32 },
    /// A word for the data memory.
    Store(MemoryWrite),
    /// A jump to an address.
    Branch { target: u32 },
}

fn arithmetic(of: DataProcessing, first: u32, second: u32, flags: Flags) -> (Work, Flags)
    ensures work { result.0 ≡ work_of (Data of) first second }
    ensures flags { result.1 ≡ flags_of (Data of) first second flags }
{
    let (value, set) = of.operation.apply(first, of.operand.value(second), flags);
    let work = match of.operation {
        Operation::Cmp => Work::Compare,
        _ => Work::Write(RegisterWrite {
            register: of.rd,
            value,
        }),
    };
    (work, if of.set_flags { set } else { flags })
}

/// The work and the flags of an instruction that is done, from the values of its two source registers.
pub fn execute(action: Action, first: u32, second: u32, flags: Flags) -> (Work, Flags)
    ensures work { result.0 ≡ work_of action first second }
    ensures flags { result.1 ≡ flags_of action first second flags }
{
    match action {
        Action::Data(data) => arithmetic(data, first, second, flags),
        Action::Load(transfer) => {
            let address = first.wrapping_add(u32::from(transfer.offset));
            let register = transfer.rd;
            (Work::Load { register, address }, flags)
        }
        Action::Store(transfer) => {
            let address = first.wrapping_add(u32::from(transfer.offset));
            let value = second;
            (Work::Store(MemoryWrite { address, value }), flags)
        }
        Action::Branch { offset } => {
            let target = first.wrapping_add(byte_offset(offset));
            (Work::Branch { target }, flags)
        }
    }
}
