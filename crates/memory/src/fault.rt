// What a memory answers when it refuses an access.
ghost use Rattle.std.specs.Prelude.{◌≡◌};
ghost use Rattle.memory.specs.Fault.{number};
ghost use Rattle.memory.specs.Meaning.{one_tag, reached};

/// Why an access is refused.
#[derive(Clone, Copy, PartialEq, Eq, Debug)]
pub enum Cause {
    /// The address is no multiple of four.
    Unaligned = 10,
    /// No word stands at the address.
    Unmapped = 11,
    /// A word stands there, but may not be changed.
    ReadOnly = 12,
}

/// A refused access: why, at which address, and the tag of that address.
#[derive(Clone, Copy, PartialEq, Eq, Debug)]
pub struct Fault {
    pub cause: Cause,
    pub address: u32,
    pub tag: u8,
}

impl Cause {
    /// The number by which users know the cause: 10, 11 or 12.
    pub fn number(self) -> u8
        ensures { result ≡ number self }
    {
        self as u8
    }
}

/// What was found at an address, or the fault that an access there meets: no multiple of four, then nothing found.
pub fn reached<T: Drop>(found: Option<T>, address: u32, tag: u8) -> Result<T, Fault>
    ensures { result ≡ reached found (one_tag tag) address }
{
    if address % 4 != 0 {
        return Err(Fault {
            cause: Cause::Unaligned,
            address,
            tag,
        });
    }
    found.ok_or(Fault {
        cause: Cause::Unmapped,
        address,
        tag,
    })
}
