// Why bytes are not opened: what is wrong with them, or that memory ran out.
ghost use Rattle.std.specs.Prelude.{◌≡◌};
ghost use Rattle.image.specs.declared.refusal.OpenError.TheVariants.{OutOfMemory, Refused};
ghost use Rattle.image.specs.Refusals.{refusal_number, refusal_place};

use std::alloc::AllocError;

/// The first test that the bytes fail. A fault inside a block names the block by its place, counted from 0.
#[derive(Clone, Copy, PartialEq, Eq, Debug)]
pub enum Refusal {
    /// No bytes, no whole number of blocks, or more than 64.
    Length,
    /// The words of the block do not add up.
    Check(u16),
    /// The block names another place than its own.
    Place(u16),
    /// The block carries fewer or more words than it may at its place.
    Count(u16),
    /// A word that only fills up the block is not 0.
    Filler(u16),
}

impl Refusal {
    /// The number under which users know the refusal.
    pub fn number(&self) -> u8
        ensures { result ≡ refusal_number self.now }
    {
        // Variants that carry a place have no discriminants.
        match self {
            Refusal::Length => 1,
            Refusal::Check(_) => 2,
            Refusal::Place(_) => 3,
            Refusal::Count(_) => 4,
            Refusal::Filler(_) => 5,
        }
    }

    /// The place of the block at fault; 0 where the length is, since no block is then read.
    pub fn place(&self) -> u16
        ensures { result ≡ refusal_place self.now }
    {
        match self {
            Refusal::Length => 0,
            Refusal::Check(place)
            | Refusal::Place(place)
            | Refusal::Count(place)
            | Refusal::Filler(place) => *place,
        }
    }
}

/// Memory can run out only for bytes that were found sound.
#[derive(Clone, Copy, PartialEq, Eq, Debug)]
pub enum OpenError {
    /// The bytes are no image.
    Refused(Refusal),
    /// They are one, but there was no memory for its blocks.
    OutOfMemory,
}

/// What `?` makes of a refusal.
impl From<Refusal> for OpenError {
    ghost from_gives = { λ refusal r. r ≡ Refused refusal };

    fn from(refusal: Refusal) -> OpenError {
        OpenError::Refused(refusal)
    }
}

/// What `?` makes of want of memory.
impl From<AllocError> for OpenError {
    ghost from_gives = { λ _ r. r ≡ OutOfMemory };

    fn from(_error: AllocError) -> OpenError {
        OpenError::OutOfMemory
    }
}
