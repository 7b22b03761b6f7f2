// The bytes of one block, put behind those of the blocks before it.
ghost use Rattle.std.specs.Prelude.{◌≡◌, ◌≤◌, ◌++◌, length, OnOk};
ghost use Rattle.std.specs.List.{flat_map};
ghost use Rattle.packing.specs.Blocks.{block_of, check_word, filler_for, head_of, little_endian};

use image::{PAYLOAD_WORDS, RIGHT_SUM, sum_of};
use std::alloc::AllocError;

const FILLER: [u32; PAYLOAD_WORDS] = [0; PAYLOAD_WORDS];

/// The words that a block carries, and the block's place.
#[derive(Clone, Copy)]
pub struct Payload<'a> {
    place: u16,
    words: &'a [u32],
    ghost few: { length words.now ≤ 126 },
}

fn push_words(bytes: &mut Vec<u8>, words: &[u32]) -> Result<(), AllocError>
    ensures { OnOk result (bytes.new.items ≡ bytes.old.items ++ flat_map little_endian words.now) }
{
    for word in words {
        bytes.extend_from_slice(&word.to_le_bytes())?;
    }
    Ok(())
}

impl<'a> Payload<'a> {
    pub fn new(place: u16, words: &'a [u32]) -> Payload<'a>
        requires { length words.now ≤ 126 }
        ensures place { result.place ≡ place }
        ensures words { result.words.now ≡ words.now }
    {
        Payload { place, words }
    }

    // The first word of the block: its place, and how many words it carries.
    fn head(&self) -> u32
        ensures { result ≡ head_of self.now.place self.now.words.now }
    {
        u32::from(self.place) + self.words.len() as u32 * 65536
    }

    // The last word of the block, which makes up its sum.
    fn check_word(&self) -> u32
        ensures { result ≡ check_word self.now.place self.now.words.now }
    {
        RIGHT_SUM - self.head().wrapping_add(sum_of(self.words))
    }

    // The zeros that fill up the block.
    fn filler(&self) -> &'static [u32]
        ensures { result.now ≡ filler_for self.now.words.now }
    {
        &FILLER[self.words.len()..]
    }

    /// Adds the block: place and count, the words, zeros and the check word.
    pub fn push_onto(&self, bytes: &mut Vec<u8>) -> Result<(), AllocError>
        ensures { OnOk result (bytes.new.items ≡ bytes.old.items ++ flat_map little_endian (block_of self.now.place self.now.words.now)) }
    {
        push_words(bytes, &[self.head()])?;
        push_words(bytes, self.words)?;
        push_words(bytes, self.filler())?;
        push_words(bytes, &[self.check_word()])?;
        Ok(())
    }
}
