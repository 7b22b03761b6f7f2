// Where the parts of an image stand in its bytes.
ghost use Rattle.std.specs.Prelude.{◌≡◌};
ghost use Rattle.image.specs.Layout.{block_words, count_of, place_of};

use std::array;

pub const MOST_BLOCKS: usize = 64;

pub const BLOCK_BYTES: usize = 512;

pub const BLOCK_WORDS: usize = 128;
/// The check word is the last of a block.
pub const CHECK_WORD: usize = 127;
/// The words of a block between its first and its check word.
pub const PAYLOAD_WORDS: usize = 126;

/// All words of a block, each of four bytes with the lowest first.
pub fn block_words(block: &[u8; BLOCK_BYTES]) -> [u32; BLOCK_WORDS]
    ensures { result ≡ block_words block.now 0 }
{
    let (words, _) = block.as_chunks();
    array::from_fn(|k| u32::from_le_bytes(words[k]))
}

/// The place that a block gives itself, in the low half of its first word.
pub fn place_of(words: &[u32; BLOCK_WORDS]) -> u16
    ensures { result ≡ place_of words.now }
{
    (words[0] % 65536) as u16
}

/// How many words a block says that it carries, in the high half of its first word.
pub fn count_of(words: &[u32; BLOCK_WORDS]) -> u16
    ensures { result ≡ count_of words.now }
{
    (words[0] / 65536) as u16
}
