// One block of an image, as it is kept.
ghost use Rattle.std.specs.Prelude.{◌≡◌, ◌≤◌, length, take};
ghost use Rattle.std.specs.List.{between};
ghost use Rattle.image.specs.Layout.{count_of, word_of};

use crate::layout::{BLOCK_WORDS, CHECK_WORD, PAYLOAD_WORDS, count_of};

/// The words between a block's head and its check word, of which the first `count` belong to the image.
// An array and a count: by a rule of the project the image store stands over blocks, each of one size.
#[derive(Drop)]
pub struct Block {
    words: [u32; PAYLOAD_WORDS],
    pub(crate) count: u16,
    ghost within: { count ≤ length words },
}

impl Block {
    pub(crate) fn new(words: &[u32; BLOCK_WORDS]) -> Block
        requires { count_of words.now ≤ 126 }
        ensures kept { result.words ≡ between 1 127 words.now }
        ensures counted { result.count ≡ count_of words.now }
    {
        let mut kept = [0; PAYLOAD_WORDS];
        kept.copy_from_slice(&words[1..CHECK_WORD]);
        Block {
            words: kept,
            count: count_of(words),
        }
    }

    pub(crate) fn word(&self, offset: usize) -> Option<u32>
        ensures { result ≡ word_of (take self.now.count self.now.words) offset }
    {
        self.words[..usize::from(self.count)].get(offset).copied()
    }
}
