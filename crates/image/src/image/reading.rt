// Looking words up. What was tested when the image was opened is not tested again.
ghost use Rattle.std.specs.Prelude.{◌≡◌, ◌+◌, ◌-◌, ◌*◌, ◌%◌, ◌≤◌, length, None, vec_len, MatchOption, ◌==◌};
ghost use Rattle.image.specs.Images.{image_words, words_in};
ghost use Rattle.image.specs.Layout.{word_of};
ghost use Rattle.image.specs.Walks.{words_left};

use crate::block::Block;
use crate::image::Image;
use crate::layout::PAYLOAD_WORDS;
use crate::words::Words;

impl Image {
    /// How many words the image has.
    pub fn len(&self) -> usize
        ensures { result ≡ length (image_words self.now) }
    {
        let Some(last) = self.last_block() else {
            return 0;
        };
        (self.blocks.len() - 1) * PAYLOAD_WORDS + usize::from(last.count)
    }

    /// Whether it has none.
    pub fn is_empty(&self) -> bool
        ensures { result ≡ (length (image_words self.now) == 0) }
    {
        self.len() == 0
    }

    /// The word number `index`, counted from 0.
    pub fn word(&self, index: usize) -> Option<u32>
        ensures { result ≡ word_of (image_words self.now) index }
    {
        self.block_of(index)?.word(index % PAYLOAD_WORDS)
    }

    /// The words in order.
    pub fn words(&self) -> Words<'_>
        ensures { words_left result ≡ image_words self.now }
    {
        Words {
            image: self,
            next: 0,
        }
    }

    // All blocks before the last are full, so its count settles how many words there are.
    fn last_block(&self) -> Option<&Block>
        ensures { MatchOption result (length (image_words self.now) ≡ 0) (λ last. (1 ≤ vec_len self.now.blocks) × (length (image_words self.now) ≡ (vec_len self.now.blocks - 1) * 126 + last.now.count)) }
    {
        self.blocks.as_slice().last()
    }

    // The block that has the word number `index`, if any block has. Those before it are full, so one division finds it.
    fn block_of(&self, index: usize) -> Option<&Block>
        ensures { MatchOption result (word_of (image_words self.now) index ≡ None) (λ block. word_of (image_words self.now) index ≡ word_of (words_in block.now) (index % 126)) }
    {
        self.blocks.get(index / PAYLOAD_WORDS)
    }
}
