// The words of an image, one after the other.
ghost use Rattle.std.specs.Iterator.{YieldsFirst, item_count};
ghost use Rattle.image.specs.Walks.{words_left};

use crate::image::Image;

/// The words of an image that are still to come, in order.
#[derive(Clone, Drop)]
pub struct Words<'a> {
    pub(crate) image: &'a Image,
    pub(crate) next: usize,
}

impl<'a> Iterator for Words<'a> {
    type Item = u32;

    ghost next_gives = { YieldsFirst words_left };

    ghost remaining = { item_count words_left };

    fn next(&mut self) -> Option<u32> {
        let word = self.image.word(self.next)?;
        self.next += 1;
        Some(word)
    }
}
