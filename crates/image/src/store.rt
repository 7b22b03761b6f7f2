// An image as a memory: its words from address 0 on, none of them writable.
ghost use Rattle.std.specs.Prelude.{◌≡◌};
ghost use Rattle.memory.specs.Meaning.{one_tag};
ghost use Rattle.image.specs.Images.{image_words};
ghost use Rattle.image.specs.Serving.{served, nowhere};
ghost use Rattle.image.specs.ServedWords.{served_is_a_word};

use crate::image::Image;
use memory::fault::{Cause, Fault, reached};
use memory::store::{Memory, Store};

/// Serves the words of an image under one tag. An image that was never opened maps no address.
#[derive(Clone, Copy)]
pub struct ImageStore<'a> {
    image: &'a Image,
    tag: u8,
}

impl<'a> ImageStore<'a> {
    /// The image as a store under a tag.
    pub fn new(image: &'a Image, tag: u8) -> ImageStore<'a>
        ensures image { result.image.now ≡ image.now }
        ensures tag { result.tag ≡ tag }
    {
        ImageStore { image, tag }
    }
}

impl<'a> Store for ImageStore<'a> {
    ghost word_at = { λ s. served (image_words s.image.now) };

    ghost tag_at = { λ s. one_tag s.tag };

    ghost only_words = { λ s. served_is_a_word s.image.now };

    fn read(&self, address: u32) -> Result<u32, Fault> {
        let word = self.image.word((address / 4) as usize);
        reached(word, address, self.tag)
    }
}

impl<'a> Memory for ImageStore<'a> {
    ghost writable_at = { λ _. nowhere };

    fn write(&mut self, address: u32, _word: u32) -> Result<(), Fault> {
        self.read(address)?;
        Err(Fault {
            cause: Cause::ReadOnly,
            address,
            tag: self.tag,
        })
    }
}
