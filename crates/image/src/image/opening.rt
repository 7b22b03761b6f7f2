// Opening bytes: all tests first, then the blocks are read, and only then does the image change.
ghost use Rattle.std.specs.Prelude.{◌≡◌, true, [], IfOk, OnErr, OnOk};
ghost use Rattle.std.specs.List.{flat_map};
ghost use Rattle.image.specs.Exactness.{RefusedExactly};
ghost use Rattle.image.specs.Formats.{Format};
ghost use Rattle.image.specs.Images.{bytes_words, image_words, refused_by, words_in};
ghost use Rattle.image.specs.Packing.{well_filled};
ghost use Rattle.image.specs.FirstRefusal.{refusal_of};

use crate::block::Block;
use crate::faults::check;
use crate::image::Image;
use crate::layout::block_words;
use crate::refusal::OpenError;
use std::alloc::{AllocError, Global};

// Reads the blocks of bytes that passed every test.
fn read_blocks(heap: Global, bytes: &[u8]) -> Result<Vec<Block>, AllocError>
    requires { Format bytes.now }
    ensures filled { IfOk result (λ read. well_filled read.items ≡ true) }
    ensures words { IfOk result (λ read. flat_map words_in read.items ≡ bytes_words bytes.now) }
{
    let (blocks, _) = bytes.as_chunks();
    let mut read = Vec::new(heap);
    for block in blocks {
        read.push(Block::new(&block_words(block)))?;
    }
    Ok(read)
}

impl Image {
    /// An image with no words.
    pub fn new(heap: Global) -> Image
        ensures { image_words result ≡ [] }
    {
        Image {
            blocks: Vec::new(heap),
        }
    }

    /// Takes the words of `bytes` in place of its own. Unless that succeeds the image stays as it was.
    pub fn open(&mut self, heap: Global, bytes: &[u8]) -> Result<(), OpenError>
        ensures refusal { refused_by result ≡ refusal_of bytes.now }
        ensures exact { RefusedExactly bytes.now }
        ensures opened { OnOk result (Format bytes.now × (image_words self.new ≡ bytes_words bytes.now)) }
        ensures unchanged { OnErr result (self.new ≡ self.old) }
    {
        check(bytes)?;
        self.blocks = read_blocks(heap, bytes)?;
        Ok(())
    }
}
