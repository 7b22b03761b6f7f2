// The image type. Its calls stand in the modules below, since they cite definitions that name it.
ghost use Rattle.std.specs.Prelude.{◌≡◌, true};
ghost use Rattle.image.specs.Packing.{well_filled};

use crate::block::Block;

mod opening;
mod reading;

/// The words of the bytes that were opened last; none before that.
#[derive(Drop)]
pub struct Image {
    blocks: Vec<Block>,
    ghost full: { well_filled blocks.items ≡ true },
}
