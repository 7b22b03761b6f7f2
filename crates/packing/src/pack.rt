// Words into the bytes of an image, block by block.
ghost use Rattle.std.specs.Prelude.{◌≡◌, length, IfOk};
ghost use Rattle.image.specs.Images.{image_words};
ghost use Rattle.packing.specs.Packed.{ImageOf, refusal_for, refused_by};

use crate::block::Payload;
use crate::error::PackError;
use image::{Image, OpenError, PAYLOAD_WORDS};
use std::alloc::Global;

/// The most words that an image has room for, 64 full blocks.
pub const MOST_WORDS: usize = 8_064;

/// The image of the words. Refused where there are none, or more than 8,064.
#[tactic(auto, using(crate::proofs::Growing::packing_all))]
pub fn pack(heap: Global, words: &[u32]) -> Result<Vec<u8>, PackError>
    ensures refusal { refused_by result ≡ refusal_for (length words.now) }
    ensures packed { IfOk result (λ bytes. ImageOf words.now bytes.items) }
{
    if words.is_empty() {
        return Err(PackError::NoWords);
    }
    if words.len() > MOST_WORDS {
        return Err(PackError::TooManyWords);
    }
    let mut bytes = Vec::new(heap);
    for (place, part) in words.chunks(PAYLOAD_WORDS).enumerate() {
        Payload::new(place as u16, part).push_onto(&mut bytes)?;
    }
    Ok(bytes)
}

/// Packs the words and opens the bytes again. They are never refused, and give the words back.
pub fn image_of(heap: Global, words: &[u32]) -> Result<Image, PackError>
    ensures refusal { refused_by result ≡ refusal_for (length words.now) }
    ensures words { IfOk result (λ image. image_words image ≡ words.now) }
{
    let bytes = pack(heap, words)?;
    let mut image = Image::new(heap);
    // No `?`: what was packed is never refused, so only want of memory is passed on.
    match image.open(heap, bytes.as_slice()) {
        Ok(()) => Ok(image),
        Err(OpenError::Refused(_)) => unreachable(),
        Err(OpenError::OutOfMemory) => Err(PackError::OutOfMemory),
    }
}
