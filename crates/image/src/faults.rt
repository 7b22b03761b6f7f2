// Which test bytes fail first. Nothing is allocated here.
ghost use Rattle.std.specs.Prelude.{◌≡◌, ◌<◌, ◌≤◌};
ghost use Rattle.std.specs.Result.{result_err};
ghost use Rattle.image.specs.Exactness.{RefusedExactly};
ghost use Rattle.image.specs.FirstRefusal.{all_zero, block_refusal, count_fits, refusal_of, size_fits};
ghost use Rattle.image.specs.Layout.{count_of, filler};

use crate::layout::{
    BLOCK_BYTES, BLOCK_WORDS, CHECK_WORD, MOST_BLOCKS, PAYLOAD_WORDS, block_words, count_of,
    place_of,
};
use crate::refusal::Refusal;
use crate::sum::{RIGHT_SUM, sum_of};

fn size_fits(size: usize) -> bool
    ensures { result ≡ size_fits size }
{
    size != 0 && size % BLOCK_BYTES == 0 && size <= MOST_BLOCKS * BLOCK_BYTES
}

// Only the last block may carry fewer words than it has room for.
fn count_fits(count: u16, place: u16, blocks: u16) -> bool
    requires { place < blocks }
    ensures { result ≡ count_fits blocks place count }
{
    let count = usize::from(count);
    if place + 1 < blocks {
        count == PAYLOAD_WORDS
    } else {
        (1..=PAYLOAD_WORDS).contains(&count)
    }
}

fn filler_is_zero(words: &[u32; BLOCK_WORDS]) -> bool
    requires { count_of words.now ≤ 126 }
    ensures { result ≡ all_zero (filler words.now) }
{
    let count = usize::from(count_of(words));
    words[count + 1..CHECK_WORD].iter().all(|word| *word == 0)
}

fn check_block(words: &[u32; BLOCK_WORDS], place: u16, blocks: u16) -> Result<(), Refusal>
    requires { place < blocks }
    ensures { result_err result ≡ block_refusal blocks place words.now }
{
    if sum_of(words) != RIGHT_SUM {
        return Err(Refusal::Check(place));
    }
    if place_of(words) != place {
        return Err(Refusal::Place(place));
    }
    if !count_fits(count_of(words), place, blocks) {
        return Err(Refusal::Count(place));
    }
    if !filler_is_zero(words) {
        return Err(Refusal::Filler(place));
    }
    Ok(())
}

/// Tests whether the bytes are an image.
pub fn check(bytes: &[u8]) -> Result<(), Refusal>
    ensures value { result_err result ≡ refusal_of bytes.now }
    ensures exact { RefusedExactly bytes.now }
{
    if !size_fits(bytes.len()) {
        return Err(Refusal::Length);
    }
    let (blocks, _) = bytes.as_chunks();
    for (place, block) in blocks.iter().enumerate() {
        check_block(&block_words(block), place as u16, blocks.len() as u16)?;
    }
    Ok(())
}
