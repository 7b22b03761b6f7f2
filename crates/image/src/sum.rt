// The sum by which a block is checked.
ghost use Rattle.std.specs.Prelude.{◌≡◌, ◌%◌, ◌^◌, sum};

/// What the words of a block, its check word among them, add up to.
pub const RIGHT_SUM: u32 = 0xFFFF_FFFF;

/// What the words add up to, modulo 2^32.
pub fn sum_of(words: &[u32]) -> u32
    ensures { result ≡ sum words.now % 2 ^ 32 }
{
    words
        .iter()
        .fold(0, |total: u32, word| total.wrapping_add(*word))
}
