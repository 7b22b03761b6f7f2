//! A word as the program reads it.

ghost use Rattle.std.specs.Prelude.{◌≡◌};
ghost use Rattle.words.specs.Hexadecimal.{word_in};

/// The word that eight hexadecimal digits stand for; none if the line is anything else.
pub fn word_in(line: &str) -> Option<u32>
    ensures { result ≡ word_in line.now }
{
    // The library's call would take a sign for the first of the eight.
    if line.len() == 8 && !line.starts_with('+') {
        u32::from_str_radix(line, 16).ok()
    } else {
        None
    }
}
