// One line of the text, byte by byte: which bytes may follow which, and the word that they spell.
ghost use Rattle.std.specs.Prelude.{◌≡◌};
ghost use Rattle.packing.specs.Lines.{kind_of, stepped};

use crate::digits::{Digit, Spelled};
use crate::error::Reason;

/// What a byte is to a line.
#[derive(Clone, Copy)]
pub enum Kind {
    Digit(Digit),
    Blank,
    Hash,
    Other,
}

/// How far a line has been read.
#[derive(Clone, Copy)]
pub enum Place {
    /// No word so far.
    Before,
    /// Inside the word.
    Within(Spelled),
    /// Behind the word.
    Behind(u32),
    /// In a comment, behind the word if the line has one.
    Comment(Option<u32>),
}

pub fn kind_of(byte: u8) -> Kind
    ensures { result ≡ kind_of byte }
{
    match byte {
        b' ' | b'\t' | b'\r' => Kind::Blank,
        b'#' => Kind::Hash,
        b'0'..=b'9' => Kind::Digit(Digit { value: byte - b'0' }),
        b'A'..=b'F' => Kind::Digit(Digit {
            value: byte - b'A' + 10,
        }),
        b'a'..=b'f' => Kind::Digit(Digit {
            value: byte - b'a' + 10,
        }),
        _ => Kind::Other,
    }
}

/// Where the next byte stands, if a byte of this kind may stand here.
pub fn step(place: &Place, kind: Kind) -> Result<Place, Reason>
    ensures { result ≡ stepped place.now kind }
{
    match (place, kind) {
        (Place::Before, Kind::Digit(digit)) => Ok(Place::Within(Spelled::first(digit))),
        (Place::Before, Kind::Blank) => Ok(Place::Before),
        (Place::Before, Kind::Hash) => Ok(Place::Comment(None)),
        (Place::Within(word), Kind::Digit(digit)) => {
            let more = word.followed_by(digit).ok_or(Reason::TooLong)?;
            Ok(Place::Within(more))
        }
        (Place::Within(word), Kind::Blank) => Ok(Place::Behind(word.word())),
        (Place::Within(word), Kind::Hash) => Ok(Place::Comment(Some(word.word()))),
        (Place::Before | Place::Within(_), Kind::Other) => Err(Reason::NotHex),
        (Place::Behind(word), Kind::Blank) => Ok(Place::Behind(*word)),
        (Place::Behind(word), Kind::Hash) => Ok(Place::Comment(Some(*word))),
        (Place::Behind(_), _) => Err(Reason::TwoWords),
        (Place::Comment(word), _) => Ok(Place::Comment(*word)),
    }
}
