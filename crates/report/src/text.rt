//! The text of a line while it is made, with no heap: an array and a length, since the libraries use no crate beside std.

ghost use Rattle.std.specs.Prelude.{◌≡◌, ◌+◌, ◌%◌, ◌≤◌, [], ◌++◌, length, take, drop, decimal, List, ℕ};

use std::marker::Model;

/// At most 80 bytes. Clauses see those that were put so far.
// Each method says how much room it needs: with a `Result` in place of that, `line` could fail.
#[derive(Drop)]
pub(super) struct Text {
    bytes: [u8; 80],
    length: usize,
}

impl Model for Text {
    ghost Value = { List ℕ };

    ghost view = { λ t. take t.length t.bytes };

    ghost invariant = { λ t. t.length ≤ 80 };
}

impl Text {
    /// No text.
    pub(super) fn new() -> Text
        ensures { result ≡ [] }
    {
        Text {
            bytes: [0; 80],
            length: 0,
        }
    }

    /// Bytes as they are.
    pub(super) fn put(&mut self, text: &[u8])
        requires { length self.old + length text.now ≤ 80 }
        ensures { self.new ≡ self.old ++ text.now }
    {
        let end = self.length + text.len();
        self.bytes[self.length..end].copy_from_slice(text);
        self.length = end;
    }

    /// A number in decimal digits, without leading zeros: ten at most.
    pub(super) fn put_decimal(&mut self, number: u32)
        requires { length self.old + 10 ≤ 80 }
        ensures text { self.new ≡ self.old ++ decimal number }
        ensures most { length self.new ≤ length self.old + 10 }
    {
        if number < 10 {
            self.put(&[b'0' + number as u8]);
        } else {
            self.put_decimal(number / 10);
            self.put(&[b'0' + (number % 10) as u8]);
        }
    }

    /// Copies the text to the front of a buffer and answers its length; the bytes behind it stay as they were.
    pub(super) fn copy_to(&self, buffer: &mut [u8; 80]) -> usize
        ensures length { result ≡ length self.now }
        ensures fits { result ≤ 80 }
        ensures bytes { buffer.new ≡ self.now ++ drop (length self.now) buffer.old }
    {
        buffer[..self.length].copy_from_slice(&self.bytes[..self.length]);
        self.length
    }
}
