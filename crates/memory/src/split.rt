// Two memories side by side in one range of addresses.
ghost use Rattle.std.specs.Prelude.{◌≡◌, ℕ, cond, nat_lt};
ghost use Rattle.memory.specs.Split.{either};
ghost use Rattle.memory.specs.OnlyWords.{either_is_a_word};

use super::fault::Fault;
use super::store::{Memory, Store};

/// An address below the boundary belongs to the first memory, any other to the second.
#[derive(Drop)]
pub struct Split<A, B> {
    boundary: u32,
    first: A,
    second: B,
}

impl<A, B> Split<A, B> {
    pub fn new(boundary: u32, first: A, second: B) -> Split<A, B>
        ensures boundary { result.boundary ≡ boundary }
        ensures first { result.first ≡ first }
        ensures second { result.second ≡ second }
    {
        Split {
            boundary,
            first,
            second,
        }
    }

    // Whether an address belongs to the first memory.
    fn in_first(&self, address: u32) -> bool
        ensures { result ≡ nat_lt address self.now.boundary }
    {
        address < self.boundary
    }
}

impl<A: Store, B: Store> Store for Split<A, B> {
    ghost word_at = { λ m. either m.boundary (A.Store.word_at m.first) (B.Store.word_at m.second) };

    ghost tag_at = { λ m. either m.boundary (A.Store.tag_at m.first) (B.Store.tag_at m.second) };

    ghost only_words = { λ m. either_is_a_word m.boundary (A.Store.word_at m.first) (B.Store.word_at m.second) (A.Store.only_words m.first) (B.Store.only_words m.second) };

    fn read(&self, address: u32) -> Result<u32, Fault> {
        if self.in_first(address) {
            self.first.read(address)
        } else {
            self.second.read(address)
        }
    }
}

impl<A: Memory, B: Memory> Memory for Split<A, B> {
    ghost writable_at = { λ m. either m.boundary (A.Memory.writable_at m.first) (B.Memory.writable_at m.second) };

    fn write(&mut self, address: u32, word: u32) -> Result<(), Fault> {
        if self.in_first(address) {
            self.first.write(address, word)
        } else {
            self.second.write(address, word)
        }
    }
}
