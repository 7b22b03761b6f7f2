// A memory over words that the caller lends.
ghost use Rattle.std.specs.Prelude.{◌≡◌, ℕ, ◌%◌, length, is_ok, if◌then◌else◌};
ghost use Rattle.memory.specs.Meaning.{writing, put, one_tag};
ghost use Rattle.memory.specs.Bank.{checked, index_of, placed, bank_words, stored, everywhere, refusal_number};
ghost use Rattle.memory.specs.OnlyWords.{bank_is_a_word};

use super::fault::{Fault, reached};
use super::store::{Memory, Store};

/// The most words that one bank serves.
pub const MOST_WORDS: usize = 8192;

/// Which figure keeps a bank from serving its words.
#[derive(Clone, Copy, PartialEq, Eq, Debug)]
pub enum BankRefusal {
    /// Fewer than 1 word or more than 8,192.
    Count,
    /// The base address is no multiple of four.
    Base,
    /// The last word would end above 2^32.
    End,
}

impl BankRefusal {
    /// The number by which users know the refusal: 14 in every case.
    pub fn number(self) -> u8
        ensures { result ≡ refusal_number self }
    {
        // One number for all three, which discriminants cannot say.
        match self {
            BankRefusal::Count | BankRefusal::Base | BankRefusal::End => 14,
        }
    }
}

/// Whether a bank of that many words can stand at that base.
pub fn check(base: u32, count: usize) -> Result<(), BankRefusal>
    ensures { result ≡ checked base count }
{
    if count < 1 || count > MOST_WORDS {
        return Err(BankRefusal::Count);
    }
    if base % 4 != 0 {
        return Err(BankRefusal::Base);
    }
    if u64::from(base) + 4 * count as u64 > 0x1_0000_0000 {
        return Err(BankRefusal::End);
    }
    Ok(())
}

/// Serves lent words from a base address on, all writable, under one tag.
/// With figures that `check` refuses it maps no address.
#[derive(Drop)]
pub struct Bank<'a> {
    base: u32,
    words: &'a mut [u32],
    tag: u8,
}

// The place of the word at an address, in a bank of that base and count.
fn index_of(base: u32, count: usize, address: u32) -> Option<usize>
    ensures { result ≡ index_of base count address }
{
    check(base, count).ok()?;
    let offset = address.checked_sub(base)?;
    let index = (offset / 4) as usize;
    (offset % 4 == 0 && index < count).then_some(index)
}

impl<'a> Bank<'a> {
    /// A bank over lent words. When it is gone, the words hold what was written.
    pub fn new(base: u32, words: &'a mut [u32], tag: u8) -> Bank<'a>
        ensures base { result.base ≡ base }
        ensures words { result.words.now ≡ words.old }
        ensures lent { result.words.ghost_name ≡ words.entry.ghost_name }
        ensures tag { result.tag ≡ tag }
    {
        Bank { base, words, tag }
    }

    // Where the word at an address lies, or the fault that an access there meets.
    fn place(&self, address: u32) -> Result<usize, Fault>
        ensures { result ≡ placed self.now.base (length self.now.words.now) self.now.tag address }
    {
        let index = index_of(self.base, self.words.len(), address);
        reached(index, address, self.tag)
    }
}

impl<'a> Store for Bank<'a> {
    ghost word_at = { λ b. bank_words b.base b.words.now };

    ghost tag_at = { λ b. one_tag b.tag };

    ghost only_words = { λ b. bank_is_a_word b.base b.words.now };

    fn read(&self, address: u32) -> Result<u32, Fault> {
        let index = self.place(address)?;
        Ok(self.words[index])
    }
}

impl<'a> Memory for Bank<'a> {
    ghost writable_at = { λ _. everywhere };

    /// Besides what every memory promises: what the lent words hold, also once the bank is gone.
    fn write(&mut self, address: u32, word: u32) -> Result<(), Fault>
        ensures answer { result ≡ writing (bank_words self.old.base self.old.words.now) (one_tag self.old.tag) everywhere address }
        ensures words { bank_words self.new.base self.new.words.now ≡ (if is_ok result then put (bank_words self.old.base self.old.words.now) address word else bank_words self.old.base self.old.words.now) }
        ensures tags { one_tag self.new.tag ≡ one_tag self.old.tag }
        ensures writability { everywhere ≡ everywhere }
        ensures lent { self.new.words.ghost_name ≡ self.old.words.ghost_name }
        ensures list { self.new.words.now ≡ stored self.old.base self.old.words.now address word }
    {
        let index = self.place(address)?;
        self.words[index] = word;
        Ok(())
    }
}
