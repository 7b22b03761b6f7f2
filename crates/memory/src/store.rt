// The two views that code above has of any memory: one that reads, and one built on it that also writes.
ghost use Rattle.std.specs.Prelude.{◌≡◌, ℕ, Bool, true, is_some, is_ok, if◌then◌else◌, Option};
ghost use Rattle.memory.specs.Meaning.{WordAddress, reading, writing, put};

use super::fault::Fault;

/// A memory that can be read. It means a map from some addresses to words, and a tag for every address.
pub trait Store {
    /// The word at an address, where one is mapped.
    ghost word_at: { Self → ℕ → Option ℕ };

    /// The tag of an address, mapped or not.
    ghost tag_at: { Self → ℕ → ℕ };

    /// The word at an address, or the fault: no multiple of four, then nothing mapped.
    fn read(&self, address: u32) -> Result<u32, Fault>
        ensures { result ≡ reading (word_at self.now) (tag_at self.now) address };

    /// Only multiples of four below 2^32 are mapped.
    ghost only_words: { (m : Self) (a : ℕ) → is_some (word_at m a) ≡ true → WordAddress a };
}

/// A store whose words can be changed where it is writable.
pub trait Memory: Store {
    /// Whether the word at an address may be changed. It says nothing of an address that is not mapped.
    ghost writable_at: { Self → ℕ → Bool };

    /// Puts a word at an address, or answers the fault: no multiple of four, nothing mapped, not writable.
    /// A refused write changes nothing, and no write changes a tag or what is writable.
    fn write(&mut self, address: u32, word: u32) -> Result<(), Fault>
        ensures answer { result ≡ writing (Self.Store.word_at self.old) (Self.Store.tag_at self.old) (writable_at self.old) address }
        ensures words { Self.Store.word_at self.new ≡ (if is_ok result then put (Self.Store.word_at self.old) address word else Self.Store.word_at self.old) }
        ensures tags { Self.Store.tag_at self.new ≡ Self.Store.tag_at self.old }
        ensures writability { writable_at self.new ≡ writable_at self.old };
}
