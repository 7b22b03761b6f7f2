// How far a text has been read, byte by byte.
ghost use Rattle.std.specs.Prelude.{◌≡◌, ◌+◌, ◌^◌, ◌<◌, ◌≤◌, IfOk, IfErr};
ghost use Rattle.std.specs.Option.{option_to_list};
ghost use Rattle.packing.specs.Lines.{line_word};
ghost use Rattle.packing.specs.Texts.{advanced, ended_word};

use crate::error::TextFault;
use crate::line::{Place, kind_of, step};

/// The lines that have ended, and where the next byte stands in the line behind them.
#[derive(Clone, Copy)]
pub struct Reading {
    pub ended: usize,
    pub place: Place,
}

impl Reading {
    /// Takes in one byte. Answers the word of the line that it ends, if it ends one that has a word, or says which line
    /// it is wrong in, and then changes nothing.
    pub fn advance(&mut self, byte: u8) -> Result<Option<u32>, TextFault>
        requires { self.old.ended + 1 < 2 ^ 64 }
        ensures next { IfOk result (λ _. advanced self.old byte ≡ Ok self.new) }
        ensures word { IfOk result (λ word. option_to_list word ≡ ended_word self.old byte) }
        ensures fault { IfErr result (λ fault. advanced self.old byte ≡ Err fault) }
        ensures kept { IfErr result (λ _. self.new ≡ self.old) }
        ensures lines { IfOk result (λ _. self.new.ended ≤ self.old.ended + 1) }
    {
        if byte == b'\n' {
            let word = self.word();
            self.ended += 1;
            self.place = Place::Before;
            return Ok(word);
        }
        let line = self.ended + 1;
        self.place = step(&self.place, kind_of(byte)).map_err(|reason| TextFault { line, reason })?;
        Ok(None)
    }

    /// The word of the line, if the text ends here.
    pub fn word(&self) -> Option<u32>
        ensures { option_to_list result ≡ line_word self.now.place }
    {
        match &self.place {
            Place::Before => None,
            Place::Within(spelled) => Some(spelled.word()),
            Place::Behind(word) => Some(*word),
            Place::Comment(word) => *word,
        }
    }
}
