//! Words, one gathered behind the other.
ghost use Rattle.std.specs.Prelude.{◌≡◌, ◌++◌, ◌∷◌, [], OnOk};

use std::alloc::Global;
use ubik_types::{Bytes, NoMemory, bytes_of};

/// Words of a script, as they are gathered.
#[derive(Drop)]
pub(crate) struct WordList {
    alloc: Global,
    words: Vec<Bytes>,
}

impl WordList {
    pub(crate) fn new(alloc: Global) -> WordList {
        WordList {
            alloc,
            words: Vec::new(alloc),
        }
    }

    pub(crate) fn finish(self) -> Vec<Bytes> {
        self.words
    }

    pub(crate) fn word(&mut self, word: &[u8]) -> Result<(), NoMemory> {
        let word = bytes_of(self.alloc, word)?;
        self.words.push(word)?;
        Ok(())
    }

    pub(crate) fn number(&mut self, number: u32) -> Result<(), NoMemory> {
        let word = number.to_string(self.alloc)?;
        self.word(word.as_bytes())
    }

    pub(crate) fn signed(&mut self, number: i32) -> Result<(), NoMemory> {
        let word = number.to_string(self.alloc)?;
        self.word(word.as_bytes())
    }

    pub(crate) fn truth(&mut self, truth: bool) -> Result<(), NoMemory> {
        self.word(if truth { b"1" } else { b"0" })
    }

    /// The word of a string: one of quote marks alone, or of nothing, stands between two more, but for a single mark.
    pub(crate) fn text(&mut self, text: &[u8]) -> Result<(), NoMemory> {
        let are_quotes = text.iter().all(|byte| *byte == b'"');
        if !are_quotes || text.len() == 1 {
            return self.word(text);
        }
        let mut word = Vec::from_slice(self.alloc, b"\"\"")?;
        word.extend_from_slice(text)?;
        self.words.push(Bytes::new(word))?;
        Ok(())
    }
}
