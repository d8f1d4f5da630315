//! Users and groups, as a command names them.
ghost use Rattle.std.specs.Prelude.{◌≡◌, IfOk};
ghost use Rattle.script_words.specs.Numbers.{signed_of};
ghost use Rattle.afs_commands.specs.Names.{entry_of, is_signed_numeral};

use crate::volumes::MAX_NAME;
use script_words::{is_numeral, signed_number};
use std::alloc::Global;
use std::marker::Model;
use ubik_types::{Bytes, NoMemory, bytes_of};

/// A user or group that there is, by its name or its id. Contracts see the word that names it.
#[derive(Drop)]
pub struct Entry {
    word: Bytes,
    id: Option<i32>,
}

impl Model for Entry {
    ghost use Rattle.std.specs.Prelude.{◌≡◌, ℕ, List};
    ghost use Rattle.script_words.specs.Numbers.{signed_of};

    ghost Value = { List ℕ };

    ghost view = { λ e. e.word };

    ghost invariant = { λ e. e.id ≡ signed_of e.word };
}

impl Entry {
    /// The user or group that a word names; none where the word is longer than a name, or a number that is no id.
    pub fn read(alloc: Global, word: &[u8]) -> Result<Option<Entry>, NoMemory>
        ensures { IfOk result (λ entry. entry ≡ entry_of word.now) }
    {
        let id = signed_number(word);
        if word.len() <= MAX_NAME && (!is_signed_numeral(word) || id.is_some()) {
            let word = bytes_of(alloc, word)?;
            Ok(Some(Entry { word, id }))
        } else {
            Ok(None)
        }
    }

    /// A copy, which is not read again.
    pub fn copied(&self, alloc: Global) -> Result<Entry, NoMemory>
        ensures { IfOk result (λ entry. entry ≡ self.now) }
    {
        let word = bytes_of(alloc, self.word.as_slice())?;
        Ok(Entry { word, id: self.id })
    }

    /// The word that names it.
    pub fn word(&self) -> &[u8]
        ensures { result.now ≡ self.now }
    {
        self.word.as_slice()
    }

    /// The id that the word is; none where it is a name.
    pub fn id(&self) -> Option<i32>
        ensures { result ≡ signed_of self.now }
    {
        self.id
    }
}

/// Whether a word is a decimal number, with a minus or without, of any size.
pub fn is_signed_numeral(word: &[u8]) -> bool
    ensures { result ≡ is_signed_numeral word.now }
{
    match word {
        [b'-', digits @ ..] => is_numeral(digits) && !digits.starts_with(b"0"),
        _ => is_numeral(word),
    }
}
