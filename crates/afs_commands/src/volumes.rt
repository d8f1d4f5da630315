//! Volumes, as a command names them.
ghost use Rattle.std.specs.Prelude.{◌≡◌, IfOk};
ghost use Rattle.script_words.specs.Numbers.{number_within};
ghost use Rattle.afs_commands.specs.Names.{volume_of};

use script_words::{is_numeral, number_within};
use std::alloc::Global;
use std::marker::Model;
use ubik_types::{Bytes, NoMemory, bytes_of};

/// The most bytes of a name.
pub const MAX_NAME: usize = 255;

/// A volume that there is, by its name or its id. Contracts see the word that names it.
#[derive(Drop)]
pub struct Volume {
    word: Bytes,
    id: Option<u32>,
}

impl Model for Volume {
    ghost use Rattle.std.specs.Prelude.{◌≡◌, ℕ, List};
    ghost use Rattle.script_words.specs.Numbers.{number_within};

    ghost Value = { List ℕ };

    ghost view = { λ v. v.word };

    ghost invariant = { λ v. v.id ≡ number_within 0 4294967295 v.word };
}

impl Volume {
    /// The volume that a word names; none where the word is longer than a name, or a number that is no id.
    pub fn read(alloc: Global, word: &[u8]) -> Result<Option<Volume>, NoMemory>
        ensures { IfOk result (λ volume. volume ≡ volume_of word.now) }
    {
        let id = number_within(word, 0, u32::MAX);
        if word.len() <= MAX_NAME && (!is_numeral(word) || id.is_some()) {
            let word = bytes_of(alloc, word)?;
            Ok(Some(Volume { word, id }))
        } else {
            Ok(None)
        }
    }

    /// A copy, which is not read again.
    pub fn copied(&self, alloc: Global) -> Result<Volume, NoMemory>
        ensures { IfOk result (λ volume. volume ≡ self.now) }
    {
        let word = bytes_of(alloc, self.word.as_slice())?;
        Ok(Volume { word, id: self.id })
    }

    /// The word that names it.
    pub fn word(&self) -> &[u8]
        ensures { result.now ≡ self.now }
    {
        self.word.as_slice()
    }

    /// The id that the word is; none where it is a name.
    pub fn id(&self) -> Option<u32>
        ensures { result ≡ number_within 0 4294967295 self.now }
    {
        self.id
    }
}
