//! The calls and the answers of a database in words, as scripts have them.
ghost use Rattle.std.specs.Prelude.{◌≡◌, ◌++◌, ◌∷◌, IfOk, OnOk};
ghost use Rattle.std.specs.List.{flat_map};
ghost use Rattle.std.specs.String.{string_bytes};
ghost use Rattle.db_image.specs.CallWords.{CallWords};

use crate::draft_services::DraftService;
use std::alloc::Global;
use ubik_types::{Bytes, NoMemory};

/// A database whose calls a script can ask in words.
pub trait DraftWords: DraftService {
    /// Its calls and answers in words.
    ghost words: { CallWords };

    /// The bytes of the call that words name; none where they name none.
    fn call_words(alloc: Global, call: &[Bytes]) -> Result<Option<Bytes>, NoMemory>
        ensures { IfOk result (λ bytes. bytes ≡ words.call_of call.now) };

    /// Adds the fields of the answer to a call, each behind a blank. After an `Err` a part of them may stand at the end.
    fn tell_answer(text: &mut String, call: &[u8], answer: &[u8]) -> Result<(), NoMemory>
        ensures { OnOk result (string_bytes text.new ≡ string_bytes text.old ++ flat_map (λ word. 32 ∷ word) (words.answer_of call.now answer.now)) };
}
