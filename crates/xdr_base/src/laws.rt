//! Laws of the spellings: each is the clause of a call that does nothing.
ghost use Rattle.std.specs.Prelude.{ℕ, ◌<◌, ◌≤◌, ◌^◌, FitsSigned};
ghost use Rattle.std.specs.Int.{w32};
ghost use Rattle.xdr_base.specs.Spelling.{word, signed, truth, opaque};
ghost use Rattle.xdr_base.specs.ChangeText.{HasSpelling, change_spelling};
ghost use Rattle.xdr_base.specs.Laws.{NoneBeginsAnother, IsWord, IsTruth, IsOpaque, HasOneReading};

/// No item's spelling begins another of its kind. A count is spelled as a number, and is at most what its
/// reader takes.
pub fn no_item_begins_another()
    ensures numbers { NoneBeginsAnother IsWord word }
    ensures signed_numbers { NoneBeginsAnother (FitsSigned w32) signed }
    ensures truth_values { NoneBeginsAnother IsTruth truth }
    ensures counts { (most : ℕ) → most < 2 ^ 32 → NoneBeginsAnother (λ n. n ≤ most) word }
    ensures opaques { NoneBeginsAnother IsOpaque opaque }
{}

/// A text of changes has one reading. One such text may begin another, so a text is read to its end; but no
/// change's spelling begins another's.
pub fn change_text_has_one_reading()
    ensures whole_texts { HasOneReading }
    ensures each_change { NoneBeginsAnother HasSpelling change_spelling }
{}
