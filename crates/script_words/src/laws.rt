//! Laws of the numbers that words write.
ghost use Rattle.script_words.specs.NumberLaws.{ReadsDecimals, ReadsDecimalsAlone};

/// A number below 2^64 is read from its decimal text, and from no other word.
pub fn decimal_text_is_its_number()
    ensures read { ReadsDecimals }
    ensures alone { ReadsDecimalsAlone }
{}
