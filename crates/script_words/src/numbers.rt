//! Numbers that words write.
ghost use Rattle.std.specs.Prelude.{◌≡◌, true};
ghost use Rattle.std.specs.Char.{is_ascii_digit};
ghost use Rattle.std.specs.List.{list_all};
ghost use Rattle.script_words.specs.Numbers.{is_numeral, value_of, number_of, number_within, negated, signed_of};

use std::str;

/// The number that a word writes: decimal digits with no needless zero and no sign, below 2^64.
pub fn number(word: &[u8]) -> Option<u64>
    ensures { result ≡ number_of word.now }
{
    if !is_numeral(word) {
        return None;
    }
    value(word)
}

/// The number that a word writes, where it is one from `low` to `high`.
pub fn number_within(word: &[u8], low: u32, high: u32) -> Option<u32>
    ensures { result ≡ number_within low high word.now }
{
    let number = u32::try_from(number(word)?).ok()?;
    if low <= number && number <= high {
        Some(number)
    } else {
        None
    }
}

/// The number of 32 bits that a word writes: as in [`number_within`], and a minus before a number other than zero.
pub fn signed_number(word: &[u8]) -> Option<i32>
    ensures { result ≡ signed_of word.now }
{
    match word {
        [b'-', digits @ ..] => negated(digits),
        _ => i32::try_from(number_within(word, 0, i32::MAX.unsigned_abs())?).ok(),
    }
}

/// The number below zero that stands behind a minus.
fn negated(digits: &[u8]) -> Option<i32>
    ensures { result ≡ negated digits.now }
{
    let number = number_within(digits, 1, i32::MIN.unsigned_abs())?;
    0i32.checked_sub_unsigned(number)
}

/// Whether a word is decimal digits with no needless zero.
pub fn is_numeral(word: &[u8]) -> bool
    ensures { result ≡ is_numeral word.now }
{
    match word {
        [] => false,
        [only] => only.is_ascii_digit(),
        [first, ..] => *first != b'0' && are_digits(word),
    }
}

fn are_digits(word: &[u8]) -> bool
    ensures { result ≡ list_all is_ascii_digit word.now }
{
    word.iter().all(|byte| byte.is_ascii_digit())
}

/// The value of decimal digits, where it is below 2^64.
fn value(digits: &[u8]) -> Option<u64>
    requires { is_numeral digits.now ≡ true }
    ensures { result ≡ value_of digits.now }
{
    str::from_utf8(digits).ok()?.parse().ok()
}
