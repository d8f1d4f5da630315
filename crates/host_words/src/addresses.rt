//! Dotted addresses.
ghost use Rattle.std.specs.Prelude.{◌≡◌, ◌==◌, option_map, position};
ghost use Rattle.host_words.specs.Hosts.{address_of, octet_of, split_dot};

use script_words::number_within;

/// The number of a dotted address: four decimals from 0 to 255, the first the highest byte.
pub fn address(word: &[u8]) -> Option<u32>
    ensures { result ≡ address_of word.now }
{
    let (first, rest) = split_dot(word)?;
    let a = octet(first)?;
    let (second, rest) = split_dot(rest)?;
    let b = octet(second)?;
    let (third, last) = split_dot(rest)?;
    let c = octet(third)?;
    let d = octet(last)?;
    Some(((u32::from(a) * 256 + u32::from(b)) * 256 + u32::from(c)) * 256 + u32::from(d))
}

/// A decimal from 0 to 255.
fn octet(word: &[u8]) -> Option<u8>
    ensures { result ≡ octet_of word.now }
{
    u8::try_from(number_within(word, 0, 255)?).ok()
}

/// What stands before the first dot, and what stands behind it.
fn split_dot(word: &[u8]) -> Option<(&[u8], &[u8])>
    ensures { option_map (λ parts. (parts.0.now, parts.1.now)) result ≡ split_dot word.now }
{
    let at = dot_place(word)?;
    Some((&word[..at], &word[at + 1..]))
}

/// Where the first dot stands.
fn dot_place(word: &[u8]) -> Option<usize>
    ensures { result ≡ position (λ byte. byte == 46) word.now }
{
    word.iter().position(|byte| *byte == b'.')
}
