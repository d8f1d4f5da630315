//! Partitions of servers.
ghost use Rattle.std.specs.Prelude.{◌≡◌};
ghost use Rattle.afs_commands.specs.Partitions.{bare_letters, is_letter, letters_of, partition_of};

use script_words::number_within;

/// The number of a partition, 0 to 255: `/vicepX`, `vicepX` or `X` with one or two small letters, or the number.
pub fn partition(word: &[u8]) -> Option<u32>
    ensures { result ≡ partition_of word.now }
{
    letters(bare_letters(word)).or(number_within(word, 0, 255))
}

/// A partition's word without `/vicep` or `vicep`.
fn bare_letters(word: &[u8]) -> &[u8]
    ensures { result.now ≡ bare_letters word.now }
{
    if word.starts_with(b"/vicep") {
        &word[6..]
    } else if word.starts_with(b"vicep") {
        &word[5..]
    } else {
        word
    }
}

/// The number that one or two letters mean.
fn letters(word: &[u8]) -> Option<u32>
    ensures { result ≡ letters_of word.now }
{
    match word {
        [only] if is_letter(*only) => Some(u32::from(*only - b'a')),
        [first, second] if is_letter(*first) && is_letter(*second) => {
            let number = 26 + 26 * u32::from(*first - b'a') + u32::from(*second - b'a');
            if number <= 255 { Some(number) } else { None }
        }
        _ => None,
    }
}

fn is_letter(byte: u8) -> bool
    ensures { result ≡ is_letter byte }
{
    b'a' <= byte && byte <= b'z'
}
