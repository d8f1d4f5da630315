//! Words of four bytes, the high byte first: the numbers of logs, labels, frames and database files.
ghost use Rattle.std.specs.Prelude.{◌≡◌, ◌<◌, ◌^◌, ◌++◌, IfSome, IfNone, length, take};
ghost use Rattle.std.specs.Int.{w32, to_be_bytes, from_be_bytes};

/// The length of a word, in bytes.
pub const WORD_LEN: usize = 4;

/// The first word, and the bytes behind it; none where fewer than four bytes stand there.
pub fn first_word(bytes: &[u8]) -> Option<(u32, &[u8])>
    ensures found { IfSome result (λ r. bytes.now ≡ to_be_bytes w32 r.0 ++ r.1.now) }
    ensures value { IfSome result (λ r. r.0 ≡ from_be_bytes w32 (take WORD_LEN bytes.now)) }
    ensures fits { IfSome result (λ r. r.0 < 2 ^ 32) }
    ensures none { IfNone result (length bytes.now < WORD_LEN) }
{
    match bytes {
        [a, b, c, d, rest @ ..] => Some((u32::from_be_bytes([*a, *b, *c, *d]), rest)),
        _ => None,
    }
}
