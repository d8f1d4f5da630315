//! Where the blocks of an image lie.
ghost use Rattle.std.specs.Prelude.{◌≡◌, ◌≢◌, ◌+◌, ◌<◌, ◌≤◌, ◌^◌, ℕ, IfOk, IfErr, length};
ghost use Rattle.db_blocks.specs.Blocks.{block_place, word_at};

use db_image::RecordFault;
use ubik_types::{WORD_LEN, first_word};

/// The length of a block, in bytes.
pub const BLOCK_LEN: usize = 192;

pub type Block = [u8; BLOCK_LEN];

/// The word at a place.
pub fn word_at(bytes: &[u8], at: usize) -> u32
    requires { at + WORD_LEN ≤ length bytes.now }
    ensures { result ≡ word_at bytes.now at }
{
    first_word(&bytes[at..]).map_or(0, |(word, _)| word)
}

/// Where a block begins in an image with a head of this length; the first block has the number 0.
pub fn block_place(head: u32, number: u32) -> u32
    requires head { head < 2 ^ 24 }
    requires number { number < 2 ^ 24 }
    ensures { result ≡ block_place head number }
{
    head + BLOCK_LEN as u32 * number
}

/// How many blocks stand behind the head in an image of this length; a bad record at its end where it is no head and whole blocks.
pub fn block_count(head: u32, len: u32) -> Result<u32, RecordFault>
    ensures count { IfOk result (λ count. len ≡ block_place head count) }
    ensures fault { IfErr result (λ fault. (fault ≡ RecordFault.BadRecord len) × ((k : ℕ) → len ≢ block_place head k)) }
{
    if len < head || (len - head) % BLOCK_LEN as u32 != 0 {
        return Err(RecordFault::BadRecord { at: len });
    }
    Ok((len - head) / BLOCK_LEN as u32)
}
