//! What stands in the blocks of a chain, as a list.
ghost use Rattle.std.specs.Prelude.{◌≡◌, ◌+◌, ◌*◌, ◌<◌, ◌≤◌, ◌^◌, ℕ, List, IfSome, IfOk, IfErr, IsErrOf, length};
ghost use Rattle.db_blocks.specs.Ends.{HasCause};
ghost use Rattle.db_blocks.specs.declared.blocks.TheConstants.{BLOCK_LEN};
ghost use Rattle.db_chains.specs.Along.{StandAlong, to_end};
ghost use Rattle.db_chains.specs.Chains.{HasChain};
ghost use Rattle.db_chains.specs.Ends.{CostsAtMost, HasSome, IsBadWhere, LooksAtMost, walk_cost};
ghost use Rattle.db_chains.specs.Links.{AreLinks};
ghost use Rattle.db_chains.specs.Walks.{IsBad};

use crate::links::{Links, next_in, next_place};
use crate::walks::{read_link, read_word};
use db_blocks::{block_count, word_at};
use db_image::{Draft, ImageRead, RecordFault};
use std::alloc::Global;
use ubik_types::WORD_LEN;

/// The words that stand at an offset of the blocks of a chain, in the chain's order; the chain's first word stands at a place. It reads
/// each block once.
pub fn read_along<I: ImageRead>(
    alloc: Global,
    d: &mut Draft<I>,
    links: Links,
    at: u32,
    offset: u32,
) -> Result<Vec<u32>, RecordFault>
    requires links { AreLinks links }
    requires len { d.old.len < 2 ^ 31 + 2 ^ 20 }
    requires at { at + WORD_LEN ≤ d.old.len }
    requires offset { offset + WORD_LEN ≤ BLOCK_LEN }
    ensures found { IfOk result (λ found. IfSome d.old.bytes (λ image. StandAlong links image at offset found.items)) }
    ensures bad { IfErr result (IsBadWhere d.old.bytes (IsBad links to_end at)) }
    ensures fault { IfErr result (HasCause d.old.bytes (HasSome links at)) }
    ensures frame { LooksAtMost I.ImageRead (walk_cost links d.old.len) d.old d.new (IsErrOf result RecordFault.DiskFault) }
    ensures cost { IfSome d.old.bytes (λ image. (ws : List ℕ) → HasChain links image at ws
        → CostsAtMost I.ImageRead (WORD_LEN + BLOCK_LEN * length ws) d.old d.new) }
{
    let count = block_count(links.head, d.len())?;
    let mut found = Vec::new(alloc);
    let mut left = count * links.kinds;
    let mut place = at;
    let mut word = read_word(d, at)?;
    while word != 0 {
        if left == 0 {
            return Err(RecordFault::BadRecord { at: place });
        }
        let link = read_link(d, links, count, place, word)?;
        let value = word_at(&link.block, offset as usize);
        found.push(value)?;
        left -= 1;
        place = next_place(links, word);
        word = word_at(&link.block, next_in(links, word) as usize);
    }
    Ok(found)
}
