//! The list of an entry's pairs, and the blocks in which it lies.
ghost use Rattle.std.specs.Prelude.{◌≡◌, ◌+◌, ◌-◌, ◌*◌, ◌<◌, ◌≤◌, ◌^◌, IfOk, IfErr, IfSome, IsErrOf, length};
ghost use Rattle.db_image.specs.Asked.{AsksAtMost};
ghost use Rattle.db_blocks.specs.Blocks.{IsWhole, block_in, block_place};
ghost use Rattle.db_blocks.specs.Ends.{HasCause, OnlyLooks};
ghost use Rattle.prdb_lists.specs.Blocks.{AreWithin, IsMore};
ghost use Rattle.prdb_lists.specs.Layout.{IsListed, PairList};
ghost use Rattle.db_blocks.specs.declared.blocks.TheConstants.{BLOCK_LEN};

use crate::blocks::{is_more_of, read_ids};
use crate::id_lists::IdList;
use crate::layout::{FIRST_IDS, FIRST_IDS_AT, FIRST_MORE_AT, MORE_IDS, MORE_IDS_AT, NEXT_AT};
use db_blocks::{Block, Found, block_count, block_place, read_block, word_at};
use db_image::{Draft, ImageRead, RecordFault};
use entry_scans::pair_count_in;
use prdb_layout::HEAD_LEN;
use std::alloc::Global;

/// The pairs of an entry.
#[derive(Drop)]
pub struct Listed {
    /// The ids with which it is paired.
    pub ids: IdList,
    /// The numbers of the continuation blocks in which those behind the first ones lie.
    pub more: Vec<u32>,
}

/// A continuation block of an entry, which a block names that begins at this position; so many blocks are there.
fn read_more<I: ImageRead>(
    d: &mut Draft<I>,
    entry: i32,
    link: u32,
    count: u32,
    at: u32,
) -> Result<Block, RecordFault>
    requires len { d.old.len < 2 ^ 31 }
    requires count { d.old.len ≡ block_place HEAD_LEN count }
    ensures some { IfOk result (λ block. 0 < link) }
    ensures within { IfOk result (λ block. link ≤ count) }
    ensures block { IfOk result (λ block. IfSome d.old.bytes (λ image. block ≡ block_in HEAD_LEN image (link - 1))) }
    ensures fault { IfErr result (HasCause d.old.bytes (λ image. IsMore image entry link count)) }
    ensures frame { OnlyLooks I.ImageRead d.old d.new (IsErrOf result RecordFault.DiskFault) }
    ensures cost { AsksAtMost BLOCK_LEN (I.asked d.old.image) (I.asked d.new.image) }
{
    if link == 0 || link > count {
        return Err(RecordFault::BadRecord { at });
    }
    let block = read_block(d, HEAD_LEN, link - 1)?;
    if !is_more_of(&block, entry) {
        return Err(RecordFault::BadRecord { at });
    }
    Ok(block)
}

/// The pairs of an entry, by its block. It asks for its continuation blocks alone.
pub fn read_list<I: ImageRead>(
    alloc: Global,
    d: &mut Draft<I>,
    entry: i32,
    found: &Found,
) -> Result<Listed, RecordFault>
    requires len { d.old.len < 2 ^ 31 }
    requires within { block_place HEAD_LEN found.now.number + BLOCK_LEN ≤ d.old.len }
    ensures found { IfOk result (λ read. IfSome d.old.bytes (λ image. (l : PairList) → IsListed image entry found.now.block l
        → (read.ids ≡ l.ids) × (read.more.items ≡ l.more))) }
    ensures within { IfOk result (λ read. AreWithin d.old.len read.more.items) }
    ensures fault { IfErr result (HasCause d.old.bytes (λ image. IsWhole HEAD_LEN image × ((l : PairList) × IsListed image entry found.now.block l))) }
    ensures frame { OnlyLooks I.ImageRead d.old d.new (IsErrOf result RecordFault.DiskFault) }
    ensures cost { IfSome d.old.bytes (λ image. (l : PairList) → IsListed image entry found.now.block l
        → AsksAtMost (BLOCK_LEN * length l.more) (I.asked d.old.image) (I.asked d.new.image)) }
{
    let at = block_place(HEAD_LEN, found.number);
    let count = block_count(HEAD_LEN, d.len())?;
    let mut ids = IdList::new(alloc);
    let mut more = Vec::new(alloc);
    let mut left = pair_count_in(&found.block) as usize;
    let mut link = word_at(&found.block, FIRST_MORE_AT);
    let first = left.min(FIRST_IDS);
    if !read_ids(&mut ids, &found.block, FIRST_IDS_AT, first)? {
        return Err(RecordFault::BadRecord { at });
    }
    left -= first;
    while left > 0 {
        let block = read_more(d, entry, link, count, at)?;
        more.push(link - 1)?;
        let here = left.min(MORE_IDS);
        if !read_ids(&mut ids, &block, MORE_IDS_AT, here)? {
            return Err(RecordFault::BadRecord { at });
        }
        let next = word_at(&block, NEXT_AT);
        left -= here;
        link = next;
    }
    Ok(Listed { ids, more })
}
