//! One side of a pair: an id that comes into the list of an entry, or goes out of it.
ghost use Rattle.std.specs.Prelude.{◌≡◌, ◌+◌, ◌*◌, ◌<◌, ◌≤◌, ◌^◌, OnOk, IfErr, IsErrOf, length};
ghost use Rattle.db_image.specs.Asked.{AsksAtMost};
ghost use Rattle.db_image.specs.Draft.{put_cost};
ghost use Rattle.db_blocks.specs.Blocks.{block_place};
ghost use Rattle.db_blocks.specs.Ends.{Becomes, HasCause, OnlyDrafts};
ghost use Rattle.prdb_lists.specs.Blocks.{AreWithin};
ghost use Rattle.prdb_lists.specs.Changes.{blocks_for, relisted};
ghost use Rattle.db_blocks.specs.declared.blocks.TheConstants.{BLOCK_LEN};

use crate::layout::{FIRST_IDS, MAX_IDS, MORE_IDS};
use crate::listed::Listed;
use crate::writes::{with_list, write_more};
use db_blocks::{Found, block_place};
use db_image::{Draft, ImageRead, RecordFault};
use prdb_layout::HEAD_LEN;
use std::alloc::Global;

/// An entry, its block, and its list of pairs.
#[derive(Drop)]
pub struct Place {
    pub entry: i32,
    pub found: Found,
    pub listed: Listed,
}

/// How many continuation blocks so many ids need.
pub fn blocks_for(count: usize) -> usize
    ensures { result ≡ blocks_for count }
{
    count.saturating_sub(FIRST_IDS).div_ceil(MORE_IDS)
}

/// Writes a list of pairs in place of that of an entry. A bad record where there are too many ids to count.
pub fn write_list<I: ImageRead>(
    alloc: Global,
    d: &mut Draft<I>,
    place: &Place,
    ids: &[i32],
    more: &[u32],
) -> Result<(), RecordFault>
    requires len { d.old.len < 2 ^ 31 + 2 ^ 10 }
    requires within { block_place HEAD_LEN place.now.found.number + BLOCK_LEN ≤ d.old.len }
    requires more { AreWithin d.old.len more.now }
    ensures bytes { OnOk result (Becomes (relisted place.now.found.number place.now.entry place.now.found.block
        (record { ids = ids.now; more = more.now })) d.old d.new) }
    ensures len { d.new.len ≡ d.old.len }
    ensures fault { IfErr result (HasCause d.old.bytes (λ image. length ids.now < 2 ^ 32)) }
    ensures frame { OnlyDrafts I.ImageRead d.old d.new (IsErrOf result RecordFault.DiskFault) }
    ensures cost { AsksAtMost (put_cost d.old.layout BLOCK_LEN * (length more.now + 1)) (I.asked d.old.image) (I.asked d.new.image) }
{
    let at = block_place(HEAD_LEN, place.found.number);
    if ids.len() > MAX_IDS {
        return Err(RecordFault::BadRecord { at });
    }
    let (first, behind) = ids.split_at(ids.len().min(FIRST_IDS));
    write_more(alloc, d, place.entry, more, behind)?;
    let block = with_list(alloc, &place.found.block, ids.len() as u32, more, first)?;
    d.put(at, &block)
}
