//! A new entry: its block, and its words in front of the chains of its name and its ids.
ghost use Rattle.std.specs.Prelude.{◌≡◌, ◌+◌, ◌<◌, ◌≤◌, ◌^◌, IfErr, IsErrOf, OnOk, max};
ghost use Rattle.db_image.specs.Images.{IsOfImage};
ghost use Rattle.db_blocks.specs.Ends.{Becomes};
ghost use Rattle.db_blocks.specs.declared.blocks.TheConstants.{BLOCK_LEN};
ghost use Rattle.db_chains.specs.Changes.{IsPlaced};
ghost use Rattle.db_chains.specs.Ends.{DraftsAtMost, first_cost};
ghost use Rattle.db_chains.specs.Free.{IsNumber};
ghost use Rattle.vldb_chains.specs.Places.{free_blocks, id_links};
ghost use Rattle.vldb_entries.specs.Location.{IsRecord, MayEnter, with_entered};
ghost use Rattle.vldb_records.specs.Changes.{after_insert, enter_cost, entered, first_by_id, insert_cost};
ghost use Rattle.vldb_records.specs.Ends.{HasItsCause, Makes};
ghost use Rattle.vldb_entries.specs.declared.layout.TheConstants.{HEAD_LEN};

use crate::changes::make_whole;
use crate::heads::addresses;
use db_chains::{put_first, take_block};
use db_image::{Draft, ImageRead, RecordFault};
use std::alloc::Global;
use vldb_chains::{free_blocks, id_chain, id_links, name_chain, name_links};
use vldb_entries::{VlEntry, block_of};

/// Puts a word in front of the chain of an id; 0 is no entry's, and nothing is changed for it.
pub(crate) fn enter_id<I: ImageRead>(
    d: &mut Draft<I>,
    id: u32,
    word: u32,
) -> Result<(), RecordFault>
    requires len { d.old.len < 2 ^ 31 + 2 ^ 20 }
    requires head { HEAD_LEN ≤ d.old.len }
    requires word { IsPlaced id_links d.old.len word }
    ensures bytes { OnOk result (Becomes (first_by_id id word) d.old d.new) }
    ensures len { d.new.len ≡ d.old.len }
    ensures fault { IfErr result IsOfImage }
    ensures frame { DraftsAtMost I.ImageRead (first_cost d.old.layout) d.old d.new (IsErrOf result RecordFault.DiskFault) }
{
    if id == 0 {
        return Ok(());
    }
    put_first(d, id_links(), id_chain(id), word)
}

/// Puts the block of a number, which holds an entry, in front of the chains of its name and its ids.
#[tactic(auto, unfolding(crate::specs::Changes::entered))]
fn enter<I: ImageRead>(d: &mut Draft<I>, number: u32, e: &VlEntry) -> Result<(), RecordFault>
    requires len { d.old.len < 2 ^ 31 + 2 ^ 20 }
    requires number { IsNumber free_blocks d.old.len number }
    ensures bytes { OnOk result (Becomes (entered number e.now) d.old d.new) }
    ensures len { d.new.len ≡ d.old.len }
    ensures fault { IfErr result IsOfImage }
    ensures frame { DraftsAtMost I.ImageRead (enter_cost d.old.layout) d.old d.new (IsErrOf result RecordFault.DiskFault) }
{
    put_first(d, name_links(), name_chain(e.name.as_slice()), number)?;
    enter_id(d, e.rw, 4 * number)?;
    enter_id(d, e.ro, 4 * number + 1)?;
    enter_id(d, e.backup, 4 * number + 2)
}

/// Adds an entry whose servers have places. After an `Err` a part of the change may be in the draft.
pub fn insert<I: ImageRead>(alloc: Global, d: &mut Draft<I>, e: &VlEntry) -> Result<(), RecordFault>
    requires len { d.old.len < 2 ^ 31 }
    requires entry { IsRecord e.now }
    ensures holds { OnOk result (Makes (MayEnter 0 e.now) (with_entered 0 e.now) d.old d.new) }
    ensures bytes { OnOk result (Becomes (after_insert e.now) d.old d.new) }
    ensures len { OnOk result (d.new.len ≤ max d.old.len HEAD_LEN + BLOCK_LEN) }
    ensures longer { d.old.len ≤ d.new.len }
    ensures fault { IfErr result (HasItsCause d.old.bytes) }
    ensures frame { DraftsAtMost I.ImageRead (insert_cost d.old.layout) d.old d.new (IsErrOf result RecordFault.DiskFault) }
{
    let places = addresses(d)?;
    let block = block_of(alloc, &places, e)?;
    make_whole(alloc, d)?;
    let number = take_block(d, free_blocks(), &block)?;
    enter(d, number, e)
}
