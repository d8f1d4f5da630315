//! A new entry: its block, and its word in front of the chains of its name, of its id, and of its owner.
ghost use Rattle.std.specs.Prelude.{◌≡◌, ◌+◌, ◌<◌, ◌≤◌, ◌^◌, IfErr, IfOk, IsErrOf, OnOk, max};
ghost use Rattle.db_blocks.specs.Ends.{Becomes, HasCause};
ghost use Rattle.db_blocks.specs.declared.blocks.TheConstants.{BLOCK_LEN};
ghost use Rattle.db_chains.specs.Ends.{DraftsAtMost};
ghost use Rattle.db_chains.specs.Free.{IsNumber};
ghost use Rattle.prdb_layout.specs.RecordEnds.{seen};
ghost use Rattle.prdb_layout.specs.Records.{new_block};
ghost use Rattle.prdb_layout.specs.Registry.{IsRecord, MayBeAdded, with_entry};
ghost use Rattle.prdb_finds.specs.Ends.{HasCauseWhere, Makes};
ghost use Rattle.prdb_finds.specs.Places.{free_blocks};
ghost use Rattle.prdb_finds.specs.declared.places.TheConstants.{FIRST_LEN};
ghost use Rattle.prdb_entries.specs.Changes.{after_insert, enter_cost, entered, insert_cost, is_owned, owner_cost, owner_first};
ghost use Rattle.prdb_entries.specs.Ends.{HasLink, HasOwner};

use db_blocks::{BLOCK_LEN, Block};
use db_chains::{put_first, take_block};
use db_image::{Draft, ImageRead, RecordFault};
use prdb_finds::{
    find_link, free_blocks, id_chain, id_links, make_whole, name_chain, name_links, owned_links,
    owned_place,
};
use prdb_layout::{PrEntry, with_fields};
use std::alloc::{AllocError, Global};

/// Whether an entry is a group that has an owner.
pub(crate) fn is_owned(e: &PrEntry) -> bool
    ensures { result ≡ is_owned (seen e.now) }
{
    e.id < 0 && e.owner != 0
}

/// The block of a new entry, which has no pairs and stands in no chain.
pub(crate) fn new_block(alloc: Global, e: &PrEntry) -> Result<Block, AllocError>
    requires { IsRecord (seen e.now) }
    ensures { IfOk result (λ block. block ≡ new_block (seen e.now)) }
{
    let fields = with_fields(alloc, e, &[0; BLOCK_LEN])?;
    let mut block = [0; BLOCK_LEN];
    block.copy_from_slice(&fields);
    Ok(block)
}

/// Puts the block of a number in front of the chain of the groups that the entry of an id owns.
pub(crate) fn enter_owned<I: ImageRead>(
    d: &mut Draft<I>,
    owner: i32,
    number: u32,
) -> Result<(), RecordFault>
    requires len { d.old.len < 2 ^ 31 + 2 ^ 20 }
    requires number { IsNumber free_blocks d.old.len number }
    ensures bytes { OnOk result (Becomes (owner_first owner number) d.old d.new) }
    ensures len { d.new.len ≡ d.old.len }
    ensures fault { IfErr result (HasCause d.old.bytes (HasLink owner)) }
    ensures frame { DraftsAtMost I.ImageRead (owner_cost d.old.layout d.old.len) d.old d.new (IsErrOf result RecordFault.DiskFault) }
{
    let Some(link) = find_link(d, owner)? else {
        return Err(RecordFault::BadRecord { at: d.len() });
    };
    put_first(d, owned_links(), owned_place(link.word - 1), number)
}

/// Puts the block of a number, which holds an entry, in front of the chains of its name and its id, and of its owner if it is a group that
/// has one.
#[tactic(auto, unfolding(crate::specs::Changes::entered))]
fn enter<I: ImageRead>(d: &mut Draft<I>, number: u32, e: &PrEntry) -> Result<(), RecordFault>
    requires len { d.old.len < 2 ^ 31 + 2 ^ 20 }
    requires number { IsNumber free_blocks d.old.len number }
    ensures bytes { OnOk result (Becomes (entered number (seen e.now)) d.old d.new) }
    ensures len { d.new.len ≡ d.old.len }
    ensures fault { IfErr result (HasCause d.old.bytes (HasOwner number (seen e.now))) }
    ensures frame { DraftsAtMost I.ImageRead (enter_cost d.old.layout d.old.len) d.old d.new (IsErrOf result RecordFault.DiskFault) }
{
    put_first(d, name_links(), name_chain(e.name.as_slice()), number)?;
    put_first(d, id_links(), id_chain(e.id), number)?;
    if is_owned(e) {
        return enter_owned(d, e.owner, number);
    }
    Ok(())
}

/// Adds an entry without pairs, whose owner is none, an entry, or itself. After an `Err` a part of the change may be in the draft.
pub fn insert<I: ImageRead>(alloc: Global, d: &mut Draft<I>, e: &PrEntry) -> Result<(), RecordFault>
    requires len { d.old.len < 2 ^ 31 }
    requires entry { IsRecord (seen e.now) }
    ensures holds { OnOk result (Makes (λ r m. MayBeAdded (seen e.now) r) (with_entry (seen e.now)) d.old d.new) }
    ensures bytes { OnOk result (Becomes (after_insert (seen e.now)) d.old d.new) }
    ensures len { OnOk result (d.new.len ≤ max d.old.len FIRST_LEN + BLOCK_LEN) }
    ensures longer { d.old.len ≤ d.new.len }
    ensures fault { IfErr result (HasCauseWhere (λ r m. MayBeAdded (seen e.now) r) d.old.bytes) }
    ensures frame { DraftsAtMost I.ImageRead (insert_cost d.old.layout d.old.len) d.old d.new (IsErrOf result RecordFault.DiskFault) }
{
    let block = new_block(alloc, e)?;
    make_whole(alloc, d)?;
    let number = take_block(d, free_blocks(), &block)?;
    enter(d, number, e)
}
