//! An entry less: its block out of the chains of its name, of its id, and of its owner, and then among the free ones.
ghost use Rattle.std.specs.Prelude.{◌≡◌, ◌+◌, ◌<◌, ◌≤◌, ◌^◌, IfErr, IsErrOf, OnOk, max};
ghost use Rattle.db_blocks.specs.Ends.{Becomes, HasCause};
ghost use Rattle.db_chains.specs.Changes.{without};
ghost use Rattle.db_chains.specs.Ends.{DraftsAtMost, HasWord};
ghost use Rattle.prdb_layout.specs.Records.{entry_in};
ghost use Rattle.prdb_layout.specs.Registry.{without_entry};
ghost use Rattle.entry_scans.specs.Views.{viewed};
ghost use Rattle.prdb_finds.specs.Ends.{HasCauseWhere, Makes};
ghost use Rattle.prdb_finds.specs.Keys.{id_chain, name_chain};
ghost use Rattle.prdb_finds.specs.Places.{id_links, name_links};
ghost use Rattle.prdb_layout.specs.declared.blocks.TheConstants.{HEAD_LEN};
ghost use Rattle.prdb_finds.specs.declared.places.TheConstants.{FIRST_LEN};
ghost use Rattle.prdb_entries.specs.Changes.{after_remove, is_owned, leave_cost, left, named_out_cost, owner_out_cost, owner_without, remove_cost};
ghost use Rattle.prdb_entries.specs.Ends.{IsOwnedBy, MayGo, StandsInChains};

use db_blocks::Block;
use db_chains::{free_block, take_out};
use db_image::{Draft, ImageRead, RecordFault};
use entry_scans::{EntryView, entry_in};
use prdb_finds::{
    find_link, free_blocks, id_chain, id_links, make_whole, name_chain, name_links, owned_links,
    owned_place,
};
use std::alloc::Global;

/// Whether an entry is a group that has an owner.
pub(crate) fn is_owned(e: &EntryView<'_>) -> bool
    ensures { result ≡ is_owned (viewed e.now) }
{
    e.id < 0 && e.owner != 0
}

/// Takes the block of a number out of the chain of the groups that the entry of an id owns.
pub(crate) fn leave_owned<I: ImageRead>(
    d: &mut Draft<I>,
    owner: i32,
    number: u32,
) -> Result<(), RecordFault>
    requires len { d.old.len < 2 ^ 31 + 2 ^ 20 }
    ensures bytes { OnOk result (Becomes (owner_without owner number) d.old d.new) }
    ensures len { d.new.len ≡ d.old.len }
    ensures fault { IfErr result (HasCause d.old.bytes (IsOwnedBy owner number)) }
    ensures frame { DraftsAtMost I.ImageRead (owner_out_cost d.old.layout d.old.len) d.old d.new (IsErrOf result RecordFault.DiskFault) }
{
    let Some(link) = find_link(d, owner)? else {
        return Err(RecordFault::BadRecord { at: d.len() });
    };
    take_out(d, owned_links(), owned_place(link.word - 1), number)
}

/// Takes the block of a number out of the chains of a name and an id.
fn leave_named<I: ImageRead>(
    d: &mut Draft<I>,
    number: u32,
    name: &[u8],
    id: i32,
) -> Result<(), RecordFault>
    requires len { d.old.len < 2 ^ 31 + 2 ^ 20 }
    requires head { HEAD_LEN ≤ d.old.len }
    ensures bytes { OnOk result (Becomes
        (λ image. without id_links (id_chain id) number (without name_links (name_chain name.now) number image)) d.old d.new) }
    ensures len { d.new.len ≡ d.old.len }
    ensures fault { IfErr result (HasCause d.old.bytes (λ image. HasWord name_links (name_chain name.now) number image
        × HasWord id_links (id_chain id) number (without name_links (name_chain name.now) number image))) }
    ensures frame { DraftsAtMost I.ImageRead (named_out_cost d.old.layout d.old.len) d.old d.new (IsErrOf result RecordFault.DiskFault) }
{
    take_out(d, name_links(), name_chain(name), number)?;
    take_out(d, id_links(), id_chain(id), number)
}

/// Takes the block of a number out of the chains of the entry whose fields it has.
fn leave<I: ImageRead>(d: &mut Draft<I>, number: u32, block: &Block) -> Result<(), RecordFault>
    requires len { d.old.len < 2 ^ 31 }
    requires head { HEAD_LEN ≤ d.old.len }
    ensures bytes { OnOk result (Becomes (left number (entry_in block.now)) d.old d.new) }
    ensures len { d.new.len ≡ d.old.len }
    ensures fault { IfErr result (HasCause d.old.bytes (StandsInChains number (entry_in block.now))) }
    ensures frame { DraftsAtMost I.ImageRead (leave_cost d.old.layout d.old.len) d.old d.new (IsErrOf result RecordFault.DiskFault) }
{
    let e = entry_in(block);
    leave_named(d, number, e.name, e.id)?;
    if is_owned(&e) {
        return leave_owned(d, e.owner, number);
    }
    Ok(())
}

/// Removes the entry of an id, which has no pairs. Its block is free from then on, and zero but for the next free one. After an `Err` a
/// part of the change may be in the draft.
pub fn remove<I: ImageRead>(alloc: Global, d: &mut Draft<I>, id: i32) -> Result<(), RecordFault>
    requires { d.old.len < 2 ^ 31 }
    ensures holds { OnOk result (Makes (MayGo id) (without_entry id) d.old d.new) }
    ensures bytes { OnOk result (Becomes (after_remove id) d.old d.new) }
    ensures len { OnOk result (d.new.len ≤ max d.old.len FIRST_LEN) }
    ensures longer { d.old.len ≤ d.new.len }
    ensures fault { IfErr result (HasCauseWhere (MayGo id) d.old.bytes) }
    ensures frame { DraftsAtMost I.ImageRead (remove_cost d.old.layout (max d.old.len FIRST_LEN)) d.old d.new
        (IsErrOf result RecordFault.DiskFault) }
{
    make_whole(alloc, d)?;
    let Some(link) = find_link(d, id)? else {
        return Err(RecordFault::BadRecord { at: d.len() });
    };
    leave(d, link.word, &link.block)?;
    free_block(d, free_blocks(), link.word)
}
