//! An entry's other fields: its word goes to the chains of its other name and owner, and then its block gets the fields.
ghost use Rattle.std.specs.Prelude.{◌≡◌, ◌-◌, ◌<◌, ◌≤◌, ◌^◌, IfErr, IfOk, IsErrOf, OnOk, List, ℕ, drop, length, max, take};
ghost use Rattle.db_image.specs.Images.{IsOfImage};
ghost use Rattle.db_blocks.specs.Ends.{Becomes, HasCause};
ghost use Rattle.db_chains.specs.Ends.{DraftsAtMost, HasWord};
ghost use Rattle.db_chains.specs.Free.{IsNumber};
ghost use Rattle.prdb_layout.specs.RecordEnds.{seen};
ghost use Rattle.prdb_layout.specs.Records.{entry_in};
ghost use Rattle.prdb_layout.specs.Registry.{IsRecord, MayReplace, first_registry, with_entry};
ghost use Rattle.entry_scans.specs.Views.{viewed};
ghost use Rattle.prdb_finds.specs.Ends.{HasCauseWhere, Makes};
ghost use Rattle.prdb_finds.specs.Keys.{name_chain};
ghost use Rattle.prdb_finds.specs.Places.{free_blocks, name_links};
ghost use Rattle.prdb_finds.specs.declared.places.TheConstants.{FIRST_LEN};
ghost use Rattle.prdb_entries.specs.Changes.{after_replace, fields_cost, is_same, is_this, moved, moved_cost, name_cost, name_moved, owner_cost, owner_entered, owner_left, owner_moved, owner_out_cost, owners_cost, refilled, replace_cost, stays_empty};
ghost use Rattle.prdb_entries.specs.Ends.{CanMove, HasEntered, HasLeft, HasMoved};

use crate::inserts::{enter_owned, is_owned, new_block};
use crate::removes::{is_owned as is_view_owned, leave_owned};
use db_blocks::{Block, block_place};
use db_chains::{put_first, take_out};
use db_image::{Draft, ImageRead, RecordFault};
use entry_scans::{EntryView, entry_in};
use prdb_finds::{HEAD_LEN, find_id, find_link, first_draft, make_whole, name_chain, name_links};
use prdb_layout::PrEntry;
use std::alloc::Global;

/// Takes a word out of the chain of a name, and puts it in front of that of another name. Where it is the same name, nothing is changed.
fn move_name<I: ImageRead>(
    d: &mut Draft<I>,
    old: &[u8],
    new: &[u8],
    number: u32,
) -> Result<(), RecordFault>
    requires len { d.old.len < 2 ^ 31 }
    requires number { IsNumber free_blocks d.old.len number }
    ensures bytes { OnOk result (Becomes (name_moved old.now new.now number) d.old d.new) }
    ensures len { d.new.len ≡ d.old.len }
    ensures fault { IfErr result (HasCause d.old.bytes (HasWord name_links (name_chain old.now) number)) }
    ensures frame { DraftsAtMost I.ImageRead (name_cost d.old.layout d.old.len) d.old d.new (IsErrOf result RecordFault.DiskFault) }
{
    if old == new {
        return Ok(());
    }
    take_out(d, name_links(), name_chain(old), number)?;
    put_first(d, name_links(), name_chain(new), number)
}

/// Takes the block of a number out of the chain of its entry's owner, if that is a group with one.
fn leave_owner<I: ImageRead>(
    d: &mut Draft<I>,
    old: &EntryView<'_>,
    number: u32,
) -> Result<(), RecordFault>
    requires len { d.old.len < 2 ^ 31 }
    ensures bytes { OnOk result (Becomes (owner_left (viewed old.now) number) d.old d.new) }
    ensures len { d.new.len ≡ d.old.len }
    ensures fault { IfErr result (HasCause d.old.bytes (HasLeft (viewed old.now) number)) }
    ensures frame { DraftsAtMost I.ImageRead (owner_out_cost d.old.layout d.old.len) d.old d.new (IsErrOf result RecordFault.DiskFault) }
{
    if is_view_owned(old) {
        return leave_owned(d, old.owner, number);
    }
    Ok(())
}

/// Puts the block of a number in front of the chain of an entry's owner, if that is a group with one.
fn enter_owner<I: ImageRead>(
    d: &mut Draft<I>,
    new: &PrEntry,
    number: u32,
) -> Result<(), RecordFault>
    requires len { d.old.len < 2 ^ 31 }
    requires number { IsNumber free_blocks d.old.len number }
    ensures bytes { OnOk result (Becomes (owner_entered (seen new.now) number) d.old d.new) }
    ensures len { d.new.len ≡ d.old.len }
    ensures fault { IfErr result (HasCause d.old.bytes (HasEntered (seen new.now))) }
    ensures frame { DraftsAtMost I.ImageRead (owner_cost d.old.layout d.old.len) d.old d.new (IsErrOf result RecordFault.DiskFault) }
{
    if is_owned(new) {
        return enter_owned(d, new.owner, number);
    }
    Ok(())
}

/// Takes the block of a number from the chain of one owner to that of another one. Where it is the same owner, nothing is changed.
fn move_owner<I: ImageRead>(
    d: &mut Draft<I>,
    old: &EntryView<'_>,
    new: &PrEntry,
    number: u32,
) -> Result<(), RecordFault>
    requires len { d.old.len < 2 ^ 31 }
    requires number { IsNumber free_blocks d.old.len number }
    ensures bytes { OnOk result (Becomes (owner_moved (viewed old.now) (seen new.now) number) d.old d.new) }
    ensures len { d.new.len ≡ d.old.len }
    ensures fault { IfErr result (HasCause d.old.bytes (HasMoved (viewed old.now) (seen new.now) number)) }
    ensures frame { DraftsAtMost I.ImageRead (owners_cost d.old.layout d.old.len) d.old d.new (IsErrOf result RecordFault.DiskFault) }
{
    if old.owner == new.owner {
        return Ok(());
    }
    leave_owner(d, old, number)?;
    enter_owner(d, new, number)
}

/// Takes the block of a number from the chains of the entry whose fields it has to those of another one.
fn move_to<I: ImageRead>(
    d: &mut Draft<I>,
    number: u32,
    block: &Block,
    e: &PrEntry,
) -> Result<(), RecordFault>
    requires len { d.old.len < 2 ^ 31 }
    requires number { IsNumber free_blocks d.old.len number }
    ensures bytes { OnOk result (Becomes (moved number (entry_in block.now) (seen e.now)) d.old d.new) }
    ensures len { d.new.len ≡ d.old.len }
    ensures fault { IfErr result (HasCause d.old.bytes (CanMove number (entry_in block.now) (seen e.now))) }
    ensures frame { DraftsAtMost I.ImageRead (moved_cost d.old.layout d.old.len) d.old d.new (IsErrOf result RecordFault.DiskFault) }
{
    let old = entry_in(block);
    move_name(d, old.name, e.name.as_slice(), number)?;
    move_owner(d, &old, e, number)
}

/// Where the fields of an entry's block stand, behind its kind and before its pairs.
fn numbers_in(block: &Block) -> &[u8]
    ensures value { result.now ≡ take 20 (drop 4 block.now) }
    ensures len { length result.now ≡ 20 }
{
    &block[4..24]
}

/// The field of the name in an entry's block.
fn name_in(block: &Block) -> &[u8]
    ensures value { result.now ≡ take 64 (drop 32 block.now) }
    ensures len { length result.now ≡ 64 }
{
    &block[32..96]
}

/// Writes the fields of an entry's block into that of a number: all but its kind, its pairs and its words of chains.
#[tactic(auto, unfolding(crate::specs::Changes::refilled))]
fn put_fields<I: ImageRead>(d: &mut Draft<I>, number: u32, block: &Block) -> Result<(), RecordFault>
    requires len { d.old.len < 2 ^ 31 }
    requires number { IsNumber free_blocks d.old.len number }
    ensures bytes { OnOk result (Becomes (refilled (number - 1) block.now) d.old d.new) }
    ensures len { d.new.len ≡ d.old.len }
    ensures fault { IfErr result IsOfImage }
    ensures frame { DraftsAtMost I.ImageRead (fields_cost d.old.layout) d.old d.new (IsErrOf result RecordFault.DiskFault) }
{
    let place = block_place(HEAD_LEN, number - 1);
    d.put(place + 4, numbers_in(block))?;
    d.put(place + 32, name_in(block))
}

/// Whether two entries have the same fields.
fn is_same(e: &PrEntry, other: &PrEntry) -> bool
    ensures { result ≡ is_same (seen e.now) (seen other.now) }
{
    e.name.as_slice() == other.name.as_slice()
        && e.flags == other.flags
        && e.id == other.id
        && e.owner == other.owner
        && e.creator == other.creator
        && e.quota == other.quota
}

/// Whether the first registry has an entry under an id.
fn is_first(alloc: Global, id: i32, e: &PrEntry) -> Result<bool, RecordFault>
    ensures value { IfOk result (λ is. is ≡ is_this (first_registry.entry id) (seen e.now)) }
    ensures fault { IfErr result (λ fault. fault ≡ RecordFault.NoMemory) }
{
    let Some(found) = find_id(alloc, &mut first_draft(alloc)?, id)? else {
        return Ok(false);
    };
    Ok(is_same(&found, e))
}

/// Whether an image of this length is the empty one, which has an entry under an id, read as the first image.
fn stays_empty(alloc: Global, len: u32, id: i32, e: &PrEntry) -> Result<bool, RecordFault>
    ensures value { IfOk result (λ stays. (image : List ℕ) → length image ≡ len → stays ≡ stays_empty id (seen e.now) image) }
    ensures fault { IfErr result (λ fault. fault ≡ RecordFault.NoMemory) }
{
    if len != 0 {
        return Ok(false);
    }
    is_first(alloc, id, e)
}

/// Gives the entry of an id other fields: a name, flags, an owner, a creator, a quota.
///
/// Where its name is another one now, its block goes out of the chain of the old name and in front of that of the new one. Then the same
/// for its owner, where that is another one now: a user, and a group whose owner is 0, stand in no owner's chain. What stays the same
/// keeps its place in its chain. Then its block gets the fields, and keeps its pairs. The empty draft stays empty where nothing is
/// changed. After an `Err` a part of the change may be in the draft.
pub fn replace<I: ImageRead>(
    alloc: Global,
    d: &mut Draft<I>,
    id: i32,
    e: &PrEntry,
) -> Result<(), RecordFault>
    requires len { d.old.len < 2 ^ 31 }
    requires entry { IsRecord (seen e.now) }
    ensures holds { OnOk result (Makes (λ r m. MayReplace id (seen e.now) r) (with_entry (seen e.now)) d.old d.new) }
    ensures bytes { OnOk result (Becomes (after_replace id (seen e.now)) d.old d.new) }
    ensures len { OnOk result (d.new.len ≤ max d.old.len FIRST_LEN) }
    ensures longer { d.old.len ≤ d.new.len }
    ensures fault { IfErr result (HasCauseWhere (λ r m. MayReplace id (seen e.now) r) d.old.bytes) }
    ensures frame { DraftsAtMost I.ImageRead (replace_cost d.old.layout (max d.old.len FIRST_LEN)) d.old d.new
        (IsErrOf result RecordFault.DiskFault) }
{
    let block = new_block(alloc, e)?;
    let stays = stays_empty(alloc, d.len(), id, e)?;
    if stays {
        return Ok(());
    }
    make_whole(alloc, d)?;
    let Some(link) = find_link(d, id)? else {
        return Err(RecordFault::BadRecord { at: d.len() });
    };
    move_to(d, link.word, &link.block, e)?;
    put_fields(d, link.word, &block)
}
