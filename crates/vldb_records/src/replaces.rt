//! An entry's other fields: its words go to the chains of its other keys, and then its block gets the fields.
ghost use Rattle.std.specs.Prelude.{◌≡◌, ◌-◌, ◌<◌, ◌≤◌, ◌^◌, IfErr, IsErrOf, OnOk, drop, length, take};
ghost use Rattle.db_image.specs.Images.{IsOfImage};
ghost use Rattle.db_blocks.specs.Ends.{Becomes, HasCause};
ghost use Rattle.db_chains.specs.Changes.{IsPlaced};
ghost use Rattle.db_chains.specs.Ends.{DraftsAtMost, HasWord};
ghost use Rattle.db_chains.specs.Free.{IsNumber};
ghost use Rattle.vldb_chains.specs.Keys.{name_chain};
ghost use Rattle.vldb_chains.specs.Places.{free_blocks, id_links, name_links};
ghost use Rattle.vldb_entries.specs.Location.{IsRecord, MayReplace, with_entered};
ghost use Rattle.vldb_records.specs.Changes.{after_replace, fields_cost, id_moved, move_cost, moved, moves_cost, name_moved, replace_cost, with_fields};
ghost use Rattle.vldb_records.specs.Ends.{HasCauseWhere, HasEntry, HasIdWord, Makes};
ghost use Rattle.vldb_entries.specs.declared.layout.TheConstants.{FLAGS_AT, HEAD_LEN, NAME_AT};

use crate::finds::find_link;
use crate::heads::addresses;
use crate::inserts::enter_id;
use crate::removes::leave_id;
use crate::sought::Sought;
use db_blocks::{Block, block_place, word_at};
use db_chains::{put_first, take_out};
use db_image::{Draft, ImageRead, RecordFault};
use std::alloc::Global;
use vldb_chains::{id_chain, id_links, name_chain, name_links};
use vldb_entries::{
    BACKUP_AT, COUNT_AT, FLAGS_AT, HEAD_LEN, NAME_AT, RO_AT, RW_AT, VlEntry, block_of, name_in,
};

/// Takes a word out of the chain of a name, and puts it in front of that of another name. Where it is the same name, nothing is changed.
fn move_name<I: ImageRead>(
    d: &mut Draft<I>,
    old: &[u8],
    new: &[u8],
    word: u32,
) -> Result<(), RecordFault>
    requires len { d.old.len < 2 ^ 31 }
    requires head { HEAD_LEN ≤ d.old.len }
    requires word { IsPlaced name_links d.old.len word }
    ensures bytes { OnOk result (Becomes (name_moved old.now new.now word) d.old d.new) }
    ensures len { d.new.len ≡ d.old.len }
    ensures fault { IfErr result (HasCause d.old.bytes (HasWord name_links (name_chain old.now) word)) }
    ensures frame { DraftsAtMost I.ImageRead (move_cost name_links d.old.layout d.old.len) d.old d.new
        (IsErrOf result RecordFault.DiskFault) }
{
    if old == new {
        return Ok(());
    }
    take_out(d, name_links(), name_chain(old), word)?;
    put_first(d, name_links(), name_chain(new), word)
}

/// Takes a word out of the chain of an id, and puts it in front of that of another id; 0 has no chain. Where it is the same id, nothing is
/// changed.
fn move_id<I: ImageRead>(d: &mut Draft<I>, old: u32, new: u32, word: u32) -> Result<(), RecordFault>
    requires len { d.old.len < 2 ^ 31 }
    requires head { HEAD_LEN ≤ d.old.len }
    requires word { IsPlaced id_links d.old.len word }
    ensures bytes { OnOk result (Becomes (id_moved old new word) d.old d.new) }
    ensures len { d.new.len ≡ d.old.len }
    ensures fault { IfErr result (HasCause d.old.bytes (HasIdWord old word)) }
    ensures frame { DraftsAtMost I.ImageRead (move_cost id_links d.old.layout d.old.len) d.old d.new
        (IsErrOf result RecordFault.DiskFault) }
{
    if old == new {
        return Ok(());
    }
    leave_id(d, old, word)?;
    enter_id(d, new, word)
}

/// Takes the block of a number from the chains of the entry whose fields it has to those of another one.
#[tactic(auto, unfolding(crate::specs::Changes::moved))]
fn move_to<I: ImageRead>(
    d: &mut Draft<I>,
    number: u32,
    block: &Block,
    e: &VlEntry,
) -> Result<(), RecordFault>
    requires len { d.old.len < 2 ^ 31 }
    requires number { IsNumber free_blocks d.old.len number }
    ensures bytes { OnOk result (Becomes (moved number block.now e.now) d.old d.new) }
    ensures len { d.new.len ≡ d.old.len }
    ensures fault { IfErr result (HasCause d.old.bytes (HasEntry number block.now)) }
    ensures frame { DraftsAtMost I.ImageRead (moves_cost d.old.layout d.old.len) d.old d.new (IsErrOf result RecordFault.DiskFault) }
{
    move_name(d, name_in(block), e.name.as_slice(), number)?;
    move_id(d, word_at(block, RW_AT), e.rw, 4 * number)?;
    move_id(d, word_at(block, RO_AT), e.ro, 4 * number + 1)?;
    move_id(d, word_at(block, BACKUP_AT), e.backup, 4 * number + 2)
}

/// The numbers of an entry's block behind its kind.
fn numbers_in(block: &Block) -> &[u8]
    ensures value { result.now ≡ take 32 (drop FLAGS_AT block.now) }
    ensures len { length result.now ≡ 32 }
{
    &block[FLAGS_AT..COUNT_AT + 4]
}

/// The fields of an entry's block behind its words of chains.
fn rest_in(block: &Block) -> &[u8]
    ensures value { result.now ≡ drop NAME_AT block.now }
    ensures len { length result.now ≡ 140 }
{
    &block[NAME_AT..]
}

/// Writes the fields of an entry's block into that of a number: all but its kind and its words of chains.
#[tactic(auto, unfolding(crate::specs::Changes::with_fields))]
fn put_fields<I: ImageRead>(d: &mut Draft<I>, number: u32, block: &Block) -> Result<(), RecordFault>
    requires len { d.old.len < 2 ^ 31 }
    requires number { IsNumber free_blocks d.old.len number }
    ensures bytes { OnOk result (Becomes (with_fields (number - 1) block.now) d.old d.new) }
    ensures len { d.new.len ≡ d.old.len }
    ensures fault { IfErr result IsOfImage }
    ensures frame { DraftsAtMost I.ImageRead (fields_cost d.old.layout) d.old d.new (IsErrOf result RecordFault.DiskFault) }
{
    let place = block_place(HEAD_LEN as u32, number - 1);
    d.put(place + FLAGS_AT as u32, numbers_in(block))?;
    d.put(place + NAME_AT as u32, rest_in(block))
}

/// Puts an entry in place of that of a read-write id. Where its name is another one now, its block goes out of the chain of the old one and
/// in front of that of the new one; then so for its read-write, its read-only and its backup id, of which 0 has no chain. What stays the
/// same keeps its place in its chain. After that the block gets its fields. After an `Err` a part of the change may be in the draft.
pub fn replace<I: ImageRead>(
    alloc: Global,
    d: &mut Draft<I>,
    own: u32,
    e: &VlEntry,
) -> Result<(), RecordFault>
    requires len { d.old.len < 2 ^ 31 }
    requires entry { IsRecord e.now }
    ensures holds { OnOk result (Makes (MayReplace own e.now) (with_entered own e.now) d.old d.new) }
    ensures bytes { OnOk result (Becomes (after_replace own e.now) d.old d.new) }
    ensures len { d.new.len ≡ d.old.len }
    ensures fault { IfErr result (HasCauseWhere (MayReplace own e.now) d.old.bytes) }
    ensures frame { DraftsAtMost I.ImageRead (replace_cost d.old.layout d.old.len) d.old d.new (IsErrOf result RecordFault.DiskFault) }
{
    let Some(link) = find_link(d, id_links(), id_chain(own), Sought::Id(own))? else {
        return Err(RecordFault::BadRecord { at: d.len() });
    };
    let places = addresses(d)?;
    let block = block_of(alloc, &places, e)?;
    let number = link.word / 4;
    move_to(d, number, &link.block, e)?;
    put_fields(d, number, &block)
}
