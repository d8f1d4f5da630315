//! An entry that gets another id, in its own blocks and in all pairs, and goes from the chain of the one id to that of the other.
ghost use Rattle.std.specs.Prelude.{◌≡◌, ◌+◌, ◌<◌, ◌^◌, Some, IfOk, OnOk, IfErr, IfSome, IsErrOf};
ghost use Rattle.db_blocks.specs.Ends.{Becomes, HasCause, OnlyDrafts};
ghost use Rattle.db_chains.specs.Ends.{CostsAtMost, HasWord};
ghost use Rattle.db_chains.specs.Free.{IsNumber};
ghost use Rattle.prdb_layout.specs.Registry.{Registry};
ghost use Rattle.prdb_lists.specs.Changes.{place_in};
ghost use Rattle.prdb_lists.specs.Members.{Members};
ghost use Rattle.prdb_lists.specs.Moves.{MayMove, after_put_id, after_relist, with_id_word};
ghost use Rattle.prdb_finds.specs.Ends.{HasCauseWhere};
ghost use Rattle.prdb_finds.specs.Keys.{id_chain};
ghost use Rattle.prdb_finds.specs.Places.{free_blocks, id_links};
ghost use Rattle.prdb_finds.specs.Records.{Holds};
ghost use Rattle.prdb_members.specs.Costs.{MoveCosts, RelistCosts, rechain_cost};
ghost use Rattle.prdb_members.specs.Moves.{HasRelist, IsMoved, MakesMove, rechained};
ghost use Rattle.prdb_members.specs.Sides.{HasEntry};

use crate::finds::elements;
use crate::sides::find_place;
use db_blocks::Block;
use db_chains::{put_first, take_out};
use db_image::{Draft, ImageRead, RecordFault};
use prdb_finds::{id_chain, id_links};
use prdb_lists::write_list;
use std::alloc::Global;
use ubik_types::WORD_LEN;

/// Where the id stands in the block of an entry.
const ID_AT: usize = 8;

/// Puts an id in place of another one in the list of an entry. The list keeps its blocks.
fn relist<I: ImageRead>(
    alloc: Global,
    d: &mut Draft<I>,
    entry: i32,
    old_id: i32,
    new_id: i32,
) -> Result<(), RecordFault>
    requires { d.old.len < 2 ^ 31 }
    ensures bytes { OnOk result (IfSome d.old.bytes (λ image. HasRelist old_id new_id entry image
        → d.new.bytes ≡ Some (after_relist old_id new_id entry image))) }
    ensures len { d.new.len ≡ d.old.len }
    ensures fault { IfErr result (HasCause d.old.bytes (HasRelist old_id new_id entry)) }
    ensures frame { OnlyDrafts I.ImageRead d.old d.new (IsErrOf result RecordFault.DiskFault) }
    ensures cost { RelistCosts I.ImageRead entry d.old d.new }
{
    let place = find_place(alloc, d, entry)?;
    let others = place.listed.ids.without(alloc, old_id)?;
    let ids = others.with(alloc, new_id)?;
    let ids = ids.as_slice();
    let more = place.listed.more.as_slice();
    write_list(alloc, d, &place, ids, more)
}

/// A block with another id.
fn with_id(block: &Block, id: i32) -> Block
    ensures { result ≡ with_id_word id block.now }
{
    let mut moved = *block;
    moved[ID_AT..ID_AT + WORD_LEN].copy_from_slice(&id.to_be_bytes());
    moved
}

/// Writes another id into the blocks of an entry, whose list stays, and answers the number of its block.
fn put_id<I: ImageRead>(
    alloc: Global,
    d: &mut Draft<I>,
    old_id: i32,
    new_id: i32,
) -> Result<u32, RecordFault>
    requires { d.old.len < 2 ^ 31 }
    ensures bytes { OnOk result (IfSome d.old.bytes (λ image. HasEntry old_id image → d.new.bytes ≡ Some (after_put_id old_id new_id image))) }
    ensures number { IfOk result (λ n. IfSome d.old.bytes (λ image. HasEntry old_id image → n ≡ place_in image old_id + 1)) }
    ensures within { IfOk result (λ n. IsNumber free_blocks d.old.len n) }
    ensures len { d.new.len ≡ d.old.len }
    ensures fault { IfErr result (HasCause d.old.bytes (HasEntry old_id)) }
    ensures frame { OnlyDrafts I.ImageRead d.old d.new (IsErrOf result RecordFault.DiskFault) }
    ensures cost { RelistCosts I.ImageRead old_id d.old d.new }
{
    let mut place = find_place(alloc, d, old_id)?;
    place.entry = new_id;
    place.found.block = with_id(&place.found.block, new_id);
    let ids = place.listed.ids.as_slice();
    let more = place.listed.more.as_slice();
    write_list(alloc, d, &place, ids, more)?;
    Ok(place.found.number + 1)
}

/// Takes the block of a number out of the chain of an id, and puts it in front of that of another one.
fn rechain<I: ImageRead>(
    d: &mut Draft<I>,
    old_id: i32,
    new_id: i32,
    number: u32,
) -> Result<(), RecordFault>
    requires len { d.old.len < 2 ^ 31 }
    requires number { IsNumber free_blocks d.old.len number }
    ensures bytes { OnOk result (Becomes (rechained old_id new_id number) d.old d.new) }
    ensures len { d.new.len ≡ d.old.len }
    ensures fault { IfErr result (HasCause d.old.bytes (HasWord id_links (id_chain old_id) number)) }
    ensures frame { OnlyDrafts I.ImageRead d.old d.new (IsErrOf result RecordFault.DiskFault) }
    ensures cost { CostsAtMost I.ImageRead (rechain_cost d.old.layout d.old.len) d.old d.new }
{
    take_out(d, id_links(), id_chain(old_id), number)?;
    put_first(d, id_links(), id_chain(new_id), number)
}

/// Gives an entry another id, which no entry has, in its own blocks and in all pairs. The new id is of the same kind, and nothing is
/// owned by the old one. No block is taken or freed. After an `Err` a part of the change may be in the draft.
pub fn move_id<I: ImageRead>(
    alloc: Global,
    d: &mut Draft<I>,
    old_id: i32,
    new_id: i32,
) -> Result<(), RecordFault>
    requires { d.old.len < 2 ^ 31 }
    ensures holds { OnOk result (MakesMove old_id new_id d.old d.new) }
    ensures bytes { OnOk result (IfSome d.old.bytes (λ image. (r : Registry) (m : Members) → Holds image r m → MayMove old_id new_id r
        → IsMoved old_id new_id m image d.new.bytes)) }
    ensures len { d.new.len ≡ d.old.len }
    ensures fault { IfErr result (HasCauseWhere (λ r m. MayMove old_id new_id r) d.old.bytes) }
    ensures frame { OnlyDrafts I.ImageRead d.old d.new (IsErrOf result RecordFault.DiskFault) }
    ensures cost { MoveCosts I.ImageRead old_id new_id d.old d.new }
{
    let others = elements(alloc, d, old_id)?;
    for other in others.as_slice() {
        relist(alloc, d, *other, old_id, new_id)?;
    }
    let number = put_id(alloc, d, old_id, new_id)?;
    rechain(d, old_id, new_id, number)
}
