//! One side of a pair: an id that comes into the list of an entry, or goes out of it.
ghost use Rattle.std.specs.Prelude.{◌≡◌, ◌+◌, ◌<◌, ◌≤◌, ◌^◌, ℤ, IfOk, OnOk, IfErr, IfSome, IsErrOf, length};
ghost use Rattle.std.specs.List.{Contains};
ghost use Rattle.db_blocks.specs.Blocks.{block_place};
ghost use Rattle.db_blocks.specs.Ends.{Becomes, HasCause, OnlyDrafts, OnlyLooks};
ghost use Rattle.db_blocks.specs.declared.blocks.TheConstants.{BLOCK_LEN};
ghost use Rattle.db_chains.specs.Ends.{CostsAtMost};
ghost use Rattle.db_chains.specs.Free.{free_cost, take_cost};
ghost use Rattle.prdb_layout.specs.Registry.{Registry};
ghost use Rattle.prdb_lists.specs.Blocks.{AreWithin};
ghost use Rattle.prdb_lists.specs.Layout.{PairList};
ghost use Rattle.prdb_lists.specs.Sides.{IsPlace};
ghost use Rattle.prdb_finds.specs.Places.{free_blocks};
ghost use Rattle.prdb_layout.specs.declared.blocks.TheConstants.{HEAD_LEN};
ghost use Rattle.prdb_members.specs.Changes.{gained, lost, more_for, taken_for, with_freed};
ghost use Rattle.prdb_members.specs.Costs.{PlaceCosts, gain_cost, lose_cost};
ghost use Rattle.prdb_members.specs.Sides.{HasEntry, HasFreeChain, HasLists, HoldsPlace};

use crate::blocks::find_block;
use db_blocks::BLOCK_LEN;
use db_chains::{free_block, take_block};
use db_image::{Draft, ImageRead, RecordFault};
use prdb_finds::free_blocks;
use prdb_lists::{Place, blocks_for, read_list, write_list};
use std::alloc::Global;

/// Where an entry and its list stand.
pub(crate) fn find_place<I: ImageRead>(
    alloc: Global,
    d: &mut Draft<I>,
    entry: i32,
) -> Result<Place, RecordFault>
    requires { d.old.len < 2 ^ 31 }
    ensures found { IfOk result (λ p. IfSome d.old.bytes (λ image. (r : Registry) (lists : ℤ → PairList) → HasLists image r lists
        → IsPlace image r lists p)) }
    ensures entry { IfOk result (λ p. p.entry ≡ entry) }
    ensures within { IfOk result (λ p. block_place HEAD_LEN p.found.number + BLOCK_LEN ≤ d.old.len) }
    ensures more { IfOk result (λ p. AreWithin d.old.len p.listed.more.items) }
    ensures fault { IfErr result (HasCause d.old.bytes (HasEntry entry)) }
    ensures frame { OnlyLooks I.ImageRead d.old d.new (IsErrOf result RecordFault.DiskFault) }
    ensures cost { PlaceCosts I.ImageRead entry d.old d.new }
{
    let end = d.len();
    let Some(found) = find_block(d, entry)? else {
        return Err(RecordFault::BadRecord { at: end });
    };
    let listed = read_list(alloc, d, entry, &found)?;
    Ok(Place {
        entry,
        found,
        listed,
    })
}

/// The blocks for so many ids: those that are there, and one more behind them where one is needed, which is zero.
#[tactic(auto, using(db_image::proofs::ReadSteps::asks_none))]
fn more_for<I: ImageRead>(
    alloc: Global,
    d: &mut Draft<I>,
    there: &[u32],
    count: usize,
) -> Result<Vec<u32>, RecordFault>
    requires len { d.old.len < 2 ^ 31 }
    requires within { AreWithin d.old.len there.now }
    ensures more { IfOk result (λ more. IfSome d.old.bytes (λ image. more.items ≡ more_for count there.now image)) }
    ensures bytes { OnOk result (Becomes (taken_for count there.now) d.old d.new) }
    ensures within { IfOk result (λ more. AreWithin d.new.len more.items) }
    ensures len { OnOk result (d.new.len ≤ d.old.len + BLOCK_LEN) }
    ensures longer { d.old.len ≤ d.new.len }
    ensures few { IfOk result (λ more. length more.items ≤ length there.now + 1) }
    ensures fault { IfErr result (HasCause d.old.bytes HasFreeChain) }
    ensures frame { OnlyDrafts I.ImageRead d.old d.new (IsErrOf result RecordFault.DiskFault) }
    ensures cost { CostsAtMost I.ImageRead (take_cost d.old.layout) d.old d.new }
{
    let mut more = there.to_vec(alloc)?;
    if blocks_for(count) <= there.len() {
        return Ok(more);
    }
    let number = take_block(d, free_blocks(), &[0; BLOCK_LEN])?;
    more.push(number - 1)?;
    Ok(more)
}

/// Adds an id to the list of an entry, which has a block more behind its others where one is needed.
pub(crate) fn add_id<I: ImageRead>(
    alloc: Global,
    d: &mut Draft<I>,
    place: &Place,
    id: i32,
) -> Result<(), RecordFault>
    requires len { d.old.len < 2 ^ 31 }
    requires within { block_place HEAD_LEN place.now.found.number + BLOCK_LEN ≤ d.old.len }
    requires more { AreWithin d.old.len place.now.listed.more.items }
    ensures bytes { OnOk result (¬ Contains place.now.listed.ids id → Becomes (gained place.now.found.number place.now.entry
        place.now.found.block (record { ids = place.now.listed.ids; more = place.now.listed.more.items }) id) d.old d.new) }
    ensures len { OnOk result (d.new.len ≤ d.old.len + BLOCK_LEN) }
    ensures longer { d.old.len ≤ d.new.len }
    ensures fault { IfErr result (HasCause d.old.bytes (HoldsPlace place.now id)) }
    ensures frame { OnlyDrafts I.ImageRead d.old d.new (IsErrOf result RecordFault.DiskFault) }
    ensures cost { CostsAtMost I.ImageRead (gain_cost d.old.layout (length place.now.listed.more.items)) d.old d.new }
{
    let ids = place.listed.ids.with(alloc, id)?;
    let ids = ids.as_slice();
    let more = more_for(alloc, d, place.listed.more.as_slice(), ids.len())?;
    write_list(alloc, d, place, ids, more.as_slice())
}

/// The first of these blocks is free from then on, and stands among the free ones.
#[tactic(auto, using(db_image::proofs::ReadSteps::asks_none))]
fn free_first<I: ImageRead>(d: &mut Draft<I>, freed: &[u32]) -> Result<(), RecordFault>
    requires len { d.old.len < 2 ^ 31 }
    requires within { AreWithin d.old.len freed.now }
    ensures bytes { OnOk result (Becomes (with_freed freed.now) d.old d.new) }
    ensures len { d.new.len ≡ d.old.len }
    ensures fault { IfErr result (HasCause d.old.bytes HasFreeChain) }
    ensures frame { OnlyDrafts I.ImageRead d.old d.new (IsErrOf result RecordFault.DiskFault) }
    ensures cost { CostsAtMost I.ImageRead (free_cost free_blocks d.old.layout d.old.len) d.old d.new }
{
    match freed {
        [] => Ok(()),
        [number, ..] => free_block(d, free_blocks(), *number + 1),
    }
}

/// Takes an id from the list of an entry. Its last continuation block is freed where it is not needed any more.
pub(crate) fn remove_id<I: ImageRead>(
    alloc: Global,
    d: &mut Draft<I>,
    place: &Place,
    id: i32,
) -> Result<(), RecordFault>
    requires len { d.old.len < 2 ^ 31 }
    requires within { block_place HEAD_LEN place.now.found.number + BLOCK_LEN ≤ d.old.len }
    requires more { AreWithin d.old.len place.now.listed.more.items }
    ensures bytes { OnOk result (Becomes (lost place.now.found.number place.now.entry place.now.found.block
        (record { ids = place.now.listed.ids; more = place.now.listed.more.items }) id) d.old d.new) }
    ensures len { d.new.len ≡ d.old.len }
    ensures fault { IfErr result (HasCause d.old.bytes (HoldsPlace place.now id)) }
    ensures frame { OnlyDrafts I.ImageRead d.old d.new (IsErrOf result RecordFault.DiskFault) }
    ensures cost { CostsAtMost I.ImageRead (lose_cost d.old.layout d.old.len (length place.now.listed.more.items)) d.old d.new }
{
    let ids = place.listed.ids.without(alloc, id)?;
    let ids = ids.as_slice();
    let more = place.listed.more.as_slice();
    let (kept, freed) = more.split_at(more.len().min(blocks_for(ids.len())));
    free_first(d, freed)?;
    write_list(alloc, d, place, ids, kept)
}
