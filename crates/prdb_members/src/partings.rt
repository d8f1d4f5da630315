//! All pairs of an entry that go at once.
ghost use Rattle.std.specs.Prelude.{◌≡◌, ◌<◌, ◌^◌, Some, OnOk, IfErr, IfSome, IsErrOf};
ghost use Rattle.db_blocks.specs.Ends.{HasCause, OnlyDrafts};
ghost use Rattle.prdb_lists.specs.Blocks.{AreWithin};
ghost use Rattle.prdb_finds.specs.Ends.{HasItsCause};
ghost use Rattle.prdb_members.specs.Changes.{with_all_freed, without_id, without_id_in, without_ids};
ghost use Rattle.prdb_members.specs.Ends.{IsParted, LosesPairs};
ghost use Rattle.prdb_members.specs.Sides.{CanFree, CanLose, HasEntry, HasInList};

use crate::finds::elements;
use crate::sides::{find_place, remove_id};
use db_chains::free_block;
use db_image::{Draft, ImageRead, RecordFault};
use prdb_finds::free_blocks;
use prdb_lists::write_list;
use std::alloc::Global;

/// Takes an id from the list of an entry.
fn take_id<I: ImageRead>(
    alloc: Global,
    d: &mut Draft<I>,
    entry: i32,
    id: i32,
) -> Result<(), RecordFault>
    requires { d.old.len < 2 ^ 31 }
    ensures bytes { OnOk result (IfSome d.old.bytes (λ image. HasInList id entry image
        → d.new.bytes ≡ Some (without_id entry id image))) }
    ensures len { d.new.len ≡ d.old.len }
    ensures fault { IfErr result (HasCause d.old.bytes (HasInList id entry)) }
    ensures frame { OnlyDrafts I.ImageRead d.old d.new (IsErrOf result RecordFault.DiskFault) }
{
    let place = find_place(alloc, d, entry)?;
    remove_id(alloc, d, &place, id)
}

/// Takes an id from the lists of these entries.
fn take_from_all<I: ImageRead>(
    alloc: Global,
    d: &mut Draft<I>,
    entries: &[i32],
    id: i32,
) -> Result<(), RecordFault>
    requires { d.old.len < 2 ^ 31 }
    ensures bytes { OnOk result (IfSome d.old.bytes (λ image. CanLose id entries.now image
        → d.new.bytes ≡ Some (without_id_in entries.now id image))) }
    ensures len { d.new.len ≡ d.old.len }
    ensures fault { IfErr result (HasCause d.old.bytes (CanLose id entries.now)) }
    ensures frame { OnlyDrafts I.ImageRead d.old d.new (IsErrOf result RecordFault.DiskFault) }
{
    for entry in entries {
        take_id(alloc, d, *entry, id)?;
    }
    Ok(())
}

/// Frees these blocks.
fn free_all<I: ImageRead>(d: &mut Draft<I>, blocks: &[u32]) -> Result<(), RecordFault>
    requires len { d.old.len < 2 ^ 31 }
    requires within { AreWithin d.old.len blocks.now }
    ensures bytes { OnOk result (IfSome d.old.bytes (λ image. CanFree blocks.now image
        → d.new.bytes ≡ Some (with_all_freed blocks.now image))) }
    ensures len { d.new.len ≡ d.old.len }
    ensures fault { IfErr result (HasCause d.old.bytes (CanFree blocks.now)) }
    ensures frame { OnlyDrafts I.ImageRead d.old d.new (IsErrOf result RecordFault.DiskFault) }
{
    for number in blocks {
        free_block(d, free_blocks(), *number + 1)?;
    }
    Ok(())
}

/// Empties the list of an entry, whose continuation blocks are free from then on.
fn empty_list<I: ImageRead>(alloc: Global, d: &mut Draft<I>, entry: i32) -> Result<(), RecordFault>
    requires { d.old.len < 2 ^ 31 }
    ensures bytes { OnOk result (IfSome d.old.bytes (λ image. HasEntry entry image → d.new.bytes ≡ Some (without_ids entry image))) }
    ensures len { d.new.len ≡ d.old.len }
    ensures fault { IfErr result (HasCause d.old.bytes (HasEntry entry)) }
    ensures frame { OnlyDrafts I.ImageRead d.old d.new (IsErrOf result RecordFault.DiskFault) }
{
    let place = find_place(alloc, d, entry)?;
    free_all(d, place.listed.more.as_slice())?;
    write_list(alloc, d, &place, &[], &[])
}

/// Removes all pairs of an id, which may be no entry's. Its own list is written once. After an `Err` a part of the change may be in
/// the draft.
pub fn remove_pairs<I: ImageRead>(
    alloc: Global,
    d: &mut Draft<I>,
    id: i32,
) -> Result<(), RecordFault>
    requires { d.old.len < 2 ^ 31 }
    ensures holds { OnOk result (LosesPairs id d.old d.new) }
    ensures bytes { OnOk result (IsParted id d.old d.new) }
    ensures len { d.new.len ≡ d.old.len }
    ensures fault { IfErr result (HasItsCause d.old.bytes) }
    ensures frame { OnlyDrafts I.ImageRead d.old d.new (IsErrOf result RecordFault.DiskFault) }
{
    let others = elements(alloc, d, id)?;
    let others = others.as_slice();
    if others.is_empty() {
        return Ok(());
    }
    empty_list(alloc, d, id)?;
    take_from_all(alloc, d, others, id)
}
