//! An entry that gets another id, also where it owns groups and users.
ghost use Rattle.std.specs.Prelude.{◌≡◌, ◌<◌, ◌≤◌, ◌^◌, IfErr, IfOk, IfSome, IsErrOf, OnOk, map, max};
ghost use Rattle.db_blocks.specs.Ends.{OnlyDrafts};
ghost use Rattle.prdb_layout.specs.Registry.{Registry};
ghost use Rattle.prdb_lists.specs.Members.{Members};
ghost use Rattle.pt_service.specs.Turning.{moved};
ghost use Rattle.prdb_finds.specs.Ends.{HasCauseWhere};
ghost use Rattle.prdb_finds.specs.Records.{Holds};
ghost use Rattle.prdb_finds.specs.declared.places.TheConstants.{FIRST_LEN};
ghost use Rattle.prdb_turns.specs.Renumbering.{IsRenumbered, MakesRenumbered, MayRenumber, moved_back};

use crate::owners::{give, its_own};
use db_image::{Draft, ImageRead, RecordFault};
use prdb_finds::make_whole;
use prdb_members::move_id;
use std::alloc::{AllocError, Global};

/// These ids, where one id took the place of another.
fn moved_ids(alloc: Global, old: i32, new: i32, ids: &[i32]) -> Result<Vec<i32>, AllocError>
    ensures { IfOk result (λ after. after.items ≡ map (moved old new) ids.now) }
{
    ids.iter()
        .map(|id| if *id == old { new } else { *id })
        .collect(alloc)
}

/// These ids, where one id took the place of another, last to first.
fn moved_back(alloc: Global, old: i32, new: i32, ids: &[i32]) -> Result<Vec<i32>, AllocError>
    ensures { IfOk result (λ after. after.items ≡ moved_back old new ids.now) }
{
    let mut after = moved_ids(alloc, old, new, ids)?;
    after.reverse();
    Ok(after)
}

/// Gives an entry another id, in pairs and as an owner too. The new id is of the same kind, and no entry has it.
///
/// What the entry owns has no owner while it moves: the groups in the order of its owned chain, and then the users. It gets the new one
/// last to first, so that the chain has the words that it had. No block is taken or freed. After an `Err` a part of the change may be in
/// the draft.
pub fn renumber<I: ImageRead>(
    alloc: Global,
    d: &mut Draft<I>,
    old_id: i32,
    new_id: i32,
) -> Result<(), RecordFault>
    requires { d.old.len < 2 ^ 31 }
    ensures holds { OnOk result (MakesRenumbered old_id new_id d.old d.new) }
    ensures bytes { OnOk result (IfSome d.old.bytes (λ image. (r : Registry) (m : Members) → Holds image r m → MayRenumber old_id new_id r
        → IsRenumbered old_id new_id r m image d.new.bytes)) }
    ensures len { OnOk result (d.new.len ≤ max d.old.len FIRST_LEN) }
    ensures longer { d.old.len ≤ d.new.len }
    ensures fault { IfErr result (HasCauseWhere (λ r m. MayRenumber old_id new_id r) d.old.bytes) }
    ensures frame { OnlyDrafts I.ImageRead d.old d.new (IsErrOf result RecordFault.DiskFault) }
{
    make_whole(alloc, d)?;
    let its = its_own(alloc, d, old_id)?;
    give(alloc, d, &its, 0)?;
    move_id(alloc, d, old_id, new_id)?;
    let back = moved_back(alloc, old_id, new_id, &its)?;
    give(alloc, d, &back, new_id)
}
