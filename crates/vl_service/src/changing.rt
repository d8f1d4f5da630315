//! The calls that change the next volume id or remove an entry, over a draft.
ghost use Rattle.std.specs.Prelude.{◌≡◌, ◌+◌, ◌<◌, ◌≤◌, ◌^◌, ◌||◌, Some, None, IfSome, IfOk, IfErr, IsErrOf, nat_lt, if◌then◌else◌};
ghost use Rattle.db_image.specs.Ends.{IsDecided};
ghost use Rattle.db_blocks.specs.Ends.{OnlyDrafts};
ghost use Rattle.vldb_records.specs.Ends.{HasItsCause};
ghost use Rattle.vldb_entries.specs.Location.{Location};
ghost use Rattle.vldb_records.specs.Records.{Holds};
ghost use Rattle.vl_service.specs.Meaning.{leaves, max_id, new_volume_id, of_id};
ghost use Rattle.vl_service.specs.Standing.{IsDone};

use crate::looks::{find_typed, is_volume_type, tell};
use crate::rules::{BAD_BUMP, BAD_VOLUME_TYPE, NO_ENTRY};
use db_image::{CallEnd, Draft, ImageRead, RecordFault};
use std::alloc::Global;
use vl_calls::VlAnswer;
use vldb_records::{next_volume, remove, set_next_volume};

/// The most volume ids that one call takes.
const MAX_BUMP: u32 = 20;

/// The greatest id of a volume.
pub(crate) const MAX_VOLUME: u32 = 2_147_483_647;

/// The next volume id after so many are taken, if they may be.
fn next_after(next: u32, bump: u32) -> Option<u32>
    ensures { result ≡ (if nat_lt 20 bump || nat_lt max_id (next + bump) then None else Some (next + bump)) }
{
    if bump > MAX_BUMP || next > MAX_VOLUME - bump {
        return None;
    }
    Some(next + bump)
}

/// Takes volume ids. None is taken where the draft is as before.
pub fn take_volume_ids<I: ImageRead>(
    alloc: Global,
    d: &mut Draft<I>,
    bump: u32,
) -> Result<CallEnd, RecordFault>
    requires { d.old.len ≤ 16777216 }
    ensures meant { IfOk result (λ end. IfSome d.old.bytes (λ image. (s : Location) → Holds image s
        → IsDone (new_volume_id s bump) s image end d.new.bytes)) }
    ensures longer { d.old.len ≤ d.new.len }
    ensures short { IfOk result IsDecided }
    ensures fault { IfErr result (HasItsCause d.old.bytes) }
    ensures frame { OnlyDrafts I.ImageRead d.old d.new (IsErrOf result RecordFault.DiskFault) }
{
    let next = next_volume(d)?;
    let Some(after) = next_after(next, bump) else {
        return Ok(CallEnd::Rule(BAD_BUMP));
    };
    let end = tell(alloc, &VlAnswer::Id(next))?;
    set_next_volume(alloc, d, after)?;
    Ok(end)
}

/// Removes the entry that has an id as its id of a type.
pub fn delete_entry<I: ImageRead>(
    alloc: Global,
    d: &mut Draft<I>,
    volume_type: i32,
    id: u32,
) -> Result<CallEnd, RecordFault>
    requires { d.old.len ≤ 16777216 }
    ensures meant { IfOk result (λ end. IfSome d.old.bytes (λ image. (s : Location) → Holds image s
        → IsDone (of_id s volume_type id leaves) s image end d.new.bytes)) }
    ensures longer { d.old.len ≤ d.new.len }
    ensures short { IfOk result IsDecided }
    ensures fault { IfErr result (HasItsCause d.old.bytes) }
    ensures frame { OnlyDrafts I.ImageRead d.old d.new (IsErrOf result RecordFault.DiskFault) }
{
    if !is_volume_type(volume_type) {
        return Ok(CallEnd::Rule(BAD_VOLUME_TYPE));
    }
    let Some(entry) = find_typed(alloc, d, volume_type, id)? else {
        return Ok(CallEnd::Rule(NO_ENTRY));
    };
    let end = tell(alloc, &VlAnswer::Done)?;
    remove(d, entry.rw)?;
    Ok(end)
}
