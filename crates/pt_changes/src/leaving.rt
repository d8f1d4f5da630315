//! The call that removes an entry, over a draft.
ghost use Rattle.std.specs.Prelude.{◌≤◌, IfOk, IfErr, IsErrOf};
ghost use Rattle.db_image.specs.Ends.{IsDecided};
ghost use Rattle.db_blocks.specs.Ends.{OnlyDrafts};
ghost use Rattle.prdb_finds.specs.Ends.{HasItsCause};
ghost use Rattle.pt_service.specs.Meaning.{leaves, of_entry};
ghost use Rattle.pt_changes.specs.Standing.{IsMeantOf};

use crate::fixed::is_fixed;
use db_image::{CallEnd, Draft, ImageRead, RecordFault};
use prdb_entries::remove;
use prdb_members::remove_pairs;
use prdb_turns::disown;
use pt_calls::PtAnswer;
use pt_looks::is_unknown;
use pt_service::{NO_ENTRY, NOT_PERMITTED, tell};
use std::alloc::Global;

/// Removes an entry and its pairs (ptserver's delete). What it owned has no owner from then on, and keeps its name. It is refused by
/// `NO_ENTRY` where no entry has the id, and by `NOT_PERMITTED` at a fixed one. A refusal leaves the bytes; after an error the draft
/// is to be let go.
pub fn delete<I: ImageRead>(
    alloc: Global,
    d: &mut Draft<I>,
    id: i32,
) -> Result<CallEnd, RecordFault>
    requires { d.old.len ≤ 16777216 }
    ensures meant { IfOk result (λ end. IsMeantOf d.old.bytes (λ s. of_entry (s.registry.entry id) leaves) end d.new.bytes) }
    ensures longer { d.old.len ≤ d.new.len }
    ensures short { IfOk result IsDecided }
    ensures fault { IfErr result (HasItsCause d.old.bytes) }
    ensures frame { OnlyDrafts I.ImageRead d.old d.new (IsErrOf result RecordFault.DiskFault) }
{
    if is_unknown(alloc, d, id)? {
        return Ok(CallEnd::Rule(NO_ENTRY));
    }
    if is_fixed(id) {
        return Ok(CallEnd::Rule(NOT_PERMITTED));
    }
    let end = tell(alloc, &PtAnswer::Done)?;
    remove_pairs(alloc, d, id)?;
    disown(alloc, d, id)?;
    remove(alloc, d, id)?;
    Ok(end)
}
