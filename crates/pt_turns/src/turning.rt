//! The call that gives an entry another name, owner or id, over a draft: what is decided, and then what is changed.
ghost use Rattle.std.specs.Prelude.{◌≤◌, IfOk, IfErr, IsErrOf};
ghost use Rattle.db_image.specs.Ends.{IsDecided};
ghost use Rattle.db_blocks.specs.Ends.{OnlyDrafts};
ghost use Rattle.prdb_layout.specs.Names.{lowered};
ghost use Rattle.prdb_finds.specs.Ends.{HasItsCause};
ghost use Rattle.pt_service.specs.Meaning.{of_entry, turns};
ghost use Rattle.pt_changes.specs.Standing.{IsMeantOf};

use crate::deciding::{Given, decide};
use db_image::{CallEnd, Draft, ImageRead, RecordFault};
use prdb_finds::{maxima, set_maxima};
use prdb_turns::turn;
use pt_calls::PtAnswer;
use pt_looks::entry_of;
use pt_service::{NO_ENTRY, lowered, raised, tell};
use std::alloc::Global;

/// Gives an entry another name, owner or id (ptserver's changeentry). An empty name, an owner 0 and a new id 0 stand for none given.
/// Groups that are named after the entry follow its name, and a given id raises the maximum that it is past. A refusal leaves the bytes;
/// after an `Err` the draft may hold a part of the change, and is to be dropped.
///
/// It makes three passes over the blocks at most, however many groups follow: one before it is decided, where a name without a `:` changes,
/// one for the groups that are to follow, and one for the users that the entry owns, where its id changes. All else is found along chains.
pub fn change_entry<I: ImageRead>(
    alloc: Global,
    d: &mut Draft<I>,
    id: i32,
    name: &[u8],
    owner: i32,
    new_id: i32,
) -> Result<CallEnd, RecordFault>
    requires { d.old.len ≤ 16777216 }
    ensures meant { IfOk result (λ end. IsMeantOf d.old.bytes (λ s. of_entry (s.registry.entry id)
        (turns s.registry (lowered name.now) owner new_id)) end d.new.bytes) }
    ensures longer { d.old.len ≤ d.new.len }
    ensures short { IfOk result IsDecided }
    ensures fault { IfErr result (HasItsCause d.old.bytes) }
    ensures frame { OnlyDrafts I.ImageRead d.old d.new (IsErrOf result RecordFault.DiskFault) }
{
    let Some(e) = entry_of(alloc, d, id)? else {
        return Ok(CallEnd::Rule(NO_ENTRY));
    };
    let name = lowered(alloc, name)?;
    let given = Given {
        name: &name,
        owner,
        id: new_id,
    };
    let decided = match decide(alloc, d, &e, given)? {
        Ok(decided) => decided,
        Err(rule) => return Ok(CallEnd::Rule(rule)),
    };
    let (user, group) = maxima(d)?;
    let end = tell(alloc, &PtAnswer::Done)?;
    turn(alloc, d, &e, &decided.name, decided.owner, decided.id)?;
    // The new id 0 is past no maximum.
    let (user, group) = raised(user, group, new_id);
    set_maxima(alloc, d, user, group)?;
    Ok(end)
}
