//! The calls that put a user into a group and take one out of it, over a draft.
ghost use Rattle.std.specs.Prelude.{◌≤◌, IfOk, IfErr, IsErrOf};
ghost use Rattle.db_image.specs.Ends.{IsDecided};
ghost use Rattle.db_blocks.specs.Ends.{OnlyDrafts};
ghost use Rattle.prdb_finds.specs.Ends.{HasItsCause};
ghost use Rattle.pt_service.specs.Meaning.{joins, of_pair, parts};
ghost use Rattle.pt_changes.specs.Standing.{IsMeantOf};

use crate::fixed::has_users_without_pairs;
use db_image::{CallEnd, Draft, ImageRead, RecordFault};
use prdb_members::{add_pair, remove_pair};
use pt_calls::PtAnswer;
use pt_looks::{is_in, pair_fault};
use pt_service::{ID_EXISTS, NO_ENTRY, NOT_PERMITTED, tell};
use std::alloc::Global;

/// Puts a user into a group (ptserver's addtogroup). It is refused, in this order, by `NO_ENTRY` where one of the two is no entry,
/// `NOT_GROUP`, `NOT_USER`, `NOT_PERMITTED` at a group that has its users without pairs, and `ID_EXISTS` where the user is in it.
/// A refusal leaves the bytes; after an error the draft is to be let go.
pub fn add_to_group<I: ImageRead>(
    alloc: Global,
    d: &mut Draft<I>,
    member: i32,
    group: i32,
) -> Result<CallEnd, RecordFault>
    requires { d.old.len ≤ 16777216 }
    ensures meant { IfOk result (λ end. IsMeantOf d.old.bytes (λ s. of_pair s.registry member group (joins s member group)) end d.new.bytes) }
    ensures longer { d.old.len ≤ d.new.len }
    ensures short { IfOk result IsDecided }
    ensures fault { IfErr result (HasItsCause d.old.bytes) }
    ensures frame { OnlyDrafts I.ImageRead d.old d.new (IsErrOf result RecordFault.DiskFault) }
{
    if let Some(rule) = pair_fault(alloc, d, member, group)? {
        return Ok(CallEnd::Rule(rule));
    }
    if has_users_without_pairs(group) {
        return Ok(CallEnd::Rule(NOT_PERMITTED));
    }
    if is_in(alloc, d, member, group)? {
        return Ok(CallEnd::Rule(ID_EXISTS));
    }
    let end = tell(alloc, &PtAnswer::Done)?;
    add_pair(alloc, d, member, group)?;
    Ok(end)
}

/// Takes a user out of a group (ptserver's removefromgroup). It is refused, in this order, by `NO_ENTRY` where one of the two is no
/// entry, `NOT_GROUP`, `NOT_USER`, and `NO_ENTRY` where the user is not in it. A refusal leaves the bytes; after an error the draft
/// is to be let go.
pub fn remove_from_group<I: ImageRead>(
    alloc: Global,
    d: &mut Draft<I>,
    member: i32,
    group: i32,
) -> Result<CallEnd, RecordFault>
    requires { d.old.len ≤ 16777216 }
    ensures meant { IfOk result (λ end. IsMeantOf d.old.bytes (λ s. of_pair s.registry member group (parts s member group)) end d.new.bytes) }
    ensures longer { d.old.len ≤ d.new.len }
    ensures short { IfOk result IsDecided }
    ensures fault { IfErr result (HasItsCause d.old.bytes) }
    ensures frame { OnlyDrafts I.ImageRead d.old d.new (IsErrOf result RecordFault.DiskFault) }
{
    if let Some(rule) = pair_fault(alloc, d, member, group)? {
        return Ok(CallEnd::Rule(rule));
    }
    if !is_in(alloc, d, member, group)? {
        return Ok(CallEnd::Rule(NO_ENTRY));
    }
    let end = tell(alloc, &PtAnswer::Done)?;
    remove_pair(alloc, d, member, group)?;
    Ok(end)
}
