//! The calls that set the maxima, and the flags and the quota of an entry, over a draft.
ghost use Rattle.std.specs.Prelude.{◌≡◌, ◌≤◌, Some, IsTrue, IfOk, IfErr, OnOk, IsErrOf, if◌then◌else◌};
ghost use Rattle.db_image.specs.Ends.{IsDecided};
ghost use Rattle.db_blocks.specs.Ends.{Becomes, OnlyDrafts};
ghost use Rattle.prdb_layout.specs.RecordEnds.{seen};
ghost use Rattle.prdb_finds.specs.Ends.{HasCauseWhere, HasItsCause};
ghost use Rattle.prdb_entries.specs.Changes.{after_replace};
ghost use Rattle.pt_service.specs.Fitting.{Refits, entry_fits};
ghost use Rattle.pt_service.specs.Meaning.{are_bad_fields, are_flags, fields_set, is_maximum, maximum_set, names_flags, names_quota, of_entry, with_fields};
ghost use Rattle.pt_service.specs.Told.{IsMeant};

use crate::finds::{entry_of_id, is_group, is_id};
use crate::looks::tell;
use crate::rules::{BAD_ARGUMENT, NO_ENTRY};
use db_image::{CallEnd, Draft, ImageRead, RecordFault};
use prdb_entries::replace;
use prdb_finds::{maxima, set_maxima};
use prdb_layout::PrEntry;
use pt_calls::PtAnswer;
use std::alloc::Global;

/// Whether a number may be the maximum of groups, one of their ids, or of users, at least 0.
fn is_maximum(group: bool, id: i32) -> bool
    ensures { result ≡ is_maximum group id }
{
    if group {
        is_id(true, id)
    } else {
        !is_group(id)
    }
}

/// The maxima with another one of groups, or of users.
fn with_maximum(user: i32, least: i32, group: bool, id: i32) -> (i32, i32)
    ensures { result ≡ (if group then (user, id) else (id, least)) }
{
    if group { (user, id) } else { (id, least) }
}

/// Sets the maximum id of groups, or of users.
pub fn set_max<I: ImageRead>(
    alloc: Global,
    d: &mut Draft<I>,
    id: i32,
    group: bool,
) -> Result<CallEnd, RecordFault>
    requires { d.old.len ≤ 16777216 }
    ensures meant { IfOk result (λ end. IsMeant d.old.bytes (λ r. maximum_set r id group) end d.new.bytes) }
    ensures longer { d.old.len ≤ d.new.len }
    ensures short { IfOk result IsDecided }
    ensures fault { IfErr result (HasItsCause d.old.bytes) }
    ensures frame { OnlyDrafts I.ImageRead d.old d.new (IsErrOf result RecordFault.DiskFault) }
{
    if !is_maximum(group, id) {
        return Ok(CallEnd::Rule(BAD_ARGUMENT));
    }
    let (max_user, max_group) = maxima(d)?;
    let end = tell(alloc, &PtAnswer::Done)?;
    let next = with_maximum(max_user, max_group, group, id);
    set_maxima(alloc, d, next.0, next.1)?;
    Ok(end)
}

/// Whether a number is of five places of four bits: who may see the status (1, 2), the owned groups (0, 2), the members (0 to 2), who
/// may add (0 to 2) and remove members (0, 1).
fn are_flags(flags: u32) -> bool
    ensures { result ≡ are_flags flags }
{
    let status = flags / 0x1_0000;
    let owned = flags / 0x1000 % 16;
    (status == 1 || status == 2)
        && (owned == 0 || owned == 2)
        && flags / 0x100 % 16 <= 2
        && flags / 16 % 16 <= 2
        && flags % 16 <= 1
}

/// Whether a mask names the flags.
fn names_flags(mask: u32) -> bool
    ensures { result ≡ names_flags mask }
{
    mask & 1 != 0
}

/// Whether a mask names the quota.
fn names_quota(mask: u32) -> bool
    ensures { result ≡ names_quota mask }
{
    mask & 2 != 0
}

/// Whether a mask names more than there is, or flags or a quota that no entry is given.
fn are_bad_fields(mask: u32, flags: u32, quota: i32) -> bool
    ensures { result ≡ are_bad_fields mask flags quota }
{
    mask > 3 || names_flags(mask) && !are_flags(flags) || names_quota(mask) && quota < 0
}

/// An entry with the fields that a mask names.
fn with_fields(mut e: PrEntry, mask: u32, flags: u32, quota: i32) -> PrEntry
    ensures { seen result ≡ with_fields mask flags quota (seen e) }
{
    if names_flags(mask) {
        e.flags = flags;
    }
    if names_quota(mask) {
        e.quota = quota;
    }
    e
}

/// Gives an entry of the database other fields.
fn put<I: ImageRead>(alloc: Global, d: &mut Draft<I>, e: PrEntry) -> Result<(), RecordFault>
    requires len { d.old.len ≤ 16777216 }
    requires fits { IsTrue (entry_fits (seen e)) }
    ensures bytes { OnOk result (Becomes (after_replace e.id (seen e)) d.old d.new) }
    ensures longer { d.old.len ≤ d.new.len }
    ensures fault { IfErr result (HasCauseWhere (λ r m. Refits r (seen e)) d.old.bytes) }
    ensures frame { OnlyDrafts I.ImageRead d.old d.new (IsErrOf result RecordFault.DiskFault) }
{
    replace(alloc, d, e.id, &e)
}

/// Sets the fields of the entry of an id that a mask names: 1 the flags, 2 the quota.
pub fn set_fields<I: ImageRead>(
    alloc: Global,
    d: &mut Draft<I>,
    id: i32,
    mask: u32,
    flags: u32,
    quota: i32,
) -> Result<CallEnd, RecordFault>
    requires { d.old.len ≤ 16777216 }
    ensures meant { IfOk result (λ end. IsMeant d.old.bytes (λ r. of_entry (r.entry id) (fields_set mask flags quota)) end d.new.bytes) }
    ensures longer { d.old.len ≤ d.new.len }
    ensures short { IfOk result IsDecided }
    ensures fault { IfErr result (HasItsCause d.old.bytes) }
    ensures frame { OnlyDrafts I.ImageRead d.old d.new (IsErrOf result RecordFault.DiskFault) }
{
    let Some(e) = entry_of_id(alloc, d, id)? else {
        return Ok(CallEnd::Rule(NO_ENTRY));
    };
    if are_bad_fields(mask, flags, quota) {
        return Ok(CallEnd::Rule(BAD_ARGUMENT));
    }
    let end = tell(alloc, &PtAnswer::Done)?;
    let e = with_fields(e, mask, flags, quota);
    put(alloc, d, e)?;
    Ok(end)
}
