//! The calls that set and release the lock of an entry, over a draft.
ghost use Rattle.std.specs.Prelude.{◌≡◌, ◌==◌, ◌≤◌, Some, IfSome, IfOk, IfErr, IsErrOf, OnOk, not, nat_lt};
ghost use Rattle.db_image.specs.Ends.{IsDecided, end_of};
ghost use Rattle.db_blocks.specs.Ends.{Becomes, OnlyDrafts};
ghost use Rattle.vldb_records.specs.Ends.{HasCauseWhere, HasItsCause};
ghost use Rattle.vldb_entries.specs.Location.{Location};
ghost use Rattle.vldb_records.specs.Changes.{after_replace};
ghost use Rattle.vldb_records.specs.Records.{Holds};
ghost use Rattle.vl_service.specs.Meaning.{Answers, is_operation, lock_released, lock_set, moment_left, of_masked, operation_left, reply_by};
ghost use Rattle.vl_service.specs.Standing.{IsDone};
ghost use Rattle.vl_calls.specs.declared.answers.VlAnswer.TheVariants as answer;

use crate::fitting::entry_fits;
use crate::looks::{find_typed, is_volume_type, tell};
use crate::rules::{BAD_OPERATION, BAD_RELEASE, BAD_VOLUME_TYPE, ENTRY_LOCKED, NO_ENTRY};
use db_image::{CallEnd, Draft, ImageRead, RecordFault};
use std::alloc::Global;
use vl_calls::VlAnswer;
use vldb_entries::VlEntry;
use vldb_records::replace;

/// Whether an entry may be locked for an operation: move, release, backup, delete (and a change of sites) or dump.
fn is_operation(operation: u32) -> bool
    ensures { result ≡ is_operation operation }
{
    operation == 0x10
        || operation == 0x20
        || operation == 0x40
        || operation == 0x80
        || operation == 0x100
}

fn is_locked(e: &VlEntry) -> bool
    ensures { result ≡ not (e.now.lock_op == 0) }
{
    e.lock_op != 0
}

/// Whether a mask has more than the bits of the moment and the operation.
pub(crate) fn has_other_bits(mask: u32) -> bool
    ensures { result ≡ nat_lt 3 mask }
{
    mask > 3
}

/// What a mask leaves of the operation of an entry's lock.
pub(crate) fn operation_left(mask: u32, e: &VlEntry) -> u32
    ensures { result ≡ operation_left mask e.now }
{
    if mask & 2 == 0 { e.lock_op } else { 0 }
}

/// What a mask leaves of the moment of an entry's lock.
pub(crate) fn moment_left(mask: u32, e: &VlEntry) -> u32
    ensures { result ≡ moment_left mask e.now }
{
    if mask & 1 == 0 { e.lock_moment } else { 0 }
}

/// Gives an entry of the database another lock.
fn put_lock<I: ImageRead>(
    alloc: Global,
    d: &mut Draft<I>,
    mut e: VlEntry,
    operation: u32,
    moment: u32,
) -> Result<CallEnd, RecordFault>
    requires { d.old.len ≤ 16777216 }
    ensures told { IfOk result (λ end. end ≡ end_of (reply_by (Answers answer.Done))) }
    ensures bytes { OnOk result (Becomes (after_replace e.rw (record e { lock_op = operation; lock_moment = moment })) d.old d.new) }
    ensures longer { d.old.len ≤ d.new.len }
    ensures short { IfOk result IsDecided }
    ensures fault { IfErr result (HasCauseWhere (λ s. s.entry e.rw ≡ Some e) d.old.bytes) }
    ensures frame { OnlyDrafts I.ImageRead d.old d.new (IsErrOf result RecordFault.DiskFault) }
{
    e.lock_op = operation;
    e.lock_moment = moment;
    if !entry_fits(&e) {
        return Err(RecordFault::BadRecord { at: d.len() });
    }
    let end = tell(alloc, &VlAnswer::Done)?;
    replace(alloc, d, e.rw, &e)?;
    Ok(end)
}

/// Locks the entry that has an id as its id of a type, where it is not locked.
pub fn set_lock<I: ImageRead>(
    alloc: Global,
    d: &mut Draft<I>,
    now: u32,
    volume_type: i32,
    id: u32,
    operation: u32,
) -> Result<CallEnd, RecordFault>
    requires { d.old.len ≤ 16777216 }
    ensures meant { IfOk result (λ end. IfSome d.old.bytes (λ image. (s : Location) → Holds image s
        → IsDone (lock_set s volume_type id operation now) s image end d.new.bytes)) }
    ensures longer { d.old.len ≤ d.new.len }
    ensures short { IfOk result IsDecided }
    ensures fault { IfErr result (HasItsCause d.old.bytes) }
    ensures frame { OnlyDrafts I.ImageRead d.old d.new (IsErrOf result RecordFault.DiskFault) }
{
    if !is_volume_type(volume_type) {
        return Ok(CallEnd::Rule(BAD_VOLUME_TYPE));
    }
    if !is_operation(operation) {
        return Ok(CallEnd::Rule(BAD_OPERATION));
    }
    let Some(entry) = find_typed(alloc, d, volume_type, id)? else {
        return Ok(CallEnd::Rule(NO_ENTRY));
    };
    if is_locked(&entry) {
        return Ok(CallEnd::Rule(ENTRY_LOCKED));
    }
    let end = put_lock(alloc, d, entry, operation, now)?;
    Ok(end)
}

/// Clears what a mask names of the lock of the entry that has an id as its id of a type.
pub fn release_lock<I: ImageRead>(
    alloc: Global,
    d: &mut Draft<I>,
    volume_type: i32,
    id: u32,
    mask: u32,
) -> Result<CallEnd, RecordFault>
    requires { d.old.len ≤ 16777216 }
    ensures meant { IfOk result (λ end. IfSome d.old.bytes (λ image. (s : Location) → Holds image s
        → IsDone (of_masked s volume_type id mask (lock_released s mask)) s image end d.new.bytes)) }
    ensures longer { d.old.len ≤ d.new.len }
    ensures short { IfOk result IsDecided }
    ensures fault { IfErr result (HasItsCause d.old.bytes) }
    ensures frame { OnlyDrafts I.ImageRead d.old d.new (IsErrOf result RecordFault.DiskFault) }
{
    if !is_volume_type(volume_type) {
        return Ok(CallEnd::Rule(BAD_VOLUME_TYPE));
    }
    if has_other_bits(mask) {
        return Ok(CallEnd::Rule(BAD_RELEASE));
    }
    let Some(entry) = find_typed(alloc, d, volume_type, id)? else {
        return Ok(CallEnd::Rule(NO_ENTRY));
    };
    let operation = operation_left(mask, &entry);
    let moment = moment_left(mask, &entry);
    let end = put_lock(alloc, d, entry, operation, moment)?;
    Ok(end)
}
