//! The calls that put an entry in, over a draft.
ghost use Rattle.std.specs.Prelude.{◌≡◌, ◌<◌, ◌≤◌, ◌^◌, IfSome, IfOk, IfErr, IsErrOf, OnOk, max};
ghost use Rattle.db_image.specs.Ends.{IsDecided, end_of};
ghost use Rattle.db_image.specs.Images.{IsOfImage};
ghost use Rattle.db_blocks.specs.Ends.{Becomes, OnlyDrafts};
ghost use Rattle.vldb_records.specs.Ends.{HasCauseWhere, HasItsCause};
ghost use Rattle.vldb_entries.specs.Location.{IsRecord, Location};
ghost use Rattle.vldb_records.specs.Records.{Holds};
ghost use Rattle.vl_service.specs.Entering.{IsThere, MayPut, MayStore, moved, stored};
ghost use Rattle.vl_service.specs.Meaning.{Answers, created, entered, entered_unless, entry_faults, first_fault, of_masked, replaced, reply_by, with_lock};
ghost use Rattle.vl_service.specs.Standing.{IsDone};
ghost use Rattle.vl_calls.specs.declared.answers.VlAnswer.TheVariants as answer;

use crate::deciding::{Decision, Places, decide};
use crate::locking::{has_other_bits, moment_left, operation_left};
use crate::looks::{find_typed, is_volume_type, tell};
use crate::rules::{BAD_RELEASE, BAD_VOLUME_TYPE, NO_ENTRY};
use db_image::{CallEnd, Draft, ImageRead, RecordFault};
use std::alloc::Global;
use vl_calls::{GivenEntry, VlAnswer};
use vldb_entries::VlEntry;
use vldb_records::{insert, replace, set_addresses};

/// Gives the places their new addresses, where these are others.
fn set_places<I: ImageRead>(
    alloc: Global,
    d: &mut Draft<I>,
    places: &Places,
) -> Result<(), RecordFault>
    requires { d.old.len < 2 ^ 31 }
    ensures bytes { OnOk result (Becomes (moved places.now) d.old d.new) }
    ensures len { OnOk result (d.new.len ≤ max d.old.len 3132) }
    ensures longer { d.old.len ≤ d.new.len }
    ensures fault { IfErr result IsOfImage }
    ensures frame { OnlyDrafts I.ImageRead d.old d.new (IsErrOf result RecordFault.DiskFault) }
{
    if places.new == places.old {
        return Ok(());
    }
    set_addresses(alloc, d, &places.new)
}

/// Puts an entry in place of that of a read-write id, or of none: 0.
fn store<I: ImageRead>(
    alloc: Global,
    d: &mut Draft<I>,
    own: u32,
    e: &VlEntry,
) -> Result<(), RecordFault>
    requires len { d.old.len < 2 ^ 31 }
    requires entry { IsRecord e.now }
    ensures bytes { OnOk result (Becomes (stored own e.now) d.old d.new) }
    ensures longer { d.old.len ≤ d.new.len }
    ensures fault { IfErr result (HasCauseWhere (MayStore own e.now) d.old.bytes) }
    ensures frame { OnlyDrafts I.ImageRead d.old d.new (IsErrOf result RecordFault.DiskFault) }
{
    if own == 0 {
        insert(alloc, d, e)
    } else {
        replace(alloc, d, own, e)
    }
}

/// Gives the places their new addresses, and puts an entry in.
fn put<I: ImageRead>(
    alloc: Global,
    d: &mut Draft<I>,
    own: u32,
    places: &Places,
    e: &VlEntry,
) -> Result<CallEnd, RecordFault>
    requires len { d.old.len ≤ 16777216 }
    requires entry { IsRecord e.now }
    ensures told { IfOk result (λ end. end ≡ end_of (reply_by (Answers answer.Done))) }
    ensures bytes { OnOk result (Becomes (λ image. stored own e.now (moved places.now image)) d.old d.new) }
    ensures longer { d.old.len ≤ d.new.len }
    ensures short { IfOk result IsDecided }
    ensures fault { IfErr result (HasCauseWhere (MayPut own e.now places.now) d.old.bytes) }
    ensures frame { OnlyDrafts I.ImageRead d.old d.new (IsErrOf result RecordFault.DiskFault) }
{
    let end = tell(alloc, &VlAnswer::Done)?;
    set_places(alloc, d, places)?;
    store(alloc, d, own, e)?;
    Ok(end)
}

/// An entry as a call gives it, with a lock.
fn with_lock(e: GivenEntry, lock_op: u32, lock_moment: u32) -> VlEntry
    ensures { result ≡ with_lock lock_op lock_moment e }
{
    VlEntry {
        name: e.name,
        flags: e.flags,
        rw: e.rw,
        ro: e.ro,
        backup: e.backup,
        clone_id: e.clone_id,
        sites: e.sites,
        lock_op,
        lock_moment,
    }
}

/// Puts an entry with a lock in place of that of a read-write id, or of none: 0; a new server takes the lowest free place.
fn enter<I: ImageRead>(
    alloc: Global,
    d: &mut Draft<I>,
    own: u32,
    operation: u32,
    moment: u32,
    e: GivenEntry,
) -> Result<CallEnd, RecordFault>
    requires { d.old.len ≤ 16777216 }
    ensures meant { IfOk result (λ end. IfSome d.old.bytes (λ image. (s : Location) → Holds image s
        → IsDone (entered_unless (first_fault (entry_faults s own e)) (entered s own operation moment e)) s image end d.new.bytes)) }
    ensures longer { d.old.len ≤ d.new.len }
    ensures short { IfOk result IsDecided }
    ensures fault { IfErr result (HasCauseWhere (IsThere own) d.old.bytes) }
    ensures frame { OnlyDrafts I.ImageRead d.old d.new (IsErrOf result RecordFault.DiskFault) }
{
    match decide(alloc, d, own, &e)? {
        Decision::Refused(fault) => Ok(CallEnd::Rule(fault)),
        Decision::Enters(places) => {
            let end = put(alloc, d, own, &places, &with_lock(e, operation, moment))?;
            Ok(end)
        }
    }
}

/// Makes an entry, which is not locked.
pub fn create_entry<I: ImageRead>(
    alloc: Global,
    d: &mut Draft<I>,
    e: GivenEntry,
) -> Result<CallEnd, RecordFault>
    requires { d.old.len ≤ 16777216 }
    ensures meant { IfOk result (λ end. IfSome d.old.bytes (λ image. (s : Location) → Holds image s
        → IsDone (created s e) s image end d.new.bytes)) }
    ensures longer { d.old.len ≤ d.new.len }
    ensures short { IfOk result IsDecided }
    ensures fault { IfErr result (HasItsCause d.old.bytes) }
    ensures frame { OnlyDrafts I.ImageRead d.old d.new (IsErrOf result RecordFault.DiskFault) }
{
    let end = enter(alloc, d, 0, 0, 0, e)?;
    Ok(end)
}

/// Puts an entry in place of the one that has an id as its id of a type. What a mask leaves of the lock stays.
pub fn replace_entry<I: ImageRead>(
    alloc: Global,
    d: &mut Draft<I>,
    volume_type: i32,
    id: u32,
    e: GivenEntry,
    mask: u32,
) -> Result<CallEnd, RecordFault>
    requires { d.old.len ≤ 16777216 }
    ensures meant { IfOk result (λ end. IfSome d.old.bytes (λ image. (s : Location) → Holds image s
        → IsDone (of_masked s volume_type id mask (replaced s e mask)) s image end d.new.bytes)) }
    ensures longer { d.old.len ≤ d.new.len }
    ensures short { IfOk result IsDecided }
    ensures fault { IfErr result (HasItsCause d.old.bytes) }
    ensures frame { OnlyDrafts I.ImageRead d.old d.new (IsErrOf result RecordFault.DiskFault) }
{
    if !is_volume_type(volume_type) {
        return Ok(CallEnd::Rule(BAD_VOLUME_TYPE));
    }
    if has_other_bits(mask) {
        return Ok(CallEnd::Rule(BAD_RELEASE));
    }
    let Some(old) = find_typed(alloc, d, volume_type, id)? else {
        return Ok(CallEnd::Rule(NO_ENTRY));
    };
    let operation = operation_left(mask, &old);
    let moment = moment_left(mask, &old);
    let end = enter(alloc, d, old.rw, operation, moment, e)?;
    Ok(end)
}
