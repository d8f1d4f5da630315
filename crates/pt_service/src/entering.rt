//! The calls that make an entry, with the next id or with a given one, over a draft: what is decided, and then what is changed.
ghost use Rattle.std.specs.Prelude.{◌≡◌, ◌<◌, ◌≤◌, ◌^◌, IfSome, IfOk, IfErr, OnOk, IsErrOf, is_none, true, if◌then◌else◌};
ghost use Rattle.db_image.specs.Ends.{IsDecided};
ghost use Rattle.db_blocks.specs.Ends.{Becomes, OnlyDrafts, OnlyLooks};
ghost use Rattle.prdb_layout.specs.RecordEnds.{seen};
ghost use Rattle.prdb_layout.specs.Registry.{AreMaxima, IsRecord, MayBeAdded};
ghost use Rattle.prdb_finds.specs.Changes.{after_set_maxima};
ghost use Rattle.prdb_finds.specs.Ends.{HasCauseWhere, HasItsCause};
ghost use Rattle.prdb_entries.specs.Changes.{after_insert};
ghost use Rattle.pt_service.specs.Entering.{kind_of};
ghost use Rattle.pt_service.specs.Meaning.{first_unused, id_behind, made, new_entry, new_entry_of_id, raised};
ghost use Rattle.pt_service.specs.State.{is_group, is_id};
ghost use Rattle.pt_service.specs.Told.{IsMeant, Told};
ghost use Rattle.prdb_layout.specs.Names.{lowered};

use crate::finds::{entry_of_id, is_group, is_id};
use crate::looks::{ANONYMOUS, tell};
use crate::names::lowered;
use crate::owners::owner_for;
use crate::rules::{BAD_ARGUMENT, ID_EXISTS, NO_IDS};
use db_image::{CallEnd, Draft, ImageRead, RecordFault};
use prdb_entries::insert;
use prdb_finds::{maxima, set_maxima};
use prdb_layout::PrEntry;
use pt_calls::PtAnswer;
use std::alloc::Global;
use ubik_types::Bytes;

/// The greatest id of a user; a group's least one is its negative.
const MAX_ID: u32 = 2_147_483_647;

/// What a user begins with (own).
const USER_FLAGS: u32 = 131_072;

/// What a group begins with (own).
const GROUP_FLAGS: u32 = 131_584;

/// How many groups a user may still make at first.
const USER_QUOTA: i32 = 20;

/// Whether a new entry's kind is a group: 0 is a user, 2 is a group, and no other is a kind.
fn kind_of(kind: u32) -> Option<bool>
    ensures { result ≡ kind_of kind }
{
    match kind {
        0 => Some(false),
        2 => Some(true),
        _ => None,
    }
}

/// The id of a group or of a user behind so many of them, away from 0.
fn id_behind(group: bool, passed: u32) -> i32
    requires { passed < MAX_ID }
    ensures { result ≡ id_behind group passed }
{
    if group {
        -(passed as i32) - 1
    } else {
        passed as i32 + 1
    }
}

/// Whether no entry has an id.
fn is_unused<I: ImageRead>(alloc: Global, d: &mut Draft<I>, id: i32) -> Result<bool, RecordFault>
    requires { d.old.len < 2 ^ 31 }
    ensures found { IfOk result (λ unused. Told d.old.bytes (λ r. unused ≡ is_none (r.entry id))) }
    ensures fault { IfErr result (HasItsCause d.old.bytes) }
    ensures frame { OnlyLooks I.ImageRead d.old d.new (IsErrOf result RecordFault.DiskFault) }
{
    Ok(entry_of_id(alloc, d, id)?.is_none())
}

/// The first unused id of a group or of a user behind so many of them.
fn first_unused<I: ImageRead>(
    alloc: Global,
    d: &mut Draft<I>,
    group: bool,
    passed: u32,
) -> Result<Option<i32>, RecordFault>
    requires { d.old.len < 2 ^ 31 }
    ensures found { IfOk result (λ found. Told d.old.bytes (λ r. found ≡ first_unused r group passed)) }
    ensures id { IfOk result (λ found. IfSome found (λ id. is_id group id ≡ true)) }
    ensures fault { IfErr result (HasItsCause d.old.bytes) }
    ensures frame { OnlyLooks I.ImageRead d.old d.new (IsErrOf result RecordFault.DiskFault) }
{
    for n in passed..MAX_ID {
        let id = id_behind(group, n);
        if is_unused(alloc, d, id)? {
            return Ok(Some(id));
        }
    }
    Ok(None)
}

/// An entry as a call makes it for who is not signed in.
fn made(group: bool, name: Bytes, id: i32, owner: i32) -> PrEntry
    ensures { seen result ≡ made group name id owner }
{
    PrEntry {
        name,
        flags: if group { GROUP_FLAGS } else { USER_FLAGS },
        id,
        owner,
        creator: ANONYMOUS,
        quota: if group { 0 } else { USER_QUOTA },
    }
}

/// The maxima with an id that comes in, where it is past one of them.
pub fn raised(user: i32, group: i32, id: i32) -> (i32, i32)
    ensures { result ≡ raised user group id }
{
    if is_group(id) {
        (user, if id < group { id } else { group })
    } else {
        (if user < id { id } else { user }, group)
    }
}

/// The maximum of groups, or of users.
fn maximum_of(group: bool, user: i32, least: i32) -> i32
    ensures { result ≡ (if group then least else user) }
{
    if group { least } else { user }
}

/// Adds an entry, and sets the maxima.
fn enter<I: ImageRead>(
    alloc: Global,
    d: &mut Draft<I>,
    e: &PrEntry,
    maxima: (i32, i32),
) -> Result<(), RecordFault>
    requires len { d.old.len ≤ 16777216 }
    requires entry { IsRecord (seen e.now) }
    requires maxima { AreMaxima maxima.0 maxima.1 }
    ensures bytes { OnOk result (Becomes (λ image. after_set_maxima maxima.0 maxima.1 (after_insert (seen e.now) image)) d.old d.new) }
    ensures longer { d.old.len ≤ d.new.len }
    ensures fault { IfErr result (HasCauseWhere (λ r m. MayBeAdded (seen e.now) r) d.old.bytes) }
    ensures frame { OnlyDrafts I.ImageRead d.old d.new (IsErrOf result RecordFault.DiskFault) }
{
    insert(alloc, d, e)?;
    set_maxima(alloc, d, maxima.0, maxima.1)
}

/// Makes a user or a group with the next id. `kind`: 0 for a user, 2 for a group; an owner 0 stands for none given.
pub fn new_entry<I: ImageRead>(
    alloc: Global,
    d: &mut Draft<I>,
    name: &[u8],
    kind: u32,
    owner: i32,
) -> Result<CallEnd, RecordFault>
    requires { d.old.len ≤ 16777216 }
    ensures meant { IfOk result (λ end. IsMeant d.old.bytes (λ r. new_entry r (lowered name.now) kind owner) end d.new.bytes) }
    ensures longer { d.old.len ≤ d.new.len }
    ensures short { IfOk result IsDecided }
    ensures fault { IfErr result (HasItsCause d.old.bytes) }
    ensures frame { OnlyDrafts I.ImageRead d.old d.new (IsErrOf result RecordFault.DiskFault) }
{
    let Some(group) = kind_of(kind) else {
        return Ok(CallEnd::Rule(BAD_ARGUMENT));
    };
    let name = Bytes::new(lowered(alloc, name)?);
    let owner = match owner_for(alloc, d, group, name.as_slice(), owner)? {
        Ok(owner) => owner,
        Err(rule) => return Ok(CallEnd::Rule(rule)),
    };
    let (max_user, max_group) = maxima(d)?;
    let maximum = maximum_of(group, max_user, max_group);
    let Some(id) = first_unused(alloc, d, group, maximum.unsigned_abs())? else {
        return Ok(CallEnd::Rule(NO_IDS));
    };
    let end = tell(alloc, &PtAnswer::Id(id))?;
    let e = made(group, name, id, owner);
    enter(alloc, d, &e, raised(max_user, max_group, id))?;
    Ok(end)
}

/// Makes a user or a group, whose id is given. An owner 0 stands for none given.
pub fn new_entry_of_id<I: ImageRead>(
    alloc: Global,
    d: &mut Draft<I>,
    name: &[u8],
    id: i32,
    owner: i32,
) -> Result<CallEnd, RecordFault>
    requires { d.old.len ≤ 16777216 }
    ensures meant { IfOk result (λ end. IsMeant d.old.bytes (λ r. new_entry_of_id r (lowered name.now) id owner) end d.new.bytes) }
    ensures longer { d.old.len ≤ d.new.len }
    ensures short { IfOk result IsDecided }
    ensures fault { IfErr result (HasItsCause d.old.bytes) }
    ensures frame { OnlyDrafts I.ImageRead d.old d.new (IsErrOf result RecordFault.DiskFault) }
{
    let group = is_group(id);
    if !is_id(group, id) {
        return Ok(CallEnd::Rule(BAD_ARGUMENT));
    }
    let name = Bytes::new(lowered(alloc, name)?);
    let owner = match owner_for(alloc, d, group, name.as_slice(), owner)? {
        Ok(owner) => owner,
        Err(rule) => return Ok(CallEnd::Rule(rule)),
    };
    if !is_unused(alloc, d, id)? {
        return Ok(CallEnd::Rule(ID_EXISTS));
    }
    let (max_user, max_group) = maxima(d)?;
    let end = tell(alloc, &PtAnswer::Done)?;
    let e = made(group, name, id, owner);
    enter(alloc, d, &e, raised(max_user, max_group, id))?;
    Ok(end)
}
