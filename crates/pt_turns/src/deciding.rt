//! What becomes of an entry that is to get another name, owner or id, and why it does not, over a draft.
ghost use Rattle.std.specs.Prelude.{◌≡◌, ◌≤◌, ◌==◌, ◌&&◌, ◌||◌, Some, IfOk, IfErr, IsErrOf, IsSome};
ghost use Rattle.std.specs.Prelude.{is_none, is_some, length, nat_lt, not, pos, true};
ghost use Rattle.std.specs.List.{list_any};
ghost use Rattle.std.specs.Option.{option_map};
ghost use Rattle.std.specs.Ordering.{int_eq};
ghost use Rattle.std.specs.Str.{bytes_eq};
ghost use Rattle.db_blocks.specs.Ends.{OnlyLooks};
ghost use Rattle.prdb_layout.specs.RecordEnds.{seen};
ghost use Rattle.prdb_layout.specs.State.{front_of};
ghost use Rattle.prdb_finds.specs.Ends.{HasItsCause};
ghost use Rattle.pt_service.specs.Names.{has_colon, is_name_of};
ghost use Rattle.pt_service.specs.Turning.{front_of_entry, given_or, owns_another, turns_its_groups};
ghost use Rattle.pt_looks.specs.States.{OfStates};
ghost use Rattle.pt_service.specs.State.{is_group, is_id};
ghost use Rattle.pt_turns.specs.Deciding.{IsDecided, given_fault, has_name, is_long, misnamed_by, name_by, name_fault, shares_one};

use crate::names::len_with_front;
use crate::sought::groups_under;
use db_image::{Draft, ImageRead, RecordFault};
use prdb_finds::owned_ids;
use prdb_layout::PrEntry;
use prdb_turns::with_front;
use pt_changes::is_fixed;
use pt_looks::entry_of;
use pt_service::{
    BAD_ARGUMENT, BAD_NAME, ID_EXISTS, MAX_NAME, NAME_EXISTS, NO_ENTRY, NOT_PERMITTED,
    entry_of_name, front_of, has_colon, is_group, is_id, is_name_of,
};
use std::alloc::Global;
use ubik_types::NoMemory;

/// What a call gives an entry. An empty name, an owner 0 and an id 0 stand for none given.
#[derive(Clone, Copy)]
pub(crate) struct Given<'a> {
    pub name: &'a [u8],
    pub owner: i32,
    pub id: i32,
}

/// What is given, or what was there where nothing is.
pub(crate) fn given_or(given: i32, old: i32) -> i32
    ensures { result ≡ given_or given old }
{
    if given == 0 { old } else { given }
}

/// The text before the `:` of an entry's name, or before that of another name where there is no entry.
fn front_under<'a>(owner: &'a Option<PrEntry>, name: &'a [u8]) -> &'a [u8]
    ensures { result.now ≡ front_of_entry (option_map seen owner.now) (front_of name.now) }
{
    match owner {
        Some(e) => front_of(e.name.as_slice()),
        None => front_of(name),
    }
}

/// The name that an entry gets: the given one, or its own, with the text before its `:` of another owner.
fn new_name(
    alloc: Global,
    e: &PrEntry,
    given: Given<'_>,
    owner: &Option<PrEntry>,
) -> Result<Vec<u8>, NoMemory>
    ensures { IfOk result (λ name. name.items
        ≡ name_by (seen e.now) given.entry.name.now given.entry.owner (option_map seen owner.now)) }
{
    let name = e.name.as_slice();
    if !given.name.is_empty() {
        Ok(given.name.to_vec(alloc)?)
    } else if has_colon(name) && given.owner != 0 && given.owner != e.owner {
        with_front(alloc, front_under(owner, name), name)
    } else {
        Ok(name.to_vec(alloc)?)
    }
}

/// Whether a name is given that is none of this kind.
fn is_bad_name(group: bool, name: &[u8]) -> bool
    ensures { result ≡ (not (length name.now == 0) && not (is_name_of group name.now)) }
{
    !name.is_empty() && !is_name_of(group, name)
}

/// Whether an owner is given that is no entry. `owner`: its entry, if it is one.
fn lacks_owner(given: i32, owner: &Option<PrEntry>) -> bool
    ensures { result ≡ (not (int_eq given (pos 0)) && is_none (option_map seen owner.now)) }
{
    match owner {
        Some(_) => false,
        None => given != 0,
    }
}

/// The rule by which what is given does not fit an entry by itself. `owner`: the entry of the given owner, if it is one.
fn given_fault(e: &PrEntry, given: Given<'_>, owner: &Option<PrEntry>) -> Option<u32>
    ensures { result ≡ given_fault (seen e.now) given.entry.name.now given.entry.owner given.entry.id (option_map seen owner.now) }
{
    let group = is_group(e.id);
    if is_fixed(e.id) {
        Some(NOT_PERMITTED)
    } else if is_bad_name(group, given.name) {
        Some(BAD_NAME)
    } else if lacks_owner(given.owner, owner) {
        Some(NO_ENTRY)
    } else if !is_id(group, given_or(given.id, e.id)) {
        Some(BAD_ARGUMENT)
    } else {
        None
    }
}

/// Whether an id is a group's, and a name for it has a `:`.
fn has_group_front(id: i32, name: &[u8]) -> bool
    ensures { result ≡ (is_group id && has_colon name.now) }
{
    is_group(id) && has_colon(name)
}

/// Whether a group's given name begins otherwise than that of its owner, which is the entry of the owner's id, if there is one.
fn is_misnamed(e: &PrEntry, given: Given<'_>, owner: &Option<PrEntry>) -> bool
    ensures { result ≡ misnamed_by (seen e.now) given.entry.name.now given.entry.owner (option_map seen owner.now) }
{
    let name = given.name;
    let has_owner = given_or(given.owner, e.owner) != 0;
    has_group_front(e.id, name) && has_owner && front_of(name) != front_under(owner, name)
}

/// Whether an id other than one is among these.
fn has_other(ids: &[i32], id: i32) -> bool
    ensures { result ≡ list_any (λ other. not (int_eq other id)) ids.now }
{
    ids.iter().any(|other| *other != id)
}

/// Whether an entry owns another group. Its groups are found along their own chain.
fn owns_another<I: ImageRead>(alloc: Global, d: &mut Draft<I>, id: i32) -> Result<bool, RecordFault>
    requires { d.old.len ≤ 16777216 }
    ensures found { IfOk result (λ another. OfStates d.old.bytes
        (λ s. IsSome (s.registry.entry id) → another ≡ owns_another s.registry id)) }
    ensures fault { IfErr result (HasItsCause d.old.bytes) }
    ensures frame { OnlyLooks I.ImageRead d.old d.new (IsErrOf result RecordFault.DiskFault) }
{
    let Some(ids) = owned_ids(alloc, d, id)? else {
        return Ok(false);
    };
    Ok(has_other(&ids, id))
}

/// Whether a name has a `:`, and another one has other text before its own.
fn turns_front(name: &[u8], new: &[u8]) -> bool
    ensures { result ≡ (has_colon name.now && not (bytes_eq (front_of new.now) (front_of name.now))) }
{
    has_colon(name) && front_of(new) != front_of(name)
}

/// Whether the text before the `:` of a group's name turns, although it owns another group.
fn turns_its_groups<I: ImageRead>(
    alloc: Global,
    d: &mut Draft<I>,
    e: &PrEntry,
    new: &[u8],
) -> Result<bool, RecordFault>
    requires { d.old.len ≤ 16777216 }
    ensures found { IfOk result (λ is. OfStates d.old.bytes (λ s. s.registry.entry e.now.id ≡ Some (seen e.now)
        → is ≡ turns_its_groups s.registry (seen e.now) new.now)) }
    ensures fault { IfErr result (HasItsCause d.old.bytes) }
    ensures frame { OnlyLooks I.ImageRead d.old d.new (IsErrOf result RecordFault.DiskFault) }
{
    if !turns_front(e.name.as_slice(), new) {
        return Ok(false);
    }
    owns_another(alloc, d, e.id)
}

/// Whether a group that follows a name would have too long a name.
fn is_long(g: &PrEntry, new: &[u8]) -> bool
    ensures { result ≡ is_long new.now (seen g.now) }
{
    len_with_front(front_of(new), g.name.as_slice()) > MAX_NAME
}

/// Whether one of the groups that follow a name would have too long a name.
fn has_long_group(new: &[u8], groups: &[PrEntry]) -> bool
    ensures { result ≡ list_any (λ g. is_long new.now (seen g)) groups.now }
{
    groups.iter().any(|g| is_long(g, new))
}

/// Whether a name is too long, or that of one of the groups that follow it would be. No other name grows.
fn has_long_name(new: &[u8], groups: &[PrEntry]) -> bool
    ensures { result ≡ (nat_lt 63 (length new.now) || list_any (λ g. is_long new.now (seen g)) groups.now) }
{
    new.len() > MAX_NAME || has_long_group(new, groups)
}

/// Whether an entry has a name, which is in lower case.
fn has_name<I: ImageRead>(alloc: Global, d: &mut Draft<I>, name: &[u8]) -> Result<bool, RecordFault>
    requires { d.old.len ≤ 16777216 }
    ensures found { IfOk result (λ has. OfStates d.old.bytes (λ s. has ≡ has_name s.registry name.now)) }
    ensures fault { IfErr result (HasItsCause d.old.bytes) }
    ensures frame { OnlyLooks I.ImageRead d.old d.new (IsErrOf result RecordFault.DiskFault) }
{
    Ok(entry_of_name(alloc, d, name)?.is_some())
}

/// Whether a group of a name that follows a new one would share it: with the entry that has the new one, or with one whose name stays.
fn shares_one<I: ImageRead>(
    alloc: Global,
    d: &mut Draft<I>,
    new: &[u8],
    name: &[u8],
) -> Result<bool, RecordFault>
    requires { d.old.len ≤ 16777216 }
    ensures found { IfOk result (λ is. OfStates d.old.bytes (λ s. is ≡ shares_one s.registry new.now name.now)) }
    ensures fault { IfErr result (HasItsCause d.old.bytes) }
    ensures frame { OnlyLooks I.ImageRead d.old d.new (IsErrOf result RecordFault.DiskFault) }
{
    let after = with_front(alloc, front_of(new), name)?;
    if after.as_slice() == new {
        return Ok(true);
    }
    if after.as_slice() == name {
        return Ok(false);
    }
    has_name(alloc, d, &after)
}

/// Whether one of the groups that follow a new name would share its own.
fn shares_any<I: ImageRead>(
    alloc: Global,
    d: &mut Draft<I>,
    new: &[u8],
    groups: &[PrEntry],
) -> Result<bool, RecordFault>
    requires { d.old.len ≤ 16777216 }
    ensures found { IfOk result (λ is. OfStates d.old.bytes
        (λ s. is ≡ list_any (λ g. shares_one s.registry new.now (seen g).name) groups.now)) }
    ensures fault { IfErr result (HasItsCause d.old.bytes) }
    ensures frame { OnlyLooks I.ImageRead d.old d.new (IsErrOf result RecordFault.DiskFault) }
{
    for g in groups {
        let shares = shares_one(alloc, d, new, g.name.as_slice())?;
        if shares {
            return Ok(true);
        }
    }
    Ok(false)
}

/// Whether two entries would have one name, where an entry gets another one and these groups follow it. Names differ before, and those
/// that follow differ from each other, so one of the two has the new name, or follows it. What has that name now keeps it.
fn has_equal_names<I: ImageRead>(
    alloc: Global,
    d: &mut Draft<I>,
    new: &[u8],
    groups: &[PrEntry],
) -> Result<bool, RecordFault>
    requires { d.old.len ≤ 16777216 }
    ensures found { IfOk result (λ is. OfStates d.old.bytes (λ s. is ≡ (has_name s.registry new.now
        || list_any (λ g. shares_one s.registry new.now (seen g).name) groups.now))) }
    ensures fault { IfErr result (HasItsCause d.old.bytes) }
    ensures frame { OnlyLooks I.ImageRead d.old d.new (IsErrOf result RecordFault.DiskFault) }
{
    let taken = has_name(alloc, d, new)?;
    if taken {
        return Ok(true);
    }
    shares_any(alloc, d, new, groups)
}

/// Whether a name is the one that an entry has.
fn keeps_name(e: &PrEntry, new: &[u8]) -> bool
    ensures { result ≡ bytes_eq new.now e.now.name }
{
    new == e.name.as_slice()
}

/// The rule by which names do not turn so. None where the entry keeps its name, as they all stay then. One pass over the blocks at most:
/// for the groups that are named after it.
fn name_fault<I: ImageRead>(
    alloc: Global,
    d: &mut Draft<I>,
    e: &PrEntry,
    new: &[u8],
) -> Result<Option<u32>, RecordFault>
    requires { d.old.len ≤ 16777216 }
    ensures found { IfOk result (λ fault. OfStates d.old.bytes (λ s. s.registry.entry e.now.id ≡ Some (seen e.now)
        → fault ≡ name_fault s.registry (seen e.now) new.now)) }
    ensures fault { IfErr result (HasItsCause d.old.bytes) }
    ensures frame { OnlyLooks I.ImageRead d.old d.new (IsErrOf result RecordFault.DiskFault) }
{
    if keeps_name(e, new) {
        return Ok(None);
    }
    let turns = turns_its_groups(alloc, d, e, new)?;
    if turns {
        return Ok(Some(NOT_PERMITTED));
    }
    let groups = groups_under(alloc, d, e.name.as_slice())?;
    if has_long_name(new, &groups) {
        return Ok(Some(BAD_NAME));
    }
    let equal = has_equal_names(alloc, d, new, &groups)?;
    if equal {
        return Ok(Some(NAME_EXISTS));
    }
    Ok(None)
}

/// Whether another entry has an id.
fn is_taken<I: ImageRead>(
    alloc: Global,
    d: &mut Draft<I>,
    old: i32,
    id: i32,
) -> Result<bool, RecordFault>
    requires { d.old.len ≤ 16777216 }
    ensures found { IfOk result (λ taken. OfStates d.old.bytes (λ s. taken ≡ (not (int_eq id old) && is_some (s.registry.entry id)))) }
    ensures fault { IfErr result (HasItsCause d.old.bytes) }
    ensures frame { OnlyLooks I.ImageRead d.old d.new (IsErrOf result RecordFault.DiskFault) }
{
    if id == old {
        return Ok(false);
    }
    Ok(entry_of(alloc, d, id)?.is_some())
}

/// What becomes of an entry.
#[derive(Drop)]
pub(crate) struct Turn {
    pub name: Vec<u8>,
    pub owner: i32,
    pub id: i32,
}

/// What becomes of an entry by what it is given, or the rule by which it does not.
pub(crate) fn decide<I: ImageRead>(
    alloc: Global,
    d: &mut Draft<I>,
    e: &PrEntry,
    given: Given<'_>,
) -> Result<Result<Turn, u32>, RecordFault>
    requires { d.old.len ≤ 16777216 }
    ensures decided { IfOk result (λ decided. OfStates d.old.bytes (λ s. s.registry.entry e.now.id ≡ Some (seen e.now)
        → IsDecided s.registry (seen e.now) given.entry.name.now given.entry.owner given.entry.id decided)) }
    ensures id { IfOk result (λ decided. IfOk decided (λ turn. is_id (is_group e.now.id) (given_or given.entry.id e.now.id) ≡ true)) }
    ensures fault { IfErr result (HasItsCause d.old.bytes) }
    ensures frame { OnlyLooks I.ImageRead d.old d.new (IsErrOf result RecordFault.DiskFault) }
{
    let owner = given_or(given.owner, e.owner);
    let id = given_or(given.id, e.id);
    let its_owner = entry_of(alloc, d, owner)?;
    let unfit = given_fault(e, given, &its_owner);
    if let Some(rule) = unfit {
        return Ok(Err(rule));
    }
    if is_misnamed(e, given, &its_owner) {
        return Ok(Err(BAD_NAME));
    }
    let name = new_name(alloc, e, given, &its_owner)?;
    let fault = name_fault(alloc, d, e, &name)?;
    if let Some(rule) = fault {
        return Ok(Err(rule));
    }
    let taken = is_taken(alloc, d, e.id, id)?;
    if taken {
        return Ok(Err(ID_EXISTS));
    }
    Ok(Ok(Turn { name, owner, id }))
}
