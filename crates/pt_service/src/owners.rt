//! Who owns a new entry, or why there is to be none, over a draft.
ghost use Rattle.std.specs.Prelude.{◌≡◌, ◌<◌, ◌^◌, IfOk, IfErr, IsErrOf, is_some, true};
ghost use Rattle.std.specs.Option.{option_map};
ghost use Rattle.db_blocks.specs.Ends.{OnlyLooks};
ghost use Rattle.prdb_layout.specs.RecordEnds.{seen};
ghost use Rattle.prdb_finds.specs.Ends.{HasItsCause};
ghost use Rattle.pt_calls.specs.Meaning.{id_named};
ghost use Rattle.pt_service.specs.Meaning.{given_owner, owner_by_front, owner_for, owner_of};
ghost use Rattle.pt_service.specs.Names.{is_name_of};
ghost use Rattle.pt_service.specs.Told.{Told};

use crate::finds::{entry_of_id, entry_of_name};
use crate::names::{front_of, has_colon, is_name_of, is_system};
use crate::rules::{BAD_NAME, NAME_EXISTS, NO_ENTRY};
use db_image::{Draft, ImageRead, RecordFault};
use prdb_layout::PrEntry;
use std::alloc::Global;

/// The id of `system:administrators`, which owns what has no other owner.
pub(crate) const ADMINISTRATORS: i32 = -204;

/// The owner of a group by the text before the `:` of its name: the entry of that whole name.
fn owner_by_front<I: ImageRead>(
    alloc: Global,
    d: &mut Draft<I>,
    front: &[u8],
) -> Result<Result<i32, u32>, RecordFault>
    requires { d.old.len < 2 ^ 31 }
    ensures found { IfOk result (λ owner. Told d.old.bytes (λ r. owner ≡ owner_by_front r front.now)) }
    ensures fault { IfErr result (HasItsCause d.old.bytes) }
    ensures frame { OnlyLooks I.ImageRead d.old d.new (IsErrOf result RecordFault.DiskFault) }
{
    if is_system(front) {
        return Ok(Ok(ADMINISTRATORS));
    }
    match entry_of_name(alloc, d, front)? {
        Some(e) => Ok(Ok(e.id)),
        None => Ok(Err(BAD_NAME)),
    }
}

/// The owner that is given, where it is an entry and a name with a `:` begins like its name.
fn given_owner(name: &[u8], given: i32, found: &Option<PrEntry>) -> Result<i32, u32>
    ensures { result ≡ given_owner name.now given (option_map seen found.now) }
{
    match found {
        Some(owner) => {
            if has_colon(name) && front_of(name) != front_of(owner.name.as_slice()) {
                Err(BAD_NAME)
            } else {
                Ok(given)
            }
        }
        None => Err(NO_ENTRY),
    }
}

/// The owner of a new entry of a name; 0 stands for none given.
fn owner_of<I: ImageRead>(
    alloc: Global,
    d: &mut Draft<I>,
    name: &[u8],
    given: i32,
) -> Result<Result<i32, u32>, RecordFault>
    requires { d.old.len < 2 ^ 31 }
    ensures found { IfOk result (λ owner. Told d.old.bytes (λ r. owner ≡ owner_of r name.now given)) }
    ensures fault { IfErr result (HasItsCause d.old.bytes) }
    ensures frame { OnlyLooks I.ImageRead d.old d.new (IsErrOf result RecordFault.DiskFault) }
{
    if given != 0 {
        let found = entry_of_id(alloc, d, given)?;
        return Ok(given_owner(name, given, &found));
    }
    if has_colon(name) {
        return owner_by_front(alloc, d, front_of(name));
    }
    Ok(Ok(ADMINISTRATORS))
}

/// Whether an entry has a name, which is in lower case.
fn is_taken<I: ImageRead>(alloc: Global, d: &mut Draft<I>, name: &[u8]) -> Result<bool, RecordFault>
    requires { d.old.len < 2 ^ 31 }
    ensures found { IfOk result (λ taken. Told d.old.bytes (λ r. taken ≡ is_some (id_named r name.now))) }
    ensures fault { IfErr result (HasItsCause d.old.bytes) }
    ensures frame { OnlyLooks I.ImageRead d.old d.new (IsErrOf result RecordFault.DiskFault) }
{
    Ok(entry_of_name(alloc, d, name)?.is_some())
}

/// The owner of a new entry of a name in lower case, or the rule by which there is to be none.
pub(crate) fn owner_for<I: ImageRead>(
    alloc: Global,
    d: &mut Draft<I>,
    group: bool,
    name: &[u8],
    given: i32,
) -> Result<Result<i32, u32>, RecordFault>
    requires { d.old.len < 2 ^ 31 }
    ensures found { IfOk result (λ owner. Told d.old.bytes (λ r. owner ≡ owner_for r group name.now given)) }
    ensures form { IfOk result (λ owner. IfOk owner (λ o. is_name_of group name.now ≡ true)) }
    ensures fault { IfErr result (HasItsCause d.old.bytes) }
    ensures frame { OnlyLooks I.ImageRead d.old d.new (IsErrOf result RecordFault.DiskFault) }
{
    if !is_name_of(group, name) {
        return Ok(Err(BAD_NAME));
    }
    let owner = match owner_of(alloc, d, name, given)? {
        Ok(owner) => owner,
        Err(rule) => return Ok(Err(rule)),
    };
    if is_taken(alloc, d, name)? {
        return Ok(Err(NAME_EXISTS));
    }
    Ok(Ok(owner))
}
