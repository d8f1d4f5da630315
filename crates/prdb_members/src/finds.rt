//! What is found of pairs.
ghost use Rattle.std.specs.Prelude.{◌≡◌, ◌<◌, ◌^◌, true, IfOk, IfErr, IfSome, IsErrOf};
ghost use Rattle.db_blocks.specs.Ends.{OnlyLooks};
ghost use Rattle.prdb_layout.specs.Registry.{Registry};
ghost use Rattle.entry_scans.specs.Lists.{IsListOf};
ghost use Rattle.prdb_lists.specs.Found.{IsFound};
ghost use Rattle.prdb_lists.specs.Members.{IsInList, Members, are_paired};
ghost use Rattle.prdb_finds.specs.Ends.{HasItsCause};
ghost use Rattle.prdb_finds.specs.Records.{Holds};
ghost use Rattle.prdb_members.specs.Costs.{ListCosts};

use crate::blocks::find_block;
use db_image::{Draft, ImageRead, RecordFault};
use prdb_lists::{IdList, Listed, read_list};
use std::alloc::Global;

/// The id of `system:anyuser`, in which each user is.
const ANY_USER: i32 = -101;

/// The id of `system:authuser`, in which each user is but `anonymous`.
const SIGNED_IN: i32 = -102;

/// The id of `anonymous`.
const ANONYMOUS: i32 = 32766;

/// The pairs of an id; none where the draft is empty or no entry has the id.
fn find_list<I: ImageRead>(
    alloc: Global,
    d: &mut Draft<I>,
    id: i32,
) -> Result<Option<Listed>, RecordFault>
    requires { d.old.len < 2 ^ 31 }
    ensures found { IfOk result (λ found. IfSome d.old.bytes (λ image. (r : Registry) (m : Members) → Holds image r m → IsFound m id found)) }
    ensures fault { IfErr result (HasItsCause d.old.bytes) }
    ensures frame { OnlyLooks I.ImageRead d.old d.new (IsErrOf result RecordFault.DiskFault) }
    ensures cost { ListCosts I.ImageRead id d.old d.new }
{
    if d.len() == 0 {
        return Ok(None);
    }
    let Some(found) = find_block(d, id)? else {
        return Ok(None);
    };
    let listed = read_list(alloc, d, id, &found)?;
    Ok(Some(listed))
}

/// The groups of a user or the members of a group; none of an id that is no entry's. It asks for a word, the blocks of the one chain of the
/// id, and the continuation blocks of the entry at most.
pub fn elements<I: ImageRead>(
    alloc: Global,
    d: &mut Draft<I>,
    id: i32,
) -> Result<IdList, RecordFault>
    requires { d.old.len < 2 ^ 31 }
    ensures found { IfOk result (λ ids. IfSome d.old.bytes (λ image. (r : Registry) (m : Members) → Holds image r m
        → IsListOf (λ other. are_paired m id other ≡ true) ids)) }
    ensures fault { IfErr result (HasItsCause d.old.bytes) }
    ensures frame { OnlyLooks I.ImageRead d.old d.new (IsErrOf result RecordFault.DiskFault) }
    ensures cost { ListCosts I.ImageRead id d.old d.new }
{
    let Some(listed) = find_list(alloc, d, id)? else {
        return Ok(IdList::new(alloc));
    };
    Ok(listed.ids)
}

/// Whether a pair is there. It asks for what the list of the member does at most.
pub fn has_pair<I: ImageRead>(
    alloc: Global,
    d: &mut Draft<I>,
    member: i32,
    group: i32,
) -> Result<bool, RecordFault>
    requires { d.old.len < 2 ^ 31 }
    ensures found { IfOk result (λ there. IfSome d.old.bytes (λ image. (r : Registry) (m : Members) → Holds image r m
        → there ≡ m.has member group)) }
    ensures fault { IfErr result (HasItsCause d.old.bytes) }
    ensures frame { OnlyLooks I.ImageRead d.old d.new (IsErrOf result RecordFault.DiskFault) }
    ensures cost { ListCosts I.ImageRead member d.old d.new }
{
    if member < 0 {
        return Ok(false);
    }
    let Some(listed) = find_list(alloc, d, member)? else {
        return Ok(false);
    };
    let there = listed.ids.contains(group);
    Ok(there)
}

/// The list of ids under which an entry acts: for a user its own, its groups, and the groups in which each user is; for
/// a group its own. It asks for what `elements` does at most, and for nothing of a group.
pub fn cps<I: ImageRead>(alloc: Global, d: &mut Draft<I>, id: i32) -> Result<IdList, RecordFault>
    requires { d.old.len < 2 ^ 31 }
    ensures found { IfOk result (λ ids. IfSome d.old.bytes (λ image. (r : Registry) (m : Members) → Holds image r m
        → IsListOf (IsInList m id) ids)) }
    ensures fault { IfErr result (HasItsCause d.old.bytes) }
    ensures frame { OnlyLooks I.ImageRead d.old d.new (IsErrOf result RecordFault.DiskFault) }
    ensures cost { ListCosts I.ImageRead id d.old d.new }
{
    if id < 0 {
        let none = IdList::new(alloc);
        let own = none.with(alloc, id)?;
        return Ok(own);
    }
    let groups = elements(alloc, d, id)?;
    let in_all = groups.with(alloc, ANY_USER)?;
    let ids = in_all.with(alloc, id)?;
    if id == ANONYMOUS {
        return Ok(ids);
    }
    let whole = ids.with(alloc, SIGNED_IN)?;
    Ok(whole)
}
