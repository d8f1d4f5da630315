//! Whether another entry has the name or an id of one that is to come in, over a draft.
ghost use Rattle.std.specs.Prelude.{◌≡◌, ◌<◌, ◌^◌, IfSome, IfOk, IfErr, IsErrOf};
ghost use Rattle.db_blocks.specs.Ends.{OnlyLooks};
ghost use Rattle.vldb_records.specs.Ends.{HasItsCause};
ghost use Rattle.vldb_entries.specs.Location.{Location};
ghost use Rattle.vldb_records.specs.Records.{Holds};
ghost use Rattle.vl_service.specs.Entering.{other_has_id, other_has_name, other_shares_id};

use db_image::{Draft, ImageRead, RecordFault};
use std::alloc::Global;
use vl_calls::GivenEntry;
use vldb_records::{find_id, find_name};

/// Whether another entry than that of a read-write id has a name.
pub(crate) fn other_has_name<I: ImageRead>(
    alloc: Global,
    d: &mut Draft<I>,
    own: u32,
    name: &[u8],
) -> Result<bool, RecordFault>
    requires { d.old.len < 2 ^ 31 }
    ensures found { IfOk result (λ found. IfSome d.old.bytes (λ image. (s : Location) → Holds image s → found ≡ other_has_name s own name.now)) }
    ensures fault { IfErr result (HasItsCause d.old.bytes) }
    ensures frame { OnlyLooks I.ImageRead d.old d.new (IsErrOf result RecordFault.DiskFault) }
{
    match find_name(alloc, d, name)? {
        Some(e) => Ok(e.rw != own),
        None => Ok(false),
    }
}

/// Whether another entry than that of a read-write id has an id; 0 is no entry's.
fn other_has_id<I: ImageRead>(
    alloc: Global,
    d: &mut Draft<I>,
    own: u32,
    id: u32,
) -> Result<bool, RecordFault>
    requires { d.old.len < 2 ^ 31 }
    ensures found { IfOk result (λ found. IfSome d.old.bytes (λ image. (s : Location) → Holds image s → found ≡ other_has_id s own id)) }
    ensures fault { IfErr result (HasItsCause d.old.bytes) }
    ensures frame { OnlyLooks I.ImageRead d.old d.new (IsErrOf result RecordFault.DiskFault) }
{
    match find_id(alloc, d, id)? {
        Some(e) => Ok(e.rw != own),
        None => Ok(false),
    }
}

/// Whether another entry than that of a read-write id has one of the three ids of an entry.
pub(crate) fn other_shares_id<I: ImageRead>(
    alloc: Global,
    d: &mut Draft<I>,
    own: u32,
    e: &GivenEntry,
) -> Result<bool, RecordFault>
    requires { d.old.len < 2 ^ 31 }
    ensures found { IfOk result (λ found. IfSome d.old.bytes (λ image. (s : Location) → Holds image s → found ≡ other_shares_id s own e.now)) }
    ensures fault { IfErr result (HasItsCause d.old.bytes) }
    ensures frame { OnlyLooks I.ImageRead d.old d.new (IsErrOf result RecordFault.DiskFault) }
{
    if other_has_id(alloc, d, own, e.rw)? {
        return Ok(true);
    }
    if other_has_id(alloc, d, own, e.ro)? {
        return Ok(true);
    }
    other_has_id(alloc, d, own, e.backup)
}
