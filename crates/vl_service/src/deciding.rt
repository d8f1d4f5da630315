//! What is decided of an entry that is to come in, over a draft.
ghost use Rattle.std.specs.Prelude.{◌≡◌, ◌<◌, ◌^◌, IfSome, IfOk, IfErr, IsErrOf};
ghost use Rattle.db_blocks.specs.Ends.{OnlyLooks};
ghost use Rattle.vldb_records.specs.Ends.{HasItsCause};
ghost use Rattle.vldb_entries.specs.Location.{Location};
ghost use Rattle.vldb_records.specs.Records.{Holds};
ghost use Rattle.vl_service.specs.Entering.{IsDecided, IsFit, shared_fault};

use crate::given::own_fault;
use crate::others::{other_has_name, other_shares_id};
use crate::placing::placed;
use crate::rules::{ID_EXISTS, NAME_EXISTS, SIZE_EXCEEDED};
use db_image::{Draft, ImageRead, RecordFault};
use std::alloc::Global;
use vl_calls::GivenEntry;
use vldb_entries::PLACES;
use vldb_records::addresses;

/// The addresses of the servers by their places, as they are and as they are to be.
#[derive(Clone, Copy)]
pub(crate) struct Places {
    pub old: [u32; PLACES],
    pub new: [u32; PLACES],
}

/// What is decided of an entry.
#[derive(Clone, Copy)]
pub(crate) enum Decision {
    /// It is refused by a rule.
    Refused(u32),
    /// It comes in.
    Enters(Places),
}

/// The rule by which another entry than that of a read-write id bars an entry: it has the name, or one of the ids.
fn shared_fault<I: ImageRead>(
    alloc: Global,
    d: &mut Draft<I>,
    own: u32,
    e: &GivenEntry,
) -> Result<Option<u32>, RecordFault>
    requires { d.old.len < 2 ^ 31 }
    ensures found { IfOk result (λ found. IfSome d.old.bytes (λ image. (s : Location) → Holds image s → found ≡ shared_fault s own e.now)) }
    ensures fault { IfErr result (HasItsCause d.old.bytes) }
    ensures frame { OnlyLooks I.ImageRead d.old d.new (IsErrOf result RecordFault.DiskFault) }
{
    if other_has_name(alloc, d, own, e.name.as_slice())? {
        return Ok(Some(NAME_EXISTS));
    }
    if other_shares_id(alloc, d, own, e)? {
        return Ok(Some(ID_EXISTS));
    }
    Ok(None)
}

/// Decides of an entry that is to come in, in place of that of a read-write id, or of none: 0.
pub(crate) fn decide<I: ImageRead>(
    alloc: Global,
    d: &mut Draft<I>,
    own: u32,
    e: &GivenEntry,
) -> Result<Decision, RecordFault>
    requires { d.old.len < 2 ^ 31 }
    ensures decided { IfOk result (λ decision. IfSome d.old.bytes (λ image. (s : Location) → Holds image s → IsDecided s own e.now decision)) }
    ensures fit { IfOk result (IsFit e.now) }
    ensures fault { IfErr result (HasItsCause d.old.bytes) }
    ensures frame { OnlyLooks I.ImageRead d.old d.new (IsErrOf result RecordFault.DiskFault) }
{
    if let Some(fault) = own_fault(e) {
        return Ok(Decision::Refused(fault));
    }
    if let Some(fault) = shared_fault(alloc, d, own, e)? {
        return Ok(Decision::Refused(fault));
    }
    let old = addresses(d)?;
    match placed(old, e.sites.as_slice()) {
        Some(new) => Ok(Decision::Enters(Places { old, new })),
        None => Ok(Decision::Refused(SIZE_EXCEEDED)),
    }
}
