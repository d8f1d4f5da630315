//! The entries of the database as calls look for them, over a draft. Each that is found is one that a database may hold, whatever the
//! image holds.
ghost use Rattle.std.specs.Prelude.{◌≡◌, ◌<◌, ◌^◌, false, IsSomeAnd, IfOk, IfErr, IsErrOf};
ghost use Rattle.std.specs.Option.{option_map};
ghost use Rattle.db_blocks.specs.Ends.{OnlyLooks};
ghost use Rattle.prdb_layout.specs.RecordEnds.{seen};
ghost use Rattle.prdb_layout.specs.Registry.{IsNamed};
ghost use Rattle.prdb_finds.specs.Ends.{HasItsCause};
ghost use Rattle.prdb_finds.specs.Keys.{id_chain, name_chain};
ghost use Rattle.prdb_finds.specs.Places.{id_links, name_links};
ghost use Rattle.pt_service.specs.Costs.{CostsOneChain};
ghost use Rattle.pt_service.specs.Fitting.{entry_fits};
ghost use Rattle.pt_service.specs.State.{is_group, is_id};
ghost use Rattle.pt_service.specs.Told.{IsGood, Told};

use crate::names::is_name_of;
use db_image::{Draft, ImageRead, RecordFault};
use prdb_finds::{find_id, find_name};
use prdb_layout::PrEntry;
use std::alloc::Global;

/// Whether an id is a group's.
pub fn is_group(id: i32) -> bool
    ensures { result ≡ is_group id }
{
    id < 0
}

/// Whether a number is an id of a group, or of a user.
pub fn is_id(group: bool, id: i32) -> bool
    ensures { result ≡ is_id group id }
{
    if group {
        id < 0 && id > i32::MIN
    } else {
        id > 0
    }
}

/// Whether an entry is one that a database may hold: its id is one, and its name has the form that the id wants.
fn entry_fits(e: &PrEntry) -> bool
    ensures { result ≡ entry_fits (seen e.now) }
{
    let group = is_group(e.id);
    is_id(group, e.id) && is_name_of(group, e.name.as_slice())
}

/// An entry that was found, if a database may hold it.
fn fitting(found: Option<PrEntry>, at: u32) -> Result<Option<PrEntry>, RecordFault>
    ensures same { IfOk result (λ e. e ≡ found) }
    ensures good { IfOk result IsGood }
    ensures fault { IfErr result (λ fault. fault ≡ RecordFault.BadRecord at) }
    ensures unfit { IfErr result (λ fault. IsSomeAnd found (λ e. entry_fits (seen e) ≡ false)) }
{
    match found {
        Some(e) => {
            if entry_fits(&e) {
                Ok(Some(e))
            } else {
                Err(RecordFault::BadRecord { at })
            }
        }
        None => Ok(None),
    }
}

/// The entry of an id. Where the image has the one chain of the id, it asks for a word and each block of that chain at most.
pub fn entry_of_id<I: ImageRead>(
    alloc: Global,
    d: &mut Draft<I>,
    id: i32,
) -> Result<Option<PrEntry>, RecordFault>
    requires { d.old.len < 2 ^ 31 }
    ensures found { IfOk result (λ found. Told d.old.bytes (λ r. option_map seen found ≡ r.entry id)) }
    ensures good { IfOk result IsGood }
    ensures fault { IfErr result (HasItsCause d.old.bytes) }
    ensures frame { OnlyLooks I.ImageRead d.old d.new (IsErrOf result RecordFault.DiskFault) }
    ensures cost { CostsOneChain I.ImageRead id_links (id_chain id) d.old d.new }
{
    let found = find_id(alloc, d, id)?;
    let e = fitting(found, d.len())?;
    Ok(e)
}

/// The entry of a name, which is in lower case. Where the image has the one chain of the name, it asks for a word and each block of that
/// chain at most.
pub fn entry_of_name<I: ImageRead>(
    alloc: Global,
    d: &mut Draft<I>,
    name: &[u8],
) -> Result<Option<PrEntry>, RecordFault>
    requires { d.old.len < 2 ^ 31 }
    ensures found { IfOk result (λ found. Told d.old.bytes (λ r. IsNamed r name.now (option_map seen found))) }
    ensures good { IfOk result IsGood }
    ensures fault { IfErr result (HasItsCause d.old.bytes) }
    ensures frame { OnlyLooks I.ImageRead d.old d.new (IsErrOf result RecordFault.DiskFault) }
    ensures cost { CostsOneChain I.ImageRead name_links (name_chain name.now) d.old d.new }
{
    let found = find_name(alloc, d, name)?;
    let e = fitting(found, d.len())?;
    Ok(e)
}
