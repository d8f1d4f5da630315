//! An entry that is to be there.
ghost use Rattle.std.specs.Prelude.{◌≡◌, ◌<◌, ◌^◌, Some, IfErr, IfOk, IfSome, IsErrOf, IsSome};
ghost use Rattle.db_blocks.specs.Ends.{OnlyLooks};
ghost use Rattle.prdb_layout.specs.RecordEnds.{seen};
ghost use Rattle.prdb_layout.specs.Registry.{IsRecord, Registry};
ghost use Rattle.prdb_lists.specs.Members.{Members};
ghost use Rattle.pt_service.specs.Fitting.{entry_fits};
ghost use Rattle.prdb_finds.specs.Ends.{HasCauseWhere};
ghost use Rattle.prdb_finds.specs.Records.{Holds};

use db_image::{Draft, ImageRead, RecordFault};
use prdb_finds::find_id;
use prdb_layout::PrEntry;
use pt_service::{is_group, is_id, is_name_of};
use std::alloc::Global;

/// Whether an entry is one that a database may hold: its id is one, and its name has the form that the id wants.
pub(crate) fn entry_fits(e: &PrEntry) -> bool
    ensures { result ≡ entry_fits (seen e.now) }
{
    let group = is_group(e.id);
    is_id(group, e.id) && is_name_of(group, e.name.as_slice())
}

/// The entry of an id. A bad record where none has it, or where it is one that no database may hold.
pub(crate) fn entry_there<I: ImageRead>(
    alloc: Global,
    d: &mut Draft<I>,
    id: i32,
) -> Result<PrEntry, RecordFault>
    requires { d.old.len < 2 ^ 31 }
    ensures found { IfOk result (λ e. IfSome d.old.bytes (λ image. (r : Registry) (m : Members) → Holds image r m
        → r.entry id ≡ Some (seen e))) }
    ensures good { IfOk result (λ e. IsRecord (seen e)) }
    ensures fault { IfErr result (HasCauseWhere (λ r m. IsSome (r.entry id)) d.old.bytes) }
    ensures frame { OnlyLooks I.ImageRead d.old d.new (IsErrOf result RecordFault.DiskFault) }
{
    let at = d.len();
    let Some(e) = find_id(alloc, d, id)? else {
        return Err(RecordFault::BadRecord { at });
    };
    if !entry_fits(&e) {
        return Err(RecordFault::BadRecord { at });
    }
    Ok(e)
}
