//! The entries that are named after another one.
ghost use Rattle.std.specs.Prelude.{◌≡◌, ◌≤◌, IfOk, IfErr, IsErrOf, map};
ghost use Rattle.std.specs.List.{flat_map};
ghost use Rattle.db_blocks.specs.Ends.{OnlyLooks};
ghost use Rattle.prdb_layout.specs.RecordEnds.{seen};
ghost use Rattle.prdb_finds.specs.Ends.{HasItsCause};
ghost use Rattle.pt_looks.specs.States.{OfStates};
ghost use Rattle.pt_turns.specs.Under.{groups_under, ids_under, its_entry};

use crate::names::is_under;
use db_image::{Draft, ImageRead, RecordFault};
use entry_scans::{EntryView, Sought};
use prdb_layout::PrEntry;
use prdb_scans::ids_where;
use pt_looks::entry_of;
use pt_service::has_colon;
use std::alloc::Global;

/// An entry whose name begins with a whole name and a `:`.
#[derive(Clone, Copy)]
struct NamedUnder<'a> {
    whole: &'a [u8],
}

impl<'a> Sought for NamedUnder<'a> {
    ghost use Rattle.pt_turns.specs.Under.{is_under};

    ghost test = { λ s e. is_under s.whole.now e.name };

    fn is_met(&self, e: EntryView<'_>) -> bool {
        is_under(e.name, self.whole)
    }
}

/// The ids of the entries whose names begin with a whole name and a `:`, ascending: one pass over the blocks. What stands
/// before the first `:` of a name has none, so a name that has one is not looked for.
fn ids_under<I: ImageRead>(
    alloc: Global,
    d: &mut Draft<I>,
    whole: &[u8],
) -> Result<Vec<i32>, RecordFault>
    requires { d.old.len ≤ 16777216 }
    ensures found { IfOk result (λ ids. OfStates d.old.bytes (λ s. ids.items ≡ ids_under s.registry whole.now)) }
    ensures fault { IfErr result (HasItsCause d.old.bytes) }
    ensures frame { OnlyLooks I.ImageRead d.old d.new (IsErrOf result RecordFault.DiskFault) }
{
    if has_colon(whole) {
        return Ok(Vec::new(alloc));
    }
    ids_where(alloc, d, &NamedUnder { whole })
}

/// The entries of these ids, in their order.
fn entries_of<I: ImageRead>(
    alloc: Global,
    d: &mut Draft<I>,
    ids: &[i32],
) -> Result<Vec<PrEntry>, RecordFault>
    requires { d.old.len ≤ 16777216 }
    ensures found { IfOk result (λ entries. OfStates d.old.bytes
        (λ s. map seen entries.items ≡ flat_map (its_entry s.registry) ids.now)) }
    ensures fault { IfErr result (HasItsCause d.old.bytes) }
    ensures frame { OnlyLooks I.ImageRead d.old d.new (IsErrOf result RecordFault.DiskFault) }
{
    let mut entries = Vec::new(alloc);
    for id in ids {
        let found = entry_of(alloc, d, *id)?;
        if let Some(e) = found {
            entries.push(e)?;
        }
    }
    Ok(entries)
}

/// The entries whose names begin with a whole name and a `:`, ascending by id: one pass over the blocks, and the chain of each id.
pub(crate) fn groups_under<I: ImageRead>(
    alloc: Global,
    d: &mut Draft<I>,
    whole: &[u8],
) -> Result<Vec<PrEntry>, RecordFault>
    requires { d.old.len ≤ 16777216 }
    ensures found { IfOk result (λ groups. OfStates d.old.bytes
        (λ s. map seen groups.items ≡ groups_under s.registry whole.now)) }
    ensures fault { IfErr result (HasItsCause d.old.bytes) }
    ensures frame { OnlyLooks I.ImageRead d.old d.new (IsErrOf result RecordFault.DiskFault) }
{
    let ids = ids_under(alloc, d, whole)?;
    entries_of(alloc, d, &ids)
}
