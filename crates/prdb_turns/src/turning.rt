//! An entry that gets another name, id and owner.
ghost use Rattle.std.specs.Prelude.{◌≡◌, ◌<◌, ◌≤◌, ◌^◌, ◌∷◌, [], IfErr, IfSome, IsErrOf, IsSomeAnd, OnOk, max};
ghost use Rattle.db_blocks.specs.Ends.{HasCause, OnlyDrafts};
ghost use Rattle.prdb_layout.specs.RecordEnds.{seen};
ghost use Rattle.prdb_layout.specs.Registry.{Registry};
ghost use Rattle.prdb_lists.specs.Members.{Members};
ghost use Rattle.prdb_finds.specs.Ends.{HasCauseWhere};
ghost use Rattle.prdb_finds.specs.Records.{Holds};
ghost use Rattle.prdb_finds.specs.declared.places.TheConstants.{FIRST_LEN};
ghost use Rattle.pt_service.specs.Turning.{moved};
ghost use Rattle.prdb_turns.specs.Fronts.{ids_by_block};
ghost use Rattle.prdb_turns.specs.Ends.{Leaves};
ghost use Rattle.prdb_turns.specs.Refits.{MayRefits, after_refit};
ghost use Rattle.prdb_turns.specs.Turning.{HasId, HasTurn, IsTurned, MayId, MayTurn, is_under, named, with_id, with_pairs, with_turn};

use crate::blocks::ids_by_block;
use crate::entries::{entry_fits, entry_there};
use crate::fronts::give_fronts;
use crate::ids::renumber;
use crate::owners::give;
use db_image::{Draft, ImageRead, RecordFault};
use entry_scans::{EntryView, Sought};
use prdb_entries::replace;
use prdb_layout::PrEntry;
use pt_service::{front_of, has_colon};
use std::alloc::Global;
use ubik_types::bytes_of;

/// The entries that are named after a whole name.
#[derive(Clone, Copy)]
struct Under<'a> {
    whole: &'a [u8],
}

impl<'a> Sought for Under<'a> {
    ghost use Rattle.prdb_turns.specs.Turning.{is_under};

    ghost test = { λ s. is_under s.whole.now };

    fn is_met(&self, e: EntryView<'_>) -> bool {
        has_colon(e.name) && front_of(e.name) == self.whole
    }
}

/// Gives the entry of an id another name. A bad record where it is not there, or may not have that name.
fn rename<I: ImageRead>(
    alloc: Global,
    d: &mut Draft<I>,
    id: i32,
    name: &[u8],
) -> Result<(), RecordFault>
    requires { d.old.len < 2 ^ 31 }
    ensures bytes { OnOk result (Leaves d.old.bytes (λ r m. MayRefits (named name.now) (id ∷ []) r)
        (λ r. after_refit (named name.now) (r.entry id)) d.new.bytes) }
    ensures len { OnOk result (d.new.len ≤ max d.old.len FIRST_LEN) }
    ensures longer { d.old.len ≤ d.new.len }
    ensures fault { IfErr result (HasCauseWhere (λ r m. MayRefits (named name.now) (id ∷ []) r) d.old.bytes) }
    ensures frame { OnlyDrafts I.ImageRead d.old d.new (IsErrOf result RecordFault.DiskFault) }
{
    let mut e = entry_there(alloc, d, id)?;
    let new = bytes_of(alloc, name)?;
    e.name = new;
    if !entry_fits(&e) {
        return Err(RecordFault::BadRecord { at: d.len() });
    }
    replace(alloc, d, id, &e)
}

/// Gives an entry another id, where it is another one.
fn renumber_if<I: ImageRead>(
    alloc: Global,
    d: &mut Draft<I>,
    old_id: i32,
    new_id: i32,
) -> Result<(), RecordFault>
    requires { d.old.len < 2 ^ 31 }
    ensures holds { OnOk result (IfSome d.old.bytes (λ image. (r : Registry) (m : Members) → Holds image r m → MayId old_id new_id r
        → IsSomeAnd d.new.bytes (λ after. Holds after (with_id old_id new_id r) (with_pairs old_id new_id m)))) }
    ensures bytes { OnOk result (IfSome d.old.bytes (λ image. (r : Registry) (m : Members) → Holds image r m → MayId old_id new_id r
        → HasId old_id new_id r m image d.new.bytes)) }
    ensures len { OnOk result (d.new.len ≤ max d.old.len FIRST_LEN) }
    ensures longer { d.old.len ≤ d.new.len }
    ensures fault { IfErr result (HasCauseWhere (λ r m. MayId old_id new_id r) d.old.bytes) }
    ensures frame { OnlyDrafts I.ImageRead d.old d.new (IsErrOf result RecordFault.DiskFault) }
{
    if new_id == old_id {
        return Ok(());
    }
    renumber(alloc, d, old_id, new_id)
}

/// An id where one id took the place of another.
fn moved(old: i32, new: i32, id: i32) -> i32
    ensures { result ≡ moved old new id }
{
    if id == old { new } else { id }
}

/// Gives an entry that was found another name, then another id, then another owner, and then the groups that are named after it the front
/// of its name, in the order of their blocks. What is the same as before keeps its place. After an `Err` a part of the change may be in the
/// draft.
pub fn turn<I: ImageRead>(
    alloc: Global,
    d: &mut Draft<I>,
    e: &PrEntry,
    name: &[u8],
    owner: i32,
    id: i32,
) -> Result<(), RecordFault>
    requires { d.old.len < 2 ^ 31 }
    ensures holds { OnOk result (IfSome d.old.bytes (λ image. (r : Registry) (m : Members) → Holds image r m
        → MayTurn (seen e.now) name.now owner id (ids_by_block (is_under (seen e.now).name) image) r
        → IsSomeAnd d.new.bytes (λ after. Holds after
        (with_turn (seen e.now) name.now owner id (ids_by_block (is_under (seen e.now).name) image) r) (with_pairs (seen e.now).id id m)))) }
    ensures bytes { OnOk result (IfSome d.old.bytes (λ image. (r : Registry) (m : Members) → Holds image r m
        → MayTurn (seen e.now) name.now owner id (ids_by_block (is_under (seen e.now).name) image) r
        → IsTurned (seen e.now) name.now owner id r m image d.new.bytes)) }
    ensures len { OnOk result (d.new.len ≤ max d.old.len FIRST_LEN) }
    ensures longer { d.old.len ≤ d.new.len }
    ensures fault { IfErr result (HasCause d.old.bytes (HasTurn (seen e.now) name.now owner id)) }
    ensures frame { OnlyDrafts I.ImageRead d.old d.new (IsErrOf result RecordFault.DiskFault) }
{
    let under = Under {
        whole: e.name.as_slice(),
    };
    let groups = ids_by_block(alloc, d, &under)?;
    rename(alloc, d, e.id, name)?;
    renumber_if(alloc, d, e.id, id)?;
    let owner = moved(e.id, id, owner);
    give(alloc, d, &[id], owner)?;
    give_fronts(alloc, d, &groups, front_of(name))
}
