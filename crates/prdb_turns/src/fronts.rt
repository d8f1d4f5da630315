//! Entries that get other text before the `:` of their names, one after the other.
ghost use Rattle.std.specs.Prelude.{◌≡◌, ◌<◌, ◌≤◌, ◌^◌, ◌∷◌, [], IfErr, IfOk, IsErrOf, OnOk, max};
ghost use Rattle.db_blocks.specs.Ends.{OnlyDrafts};
ghost use Rattle.prdb_layout.specs.Registry.{behind_colon};
ghost use Rattle.pt_service.specs.Names.{with_front};
ghost use Rattle.prdb_finds.specs.Ends.{HasCauseWhere, Makes};
ghost use Rattle.prdb_finds.specs.declared.places.TheConstants.{FIRST_LEN};
ghost use Rattle.prdb_turns.specs.Ends.{Leaves};
ghost use Rattle.prdb_turns.specs.Fronts.{MayFronts, after_fronts, fronted, with_fronts};
ghost use Rattle.prdb_turns.specs.Refits.{after_refit};

use crate::entries::{entry_fits, entry_there};
use db_image::{Draft, ImageRead, RecordFault};
use prdb_entries::replace;
use pt_service::front_of;
use std::alloc::Global;
use ubik_types::{Bytes, NoMemory};

/// What stands behind the first `:` of a name; nothing where it has none.
pub fn behind_colon(name: &[u8]) -> &[u8]
    ensures { result.now ≡ behind_colon name.now }
{
    let front = front_of(name).len();
    if front < name.len() {
        &name[front + 1..]
    } else {
        &[]
    }
}

/// A name with other text before its `:`.
pub fn with_front(alloc: Global, front: &[u8], name: &[u8]) -> Result<Vec<u8>, NoMemory>
    ensures { IfOk result (λ after. after.items ≡ with_front front.now name.now) }
{
    let mut after = front.to_vec(alloc)?;
    after.push(b':')?;
    after.extend_from_slice(behind_colon(name))?;
    Ok(after)
}

/// Gives the entry of an id other text before the `:` of its name. A bad record where it is not there, or may not have that name.
fn front_one<I: ImageRead>(
    alloc: Global,
    d: &mut Draft<I>,
    id: i32,
    front: &[u8],
) -> Result<(), RecordFault>
    requires { d.old.len < 2 ^ 31 }
    ensures bytes { OnOk result (Leaves d.old.bytes (λ r m. MayFronts front.now (id ∷ []) r)
        (λ r. after_refit (fronted front.now) (r.entry id)) d.new.bytes) }
    ensures len { OnOk result (d.new.len ≤ max d.old.len FIRST_LEN) }
    ensures longer { d.old.len ≤ d.new.len }
    ensures fault { IfErr result (HasCauseWhere (λ r m. MayFronts front.now (id ∷ []) r) d.old.bytes) }
    ensures frame { OnlyDrafts I.ImageRead d.old d.new (IsErrOf result RecordFault.DiskFault) }
{
    let mut e = entry_there(alloc, d, id)?;
    let name = with_front(alloc, front, e.name.as_slice())?;
    e.name = Bytes::new(name);
    if !entry_fits(&e) {
        return Err(RecordFault::BadRecord { at: d.len() });
    }
    replace(alloc, d, id, &e)
}

/// Gives entries other text before the `:` of their names, one after the other. Each goes out of the chain of its old name, and comes in
/// front of that of the new one; one that has the name keeps its place. After an `Err` some of them may have it in the draft.
pub fn give_fronts<I: ImageRead>(
    alloc: Global,
    d: &mut Draft<I>,
    ids: &[i32],
    front: &[u8],
) -> Result<(), RecordFault>
    requires { d.old.len < 2 ^ 31 }
    ensures holds { OnOk result (Makes (λ r m. MayFronts front.now ids.now r) (with_fronts front.now ids.now) d.old d.new) }
    ensures bytes { OnOk result (Leaves d.old.bytes (λ r m. MayFronts front.now ids.now r) (after_fronts front.now ids.now) d.new.bytes) }
    ensures len { OnOk result (d.new.len ≤ max d.old.len FIRST_LEN) }
    ensures longer { d.old.len ≤ d.new.len }
    ensures fault { IfErr result (HasCauseWhere (λ r m. MayFronts front.now ids.now r) d.old.bytes) }
    ensures frame { OnlyDrafts I.ImageRead d.old d.new (IsErrOf result RecordFault.DiskFault) }
{
    for id in ids {
        front_one(alloc, d, *id, front)?;
    }
    Ok(())
}
