//! Entries that get another owner, one after the other, and what an entry owns.
ghost use Rattle.std.specs.Prelude.{◌<◌, ◌≤◌, ◌^◌, ◌∷◌, [], IfErr, IfOk, IfSome, IsErrOf, IsSome, OnOk, length, max};
ghost use Rattle.db_blocks.specs.Ends.{HasCause, OnlyDrafts, OnlyLooks};
ghost use Rattle.prdb_layout.specs.Registry.{Registry};
ghost use Rattle.prdb_lists.specs.Members.{Members};
ghost use Rattle.prdb_finds.specs.Ends.{HasCauseWhere, HasItsCause, Makes};
ghost use Rattle.prdb_finds.specs.Records.{Holds};
ghost use Rattle.prdb_finds.specs.declared.places.TheConstants.{FIRST_LEN};
ghost use Rattle.prdb_turns.specs.Ends.{Leaves};
ghost use Rattle.prdb_turns.specs.Owners.{AreItsOwn, Disowns, HasOwner, MayGive, after_gives, with_owner, with_owners};
ghost use Rattle.prdb_turns.specs.Refits.{MayRefits, after_refit};

use crate::entries::entry_there;
use db_image::{Draft, ImageRead, RecordFault};
use entry_scans::{EntryView, Sought};
use prdb_entries::replace;
use prdb_members::owned_in_order;
use prdb_scans::ids_where;
use std::alloc::Global;

/// Gives the entry of an id another owner. A bad record where it is not there.
fn give_one<I: ImageRead>(
    alloc: Global,
    d: &mut Draft<I>,
    id: i32,
    owner: i32,
) -> Result<(), RecordFault>
    requires { d.old.len < 2 ^ 31 }
    ensures bytes { OnOk result (Leaves d.old.bytes (λ r m. MayRefits (with_owner owner) (id ∷ []) r)
        (λ r. after_refit (with_owner owner) (r.entry id)) d.new.bytes) }
    ensures len { OnOk result (d.new.len ≤ max d.old.len FIRST_LEN) }
    ensures longer { d.old.len ≤ d.new.len }
    ensures fault { IfErr result (HasCauseWhere (λ r m. MayRefits (with_owner owner) (id ∷ []) r) d.old.bytes) }
    ensures frame { OnlyDrafts I.ImageRead d.old d.new (IsErrOf result RecordFault.DiskFault) }
{
    let mut e = entry_there(alloc, d, id)?;
    e.owner = owner;
    replace(alloc, d, id, &e)
}

/// Gives entries another owner, one after the other, or none by 0. Each group goes out of the chain of its old owner, and comes in front of
/// that of the new one; one that has the owner keeps its place. After an `Err` some of them may have it in the draft.
pub fn give<I: ImageRead>(
    alloc: Global,
    d: &mut Draft<I>,
    ids: &[i32],
    owner: i32,
) -> Result<(), RecordFault>
    requires { d.old.len < 2 ^ 31 }
    ensures holds { OnOk result (Makes (λ r m. MayGive ids.now owner r) (with_owners owner ids.now) d.old d.new) }
    ensures bytes { OnOk result (Leaves d.old.bytes (λ r m. MayGive ids.now owner r) (after_gives owner ids.now) d.new.bytes) }
    ensures len { OnOk result (d.new.len ≤ max d.old.len FIRST_LEN) }
    ensures longer { d.old.len ≤ d.new.len }
    ensures fault { IfErr result (HasCauseWhere (λ r m. MayGive ids.now owner r) d.old.bytes) }
    ensures frame { OnlyDrafts I.ImageRead d.old d.new (IsErrOf result RecordFault.DiskFault) }
{
    for id in ids {
        give_one(alloc, d, *id, owner)?;
    }
    Ok(())
}

/// The users that an entry owns.
#[derive(Clone, Copy)]
struct UsersOf(i32);

impl Sought for UsersOf {
    ghost use Rattle.std.specs.Prelude.{pos, int_lt, ◌&&◌};
    ghost use Rattle.std.specs.Ordering.{int_eq};

    ghost test = { λ s e. int_lt (pos 0) e.id && int_eq e.owner s.0 };

    fn is_met(&self, e: EntryView<'_>) -> bool {
        e.id > 0 && e.owner == self.0
    }
}

/// The ids of what an entry owns: the groups in the order of its owned chain, and then the users, ascending. It says nothing of an id that no
/// entry has, nor of an empty draft.
pub(crate) fn its_own<I: ImageRead>(
    alloc: Global,
    d: &mut Draft<I>,
    owner: i32,
) -> Result<Vec<i32>, RecordFault>
    requires { d.old.len < 2 ^ 31 }
    ensures found { IfOk result (λ its. IfSome d.old.bytes (λ image. (r : Registry) (m : Members) → Holds image r m → IsSome (r.entry owner)
        → 0 < length image → AreItsOwn image r owner its.items)) }
    ensures fault { IfErr result (HasItsCause d.old.bytes) }
    ensures frame { OnlyLooks I.ImageRead d.old d.new (IsErrOf result RecordFault.DiskFault) }
{
    let mut its = owned_in_order(alloc, d, owner)?;
    let users = ids_where(alloc, d, &UsersOf(owner))?;
    its.extend_from_slice(&users)?;
    Ok(its)
}

/// What an entry owns.
#[derive(Clone, Copy)]
struct OwnedBy(i32);

impl Sought for OwnedBy {
    ghost use Rattle.std.specs.Ordering.{int_eq};

    ghost test = { λ s e. int_eq e.owner s.0 };

    fn is_met(&self, e: EntryView<'_>) -> bool {
        e.owner == self.0
    }
}

/// Takes the owner from all that an entry owns: from the groups first to last along its owned chain, so that each is the first in it when its
/// turn comes, and then from what still has it, the users, ascending. After an `Err` some of them may have none in the draft. It says nothing
/// of an id that no entry has, nor of an empty draft.
pub fn disown<I: ImageRead>(alloc: Global, d: &mut Draft<I>, owner: i32) -> Result<(), RecordFault>
    requires { d.old.len < 2 ^ 31 }
    ensures bytes { OnOk result (Disowns owner d.old.bytes d.new.bytes) }
    ensures len { OnOk result (d.new.len ≤ max d.old.len FIRST_LEN) }
    ensures longer { d.old.len ≤ d.new.len }
    ensures fault { IfErr result (HasCause d.old.bytes (HasOwner owner)) }
    ensures frame { OnlyDrafts I.ImageRead d.old d.new (IsErrOf result RecordFault.DiskFault) }
{
    let groups = owned_in_order(alloc, d, owner)?;
    give(alloc, d, &groups, 0)?;
    let rest = ids_where(alloc, d, &OwnedBy(owner))?;
    give(alloc, d, &rest, 0)
}
