//! Pairs that come and go.
ghost use Rattle.std.specs.Prelude.{◌≡◌, ◌+◌, ◌*◌, ◌<◌, ◌≤◌, ◌^◌, Some, OnOk, IfErr, IfSome, IsErrOf, max};
ghost use Rattle.db_blocks.specs.Ends.{OnlyDrafts};
ghost use Rattle.db_blocks.specs.declared.blocks.TheConstants.{BLOCK_LEN};
ghost use Rattle.prdb_layout.specs.Registry.{Registry};
ghost use Rattle.prdb_lists.specs.Members.{MayJoin, MayLeave, Members, with_pair, without_pair};
ghost use Rattle.prdb_finds.specs.Ends.{HasCauseWhere};
ghost use Rattle.prdb_finds.specs.Records.{Holds};
ghost use Rattle.prdb_finds.specs.declared.places.TheConstants.{FIRST_LEN};
ghost use Rattle.prdb_members.specs.Changes.{after_join, after_part};
ghost use Rattle.prdb_members.specs.Costs.{JoinCosts, PartCosts};
ghost use Rattle.prdb_members.specs.Ends.{MakesPairs};

use crate::sides::{add_id, find_place, remove_id};
use db_image::{Draft, ImageRead, RecordFault};
use prdb_finds::make_whole;
use std::alloc::Global;

/// Adds a pair of a user and a group that are there; the pair is not. Where both lists take a block, the member's is first (own). After an
/// `Err` a part of the change may be in the draft.
pub fn add_pair<I: ImageRead>(
    alloc: Global,
    d: &mut Draft<I>,
    member: i32,
    group: i32,
) -> Result<(), RecordFault>
    requires { d.old.len < 2 ^ 30 }
    ensures holds { OnOk result (MakesPairs (MayJoin member group) (with_pair member group) d.old d.new) }
    ensures bytes { OnOk result (IfSome d.old.bytes (λ image. (r : Registry) (m : Members) → Holds image r m → MayJoin member group r m
        → d.new.bytes ≡ Some (after_join member group image))) }
    ensures len { OnOk result (d.new.len ≤ max d.old.len FIRST_LEN + 2 * BLOCK_LEN) }
    ensures longer { d.old.len ≤ d.new.len }
    ensures fault { IfErr result (HasCauseWhere (MayJoin member group) d.old.bytes) }
    ensures frame { OnlyDrafts I.ImageRead d.old d.new (IsErrOf result RecordFault.DiskFault) }
    ensures cost { JoinCosts I.ImageRead member group d.old d.new }
{
    make_whole(alloc, d)?;
    let of_member = find_place(alloc, d, member)?;
    let of_group = find_place(alloc, d, group)?;
    add_id(alloc, d, &of_member, group)?;
    add_id(alloc, d, &of_group, member)
}

/// Removes a pair, which is there. After an `Err` a part of the change may be in the draft.
pub fn remove_pair<I: ImageRead>(
    alloc: Global,
    d: &mut Draft<I>,
    member: i32,
    group: i32,
) -> Result<(), RecordFault>
    requires { d.old.len < 2 ^ 31 }
    ensures holds { OnOk result (MakesPairs (λ r. MayLeave member group) (without_pair member group) d.old d.new) }
    ensures bytes { OnOk result (IfSome d.old.bytes (λ image. (r : Registry) (m : Members) → Holds image r m → MayLeave member group m
        → d.new.bytes ≡ Some (after_part member group image))) }
    ensures len { d.new.len ≡ d.old.len }
    ensures fault { IfErr result (HasCauseWhere (λ r. MayLeave member group) d.old.bytes) }
    ensures frame { OnlyDrafts I.ImageRead d.old d.new (IsErrOf result RecordFault.DiskFault) }
    ensures cost { PartCosts I.ImageRead member group d.old d.new }
{
    let of_member = find_place(alloc, d, member)?;
    let of_group = find_place(alloc, d, group)?;
    remove_id(alloc, d, &of_member, group)?;
    remove_id(alloc, d, &of_group, member)
}
