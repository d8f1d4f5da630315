//! The first entries that are looked for, ascending by id.
ghost use Rattle.std.specs.Prelude.{◌≡◌, ◌+◌, ◌*◌, ◌<◌, ◌≤◌, ◌^◌, IfSome, IfOk, IfErr, IsErrOf, length, map};
ghost use Rattle.std.specs.List.{AllByRecursion};
ghost use Rattle.db_image.specs.Asked.{AsksAtMost};
ghost use Rattle.db_blocks.specs.Ascending.{first_blocks};
ghost use Rattle.db_blocks.specs.Ends.{OnlyLooks};
ghost use Rattle.prdb_layout.specs.Records.{entry_in};
ghost use Rattle.prdb_layout.specs.Registry.{Registry};
ghost use Rattle.prdb_lists.specs.Members.{Members};
ghost use Rattle.entry_scans.specs.Pages.{AreFirst, IsOfEntry, least_id, rank_in, rank_of};
ghost use Rattle.entry_scans.specs.Sought.{is_sought};
ghost use Rattle.prdb_finds.specs.Ends.{HasItsCause};
ghost use Rattle.prdb_finds.specs.Records.{Holds, whole};
ghost use Rattle.prdb_layout.specs.declared.blocks.TheConstants.{HEAD_LEN};

use db_blocks::{BLOCK_LEN, Block, Keyed, scan_first};
use db_image::{Draft, ImageRead, RecordFault};
use entry_scans::{MORE, Sought, entry_in, is_sought, kind_of};
use prdb_finds::{HEAD_LEN, first_draft};
use std::alloc::Global;

/// A number that ascends with the id.
fn rank_of(id: i32) -> u32
    ensures { result ≡ rank_of id }
{
    id.abs_diff(i32::MIN)
}

/// What is looked for, in the order of ids.
#[derive(Drop)]
struct ById<'a, S: Sought> {
    sought: &'a S,
}

impl<'a, S: Sought> Keyed for ById<'a, S> {
    ghost use Rattle.entry_scans.specs.Pages.{is_kind, rank_in};
    ghost use Rattle.entry_scans.specs.Sought.{is_sought};

    ghost test = { λ wanted. is_sought (S.test wanted.sought.now) };

    ghost key = { λ wanted. rank_in };

    ghost fits = { λ wanted. is_kind };

    fn fits(&self, block: &Block) -> bool {
        kind_of(block) <= MORE
    }

    fn is_met(&self, block: &Block) -> bool {
        is_sought(self.sought, block)
    }

    fn key_of(&self, block: &Block) -> u32 {
        rank_of(entry_in(block).id)
    }
}

/// The blocks of the first so many entries that are looked for; an empty draft is read as the first
/// image.
fn find_first<I: ImageRead, S: Sought>(
    alloc: Global,
    d: &mut Draft<I>,
    sought: &S,
    most: usize,
) -> Result<Vec<Block>, RecordFault>
    requires { d.old.len < 2 ^ 31 }
    ensures found { IfOk result (λ blocks. IfSome d.old.bytes (λ image.
        blocks.items ≡ first_blocks HEAD_LEN (is_sought (S.test sought.now)) rank_in most (whole image))) }
    ensures few { IfOk result (λ blocks. length blocks.items ≤ most) }
    ensures fault { IfErr result (HasItsCause d.old.bytes) }
    ensures frame { OnlyLooks I.ImageRead d.old d.new (IsErrOf result RecordFault.DiskFault) }
    ensures cost { AsksAtMost (d.old.len + BLOCK_LEN * most) (I.asked d.old.image) (I.asked d.new.image) }
{
    let wanted = ById { sought };
    if d.len() > 0 {
        return scan_first(alloc, d, HEAD_LEN, &wanted, most);
    }
    scan_first(alloc, &mut first_draft(alloc)?, HEAD_LEN, &wanted, most)
}

/// The blocks of the first so many entries that are looked for, ascending by id; an empty draft is
/// read as the first image. All blocks are read once, and those that are given once more.
pub fn first_where<I: ImageRead, S: Sought>(
    alloc: Global,
    d: &mut Draft<I>,
    sought: &S,
    most: usize,
) -> Result<Vec<Block>, RecordFault>
    requires { d.old.len < 2 ^ 31 }
    ensures found { IfOk result (λ blocks. IfSome d.old.bytes (λ image. (r : Registry) (m : Members) → Holds image r m
        → AreFirst (S.test sought.now) r least_id most (map entry_in blocks.items))) }
    ensures there { IfOk result (λ blocks. IfSome d.old.bytes (λ image. (r : Registry) (m : Members) → Holds image r m
        → AllByRecursion (IsOfEntry (whole image)) blocks.items)) }
    ensures few { IfOk result (λ blocks. length blocks.items ≤ most) }
    ensures fault { IfErr result (HasItsCause d.old.bytes) }
    ensures frame { OnlyLooks I.ImageRead d.old d.new (IsErrOf result RecordFault.DiskFault) }
    ensures cost { AsksAtMost (d.old.len + BLOCK_LEN * most) (I.asked d.old.image) (I.asked d.new.image) }
{
    find_first(alloc, d, sought, most)
}
