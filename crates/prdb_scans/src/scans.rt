//! Whether an entry is looked for, and the ids of all that are.
ghost use Rattle.std.specs.Prelude.{◌≡◌, ◌+◌, ◌<◌, ◌≤◌, ◌^◌, ◌↔◌, ℤ, true, IfSome, IfOk, IfErr, IsErrOf};
ghost use Rattle.std.specs.List.{Contains};
ghost use Rattle.db_image.specs.Asked.{AsksAtMost};
ghost use Rattle.db_blocks.specs.Ascending.{AreGood};
ghost use Rattle.db_blocks.specs.Blocks.{block_in, block_place};
ghost use Rattle.db_blocks.specs.Ends.{HasCause, OnlyLooks};
ghost use Rattle.prdb_layout.specs.Registry.{Registry};
ghost use Rattle.prdb_lists.specs.Members.{Members};
ghost use Rattle.entry_scans.specs.Found.{IsMetAt, TellsWhether};
ghost use Rattle.entry_scans.specs.Lists.{IsAscending, IsListOf};
ghost use Rattle.entry_scans.specs.Pages.{is_kind};
ghost use Rattle.prdb_finds.specs.Ends.{HasItsCause};
ghost use Rattle.prdb_finds.specs.Records.{Holds};
ghost use Rattle.prdb_layout.specs.declared.blocks.TheConstants.{HEAD_LEN};
ghost use Rattle.prdb_scans.specs.Passes.{AreIds, HasSought};

use db_blocks::{BLOCK_LEN, Block, block_count, block_place, read_block};
use db_image::{Draft, ImageRead, RecordFault};
use entry_scans::{MORE, Sought, entry_in, is_sought, kind_of, put_in_order};
use prdb_finds::{HEAD_LEN, first_draft};
use std::alloc::Global;

/// The block of a number, which is of some kind: an entry's, a continuation block or a free one.
fn read_kind<I: ImageRead>(d: &mut Draft<I>, number: u32) -> Result<Block, RecordFault>
    requires within { block_place HEAD_LEN number + BLOCK_LEN ≤ d.old.len }
    requires len { d.old.len < 2 ^ 31 }
    ensures block { IfOk result (λ block. IfSome d.old.bytes (λ image. block ≡ block_in HEAD_LEN image number)) }
    ensures fault { IfErr result (HasCause d.old.bytes (λ image. is_kind (block_in HEAD_LEN image number) ≡ true)) }
    ensures frame { OnlyLooks I.ImageRead d.old d.new (IsErrOf result RecordFault.DiskFault) }
    ensures cost { AsksAtMost BLOCK_LEN (I.asked d.old.image) (I.asked d.new.image) }
{
    let block = read_block(d, HEAD_LEN, number)?;
    if kind_of(&block) > MORE {
        let at = block_place(HEAD_LEN, number);
        return Err(RecordFault::BadRecord { at });
    }
    Ok(block)
}

/// Whether some entry of a draft that is not empty is looked for.
fn pass<I: ImageRead, S: Sought>(d: &mut Draft<I>, sought: &S) -> Result<bool, RecordFault>
    requires { d.old.len < 2 ^ 31 }
    ensures found { IfOk result (λ there. IfSome d.old.bytes (HasSought (S.test sought.now) there)) }
    ensures fault { IfErr result (HasCause d.old.bytes (AreGood HEAD_LEN is_kind)) }
    ensures frame { OnlyLooks I.ImageRead d.old d.new (IsErrOf result RecordFault.DiskFault) }
    ensures cost { AsksAtMost d.old.len (I.asked d.old.image) (I.asked d.new.image) }
{
    let count = block_count(HEAD_LEN, d.len())?;
    for number in 0..count {
        let block = read_kind(d, number)?;
        if is_sought(sought, &block) {
            return Ok(true);
        }
    }
    Ok(false)
}

/// Whether some entry is looked for; an empty draft is read as the first image. The pass ends at
/// the first, and reads no block twice.
pub fn has_entry<I: ImageRead, S: Sought>(
    alloc: Global,
    d: &mut Draft<I>,
    sought: &S,
) -> Result<bool, RecordFault>
    requires { d.old.len < 2 ^ 31 }
    ensures found { IfOk result (λ there. IfSome d.old.bytes (λ image. (r : Registry) (m : Members) → Holds image r m
        → TellsWhether (S.test sought.now) r there)) }
    ensures fault { IfErr result (HasItsCause d.old.bytes) }
    ensures frame { OnlyLooks I.ImageRead d.old d.new (IsErrOf result RecordFault.DiskFault) }
    ensures cost { AsksAtMost d.old.len (I.asked d.old.image) (I.asked d.new.image) }
{
    if d.len() > 0 {
        return pass(d, sought);
    }
    pass(&mut first_draft(alloc)?, sought)
}

/// The ids of the entries that are looked for, in a draft that is not empty.
fn pass_ids<I: ImageRead, S: Sought>(
    alloc: Global,
    d: &mut Draft<I>,
    sought: &S,
) -> Result<Vec<i32>, RecordFault>
    requires { d.old.len < 2 ^ 31 }
    ensures found { IfOk result (λ ids. IfSome d.old.bytes (AreIds (S.test sought.now) ids.items)) }
    ensures ascending { IfOk result (λ ids. IsAscending ids.items) }
    ensures fault { IfErr result (HasCause d.old.bytes (AreGood HEAD_LEN is_kind)) }
    ensures frame { OnlyLooks I.ImageRead d.old d.new (IsErrOf result RecordFault.DiskFault) }
    ensures cost { AsksAtMost d.old.len (I.asked d.old.image) (I.asked d.new.image) }
{
    let count = block_count(HEAD_LEN, d.len())?;
    let mut ids = Vec::new(alloc);
    for number in 0..count {
        let block = read_kind(d, number)?;
        if is_sought(sought, &block) {
            ids.push(entry_in(&block).id)?;
        }
    }
    put_in_order(&mut ids);
    Ok(ids)
}

/// The ids of the entries that are looked for, ascending; an empty draft is read as the first
/// image. An id that stands in two blocks of a damaged image is told once.
pub fn ids_where<I: ImageRead, S: Sought>(
    alloc: Global,
    d: &mut Draft<I>,
    sought: &S,
) -> Result<Vec<i32>, RecordFault>
    requires { d.old.len < 2 ^ 31 }
    ensures found { IfOk result (λ ids. IfSome d.old.bytes (λ image. (r : Registry) (m : Members) → Holds image r m
        → IsListOf (IsMetAt (S.test sought.now) r) ids.items)) }
    ensures ascending { IfOk result (λ ids. IsAscending ids.items) }
    ensures fault { IfErr result (HasItsCause d.old.bytes) }
    ensures frame { OnlyLooks I.ImageRead d.old d.new (IsErrOf result RecordFault.DiskFault) }
    ensures cost { AsksAtMost d.old.len (I.asked d.old.image) (I.asked d.new.image) }
{
    if d.len() > 0 {
        return pass_ids(alloc, d, sought);
    }
    pass_ids(alloc, &mut first_draft(alloc)?, sought)
}
