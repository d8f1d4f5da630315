//! The ids of the entries that are looked for, in the order of their blocks.
ghost use Rattle.std.specs.Prelude.{◌≡◌, ◌<◌, ◌^◌, IfErr, IfOk, IfSome, IsErrOf};
ghost use Rattle.db_image.specs.Asked.{AsksAtMost};
ghost use Rattle.db_blocks.specs.Ascending.{AreGood};
ghost use Rattle.db_blocks.specs.Ends.{HasCause, OnlyLooks};
ghost use Rattle.db_blocks.specs.Blocks.{kind_of};
ghost use Rattle.entry_scans.specs.Pages.{is_kind};
ghost use Rattle.entry_scans.specs.Sought.{is_sought};
ghost use Rattle.prdb_finds.specs.Ends.{HasItsCause};
ghost use Rattle.prdb_layout.specs.declared.blocks.TheConstants.{HEAD_LEN};
ghost use Rattle.prdb_turns.specs.Fronts.{ids_by_block};

use db_blocks::{block_count, block_place, read_block};
use db_image::{Draft, ImageRead, RecordFault};
use entry_scans::{MORE, Sought, entry_in, is_sought, kind_of};
use prdb_finds::HEAD_LEN;
use std::alloc::Global;

/// The ids of the entries that are looked for, in a draft that is not empty.
fn pass<I: ImageRead, S: Sought>(
    alloc: Global,
    d: &mut Draft<I>,
    sought: &S,
) -> Result<Vec<i32>, RecordFault>
    requires { d.old.len < 2 ^ 31 }
    ensures found { IfOk result (λ ids. IfSome d.old.bytes (λ image. ids.items ≡ ids_by_block (S.test sought.now) image)) }
    ensures fault { IfErr result (HasCause d.old.bytes (AreGood HEAD_LEN is_kind)) }
    ensures frame { OnlyLooks I.ImageRead d.old d.new (IsErrOf result RecordFault.DiskFault) }
    ensures cost { AsksAtMost d.old.len (I.asked d.old.image) (I.asked d.new.image) }
{
    let count = block_count(HEAD_LEN, d.len())?;
    let mut ids = Vec::new(alloc);
    for number in 0..count {
        let block = read_block(d, HEAD_LEN, number)?;
        if kind_of(&block) > MORE {
            let at = block_place(HEAD_LEN, number);
            return Err(RecordFault::BadRecord { at });
        }
        if is_sought(sought, &block) {
            ids.push(entry_in(&block).id)?;
        }
    }
    Ok(ids)
}

/// The ids of the entries that are looked for, in the ascending order of their blocks; an empty draft has no block. All blocks are read
/// once.
pub fn ids_by_block<I: ImageRead, S: Sought>(
    alloc: Global,
    d: &mut Draft<I>,
    sought: &S,
) -> Result<Vec<i32>, RecordFault>
    requires { d.old.len < 2 ^ 31 }
    ensures found { IfOk result (λ ids. IfSome d.old.bytes (λ image. ids.items ≡ ids_by_block (S.test sought.now) image)) }
    ensures fault { IfErr result (HasItsCause d.old.bytes) }
    ensures frame { OnlyLooks I.ImageRead d.old d.new (IsErrOf result RecordFault.DiskFault) }
    ensures cost { AsksAtMost d.old.len (I.asked d.old.image) (I.asked d.new.image) }
{
    if d.len() == 0 {
        return Ok(Vec::new(alloc));
    }
    pass(alloc, d, sought)
}
