//! Lists of pairs, as they are written into blocks.
ghost use Rattle.std.specs.Prelude.{◌≡◌, ◌+◌, ◌*◌, ◌<◌, ◌≤◌, ◌^◌, ◌++◌, ℤ, List, IfOk, OnOk, IfErr, IsErrOf, length, map, take};
ghost use Rattle.std.specs.List.{All};
ghost use Rattle.db_image.specs.Asked.{AsksAtMost};
ghost use Rattle.db_image.specs.Draft.{put_cost};
ghost use Rattle.db_image.specs.Images.{IsOfImage};
ghost use Rattle.db_blocks.specs.Blocks.{block_place};
ghost use Rattle.db_blocks.specs.Ends.{Becomes, OnlyDrafts};
ghost use Rattle.prdb_layout.specs.Bytes.{bits};
ghost use Rattle.prdb_layout.specs.Records.{with_block};
ghost use Rattle.prdb_lists.specs.Blocks.{AreWithin};
ghost use Rattle.prdb_lists.specs.Changes.{with_list, with_more};
ghost use Rattle.prdb_lists.specs.Layout.{id_field, link_to, more_block};

use crate::layout::{FIRST_IDS, FIRST_IDS_AT, MORE_IDS, MORE_IDS_AT};
use db_blocks::{BLOCK_LEN, Block, block_place, push_filled, push_words};
use db_image::{Draft, ImageRead, RecordFault};
use entry_scans::MORE;
use prdb_layout::{HEAD_LEN, NAME_AT, PAIR_COUNT_AT};
use std::alloc::{AllocError, Global};

/// The word that names the first of these blocks: its number from 1 on, or 0 where there is none.
fn link_to(more: &[u32]) -> u32
    requires { All (λ k. k < 2 ^ 24) more.now }
    ensures { result ≡ link_to more.now }
{
    match more {
        [] => 0,
        [number, ..] => *number + 1,
    }
}

/// Ids as they stand in a block.
fn words_of(alloc: Global, ids: &[i32]) -> Result<Vec<u32>, AllocError>
    ensures { IfOk result (λ numbers. numbers.items ≡ map bits ids.now) }
{
    ids.iter().map(|id| id.cast_unsigned()).collect(alloc)
}

/// Writes ids at the end, in a field of this length.
fn push_ids(alloc: Global, out: &mut Vec<u8>, len: usize, ids: &[i32]) -> Result<(), AllocError>
    ensures { OnOk result (out.new.items ≡ out.old.items ++ id_field len ids.now) }
{
    let numbers = words_of(alloc, ids)?;
    let mut bytes = Vec::new(alloc);
    push_words(&mut bytes, &numbers)?;
    push_filled(out, len, &bytes)
}

/// A continuation block of an entry.
fn more_block(alloc: Global, entry: i32, next: u32, ids: &[i32]) -> Result<Vec<u8>, AllocError>
    ensures { IfOk result (λ block. block.items ≡ more_block entry next ids.now) }
{
    let mut block = Vec::with_capacity(alloc, BLOCK_LEN)?;
    push_words(&mut block, &[MORE, entry.cast_unsigned(), next])?;
    push_ids(alloc, &mut block, BLOCK_LEN - MORE_IDS_AT, ids)?;
    Ok(block)
}

/// An entry's block with another list of pairs.
pub(crate) fn with_list(
    alloc: Global,
    block: &Block,
    count: u32,
    more: &[u32],
    first: &[i32],
) -> Result<Vec<u8>, AllocError>
    requires { All (λ k. k < 2 ^ 24) more.now }
    ensures made { IfOk result (λ after. (ids : List ℤ) → count ≡ length ids → first.now ≡ take FIRST_IDS ids
        → after.items ≡ with_list block.now (record { ids = ids; more = more.now })) }
    ensures len { IfOk result (λ after. (ids : List ℤ) → count ≡ length ids → first.now ≡ take FIRST_IDS ids → length after.items ≡ BLOCK_LEN) }
{
    let mut after = Vec::with_capacity(alloc, BLOCK_LEN)?;
    after.extend_from_slice(&block[..PAIR_COUNT_AT])?;
    push_words(&mut after, &[count, link_to(more)])?;
    after.extend_from_slice(&block[NAME_AT..FIRST_IDS_AT])?;
    push_ids(alloc, &mut after, BLOCK_LEN - FIRST_IDS_AT, first)?;
    Ok(after)
}

/// Writes a continuation block of an entry, which names the first of those behind it.
fn write_one<I: ImageRead>(
    alloc: Global,
    d: &mut Draft<I>,
    entry: i32,
    number: u32,
    behind: &[u32],
    ids: &[i32],
) -> Result<(), RecordFault>
    requires len { d.old.len < 2 ^ 31 + 2 ^ 10 }
    requires within { block_place HEAD_LEN number + BLOCK_LEN ≤ d.old.len }
    requires numbers { All (λ k. k < 2 ^ 24) behind.now }
    requires ids { length ids.now ≤ MORE_IDS }
    ensures bytes { OnOk result (Becomes (λ image. with_block number (more_block entry (link_to behind.now) ids.now) image) d.old d.new) }
    ensures len { d.new.len ≡ d.old.len }
    ensures fault { IfErr result IsOfImage }
    ensures frame { OnlyDrafts I.ImageRead d.old d.new (IsErrOf result RecordFault.DiskFault) }
    ensures cost { AsksAtMost (put_cost d.old.layout BLOCK_LEN) (I.asked d.old.image) (I.asked d.new.image) }
{
    let block = more_block(alloc, entry, link_to(behind), ids)?;
    d.put(block_place(HEAD_LEN, number), &block)
}

/// Writes the ids behind the first ones into the continuation blocks of an entry.
pub(crate) fn write_more<I: ImageRead>(
    alloc: Global,
    d: &mut Draft<I>,
    entry: i32,
    more: &[u32],
    ids: &[i32],
) -> Result<(), RecordFault>
    requires len { d.old.len < 2 ^ 31 + 2 ^ 10 }
    requires within { AreWithin d.old.len more.now }
    ensures bytes { OnOk result (Becomes (with_more entry more.now ids.now) d.old d.new) }
    ensures len { d.new.len ≡ d.old.len }
    ensures fault { IfErr result IsOfImage }
    ensures frame { OnlyDrafts I.ImageRead d.old d.new (IsErrOf result RecordFault.DiskFault) }
    ensures cost { AsksAtMost (put_cost d.old.layout BLOCK_LEN * length more.now) (I.asked d.old.image) (I.asked d.new.image) }
{
    let mut left = ids;
    let mut blocks = more;
    while let [number, behind @ ..] = blocks {
        let (here, rest) = left.split_at(left.len().min(MORE_IDS));
        write_one(alloc, d, entry, *number, behind, here)?;
        left = rest;
        blocks = behind;
    }
    Ok(())
}
