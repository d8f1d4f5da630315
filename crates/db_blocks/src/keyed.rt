//! The first blocks in the order of a key, found in one pass.
ghost use Rattle.std.specs.Prelude.{◌≡◌, ◌+◌, ◌*◌, ◌<◌, ◌≤◌, ◌^◌, ℕ, Bool, List, IfSome, IfOk, IfErr, OnOk, IsErrOf, length, map, slice_index_or, take};
ghost use Rattle.std.specs.List.Sorted.{IsNonDecreasingBy};
ghost use Rattle.db_image.specs.Asked.{AsksAtMost};
ghost use Rattle.db_blocks.specs.Ascending.{AreGood, first_blocks, numbers_met, put_by};
ghost use Rattle.db_blocks.specs.Blocks.{block_in};
ghost use Rattle.db_blocks.specs.Ends.{HasCause, OnlyLooks};
ghost use Rattle.db_blocks.specs.Kept.{AreWithin};

use crate::blocks::{BLOCK_LEN, Block, block_count, block_place};
use crate::scans::read_block;
use db_image::{Draft, ImageRead, RecordFault};
use std::alloc::{AllocError, Global};

/// What a scan looks for, and the key by which it orders the blocks.
pub trait Keyed {
    /// Whether a block is it.
    ghost test: { Self → List ℕ → Bool };

    /// The key of a block.
    ghost key: { Self → List ℕ → ℕ };

    /// Whether a block may stand in the image at all.
    ghost fits: { Self → List ℕ → Bool };

    fn fits(&self, block: &Block) -> bool
        ensures { result ≡ fits self.now block.now };

    fn is_met(&self, block: &Block) -> bool
        ensures { result ≡ test self.now block.now };

    fn key_of(&self, block: &Block) -> u32
        ensures { result ≡ key self.now block.now };
}

/// A block that is kept on the way, by its number, with its key.
#[derive(Clone, Copy)]
struct Kept {
    key: u32,
    number: u32,
}

/// Where a key goes among those that ascend: before the first greater one.
fn place_for(kept: &[Kept], key: u32) -> usize
    requires { IsNonDecreasingBy (λ (k : Kept). k.key) kept.now }
    ensures bound { result ≤ length kept.now }
    ensures before { (k : ℕ) (d : Kept) → k < result → (slice_index_or kept.now k d).key ≤ key }
    ensures behind { (k : ℕ) (d : Kept) → result ≤ k → k < length kept.now → key < (slice_index_or kept.now k d).key }
{
    kept.partition_point(|k| k.key <= key)
}

/// Puts a block among those that are kept, ascending by their keys, so many at most.
fn keep(kept: &mut Vec<Kept>, most: usize, new: Kept) -> Result<(), AllocError>
    requires order { IsNonDecreasingBy (λ (k : Kept). k.key) kept.old.items }
    requires few { length kept.old.items ≤ most }
    ensures kept { OnOk result (kept.new.items ≡ take most (put_by (λ (k : Kept). k.key) new kept.old.items)) }
    ensures order { OnOk result (IsNonDecreasingBy (λ (k : Kept). k.key) kept.new.items) }
{
    let at = place_for(kept.as_slice(), new.key);
    if at < most {
        kept.insert(at, new)?;
        kept.truncate(most);
    }
    Ok(())
}

/// Of the blocks that are what is looked for the first so many, ascending by their keys. Each block is read once. A bad record names the
/// image's end, where it is no head and whole blocks, or the first block that may not stand in it.
fn scan_kept<I: ImageRead, W: Keyed>(
    alloc: Global,
    d: &mut Draft<I>,
    head: u32,
    wanted: &W,
    most: usize,
) -> Result<Vec<Kept>, RecordFault>
    requires len { d.old.len < 2 ^ 31 }
    requires head { head < 2 ^ 24 }
    ensures found { IfOk result (λ kept. IfSome d.old.bytes (λ image.
        map (λ k. k.number) kept.items ≡ take most (numbers_met head (W.test wanted.now) (W.key wanted.now) image))) }
    ensures within { IfOk result (λ kept. AreWithin head d.old.len kept.items) }
    ensures few { IfOk result (λ kept. length kept.items ≤ most) }
    ensures fault { IfErr result (HasCause d.old.bytes (AreGood head (W.fits wanted.now))) }
    ensures frame { OnlyLooks I.ImageRead d.old d.new (IsErrOf result RecordFault.DiskFault) }
    ensures cost { AsksAtMost d.old.len (I.asked d.old.image) (I.asked d.new.image) }
{
    let count = block_count(head, d.len())?;
    let mut kept = Vec::new(alloc);
    for number in 0..count {
        let block = read_block(d, head, number)?;
        if !wanted.fits(&block) {
            let at = block_place(head, number);
            return Err(RecordFault::BadRecord { at });
        }
        if wanted.is_met(&block) {
            let key = wanted.key_of(&block);
            keep(&mut kept, most, Kept { key, number })?;
        }
    }
    Ok(kept)
}

/// The blocks that are kept.
fn read_blocks<I: ImageRead>(
    alloc: Global,
    d: &mut Draft<I>,
    head: u32,
    kept: &[Kept],
) -> Result<Vec<Block>, RecordFault>
    requires len { d.old.len < 2 ^ 31 }
    requires head { head < 2 ^ 24 }
    requires within { AreWithin head d.old.len kept.now }
    ensures found { IfOk result (λ blocks. IfSome d.old.bytes (λ image. blocks.items ≡ map (block_in head image) (map (λ k. k.number) kept.now))) }
    ensures count { IfOk result (λ blocks. length blocks.items ≡ length kept.now) }
    ensures fault { IfErr result (HasCause d.old.bytes (λ image. Unit {0})) }
    ensures frame { OnlyLooks I.ImageRead d.old d.new (IsErrOf result RecordFault.DiskFault) }
    ensures cost { AsksAtMost (BLOCK_LEN * length kept.now) (I.asked d.old.image) (I.asked d.new.image) }
{
    let mut blocks = Vec::new(alloc);
    for k in kept {
        let block = read_block(d, head, k.number)?;
        blocks.push(block)?;
    }
    Ok(blocks)
}

/// Of the blocks that are what is looked for the first so many, ascending by their keys. All blocks are read once, and those that are
/// given once more.
pub fn scan_first<I: ImageRead, W: Keyed>(
    alloc: Global,
    d: &mut Draft<I>,
    head: u32,
    wanted: &W,
    most: usize,
) -> Result<Vec<Block>, RecordFault>
    requires len { d.old.len < 2 ^ 31 }
    requires head { head < 2 ^ 24 }
    ensures found { IfOk result (λ blocks. IfSome d.old.bytes (λ image.
        blocks.items ≡ first_blocks head (W.test wanted.now) (W.key wanted.now) most image)) }
    ensures few { IfOk result (λ blocks. length blocks.items ≤ most) }
    ensures fault { IfErr result (HasCause d.old.bytes (AreGood head (W.fits wanted.now))) }
    ensures frame { OnlyLooks I.ImageRead d.old d.new (IsErrOf result RecordFault.DiskFault) }
    ensures cost { AsksAtMost (d.old.len + BLOCK_LEN * most) (I.asked d.old.image) (I.asked d.new.image) }
{
    let kept = scan_kept(alloc, d, head, wanted, most)?;
    read_blocks(alloc, d, head, kept.as_slice())
}
