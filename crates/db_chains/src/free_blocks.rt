//! Free blocks: how one is taken, and how one is freed.
ghost use Rattle.std.specs.Prelude.{◌≡◌, ◌≢◌, ◌+◌, ◌<◌, ◌≤◌, ◌^◌, ℕ, List, IfSome, IfOk, IfErr, IsErrOf, IsSomeAnd, OnOk, length, max};
ghost use Rattle.std.specs.List.{AllByRecursion};
ghost use Rattle.db_image.specs.Draft.{put_cost};
ghost use Rattle.db_image.specs.Images.{IsOfImage};
ghost use Rattle.db_blocks.specs.Blocks.{block_place};
ghost use Rattle.db_blocks.specs.Ends.{Becomes, HasCause};
ghost use Rattle.db_blocks.specs.declared.blocks.TheConstants.{BLOCK_LEN};
ghost use Rattle.db_chains.specs.Chains.{HasChain};
ghost use Rattle.db_chains.specs.Changes.{is_until};
ghost use Rattle.db_chains.specs.Ends.{DraftsAtMost, HasSome, IsBadFirst, IsBadWhere};
ghost use Rattle.db_chains.specs.Free.{AreFree, IsAscending, IsFreed, IsNumber, IsTaken, blank, free_cost, free_links, next_number, take_cost, with_freed, with_new, with_taken};
ghost use Rattle.db_chains.specs.Walks.{IsBad};
ghost use Rattle.db_chains.specs.declared.changes.Until.{Until};

use crate::changes::{Until, put_in, take_first};
use crate::links::Links;
use crate::walks::walk;
use db_blocks::{BLOCK_LEN, Block, block_count, block_place};
use db_image::{Draft, ImageRead, RecordFault};
use ubik_types::WORD_LEN;

/// Where a database has its free blocks: in one ascending chain, whose words are the numbers of the blocks, the first being 1. Places and
/// lengths are in bytes.
#[derive(Clone, Copy)]
pub struct FreeBlocks {
    /// The length of the image's head.
    pub head: u32,
    /// Where the chain's first word stands in the head.
    pub first: u32,
    /// Where the number of blocks stands in the head.
    pub count: u32,
    /// The first word of a free block.
    pub mark: u32,
    /// Where the next word stands in a free block.
    pub next: u32,
}

/// How the chain of the free blocks names them.
fn free_links(free: FreeBlocks) -> Links
    ensures { result ≡ free_links free }
{
    Links {
        head: free.head,
        mark: free.mark,
        next: free.next,
        step: 1,
        kinds: 1,
    }
}

/// A free block with none behind it.
#[tactic(auto, unfolding(db_blocks::specs::Bytes::zeros))]
fn blank(free: FreeBlocks) -> Block
    ensures { result ≡ blank free }
{
    let mut block = [0; BLOCK_LEN];
    block[..WORD_LEN].copy_from_slice(&free.mark.to_be_bytes());
    block
}

/// Writes a block behind the last one, of which there are so many, and counts it.
fn add_block<I: ImageRead>(
    d: &mut Draft<I>,
    free: FreeBlocks,
    count: u32,
    block: &Block,
) -> Result<(), RecordFault>
    requires free { AreFree free }
    requires len { d.old.len < 2 ^ 31 + 2 ^ 20 }
    requires count { d.old.len ≡ block_place free.head count }
    ensures bytes { OnOk result (Becomes (with_new free count block.now) d.old d.new) }
    ensures len { OnOk result (d.new.len ≡ block_place free.head (count + 1)) }
    ensures longer { d.old.len ≤ d.new.len }
    ensures fault { IfErr result IsOfImage }
    ensures frame { DraftsAtMost I.ImageRead (put_cost d.old.layout WORD_LEN + put_cost d.old.layout BLOCK_LEN) d.old d.new
        (IsErrOf result RecordFault.DiskFault) }
{
    d.put(block_place(free.head, count), block)?;
    d.put(free.count, &(count + 1).to_be_bytes())
}

/// Takes a block and writes these bytes into it, and gives its number: the first free block, or where there is none one more behind the
/// last, which the head counts. After an `Err` a part of the change may be in the draft.
pub fn take_block<I: ImageRead>(
    d: &mut Draft<I>,
    free: FreeBlocks,
    block: &Block,
) -> Result<u32, RecordFault>
    requires free { AreFree free }
    requires len { d.old.len < 2 ^ 31 + 2 ^ 20 }
    ensures number { IfOk result (λ n. IfSome d.old.bytes (λ image. n ≡ next_number free image)) }
    ensures bytes { OnOk result (Becomes (with_taken free block.now) d.old d.new) }
    ensures taken { IfOk result (λ n. IfSome d.old.bytes (λ image. IsSomeAnd d.new.bytes (IsTaken free block.now image n))) }
    ensures len { IfOk result (λ n. d.new.len ≡ max d.old.len (block_place free.head n)) }
    ensures within { IfOk result (IsNumber free d.new.len) }
    ensures longer { d.old.len ≤ d.new.len }
    ensures grows { OnOk result (d.new.len ≤ d.old.len + BLOCK_LEN) }
    ensures bad { IfErr result (IsBadWhere d.old.bytes (IsBadFirst (free_links free) free.first)) }
    ensures fault { IfErr result (HasCause d.old.bytes (HasSome (free_links free) free.first)) }
    ensures frame { DraftsAtMost I.ImageRead (take_cost d.old.layout) d.old d.new (IsErrOf result RecordFault.DiskFault) }
{
    let count = block_count(free.head, d.len())?;
    let Some(number) = take_first(d, free_links(free), free.first)? else {
        add_block(d, free, count, block)?;
        return Ok(count + 1);
    };
    d.put(block_place(free.head, number - 1), block)?;
    Ok(number)
}

/// Frees the block of a number, which is not free yet: it is blank from then on, and stands at its ascending place among the free ones. After
/// an `Err` a part of the change may be in the draft.
pub fn free_block<I: ImageRead>(
    d: &mut Draft<I>,
    free: FreeBlocks,
    number: u32,
) -> Result<(), RecordFault>
    requires free { AreFree free }
    requires len { d.old.len < 2 ^ 31 + 2 ^ 20 }
    requires block { IsNumber free d.old.len number }
    ensures bytes { OnOk result (Becomes (with_freed free number) d.old d.new) }
    ensures freed { OnOk result (IfSome d.old.bytes (λ image. (ws : List ℕ) → HasChain (free_links free) image free.first ws
        → IsAscending ws → AllByRecursion (λ v. v ≢ number) ws
        → IsSomeAnd d.new.bytes (IsFreed free ws number image))) }
    ensures len { d.new.len ≡ d.old.len }
    ensures bad { IfErr result (IsBadWhere d.old.bytes (IsBad (free_links free) (is_until (Until.Above number)) free.first)) }
    ensures fault { IfErr result (HasCause d.old.bytes (HasSome (free_links free) free.first)) }
    ensures frame { DraftsAtMost I.ImageRead (free_cost free d.old.layout d.old.len) d.old d.new (IsErrOf result RecordFault.DiskFault) }
{
    let count = block_count(free.head, d.len())?;
    prove!(number <= count);
    let links = free_links(free);
    let stop = walk(d, links, free.first, &Until::Above(number))?;
    d.put(block_place(free.head, number - 1), &blank(free))?;
    put_in(d, links, stop.place, number)
}
