//! Blocks of a draft, read one after the other.
ghost use Rattle.std.specs.Prelude.{◌≡◌, ◌+◌, ◌<◌, ◌≤◌, ◌^◌, ℕ, Bool, List, IfSome, IfOk, IfErr, IsErrOf};
ghost use Rattle.db_image.specs.Asked.{AsksAtMost};
ghost use Rattle.db_blocks.specs.Blocks.{IsFirst, IsWhole, block_in, block_place};
ghost use Rattle.db_blocks.specs.Ends.{HasCause, OnlyLooks};

use crate::blocks::{BLOCK_LEN, Block, block_count, block_place};
use db_image::{Draft, ImageRead, RecordFault};

/// A block that a scan found, and its number; the first behind the head has the number 0.
#[derive(Clone, Copy)]
pub struct Found {
    pub number: u32,
    pub block: Block,
}

/// What a scan looks for.
pub trait Wanted {
    /// Whether a block is it.
    ghost test: { Self → List ℕ → Bool };

    fn is_met(&self, block: &Block) -> bool
        ensures { result ≡ test self.now block.now };
}

/// A block of the draft, behind a head of this length.
#[tactic(auto, unfolding(crate::specs::Blocks::block_in))]
pub fn read_block<I: ImageRead>(
    d: &mut Draft<I>,
    head: u32,
    number: u32,
) -> Result<Block, RecordFault>
    requires within { block_place head number + BLOCK_LEN ≤ d.old.len }
    requires len { d.old.len < 2 ^ 31 }
    requires head { head < 2 ^ 24 }
    ensures block { IfOk result (λ block. IfSome d.old.bytes (λ image. block ≡ block_in head image number)) }
    ensures fault { IfErr result (HasCause d.old.bytes (λ image. Unit {0})) }
    ensures frame { OnlyLooks I.ImageRead d.old d.new (IsErrOf result RecordFault.DiskFault) }
    ensures cost { AsksAtMost BLOCK_LEN (I.asked d.old.image) (I.asked d.new.image) }
{
    let at = block_place(head, number);
    let mut block = [0; BLOCK_LEN];
    d.read(at, &mut block).done()?;
    Ok(block)
}

/// The first block that is what is looked for. A bad record comes only where the image is no head and whole blocks.
pub fn scan<I: ImageRead, W: Wanted>(
    d: &mut Draft<I>,
    head: u32,
    wanted: &W,
) -> Result<Option<Found>, RecordFault>
    requires len { d.old.len < 2 ^ 31 }
    requires head { head < 2 ^ 24 }
    ensures found { IfOk result (λ found. IfSome d.old.bytes (λ image. IsFirst head (W.test wanted.now) image found)) }
    ensures within { IfOk result (λ found. IfSome found (λ f. block_place head f.number + BLOCK_LEN ≤ d.old.len)) }
    ensures fault { IfErr result (HasCause d.old.bytes (IsWhole head)) }
    ensures frame { OnlyLooks I.ImageRead d.old d.new (IsErrOf result RecordFault.DiskFault) }
{
    let count = block_count(head, d.len())?;
    for number in 0..count {
        let block = read_block(d, head, number)?;
        if wanted.is_met(&block) {
            return Ok(Some(Found { number, block }));
        }
    }
    Ok(None)
}
