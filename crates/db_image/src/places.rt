//! The blocks of a layout: where a position lies.
ghost use Rattle.std.specs.Prelude.{◌≡◌, ◌<◌, ◌≤◌, ◌^◌, ℕ};
ghost use Rattle.db_image.specs.Places.{IsPlace, block_size, block_start};

use crate::services::Layout;

/// Where a position of an image lies.
#[derive(Clone, Copy)]
pub struct Place {
    /// The block's number: 0 is the head.
    pub number: u64,
    /// How far the position lies behind the block's beginning, in bytes.
    pub offset: u64,
    /// The block's length, in bytes.
    pub size: u64,
}

/// Where a position lies.
pub fn place_of(layout: Layout, at: u64) -> Place
    requires block { 0 < layout.block }
    requires at { at < 2 ^ 33 }
    ensures { IsPlace layout at result }
{
    let head = u64::from(layout.head);
    let block = u64::from(layout.block);
    if at < head {
        return Place {
            number: 0,
            offset: at,
            size: head,
        };
    }
    let behind = at - head;
    Place {
        number: 1 + behind / block,
        offset: behind % block,
        size: block,
    }
}

/// The length of a block.
pub fn size_of(layout: Layout, number: u64) -> u32
    ensures { result ≡ block_size layout number }
{
    match number {
        0 => layout.head,
        _ => layout.block,
    }
}

/// Where a block begins, of an image of fewer than 2^32 bytes.
#[tactic(auto, using(crate::proofs::BlockNumbers::start_at))]
pub fn start_of(layout: Layout, number: u64) -> u32
    requires { block_start layout number < 2 ^ 32 }
    ensures { result ≡ block_start layout number }
{
    match number {
        0 => 0,
        _ => layout.head + (u64::from(layout.block) * (number - 1)) as u32,
    }
}

/// How many blocks begin before a position, which are the first ones.
#[tactic(auto, using(crate::proofs::BlockNumbers::ceil_most))]
pub fn blocks_before(layout: Layout, at: u32) -> u64
    ensures these { (k : ℕ) → k < result → block_start layout k < at }
    ensures others { 0 < layout.block → (k : ℕ) → result ≤ k → at ≤ block_start layout k }
{
    if at == 0 {
        return 0;
    }
    let behind = u64::from(at.saturating_sub(layout.head));
    let block = u64::from(layout.block.max(1));
    let count = behind.div_ceil(block);
    1 + count
}
