//! An entry, and a block with the fields of an entry.
ghost use Rattle.std.specs.Prelude.{◌≡◌, IfOk, length};
ghost use Rattle.db_blocks.specs.declared.blocks.TheConstants.{BLOCK_LEN};
ghost use Rattle.prdb_layout.specs.RecordEnds.{seen};
ghost use Rattle.prdb_layout.specs.Records.{field_numbers, with_fields};

use crate::blocks::{CHAINS_AT, HEAD_LEN, NAME_AT, NAME_FIELD, PAIR_COUNT_AT};
use crate::entries::ENTRY;
use db_blocks::{BLOCK_LEN, push_filled, push_words};
use db_image::{Draft, ImageRead};
use std::alloc::{AllocError, Global};
use ubik_types::Bytes;

/// An entry: a user, whose id is positive, or a group, whose id is negative.
#[derive(Drop)]
pub struct PrEntry {
    pub name: Bytes,
    pub flags: u32,
    pub id: i32,
    /// The id of the entry that owns it; 0 where none does.
    pub owner: i32,
    /// The id of the fixed entry for which it was made.
    pub creator: i32,
    pub quota: i32,
}

/// An image as a draft with the blocks of this database.
pub fn draft_over<I: ImageRead>(alloc: Global, image: I) -> Draft<I>
    ensures image { result.image ≡ image }
    ensures bytes { result.bytes ≡ I.held image }
    ensures len { result.len ≡ I.size image }
    ensures head { result.layout.head ≡ HEAD_LEN }
    ensures block { result.layout.block ≡ BLOCK_LEN }
{
    Draft::over(alloc, image, HEAD_LEN, BLOCK_LEN as u32)
}

/// The numbers at the front of an entry's block.
#[tactic(auto, unfolding(crate::specs::Records::field_numbers))]
fn field_numbers(e: &PrEntry) -> [u32; 6]
    ensures { result ≡ field_numbers (seen e.now) }
{
    [
        ENTRY,
        e.flags,
        e.id.cast_unsigned(),
        e.owner.cast_unsigned(),
        e.creator.cast_unsigned(),
        e.quota.cast_unsigned(),
    ]
}

/// A block with the fields of this entry in place of those that it had. Its pairs stay.
#[tactic(auto, unfolding(crate::specs::Records::with_fields))]
pub fn with_fields(alloc: Global, e: &PrEntry, block: &[u8]) -> Result<Vec<u8>, AllocError>
    requires { length block.now ≡ BLOCK_LEN }
    ensures { IfOk result (λ after. after.items ≡ with_fields (seen e.now) block.now) }
{
    let mut after = Vec::with_capacity(alloc, BLOCK_LEN)?;
    push_words(&mut after, &field_numbers(e))?;
    after.extend_from_slice(&block[PAIR_COUNT_AT..NAME_AT])?;
    push_filled(&mut after, NAME_FIELD, e.name.as_slice())?;
    let (_, behind) = block.split_at(CHAINS_AT);
    after.extend_from_slice(behind)?;
    Ok(after)
}
