//! Blocks that tell pairs, as they are read.
ghost use Rattle.std.specs.Prelude.{◌≡◌, ◌+◌, ◌*◌, ◌≤◌, ◌++◌, true, false, IfOk, length};
ghost use Rattle.entry_scans.specs.Lists.{IsAscending};
ghost use Rattle.prdb_lists.specs.Blocks.{ids_in, is_more_of};

use crate::id_lists::IdList;
use crate::layout::MORE_ENTRY_AT;
use db_blocks::Block;
use entry_scans::{MORE, kind_of, signed_at};
use std::alloc::AllocError;
use ubik_types::WORD_LEN;

/// Whether a block is a continuation of an entry.
pub(crate) fn is_more_of(block: &Block, entry: i32) -> bool
    ensures { result ≡ is_more_of entry block.now }
{
    kind_of(block) == MORE && signed_at(block, MORE_ENTRY_AT) == entry
}

/// Reads so many ids of a block, from a place on, behind those of a list. False, where they do not ascend.
pub(crate) fn read_ids(
    ids: &mut IdList,
    block: &Block,
    at: usize,
    count: usize,
) -> Result<bool, AllocError>
    requires { at + WORD_LEN * count ≤ length block.now }
    ensures read { IfOk result (λ ascend. ascend ≡ true → ids.new ≡ ids.old ++ ids_in block.now at count) }
    ensures not { IfOk result (λ ascend. ascend ≡ false → ¬ IsAscending (ids.old ++ ids_in block.now at count)) }
{
    for i in 0..count {
        let id = signed_at(block, at + WORD_LEN * i);
        if !ids.is_below(id) {
            return Ok(false);
        }
        ids.push(id)?;
    }
    Ok(true)
}
