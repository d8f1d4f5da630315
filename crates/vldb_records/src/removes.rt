//! An entry less: its words out of the chains of its name and its ids, and its block among the free ones.
ghost use Rattle.std.specs.Prelude.{◌≡◌, ◌+◌, ◌<◌, ◌≤◌, ◌^◌, IfErr, IsErrOf, IsSome, OnOk};
ghost use Rattle.db_blocks.specs.Ends.{Becomes, HasCause};
ghost use Rattle.db_chains.specs.Ends.{DraftsAtMost, out_cost};
ghost use Rattle.vldb_chains.specs.Places.{id_links};
ghost use Rattle.vldb_entries.specs.Location.{without_entry};
ghost use Rattle.vldb_records.specs.Changes.{after_remove, leave_cost, left, remove_cost, without_id};
ghost use Rattle.vldb_records.specs.Ends.{HasCauseWhere, HasEntry, HasIdWord, Makes};
ghost use Rattle.vldb_entries.specs.declared.layout.TheConstants.{HEAD_LEN};

use crate::finds::find_link;
use crate::sought::Sought;
use db_blocks::{Block, word_at};
use db_chains::{free_block, take_out};
use db_image::{Draft, ImageRead, RecordFault};
use vldb_chains::{free_blocks, id_chain, id_links, name_chain, name_links};
use vldb_entries::{BACKUP_AT, RO_AT, RW_AT, name_in};

/// Takes a word out of the chain of an id; 0 is no entry's, and nothing is changed for it.
pub(crate) fn leave_id<I: ImageRead>(
    d: &mut Draft<I>,
    id: u32,
    word: u32,
) -> Result<(), RecordFault>
    requires len { d.old.len < 2 ^ 31 }
    requires head { HEAD_LEN ≤ d.old.len }
    ensures bytes { OnOk result (Becomes (without_id id word) d.old d.new) }
    ensures len { d.new.len ≡ d.old.len }
    ensures fault { IfErr result (HasCause d.old.bytes (HasIdWord id word)) }
    ensures frame { DraftsAtMost I.ImageRead (out_cost id_links d.old.layout d.old.len) d.old d.new (IsErrOf result RecordFault.DiskFault) }
{
    if id == 0 {
        return Ok(());
    }
    take_out(d, id_links(), id_chain(id), word)
}

/// Takes the block of a number out of the chains of the entry whose fields it has.
#[tactic(auto, unfolding(crate::specs::Changes::left))]
fn leave<I: ImageRead>(d: &mut Draft<I>, number: u32, block: &Block) -> Result<(), RecordFault>
    requires len { d.old.len < 2 ^ 31 }
    requires head { HEAD_LEN ≤ d.old.len }
    requires number { number < 2 ^ 24 }
    ensures bytes { OnOk result (Becomes (left number block.now) d.old d.new) }
    ensures len { d.new.len ≡ d.old.len }
    ensures fault { IfErr result (HasCause d.old.bytes (HasEntry number block.now)) }
    ensures frame { DraftsAtMost I.ImageRead (leave_cost d.old.layout d.old.len) d.old d.new (IsErrOf result RecordFault.DiskFault) }
{
    take_out(d, name_links(), name_chain(name_in(block)), number)?;
    leave_id(d, word_at(block, RW_AT), 4 * number)?;
    leave_id(d, word_at(block, RO_AT), 4 * number + 1)?;
    leave_id(d, word_at(block, BACKUP_AT), 4 * number + 2)
}

/// Removes the entry of a read-write id. Its block is free from then on, and zero but for the next free one. After an `Err` a part of the
/// change may be in the draft.
pub fn remove<I: ImageRead>(d: &mut Draft<I>, own: u32) -> Result<(), RecordFault>
    requires { d.old.len < 2 ^ 31 }
    ensures holds { OnOk result (Makes (λ s. IsSome (s.entry own)) (without_entry own) d.old d.new) }
    ensures bytes { OnOk result (Becomes (after_remove own) d.old d.new) }
    ensures len { d.new.len ≡ d.old.len }
    ensures fault { IfErr result (HasCauseWhere (λ s. IsSome (s.entry own)) d.old.bytes) }
    ensures frame { DraftsAtMost I.ImageRead (remove_cost d.old.layout d.old.len) d.old d.new (IsErrOf result RecordFault.DiskFault) }
{
    let Some(link) = find_link(d, id_links(), id_chain(own), Sought::Id(own))? else {
        return Err(RecordFault::BadRecord { at: d.len() });
    };
    let number = link.word / 4;
    leave(d, number, &link.block)?;
    free_block(d, free_blocks(), number)
}
