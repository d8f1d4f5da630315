//! The block of an entry, found by the one chain of its id.
ghost use Rattle.std.specs.Prelude.{◌+◌, ◌*◌, ◌<◌, ◌≤◌, ◌^◌, ℕ, List, IfSome, IfOk, IfErr, IsErrOf, length};
ghost use Rattle.db_blocks.specs.Blocks.{block_place};
ghost use Rattle.db_blocks.specs.Ends.{HasCause, OnlyLooks};
ghost use Rattle.db_blocks.specs.declared.blocks.TheConstants.{BLOCK_LEN};
ghost use Rattle.db_chains.specs.Chains.{HasChain};
ghost use Rattle.db_chains.specs.Ends.{CostsAtMost, HasSome};
ghost use Rattle.prdb_finds.specs.Keys.{id_chain};
ghost use Rattle.prdb_finds.specs.Places.{id_links};
ghost use Rattle.prdb_layout.specs.declared.blocks.TheConstants.{HEAD_LEN};
ghost use Rattle.prdb_members.specs.Found.{IsBlockOf};

use db_blocks::Found;
use db_image::{Draft, ImageRead, RecordFault};
use prdb_finds::find_link;
use ubik_types::WORD_LEN;

/// The block of the entry of an id, and its number, the first being 0. The draft is not empty.
pub(crate) fn find_block<I: ImageRead>(
    d: &mut Draft<I>,
    id: i32,
) -> Result<Option<Found>, RecordFault>
    requires { d.old.len < 2 ^ 31 + 2 ^ 20 }
    ensures found { IfOk result (λ found. IfSome d.old.bytes (λ image. IsBlockOf id image found)) }
    ensures within { IfOk result (λ found. IfSome found (λ f. block_place HEAD_LEN f.number + BLOCK_LEN ≤ d.old.len)) }
    ensures fault { IfErr result (HasCause d.old.bytes (HasSome id_links (id_chain id))) }
    ensures frame { OnlyLooks I.ImageRead d.old d.new (IsErrOf result RecordFault.DiskFault) }
    ensures cost { IfSome d.old.bytes (λ image. (ws : List ℕ) → HasChain id_links image (id_chain id) ws
        → CostsAtMost I.ImageRead (WORD_LEN + BLOCK_LEN * length ws) d.old d.new) }
{
    let Some(link) = find_link(d, id)? else {
        return Ok(None);
    };
    let number = link.word - 1;
    let block = link.block;
    Ok(Some(Found { number, block }))
}
