//! The groups that an entry owns, found by their own chain.
ghost use Rattle.std.specs.Prelude.{◌≡◌, ◌+◌, ◌*◌, ◌<◌, ◌≤◌, ◌^◌, ℕ, List, None, IfSome, IfOk, IfErr, IsErrOf, length, map};
ghost use Rattle.std.specs.Int.{w32, cast_signed};
ghost use Rattle.std.specs.Option.{option_map};
ghost use Rattle.db_blocks.specs.Ends.{HasCause, OnlyLooks};
ghost use Rattle.db_blocks.specs.declared.blocks.TheConstants.{BLOCK_LEN};
ghost use Rattle.db_chains.specs.Along.{to_end};
ghost use Rattle.db_chains.specs.Chains.{HasChain};
ghost use Rattle.db_chains.specs.Ends.{CostsAtMost, HasSome, IsBadWhere, LooksAtMost, walk_cost};
ghost use Rattle.db_chains.specs.Sought.{EndsChain};
ghost use Rattle.db_chains.specs.Walks.{IsBad};
ghost use Rattle.prdb_layout.specs.Records.{has_id};
ghost use Rattle.prdb_layout.specs.Registry.{Registry};
ghost use Rattle.entry_scans.specs.Lists.{IsAscending};
ghost use Rattle.prdb_lists.specs.Members.{Members};
ghost use Rattle.prdb_finds.specs.Ends.{HasItsCause};
ghost use Rattle.prdb_finds.specs.Keys.{id_chain};
ghost use Rattle.prdb_finds.specs.Owned.{AreInOwned, AreOwned, AreWalked, HasOwned, IsBadOwned};
ghost use Rattle.prdb_finds.specs.Places.{id_links, owned_links};
ghost use Rattle.prdb_finds.specs.Records.{Holds};

use crate::finds::find_link;
use crate::first::first_draft;
use crate::places::{owned_links, owned_place};
use db_chains::read_along;
use db_image::{Draft, ImageRead, RecordFault};
use entry_scans::put_in_order;
use prdb_layout::ID_AT;
use std::alloc::{AllocError, Global};
use ubik_types::WORD_LEN;

/// Words as numbers with a sign.
fn signed(alloc: Global, words: &[u32]) -> Result<Vec<i32>, AllocError>
    ensures { IfOk result (λ ids. ids.items ≡ map (cast_signed w32) words.now) }
{
    words.iter().map(|word| word.cast_signed()).collect(alloc)
}

/// The ids of the groups in the owned chain whose first word stands at a place, ascending, each once.
fn ids_along<I: ImageRead>(
    alloc: Global,
    d: &mut Draft<I>,
    at: u32,
) -> Result<Vec<i32>, RecordFault>
    requires len { d.old.len < 2 ^ 31 }
    requires at { at + WORD_LEN ≤ d.old.len }
    ensures found { IfOk result (λ ids. IfSome d.old.bytes (λ image. AreInOwned image at ids.items)) }
    ensures ascending { IfOk result (λ ids. IsAscending ids.items) }
    ensures bad { IfErr result (IsBadWhere d.old.bytes (IsBad owned_links to_end at)) }
    ensures fault { IfErr result (HasCause d.old.bytes (HasSome owned_links at)) }
    ensures frame { LooksAtMost I.ImageRead (walk_cost owned_links d.old.len) d.old d.new (IsErrOf result RecordFault.DiskFault) }
    ensures cost { IfSome d.old.bytes (λ image. (ws : List ℕ) → HasChain owned_links image at ws
        → CostsAtMost I.ImageRead (WORD_LEN + BLOCK_LEN * length ws) d.old d.new) }
{
    let words = read_along(alloc, d, owned_links(), at, ID_AT as u32)?;
    let mut ids = signed(alloc, &words)?;
    put_in_order(&mut ids);
    Ok(ids)
}

/// The ids of the groups that an entry owns, in an image that is not empty.
fn owned_in<I: ImageRead>(
    alloc: Global,
    d: &mut Draft<I>,
    owner: i32,
) -> Result<Option<Vec<i32>>, RecordFault>
    requires len { d.old.len < 2 ^ 31 }
    requires told { IfSome d.old.bytes (λ image. length image ≡ d.old.len) }
    requires some { 0 < d.old.len }
    ensures found { IfOk result (λ found. IfSome d.old.bytes (λ image. (r : Registry) (m : Members) → Holds image r m
        → AreOwned r owner (option_map (λ ids. ids.items) found))) }
    ensures ascending { IfOk result (λ found. IfSome found (λ ids. IsAscending ids.items)) }
    ensures walked { IfOk result (λ found. IfSome found (λ ids. IfSome d.old.bytes (AreWalked owner ids.items))) }
    ensures ended { IfOk result (λ found. found ≡ None
        → IfSome d.old.bytes (EndsChain id_links (λ w block. has_id owner block) (id_chain owner))) }
    ensures bad { IfErr result (IsBadWhere d.old.bytes (IsBadOwned owner)) }
    ensures fault { IfErr result (HasItsCause d.old.bytes) }
    ensures frame { OnlyLooks I.ImageRead d.old d.new (IsErrOf result RecordFault.DiskFault) }
    ensures cost { IfSome d.old.bytes (λ image. (ws vs : List ℕ) → HasChain id_links image (id_chain owner) ws → HasOwned image owner vs
        → CostsAtMost I.ImageRead (2 * WORD_LEN + BLOCK_LEN * (length ws + length vs)) d.old d.new) }
{
    let Some(link) = find_link(d, owner)? else {
        return Ok(None);
    };
    let ids = ids_along(alloc, d, owned_place(link.word - 1))?;
    Ok(Some(ids))
}

/// The ids of the groups that an entry owns, ascending; none where no entry has the id, as none has 0. Where the image has the one chain of
/// the id and the owned one, it asks for a word and each block of the first at most, and for a word and each block of the second; of the
/// empty image it asks for nothing.
pub fn owned_ids<I: ImageRead>(
    alloc: Global,
    d: &mut Draft<I>,
    owner: i32,
) -> Result<Option<Vec<i32>>, RecordFault>
    requires { d.old.len < 2 ^ 31 }
    ensures found { IfOk result (λ found. IfSome d.old.bytes (λ image. (r : Registry) (m : Members) → Holds image r m
        → AreOwned r owner (option_map (λ ids. ids.items) found))) }
    ensures ascending { IfOk result (λ found. IfSome found (λ ids. IsAscending ids.items)) }
    ensures walked { IfOk result (λ found. IfSome found (λ ids. IfSome d.old.bytes (λ image.
        0 < length image → AreWalked owner ids.items image))) }
    ensures ended { IfOk result (λ found. found ≡ None
        → IfSome d.old.bytes (EndsChain id_links (λ w block. has_id owner block) (id_chain owner))) }
    ensures bad { IfErr result (IsBadWhere d.old.bytes (IsBadOwned owner)) }
    ensures fault { IfErr result (HasItsCause d.old.bytes) }
    ensures frame { OnlyLooks I.ImageRead d.old d.new (IsErrOf result RecordFault.DiskFault) }
    ensures cost { IfSome d.old.bytes (λ image. (ws vs : List ℕ) → HasChain id_links image (id_chain owner) ws → HasOwned image owner vs
        → CostsAtMost I.ImageRead (2 * WORD_LEN + BLOCK_LEN * (length ws + length vs)) d.old d.new) }
{
    if d.len() == 0 {
        return owned_in(alloc, &mut first_draft(alloc)?, owner);
    }
    owned_in(alloc, d, owner)
}
