//! What an entry owns, in the order of its owned chain.
ghost use Rattle.std.specs.Prelude.{◌≡◌, ◌+◌, ◌*◌, ◌<◌, ◌^◌, ◌↔◌, [], ℕ, ℤ, List, None, IfOk, IfErr, IfSome, IsErrOf, IsSome, length, map};
ghost use Rattle.std.specs.Int.{w32, cast_signed};
ghost use Rattle.std.specs.List.{Contains};
ghost use Rattle.db_blocks.specs.Ends.{OnlyLooks};
ghost use Rattle.db_blocks.specs.declared.blocks.TheConstants.{BLOCK_LEN};
ghost use Rattle.db_chains.specs.Chains.{HasChain};
ghost use Rattle.db_chains.specs.Ends.{CostsAtMost};
ghost use Rattle.prdb_layout.specs.Registry.{Registry};
ghost use Rattle.prdb_lists.specs.Members.{IsOwned, Members};
ghost use Rattle.prdb_finds.specs.Ends.{HasItsCause};
ghost use Rattle.prdb_finds.specs.Keys.{id_chain};
ghost use Rattle.prdb_finds.specs.Owned.{HasOwned};
ghost use Rattle.prdb_finds.specs.Places.{id_links};
ghost use Rattle.prdb_finds.specs.Records.{Holds};
ghost use Rattle.prdb_members.specs.Owned.{AreInOrder};

use db_chains::read_along;
use db_image::{Draft, ImageRead, RecordFault};
use prdb_finds::{find_link, owned_links, owned_place};
use std::alloc::{AllocError, Global};
use ubik_types::WORD_LEN;

/// Where an entry's id stands in its block.
const ID_AT: u32 = 8;

/// Words as numbers with a sign.
fn signed(alloc: Global, words: &[u32]) -> Result<Vec<i32>, AllocError>
    ensures { IfOk result (λ ids. ids.items ≡ map (cast_signed w32) words.now) }
{
    words.iter().map(|word| word.cast_signed()).collect(alloc)
}

/// The ids of the groups that an entry owns, in the order of its owned chain; none where the draft is empty or no entry has the id.
pub fn owned_in_order<I: ImageRead>(
    alloc: Global,
    d: &mut Draft<I>,
    owner: i32,
) -> Result<Vec<i32>, RecordFault>
    requires { d.old.len < 2 ^ 31 }
    ensures found { IfOk result (λ ids. IfSome d.old.bytes (λ image. (r : Registry) (m : Members) → Holds image r m → IsSome (r.entry owner)
        → 0 < length image → AreInOrder image owner ids.items)) }
    ensures owned { IfOk result (λ ids. IfSome d.old.bytes (λ image. (r : Registry) (m : Members) → Holds image r m → IsSome (r.entry owner)
        → 0 < length image → (id : ℤ) → Contains ids.items id ↔ IsOwned r owner id)) }
    ensures empty { IfOk result (λ ids. IfSome d.old.bytes (λ image. length image ≡ 0 → ids.items ≡ [])) }
    ensures unknown { IfOk result (λ ids. IfSome d.old.bytes (λ image. (r : Registry) (m : Members) → Holds image r m → r.entry owner ≡ None
        → ids.items ≡ [])) }
    ensures fault { IfErr result (HasItsCause d.old.bytes) }
    ensures frame { OnlyLooks I.ImageRead d.old d.new (IsErrOf result RecordFault.DiskFault) }
    ensures cost { IfSome d.old.bytes (λ image. (ws vs : List ℕ) → HasChain id_links image (id_chain owner) ws → HasOwned image owner vs
        → CostsAtMost I.ImageRead (2 * WORD_LEN + BLOCK_LEN * (length ws + length vs)) d.old d.new) }
{
    if d.len() == 0 {
        return Ok(Vec::new(alloc));
    }
    let Some(link) = find_link(d, owner)? else {
        return Ok(Vec::new(alloc));
    };
    let words = read_along(alloc, d, owned_links(), owned_place(link.word - 1), ID_AT)?;
    let ids = signed(alloc, &words)?;
    Ok(ids)
}
