//! Entries, found by the one chain of a name or an id.
ghost use Rattle.std.specs.Prelude.{◌≡◌, ◌+◌, ◌*◌, ◌<◌, ◌≤◌, ◌^◌, ℕ, List, [], None, IfSome, IfOk, IfErr, IsErrOf, length};
ghost use Rattle.std.specs.Option.{option_map};
ghost use Rattle.db_blocks.specs.Ends.{HasCause, OnlyLooks};
ghost use Rattle.db_blocks.specs.declared.blocks.TheConstants.{BLOCK_LEN};
ghost use Rattle.db_chains.specs.Chains.{HasChain};
ghost use Rattle.db_chains.specs.Ends.{CostsAtMost, HasSome, IsBadWhere, LooksAtMost, walk_cost};
ghost use Rattle.db_chains.specs.Free.{IsNumber};
ghost use Rattle.db_chains.specs.Links.{AreLinks};
ghost use Rattle.db_chains.specs.Sought.{EndsChain};
ghost use Rattle.db_chains.specs.Walks.{IsBad, IsFound, first_met, meets, stop_place};
ghost use Rattle.prdb_layout.specs.RecordEnds.{seen};
ghost use Rattle.prdb_layout.specs.Records.{entry_in, has_id, has_name};
ghost use Rattle.prdb_layout.specs.Registry.{IsNamed, Registry};
ghost use Rattle.prdb_lists.specs.Members.{Members};
ghost use Rattle.prdb_finds.specs.Ends.{HasItsCause};
ghost use Rattle.prdb_finds.specs.Keys.{id_chain, name_chain};
ghost use Rattle.prdb_finds.specs.Places.{free_blocks, id_links, name_links};
ghost use Rattle.prdb_finds.specs.Records.{Holds, whole};
ghost use Rattle.prdb_finds.specs.Sought.{IsRead, is_sought};

use crate::first::first_draft;
use crate::places::{id_chain, id_links, name_chain, name_links};
use crate::sought::Sought;
use db_blocks::{Block, block_count};
use db_chains::{Link, Links, find};
use db_image::{Draft, ImageRead, RecordFault};
use entry_scans::entry_in;
use prdb_layout::{HEAD_LEN, PrEntry};
use std::alloc::Global;
use ubik_types::{NoMemory, WORD_LEN, bytes_of};

/// The entry whose fields stand in a block.
fn read_entry(alloc: Global, block: &Block) -> Result<PrEntry, NoMemory>
    ensures { IfOk result (λ e. seen e ≡ entry_in block.now) }
{
    let view = entry_in(block);
    Ok(PrEntry {
        name: bytes_of(alloc, view.name)?,
        flags: view.flags,
        id: view.id,
        owner: view.owner,
        creator: view.creator,
        quota: view.quota,
    })
}

/// The entry of the first block of a chain that is what is looked for, in an image that is not empty.
fn walk_to<I: ImageRead>(
    alloc: Global,
    d: &mut Draft<I>,
    links: Links,
    at: u32,
    sought: Sought<'_>,
) -> Result<Option<PrEntry>, RecordFault>
    requires links { AreLinks links }
    requires head { links.head ≡ HEAD_LEN }
    requires at { at + WORD_LEN ≤ HEAD_LEN }
    requires len { d.old.len < 2 ^ 31 }
    ensures found { IfOk result (λ found. IfSome d.old.bytes (λ image.
        IsRead links (is_sought sought.entry) at image (option_map seen found))) }
    ensures ended { IfOk result (λ found. found ≡ None → IfSome d.old.bytes (EndsChain links (is_sought sought.entry) at)) }
    ensures bad { IfErr result (IsBadWhere d.old.bytes (IsBad links (is_sought sought.entry) at)) }
    ensures fault { IfErr result (HasCause d.old.bytes (HasSome links at)) }
    ensures frame { OnlyLooks I.ImageRead d.old d.new (IsErrOf result RecordFault.DiskFault) }
    ensures cost { IfSome d.old.bytes (λ image. (ws : List ℕ) → HasChain links image at ws
        → CostsAtMost I.ImageRead (WORD_LEN + BLOCK_LEN * length ws) d.old d.new) }
{
    block_count(links.head, d.len())?;
    let Some(link) = find(d, links, at, &sought)? else {
        return Ok(None);
    };
    Ok(Some(read_entry(alloc, &link.block)?))
}

/// The entry of the first block of a chain that is what is looked for; an empty draft is read as the first image.
fn find_entry<I: ImageRead>(
    alloc: Global,
    d: &mut Draft<I>,
    links: Links,
    at: u32,
    sought: Sought<'_>,
) -> Result<Option<PrEntry>, RecordFault>
    requires links { AreLinks links }
    requires head { links.head ≡ HEAD_LEN }
    requires at { at + WORD_LEN ≤ HEAD_LEN }
    requires first { HasSome links at (whole []) }
    requires len { d.old.len < 2 ^ 31 }
    ensures found { IfOk result (λ found. IfSome d.old.bytes (λ image.
        IsRead links (is_sought sought.entry) at (whole image) (option_map seen found))) }
    ensures ended { IfOk result (λ found. found ≡ None → IfSome d.old.bytes (EndsChain links (is_sought sought.entry) at)) }
    ensures bad { IfErr result (IsBadWhere d.old.bytes (IsBad links (is_sought sought.entry) at)) }
    ensures fault { IfErr result (HasCause d.old.bytes (λ image. HasSome links at (whole image))) }
    ensures frame { OnlyLooks I.ImageRead d.old d.new (IsErrOf result RecordFault.DiskFault) }
    ensures cost { IfSome d.old.bytes (λ image. (ws : List ℕ) → HasChain links image at ws
        → CostsAtMost I.ImageRead (WORD_LEN + BLOCK_LEN * length ws) d.old d.new) }
{
    if d.len() == 0 {
        return walk_to(alloc, &mut first_draft(alloc)?, links, at, sought);
    }
    walk_to(alloc, d, links, at, sought)
}

/// The entry of a name. Where the image has the one chain of the name, it asks for a word and each block of that chain at most; of the
/// empty image it asks for nothing.
pub fn find_name<I: ImageRead>(
    alloc: Global,
    d: &mut Draft<I>,
    name: &[u8],
) -> Result<Option<PrEntry>, RecordFault>
    requires { d.old.len < 2 ^ 31 }
    ensures found { IfOk result (λ found. IfSome d.old.bytes (λ image. (r : Registry) (m : Members) → Holds image r m
        → IsNamed r name.now (option_map seen found))) }
    ensures ended { IfOk result (λ found. found ≡ None
        → IfSome d.old.bytes (EndsChain name_links (λ w block. has_name name.now block) (name_chain name.now))) }
    ensures bad { IfErr result (IsBadWhere d.old.bytes (IsBad name_links (λ w block. has_name name.now block) (name_chain name.now))) }
    ensures fault { IfErr result (HasItsCause d.old.bytes) }
    ensures frame { OnlyLooks I.ImageRead d.old d.new (IsErrOf result RecordFault.DiskFault) }
    ensures cost { IfSome d.old.bytes (λ image. (ws : List ℕ) → HasChain name_links image (name_chain name.now) ws
        → CostsAtMost I.ImageRead (WORD_LEN + BLOCK_LEN * length ws) d.old d.new) }
{
    find_entry(alloc, d, name_links(), name_chain(name), Sought::Name(name))
}

/// The entry of an id. Where the image has the one chain of the id, it asks for a word and each block of that chain at most; of the
/// empty image it asks for nothing.
pub fn find_id<I: ImageRead>(
    alloc: Global,
    d: &mut Draft<I>,
    id: i32,
) -> Result<Option<PrEntry>, RecordFault>
    requires { d.old.len < 2 ^ 31 }
    ensures found { IfOk result (λ found. IfSome d.old.bytes (λ image. (r : Registry) (m : Members) → Holds image r m
        → option_map seen found ≡ r.entry id)) }
    ensures ended { IfOk result (λ found. found ≡ None
        → IfSome d.old.bytes (EndsChain id_links (λ w block. has_id id block) (id_chain id))) }
    ensures bad { IfErr result (IsBadWhere d.old.bytes (IsBad id_links (λ w block. has_id id block) (id_chain id))) }
    ensures fault { IfErr result (HasItsCause d.old.bytes) }
    ensures frame { OnlyLooks I.ImageRead d.old d.new (IsErrOf result RecordFault.DiskFault) }
    ensures cost { IfSome d.old.bytes (λ image. (ws : List ℕ) → HasChain id_links image (id_chain id) ws
        → CostsAtMost I.ImageRead (WORD_LEN + BLOCK_LEN * length ws) d.old d.new) }
{
    find_entry(alloc, d, id_links(), id_chain(id), Sought::Id(id))
}

/// The word of the entry of an id in the chain of the id, and its block; the draft is not empty. The word is the number of the block, the
/// first being 1.
pub fn find_link<I: ImageRead>(d: &mut Draft<I>, id: i32) -> Result<Option<Link>, RecordFault>
    requires { d.old.len < 2 ^ 31 + 2 ^ 20 }
    ensures exact { IfOk result (λ link. IfSome d.old.bytes (λ image. IsFound id_links (λ w block. has_id id block) image
        (stop_place id_links (λ w block. has_id id block) image (id_chain id)) link)) }
    ensures found { IfOk result (λ link. IfSome d.old.bytes (λ image. (ws : List ℕ) → HasChain id_links image (id_chain id) ws
        → option_map (λ f. f.word) link ≡ first_met (meets id_links (λ w block. has_id id block) image) ws)) }
    ensures within { IfOk result (λ link. IfSome link (λ f. IsNumber free_blocks d.old.len f.word)) }
    ensures bad { IfErr result (IsBadWhere d.old.bytes (IsBad id_links (λ w block. has_id id block) (id_chain id))) }
    ensures fault { IfErr result (HasCause d.old.bytes (HasSome id_links (id_chain id))) }
    ensures frame { LooksAtMost I.ImageRead (walk_cost id_links d.old.len) d.old d.new (IsErrOf result RecordFault.DiskFault) }
    ensures cost { IfSome d.old.bytes (λ image. (ws : List ℕ) → HasChain id_links image (id_chain id) ws
        → CostsAtMost I.ImageRead (WORD_LEN + BLOCK_LEN * length ws) d.old d.new) }
{
    block_count(HEAD_LEN, d.len())?;
    find(d, id_links(), id_chain(id), &Sought::Id(id))
}
