//! Entries, found by the one chain of a name or an id.
ghost use Rattle.std.specs.Prelude.{◌≡◌, ◌+◌, ◌*◌, ◌/◌, ◌<◌, ◌≤◌, ◌^◌, ℕ, List, None, IfSome, IfOk, IfErr, IsErrOf, length};
ghost use Rattle.db_blocks.specs.Blocks.{word_at};
ghost use Rattle.db_blocks.specs.Ends.{HasCause, OnlyLooks};
ghost use Rattle.db_blocks.specs.declared.blocks.TheConstants.{BLOCK_LEN};
ghost use Rattle.db_chains.specs.Chains.{HasChain};
ghost use Rattle.db_chains.specs.Ends.{CostsAtMost, HasSome, IsBadWhere, walk_cost};
ghost use Rattle.db_chains.specs.Free.{IsNumber};
ghost use Rattle.db_chains.specs.Links.{AreLinks};
ghost use Rattle.db_chains.specs.Walks.{IsBad, stop_place};
ghost use Rattle.db_chains.specs.declared.links.Links.{Links};
ghost use Rattle.vldb_chains.specs.Keys.{id_chain, name_chain};
ghost use Rattle.vldb_chains.specs.Places.{free_blocks, id_links, name_links};
ghost use Rattle.vldb_entries.specs.Location.{IsNamed, IsOfId, IsSmall, Location};
ghost use Rattle.vldb_entries.specs.Forms.{has_id_in, has_name, whole};
ghost use Rattle.vldb_records.specs.Records.{Holds};
ghost use Rattle.vldb_records.specs.Ends.{HasItsCause};
ghost use Rattle.db_chains.specs.Sought.{EndsChain, IsInChain};
ghost use Rattle.vldb_records.specs.Sought.{IsRead, is_sought};
ghost use Rattle.vldb_entries.specs.declared.layout.TheConstants.{ADDRESSES_LEN, HEAD_LEN};

use crate::heads::places;
use crate::sought::Sought;
use db_blocks::block_count;
use db_chains::{Link, Links, find};
use db_image::{Draft, ImageRead, RecordFault};
use std::alloc::Global;
use ubik_types::WORD_LEN;
use vldb_chains::{id_chain, id_links, name_chain, name_links};
use vldb_entries::{VlEntry, entry_in};

/// The first block of a chain that is what is looked for; an empty draft has none.
pub(crate) fn find_link<I: ImageRead>(
    d: &mut Draft<I>,
    links: Links,
    at: u32,
    sought: Sought<'_>,
) -> Result<Option<Link>, RecordFault>
    requires links { AreLinks links }
    requires head { links.head ≡ HEAD_LEN }
    requires at { at + WORD_LEN ≤ HEAD_LEN }
    requires behind { 1084 ≤ at }
    requires len { d.old.len < 2 ^ 31 }
    ensures found { IfOk result (λ link. IfSome d.old.bytes (λ image. IsInChain links (is_sought sought.entry) at (whole image) link)) }
    ensures exact { IfOk result (λ link. IfSome d.old.bytes (λ image. IfSome link (λ f.
        f.word ≡ word_at (whole image) (stop_place links (is_sought sought.entry) (whole image) at)))) }
    ensures ended { IfOk result (λ link. link ≡ None → IfSome d.old.bytes (λ image. EndsChain links (is_sought sought.entry) at (whole image))) }
    ensures number { IfOk result (λ link. IfSome link (λ f. IsNumber free_blocks d.old.len (f.word / links.step))) }
    ensures told { IfSome d.old.bytes (λ image. length image ≡ d.old.len) }
    ensures within { IfOk result (λ link. IfSome link (λ f. HEAD_LEN ≤ d.old.len)) }
    ensures bad { IfErr result (IsBadWhere d.old.bytes (λ image. IsBad links (is_sought sought.entry) at (whole image))) }
    ensures fault { IfErr result (HasCause d.old.bytes (λ image. HasSome links at (whole image))) }
    ensures frame { OnlyLooks I.ImageRead d.old d.new (IsErrOf result RecordFault.DiskFault) }
    ensures cost { IfSome d.old.bytes (λ image. (ws : List ℕ) → HasChain links (whole image) at ws
        → CostsAtMost I.ImageRead (WORD_LEN + BLOCK_LEN * length ws) d.old d.new) }
    ensures most { CostsAtMost I.ImageRead (walk_cost links d.old.len) d.old d.new }
{
    if d.len() == 0 {
        return Ok(None);
    }
    block_count(links.head, d.len())?;
    find(d, links, at, &sought)
}

/// The entry of the first block of a chain that is what is looked for.
fn find_entry<I: ImageRead>(
    alloc: Global,
    d: &mut Draft<I>,
    links: Links,
    at: u32,
    sought: Sought<'_>,
) -> Result<Option<VlEntry>, RecordFault>
    requires links { AreLinks links }
    requires head { links.head ≡ HEAD_LEN }
    requires at { at + WORD_LEN ≤ HEAD_LEN }
    requires behind { 1084 ≤ at }
    requires len { d.old.len < 2 ^ 31 }
    ensures found { IfOk result (λ found. IfSome d.old.bytes (λ image. IsRead links (is_sought sought.entry) at (whole image) found)) }
    ensures ended { IfOk result (λ found. found ≡ None → IfSome d.old.bytes (λ image. EndsChain links (is_sought sought.entry) at (whole image))) }
    ensures small { IfOk result (λ found. IfSome found IsSmall) }
    ensures bad { IfErr result (IsBadWhere d.old.bytes (λ image. IsBad links (is_sought sought.entry) at (whole image))) }
    ensures fault { IfErr result (HasCause d.old.bytes (λ image. HasSome links at (whole image))) }
    ensures frame { OnlyLooks I.ImageRead d.old d.new (IsErrOf result RecordFault.DiskFault) }
    ensures cost { IfSome d.old.bytes (λ image. (ws : List ℕ) → HasChain links (whole image) at ws
        → CostsAtMost I.ImageRead (WORD_LEN + ADDRESSES_LEN + BLOCK_LEN * length ws) d.old d.new) }
{
    let Some(link) = find_link(d, links, at, sought)? else {
        return Ok(None);
    };
    let addresses = places(d)?;
    Ok(Some(entry_in(alloc, &addresses, &link.block)?))
}

/// The entry of a name. Where the image has the one chain of the name, it asks for a word, the addresses and each block of that chain at most.
pub fn find_name<I: ImageRead>(
    alloc: Global,
    d: &mut Draft<I>,
    name: &[u8],
) -> Result<Option<VlEntry>, RecordFault>
    requires { d.old.len < 2 ^ 31 }
    ensures found { IfOk result (λ found. IfSome d.old.bytes (λ image. (s : Location) → Holds image s → IsNamed s name.now found)) }
    ensures ended { IfOk result (λ found. found ≡ None → IfSome d.old.bytes (λ image.
        EndsChain name_links (λ w block. has_name name.now block) (name_chain name.now) (whole image))) }
    ensures small { IfOk result (λ found. IfSome found IsSmall) }
    ensures bad { IfErr result (IsBadWhere d.old.bytes (λ image.
        IsBad name_links (λ w block. has_name name.now block) (name_chain name.now) (whole image))) }
    ensures fault { IfErr result (HasItsCause d.old.bytes) }
    ensures frame { OnlyLooks I.ImageRead d.old d.new (IsErrOf result RecordFault.DiskFault) }
    ensures cost { IfSome d.old.bytes (λ image. (ws : List ℕ) → HasChain name_links (whole image) (name_chain name.now) ws
        → CostsAtMost I.ImageRead (WORD_LEN + ADDRESSES_LEN + BLOCK_LEN * length ws) d.old d.new) }
{
    find_entry(alloc, d, name_links(), name_chain(name), Sought::Name(name))
}

/// The entry of which one of the three ids is this one; 0 is no entry's. Where the image has the one chain of the id, it asks for a word,
/// the addresses and a block for each word of that chain at most.
pub fn find_id<I: ImageRead>(
    alloc: Global,
    d: &mut Draft<I>,
    id: u32,
) -> Result<Option<VlEntry>, RecordFault>
    requires { d.old.len < 2 ^ 31 }
    ensures found { IfOk result (λ found. IfSome d.old.bytes (λ image. (s : Location) → Holds image s → IsOfId s id found)) }
    ensures ended { IfOk result (λ found. found ≡ None → IfSome d.old.bytes (λ image.
        EndsChain id_links (λ w block. has_id_in id block) (id_chain id) (whole image))) }
    ensures small { IfOk result (λ found. IfSome found IsSmall) }
    ensures bad { IfErr result (IsBadWhere d.old.bytes (λ image.
        IsBad id_links (λ w block. has_id_in id block) (id_chain id) (whole image))) }
    ensures fault { IfErr result (HasItsCause d.old.bytes) }
    ensures frame { OnlyLooks I.ImageRead d.old d.new (IsErrOf result RecordFault.DiskFault) }
    ensures cost { IfSome d.old.bytes (λ image. (ws : List ℕ) → HasChain id_links (whole image) (id_chain id) ws
        → CostsAtMost I.ImageRead (WORD_LEN + ADDRESSES_LEN + BLOCK_LEN * length ws) d.old d.new) }
{
    find_entry(alloc, d, id_links(), id_chain(id), Sought::Id(id))
}
