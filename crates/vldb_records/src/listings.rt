//! Entries, found by where they lie and whether they are locked.
ghost use Rattle.std.specs.Prelude.{◌≡◌, ◌+◌, ◌*◌, ◌<◌, ◌≤◌, ◌^◌, ℕ, Bool, List, IfSome, IfOk, IfErr, IsErrOf, length, map, min, not, ◌==◌};
ghost use Rattle.std.specs.List.{AllByRecursion, list_any, range_with_len};
ghost use Rattle.db_blocks.specs.Ascending.{first_blocks};
ghost use Rattle.db_blocks.specs.Blocks.{word_at, kind_of};
ghost use Rattle.db_blocks.specs.Ends.{OnlyLooks};
ghost use Rattle.db_blocks.specs.declared.blocks.TheConstants.{BLOCK_LEN};
ghost use Rattle.db_chains.specs.Ends.{CostsAtMost};
ghost use Rattle.vldb_records.specs.Ends.{HasItsCause};
ghost use Rattle.vldb_records.specs.Listing.{AreListed, is_listed_in, is_listed_site, is_on, rw_in};
ghost use Rattle.vldb_entries.specs.Location.{Location, IsSmall};
ghost use Rattle.vldb_entries.specs.Forms.{entry_in, site_in, whole};
ghost use Rattle.vldb_records.specs.Records.{Holds};
ghost use Rattle.vldb_entries.specs.declared.layout.TheConstants.{ADDRESSES_LEN, COUNT_AT, HEAD_LEN, RW_AT, SITES_FIELD};

use crate::heads::addresses;
use db_blocks::{Block, Keyed, scan_first, word_at};
use db_image::{Draft, ImageRead, RecordFault};
use std::alloc::Global;
use ubik_types::NoMemory;
use vldb_entries::{
    COUNT_AT, ENTRY, HEAD_LEN, LOCK_OP_AT, PLACES, RW_AT, SITES_FIELD, VlEntry, VlSite, entry_in,
    kind_of, site_in,
};

/// Which entries are listed: those with a site of a server on a partition.
#[derive(Clone, Copy)]
pub struct Listing {
    /// The server; 0 for any.
    pub host: u32,
    /// The partition; none for any.
    pub partition: Option<u32>,
    /// Whether only entries with a lock are listed.
    pub locked: bool,
}

/// Whether a site is on a partition; none for any.
fn is_on(partition: Option<u32>, site: &VlSite) -> bool
    ensures { result ≡ is_on partition site.now }
{
    match partition {
        Some(partition) => partition == site.partition,
        None => true,
    }
}

fn is_listed_site(listing: &Listing, site: &VlSite) -> bool
    ensures { result ≡ is_listed_site listing.now site.now }
{
    (listing.host == 0 || site.host == listing.host) && is_on(listing.partition, site)
}

/// Whether one of the sites in an entry's block is listed.
fn has_listed_site(listing: &Listing, addresses: &[u32; PLACES], block: &Block) -> bool
    ensures { result ≡ list_any (is_listed_site listing.now)
        (map (site_in addresses.now block.now) (range_with_len 0 (min SITES_FIELD (word_at block.now COUNT_AT)))) }
{
    let count = (word_at(block, COUNT_AT) as usize).min(SITES_FIELD);
    for k in 0..count {
        if is_listed_site(listing, &site_in(addresses, block, k)) {
            return true;
        }
    }
    false
}

/// What a scan for listed entries looks for: those with a read-write id above one, in the order of these ids.
#[derive(Clone, Copy)]
struct Listed<'a> {
    listing: Listing,
    after: u32,
    addresses: &'a [u32; PLACES],
}

impl<'a> Keyed for Listed<'a> {
    ghost use Rattle.vldb_records.specs.Listing.{is_listed_in, rw_in};
    ghost use Rattle.std.specs.Prelude.{true};

    ghost test = { λ wanted. is_listed_in wanted.listing wanted.after wanted.addresses.now };

    ghost key = { λ wanted. rw_in };

    ghost fits = { λ wanted block. true };

    fn fits(&self, _block: &Block) -> bool {
        true
    }

    #[tactic(auto, unfolding(vldb_entries::specs::Forms::entry_in))]
    fn is_met(&self, block: &Block) -> bool {
        kind_of(block) == ENTRY
            && (self.after < word_at(block, RW_AT)
                && (has_listed_site(&self.listing, self.addresses, block)
                    && (!self.listing.locked || word_at(block, LOCK_OP_AT) != 0)))
    }

    fn key_of(&self, block: &Block) -> u32 {
        word_at(block, RW_AT)
    }
}

/// The blocks of the first so many listed entries, where the servers have these addresses; an empty draft has none.
fn find_listed<I: ImageRead>(
    alloc: Global,
    d: &mut Draft<I>,
    wanted: &Listed<'_>,
    most: usize,
) -> Result<Vec<Block>, RecordFault>
    requires { d.old.len < 2 ^ 31 }
    ensures found { IfOk result (λ blocks. IfSome d.old.bytes (λ image. blocks.items ≡ first_blocks HEAD_LEN
        (is_listed_in wanted.now.listing wanted.now.after wanted.now.addresses.now) rw_in most (whole image))) }
    ensures few { IfOk result (λ blocks. length blocks.items ≤ most) }
    ensures fault { IfErr result (HasItsCause d.old.bytes) }
    ensures frame { OnlyLooks I.ImageRead d.old d.new (IsErrOf result RecordFault.DiskFault) }
    ensures cost { CostsAtMost I.ImageRead (d.old.len + BLOCK_LEN * most) d.old d.new }
{
    if d.len() == 0 {
        return Ok(Vec::new(alloc));
    }
    scan_first(alloc, d, HEAD_LEN as u32, wanted, most)
}

/// The entries of blocks, where the servers have these addresses.
fn entries_in(
    alloc: Global,
    addresses: &[u32; PLACES],
    blocks: &[Block],
) -> Result<Vec<VlEntry>, NoMemory>
    ensures { IfOk result (λ entries. entries.items ≡ map (entry_in addresses.now) blocks.now) }
{
    let mut entries = Vec::new(alloc);
    for block in blocks {
        let entry = entry_in(alloc, addresses, block)?;
        entries.push(entry)?;
    }
    Ok(entries)
}

/// The first so many listed entries with a read-write id above one, ascending by it, in one pass over the blocks: it asks for the addresses, for
/// each byte of the image once, and for the blocks that it lists.
pub fn first_listed<I: ImageRead>(
    alloc: Global,
    d: &mut Draft<I>,
    listing: &Listing,
    after: u32,
    most: usize,
) -> Result<Vec<VlEntry>, RecordFault>
    requires { d.old.len < 2 ^ 31 }
    ensures found { IfOk result (λ found. IfSome d.old.bytes (λ image. (s : Location) → Holds image s → AreListed s listing.now after most found.items)) }
    ensures small { IfOk result (λ found. AllByRecursion IsSmall found.items) }
    ensures few { IfOk result (λ found. length found.items ≤ most) }
    ensures fault { IfErr result (HasItsCause d.old.bytes) }
    ensures frame { OnlyLooks I.ImageRead d.old d.new (IsErrOf result RecordFault.DiskFault) }
    ensures cost { CostsAtMost I.ImageRead (ADDRESSES_LEN + d.old.len + BLOCK_LEN * most) d.old d.new }
{
    let addresses = addresses(d)?;
    let wanted = Listed {
        listing: *listing,
        after,
        addresses: &addresses,
    };
    let blocks = find_listed(alloc, d, &wanted, most)?;
    Ok(entries_in(alloc, &addresses, &blocks)?)
}
