//! The call that lists entries by where they lie, over a draft.
ghost use Rattle.std.specs.Prelude.{◌≡◌, ◌+◌, ◌*◌, ◌<◌, ◌≤◌, ◌^◌, IfSome, IfOk, IfErr, IsErrOf, length};
ghost use Rattle.std.specs.List.{AllByRecursion};
ghost use Rattle.db_image.specs.Ends.{IsDecided, end_of};
ghost use Rattle.db_blocks.specs.Ends.{OnlyLooks};
ghost use Rattle.db_blocks.specs.declared.blocks.TheConstants.{BLOCK_LEN};
ghost use Rattle.db_chains.specs.Ends.{CostsAtMost};
ghost use Rattle.vldb_entries.specs.declared.layout.TheConstants.{ADDRESSES_LEN};
ghost use Rattle.vldb_records.specs.Ends.{HasItsCause};
ghost use Rattle.vldb_entries.specs.Location.{Location, IsSmall};
ghost use Rattle.vldb_records.specs.Records.{Holds};
ghost use Rattle.vl_calls.specs.declared.limits.TheConstants.{MAX_PAGE};
ghost use Rattle.vl_service.specs.Meaning.{is_partition, page, reply_by};
ghost use Rattle.vl_service.specs.Pages.{listing_of, page_of};

use crate::given::MAX_PARTITION;
use crate::looks::tell;
use crate::rules::BAD_PARTITION;
use call_grammar::Items;
use db_image::{CallEnd, Draft, ImageRead, RecordFault};
use std::alloc::Global;
use vl_calls::{Entries, MAX_PAGE, VlAnswer};
use vldb_records::{Listing, first_listed};

/// Whether a partition is one; -1 for any.
fn is_partition(partition: i32) -> bool
    ensures { result ≡ is_partition partition }
{
    partition >= -1 && partition <= MAX_PARTITION as i32
}

/// The partition that is asked for; none for any.
fn listing_of(host: u32, partition: i32, locked: bool) -> Listing
    ensures { result ≡ listing_of host partition locked }
{
    let partition = if partition < 0 {
        None
    } else {
        Some(partition as u32)
    };
    Listing {
        host,
        partition,
        locked,
    }
}

/// The first hundred listed entries with a read-write id above one, ascending by it.
fn listed<I: ImageRead>(
    alloc: Global,
    d: &mut Draft<I>,
    listing: &Listing,
    after: u32,
) -> Result<Entries, RecordFault>
    requires { d.old.len < 2 ^ 31 }
    ensures found { IfOk result (λ found. IfSome d.old.bytes (λ image. (s : Location) → Holds image s → found ≡ page_of listing.now after s)) }
    ensures small { IfOk result (AllByRecursion IsSmall) }
    ensures count { IfOk result (λ found. length found ≤ MAX_PAGE) }
    ensures fault { IfErr result (HasItsCause d.old.bytes) }
    ensures frame { OnlyLooks I.ImageRead d.old d.new (IsErrOf result RecordFault.DiskFault) }
    ensures cost { CostsAtMost I.ImageRead (ADDRESSES_LEN + d.old.len + BLOCK_LEN * MAX_PAGE) d.old d.new }
{
    let entries = first_listed(alloc, d, listing, after, MAX_PAGE as usize)?;
    Ok(Items::new(entries))
}

/// Tells the first hundred entries with a read-write id above one and a site of a server, 0 for any, on a partition, -1 for any;
/// where `locked`, only entries that are. It is one pass over the blocks: it asks for the addresses, for each byte of the image once, and for a
/// hundred blocks more at most.
pub fn list_entries<I: ImageRead>(
    alloc: Global,
    d: &mut Draft<I>,
    after: u32,
    host: u32,
    partition: i32,
    locked: bool,
) -> Result<CallEnd, RecordFault>
    requires { d.old.len < 2 ^ 31 }
    ensures meant { IfOk result (λ end. IfSome d.old.bytes (λ image. (s : Location) → Holds image s
        → end ≡ end_of (reply_by (page s after host partition locked)))) }
    ensures short { IfOk result IsDecided }
    ensures fault { IfErr result (HasItsCause d.old.bytes) }
    ensures frame { OnlyLooks I.ImageRead d.old d.new (IsErrOf result RecordFault.DiskFault) }
    ensures cost { CostsAtMost I.ImageRead (ADDRESSES_LEN + d.old.len + BLOCK_LEN * MAX_PAGE) d.old d.new }
{
    if !is_partition(partition) {
        return Ok(CallEnd::Rule(BAD_PARTITION));
    }
    let entries = listed(alloc, d, &listing_of(host, partition, locked), after)?;
    let end = tell(alloc, &VlAnswer::Entries(entries))?;
    Ok(end)
}
