//! Entries as answers have them, with the numbers of their pairs, which their blocks tell.
ghost use Rattle.std.specs.Prelude.{◌≡◌, ◌≤◌, true, IfSome, IfOk, IfErr, IsErrOf, length};
ghost use Rattle.std.specs.Option.{option_map};
ghost use Rattle.db_blocks.specs.Ends.{OnlyLooks};
ghost use Rattle.entry_scans.specs.Views.{viewed};
ghost use Rattle.prdb_layout.specs.RecordEnds.{seen};
ghost use Rattle.prdb_finds.specs.Ends.{HasItsCause};
ghost use Rattle.prdb_finds.specs.Keys.{id_chain};
ghost use Rattle.prdb_finds.specs.Places.{id_links};
ghost use Rattle.pt_service.specs.Costs.{CostsOneChain};
ghost use Rattle.pt_service.specs.Fitting.{entry_fits};
ghost use Rattle.pt_service.specs.Meaning.{told, told_of};
ghost use Rattle.pt_looks.specs.Ends.{IsUnless};
ghost use Rattle.pt_looks.specs.Pages.{HasShortName, fits_in, told_in};
ghost use Rattle.pt_looks.specs.States.{OfStates};

use db_blocks::Block;
use db_image::{Draft, ImageRead, RecordFault};
use entry_scans::{EntryView, entry_in, pair_count_in};
use prdb_finds::find_link;
use prdb_layout::PrEntry;
use pt_calls::PtEntry;
use pt_service::{entry_of_id, is_group, is_id, is_name_of};
use std::alloc::Global;
use ubik_types::bytes_of;

/// Whether an entry is one that a database may hold: its id is one, and its name has the form that the id wants.
fn entry_fits(e: EntryView<'_>) -> bool
    ensures { result ≡ entry_fits (viewed e.entry) }
{
    let group = is_group(e.id);
    is_id(group, e.id) && is_name_of(group, e.name)
}

/// The entry in a block as an answer has it; a bad record at this position, where no database may hold it.
pub(crate) fn told_in(alloc: Global, block: &Block, at: u32) -> Result<PtEntry, RecordFault>
    ensures told { IfOk result (λ e. e ≡ told_in block.now) }
    ensures short { IfOk result HasShortName }
    ensures fault { IfErr result (IsUnless (fits_in block.now ≡ true)) }
{
    let e = entry_in(block);
    if !entry_fits(e) {
        return Err(RecordFault::BadRecord { at });
    }
    Ok(PtEntry {
        flags: e.flags,
        id: e.id,
        owner: e.owner,
        creator: e.creator,
        quota: e.quota,
        count: pair_count_in(block),
        name: bytes_of(alloc, e.name)?,
    })
}

/// An entry as an answer has it, which is paired with nobody.
fn told_alone(e: PrEntry) -> PtEntry
    ensures { result ≡ told 0 (seen e) }
{
    PtEntry {
        flags: e.flags,
        id: e.id,
        owner: e.owner,
        creator: e.creator,
        quota: e.quota,
        count: 0,
        name: e.name,
    }
}

/// The entry of an id as an answer has it, over the empty image, in which nobody is in a group.
fn told_first<I: ImageRead>(
    alloc: Global,
    d: &mut Draft<I>,
    id: i32,
) -> Result<Option<PtEntry>, RecordFault>
    requires len { d.old.len ≡ 0 }
    requires empty { IfSome d.old.bytes (λ image. length image ≡ 0) }
    ensures found { IfOk result (λ found. OfStates d.old.bytes (λ s. found ≡ option_map (told_of s) (s.registry.entry id))) }
    ensures short { IfOk result (λ found. IfSome found HasShortName) }
    ensures fault { IfErr result (HasItsCause d.old.bytes) }
    ensures frame { OnlyLooks I.ImageRead d.old d.new (IsErrOf result RecordFault.DiskFault) }
    ensures cost { CostsOneChain I.ImageRead id_links (id_chain id) d.old d.new }
{
    let Some(e) = entry_of_id(alloc, d, id)? else {
        return Ok(None);
    };
    Ok(Some(told_alone(e)))
}

/// The entry of an id as an answer has it. Its block is found along the chain of the id, and tells the number of its pairs. Where the image
/// has the one chain of the id, it asks for a word and each block of that chain at most.
pub(crate) fn told_of_id<I: ImageRead>(
    alloc: Global,
    d: &mut Draft<I>,
    id: i32,
) -> Result<Option<PtEntry>, RecordFault>
    requires { d.old.len ≤ 16777216 }
    ensures found { IfOk result (λ found. OfStates d.old.bytes (λ s. found ≡ option_map (told_of s) (s.registry.entry id))) }
    ensures short { IfOk result (λ found. IfSome found HasShortName) }
    ensures fault { IfErr result (HasItsCause d.old.bytes) }
    ensures frame { OnlyLooks I.ImageRead d.old d.new (IsErrOf result RecordFault.DiskFault) }
    ensures cost { CostsOneChain I.ImageRead id_links (id_chain id) d.old d.new }
{
    if d.len() == 0 {
        return told_first(alloc, d, id);
    }
    let Some(link) = find_link(d, id)? else {
        return Ok(None);
    };
    let entry = told_in(alloc, &link.block, d.len())?;
    Ok(Some(entry))
}
