//! Changes of the location database over a draft. The first one of an empty draft writes the head before it.
ghost use Rattle.std.specs.Prelude.{◌≡◌, ◌+◌, ◌<◌, ◌≤◌, ◌^◌, IfErr, IsErrOf, OnOk, OnErr, length, max};
ghost use Rattle.ubik_types.specs.Image.{changed};
ghost use Rattle.ubik_types.specs.declared.images.Change.TheVariants.{Put};
ghost use Rattle.db_image.specs.Draft.{StaysAsItWas, put_cost};
ghost use Rattle.db_image.specs.Images.{IsOfImage};
ghost use Rattle.db_blocks.specs.Ends.{Becomes, OnlyDrafts};
ghost use Rattle.db_chains.specs.Ends.{CostsAtMost};
ghost use Rattle.vldb_records.specs.Ends.{HoldsTheSame, HasItsCause, Makes};
ghost use Rattle.vldb_entries.specs.Location.{MayBePlaces, with_next_volume, with_places};
ghost use Rattle.vldb_entries.specs.Forms.{whole};
ghost use Rattle.vldb_records.specs.Changes.{after_set_next, after_set_places};
ghost use Rattle.vldb_entries.specs.declared.layout.TheConstants.{HEAD_LEN};

use crate::heads::next_volume;
use db_image::{Draft, ImageRead, RecordFault};
use std::alloc::Global;
use vldb_entries::{ADDRESSES_AT, NEXT_AT, PLACES, address_words, first_head};

/// Writes the first head where the draft is empty.
#[tactic(auto, unfolding(vldb_entries::specs::Forms::whole))]
pub(crate) fn make_whole<I: ImageRead>(alloc: Global, d: &mut Draft<I>) -> Result<(), RecordFault>
    ensures bytes { OnOk result (Becomes whole d.old d.new) }
    ensures empty { OnOk result (d.old.len ≡ 0 → d.new.len ≡ HEAD_LEN) }
    ensures stays { OnOk result (0 < d.old.len → d.new.len ≡ d.old.len) }
    ensures longer { d.old.len ≤ d.new.len }
    ensures same { OnErr result (StaysAsItWas d.old d.new) }
    ensures fault { IfErr result IsOfImage }
    ensures frame { OnlyDrafts I.ImageRead d.old d.new (IsErrOf result RecordFault.DiskFault) }
    ensures cost { CostsAtMost I.ImageRead (put_cost d.old.layout HEAD_LEN) d.old d.new }
{
    if d.len() > 0 {
        return Ok(());
    }
    d.put(0, &first_head(alloc)?)
}

/// Lays bytes at a position, behind the first head where the draft is empty.
fn put_whole<I: ImageRead>(
    alloc: Global,
    d: &mut Draft<I>,
    at: u32,
    bytes: &[u8],
) -> Result<(), RecordFault>
    requires len { d.old.len < 2 ^ 31 }
    requires within { at + length bytes.now ≤ max d.old.len HEAD_LEN }
    ensures bytes { OnOk result (Becomes (λ image. changed (whole image) (Put at bytes.now)) d.old d.new) }
    ensures len { OnOk result (d.new.len ≤ max d.old.len HEAD_LEN) }
    ensures longer { d.old.len ≤ d.new.len }
    ensures left { OnErr result (HoldsTheSame d.old d.new) }
    ensures fault { IfErr result IsOfImage }
    ensures frame { OnlyDrafts I.ImageRead d.old d.new (IsErrOf result RecordFault.DiskFault) }
{
    make_whole(alloc, d)?;
    d.put(at, bytes)
}

/// Sets the next volume id. No byte is changed where it is the one that stands there.
pub fn set_next_volume<I: ImageRead>(
    alloc: Global,
    d: &mut Draft<I>,
    id: u32,
) -> Result<(), RecordFault>
    requires { d.old.len < 2 ^ 31 }
    ensures holds { OnOk result (Makes (λ s. Unit {0}) (with_next_volume id) d.old d.new) }
    ensures bytes { OnOk result (Becomes (after_set_next id) d.old d.new) }
    ensures len { OnOk result (d.new.len ≤ max d.old.len HEAD_LEN) }
    ensures longer { d.old.len ≤ d.new.len }
    ensures left { OnErr result (HoldsTheSame d.old d.new) }
    ensures fault { IfErr result (HasItsCause d.old.bytes) }
    ensures frame { OnlyDrafts I.ImageRead d.old d.new (IsErrOf result RecordFault.DiskFault) }
{
    if next_volume(d)? == id {
        return Ok(());
    }
    put_whole(alloc, d, NEXT_AT as u32, &id.to_be_bytes())
}

/// Gives the places of the servers these addresses. Each site of the database is at the address of its place from then on.
pub fn set_addresses<I: ImageRead>(
    alloc: Global,
    d: &mut Draft<I>,
    addresses: &[u32; PLACES],
) -> Result<(), RecordFault>
    requires { d.old.len < 2 ^ 31 }
    ensures holds { OnOk result (Makes (MayBePlaces addresses.now) (with_places addresses.now) d.old d.new) }
    ensures bytes { OnOk result (Becomes (after_set_places addresses.now) d.old d.new) }
    ensures len { OnOk result (d.new.len ≤ max d.old.len HEAD_LEN) }
    ensures longer { d.old.len ≤ d.new.len }
    ensures left { OnErr result (HoldsTheSame d.old d.new) }
    ensures fault { IfErr result IsOfImage }
    ensures frame { OnlyDrafts I.ImageRead d.old d.new (IsErrOf result RecordFault.DiskFault) }
{
    let words = address_words(alloc, addresses)?;
    put_whole(alloc, d, ADDRESSES_AT as u32, &words)
}
