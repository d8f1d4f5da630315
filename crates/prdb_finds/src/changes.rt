//! Changes of the head, over a draft. The first change of an empty draft writes the first image before it.
ghost use Rattle.std.specs.Prelude.{◌≡◌, ◌+◌, ◌++◌, ◌*◌, ◌<◌, ◌≤◌, ◌^◌, IfErr, IfOk, IfSome, IsErrOf, OnOk, OnErr, length, max};
ghost use Rattle.ubik_types.specs.Image.{changed};
ghost use Rattle.ubik_types.specs.declared.images.Change.TheVariants.{Put};
ghost use Rattle.db_image.specs.Draft.{StaysAsItWas, put_cost};
ghost use Rattle.db_image.specs.Images.{IsOfImage};
ghost use Rattle.db_blocks.specs.Ends.{Becomes};
ghost use Rattle.db_chains.specs.Ends.{DraftsAtMost};
ghost use Rattle.db_blocks.specs.Bytes.{word};
ghost use Rattle.prdb_layout.specs.Bytes.{bits};
ghost use Rattle.prdb_layout.specs.Registry.{AreMaxima, with_maxima};
ghost use Rattle.prdb_finds.specs.Changes.{after_set_maxima, maxima_cost};
ghost use Rattle.prdb_finds.specs.Ends.{HasItsCause, HoldsTheSame, Makes};
ghost use Rattle.prdb_finds.specs.Records.{whole};
ghost use Rattle.prdb_finds.specs.declared.places.TheConstants.{FIRST_LEN};

use crate::first::first_bytes;
use crate::heads::maxima;
use db_image::{Draft, ImageRead, RecordFault};
use prdb_layout::MAX_USER_AT;
use std::alloc::{AllocError, Global};
use ubik_types::WORD_LEN;

/// Writes the first image where the draft is empty.
#[tactic(auto, unfolding(crate::specs::Records::whole))]
pub fn make_whole<I: ImageRead>(alloc: Global, d: &mut Draft<I>) -> Result<(), RecordFault>
    ensures bytes { OnOk result (Becomes whole d.old d.new) }
    ensures told { IfSome d.old.bytes (λ image. length image ≡ d.old.len) }
    ensures empty { OnOk result (d.old.len ≡ 0 → d.new.len ≡ FIRST_LEN) }
    ensures stays { OnOk result (0 < d.old.len → d.new.len ≡ d.old.len) }
    ensures longer { d.old.len ≤ d.new.len }
    ensures same { OnErr result (StaysAsItWas d.old d.new) }
    ensures fault { IfErr result IsOfImage }
    ensures frame { DraftsAtMost I.ImageRead (put_cost d.old.layout FIRST_LEN) d.old d.new (IsErrOf result RecordFault.DiskFault) }
{
    if d.len() > 0 {
        return Ok(());
    }
    d.put(0, &first_bytes(alloc)?)
}

/// Lays bytes at a position, after the first image where the draft is empty.
fn put_whole<I: ImageRead>(
    alloc: Global,
    d: &mut Draft<I>,
    at: u32,
    bytes: &[u8],
) -> Result<(), RecordFault>
    requires len { d.old.len < 2 ^ 31 }
    requires within { at + length bytes.now ≤ max d.old.len FIRST_LEN }
    ensures bytes { OnOk result (Becomes (λ image. changed (whole image) (Put at bytes.now)) d.old d.new) }
    ensures len { OnOk result (d.new.len ≤ max d.old.len FIRST_LEN) }
    ensures longer { d.old.len ≤ d.new.len }
    ensures left { OnErr result (HoldsTheSame d.old d.new) }
    ensures fault { IfErr result IsOfImage }
    ensures frame { DraftsAtMost I.ImageRead (put_cost d.old.layout FIRST_LEN + put_cost d.old.layout (length bytes.now)) d.old d.new
        (IsErrOf result RecordFault.DiskFault) }
{
    make_whole(alloc, d)?;
    d.put(at, bytes)
}

/// The maxima as they stand in the head.
fn maxima_words(alloc: Global, user: i32, group: i32) -> Result<Vec<u8>, AllocError>
    ensures { IfOk result (λ words. words.items ≡ word (bits user) ++ word (bits group)) }
{
    let mut words = Vec::with_capacity(alloc, 2 * WORD_LEN)?;
    words.extend_from_slice(&user.cast_unsigned().to_be_bytes())?;
    words.extend_from_slice(&group.cast_unsigned().to_be_bytes())?;
    Ok(words)
}

/// Sets both maxima. No byte is changed where they are those that stand there.
pub fn set_maxima<I: ImageRead>(
    alloc: Global,
    d: &mut Draft<I>,
    user: i32,
    group: i32,
) -> Result<(), RecordFault>
    requires len { d.old.len < 2 ^ 31 }
    requires maxima { AreMaxima user group }
    ensures holds { OnOk result (Makes (λ r m. Unit {0}) (with_maxima user group) d.old d.new) }
    ensures bytes { OnOk result (Becomes (after_set_maxima user group) d.old d.new) }
    ensures len { OnOk result (d.new.len ≤ max d.old.len FIRST_LEN) }
    ensures longer { d.old.len ≤ d.new.len }
    ensures left { OnErr result (HoldsTheSame d.old d.new) }
    ensures fault { IfErr result (HasItsCause d.old.bytes) }
    ensures frame { DraftsAtMost I.ImageRead (maxima_cost d.old.layout) d.old d.new (IsErrOf result RecordFault.DiskFault) }
{
    if maxima(d)? == (user, group) {
        return Ok(());
    }
    let words = maxima_words(alloc, user, group)?;
    put_whole(alloc, d, MAX_USER_AT as u32, &words)
}
