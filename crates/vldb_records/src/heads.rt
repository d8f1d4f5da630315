//! The head of the location database's image: the next volume id, and the addresses of the servers.
ghost use Rattle.std.specs.Prelude.{◌≡◌, ◌+◌, ◌*◌, ◌<◌, ◌≤◌, ◌^◌, IfSome, IfOk, IfErr, IsErrOf, map, take, drop};
ghost use Rattle.std.specs.List.{range_with_len};
ghost use Rattle.db_image.specs.Images.{IsOfImage};
ghost use Rattle.db_blocks.specs.Blocks.{word_at};
ghost use Rattle.db_chains.specs.Ends.{LooksAtMost};
ghost use Rattle.vldb_entries.specs.Location.{Location};
ghost use Rattle.vldb_entries.specs.Forms.{addresses_in, next_in, whole};
ghost use Rattle.vldb_records.specs.Records.{Holds};
ghost use Rattle.vldb_records.specs.Ends.{HasItsCause};
ghost use Rattle.vldb_entries.specs.declared.layout.TheConstants.{ADDRESSES_AT, ADDRESSES_LEN, HEAD_LEN};

use db_blocks::{block_count, word_at};
use db_image::{Draft, ImageRead, RecordFault};
use ubik_types::WORD_LEN;
use vldb_entries::{ADDRESSES_AT, ADDRESSES_LEN, FIRST_VOLUME, HEAD_LEN, NEXT_AT, PLACES};

/// The next volume id.
pub fn next_volume<I: ImageRead>(d: &mut Draft<I>) -> Result<u32, RecordFault>
    requires { d.old.len < 2 ^ 31 }
    ensures found { IfOk result (λ found. IfSome d.old.bytes (λ image. (s : Location) → Holds image s → found ≡ s.next_volume)) }
    ensures exact { IfOk result (λ found. IfSome d.old.bytes (λ image. found ≡ next_in (whole image))) }
    ensures fault { IfErr result (HasItsCause d.old.bytes) }
    ensures frame { LooksAtMost I.ImageRead WORD_LEN d.old d.new (IsErrOf result RecordFault.DiskFault) }
{
    if d.len() == 0 {
        return Ok(FIRST_VOLUME);
    }
    block_count(HEAD_LEN as u32, d.len())?;
    let mut word = [0; WORD_LEN];
    d.read(NEXT_AT as u32, &mut word).done()?;
    Ok(word_at(&word, 0))
}

/// The addresses of the servers by their places, of which the first has the number 1; 0 where a place is free.
pub fn addresses<I: ImageRead>(d: &mut Draft<I>) -> Result<[u32; PLACES], RecordFault>
    requires { d.old.len < 2 ^ 31 }
    ensures found { IfOk result (λ found. IfSome d.old.bytes (λ image. (s : Location) → Holds image s → found ≡ s.addresses)) }
    ensures exact { IfOk result (λ found. IfSome d.old.bytes (λ image. found ≡ addresses_in (whole image))) }
    ensures fault { IfErr result (HasItsCause d.old.bytes) }
    ensures frame { LooksAtMost I.ImageRead ADDRESSES_LEN d.old d.new (IsErrOf result RecordFault.DiskFault) }
{
    if d.len() == 0 {
        return Ok([0; PLACES]);
    }
    block_count(HEAD_LEN as u32, d.len())?;
    places(d)
}

/// The addresses of the servers in an image that has a head.
pub(crate) fn places<I: ImageRead>(d: &mut Draft<I>) -> Result<[u32; PLACES], RecordFault>
    requires { HEAD_LEN ≤ d.old.len }
    ensures exact { IfOk result (λ found. IfSome d.old.bytes (λ image. found ≡ addresses_in (whole image))) }
    ensures fault { IfErr result IsOfImage }
    ensures frame { LooksAtMost I.ImageRead ADDRESSES_LEN d.old d.new (IsErrOf result RecordFault.DiskFault) }
{
    let _len = d.len();
    let mut bytes = [0; ADDRESSES_LEN];
    d.read(ADDRESSES_AT as u32, &mut bytes).done()?;
    Ok(words_in(&bytes))
}

/// The words of these bytes.
fn words_in(bytes: &[u8; ADDRESSES_LEN]) -> [u32; PLACES]
    ensures { result ≡ map (λ k. word_at bytes.now (4 * k)) (range_with_len 0 PLACES) }
{
    let mut words = [0; PLACES];
    for k in 0..PLACES {
        words[k] = word_at(bytes, WORD_LEN * k);
    }
    words
}
