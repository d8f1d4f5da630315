//! The head of the protection database's image: the two maxima.
ghost use Rattle.std.specs.Prelude.{◌≡◌, ◌*◌, ◌<◌, ◌^◌, ◌↔◌, IsTrue, IfSome, IfOk, IfErr, IsErrOf};
ghost use Rattle.db_chains.specs.Ends.{LooksAtMost};
ghost use Rattle.prdb_layout.specs.Records.{maxima_in};
ghost use Rattle.prdb_layout.specs.Registry.{AreMaxima, Registry};
ghost use Rattle.prdb_lists.specs.Members.{Members};
ghost use Rattle.prdb_finds.specs.Ends.{HasItsCause};
ghost use Rattle.prdb_finds.specs.Records.{Holds, whole};

use db_blocks::block_count;
use db_image::{Draft, ImageRead, RecordFault};
use entry_scans::signed_at;
use prdb_layout::{HEAD_LEN, MAX_GROUP, MAX_USER_AT};
use ubik_types::WORD_LEN;

/// Whether these are maxima that a registry may have.
fn are_maxima(user: i32, group: i32) -> bool
    ensures { IsTrue result ↔ AreMaxima user group }
{
    user >= 0 && group > i32::MIN && group < 0
}

/// The maximum user id and the maximum group id. A bad record stands at the first of them where one is out of range.
pub fn maxima<I: ImageRead>(d: &mut Draft<I>) -> Result<(i32, i32), RecordFault>
    requires { d.old.len < 2 ^ 31 }
    ensures found { IfOk result (λ found. IfSome d.old.bytes
        (λ image. (r : Registry) (m : Members) → Holds image r m → found ≡ (r.max_user, r.max_group))) }
    ensures exact { IfOk result (λ found. IfSome d.old.bytes (λ image. found ≡ maxima_in (whole image))) }
    ensures range { IfOk result (λ found. AreMaxima found.0 found.1) }
    ensures fault { IfErr result (HasItsCause d.old.bytes) }
    ensures frame { LooksAtMost I.ImageRead (2 * WORD_LEN) d.old d.new (IsErrOf result RecordFault.DiskFault) }
{
    if d.len() == 0 {
        return Ok((0, MAX_GROUP));
    }
    block_count(HEAD_LEN, d.len())?;
    let mut words = [0; 2 * WORD_LEN];
    d.read(MAX_USER_AT as u32, &mut words).done()?;
    let user = signed_at(&words, 0);
    let group = signed_at(&words, WORD_LEN);
    if !are_maxima(user, group) {
        return Err(RecordFault::BadRecord {
            at: MAX_USER_AT as u32,
        });
    }
    Ok((user, group))
}
