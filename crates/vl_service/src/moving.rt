//! The call that gives a server another address, over a draft.
ghost use Rattle.std.specs.Prelude.{◌≡◌, ◌==◌, ◌&&◌, ◌<◌, ◌≤◌, ◌^◌, IfSome, IfOk, IfErr, IsErrOf, not};
ghost use Rattle.std.specs.List.{list_any};
ghost use Rattle.db_image.specs.Ends.{IsDecided};
ghost use Rattle.db_blocks.specs.Ends.{OnlyDrafts, OnlyLooks};
ghost use Rattle.vldb_records.specs.Ends.{HasItsCause};
ghost use Rattle.vldb_entries.specs.Location.{Location};
ghost use Rattle.vldb_records.specs.Records.{Holds};
ghost use Rattle.vl_service.specs.Meaning.{address_changed, entries, has_site_at, with_place_of};
ghost use Rattle.vl_service.specs.Moving.{IsMovement};
ghost use Rattle.vl_service.specs.Standing.{IsDone};

use crate::looks::tell;
use crate::placing::{is_among, place_of};
use crate::rules::{BAD_ENTRY, BAD_SERVER, NO_ENTRY};
use db_image::{CallEnd, Draft, ImageRead, RecordFault};
use std::alloc::Global;
use vl_calls::VlAnswer;
use vldb_entries::PLACES;
use vldb_records::{Listing, addresses, first_listed, set_addresses};

/// Whether an address is a server's; 0 is none's.
fn has_address(addresses: &[u32; PLACES], host: u32) -> bool
    ensures { result ≡ (not (host == 0) && list_any (λ a. a == host) addresses.now) }
{
    host != 0 && is_among(addresses, host)
}

/// The addresses with another one in the place of one.
fn with_place_of(mut addresses: [u32; PLACES], old: u32, new: u32) -> [u32; PLACES]
    ensures { result ≡ with_place_of old new addresses }
{
    if let Some(place) = place_of(&addresses, old) {
        addresses[place] = new;
    }
    addresses
}

/// Whether an entry has a site of a server.
fn has_site_at<I: ImageRead>(
    alloc: Global,
    d: &mut Draft<I>,
    host: u32,
) -> Result<bool, RecordFault>
    requires len { d.old.len < 2 ^ 31 }
    requires host { 0 < host }
    ensures found { IfOk result (λ found. IfSome d.old.bytes (λ image. (s : Location) → Holds image s → found ≡ list_any (has_site_at host) (entries s))) }
    ensures fault { IfErr result (HasItsCause d.old.bytes) }
    ensures frame { OnlyLooks I.ImageRead d.old d.new (IsErrOf result RecordFault.DiskFault) }
{
    let listing = Listing {
        host,
        partition: None,
        locked: false,
    };
    let first = first_listed(alloc, d, &listing, 0, 1)?;
    Ok(!first.as_slice().is_empty())
}

/// Whether an address would go of which an entry has a site.
fn loses_site<I: ImageRead>(
    alloc: Global,
    d: &mut Draft<I>,
    old: u32,
    new: u32,
) -> Result<bool, RecordFault>
    requires len { d.old.len < 2 ^ 31 }
    requires old { 0 < old }
    ensures found { IfOk result (λ found. IfSome d.old.bytes (λ image. (s : Location) → Holds image s
        → found ≡ (new == 0 && list_any (has_site_at old) (entries s)))) }
    ensures fault { IfErr result (HasItsCause d.old.bytes) }
    ensures frame { OnlyLooks I.ImageRead d.old d.new (IsErrOf result RecordFault.DiskFault) }
{
    if new != 0 {
        return Ok(false);
    }
    has_site_at(alloc, d, old)
}

/// What is decided of another address of a server.
#[derive(Clone, Copy)]
enum Movement {
    /// It is refused by a rule.
    Refused(u32),
    /// The addresses of the servers are to be these.
    Moves([u32; PLACES]),
}

/// Decides of another address of a server.
fn decide<I: ImageRead>(
    alloc: Global,
    d: &mut Draft<I>,
    old: u32,
    new: u32,
) -> Result<Movement, RecordFault>
    requires { d.old.len < 2 ^ 31 }
    ensures decided { IfOk result (λ movement. IfSome d.old.bytes (λ image. (s : Location) → Holds image s → IsMovement s old new movement)) }
    ensures fault { IfErr result (HasItsCause d.old.bytes) }
    ensures frame { OnlyLooks I.ImageRead d.old d.new (IsErrOf result RecordFault.DiskFault) }
{
    let places = addresses(d)?;
    if !has_address(&places, old) {
        return Ok(Movement::Refused(NO_ENTRY));
    }
    if has_address(&places, new) {
        return Ok(Movement::Refused(BAD_SERVER));
    }
    if loses_site(alloc, d, old, new)? {
        return Ok(Movement::Refused(BAD_ENTRY));
    }
    Ok(Movement::Moves(with_place_of(places, old, new)))
}

/// Gives a server another address, or none: 0. Each site at the old address is at the new one from then on.
pub fn change_address<I: ImageRead>(
    alloc: Global,
    d: &mut Draft<I>,
    old: u32,
    new: u32,
) -> Result<CallEnd, RecordFault>
    requires { d.old.len ≤ 16777216 }
    ensures meant { IfOk result (λ end. IfSome d.old.bytes (λ image. (s : Location) → Holds image s
        → IsDone (address_changed s old new) s image end d.new.bytes)) }
    ensures longer { d.old.len ≤ d.new.len }
    ensures short { IfOk result IsDecided }
    ensures fault { IfErr result (HasItsCause d.old.bytes) }
    ensures frame { OnlyDrafts I.ImageRead d.old d.new (IsErrOf result RecordFault.DiskFault) }
{
    match decide(alloc, d, old, new)? {
        Movement::Refused(fault) => Ok(CallEnd::Rule(fault)),
        Movement::Moves(places) => {
            let end = tell(alloc, &VlAnswer::Done)?;
            set_addresses(alloc, d, &places)?;
            Ok(end)
        }
    }
}
