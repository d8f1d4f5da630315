//! What shows in an entry that a call gives, by itself.
ghost use Rattle.std.specs.Prelude.{◌≡◌, ◌==◌, ◌||◌, nat_lt};
ghost use Rattle.std.specs.List.{list_any};
ghost use Rattle.vl_service.specs.Entering.{IsSound, own_fault};
ghost use Rattle.vl_service.specs.Meaning.{is_bad_entry, max_id};

use crate::changing::MAX_VOLUME;
use crate::fitting::{MAX_STORED, has_repeat};
use crate::rules::{
    BAD_ENTRY, BAD_NAME, BAD_PARTITION, BAD_SERVER, NO_REPLICA, REPEATED_REPLICA, REPLICAS_FULL,
};
use vl_calls::GivenEntry;
use vldb_entries::{VlSite, has_equal_ids, is_name};

/// The flags that an entry may have: which of its volumes exist.
const ENTRY_FLAGS: u32 = 0x7000;

/// The flags that a site may have.
const SITE_FLAGS: u32 = 15;

/// The greatest number of a partition.
pub(crate) const MAX_PARTITION: u32 = 255;

/// Whether a site has no server.
fn is_nowhere(site: &VlSite) -> bool
    ensures value { result ≡ (site.now.host == 0) }
    ensures word { result ≡ (site.now.host == 0 || nat_lt 4294967295 site.now.host) }
{
    site.host == 0
}

/// Whether one of these sites has no server; an address is a word.
fn lacks_server(sites: &[VlSite]) -> bool
    ensures value { result ≡ list_any (λ site. site.host == 0) sites.now }
    ensures words { result ≡ list_any (λ site. site.host == 0 || nat_lt 4294967295 site.host) sites.now }
{
    sites.iter().any(|site| is_nowhere(site))
}

fn has_bad_partition(sites: &[VlSite]) -> bool
    ensures { result ≡ list_any (λ site. nat_lt 255 site.partition) sites.now }
{
    sites.iter().any(|site| site.partition > MAX_PARTITION)
}

fn has_bad_flags(sites: &[VlSite]) -> bool
    ensures { result ≡ list_any (λ site. nat_lt 15 site.flags) sites.now }
{
    sites.iter().any(|site| site.flags > SITE_FLAGS)
}

/// Whether the read-write id is none, or an id passes the greatest one.
fn has_bad_id(rw: u32, ro: u32, backup: u32, clone_id: u32) -> bool
    ensures { result ≡ (rw == 0 || nat_lt max_id rw || nat_lt max_id ro || nat_lt max_id backup || nat_lt max_id clone_id) }
{
    rw == 0 || rw > MAX_VOLUME || ro > MAX_VOLUME || backup > MAX_VOLUME || clone_id > MAX_VOLUME
}

/// Whether the ids or the flags of an entry are none.
fn is_bad_entry(e: &GivenEntry) -> bool
    ensures { result ≡ is_bad_entry e.now }
{
    has_bad_id(e.rw, e.ro, e.backup, e.clone_id)
        || has_equal_ids(e.rw, e.ro, e.backup)
        || e.flags & ENTRY_FLAGS != e.flags
        || has_bad_flags(e.sites.as_slice())
}

/// The rule of the first fault that shows in an entry alone.
pub(crate) fn own_fault(e: &GivenEntry) -> Option<u32>
    ensures value { result ≡ own_fault e.now }
    ensures sound { IsSound e.now result }
{
    let sites = e.sites.as_slice();
    if !is_name(e.name.as_slice()) {
        return Some(BAD_NAME);
    }
    if sites.len() > MAX_STORED {
        return Some(REPLICAS_FULL);
    }
    if sites.is_empty() {
        return Some(NO_REPLICA);
    }
    if lacks_server(sites) {
        return Some(BAD_SERVER);
    }
    if has_bad_partition(sites) {
        return Some(BAD_PARTITION);
    }
    if has_repeat(sites) {
        return Some(REPEATED_REPLICA);
    }
    if is_bad_entry(e) {
        return Some(BAD_ENTRY);
    }
    None
}
