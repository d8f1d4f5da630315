//! Whether an entry may be stored.
ghost use Rattle.std.specs.Prelude.{◌≡◌};
ghost use Rattle.std.specs.List.{list_all, list_any};
ghost use Rattle.vldb_entries.specs.Location.{has_repeat, repeats};
ghost use Rattle.vl_service.specs.Fitting.{entry_fits, ids_fit, site_fits, sites_fit};

use crate::changing::MAX_VOLUME;
use vldb_entries::{VlEntry, VlSite, has_equal_ids, is_name, repeats};

/// The most sites of an entry that is stored.
pub(crate) const MAX_STORED: usize = 13;

fn site_fits(site: &VlSite) -> bool
    ensures { result ≡ site_fits site.now }
{
    site.host != 0 && site.partition <= 255 && site.flags <= 255
}

fn each_fits(sites: &[VlSite]) -> bool
    ensures { result ≡ list_all site_fits sites.now }
{
    sites.iter().all(|site| site_fits(site))
}

fn repeats_any(site: &VlSite, others: &[VlSite]) -> bool
    ensures { result ≡ list_any (repeats site.now) others.now }
{
    others.iter().any(|other| repeats(site, other))
}

/// Whether the same volume lies on two of these sites that are on one partition of one server.
pub(crate) fn has_repeat(sites: &[VlSite]) -> bool
    ensures { result ≡ has_repeat sites.now }
{
    let mut rest = sites;
    while let [site, others @ ..] = rest {
        if repeats_any(site, others) {
            return true;
        }
        rest = others;
    }
    false
}

fn sites_fit(sites: &[VlSite]) -> bool
    ensures { result ≡ sites_fit sites.now }
{
    sites.len() <= MAX_STORED && each_fits(sites) && !has_repeat(sites)
}

fn ids_fit(rw: u32, ro: u32, backup: u32, clone_id: u32) -> bool
    ensures { result ≡ ids_fit rw ro backup clone_id }
{
    rw != 0
        && rw <= MAX_VOLUME
        && ro <= MAX_VOLUME
        && backup <= MAX_VOLUME
        && clone_id <= MAX_VOLUME
}

/// Whether an entry is one that the database may hold.
pub(crate) fn entry_fits(e: &VlEntry) -> bool
    ensures { result ≡ entry_fits e.now }
{
    is_name(e.name.as_slice())
        && ids_fit(e.rw, e.ro, e.backup, e.clone_id)
        && !has_equal_ids(e.rw, e.ro, e.backup)
        && sites_fit(e.sites.as_slice())
}
