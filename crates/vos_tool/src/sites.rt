//! Sites of an entry, added, taken away and moved.
ghost use Rattle.std.specs.Prelude.{◌≡◌, ◌+◌, ◌≤◌, IfOk, IfSome, length, position};
ghost use Rattle.vos_tool.specs.Sites.{changed_sites, is_read_write, is_replica_at, site_at};

use crate::places::{READ_ONLY, READ_WRITE};
use afs_commands::Place;
use call_grammar::Items;
use std::alloc::Global;
use ubik_types::NoMemory;
use vldb_entries::{SiteList, VlSite};

/// What is refused where a site is not there (VL_NOREPSERVER).
pub const NO_SUCH_SITE: u32 = 363_533;

/// How the sites of an entry change.
#[derive(Clone, Copy, Debug, PartialEq, Eq)]
pub enum SiteChange {
    /// One more read-only site, at the end.
    Add,
    /// The first read-only site at a place goes.
    Remove,
    /// The first read-write site goes to a place.
    Move,
}

/// A site at a place.
fn site_at(place: Place, flags: u32) -> VlSite
    ensures { result ≡ site_at place flags }
{
    VlSite {
        host: place.host,
        partition: place.partition,
        flags,
    }
}

/// The sites after a change; none where it finds no site that it would change.
pub fn changed_sites(
    change: SiteChange,
    place: Place,
    sites: SiteList,
) -> Result<Option<SiteList>, NoMemory>
    ensures value { IfOk result (λ changed. changed ≡ changed_sites change place sites) }
    ensures few { IfOk result (λ changed. IfSome changed (λ list. length list ≤ length sites + 1)) }
{
    let mut list = sites.into_vec();
    match change {
        SiteChange::Add => list.push(site_at(place, READ_ONLY))?,
        SiteChange::Remove => match replica_place(&list, place) {
            Some(at) => {
                list.remove(at);
            }
            None => return Ok(None),
        },
        SiteChange::Move => match read_write_place(&list) {
            Some(at) => {
                let flags = list[at].flags;
                list[at] = site_at(place, flags);
            }
            None => return Ok(None),
        },
    }
    Ok(Some(Items::new(list)))
}

/// Where the first read-only site at a place stands.
fn replica_place(sites: &[VlSite], place: Place) -> Option<usize>
    ensures { result ≡ position (is_replica_at place) sites.now }
{
    sites.iter().position(|site| {
        site.host == place.host && site.partition == place.partition && site.flags & READ_ONLY != 0
    })
}

/// Where the first read-write site stands.
fn read_write_place(sites: &[VlSite]) -> Option<usize>
    ensures { result ≡ position is_read_write sites.now }
{
    sites.iter().position(|site| site.flags & READ_WRITE != 0)
}
