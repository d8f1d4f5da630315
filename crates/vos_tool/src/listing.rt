//! `listvldb`, `unlockvldb`.
ghost use Rattle.std.specs.Prelude.{◌≡◌, IfOk};
ghost use Rattle.std.specs.List.{flat_map};
ghost use Rattle.tool_base.specs.Running.{Ran};
ghost use Rattle.vos_tool.specs.Listing.{any_partition, entries_text, filter_of, in_order, listing_text, listvldb_text, one_text, released_text, releases_each, total_text, unlockvldb_text};
ghost use Rattle.vos_tool.specs.Texts.{entry_text};

use crate::locks::release_lock;
use crate::ordering::by_name;
use crate::paging::entries_of;
use crate::texts::{count_text, entry_text};
use crate::volumes::volume_entry;
use afs_commands::{SiteFilter, Style, Volume};
use io_base::Link;
use std::alloc::Global;
use tool_base::{Client, Stop, joined};
use ubik_types::{Bytes, NoMemory};
use vl_calls::Entries;
use vldb_entries::VlEntry;

/// Which entries are listed: those that have a site of this host (0 for any) on this partition (-1 for any), and of
/// these all or only the locked ones.
#[derive(Clone, Copy, Debug, PartialEq, Eq)]
pub struct Filter {
    pub host: u32,
    pub partition: i32,
    pub locked: bool,
}

impl Filter {
    /// Those that have one of these sites, all or only the locked ones.
    pub fn of(sites: SiteFilter, locked: bool) -> Filter
        ensures { result ≡ filter_of sites locked }
    {
        Filter {
            host: sites.server.unwrap_or(0),
            partition: any_partition(sites.partition),
            locked,
        }
    }
}

/// A partition, or -1 for any. None is above 255.
fn any_partition(partition: Option<u32>) -> i32
    ensures { result ≡ any_partition partition }
{
    match partition {
        Some(partition) => partition.min(255) as i32,
        None => -1,
    }
}

/// `listvldb`: the entry of one volume, or all that a filter lets through.
pub fn list<L: Link>(
    client: &mut Client<'_>,
    link: &mut L,
    volume: &Option<Volume>,
    filter: Filter,
    style: Style,
) -> Result<Bytes, Stop>
    ensures { Ran (listvldb_text volume.now filter style) client.old client.new (L.exchanges link.old) (L.exchanges link.new) result }
{
    match volume {
        Some(volume) => list_one(client, link, volume),
        None => list_all(client, link, filter, style),
    }
}

/// `listvldb` of one volume.
fn list_one<L: Link>(client: &mut Client<'_>, link: &mut L, volume: &Volume) -> Result<Bytes, Stop>
    ensures { Ran (one_text volume.now) client.old client.new (L.exchanges link.old) (L.exchanges link.new) result }
{
    let entry = volume_entry(client, link, volume)?;
    let text = entry_text(client.alloc(), &entry)?;
    Ok(text)
}

/// `listvldb` of all that a filter lets through.
fn list_all<L: Link>(
    client: &mut Client<'_>,
    link: &mut L,
    filter: Filter,
    style: Style,
) -> Result<Bytes, Stop>
    ensures { Ran (listing_text filter style) client.old client.new (L.exchanges link.old) (L.exchanges link.new) result }
{
    let entries = entries_of(client, link, filter)?;
    let text = entries_text(client.alloc(), style, entries)?;
    Ok(text)
}

/// The entries as they are listed.
fn entries_text(alloc: Global, style: Style, entries: Entries) -> Result<Bytes, NoMemory>
    ensures { IfOk result (λ text. text ≡ entries_text style entries) }
{
    let total = total_text(alloc, style, entries.as_slice().len())?;
    let entries = in_order(style, entries.into_vec())?;
    let mut text = entry_texts(alloc, entries.as_slice())?.into_vec();
    text.extend_from_slice(total.as_slice())?;
    Ok(Bytes::new(text))
}

fn entry_texts(alloc: Global, entries: &[VlEntry]) -> Result<Bytes, NoMemory>
    ensures { IfOk result (λ text. text ≡ flat_map entry_text entries.now) }
{
    let mut text = Vec::new(alloc);
    for entry in entries {
        text.extend_from_slice(entry_text(alloc, entry)?.as_slice())?;
    }
    Ok(Bytes::new(text))
}

fn in_order(style: Style, entries: Vec<VlEntry>) -> Result<Vec<VlEntry>, NoMemory>
    ensures { IfOk result (λ ordered. ordered.items ≡ in_order style entries.items) }
{
    if style.unsorted {
        Ok(entries)
    } else {
        by_name(entries)
    }
}

/// The line of the number of entries.
fn total_text(alloc: Global, style: Style, count: usize) -> Result<Bytes, NoMemory>
    ensures { IfOk result (λ text. text ≡ total_text style count) }
{
    if style.quiet {
        return Ok(Bytes::new(Vec::new(alloc)));
    }
    let count = count_text(alloc, count)?;
    joined(alloc, &[b"Total entries: ", count.as_bytes(), b"\n"])
}

/// `unlockvldb`: the text, once the locks of all locked entries that a filter lets through are released.
pub fn unlock_all<L: Link>(
    client: &mut Client<'_>,
    link: &mut L,
    filter: Filter,
) -> Result<Bytes, Stop>
    ensures { Ran (unlockvldb_text filter) client.old client.new (L.exchanges link.old) (L.exchanges link.new) result }
{
    let entries = entries_of(client, link, filter)?;
    let found = entries.as_slice();
    release_each(client, link, found)?;
    let text = released_text(client.alloc(), found.len())?;
    Ok(text)
}

/// What is told of locks that were released.
fn released_text(alloc: Global, count: usize) -> Result<Bytes, NoMemory>
    ensures { IfOk result (λ text. text ≡ released_text count) }
{
    let count = count_text(alloc, count)?;
    joined(alloc, &[b"Locks released: ", count.as_bytes(), b"\n"])
}

fn release_each<L: Link>(
    client: &mut Client<'_>,
    link: &mut L,
    entries: &[VlEntry],
) -> Result<(), Stop>
    ensures { Ran (releases_each entries.now) client.old client.new (L.exchanges link.old) (L.exchanges link.new) result }
{
    for entry in entries {
        release_lock(client, link, entry.rw)?;
    }
    Ok(())
}
