//! Answers of the location database, as far as they count as answers.
ghost use Rattle.std.specs.Prelude.{◌≡◌, ℕ, List, [], Option, IfOk, IfSome, length, true};
ghost use Rattle.std.specs.List.{list_all};
ghost use Rattle.vl_calls.specs.declared.answers.VlAnswer.{VlAnswer};
ghost use Rattle.vldb_entries.specs.declared.entries.VlEntry.{VlEntry};
ghost use Rattle.vos_tool.specs.Answers.{IsAnyDone, IsEntry, IsId, IsPage, ascend, done_in, entry_in, hosts_in, id_in, if_good, is_entry, is_page, is_site, page_in};

use std::alloc::Global;
use tool_base::Reads;
use ubik_types::NoMemory;
use vl_calls::{CallKind, Entries, Hosts, VlAnswer, read_answer};
use vldb_entries::{VlEntry, VlSite};

/// The most bytes of the name of a volume.
pub const MAX_NAME: usize = 64;

/// The most sites of a volume.
pub const MAX_STORED_SITES: usize = 13;

/// The highest number of a partition.
pub const MAX_PARTITION: u32 = 255;

/// The highest id that is given to a volume: those of its read-only and its backup volume come behind it.
pub const MAX_ID: u32 = 2_147_483_645;

/// The answer that tells only that the call took place.
#[derive(Drop)]
pub struct Done;

impl Reads<()> for Done {
    ghost reads = { λ d bytes. done_in bytes };

    ghost keeps = { λ d. IsAnyDone };

    fn read(&self, alloc: Global, bytes: &[u8]) -> Result<Option<()>, NoMemory> {
        match read_answer(alloc, CallKind::Probe, bytes)? {
            Some(VlAnswer::Done) => Ok(Some(())),
            _ => Ok(None),
        }
    }
}

/// The first of the ids that were taken.
#[derive(Drop)]
pub struct NewId;

impl Reads<u32> for NewId {
    ghost reads = { λ n bytes. id_in bytes };

    ghost keeps = { λ n. IsId };

    fn read(&self, alloc: Global, bytes: &[u8]) -> Result<Option<u32>, NoMemory> {
        match read_answer(alloc, CallKind::GetNewVolumeId, bytes)? {
            Some(VlAnswer::Id(id)) if id <= MAX_ID => Ok(Some(id)),
            _ => Ok(None),
        }
    }
}

/// One entry.
#[derive(Drop)]
pub struct OneEntry;

impl Reads<VlEntry> for OneEntry {
    ghost reads = { λ o bytes. entry_in bytes };

    ghost keeps = { λ o. IsEntry };

    fn read(&self, alloc: Global, bytes: &[u8]) -> Result<Option<VlEntry>, NoMemory> {
        match read_answer(alloc, CallKind::GetEntryById, bytes)? {
            Some(VlAnswer::Entry(entry)) => Ok(good_entry(entry)),
            _ => Ok(None),
        }
    }
}

/// Entries of ascending ids above this one.
#[derive(Drop)]
pub struct Page {
    pub after: u32,
}

impl Reads<Entries> for Page {
    ghost reads = { λ p bytes. page_in p.after bytes };

    ghost keeps = { λ p. IsPage p.after };

    fn read(&self, alloc: Global, bytes: &[u8]) -> Result<Option<Entries>, NoMemory> {
        match read_answer(alloc, CallKind::ListAttributes, bytes)? {
            Some(VlAnswer::Entries(entries)) => Ok(good_page(self.after, entries)),
            _ => Ok(None),
        }
    }
}

/// Addresses of servers.
#[derive(Drop)]
pub struct Addresses;

impl Reads<Hosts> for Addresses {
    ghost reads = { λ a bytes. hosts_in bytes };

    ghost keeps = { λ a hosts. Unit {0} };

    fn read(&self, alloc: Global, bytes: &[u8]) -> Result<Option<Hosts>, NoMemory> {
        match read_answer(alloc, CallKind::GetAddrs, bytes)? {
            Some(VlAnswer::Hosts(hosts)) => Ok(Some(hosts)),
            _ => Ok(None),
        }
    }
}

/// The entry, where the database may have it.
fn good_entry(entry: VlEntry) -> Option<VlEntry>
    ensures value { result ≡ if_good is_entry entry }
    ensures limits { IfSome result IsEntry }
{
    if is_entry(&entry) { Some(entry) } else { None }
}

/// The entries, where they are a page behind an id.
fn good_page(after: u32, entries: Entries) -> Option<Entries>
    ensures value { result ≡ if_good (is_page after) entries }
    ensures limits { IfSome result (IsPage after) }
{
    if is_page(after, entries.as_slice()) {
        Some(entries)
    } else {
        None
    }
}

/// Whether the database may have the entry.
fn is_entry(entry: &VlEntry) -> bool
    ensures { result ≡ is_entry entry.now }
{
    entry.name.as_slice().len() <= MAX_NAME
        && entry.sites.as_slice().len() <= MAX_STORED_SITES
        && are_sites(entry.sites.as_slice())
}

fn are_sites(sites: &[VlSite]) -> bool
    ensures { result ≡ list_all is_site sites.now }
{
    sites.iter().all(|site| site.partition <= MAX_PARTITION)
}

/// Whether the entries are a page behind an id.
fn is_page(after: u32, entries: &[VlEntry]) -> bool
    ensures { result ≡ is_page after entries.now }
{
    are_entries(entries) && ascend(after, entries)
}

fn are_entries(entries: &[VlEntry]) -> bool
    ensures { result ≡ list_all is_entry entries.now }
{
    entries.iter().all(|entry| is_entry(entry))
}

/// Whether the ids ascend, each above this one.
fn ascend(after: u32, entries: &[VlEntry]) -> bool
    ensures { result ≡ ascend after entries.now }
{
    let mut last = after;
    for entry in entries {
        if entry.rw <= last {
            return false;
        }
        last = entry.rw;
    }
    true
}
