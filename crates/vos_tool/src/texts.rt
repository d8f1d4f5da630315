//! The parts of the texts.
ghost use Rattle.std.specs.Prelude.{◌≡◌, ◌++◌, IfOk, OnOk, length};
ghost use Rattle.std.specs.Fmt.{decimal};
ghost use Rattle.std.specs.List.{flat_map};
ghost use Rattle.std.specs.String.{string_bytes};
ghost use Rattle.vos_tool.specs.Texts.{dotted, entry_text, has_flag, id_text, ids_text, letters, lock_mark, new_mark, partition_text, place_text, site_kind, site_text, sites_text, volume_line};

use crate::places::{READ_ONLY, READ_WRITE};
use afs_commands::Place;
use std::alloc::Global;
use tool_base::{at_left, joined, number_text};
use ubik_types::{Bytes, NoMemory, bytes_of};
use vldb_entries::{VlEntry, VlSite};

/// How many places the text of an id has.
const ID_PLACES: usize = 10;

/// The flags of an entry: its read-write, its read-only, its backup volume exists.
const HAS_READ_WRITE: u32 = 0x1000;

const HAS_READ_ONLY: u32 = 0x2000;

const HAS_BACKUP: u32 = 0x4000;

/// The flag of a site that is new.
const NEW_REPLICA: u32 = 1;

/// A count in decimal.
pub fn count_text(alloc: Global, count: usize) -> Result<String, NoMemory>
    ensures { IfOk result (λ text. string_bytes text ≡ decimal count) }
{
    let mut text = String::new(alloc);
    write!(text, "{}", count)?;
    Ok(text)
}

/// A dotted address.
#[tactic(auto, unfolding(crate::specs::Texts::dotted))]
pub fn address_text(alloc: Global, host: u32) -> Result<String, NoMemory>
    ensures { IfOk result (λ text. string_bytes text ≡ dotted host) }
{
    let mut text = String::new(alloc);
    let (first, second) = (host / 16_777_216, host / 65_536 % 256);
    let (third, fourth) = (host / 256 % 256, host % 256);
    write!(text, "{}.{}.{}.{}", first, second, third, fourth)?;
    Ok(text)
}

/// A partition with its letters. None is above 255.
#[tactic(auto, unfolding(crate::specs::Texts::partition_text))]
fn partition_text(alloc: Global, partition: u32) -> Result<Bytes, NoMemory>
    ensures { IfOk result (λ text. text ≡ partition_text partition) }
{
    let mut text = b"/vicep".to_vec(alloc)?;
    push_letters(&mut text, partition.min(255) as u8)?;
    Ok(Bytes::new(text))
}

fn push_letters(text: &mut Vec<u8>, partition: u8) -> Result<(), NoMemory>
    ensures { OnOk result (text.new.items ≡ text.old.items ++ letters partition) }
{
    if partition < 26 {
        text.push(b'a' + partition)?;
    } else {
        let behind = partition - 26;
        text.push(b'a' + behind / 26)?;
        text.push(b'a' + behind % 26)?;
    }
    Ok(())
}

/// A server and its partition.
#[tactic(auto, unfolding(crate::specs::Texts::place_text))]
pub fn place_text(alloc: Global, place: Place) -> Result<Bytes, NoMemory>
    ensures { IfOk result (λ text. text ≡ place_text place) }
{
    let host = address_text(alloc, place.host)?;
    let partition = partition_text(alloc, place.partition)?;
    joined(alloc, &[host.as_bytes(), b" ", partition.as_slice()])
}

/// What is told of a volume, which stands behind it.
pub fn volume_line(alloc: Global, told: &[u8], word: &[u8]) -> Result<Bytes, NoMemory>
    ensures { IfOk result (λ text. text ≡ volume_line told.now word.now) }
{
    let mut text = told.to_vec(alloc)?;
    text.extend_from_slice(word)?;
    text.push(b'\n')?;
    Ok(Bytes::new(text))
}

/// Whether a word of flags has one.
fn has_flag(flags: u32, flag: u32) -> bool
    ensures { result ≡ has_flag flags flag }
{
    flags & flag != 0
}

/// An id behind its label, where it is shown.
fn id_text(alloc: Global, is_shown: bool, label: &[u8], id: u32) -> Result<Bytes, NoMemory>
    ensures { IfOk result (λ text. text ≡ id_text is_shown label.now id) }
{
    if !is_shown {
        return Ok(Bytes::new(Vec::new(alloc)));
    }
    let number = number_text(alloc, id)?;
    let column = at_left(alloc, ID_PLACES, number.as_bytes())?;
    joined(alloc, &[label, column.as_slice()])
}

/// The line of an entry's ids.
#[tactic(auto, unfolding(crate::specs::Texts::ids_text))]
fn ids_text(alloc: Global, entry: &VlEntry) -> Result<Bytes, NoMemory>
    ensures { IfOk result (λ text. text ≡ ids_text entry.now) }
{
    let flags = entry.flags;
    let has_read_only = has_flag(flags, HAS_READ_ONLY);
    let has_clone = entry.clone_id != 0 && has_read_only;
    let rw = id_text(
        alloc,
        has_flag(flags, HAS_READ_WRITE),
        b"    RWrite: ",
        entry.rw,
    )?;
    let ro = id_text(alloc, has_read_only, b"    ROnly: ", entry.ro)?;
    let backup = id_text(
        alloc,
        has_flag(flags, HAS_BACKUP),
        b"    Backup: ",
        entry.backup,
    )?;
    let clone = id_text(alloc, has_clone, b"    RClone: ", entry.clone_id)?;
    joined(
        alloc,
        &[
            rw.as_slice(),
            ro.as_slice(),
            backup.as_slice(),
            clone.as_slice(),
            b"\n",
        ],
    )
}

/// What of a volume lies at a site.
fn site_kind(flags: u32) -> &'static [u8]
    ensures { result.now ≡ site_kind flags }
{
    if has_flag(flags, READ_WRITE) {
        b" RW Site"
    } else if has_flag(flags, READ_ONLY) {
        b" RO Site"
    } else {
        b" BK Site"
    }
}

/// The line of a site.
#[tactic(auto, unfolding(crate::specs::Texts::site_text))]
fn site_text(alloc: Global, site: &VlSite) -> Result<Bytes, NoMemory>
    ensures { IfOk result (λ text. text ≡ site_text site.now) }
{
    let host = address_text(alloc, site.host)?;
    let partition = partition_text(alloc, site.partition)?;
    joined(
        alloc,
        &[
            b"       server ",
            host.as_bytes(),
            b" partition ",
            partition.as_slice(),
            site_kind(site.flags),
            new_mark(site.flags),
            b"\n",
        ],
    )
}

/// The mark of a site that is new.
fn new_mark(flags: u32) -> &'static [u8]
    ensures { result.now ≡ new_mark flags }
{
    if has_flag(flags, NEW_REPLICA) {
        b" -- New release"
    } else {
        b""
    }
}

/// How many sites there are, and each.
fn sites_text(alloc: Global, sites: &[VlSite]) -> Result<Bytes, NoMemory>
    ensures { IfOk result (λ text. text ≡ sites_text sites.now) }
{
    let count = count_text(alloc, sites.len())?;
    let lines = site_lines(alloc, sites)?;
    joined(
        alloc,
        &[
            b"    number of sites -> ",
            count.as_bytes(),
            b"\n",
            lines.as_slice(),
        ],
    )
}

fn site_lines(alloc: Global, sites: &[VlSite]) -> Result<Bytes, NoMemory>
    ensures { IfOk result (λ text. text ≡ flat_map site_text sites.now) }
{
    let mut text = Vec::new(alloc);
    for site in sites {
        text.extend_from_slice(site_text(alloc, site)?.as_slice())?;
    }
    Ok(Bytes::new(text))
}

/// The line of an entry that is locked.
fn lock_mark(operation: u32) -> &'static [u8]
    ensures { result.now ≡ lock_mark operation }
{
    if operation == 0 {
        b""
    } else {
        b"    Volume is currently LOCKED\n"
    }
}

/// An entry as it is listed.
#[tactic(auto, unfolding(crate::specs::Texts::entry_text))]
pub fn entry_text(alloc: Global, entry: &VlEntry) -> Result<Bytes, NoMemory>
    ensures { IfOk result (λ text. text ≡ entry_text entry.now) }
{
    let name = joined(alloc, &[entry.name.as_slice(), b"\n"])?;
    let ids = ids_text(alloc, entry)?;
    let sites = sites_text(alloc, entry.sites.as_slice())?;
    joined(
        alloc,
        &[
            name.as_slice(),
            ids.as_slice(),
            sites.as_slice(),
            lock_mark(entry.lock_op),
            b"\n",
        ],
    )
}
