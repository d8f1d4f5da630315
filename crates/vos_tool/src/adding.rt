//! `addentry`.
ghost use Rattle.std.specs.Prelude.{◌≡◌, ◌≤◌, IfOk, IfSome, length};
ghost use Rattle.tool_base.specs.Running.{Ran};
ghost use Rattle.vos_tool.specs.Adding.{added_text, addentry_text, makes, makes_of, new_entry};

use crate::answers::{Done, MAX_ID, NewId};
use crate::asking::ask;
use crate::places::READ_WRITE;
use afs_commands::Place;
use call_grammar::MAX_TEXT;
use io_base::Link;
use std::alloc::Global;
use tool_base::{Client, Refusal, Stop, joined, number_text};
use ubik_types::{Bytes, NoMemory, bytes_of};
use vl_calls::{GivenEntry, VlCall};
use vldb_entries::{VlSite, sites_of};

/// How many ids a volume has: read-write, read-only, backup.
pub const NEW_IDS: u32 = 3;

/// The flag of an entry whose read-write volume exists.
pub const HAS_READ_WRITE: u32 = 0x1000;

/// `addentry`: the text, once the entry of a volume at this place is made. Without an id the database gives one.
pub fn add_entry<L: Link>(
    client: &mut Client<'_>,
    link: &mut L,
    name: &[u8],
    place: Place,
    id: Option<u32>,
) -> Result<Bytes, Stop>
    requires { IfSome id (λ n. n ≤ MAX_ID) }
    ensures { Ran (addentry_text name.now place id) client.old client.new (L.exchanges link.old) (L.exchanges link.new) result }
{
    if name.len() > MAX_TEXT as usize {
        return Err(Stop::Refused(Refusal::Malformed));
    }
    match id {
        Some(id) => make(client, link, name, place, id),
        None => {
            let id = ask(
                client,
                link,
                &VlCall::GetNewVolumeId { bump: NEW_IDS },
                &NewId,
            )?;
            make(client, link, name, place, id)
        }
    }
}

/// Makes the entry with ids from this one on.
fn make<L: Link>(
    client: &mut Client<'_>,
    link: &mut L,
    name: &[u8],
    place: Place,
    id: u32,
) -> Result<Bytes, Stop>
    requires name { length name.now ≤ MAX_TEXT }
    requires id { id ≤ MAX_ID }
    ensures { Ran (makes name.now place id) client.old client.new (L.exchanges link.old) (L.exchanges link.new) result }
{
    let alloc = client.alloc();
    let entry = new_entry(alloc, name, place, id)?;
    ask(client, link, &VlCall::CreateEntry { entry }, &Done)?;
    let text = added_text(alloc, name, id)?;
    Ok(text)
}

/// What is told of an entry that was made.
fn added_text(alloc: Global, name: &[u8], id: u32) -> Result<Bytes, NoMemory>
    ensures { IfOk result (λ text. text ≡ added_text name.now id) }
{
    let number = number_text(alloc, id)?;
    let told = joined(alloc, &[b"Added entry ", name])?;
    joined(
        alloc,
        &[told.as_slice(), b" with id ", number.as_bytes(), b"\n"],
    )
}

/// An entry with three ids from this one on, and one read-write site.
fn new_entry(alloc: Global, name: &[u8], place: Place, id: u32) -> Result<GivenEntry, NoMemory>
    requires { id ≤ MAX_ID }
    ensures { IfOk result (λ entry. entry ≡ new_entry name.now place id) }
{
    let site = VlSite {
        host: place.host,
        partition: place.partition,
        flags: READ_WRITE,
    };
    Ok(GivenEntry {
        name: bytes_of(alloc, name)?,
        flags: HAS_READ_WRITE,
        rw: id,
        ro: id + 1,
        backup: id + 2,
        clone_id: 0,
        sites: sites_of(alloc, &[site])?,
    })
}
