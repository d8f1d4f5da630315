//! `addsite`, `remsite`, `changeloc`.
ghost use Rattle.std.specs.Prelude.{◌≡◌, IfOk};
ghost use Rattle.tool_base.specs.Running.{Ran};
ghost use Rattle.vos_tool.specs.Answers.{IsEntry};
ghost use Rattle.vl_calls.specs.Entries.{IsGiven};
ghost use Rattle.vos_tool.specs.Changing.{change_label, change_text, changed_text, changes_sites, gives_up, replaces, replaces_if};
ghost use Rattle.vos_tool.specs.Sites.{changed_sites};

use crate::answers::{Done, OneEntry};
use crate::asking::ask;
use crate::locks::{WHOLE_LOCK, release_lock, set_lock};
use crate::sites::{NO_SUCH_SITE, SiteChange, changed_sites};
use crate::texts::{place_text, volume_line};
use crate::volumes::{ANY_TYPE, volume_id};
use afs_commands::{Place, Volume};
use io_base::Link;
use std::alloc::Global;
use tool_base::{Client, Refusal, Stop, joined};
use ubik_types::{Bytes, NoMemory};
use vl_calls::{GivenEntry, VlCall};
use vldb_entries::VlEntry;

/// `addsite`, `remsite`, `changeloc`: the text, once the entry of the volume has other sites.
pub fn change<L: Link>(
    client: &mut Client<'_>,
    link: &mut L,
    change: SiteChange,
    place: Place,
    volume: &Volume,
) -> Result<Bytes, Stop>
    ensures { Ran (change_text change place volume.now) client.old client.new (L.exchanges link.old) (L.exchanges link.new) result }
{
    let id = volume_id(client, link, volume)?;
    change_sites(client, link, change, place, id)?;
    let text = changed_text(client.alloc(), change, place, volume.word())?;
    Ok(text)
}

/// What is told of an entry whose sites changed.
fn changed_text(
    alloc: Global,
    change: SiteChange,
    place: Place,
    word: &[u8],
) -> Result<Bytes, NoMemory>
    ensures { IfOk result (λ text. text ≡ changed_text change place word.now) }
{
    let at = place_text(alloc, place)?;
    let told = joined(alloc, &[change.label(), at.as_slice(), b" for volume "])?;
    volume_line(alloc, told.as_slice(), word)
}

impl SiteChange {
    /// What is told before the place.
    fn label(self) -> &'static [u8]
        ensures { result.now ≡ change_label self }
    {
        match self {
            SiteChange::Add => b"Added replication site ",
            SiteChange::Remove => b"Removed replication site ",
            SiteChange::Move => b"Changed location to ",
        }
    }
}

/// Locks an entry, reads it, and replaces it with its sites changed.
fn change_sites<L: Link>(
    client: &mut Client<'_>,
    link: &mut L,
    change: SiteChange,
    place: Place,
    id: u32,
) -> Result<(), Stop>
    ensures { Ran (changes_sites change place id) client.old client.new (L.exchanges link.old) (L.exchanges link.new) result }
{
    set_lock(client, link, id)?;
    let call = VlCall::GetEntryById {
        id,
        volume_type: ANY_TYPE,
    };
    let entry = ask(client, link, &call, &OneEntry)?;
    replace_changed(client, link, change, place, id, entry)
}

/// Replaces an entry that is locked with its sites changed, or releases it.
fn replace_changed<L: Link>(
    client: &mut Client<'_>,
    link: &mut L,
    change: SiteChange,
    place: Place,
    id: u32,
    entry: VlEntry,
) -> Result<(), Stop>
    requires { IsEntry entry }
    ensures { Ran (replaces_if id entry (changed_sites change place entry.sites)) client.old client.new (L.exchanges link.old) (L.exchanges link.new) result }
{
    let VlEntry {
        name,
        flags,
        rw,
        ro,
        backup,
        clone_id,
        sites,
        ..
    } = entry;
    let changed = changed_sites(change, place, sites)?;
    match changed {
        Some(sites) => {
            let given = GivenEntry {
                name,
                flags,
                rw,
                ro,
                backup,
                clone_id,
                sites,
            };
            replace(client, link, id, given)
        }
        None => give_up(client, link, id, Refusal::Rule(NO_SUCH_SITE)),
    }
}

/// Replaces an entry, which releases its lock; where that is refused, the lock is released by itself.
fn replace<L: Link>(
    client: &mut Client<'_>,
    link: &mut L,
    id: u32,
    entry: GivenEntry,
) -> Result<(), Stop>
    requires { IsGiven entry }
    ensures { Ran (replaces id entry) client.old client.new (L.exchanges link.old) (L.exchanges link.new) result }
{
    let call = VlCall::ReplaceEntry {
        id,
        volume_type: ANY_TYPE,
        entry,
        mask: WHOLE_LOCK,
    };
    match ask(client, link, &call, &Done) {
        Ok(()) => Ok(()),
        Err(stop) => match stop {
            Stop::Refused(why) => give_up(client, link, id, why),
            _ => Err(stop),
        },
    }
}

/// Releases the lock of an entry, whatever is answered, and ends as refused.
fn give_up<L: Link>(
    client: &mut Client<'_>,
    link: &mut L,
    id: u32,
    why: Refusal,
) -> Result<(), Stop>
    ensures { Ran (gives_up id why) client.old client.new (L.exchanges link.old) (L.exchanges link.new) result }
{
    match release_lock(client, link, id) {
        Ok(()) => Err(Stop::Refused(why)),
        Err(stop) => match stop {
            Stop::NoMemory => Err(Stop::NoMemory),
            _ => Err(Stop::Refused(why)),
        },
    }
}
