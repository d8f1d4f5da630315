//! Volumes, as words name them.
ghost use Rattle.std.specs.Prelude.{IfOk};
ghost use Rattle.tool_base.specs.Running.{Ran};
ghost use Rattle.vos_tool.specs.Answers.{IsEntry};
ghost use Rattle.vos_tool.specs.Volumes.{entry_named, volume_entry, volume_id};

use crate::answers::OneEntry;
use crate::asking::ask;
use afs_commands::Volume;
use call_grammar::MAX_TEXT;
use io_base::Link;
use tool_base::{Client, Refusal, Stop};
use ubik_types::bytes_of;
use vl_calls::VlCall;
use vldb_entries::VlEntry;

/// The type of a volume that any of an entry's three ids fits.
pub const ANY_TYPE: i32 = -1;

/// The id of a volume: its own, or the read-write id of the entry that has its name.
pub fn volume_id<L: Link>(
    client: &mut Client<'_>,
    link: &mut L,
    volume: &Volume,
) -> Result<u32, Stop>
    ensures { Ran (volume_id volume.now) client.old client.new (L.exchanges link.old) (L.exchanges link.new) result }
{
    match volume.id() {
        Some(id) => Ok(id),
        None => {
            let entry = entry_named(client, link, volume.word())?;
            Ok(entry.rw)
        }
    }
}

/// The entry of a volume.
pub fn volume_entry<L: Link>(
    client: &mut Client<'_>,
    link: &mut L,
    volume: &Volume,
) -> Result<VlEntry, Stop>
    ensures { Ran (volume_entry volume.now) client.old client.new (L.exchanges link.old) (L.exchanges link.new) result }
{
    match volume.id() {
        Some(id) => {
            let call = VlCall::GetEntryById {
                id,
                volume_type: ANY_TYPE,
            };
            ask(client, link, &call, &OneEntry)
        }
        None => entry_named(client, link, volume.word()),
    }
}

/// The entry that has this name.
fn entry_named<L: Link>(client: &mut Client<'_>, link: &mut L, name: &[u8]) -> Result<VlEntry, Stop>
    ensures { Ran (entry_named name.now) client.old client.new (L.exchanges link.old) (L.exchanges link.new) result }
{
    if name.len() > MAX_TEXT as usize {
        return Err(Stop::Refused(Refusal::Malformed));
    }
    let name = bytes_of(client.alloc(), name)?;
    ask(client, link, &VlCall::GetEntryByName { name }, &OneEntry)
}
