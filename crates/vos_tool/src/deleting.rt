//! `delentry`.
ghost use Rattle.std.specs.Prelude.{◌≡◌, IfOk};
ghost use Rattle.tool_base.specs.Running.{Ran};
ghost use Rattle.vos_tool.specs.Deleting.{deleted_text, deletes, deletes_each, delentry_text};

use crate::answers::Done;
use crate::asking::ask;
use crate::texts::count_text;
use crate::volumes::{ANY_TYPE, volume_id};
use afs_commands::Volume;
use io_base::Link;
use std::alloc::Global;
use tool_base::{Client, Stop, joined};
use ubik_types::{Bytes, NoMemory};
use vl_calls::VlCall;

/// `delentry`: the text, once the entries of these volumes are deleted, one after the other.
pub fn delete_entries<L: Link>(
    client: &mut Client<'_>,
    link: &mut L,
    volumes: &[Volume],
) -> Result<Bytes, Stop>
    ensures { Ran (delentry_text volumes.now) client.old client.new (L.exchanges link.old) (L.exchanges link.new) result }
{
    delete_each(client, link, volumes)?;
    let text = deleted_text(client.alloc(), volumes.len())?;
    Ok(text)
}

/// What is told of entries that were deleted.
fn deleted_text(alloc: Global, count: usize) -> Result<Bytes, NoMemory>
    ensures { IfOk result (λ text. text ≡ deleted_text count) }
{
    let count = count_text(alloc, count)?;
    joined(
        alloc,
        &[b"Deleted ", count.as_bytes(), b" VLDB entries", b"\n"],
    )
}

fn delete_each<L: Link>(
    client: &mut Client<'_>,
    link: &mut L,
    volumes: &[Volume],
) -> Result<(), Stop>
    ensures { Ran (deletes_each volumes.now) client.old client.new (L.exchanges link.old) (L.exchanges link.new) result }
{
    for volume in volumes {
        delete(client, link, volume)?;
    }
    Ok(())
}

/// Deletes the entry of a volume.
fn delete<L: Link>(client: &mut Client<'_>, link: &mut L, volume: &Volume) -> Result<(), Stop>
    ensures { Ran (deletes volume.now) client.old client.new (L.exchanges link.old) (L.exchanges link.new) result }
{
    let id = volume_id(client, link, volume)?;
    let call = VlCall::DeleteEntry {
        id,
        volume_type: ANY_TYPE,
    };
    ask(client, link, &call, &Done)
}
