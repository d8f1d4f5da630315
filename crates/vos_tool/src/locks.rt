//! `lock`, `unlock`.
ghost use Rattle.std.specs.Prelude.{◌≡◌};
ghost use Rattle.tool_base.specs.Running.{Ran};
ghost use Rattle.vos_tool.specs.Locking.{lock_text, releases_lock, sets_lock, unlock_text};

use crate::answers::Done;
use crate::asking::ask;
use crate::texts::volume_line;
use crate::volumes::{ANY_TYPE, volume_id};
use afs_commands::Volume;
use io_base::Link;
use tool_base::{Client, Stop};
use ubik_types::Bytes;
use vl_calls::VlCall;

/// The lock under which an entry is deleted, or its sites change.
pub const LOCK_SITES: u32 = 0x80;

/// The mask that clears a lock's moment and its operation.
pub const WHOLE_LOCK: u32 = 3;

/// Sets the lock of an entry.
pub fn set_lock<L: Link>(client: &mut Client<'_>, link: &mut L, id: u32) -> Result<(), Stop>
    ensures { Ran (sets_lock id) client.old client.new (L.exchanges link.old) (L.exchanges link.new) result }
{
    let call = VlCall::SetLock {
        id,
        volume_type: ANY_TYPE,
        operation: LOCK_SITES,
    };
    ask(client, link, &call, &Done)
}

/// Releases the lock of an entry.
pub fn release_lock<L: Link>(client: &mut Client<'_>, link: &mut L, id: u32) -> Result<(), Stop>
    ensures { Ran (releases_lock id) client.old client.new (L.exchanges link.old) (L.exchanges link.new) result }
{
    let call = VlCall::ReleaseLock {
        id,
        volume_type: ANY_TYPE,
        mask: WHOLE_LOCK,
    };
    ask(client, link, &call, &Done)
}

/// `lock`: the text, once the entry of the volume is locked.
pub fn lock<L: Link>(client: &mut Client<'_>, link: &mut L, volume: &Volume) -> Result<Bytes, Stop>
    ensures { Ran (lock_text volume.now) client.old client.new (L.exchanges link.old) (L.exchanges link.new) result }
{
    let id = volume_id(client, link, volume)?;
    set_lock(client, link, id)?;
    let text = volume_line(
        client.alloc(),
        b"Locked VLDB entry for volume ",
        volume.word(),
    )?;
    Ok(text)
}

/// `unlock`: the text, once the lock is released.
pub fn unlock<L: Link>(
    client: &mut Client<'_>,
    link: &mut L,
    volume: &Volume,
) -> Result<Bytes, Stop>
    ensures { Ran (unlock_text volume.now) client.old client.new (L.exchanges link.old) (L.exchanges link.new) result }
{
    let id = volume_id(client, link, volume)?;
    release_lock(client, link, id)?;
    let text = volume_line(
        client.alloc(),
        b"Released lock on vldb entry for volume ",
        volume.word(),
    )?;
    Ok(text)
}
