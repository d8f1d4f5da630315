//! The calls of the location database.
ghost use Rattle.std.specs.Prelude.{◌≡◌};
ghost use Rattle.vl_calls.specs.Calls.{call_kind};

use crate::kinds::CallKind;
use ubik_types::Bytes;
use vldb_entries::SiteList;

/// An entry as a call gives it: all but its lock.
#[derive(Drop)]
pub struct GivenEntry {
    pub name: Bytes,
    pub flags: u32,
    pub rw: u32,
    pub ro: u32,
    pub backup: u32,
    pub clone_id: u32,
    pub sites: SiteList,
}

/// A call. A volume type is 0 for read-write, 1 for read-only, 2 for backup, and -1 for any of the three.
#[derive(Drop)]
pub enum VlCall {
    /// Takes so many of the next volume ids.
    GetNewVolumeId {
        bump: u32,
    },
    /// Makes an entry.
    CreateEntry {
        entry: GivenEntry,
    },
    /// Removes the entry that has this id.
    DeleteEntry {
        id: u32,
        volume_type: i32,
    },
    /// Asks for the entry that has this id.
    GetEntryById {
        id: u32,
        volume_type: i32,
    },
    /// Asks for the entry of a name.
    GetEntryByName {
        name: Bytes,
    },
    /// Puts an entry in the place of the one that has this id. `mask`: 1 clears the moment of the lock, 2 its operation.
    ReplaceEntry {
        id: u32,
        volume_type: i32,
        entry: GivenEntry,
        mask: u32,
    },
    /// Locks an entry for an operation.
    SetLock {
        id: u32,
        volume_type: i32,
        operation: u32,
    },
    /// Clears what the mask names of an entry's lock.
    ReleaseLock {
        id: u32,
        volume_type: i32,
        mask: u32,
    },
    /// Asks for the entries above an id that have such a site: 0 for any host, -1 for any partition. `locked`: only entries that are locked.
    ListAttributes {
        after: u32,
        host: u32,
        partition: i32,
        locked: bool,
    },
    /// Asks for all server addresses.
    GetAddrs,
    /// Gives a server another address, or none: 0.
    ChangeAddr {
        from: u32,
        to: u32,
    },
    /// Asks whether the database answers.
    Probe,
}

impl VlCall {
    pub fn kind(&self) -> CallKind
        ensures { result ≡ call_kind self.now }
    {
        match self {
            VlCall::GetNewVolumeId { .. } => CallKind::GetNewVolumeId,
            VlCall::CreateEntry { .. } => CallKind::CreateEntry,
            VlCall::DeleteEntry { .. } => CallKind::DeleteEntry,
            VlCall::GetEntryById { .. } => CallKind::GetEntryById,
            VlCall::GetEntryByName { .. } => CallKind::GetEntryByName,
            VlCall::ReplaceEntry { .. } => CallKind::ReplaceEntry,
            VlCall::SetLock { .. } => CallKind::SetLock,
            VlCall::ReleaseLock { .. } => CallKind::ReleaseLock,
            VlCall::ListAttributes { .. } => CallKind::ListAttributes,
            VlCall::GetAddrs => CallKind::GetAddrs,
            VlCall::ChangeAddr { .. } => CallKind::ChangeAddr,
            VlCall::Probe => CallKind::Probe,
        }
    }
}
