//! The calls of the protection database.
ghost use Rattle.std.specs.Prelude.{◌≡◌};
ghost use Rattle.pt_calls.specs.Calls.{call_kind};

use crate::kinds::CallKind;
use crate::lists::{Ids, Names};
use ubik_types::Bytes;

/// A call. A user's id is positive, a group's negative; 0 as an owner or a new id stands for none given.
#[derive(Drop)]
pub enum PtCall {
    /// Makes an entry with the next id. `kind`: 0 for a user, 2 for a group.
    NewEntry {
        name: Bytes,
        kind: u32,
        owner: i32,
    },
    /// Makes an entry with this id.
    INewEntry {
        name: Bytes,
        id: i32,
        owner: i32,
    },
    /// Translates names to ids.
    NameToId {
        names: Names,
    },
    /// Translates ids to names.
    IdToName {
        ids: Ids,
    },
    /// Removes an entry.
    Delete {
        id: i32,
    },
    /// Puts a user into a group.
    AddToGroup {
        member: i32,
        group: i32,
    },
    /// Takes a user out of a group.
    RemoveFromGroup {
        member: i32,
        group: i32,
    },
    /// Asks for all ids for which an entry counts.
    GetCps {
        id: i32,
    },
    /// Asks for the maxima.
    ListMax,
    /// Sets the maximum of users or of groups.
    SetMax {
        id: i32,
        is_group: bool,
    },
    /// Asks for an entry.
    ListEntry {
        id: i32,
    },
    /// Asks for the entries above an id. `kinds`: 1 for users, 2 for groups, 3 for both.
    ListEntries {
        kinds: u32,
        after: i32,
    },
    /// Gives an entry another name, owner or id; an empty name stands for none given.
    ChangeEntry {
        id: i32,
        name: Bytes,
        owner: i32,
        new_id: i32,
    },
    /// Sets flags and quota of an entry, those that the mask names: 1 for flags, 2 for the quota.
    SetFields {
        id: i32,
        mask: u32,
        flags: u32,
        quota: i32,
    },
    /// Asks for the groups of a user, or the members of a group.
    ListElements {
        id: i32,
    },
    /// Asks whether a user is in a group.
    IsMemberOf {
        member: i32,
        group: i32,
    },
    /// Asks for the groups that an entry owns.
    ListOwned {
        id: i32,
    },
}

impl PtCall {
    pub fn kind(&self) -> CallKind
        ensures { result ≡ call_kind self.now }
    {
        match self {
            PtCall::NewEntry { .. } => CallKind::NewEntry,
            PtCall::INewEntry { .. } => CallKind::INewEntry,
            PtCall::NameToId { .. } => CallKind::NameToId,
            PtCall::IdToName { .. } => CallKind::IdToName,
            PtCall::Delete { .. } => CallKind::Delete,
            PtCall::AddToGroup { .. } => CallKind::AddToGroup,
            PtCall::RemoveFromGroup { .. } => CallKind::RemoveFromGroup,
            PtCall::GetCps { .. } => CallKind::GetCps,
            PtCall::ListMax => CallKind::ListMax,
            PtCall::SetMax { .. } => CallKind::SetMax,
            PtCall::ListEntry { .. } => CallKind::ListEntry,
            PtCall::ListEntries { .. } => CallKind::ListEntries,
            PtCall::ChangeEntry { .. } => CallKind::ChangeEntry,
            PtCall::SetFields { .. } => CallKind::SetFields,
            PtCall::ListElements { .. } => CallKind::ListElements,
            PtCall::IsMemberOf { .. } => CallKind::IsMemberOf,
            PtCall::ListOwned { .. } => CallKind::ListOwned,
        }
    }
}
