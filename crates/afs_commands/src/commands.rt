//! What the commands are asked to do.
use crate::accesses::Access;
use crate::entries::Entry;
use crate::places::{Place, SiteFilter, Style};
use crate::volumes::Volume;
use ubik_types::Bytes;

/// What `vos` is asked to do.
#[derive(Drop)]
pub enum VosCommand {
    /// Makes the entry of a volume, with this id, 1 to 2147483645, or with one that the database gives.
    AddEntry {
        name: Bytes,
        place: Place,
        id: Option<u32>,
    },
    /// Lists the entry of one volume, or else those that a filter lets through, all or the locked ones.
    ListVldb {
        volume: Option<Volume>,
        sites: SiteFilter,
        locked: bool,
        style: Style,
    },
    Lock {
        volume: Volume,
    },
    Unlock {
        volume: Volume,
    },
    /// Releases the locks of the entries that a filter lets through.
    UnlockVldb {
        sites: SiteFilter,
    },
    DelEntry {
        volumes: Vec<Volume>,
    },
    AddSite {
        place: Place,
        volume: Volume,
    },
    RemSite {
        place: Place,
        volume: Volume,
    },
    ChangeLoc {
        place: Place,
        volume: Volume,
    },
    ListAddrs,
    /// Gives a server another address, or takes its address away.
    ChangeAddr {
        from: u32,
        to: Option<u32>,
    },
}

/// What `pts` is asked to do.
#[derive(Drop)]
pub enum PtsCommand {
    /// Makes users; each of the ids, of which there are no more than names, goes with the name at its place.
    CreateUser {
        names: Vec<Bytes>,
        ids: Vec<i32>,
    },
    /// Makes groups, as users are made, of this owner or of the one who asks.
    CreateGroup {
        names: Vec<Bytes>,
        owner: Option<Entry>,
        ids: Vec<i32>,
    },
    Delete {
        entries: Vec<Entry>,
    },
    Rename {
        entry: Entry,
        name: Bytes,
    },
    Chown {
        entry: Entry,
        owner: Entry,
    },
    /// Puts each user into each group.
    AddUser {
        users: Vec<Entry>,
        groups: Vec<Entry>,
    },
    /// Takes each user out of each group.
    RemoveUser {
        users: Vec<Entry>,
        groups: Vec<Entry>,
    },
    Membership {
        entries: Vec<Entry>,
    },
    Examine {
        entries: Vec<Entry>,
    },
    ListOwned {
        entries: Vec<Entry>,
    },
    /// Lists users, groups or both; users where neither is asked for.
    ListEntries {
        users: bool,
        groups: bool,
    },
    ListMax,
    /// Sets the greatest id of groups, of users, or of both.
    SetMax {
        group: Option<i32>,
        user: Option<i32>,
    },
    /// Sets the access of entries, how many groups their users may make, or both.
    SetFields {
        entries: Vec<Entry>,
        access: Option<Access>,
        quota: Option<i32>,
    },
}

/// What one of the two commands is asked to do.
#[derive(Drop)]
pub enum ToolCommand {
    Vos(VosCommand),
    Pts(PtsCommand),
}
