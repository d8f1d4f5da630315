//! The operations of `vos` and `pts` with their switches, as tables.
ghost use Rattle.std.specs.Prelude.{◌≡◌};
ghost use Rattle.afs_words.specs.Tables.{operation_name, switch_name, operations_of, parameters_of, common_parameters};

use afs_commands::Form;

/// A command.
#[derive(Clone, Copy, Debug, PartialEq, Eq)]
pub enum Tool {
    /// Volumes: `vos`.
    Vos,
    /// Users and groups: `pts`.
    Pts,
}

/// What a command is asked to do, in the order of the tables.
#[derive(Clone, Copy, Debug, PartialEq, Eq)]
pub enum Operation {
    AddEntry,
    ListVldb,
    Lock,
    Unlock,
    UnlockVldb,
    DelEntry,
    AddSite,
    RemSite,
    ChangeLoc,
    ListAddrs,
    ChangeAddr,
    CreateUser,
    CreateGroup,
    Delete,
    Rename,
    Chown,
    AddUser,
    RemoveUser,
    Membership,
    Examine,
    ListOwned,
    ListEntries,
    ListMax,
    SetMax,
    SetFields,
}

/// A switch of an operation.
#[derive(Clone, Copy, Debug, PartialEq, Eq)]
pub enum Switch {
    Name,
    Server,
    Partition,
    Id,
    Locked,
    Quiet,
    NoSort,
    OldAddr,
    NewAddr,
    Remove,
    Owner,
    NameOrId,
    OldName,
    NewName,
    User,
    Group,
    Users,
    Groups,
    Access,
    GroupQuota,
    NoAuth,
    LocalAuth,
}

/// What a switch takes.
#[derive(Clone, Copy, Debug, PartialEq, Eq)]
pub enum Takes {
    /// Nothing.
    Flag,
    /// Nothing; and it stands beside no other switch that fills the same need.
    LoneFlag,
    /// One value.
    One(Form),
    /// One value or more.
    Many(Form),
    /// One value or more, and no more than the first switch of the operation has.
    EachOfFirst(Form),
}

/// Whether a switch has to be given.
#[derive(Clone, Copy, Debug, PartialEq, Eq)]
pub enum Need {
    Required,
    Optional,
    /// At least one switch of this need has to be given.
    OneOf,
}

/// A switch of an operation, with what it takes.
#[derive(Clone, Copy, Debug, PartialEq, Eq)]
pub struct Parameter {
    pub switch: Switch,
    pub need: Need,
    pub takes: Takes,
}

/// The operations of `vos`.
const VOS: [Operation; 11] = [
    Operation::AddEntry,
    Operation::ListVldb,
    Operation::Lock,
    Operation::Unlock,
    Operation::UnlockVldb,
    Operation::DelEntry,
    Operation::AddSite,
    Operation::RemSite,
    Operation::ChangeLoc,
    Operation::ListAddrs,
    Operation::ChangeAddr,
];

/// The operations of `pts`.
const PTS: [Operation; 14] = [
    Operation::CreateUser,
    Operation::CreateGroup,
    Operation::Delete,
    Operation::Rename,
    Operation::Chown,
    Operation::AddUser,
    Operation::RemoveUser,
    Operation::Membership,
    Operation::Examine,
    Operation::ListOwned,
    Operation::ListEntries,
    Operation::ListMax,
    Operation::SetMax,
    Operation::SetFields,
];

/// Switches of `addentry`.
const ADD_ENTRY: [Parameter; 4] = [
    Parameter {
        switch: Switch::Name,
        need: Need::Required,
        takes: Takes::One(Form::NewVolume),
    },
    Parameter {
        switch: Switch::Server,
        need: Need::Required,
        takes: Takes::One(Form::Address),
    },
    Parameter {
        switch: Switch::Partition,
        need: Need::Required,
        takes: Takes::One(Form::Partition),
    },
    Parameter {
        switch: Switch::Id,
        need: Need::Optional,
        takes: Takes::One(Form::NewVolumeId),
    },
];

/// Switches of `listvldb`.
const LIST_VLDB: [Parameter; 6] = [
    Parameter {
        switch: Switch::Name,
        need: Need::Optional,
        takes: Takes::One(Form::Volume),
    },
    Parameter {
        switch: Switch::Server,
        need: Need::Optional,
        takes: Takes::One(Form::Address),
    },
    Parameter {
        switch: Switch::Partition,
        need: Need::Optional,
        takes: Takes::One(Form::Partition),
    },
    Parameter {
        switch: Switch::Locked,
        need: Need::Optional,
        takes: Takes::Flag,
    },
    Parameter {
        switch: Switch::Quiet,
        need: Need::Optional,
        takes: Takes::Flag,
    },
    Parameter {
        switch: Switch::NoSort,
        need: Need::Optional,
        takes: Takes::Flag,
    },
];

/// Switches of `lock`, `unlock`.
const VOLUME: [Parameter; 1] = [Parameter {
    switch: Switch::Id,
    need: Need::Required,
    takes: Takes::One(Form::Volume),
}];

/// Switches of `unlockvldb`.
const UNLOCK_VLDB: [Parameter; 2] = [
    Parameter {
        switch: Switch::Server,
        need: Need::Optional,
        takes: Takes::One(Form::Address),
    },
    Parameter {
        switch: Switch::Partition,
        need: Need::Optional,
        takes: Takes::One(Form::Partition),
    },
];

/// Switches of `delentry`.
const DEL_ENTRY: [Parameter; 1] = [Parameter {
    switch: Switch::Id,
    need: Need::Required,
    takes: Takes::Many(Form::Volume),
}];

/// Switches of `addsite`, `remsite`, `changeloc`.
const SITE: [Parameter; 3] = [
    Parameter {
        switch: Switch::Server,
        need: Need::Required,
        takes: Takes::One(Form::Address),
    },
    Parameter {
        switch: Switch::Partition,
        need: Need::Required,
        takes: Takes::One(Form::Partition),
    },
    Parameter {
        switch: Switch::Id,
        need: Need::Required,
        takes: Takes::One(Form::Volume),
    },
];

/// Switches of `changeaddr`.
const CHANGE_ADDR: [Parameter; 3] = [
    Parameter {
        switch: Switch::OldAddr,
        need: Need::Required,
        takes: Takes::One(Form::Address),
    },
    Parameter {
        switch: Switch::NewAddr,
        need: Need::OneOf,
        takes: Takes::One(Form::Address),
    },
    Parameter {
        switch: Switch::Remove,
        need: Need::OneOf,
        takes: Takes::LoneFlag,
    },
];

/// Switches of `createuser`.
const CREATE_USER: [Parameter; 2] = [
    Parameter {
        switch: Switch::Name,
        need: Need::Required,
        takes: Takes::Many(Form::NewName),
    },
    Parameter {
        switch: Switch::Id,
        need: Need::Optional,
        takes: Takes::EachOfFirst(Form::UserId),
    },
];

/// Switches of `creategroup`.
const CREATE_GROUP: [Parameter; 3] = [
    Parameter {
        switch: Switch::Name,
        need: Need::Required,
        takes: Takes::Many(Form::NewName),
    },
    Parameter {
        switch: Switch::Owner,
        need: Need::Optional,
        takes: Takes::One(Form::Entry),
    },
    Parameter {
        switch: Switch::Id,
        need: Need::Optional,
        takes: Takes::EachOfFirst(Form::GroupId),
    },
];

/// Switches of `delete`, `membership`, `examine`, `listowned`.
const ENTRIES: [Parameter; 1] = [Parameter {
    switch: Switch::NameOrId,
    need: Need::Required,
    takes: Takes::Many(Form::Entry),
}];

/// Switches of `rename`.
const RENAME: [Parameter; 2] = [
    Parameter {
        switch: Switch::OldName,
        need: Need::Required,
        takes: Takes::One(Form::Entry),
    },
    Parameter {
        switch: Switch::NewName,
        need: Need::Required,
        takes: Takes::One(Form::NewName),
    },
];

/// Switches of `chown`.
const CHOWN: [Parameter; 2] = [
    Parameter {
        switch: Switch::Name,
        need: Need::Required,
        takes: Takes::One(Form::Entry),
    },
    Parameter {
        switch: Switch::Owner,
        need: Need::Required,
        takes: Takes::One(Form::Entry),
    },
];

/// Switches of `adduser`, `removeuser`.
const MEMBERS: [Parameter; 2] = [
    Parameter {
        switch: Switch::User,
        need: Need::Required,
        takes: Takes::Many(Form::Entry),
    },
    Parameter {
        switch: Switch::Group,
        need: Need::Required,
        takes: Takes::Many(Form::Entry),
    },
];

/// Switches of `listentries`.
const LIST_ENTRIES: [Parameter; 2] = [
    Parameter {
        switch: Switch::Users,
        need: Need::Optional,
        takes: Takes::Flag,
    },
    Parameter {
        switch: Switch::Groups,
        need: Need::Optional,
        takes: Takes::Flag,
    },
];

/// Switches of `setmax`.
const SET_MAX: [Parameter; 2] = [
    Parameter {
        switch: Switch::Group,
        need: Need::OneOf,
        takes: Takes::One(Form::Signed),
    },
    Parameter {
        switch: Switch::User,
        need: Need::OneOf,
        takes: Takes::One(Form::Signed),
    },
];

/// Switches of `setfields`.
const SET_FIELDS: [Parameter; 3] = [
    Parameter {
        switch: Switch::NameOrId,
        need: Need::Required,
        takes: Takes::Many(Form::Entry),
    },
    Parameter {
        switch: Switch::Access,
        need: Need::OneOf,
        takes: Takes::One(Form::Access),
    },
    Parameter {
        switch: Switch::GroupQuota,
        need: Need::OneOf,
        takes: Takes::One(Form::Signed),
    },
];

/// Switches that every operation takes beside its own, which change nothing.
pub const COMMON: [Parameter; 2] = [
    Parameter {
        switch: Switch::NoAuth,
        need: Need::Optional,
        takes: Takes::Flag,
    },
    Parameter {
        switch: Switch::LocalAuth,
        need: Need::Optional,
        takes: Takes::Flag,
    },
];

impl Tool {
    /// The operations of the command in the order of its table.
    pub fn operations(self) -> &'static [Operation]
        ensures { result.now ≡ operations_of self }
    {
        match self {
            Tool::Vos => &VOS,
            Tool::Pts => &PTS,
        }
    }
}

impl Operation {
    /// The operation's whole word.
    pub fn name(self) -> &'static str
        ensures { result.now ≡ operation_name self }
    {
        match self {
            Operation::AddEntry => "addentry",
            Operation::ListVldb => "listvldb",
            Operation::Lock => "lock",
            Operation::Unlock => "unlock",
            Operation::UnlockVldb => "unlockvldb",
            Operation::DelEntry => "delentry",
            Operation::AddSite => "addsite",
            Operation::RemSite => "remsite",
            Operation::ChangeLoc => "changeloc",
            Operation::ListAddrs => "listaddrs",
            Operation::ChangeAddr => "changeaddr",
            Operation::CreateUser => "createuser",
            Operation::CreateGroup => "creategroup",
            Operation::Delete => "delete",
            Operation::Rename => "rename",
            Operation::Chown => "chown",
            Operation::AddUser => "adduser",
            Operation::RemoveUser => "removeuser",
            Operation::Membership => "membership",
            Operation::Examine => "examine",
            Operation::ListOwned => "listowned",
            Operation::ListEntries => "listentries",
            Operation::ListMax => "listmax",
            Operation::SetMax => "setmax",
            Operation::SetFields => "setfields",
        }
    }

    /// The operation's own switches in the order of its table.
    pub fn parameters(self) -> &'static [Parameter]
        ensures { result.now ≡ parameters_of self }
    {
        match self {
            Operation::AddEntry => &ADD_ENTRY,
            Operation::ListVldb => &LIST_VLDB,
            Operation::Lock | Operation::Unlock => &VOLUME,
            Operation::UnlockVldb => &UNLOCK_VLDB,
            Operation::DelEntry => &DEL_ENTRY,
            Operation::AddSite | Operation::RemSite | Operation::ChangeLoc => &SITE,
            Operation::ListAddrs | Operation::ListMax => &[],
            Operation::ChangeAddr => &CHANGE_ADDR,
            Operation::CreateUser => &CREATE_USER,
            Operation::CreateGroup => &CREATE_GROUP,
            Operation::Delete | Operation::Membership | Operation::Examine | Operation::ListOwned =>
                &ENTRIES,
            Operation::Rename => &RENAME,
            Operation::Chown => &CHOWN,
            Operation::AddUser | Operation::RemoveUser => &MEMBERS,
            Operation::ListEntries => &LIST_ENTRIES,
            Operation::SetMax => &SET_MAX,
            Operation::SetFields => &SET_FIELDS,
        }
    }
}

impl Switch {
    /// The switch's whole word, without its `-`.
    pub fn name(self) -> &'static str
        ensures { result.now ≡ switch_name self }
    {
        match self {
            Switch::Name => "name",
            Switch::Server => "server",
            Switch::Partition => "partition",
            Switch::Id => "id",
            Switch::Locked => "locked",
            Switch::Quiet => "quiet",
            Switch::NoSort => "nosort",
            Switch::OldAddr => "oldaddr",
            Switch::NewAddr => "newaddr",
            Switch::Remove => "remove",
            Switch::Owner => "owner",
            Switch::NameOrId => "nameorid",
            Switch::OldName => "oldname",
            Switch::NewName => "newname",
            Switch::User => "user",
            Switch::Group => "group",
            Switch::Users => "users",
            Switch::Groups => "groups",
            Switch::Access => "access",
            Switch::GroupQuota => "groupquota",
            Switch::NoAuth => "noauth",
            Switch::LocalAuth => "localauth",
        }
    }
}
