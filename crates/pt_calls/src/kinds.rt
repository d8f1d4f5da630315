//! The kinds of calls.
ghost use Rattle.std.specs.Prelude.{◌≡◌};
ghost use Rattle.pt_calls.specs.Calls.{kind_number, kind_numbered};
ghost use Rattle.pt_calls.specs.Words.{kind_named, kind_word};
ghost use Rattle.pt_calls.specs.Writes.{is_write};

/// All kinds, in the order of their numbers.
pub const KINDS: [CallKind; 17] = [
    CallKind::NewEntry,
    CallKind::INewEntry,
    CallKind::NameToId,
    CallKind::IdToName,
    CallKind::Delete,
    CallKind::AddToGroup,
    CallKind::RemoveFromGroup,
    CallKind::GetCps,
    CallKind::ListMax,
    CallKind::SetMax,
    CallKind::ListEntry,
    CallKind::ListEntries,
    CallKind::ChangeEntry,
    CallKind::SetFields,
    CallKind::ListElements,
    CallKind::IsMemberOf,
    CallKind::ListOwned,
];

/// What a call asks for.
#[derive(Clone, Copy, Debug, PartialEq, Eq)]
pub enum CallKind {
    NewEntry,
    INewEntry,
    NameToId,
    IdToName,
    Delete,
    AddToGroup,
    RemoveFromGroup,
    GetCps,
    ListMax,
    SetMax,
    ListEntry,
    ListEntries,
    ChangeEntry,
    SetFields,
    ListElements,
    IsMemberOf,
    ListOwned,
}

impl CallKind {
    /// Whether a call of this kind may change the database. Only the sync site takes such a call, and nobody asks it anew where
    /// no answer came.
    pub fn is_write(self) -> bool
        ensures { result ≡ is_write self }
    {
        match self {
            CallKind::NameToId
            | CallKind::IdToName
            | CallKind::GetCps
            | CallKind::ListMax
            | CallKind::ListEntry
            | CallKind::ListEntries
            | CallKind::ListElements
            | CallKind::IsMemberOf
            | CallKind::ListOwned => false,
            CallKind::NewEntry
            | CallKind::INewEntry
            | CallKind::Delete
            | CallKind::AddToGroup
            | CallKind::RemoveFromGroup
            | CallKind::SetMax
            | CallKind::ChangeEntry
            | CallKind::SetFields => true,
        }
    }

    /// The number with which a call of this kind begins.
    pub fn number(self) -> u32
        ensures { result ≡ kind_number self }
    {
        match self {
            CallKind::NewEntry => 1,
            CallKind::INewEntry => 2,
            CallKind::NameToId => 3,
            CallKind::IdToName => 4,
            CallKind::Delete => 5,
            CallKind::AddToGroup => 6,
            CallKind::RemoveFromGroup => 7,
            CallKind::GetCps => 8,
            CallKind::ListMax => 9,
            CallKind::SetMax => 10,
            CallKind::ListEntry => 11,
            CallKind::ListEntries => 12,
            CallKind::ChangeEntry => 13,
            CallKind::SetFields => 14,
            CallKind::ListElements => 15,
            CallKind::IsMemberOf => 16,
            CallKind::ListOwned => 17,
        }
    }

    /// The kind of this number.
    pub fn numbered(number: u32) -> Option<CallKind>
        ensures { result ≡ kind_numbered number }
    {
        Some(match number {
            1 => CallKind::NewEntry,
            2 => CallKind::INewEntry,
            3 => CallKind::NameToId,
            4 => CallKind::IdToName,
            5 => CallKind::Delete,
            6 => CallKind::AddToGroup,
            7 => CallKind::RemoveFromGroup,
            8 => CallKind::GetCps,
            9 => CallKind::ListMax,
            10 => CallKind::SetMax,
            11 => CallKind::ListEntry,
            12 => CallKind::ListEntries,
            13 => CallKind::ChangeEntry,
            14 => CallKind::SetFields,
            15 => CallKind::ListElements,
            16 => CallKind::IsMemberOf,
            17 => CallKind::ListOwned,
            _ => return None,
        })
    }

    /// The name of the kind, which is the first word of a call.
    pub fn word(self) -> &'static [u8]
        ensures { result.now ≡ kind_word self }
    {
        match self {
            CallKind::NewEntry => b"newentry",
            CallKind::INewEntry => b"inewentry",
            CallKind::NameToId => b"nametoid",
            CallKind::IdToName => b"idtoname",
            CallKind::Delete => b"delete",
            CallKind::AddToGroup => b"addtogroup",
            CallKind::RemoveFromGroup => b"removefromgroup",
            CallKind::GetCps => b"getcps",
            CallKind::ListMax => b"listmax",
            CallKind::SetMax => b"setmax",
            CallKind::ListEntry => b"listentry",
            CallKind::ListEntries => b"listentries",
            CallKind::ChangeEntry => b"changeentry",
            CallKind::SetFields => b"setfields",
            CallKind::ListElements => b"listelements",
            CallKind::IsMemberOf => b"ismemberof",
            CallKind::ListOwned => b"listowned",
        }
    }

    /// The kind of this name.
    #[tactic(auto, unfolding(crate::specs::Words::kind_named))]
    pub fn named(word: &[u8]) -> Option<CallKind>
        ensures { result ≡ kind_named word.now }
    {
        KINDS.iter().copied().find(|kind| kind.word() == word)
    }
}
