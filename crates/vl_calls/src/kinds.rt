//! The kinds of calls.
ghost use Rattle.std.specs.Prelude.{◌≡◌};
ghost use Rattle.vl_calls.specs.Calls.{kind_number, kind_numbered};
ghost use Rattle.vl_calls.specs.Words.{kind_named, kind_word};
ghost use Rattle.vl_calls.specs.Writes.{is_write};

/// All kinds, in the order of their numbers.
pub const KINDS: [CallKind; 12] = [
    CallKind::GetNewVolumeId,
    CallKind::CreateEntry,
    CallKind::DeleteEntry,
    CallKind::GetEntryById,
    CallKind::GetEntryByName,
    CallKind::ReplaceEntry,
    CallKind::SetLock,
    CallKind::ReleaseLock,
    CallKind::ListAttributes,
    CallKind::GetAddrs,
    CallKind::ChangeAddr,
    CallKind::Probe,
];

/// What a call asks for.
#[derive(Clone, Copy, Debug, PartialEq, Eq)]
pub enum CallKind {
    GetNewVolumeId,
    CreateEntry,
    DeleteEntry,
    GetEntryById,
    GetEntryByName,
    ReplaceEntry,
    SetLock,
    ReleaseLock,
    ListAttributes,
    GetAddrs,
    ChangeAddr,
    Probe,
}

impl CallKind {
    /// Whether a call of this kind may change the database. Only the sync site takes such a call, and nobody asks it anew where
    /// no answer came.
    pub fn is_write(self) -> bool
        ensures { result ≡ is_write self }
    {
        match self {
            CallKind::GetEntryById
            | CallKind::GetEntryByName
            | CallKind::ListAttributes
            | CallKind::GetAddrs
            | CallKind::Probe => false,
            CallKind::GetNewVolumeId
            | CallKind::CreateEntry
            | CallKind::DeleteEntry
            | CallKind::ReplaceEntry
            | CallKind::SetLock
            | CallKind::ReleaseLock
            | CallKind::ChangeAddr => true,
        }
    }

    /// The number with which a call of this kind begins.
    pub fn number(self) -> u32
        ensures { result ≡ kind_number self }
    {
        match self {
            CallKind::GetNewVolumeId => 1,
            CallKind::CreateEntry => 2,
            CallKind::DeleteEntry => 3,
            CallKind::GetEntryById => 4,
            CallKind::GetEntryByName => 5,
            CallKind::ReplaceEntry => 6,
            CallKind::SetLock => 7,
            CallKind::ReleaseLock => 8,
            CallKind::ListAttributes => 9,
            CallKind::GetAddrs => 10,
            CallKind::ChangeAddr => 11,
            CallKind::Probe => 12,
        }
    }

    /// The kind of this number.
    pub fn numbered(number: u32) -> Option<CallKind>
        ensures { result ≡ kind_numbered number }
    {
        Some(match number {
            1 => CallKind::GetNewVolumeId,
            2 => CallKind::CreateEntry,
            3 => CallKind::DeleteEntry,
            4 => CallKind::GetEntryById,
            5 => CallKind::GetEntryByName,
            6 => CallKind::ReplaceEntry,
            7 => CallKind::SetLock,
            8 => CallKind::ReleaseLock,
            9 => CallKind::ListAttributes,
            10 => CallKind::GetAddrs,
            11 => CallKind::ChangeAddr,
            12 => CallKind::Probe,
            _ => return None,
        })
    }

    /// The name of the kind, which is the first word of a call.
    pub fn word(self) -> &'static [u8]
        ensures { result.now ≡ kind_word self }
    {
        match self {
            CallKind::GetNewVolumeId => b"getnewvolumeid",
            CallKind::CreateEntry => b"createentry",
            CallKind::DeleteEntry => b"deleteentry",
            CallKind::GetEntryById => b"getentrybyid",
            CallKind::GetEntryByName => b"getentrybyname",
            CallKind::ReplaceEntry => b"replaceentry",
            CallKind::SetLock => b"setlock",
            CallKind::ReleaseLock => b"releaselock",
            CallKind::ListAttributes => b"listattributes",
            CallKind::GetAddrs => b"getaddrs",
            CallKind::ChangeAddr => b"changeaddr",
            CallKind::Probe => b"probe",
        }
    }

    /// The kind of this name.
    #[tactic(auto, unfolding(crate::specs::Words::kind_named))]
    pub fn named(word: &[u8]) -> Option<CallKind>
        ensures { result ≡ kind_named word.now }
    {
        KINDS.iter().copied().find(|kind| kind.word() == word)
    }
}
