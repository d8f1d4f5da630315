//! What the location database answers.
ghost use Rattle.std.specs.Prelude.{◌≡◌};
ghost use Rattle.vl_calls.specs.Answers.{asked_for};

use crate::kinds::CallKind;
use call_grammar::Items;
use vldb_entries::VlEntry;

pub type Entries = Items<VlEntry>;

pub type Hosts = Items<u32>;

/// What an answer tells.
#[derive(Clone, Copy, Debug, PartialEq, Eq)]
pub enum AnswerKind {
    Done,
    Id,
    Entry,
    Entries,
    Hosts,
}

/// The answer to a call that took place.
#[derive(Drop)]
pub enum VlAnswer {
    /// Nothing but that the call took place.
    Done,
    /// The first of the volume ids that were taken.
    Id(u32),
    Entry(VlEntry),
    Entries(Entries),
    /// The server addresses.
    Hosts(Hosts),
}

impl CallKind {
    /// What the answer to a call of this kind tells.
    pub fn answer(self) -> AnswerKind
        ensures { result ≡ asked_for self }
    {
        match self {
            CallKind::GetNewVolumeId => AnswerKind::Id,
            CallKind::GetEntryById | CallKind::GetEntryByName => AnswerKind::Entry,
            CallKind::ListAttributes => AnswerKind::Entries,
            CallKind::GetAddrs => AnswerKind::Hosts,
            _ => AnswerKind::Done,
        }
    }
}
