//! What the protection database answers.
ghost use Rattle.std.specs.Prelude.{◌≡◌};
ghost use Rattle.pt_calls.specs.Answers.{asked_for};

use crate::kinds::CallKind;
use crate::lists::{Ids, Names};
use call_grammar::Items;
use ubik_types::Bytes;

/// An entry, as an answer tells it. `count` is how many groups it is in, or how many members it has.
#[derive(Drop)]
pub struct PtEntry {
    pub flags: u32,
    pub id: i32,
    pub owner: i32,
    pub creator: i32,
    pub quota: i32,
    pub count: u32,
    pub name: Bytes,
}

pub type Entries = Items<PtEntry>;

/// What an answer tells.
#[derive(Clone, Copy, Debug, PartialEq, Eq)]
pub enum AnswerKind {
    Done,
    Id,
    Ids,
    Names,
    Maxima,
    Truth,
    Entry,
    Entries,
}

/// The answer to a call that took place.
#[derive(Drop)]
pub enum PtAnswer {
    /// Nothing but that the call took place.
    Done,
    Id(i32),
    Ids(Ids),
    Names(Names),
    /// The greatest user id and the least group id that were given.
    Maxima { user: i32, group: i32 },
    Truth(bool),
    Entry(PtEntry),
    Entries(Entries),
}

impl CallKind {
    /// What the answer to a call of this kind tells.
    pub fn answer(self) -> AnswerKind
        ensures { result ≡ asked_for self }
    {
        match self {
            CallKind::NewEntry => AnswerKind::Id,
            CallKind::NameToId | CallKind::GetCps | CallKind::ListElements | CallKind::ListOwned =>
                AnswerKind::Ids,
            CallKind::IdToName => AnswerKind::Names,
            CallKind::ListMax => AnswerKind::Maxima,
            CallKind::IsMemberOf => AnswerKind::Truth,
            CallKind::ListEntry => AnswerKind::Entry,
            CallKind::ListEntries => AnswerKind::Entries,
            _ => AnswerKind::Done,
        }
    }
}
