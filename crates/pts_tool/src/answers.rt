//! What a command takes from an answer.
ghost use Rattle.std.specs.Prelude.{◌≡◌};
ghost use Rattle.pts_tool.specs.Answers.{done_in, id_in, ids_in, maxima_in, entry_in, names_in, page_in, names_asked, counted, asked_after, page_after};
ghost use Rattle.pts_tool.specs.Pages.{is_page};

use pt_calls::{Entries, Ids, Names, PtAnswer, PtCall, PtEntry};

/// What is taken from the answer to a call.
pub(crate) trait FromAnswer: Drop {
    ghost use Rattle.std.specs.Prelude.{Option};
    ghost use Rattle.pt_calls.specs.declared.answers.PtAnswer.{PtAnswer};
    ghost use Rattle.pt_calls.specs.declared.calls.PtCall.{PtCall};

    /// What an answer to the call has; none where the answer is not one to it.
    ghost taken: { PtCall → PtAnswer → Option Self };

    fn take(call: &PtCall, answer: PtAnswer) -> Option<Self>
        ensures { result ≡ taken call.now answer };
}

/// The greatest ids that were given.
#[derive(Clone, Copy, Debug, PartialEq, Eq)]
pub(crate) struct Maxima {
    pub user: i32,
    pub group: i32,
}

impl FromAnswer for () {
    ghost taken = { done_in };

    fn take(_call: &PtCall, answer: PtAnswer) -> Option<()> {
        match answer {
            PtAnswer::Done => Some(()),
            _ => None,
        }
    }
}

impl FromAnswer for i32 {
    ghost taken = { id_in };

    fn take(_call: &PtCall, answer: PtAnswer) -> Option<i32> {
        match answer {
            PtAnswer::Id(id) => Some(id),
            PtAnswer::Ids(ids) => match ids.as_slice() {
                [id] => Some(*id),
                _ => None,
            },
            _ => None,
        }
    }
}

impl FromAnswer for Ids {
    ghost taken = { ids_in };

    fn take(_call: &PtCall, answer: PtAnswer) -> Option<Ids> {
        match answer {
            PtAnswer::Ids(ids) => Some(ids),
            _ => None,
        }
    }
}

impl FromAnswer for Maxima {
    ghost taken = { maxima_in };

    fn take(_call: &PtCall, answer: PtAnswer) -> Option<Maxima> {
        match answer {
            PtAnswer::Maxima { user, group } => Some(Maxima { user, group }),
            _ => None,
        }
    }
}

impl FromAnswer for PtEntry {
    ghost taken = { entry_in };

    fn take(_call: &PtCall, answer: PtAnswer) -> Option<PtEntry> {
        match answer {
            PtAnswer::Entry(entry) => Some(entry),
            _ => None,
        }
    }
}

impl FromAnswer for Names {
    ghost taken = { names_in };

    fn take(call: &PtCall, answer: PtAnswer) -> Option<Names> {
        match answer {
            PtAnswer::Names(names) => counted(names_asked(call), names),
            _ => None,
        }
    }
}

impl FromAnswer for Entries {
    ghost taken = { page_in };

    fn take(call: &PtCall, answer: PtAnswer) -> Option<Entries> {
        match answer {
            PtAnswer::Entries(entries) => page_after(asked_after(call), entries),
            _ => None,
        }
    }
}

/// How many names a call asks for.
fn names_asked(call: &PtCall) -> usize
    ensures { result ≡ names_asked call.now }
{
    match call {
        PtCall::IdToName { ids } => ids.as_slice().len(),
        _ => 0,
    }
}

/// Names, where they are so many.
fn counted(count: usize, names: Names) -> Option<Names>
    ensures { result ≡ counted count names }
{
    if names.as_slice().len() == count {
        Some(names)
    } else {
        None
    }
}

/// The id above which a call asks for entries.
fn asked_after(call: &PtCall) -> Option<i32>
    ensures { result ≡ asked_after call.now }
{
    match call {
        PtCall::ListEntries { after, .. } => Some(*after),
        _ => None,
    }
}

/// A page of entries behind an id, where it is one.
fn page_after(after: Option<i32>, entries: Entries) -> Option<Entries>
    ensures { result ≡ page_after after entries }
{
    let after = after?;
    if is_page(after, entries.as_slice()) {
        Some(entries)
    } else {
        None
    }
}

/// Whether the ids of entries ascend, each above this one.
fn is_page(after: i32, entries: &[PtEntry]) -> bool
    ensures { result ≡ is_page after entries.now }
{
    let mut last = after;
    for entry in entries {
        if entry.id <= last {
            return false;
        }
        last = entry.id;
    }
    true
}
