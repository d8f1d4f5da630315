//! Answers, read from their bytes.
#![tactic(auto, unfolding(crate::specs::Answers::answer_at))]

ghost use Rattle.std.specs.Prelude.{◌≡◌, IfOk, IfSome, Some};
ghost use Rattle.call_grammar.specs.Reading.{Gives, Shows};
ghost use Rattle.pt_calls.specs.declared.answers.AnswerKind.TheVariants as tells;
ghost use Rattle.pt_calls.specs.declared.answers.PtAnswer.{PtAnswer};
ghost use Rattle.pt_calls.specs.Answers.{IsAnswer, answer_at, answer_kind, answer_of, answer_spelling, asked_for};

use crate::answers::{AnswerKind, PtAnswer, PtEntry};
use crate::kinds::CallKind;
use crate::limits::{MAX_ANSWER_IDS, MAX_LIST, MAX_PAGE};
use call_grammar::{Form, NotRead, SignedItem, Source, TextItem, at_end, read_list};
use std::alloc::Global;
use ubik_types::{Bytes, NoMemory};
use xdr_base::XdrReader;

/// The answer to a call of this kind that these bytes spell, all of them; none where they spell none.
#[tactic(auto)]
pub fn read_answer(
    alloc: Global,
    kind: CallKind,
    bytes: &[u8],
) -> Result<Option<PtAnswer>, NoMemory>
    // What is read is spelled so.
    ensures found { IfOk result (λ read. IfSome read (λ a. IsAnswer a × (answer_kind a ≡ asked_for kind) × (bytes.now ≡ answer_spelling a))) }
    // What is spelled so is read.
    ensures only { (a : PtAnswer) → IsAnswer a → answer_kind a ≡ asked_for kind → bytes.now ≡ answer_spelling a
        → IfOk result (λ read. read ≡ Some a) }
    ensures exact { IfOk result (λ read. read ≡ answer_of (asked_for kind) bytes.now) }
{
    match whole_answer(alloc, kind.answer(), bytes) {
        Ok(answer) => Ok(Some(answer)),
        Err(NotRead::None) => Ok(None),
        Err(NotRead::NoMemory) => Err(NoMemory),
    }
}

#[tactic(auto, unfolding(crate::specs::Answers::answer_of))]
fn whole_answer(alloc: Global, kind: AnswerKind, bytes: &[u8]) -> Result<PtAnswer, NotRead>
    ensures { Shows result (answer_of kind bytes.now) }
{
    let mut from = XdrReader::new(bytes);
    let answer = answer(alloc, kind, &mut from)?;
    at_end(&from)?;
    Ok(answer)
}

/// The answer of this kind.
#[tactic(auto)]
fn answer(alloc: Global, kind: AnswerKind, from: &mut XdrReader<'_>) -> Result<PtAnswer, NotRead>
    ensures { Gives (λ a. a) from.new result (answer_at kind from.old) }
{
    match kind {
        AnswerKind::Done => nothing(from),
        AnswerKind::Id => id(from),
        AnswerKind::Ids => ids(alloc, from),
        AnswerKind::Names => names(alloc, from),
        AnswerKind::Maxima => maxima(from),
        AnswerKind::Truth => truth(from),
        AnswerKind::Entry => one_entry(alloc, from),
        AnswerKind::Entries => some_entries(alloc, from),
    }
}

fn nothing(_from: &mut XdrReader<'_>) -> Result<PtAnswer, NotRead>
    ensures { Gives (λ a. a) _from.new result (answer_at tells.Done _from.old) }
{
    Ok(PtAnswer::Done)
}

fn id(from: &mut XdrReader<'_>) -> Result<PtAnswer, NotRead>
    ensures { Gives (λ a. a) from.new result (answer_at tells.Id from.old) }
{
    Ok(PtAnswer::Id(from.signed()?))
}

fn ids(alloc: Global, from: &mut XdrReader<'_>) -> Result<PtAnswer, NotRead>
    ensures { Gives (λ a. a) from.new result (answer_at tells.Ids from.old) }
{
    let ids = read_list::<XdrReader<'_>, i32, SignedItem>(alloc, from, MAX_ANSWER_IDS)?;
    Ok(PtAnswer::Ids(ids))
}

fn names(alloc: Global, from: &mut XdrReader<'_>) -> Result<PtAnswer, NotRead>
    ensures { Gives (λ a. a) from.new result (answer_at tells.Names from.old) }
{
    let names = read_list::<XdrReader<'_>, Bytes, TextItem>(alloc, from, MAX_LIST)?;
    Ok(PtAnswer::Names(names))
}

fn maxima(from: &mut XdrReader<'_>) -> Result<PtAnswer, NotRead>
    ensures { Gives (λ a. a) from.new result (answer_at tells.Maxima from.old) }
{
    Ok(PtAnswer::Maxima {
        user: from.signed()?,
        group: from.signed()?,
    })
}

fn truth(from: &mut XdrReader<'_>) -> Result<PtAnswer, NotRead>
    ensures { Gives (λ a. a) from.new result (answer_at tells.Truth from.old) }
{
    Ok(PtAnswer::Truth(from.truth()?))
}

fn one_entry(alloc: Global, from: &mut XdrReader<'_>) -> Result<PtAnswer, NotRead>
    ensures { Gives (λ a. a) from.new result (answer_at tells.Entry from.old) }
{
    let entry = <EntryForm as Form<'_, XdrReader<'_>, PtEntry>>::read(alloc, from)?;
    Ok(PtAnswer::Entry(entry))
}

fn some_entries(alloc: Global, from: &mut XdrReader<'_>) -> Result<PtAnswer, NotRead>
    ensures { Gives (λ a. a) from.new result (answer_at tells.Entries from.old) }
{
    let entries = read_list::<XdrReader<'_>, PtEntry, EntryForm>(alloc, from, MAX_PAGE)?;
    Ok(PtAnswer::Entries(entries))
}

/// How an entry is read.
struct EntryForm;

#[tactic(auto, unfolding(crate::specs::Answers::entry_at))]
impl<'a> Form<'a, XdrReader<'a>, PtEntry> for EntryForm {
    ghost use Rattle.pt_calls.specs.Answers.{entry_at};

    ghost value_at = { entry_at };

    fn read(alloc: Global, from: &mut XdrReader<'a>) -> Result<PtEntry, NotRead> {
        Ok(PtEntry {
            flags: from.number()?,
            id: from.signed()?,
            owner: from.signed()?,
            creator: from.signed()?,
            quota: from.signed()?,
            count: from.number()?,
            name: <TextItem as Form<'a, XdrReader<'a>, Bytes>>::read(alloc, from)?,
        })
    }
}
