//! Answers, read from their bytes.
#![tactic(auto, unfolding(crate::specs::Answers::answer_at))]

ghost use Rattle.std.specs.Prelude.{◌≡◌, IfOk, IfSome, Some};
ghost use Rattle.call_grammar.specs.Reading.{Gives, Shows};
ghost use Rattle.vl_calls.specs.declared.answers.AnswerKind.TheVariants as tells;
ghost use Rattle.vl_calls.specs.declared.answers.VlAnswer.{VlAnswer};
ghost use Rattle.vl_calls.specs.Answers.{IsAnswer, answer_at, answer_kind, answer_of, answer_spelling, asked_for};

use crate::answers::{AnswerKind, VlAnswer};
use crate::forms::EntryForm;
use crate::kinds::CallKind;
use crate::limits::{MAX_HOSTS, MAX_PAGE};
use call_grammar::{Form, NotRead, NumberItem, Source, at_end, read_list};
use std::alloc::Global;
use ubik_types::NoMemory;
use vldb_entries::VlEntry;
use xdr_base::XdrReader;

/// The answer to a call of this kind that these bytes spell, all of them; none where they spell none.
#[tactic(auto)]
pub fn read_answer(
    alloc: Global,
    kind: CallKind,
    bytes: &[u8],
) -> Result<Option<VlAnswer>, NoMemory>
    // What is read is spelled so.
    ensures found { IfOk result (λ read. IfSome read (λ a. IsAnswer a × (answer_kind a ≡ asked_for kind) × (bytes.now ≡ answer_spelling a))) }
    // What is spelled so is read.
    ensures only { (a : VlAnswer) → IsAnswer a → answer_kind a ≡ asked_for kind → bytes.now ≡ answer_spelling a
        → IfOk result (λ read. read ≡ Some a) }
    ensures exact { IfOk result (λ read. read ≡ answer_of (asked_for kind) bytes.now) }
{
    match whole_answer(alloc, kind.answer(), bytes) {
        Ok(answer) => Ok(Some(answer)),
        Err(NotRead::None) => Ok(None),
        Err(NotRead::NoMemory) => Err(NoMemory),
    }
}

#[tactic(auto, unfolding(crate::specs::Answers::answer_of))]
fn whole_answer(alloc: Global, kind: AnswerKind, bytes: &[u8]) -> Result<VlAnswer, NotRead>
    ensures { Shows result (answer_of kind bytes.now) }
{
    let mut from = XdrReader::new(bytes);
    let answer = answer(alloc, kind, &mut from)?;
    at_end(&from)?;
    Ok(answer)
}

/// The answer of this kind.
#[tactic(auto)]
fn answer(alloc: Global, kind: AnswerKind, from: &mut XdrReader<'_>) -> Result<VlAnswer, NotRead>
    ensures { Gives (λ a. a) from.new result (answer_at kind from.old) }
{
    match kind {
        AnswerKind::Done => nothing(from),
        AnswerKind::Id => id(from),
        AnswerKind::Entry => one_entry(alloc, from),
        AnswerKind::Entries => some_entries(alloc, from),
        AnswerKind::Hosts => hosts(alloc, from),
    }
}

fn nothing(_from: &mut XdrReader<'_>) -> Result<VlAnswer, NotRead>
    ensures { Gives (λ a. a) _from.new result (answer_at tells.Done _from.old) }
{
    Ok(VlAnswer::Done)
}

fn id(from: &mut XdrReader<'_>) -> Result<VlAnswer, NotRead>
    ensures { Gives (λ a. a) from.new result (answer_at tells.Id from.old) }
{
    Ok(VlAnswer::Id(from.number()?))
}

fn one_entry(alloc: Global, from: &mut XdrReader<'_>) -> Result<VlAnswer, NotRead>
    ensures { Gives (λ a. a) from.new result (answer_at tells.Entry from.old) }
{
    let entry = <EntryForm as Form<'_, XdrReader<'_>, VlEntry>>::read(alloc, from)?;
    Ok(VlAnswer::Entry(entry))
}

fn some_entries(alloc: Global, from: &mut XdrReader<'_>) -> Result<VlAnswer, NotRead>
    ensures { Gives (λ a. a) from.new result (answer_at tells.Entries from.old) }
{
    let entries = read_list::<XdrReader<'_>, VlEntry, EntryForm>(alloc, from, MAX_PAGE)?;
    Ok(VlAnswer::Entries(entries))
}

fn hosts(alloc: Global, from: &mut XdrReader<'_>) -> Result<VlAnswer, NotRead>
    ensures { Gives (λ a. a) from.new result (answer_at tells.Hosts from.old) }
{
    let hosts = read_list::<XdrReader<'_>, u32, NumberItem>(alloc, from, MAX_HOSTS)?;
    Ok(VlAnswer::Hosts(hosts))
}
