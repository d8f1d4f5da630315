//! Calls and answers in words, as scripts have them.
ghost use Rattle.std.specs.Prelude.{◌≡◌, IfOk};
ghost use Rattle.std.specs.List.{list_all};
ghost use Rattle.call_grammar.specs.Reading.{Shows};
ghost use Rattle.call_grammar.specs.Words.{are_visible};
ghost use Rattle.pt_calls.specs.Answers.{AnswerHasSpelling};
ghost use Rattle.pt_calls.specs.Words.{call_in_words, call_of_words, has_words, reply_in_words, words_of_answer};

use crate::answer_reading::read_answer;
use crate::answer_writing::put_answer;
use crate::answers::{PtAnswer, PtEntry};
use crate::calls::PtCall;
use crate::kinds::CallKind;
use crate::reading::call_in;
use crate::skipping::kind_of;
use crate::writing::spell_call;
use call_grammar::{NotRead, WordReader, WordWriter, are_visible};
use std::alloc::Global;
use ubik_types::{Bytes, NoMemory, bytes_of};

/// The bytes of the call that these words name; none exactly where they name none.
pub fn call_words(alloc: Global, words: &[Bytes]) -> Result<Option<Bytes>, NoMemory>
    ensures { IfOk result (λ bytes. bytes ≡ call_of_words words.now) }
{
    match call_in_words(alloc, words) {
        Ok(call) => Ok(Some(spell_call(alloc, &call)?)),
        Err(NotRead::None) => Ok(None),
        Err(NotRead::NoMemory) => Err(NoMemory),
    }
}

#[tactic(auto, unfolding(crate::specs::Words::call_in_words))]
fn call_in_words(alloc: Global, words: &[Bytes]) -> Result<PtCall, NotRead>
    ensures { Shows result (call_in_words words.now) }
{
    let mut from = WordReader::new(words);
    let name = from.word()?;
    let Some(kind) = CallKind::named(name) else {
        return Err(NotRead::None);
    };
    let call = call_in(alloc, kind, &mut from)?;
    if !from.is_at_end() {
        return Err(NotRead::None);
    }
    Ok(call)
}

/// The words of the answer to a call, joined by blanks; none exactly where the bytes are no call, or no answer to it, or a name
/// in the answer has no word.
#[tactic(auto, unfolding(crate::specs::Words::reply_in_words))]
pub fn reply_words(alloc: Global, call: &[u8], reply: &[u8]) -> Result<Option<Bytes>, NoMemory>
    ensures { IfOk result (λ words. words ≡ reply_in_words call.now reply.now) }
{
    let Some(kind) = kind_of(call) else {
        return Ok(None);
    };
    let Some(answer) = read_answer(alloc, kind, reply)? else {
        return Ok(None);
    };
    words_of(alloc, &answer)
}

/// The words of an answer, joined by blanks.
fn words_of(alloc: Global, answer: &PtAnswer) -> Result<Option<Bytes>, NoMemory>
    requires { AnswerHasSpelling answer.now }
    ensures { IfOk result (λ words. words ≡ words_of_answer answer.now) }
{
    if !has_words(answer) {
        return Ok(None);
    }
    let mut out = WordWriter::new(alloc);
    put_answer(&mut out, answer)?;
    let text = out.finish();
    match text.as_slice() {
        [] => Ok(Some(text)),
        [_, words @ ..] => Ok(Some(bytes_of(alloc, words)?)),
    }
}

/// Whether each name in an answer has a word.
fn has_words(answer: &PtAnswer) -> bool
    ensures { result ≡ has_words answer.now }
{
    match answer {
        PtAnswer::Names(names) => have_words(names.as_slice()),
        PtAnswer::Entry(entry) => are_visible(entry.name.as_slice()),
        PtAnswer::Entries(entries) => have_visible_names(entries.as_slice()),
        _ => true,
    }
}

fn have_words(names: &[Bytes]) -> bool
    ensures { result ≡ list_all are_visible names.now }
{
    names.iter().all(|name| are_visible(name.as_slice()))
}

fn have_visible_names(entries: &[PtEntry]) -> bool
    ensures { result ≡ list_all (λ e. are_visible e.name) entries.now }
{
    entries
        .iter()
        .all(|entry| are_visible(entry.name.as_slice()))
}
