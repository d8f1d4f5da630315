//! Answers as bytes, or as words.
ghost use Rattle.std.specs.Prelude.{◌≡◌, ◌++◌, IfOk, OnOk};
ghost use Rattle.pt_calls.specs.Answers.{AnswerHasSpelling, answer_spelling, answer_text};

use crate::answers::{PtAnswer, PtEntry};
use crate::texts::Value::Id;
use crate::texts::{EntryText, put, put_ids, put_names};
use call_grammar::{Sink, Telling, write_list};
use std::alloc::Global;
use ubik_types::{Bytes, NoMemory};
use xdr_base::XdrWriter;

/// The bytes of an answer.
pub fn spell_answer(alloc: Global, answer: &PtAnswer) -> Result<Bytes, NoMemory>
    requires { AnswerHasSpelling answer.now }
    ensures { IfOk result (λ bytes. bytes ≡ answer_spelling answer.now) }
{
    let mut out = XdrWriter::new(alloc);
    put_answer(&mut out, answer)?;
    Ok(out.finish())
}

/// Writes an answer.
pub(crate) fn put_answer<W: Sink>(out: &mut W, answer: &PtAnswer) -> Result<(), NoMemory>
    requires { AnswerHasSpelling answer.now }
    ensures { OnOk result (W.written out.new ≡ W.written out.old ++ answer_text W.text_of answer.now) }
{
    match answer {
        PtAnswer::Done => Ok(()),
        PtAnswer::Id(id) => out.signed(*id),
        PtAnswer::Ids(ids) => put_ids(out, ids.as_slice()),
        PtAnswer::Names(names) => put_names(out, names.as_slice()),
        PtAnswer::Maxima { user, group } => put(out, &[Id(user), Id(group)]),
        PtAnswer::Truth(truth) => out.truth(*truth),
        PtAnswer::Entry(entry) => <EntryText as Telling<W, PtEntry>>::write(out, entry),
        PtAnswer::Entries(entries) => write_list::<W, PtEntry, EntryText>(out, entries.as_slice()),
    }
}
