//! Answers as bytes, or as words.
ghost use Rattle.std.specs.Prelude.{◌≡◌, ◌++◌, IfOk, OnOk};
ghost use Rattle.vl_calls.specs.Answers.{AnswerHasSpelling, answer_spelling, answer_text};

use crate::answers::VlAnswer;
use crate::texts::EntryText;
use call_grammar::{NumberItem, Sink, Telling, write_list};
use std::alloc::Global;
use ubik_types::{Bytes, NoMemory};
use vldb_entries::VlEntry;
use xdr_base::XdrWriter;

/// The bytes of an answer.
pub fn spell_answer(alloc: Global, answer: &VlAnswer) -> Result<Bytes, NoMemory>
    requires { AnswerHasSpelling answer.now }
    ensures { IfOk result (λ bytes. bytes ≡ answer_spelling answer.now) }
{
    let mut out = XdrWriter::new(alloc);
    put_answer(&mut out, answer)?;
    Ok(out.finish())
}

/// Writes an answer.
pub(crate) fn put_answer<W: Sink>(out: &mut W, answer: &VlAnswer) -> Result<(), NoMemory>
    requires { AnswerHasSpelling answer.now }
    ensures { OnOk result (W.written out.new ≡ W.written out.old ++ answer_text W.text_of answer.now) }
{
    match answer {
        VlAnswer::Done => Ok(()),
        VlAnswer::Id(id) => out.number(*id),
        VlAnswer::Entry(entry) => <EntryText as Telling<W, VlEntry>>::write(out, entry),
        VlAnswer::Entries(entries) => write_list::<W, VlEntry, EntryText>(out, entries.as_slice()),
        VlAnswer::Hosts(hosts) => write_list::<W, u32, NumberItem>(out, hosts.as_slice()),
    }
}
