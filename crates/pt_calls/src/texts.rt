//! Values as they are written, one after the other: as bytes, or as words.
ghost use Rattle.std.specs.Prelude.{◌≡◌, ◌≤◌, ◌<◌, ◌^◌, ◌++◌, length, OnOk};
ghost use Rattle.std.specs.List.{flat_map, AllByRecursion};
ghost use Rattle.call_grammar.specs.Items.{Signed, Text};
ghost use Rattle.call_grammar.specs.Lists.{listed};
ghost use Rattle.pt_calls.specs.Answers.{entry_text, IsEntryText};
ghost use Rattle.pt_calls.specs.Shapes.{IsName};
ghost use Rattle.pt_calls.specs.Writing.{value_text, IsShort};
ghost use Rattle.pt_calls.specs.declared.limits.TheConstants.{MAX_LIST};

use crate::answers::PtEntry;
use crate::lists::{Ids, Names};
use Value::{Id, Name, Number};
use call_grammar::{SignedItem, Sink, Telling, TextItem, write_list};
use ubik_types::{Bytes, NoMemory};

/// A value, which is lent.
#[derive(Clone, Copy)]
pub(crate) enum Value<'a> {
    Number(&'a u32),
    Id(&'a i32),
    Truth(&'a bool),
    Name(&'a Bytes),
    Names(&'a Names),
    Ids(&'a Ids),
}

/// Writes values one after the other.
pub(crate) fn put<W: Sink>(out: &mut W, values: &[Value<'_>]) -> Result<(), NoMemory>
    requires { AllByRecursion IsShort values.now }
    ensures { OnOk result (W.written out.new ≡ W.written out.old ++ flat_map (value_text W.text_of) values.now) }
{
    for value in values {
        put_value(out, *value)?;
    }
    Ok(())
}

fn put_value<W: Sink>(out: &mut W, value: Value<'_>) -> Result<(), NoMemory>
    requires { IsShort value }
    ensures { OnOk result (W.written out.new ≡ W.written out.old ++ value_text W.text_of value.entry) }
{
    match value {
        Value::Number(n) => out.number(*n),
        Value::Id(id) => out.signed(*id),
        Value::Truth(truth) => out.truth(*truth),
        Value::Name(name) => out.text(name.as_slice()),
        Value::Names(names) => put_names(out, names.as_slice()),
        Value::Ids(ids) => put_ids(out, ids.as_slice()),
    }
}

/// Writes a list of names.
pub(crate) fn put_names<W: Sink>(out: &mut W, names: &[Bytes]) -> Result<(), NoMemory>
    requires count { length names.now ≤ MAX_LIST }
    requires each { AllByRecursion IsName names.now }
    ensures { OnOk result (W.written out.new ≡ W.written out.old ++ listed W.text_of (W.text_of Text) names.now) }
{
    write_list::<W, Bytes, TextItem>(out, names)
}

/// Writes a list of ids.
pub(crate) fn put_ids<W: Sink>(out: &mut W, ids: &[i32]) -> Result<(), NoMemory>
    requires { length ids.now < 2 ^ 32 }
    ensures { OnOk result (W.written out.new ≡ W.written out.old ++ listed W.text_of (W.text_of Signed) ids.now) }
{
    write_list::<W, i32, SignedItem>(out, ids)
}

/// How an entry is written, as an answer tells it.
pub(crate) struct EntryText;

impl<W: Sink> Telling<W, PtEntry> for EntryText {
    ghost text = { entry_text W.text_of };

    ghost HasText = { IsEntryText };

    #[tactic(auto, unfolding(crate::specs::Answers::entry_text, crate::specs::Answers::IsEntryText))]
    fn write(out: &mut W, e: &PtEntry) -> Result<(), NoMemory> {
        put(
            out,
            &[
                Number(&e.flags),
                Id(&e.id),
                Id(&e.owner),
                Id(&e.creator),
                Id(&e.quota),
                Number(&e.count),
                Name(&e.name),
            ],
        )
    }
}
