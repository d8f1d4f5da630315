//! Values that are one item each: how one is read, passed over and written, so that there are lists of them.
use crate::faults::{NoValue, NotRead};
use crate::forms::{Form, SkipForm};
use crate::sinks::{Sink, Telling};
use crate::sources::Source;
use std::alloc::Global;
use ubik_types::{Bytes, NoMemory, bytes_of};

/// A number of 32 bits.
pub struct NumberItem;

impl<'a, S: Source<'a>> Form<'a, S, u32> for NumberItem {
    ghost use Rattle.call_grammar.specs.Items.{Number};

    ghost value_at = { S.item_at Number };

    fn read(_alloc: Global, from: &mut S) -> Result<u32, NotRead> {
        Ok(from.number()?)
    }
}

impl<W: Sink> Telling<W, u32> for NumberItem {
    ghost use Rattle.call_grammar.specs.Items.{Number};

    ghost text = { W.text_of Number };

    ghost HasText = { λ _. Unit {0} };

    fn write(out: &mut W, n: &u32) -> Result<(), NoMemory> {
        out.number(*n)
    }
}

/// A number with a sign.
pub struct SignedItem;

impl<'a, S: Source<'a>> Form<'a, S, i32> for SignedItem {
    ghost use Rattle.call_grammar.specs.Items.{Signed};

    ghost value_at = { S.item_at Signed };

    fn read(_alloc: Global, from: &mut S) -> Result<i32, NotRead> {
        Ok(from.signed()?)
    }
}

impl<'a, S: Source<'a>> SkipForm<'a, S, i32> for SignedItem {
    ghost use Rattle.call_grammar.specs.Items.{Signed};

    ghost value_at = { S.item_at Signed };

    fn skip(from: &mut S) -> Result<(), NoValue> {
        from.signed()?;
        Ok(())
    }
}

impl<W: Sink> Telling<W, i32> for SignedItem {
    ghost use Rattle.call_grammar.specs.Items.{Signed};

    ghost text = { W.text_of Signed };

    ghost HasText = { λ _. Unit {0} };

    fn write(out: &mut W, z: &i32) -> Result<(), NoMemory> {
        out.signed(*z)
    }
}

/// A string of at most [`crate::MAX_TEXT`] bytes.
pub struct TextItem;

impl<'a, S: Source<'a>> Form<'a, S, Bytes> for TextItem {
    ghost use Rattle.call_grammar.specs.Items.{Text};

    ghost value_at = { S.item_at Text };

    fn read(alloc: Global, from: &mut S) -> Result<Bytes, NotRead> {
        let text = from.text()?;
        Ok(bytes_of(alloc, text)?)
    }
}

impl<'a, S: Source<'a>> SkipForm<'a, S, Bytes> for TextItem {
    ghost use Rattle.call_grammar.specs.Items.{Text};

    ghost value_at = { S.item_at Text };

    fn skip(from: &mut S) -> Result<(), NoValue> {
        from.text()?;
        Ok(())
    }
}

impl<W: Sink> Telling<W, Bytes> for TextItem {
    ghost use Rattle.call_grammar.specs.Items.{IsText, Text};

    ghost text = { W.text_of Text };

    ghost HasText = { IsText };

    fn write(out: &mut W, text: &Bytes) -> Result<(), NoMemory> {
        out.text(text.as_slice())
    }
}
