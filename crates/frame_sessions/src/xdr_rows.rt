//! Rows of XDR items.
use crate::frame_texts::fault_text;
use crate::tokens::Token::{self, Digits, Number, Quoted, Signed, Truth, Word};
use crate::tokens::{text_of, unquoted};
use script_words::signed_number;
use session_rows::{Fault, Report, bytes_in, number_in};
use std::alloc::Global;
use ubik_calls::FrameFault;
use ubik_types::Bytes;
use xdr_base::{XdrFault, XdrReader, XdrWriter};

/// The most bytes of an opaque that is written and read again, or damaged.
pub const LONGEST_OPAQUE: u32 = 8;

/// How an item is read.
#[derive(Clone, Copy)]
enum Item {
    Unsigned,
    Signed,
    Truth,
    /// An opaque of at most so many bytes.
    Opaque(u32),
    /// A count of at most so many.
    Count(u32),
    /// That nothing is left.
    End,
}

/// What the item that a text stands for is written as. `Fault::Form` where it stands for none of this kind, or for too long an opaque.
fn written(alloc: Global, kind: &str, text: &str) -> Result<Bytes, Fault> {
    let mut writer = XdrWriter::new(alloc);
    match (kind, text) {
        ("u32", _) => writer.put_u32(number_in(text)?)?,
        ("i32", _) => writer.put_i32(signed_number(text.as_bytes()).ok_or(Fault::Form)?)?,
        ("bool", "yes") => writer.put_bool(true)?,
        ("bool", "no") => writer.put_bool(false)?,
        ("opaque", _) => {
            let inner = unquoted(alloc, text)?;
            if inner.len() > LONGEST_OPAQUE as usize {
                return Err(Fault::Form);
            }
            writer.put_bytes(&inner)?;
        }
        _ => return Err(Fault::Form),
    }
    Ok(writer.finish())
}

impl Item {
    /// The item of a word: `u32`, `i32`, `bool`, `bytes MOST`, `count MOST` or `end`. `Fault::Form` where it is another one.
    fn of(word: &str) -> Result<Item, Fault> {
        match word.split_once(' ') {
            Some(("bytes", most)) => Ok(Item::Opaque(number_in(most)?)),
            Some(("count", most)) => Ok(Item::Count(number_in(most)?)),
            Some(_) => Err(Fault::Form),
            None => match word {
                "u32" => Ok(Item::Unsigned),
                "i32" => Ok(Item::Signed),
                "bool" => Ok(Item::Truth),
                "end" => Ok(Item::End),
                _ => Err(Fault::Form),
            },
        }
    }

    fn read<'a>(self, reader: &mut XdrReader<'a>) -> Result<Token<'a>, XdrFault> {
        match self {
            Item::Unsigned => Ok(Number(reader.get_u32()?)),
            Item::Signed => Ok(Signed(reader.get_i32()?)),
            Item::Truth => Ok(Truth(reader.get_bool()?)),
            Item::Opaque(most) => Ok(Quoted(reader.get_bytes(most)?)),
            Item::Count(most) => Ok(Number(reader.get_count(most)?)),
            Item::End => {
                reader.end()?;
                Ok(Word("nothing left"))
            }
        }
    }
}

/// Reads an item: what it is, or which fault, in words.
fn item_text(alloc: Global, reader: &mut XdrReader, item: Item) -> Result<String, Fault> {
    match item.read(reader) {
        Ok(value) => text_of(alloc, &[("", value)]),
        Err(fault) => fault_text(alloc, FrameFault::Xdr(fault)),
    }
}

/// `u32 NUMBER -> BYTES`, and so `i32`, `bool` and `opaque`: three rows, of what is written, read back, and left. Gives the bytes.
pub fn item_rows(
    alloc: Global,
    report: &mut Report,
    kind: &str,
    text: &str,
    expected: &str,
) -> Result<Vec<u8>, Fault> {
    let written = written(alloc, kind, text)?;
    report.row(
        expected,
        &text_of(alloc, &[("", Digits(written.as_slice()))])?,
    )?;
    let bytes = bytes_in(alloc, expected)?;
    let mut reader = XdrReader::new(&bytes);
    let item = match kind {
        "opaque" => Item::Opaque(LONGEST_OPAQUE),
        _ => Item::of(kind)?,
    };
    report.row(text, &item_text(alloc, &mut reader, item)?)?;
    report.row("nothing left", &item_text(alloc, &mut reader, Item::End)?)?;
    Ok(bytes)
}

/// `BYTES: ITEMS`: each of the items that are read one after the other, what it is, or which fault, in words. `Fault::Form` where one of them
/// is no item.
pub fn read_text(alloc: Global, input: &str) -> Result<String, Fault> {
    let (bytes, items) = input.split_once(": ").ok_or(Fault::Form)?;
    let bytes = bytes_in(alloc, bytes)?;
    let mut reader = XdrReader::new(&bytes);
    let mut text = String::new(alloc);
    for item in items.split(", ") {
        if !text.is_empty() {
            text.push_str(", ")?;
        }
        text.push_str(&item_text(alloc, &mut reader, Item::of(item)?)?)?;
    }
    Ok(text)
}

/// `BYTES: ITEMS`: how the fault of the last of these items tells of itself, if it has one. `Fault::Form` where one of them is no item.
pub fn told_text(alloc: Global, input: &str) -> Result<String, Fault> {
    let (bytes, items) = input.split_once(": ").ok_or(Fault::Form)?;
    let bytes = bytes_in(alloc, bytes)?;
    let mut reader = XdrReader::new(&bytes);
    let mut last = None;
    for item in items.split(", ") {
        last = Item::of(item)?.read(&mut reader).err();
    }
    match last {
        Some(fault) => Ok(format!(in alloc; "{fault}")?),
        None => Ok(String::from_str(alloc, "no fault")?),
    }
}

/// The text of one opaque of this many zero bytes, and then this many words.
fn long_bytes(alloc: Global, len: u32, words: u32) -> Result<Bytes, Fault> {
    let zeros = vec![in alloc; 0; len as usize]?;
    let mut writer = XdrWriter::new(alloc);
    writer.put_bytes(&zeros)?;
    for word in 0..words {
        writer.put_u32(word)?;
    }
    Ok(writer.finish())
}

/// `LEN, WORDS`: an opaque of so many bytes, how many of the words behind it are their places, and what is left.
pub fn long_text(alloc: Global, input: &str) -> Result<String, Fault> {
    let (len, words) = input.split_once(", ").ok_or(Fault::Form)?;
    let (len, words) = (number_in(len)?, number_in(words)?);
    let text = long_bytes(alloc, len, words)?;
    let mut reader = XdrReader::new(text.as_slice());
    let bytes = match reader.get_bytes(len) {
        Ok(bytes) => bytes.len(),
        Err(_) => 0,
    };
    let mut read: u32 = 0;
    for word in 0..words {
        if reader.get_u32() == Ok(word) {
            read = read.wrapping_add(1);
        }
    }
    let end = item_text(alloc, &mut reader, Item::End)?;
    Ok(format!(in alloc; "{bytes} bytes, {read} words, {end}")?)
}
