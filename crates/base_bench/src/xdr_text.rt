//! Writes an XDR text and reads it back: half of it is one opaque, and half are numbers.
ghost use Rattle.std.specs.Prelude.{◌≡◌, ◌++◌, ℕ, List, IfOk, OnOk, replicate, true};
ghost use Rattle.xdr_base.specs.Spelling.{opaque, word};
ghost use Rattle.base_bench.specs.Numbers.{numbers};

use std::alloc::Global;
use ubik_types::{Bytes, NoMemory};
use xdr_base::{XdrReader, XdrWriter};

/// Writes so many numbers, from 0 on.
fn put_numbers(writer: &mut XdrWriter, count: u32) -> Result<(), NoMemory>
    ensures { OnOk result (writer.new ≡ writer.old ++ numbers 0 count) }
{
    for number in 0..count {
        writer.put_u32(number)?;
    }
    Ok(())
}

/// A text of one opaque of so many zero bytes, and so many numbers.
fn long_text(alloc: Global, len: u32, count: u32) -> Result<Bytes, NoMemory>
    ensures { IfOk result (λ text. text ≡ opaque (replicate len 0) ++ numbers 0 count) }
{
    let zeros = vec![in alloc; 0; len as usize]?;
    let mut writer = XdrWriter::new(alloc);
    writer.put_bytes(&zeros)?;
    put_numbers(&mut writer, count)?;
    Ok(writer.finish())
}

/// Whether the next number is this one.
fn next_is(reader: &mut XdrReader<'_>, number: u32) -> bool
    ensures { (after : List ℕ) → reader.old.rest ≡ word number ++ after → (result ≡ true) × (reader.new.rest ≡ after) }
{
    match reader.get_u32() {
        Ok(found) => found == number,
        Err(_) => false,
    }
}

/// Whether so many numbers follow, from 0 on, and nothing more.
fn reads_numbers(reader: &mut XdrReader<'_>, count: u32) -> bool
    ensures { reader.old.rest ≡ numbers 0 count → result ≡ true }
{
    for number in 0..count {
        if !next_is(reader, number) {
            return false;
        }
    }
    reader.end().is_ok()
}

/// Whether a text of an opaque and numbers is read back whole.
fn reads_back(text: &[u8], len: u32, count: u32) -> bool
    ensures { text.now ≡ opaque (replicate len 0) ++ numbers 0 count → result ≡ true }
{
    let mut reader = XdrReader::new(text);
    match reader.get_bytes(len) {
        Ok(bytes) => bytes.len() == len as usize && reads_numbers(&mut reader, count),
        Err(_) => false,
    }
}

/// Whether a text of so many kibibytes goes both ways, as it does.
pub fn goes_both_ways(alloc: Global, kibibytes: u16) -> Result<bool, NoMemory>
    ensures { IfOk result (λ whole. whole ≡ true) }
{
    let len = u32::from(kibibytes) * 512;
    let count = u32::from(kibibytes) * 128;
    let text = long_text(alloc, len, count)?;
    Ok(reads_back(text.as_slice(), len, count))
}
