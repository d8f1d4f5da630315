//! The text of changes, as the servers of a cell send it to one another.
ghost use Rattle.std.specs.Prelude.{◌≡◌, ◌<◌, ◌-◌, ◌^◌, ◌++◌, min, length, IfOk, OnOk};
ghost use Rattle.xdr_base.specs.ChangeText.{change_spelling, text_of};
ghost use Rattle.cell_model.specs.Pieces.{change_at, put_at, cut_at, changes_in};
ghost use Rattle.ubik_write.specs.Reading.{ReadsChange};

use std::alloc::Global;
use ubik_types::{Bytes, Change, Changes, NoMemory, bytes_of, changes_new, changes_push};
use xdr_base::{XdrReader, XdrWriter};

/// The number before a put, and before a cut.
const PUT: u32 = 1;

const CUT: u32 = 2;

/// How many bytes the text of changes has, 2^64 - 1 where it has more.
pub fn text_len(changes: &Changes) -> u64
    ensures { result ≡ min (length (text_of changes.now)) (2 ^ 64 - 1) }
{
    let mut len = 0u64;
    for change in changes.as_slice() {
        len = len.saturating_add(change_len(change));
    }
    len
}

fn change_len(change: &Change) -> u64
    ensures { result ≡ length (change_spelling change.now) }
{
    match change {
        Change::Put { bytes, .. } => {
            let len = bytes.as_slice().len() as u64;
            12 + len + (4 - len % 4) % 4
        }
        Change::Cut { .. } => 8,
    }
}

/// The text of changes, which is shorter than 2^32 bytes.
pub fn text_of(alloc: Global, changes: &Changes) -> Result<Bytes, NoMemory>
    requires { length (text_of changes.now) < 2 ^ 32 }
    ensures { IfOk result (λ text. text ≡ text_of changes.now) }
{
    let mut writer = XdrWriter::new(alloc);
    for change in changes.as_slice() {
        write_change(&mut writer, change)?;
    }
    Ok(writer.finish())
}

fn write_change(writer: &mut XdrWriter, change: &Change) -> Result<(), NoMemory>
    requires { length (change_spelling change.now) < 2 ^ 32 }
    ensures { OnOk result (writer.new ≡ writer.old ++ change_spelling change.now) }
{
    match change {
        Change::Put { at, bytes } => {
            writer.put_u32(PUT)?;
            writer.put_u32(*at)?;
            writer.put_bytes(bytes.as_slice())
        }
        Change::Cut { len } => {
            writer.put_u32(CUT)?;
            writer.put_u32(*len)
        }
    }
}

/// The changes that a text spells; none where it is no text of changes.
pub fn changes_in(alloc: Global, text: &[u8]) -> Result<Option<Changes>, NoMemory>
    ensures { IfOk result (λ changes. changes ≡ changes_in text.now) }
{
    let mut changes = changes_new(alloc);
    let mut reader = XdrReader::new(text);
    // Each change has a byte at least.
    for _count in 0..text.len() {
        if reader.end().is_ok() {
            return Ok(Some(changes));
        }
        let Some(change) = read_change(alloc, &mut reader)? else {
            return Ok(None);
        };
        changes_push(&mut changes, change)?;
    }
    match reader.end() {
        Ok(()) => Ok(Some(changes)),
        Err(_) => Ok(None),
    }
}

/// The next change; none where none stands there.
fn read_change(alloc: Global, reader: &mut XdrReader) -> Result<Option<Change>, NoMemory>
    ensures { IfOk result (λ change. ReadsChange reader.new change (change_at reader.old)) }
{
    match reader.get_u32() {
        Ok(PUT) => read_put(alloc, reader),
        Ok(CUT) => Ok(read_cut(reader)),
        _ => Ok(None),
    }
}

fn read_put(alloc: Global, reader: &mut XdrReader) -> Result<Option<Change>, NoMemory>
    ensures { IfOk result (λ change. ReadsChange reader.new change (put_at reader.old)) }
{
    let Ok(at) = reader.get_u32() else {
        return Ok(None);
    };
    match reader.get_bytes(u32::MAX) {
        Ok(bytes) => {
            let bytes = bytes_of(alloc, bytes)?;
            Ok(Some(Change::Put { at, bytes }))
        }
        Err(_) => Ok(None),
    }
}

fn read_cut(reader: &mut XdrReader) -> Option<Change>
    ensures { ReadsChange reader.new result (cut_at reader.old) }
{
    match reader.get_u32() {
        Ok(len) => Some(Change::Cut { len }),
        Err(_) => None,
    }
}
