//! Rows that tell how calls and answers are spelled: each function tells what was found in place of what a row expects.
use crate::answers::answer_words;
use crate::bytes::words_in;
use db_image::{DraftService, DraftWords};
use session_rows::{Fault, bytes_in};
use std::alloc::Global;
use std::str;
use ubik_types::{Bytes, bytes_of};
use vl_calls::{kind_of, read_answer, read_call, reply_words, spell_answer, spell_call};
use vl_database::VlService;

/// The longest call and answer of which each part is tried, in bytes.
const MAX_TRIED: usize = 255;

/// The bytes of a call, which is given in words, or as bytes behind `bytes`.
pub fn call_in(alloc: Global, text: &str) -> Result<Bytes, Fault> {
    if let Some(("bytes", bytes)) = text.split_once(' ') {
        return Ok(Bytes::new(bytes_in(alloc, bytes)?));
    }
    let words = words_in(alloc, text)?;
    VlService::call_words(alloc, words.as_slice())?.ok_or(Fault::Form)
}

/// What is found where `BYTES` is to be the call that words name: the words, or what differs.
pub fn found_call(alloc: Global, bytes: &str, words: &str) -> Result<String, Fault> {
    let bytes = bytes_in(alloc, bytes)?;
    let fault = match call_fault(alloc, bytes.as_slice(), words)? {
        Some(fault) => Some(fault),
        None => words_fault(alloc, bytes.as_slice(), words)?,
    };
    Ok(String::from_str(alloc, fault.unwrap_or(words))?)
}

/// What differs where these bytes are to be a call that begins with the first of the words.
fn call_fault(alloc: Global, bytes: &[u8], words: &str) -> Result<Option<&'static str>, Fault> {
    let Some(call) = read_call(alloc, bytes)? else {
        return Ok(Some("no call"));
    };
    if spell_call(alloc, &call)?.as_slice() != bytes {
        return Ok(Some("a call of other bytes"));
    }
    let name = words.split_once(' ').map_or(words, |(name, _)| name);
    if kind_of(bytes) != Some(call.kind()) || call.kind().word() != name.as_bytes() {
        return Ok(Some("a call of another kind"));
    }
    if has_call_inside(alloc, bytes)? {
        return Ok(Some("a part that is a call"));
    }
    Ok(None)
}

/// Whether bytes that are cut off, or have one more behind them, are a call.
fn has_call_inside(alloc: Global, bytes: &[u8]) -> Result<bool, Fault> {
    if bytes.len() <= MAX_TRIED {
        for len in 0..bytes.len() {
            if is_call(alloc, &bytes[..len])? {
                return Ok(true);
            }
        }
    }
    let mut longer = bytes.to_vec(alloc)?;
    longer.push(0)?;
    is_call(alloc, longer.as_slice())
}

/// Whether bytes are a call by any of the functions that judge them.
fn is_call(alloc: Global, bytes: &[u8]) -> Result<bool, Fault> {
    let read = read_call(alloc, bytes)?;
    Ok(read.is_some() || kind_of(bytes).is_some() || VlService::writes(bytes).is_some())
}

/// What differs where words are to name these bytes, and with one more word no call.
fn words_fault(alloc: Global, bytes: &[u8], words: &str) -> Result<Option<&'static str>, Fault> {
    let mut words = words_in(alloc, words)?;
    match VlService::call_words(alloc, words.as_slice())? {
        Some(named) if named.as_slice() == bytes => {}
        Some(_) => return Ok(Some("words of another call")),
        None => return Ok(Some("words of no call")),
    }
    words.push(bytes_of(alloc, b"0")?)?;
    match VlService::call_words(alloc, words.as_slice())? {
        Some(_) => Ok(Some("a call with one more word")),
        None => Ok(None),
    }
}

/// What bytes are: `none` where they are no call, or its name.
pub fn found_name(alloc: Global, bytes: &str) -> Result<String, Fault> {
    let bytes = bytes_in(alloc, bytes)?;
    let found = match kind_of(bytes.as_slice()) {
        Some(kind) if read_call(alloc, bytes.as_slice())?.is_some() => {
            str::from_utf8(kind.word()).unwrap_or("")
        }
        None if !is_call(alloc, bytes.as_slice())? => "none",
        _ => "a call by its kind or by its fields alone",
    };
    Ok(String::from_str(alloc, found)?)
}

/// What words name: `none`, or `call`.
pub fn found_words(alloc: Global, words: &str) -> Result<String, Fault> {
    let words = words_in(alloc, words)?;
    let found = match VlService::call_words(alloc, words.as_slice())? {
        Some(_) => "call",
        None => "none",
    };
    Ok(String::from_str(alloc, found)?)
}

/// Whether a call reads or writes.
pub fn found_access(alloc: Global, call: &str) -> Result<String, Fault> {
    let call = call_in(alloc, call)?;
    let found = match VlService::writes(call.as_slice()) {
        Some(true) => "writes",
        Some(false) => "reads",
        None => "none",
    };
    Ok(String::from_str(alloc, found)?)
}

/// What is found where bytes are to be the answer to a call, `CALL : BYTES`: `ok` and its words, `unworded` where a name in it has no
/// word, `none` where they are no answer, or what differs.
pub fn found_answer(alloc: Global, row: &str) -> Result<String, Fault> {
    let (call, bytes) = row.split_once(" : ").ok_or(Fault::Form)?;
    let call = call_in(alloc, call)?;
    let bytes = bytes_in(alloc, bytes)?;
    let (call, bytes) = (call.as_slice(), bytes.as_slice());
    if !is_answer(alloc, call, bytes)? {
        let found = match reply_words(alloc, call, bytes)? {
            Some(_) => "words of no answer",
            None => "none",
        };
        return Ok(String::from_str(alloc, found)?);
    }
    if has_answer_inside(alloc, call, bytes)? {
        return Ok(String::from_str(alloc, "a part that is an answer")?);
    }
    match reply_words(alloc, call, bytes)? {
        Some(_) => answer_words(alloc, call, bytes),
        None => Ok(String::from_str(alloc, "unworded")?),
    }
}

/// Whether bytes are read as an answer to a call, and spelled again.
fn is_answer(alloc: Global, call: &[u8], bytes: &[u8]) -> Result<bool, Fault> {
    let Some(kind) = kind_of(call) else {
        return Ok(false);
    };
    match read_answer(alloc, kind, bytes)? {
        Some(answer) => Ok(spell_answer(alloc, &answer)?.as_slice() == bytes),
        None => Ok(false),
    }
}

/// Whether bytes that are cut off, or have one more behind them, are an answer to a call.
fn has_answer_inside(alloc: Global, call: &[u8], bytes: &[u8]) -> Result<bool, Fault> {
    if bytes.len() <= MAX_TRIED {
        for len in 0..bytes.len() {
            if is_answer(alloc, call, &bytes[..len])? {
                return Ok(true);
            }
        }
    }
    let mut longer = bytes.to_vec(alloc)?;
    longer.push(0)?;
    is_answer(alloc, call, longer.as_slice())
}
