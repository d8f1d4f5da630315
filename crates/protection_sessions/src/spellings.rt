//! Rows that tell how calls and answers are spelled.
use crate::damage::call_of;
use crate::tokens::words_of;
use db_image::DraftService;
use pt_calls::{
    call_words, kind_of, read_answer, read_call, reply_words, spell_answer, spell_call,
};
use pt_database::PtService;
use session_rows::{Fault, bytes_in, first_of};
use std::alloc::Global;
use std::str;

/// The longest call of which each part is tried, in bytes.
const MAX_TRIED: usize = 255;

/// What is found where `BYTES` is to be the call that words name: the words, or what differs.
pub fn found_call(alloc: Global, bytes: &str, words: &str) -> Result<String, Fault> {
    let bytes = bytes_in(alloc, bytes)?;
    let found = call_fault(alloc, bytes.as_slice(), words)?.unwrap_or(words);
    Ok(String::from_str(alloc, found)?)
}

/// What differs where these bytes are to be the call that words name.
fn call_fault(alloc: Global, bytes: &[u8], words: &str) -> Result<Option<&'static str>, Fault> {
    let (name, _) = first_of(words);
    if let Some(fault) = kind_fault(alloc, bytes, name)? {
        return Ok(Some(fault));
    }
    if call_of(alloc, words)?.as_slice() != bytes {
        return Ok(Some("words of another call"));
    }
    if is_call_without_name(alloc, words)? {
        return Ok(Some("words behind the first that are a call"));
    }
    if has_call_inside(alloc, bytes)? {
        return Ok(Some("a part that is a call"));
    }
    Ok(None)
}

/// What differs where these bytes are to be a call of this name.
fn kind_fault(alloc: Global, bytes: &[u8], name: &str) -> Result<Option<&'static str>, Fault> {
    let Some(call) = read_call(alloc, bytes)? else {
        return Ok(Some("no call"));
    };
    if spell_call(alloc, &call)?.as_slice() != bytes {
        return Ok(Some("a call of other bytes"));
    }
    if call.kind().word() != name.as_bytes() {
        return Ok(Some("a call of another kind"));
    }
    Ok(None)
}

/// Whether the words behind the first one name a call.
fn is_call_without_name(alloc: Global, words: &str) -> Result<bool, Fault> {
    let words = words_of(alloc, words)?;
    let fewer = match words.as_slice() {
        [_, fewer @ ..] => fewer,
        [] => &[],
    };
    Ok(call_words(alloc, fewer)?.is_some())
}

/// Whether bytes that are cut off, or have one more behind them, are a call.
fn has_call_inside(alloc: Global, bytes: &[u8]) -> Result<bool, Fault> {
    if bytes.len() <= MAX_TRIED {
        for len in 0..bytes.len() {
            if read_call(alloc, &bytes[..len])?.is_some() {
                return Ok(true);
            }
        }
    }
    let mut longer = bytes.to_vec(alloc)?;
    longer.push(0)?;
    Ok(read_call(alloc, longer.as_slice())?.is_some())
}

/// What bytes are: `none` where they are no call, or its name.
pub fn found_name(alloc: Global, bytes: &str) -> Result<String, Fault> {
    let bytes = bytes_in(alloc, bytes)?;
    let is_call = read_call(alloc, bytes.as_slice())?.is_some();
    let found = match kind_of(bytes.as_slice()) {
        Some(kind) if is_call => str::from_utf8(kind.word()).unwrap_or(""),
        None if !is_call => "none",
        _ => "a call without a kind",
    };
    Ok(String::from_str(alloc, found)?)
}

/// What words name: `none`, or `call`.
pub fn found_words(alloc: Global, words: &str) -> Result<String, Fault> {
    let words = words_of(alloc, words)?;
    let found = match call_words(alloc, words.as_slice())? {
        Some(_) => "call",
        None => "none",
    };
    Ok(String::from_str(alloc, found)?)
}

/// Whether a call writes or reads, which is given in words, or as bytes behind `bytes`.
pub fn found_access(alloc: Global, call: &str) -> Result<String, Fault> {
    let writes = match first_of(call) {
        ("bytes", bytes) => PtService::writes(bytes_in(alloc, bytes)?.as_slice()),
        _ => PtService::writes(call_of(alloc, call)?.as_slice()),
    };
    let found = match writes {
        Some(true) => "writes",
        Some(false) => "reads",
        None => "none",
    };
    Ok(String::from_str(alloc, found)?)
}

/// What is found where bytes are to be the answer to a call, `CALL : BYTES`: the words of the answer, `none` where they are none, or what differs.
pub fn found_answer(alloc: Global, row: &str) -> Result<String, Fault> {
    let (call, bytes) = row.split_once(" : ").ok_or(Fault::Form)?;
    let call = call_of(alloc, call)?;
    let bytes = bytes_in(alloc, bytes)?;
    match answer_fault(alloc, call.as_slice(), &bytes)? {
        Some(fault) => Ok(String::from_str(alloc, fault)?),
        None => answer_text(alloc, call.as_slice(), &bytes),
    }
}

/// What differs where these bytes are to be an answer to a call.
fn answer_fault(alloc: Global, call: &[u8], bytes: &[u8]) -> Result<Option<&'static str>, Fault> {
    let kind = kind_of(call).ok_or(Fault::Form)?;
    let Some(answer) = read_answer(alloc, kind, bytes)? else {
        return Ok(Some("none"));
    };
    if spell_answer(alloc, &answer)?.as_slice() != bytes {
        return Ok(Some("an answer of other bytes"));
    }
    Ok(None)
}

/// `ok`, and the words of an answer.
fn answer_text(alloc: Global, call: &[u8], bytes: &[u8]) -> Result<String, Fault> {
    let words = reply_words(alloc, call, bytes)?.ok_or(Fault::Form)?;
    let words = str::from_utf8(words.as_slice()).map_err(|_| Fault::Form)?;
    let mut found = String::from_str(alloc, "ok")?;
    if !words.is_empty() {
        found.push_str(" ")?;
        found.push_str(words)?;
    }
    Ok(found)
}
