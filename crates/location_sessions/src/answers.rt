//! Answers of calls, in words.
use db_image::{CallEnd, DraftWords};
use session_rows::Fault;
use std::alloc::Global;
use vl_database::VlService;

/// How a call ended, as rows have it.
pub fn end_words(alloc: Global, call: &[u8], end: &CallEnd) -> Result<String, Fault> {
    match end {
        CallEnd::Done(fields) => answer_words(alloc, call, fields.as_slice()),
        CallEnd::Rule(rule) => Ok(format!(in alloc; "rule {rule}")?),
        CallEnd::Malformed => Ok(String::from_str(alloc, "malformed")?),
        CallEnd::BadRecord { at } => Ok(format!(in alloc; "badrecord {at}")?),
        CallEnd::DiskFault => Ok(String::from_str(alloc, "diskfault")?),
        CallEnd::NoMemory => Err(Fault::NoMemory),
    }
}

/// `ok` and the fields of an answer.
pub fn answer_words(alloc: Global, call: &[u8], fields: &[u8]) -> Result<String, Fault> {
    let mut text = String::from_str(alloc, "ok")?;
    VlService::tell_answer(&mut text, call, fields)?;
    Ok(text)
}
