//! How calls end over an image.
use db_image::{CallEnd, Draft, DraftService, DraftWords, ImageRead, VecImage};
use pt_database::PtService;
use session_rows::Fault;
use std::alloc::Global;
use ubik_types::{Bytes, MAX_IMAGE};

/// The moment of all calls, of which none of them takes notice.
const NOW: u32 = 1076;

/// Makes a call over an image, and tells how it ended.
pub fn end_over(alloc: Global, draft: &mut Draft<VecImage>, call: &[u8]) -> Result<String, Fault> {
    if draft.len() as usize > MAX_IMAGE {
        return Err(Fault::Form);
    }
    let end = PtService::call(alloc, draft, NOW, call);
    told_of(alloc, call, &end)
}

fn told_of(alloc: Global, call: &[u8], end: &CallEnd) -> Result<String, Fault> {
    match end {
        CallEnd::Done(fields) => told_answer(alloc, call, fields),
        CallEnd::Rule(number) => Ok(format!(in alloc; "rule {number}")?),
        CallEnd::Malformed => Ok(String::from_str(alloc, "malformed")?),
        CallEnd::BadRecord { at } => Ok(format!(in alloc; "badrecord {at}")?),
        CallEnd::DiskFault => Ok(String::from_str(alloc, "diskfault")?),
        CallEnd::NoMemory => Err(Fault::NoMemory),
    }
}

fn told_answer(alloc: Global, call: &[u8], fields: &Bytes) -> Result<String, Fault> {
    let mut told = String::from_str(alloc, "ok")?;
    PtService::tell_answer(&mut told, call, fields.as_slice())?;
    Ok(told)
}
