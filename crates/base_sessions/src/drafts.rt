//! Drafts over images in memory, and limits of changes.
use crate::words::word_text;
use db_image::{Draft, ImageRead, VecImage, too_large};
use session_rows::{Fault, bytes_in, number_in, told_bytes};
use std::alloc::Global;
use ubik_types::{Bytes, Change, MAX_IMAGE, changes_new, changes_push};

/// A draft over the image of these bytes, with a head and blocks of these lengths, and with bytes put at positions: `AT=BYTES`.
fn draft_of(
    alloc: Global,
    [head, block, image]: [&str; 3],
    puts: &[&str],
) -> Result<Draft<VecImage>, Fault> {
    let (head, block, image) = (number_in(head)?, number_in(block)?, bytes_in(alloc, image)?);
    if block == 0 || image.len() > MAX_IMAGE {
        return Err(Fault::Form);
    }
    let mut draft = Draft::over(alloc, VecImage::new(alloc, &image)?, head, block);
    for put in puts {
        put_on(alloc, &mut draft, put)?;
    }
    Ok(draft)
}

/// Puts bytes at a position: `AT=BYTES`.
fn put_on(alloc: Global, draft: &mut Draft<VecImage>, put: &str) -> Result<(), Fault> {
    let (at, bytes) = put.split_once('=').ok_or(Fault::Form)?;
    let (at, bytes) = (number_in(at)?, bytes_in(alloc, bytes)?);
    if at as usize > MAX_IMAGE || bytes.len() > MAX_IMAGE {
        return Err(Fault::Form);
    }
    draft.put(at, &bytes).map_err(|_| Fault::NoMemory)
}

/// The bytes of such a draft, and its changes.
pub fn draft_text(alloc: Global, head: [&str; 3], puts: &[&str]) -> Result<String, Fault> {
    let mut draft = draft_of(alloc, head, puts)?;
    let mut bytes = vec![in alloc; 0; draft.len() as usize]?;
    let read = draft.read(0, &mut bytes).done();
    read.map_err(|_| Fault::NoMemory)?;
    let mut text = told_bytes(alloc, &bytes)?;
    let (_, changes) = draft.finish();
    for change in changes?.as_slice() {
        text.push_str(change_text(alloc, change)?.as_str())?;
    }
    Ok(text)
}

/// A change after those before it: ` AT=BYTES` or ` cut=LEN`.
fn change_text(alloc: Global, change: &Change) -> Result<String, Fault> {
    match change {
        Change::Put { at, bytes } => {
            let bytes = told_bytes(alloc, bytes.as_slice())?;
            Ok(format!(in alloc; " {at}={bytes}")?)
        }
        Change::Cut { len } => Ok(format!(in alloc; " cut={len}")?),
    }
}

/// What is too large where changes are made to an image of a length: `AT+LEN` for a put of so many bytes, `cut+LEN` for a cut.
pub fn limit_text(alloc: Global, len: &str, words: &[&str]) -> Result<String, Fault> {
    let len = number_in(len)? as usize;
    if len > MAX_IMAGE {
        return Err(Fault::Form);
    }
    let mut changes = changes_new(alloc);
    for word in words {
        changes_push(&mut changes, change_in(alloc, word)?)?;
    }
    match too_large(len, &changes) {
        Some(bytes) => Ok(format!(in alloc; "{bytes}")?),
        None => word_text(alloc, "none"),
    }
}

fn change_in(alloc: Global, word: &str) -> Result<Change, Fault> {
    match word.split_once('+').ok_or(Fault::Form)? {
        ("cut", len) => Ok(Change::Cut {
            len: number_in(len)?,
        }),
        (at, len) => {
            let (at, len) = (number_in(at)?, number_in(len)?);
            let bytes = Bytes::new(vec![in alloc; 0; len as usize]?);
            Ok(Change::Put { at, bytes })
        }
    }
}
