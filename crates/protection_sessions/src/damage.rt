//! Calls over images that are damaged, at each of many places.
use crate::ends::end_over;
use crate::tokens::{first_place, parted, place_of, words_of};
use db_image::{Draft, DraftService, DraftWords, ImageRead, VecImage};
use pt_database::PtService;
use session_rows::{Fault, bytes_in, first_of};
use std::alloc::Global;
use ubik_types::{Bytes, MAX_IMAGE};

/// How an image is damaged at a place.
#[derive(Clone, Copy)]
enum Damage {
    /// The byte is another one.
    Set(u8),
    /// These bits of the byte are others.
    Flip(u8),
    /// The image ends before the byte.
    Cut,
}

/// How calls are to end over damaged images.
#[derive(Clone, Copy)]
enum Wanted<'a> {
    /// In these words.
    Words(&'a str),
    /// At the end of the image, where it shows that the image is damaged.
    BadEnd,
    /// With a list of so many items at most, or a place within the image where it shows that it is damaged.
    List(usize),
}

/// The call that a line names.
pub fn call_of(alloc: Global, line: &str) -> Result<Bytes, Fault> {
    let words = words_of(alloc, line)?;
    PtService::call_words(alloc, words.as_slice())?.ok_or(Fault::Form)
}

/// What is found where a row says how a call ends over each image with one byte damaged: the end that the row says, or the first other one.
pub fn found_over(alloc: Global, image: &[u8], row: &str) -> Result<String, Fault> {
    let (left, expected) = parted(row)?;
    let wanted = wanted_of(expected)?;
    let (from, to, damage, call) = trial_of(alloc, left)?;
    let call = call_of(alloc, call)?;
    let mut draft = draft_over(alloc, image)?;
    for at in from..to {
        let (told, len) = end_at(alloc, image, &mut draft, at, damage, call.as_slice())?;
        if !is_wanted(alloc, wanted, told.as_str(), len)? {
            return Ok(format!(in alloc; "{told} at {at}")?);
        }
    }
    Ok(String::from_str(alloc, expected)?)
}

/// The first place that a row damages and the one behind the last, how it damages each, and the words of its call.
fn trial_of(alloc: Global, left: &str) -> Result<(usize, usize, Damage, &str), Fault> {
    let (word, left) = first_of(left);
    let (from, left) = first_place(left)?;
    let (to, left) = first_place(left)?;
    let (damage, call) = damage_of(alloc, word, left)?;
    Ok((from, to, damage, call))
}

/// The damage that a row has, and the words of its call.
fn damage_of<'a>(alloc: Global, word: &str, left: &'a str) -> Result<(Damage, &'a str), Fault> {
    if word == "cut" {
        return Ok((Damage::Cut, left));
    }
    let (byte, left) = first_of(left);
    let byte = match bytes_in(alloc, byte)?.as_slice() {
        [byte] => *byte,
        _ => return Err(Fault::Form),
    };
    match word {
        "set" => Ok((Damage::Set(byte), left)),
        "flip" => Ok((Damage::Flip(byte), left)),
        _ => Err(Fault::Form),
    }
}

fn wanted_of(expected: &str) -> Result<Wanted<'_>, Fault> {
    match first_of(expected) {
        ("badrecord", "end") => Ok(Wanted::BadEnd),
        ("list", most) => Ok(Wanted::List(place_of(most)?)),
        _ => Ok(Wanted::Words(expected)),
    }
}

fn draft_over(alloc: Global, image: &[u8]) -> Result<Draft<VecImage>, Fault> {
    if image.len() > MAX_IMAGE {
        return Err(Fault::Form);
    }
    Ok(PtService::draft(alloc, VecImage::new(alloc, image)?))
}

/// How a call ends over an image that is damaged at a place, and how long that image is. The draft over the image is as before.
fn end_at(
    alloc: Global,
    image: &[u8],
    draft: &mut Draft<VecImage>,
    at: usize,
    damage: Damage,
    call: &[u8],
) -> Result<(String, usize), Fault> {
    let byte = *image.get(at).ok_or(Fault::Form)?;
    match damage {
        Damage::Set(other) => end_with(alloc, draft, at, [byte, other], call),
        Damage::Flip(bits) => end_with(alloc, draft, at, [byte, byte ^ bits], call),
        Damage::Cut => end_before(alloc, image, at, call),
    }
}

/// How a call that reads ends over an image with the second byte in place of the first, and the image's length. The first is put back.
fn end_with(
    alloc: Global,
    draft: &mut Draft<VecImage>,
    at: usize,
    bytes: [u8; 2],
    call: &[u8],
) -> Result<(String, usize), Fault> {
    if at > MAX_IMAGE {
        return Err(Fault::Form);
    }
    let [byte, other] = bytes;
    draft.put(at as u32, &[other]).map_err(|_| Fault::NoMemory)?;
    let told = end_over(alloc, draft, call)?;
    draft.put(at as u32, &[byte]).map_err(|_| Fault::NoMemory)?;
    Ok((told, draft.len() as usize))
}

/// How a call ends over the first bytes of an image, and how many these are.
fn end_before(
    alloc: Global,
    image: &[u8],
    len: usize,
    call: &[u8],
) -> Result<(String, usize), Fault> {
    let (front, _) = image.split_at_checked(len).ok_or(Fault::Form)?;
    let mut draft = draft_over(alloc, front)?;
    Ok((end_over(alloc, &mut draft, call)?, len))
}

/// Whether a call ended as it is to end, over an image of so many bytes.
fn is_wanted(alloc: Global, wanted: Wanted<'_>, told: &str, len: usize) -> Result<bool, Fault> {
    match wanted {
        Wanted::Words(words) => Ok(told == words),
        Wanted::BadEnd => {
            let words = format!(in alloc; "badrecord {len}")?;
            Ok(told == words.as_str())
        }
        Wanted::List(most) => Ok(is_list(told, most, len)),
    }
}

fn is_list(told: &str, most: usize, len: usize) -> bool {
    match first_of(told) {
        ("ok", rest) => {
            let (count, _) = first_of(rest);
            is_within(count, most)
        }
        ("badrecord", at) => is_within(at, len),
        _ => false,
    }
}

fn is_within(word: &str, most: usize) -> bool {
    match place_of(word) {
        Ok(number) => number <= most,
        Err(_) => false,
    }
}
