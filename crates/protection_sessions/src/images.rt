//! The image of a session, and rows that tell its bytes.
use crate::damage::found_over;
use crate::ends::end_over;
use crate::tokens::{first_place, place_of};
use db_image::{Draft, DraftService, ImageRead, VecImage};
use pt_database::PtService;
use session_rows::{Fault, bytes_in, first_of};
use std::alloc::Global;
use ubik_types::MAX_IMAGE;

/// The length of an image's head, in bytes.
const HEAD_LEN: usize = 2112;

/// The length of a block, in bytes.
const BLOCK_LEN: usize = 192;

/// An image as a draft, one that was kept, and the bytes of the image since the last call, where they were read: all of them, and those
/// that no row has told, with zero for those that were.
#[derive(Drop)]
pub struct Image {
    alloc: Global,
    draft: Draft<VecImage>,
    kept: Vec<u8>,
    read: Option<Bytes>,
}

/// All bytes of an image, and those that no row has told, with zero for those that were.
#[derive(Drop)]
struct Bytes {
    all: Vec<u8>,
    untold: Vec<u8>,
}

/// All bytes of a draft.
fn bytes_of_draft(alloc: Global, draft: &mut Draft<VecImage>) -> Result<Vec<u8>, Fault> {
    let mut bytes = vec![in alloc; 0; draft.len() as usize]?;
    draft
        .read(0, &mut bytes)
        .done()
        .map_err(|_| Fault::NoMemory)?;
    Ok(bytes)
}

/// The bytes of an image from a position on.
fn part(image: &[u8], at: usize, len: usize) -> &[u8] {
    let behind = match image.split_at_checked(at) {
        Some((_, behind)) => behind,
        None => &[],
    };
    match behind.split_at_checked(len) {
        Some((part, _)) => part,
        None => behind,
    }
}

impl Image {
    /// The empty image, with none kept.
    pub fn new(alloc: Global) -> Result<Image, Fault> {
        Ok(Image {
            alloc,
            draft: PtService::draft(alloc, VecImage::new(alloc, &[])?),
            kept: Vec::new(alloc),
            read: None,
        })
    }

    /// Makes a call, and tells how it ended.
    pub fn call(&mut self, call: &[u8]) -> Result<String, Fault> {
        self.read = None;
        end_over(self.alloc, &mut self.draft, call)
    }

    /// Lays the bytes that a line has behind their position.
    pub fn lay(&mut self, line: &str) -> Result<(), Fault> {
        let (at, rest) = first_place(line)?;
        let bytes = bytes_in(self.alloc, rest)?;
        if at > MAX_IMAGE || bytes.len() > MAX_IMAGE {
            return Err(Fault::Form);
        }
        self.read = None;
        self.draft
            .put(at as u32, &bytes)
            .map_err(|_| Fault::NoMemory)
    }

    /// Keeps the image as it is.
    pub fn keep(&mut self) -> Result<(), Fault> {
        self.kept = bytes_of_draft(self.alloc, &mut self.draft)?;
        Ok(())
    }

    /// What is found where a row says how a call ends over damaged images.
    pub fn found_over(&mut self, row: &str) -> Result<String, Fault> {
        let bytes = bytes_of_draft(self.alloc, &mut self.draft)?;
        found_over(self.alloc, bytes.as_slice(), row)
    }

    /// The bytes of the image, which are read where they were not read since the last call.
    fn bytes(&mut self) -> Result<Bytes, Fault> {
        match self.read.take() {
            Some(bytes) => Ok(bytes),
            None => {
                let all = bytes_of_draft(self.alloc, &mut self.draft)?;
                let untold = all.to_vec(self.alloc)?;
                Ok(Bytes { all, untold })
            }
        }
    }

    /// What there is where a row tells of the image: the words of the row, where it is so.
    pub fn found(&mut self, row: &str) -> Result<String, Fault> {
        let mut bytes = self.bytes()?;
        let found = found_in(self.alloc, &mut bytes, &self.kept, row)?;
        self.read = Some(bytes);
        Ok(found)
    }
}

fn found_in(alloc: Global, bytes: &mut Bytes, kept: &[u8], row: &str) -> Result<String, Fault> {
    let (word, rest) = first_of(row);
    match word {
        "size" => Ok(format!(in alloc; "size {}", bytes.all.len())?),
        "blocks" => found_blocks(alloc, &bytes.all, rest),
        "same" => found_same(alloc, bytes, kept, row),
        "zero" => found_zero(alloc, &bytes.untold),
        _ => {
            let at = place_of(word)?;
            let told = bytes_in(alloc, rest)?;
            found_at(alloc, bytes, row, at, &told)
        }
    }
}

/// How many blocks of a kind there are.
fn found_blocks(alloc: Global, image: &[u8], rest: &str) -> Result<String, Fault> {
    let (word, _) = first_of(rest);
    let kind = u8::try_from(place_of(word)?).map_err(|_| Fault::Form)?;
    let count = part(image, HEAD_LEN, MAX_IMAGE)
        .chunks(BLOCK_LEN)
        .filter(|block| block.starts_with(&[0, 0, 0, kind]))
        .count();
    Ok(format!(in alloc; "blocks {kind} {count}")?)
}

/// Whether so many bytes at a position are as in the image that was kept.
fn found_same(alloc: Global, bytes: &mut Bytes, kept: &[u8], row: &str) -> Result<String, Fault> {
    let (_, rest) = first_of(row);
    let (at, rest) = first_place(rest)?;
    let len = place_of(rest)?;
    let kept = part(kept, at, len);
    if kept.len() < len {
        return Err(Fault::Form);
    }
    found_at(alloc, bytes, row, at, kept)
}

/// The row, where these bytes stand at a position, or the first place where others stand.
fn found_at(
    alloc: Global,
    bytes: &mut Bytes,
    row: &str,
    at: usize,
    told: &[u8],
) -> Result<String, Fault> {
    let found = part(&bytes.all, at, told.len());
    if found == told {
        for byte in bytes.untold.iter_mut().skip(at).take(told.len()) {
            *byte = 0;
        }
        return Ok(String::from_str(alloc, row)?);
    }
    let same = found.iter().zip(told).take_while(|(a, b)| a == b).count();
    other_byte(alloc, at.saturating_add(same), found, same)
}

/// Whether all bytes that no row told are zero.
fn found_zero(alloc: Global, untold: &[u8]) -> Result<String, Fault> {
    let zeros = untold.iter().take_while(|byte| **byte == 0).count();
    if zeros == untold.len() {
        return Ok(String::from_str(alloc, "zero")?);
    }
    other_byte(alloc, zeros, untold, zeros)
}

/// Tells which byte stands at a position of an image, and at another one of these bytes.
fn other_byte(alloc: Global, at: usize, bytes: &[u8], place: usize) -> Result<String, Fault> {
    match bytes.get(place) {
        Some(byte) => Ok(format!(in alloc; "{byte:02x} at {at}")?),
        None => Ok(format!(in alloc; "no byte at {at}")?),
    }
}
