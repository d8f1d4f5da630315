//! The image of a session, as rows tell it.
use db_image::{Draft, ImageRead, VecImage};
use script_words::number_within;
use session_rows::{Fault, bytes_in};
use std::alloc::Global;

/// The longest image of a row, in bytes.
pub const MAX_IMAGE: u32 = 65_536;

/// The bytes of an image, and of those the ones that no row has told: the others are zero there.
#[derive(Drop)]
pub struct Seen {
    alloc: Global,
    bytes: Vec<u8>,
    untold: Vec<u8>,
}

impl Seen {
    /// The bytes of a draft.
    pub fn of(alloc: Global, draft: &mut Draft<VecImage>) -> Result<Seen, Fault> {
        let mut bytes = vec![in alloc; 0; draft.len() as usize]?;
        if draft.read(0, &mut bytes).done().is_err() {
            return Err(Fault::NoMemory);
        }
        let untold = bytes.as_slice().to_vec(alloc)?;
        Ok(Seen {
            alloc,
            bytes,
            untold,
        })
    }

    /// What there is where a row tells of the image: the words of the row, where it is so.
    pub fn found(&mut self, row: &str) -> Result<String, Fault> {
        match row.split_once(' ') {
            Some(("size", _)) => Ok(format!(in self.alloc; "size {}", self.bytes.len())?),
            Some(_) => self.found_bytes(row),
            None => self.found_zero(),
        }
    }

    /// Notes the bytes of a row, `PLACE BYTES`, as told.
    fn found_bytes(&mut self, row: &str) -> Result<String, Fault> {
        let (place, bytes) = place_and_bytes(row)?;
        let bytes = bytes_in(self.alloc, bytes)?;
        let mut place = place as usize;
        for byte in bytes.as_slice() {
            if self.bytes.get(place) != Some(byte) {
                return other_byte(self.alloc, place, self.bytes.get(place));
            }
            if let Some(told) = self.untold.get_mut(place) {
                *told = 0;
            }
            place = place.wrapping_add(1);
        }
        Ok(String::from_str(self.alloc, row)?)
    }

    /// Whether all bytes that no row told are zero.
    fn found_zero(&self) -> Result<String, Fault> {
        match self.untold.iter().position(|byte| *byte != 0) {
            Some(place) => other_byte(self.alloc, place, self.untold.get(place)),
            None => Ok(String::from_str(self.alloc, "zero")?),
        }
    }
}

/// Tells which byte stands at a place.
fn other_byte(alloc: Global, place: usize, byte: Option<&u8>) -> Result<String, Fault> {
    match byte {
        Some(byte) => Ok(format!(in alloc; "{byte:02x} at {place}")?),
        None => Ok(format!(in alloc; "no byte at {place}")?),
    }
}

/// A place within the longest image, and words of bytes.
pub fn place_and_bytes(text: &str) -> Result<(u32, &str), Fault> {
    let (place, bytes) = text.split_once(' ').ok_or(Fault::Form)?;
    let place = number_within(place.as_bytes(), 0, MAX_IMAGE).ok_or(Fault::Form)?;
    Ok((place, bytes))
}
