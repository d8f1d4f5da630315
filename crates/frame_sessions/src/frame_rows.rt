//! Rows of frames: both ways, and refused.
use crate::frame_texts::{fault_text, frame_text};
use crate::slow::fault_by_table;
use crate::tokens::Token::Digits;
use crate::tokens::text_of;
use session_rows::{Fault, Report, bytes_in, number_in};
use std::alloc::Global;
use ubik_calls::{Frame, FrameFault, decode, encode};
use ubik_types::WORD_LEN;

/// The byte of which long calls and pieces are made.
const FILLER: u8 = b'a';

/// What bytes are by the reader and the writer of frames.
#[derive(Clone, Copy)]
pub enum Seen {
    /// A frame, which is written as these bytes again.
    Frame,
    /// A frame that is written as other bytes.
    OtherBytes,
    Refused(FrameFault),
}

impl Seen {
    pub fn of(alloc: Global, bytes: &[u8]) -> Result<Seen, Fault> {
        let frame = match decode(alloc, bytes) {
            Ok(frame) => frame,
            Err(fault) => return Ok(Seen::Refused(fault)),
        };
        let again = encode(alloc, &frame)?;
        let is_same = again.as_slice() == bytes;
        Ok(if is_same {
            Seen::Frame
        } else {
            Seen::OtherBytes
        })
    }

    pub fn text(self, alloc: Global) -> Result<String, Fault> {
        match self {
            Seen::Frame => Ok(String::from_str(alloc, "frame")?),
            Seen::OtherBytes => Ok(String::from_str(alloc, "a frame of other bytes")?),
            Seen::Refused(fault) => fault_text(alloc, fault),
        }
    }
}

/// What bytes are by the table of fields, in words.
pub fn table_text(alloc: Global, bytes: &[u8]) -> Result<String, Fault> {
    match fault_by_table(bytes) {
        Ok(()) => Ok(String::from_str(alloc, "frame")?),
        Err(fault) => fault_text(alloc, fault),
    }
}

/// Three rows: the bytes are read as this value, the value is written as these bytes, and by the table they are a frame.
pub fn value_rows(
    alloc: Global,
    report: &mut Report,
    bytes: &[u8],
    value: &str,
) -> Result<(), Fault> {
    let (read, written) = match decode(alloc, bytes) {
        Ok(frame) => {
            let written = encode(alloc, &frame)?;
            let digits = text_of(alloc, &[("", Digits(written.as_slice()))])?;
            (frame_text(alloc, &frame)?, digits)
        }
        Err(fault) => (fault_text(alloc, fault)?, String::new(alloc)),
    };
    report.row(value, &read)?;
    report.row(&text_of(alloc, &[("", Digits(bytes))])?, &written)?;
    report.row("frame", &table_text(alloc, bytes)?)
}

/// Two rows: what the bytes are, and what they are by the table.
pub fn seen_rows(
    alloc: Global,
    report: &mut Report,
    bytes: &[u8],
    expected: &str,
) -> Result<(), Fault> {
    report.row(expected, &Seen::of(alloc, bytes)?.text(alloc)?)?;
    report.row(expected, &table_text(alloc, bytes)?)
}

/// The length of these bytes, and the bytes.
pub fn framed(alloc: Global, behind: &[u8]) -> Result<Vec<u8>, Fault> {
    let len = u32::try_from(behind.len()).unwrap_or(u32::MAX);
    let mut bytes = len.to_be_bytes().to_vec(alloc)?;
    bytes.extend_from_slice(behind)?;
    Ok(bytes)
}

/// `at PLACE: LEN said, BYTES`: a frame with another piece from a place on, of which so many bytes are said, and these stand there.
/// `COUNT bytes` are so many fillers. `Fault::Form` where the input is another one, or the frame ends before the place.
pub fn with_piece(alloc: Global, frame: &[u8], input: &str) -> Result<Vec<u8>, Fault> {
    let (place, piece) = input.split_once(": ").ok_or(Fault::Form)?;
    let (said, piece) = piece.split_once(" said, ").ok_or(Fault::Form)?;
    let at = number_in(place.strip_prefix("at ").ok_or(Fault::Form)?)?;
    let piece = match piece.split_once(" bytes") {
        Some((count, _)) => vec![in alloc; FILLER; number_in(count)? as usize]?,
        None => bytes_in(alloc, piece)?,
    };
    let front = frame.get(WORD_LEN..at as usize).ok_or(Fault::Form)?;
    let mut behind = front.to_vec(alloc)?;
    behind.extend_from_slice(&number_in(said)?.to_be_bytes())?;
    behind.extend_from_slice(&piece)?;
    framed(alloc, &behind)
}

/// How long the call of a frame is, in words; of one that is no ask that it is none.
fn long_ask_text(alloc: Global, bytes: &[u8]) -> Result<String, Fault> {
    match decode(alloc, bytes) {
        Ok(Frame::Ask { number, call }) => {
            let len = call.as_slice().len();
            Ok(format!(in alloc; "ask {number} of {len} bytes")?)
        }
        Ok(_) => Ok(String::from_str(alloc, "another frame")?),
        Err(fault) => fault_text(alloc, fault),
    }
}

/// `longask LEN -> WORDS`: two rows, what ask 7 with a call of so many bytes is, and that it is the same by the table.
pub fn ask_rows(
    alloc: Global,
    report: &mut Report,
    len: &str,
    expected: &str,
) -> Result<(), Fault> {
    let mut behind = b"\0\0\0\x01\0\0\0\x07".to_vec(alloc)?;
    behind.resize(
        (number_in(len)? as usize).saturating_add(behind.len()),
        FILLER,
    )?;
    let bytes = framed(alloc, &behind)?;
    report.row(expected, &long_ask_text(alloc, &bytes)?)?;
    report.row(
        &table_text(alloc, &bytes)?,
        &Seen::of(alloc, &bytes)?.text(alloc)?,
    )
}
