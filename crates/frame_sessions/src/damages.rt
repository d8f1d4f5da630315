//! Bytes that are cut off or changed, at each of their places.
use crate::frame_rows::{Seen, framed, table_text};
use crate::frame_texts::fault_text;
use crate::tokens::Token::Number;
use crate::tokens::text_of;
use crate::xdr_rows::LONGEST_OPAQUE;
use session_rows::{Fault, Report, bytes_in, number_in};
use std::alloc::Global;
use ubik_calls::FrameFault;
use ubik_types::{WORD_LEN, first_word};
use xdr_base::{XdrFault, XdrReader};

/// How bytes are damaged at a place.
#[derive(Clone, Copy)]
enum Damage {
    /// What stands from the place on is cut off.
    Cut,
    /// The same, and the length of the frame is that of what is left.
    CutWithLength,
    /// The byte at the place is this one.
    Byte(u8),
    /// The same where it is a byte of the padding of an opaque.
    Padding(u8),
}

/// What is expected of damaged bytes.
#[derive(Clone, Copy)]
enum Expected<'a> {
    /// They are refused for the length of the frame, and both lengths are told.
    Length,
    /// A field of the frame is cut off. Which one, the table of fields says.
    Short,
    /// They are what the table of fields says.
    AsByTable,
    /// They are refused as an opaque, and so.
    Opaque(&'a str),
}

/// How often damaged bytes were a frame, and how often each fault. One that would be written as other bytes is not counted: its rows fail.
#[derive(Clone, Copy)]
struct Outcomes {
    frame: u32,
    length: u32,
    kind: u32,
    version: u32,
    short: u32,
    padding: u32,
    longer: u32,
    truth: u32,
    rest: u32,
    memory: u32,
}

/// The bytes of a session, and what became of those of them that were damaged.
#[derive(Drop)]
pub struct Damaged {
    pub bytes: Vec<u8>,
    outcomes: Outcomes,
}

/// Where the padding of an opaque begins, which its length says.
fn padding_at(bytes: &[u8]) -> usize {
    match first_word(bytes) {
        Some((len, _)) => WORD_LEN.saturating_add(len as usize),
        None => bytes.len(),
    }
}

/// Bytes with another one at a place. `Fault::Form` where they end before it.
fn with_byte(alloc: Global, bytes: &[u8], place: usize, value: u8) -> Result<Vec<u8>, Fault> {
    let mut changed = bytes.to_vec(alloc)?;
    *changed.get_mut(place).ok_or(Fault::Form)? = value;
    Ok(changed)
}

impl Damage {
    /// `cut`, `cut with its length`, `byte changed to BYTE`, or `byte of padding changed to BYTE`. `Fault::Form` where it is another text.
    fn of(alloc: Global, text: &str) -> Result<Damage, Fault> {
        let Some((what, digits)) = text.split_once(" changed to ") else {
            return match text {
                "cut" => Ok(Damage::Cut),
                "cut with its length" => Ok(Damage::CutWithLength),
                _ => Err(Fault::Form),
            };
        };
        match (what, bytes_in(alloc, digits)?.as_slice()) {
            ("byte", [value]) => Ok(Damage::Byte(*value)),
            ("byte of padding", [value]) => Ok(Damage::Padding(*value)),
            _ => Err(Fault::Form),
        }
    }

    /// Bytes with this damage at one of their places; none where it is not made there.
    fn made(self, alloc: Global, bytes: &[u8], place: usize) -> Result<Option<Vec<u8>>, Fault> {
        match self {
            Damage::Cut => Ok(Some(bytes.get(..place).unwrap_or(&[]).to_vec(alloc)?)),
            Damage::CutWithLength => match bytes.get(WORD_LEN..place) {
                Some(behind) => Ok(Some(framed(alloc, behind)?)),
                None => Ok(None),
            },
            Damage::Padding(_) if place < padding_at(bytes) => Ok(None),
            Damage::Byte(value) | Damage::Padding(value) => {
                Ok(Some(with_byte(alloc, bytes, place, value)?))
            }
        }
    }
}

impl Expected<'_> {
    /// `length`, `short`, `as by the table`, or `opaque FAULT`. `Fault::Form` where it is another text.
    fn of(text: &str) -> Result<Expected, Fault> {
        match text {
            "length" => Ok(Expected::Length),
            "short" => Ok(Expected::Short),
            "as by the table" => Ok(Expected::AsByTable),
            _ => match text.strip_prefix("opaque ") {
                Some(fault) => Ok(Expected::Opaque(fault)),
                None => Err(Fault::Form),
            },
        }
    }
}

impl Outcomes {
    const NONE: Outcomes = Outcomes {
        frame: 0,
        length: 0,
        kind: 0,
        version: 0,
        short: 0,
        padding: 0,
        longer: 0,
        truth: 0,
        rest: 0,
        memory: 0,
    };

    fn count(&mut self, seen: Seen) {
        let count = match seen {
            Seen::Frame => &mut self.frame,
            Seen::OtherBytes => return,
            Seen::Refused(FrameFault::Length { .. }) => &mut self.length,
            Seen::Refused(FrameFault::Kind { .. }) => &mut self.kind,
            Seen::Refused(FrameFault::Version { .. }) => &mut self.version,
            Seen::Refused(FrameFault::Xdr(XdrFault::Short { .. })) => &mut self.short,
            Seen::Refused(FrameFault::Xdr(XdrFault::Padding { .. })) => &mut self.padding,
            Seen::Refused(FrameFault::Xdr(XdrFault::TooLong { .. })) => &mut self.longer,
            Seen::Refused(FrameFault::Xdr(XdrFault::BadBool { .. })) => &mut self.truth,
            Seen::Refused(FrameFault::Xdr(XdrFault::Rest { .. })) => &mut self.rest,
            Seen::Refused(FrameFault::NoMemory) => &mut self.memory,
        };
        *count = count.wrapping_add(1);
    }
}

/// What the bytes of a frame are that were cut off before a place, and not told of it.
fn length_text(alloc: Global, bytes: &[u8], place: usize) -> Result<String, Fault> {
    let (said, have) = if place < WORD_LEN {
        (0, 0)
    } else {
        (bytes.len().saturating_sub(WORD_LEN), place - WORD_LEN)
    };
    Ok(format!(in alloc; "length said {said} have {have}")?)
}

/// What becomes of the opaque at the front of bytes, in words.
fn opaque_text(alloc: Global, bytes: &[u8]) -> Result<String, Fault> {
    match XdrReader::new(bytes).get_bytes(LONGEST_OPAQUE) {
        Ok(text) => Ok(format!(in alloc; "{} bytes", text.len())?),
        Err(fault) => fault_text(alloc, FrameFault::Xdr(fault)),
    }
}

impl Damaged {
    pub fn new(bytes: Vec<u8>) -> Damaged {
        Damaged {
            bytes,
            outcomes: Outcomes::NONE,
        }
    }

    /// `each DAMAGE -> EXPECTED: COUNT`: a row for each place at which the damage is made, of which there are so many. `Fault::Form` where the
    /// damage or what is expected is another one, or there are more or fewer such places.
    pub fn each(
        &mut self,
        alloc: Global,
        report: &mut Report,
        damage: &str,
        expected: &str,
    ) -> Result<(), Fault> {
        let (expected, count) = expected.split_once(": ").ok_or(Fault::Form)?;
        let (made, expected) = (Damage::of(alloc, damage)?, Expected::of(expected)?);
        let before = report.rows();
        for place in 0..self.bytes.len() {
            if let Some(bytes) = made.made(alloc, &self.bytes, place)? {
                let which = format!(in alloc; ", {damage} at {place}")?;
                let (wanted, found) = self.compared(alloc, expected, &bytes, place)?;
                report.row_at(&which, &wanted, &found)?;
            }
        }
        if report.rows().wrapping_sub(before) != number_in(count)? {
            return Err(Fault::Form);
        }
        Ok(())
    }

    /// What the bytes that were damaged at a place should be, and what they are, in words. Those of a frame are counted.
    fn compared(
        &mut self,
        alloc: Global,
        expected: Expected,
        bytes: &[u8],
        place: usize,
    ) -> Result<(String, String), Fault> {
        let wanted = match expected {
            Expected::Length => length_text(alloc, &self.bytes, place)?,
            Expected::Short => String::from_str(alloc, "short")?,
            Expected::AsByTable => table_text(alloc, bytes)?,
            Expected::Opaque(fault) => {
                let wanted = String::from_str(alloc, fault)?;
                return Ok((wanted, opaque_text(alloc, bytes)?));
            }
        };
        let seen = Seen::of(alloc, bytes)?;
        self.outcomes.count(seen);
        let found = match (expected, seen) {
            (Expected::Short, Seen::Refused(FrameFault::Xdr(XdrFault::Short { .. }))) => {
                String::from_str(alloc, "short")?
            }
            _ => seen.text(alloc)?,
        };
        Ok((wanted, found))
    }

    /// How often the damaged bytes of the session were a frame, and how often each fault.
    pub fn outcomes_text(&self, alloc: Global) -> Result<String, Fault> {
        let all = &self.outcomes;
        text_of(
            alloc,
            &[
                ("frame ", Number(all.frame)),
                (", length ", Number(all.length)),
                (", kind ", Number(all.kind)),
                (", version ", Number(all.version)),
                (", short ", Number(all.short)),
                (", padding ", Number(all.padding)),
                (", longer ", Number(all.longer)),
                (", truth ", Number(all.truth)),
                (", rest ", Number(all.rest)),
                (", memory ", Number(all.memory)),
            ],
        )
    }
}
