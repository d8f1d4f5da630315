//! How bytes are spelled: `\xHH` is a byte, `\t` and `\n` are a tab and an LF, `\(N)` is the next byte N times, and `\#` is the number
//! of a repetition. Any other byte is itself.
use crate::faults::Fault;
use script_words::number_within;
use std::alloc::Global;

/// The most repetitions of a byte or a line.
pub const MAX_REPETITIONS: u32 = 100_000;

/// What is read of a spelling: the number of the repetition, and how often the next byte comes.
#[derive(Drop)]
struct Speller {
    alloc: Global,
    round: u32,
    times: u32,
}

fn digit(byte: u8) -> Option<u8> {
    match byte {
        b'0'..=b'9' => Some(byte - b'0'),
        b'a'..=b'f' => Some(byte - b'a' + 10),
        _ => None,
    }
}

/// The byte of two digits.
fn byte_of(high: u8, low: u8) -> Option<u8> {
    Some(digit(high)?.wrapping_mul(16) | digit(low)?)
}

impl Speller {
    /// Adds bytes that are themselves.
    fn add(&mut self, bytes: &mut Vec<u8>, plain: &[u8]) -> Result<(), Fault> {
        for byte in plain {
            for _ in 0..self.times {
                bytes.push(*byte)?;
            }
            self.times = 1;
        }
        Ok(())
    }

    /// Adds what stands for itself no more: the sign behind a backslash. What is behind the sign comes back.
    fn add_sign<'a>(&mut self, bytes: &mut Vec<u8>, part: &'a [u8]) -> Result<&'a [u8], Fault> {
        match part {
            [b'x', high, low, rest @ ..] => {
                let byte = byte_of(*high, *low).ok_or(Fault::Form)?;
                self.add(bytes, &[byte])?;
                Ok(rest)
            }
            [b't', rest @ ..] => {
                self.add(bytes, b"\t")?;
                Ok(rest)
            }
            [b'n', rest @ ..] => {
                self.add(bytes, b"\n")?;
                Ok(rest)
            }
            [b'#', rest @ ..] => {
                let number = format!(in self.alloc; "{}", self.round)?;
                bytes.extend_from_slice(number.as_bytes())?;
                Ok(rest)
            }
            [b'(', rest @ ..] => self.take_times(rest),
            _ => Err(Fault::Form),
        }
    }

    /// Takes how often the next byte comes, up to the parenthesis.
    fn take_times<'a>(&mut self, part: &'a [u8]) -> Result<&'a [u8], Fault> {
        let end = part
            .iter()
            .position(|byte| *byte == b')')
            .ok_or(Fault::Form)?;
        let (count, rest) = part.split_at(end);
        self.times = number_within(count, 0, MAX_REPETITIONS).ok_or(Fault::Form)?;
        Ok(rest.get(1..).unwrap_or(&[]))
    }
}

/// Adds the bytes that a text spells in the repetition of this number.
pub fn add_bytes(alloc: Global, bytes: &mut Vec<u8>, text: &str, round: u32) -> Result<(), Fault> {
    let mut speller = Speller {
        alloc,
        round,
        times: 1,
    };
    for (place, part) in text.split('\\').enumerate() {
        // Each part but the first stands behind a backslash.
        let plain = if place == 0 {
            part.as_bytes()
        } else {
            speller.add_sign(bytes, part.as_bytes())?
        };
        speller.add(bytes, plain)?;
    }
    Ok(())
}

/// The bytes that a text spells.
pub fn bytes_of(alloc: Global, text: &str) -> Result<Vec<u8>, Fault> {
    let mut bytes = Vec::new(alloc);
    add_bytes(alloc, &mut bytes, text, 0)?;
    Ok(bytes)
}

/// Spells bytes: those of printed ASCII are themselves, but for the backslash.
pub fn spelled(alloc: Global, bytes: &[u8]) -> Result<String, Fault> {
    let mut text = String::new(alloc);
    for byte in bytes {
        let byte = *byte;
        match byte {
            b'\\' => text.push_str("\\x5c")?,
            b' '..=b'~' => text.push(char::from(byte))?,
            _ => text.push_str(&format!(in alloc; "\\x{byte:02x}")?)?,
        }
    }
    Ok(text)
}
