//! Bytes and numbers as rows write them.
use crate::faults::Fault;
use script_words::{number, number_within, signed_number};
use std::alloc::Global;

/// The most times that bytes stand one after the other.
const MAX_TIMES: u32 = 100_000;

/// How many bytes are told of more.
const MAX_TOLD: usize = 96;

/// The bytes of tokens between blanks: two hexadecimal digits a byte, `*N` behind them for as many times, `#N` for the word of a number,
/// which may have a sign, `"TEXT"` for a text without a blank.
pub fn bytes_in(alloc: Global, text: &str) -> Result<Vec<u8>, Fault> {
    let mut bytes = Vec::new(alloc);
    for token in text.split(' ') {
        push_token(&mut bytes, token)?;
    }
    Ok(bytes)
}

fn push_token(bytes: &mut Vec<u8>, token: &str) -> Result<(), Fault> {
    match token.as_bytes() {
        [b'#', number @ ..] => push_number(bytes, number),
        [b'"', text @ .., b'"'] => Ok(bytes.extend_from_slice(text)?),
        _ => match token.split_once('*') {
            Some((digits, times)) => push_times(bytes, digits, times),
            None => push_digits(bytes, token),
        },
    }
}

/// Adds the word of a number.
fn push_number(bytes: &mut Vec<u8>, word: &[u8]) -> Result<(), Fault> {
    let number = match signed_number(word) {
        Some(number) => number.cast_unsigned(),
        None => number_within(word, 0, u32::MAX).ok_or(Fault::Form)?,
    };
    Ok(bytes.extend_from_slice(&number.to_be_bytes())?)
}

fn push_times(bytes: &mut Vec<u8>, digits: &str, times: &str) -> Result<(), Fault> {
    let times = number_within(times.as_bytes(), 0, MAX_TIMES).ok_or(Fault::Form)?;
    for _ in 0..times {
        push_digits(bytes, digits)?;
    }
    Ok(())
}

/// Adds the bytes of hexadecimal digits, two each.
pub fn push_digits(bytes: &mut Vec<u8>, digits: &str) -> Result<(), Fault> {
    for pair in digits.as_bytes().chunks(2) {
        match pair {
            [high, low] => bytes.push(hex_byte(*high, *low)?)?,
            _ => return Err(Fault::Form),
        }
    }
    Ok(())
}

/// The byte of two hexadecimal digits.
pub fn hex_byte(high: u8, low: u8) -> Result<u8, Fault> {
    Ok(digit(high)? << 4 | digit(low)?)
}

fn digit(letter: u8) -> Result<u8, Fault> {
    match letter {
        b'0'..=b'9' => Ok(letter - b'0'),
        b'a'..=b'f' => Ok(letter - b'a' + 10),
        _ => Err(Fault::Form),
    }
}

/// A number of 32 bits.
pub fn number_in(word: &str) -> Result<u32, Fault> {
    number_within(word.as_bytes(), 0, u32::MAX).ok_or(Fault::Form)
}

/// A number of 64 bits.
pub fn long_in(word: &str) -> Result<u64, Fault> {
    number(word.as_bytes()).ok_or(Fault::Form)
}

/// The first word of a line, and what stands behind its blank.
pub fn first_of(line: &str) -> (&str, &str) {
    line.split_once(' ').unwrap_or((line, ""))
}

/// Bytes as they are told: the digits of the first of them, `-` for none.
pub fn told_bytes(alloc: Global, bytes: &[u8]) -> Result<String, Fault> {
    let mut told = String::new(alloc);
    if bytes.is_empty() {
        told.push_str("-")?;
    }
    for byte in bytes.iter().take(MAX_TOLD) {
        told.push_str(format!(in alloc; "{byte:02x}")?.as_str())?;
    }
    if bytes.len() > MAX_TOLD {
        let len = bytes.len();
        told.push_str(format!(in alloc; ".. of {len} bytes")?.as_str())?;
    }
    Ok(told)
}
