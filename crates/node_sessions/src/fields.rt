//! Fields of a line: numbers, and bytes behind colons.
use session_rows::{Fault, bytes_in, number_in};
use std::alloc::Global;

/// Bytes of a run that counts up are below this, and begin anew there.
const WRAP: u32 = 251;

/// The most bytes of a run.
const MAX_RUN: u32 = 2_097_152;

/// The numbers of a line, and its bytes.
#[derive(Drop)]
pub struct Fields {
    pub numbers: Vec<u32>,
    pub bytes: Vec<u8>,
}

/// The fields of words between blanks: a number, or behind a colon bytes as `session_rows` has them, or `:FIRST+COUNT`, so many bytes that
/// count up. Bytes of several words stand one after the other.
pub fn fields_in(alloc: Global, text: &str) -> Result<Fields, Fault> {
    let mut numbers = Vec::new(alloc);
    let mut bytes = Vec::new(alloc);
    for word in text.split(' ') {
        match word.strip_prefix(':') {
            Some(token) => push_bytes(alloc, &mut bytes, token)?,
            None if word.is_empty() => {}
            None => numbers.push(number_in(word)?)?,
        }
    }
    Ok(Fields { numbers, bytes })
}

fn push_bytes(alloc: Global, bytes: &mut Vec<u8>, token: &str) -> Result<(), Fault> {
    match token.split_once('+') {
        Some((first, count)) => push_run(bytes, number_in(first)?, number_in(count)?),
        None => Ok(bytes.extend_from_slice(&bytes_in(alloc, token)?)?),
    }
}

fn push_run(bytes: &mut Vec<u8>, first: u32, count: u32) -> Result<(), Fault> {
    if first >= WRAP || count > MAX_RUN {
        return Err(Fault::Form);
    }
    for at in 0..count {
        bytes.push(((first + at) % WRAP) as u8)?;
    }
    Ok(())
}

/// Whether bytes count up from the first of them.
pub fn is_run(bytes: &[u8]) -> bool {
    let mut next = None;
    for byte in bytes {
        let byte = u32::from(*byte);
        if byte >= WRAP || next.is_some_and(|wanted: u32| wanted != byte) {
            return false;
        }
        next = Some((byte + 1) % WRAP);
    }
    true
}
