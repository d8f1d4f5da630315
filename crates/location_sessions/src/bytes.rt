//! Words as rows have them.
use session_rows::{Fault, hex_byte};
use std::alloc::Global;
use ubik_types::Bytes;

/// The words of a call, in which `\xHH` is a byte.
pub fn words_in(alloc: Global, text: &str) -> Result<Vec<Bytes>, Fault> {
    let mut words = Vec::new(alloc);
    for word in text.split(' ') {
        words.push(word_in(alloc, word)?)?;
    }
    Ok(words)
}

fn word_in(alloc: Global, word: &str) -> Result<Bytes, Fault> {
    let mut bytes = Vec::new(alloc);
    let mut parts = word.split('\\');
    if let Some(first) = parts.next() {
        bytes.extend_from_slice(first.as_bytes())?;
    }
    for part in parts {
        let [b'x', high, low, rest @ ..] = part.as_bytes() else {
            return Err(Fault::Form);
        };
        bytes.push(hex_byte(*high, *low)?)?;
        bytes.extend_from_slice(rest)?;
    }
    Ok(Bytes::new(bytes))
}
