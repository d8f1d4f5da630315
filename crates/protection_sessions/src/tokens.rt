//! Words and numbers as rows write them.
use script_words::number_within;
use session_rows::{Fault, first_of};
use std::alloc::Global;
use ubik_types::{Bytes, MAX_IMAGE, bytes_of};

/// A position in an image, or a length.
pub fn place_of(word: &str) -> Result<usize, Fault> {
    let place = number_within(word.as_bytes(), 0, MAX_IMAGE as u32).ok_or(Fault::Form)?;
    Ok(place as usize)
}

/// The words of a line.
pub fn words_of(alloc: Global, line: &str) -> Result<Vec<Bytes>, Fault> {
    let mut words = Vec::new(alloc);
    for word in line.split(' ') {
        words.push(bytes_of(alloc, word.as_bytes())?)?;
    }
    Ok(words)
}

/// The two parts of a line around ` -> `.
pub fn parted(line: &str) -> Result<(&str, &str), Fault> {
    line.split_once(" -> ").ok_or(Fault::Form)
}

/// The first word of a line, which is a position or a length, and what stands behind its blank.
pub fn first_place(line: &str) -> Result<(usize, &str), Fault> {
    let (word, rest) = first_of(line);
    Ok((place_of(word)?, rest))
}
