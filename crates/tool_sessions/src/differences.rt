//! What differs between what a row expects and what was found.
use session_rows::{Fault, told_bytes};
use std::alloc::Global;
use std::str;

/// What a row expects, and what was found in its place.
#[derive(Drop)]
pub struct Difference {
    pub expected: String,
    pub found: String,
}

impl Difference {
    fn of(alloc: Global, expected: &str, found: &str) -> Result<Option<Difference>, Fault> {
        Ok(Some(Difference {
            expected: String::from_str(alloc, expected)?,
            found: String::from_str(alloc, found)?,
        }))
    }
}

/// The first line in which texts differ.
pub fn text_difference(
    alloc: Global,
    expected: &[u8],
    found: &[u8],
) -> Result<Option<Difference>, Fault> {
    if expected == found {
        return Ok(None);
    }
    let expected = str::from_utf8(expected).unwrap_or("no text");
    let found = str::from_utf8(found).unwrap_or("no text");
    let mut lines = found.lines();
    for line in expected.lines() {
        let other = lines.next().unwrap_or("no line");
        if line != other {
            return Difference::of(alloc, line, other);
        }
    }
    let more = lines.next().unwrap_or("a line that does not end so");
    Difference::of(alloc, "no line", more)
}

/// Bytes that differ, as they are told.
pub fn byte_difference(
    alloc: Global,
    expected: &[u8],
    found: &[u8],
) -> Result<Option<Difference>, Fault> {
    if expected == found {
        return Ok(None);
    }
    Ok(Some(Difference {
        expected: told_bytes(alloc, expected)?,
        found: told_bytes(alloc, found)?,
    }))
}
