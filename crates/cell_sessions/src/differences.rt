//! Where a trace or an end is another one than it is to be.
use crate::faults::Fault;
use crate::spelling::spelled;
use std::alloc::Global;

/// A line of a trace, and the line of standard input where it stands.
#[derive(Drop)]
pub struct Told {
    pub line: u32,
    pub bytes: Vec<u8>,
}

/// What a script is to tell: its trace, in which any lines may stand behind so many of its lines, and the words of its end, with
/// the line of standard input where they stand.
#[derive(Drop)]
pub struct Wanted {
    pub trace: Vec<Told>,
    pub gap: Option<usize>,
    pub end: Told,
}

/// A line of standard input, and what was found in its place, both with their marks.
#[derive(Drop)]
pub struct Difference {
    pub line: u32,
    pub expected: String,
    pub found: String,
}

/// A line with its mark, spelled.
fn marked(alloc: Global, mark: &str, bytes: &[u8]) -> Result<String, Fault> {
    let mut text = format!(in alloc; "{mark} ")?;
    let words = spelled(alloc, bytes)?;
    text.push_str(&words)?;
    Ok(text)
}

/// The lines of a trace.
fn lines_of(alloc: Global, trace: &[u8]) -> Result<Vec<&[u8]>, Fault> {
    let mut lines = Vec::new(alloc);
    for line in trace.split(|byte| *byte == b'\n') {
        lines.push(line)?;
    }
    // Behind the last LF stands no line.
    if trace.is_empty() || trace.ends_with(b"\n") {
        let _ = lines.pop();
    }
    Ok(lines)
}

/// The first line that is another one in a trace that was found with an end.
pub fn first_difference(
    alloc: Global,
    wanted: &Wanted,
    trace: &[u8],
    end: &str,
) -> Result<Option<Difference>, Fault> {
    let lines = lines_of(alloc, trace)?;
    let skipped = match wanted.gap {
        Some(_) => lines.len().saturating_sub(wanted.trace.len()),
        None => 0,
    };
    let first_behind = wanted.gap.unwrap_or(wanted.trace.len());
    for (place, told) in wanted.trace.iter().enumerate() {
        let next = if place < first_behind {
            place
        } else {
            place.saturating_add(skipped)
        };
        let line = lines.get(next).copied();
        if line != Some(told.bytes.as_slice()) {
            let expected = marked(alloc, "1", &told.bytes)?;
            return Ok(Some(differs(alloc, told.line, expected, line, end)?));
        }
    }
    let behind = lines
        .get(wanted.trace.len().saturating_add(skipped))
        .copied();
    if behind.is_none() && wanted.end.bytes.as_slice() == end.as_bytes() {
        return Ok(None);
    }
    let expected = marked(alloc, "=", &wanted.end.bytes)?;
    Ok(Some(differs(alloc, wanted.end.line, expected, behind, end)?))
}

/// A line of a trace was found in the place of another one, or the end.
fn differs(
    alloc: Global,
    line: u32,
    expected: String,
    found: Option<&[u8]>,
    end: &str,
) -> Result<Difference, Fault> {
    let found = match found {
        Some(bytes) => marked(alloc, "1", bytes)?,
        None => marked(alloc, "=", end.as_bytes())?,
    };
    Ok(Difference {
        line,
        expected,
        found,
    })
}
