//! The lines of standard input.
use crate::damages::Damaged;
use crate::frame_rows::{ask_rows, seen_rows, value_rows, with_piece};
use crate::script_rows::{
    long_meaning_text, meaning_text, number_text, signed_text, source_text, word_text,
};
use crate::xdr_rows::{item_rows, long_text, read_text, told_text};
use session_rows::{Fault, Report, Rows, bytes_in};
use std::alloc::Global;

/// The bytes that the session is about, with what became of those that were damaged.
#[derive(Drop)]
pub struct Sessions {
    alloc: Global,
    damaged: Damaged,
}

impl Sessions {
    pub fn new(alloc: Global) -> Sessions {
        Sessions {
            alloc,
            damaged: Damaged::new(Vec::new(alloc)),
        }
    }

    /// The rows of a kind, of what they are about, and what is expected. `Fault::Form` where there is no such kind, or what it is about is no
    /// input of this kind.
    fn rows(
        &mut self,
        report: &mut Report,
        kind: &str,
        input: &str,
        expected: &str,
    ) -> Result<(), Fault> {
        let alloc = self.alloc;
        match kind {
            "each" => self.damaged.each(alloc, report, input, expected),
            "refused" => seen_rows(alloc, report, &bytes_in(alloc, input)?, expected),
            "piece" => {
                let bytes = with_piece(alloc, &self.damaged.bytes, input)?;
                seen_rows(alloc, report, &bytes, expected)
            }
            "longask" => ask_rows(alloc, report, input, expected),
            "u32" | "i32" | "bool" | "opaque" => {
                let bytes = item_rows(alloc, report, kind, input, expected)?;
                self.damaged = Damaged::new(bytes);
                Ok(())
            }
            "outcomes" => list_rows(report, expected, &self.damaged.outcomes_text(alloc)?),
            "reads" => list_rows(report, expected, &read_text(alloc, input)?),
            "longtext" => list_rows(report, expected, &long_text(alloc, input)?),
            "source" => list_rows(report, expected, &source_text(alloc, input, expected)?),
            _ => report.row(expected, &self.found(kind, input)?),
        }
    }

    /// What is found where a line is one row.
    fn found(&self, kind: &str, input: &str) -> Result<String, Fault> {
        let alloc = self.alloc;
        match kind {
            "told" => told_text(alloc, input),
            "word" => word_text(alloc, input),
            "number" => number_text(alloc, input),
            "signed" => signed_text(alloc, input),
            "line" => meaning_text(alloc, input),
            "longline" => long_meaning_text(alloc, input),
            _ => Err(Fault::Form),
        }
    }
}

impl Rows for Sessions {
    fn end_session(&mut self, _report: &mut Report) -> Result<(), Fault> {
        Ok(())
    }

    fn take(&mut self, report: &mut Report, line: &str) -> Result<(), Fault> {
        let (kind, rest) = line.split_once(' ').ok_or(Fault::Form)?;
        match (kind, rest.split_once(" -> ")) {
            ("frame", None) => {
                self.damaged = Damaged::new(bytes_in(self.alloc, rest)?);
                Ok(())
            }
            ("value", None) => value_rows(self.alloc, report, &self.damaged.bytes, rest),
            (_, Some((input, expected))) => self.rows(report, kind, input, expected),
            (_, None) => Err(Fault::Form),
        }
    }
}

/// A row for each of two lists, item by item; where one is longer, what the other lacks is the empty text.
fn list_rows(report: &mut Report, expected: &str, found: &str) -> Result<(), Fault> {
    let mut others = found.split(", ");
    for item in expected.split(", ") {
        report.row(item, others.next().unwrap_or(""))?;
    }
    for other in others {
        report.row("", other)?;
    }
    Ok(())
}
