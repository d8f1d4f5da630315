//! Rows: scripts with what is to be seen of them, and what is seen of them over stations.
use crate::cells::seen_of;
use crate::faults::Fault;
use session_rows::{Fault as RowFault, Report, Rows, first_of};
use std::alloc::Global;

/// A script whose end was not read yet, and what is to be seen of it.
#[derive(Drop)]
pub struct Scripts {
    alloc: Global,
    script: String,
    wanted: String,
}

impl Scripts {
    pub fn new(alloc: Global) -> Scripts {
        Scripts {
            alloc,
            script: String::new(alloc),
            wanted: String::new(alloc),
        }
    }

    /// Runs the script, and begins another one. A station that does not run to the end of it fails the row.
    fn run(&mut self, report: &mut Report) -> Result<(), RowFault> {
        match seen_of(self.alloc, self.script.as_bytes()) {
            Ok(seen) => compare(report, self.wanted.as_str(), seen.as_str())?,
            Err(Fault::Line) => return Err(RowFault::Form),
            Err(Fault::NoMemory) => return Err(RowFault::NoMemory),
            Err(fault) => {
                let told = format!(in self.alloc; "{fault}")?;
                report.fail("", "a whole run", told.as_str())?;
            }
        }
        self.script.clear();
        self.wanted.clear();
        Ok(())
    }
}

impl Rows for Scripts {
    fn end_session(&mut self, _report: &mut Report) -> Result<(), RowFault> {
        if self.script.is_empty() && self.wanted.is_empty() {
            Ok(())
        } else {
            Err(RowFault::NoEnd)
        }
    }

    /// Takes a line: `>` and a line of a script, `1` and a line of what is to be seen of it, or `=`, which runs the row.
    fn take(&mut self, report: &mut Report, line: &str) -> Result<(), RowFault> {
        match first_of(line) {
            (">", rest) => add_line(&mut self.script, rest),
            ("1", rest) => add_line(&mut self.wanted, rest),
            ("=", "") => self.run(report),
            _ => Err(RowFault::Form),
        }
    }
}

fn add_line(text: &mut String, line: &str) -> Result<(), RowFault> {
    text.push_str(line)?;
    text.push('\n')?;
    Ok(())
}

/// Counts a row, which passes where the two texts are the same. Of one that fails the first lines that differ are told; an empty one
/// where a text has ended.
fn compare(report: &mut Report, expected: &str, found: &str) -> Result<(), RowFault> {
    if expected == found {
        report.pass();
        return Ok(());
    }
    let mut others = found.lines();
    for line in expected.lines() {
        match others.next() {
            Some(other) if other == line => {}
            Some(other) => return report.fail("", line, other),
            None => return report.fail("", line, ""),
        }
    }
    match others.next() {
        Some(other) => report.fail("", "", other),
        None => report.fail("", "", ""),
    }
}
