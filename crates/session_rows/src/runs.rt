//! The way through all lines of standard input.
use crate::faults::Fault;
use crate::reports::Report;
use std::alloc::Global;
use std::io::Read;
use std::str;

/// The exit status where a row failed.
const FAILED: u8 = 1;

/// The exit status where the input has no whole rows, or nothing can be told of them.
pub const NO_ROWS: u8 = 2;

/// What a program makes of the lines of its rows.
pub trait Rows {
    /// Ends the session so far: another one begins, or the end of all rows stands there.
    fn end_session(&mut self, report: &mut Report) -> Result<(), Fault>;

    /// Takes a line that is neither `# NAME` nor `end N`.
    fn take(&mut self, report: &mut Report, line: &str) -> Result<(), Fault>;
}

/// Goes through all lines: `# NAME` begins a session, `end N` stands last and counts all rows, the others are the program's.
fn read<R: Rows>(rows: &mut R, report: &mut Report, text: &str) -> Result<(), Fault> {
    for line in text.lines() {
        report.next_line()?;
        match line.split_once(' ') {
            Some(("#", name)) => {
                rows.end_session(report)?;
                report.begin(name)?;
            }
            Some(("end", count)) => {
                rows.end_session(report)?;
                report.end(count)?;
            }
            _ => rows.take(report, line)?,
        }
    }
    if report.has_ended() {
        Ok(())
    } else {
        Err(Fault::NoEnd)
    }
}

/// Goes through all lines of bytes that are text.
fn read_bytes<R: Rows>(rows: &mut R, report: &mut Report, bytes: &[u8]) -> Result<(), Fault> {
    match str::from_utf8(bytes) {
        Ok(text) => read(rows, report, text),
        Err(_) => Err(Fault::NoText),
    }
}

/// Goes through the rows of standard input. Tells of each that failed, and how many passed and failed, on standard output, and the line
/// that is out of form on standard error. Gives the exit status: 0 where all passed, 1 where one failed, 2 where the input has no whole
/// rows.
pub fn run_rows<R: Rows, H: Input + Print + Eprint>(rt: &H, alloc: Global, rows: &mut R) -> u8 {
    let mut report = Report::new(alloc);
    let mut bytes = Vec::new(alloc);
    let ended = match rt.reader().read_to_end(&mut bytes) {
        Ok(_) => read_bytes(rows, &mut report, &bytes),
        Err(_) => Err(Fault::NoText),
    };
    let failed = report.failed();
    let passed = report.rows().wrapping_sub(failed);
    let told = print!(rt; "{}{passed} rows passed, {failed} failed\n", report.text());
    if let Err(fault) = ended {
        let _ = eprintln!(rt; "line {}: {fault}", report.place());
        return NO_ROWS;
    }
    match (told, failed) {
        (Err(_), _) => NO_ROWS,
        (Ok(()), 0) => 0,
        (Ok(()), _) => FAILED,
    }
}
