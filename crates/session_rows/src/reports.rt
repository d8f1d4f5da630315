//! How many rows passed, and what is told of the others.
use crate::faults::Fault;
use crate::texts::number_in;
use std::alloc::Global;

/// What is known of the rows so far: the session and the line that are read, the line that is told of a row or a fault, how many rows
/// passed and how many failed, whether the end was read, and what is told.
#[derive(Drop)]
pub struct Report {
    alloc: Global,
    name: String,
    line: u32,
    place: u32,
    passed: u32,
    failed: u32,
    has_ended: bool,
    text: String,
}

impl Report {
    pub fn new(alloc: Global) -> Report {
        Report {
            alloc,
            name: String::new(alloc),
            line: 0,
            place: 0,
            passed: 0,
            failed: 0,
            has_ended: false,
            text: String::new(alloc),
        }
    }

    /// The line that is read, counted from 1.
    pub fn line(&self) -> u32 {
        self.line
    }

    /// The name of the session.
    pub fn name(&self) -> &str {
        self.name.as_str()
    }

    /// How many rows there were.
    pub fn rows(&self) -> u32 {
        self.passed.wrapping_add(self.failed)
    }

    /// How many rows failed.
    pub fn failed(&self) -> u32 {
        self.failed
    }

    /// What there is to tell: a line for each row that failed, and what was added to these.
    pub fn text(&self) -> &str {
        self.text.as_str()
    }

    /// The line that is told of a row or a fault: the one that is read, or the one that was turned to since.
    pub fn place(&self) -> u32 {
        self.place
    }

    /// Turns to an earlier line.
    pub fn turn_to(&mut self, line: u32) {
        self.place = line;
    }

    /// Notes that one more line is read, behind which the end does not stand yet.
    pub fn next_line(&mut self) -> Result<(), Fault> {
        self.line = self.line.wrapping_add(1);
        self.place = self.line;
        if self.has_ended {
            return Err(Fault::NoEnd);
        }
        Ok(())
    }

    /// Names the session of the rows that follow.
    pub fn begin(&mut self, name: &str) -> Result<(), Fault> {
        self.name = String::from_str(self.alloc, name)?;
        Ok(())
    }

    /// Reads the end: the number of all rows.
    pub fn end(&mut self, count: &str) -> Result<(), Fault> {
        let rows = self.rows();
        if rows == 0 || number_in(count)? != rows {
            return Err(Fault::Count);
        }
        self.has_ended = true;
        Ok(())
    }

    /// Whether the end was read.
    pub fn has_ended(&self) -> bool {
        self.has_ended
    }

    /// Adds a text to what is told.
    pub fn tell(&mut self, text: &str) -> Result<(), Fault> {
        self.text.push_str(text)?;
        Ok(())
    }

    /// Counts a row that passed.
    pub fn pass(&mut self) {
        self.passed = self.passed.wrapping_add(1);
    }

    /// Counts a row that failed, and tells of it by the name of the session, which of its rows it is, and the line.
    pub fn fail(&mut self, which: &str, expected: &str, found: &str) -> Result<(), Fault> {
        self.failed = self.failed.wrapping_add(1);
        let (name, line) = (self.name.as_str(), self.place);
        let told = format!(in self.alloc;
            "failed {name}{which}: line {line}: expected \"{expected}\", found \"{found}\"\n"
        )?;
        self.text.push_str(told.as_str())?;
        Ok(())
    }

    /// Counts the row of this line, which passes where what was found is what is expected. A session has to have begun.
    pub fn row(&mut self, expected: &str, found: &str) -> Result<(), Fault> {
        self.row_at("", expected, found)
    }

    /// Counts one of several rows of this line.
    pub fn row_at(&mut self, which: &str, expected: &str, found: &str) -> Result<(), Fault> {
        if self.name.is_empty() {
            return Err(Fault::Form);
        }
        if expected == found {
            self.pass();
            return Ok(());
        }
        self.fail(which, expected, found)
    }
}
