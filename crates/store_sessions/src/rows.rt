//! The rows of a session: its lines, once for each choice of values for the words that stand in braces.
use crate::bytes::Names;
use crate::calls::make;
use crate::devices::Device;
use crate::disks::planned;
use session_rows::{Fault, Report, long_in};
use std::alloc::Global;

/// A line of the input, and its number.
#[derive(Drop)]
struct Line {
    number: u32,
    text: String,
}

/// A word that stands in braces, and the values that it has in turn.
#[derive(Drop)]
struct Variable {
    name: String,
    values: Vec<String>,
}

/// A session: the words in braces, and the lines.
#[derive(Drop)]
pub struct Session {
    alloc: Global,
    variables: Vec<Variable>,
    lines: Vec<Line>,
}

/// How a call of a row differs from what its line says.
#[derive(Drop)]
pub struct Difference {
    pub expected: String,
    pub found: String,
}

impl Session {
    pub fn new(alloc: Global) -> Session {
        Session {
            alloc,
            variables: Vec::new(alloc),
            lines: Vec::new(alloc),
        }
    }

    /// Adds a line.
    pub fn add(&mut self, number: u32, text: &str) -> Result<(), Fault> {
        let text = String::from_str(self.alloc, text)?;
        self.lines.push(Line { number, text })?;
        Ok(())
    }

    /// Adds a word in braces, as `NAME A..B`, both included, or `NAME VALUE VALUE ..`.
    pub fn vary(&mut self, text: &str) -> Result<(), Fault> {
        let (name, rest) = text.split_once(' ').ok_or(Fault::Form)?;
        let mut values = Vec::new(self.alloc);
        for word in rest.split(' ') {
            match word.split_once("..") {
                None => values.push(String::from_str(self.alloc, word)?)?,
                Some((from, to)) => {
                    for number in long_in(from)?..=long_in(to)? {
                        values.push(format!(in self.alloc; "{number}")?)?;
                    }
                }
            }
        }
        let name = String::from_str(self.alloc, name)?;
        self.variables.push(Variable { name, values })?;
        Ok(())
    }

    /// How many rows it has.
    pub fn rows(&self) -> u64 {
        let mut rows: u64 = 1;
        for variable in &self.variables {
            rows = rows.saturating_mul(variable.values.len() as u64);
        }
        rows
    }

    /// A text with the values of a row in place of the words in braces.
    fn filled(&self, row: u64, text: &str) -> Result<String, Fault> {
        let mut filled = String::new(self.alloc);
        let mut is_first = true;
        for piece in text.split('{') {
            if is_first {
                filled.push_str(piece)?;
                is_first = false;
            } else {
                let (name, rest) = piece.split_once('}').ok_or(Fault::Form)?;
                filled.push_str(self.value(row, name)?)?;
                filled.push_str(rest)?;
            }
        }
        Ok(filled)
    }

    /// The value that a word in braces has in a row. The last word changes first.
    fn value(&self, row: u64, name: &str) -> Result<&str, Fault> {
        let mut rest = row;
        for variable in self.variables.iter().rev() {
            let count = variable.values.len() as u64;
            if count == 0 {
                return Err(Fault::Form);
            }
            if variable.name.as_str() == name {
                let at = (rest % count) as usize;
                return Ok(variable.values[at].as_str());
            }
            rest /= count;
        }
        Err(Fault::Form)
    }

    /// The values of a row, as they stand behind the name of its session.
    pub fn values_text(&self, row: u64) -> Result<String, Fault> {
        let mut text = String::new(self.alloc);
        for variable in &self.variables {
            let name = variable.name.as_str();
            let value = self.value(row, name)?;
            text.push_str(format!(in self.alloc; " {name}={value}")?.as_str())?;
        }
        Ok(text)
    }

    /// Runs a row up to the first line that does not go as it says, to which the report is turned then.
    pub fn run(
        &self,
        names: &Names,
        report: &mut Report,
        row: u64,
    ) -> Result<Option<Difference>, Fault> {
        let mut device = planned(self.alloc, &[])?;
        for line in &self.lines {
            report.turn_to(line.number);
            let text = self.filled(row, line.text.as_str())?;
            let (next, differs) = run_line(self.alloc, names, device, text.as_str())?;
            if differs.is_some() {
                return Ok(differs);
            }
            device = next;
        }
        Ok(None)
    }
}

/// Runs a line, `CALL -> ANSWER`, or a call alone that is to be done.
fn run_line(
    alloc: Global,
    names: &Names,
    device: Device,
    text: &str,
) -> Result<(Device, Option<Difference>), Fault> {
    let (call, expected) = text.split_once(" -> ").unwrap_or((text, "done"));
    let mut words = Vec::new(alloc);
    for word in call.split(' ') {
        words.push(word)?;
    }
    let (device, answer) = make(alloc, names, device, &words)?;
    if answer.is(names, expected) {
        return Ok((device, None));
    }
    let differs = Difference {
        expected: String::from_str(alloc, expected)?,
        found: answer.told(alloc)?,
    };
    Ok((device, Some(differs)))
}
