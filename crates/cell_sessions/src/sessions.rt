//! Sessions, line by line.
use crate::differences::Difference;
use crate::faults::Fault;
use crate::places::{Place, row_of};
use crate::rows::Row;
use script_words::number_within;
use std::alloc::Global;

/// A line with which each row of a session begins, and the line of standard input where it stands.
#[derive(Drop)]
struct FrontLine {
    line: u32,
    text: String,
}

/// What was run so far: the session, its row that has no end yet, how many rows went as they say, and what is told of the others.
#[derive(Drop)]
pub struct Sessions {
    alloc: Global,
    name: String,
    front: Vec<FrontLine>,
    row: Option<Row>,
    passed: u32,
    failed: u32,
    is_ended: bool,
    /// The line of standard input that was read last.
    line: u32,
    report: String,
}

/// The first word of a text, and what stands behind its blank.
fn split_word(text: &str) -> (&str, &str) {
    text.split_once(' ').unwrap_or((text, ""))
}

impl Sessions {
    pub fn new(alloc: Global) -> Sessions {
        Sessions {
            alloc,
            name: String::new(alloc),
            front: Vec::new(alloc),
            row: None,
            passed: 0,
            failed: 0,
            is_ended: false,
            line: 0,
            report: String::new(alloc),
        }
    }

    /// What there is to tell: a line for each row that differs, and how many did.
    pub fn report(&self) -> &str {
        self.report.as_str()
    }

    /// How many lines were read.
    pub fn line(&self) -> u32 {
        self.line
    }

    /// The exit status: 0 where no row differs, or 1.
    pub fn status(&self) -> u8 {
        u8::from(self.failed > 0)
    }

    /// Runs all rows of a text.
    pub fn read(&mut self, text: &str) -> Result<(), Fault> {
        for line in text.lines() {
            self.line = self.line.saturating_add(1);
            self.take(line)?;
        }
        if !self.is_ended {
            return Err(Fault::NoEnd);
        }
        if self.rows() == 0 {
            return Err(Fault::NoRow);
        }
        let (passed, failed) = (self.passed, self.failed);
        let told = format!(in self.alloc; "{passed} rows passed, {failed} failed\n")?;
        self.report.push_str(&told)?;
        Ok(())
    }

    /// How many rows were run.
    fn rows(&self) -> u32 {
        self.passed.saturating_add(self.failed)
    }

    /// Takes a line: `#` and the name of a session, `@` and a line with which each of its rows begins, `=` and the words that end a row, `?` and a line that is a row in each place, `end`
    /// and the number of all rows, which comes last, or a line of a row.
    fn take(&mut self, text: &str) -> Result<(), Fault> {
        if self.is_ended {
            return Err(Fault::Form);
        }
        let (mark, rest) = split_word(text);
        match (mark, &mut self.row) {
            ("=", Some(_)) => self.end_row(rest),
            ("#" | "@" | "?" | "end", Some(_)) => Err(Fault::Form),
            ("#", None) => self.begin(rest),
            ("@", None) => self.add_front(rest),
            ("?", None) => self.run_places(rest),
            ("end", None) => self.end(rest),
            (_, Some(row)) => row.add(self.line, mark, rest),
            (_, None) => {
                let mut row = self.new_row()?;
                row.add(self.line, mark, rest)?;
                self.row = Some(row);
                Ok(())
            }
        }
    }

    fn begin(&mut self, name: &str) -> Result<(), Fault> {
        self.name.clear();
        self.name.push_str(name)?;
        self.front.clear();
        Ok(())
    }

    fn add_front(&mut self, words: &str) -> Result<(), Fault> {
        let text = String::from_str(self.alloc, words)?;
        let line = self.line;
        self.front.push(FrontLine { line, text })?;
        Ok(())
    }

    /// A row that begins as each row of the session does.
    fn new_row(&self) -> Result<Row, Fault> {
        let mut row = Row::new(self.alloc);
        for front in &self.front {
            let text = front.text.as_str();
            let (mark, rest) = split_word(text);
            row.add(front.line, mark, rest)?;
        }
        Ok(row)
    }

    fn end_row(&mut self, words: &str) -> Result<(), Fault> {
        let row = self.row.take().ok_or(Fault::Form)?;
        self.run(row, words)
    }

    /// Runs a row, which is to end so.
    fn run(&mut self, row: Row, end: &str) -> Result<(), Fault> {
        match row.replay(self.line, end)? {
            None => {
                self.passed = self.passed.saturating_add(1);
                Ok(())
            }
            Some(found) => self.tell(&found),
        }
    }

    fn tell(&mut self, difference: &Difference) -> Result<(), Fault> {
        self.failed = self.failed.saturating_add(1);
        let Difference {
            line,
            expected,
            found,
        } = difference;
        let name = &self.name;
        let told = format!(in self.alloc;
            "failed {name}: line {line}: expected \"{expected}\", found \"{found}\"\n"
        )?;
        self.report.push_str(&told)?;
        Ok(())
    }

    /// Runs a line in each place: words say what it does there.
    fn run_places(&mut self, words: &str) -> Result<(), Fault> {
        let (first, rest) = split_word(words);
        let (up, rest) = split_word(rest);
        let (down, line) = split_word(rest);
        self.run_place(Place::First, first, line)?;
        self.run_place(Place::Up, up, line)?;
        self.run_place(Place::Down, down, line)
    }

    /// Runs a line in a place, unless its word is `-`.
    fn run_place(&mut self, place: Place, word: &str, line: &str) -> Result<(), Fault> {
        if word == "-" {
            return Ok(());
        }
        let (row, end) = row_of(self.alloc, place, line, self.line, word)?;
        self.run(row, &end)
    }

    fn end(&mut self, words: &str) -> Result<(), Fault> {
        let count = number_within(words.as_bytes(), 0, u32::MAX).ok_or(Fault::Form)?;
        if count != self.rows() {
            return Err(Fault::Count);
        }
        self.is_ended = true;
        Ok(())
    }
}
