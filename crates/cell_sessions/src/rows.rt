//! A row: a script, what it is to write, and how it is to end.
use crate::differences::{Difference, Told, Wanted, first_difference};
use crate::faults::Fault;
use crate::runs::{Failing, end_words, run_script};
use crate::spelling::{MAX_REPETITIONS, add_bytes, bytes_of};
use script_words::{number, number_within};
use std::alloc::Global;

/// A row so far: its script, the calls that fail, and its trace.
#[derive(Drop)]
pub struct Row {
    alloc: Global,
    script: Vec<u8>,
    failing: Failing,
    trace: Vec<Told>,
    gap: Option<usize>,
}

impl Row {
    /// A row without a line.
    pub fn new(alloc: Global) -> Row {
        Row {
            alloc,
            script: Vec::new(alloc),
            failing: Failing::none(alloc),
            trace: Vec::new(alloc),
            gap: None,
        }
    }

    /// Takes a line without its mark: `>` and a line of the script, `+` and bytes of it behind which no LF stands, `*` and a count
    /// with a line that comes so often, `!` and a call that fails, `1` and a line of the trace, `~` in the place of any lines of it.
    pub fn add(&mut self, line: u32, mark: &str, rest: &str) -> Result<(), Fault> {
        match mark {
            ">" => self.add_line(rest, 0),
            "+" => add_bytes(self.alloc, &mut self.script, rest, 0),
            "*" => self.add_lines(rest),
            "!" => self.add_failing(rest),
            "1" => self.add_told(line, rest),
            "~" => {
                self.gap = Some(self.trace.len());
                Ok(())
            }
            _ => Err(Fault::Form),
        }
    }

    /// Adds a line of the script, in the repetition of this number.
    pub fn add_line(&mut self, text: &str, round: u32) -> Result<(), Fault> {
        add_bytes(self.alloc, &mut self.script, text, round)?;
        self.script.push(b'\n')?;
        Ok(())
    }

    /// Adds a line so many times.
    fn add_lines(&mut self, rest: &str) -> Result<(), Fault> {
        let (count, text) = rest.split_once(' ').ok_or(Fault::Form)?;
        let count = number_within(count.as_bytes(), 1, MAX_REPETITIONS).ok_or(Fault::Form)?;
        for round in 0..count {
            self.add_line(text, round)?;
        }
        Ok(())
    }

    /// Adds the number of a call that fails: of the source, of the sink, or of the disk of the first server.
    pub fn add_failing(&mut self, rest: &str) -> Result<(), Fault> {
        let (which, call) = rest.split_once(' ').ok_or(Fault::Form)?;
        let call = number(call.as_bytes()).ok_or(Fault::Form)?;
        match which {
            "source" => self.failing.source.push(call)?,
            "sink" => self.failing.sink.push(call)?,
            "disk" => self.failing.disk.push(call)?,
            _ => return Err(Fault::Form),
        }
        Ok(())
    }

    /// Adds a line of the trace, which stands at this line of standard input.
    pub fn add_told(&mut self, line: u32, text: &str) -> Result<(), Fault> {
        let bytes = bytes_of(self.alloc, text)?;
        self.trace.push(Told { line, bytes })?;
        Ok(())
    }

    /// Runs the script, and tells where it differs. The words of its end stand at this line of standard input.
    pub fn replay(self, line: u32, end: &str) -> Result<Option<Difference>, Fault> {
        let Row {
            alloc,
            script,
            failing,
            trace,
            gap,
        } = self;
        let bytes = bytes_of(alloc, end)?;
        let end = Told { line, bytes };
        let wanted = Wanted { trace, gap, end };
        let seen = run_script(alloc, &script, &failing)?;
        let ended = end_words(alloc, seen.end)?;
        first_difference(alloc, &wanted, &seen.trace, &ended)
    }
}
