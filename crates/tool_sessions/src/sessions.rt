//! Sessions, line by line.
use crate::commands::Command;
use session_rows::{Fault, Report, Rows};
use std::alloc::Global;

/// The command that is read, and how many rows there were before its session.
#[derive(Drop)]
pub struct Sessions {
    alloc: Global,
    command: Option<Command>,
    before: u32,
}

impl Sessions {
    pub fn new(alloc: Global) -> Sessions {
        Sessions {
            alloc,
            command: None,
            before: 0,
        }
    }

    fn begin_command(&mut self, words: &str) -> Result<(), Fault> {
        if self.command.is_some() {
            return Err(Fault::Form);
        }
        self.command = Some(Command::of(self.alloc, words)?);
        Ok(())
    }

    fn end_command(&mut self, report: &mut Report, status: &str) -> Result<(), Fault> {
        let command = self.command.take().ok_or(Fault::Form)?;
        match command.replay(self.alloc, status)? {
            Some(differs) => report.fail("", differs.expected.as_str(), differs.found.as_str()),
            None => {
                report.pass();
                Ok(())
            }
        }
    }
}

impl Rows for Sessions {
    fn end_session(&mut self, report: &mut Report) -> Result<(), Fault> {
        if self.command.is_some() {
            return Err(Fault::Form);
        }
        let count = report.rows().wrapping_sub(self.before);
        self.before = report.rows();
        if count > 0 {
            let told = format!(in self.alloc; "{}: {count} commands\n", report.name())?;
            report.tell(told.as_str())?;
        }
        Ok(())
    }

    fn take(&mut self, report: &mut Report, line: &str) -> Result<(), Fault> {
        let (mark, rest) = line.split_once(' ').ok_or(Fault::Form)?;
        match (mark, &mut self.command) {
            (">", _) => self.begin_command(rest),
            ("=", _) => self.end_command(report, rest),
            (_, Some(command)) => command.add(self.alloc, mark, rest),
            (_, None) => Err(Fault::Form),
        }
    }
}
