//! Sessions, line by line.
use crate::bytes::Names;
use crate::rows::Session;
use session_rows::{Fault, Report, Rows};
use std::alloc::Global;
use std::mem::replace;

/// The names of bytes, and the session that is read.
#[derive(Drop)]
pub struct Sessions {
    alloc: Global,
    names: Names,
    session: Session,
}

impl Sessions {
    pub fn new(alloc: Global) -> Sessions {
        Sessions {
            alloc,
            names: Names::new(alloc),
            session: Session::new(alloc),
        }
    }
}

impl Rows for Sessions {
    /// Runs each row of the session.
    fn end_session(&mut self, report: &mut Report) -> Result<(), Fault> {
        let session = replace(&mut self.session, Session::new(self.alloc));
        if report.name().is_empty() {
            return Ok(());
        }
        for row in 0..session.rows() {
            match session.run(&self.names, report, row)? {
                None => report.pass(),
                Some(differs) => {
                    let which = session.values_text(row)?;
                    let (expected, found) = (differs.expected.as_str(), differs.found.as_str());
                    report.fail(which.as_str(), expected, found)?;
                }
            }
        }
        let last = report.line();
        report.turn_to(last);
        Ok(())
    }

    /// Takes a line within a session, or one that gives bytes a name.
    fn take(&mut self, report: &mut Report, line: &str) -> Result<(), Fault> {
        match line.split_once(' ') {
            Some(("let", rest)) => self.names.add(rest),
            _ if line.is_empty() => Ok(()),
            _ if report.name().is_empty() => Err(Fault::Form),
            Some(("each", rest)) => self.session.vary(rest),
            _ => self.session.add(report.line(), line),
        }
    }
}
