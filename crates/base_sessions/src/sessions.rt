//! The lines of standard input.
use crate::drafts::{draft_text, limit_text};
use crate::locks::call_table;
use crate::polls::call_poll;
use crate::values::found_value;
use crate::voters::Voter;
use lock_table::LockTable;
use session_rows::{Fault, Report, Rows};
use std::alloc::Global;
use ubik_recovery::Recovery;

/// What the calls of a session are made on: the votes of a server, a table of locks, and a poll with its text.
pub struct Sessions {
    alloc: Global,
    voter: Voter,
    table: LockTable,
    poll: Recovery,
}

// Derived, it would be spelled out, and proved, wherever a session is let go.
impl Drop for Sessions {
    fn drop(self) {
        let Self {
            alloc: _,
            voter: _,
            table: _,
            poll: _,
        } = self;
    }
}

impl Sessions {
    pub fn new(alloc: Global) -> Result<Sessions, Fault> {
        Ok(Sessions {
            alloc,
            voter: Voter::start(1, 0, 1),
            table: LockTable::make(alloc)?,
            poll: Recovery::none(alloc),
        })
    }

    /// What is found where a line makes this call.
    fn found(&mut self, call: &str) -> Result<String, Fault> {
        let mut words = Vec::new(self.alloc);
        for word in call.split(' ') {
            words.push(word)?;
        }
        self.found_by(&words)
    }

    /// What is found where these are the words of a call.
    fn found_by(&mut self, words: &[&str]) -> Result<String, Fault> {
        match words {
            ["vote", call @ ..] => self.voter.call(self.alloc, call),
            ["lock", call @ ..] => call_table(self.alloc, &mut self.table, call),
            ["poll", call @ ..] => call_poll(self.alloc, &mut self.poll, call),
            ["draft", head, block, image, puts @ ..] => {
                draft_text(self.alloc, [head, block, image], puts)
            }
            ["limit", len, changes @ ..] => limit_text(self.alloc, len, changes),
            call => found_value(self.alloc, call),
        }
    }
}

impl Rows for Sessions {
    fn end_session(&mut self, _report: &mut Report) -> Result<(), Fault> {
        *self = Sessions::new(self.alloc)?;
        Ok(())
    }

    fn take(&mut self, report: &mut Report, line: &str) -> Result<(), Fault> {
        let (call, expected) = line.split_once(" -> ").unwrap_or((line, "done"));
        let found = self.found(call)?;
        report.row(expected, found.as_str())
    }
}
