//! Sessions, line by line.
use crate::appending::Appending;
use crate::servers::Server;
use disk_base::MemDisk;
use pt_database::PtService;
use session_rows::{Fault, Report, Rows, first_of};
use std::alloc::Global;

/// The server of a session: one of the small database, or one of the protection database.
#[derive(Drop)]
pub struct Sessions {
    alloc: Global,
    is_small: bool,
    small: Server<MemDisk, Appending>,
    users: Server<MemDisk, PtService>,
}

impl Sessions {
    pub fn new(alloc: Global) -> Sessions {
        Sessions {
            alloc,
            is_small: true,
            small: Server::new(alloc),
            users: Server::new(alloc),
        }
    }

    /// Makes the call of a line.
    fn call(&mut self, line: &str) -> Result<String, Fault> {
        let alloc = self.alloc;
        match first_of(line) {
            ("small", rest) => {
                self.is_small = true;
                self.small.open(MemDisk::new(alloc, &[])?, rest)
            }
            ("users", rest) => {
                self.is_small = false;
                self.users.open(MemDisk::new(alloc, &[])?, rest)
            }
            _ if self.is_small => self.small.call(line),
            _ => self.users.call(line),
        }
    }
}

impl Rows for Sessions {
    /// Takes the servers down.
    fn end_session(&mut self, _report: &mut Report) -> Result<(), Fault> {
        self.small = Server::new(self.alloc);
        self.users = Server::new(self.alloc);
        Ok(())
    }

    /// Makes a call, and compares what comes of it with what stands behind the arrow.
    fn take(&mut self, report: &mut Report, line: &str) -> Result<(), Fault> {
        let (call, wanted) = line.split_once(" -> ").ok_or(Fault::Form)?;
        let found = self.call(call)?;
        report.row(wanted, found.as_str())
    }
}
