//! The lines of a server's log on its own state.

use crate::changes::{Change, Seen, ahead_change, epoch_change, heard_change, site_change};
use std::alloc::Global;
use ubik_calls::DebugIs;
use ubik_types::NoMemory;

/// What a server was last seen to be.
#[derive(Drop)]
pub struct Watch {
    alloc: Global,
    /// None before it has answered.
    last: Option<Seen>,
    is_silent: bool,
}

impl Watch {
    pub fn new(alloc: Global) -> Watch {
        Watch {
            alloc,
            last: None,
            is_silent: false,
        }
    }

    /// The lines on what has changed since the last look, where a server was asked at a moment, in Unix seconds, and said this of itself,
    /// or gave no answer. After an `Err` they are not told any more.
    pub fn lines(&mut self, moment: u32, is: Option<DebugIs>) -> Result<String, NoMemory> {
        let mut text = String::new(self.alloc);
        match is {
            Some(is) => {
                if self.is_silent {
                    self.is_silent = false;
                    tell_silence(&mut text, is.now, false)?;
                }
                self.tell_changes(&mut text, &is)?;
            }
            None => {
                if !self.is_silent {
                    self.is_silent = true;
                    tell_silence(&mut text, moment, true)?;
                }
            }
        }
        Ok(text)
    }

    fn tell_changes(&mut self, text: &mut String, is: &DebugIs) -> Result<(), NoMemory> {
        let (old, ahead) = match self.last {
            Some(seen) => (seen, None),
            None => (Seen::first(is), ahead_change(is)),
        };
        self.last = Some(Seen::of(is));
        let changes = [
            ahead,
            site_change(old, is),
            heard_change(old, is),
            epoch_change(old, is),
        ];
        for change in changes.iter().flatten() {
            tell_change(text, is.now, *change)?;
        }
        Ok(())
    }
}

/// Adds the line of a change.
fn tell_change(text: &mut String, moment: u32, change: Change) -> Result<(), NoMemory> {
    write!(text, "afs_dbserver: {moment} ")?;
    match change {
        Change::Site { until } => {
            writeln!(text, "became the sync site, with a lease until {until}")?;
        }
        Change::NoSite => writeln!(text, "lost its lease: it is the sync site no more")?,
        Change::Heard { host } => writeln!(text, "heard the sync site {host}")?,
        Change::HeardNone => writeln!(text, "hears no sync site any more")?,
        Change::Epoch { epoch, counter } => {
            writeln!(text, "has another epoch: version {epoch}.{counter}")?;
        }
        Change::Ahead { epoch } => {
            writeln!(
                text,
                "has an epoch ahead of this clock: no write is taken before {epoch}"
            )?;
        }
    }
    Ok(())
}

/// Adds the line where a server gives no answer to itself, or gives one again.
fn tell_silence(text: &mut String, moment: u32, is_silent: bool) -> Result<(), NoMemory> {
    let what = if is_silent {
        "gives no answer to itself"
    } else {
        "answers itself again"
    };
    writeln!(text, "afs_dbserver: {moment} {what}")?;
    Ok(())
}
