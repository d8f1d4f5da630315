//! Who changed what, in the file that the environment names.
use crate::notes::Sayer;
use crossbeam_channel::{Receiver, RecvTimeoutError, Sender};
use server_diary::Recorder;
use std::alloc::Global;
use std::env::{self, Env, VarError};
use std::fs::{File, Files, OpenOptions};
use std::io::{self, Write};
use std::os::unix::fs::OpenOptionsExt;
use std::sync::Wait;
use std::sync::atomic::{AtomicBool, Ordering};
use std::time::{Clock, Duration};
use ubik_types::Bytes;

/// The word of the environment that names the file.
const VARIABLE: &str = "CAVYGOLD_AUDIT";

/// How many entries may wait to be written.
const WAITING_ENTRIES: usize = 4_096;

/// Seconds between two looks whether an entry is missing.
const BETWEEN_LOOKS: u64 = 1;

/// What is said, once, where an entry could not be written.
const MISSING: &str = "afs_dbserver: an entry is missing in the file of CAVYGOLD_AUDIT\n";

/// Who changed what is its owner's business alone.
const OWNER_ALONE: u32 = 0o600;

/// The file that the environment names, if it names one. A name that is no text is that of no file.
pub fn audit_file<R: Env>(rt: &R, alloc: Global) -> Option<String> {
    match env::var(&(rt, alloc), VARIABLE) {
        Ok(name) if name.is_empty() => None,
        Ok(name) => Some(name),
        Err(VarError::NotPresent) => None,
        Err(_) => Some(String::new(alloc)),
    }
}

/// Hands entries to the thread that writes them, and never waits for it.
#[derive(Drop)]
pub struct Recording<'a, R: Wait> {
    rt: &'a R,
    entries: Sender<Bytes>,
    is_missing: &'a AtomicBool,
}

impl<'a, R: Wait> Recording<'a, R> {
    pub fn new(rt: &'a R, entries: Sender<Bytes>, is_missing: &'a AtomicBool) -> Recording<'a, R> {
        Recording {
            rt,
            entries,
            is_missing,
        }
    }
}

impl<'a, R: Wait + Sync> Recorder for Recording<'a, R> {
    fn record(&self, entry: Bytes) {
        let has_room = self.entries.len() < WAITING_ENTRIES;
        if !has_room || self.entries.send(self.rt, entry).is_err() {
            self.is_missing.store(true, Ordering::SeqCst);
        }
    }

    fn miss(&self) {
        self.is_missing.store(true, Ordering::SeqCst);
    }
}

/// Writes each entry that comes to the file of this name, until all that could send one has ended. Where one is missing it says so, once.
pub fn write_entries<R: Files<File = File> + Wait + Clock>(
    rt: &R,
    file: &str,
    entries: &Receiver<Bytes>,
    is_missing: &AtomicBool,
    said: &Sayer<'_, R>,
) {
    let mut has_said = false;
    let mut is_torn = false;
    for _ in rt.forever() {
        let came = entries.recv_timeout(rt, Duration::from_secs(BETWEEN_LOOKS));
        if let Ok(entry) = &came {
            is_torn = append(rt, file, entry.as_slice(), is_torn).is_err();
            if is_torn {
                is_missing.store(true, Ordering::SeqCst);
            }
        }
        if !has_said && is_missing.load(Ordering::SeqCst) {
            has_said = true;
            said.say(MISSING);
        }
        if came.is_err_and(|fault| fault == RecvTimeoutError::Disconnected) {
            return;
        }
    }
}

/// Adds an entry to the end of a file, which is made where it is not there. It is opened anew each time, so it may be moved away meanwhile.
/// Behind an entry that was written in part it begins a line.
fn append<R: Files<File = File>>(
    rt: &R,
    file: &str,
    entry: &[u8],
    is_torn: bool,
) -> io::Result<()> {
    let mut options = OpenOptions::new();
    options.append(true).create(true).mode(OWNER_ALONE);
    let mut file = options.open(rt, file)?;
    if is_torn {
        file.write_all(b"\n")?;
    }
    file.write_all(entry)
}
