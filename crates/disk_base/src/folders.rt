//! The opening of a folder: for one server alone, with what was found there made durable first.
use crate::file_disks::OpenFault;
use std::alloc::Global;
use std::fs::{File, OpenOptions, rename};
use std::io;
use std::os::unix::fs::OpenOptionsExt;
use std::path::Path;
use std::rt::Files;

/// The open files of a folder.
#[derive(Drop)]
pub(crate) struct Folder {
    /// Holds the lock on the folder for as long as it is open.
    pub(crate) lock: File,
    pub(crate) database: File,
    pub(crate) log: File,
    pub(crate) incoming: File,
}

/// Users and groups are nobody else's business: what is made is for its owner alone.
const OWNER_ALONE: u32 = 0o600;

/// Locks a folder, and then opens its three files, made durable, or makes them where they are not there. A folder that
/// another server has open is refused, and so is one whose database is missing beside a log or an incoming file that is
/// not empty: it is no new server's.
pub(crate) fn open_folder<R: Files<File = File>>(
    rt: &R,
    alloc: Global,
    folder: &str,
) -> Result<Folder, OpenFault> {
    let lock = locked(rt, alloc, folder)?;
    let database = found(rt, alloc, folder, "database")?;
    let log = found(rt, alloc, folder, "log")?;
    let incoming = found(rt, alloc, folder, "incoming")?;
    if database.is_none() && (has_bytes(&log)? || has_bytes(&incoming)?) {
        return Err(OpenFault::Failed);
    }
    let opened = Folder {
        lock,
        database: renewed(rt, alloc, folder, "database", database)?,
        log: renewed(rt, alloc, folder, "log", log)?,
        incoming: renewed(rt, alloc, folder, "incoming", incoming)?,
    };
    File::open(rt, folder)?.sync_all()?;
    Ok(opened)
}

/// Takes the lock on a folder, by a file of its own.
fn locked<R: Files<File = File>>(rt: &R, alloc: Global, folder: &str) -> Result<File, OpenFault> {
    let path = Path::new(folder)
        .join(alloc, "lock")
        .map_err(io::Error::from)?;
    let mut options = OpenOptions::new();
    options.write(true).create(true).mode(OWNER_ALONE);
    let file = options.open(rt, path.as_path())?;
    match file.try_lock() {
        Ok(()) => Ok(file),
        Err(_) => Err(OpenFault::Failed),
    }
}

/// Opens a file of a folder, if it is there.
fn found<R: Files<File = File>>(
    rt: &R,
    alloc: Global,
    folder: &str,
    name: &str,
) -> io::Result<Option<File>> {
    let path = Path::new(folder).join(alloc, name)?;
    match File::open(rt, path.as_path()) {
        Ok(file) => Ok(Some(file)),
        Err(error) if error.kind() == io::ErrorKind::NotFound => Ok(None),
        Err(error) => Err(error),
    }
}

fn has_bytes(file: &Option<File>) -> io::Result<bool> {
    match file {
        Some(file) => Ok(file.metadata()?.len() > 0),
        None => Ok(false),
    }
}

/// Puts a new file in the place of one that was found, with the same bytes, all synced, and opens it. The bytes that
/// were read may be in the system's memory alone, and after a failed sync the system may have marked them clean, so
/// that another sync of that file says nothing. It is never written in place, since a write may be torn.
fn renewed<R: Files<File = File>>(
    rt: &R,
    alloc: Global,
    folder: &str,
    name: &str,
    old: Option<File>,
) -> io::Result<File> {
    let to = Path::new(folder).join(alloc, name)?;
    let fresh_name = format!(in alloc; "{name}.new")?;
    let fresh = Path::new(folder).join(alloc, &fresh_name)?;
    let mut options = OpenOptions::new();
    options
        .read(true)
        .write(true)
        .create(true)
        .truncate(true)
        .mode(OWNER_ALONE);
    let mut file = options.open(rt, fresh.as_path())?;
    if let Some(old) = old {
        let mut old = old;
        io::copy(&mut old, &mut file)?;
    }
    file.sync_all()?;
    rename(rt, fresh.as_path(), to.as_path())?;
    Ok(file)
}
