//! Calls of a disk: a write and a cut ask for the length of the file first, and so does what reads a file whole.
ghost use Rattle.std.specs.Prelude.{IfOk};

use crate::answers::Answer;
use crate::bytes::Names;
use crate::devices::Device;
use crate::words::{file_of, fill_of};
use disk_base::{Disk, DiskEnd, FileNo, LenEnd, MemDisk, RoomEnd, StopDisk};
use session_rows::{Fault, long_in, number_in};
use std::alloc::Global;

/// A disk of three empty files, whose calls of these numbers fail.
pub fn planned(alloc: Global, words: &[&str]) -> Result<Device, Fault> {
    let mut fails = Vec::new(alloc);
    for word in words {
        fails.push(long_in(word)?)?;
    }
    Ok(Device::Disk(MemDisk::new(alloc, &fails)?))
}

/// Makes a call of a disk.
pub fn call_disk(
    alloc: Global,
    names: &Names,
    disk: &mut MemDisk,
    words: &[&str],
) -> Result<Answer, Fault> {
    match words {
        ["database", bytes] => lay(alloc, disk, FileNo::Database, &names.bytes_of(bytes)?),
        ["log", bytes] => lay(alloc, disk, FileNo::Log, &names.bytes_of(bytes)?),
        ["incoming", bytes] => lay(alloc, disk, FileNo::Incoming, &names.bytes_of(bytes)?),
        ["write", file, at, bytes] => {
            let bytes = names.bytes_of(bytes)?;
            Answer::ended(alloc, write(disk, file_of(file)?, long_in(at)?, &bytes)?)
        }
        ["cut", file, len] => Answer::ended(alloc, cut(disk, file_of(file)?, long_in(len)?)),
        [call, file] => call_file(alloc, disk, call, file_of(file)?),
        _ => stop_disk(alloc, disk, words),
    }
}

/// Makes a call that names a file alone.
fn call_file(alloc: Global, disk: &mut MemDisk, call: &str, file: FileNo) -> Result<Answer, Fault> {
    match call {
        "sync" => Answer::ended(alloc, disk.sync(file)),
        "len" => match disk.len(file) {
            LenEnd::Known(len) => Ok(Answer::of(format!(in alloc; "{len}")?)),
            LenEnd::Failed => Answer::text(alloc, "failed"),
        },
        "file" => read_whole(alloc, disk, file),
        _ => Err(Fault::Form),
    }
}

/// Makes a call that has to do with stops.
fn stop_disk(alloc: Global, disk: &mut MemDisk, words: &[&str]) -> Result<Answer, Fault> {
    match words {
        ["stop", calls, fill] => {
            disk.arm(number_in(calls)?, fill_of(fill)?);
            Answer::text(alloc, "done")
        }
        ["stopped"] => Answer::text(alloc, if disk.stopped() { "yes" } else { "no" }),
        ["revive"] => {
            disk.revive();
            Answer::text(alloc, "done")
        }
        _ => Err(Fault::Form),
    }
}

/// Gives an empty file these bytes, and syncs it: two calls.
fn lay<D: Disk>(alloc: Global, disk: &mut D, file: FileNo, bytes: &[u8]) -> Result<Answer, Fault> {
    if disk.reserve(file, bytes.len() as u64) != RoomEnd::Done {
        return Err(Fault::NoMemory);
    }
    match disk.write_at(file, 0, bytes) {
        DiskEnd::Done => Answer::ended(alloc, disk.sync(file)),
        DiskEnd::Failed => Answer::text(alloc, "failed"),
    }
}

/// Writes from a position on, or at the end of a shorter file.
fn write<D: Disk>(disk: &mut D, file: FileNo, at: u64, bytes: &[u8]) -> Result<DiskEnd, Fault> {
    let len = match disk.len(file) {
        LenEnd::Known(len) => len,
        LenEnd::Failed => return Ok(DiskEnd::Failed),
    };
    let at = at.min(len);
    let end = at.checked_add(bytes.len() as u64).ok_or(Fault::Form)?;
    if disk.reserve(file, end) != RoomEnd::Done {
        return Err(Fault::NoMemory);
    }
    Ok(disk.write_at(file, at, bytes))
}

/// Cuts a file to a length, or leaves a shorter one as it is.
fn cut<D: Disk>(disk: &mut D, file: FileNo, len: u64) -> DiskEnd {
    match disk.len(file) {
        LenEnd::Known(known) => disk.cut(file, len.min(known)),
        LenEnd::Failed => DiskEnd::Failed,
    }
}

/// Reads a file whole.
fn read_whole<D: Disk>(alloc: Global, disk: &mut D, file: FileNo) -> Result<Answer, Fault> {
    let len = match disk.len(file) {
        LenEnd::Known(len) => len as usize,
        LenEnd::Failed => return Answer::text(alloc, "failed"),
    };
    let mut bytes = vec![in alloc; 0u8; len]?;
    match disk.read(file, 0, &mut bytes) {
        DiskEnd::Done => Ok(Answer::bytes(alloc, bytes)),
        DiskEnd::Failed => Answer::text(alloc, "failed"),
    }
}
