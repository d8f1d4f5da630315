//! Logs as bytes, and logs that are kept in the empty log file of a disk.
ghost use Rattle.std.specs.Prelude.{◌≡◌, ◌≤◌, [], IfSome, OnOk, length};
ghost use Rattle.disk_base.specs.Files.{KeepsRoom};
ghost use Rattle.ubik_types.specs.Version.{IsVersion};

use crate::answers::Answer;
use crate::bytes::Names;
use crate::devices::Device;
use crate::stores::{Stop, arm};
use crate::words::version_of;
use disk_base::{Disk, MemDisk, StopDisk};
use session_rows::{Fault, number_in, told_bytes};
use std::alloc::Global;
use ubik_log::{
    LogFault, LogState, close_gate, empty_log, encode_log, keep_log, open_gate, parse_log, read_log,
};
use ubik_types::{Bytes, Change, MAX_IMAGE, Version, changes_new, changes_push};

/// The least length of a log that is kept: that of its first word.
const LEAST: usize = 4;

/// Makes a call on logs as bytes.
pub fn call_bytes(alloc: Global, names: &Names, words: &[&str]) -> Result<Answer, Fault> {
    match words {
        ["encode", version, put] => {
            let (at, bytes) = put.split_once('=').ok_or(Fault::Form)?;
            let bytes = names.bytes_of(bytes)?;
            encode_put(alloc, number_in(at)?, bytes, version_of(version)?)
        }
        ["encode", version] => {
            let log = encode_log(alloc, &changes_new(alloc), version_of(version)?)?;
            Ok(Answer::bytes(alloc, log.into_vec()))
        }
        ["empty", version] => {
            let log = empty_log(version_of(version)?).to_vec(alloc)?;
            Ok(Answer::bytes(alloc, log))
        }
        ["parse", bytes] => told(alloc, &parse_log(alloc, &names.bytes_of(bytes)?)?),
        ["changes", bytes] => told_changes(alloc, &parse_log(alloc, &names.bytes_of(bytes)?)?),
        ["again", bytes] => again(alloc, &names.bytes_of(bytes)?),
        _ => Err(Fault::Form),
    }
}

/// The log of one put.
fn encode_put(alloc: Global, at: u32, bytes: Vec<u8>, version: Version) -> Result<Answer, Fault>
    requires { IsVersion version }
{
    if u64::from(at) + bytes.len() as u64 > MAX_IMAGE as u64 {
        return Err(Fault::Form);
    }
    let mut changes = changes_new(alloc);
    let bytes = Bytes::new(bytes);
    changes_push(&mut changes, Change::Put { at, bytes })?;
    let log = encode_log(alloc, &changes, version)?;
    Ok(Answer::bytes(alloc, log.into_vec()))
}

/// The version of a committed log, and how many changes it says.
fn told(alloc: Global, state: &LogState) -> Result<Answer, Fault> {
    match state {
        LogState::Committed { changes, version } => {
            let (epoch, counter) = (version.epoch, version.counter);
            let count = changes.as_slice().len();
            Ok(Answer::of(format!(in alloc; "{epoch}.{counter} changes {count}")?))
        }
        LogState::Discarded => Answer::text(alloc, "discarded"),
    }
}

/// The changes of a committed log: `AT=BYTES` for a put, `cut=LEN` for a cut.
fn told_changes(alloc: Global, state: &LogState) -> Result<Answer, Fault> {
    let LogState::Committed { changes, .. } = state else {
        return Answer::text(alloc, "discarded");
    };
    let mut text = String::new(alloc);
    for change in changes.as_slice() {
        if !text.as_str().is_empty() {
            text.push_str(" ")?;
        }
        text.push_str(change_text(alloc, change)?.as_str())?;
    }
    Ok(Answer::of(text))
}

fn change_text(alloc: Global, change: &Change) -> Result<String, Fault> {
    match change {
        Change::Put { at, bytes } => {
            let (at, bytes) = (*at, told_bytes(alloc, bytes.as_slice())?);
            Ok(format!(in alloc; "{at}={bytes}")?)
        }
        Change::Cut { len } => {
            let len = *len;
            Ok(format!(in alloc; "cut={len}")?)
        }
    }
}

/// The log of the changes and the version that a log says.
fn again(alloc: Global, log: &[u8]) -> Result<Answer, Fault> {
    match parse_log(alloc, log)? {
        LogState::Committed { changes, version } => {
            let log = encode_log(alloc, &changes, version)?;
            Ok(Answer::bytes(alloc, log.into_vec()))
        }
        LogState::Discarded => Answer::text(alloc, "discarded"),
    }
}

/// The version that the log file says; none where it is discarded.
fn version_read<D: Disk>(alloc: Global, disk: &mut D) -> Result<Option<Version>, LogFault>
    ensures files { OnOk result (D.files disk.new ≡ D.files disk.old) }
    ensures room { KeepsRoom (D.room disk.old) (D.room disk.new) }
{
    Ok(match read_log(alloc, disk)? {
        LogState::Committed { version, .. } => Some(version),
        LogState::Discarded => None,
    })
}

/// Reads the log file.
pub fn read_file(alloc: Global, disk: &mut MemDisk) -> Result<Answer, Fault> {
    match version_read(alloc, disk) {
        Ok(version) => Ok(Answer::of(version_text(alloc, version)?)),
        Err(fault) => refusal(alloc, fault),
    }
}

fn version_text(alloc: Global, version: Option<Version>) -> Result<String, Fault> {
    match version {
        Some(Version { epoch, counter }) => Ok(format!(in alloc; "{epoch}.{counter}")?),
        None => Ok(String::from_str(alloc, "discarded")?),
    }
}

fn refusal(alloc: Global, fault: LogFault) -> Result<Answer, Fault> {
    match fault {
        LogFault::DiskFault => Answer::text(alloc, "failed"),
        LogFault::NoMemory => Err(Fault::NoMemory),
    }
}

/// Keeps a log on an empty disk, opens its gate and closes it; a stop may be armed before.
pub fn keep(
    alloc: Global,
    names: &Names,
    log: &str,
    stop: Option<Stop>,
) -> Result<(Device, Answer), Fault> {
    let log = names.bytes_of(log)?;
    if log.len() < LEAST {
        return Err(Fault::Form);
    }
    let mut disk = MemDisk::new(alloc, &[])?;
    let answer = match read_each(alloc, &mut disk, &log, stop) {
        Ok(_) => Answer::text(alloc, "done")?,
        Err(fault) => refusal(alloc, fault)?,
    };
    Ok((Device::Disk(disk), answer))
}

/// Keeps a log on an empty disk whose calls of these numbers fail, opens its gate and closes it, and tells what is read after each.
pub fn course(
    alloc: Global,
    names: &Names,
    log: &str,
    fails: &[u64],
) -> Result<(Device, Answer), Fault> {
    let log = names.bytes_of(log)?;
    if log.len() < LEAST {
        return Err(Fault::Form);
    }
    let mut disk = MemDisk::new(alloc, fails)?;
    let answer = match read_each(alloc, &mut disk, &log, None) {
        Ok(read) => {
            let [kept, opened, closed] = read;
            let kept = version_text(alloc, kept)?;
            let opened = version_text(alloc, opened)?;
            let closed = version_text(alloc, closed)?;
            Answer::of(format!(in alloc; "{kept} {opened} {closed}")?)
        }
        Err(fault) => refusal(alloc, fault)?,
    };
    Ok((Device::Disk(disk), answer))
}

/// What is read of a log once it is kept, once its gate is open, and once it is closed. Readings count among no changing calls.
fn read_each<D: StopDisk>(
    alloc: Global,
    disk: &mut D,
    log: &[u8],
    stop: Option<Stop>,
) -> Result<[Option<Version>; 3], LogFault>
    requires header { 4 ≤ length log.now }
    requires empty { IfSome (D.files disk.old) (λ fs. fs.log ≡ []) }
{
    arm(disk, stop);
    keep_log(alloc, disk, log)?;
    let kept = version_read(alloc, disk)?;
    open_gate(disk)?;
    let opened = version_read(alloc, disk)?;
    close_gate(disk)?;
    let closed = version_read(alloc, disk)?;
    Ok([kept, opened, closed])
}
