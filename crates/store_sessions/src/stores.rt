//! Calls of a store. An opening opens the files of its disk anew, and may arm a stop before it.
ghost use Rattle.std.specs.Prelude.{◌≡◌, IsSome, None};
ghost use Rattle.disk_base.specs.Crash.{IsSettled};

use crate::answers::Answer;
use crate::bytes::Names;
use crate::devices::{Device, HeldStore};
use crate::words::{fill_of, version_of};
use disk_base::{Fill, MemDisk, Refused, StopDisk};
use incoming_file::RoomyText;
use session_rows::{Fault, number_in};
use std::alloc::Global;
use ubik_store::{Store, StoreFault};
use ubik_types::{Bytes, Change, Changes, Version, changes_new, changes_push};

/// In which changing call a disk is to stop, and what is left.
#[derive(Clone, Copy)]
pub struct Stop {
    pub calls: u32,
    pub fill: Fill,
}

/// Has a disk stop, where it is to.
pub fn arm<D: StopDisk>(disk: &mut D, stop: Option<Stop>)
    ensures files { D.files disk.new ≡ D.files disk.old }
    ensures settled { IsSettled (D.files disk.old) (D.may_leave disk.old) → IsSettled (D.files disk.new) (D.may_leave disk.new) }
{
    if let Some(Stop { calls, fill }) = stop {
        disk.arm(calls, fill);
    }
}

/// Opens the files of a disk anew, which may stop then.
fn revived<D: StopDisk>(disk: D, stop: Option<Stop>) -> D
    ensures settled { IsSettled (D.files result) (D.may_leave result) }
{
    let mut disk = disk;
    disk.revive();
    arm(&mut disk, stop);
    disk
}

/// Opens a store.
pub fn open_store(
    alloc: Global,
    disk: MemDisk,
    stop: Option<Stop>,
) -> Result<(Device, Answer), Fault> {
    match Store::open(alloc, revived(disk, stop)) {
        Ok(store) => {
            let answer = Answer::state(alloc, store.version(), store.len())?;
            Ok((Device::Store(HeldStore { store }), answer))
        }
        Err(Refused { disk, why }) => Ok((Device::Disk(disk), refusal(alloc, &why)?)),
    }
}

/// Why a call of a store was not done.
fn refusal(alloc: Global, fault: &StoreFault) -> Result<Answer, Fault> {
    match fault {
        StoreFault::DiskFault => Answer::text(alloc, "failed"),
        StoreFault::BadLabel { len, head } => Answer::bad_label(alloc, *len, head),
        StoreFault::TooLarge { bytes } => {
            Ok(Answer::of(format!(in alloc; "too large {bytes}")?))
        }
        StoreFault::NotNewer { own, given } => {
            let (epoch, counter) = (own.epoch, own.counter);
            let Version {
                epoch: to,
                counter: as_given,
            } = *given;
            let text = format!(in alloc; "not newer {epoch}.{counter} {to}.{as_given}")?;
            Ok(Answer::of(text))
        }
        StoreFault::NoMemory => Err(Fault::NoMemory),
    }
}

fn ended(alloc: Global, end: Result<(), StoreFault>) -> Result<Answer, Fault> {
    match end {
        Ok(()) => Answer::text(alloc, "done"),
        Err(fault) => refusal(alloc, &fault),
    }
}

/// Makes a call of a store.
pub fn call_store(
    alloc: Global,
    names: &Names,
    held: &mut HeldStore,
    words: &[&str],
) -> Result<Answer, Fault> {
    match words {
        ["version"] => Answer::state(alloc, held.store.version(), held.store.len()),
        ["image"] => image(alloc, held),
        ["stop", calls, fill] => {
            held.store.arm(number_in(calls)?, fill_of(fill)?);
            Answer::text(alloc, "done")
        }
        ["stopped"] => Answer::text(alloc, if held.store.stopped() { "yes" } else { "no" }),
        ["begun"] => Answer::text(alloc, if held.store.begun() { "yes" } else { "no" }),
        ["abort"] => {
            held.store.abort();
            Answer::text(alloc, "done")
        }
        _ if held.store.begun() => call_begun(alloc, names, held, words),
        _ => call_at_rest(alloc, names, held, words),
    }
}

/// Makes a call of a store where changes were begun.
fn call_begun(
    alloc: Global,
    names: &Names,
    held: &mut HeldStore,
    words: &[&str],
) -> Result<Answer, Fault>
    requires { IsSome held.old.store.begun }
{
    match words {
        ["put", at, bytes] => {
            let (at, bytes) = (number_in(at)?, names.bytes_of(bytes)?);
            if u64::from(at) + bytes.len() as u64 > u64::from(u32::MAX) {
                return Err(Fault::Form);
            }
            ended(alloc, held.store.put(at, &bytes))
        }
        ["truncate", len] => ended(alloc, held.store.truncate(number_in(len)?)),
        ["commit", version] => ended(alloc, held.store.commit(version_of(version)?)),
        _ => Err(Fault::Form),
    }
}

/// A change: `AT=BYTES` for a put, `cut=LEN` for a cut.
fn change_of(names: &Names, word: &str) -> Result<Change, Fault> {
    match word.split_once('=').ok_or(Fault::Form)? {
        ("cut", len) => Ok(Change::Cut {
            len: number_in(len)?,
        }),
        (at, bytes) => Ok(Change::Put {
            at: number_in(at)?,
            bytes: Bytes::new(names.bytes_of(bytes)?),
        }),
    }
}

fn changes_of(alloc: Global, names: &Names, words: &[&str]) -> Result<Changes, Fault> {
    let mut changes = changes_new(alloc);
    for word in words {
        changes_push(&mut changes, change_of(names, word)?)?;
    }
    Ok(changes)
}

/// Makes a call of a store where none were.
fn call_at_rest(
    alloc: Global,
    names: &Names,
    held: &mut HeldStore,
    words: &[&str],
) -> Result<Answer, Fault> {
    // Nothing was begun, so this drops nothing: it says so to the calls below.
    held.store.abort();
    match words {
        ["begin"] => {
            held.store.begin();
            Answer::text(alloc, "done")
        }
        ["commit", version, changes @ ..] => commit_all(alloc, names, held, version, changes),
        ["relabel", version] => ended(alloc, held.store.relabel(version_of(version)?)),
        ["install", bytes, version] => install(alloc, names, held, bytes, version),
        ["give", bytes, version] => give(alloc, names, held, bytes, version),
        _ => Err(Fault::Form),
    }
}

/// Commits changes that are lent.
fn commit_all(
    alloc: Global,
    names: &Names,
    held: &mut HeldStore,
    version: &str,
    changes: &[&str],
) -> Result<Answer, Fault>
    requires { held.old.store.begun ≡ None }
{
    let (changes, version) = (changes_of(alloc, names, changes)?, version_of(version)?);
    ended(alloc, held.store.commit_all(&changes, version))
}

fn install(
    alloc: Global,
    names: &Names,
    held: &mut HeldStore,
    bytes: &str,
    version: &str,
) -> Result<Answer, Fault>
    requires { held.old.store.begun ≡ None }
{
    let (image, version) = (names.bytes_of(bytes)?, version_of(version)?);
    ended(alloc, held.store.install(&image, version))
}

/// Installs a text that is given, and tells where another one comes back than was given.
fn give(
    alloc: Global,
    names: &Names,
    held: &mut HeldStore,
    bytes: &str,
    version: &str,
) -> Result<Answer, Fault>
    requires { held.old.store.begun ≡ None }
{
    let (image, version) = (names.bytes_of(bytes)?, version_of(version)?);
    let text = RoomyText::begun(alloc, 0, &image)?;
    match held.store.install_text(text, version) {
        Ok(()) => Answer::text(alloc, "done"),
        Err(refused) if refused.text.as_slice() == image.as_slice() => refusal(alloc, &refused.why),
        Err(_) => Answer::text(alloc, "another text came back"),
    }
}

/// Reads the image whole.
fn image(alloc: Global, held: &mut HeldStore) -> Result<Answer, Fault> {
    let mut bytes = vec![in alloc; 0u8; held.store.len() as usize]?;
    match held.store.read(0, &mut bytes) {
        Ok(()) => Ok(Answer::bytes(alloc, bytes)),
        Err(fault) => refusal(alloc, &fault),
    }
}
