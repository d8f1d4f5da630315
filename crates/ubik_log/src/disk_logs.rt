//! The log file of a disk: a log is kept there with a closed gate, and one byte then makes it the committed one.
//! After a disk fault nothing more is said of what a read gives, until the disk is opened anew.
ghost use Rattle.std.specs.Prelude.{◌≡◌, ◌+◌, ◌<◌, ◌≤◌, [], ℕ, List, length, IfOk, IfSome, IsErrOf, OnOk};
ghost use Rattle.std.specs.Option.{option_map};
ghost use Rattle.disk_base.specs.Crash.{Torn, InFile, Follows, OnlyIn, LeavesOnly, After};
ghost use Rattle.disk_base.specs.Files.{Files, laid, OnDone};
ghost use Rattle.disk_base.specs.Runs.{OnlyReads, OnlyReserves, ChangesAtMost};
ghost use Rattle.disk_base.specs.Stops.{IsStopped};
ghost use Rattle.ubik_types.specs.declared.images.Change.{Change};
ghost use Rattle.ubik_types.specs.declared.versions.Version.{Version};
ghost use Rattle.ubik_log.specs.Gate.{IsOpen, BeginsWithZero, closed};
ghost use Rattle.ubik_log.specs.LogGrammar.{IsCommitted};
ghost use Rattle.ubik_log.specs.LogFile.{with_log, SetsGate, KeepsLog, HasAnyGate, HasDiscarded, HasLogOrNone};
ghost use Rattle.ubik_log.specs.Reading.{IsStateOf, MayBeTold};

use crate::codec::parse_log;
use crate::opcodes::LOGNEW;
use crate::states::LogState;
use disk_base::{Disk, DiskEnd, FileNo, LenEnd, RoomEnd};
use std::alloc::{AllocError, Global};
use thiserror::Error;
use ubik_types::NoMemory;

/// Why a call on the log file did not succeed.
#[derive(Clone, Copy, Debug, PartialEq, Eq, Error)]
pub enum LogFault {
    /// The disk failed.
    #[error("the disk failed")]
    DiskFault,
    /// Memory ran out.
    #[error("out of memory")]
    NoMemory,
}

impl From<AllocError> for LogFault {
    ghost use Rattle.std.specs.Prelude.{◌≡◌};
    ghost use Rattle.ubik_log.specs.declared.disk_logs.LogFault.TheVariants as fault;

    ghost from_gives = { λ _ e. e ≡ fault.NoMemory };

    fn from(_: AllocError) -> Self {
        LogFault::NoMemory
    }
}

impl From<NoMemory> for LogFault {
    ghost use Rattle.std.specs.Prelude.{◌≡◌};
    ghost use Rattle.ubik_log.specs.declared.disk_logs.LogFault.TheVariants as fault;

    ghost from_gives = { λ _ e. e ≡ fault.NoMemory };

    fn from(_: NoMemory) -> Self {
        LogFault::NoMemory
    }
}

/// The length of LOGNEW, the first word.
const WORD: usize = 4;

/// The place of the gate: the last byte of LOGNEW.
const GATE: u64 = 3;

/// The byte of an open gate: the last of LOGNEW.
const OPEN: u8 = LOGNEW as u8;

/// The byte of a closed gate.
const CLOSED: u8 = 0;

/// Reads the log file, and says what stands there. It is read whole: a log may say any number of changes, so no
/// length is too long for one.
pub fn read_log<D: Disk>(alloc: Global, disk: &mut D) -> Result<LogState, LogFault>
    ensures state { IfOk result (λ state. IfSome (D.files disk.old) (λ fs. IsStateOf fs.log state)) }
    ensures told { IfOk result MayBeTold }
    ensures stopped { IsStopped (D.stop disk.old) → IsErrOf result LogFault.DiskFault }
    ensures reads { OnlyReads D.Disk disk.old disk.new (IsErrOf result LogFault.DiskFault) }
{
    let len = match disk.len(FileNo::Log) {
        LenEnd::Known(len) => len as usize,
        LenEnd::Failed => return Err(LogFault::DiskFault),
    };
    let mut log = vec![in alloc; 0u8; len]?;
    if let DiskEnd::Failed = disk.read(FileNo::Log, 0, &mut log) {
        return Err(LogFault::DiskFault);
    }
    Ok(parse_log(alloc, &log)?)
}

/// Puts a log with a closed gate into the empty log file. It makes the room of the whole log first: for want of
/// memory nothing changes. That room is the disk's own to find; the allocator is that of each call that can answer
/// want of memory.
pub fn keep_log<D: Disk>(_alloc: Global, disk: &mut D, log: &[u8]) -> Result<(), LogFault>
    requires header { 4 ≤ length log.now }
    requires empty { IfSome (D.files disk.old) (λ fs. fs.log ≡ []) }
    ensures stands { OnOk result (KeepsLog D.Disk log.now disk.old disk.new) }
    // A crash at any moment of the call leaves a discarded log.
    ensures moments { IfSome (D.files disk.old) (λ _. OnlyIn FileNo.Log [] (D.may_leave disk.old)
        → LeavesOnly D.steps D.left_since disk.old disk.new (After HasDiscarded (D.may_leave disk.old))) }
    // Each crash since the first sync, the second step, leaves a closed gate, also where a later step failed.
    ensures since_sync { IfSome (D.files disk.old) (λ _. D.steps disk.old + 3 ≤ D.steps disk.new
        → (c : Files) → D.left_since disk.new (D.steps disk.old + 2) c → BeginsWithZero c.log) }
    ensures stopped { IsStopped (D.stop disk.new) → ¬ IsErrOf result LogFault.NoMemory → IsErrOf result LogFault.DiskFault }
    ensures no_memory { IsErrOf result LogFault.NoMemory → D.room disk.old FileNo.Log < length log.now }
    ensures unchanged { IsErrOf result LogFault.NoMemory → OnlyReserves D.Disk disk.old disk.new }
    ensures changes { ChangesAtMost D.Disk FileNo.Log 4 disk.old disk.new (IsErrOf result LogFault.DiskFault) }
{
    if let RoomEnd::NoMemory = disk.reserve(FileNo::Log, log.len() as u64) {
        return Err(LogFault::NoMemory);
    }
    match put_closed(disk, log) {
        DiskEnd::Done => Ok(()),
        DiskEnd::Failed => Err(LogFault::DiskFault),
    }
}

/// Opens the gate of the log: a kept log is committed once this is `Ok`.
pub fn open_gate<D: Disk>(disk: &mut D) -> Result<(), LogFault>
    requires header { IfSome (D.files disk.old) (λ fs. 4 ≤ length fs.log) }
    requires fits { D.files disk.old ≡ None → 4 ≤ D.room disk.old FileNo.Log }
    ensures set { OnOk result (SetsGate D.Disk 100 disk.old disk.new) }
    // A crash at any moment of the call leaves the gate as it was, or with any byte.
    ensures moments { LeavesOnly D.steps D.left_since disk.old disk.new (After HasAnyGate (D.may_leave disk.old)) }
    // Over a log that was kept, it leaves that log committed, or a discarded one.
    ensures either { (log : List ℕ) (changes : List Change) (version : Version) → IsCommitted log changes version
        → OnlyIn FileNo.Log (closed log) (D.may_leave disk.old)
        → LeavesOnly D.steps D.left_since disk.old disk.new (After (HasLogOrNone log) (D.may_leave disk.old)) }
    ensures stopped { IsStopped (D.stop disk.new) → IsErrOf result LogFault.DiskFault }
    ensures no_memory { ¬ IsErrOf result LogFault.NoMemory }
    ensures changes { ChangesAtMost D.Disk FileNo.Log 2 disk.old disk.new (IsErrOf result LogFault.DiskFault) }
{
    set_gate(disk, OPEN)
}

/// Closes the gate of the log: a log that is read after this is discarded.
pub fn close_gate<D: Disk>(disk: &mut D) -> Result<(), LogFault>
    requires header { IfSome (D.files disk.old) (λ fs. 4 ≤ length fs.log) }
    requires fits { D.files disk.old ≡ None → 4 ≤ D.room disk.old FileNo.Log }
    ensures set { OnOk result (SetsGate D.Disk 0 disk.old disk.new) }
    // A crash at any moment of the call leaves the gate as it was, or with any byte.
    ensures moments { LeavesOnly D.steps D.left_since disk.old disk.new (After HasAnyGate (D.may_leave disk.old)) }
    // Over a log with an open gate, it leaves that log, or a discarded one.
    ensures either { (log : List ℕ) → IsOpen log → OnlyIn FileNo.Log log (D.may_leave disk.old)
        → LeavesOnly D.steps D.left_since disk.old disk.new (After (HasLogOrNone log) (D.may_leave disk.old)) }
    ensures stopped { IsStopped (D.stop disk.new) → IsErrOf result LogFault.DiskFault }
    ensures no_memory { ¬ IsErrOf result LogFault.NoMemory }
    ensures changes { ChangesAtMost D.Disk FileNo.Log 2 disk.old disk.new (IsErrOf result LogFault.DiskFault) }
{
    set_gate(disk, CLOSED)
}

/// Writes bytes over the log file from a position on, and syncs it.
fn put_synced<D: Disk>(disk: &mut D, at: u64, bytes: &[u8]) -> DiskEnd
    requires begins { IfSome (D.files disk.old) (λ fs. at ≤ length fs.log) }
    requires fits { at + length bytes.now ≤ D.room disk.old FileNo.Log }
    ensures written { OnDone result (D.files disk.new
        ≡ option_map (λ fs. with_log (laid fs.log at bytes.now) fs) (D.files disk.old)) }
    ensures durable { OnDone result (IfSome (D.files disk.old) (λ fs.
        OnlyIn FileNo.Log (laid fs.log at bytes.now) (D.may_leave disk.new))) }
    ensures crash { Follows (InFile FileNo.Log (Torn at (length bytes.now)))
        (D.may_leave disk.old) (D.may_leave disk.new) }
    ensures moments { LeavesOnly D.steps D.left_since disk.old disk.new
        (After (InFile FileNo.Log (Torn at (length bytes.now))) (D.may_leave disk.old)) }
    ensures steps { OnDone result (D.steps disk.new ≡ D.steps disk.old + 2) }
    ensures stopped { IsStopped (D.stop disk.new) → result ≡ DiskEnd.Failed }
    ensures changes { ChangesAtMost D.Disk FileNo.Log 2 disk.old disk.new (result ≡ DiskEnd.Failed) }
{
    match disk.write_at(FileNo::Log, at, bytes) {
        DiskEnd::Done => disk.sync(FileNo::Log),
        DiskEnd::Failed => DiskEnd::Failed,
    }
}

/// Writes a log over the empty log file, first its first word as zero, and then the rest behind that word.
fn put_closed<D: Disk>(disk: &mut D, log: &[u8]) -> DiskEnd
    requires header { 4 ≤ length log.now }
    requires empty { IfSome (D.files disk.old) (λ fs. fs.log ≡ []) }
    requires fits { length log.now ≤ D.room disk.old FileNo.Log }
    ensures stands { OnDone result (D.files disk.new ≡ option_map (with_log (closed log.now)) (D.files disk.old)) }
    ensures durable { OnDone result (IfSome (D.files disk.old) (λ _.
        Follows (λ d c. c ≡ with_log (closed log.now) d) (D.may_leave disk.old) (D.may_leave disk.new))) }
    ensures moments { IfSome (D.files disk.old) (λ _. OnlyIn FileNo.Log [] (D.may_leave disk.old)
        → LeavesOnly D.steps D.left_since disk.old disk.new (After HasDiscarded (D.may_leave disk.old))) }
    ensures since_sync { IfSome (D.files disk.old) (λ _. D.steps disk.old + 3 ≤ D.steps disk.new
        → (c : Files) → D.left_since disk.new (D.steps disk.old + 2) c → BeginsWithZero c.log) }
    ensures steps { OnDone result (D.steps disk.new ≡ D.steps disk.old + 4) }
    ensures stopped { IsStopped (D.stop disk.new) → result ≡ DiskEnd.Failed }
    ensures changes { ChangesAtMost D.Disk FileNo.Log 4 disk.old disk.new (result ≡ DiskEnd.Failed) }
{
    let (_, rest) = log.split_at(WORD);
    match put_synced(disk, 0, &[0; WORD]) {
        DiskEnd::Done => put_synced(disk, WORD as u64, rest),
        DiskEnd::Failed => DiskEnd::Failed,
    }
}

/// Writes this byte at the gate, and syncs the log file.
fn set_gate<D: Disk>(disk: &mut D, byte: u8) -> Result<(), LogFault>
    requires header { IfSome (D.files disk.old) (λ fs. 4 ≤ length fs.log) }
    requires fits { D.files disk.old ≡ None → 4 ≤ D.room disk.old FileNo.Log }
    ensures set { OnOk result (SetsGate D.Disk byte disk.old disk.new) }
    ensures moments { LeavesOnly D.steps D.left_since disk.old disk.new (After HasAnyGate (D.may_leave disk.old)) }
    ensures stopped { IsStopped (D.stop disk.new) → IsErrOf result LogFault.DiskFault }
    ensures no_memory { ¬ IsErrOf result LogFault.NoMemory }
    ensures changes { ChangesAtMost D.Disk FileNo.Log 2 disk.old disk.new (IsErrOf result LogFault.DiskFault) }
{
    match put_synced(disk, GATE, &[byte]) {
        DiskEnd::Done => Ok(()),
        DiskEnd::Failed => Err(LogFault::DiskFault),
    }
}
