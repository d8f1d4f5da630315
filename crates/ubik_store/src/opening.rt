//! From files that a crash may have left to files at rest: first all is read and all memory taken, and then changes are made.
ghost use Rattle.std.specs.Prelude.{◌≡◌, ◌≢◌, ◌↔◌, ◌+◌, ◌≤◌, length, if◌then◌else◌, IsTrue, None, IfOk, IfErr, IfSome, IsErrOf, OnOk};
ghost use Rattle.std.specs.Option.{option_map};
ghost use Rattle.ubik_types.specs.declared.versions.Version.{Version};
ghost use Rattle.disk_base.specs.Crash.{LeavesOnly, IsSettled, RisesAtMost};
ghost use Rattle.disk_base.specs.Runs.{OnlyReads, OnlyReserves, ChangesAtMost};
ghost use Rattle.disk_base.specs.Stops.{IsStopped};
ghost use Rattle.incoming_file.specs.Incoming.{IsIgnored};
ghost use Rattle.incoming_file.specs.Reading.{FindsOpen};
ghost use Rattle.ubik_log.specs.LogFile.{HasDiscarded};
ghost use Rattle.ubik_log.specs.LogGrammar.{IsTold, IsCommitted, IsDiscarded};
ghost use Rattle.ubik_store.specs.Moments.{without_log};
ghost use Rattle.ubik_store.specs.Opening.{EndsLogIn, RefusesFiles, IsOpening, IsOpeningIn, TreatsLog, OpensFiles};
ghost use Rattle.ubik_store.specs.Plans.{IsBegun, Plans, PlansLog, PlansTreat};

use crate::commits::reach;
use crate::faults::StoreFault;
use crate::installs::take_over;
use crate::logged::as_made;
use crate::redo::{empty_log_file, end_log, redo};
use disk_base::{Disk, DiskEnd, FileNo, LenEnd, RoomEnd};
use incoming_file::{Found, clear_incoming, read_incoming, reserve_incoming};
use page_file::{LABEL_LEN, Pages};
use std::alloc::Global;
use ubik_log::{LogState, read_log};
use ubik_types::{Bytes, Changes, NoMemory, Version, WORD_LEN};

/// The first record of a log.
const FIRST_RECORD: [u8; WORD_LEN] = [0, 0, 0, 100];

/// What an opening is to do with the log.
#[derive(Drop)]
enum LogPlan {
    /// A committed log: these changes are made, under this version.
    Redo {
        pages: Pages,
        changes: Changes,
        version: Version,
    },
    /// A discarded log is emptied. It begins with the first record of a log, or not.
    Empty {
        pages: Pages,
        begun: bool,
    },
}

/// What an opening is to do, once all is read and all memory is taken.
#[derive(Drop)]
enum Plan {
    /// An open incoming file takes the place of database and log: its label and its image, of this version.
    Take {
        pages: Pages,
        text: Bytes,
        version: Version,
    },
    /// None is open. The log is treated, and then the incoming file, so many bytes long, is emptied. Its gate stands open past the longest
    /// image, or not.
    Treat {
        log: LogPlan,
        len: u64,
        gated: bool,
    },
}

/// Whether the log begins with the first record of one.
fn is_begun<D: Disk>(disk: &mut D) -> Result<bool, StoreFault>
    ensures begun { IfOk result (λ begun. IfSome (D.files disk.old) (λ fs. IsTrue begun ↔ IsBegun fs.log)) }
    ensures fault { IfErr result (λ fault. fault ≡ StoreFault.DiskFault) }
    ensures reads { OnlyReads D.Disk disk.old disk.new (IsErrOf result StoreFault.DiskFault) }
{
    match disk.len(FileNo::Log) {
        LenEnd::Known(len) if len < WORD_LEN as u64 => Ok(false),
        LenEnd::Known(_) => {
            let mut word = [0; WORD_LEN];
            match disk.read(FileNo::Log, 0, &mut word) {
                DiskEnd::Done => Ok(word == FIRST_RECORD),
                DiskEnd::Failed => Err(StoreFault::DiskFault),
            }
        }
        LenEnd::Failed => Err(StoreFault::DiskFault),
    }
}

/// Makes room for the gate of a log; there is such room where the disk tells a log that has one.
fn reserve_gate<D: Disk>(disk: &mut D) -> Result<(), NoMemory>
    ensures reserved { OnOk result (4 ≤ D.room disk.new FileNo.Log) }
    ensures reserves { OnlyReserves D.Disk disk.old disk.new }
{
    match disk.reserve(FileNo::Log, WORD_LEN as u64) {
        RoomEnd::Done => Ok(()),
        RoomEnd::NoMemory => Err(NoMemory),
    }
}

/// Makes out what a committed log changes in the image that stands there, and makes the room for it.
fn plan_redo<D: Disk>(
    alloc: Global,
    disk: &mut D,
    told: Changes,
    version: Version,
) -> Result<LogPlan, StoreFault>
    requires told { IsTold told version }
    requires committed { IfSome (D.files disk.old) (λ fs. IsCommitted fs.log told version) }
    requires ignored { IfSome (D.files disk.old) (λ fs. IsIgnored fs.incoming) }
    ensures plans { IfOk result (PlansLog D.Disk disk.new) }
    ensures refused { IfErr result (λ fault. IfSome (D.files disk.old) (λ fs. RefusesFiles fs fault)) }
    ensures reads { OnlyReads D.Disk disk.old disk.new (IsErrOf result StoreFault.DiskFault) }
{
    let mut pages = Pages::over(alloc, disk)?;
    let changes = as_made(alloc, pages.len(), told)?;
    pages.reserve(disk, reach(changes.as_slice()))?;
    reserve_gate(disk)?;
    Ok(LogPlan::Redo {
        pages,
        changes,
        version,
    })
}

/// Reads length and label of a database file over which a discarded log stands, and whether that log has an open gate.
fn plan_empty<D: Disk>(alloc: Global, disk: &mut D) -> Result<LogPlan, StoreFault>
    requires discarded { IfSome (D.files disk.old) (λ fs. IsDiscarded fs.log) }
    requires ignored { IfSome (D.files disk.old) (λ fs. IsIgnored fs.incoming) }
    ensures plans { IfOk result (PlansLog D.Disk disk.new) }
    ensures refused { IfErr result (λ fault. IfSome (D.files disk.old) (λ fs. RefusesFiles fs fault)) }
    ensures reads { OnlyReads D.Disk disk.old disk.new (IsErrOf result StoreFault.DiskFault) }
{
    let pages = Pages::open(alloc, disk)?;
    let begun = is_begun(disk)?;
    if begun {
        reserve_gate(disk)?;
    }
    Ok(LogPlan::Empty { pages, begun })
}

/// Reads log and database file, where no incoming file is open, and takes all memory that the log asks for.
fn plan_log<D: Disk>(alloc: Global, disk: &mut D) -> Result<LogPlan, StoreFault>
    requires ignored { IfSome (D.files disk.old) (λ fs. IsIgnored fs.incoming) }
    ensures plans { IfOk result (PlansLog D.Disk disk.new) }
    ensures refused { IfErr result (λ fault. IfSome (D.files disk.old) (λ fs. RefusesFiles fs fault)) }
    ensures reads { OnlyReads D.Disk disk.old disk.new (IsErrOf result StoreFault.DiskFault) }
{
    match read_log(alloc, disk)? {
        LogState::Committed { changes, version } => plan_redo(alloc, disk, changes, version),
        LogState::Discarded => plan_empty(alloc, disk),
    }
}

/// Makes room for label and image of an open incoming file in the database file, and for its closed gate.
fn plan_take<D: Disk>(
    alloc: Global,
    disk: &mut D,
    text: Bytes,
    version: Version,
) -> Result<Plan, StoreFault>
    requires found { FindsOpen D.Disk disk.old text version }
    ensures plans { IfOk result (Plans D.Disk disk.new) }
    ensures refused { IfErr result (λ fault. IfSome (D.files disk.old) (λ fs. RefusesFiles fs fault)) }
    ensures reads { OnlyReads D.Disk disk.old disk.new (IsErrOf result StoreFault.DiskFault) }
{
    let mut pages = Pages::over(alloc, disk)?;
    pages.reserve(disk, (text.as_slice().len() - LABEL_LEN) as u32)?;
    reserve_incoming(disk, LABEL_LEN as u64)?;
    Ok(Plan::Take {
        pages,
        text,
        version,
    })
}

/// Reads the files, the incoming file first, and takes all memory that an opening of them needs.
fn plan_opening<D: Disk>(alloc: Global, disk: &mut D) -> Result<Plan, StoreFault>
    ensures plans { IfOk result (Plans D.Disk disk.new) }
    ensures refused { IfErr result (λ fault. IfSome (D.files disk.old) (λ fs. RefusesFiles fs fault)) }
    ensures stopped { IsStopped (D.stop disk.old) → IsErrOf result StoreFault.DiskFault }
    ensures reads { OnlyReads D.Disk disk.old disk.new (IsErrOf result StoreFault.DiskFault) }
{
    match read_incoming(alloc, disk)? {
        Found::Open { text, version } => plan_take(alloc, disk, text, version),
        Found::Ignored { len, gated } => {
            let log = plan_log(alloc, disk)?;
            Ok(Plan::Treat { log, len, gated })
        }
    }
}

/// Empties the file of a discarded log. Where it begins with the first record of one its gate is closed first: a crash could
/// else leave a front of it that is a committed log.
fn empty_discarded<D: Disk>(disk: &mut D, begun: bool) -> Result<(), StoreFault>
    requires discarded { IfSome (D.files disk.old) (λ fs. IsDiscarded fs.log) }
    requires begins { IfSome (D.files disk.old) (λ fs. IsTrue begun ↔ IsBegun fs.log) }
    requires fits { IsTrue begun → 4 ≤ D.room disk.old FileNo.Log }
    requires settled { IsSettled (D.files disk.old) (D.may_leave disk.old) }
    ensures files { OnOk result (D.files disk.new ≡ option_map without_log (D.files disk.old)) }
    ensures settled { OnOk result (IsSettled (D.files disk.new) (D.may_leave disk.new)) }
    ensures moments { IfSome (D.files disk.old) (λ fs. LeavesOnly D.steps D.left_since disk.old disk.new (HasDiscarded fs)) }
    ensures steps { OnOk result (D.steps disk.new ≡ D.steps disk.old + (if begun then 4 else 2)) }
    ensures few { RisesAtMost (if begun then 4 else 2) (D.steps disk.old) (D.steps disk.new) }
    ensures fault { IfErr result (λ fault. fault ≡ StoreFault.DiskFault) }
    ensures changes { ChangesAtMost D.Disk FileNo.Log 4 disk.old disk.new (IsErrOf result StoreFault.DiskFault) }
{
    if begun {
        return Ok(end_log(disk)?);
    }
    match empty_log_file(disk) {
        DiskEnd::Done => Ok(()),
        DiskEnd::Failed => Err(StoreFault::DiskFault),
    }
}

/// Makes the changes that the log asks for, where no incoming file is open.
fn treat_log<D: Disk>(disk: &mut D, plan: LogPlan) -> Result<Pages, StoreFault>
    requires plans { PlansLog D.Disk disk.old plan }
    requires ignored { IfSome (D.files disk.old) (λ fs. IsIgnored fs.incoming) }
    requires settled { IsSettled (D.files disk.old) (D.may_leave disk.old) }
    requires runs { ¬ IsStopped (D.stop disk.old) }
    ensures opened { IfOk result (TreatsLog D.Disk disk.old disk.new) }
    ensures fault { IfErr result (λ fault. fault ≡ StoreFault.DiskFault) }
    ensures opening { IsOpeningIn EndsLogIn D.Disk disk.old disk.new (IsErrOf result StoreFault.DiskFault) }
{
    match plan {
        LogPlan::Redo {
            mut pages,
            changes,
            version,
        } => {
            redo(disk, &mut pages, changes.as_slice(), version)?;
            Ok(pages)
        }
        LogPlan::Empty { pages, begun } => {
            empty_discarded(disk, begun)?;
            Ok(pages)
        }
    }
}

/// Makes the changes that the log asks for, and empties the incoming file, which is ignored.
fn treat<D: Disk>(disk: &mut D, log: LogPlan, len: u64, gated: bool) -> Result<Pages, StoreFault>
    requires plans { PlansTreat D.Disk disk.old log len gated }
    requires settled { IsSettled (D.files disk.old) (D.may_leave disk.old) }
    requires runs { ¬ IsStopped (D.stop disk.old) }
    ensures opened { IfOk result (OpensFiles D.Disk disk.old disk.new) }
    ensures fault { IfErr result (λ fault. fault ≡ StoreFault.DiskFault) }
    ensures opening { IsOpening D.Disk disk.old disk.new (IsErrOf result StoreFault.DiskFault) }
{
    let pages = treat_log(disk, log)?;
    match clear_incoming(disk, len, gated) {
        DiskEnd::Done => Ok(pages),
        DiskEnd::Failed => Err(StoreFault::DiskFault),
    }
}

/// Makes the changes that an opening makes.
fn carry_out<D: Disk>(disk: &mut D, plan: Plan) -> Result<Pages, StoreFault>
    requires plans { Plans D.Disk disk.old plan }
    requires settled { IsSettled (D.files disk.old) (D.may_leave disk.old) }
    requires runs { ¬ IsStopped (D.stop disk.old) }
    ensures opened { IfOk result (OpensFiles D.Disk disk.old disk.new) }
    ensures fault { IfErr result (λ fault. fault ≡ StoreFault.DiskFault) }
    ensures opening { IsOpening D.Disk disk.old disk.new (IsErrOf result StoreFault.DiskFault) }
{
    match plan {
        Plan::Take {
            mut pages,
            text,
            version,
        } => {
            take_over(disk, &mut pages, text.as_slice(), version)?;
            Ok(pages)
        }
        Plan::Treat { log, len, gated } => treat(disk, log, len, gated),
    }
}

/// Has an open incoming file take the place of database and log; without one brings a committed log to its end, empties any other, and
/// empties the incoming file. Files at rest are left, which stand for what the files stood for. A crash at any moment leaves files that
/// stand for the same, but where a put of a committed log leaves a gap. Files that stand for nothing are refused, and nothing changes; nor
/// does it for want of memory.
pub(crate) fn open_files<D: Disk>(alloc: Global, disk: &mut D) -> Result<Pages, StoreFault>
    requires settled { IsSettled (D.files disk.old) (D.may_leave disk.old) }
    ensures opened { IfOk result (OpensFiles D.Disk disk.old disk.new) }
    ensures refused { IfErr result (λ fault. IfSome (D.files disk.old) (λ fs. RefusesFiles fs fault)) }
    ensures unchanged { IfErr result (λ fault. fault ≢ StoreFault.DiskFault → OnlyReads D.Disk disk.old disk.new ⊥) }
    ensures opening { IsOpening D.Disk disk.old disk.new (IsErrOf result StoreFault.DiskFault) }
{
    let plan = plan_opening(alloc, disk)?;
    carry_out(disk, plan)
}
