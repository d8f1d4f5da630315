//! Another image in place of the one that is there: it is kept whole in the incoming file, and then takes the place of the database file.
//! With the incoming file's gate open a crash finds all of it there; before, the database file as it was.
ghost use Rattle.std.specs.Prelude.{◌≡◌, ◌+◌, ◌≤◌, ◌⊎◌, length, drop, IfErr, IfSome, IsErr, IsErrOf, OnOk};
ghost use Rattle.ubik_types.specs.declared.limits.TheConstants.{MAX_IMAGE};
ghost use Rattle.disk_base.specs.Crash.{IsSettled, LeavesOnly};
ghost use Rattle.disk_base.specs.Runs.{OnlyReserves};
ghost use Rattle.incoming_file.specs.Reading.{IsText};
ghost use Rattle.page_file.specs.Pages.{AgreesIn};
ghost use Rattle.ubik_store.specs.Commit.{RewritesFiles, IsDurableOver};
ghost use Rattle.ubik_store.specs.Install.{TakesPlace, StandsThroughout};
ghost use Rattle.ubik_store.specs.Plans.{PlansTake};
ghost use Rattle.ubik_store.specs.Rest.{AreEmpty, HasNoLog};
ghost use Rattle.ubik_store.specs.Rewrite.Rewrite.{Replaced};

use crate::faults::StoreFault;
use crate::redo::empty_log_file;
use disk_base::{Disk, DiskEnd, FileNo, RoomEnd};
use incoming_file::{end_incoming, keep_incoming, reserve_incoming};
use page_file::{LABEL_LEN, Pages};
use ubik_types::{NoMemory, Version};

/// How long a log of no change is, in bytes.
const EMPTY_LOG_LEN: u64 = 16;

/// Puts the label and the image of the open incoming file in place of the database file, and empties the incoming file. A crash at any
/// moment leaves files that stand for them.
pub(crate) fn take_incoming<D: Disk>(
    disk: &mut D,
    pages: &mut Pages,
    text: &[u8],
    v: Version,
) -> Result<(), StoreFault>
    requires plan { PlansTake D.Disk disk.old pages.old text.now v }
    requires no_log { IfSome (D.files disk.old) HasNoLog }
    requires settled { IsSettled (D.files disk.old) (D.may_leave disk.old) }
    ensures done { OnOk result (TakesPlace D.Disk text.now v 7 disk.old disk.new pages.new) }
    ensures stands { StandsThroughout D.Disk text.now v 7 disk.old disk.new (IsErr result) }
    ensures log { IfSome (D.files disk.old) (λ _. LeavesOnly D.steps D.left_since disk.old disk.new HasNoLog) }
    ensures fault { IfErr result (λ fault. fault ≡ StoreFault.DiskFault) }
{
    pages.replace(disk, text, v)?;
    pages.sync(disk)?;
    match end_incoming(disk) {
        DiskEnd::Done => Ok(()),
        DiskEnd::Failed => Err(StoreFault::DiskFault),
    }
}

/// Brings an open incoming file that an opening finds to its end: empties the log, and puts label and image in place of the database file. A
/// crash at any moment leaves files that stand for them.
pub(crate) fn take_over<D: Disk>(
    disk: &mut D,
    pages: &mut Pages,
    text: &[u8],
    v: Version,
) -> Result<(), StoreFault>
    requires plan { PlansTake D.Disk disk.old pages.old text.now v }
    requires settled { IsSettled (D.files disk.old) (D.may_leave disk.old) }
    ensures done { OnOk result (TakesPlace D.Disk text.now v 9 disk.old disk.new pages.new) }
    ensures stands { StandsThroughout D.Disk text.now v 9 disk.old disk.new (IsErr result) }
    ensures fault { IfErr result (λ fault. fault ≡ StoreFault.DiskFault) }
{
    match empty_log_file(disk) {
        DiskEnd::Done => take_incoming(disk, pages, text, v),
        DiskEnd::Failed => Err(StoreFault::DiskFault),
    }
}

/// Makes room for an install of an image of `len` bytes, and for a relabelling that comes next. For want of memory nothing changes.
fn reserve_install<D: Disk>(disk: &mut D, pages: &mut Pages, len: u32) -> Result<(), NoMemory>
    requires agrees { AgreesIn pages.old (D.files disk.old) }
    ensures database { OnOk result (LABEL_LEN + len ≤ D.room disk.new FileNo.Database) }
    ensures incoming { OnOk result (LABEL_LEN + len ≤ D.room disk.new FileNo.Incoming) }
    ensures log { OnOk result (EMPTY_LOG_LEN ≤ D.room disk.new FileNo.Log) }
    ensures pages { pages.new ≡ pages.old }
    ensures reserves { OnlyReserves D.Disk disk.old disk.new }
{
    pages.reserve(disk, len)?;
    reserve_incoming(disk, LABEL_LEN as u64 + len as u64)?;
    match disk.reserve(FileNo::Log, EMPTY_LOG_LEN) {
        RoomEnd::Done => Ok(()),
        RoomEnd::NoMemory => Err(NoMemory),
    }
}

/// Keeps a label and an image in the incoming file, opens its gate, and has them take the place of the database file. The room is there. A
/// crash at any moment leaves files that stand for the state before or for the new one.
fn keep_and_take<D: Disk>(
    disk: &mut D,
    pages: &mut Pages,
    text: &[u8],
    v: Version,
) -> Result<(), StoreFault>
    requires is_text { IsText text.now v }
    requires agrees { AgreesIn pages.old (D.files disk.old) }
    requires len { pages.old.len ≤ MAX_IMAGE }
    requires empty { IfSome (D.files disk.old) AreEmpty }
    requires fits { length text.now ≤ D.room disk.old FileNo.Database }
    requires incoming_fits { length text.now ≤ D.room disk.old FileNo.Incoming }
    requires settled { IsSettled (D.files disk.old) (D.may_leave disk.old) }
    ensures done { OnOk result (TakesPlace D.Disk text.now v 15 disk.old disk.new pages.new) }
    ensures durable { IsDurableOver D.Disk (Replaced (drop LABEL_LEN text.now)) v disk.old disk.new (IsErrOf result StoreFault.DiskFault) }
    ensures fault { IfErr result (λ fault. fault ≡ StoreFault.DiskFault) }
{
    match keep_incoming(disk, text) {
        DiskEnd::Done => take_incoming(disk, pages, text, v),
        DiskEnd::Failed => Err(StoreFault::DiskFault),
    }
}

/// Takes the image behind a label under its version, in one durable call. All memory is taken first: for want of it nothing changes. A crash
/// at any moment leaves files that stand for the state before or the one after.
pub(crate) fn install_files<D: Disk>(
    disk: &mut D,
    pages: &mut Pages,
    file: &[u8],
    v: Version,
) -> Result<(), StoreFault>
    requires is_text { IsText file.now v }
    requires agrees { AgreesIn pages.old (D.files disk.old) }
    requires len { pages.old.len ≤ MAX_IMAGE }
    requires empty { IfSome (D.files disk.old) AreEmpty }
    requires settled { IsSettled (D.files disk.old) (D.may_leave disk.old) }
    ensures done { OnOk result (RewritesFiles D.Disk (Replaced (drop LABEL_LEN file.now)) v disk.old disk.new pages.old pages.new) }
    ensures durable { IsDurableOver D.Disk (Replaced (drop LABEL_LEN file.now)) v disk.old disk.new (IsErrOf result StoreFault.DiskFault) }
    ensures fault { IfErr result (λ fault. (fault ≡ StoreFault.DiskFault) ⊎ (fault ≡ StoreFault.NoMemory)) }
    ensures unchanged { IsErrOf result StoreFault.NoMemory → OnlyReserves D.Disk disk.old disk.new × (pages.new ≡ pages.old) }
{
    reserve_install(disk, pages, (file.len() - LABEL_LEN) as u32)?;
    keep_and_take(disk, pages, file, v)
}
