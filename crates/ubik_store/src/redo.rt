//! From a committed log to a database file that has its changes and its version, and an empty log. A crash at any
//! moment leaves files that stand for the same.
ghost use Rattle.std.specs.Prelude.{◌≡◌, ◌+◌, ◌<◌, ◌≤◌, ℕ, List, [], length, All, IfSome, Some, None, OnOk, OnErr, IfErr, IsErr};
ghost use Rattle.std.specs.Option.{option_map};
ghost use Rattle.ubik_types.specs.declared.images.Change.{Change};
ghost use Rattle.disk_base.specs.Files.{Files, OnDone};
ghost use Rattle.disk_base.specs.Crash.{CutShort, InFile, Narrows, LeavesOnly, OnlyIn, IsSettled, After, RisesAtMost};
ghost use Rattle.page_file.specs.Pages.{AgreesIn, image_of};
ghost use Rattle.ubik_types.specs.Version.{IsVersion};
ghost use Rattle.disk_base.specs.Runs.{ChangesAtMost};
ghost use Rattle.ubik_log.specs.Gate.{IsOpen};
ghost use Rattle.ubik_log.specs.LogFile.{HasLogOrNone};
ghost use Rattle.ubik_log.specs.LogGrammar.{IsWithinImage};
ghost use Rattle.ubik_types.specs.Image.{effect};
ghost use Rattle.ubik_store.specs.Files.{StandsFor};
ghost use Rattle.ubik_store.specs.Calls.{CallsAtMost};
ghost use Rattle.ubik_store.specs.Gaps.{IsPlain};
ghost use Rattle.ubik_store.specs.Moments.{MayRedo, with_database, with_head, head_calls, changed_file, applied, labelled, without_log, ended, LeadsTo};
ghost use Rattle.ubik_store.specs.Redo.{changed_len, len_after, IsSeam, IsSeamless, IsCovered, Ends};

use crate::faults::StoreFault;
use disk_base::{Disk, DiskEnd, FileNo, LenEnd};
use page_file::{LABEL_LEN, PageFault, Pages};
use ubik_log::{LogFault, close_gate};
use ubik_types::{Change, Version};

/// Writes zero bytes in place of the label, where the database file is shorter than one.
pub(crate) fn put_head<D: Disk>(disk: &mut D) -> Result<(), PageFault>
    requires fits { 64 ≤ D.room disk.old FileNo.Database }
    ensures files { OnOk result (D.files disk.new ≡ option_map (with_database with_head) (D.files disk.old)) }
    ensures steps { OnOk result (IfSome (D.files disk.old) (λ fs. D.steps disk.new ≡ D.steps disk.old + head_calls fs.database)) }
    ensures few { IfSome (D.files disk.old) (λ fs. RisesAtMost (head_calls fs.database) (D.steps disk.old) (D.steps disk.new)) }
    ensures redo { (kept : Files) (told : List Change) → Narrows (MayRedo kept told) (D.may_leave disk.old)
        → LeavesOnly D.steps D.left_since disk.old disk.new (MayRedo kept told) }
    ensures fault { IfErr result (λ fault. fault ≡ PageFault.DiskFault) }
    ensures changes { ChangesAtMost D.Disk FileNo.Database 1 disk.old disk.new (IsErr result) }
{
    match disk.len(FileNo::Database) {
        LenEnd::Known(len) if len >= LABEL_LEN as u64 => Ok(()),
        LenEnd::Known(_) => match disk.write_at(FileNo::Database, 0, &[0; LABEL_LEN]) {
            DiskEnd::Done => Ok(()),
            DiskEnd::Failed => Err(PageFault::DiskFault),
        },
        LenEnd::Failed => Err(PageFault::DiskFault),
    }
}

/// Makes a change of the image, in one call.
fn apply<D: Disk>(disk: &mut D, pages: &mut Pages, change: &Change) -> Result<(), PageFault>
    requires agrees { AgreesIn pages.old (D.files disk.old) }
    requires seam { IsSeam pages.old.len change.now }
    requires within { IsWithinImage change.now }
    requires fits { Ends change.now (D.room disk.old FileNo.Database) }
    requires headed { IfSome (D.files disk.old) (λ fs. 64 ≤ length fs.database) }
    ensures files { OnOk result (D.files disk.new ≡ option_map (with_database (changed_file change.now)) (D.files disk.old)) }
    ensures len { OnOk result (pages.new.len ≡ changed_len pages.old.len change.now) }
    ensures version { pages.new.version ≡ pages.old.version }
    ensures agrees { OnOk result (AgreesIn pages.new (D.files disk.new)) }
    ensures headed { OnOk result (IfSome (D.files disk.new) (λ fs. 64 ≤ length fs.database)) }
    ensures steps { OnOk result (D.steps disk.new ≡ D.steps disk.old + 1) }
    ensures redo { (kept : Files) (told : List Change) → IsCovered told (image_of kept.database) change.now
        → Narrows (MayRedo kept told) (D.may_leave disk.old)
        → LeavesOnly D.steps D.left_since disk.old disk.new (MayRedo kept told) }
    ensures fault { IfErr result (λ fault. fault ≡ PageFault.DiskFault) }
    ensures changes { ChangesAtMost D.Disk FileNo.Database 1 disk.old disk.new (IsErr result) }
{
    match change {
        Change::Put { at, bytes } => pages.write_range(disk, *at, bytes.as_slice()),
        Change::Cut { len } => pages.cut(disk, *len),
    }
}

/// Makes these changes of the image, each in one call.
pub(crate) fn apply_all<D: Disk>(
    disk: &mut D,
    pages: &mut Pages,
    changes: &[Change],
) -> Result<(), PageFault>
    requires agrees { AgreesIn pages.old (D.files disk.old) }
    requires seamless { IsSeamless pages.old.len changes.now }
    requires within { All IsWithinImage changes.now }
    requires fits { All (λ change. Ends change (D.room disk.old FileNo.Database)) changes.now }
    requires headed { IfSome (D.files disk.old) (λ fs. 64 ≤ length fs.database) }
    ensures files { OnOk result (D.files disk.new ≡ option_map (with_database (applied changes.now)) (D.files disk.old)) }
    ensures len { OnOk result (pages.new.len ≡ len_after pages.old.len changes.now) }
    ensures version { pages.new.version ≡ pages.old.version }
    ensures agrees { OnOk result (AgreesIn pages.new (D.files disk.new)) }
    ensures headed { OnOk result (IfSome (D.files disk.new) (λ fs. 64 ≤ length fs.database)) }
    ensures steps { OnOk result (D.steps disk.new ≡ D.steps disk.old + length changes.now) }
    ensures redo { (kept : Files) (told : List Change) → All (IsCovered told (image_of kept.database)) changes.now
        → Narrows (MayRedo kept told) (D.may_leave disk.old)
        → LeavesOnly D.steps D.left_since disk.old disk.new (MayRedo kept told) }
    ensures fault { IfErr result (λ fault. fault ≡ PageFault.DiskFault) }
    ensures changes { ChangesAtMost D.Disk FileNo.Database (length changes.now) disk.old disk.new (IsErr result) }
{
    for change in changes {
        apply(disk, pages, change)?;
    }
    Ok(())
}

/// Syncs the changes, and then writes the label of their version and syncs it.
fn put_label<D: Disk>(disk: &mut D, pages: &mut Pages, v: Version) -> Result<(), PageFault>
    requires agrees { AgreesIn pages.old (D.files disk.old) }
    requires version { IsVersion v }
    requires fits { 64 ≤ D.room disk.old FileNo.Database }
    requires headed { IfSome (D.files disk.old) (λ fs. 64 ≤ length fs.database) }
    ensures files { OnOk result (D.files disk.new ≡ option_map (with_database (labelled v)) (D.files disk.old)) }
    ensures durable { OnOk result (IfSome (D.files disk.old) (λ fs.
        OnlyIn FileNo.Database (labelled v fs.database) (D.may_leave disk.new))) }
    ensures version { OnOk result (pages.new.version ≡ Some v) }
    ensures len { pages.new.len ≡ pages.old.len }
    ensures agrees { OnOk result (AgreesIn pages.new (D.files disk.new)) }
    ensures steps { OnOk result (D.steps disk.new ≡ D.steps disk.old + 3) }
    ensures redo { (kept : Files) (told : List Change) → Narrows (MayRedo kept told) (D.may_leave disk.old)
        → LeavesOnly D.steps D.left_since disk.old disk.new (MayRedo kept told) }
    ensures fault { IfErr result (λ fault. fault ≡ PageFault.DiskFault) }
    ensures changes { ChangesAtMost D.Disk FileNo.Database 3 disk.old disk.new (IsErr result) }
{
    pages.sync(disk)?;
    pages.set_label(disk, v)?;
    pages.sync(disk)
}

/// Empties the log file.
pub(crate) fn empty_log_file<D: Disk>(disk: &mut D) -> DiskEnd
    ensures files { OnDone result (D.files disk.new ≡ option_map without_log (D.files disk.old)) }
    ensures durable { OnDone result (IfSome (D.files disk.old) (λ _. OnlyIn FileNo.Log [] (D.may_leave disk.new))) }
    ensures moments { LeavesOnly D.steps D.left_since disk.old disk.new
        (After (InFile FileNo.Log (CutShort 0)) (D.may_leave disk.old)) }
    ensures steps { OnDone result (D.steps disk.new ≡ D.steps disk.old + 2) }
    ensures changes { ChangesAtMost D.Disk FileNo.Log 2 disk.old disk.new (result ≡ DiskEnd.Failed) }
{
    match disk.cut(FileNo::Log, 0) {
        DiskEnd::Done => disk.sync(FileNo::Log),
        DiskEnd::Failed => DiskEnd::Failed,
    }
}

/// Closes the gate of the log, and empties its file.
pub(crate) fn end_log<D: Disk>(disk: &mut D) -> Result<(), LogFault>
    requires header { IfSome (D.files disk.old) (λ fs. 4 ≤ length fs.log) }
    requires fits { D.files disk.old ≡ None → 4 ≤ D.room disk.old FileNo.Log }
    ensures files { OnOk result (D.files disk.new ≡ option_map without_log (D.files disk.old)) }
    ensures durable { OnOk result (IfSome (D.files disk.old) (λ _. OnlyIn FileNo.Log [] (D.may_leave disk.new))) }
    ensures steps { OnOk result (D.steps disk.new ≡ D.steps disk.old + 4) }
    // A crash at any moment leaves the log as it was, or a discarded one.
    ensures moments { IfSome (D.files disk.old) (λ fs. IsOpen fs.log → OnlyIn FileNo.Log fs.log (D.may_leave disk.old)
        → LeavesOnly D.steps D.left_since disk.old disk.new (After (HasLogOrNone fs.log) (D.may_leave disk.old))) }
    ensures fault { IfErr result (λ fault. fault ≡ LogFault.DiskFault) }
    ensures changes { ChangesAtMost D.Disk FileNo.Log 4 disk.old disk.new (IsErr result) }
{
    close_gate(disk)?;
    match empty_log_file(disk) {
        DiskEnd::Done => Ok(()),
        DiskEnd::Failed => Err(LogFault::DiskFault),
    }
}

/// Brings a committed log to its end: makes these changes, which lead where its own do, labels the database file, and
/// empties the log. A crash at any moment leaves files that stand for what they lead to.
pub(crate) fn redo<D: Disk>(
    disk: &mut D,
    pages: &mut Pages,
    changes: &[Change],
    v: Version,
) -> Result<(), StoreFault>
    requires agrees { AgreesIn pages.old (D.files disk.old) }
    requires version { IsVersion v }
    requires seamless { IsSeamless pages.old.len changes.now }
    requires within { All IsWithinImage changes.now }
    requires fits { All (λ change. Ends change (D.room disk.old FileNo.Database)) changes.now }
    requires head_fits { 64 ≤ D.room disk.old FileNo.Database }
    requires header { IfSome (D.files disk.old) (λ fs. 4 ≤ length fs.log) }
    requires log_fits { D.files disk.old ≡ None → 4 ≤ D.room disk.old FileNo.Log }
    ensures files { OnOk result (D.files disk.new ≡ option_map (ended changes.now v) (D.files disk.old)) }
    ensures moments { IfSome (D.files disk.old) (λ fs. (told : List Change) → LeadsTo fs told v changes.now
        → Narrows (MayRedo fs told) (D.may_leave disk.old)
        → LeavesOnly D.steps D.left_since disk.old disk.new (λ c. StandsFor c v (effect (image_of fs.database) told))) }
    ensures plain { IfSome (D.files disk.old) (λ fs. (told : List Change) → LeadsTo fs told v changes.now → IsPlain fs
        → Narrows (MayRedo fs told) (D.may_leave disk.old) → LeavesOnly D.steps D.left_since disk.old disk.new IsPlain) }
    ensures settled { OnOk result (IsSettled (D.files disk.old) (D.may_leave disk.old)
        → IsSettled (D.files disk.new) (D.may_leave disk.new)) }
    ensures steps { OnOk result (IfSome (D.files disk.old) (λ fs.
        D.steps disk.new ≡ D.steps disk.old + (7 + length changes.now + head_calls fs.database))) }
    ensures few { IfSome (D.files disk.old) (λ fs.
        RisesAtMost (7 + length changes.now + head_calls fs.database) (D.steps disk.old) (D.steps disk.new)) }
    ensures label { OnOk result (pages.new.version ≡ Some v) }
    ensures len { OnOk result (pages.new.len ≡ len_after pages.old.len changes.now) }
    ensures agrees { OnOk result (AgreesIn pages.new (D.files disk.new)) }
    ensures fault { IfErr result (λ fault. fault ≡ StoreFault.DiskFault) }
    ensures calls { CallsAtMost D.Disk (8 + length changes.now) disk.old disk.new (IsErr result) }
{
    put_head(disk)?;
    apply_all(disk, pages, changes)?;
    put_label(disk, pages, v)?;
    Ok(end_log(disk)?)
}
