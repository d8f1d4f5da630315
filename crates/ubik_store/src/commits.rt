//! A durable call: a log is kept and its gate opened, and then its changes are made.
ghost use Rattle.std.specs.Prelude.{◌≡◌, ◌+◌, ◌<◌, ◌≤◌, ◌⊎◌, [], length, All, IfSome, None, OnOk, IfErr, IsErrOf, IsTrue};
ghost use Rattle.ubik_types.specs.declared.versions.Version.{Version};
ghost use Rattle.ubik_types.specs.Version.{IsVersion};
ghost use Rattle.ubik_types.specs.Logged.{logged, too_large};
ghost use Rattle.disk_base.specs.Crash.{IsSettled};
ghost use Rattle.disk_base.specs.Runs.{OnlyReserves};
ghost use Rattle.page_file.specs.Pages.{AgreesIn};
ghost use Rattle.ubik_log.specs.LogGrammar.{IsTold, IsWithinImage, IsCommitted};
ghost use Rattle.ubik_store.specs.Commit.{RewritesFiles, IsDurableOver};
ghost use Rattle.ubik_store.specs.Rest.{AreEmpty, CanRelabel};
ghost use Rattle.ubik_store.specs.Rewrite.Rewrite.{Changed};
ghost use Rattle.ubik_store.specs.Redo.{IsSeamless, Ends};

use crate::faults::StoreFault;
use crate::logged::copy_as_made;
use crate::redo::redo;
use disk_base::{Disk, FileNo};
use page_file::Pages;
use std::alloc::Global;
use ubik_log::{empty_log, encode_log, keep_log, open_gate};
use ubik_types::{Change, Changes, MAX_IMAGE, Version};

/// Keeps the log of these changes and this version, commits it, and brings it to its end. It makes the room of the
/// log first; that of the changes is there. For want of memory nothing changes. A crash at any moment leaves files that
/// stand for the state before or the one after.
pub(crate) fn keep_and_redo<D: Disk>(
    alloc: Global,
    disk: &mut D,
    pages: &mut Pages,
    log: &[u8],
    changes: &[Change],
    v: Version,
) -> Result<(), StoreFault>
    requires committed { IsCommitted log.now changes.now v }
    requires agrees { AgreesIn pages.old (D.files disk.old) }
    requires len { pages.old.len ≤ 16777216 }
    requires seamless { IsSeamless pages.old.len changes.now }
    requires fits { All (λ change. Ends change (D.room disk.old FileNo.Database)) changes.now }
    requires head_fits { 64 ≤ D.room disk.old FileNo.Database }
    requires empty { IfSome (D.files disk.old) AreEmpty }
    requires settled { IsSettled (D.files disk.old) (D.may_leave disk.old) }
    ensures done { OnOk result (RewritesFiles D.Disk (Changed changes.now) v disk.old disk.new pages.old pages.new) }
    ensures durable { IsDurableOver D.Disk (Changed changes.now) v disk.old disk.new (IsErrOf result StoreFault.DiskFault) }
    ensures fault { IfErr result (λ fault. (fault ≡ StoreFault.DiskFault) ⊎ (fault ≡ StoreFault.NoMemory)) }
    ensures no_memory { IsErrOf result StoreFault.NoMemory → D.room disk.old FileNo.Log < length log.now }
    ensures unchanged { IsErrOf result StoreFault.NoMemory → OnlyReserves D.Disk disk.old disk.new × (pages.new ≡ pages.old) }
{
    keep_log(alloc, disk, log)?;
    open_gate(disk)?;
    redo(disk, pages, changes, v)
}

/// Where a change ends in an image; 0 for a cut.
fn end_of(change: &Change) -> u32
    requires { IsWithinImage change.now }
    ensures ends { Ends change.now (64 + result) }
    ensures within { result ≤ 16777216 }
{
    match change {
        Change::Put { at, bytes } => *at + bytes.as_slice().len() as u32,
        Change::Cut { .. } => 0,
    }
}

/// How long an image these changes need room for.
pub(crate) fn reach(changes: &[Change]) -> u32
    requires { All IsWithinImage changes.now }
    ensures ends { All (λ change. Ends change (64 + result)) changes.now }
    ensures within { result ≤ 16777216 }
{
    let mut reach = 0;
    for change in changes {
        reach = end_of(change).max(reach);
    }
    reach
}

/// Makes these changes of a database one durable call, which gives it a version. The pages are those of the disk, in whose
/// log file and incoming file there is nothing. All memory is taken first: for want of it nothing changes. A crash at any moment
/// leaves files that stand for the state before or the one after.
pub(crate) fn commit_changes<D: Disk>(
    alloc: Global,
    disk: &mut D,
    pages: &mut Pages,
    changes: &Changes,
    v: Version,
) -> Result<(), StoreFault>
    requires told { IsTold changes.now v }
    requires agrees { AgreesIn pages.old (D.files disk.old) }
    requires len { pages.old.len ≤ MAX_IMAGE }
    requires seamless { IsSeamless pages.old.len changes.now }
    requires empty { IfSome (D.files disk.old) AreEmpty }
    requires settled { IsSettled (D.files disk.old) (D.may_leave disk.old) }
    ensures done { OnOk result (RewritesFiles D.Disk (Changed changes.now) v disk.old disk.new pages.old pages.new) }
    ensures durable { IsDurableOver D.Disk (Changed changes.now) v disk.old disk.new (IsErrOf result StoreFault.DiskFault) }
    ensures fault { IfErr result (λ fault. (fault ≡ StoreFault.DiskFault) ⊎ (fault ≡ StoreFault.NoMemory)) }
    ensures unchanged { IsErrOf result StoreFault.NoMemory → OnlyReserves D.Disk disk.old disk.new × (pages.new ≡ pages.old) }
{
    let log = encode_log(alloc, changes, v)?;
    pages.reserve(disk, reach(changes.as_slice()))?;
    keep_and_redo(alloc, disk, pages, log.as_slice(), changes.as_slice(), v)
}

/// Makes changes one durable call, over an image of `len` bytes: without a gap, and no cut past the end. They are copied only where it is
/// not said that they are so as they stand.
pub(crate) fn commit_as_made<D: Disk>(
    alloc: Global,
    disk: &mut D,
    pages: &mut Pages,
    changes: &Changes,
    len: u32,
    seamless: bool,
    v: Version,
) -> Result<(), StoreFault>
    requires version { IsVersion v }
    requires fits { too_large 0 len changes.now ≡ None }
    requires seamless { IsTrue seamless → IsSeamless len changes.now }
    requires agrees { AgreesIn pages.old (D.files disk.old) }
    requires len_is { pages.old.len ≡ len }
    requires not_long { len ≤ MAX_IMAGE }
    requires empty { IfSome (D.files disk.old) AreEmpty }
    requires settled { IsSettled (D.files disk.old) (D.may_leave disk.old) }
    ensures done { OnOk result (RewritesFiles D.Disk (Changed (logged len changes.now)) v disk.old disk.new pages.old pages.new) }
    ensures durable { IsDurableOver D.Disk (Changed (logged len changes.now)) v disk.old disk.new (IsErrOf result StoreFault.DiskFault) }
    ensures fault { IfErr result (λ fault. (fault ≡ StoreFault.DiskFault) ⊎ (fault ≡ StoreFault.NoMemory)) }
    ensures unchanged { IsErrOf result StoreFault.NoMemory → OnlyReserves D.Disk disk.old disk.new × (pages.new ≡ pages.old) }
{
    if seamless {
        return commit_changes(alloc, disk, pages, changes, v);
    }
    let made = copy_as_made(alloc, len, changes.as_slice())?;
    commit_changes(alloc, disk, pages, &made, v)
}

/// Gives the image a version, in one durable call: a log of no change. Where there is room for that log and a label it takes no memory.
pub(crate) fn relabel_files<D: Disk>(
    alloc: Global,
    disk: &mut D,
    pages: &mut Pages,
    v: Version,
) -> Result<(), StoreFault>
    requires version { IsVersion v }
    requires agrees { AgreesIn pages.old (D.files disk.old) }
    requires len { pages.old.len ≤ MAX_IMAGE }
    requires empty { IfSome (D.files disk.old) AreEmpty }
    requires settled { IsSettled (D.files disk.old) (D.may_leave disk.old) }
    ensures done { OnOk result (RewritesFiles D.Disk (Changed []) v disk.old disk.new pages.old pages.new) }
    ensures durable { IsDurableOver D.Disk (Changed []) v disk.old disk.new (IsErrOf result StoreFault.DiskFault) }
    ensures fault { IfErr result (λ fault. (fault ≡ StoreFault.DiskFault) ⊎ (fault ≡ StoreFault.NoMemory)) }
    ensures no_memory { CanRelabel D.Disk disk.old → ¬ IsErrOf result StoreFault.NoMemory }
    ensures unchanged { IsErrOf result StoreFault.NoMemory → OnlyReserves D.Disk disk.old disk.new × (pages.new ≡ pages.old) }
{
    pages.reserve(disk, 0)?;
    keep_and_redo(alloc, disk, pages, &empty_log(v), &[], v)
}
