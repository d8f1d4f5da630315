//! A disk and a store in a folder, also with its files in memory too, and which disks, sources and sinks go to another thread.
ghost use Rattle.std.specs.Prelude.{◌≡◌, IfOk, None, false};
ghost use Rattle.ubik_store.specs.Store.{IsSound};
ghost use Rattle.disk_base.specs.Crash.{IsSettled, Only};
ghost use Rattle.disk_base.specs.Mirrored.{mirrored_files, mirrored_may_leave};

use crate::disks::{expect_file, put};
use crate::mirrors::AMPLE;
use disk_base::{
    Disk, DiskEnd, FileDisk, FileNo, LenEnd, MemDisk, MemSink, MemSource, Mirrored, OpenFault,
};
use std::alloc::Global;
use std::fs::File;
use std::os::unix::fs::PermissionsExt;
use std::path::Path;
use std::process::Abort;
use std::rt::Files;
use std::test::Fail;
use std::{env, fs, process};
use ubik_store::{Store, StoreFault};
use ubik_types::Version;

/// A folder of this process alone, with nothing in it.
fn empty_folder(rt: &HostRuntime, prefix: &str) -> Result<String, Fail> {
    let name = format!(in rt.alloc(); "{prefix}-{}", process::id(rt.process()))?;
    let folder = env::temp_dir(rt)?.join(rt.alloc(), name.as_str())?;
    let folder = folder.into_string();
    let _ = fs::remove_dir_all(rt, folder.as_str());
    fs::create_dir(rt, folder.as_str())?;
    Ok(folder)
}

fn goes<T: Send>() {}

/// Calls nothing: that it is proved says that these forms go to other threads.
fn forms_go_to_threads() {
    goes::<MemDisk>();
    goes::<FileDisk>();
    goes::<MemSource>();
    goes::<MemSink>();
}

/// Writes, syncs, cuts and reads back.
fn expect_kept<D: Disk>(rt: &impl Abort, alloc: Global, disk: &mut D) -> Result<(), Fail> {
    assert_eq!(rt; put(rt, disk, FileNo::Log, 0, b"abcd"), DiskEnd::Done);
    assert_eq!(rt; put(rt, disk, FileNo::Log, 3, b"XYZ"), DiskEnd::Done);
    assert_eq!(rt; put(rt, disk, FileNo::Database, 0, b"12"), DiskEnd::Done);
    assert_eq!(rt; disk.sync(FileNo::Log), DiskEnd::Done);
    expect_file(rt, alloc, disk, FileNo::Log, b"abcXYZ")?;
    expect_cut(rt, disk, FileNo::Log, 5);
    expect_file(rt, alloc, disk, FileNo::Log, b"abcXY")?;
    expect_file(rt, alloc, disk, FileNo::Database, b"12")?;
    expect_file(rt, alloc, disk, FileNo::Incoming, b"")
}

/// Cuts a file that is long enough.
fn expect_cut<D: Disk>(rt: &impl Abort, disk: &mut D, f: FileNo, len: u64) {
    if let LenEnd::Known(known) = disk.len(f) {
        assert!(rt; len <= known);
        assert_eq!(rt; disk.cut(f, len), DiskEnd::Done);
    }
}

/// The permission bits of a file of a folder.
fn mode_of(rt: &HostRuntime, folder: &str, name: &str) -> Result<u32, Fail> {
    let path = Path::new(folder).join(rt.alloc(), name)?;
    Ok(fs::metadata(rt, path.as_path())?.permissions().mode() & 0o777)
}

/// Why the disk of a folder is refused.
fn refused<R: Files<File = File>>(rt: &R, alloc: Global, folder: &str) -> Option<OpenFault> {
    FileDisk::open(rt, alloc, folder).err()
}

/// A folder that is another server's is refused, and keeps what that one writes.
fn expect_own<R: Files<File = File> + Abort>(
    rt: &R,
    alloc: Global,
    folder: &str,
) -> Result<(), Fail> {
    let mut disk = FileDisk::open(rt, alloc, folder)?;
    assert_eq!(rt; refused(rt, alloc, folder), Some(OpenFault::Failed));
    expect_kept(rt, alloc, &mut disk)
}

/// What was written is there when the folder is opened anew.
fn expect_found<R: Files<File = File> + Abort>(
    rt: &R,
    alloc: Global,
    folder: &str,
) -> Result<(), Fail> {
    let mut disk = FileDisk::open(rt, alloc, folder)?;
    expect_file(rt, alloc, &mut disk, FileNo::Log, b"abcXY")?;
    expect_file(rt, alloc, &mut disk, FileNo::Database, b"12")?;
    let mut buf = [0; 3];
    assert_eq!(rt; disk.read(FileNo::Database, 1, &mut buf), DiskEnd::Failed);
    Ok(())
}

/// A folder without its database is refused, and none is made.
fn expect_lost<R: Files<File = File> + Abort>(
    rt: &R,
    alloc: Global,
    folder: &str,
) -> Result<(), Fail> {
    let database = Path::new(folder).join(alloc, "database")?;
    fs::remove_file(rt, database.as_path())?;
    assert_eq!(rt; refused(rt, alloc, folder), Some(OpenFault::Failed));
    assert!(rt; !fs::exists(rt, database.as_path())?);
    Ok(())
}

/// It is refused too as another server's, without its database, and where there is none.
#[test]
fn a_folder_keeps_what_was_written(rt: HostRuntime) -> Result<(), Fail> {
    forms_go_to_threads();
    let made = empty_folder(&rt, "disk_base")?;
    let (folder, alloc) = (made.as_str(), rt.alloc());
    expect_own(&rt, alloc, folder)?;
    expect_found(&rt, alloc, folder)?;
    for name in ["database", "log", "incoming", "lock"] {
        assert_eq!(rt; mode_of(&rt, folder, name)?, 0o600, "{name}");
    }
    expect_lost(&rt, alloc, folder)?;
    fs::remove_dir_all(&rt, folder)?;
    assert_eq!(rt; refused(&rt, alloc, folder), Some(OpenFault::Failed));
    Ok(())
}

const fn version(counter: u32) -> Version
    ensures { (result.epoch ≡ 1076) × (result.counter ≡ counter) }
{
    Version {
        epoch: 1076,
        counter,
    }
}

/// A store over a disk on which nothing is pending.
fn opened<D: Disk + Drop>(alloc: Global, disk: D) -> Result<Store<D>, StoreFault>
    requires settled { IsSettled (D.files disk) (D.may_leave disk) }
    ensures sound { IfOk result (IsSound D.Disk) }
    ensures fresh { IfOk result (λ store. (store.begun ≡ None) × (store.failed ≡ false)) }
{
    match Store::open(alloc, disk) {
        Ok(store) => Ok(store),
        Err(refused) => Err(refused.why),
    }
}

/// Commits two puts to a store on an empty disk.
fn expect_committed<D: Disk + Drop>(rt: &impl Abort, alloc: Global, disk: D) -> Result<(), Fail>
    requires settled { IsSettled (D.files disk) (D.may_leave disk) }
{
    let mut store = opened(alloc, disk)?;
    store.install(b"0123456789", version(1))?;
    assert_eq!(rt; store.version(), version(1));
    store.begin();
    store.put(10, b"ab")?;
    store.put(0, b"-")?;
    store.commit(version(2))?;
    Ok(())
}

/// A store has the version and the image after them.
fn expect_held<D: Disk + Drop>(rt: &impl Abort, alloc: Global, disk: D) -> Result<(), Fail>
    requires settled { IsSettled (D.files disk) (D.may_leave disk) }
{
    let mut store = opened(alloc, disk)?;
    let mut image = vec![in alloc; 0; store.len() as usize]?;
    store.read(0, &mut image)?;
    assert_eq!(rt; store.version(), version(2));
    assert_eq!(rt; image.as_slice(), b"-123456789ab".as_slice());
    Ok(())
}

/// The files of a folder, in memory too.
fn mirrored(rt: &HostRuntime, folder: &str) -> Result<Mirrored<FileDisk>, Fail>
    ensures settled { IfOk result (λ disk. Only (mirrored_files disk) (mirrored_may_leave disk)) }
{
    let disk = FileDisk::open(rt, rt.alloc(), folder)?;
    match Mirrored::open(rt.alloc(), disk, AMPLE) {
        Ok(mirror) => Ok(mirror),
        Err(refused) => Err(refused.why)?,
    }
}

/// A store in a folder is opened anew, over its files and over those in memory too.
#[test]
fn stores_in_folders_are_opened_anew(rt: HostRuntime) -> Result<(), Fail> {
    let made = empty_folder(&rt, "ubik_store")?;
    let (folder, alloc) = (made.as_str(), rt.alloc());
    expect_committed(&rt, alloc, FileDisk::open(&rt, alloc, folder)?)?;
    expect_held(&rt, alloc, FileDisk::open(&rt, alloc, folder)?)?;
    expect_held(&rt, alloc, mirrored(&rt, folder)?)?;
    fs::remove_dir_all(&rt, folder)?;
    fs::create_dir(&rt, folder)?;
    expect_committed(&rt, alloc, mirrored(&rt, folder)?)?;
    expect_held(&rt, alloc, mirrored(&rt, folder)?)?;
    fs::remove_dir_all(&rt, folder)?;
    Ok(())
}
