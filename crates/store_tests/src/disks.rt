//! Calls over any disk that are made of its calls, each with one fact on what it leaves of the disk.
ghost use Rattle.std.specs.Prelude.{◌≡◌, ◌+◌, ◌<◌, ◌≤◌, ◌^◌, IfSome, IsSome, true, length};
ghost use Rattle.std.specs.Option.{option_map};
ghost use Rattle.disk_base.specs.Files.{file_of};
ghost use Rattle.disk_base.specs.Pending.{all_at_rest};
ghost use Rattle.disk_base.specs.Runs.{OnlyReads, OnlyReserves, Writes, Cuts, Syncs, ChangesAtMost};
ghost use Rattle.disk_base.specs.Stops.DiskStop.{Unarmed, Stopped};

use disk_base::{Disk, DiskEnd, FileNo, Fill, LenEnd, MemDisk, RoomEnd, StopDisk};
use std::alloc::Global;
use std::process::Abort;
use std::test::Fail;

/// Writes from a position on, or at the end of a shorter file, with the room that it takes.
pub(crate) fn put<D: Disk>(
    rt: &impl Abort,
    disk: &mut D,
    f: FileNo,
    at: u64,
    bytes: &[u8],
) -> DiskEnd
    requires { at + length bytes.now < 2 ^ 32 }
{
    let len = match disk.len(f) {
        LenEnd::Known(len) => len,
        LenEnd::Failed => return DiskEnd::Failed,
    };
    let at = at.min(len);
    assert_eq!(rt; disk.reserve(f, at + bytes.len() as u64), RoomEnd::Done);
    disk.write_at(f, at, bytes)
}

/// Compares what a read of the whole file gives.
pub(crate) fn expect_file<D: Disk>(
    rt: &impl Abort,
    alloc: Global,
    disk: &mut D,
    f: FileNo,
    wanted: &[u8],
) -> Result<(), Fail> {
    let len = disk.len(f);
    assert_eq!(rt; len, LenEnd::Known(wanted.len() as u64));
    let mut bytes = wanted.to_vec(alloc)?;
    bytes.fill(0);
    assert_eq!(rt; disk.read(f, 0, &mut bytes), DiskEnd::Done);
    assert_eq!(rt; bytes.as_slice(), wanted);
    Ok(())
}

/// Stops a disk in a sync.
fn stop_in_sync<D: StopDisk>(disk: &mut D, fill: Fill) -> DiskEnd
    requires { D.stop disk.old ≡ Unarmed }
    ensures failed { result ≡ DiskEnd.Failed }
    ensures stopped { D.stop disk.new ≡ Stopped fill }
    ensures files { IsSome (D.pending disk.old) → D.files disk.new ≡ D.files disk.old }
    ensures pending { IsSome (D.pending disk.old) → D.pending disk.new ≡ D.pending disk.old }
    ensures tells { D.tells disk.new ≡ D.tells disk.old }
{
    disk.arm(0, fill);
    disk.sync(FileNo::Log)
}

/// A stop that leaves what reads gave changes no file.
fn stop_and_revive<D: StopDisk>(disk: &mut D)
    requires { D.stop disk.old ≡ Unarmed }
    ensures files { IsSome (D.pending disk.old) → D.tells disk.old ≡ true → D.files disk.new ≡ D.files disk.old }
    ensures pending { IsSome (D.pending disk.old) → D.pending disk.new ≡ option_map all_at_rest (D.files disk.new) }
{
    let _ = stop_in_sync(disk, Fill::New);
    disk.revive();
}

/// Asks for the length of a file.
fn ask<D: Disk>(disk: &mut D, f: FileNo) -> DiskEnd
    ensures reads { OnlyReads D.Disk disk.old disk.new (result ≡ DiskEnd.Failed) }
{
    match disk.len(f) {
        LenEnd::Known(_) => DiskEnd::Done,
        LenEnd::Failed => DiskEnd::Failed,
    }
}

/// Asks for the lengths of two files.
fn ask_both<D: Disk>(disk: &mut D, f: FileNo, then: FileNo) -> DiskEnd
    ensures reads { OnlyReads D.Disk disk.old disk.new (result ≡ DiskEnd.Failed) }
{
    match ask(disk, f) {
        DiskEnd::Done => ask(disk, then),
        DiskEnd::Failed => DiskEnd::Failed,
    }
}

fn make_room<D: Disk>(disk: &mut D, f: FileNo, len: u64) -> RoomEnd
    ensures reserved { result ≡ RoomEnd.Done → len ≤ D.room disk.new f }
    ensures reserves { OnlyReserves D.Disk disk.old disk.new }
{
    disk.reserve(f, len)
}

fn write<D: Disk>(disk: &mut D, f: FileNo, at: u64, bytes: &[u8]) -> DiskEnd
    requires begins { IfSome (D.files disk.old) (λ fs. at ≤ length (file_of fs f)) }
    requires fits { at + length bytes.now ≤ D.room disk.old f }
    ensures writes { Writes D.Disk f at bytes.now disk.old disk.new (result ≡ DiskEnd.Failed) }
{
    disk.write_at(f, at, bytes)
}

fn cut<D: Disk>(disk: &mut D, f: FileNo, len: u64) -> DiskEnd
    requires { IfSome (D.files disk.old) (λ fs. len ≤ length (file_of fs f)) }
    ensures cuts { Cuts D.Disk f len disk.old disk.new (result ≡ DiskEnd.Failed) }
{
    disk.cut(f, len)
}

fn sync<D: Disk>(disk: &mut D, f: FileNo) -> DiskEnd
    ensures syncs { Syncs D.Disk f disk.old disk.new (result ≡ DiskEnd.Failed) }
{
    disk.sync(f)
}

/// Writes bytes over a file, and syncs it.
fn write_synced<D: Disk>(disk: &mut D, f: FileNo, at: u64, bytes: &[u8]) -> DiskEnd
    requires begins { IfSome (D.files disk.old) (λ fs. at ≤ length (file_of fs f)) }
    requires fits { at + length bytes.now ≤ D.room disk.old f }
    ensures changes { ChangesAtMost D.Disk f 2 disk.old disk.new (result ≡ DiskEnd.Failed) }
{
    match write(disk, f, at, bytes) {
        DiskEnd::Done => sync(disk, f),
        DiskEnd::Failed => DiskEnd::Failed,
    }
}

#[test]
fn calls_are_joined(rt: HostRuntime) -> Result<(), Fail> {
    let (mut disk, f) = (MemDisk::new(rt.alloc(), &[])?, FileNo::Log);
    // A stop in a sync may leave all.
    stop_and_revive(&mut disk);
    assert_eq!(rt; put(&rt, &mut disk, f, 0, b"ab"), DiskEnd::Done);
    disk.arm(0, Fill::New);
    assert_eq!(rt; disk.sync(f), DiskEnd::Failed);
    disk.revive();
    expect_file(&rt, rt.alloc(), &mut disk, f, b"ab")?;
    assert_eq!(rt; make_room(&mut disk, f, 2), RoomEnd::Done);
    assert_eq!(rt; write_synced(&mut disk, f, 0, b"cd"), DiskEnd::Done);
    assert_eq!(rt; ask_both(&mut disk, f, FileNo::Database), DiskEnd::Done);
    expect_file(&rt, rt.alloc(), &mut disk, f, b"cd")?;
    assert_eq!(rt; cut(&mut disk, f, 0), DiskEnd::Done);
    expect_file(&rt, rt.alloc(), &mut disk, f, b"")
}
