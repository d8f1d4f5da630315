//! A disk whose files lie in memory too, over disks that fail.
use crate::disks::{expect_file, put};
use disk_base::{Disk, DiskEnd, FileNo, LenEnd, MemDisk, MirrorFault, Mirrored, MostBytes};
use std::alloc::Global;
use std::process::Abort;
use std::test::Fail;
use ubik_types::NoMemory;

/// More than any file of these tests has.
pub(crate) const AMPLE: MostBytes = MostBytes {
    database: 16_777_280,
    log: 16_777_280,
    incoming: 16_777_280,
};

/// Why there is no mirror of a disk.
fn refused(alloc: Global, disk: MemDisk, most: MostBytes) -> Option<MirrorFault> {
    match Mirrored::open(alloc, disk, most) {
        Ok(_) => None,
        Err(refused) => Some(refused.why),
    }
}

/// Its opening makes nine calls of the disk, of which each third is a sync.
fn expect_faults(rt: &impl Abort, alloc: Global) -> Result<(), NoMemory> {
    for call in 1..=9 {
        let disk = MemDisk::new(alloc, &[call])?;
        assert_eq!(rt; refused(alloc, disk, AMPLE), Some(MirrorFault::DiskFault));
    }
    Ok(())
}

/// A mirror whose disk fails at the first sync behind a write.
fn expect_end(rt: &impl Abort, mirror: &mut Mirrored<MemDisk>) {
    let file = FileNo::Log;
    assert_eq!(rt; put(rt, mirror, file, 0, b"abc"), DiskEnd::Done);
    assert_eq!(rt; mirror.sync(file), DiskEnd::Failed);
    assert_eq!(rt; mirror.sync(file), DiskEnd::Failed);
    assert_eq!(rt; mirror.len(file), LenEnd::Failed);
}

#[test]
fn a_mirror_ends_with_the_first_failure_beneath(rt: HostRuntime) -> Result<(), Fail> {
    let alloc = rt.alloc();
    expect_faults(&rt, alloc)?;
    match Mirrored::open(alloc, MemDisk::new(alloc, &[11])?, AMPLE) {
        Ok(mut mirror) => {
            expect_end(&rt, &mut mirror);
            expect_file(&rt, alloc, &mut mirror.close(), FileNo::Log, b"abc")
        }
        Err(refused) => Err(refused.why)?,
    }
}

/// Why there is no mirror of a database of five bytes, where it may have so many.
fn refused_at(rt: &impl Abort, alloc: Global, len: u64) -> Result<Option<MirrorFault>, NoMemory> {
    let mut disk = MemDisk::new(alloc, &[])?;
    let done = put(rt, &mut disk, FileNo::Database, 0, b"12345");
    assert_eq!(rt; done, DiskEnd::Done);
    let most = MostBytes {
        database: len,
        ..AMPLE
    };
    Ok(refused(alloc, disk, most))
}

#[test]
fn a_file_that_is_too_long_is_shown_and_not_read(rt: HostRuntime) -> Result<(), Fail> {
    let mut head = [0; 64];
    head[..5].copy_from_slice(b"12345");
    let (file, len) = (FileNo::Database, 5);
    let too_long = Some(MirrorFault::TooLong { file, len, head });
    assert_eq!(rt; refused_at(&rt, rt.alloc(), 5)?, None);
    assert_eq!(rt; refused_at(&rt, rt.alloc(), 4)?, too_long);
    assert_eq!(rt; refused_at(&rt, rt.alloc(), 0)?, too_long);
    Ok(())
}
