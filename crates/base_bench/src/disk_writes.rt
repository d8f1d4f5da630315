//! Writes a few bytes in place in a file of a disk in memory and syncs it, again and again.
ghost use Rattle.std.specs.Prelude.{◌≡◌, ◌+◌, ◌*◌, ◌≤◌, IfOk, IfSome, length, replicate};
ghost use Rattle.std.specs.Option.{option_map};
ghost use Rattle.disk_base.specs.Files.{OnDone, laid, with_file};
ghost use Rattle.disk_base.specs.MemDisk.{disk_steps};

use disk_base::{Disk, DiskEnd, FileNo, MemDisk, RoomEnd};
use std::alloc::Global;
use ubik_types::NoMemory;

/// How many bytes each write has.
const LEN: usize = 192;

/// The bytes of each write.
const LAID: [u8; LEN] = [120; LEN];

/// How many writes are a round.
const ROUND: u32 = 2000;

/// The writes lie side by side in the first 64 kibibytes: so many of them.
const PLACES: u32 = 341;

/// The least length of the file, in kibibytes.
pub const LEAST: u16 = 64;

/// Writes the bytes at a position of the database file, and syncs it.
fn commit<D: Disk>(disk: &mut D, at: u64) -> DiskEnd
    requires begins { IfSome (D.files disk.old) (λ fs. at ≤ length fs.database) }
    requires fits { at + LEN ≤ D.room disk.old FileNo.Database }
    ensures written { OnDone result (D.files disk.new
        ≡ option_map (λ fs. with_file fs FileNo.Database (laid fs.database at (replicate LEN 120))) (D.files disk.old)) }
    ensures steps { OnDone result (D.steps disk.new ≡ D.steps disk.old + 2) }
    ensures room { D.room disk.old FileNo.Database ≤ D.room disk.new FileNo.Database }
{
    match disk.write_at(FileNo::Database, at, &LAID) {
        DiskEnd::Done => disk.sync(FileNo::Database),
        DiskEnd::Failed => DiskEnd::Failed,
    }
}

/// Does so this many times, in place.
fn commit_often<D: Disk>(disk: &mut D, times: u32) -> DiskEnd
    requires there { IfSome (D.files disk.old) (λ fs. 65536 ≤ length fs.database) }
    requires fits { 65536 ≤ D.room disk.old FileNo.Database }
    ensures { OnDone result (D.steps disk.new ≡ D.steps disk.old + 2 * times) }
{
    for turn in 0..times {
        let at = u64::from(turn % PLACES) * LEN as u64;
        if commit(disk, at) == DiskEnd::Failed {
            return DiskEnd::Failed;
        }
    }
    DiskEnd::Done
}

/// A disk whose database file has so many zero bytes, all of them synced.
fn filled_disk(alloc: Global, len: usize) -> Result<MemDisk, NoMemory>
    ensures long { IfOk result (λ disk. length disk.files.database.bytes.items ≡ len) }
    ensures steps { IfOk result (λ disk. disk_steps disk ≡ 2) }
{
    let mut disk = MemDisk::new(alloc, &[])?;
    let bytes = vec![in alloc; 0u8; len]?;
    if disk.reserve(FileNo::Database, len as u64) == RoomEnd::NoMemory {
        return Err(NoMemory);
    }
    let written = disk.write_at(FileNo::Database, 0, &bytes);
    let synced = disk.sync(FileNo::Database);
    // No call is to fail by its number, so one that did found no memory.
    if written == DiskEnd::Failed || synced == DiskEnd::Failed {
        return Err(NoMemory);
    }
    Ok(disk)
}

/// A disk whose database file has so many kibibytes, after so many rounds.
pub fn worn_disk(alloc: Global, kibibytes: u16, rounds: u16) -> Result<MemDisk, NoMemory>
    requires { 64 ≤ kibibytes }
    ensures { IfOk result (λ disk. disk_steps disk ≡ 2 + 2 * (rounds * 2000)) }
{
    let mut disk = filled_disk(alloc, usize::from(kibibytes) * 1024)?;
    match commit_often(&mut disk, u32::from(rounds) * ROUND) {
        DiskEnd::Done => Ok(disk),
        DiskEnd::Failed => Err(NoMemory),
    }
}
