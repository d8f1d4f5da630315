//! Commits blocks to a store on a disk in memory, or opens stores over a committed log, again and again.
ghost use Rattle.std.specs.Prelude.{◌≡◌, ◌+◌, ◌*◌, ◌<◌, ◌≤◌, ◌^◌, ℕ, List, [], IfOk, IfSome, OnOk, None, Some, length, replicate};
ghost use Rattle.std.specs.Option.{option_map};
ghost use Rattle.disk_base.specs.Crash.{IsSettled};
ghost use Rattle.ubik_log.specs.LogGrammar.{IsCommitted};
ghost use Rattle.ubik_store.specs.Rest.{AreEmpty};
ghost use Rattle.ubik_store.specs.Store.{IsSound, image_in};
ghost use Rattle.ubik_types.specs.Image.{changed};
ghost use Rattle.ubik_types.specs.declared.images.Change.{Change};
ghost use Rattle.ubik_types.specs.declared.images.Change.TheVariants as change;
ghost use Rattle.base_bench.specs.Blocks.{blocks, IsLabelled};

use disk_base::{Disk, MemDisk};
use std::alloc::Global;
use ubik_log::{encode_log, keep_log, open_gate};
use ubik_store::{Store, StoreFault};
use ubik_types::{Bytes, Change, Changes, NoMemory, Version, bytes_of, changes_new, changes_push};

/// How many bytes each block has.
const LEN: usize = 192;

/// The bytes of each block.
const LAID: [u8; LEN] = [120; LEN];

/// The blocks that are committed lie side by side in the first 64 kibibytes: so many of them.
const PLACES: u32 = 341;

/// How many commits are a round.
const ROUND: u32 = 200;

/// The least length of the image, in kibibytes.
pub const LEAST: u16 = 64;

/// The most kibibytes of blocks that a log has.
pub const MOST: u16 = 1024;

/// The version of the log.
const VERSION: Version = Version {
    epoch: 1,
    counter: 1,
};

/// The version of the image before a block is committed.
const FIRST: Version = Version {
    epoch: 1,
    counter: 0,
};

/// How many blocks are some kibibyte: 64 kibibytes have 341 blocks and 64 bytes.
fn blocks_in(kibibytes: u16) -> u32
    ensures { result * 192 ≤ kibibytes * 1024 }
{
    u32::from(kibibytes) * 1024 / LEN as u32
}

/// Commits one block at a position of the image, under a version.
fn commit_block<D: Disk>(store: &mut Store<D>, at: u32, counter: u32) -> Result<(), StoreFault>
    requires sound { IsSound D.Disk store.old }
    requires none { store.old.begun ≡ None }
    requires within { at + LEN ≤ store.old.len }
    requires counter { counter < 2 ^ 31 }
    ensures sound { IsSound D.Disk store.new }
    ensures none { OnOk result (store.new.begun ≡ None) }
    ensures len { OnOk result (store.new.len ≡ store.old.len) }
    ensures counter { OnOk result (store.new.version.counter ≡ counter) }
    ensures image { OnOk result (image_in (D.files store.new.disk)
        ≡ option_map (λ image. changed image (change.Put at LAID)) (image_in (D.files store.old.disk))) }
{
    store.begin();
    store.put(at, &LAID)?;
    store.commit(Version { epoch: 1, counter })
}

/// Commits so many blocks in turn, each under the next version.
fn commit_often<D: Disk>(store: &mut Store<D>, times: u32) -> Result<(), StoreFault>
    requires sound { IsSound D.Disk store.old }
    requires none { store.old.begun ≡ None }
    requires long { 65536 ≤ store.old.len }
    requires first { store.old.version.counter ≡ 0 }
    requires few { times < 2 ^ 31 }
    ensures { OnOk result (store.new.version.counter ≡ times) }
{
    for turn in 0..times {
        commit_block(store, turn % PLACES * LEN as u32, turn + 1)?;
    }
    Ok(())
}

/// So many zero bytes.
pub fn zero_bytes(alloc: Global, len: usize) -> Result<Vec<u8>, NoMemory>
    ensures { IfOk result (λ bytes. bytes.items ≡ replicate len 0) }
{
    Ok(vec![in alloc; 0u8; len]?)
}

/// A store on an empty disk, of an image of so many zero bytes.
pub fn filled_store<D: Disk + Drop>(
    alloc: Global,
    disk: D,
    len: usize,
) -> Result<Store<D>, StoreFault>
    requires settled { IsSettled (D.files disk) (D.may_leave disk) }
    ensures sound { IfOk result (IsSound D.Disk) }
    ensures none { IfOk result (λ store. store.begun ≡ None) }
    ensures len { IfOk result (λ store. store.len ≡ len) }
    ensures counter { IfOk result (λ store. store.version.counter ≡ 0) }
{
    let mut store = match Store::open(alloc, disk) {
        Ok(store) => store,
        Err(refused) => return Err(refused.why),
    };
    let image = zero_bytes(alloc, len)?;
    store.install(&image, FIRST)?;
    Ok(store)
}

/// A store of an image of so many kibibytes, to which so many rounds of blocks were committed.
fn worn_store<D: Disk + Drop>(
    alloc: Global,
    disk: D,
    kibibytes: u16,
    rounds: u16,
) -> Result<Store<D>, StoreFault>
    requires settled { IsSettled (D.files disk) (D.may_leave disk) }
    requires long { 64 ≤ kibibytes }
    ensures { IfOk result (λ store. store.version.counter ≡ rounds * 200) }
{
    let mut store = filled_store(alloc, disk, usize::from(kibibytes) * 1024)?;
    commit_often(&mut store, u32::from(rounds) * ROUND)?;
    Ok(store)
}

/// So many blocks, side by side.
fn long_list(alloc: Global, count: u32) -> Result<Changes, NoMemory>
    requires { count * 192 ≤ 1048576 }
    ensures { IfOk result (λ changes. changes ≡ blocks count) }
{
    let mut changes = changes_new(alloc);
    for place in 0..count {
        let bytes = bytes_of(alloc, &LAID)?;
        changes_push(
            &mut changes,
            Change::Put {
                at: place * LEN as u32,
                bytes,
            },
        )?;
    }
    Ok(changes)
}

/// The committed log of so many blocks.
fn long_log(alloc: Global, count: u32) -> Result<Bytes, NoMemory>
    requires { count * 192 ≤ 1048576 }
    ensures { IfOk result (λ log. IsCommitted log (blocks count) VERSION) }
{
    let changes = long_list(alloc, count)?;
    encode_log(alloc, &changes, VERSION)
}

/// Keeps a log on a disk and opens its gate, as a commit that a crash ended there, and opens the files.
fn reopened<D: Disk + Drop>(alloc: Global, disk: D, log: &[u8]) -> Result<D, StoreFault>
    requires committed { (changes : List Change) × IsCommitted log.now changes VERSION }
    requires empty { IfSome (D.files disk) AreEmpty }
    requires settled { IsSettled (D.files disk) (D.may_leave disk) }
    ensures empty { IfOk result (λ new. IfSome (D.files new) AreEmpty) }
    ensures settled { IfOk result (λ new. IsSettled (D.files new) (D.may_leave new)) }
    ensures label { IfOk result (λ new. IfSome (D.files disk) (λ _. IsLabelled VERSION (D.files new))) }
{
    let mut disk = disk;
    keep_log(alloc, &mut disk, log)?;
    open_gate(&mut disk)?;
    match Store::open(alloc, disk) {
        Ok(store) => Ok(store.close()),
        Err(refused) => Err(refused.why),
    }
}

/// A disk on which this log was kept and brought to its end so many times.
fn opened_often<D: Disk + Drop>(
    alloc: Global,
    disk: D,
    log: &[u8],
    times: u16,
) -> Result<D, StoreFault>
    requires committed { (changes : List Change) × IsCommitted log.now changes VERSION }
    requires empty { IfSome (D.files disk) AreEmpty }
    requires settled { IsSettled (D.files disk) (D.may_leave disk) }
    ensures { IfOk result (λ new. 0 < times → IfSome (D.files disk) (λ _. IsLabelled VERSION (D.files new))) }
{
    let mut opened = disk;
    for _turn in 0..times {
        opened = reopened(alloc, opened, log)?;
    }
    Ok(opened)
}

/// Commits so many rounds of blocks to an image of so many kibibytes on a disk in memory.
pub fn commits(alloc: Global, kibibytes: u16, rounds: u16) -> Result<(), StoreFault>
    requires { 64 ≤ kibibytes }
{
    let disk = MemDisk::new(alloc, &[])?;
    worn_store(alloc, disk, kibibytes, rounds)?;
    Ok(())
}

/// Opens so many times a store over a log of so many kibibytes of blocks on a disk in memory.
pub fn openings(alloc: Global, kibibytes: u16, times: u16) -> Result<(), StoreFault>
    requires { kibibytes ≤ 1024 }
{
    let log = long_log(alloc, blocks_in(kibibytes))?;
    let disk = MemDisk::new(alloc, &[])?;
    opened_often(alloc, disk, log.as_slice(), times)?;
    Ok(())
}
