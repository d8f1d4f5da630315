//! Writes a log and reads it back: that of puts of 48 bytes, sixteen to a kibibyte.
ghost use Rattle.std.specs.Prelude.{◌≡◌, ◌↔◌, ◌*◌, ◌≤◌, IfOk, IsTrue, true};
ghost use Rattle.ubik_log.specs.LogGrammar.{IsCommitted};
ghost use Rattle.base_bench.specs.Puts.{put_at, puts};

use std::alloc::Global;
use ubik_log::{LogState, encode_log, log_has_one_reading, parse_log};
use ubik_types::{Bytes, Change, Changes, NoMemory, Version, bytes_of, changes_new, changes_push};

/// The bytes of each put.
const LAID: [u8; 48] = [120; 48];

/// How many puts are a kibibyte of the log: each has four fields of four bytes, and its bytes.
const PUTS: u32 = 16;

/// The version of the log.
const VERSION: Version = Version {
    epoch: 1076,
    counter: 2,
};

/// So many puts.
fn long_list(alloc: Global, count: u32) -> Result<Changes, NoMemory>
    ensures { IfOk result (λ changes. changes ≡ puts count) }
{
    let mut changes = changes_new(alloc);
    for at in 0..count {
        let bytes = bytes_of(alloc, &LAID)?;
        changes_push(&mut changes, Change::Put { at, bytes })?;
    }
    Ok(changes)
}

/// Whether a change is the put at this position.
fn is_put(change: &Change, at: u32) -> bool
    ensures { IsTrue result ↔ (change.now ≡ put_at at) }
{
    match change {
        Change::Put { at: found, bytes } => *found == at && bytes.as_slice() == LAID.as_slice(),
        Change::Cut { .. } => false,
    }
}

/// Whether changes are so many puts.
fn are_puts(changes: &[Change], count: u32) -> bool
    ensures { IsTrue result ↔ (changes.now ≡ puts count) }
{
    if changes.len() != count as usize {
        return false;
    }
    for at in 0..count {
        if !is_put(&changes[at as usize], at) {
            return false;
        }
    }
    true
}

/// The log of so many puts.
fn long_log(alloc: Global, changes: &Changes, count: u32) -> Result<Bytes, NoMemory>
    requires puts { changes.now ≡ puts count }
    requires fits { count ≤ 65535 * 16 }
    ensures { IfOk result (λ log. IsCommitted log (puts count) VERSION) }
{
    encode_log(alloc, changes, VERSION)
}

/// Whether a version is that of the log.
fn is_version(version: Version) -> bool
    ensures { IsTrue result ↔ (version ≡ VERSION) }
{
    version == VERSION
}

/// Whether a log says so many puts, and the version.
fn says_puts(alloc: Global, log: &[u8], count: u32) -> Result<bool, NoMemory>
    ensures { IfOk result (λ said. IsTrue said ↔ IsCommitted log.now (puts count) VERSION) }
{
    log_has_one_reading();
    Ok(match parse_log(alloc, log)? {
        LogState::Committed { changes, version } => {
            is_version(version) && are_puts(changes.as_slice(), count)
        }
        LogState::Discarded => false,
    })
}

/// Whether a log is so many times found to say so many puts, as it is.
fn reads_back(alloc: Global, log: &[u8], count: u32, times: u16) -> Result<bool, NoMemory>
    requires { IsCommitted log.now (puts count) VERSION }
    ensures { IfOk result (λ whole. whole ≡ true) }
{
    for _ in 0..times {
        if !says_puts(alloc, log, count)? {
            return Ok(false);
        }
    }
    Ok(true)
}

/// Whether a log of so many kibibytes, which is written so often after the first time, is so often read back, as it is.
pub fn goes_both_ways(
    alloc: Global,
    kibibytes: u16,
    writes: u16,
    reads: u16,
) -> Result<bool, NoMemory>
    ensures { IfOk result (λ whole. whole ≡ true) }
{
    let count = u32::from(kibibytes) * PUTS;
    let changes = long_list(alloc, count)?;
    let mut log = long_log(alloc, &changes, count)?;
    for _ in 0..writes {
        log = long_log(alloc, &changes, count)?;
    }
    reads_back(alloc, log.as_slice(), count, reads)
}
