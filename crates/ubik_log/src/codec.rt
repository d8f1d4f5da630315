//! A log as bytes, both ways.
ghost use Rattle.std.specs.Prelude.{[], ◌++◌, IfOk};
ghost use Rattle.ubik_types.specs.Version.{IsVersion};
ghost use Rattle.ubik_log.specs.LogGrammar.{new_record, IsTold, IsCommitted};
ghost use Rattle.ubik_log.specs.Reading.{IsStateOf};

use crate::opcodes::{LOGEND, LOGNEW};
use crate::readers::{behind, edit_at, end_at};
use crate::states::LogState;
use crate::writers::{log_len, push_change, push_end, push_fields};
use std::alloc::Global;
use ubik_types::{Bytes, Changes, NoMemory, Version, changes_new, changes_push};

/// The committed log of these changes and this version.
pub fn encode_log(alloc: Global, changes: &Changes, version: Version) -> Result<Bytes, NoMemory>
    requires { IsTold changes.now version }
    ensures { IfOk result (λ log. IsCommitted log changes.now version) }
{
    let mut log = Vec::with_capacity(alloc, log_len(changes.as_slice()))?;
    push_fields(&mut log, &[LOGNEW])?;
    for change in changes.as_slice() {
        push_change(&mut log, change)?;
    }
    push_end(&mut log, version)?;
    Ok(Bytes::new(log))
}

/// The committed log of no change under this version, without taking memory.
pub fn empty_log(version: Version) -> [u8; 16]
    requires { IsVersion version }
    ensures { IsCommitted result [] version }
{
    let [a, b, c, d] = LOGNEW.to_be_bytes();
    let [e, f, g, h] = LOGEND.to_be_bytes();
    let [i, j, k, l] = version.epoch.to_be_bytes();
    let [m, n, o, p] = version.counter.to_be_bytes();
    [a, b, c, d, e, f, g, h, i, j, k, l, m, n, o, p]
}

/// What the records behind LOGNEW say.
fn parse_records(alloc: Global, records: &[u8]) -> Result<LogState, NoMemory>
    ensures { IfOk result (λ state. IsStateOf (new_record ++ records.now) state) }
{
    let mut changes = changes_new(alloc);
    let mut rest = records;
    while let Some((edit, after)) = edit_at(rest) {
        changes_push(&mut changes, edit.to_change(alloc)?)?;
        rest = after;
    }
    Ok(match end_at(rest) {
        Some(version) => LogState::Committed { changes, version },
        None => LogState::Discarded,
    })
}

/// What the bytes of a log say: Committed exactly where they are a committed log, with its changes and its
/// version, else Discarded. A log with its gate closed, a log that is cut off and a log with bytes behind its
/// end are discarded, and so is one with a change past the longest image.
pub fn parse_log(alloc: Global, log: &[u8]) -> Result<LogState, NoMemory>
    ensures { IfOk result (λ state. IsStateOf log.now state) }
{
    match behind(log, LOGNEW) {
        Some(records) => parse_records(alloc, records),
        None => Ok(LogState::Discarded),
    }
}
