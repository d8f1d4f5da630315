//! Writes the records of a log.
ghost use Rattle.std.specs.Prelude.{◌≡◌, ◌++◌, OnOk};
ghost use Rattle.std.specs.List.{flat_map};
ghost use Rattle.ubik_log.specs.LogGrammar.{field, IsWithinImage};
ghost use Rattle.ubik_log.specs.Records.{change_record, end_record};

use crate::opcodes::{FILE, LOGDATA, LOGEND, LOGTRUNCATE};
use std::alloc::AllocError;
use ubik_types::{Change, Version};

/// Writes numbers at the end, each as a field.
pub fn push_fields(log: &mut Vec<u8>, numbers: &[u32]) -> Result<(), AllocError>
    ensures { OnOk result (log.new.items ≡ log.old.items ++ flat_map field numbers.now) }
{
    for number in numbers {
        log.extend_from_slice(&number.to_be_bytes())?;
    }
    Ok(())
}

/// How many bytes the record of a change takes.
fn record_len(change: &Change) -> usize {
    match change {
        Change::Put { bytes, .. } => bytes.as_slice().len().saturating_add(16),
        Change::Cut { .. } => 12,
    }
}

/// How many bytes the log of these changes takes: what is reserved for it at once.
pub fn log_len(changes: &[Change]) -> usize {
    let mut len: usize = 16;
    for change in changes {
        len = len.saturating_add(record_len(change));
    }
    len
}

/// Writes the record of a change at the end.
pub fn push_change(log: &mut Vec<u8>, change: &Change) -> Result<(), AllocError>
    requires { IsWithinImage change.now }
    ensures { OnOk result (log.new.items ≡ log.old.items ++ change_record change.now) }
{
    match change {
        Change::Put { at, bytes } => {
            let bytes = bytes.as_slice();
            let len = bytes.len() as u32;
            push_fields(log, &[LOGDATA, FILE, *at, len])?;
            log.extend_from_slice(bytes)
        }
        Change::Cut { len } => push_fields(log, &[LOGTRUNCATE, FILE, *len]),
    }
}

/// Writes the record at the end of a log.
pub fn push_end(log: &mut Vec<u8>, version: Version) -> Result<(), AllocError>
    ensures { OnOk result (log.new.items ≡ log.old.items ++ end_record version) }
{
    push_fields(log, &[LOGEND, version.epoch, version.counter])
}
