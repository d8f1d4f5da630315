//! Calls on a table of locks.
use crate::words::{number_text, word_text};
use lock_table::LockTable;
use session_rows::{Fault, number_in};
use std::alloc::Global;

/// A range, whether it is written, and who wants it: `START LEN read WHO`, or `write`.
fn wanted([start, len, access, who]: [&str; 4]) -> Result<(u32, u32, bool, u32), Fault> {
    let write = match access {
        "read" => false,
        "write" => true,
        _ => return Err(Fault::Form),
    };
    Ok((number_in(start)?, number_in(len)?, write, number_in(who)?))
}

/// Makes a call.
pub fn call_table(alloc: Global, table: &mut LockTable, words: &[&str]) -> Result<String, Fault> {
    match words {
        ["test", start, len, access, who] => test_text(alloc, table, [start, len, access, who]),
        ["wait", who, holder] => match table.wait(number_in(who)?, number_in(holder)?) {
            Ok(()) => word_text(alloc, "done"),
            Err(full) => Ok(format!(in alloc; "full {}", full.holder)?),
        },
        ["next"] => number_text(alloc, table.next()),
        ["waiting"] => Ok(format!(in alloc; "{}", table.waiting())?),
        _ => word_text(alloc, change(table, words)?),
    }
}

/// Which held range keeps a range from being taken.
fn test_text(alloc: Global, table: &LockTable, range: [&str; 4]) -> Result<String, Fault> {
    let (start, len, write, who) = wanted(range)?;
    match table.test(start, len, write, who) {
        Some(held) => {
            let (holder, start, len) = (held.holder, held.start, held.len);
            Ok(format!(in alloc; "{holder} {start} {len}")?)
        }
        None => word_text(alloc, "none"),
    }
}

/// Takes a range that nobody keeps from being taken, or frees those of an id.
fn change(table: &mut LockTable, words: &[&str]) -> Result<&'static str, Fault> {
    match words {
        ["take", start, len, access, who] => {
            let (start, len, write, who) = wanted([start, len, access, who])?;
            if u64::from(start) + u64::from(len) > u64::from(u32::MAX) {
                return Err(Fault::Form);
            }
            if table.test(start, len, write, who).is_some() {
                return Ok("held");
            }
            table.take(start, len, write, who)?;
        }
        ["release", who] => table.release(number_in(who)?),
        _ => return Err(Fault::Form),
    }
    Ok("done")
}
