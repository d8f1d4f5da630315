//! The lock table.
ghost use Rattle.std.specs.Prelude.{◌≡◌, ◌+◌, ◌^◌, ◌<◌, ◌≤◌, ◌↔◌, None, length, slice_get, option_map, IsOk, IfOk, IfErr, OnOk, OnErr};
ghost use Rattle.lock_table.specs.Ranges.{held_range, conflict_of};
ghost use Rattle.lock_table.specs.Table.{IsLockTable, empty_table, first_conflict, others, with_range, without_holder, with_waiting, without_first};

use crate::ranges::{HeldRange, LockConflict};
use circular_buffer::HeapCircularBuffer;
use std::alloc::Global;
use std::marker::Model;
use thiserror::Error;
use ubik_types::NoMemory;

/// How many ids may wait at once (own).
pub const MAX_WAITING: usize = 64;

/// The line has no place left.
#[derive(Clone, Copy, Debug, PartialEq, Eq, Error)]
#[error("the line behind {holder} is full")]
pub struct LineFull {
    /// The id that the one refused would have waited for.
    pub holder: u32,
}

/// The ranges that ids hold, in the order in which they were taken, and the ids that wait, the first to be
/// served first.
#[derive(Drop)]
pub struct LockTable {
    held: Vec<HeldRange>,
    line: HeapCircularBuffer<u32>,
}

impl Model for LockTable {
    ghost use Rattle.lock_table.specs.Table.{Table};

    ghost Value = { Table };

    ghost use Rattle.lock_table.specs.View.{table_of, IsInOrder};

    ghost view = { table_of };

    ghost invariant = { IsInOrder };
}

impl LockTable {
    /// A table in which nothing is held and nobody waits. It has the room of the whole line.
    pub fn make(alloc: Global) -> Result<LockTable, NoMemory>
        ensures { IfOk result (λ table. table ≡ empty_table) }
    {
        let line = HeapCircularBuffer::with_capacity(alloc, MAX_WAITING)?;
        Ok(LockTable {
            held: Vec::new(alloc),
            line,
        })
    }

    /// The first held range that keeps `who` from taking this one; none where it may be taken.
    pub fn test(&self, start: u32, len: u32, write: bool, who: u32) -> Option<LockConflict>
        ensures first { result ≡ option_map conflict_of (first_conflict self.now (held_range start len write who)) }
        ensures table { IsLockTable self.now }
    {
        let wanted = HeldRange {
            holder: who,
            start,
            len,
            write,
        };
        self.held
            .iter()
            .find(|held| held.conflicts_with(&wanted))
            .map(|held| held.conflict())
    }

    /// Takes a range that nothing keeps `who` from taking. Where memory runs out the table is as before.
    pub fn take(&mut self, start: u32, len: u32, write: bool, who: u32) -> Result<(), NoMemory>
        requires free { first_conflict self.old (held_range start len write who) ≡ None }
        requires fits { start + len < 2 ^ 32 }
        ensures ok { OnOk result (self.new ≡ with_range self.old (held_range start len write who)) }
        ensures err { OnErr result (self.new ≡ self.old) }
    {
        self.held.push(HeldRange {
            holder: who,
            start,
            len,
            write,
        })?;
        Ok(())
    }

    /// Frees each range that `who` holds.
    pub fn release(&mut self, who: u32)
        ensures { self.new ≡ without_holder self.old who }
    {
        keep_others(&mut self.held, who);
    }

    /// Puts `who` at the end of the line behind `holder`. A full line refuses, and the table is as before.
    pub fn wait(&mut self, who: u32, holder: u32) -> Result<(), LineFull>
        ensures room { IsOk result ↔ (length self.old.line < MAX_WAITING) }
        ensures ok { OnOk result (self.new ≡ with_waiting self.old who) }
        ensures full { OnErr result (length self.old.line ≡ MAX_WAITING) }
        ensures holder { IfErr result (λ full. full.holder ≡ holder) }
        ensures err { OnErr result (self.new ≡ self.old) }
    {
        self.line
            .try_push_back(who)
            .map_err(|_| LineFull { holder })
    }

    /// Takes the first id out of the line; none where nobody waits.
    pub fn next(&mut self) -> Option<u32>
        ensures value { result ≡ slice_get self.old.line 0 }
        ensures after { self.new ≡ without_first self.old }
    {
        self.line.pop_front()
    }

    /// How many ids wait.
    pub fn waiting(&self) -> usize
        ensures len { result ≡ length self.now.line }
        ensures not_more { result ≤ MAX_WAITING }
    {
        self.line.len()
    }
}

/// Leaves the ranges that other ids hold.
fn keep_others(held: &mut Vec<HeldRange>, who: u32)
    ensures { held.new.items ≡ others held.old.items who }
{
    held.retain(|range| range.holder != who);
}
