//! Ranges of places, and which of them may not be held at once.
ghost use Rattle.std.specs.Prelude.{◌≡◌, ◌+◌, ◌↔◌, IsTrue};
ghost use Rattle.lock_table.specs.declared.ranges.HeldRange.{HeldRange};
ghost use Rattle.lock_table.specs.Ranges.{range_end, overlaps, conflicts, conflict_of, Conflicts};

use thiserror::Error;

/// The places from `start` on, `len` of them, which an id holds for reading or for writing.
#[derive(Clone, Copy, Debug, PartialEq, Eq)]
pub struct HeldRange {
    pub holder: u32,
    pub start: u32,
    pub len: u32,
    pub write: bool,
}

/// A range that stands in the way, and the id that holds it.
#[derive(Clone, Copy, Debug, PartialEq, Eq, Error)]
#[error("{holder} holds {len} places from {start} on")]
pub struct LockConflict {
    pub holder: u32,
    pub start: u32,
    pub len: u32,
}

impl HeldRange {
    /// The first place after the range.
    fn end(&self) -> u64
        ensures { result ≡ range_end self.now }
    {
        u64::from(self.start) + u64::from(self.len)
    }

    /// Whether some place is in both ranges.
    fn overlaps(&self, other: &HeldRange) -> bool
        ensures { result ≡ overlaps self.now other.now }
    {
        u64::from(self.start.max(other.start)) < self.end().min(other.end())
    }

    /// Whether the two may not be held at once.
    pub(crate) fn conflicts_with(&self, other: &HeldRange) -> bool
        ensures { result ≡ conflicts self.now other.now }
    {
        self.holder != other.holder && (self.write || other.write) && self.overlaps(other)
    }

    /// What is told to another id that wants the range.
    pub(crate) fn conflict(&self) -> LockConflict
        ensures { result ≡ conflict_of self.now }
    {
        LockConflict {
            holder: self.holder,
            start: self.start,
            len: self.len,
        }
    }
}

/// Two ranges conflict exactly where two ids hold them, some place is in both, and one of the two is held
/// for writing.
pub fn conflicts_share_a_place()
    ensures { (a b : HeldRange) → IsTrue (conflicts a b) ↔ Conflicts a b }
{}
