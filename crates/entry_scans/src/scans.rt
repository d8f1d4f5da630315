//! What is looked for among the entries.
ghost use Rattle.std.specs.Prelude.{◌≡◌, Bool};
ghost use Rattle.prdb_layout.specs.State.{PrEntry};
ghost use Rattle.entry_scans.specs.Sought.{is_sought};
ghost use Rattle.entry_scans.specs.Views.{viewed};

use crate::views::{EntryView, entry_in, kind_of};
use db_blocks::Block;
use prdb_layout::ENTRY;

/// The greatest first word of a block, which a continuation of an entry's pairs has.
pub const MORE: u32 = 2;

/// What is looked for among the entries.
pub trait Sought {
    /// Whether an entry is it.
    ghost test: { Self → PrEntry → Bool };

    fn is_met(&self, e: EntryView<'_>) -> bool
        ensures { result ≡ test self.now (viewed e.entry) };
}

/// Whether a block is that of an entry which is looked for.
pub fn is_sought<S: Sought>(sought: &S, block: &Block) -> bool
    ensures { result ≡ is_sought (S.test sought.now) block.now }
{
    kind_of(block) == ENTRY && sought.is_met(entry_in(block))
}
