//! What holds the journal of a station.
ghost use Rattle.std.specs.Prelude.{◌≡◌, ◌∷◌, ◌++◌, [], OnOk, IfErr, false};
ghost use Rattle.server_journal.specs.Counts.{IsCause, counts_of, is_past, with_event};
ghost use Rattle.server_journal.specs.Weight.{IsLight};

use crate::{Counts, Full, JournalItem};
use cell_model::NodeEvent;

/// Keeps items, in their order and within limits, in memory or for contracts alone.
pub trait Keeper: Drop {
    ghost use Rattle.std.specs.Prelude.{List};
    ghost use Rattle.server_journal.specs.declared.items.JournalItem.{JournalItem};
    ghost use Rattle.server_journal.specs.declared.counts.Limits.{Limits};

    /// What is kept, first to last.
    ghost items: { Self → List JournalItem };

    /// How much it keeps at most.
    ghost limits: { Self → Limits };

    /// There is room for one item more.
    ghost has_room: { Self → Type 0 };

    /// How much it has.
    fn counts(&self) -> Counts
        ensures { result ≡ counts_of (items self.now) };

    /// Makes room for an item with this event, so that the item is sure to be kept before anything is done. It is full exactly where that
    /// item would go past a limit.
    fn admit(&mut self, event: &NodeEvent) -> Result<(), Full>
        requires { IsLight event.now }
        ensures items { items self.new ≡ items self.old }
        ensures limits { limits self.new ≡ limits self.old }
        ensures room { OnOk result (has_room self.new) }
        ensures within { OnOk result (is_past (limits self.old) (with_event (counts_of (items self.old)) event.now) ≡ false) }
        ensures full { IfErr result (IsCause (limits self.old) (counts_of (items self.old)) event.now) };

    /// Keeps an item that was admitted.
    fn keep(&mut self, item: JournalItem)
        requires room { has_room self.old }
        requires light { IsLight item.event }
        requires within { is_past (limits self.old) (with_event (counts_of (items self.old)) item.event) ≡ false }
        ensures items { items self.new ≡ items self.old ++ item ∷ [] }
        ensures limits { limits self.new ≡ limits self.old };
}
