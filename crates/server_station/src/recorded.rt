//! A server whose steps are recorded.
ghost use Rattle.std.specs.Prelude.{◌≡◌, ◌+◌, ◌++◌, ◌<◌, ◌≤◌, ◌^◌, [], length, max, true};
ghost use Rattle.ubik_types.specs.Moment.{IsMoment};
ghost use Rattle.server_journal.specs.Counts.{asks_of};
ghost use Rattle.ubik_node.specs.Node.{own_member};
ghost use Rattle.server_station.specs.Fit.{IsFit, IsNext, are_numbered, are_taken, is_taken};
ghost use Rattle.server_station.specs.Recording.{refused_by};
ghost use Rattle.server_station.specs.Replaying.{IsJustOpened, Replays};

use crate::pasts::Past;
use crate::shorts::shorts_in;
use db_image::DraftService;
use disk_base::Disk;
use server_journal::{Full, JournalItem, Keeper, Opening, Seat, Shares};
use std::sync::ledger::Blank;
use ubik_node::{Node, NodeEvent, Outputs, StepEnd};

/// How a step of a station ended.
#[derive(Clone, Copy, Debug, PartialEq, Eq)]
pub enum StationEnd {
    /// The step was made.
    Done,
    /// The server's disk failed, now or before; of a call the step put out a fault of the disk.
    Halted,
    /// The journal has no room for the step, which was not made. It would then have so many entries, and so many bytes.
    JournalFull { entries: u64, bytes: u64 },
    /// Memory ran out, and the step was not made.
    NoMemory,
}

/// How a step ends that its journal does not take.
fn refused(full: Full) -> StationEnd
    ensures { result ≡ refused_by full }
{
    match full {
        Full::Limit { entries, bytes } => StationEnd::JournalFull { entries, bytes },
        Full::NoMemory => StationEnd::NoMemory,
    }
}

/// A node with the journal of its steps, of which it is the replay, and which are counted over those who made them.
pub(crate) struct Recorded<D: Disk, V: DraftService, L: Opening, J: Keeper> {
    pub(crate) node: Node<D, V>,
    pub(crate) journal: J,
    pub(crate) shares: Shares<L>,
    pub(crate) past: Past<D, V>,
    ghost begun: { 0 < node.last },
    ghost moment: { node.last < 2 ^ 31 },
    ghost counted: { shares.total.total ≡ length (J.items journal) },
    ghost numbered: { are_numbered 0 (J.items journal) ≡ true },
    ghost taken: { are_taken (own_member node) (J.items journal) ≡ true },
    ghost opened: { IsJustOpened past.opened.value },
    ghost member: { own_member node ≡ own_member past.opened.value },
    ghost replays: { Replays D.Disk V.standing past.opened.value node (J.items journal) past.outputs.value },
}

// Derived, it would be spelled out for each field wherever a caller lets one go.
impl<D: Disk + Drop, V: DraftService, L: Opening, J: Keeper> Drop for Recorded<D, V, L, J> {
    fn drop(self) {
        let Self {
            node: _,
            journal: _,
            shares: _,
            past: _,
        } = self;
    }
}

impl<D: Disk, V: DraftService, L: Opening, J: Keeper> Recorded<D, V, L, J> {
    ghost use Rattle.server_station.specs.Recording.{Records};

    /// The moment of a step that is to be made at `now`: time does not go back.
    pub(crate) fn moment(&self, now: u32) -> u32
        requires { IsMoment now }
        ensures later { result ≡ max self.now.node.last now }
        ensures moment { IsMoment result }
    {
        let last = self.node.last();
        last.max(now)
    }

    /// Makes a step at a moment, and then keeps its item. Where that does not end with Done or Halted nothing is made, and nothing put out.
    #[tactic(auto, using(crate::proofs::Building::fit_built, crate::proofs::Fitting::fit_light, crate::proofs::Recording::cleared))]
    pub(crate) fn step(
        &mut self,
        seat: &mut Seat<L>,
        now: u32,
        event: NodeEvent,
        out: &mut Outputs,
    ) -> StationEnd
        requires all { L.all ≡ L.parts }
        requires moment { IsMoment now }
        requires order { self.old.node.last ≤ now }
        requires fit { IsFit event }
        requires next { asks_of (J.items self.old.journal) + 1 < 2 ^ 32 → IsNext (asks_of (J.items self.old.journal)) event }
        requires taken { is_taken (own_member self.old.node) event ≡ true }
        requires empty { out.old ≡ [] }
        ensures records { Records D.Disk V.standing (J.limits self.old.journal) result event now self.old.node self.new.node
            (J.items self.old.journal) (J.items self.new.journal) out.new }
        ensures limits { J.limits self.new.journal ≡ J.limits self.old.journal }
        ensures share { seat.new.share.amount + length (J.items self.old.journal) ≡ seat.old.share.amount + length (J.items self.new.journal) }
        ensures lent { self.new.shares.lent ≡ self.old.shares.lent }
        ensures opened { self.new.past.opened.value ≡ self.old.past.opened.value }
        ensures outputs { self.new.past.outputs.value ≡ self.old.past.outputs.value ++ out.new }
    {
        let Recorded {
            node,
            journal,
            shares,
            past,
        } = self;
        if let Err(full) = journal.admit(&event) {
            return refused(full);
        }
        let end = node.step_on(now, &event, out);
        let made = match end {
            StepEnd::Done => StationEnd::Done,
            StepEnd::Halted => StationEnd::Halted,
            StepEnd::NoMemory => {
                out.clear();
                return StationEnd::NoMemory;
            }
        };
        let short = shorts_in(out);
        let halted = node.halted();
        past.add(out);
        journal.keep(JournalItem {
            now,
            event,
            short,
            halted,
        });
        shares.count(seat);
        made
    }

    /// Takes the node down, and gives its disk and its journal out.
    pub(crate) fn close(self) -> (D, J)
        ensures disk { result.0 ≡ self.node.store.disk }
        ensures journal { result.1 ≡ self.journal }
    {
        let Self {
            node,
            journal,
            shares: _,
            past: _,
        } = self;
        (node.close(), journal)
    }
}
