//! What lies under the lock.
ghost use Rattle.std.specs.Prelude.{◌≡◌, ◌+◌, ◌++◌, ◌<◌, ◌^◌, ℕ, [], length, max, true, IfOk, IfErr};
ghost use Rattle.ubik_calls.specs.declared.frames.Frame.TheVariants as frames;
ghost use Rattle.ubik_calls.specs.WireGrammar.{HasSpelling};
ghost use Rattle.ubik_types.specs.Moment.{IsMoment};
ghost use Rattle.server_station.specs.Fit.{IsFit, IsNext, is_taken};
ghost use Rattle.server_station.specs.Replaying.{IsJustOpened};

use crate::askers::Askers;
use crate::pasts::Past;
use crate::recorded::{Recorded, StationEnd};
use db_image::DraftService;
use disk_base::{Disk, Refused};
use server_journal::{Keeper, Opening, Seat, Shares};
use std::alloc::Global;
use std::sync::ledger::Blank;
use ubik_node::{DebugIs, Node, NodeEvent, Outputs};
use ubik_types::NoMemory;

/// A server that all workers share: its node, the journal of the node's steps, and the clients that wait for a reply.
pub struct Station<D: Disk, V: DraftService, L: Opening, J: Keeper> {
    pub(crate) alloc: Global,
    pub(crate) recorded: Recorded<D, V, L, J>,
    pub(crate) askers: Askers,
    /// What a turn's step puts out, until that is sent.
    pub(crate) outputs: Outputs,
    ghost sent: { outputs ≡ [] },
}

impl<D: Disk + Drop, V: DraftService, L: Opening, J: Keeper> Drop for Station<D, V, L, J> {
    fn drop(self) {
        let Self {
            alloc: _,
            recorded: _,
            askers: _,
            outputs: _,
        } = self;
    }
}

impl<D: Disk, V: DraftService, L: Opening, J: Keeper> Station<D, V, L, J> {
    ghost use Rattle.cell_model.specs.Node.{halted_from};
    ghost use Rattle.ubik_node.specs.Debug.{debug_of};
    ghost use Rattle.ubik_node.specs.Node.{own_member, up_server};
    ghost use Rattle.server_journal.specs.Counts.{asks_of};
    ghost use Rattle.server_station.specs.Recording.{Records};

    /// Makes a station of a node that was just opened, and of an empty journal. The blank is one of std's ledger, of seven parts. It is
    /// refused only for want of memory, and then hands the node back.
    pub fn make(
        alloc: Global,
        node: Node<D, V>,
        journal: J,
        blank: Blank,
    ) -> Result<Station<D, V, L, J>, Refused<Node<D, V>, NoMemory>>
        requires name { blank.name ≡ L.name }
        requires parts { (blank.parts ≡ L.parts) × (L.all ≡ L.parts) × (L.all ≡ 7) }
        requires empty { J.items journal ≡ [] }
        requires moment { IsMoment node.last }
        requires opened { IsJustOpened node }
        ensures node { IfOk result (λ station. station.recorded.node ≡ node) }
        ensures journal { IfOk result (λ station. station.recorded.journal ≡ journal) }
        ensures askers { IfOk result (λ station. station.askers ≡ []) }
        ensures lent { IfOk result (λ station. station.recorded.shares.lent ≡ 0) }
        ensures opened { IfOk result (λ station. station.recorded.past.opened.value ≡ node) }
        ensures outputs { IfOk result (λ station. station.recorded.past.outputs.value ≡ []) }
        ensures refused { IfErr result (λ refused. refused.disk ≡ node) }
    {
        let (outputs, askers) = match (Outputs::make(alloc), Askers::make(alloc)) {
            (Ok(outputs), Ok(askers)) => (outputs, askers),
            _ => {
                return Err(Refused {
                    disk: node,
                    why: NoMemory,
                });
            }
        };
        let past = Past::of(&node);
        Ok(Station {
            alloc,
            recorded: Recorded {
                node,
                journal,
                shares: Shares::open(blank),
                past,
            },
            askers,
            outputs,
        })
    }

    /// Lends a seat, from which steps can be made. At most six are out.
    pub fn share(&mut self) -> Seat<L>
        requires { (self.old.recorded.shares.lent < 6) × (L.all ≡ 7) }
        ensures lent { self.new.recorded.shares.lent ≡ self.old.recorded.shares.lent + 1 }
        ensures amount { result.share.amount ≡ 0 }
        ensures node { self.new.recorded.node ≡ self.old.recorded.node }
        ensures journal { self.new.recorded.journal ≡ self.old.recorded.journal }
        ensures askers { self.new.askers ≡ self.old.askers }
        ensures past { self.new.recorded.past ≡ self.old.recorded.past }
    {
        let Recorded { shares, .. } = &mut self.recorded;
        shares.lend()
    }

    /// Takes a seat back.
    pub fn merge(&mut self, seat: Seat<L>)
        requires { L.all ≡ L.parts }
        ensures lent { self.new.recorded.shares.lent + 1 ≡ self.old.recorded.shares.lent }
        ensures node { self.new.recorded.node ≡ self.old.recorded.node }
        ensures journal { self.new.recorded.journal ≡ self.old.recorded.journal }
        ensures askers { self.new.askers ≡ self.old.askers }
        ensures past { self.new.recorded.past ≡ self.old.recorded.past }
    {
        let Recorded { shares, .. } = &mut self.recorded;
        shares.take_back(seat);
    }

    /// How many seats are out.
    pub fn lent(&self) -> u32
        ensures { result ≡ self.now.recorded.shares.lent }
    {
        self.recorded.shares.lent()
    }

    /// How many items the journal has.
    pub fn entries(&self) -> u64
        ensures { result ≡ length (J.items self.now.recorded.journal) }
    {
        self.recorded.journal.counts().entries
    }

    /// What the server tells of itself, at `now` or at the moment of its last step, whichever is later, in seconds.
    pub fn debug(&self, now: u32) -> DebugIs
        requires { IsMoment now }
        ensures told { result ≡ debug_of (own_member self.now.recorded.node) (halted_from (up_server self.now.recorded.node)) (max self.now.recorded.node.last now) }
        ensures spelled { (number : ℕ) → number < 2 ^ 32 → HasSpelling (frames.DebugIs number result) }
    {
        let now = self.recorded.moment(now);
        self.recorded.node.debug(now)
    }

    /// Makes a step of the node, at `now` or at the moment of its last step, whichever is later, in seconds; its item is then the journal's
    /// last. A call has the next id. Where it does not end with Done or Halted nothing is made, and nothing put out.
    pub fn step(
        &mut self,
        seat: &mut Seat<L>,
        now: u32,
        event: NodeEvent,
        out: &mut Outputs,
    ) -> StationEnd
        requires all { L.all ≡ L.parts }
        requires moment { IsMoment now }
        requires fit { IsFit event }
        requires next { IsNext (asks_of (J.items self.old.recorded.journal)) event }
        requires taken { is_taken (own_member self.old.recorded.node) event ≡ true }
        requires empty { out.old ≡ [] }
        ensures records { Records D.Disk V.standing (J.limits self.old.recorded.journal) result event (max self.old.recorded.node.last now)
            self.old.recorded.node self.new.recorded.node (J.items self.old.recorded.journal) (J.items self.new.recorded.journal) out.new }
        ensures limits { J.limits self.new.recorded.journal ≡ J.limits self.old.recorded.journal }
        ensures share { seat.new.share.amount + length (J.items self.old.recorded.journal) ≡ seat.old.share.amount + length (J.items self.new.recorded.journal) }
        ensures lent { self.new.recorded.shares.lent ≡ self.old.recorded.shares.lent }
        ensures askers { self.new.askers ≡ self.old.askers }
        ensures opened { self.new.recorded.past.opened.value ≡ self.old.recorded.past.opened.value }
        ensures outputs { self.new.recorded.past.outputs.value ≡ self.old.recorded.past.outputs.value ++ out.new }
    {
        let now = self.recorded.moment(now);
        self.recorded.step(seat, now, event, out)
    }

    /// Ends the server, and gives out its disk and its journal.
    pub fn close(self) -> (D, J)
        ensures disk { result.0 ≡ self.recorded.node.store.disk }
        ensures journal { result.1 ≡ self.recorded.journal }
    {
        let Self {
            alloc: _,
            recorded,
            askers: _,
            outputs: _,
        } = self;
        recorded.close()
    }
}
