//! A station as the bench of a crew.
ghost use Rattle.std.specs.Prelude.{◌≡◌, ◌+◌, ◌<◌, ◌≤◌, length, max, slice_index, true, []};
ghost use Rattle.std.proofs.Props.{props};
ghost use Rattle.ubik_types.specs.Moment.{IsMoment};
ghost use Rattle.node_server.specs.Moments.{AreTimed, moments_of};
ghost use Rattle.node_server.specs.Replays.{IsOpenedAs};

use db_image::DraftService;
use disk_base::Disk;
use server_crew::{Bench, Seats};
use server_rounds::{Sendings, Turn, TurnEnd};
use server_station::{Keeper, Opening, Seat, Station};
use std::marker::{Brand, PhantomData};

/// A server that was opened, named by the call that runs it.
pub(crate) trait Running: Opening {
    ghost use Rattle.std.specs.Prelude.{ℕ, Bool};
    ghost use Rattle.cell_model.specs.Node as model;
    ghost use Rattle.cell_model.specs.Step.{Member};
    ghost use Rattle.server_journal.specs.declared.counts.Limits.{Limits};

    /// How much its journal keeps at most.
    ghost limits: { Limits };

    /// How often its disk had failed before.
    ghost failed_before: { ℕ };

    /// The moment of its opening.
    ghost opened: { ℕ };

    /// Its clock gave this moment.
    ghost gave: { ℕ → Type 0 };

    /// The server as it was opened.
    ghost server: { model.Node };

    /// Its cell, and its place there.
    ghost member: { Member };

    /// Whether its disk told its files then.
    ghost tells: { Bool };
}

/// `Brand` names an opening only once a call takes it for its own: these are placeholders, which every caller of `serve_as` replaces by what it opened.
impl Running for Brand {
    ghost use Rattle.std.specs.Prelude.{false, []};
    ghost use Rattle.cell_model.specs.Node as model;

    ghost limits = { record { entries = 0; bytes = 0 } };

    ghost failed_before = { 0 };

    ghost opened = { 0 };

    ghost gave = { λ moment. Unit {0} };

    ghost server = { model.Down };

    ghost member = { record { hosts = []; me = 0 } };

    ghost tells = { false };
}

/// Shows that the ledger of an opening has as many parts as the opening says.
pub(crate) struct Whole<L: Opening> {
    of: PhantomData<L>,
    ghost whole: { L.all ≡ L.parts },
}

impl<L: Opening> Whole<L> {
    pub(crate) fn new() -> Whole<L>
        requires { L.all ≡ L.parts }
    {
        Whole { of: PhantomData }
    }
}

impl<L: Opening> Drop for Whole<L> {
    fn drop(self) {
        let Self { of: _ } = self;
    }
}

/// A station whose seats are lent to the workers of a crew. What it began with is named by its opening.
pub(crate) struct StationBench<D: Disk, V: DraftService, L: Running, J: Keeper> {
    pub(crate) station: Station<D, V, L, J>,
    pub(crate) whole: Whole<L>,
    ghost limits: { J.limits station.recorded.journal ≡ L.limits },
    ghost failed: { L.failed_before ≤ D.faults station.recorded.node.store.disk },
    ghost halted: { station.recorded.node.store.failed ≡ true → L.failed_before < D.faults station.recorded.node.store.disk },
    ghost timed: { AreTimed L.gave (moments_of L.opened (J.items station.recorded.journal)) } by { Prim.hlevel props },
    ghost opened: { ∥ IsOpenedAs D.Disk station.recorded.past.opened.value L.server L.member L.tells ∥₁ },
    ghost last: { slice_index (moments_of L.opened (J.items station.recorded.journal)) (length (J.items station.recorded.journal)) ≡ station.recorded.node.last },
}

impl<D: Disk + Send, V: DraftService + Send, L: Running + Send, J: Keeper + Send> Bench
    for StationBench<D, V, L, J> {
    ghost use Rattle.ubik_node.specs.Node.{own_member};
    ghost use Rattle.server_rounds.specs.declared.turns.TurnEnd.{TurnEnd as End};
    ghost use Rattle.server_rounds.specs.Clock.{IsOfClock};
    ghost use Rattle.server_journal.specs.Counts.{asks_of};
    ghost use Rattle.server_station.specs.Turns.{Turned, act_of, seen};
    ghost use Rattle.node_server.specs.Causes.{is_seen};

    ghost caused = { λ b. is_seen L.limits (J.items b.station.recorded.journal) L.failed_before (D.faults b.station.recorded.node.store.disk) };

    ghost gave = { L.gave };

    type Seat = Seat<L>;

    // (all that a turn of the station does, beside what a crew asks of a bench)
    fn turn(&mut self, seat: &mut Seat<L>, now: u32, turn: Turn, out: &mut Sendings) -> TurnEnd
        requires moment { IsMoment now }
        requires clocked { IsOfClock L.gave now }
        requires empty { out.old ≡ [] }
        ensures caused { is_seen L.limits (J.items self.new.station.recorded.journal) L.failed_before (D.faults self.new.station.recorded.node.store.disk) result ≡ true }
        ensures stays { (end : End) → is_seen L.limits (J.items self.old.station.recorded.journal) L.failed_before (D.faults self.old.station.recorded.node.store.disk) end ≡ true
            → is_seen L.limits (J.items self.new.station.recorded.journal) L.failed_before (D.faults self.new.station.recorded.node.store.disk) end ≡ true }
        ensures turned { Turned D.Disk V.standing (J.limits self.old.station.recorded.journal)
            (act_of (own_member self.old.station.recorded.node) (asks_of (J.items self.old.station.recorded.journal)) turn) (max self.old.station.recorded.node.last now)
            (seen self.old.station.recorded.node (J.items self.old.station.recorded.journal) self.old.station.askers self.old.station.recorded.past.outputs.value)
            (seen self.new.station.recorded.node (J.items self.new.station.recorded.journal) self.new.station.askers self.new.station.recorded.past.outputs.value) out.new result }
        ensures share { seat.new.share.amount + length (J.items self.old.station.recorded.journal)
            ≡ seat.old.share.amount + length (J.items self.new.station.recorded.journal) }
        ensures lent { self.new.station.recorded.shares.lent ≡ self.old.station.recorded.shares.lent }
    {
        // Read, so that what its type says of the ledger's parts is at hand.
        let _ = &self.whole.of;
        let StationBench { station, .. } = self;
        station.turn(seat, now, turn, out)
    }

    // (the seat is the station's again, and nothing else changes)
    fn take_back(&mut self, seat: Seat<L>)
        ensures stays { (end : End) → is_seen L.limits (J.items self.old.station.recorded.journal) L.failed_before (D.faults self.old.station.recorded.node.store.disk) end ≡ true
            → is_seen L.limits (J.items self.new.station.recorded.journal) L.failed_before (D.faults self.new.station.recorded.node.store.disk) end ≡ true }
        ensures lent { self.new.station.recorded.shares.lent + 1 ≡ self.old.station.recorded.shares.lent }
        ensures node { self.new.station.recorded.node ≡ self.old.station.recorded.node }
        ensures journal { self.new.station.recorded.journal ≡ self.old.station.recorded.journal }
        ensures askers { self.new.station.askers ≡ self.old.station.askers }
        ensures past { self.new.station.recorded.past ≡ self.old.station.recorded.past }
    {
        // As in `turn`.
        let _ = &self.whole.of;
        let StationBench { station, .. } = self;
        station.merge(seat);
    }
}

/// Lends a seat to each worker of a crew.
pub(crate) fn lend<D: Disk, V: DraftService, L: Opening, J: Keeper>(
    station: &mut Station<D, V, L, J>,
) -> Seats<Seat<L>>
    requires lent { station.old.recorded.shares.lent ≡ 0 }
    requires all { L.all ≡ 7 }
    ensures node { station.new.recorded.node ≡ station.old.recorded.node }
    ensures journal { station.new.recorded.journal ≡ station.old.recorded.journal }
    ensures past { station.new.recorded.past ≡ station.old.recorded.past }
{
    Seats {
        beacons: station.share(),
        recovery: station.share(),
        first: station.share(),
        second: station.share(),
        third: station.share(),
        fourth: station.share(),
    }
}
