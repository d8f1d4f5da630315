//! Lapse: how each step of a server that is not halted begins. What it drops is given out, and comes back where the step is not made.
ghost use Rattle.std.specs.Prelude.{◌≡◌, ◌≤◌, ◌+◌, ◌++◌, [], length, None, IfSome, IsSome};
ghost use Rattle.ubik_types.specs.Phase.{NoPhase};
ghost use Rattle.cell_model.specs.Lapse.{lapsed, without_writes, writes_refused};
ghost use Rattle.cell_model.specs.Node.{halted_from};
ghost use Rattle.cell_model.specs.Step.{outputs_of, sends_to_all, with_phase};
ghost use Rattle.ubik_recovery.specs.Record.{given_out};
ghost use Rattle.server_state.specs.Recovering.{IsOfCell, IsServing};
ghost use Rattle.server_state.specs.Writing.{is_late, own_of, waiting_of};

use crate::outputs::Outputs;
use crate::state::State;
use cell_model::Output;
use site_writes::SiteWrites;
use ubik_calls::Body;
use ubik_recovery::Recovery;
use ubik_types::{Applied, Phase, SMALLTIME};

/// What a lapse drops: the recovery of the server with its phase, and its own writes.
#[derive(Drop)]
pub struct Dropped {
    pub recovery: Recovery,
    pub writes: Option<SiteWrites>,
    ghost serving: { IsSome (own_of writes) → IsServing recovery },
    ghost line: { ¬ IsServing recovery → waiting_of writes ≡ [] },
}

impl State {
    ghost use Rattle.server_state.specs.Lapsing.{IsDroppedOf, returned};
    ghost use Rattle.server_state.specs.State.{server_of, member_of, Keeps, ShowsBehind};

    /// Lapse: where the lease is over no phase is held, and a write that is in flight for more than 60 seconds is given up. Those whose
    /// writes were dropped are told so. What was held is given out.
    pub fn lapse(&mut self, now: u32, out: &mut Outputs) -> Option<Dropped>
        requires empty { out.old ≡ [] }
        ensures shows { ShowsBehind (lapsed (member_of self.old) (server_of self.old) now) (server_of self.new) out.old out.new }
        ensures kept { Keeps self.old self.new }
        ensures given { IfSome result (IsDroppedOf (length self.new.cell) self.new.image) }
        ensures back { server_of self.old ≡ returned result self.new }
        ensures few { length out.new ≤ 100 }
    {
        if !self.votes.in_lease(now) {
            self.refuse_writes(now, Phase::None, out);
            return Some(self.give_out());
        }
        if !self.write_is_late(now) {
            return None;
        }
        self.refuse_writes(now, Phase::Poll, out);
        self.send_aborts(out);
        let dropped = self.give_out();
        self.begin_poll(now);
        Some(dropped)
    }

    /// What a lapse gave out comes back, where the step is not made.
    pub fn restore(&mut self, given: Option<Dropped>)
        requires given { IfSome given (IsDroppedOf (length self.old.cell) self.old.image) }
        ensures back { server_of self.new ≡ returned given self.old }
        ensures kept { Keeps self.old self.new }
    {
        if let Some(dropped) = given {
            self.recovery.restore(dropped.recovery);
            self.writes = dropped.writes;
        }
    }

    /// The phase that a lapse gave out comes back, where the disk has failed. A halted server has no use for writes.
    pub fn restore_phase(&mut self, given: Option<Dropped>)
        requires given { IfSome given (λ dropped. IsOfCell (length self.old.cell) dropped.recovery) }
        ensures back { halted_from (server_of self.new) ≡ halted_from (returned given self.old) }
        ensures kept { Keeps self.old self.new }
    {
        self.writes = None;
        if let Some(dropped) = given {
            self.recovery.restore(dropped.recovery);
        }
    }

    /// Tells each other server, in their order, that the own write is given up.
    fn send_aborts(&self, out: &mut Outputs)
        requires { length out.old ≤ 65 }
        ensures sent { out.new ≡ out.old ++ outputs_of (sends_to_all (member_of self.now) (Body.Abort self.now.version)) }
        ensures few { length out.new ≤ length out.old + 20 }
    {
        for k in 0..self.cell.len() {
            if k != self.me {
                let abort = Body::Abort { new: self.version };
                let packet = self.packet_to(self.cell.host(k), abort);
                out.put(Output::Send(packet));
            }
        }
    }

    /// Drops the phase and the writes, and gives them out.
    fn give_out(&mut self) -> Dropped
        ensures recovery { result.recovery ≡ given_out self.old.recovery }
        ensures writes { result.writes ≡ self.old.writes }
        ensures after { server_of self.new ≡ with_phase (without_writes (server_of self.old)) NoPhase }
        ensures none { self.new.writes ≡ None }
        ensures kept { Keeps self.old self.new }
    {
        let writes = self.writes.take();
        let recovery = self.recovery.lapse();
        Dropped { recovery, writes }
    }

    /// Whether the write in flight began more than 60 seconds ago.
    fn write_is_late(&self, now: u32) -> bool
        ensures { result ≡ is_late now (own_of self.now.writes) }
    {
        match self.in_flight() {
            Some(write) => now.saturating_sub(write.began()) > SMALLTIME,
            None => false,
        }
    }

    /// Refuses the write in flight, whose fate is unknown, and those that wait for it, which were not begun.
    fn refuse_writes(&self, now: u32, phase: Phase, out: &mut Outputs)
        requires empty { out.old ≡ [] }
        ensures refused { out.new ≡ outputs_of (writes_refused (member_of self.now) (server_of self.now) now phase) }
        ensures few { length out.new ≤ 65 }
    {
        let Some(writes) = &self.writes else {
            return;
        };
        if let Some(write) = writes.in_flight() {
            let reply = self.no_quorum(now, phase, Applied::Unknown);
            out.put(Output::Reply {
                id: write.id(),
                reply,
            });
        }
        for place in 0..writes.waiting() {
            if let Some(id) = writes.waits_at(place) {
                let reply = self.no_quorum(now, phase, Applied::No);
                out.put(Output::Reply { id, reply });
            }
        }
    }
}
