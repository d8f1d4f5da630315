//! Polls: the servers are asked for their versions, and the best one is fetched. What changes no disk.
ghost use Rattle.std.specs.Prelude.{◌≡◌, ◌≤◌, ◌<◌, ◌+◌, ◌++◌, ℕ, None, [], length, false};
ghost use Rattle.ubik_types.specs.Quorum.{marked};
ghost use Rattle.cell_model.specs.Polls.{is_marked, polling};
ghost use Rattle.cell_model.specs.Recovery.{asks_versions};
ghost use Rattle.cell_model.specs.Step.{outputs_of, with_phase};
ghost use Rattle.ubik_recovery.specs.Record.{adopted, is_fetch, polled_of};
ghost use Rattle.ubik_types.specs.Phase as phases;
ghost use Rattle.server_state.specs.Recovering.{IsOfCell, IsServing};
ghost use Rattle.server_state.specs.Writing.{own_of, waiting_of};

use crate::outputs::Outputs;
use crate::state::State;
use cell_model::Output;
use ubik_calls::Body;
use ubik_recovery::Recovery;
use ubik_types::{MAXSERVERS, Marks, Phase};

/// Whether a server is in a set.
pub(crate) fn is_in(set: &Marks, k: usize) -> bool
    requires { k < MAXSERVERS }
    ensures { (n : ℕ) → k < n → result ≡ is_marked (marked n set.now.set) k }
{
    set.set[k]
}

impl State {
    ghost use Rattle.server_state.specs.State.{server_of, server_with, member_of, Keeps};

    /// The question for its version goes to each other server that is not in a set.
    pub fn ask_versions(&self, but: &Marks, poll: u32, out: &mut Outputs)
        requires few { length out.old ≤ 100 }
        ensures asked { out.new ≡ out.old ++ outputs_of (asks_versions (member_of self.now) poll (is_marked (marked (length self.now.cell) but.now.set))) }
        ensures few { length out.new ≤ length out.old + 20 }
    {
        for k in 0..self.cell.len() {
            if k != self.me && !is_in(but, k) {
                let question = self.packet_to(self.cell.host(k), Body::GetVersion { poll });
                out.put(Output::Send(question));
            }
        }
    }

    /// Takes a recovery over that has gone on.
    pub fn adopt(&mut self, next: Recovery)
        requires resting { ¬ IsServing self.old.recovery }
        requires of_cell { IsOfCell (length self.old.cell) next }
        ensures after { server_of self.new ≡ server_with self.old (adopted next self.old.recovery) }
        ensures kept { Keeps self.old self.new }
    {
        self.recovery.adopt(next);
    }

    /// A relabelling waits for a later moment.
    pub fn wait(&mut self, next: Recovery)
        requires resting { ¬ IsServing self.old.recovery }
        requires of_cell { IsOfCell (length self.old.cell) next }
        requires phase { is_fetch next.phase ≡ false }
        ensures after { server_of self.new ≡ with_phase (server_with self.old (adopted next self.old.recovery)) (phases.Relabel (polled_of next)) }
        ensures kept { Keeps self.old self.new }
    {
        let mut next = next;
        next.set_phase(Phase::Relabel, self.me);
        self.recovery.adopt(next);
    }

    /// A new poll begins, and sends nothing.
    pub fn begin_poll(&mut self, now: u32)
        requires free { own_of self.old.writes ≡ None }
        requires line { waiting_of self.old.writes ≡ [] }
        ensures after { server_of self.new ≡ polling (member_of self.old) (server_of self.old) now }
        ensures kept { Keeps self.old self.new }
    {
        self.recovery.begin(now, self.me, self.version);
    }
}
