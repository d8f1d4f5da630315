//! The rules of votes, and what a server tells of its version: they change what it keeps, and its disk is not touched.
ghost use Rattle.std.specs.Prelude.{◌≡◌, ◌<◌, ◌≤◌, ◌++◌, length};
ghost use Rattle.ubik_types.specs.Moment.{IsMoment};
ghost use Rattle.ubik_types.specs.Votes.{answered, answers_yes};
ghost use Rattle.cell_model.specs.Step.{outputs_of, quiet, sends_to_all};
ghost use Rattle.server_state.specs.Plain.{IsPlainBody};
ghost use Rattle.cell_model.specs.Voting.{own_beacon, beacon_kept, beacon_turn, vote_received};

use crate::beacons::{ReadyBeacon, kept_beacon};
use crate::outputs::Outputs;
use crate::state::State;
use cell_model::Output;
use ubik_calls::Body;
use ubik_types::Phase;

impl State {
    ghost use Rattle.server_state.specs.State.{server_of, member_of, Keeps, ShowsBehind};

    /// Beacon turn: where a beacon is due it is taken, and goes to each other server.
    pub fn beacon_turn(&mut self, now: u32, out: &mut Outputs)
        requires moment { IsMoment now }
        requires few { length out.old ≤ 100 }
        ensures shows { ShowsBehind (beacon_turn (member_of self.old) (server_of self.old) now) (server_of self.new) out.old out.new }
        ensures kept { Keeps self.old self.new }
    {
        if !self.votes.beacon_due(now) {
            return;
        }
        let claim = self.votes.in_lease(now);
        self.send_beacons(now, claim, out);
        self.votes.beacon(now, claim);
    }

    /// A beacon of a server of the cell, with its claim and whether its server is ready: whether it gets a yes.
    pub fn hear_beacon(&mut self, beacon: ReadyBeacon, claim: bool, ready: bool) -> bool
        requires from { beacon.server < length self.old.cell }
        ensures vote { result ≡ answers_yes (server_of self.old).votes beacon.at beacon.server claim }
        ensures after { server_of self.new ≡ record (server_of self.old) {
          votes = answered (server_of self.old).votes beacon.at beacon.server claim;
          beacon = beacon_kept (server_of self.old).beacon beacon.at beacon.server claim ready beacon.version;
        } }
        ensures kept { Keeps self.old self.new }
    {
        self.beacon = kept_beacon(self.beacon, beacon, claim, ready);
        self.votes.on_beacon(beacon.at, beacon.server, claim)
    }

    /// A vote of a server of the cell, for the beacon of that start.
    pub fn hear_vote(&mut self, from: usize, start: u32, yes: bool)
        requires { from < length self.old.cell }
        ensures server { vote_received (member_of self.old) (server_of self.old) from start yes ≡ quiet (server_of self.new) }
        ensures kept { Keeps self.old self.new }
    {
        self.votes.on_vote(from, start, yes);
    }

    /// The beacon that this server sends.
    fn own_beacon(&self, now: u32, claim: bool) -> Body
        ensures beacon { result ≡ own_beacon (server_of self.now) now claim }
        ensures plain { IsPlainBody result }
    {
        let ready = claim && self.recovery.phase() == Phase::Ready;
        let version = if ready {
            self.announced()
        } else {
            self.version
        };
        Body::Beacon {
            start: now,
            claim,
            ready,
            version,
        }
    }

    /// Sends its beacon to each other server, in their order.
    fn send_beacons(&self, now: u32, claim: bool, out: &mut Outputs)
        requires { length out.old ≤ 100 }
        ensures { out.new ≡ out.old ++ outputs_of (sends_to_all (member_of self.now) (own_beacon (server_of self.now) now claim)) }
    {
        for k in 0..self.cell.len() {
            if k != self.me {
                let beacon = self.packet_to(self.cell.host(k), self.own_beacon(now, claim));
                out.put(Output::Send(beacon));
            }
        }
    }
}
