//! Votes.
ghost use Rattle.std.specs.Prelude.{◌≡◌, ◌≤◌, ◌<◌, ℕ, Bool, List, length};
ghost use Rattle.cell_model.specs.Evaluating.{Databases};
ghost use Rattle.cell_model.specs.Voting.{beacon_received, vote_received};
ghost use Rattle.server_state.specs.State.{member_of, server_of};
ghost use Rattle.server_rules.specs.Acts.{Leaves, MayEndShort, act_need, stepped_by};

use crate::acts::Act;
use server_state::{ReadyBeacon, State};
use ubik_calls::Body;
use ubik_types::Host;

/// A vote of a server of the cell, for the beacon of that start.
pub fn vote_heard(state: &mut State, from: usize, start: u32, yes: bool) -> Act<'static>
    requires { from < length state.old.cell }
    ensures step { (dbs : Databases) (now : ℕ) (short : List Bool) → vote_received (member_of state.old) (server_of state.old) from start yes
        ≡ stepped_by dbs (member_of state.new) now short (server_of state.new) result }
    ensures leaves { Leaves state.old state.new result }
    ensures need { act_need result ≤ 0 }
    ensures memory { ¬ MayEndShort result }
{
    state.hear_vote(from, start, yes);
    Act::Rest
}

/// A beacon of a server of the cell, for that start, with its claim and whether its server is ready: it gets the vote.
pub fn beacon_heard(
    state: &mut State,
    host: Host,
    start: u32,
    beacon: ReadyBeacon,
    claim: bool,
    ready: bool,
) -> Act<'static>
    requires from { beacon.server < length state.old.cell }
    ensures step { (dbs : Databases) (now : ℕ) (short : List Bool)
        → beacon_received (member_of state.old) (server_of state.old) beacon.at host beacon.server start claim ready beacon.version
        ≡ stepped_by dbs (member_of state.new) now short (server_of state.new) result }
    ensures leaves { Leaves state.old state.new result }
    ensures need { act_need result ≤ 0 }
    ensures memory { ¬ MayEndShort result }
{
    let yes = state.hear_beacon(beacon, claim, ready);
    Act::Send {
        to: host,
        body: Body::Vote { start, yes },
    }
}
