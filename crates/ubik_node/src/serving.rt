//! Where a call is served, and what its client is told else.
ghost use Rattle.std.specs.Prelude.{◌≡◌, ℕ, Bool, List, None, Some, IsSome, true};
ghost use Rattle.ubik_types.specs.Votes.{sync_heard};
ghost use Rattle.db_image.specs.Database.{Database};
ghost use Rattle.cell_model.specs.Asks.{asked_as, allows_reads, not_served, read_reply};
ghost use Rattle.cell_model.specs.Step.{Evaluation};
ghost use Rattle.cell_model.specs.declared.events.Output.TheVariants as outputs;
ghost use Rattle.ubik_node.specs.Evaluation.{IsShortReply, is_evaluated};
ghost use Rattle.ubik_node.specs.Serving.{TurnsTo, IsEvaluation, IsPlainTurn, IsWait, IsWrite};
ghost use Rattle.server_state.specs.Beacons.{beacon_of};
ghost use Rattle.server_state.specs.Plain.{IsPlainReply};
ghost use Rattle.server_state.specs.State.{server_of, member_of};
ghost use Rattle.server_state.specs.Recovering.{IsServing};
ghost use Rattle.server_state.specs.Writing.{own_of};

use db_image::CallReply;
use server_state::State;
use ubik_calls::Reply;
use ubik_types::{Applied, Phase, SMALLTIME};

/// What a call leads to.
#[derive(Drop)]
pub enum Turn {
    /// It is not evaluated.
    Refuse(Reply),
    /// It reads the announced image.
    Read,
    /// It reads the own image, which a ready beacon of another server allows.
    ReadOwn,
    /// It waits for the write in flight.
    Wait,
    /// It has its turn to write.
    Write,
}

/// What a call leads to, which writes or not.
pub fn turn_of(state: &State, now: u32, writes: bool) -> Turn
    ensures turn { (db : Database) (id : ℕ) (call : List ℕ) (short : Bool) →
        TurnsTo db (member_of state.now) (server_of state.now) now id call short result
        (asked_as db (member_of state.now) (server_of state.now) now id call short (Some writes)) }
    ensures serving { IsWrite result → IsServing state.now.recovery }
    ensures writing { IsWait result → IsSome (own_of state.now.writes) }
    ensures free { IsWrite result → own_of state.now.writes ≡ None }
    ensures writing_call { IsWrite result → writes ≡ true }
    ensures evaluates { IsEvaluation result → is_evaluated (member_of state.now) (server_of state.now) now (Some writes) ≡ true }
    ensures plain { IsPlainTurn result }
{
    let leased = state.votes.in_lease(now);
    match state.recovery.phase() {
        Phase::Ready if leased && writes && state.is_writing() => Turn::Wait,
        Phase::Ready if leased && writes => Turn::Write,
        Phase::Ready if leased => Turn::Read,
        phase if leased => Turn::Refuse(state.no_quorum(now, phase, Applied::No)),
        _ if !writes && allows_reads(state, now) => Turn::ReadOwn,
        _ => Turn::Refuse(not_served(state, now)),
    }
}

/// Whether the kept ready beacon allows reads: it is at most 60 seconds old and names the own version.
fn allows_reads(state: &State, now: u32) -> bool
    ensures { result ≡ allows_reads state.now.version now (beacon_of state.now.beacon) }
{
    match state.beacon {
        Some(kept) => { now.saturating_sub(kept.at) <= SMALLTIME && kept.version == state.version }
        None => false,
    }
}

/// The refusal of a server that is not in lease: another one's claim, or that no quorum stands behind it.
fn not_served(state: &State, now: u32) -> Reply
    ensures reply { result ≡ not_served (member_of state.now) (server_of state.now) now (sync_heard now state.now.votes.votes) }
    ensures plain { IsPlainReply result }
{
    match state.votes.sync_heard(now) {
        Some((server, heard)) if server != state.me => Reply::NotSync {
            host: state.cell.host(server),
            heard,
        },
        _ => state.no_quorum(now, state.recovery.phase(), Applied::No),
    }
}

/// The reply to a call that the database has evaluated, where nothing is to be written.
pub fn reply_of(reply: CallReply) -> Reply
    ensures reply { (id : ℕ) (e : Evaluation) → (read_reply id e reply).output ≡ outputs.Reply id result }
    ensures plain { IsShortReply reply → IsPlainReply result }
{
    match reply {
        CallReply::Done(answer) => Reply::Ok(answer),
        CallReply::Rule(number) => Reply::Rule(number),
        CallReply::Malformed => Reply::Malformed,
        CallReply::BadRecord { at } => Reply::BadRecord { at },
    }
}
