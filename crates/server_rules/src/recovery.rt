//! Recovery: polls, the image that is fetched, relabelling, and who has the own version or lacks it.
ghost use Rattle.std.specs.Prelude.{◌≡◌, ◌≤◌, ◌<◌, ◌+◌, ◌==◌, nat_lt, ℕ, Bool, false, List, IfOk, OnErr, length};
ghost use Rattle.ubik_types.specs.declared.limits.TheConstants.{SMALLTIME};
ghost use Rattle.ubik_types.specs.Moment.{IsMoment};
ghost use Rattle.ubik_types.specs.Version.{IsVersion};
ghost use Rattle.cell_model.specs.Evaluating.{Databases};
ghost use Rattle.cell_model.specs.Recovery.{lacking_sent, next_asked, piece_kept_received, piece_received, poll_asked, poll_begun, polled, recovery_turn, relabelled, told_to_spread, version_is_received, version_kept_received};
ghost use Rattle.cell_model.specs.Step.{host_at};
ghost use Rattle.ubik_recovery.specs.Record.{adopted, best_of, host_of, is_fetch, polled_of, spread_of};
ghost use Rattle.ubik_recovery.specs.Text.{received_bytes, with_piece};
ghost use Rattle.server_state.specs.Receiving.{fetched};
ghost use Rattle.server_state.specs.Recovering.{IsOfCell, IsServing};
ghost use Rattle.server_state.specs.Spreading.{IsSpreading};
ghost use Rattle.server_state.specs.State.{member_of, server_of, server_with};
ghost use Rattle.server_rules.specs.Acts.{CanAct, EndsText, GoesOn, HasRoom, Leaves, MayEndShort, MayFail, act_need, stepped_by};

use crate::acts::{Act, TextEnd};
use server_state::{Outputs, State};
use std::alloc::Global;
use ubik_calls::Body;
use ubik_recovery::{Recovery, TextSource};
use ubik_types::{Host, NoMemory, Phase, SMALLTIME, Version, majority};

/// The recovery turn, after the lapse: what is asked of the others is put out. Where memory runs out, some packets of the write in flight are out,
/// and nothing else changed.
pub fn recovery_turn(
    state: &mut State,
    alloc: Global,
    now: u32,
    out: &mut Outputs,
) -> Result<Act<'static>, NoMemory>
    requires moment { IsMoment now }
    requires few { length out.old ≤ 100 }
    ensures step { (dbs : Databases) (short : List Bool) → IfOk result (λ act. GoesOn (recovery_turn (member_of state.old) (server_of state.old) now)
        (stepped_by dbs (member_of state.new) now short (server_of state.new) act) out.old out.new) }
    ensures leaves { IfOk result (Leaves state.old state.new) }
    ensures need { IfOk result (λ act. act_need act ≤ 1) }
    ensures room { IfOk result (λ act. HasRoom act (length out.new)) }
    ensures err { OnErr result (state.new ≡ state.old) }
{
    let leased = state.votes.in_lease(now);
    let over = poll_is_over(state, now);
    match state.recovery.phase() {
        Phase::None if leased => Ok(poll_begun(state, now, out)),
        Phase::None => Ok(Act::Rest),
        Phase::Poll => {
            let next = state.recovery.marks();
            Ok(poll_asked(state, next, now, out))
        }
        Phase::Fetch if over => Ok(poll_begun(state, now, out)),
        Phase::Fetch => Ok(piece_wanted(state)),
        Phase::Relabel => {
            let next = state.recovery.marks();
            Ok(relabelled(state, next, now))
        }
        Phase::Send | Phase::Ready => {
            state.spread_again(alloc, out)?;
            Ok(Act::Rest)
        }
    }
}

/// Whether the poll began more than 60 seconds ago.
fn poll_is_over(state: &State, now: u32) -> bool
    ensures { result ≡ nat_lt (state.now.recovery.poll + SMALLTIME) now }
{
    now.saturating_sub(state.recovery.poll()) > SMALLTIME
}

/// A poll begins, and the others are asked.
fn poll_begun(state: &mut State, now: u32, out: &mut Outputs) -> Act<'static>
    requires resting { ¬ IsServing state.old.recovery }
    requires moment { IsMoment now }
    requires few { length out.old ≤ 100 }
    ensures step { (dbs : Databases) (short : List Bool) → GoesOn (poll_begun (member_of state.old) (server_of state.old) now)
        (stepped_by dbs (member_of state.new) now short (server_of state.new) result) out.old out.new }
    ensures leaves { Leaves state.old state.new result }
    ensures need { act_need result ≤ 1 }
    ensures room { HasRoom result (length out.new) }
{
    let mut next = state.recovery.marks();
    next.begin(now, state.me, state.version);
    poll_asked(state, next, now, out)
}

/// Each server that has not answered the poll of a recovery is asked, and the poll goes on.
fn poll_asked(state: &mut State, next: Recovery, now: u32, out: &mut Outputs) -> Act<'static>
    requires resting { ¬ IsServing state.old.recovery }
    requires of_cell { IsOfCell (length state.old.cell) next }
    requires moment { IsMoment now }
    requires phase { next.phase ≡ Phase.Poll }
    requires few { length out.old ≤ 100 }
    ensures step { (dbs : Databases) (short : List Bool)
        → GoesOn (poll_asked (member_of state.old) (server_with state.old (adopted next state.old.recovery)) (polled_of next) now)
        (stepped_by dbs (member_of state.new) now short (server_of state.new) result) out.old out.new }
    ensures leaves { Leaves state.old state.new result }
    ensures need { act_need result ≤ 1 }
    ensures room { HasRoom result (length out.new) }
{
    state.ask_versions(&next.answered(), next.poll(), out);
    polled(state, next, now)
}

/// In a fetch the next piece is asked for.
fn piece_wanted(state: &State) -> Act<'static>
    ensures step { (dbs : Databases) (now : ℕ) (short : List Bool)
        → next_asked (member_of state.now) (server_of state.now) (polled_of state.now.recovery) (best_of state.now.recovery) (host_of state.now.recovery)
        ≡ stepped_by dbs (member_of state.now) now short (server_of state.now) result }
    ensures can { CanAct state.now result }
    ensures need { act_need result ≤ 0 }
    ensures memory { ¬ MayEndShort result }
    ensures fine { ¬ MayFail result }
    ensures room { (outputs : ℕ) → outputs ≤ 120 → HasRoom result outputs }
{
    let (version, _) = state.recovery.best();
    Act::Send {
        to: fetched_from(state),
        body: Body::GetPiece {
            poll: state.recovery.poll(),
            version,
            offset: state.recovery.received().len() as u32,
        },
    }
}

/// The relabelling for the poll of a recovery, once the moment is past the own epoch.
fn relabelled(state: &mut State, next: Recovery, now: u32) -> Act<'static>
    requires resting { ¬ IsServing state.old.recovery }
    requires of_cell { IsOfCell (length state.old.cell) next }
    requires moment { IsMoment now }
    requires phase { is_fetch next.phase ≡ false }
    ensures step { (dbs : Databases) (short : List Bool)
        → relabelled (member_of state.old) (server_with state.old (adopted next state.old.recovery)) (polled_of next) now
        ≡ stepped_by dbs (member_of state.new) now short (server_of state.new) result }
    ensures leaves { Leaves state.old state.new result }
    ensures need { act_need result ≤ 1 }
    ensures room { (outputs : ℕ) → outputs ≤ 120 → HasRoom result outputs }
{
    if state.version.epoch < now {
        return Act::Relabel {
            next,
            new: Version {
                epoch: now,
                counter: 1,
            },
        };
    }
    state.wait(next);
    Act::Rest
}

/// A poll of a recovery goes on: at a majority of answers it is known which version is the best.
fn polled(state: &mut State, next: Recovery, now: u32) -> Act<'static>
    requires resting { ¬ IsServing state.old.recovery }
    requires of_cell { IsOfCell (length state.old.cell) next }
    requires moment { IsMoment now }
    requires phase { next.phase ≡ Phase.Poll }
    ensures step { (dbs : Databases) (short : List Bool)
        → polled (member_of state.old) (server_with state.old (adopted next state.old.recovery)) (polled_of next) now
        ≡ stepped_by dbs (member_of state.new) now short (server_of state.new) result }
    ensures leaves { Leaves state.old state.new result }
    ensures need { act_need result ≤ 1 }
    ensures room { (outputs : ℕ) → outputs ≤ 120 → HasRoom result outputs }
{
    if !majority(&state.cell, &next.answered()) {
        state.adopt(next);
        return Act::Rest;
    }
    let (version, _) = next.best();
    if state.version < version {
        let poll = next.poll();
        let mut next = next;
        next.set_phase(Phase::Fetch, state.me);
        state.adopt(next);
        return Act::Send {
            to: fetched_from(state),
            body: Body::GetPiece {
                poll,
                version,
                offset: 0,
            },
        };
    }
    relabelled(state, next, now)
}

/// Version told: by a server of the cell, for the poll of that number.
pub fn version_told(
    state: &mut State,
    now: u32,
    from: usize,
    host: Host,
    poll: u32,
    version: Version,
) -> Act<'static>
    requires from { from < length state.old.cell }
    requires moment { IsMoment now }
    requires version { IsVersion version }
    ensures step { (dbs : Databases) (short : List Bool)
        → version_is_received dbs (member_of state.old) (server_of state.old) now host from poll version short (server_of state.old).phase
        ≡ stepped_by dbs (member_of state.new) now short (server_of state.new) result }
    ensures leaves { Leaves state.old state.new result }
    ensures need { act_need result ≤ 3 }
    ensures holder { (image : List ℕ) (dbs : Databases) (short : List Bool) → 2 < act_need result
        → version_is_received dbs (member_of state.old) (record (server_of state.old) { image = image }) now host from poll version short
        (server_of state.old).phase
        ≡ stepped_by dbs (member_of state.new) now short (record (server_of state.new) { image = image }) result }
{
    match state.recovery.phase() {
        Phase::Poll if poll == state.recovery.poll() => {
            let mut next = state.recovery.marks();
            next.answer(from, version);
            polled(state, next, now)
        }
        Phase::Fetch => {
            state.hear_fetched(now, from, version);
            Act::Rest
        }
        Phase::Send | Phase::Ready => version_spread(state, from, host, poll, version),
        _ => Act::Rest,
    }
}

/// Version told in Send or Ready, for the poll of the node: the own version makes a holder, and a server with another one is sent what it
/// lacks.
fn version_spread(
    state: &mut State,
    from: usize,
    host: Host,
    poll: u32,
    version: Version,
) -> Act<'static>
    requires from { from < length state.old.cell }
    requires phase { IsSpreading state.old.recovery.phase }
    ensures step { (dbs : Databases) (now : ℕ) (short : List Bool)
        → told_to_spread dbs (member_of state.old) (server_of state.old) now host from (polled_of state.old.recovery) (spread_of state.old.recovery) poll version short
        ≡ stepped_by dbs (member_of state.new) now short (server_of state.new) result }
    ensures leaves { Leaves state.old state.new result }
    ensures need { act_need result ≤ 3 }
    ensures holder { (image : List ℕ) (dbs : Databases) (now : ℕ) (short : List Bool) → 2 < act_need result
        → told_to_spread dbs (member_of state.old) (record (server_of state.old) { image = image }) now host from
        (polled_of state.old.recovery) (spread_of state.old.recovery) poll version short
        ≡ stepped_by dbs (member_of state.new) now short (record (server_of state.new) { image = image }) result }
{
    if poll != state.recovery.poll() {
        return Act::Rest;
    }
    if version != state.version {
        return lacking(state, host, version);
    }
    state.count_holder(from);
    Act::Settle
}

/// A server with another version than the own one is sent what it lacks, unless a write is in flight.
fn lacking(state: &State, host: Host, version: Version) -> Act<'static>
    requires phase { IsSpreading state.now.recovery.phase }
    ensures step { (dbs : Databases) (now : ℕ) (short : List Bool)
        → lacking_sent (member_of state.now) (server_of state.now) host (polled_of state.now.recovery) (spread_of state.now.recovery) version (server_of state.now).flight
        ≡ stepped_by dbs (member_of state.now) now short (server_of state.now) result }
    ensures can { CanAct state.now result }
    ensures need { act_need result ≤ 2 }
{
    if state.is_writing() {
        return Act::Rest;
    }
    if !state.is_before(version) {
        return Act::SendPiece {
            to: host,
            poll: state.recovery.poll(),
            at: 0,
            asked: false,
        };
    }
    Act::Send {
        to: host,
        body: Body::SetVersion {
            poll: state.recovery.poll(),
            old: state.recovery.old(),
            new: state.version,
        },
    }
}

/// A server of the cell says that its database is the one of this version.
pub fn version_kept(state: &mut State, from: usize, version: Version) -> Act<'static>
    requires from { from < length state.old.cell }
    ensures step { (dbs : Databases) (now : ℕ) (short : List Bool)
        → version_kept_received dbs (member_of state.old) (server_of state.old) now from version short (server_of state.old).phase
        ≡ stepped_by dbs (member_of state.new) now short (server_of state.new) result }
    ensures leaves { Leaves state.old state.new result }
    ensures need { act_need result ≤ 3 }
    ensures holder { (image : List ℕ) (dbs : Databases) (now : ℕ) (short : List Bool) → 2 < act_need result
        → version_kept_received dbs (member_of state.old) (record (server_of state.old) { image = image }) now from version short
        (server_of state.old).phase
        ≡ stepped_by dbs (member_of state.new) now short (record (server_of state.new) { image = image }) result }
    ensures memory { ¬ MayEndShort result }
{
    if !state.is_spreading() || version != state.version {
        return Act::Rest;
    }
    state.count_holder(from);
    Act::Settle
}

/// Piece kept: a host has the image of that version up to a place.
pub fn piece_kept(state: &State, host: Host, version: Version, next: u32) -> Act<'static>
    ensures step { (dbs : Databases) (now : ℕ) (short : List Bool)
        → piece_kept_received (member_of state.now) (server_of state.now) host version next (server_of state.now).phase
        ≡ stepped_by dbs (member_of state.now) now short (server_of state.now) result }
    ensures can { CanAct state.now result }
    ensures need { act_need result ≤ 2 }
{
    if !state.is_spreading() || state.is_writing() || !state.goes_on(version, next) {
        return Act::Rest;
    }
    Act::SendPiece {
        to: host,
        poll: state.recovery.poll(),
        at: next,
        asked: false,
    }
}

/// The host of the server from which the best version is fetched; 0 for none.
fn fetched_from(state: &State) -> Host
    ensures { result ≡ host_at state.now.cell (host_of state.now.recovery) }
{
    let (_, server) = state.recovery.best();
    if server < state.cell.len() {
        state.cell.host(server)
    } else {
        Host(0)
    }
}

/// The fetched image is whole, with this last piece. It is installed where its version is still above the own one, and then relabelled; else the
/// own one is.
fn image_fetched<'a>(
    state: &mut State,
    now: u32,
    source: TextSource,
    offset: u32,
    bytes: &'a [u8],
) -> Act<'a>
    requires moment { IsMoment now }
    requires phase { state.old.recovery.phase ≡ Phase.Fetch }
    requires best { source.version ≡ best_of state.old.recovery }
    requires ends { EndsText (length (received_bytes state.old.recovery.text) == 0) state.old.recovery.text source offset bytes.now }
    ensures step { (dbs : Databases) (short : List Bool)
        → fetched (member_of state.old) (server_of state.old) now (polled_of state.old.recovery) (best_of state.old.recovery)
        (with_piece source offset bytes.now state.old.recovery.text).bytes
        ≡ stepped_by dbs (member_of state.new) now short (server_of state.new) result }
    ensures leaves { Leaves state.old state.new result }
    ensures need { act_need result ≤ 2 }
{
    let mut next = state.recovery.marks();
    next.set_phase(Phase::Relabel, state.me);
    let newer = state.version < source.version;
    if !newer {
        return relabelled(state, next, now);
    }
    let early = now <= source.version.epoch;
    if early {
        return Act::EndText {
            end: TextEnd::Waits { next },
            source,
            at: offset,
            bytes,
        };
    }
    let new = Version {
        epoch: now,
        counter: 1,
    };
    Act::EndText {
        end: TextEnd::Relabelled { next, new },
        source,
        at: offset,
        bytes,
    }
}

/// Piece told: in a fetch, by the server, for the poll and of the version that were asked.
pub fn piece_told<'a>(
    state: &mut State,
    now: u32,
    poll: u32,
    source: TextSource,
    offset: u32,
    bytes: &'a [u8],
) -> Result<Act<'a>, NoMemory>
    requires moment { IsMoment now }
    ensures step { (dbs : Databases) (short : List Bool) → IfOk result (λ act.
        piece_received (member_of state.old) (server_of state.old) now source.server poll source.version source.total offset bytes.now (server_of state.old).phase
        ≡ stepped_by dbs (member_of state.new) now short (server_of state.new) act) }
    ensures leaves { IfOk result (Leaves state.old state.new) }
    ensures need { IfOk result (λ act. act_need act ≤ 2) }
    ensures err { OnErr result (state.new ≡ state.old) }
{
    if !state.is_fetching() || !state.is_asked(poll, &source) {
        return Ok(Act::Rest);
    }
    let may_begin = state.has_no_byte();
    if !state
        .recovery
        .takes_piece(may_begin, &source, offset, bytes)
    {
        return Ok(Act::Rest);
    }
    let next = offset + bytes.len() as u32;
    let whole = next == source.total;
    if whole {
        return Ok(image_fetched(state, now, source, offset, bytes));
    }
    state.keep_piece(source, offset, bytes)?;
    Ok(Act::Send {
        to: fetched_from(state),
        body: Body::GetPiece {
            poll,
            version: source.version,
            offset: next,
        },
    })
}
