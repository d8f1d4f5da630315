//! Receiver: what a server takes over of another one's database, the writes that another one began, and what it tells of its own to each that asks.
ghost use Rattle.std.specs.Prelude.{◌≡◌, ◌≤◌, ℕ, Bool, List, IfOk, OnErr, OnOk};
ghost use Rattle.ubik_types.specs.Version.{IsVersion};
ghost use Rattle.cell_model.specs.Evaluating.{Databases};
ghost use Rattle.cell_model.specs.Receiver.{begin_received, commit_received, get_piece_received, get_version_received, put_piece_received, send_piece_received, set_version_received};
ghost use Rattle.cell_model.specs.Step.{quiet};
ghost use Rattle.server_state.specs.State.{Keeps, member_of, server_of};
ghost use Rattle.server_rules.specs.Acts.{CanAct, Leaves, MayEndShort, act_need, stepped_by};

use crate::acts::{Act, TextEnd};
use db_image::too_large;
use server_state::State;
use std::alloc::Global;
use ubik_calls::{Body, MAX_PIECES};
use ubik_recovery::TextSource;
use ubik_types::{Host, NoMemory, Version};
use ubik_write::{Pending, PendingEnd};

/// Get version: it is told.
pub fn version_asked(state: &State, host: Host, poll: u32) -> Act<'static>
    ensures step { (dbs : Databases) (now : ℕ) (short : List Bool) → get_version_received (member_of state.now) (server_of state.now) host poll
        ≡ stepped_by dbs (member_of state.now) now short (server_of state.now) result }
    ensures can { CanAct state.now result }
    ensures need { act_need result ≤ 0 }
    ensures memory { ¬ MayEndShort result }
{
    let version = state.version;
    Act::Send {
        to: host,
        body: Body::VersionIs { poll, version },
    }
}

/// Get piece: a host asks for a piece of the image of a version.
pub fn piece_asked(
    state: &State,
    host: Host,
    poll: u32,
    version: Version,
    offset: u32,
) -> Act<'static>
    ensures step { (dbs : Databases) (now : ℕ) (short : List Bool) → get_piece_received (member_of state.now) (server_of state.now) host poll version offset
        ≡ stepped_by dbs (member_of state.now) now short (server_of state.now) result }
    ensures can { CanAct state.now result }
    ensures need { act_need result ≤ 2 }
{
    if state.has_piece(version, offset) {
        return Act::SendPiece {
            to: host,
            poll,
            at: offset,
            asked: true,
        };
    }
    version_asked(state, host, poll)
}

/// Set version: the database of the old version is to be the one of the new version.
pub fn version_set(state: &State, host: Host, poll: u32, old: Version, new: Version) -> Act<'static>
    requires version { IsVersion new }
    ensures step { (dbs : Databases) (now : ℕ) (short : List Bool) → set_version_received (member_of state.now) (server_of state.now) host poll old new
        ≡ stepped_by dbs (member_of state.now) now short (server_of state.now) result }
    ensures can { CanAct state.now result }
    ensures need { act_need result ≤ 0 }
{
    let version = state.version;
    if state.is_spreading() {
        return Act::Rest;
    }
    if version == new {
        return Act::Send {
            to: host,
            body: Body::VersionKept { version },
        };
    }
    if !state.may_become(old, new) {
        return Act::Send {
            to: host,
            body: Body::VersionIs { poll, version },
        };
    }
    Act::TakeVersion { to: host, new }
}

/// Send piece: a sync site has this server take its image.
pub fn piece_sent<'a>(
    state: &mut State,
    host: Host,
    poll: u32,
    source: TextSource,
    offset: u32,
    bytes: &'a [u8],
) -> Result<Act<'a>, NoMemory>
    requires version { IsVersion source.version }
    ensures step { (dbs : Databases) (now : ℕ) (short : List Bool) → IfOk result (λ act.
        send_piece_received (member_of state.old) (server_of state.old) host source.server poll source.version source.total offset bytes.now
        ≡ stepped_by dbs (member_of state.new) now short (server_of state.new) act) }
    ensures leaves { IfOk result (Leaves state.old state.new) }
    ensures need { IfOk result (λ act. act_need act ≤ 2) }
    ensures err { OnErr result (state.new ≡ state.old) }
{
    let version = state.version;
    if state.is_spreading() || state.is_fetching() {
        return Ok(Act::Rest);
    }
    if version == source.version {
        return Ok(Act::Send {
            to: host,
            body: Body::VersionKept { version },
        });
    }
    if source.version < version {
        return Ok(Act::Send {
            to: host,
            body: Body::VersionIs { poll, version },
        });
    }
    if !state.recovery.takes_piece(true, &source, offset, bytes) {
        return Ok(Act::Rest);
    }
    let next = offset + bytes.len() as u32;
    if next == source.total {
        return Ok(Act::EndText {
            end: TextEnd::Told { to: host },
            source,
            at: offset,
            bytes,
        });
    }
    state.keep_piece(source, offset, bytes)?;
    Ok(Act::Send {
        to: host,
        body: Body::PieceKept {
            poll,
            version: source.version,
            next,
        },
    })
}

/// Begin: a write of so many pieces begins, which leads from the old version to the new one.
pub fn write_begun(
    state: &mut State,
    alloc: Global,
    old: Version,
    new: Version,
    pieces: u32,
    len: u32,
) -> Result<(), NoMemory>
    requires version { IsVersion new }
    ensures step { OnOk result (begin_received (server_of state.old) old new pieces len ≡ quiet (server_of state.new)) }
    ensures kept { Keeps state.old state.new }
    ensures err { OnErr result (state.new ≡ state.old) }
{
    if state.is_spreading() || !state.may_become(old, new) || pieces > MAX_PIECES {
        return Ok(());
    }
    let write = Pending::begin(alloc, old, new, pieces, len)?;
    state.keep_write(write);
    Ok(())
}

/// Put piece: a piece of the write of a version, in place of another one of its number.
pub fn piece_put(state: &mut State, new: Version, number: u32, bytes: &[u8]) -> Result<(), NoMemory>
    ensures step { OnOk result (put_piece_received (server_of state.old) new number bytes.now ≡ quiet (server_of state.new)) }
    ensures kept { Keeps state.old state.new }
    ensures err { OnErr result (state.new ≡ state.old) }
{
    if state.is_spreading() {
        return Ok(());
    }
    state.keep_write_piece(new, number, bytes)
}

/// Commit: the write of the new version is committed, where all its pieces have come.
pub fn write_committed(
    state: &State,
    host: Host,
    old: Version,
    new: Version,
) -> Result<Act<'static>, NoMemory>
    ensures step { (dbs : Databases) (now : ℕ) (short : List Bool) → IfOk result (λ act.
        commit_received (member_of state.now) (server_of state.now) host old new
        ≡ stepped_by dbs (member_of state.now) now short (server_of state.now) act) }
    ensures can { IfOk result (CanAct state.now) }
    ensures need { IfOk result (λ act. act_need act ≤ 2) }
{
    let version = state.version;
    if state.is_spreading() {
        return Ok(Act::Rest);
    }
    if version == new {
        return Ok(Act::Send {
            to: host,
            body: Body::VersionKept { version },
        });
    }
    if version != old {
        return Ok(Act::Rest);
    }
    let changes = match state.kept_changes(new) {
        PendingEnd::Whole(changes) => changes,
        PendingEnd::Missing => return Ok(Act::Rest),
        PendingEnd::NoMemory => return Err(NoMemory),
    };
    if too_large(state.image.len() as usize, &changes).is_some() {
        return Ok(Act::Rest);
    }
    Ok(Act::TakeWrite {
        to: host,
        new,
        changes,
    })
}
