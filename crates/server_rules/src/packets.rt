//! The packets of another server.
ghost use Rattle.std.specs.Prelude.{◌≡◌, ◌<◌, ◌≤◌, ℕ, Bool, List, IfOk, IsOk, OnErr, length};
ghost use Rattle.ubik_types.specs.Moment.{IsMoment};
ghost use Rattle.cell_model.specs.Evaluating.{Databases};
ghost use Rattle.cell_model.specs.NodeRule.{received_from};
ghost use Rattle.server_state.specs.State.{member_of, server_of};
ghost use Rattle.server_rules.specs.Acts.{Leaves, MayEndShort, act_need, stepped_by};
ghost use Rattle.server_rules.specs.Packets.{BodyTakesNoMemory, IsBuiltBody, IsOfWrite, IsSmall, body_need};

use crate::acts::Act;
use crate::receiver::{
    piece_asked, piece_put, piece_sent, version_asked, version_set, write_begun, write_committed,
};
use crate::recovery::{piece_kept, piece_told, version_kept, version_told};
use crate::voting::{beacon_heard, vote_heard};
use server_state::{ReadyBeacon, State};
use std::alloc::Global;
use ubik_calls::Body;
use ubik_recovery::TextSource;
use ubik_types::{Host, NoMemory};

/// What a server does about a packet of a server of the cell, by its place and host. Where memory runs out nothing changed.
pub fn packet_heard<'a>(
    state: &mut State,
    alloc: Global,
    now: u32,
    from: usize,
    host: Host,
    packet: &'a Body,
) -> Result<Act<'a>, NoMemory>
    requires from { from < length state.old.cell }
    requires moment { IsMoment now }
    requires built { IsBuiltBody packet.now }
    ensures step { (dbs : Databases) (short : List Bool) → IfOk result (λ act.
        received_from dbs (member_of state.old) (server_of state.old) now host from packet.now short
        ≡ stepped_by dbs (member_of state.new) now short (server_of state.new) act) }
    ensures leaves { IfOk result (Leaves state.old state.new) }
    ensures need { IfOk result (λ act. act_need act ≤ body_need packet.now) }
    ensures holder { (image : List ℕ) (dbs : Databases) (short : List Bool) → IfOk result (λ act. 2 < act_need act →
        received_from dbs (member_of state.old) (record (server_of state.old) { image = image }) now host from packet.now short
        ≡ stepped_by dbs (member_of state.new) now short (record (server_of state.new) { image = image }) act) }
    ensures memory { BodyTakesNoMemory packet.now → IsOk result × IfOk result (λ act. ¬ MayEndShort act) }
    ensures err { OnErr result (state.new ≡ state.old) }
{
    match packet {
        Body::Piece {
            poll,
            version,
            total,
            offset,
            bytes,
        } => {
            let source = TextSource {
                server: from,
                version: *version,
                total: *total,
            };
            return piece_told(state, now, *poll, source, *offset, bytes.as_slice());
        }
        Body::SendPiece {
            poll,
            version,
            total,
            offset,
            bytes,
        } => {
            let source = TextSource {
                server: from,
                version: *version,
                total: *total,
            };
            return piece_sent(state, host, *poll, source, *offset, bytes.as_slice());
        }
        _ => {}
    }
    small_heard(state, alloc, now, from, host, packet)
}

/// What it does about one that brings no piece of an image.
fn small_heard(
    state: &mut State,
    alloc: Global,
    now: u32,
    from: usize,
    host: Host,
    packet: &Body,
) -> Result<Act<'static>, NoMemory>
    requires from { from < length state.old.cell }
    requires moment { IsMoment now }
    requires built { IsBuiltBody packet.now }
    requires small { IsSmall packet.now }
    ensures step { (dbs : Databases) (short : List Bool) → IfOk result (λ act.
        received_from dbs (member_of state.old) (server_of state.old) now host from packet.now short
        ≡ stepped_by dbs (member_of state.new) now short (server_of state.new) act) }
    ensures leaves { IfOk result (Leaves state.old state.new) }
    ensures need { IfOk result (λ act. act_need act ≤ body_need packet.now) }
    ensures holder { (image : List ℕ) (dbs : Databases) (short : List Bool) → IfOk result (λ act. 2 < act_need act →
        received_from dbs (member_of state.old) (record (server_of state.old) { image = image }) now host from packet.now short
        ≡ stepped_by dbs (member_of state.new) now short (record (server_of state.new) { image = image }) act) }
    ensures memory { BodyTakesNoMemory packet.now → IsOk result × IfOk result (λ act. ¬ MayEndShort act) }
    ensures err { OnErr result (state.new ≡ state.old) }
{
    match packet {
        Body::Beacon {
            start,
            claim,
            ready,
            version,
        } => {
            let beacon = ReadyBeacon {
                server: from,
                version: *version,
                at: now,
            };
            Ok(beacon_heard(state, host, *start, beacon, *claim, *ready))
        }
        Body::Vote { start, yes } => Ok(vote_heard(state, from, *start, *yes)),
        Body::GetVersion { poll } => Ok(version_asked(state, host, *poll)),
        Body::VersionIs { poll, version } => {
            Ok(version_told(state, now, from, host, *poll, *version))
        }
        Body::VersionKept { version } => Ok(version_kept(state, from, *version)),
        Body::GetPiece {
            poll,
            version,
            offset,
        } => Ok(piece_asked(state, host, *poll, *version, *offset)),
        Body::PieceKept { version, next, .. } => Ok(piece_kept(state, host, *version, *next)),
        Body::SetVersion { poll, old, new } => Ok(version_set(state, host, *poll, *old, *new)),
        _ => write_heard(state, alloc, host, packet),
    }
}

/// What it does about one of a write that another server began.
fn write_heard(
    state: &mut State,
    alloc: Global,
    host: Host,
    packet: &Body,
) -> Result<Act<'static>, NoMemory>
    requires built { IsBuiltBody packet.now }
    requires of_write { IsOfWrite packet.now }
    ensures step { (dbs : Databases) (now from : ℕ) (short : List Bool) → IfOk result (λ act.
        received_from dbs (member_of state.old) (server_of state.old) now host from packet.now short
        ≡ stepped_by dbs (member_of state.new) now short (server_of state.new) act) }
    ensures leaves { IfOk result (Leaves state.old state.new) }
    ensures need { IfOk result (λ act. act_need act ≤ body_need packet.now) }
    ensures holder { (image : List ℕ) (dbs : Databases) (now from : ℕ) (short : List Bool) → IfOk result (λ act. 2 < act_need act →
        received_from dbs (member_of state.old) (record (server_of state.old) { image = image }) now host from packet.now short
        ≡ stepped_by dbs (member_of state.new) now short (record (server_of state.new) { image = image }) act) }
    ensures memory { BodyTakesNoMemory packet.now → IsOk result × IfOk result (λ act. ¬ MayEndShort act) }
    ensures err { OnErr result (state.new ≡ state.old) }
{
    match packet {
        Body::Begin {
            old,
            new,
            pieces,
            len,
        } => {
            write_begun(state, alloc, *old, *new, *pieces, *len)?;
            Ok(Act::Rest)
        }
        Body::PutPiece { new, number, bytes } => {
            piece_put(state, *new, *number, bytes.as_slice())?;
            Ok(Act::Rest)
        }
        Body::Commit { old, new } => write_committed(state, host, *old, *new),
        Body::Abort { new } => {
            state.abort_received(*new);
            Ok(Act::Rest)
        }
        // No other packet is of a write.
        _ => Ok(Act::Rest),
    }
}
