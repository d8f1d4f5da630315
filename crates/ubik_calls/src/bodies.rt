//! Bodies of packets, read field by field.
ghost use Rattle.std.specs.Prelude.{◌≡◌, IfOk};
ghost use Rattle.ubik_calls.specs.Fields.{Took};
ghost use Rattle.ubik_calls.specs.Reading.{Gets, beacon_at, vote_at, get_version_at, version_is_at, get_piece_at, image_piece_at, send_piece_at, piece_kept_at, set_version_at, begin_at, put_piece_at, commit_at, abort_at, version_kept_at, body_at, kind_number};
ghost use Rattle.ubik_calls.specs.WireGrammar.{body_fields, packet_kind};

use crate::fields::{flag, number, piece, version};
use crate::frames::FrameFault;
use crate::kinds::PacketKind;
use crate::packets::Body;
use std::alloc::Global;
use xdr_base::XdrReader;

#[tactic(auto, unfolding(crate::specs::Reading::beacon_at))]
fn beacon(reader: &mut XdrReader) -> Result<Body, FrameFault>
    ensures exact { Gets reader.new result (beacon_at reader.old) }
    ensures found { IfOk result (λ body. Took reader.old (body_fields body) reader.new) }
    ensures kind { IfOk result (λ body. packet_kind body ≡ 1) }
{
    Ok(Body::Beacon {
        start: number(reader)?,
        claim: flag(reader)?,
        ready: flag(reader)?,
        version: version(reader)?,
    })
}

#[tactic(auto, unfolding(crate::specs::Reading::vote_at))]
fn vote(reader: &mut XdrReader) -> Result<Body, FrameFault>
    ensures exact { Gets reader.new result (vote_at reader.old) }
    ensures found { IfOk result (λ body. Took reader.old (body_fields body) reader.new) }
    ensures kind { IfOk result (λ body. packet_kind body ≡ 2) }
{
    Ok(Body::Vote {
        start: number(reader)?,
        yes: flag(reader)?,
    })
}

#[tactic(auto, unfolding(crate::specs::Reading::get_version_at))]
fn get_version(reader: &mut XdrReader) -> Result<Body, FrameFault>
    ensures exact { Gets reader.new result (get_version_at reader.old) }
    ensures found { IfOk result (λ body. Took reader.old (body_fields body) reader.new) }
    ensures kind { IfOk result (λ body. packet_kind body ≡ 3) }
{
    Ok(Body::GetVersion {
        poll: number(reader)?,
    })
}

#[tactic(auto, unfolding(crate::specs::Reading::version_is_at))]
fn version_is(reader: &mut XdrReader) -> Result<Body, FrameFault>
    ensures exact { Gets reader.new result (version_is_at reader.old) }
    ensures found { IfOk result (λ body. Took reader.old (body_fields body) reader.new) }
    ensures kind { IfOk result (λ body. packet_kind body ≡ 4) }
{
    Ok(Body::VersionIs {
        poll: number(reader)?,
        version: version(reader)?,
    })
}

#[tactic(auto, unfolding(crate::specs::Reading::get_piece_at))]
fn get_piece(reader: &mut XdrReader) -> Result<Body, FrameFault>
    ensures exact { Gets reader.new result (get_piece_at reader.old) }
    ensures found { IfOk result (λ body. Took reader.old (body_fields body) reader.new) }
    ensures kind { IfOk result (λ body. packet_kind body ≡ 5) }
{
    Ok(Body::GetPiece {
        poll: number(reader)?,
        version: version(reader)?,
        offset: number(reader)?,
    })
}

#[tactic(auto, unfolding(crate::specs::Reading::image_piece_at))]
fn image_piece(alloc: Global, reader: &mut XdrReader) -> Result<Body, FrameFault>
    ensures exact { Gets reader.new result (image_piece_at reader.old) }
    ensures found { IfOk result (λ body. Took reader.old (body_fields body) reader.new) }
    ensures kind { IfOk result (λ body. packet_kind body ≡ 6) }
{
    Ok(Body::Piece {
        poll: number(reader)?,
        version: version(reader)?,
        total: number(reader)?,
        offset: number(reader)?,
        bytes: piece(alloc, reader)?,
    })
}

#[tactic(auto, unfolding(crate::specs::Reading::send_piece_at))]
fn send_piece(alloc: Global, reader: &mut XdrReader) -> Result<Body, FrameFault>
    ensures exact { Gets reader.new result (send_piece_at reader.old) }
    ensures found { IfOk result (λ body. Took reader.old (body_fields body) reader.new) }
    ensures kind { IfOk result (λ body. packet_kind body ≡ 7) }
{
    Ok(Body::SendPiece {
        poll: number(reader)?,
        version: version(reader)?,
        total: number(reader)?,
        offset: number(reader)?,
        bytes: piece(alloc, reader)?,
    })
}

#[tactic(auto, unfolding(crate::specs::Reading::piece_kept_at))]
fn piece_kept(reader: &mut XdrReader) -> Result<Body, FrameFault>
    ensures exact { Gets reader.new result (piece_kept_at reader.old) }
    ensures found { IfOk result (λ body. Took reader.old (body_fields body) reader.new) }
    ensures kind { IfOk result (λ body. packet_kind body ≡ 8) }
{
    Ok(Body::PieceKept {
        poll: number(reader)?,
        version: version(reader)?,
        next: number(reader)?,
    })
}

#[tactic(auto, unfolding(crate::specs::Reading::set_version_at))]
fn set_version(reader: &mut XdrReader) -> Result<Body, FrameFault>
    ensures exact { Gets reader.new result (set_version_at reader.old) }
    ensures found { IfOk result (λ body. Took reader.old (body_fields body) reader.new) }
    ensures kind { IfOk result (λ body. packet_kind body ≡ 9) }
{
    Ok(Body::SetVersion {
        poll: number(reader)?,
        old: version(reader)?,
        new: version(reader)?,
    })
}

#[tactic(auto, unfolding(crate::specs::Reading::begin_at))]
fn begin(reader: &mut XdrReader) -> Result<Body, FrameFault>
    ensures exact { Gets reader.new result (begin_at reader.old) }
    ensures found { IfOk result (λ body. Took reader.old (body_fields body) reader.new) }
    ensures kind { IfOk result (λ body. packet_kind body ≡ 10) }
{
    Ok(Body::Begin {
        old: version(reader)?,
        new: version(reader)?,
        pieces: number(reader)?,
        len: number(reader)?,
    })
}

#[tactic(auto, unfolding(crate::specs::Reading::put_piece_at))]
fn put_piece(alloc: Global, reader: &mut XdrReader) -> Result<Body, FrameFault>
    ensures exact { Gets reader.new result (put_piece_at reader.old) }
    ensures found { IfOk result (λ body. Took reader.old (body_fields body) reader.new) }
    ensures kind { IfOk result (λ body. packet_kind body ≡ 11) }
{
    Ok(Body::PutPiece {
        new: version(reader)?,
        number: number(reader)?,
        bytes: piece(alloc, reader)?,
    })
}

#[tactic(auto, unfolding(crate::specs::Reading::commit_at))]
fn commit(reader: &mut XdrReader) -> Result<Body, FrameFault>
    ensures exact { Gets reader.new result (commit_at reader.old) }
    ensures found { IfOk result (λ body. Took reader.old (body_fields body) reader.new) }
    ensures kind { IfOk result (λ body. packet_kind body ≡ 12) }
{
    Ok(Body::Commit {
        old: version(reader)?,
        new: version(reader)?,
    })
}

#[tactic(auto, unfolding(crate::specs::Reading::abort_at))]
fn abort(reader: &mut XdrReader) -> Result<Body, FrameFault>
    ensures exact { Gets reader.new result (abort_at reader.old) }
    ensures found { IfOk result (λ body. Took reader.old (body_fields body) reader.new) }
    ensures kind { IfOk result (λ body. packet_kind body ≡ 13) }
{
    Ok(Body::Abort {
        new: version(reader)?,
    })
}

#[tactic(auto, unfolding(crate::specs::Reading::version_kept_at))]
fn version_kept(reader: &mut XdrReader) -> Result<Body, FrameFault>
    ensures exact { Gets reader.new result (version_kept_at reader.old) }
    ensures found { IfOk result (λ body. Took reader.old (body_fields body) reader.new) }
    ensures kind { IfOk result (λ body. packet_kind body ≡ 14) }
{
    Ok(Body::VersionKept {
        version: version(reader)?,
    })
}

/// The body of a kind.
pub(crate) fn body(
    alloc: Global,
    kind: PacketKind,
    reader: &mut XdrReader,
) -> Result<Body, FrameFault>
    ensures exact { Gets reader.new result (body_at kind reader.old) }
    ensures found { IfOk result (λ body. Took reader.old (body_fields body) reader.new) }
    ensures kind { IfOk result (λ body. packet_kind body ≡ kind_number kind) }
{
    match kind {
        PacketKind::Beacon => beacon(reader),
        PacketKind::Vote => vote(reader),
        PacketKind::GetVersion => get_version(reader),
        PacketKind::VersionIs => version_is(reader),
        PacketKind::GetPiece => get_piece(reader),
        PacketKind::Piece => image_piece(alloc, reader),
        PacketKind::SendPiece => send_piece(alloc, reader),
        PacketKind::PieceKept => piece_kept(reader),
        PacketKind::SetVersion => set_version(reader),
        PacketKind::Begin => begin(reader),
        PacketKind::PutPiece => put_piece(alloc, reader),
        PacketKind::Commit => commit(reader),
        PacketKind::Abort => abort(reader),
        PacketKind::VersionKept => version_kept(reader),
    }
}
