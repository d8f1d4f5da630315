//! The kinds of packets.
ghost use Rattle.std.specs.Prelude.{◌≡◌, IfOk};
ghost use Rattle.ubik_calls.specs.Reading.{packet_kind_of, kind_number};

use crate::frames::FrameFault;

/// What a packet's body is, before its fields are read.
#[derive(Clone, Copy)]
pub(crate) enum PacketKind {
    Beacon,
    Vote,
    GetVersion,
    VersionIs,
    GetPiece,
    Piece,
    SendPiece,
    PieceKept,
    SetVersion,
    Begin,
    PutPiece,
    Commit,
    Abort,
    VersionKept,
}

/// The kind of this number; `Kind` where there is none.
pub(crate) fn packet_kind_of(number: u32) -> Result<PacketKind, FrameFault>
    ensures exact { result ≡ packet_kind_of number }
    ensures found { IfOk result (λ kind. number ≡ kind_number kind) }
{
    match number {
        1 => Ok(PacketKind::Beacon),
        2 => Ok(PacketKind::Vote),
        3 => Ok(PacketKind::GetVersion),
        4 => Ok(PacketKind::VersionIs),
        5 => Ok(PacketKind::GetPiece),
        6 => Ok(PacketKind::Piece),
        7 => Ok(PacketKind::SendPiece),
        8 => Ok(PacketKind::PieceKept),
        9 => Ok(PacketKind::SetVersion),
        10 => Ok(PacketKind::Begin),
        11 => Ok(PacketKind::PutPiece),
        12 => Ok(PacketKind::Commit),
        13 => Ok(PacketKind::Abort),
        14 => Ok(PacketKind::VersionKept),
        kind => Err(FrameFault::Kind { kind }),
    }
}
