//! Whole frames over a stream of bytes.
ghost use Rattle.std.specs.Prelude.{◌≡◌, ◌+◌, ◌<◌, ◌≤◌, [], OnOk, length, max};
ghost use Rattle.std.specs.Io.{StartsWith, appended_bytes};
ghost use Rattle.std.specs.Io.KnownBytes.{Appends, Consumes, Keeps};
ghost use Rattle.io_base.specs.Frame.{IsWhole};

use std::io;
use std::io::{Read, Write};
use ubik_types::WORD_LEN;

/// The longest frame, in bytes, its length in front counted (own).
pub const MAX_FRAME: usize = 2_097_152;

/// The room for a frame that is read grows by so many bytes at first.
const FIRST_PIECE: usize = 4_096;

/// How much of a frame a writer took.
#[derive(Clone, Copy, Debug, PartialEq, Eq)]
pub(crate) enum Sent {
    Whole,
    /// Some of it, or it is not known how much.
    Part,
    Nothing,
}

/// Writes a frame.
pub(crate) fn send<W: Write>(writer: &mut W, frame: &[u8]) -> Sent
    ensures whole { result ≡ Sent.Whole → Appends (W.contents writer.old) (W.contents writer.new) frame.now }
    ensures nothing { result ≡ Sent.Nothing → Keeps (W.contents writer.old) (W.contents writer.new) }
{
    match writer.write(frame) {
        Ok(0) | Err(_) => Sent::Nothing,
        Ok(count) => match writer.write_all(&frame[count..]) {
            Ok(()) => Sent::Whole,
            Err(_) => Sent::Part,
        },
    }
}

/// Reads one frame. Its length tells where it ends, so nothing behind it is read. The room for it grows with what
/// has come, and not with what its length claims.
#[tactic(auto, using(crate::proofs::Pieces::front_stays, crate::proofs::Pieces::next_piece))]
pub(crate) fn receive<R: Read>(reader: &mut R, frame: &mut Vec<u8>) -> io::Result<()>
    requires { frame.old.items ≡ [] }
    ensures whole { OnOk result (IsWhole frame.new.items) }
    ensures read { OnOk result (Consumes (R.remaining reader.old) (R.remaining reader.new) frame.new.items) }
    ensures bound { length frame.new.items ≤ MAX_FRAME }
{
    let mut head = [0; WORD_LEN];
    reader.read_exact(&mut head)?;
    let behind = u32::from_be_bytes(head) as usize;
    if behind > MAX_FRAME - WORD_LEN {
        return Err(io::Error::from(io::ErrorKind::InvalidData));
    }
    frame.extend_from_slice(&head)?;
    let len = WORD_LEN + behind;
    while frame.len() < len {
        read_piece(reader, frame, len)?;
    }
    Ok(())
}

/// Reads the next piece of a frame of this length, in bytes: as much as there is already, and 4 KiB at least.
fn read_piece<R: Read>(reader: &mut R, frame: &mut Vec<u8>, len: usize) -> io::Result<()>
    requires { length frame.old.items < len }
    ensures more { OnOk result (length frame.old.items < length frame.new.items) }
    ensures bound { length frame.new.items ≤ len }
    ensures doubles { length frame.new.items
        ≤ length frame.old.items + max (length frame.old.items) FIRST_PIECE }
    ensures begins { OnOk result (StartsWith frame.new.items frame.old.items) }
    ensures read { OnOk result (Consumes (R.remaining reader.old) (R.remaining reader.new)
        (appended_bytes frame.old.items frame.new.items)) }
{
    let had = frame.len();
    let piece = had.max(FIRST_PIECE).min(len - had);
    frame.resize(had + piece, 0)?;
    reader.read_exact(&mut frame[had..])
}
