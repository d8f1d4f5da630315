//! What a server prints of its end.
ghost use Rattle.std.specs.Prelude.{◌≡◌, ◌++◌, codes, decimal};
ghost use Rattle.server_texts.specs.Ends.{IsSaid, end_line, line_of};

use crate::ServerKind;
use arrayvec::ArrayString;
use disk_base::{Sink, Wrote};
use itoa::Buffer;

/// Room for the line on a word that does not fit, whichever place it has: bytes.
const WORD_LINE_ROOM: usize = 64;

/// Prints the line of an end, for which it takes no memory; there is none where the net has closed. Where the sink fails it is a front of
/// the line.
pub fn say_end<K: Sink>(kind: &ServerKind, err: &mut K)
    ensures { IsSaid (K.written err.old) (K.written err.new) (K.faults err.old) (K.faults err.new) (end_line kind.now) }
{
    let line = match kind {
        ServerKind::Closed => "",
        ServerKind::NoMemory => "afs_dbserver: no memory\n",
        ServerKind::NoThread => "afs_dbserver: no thread\n",
        ServerKind::JournalFull { .. } => "afs_dbserver: journal full\n",
        ServerKind::DiskFault => "afs_dbserver: disk fault\n",
        ServerKind::BadFiles { .. } => "afs_dbserver: bad files\n",
        ServerKind::Words { place } => return say_bad_word(*place, err),
    };
    write_front(err, line.as_bytes());
}

/// Prints the line on the word at a place that does not fit.
fn say_bad_word<K: Sink>(place: u32, err: &mut K)
    ensures { IsSaid (K.written err.old) (K.written err.new) (K.faults err.old) (K.faults err.new) (line_of (codes "bad word " ++ decimal place)) }
{
    let mut digits = Buffer::new();
    let mut line = ArrayString::<WORD_LINE_ROOM>::new();
    line.push_str("afs_dbserver: bad word ");
    line.push_str(digits.format(place));
    line.push_str("\n");
    write_front(err, line.as_str().as_bytes());
}

/// Appends the bytes to a sink, up to where it fails.
fn write_front<K: Sink>(out: &mut K, bytes: &[u8])
    ensures { IsSaid (K.written out.old) (K.written out.new) (K.faults out.old) (K.faults out.new) bytes.now }
{
    let mut done = 0;
    while done < bytes.len() {
        match out.write(&bytes[done..]) {
            Wrote::Bytes(count) => done += count,
            Wrote::Failed => return,
        }
    }
}
