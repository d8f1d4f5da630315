//! What the grammar makes of bytes, found by a second reader: slow, over a table of the fields of each frame.
use ubik_calls::FrameFault;
use xdr_base::XdrFault;

/// The bytes of a word.
const WORD: usize = 4;

/// The most bytes of a piece.
const LONGEST_PIECE: u32 = 8192;

/// The most bytes behind the length of a frame.
const LONGEST_FRAME: u32 = 2_097_148;

/// The first number that is no word of a version.
const VERSION_END: u32 = 0x8000_0000;

/// The number of the last phase.
const LAST_PHASE: u32 = 5;

/// The kind of a frame with a packet.
const PACKET: u32 = 0;

/// The kind of a frame with a call.
const ASK: u32 = 1;

/// The kind of a frame with what became of a call.
const REPLY: u32 = 2;

/// The kind of a frame with a question about a server.
const QUESTION: u32 = 3;

/// The kind of a frame with what a server tells of itself.
const TELLING: u32 = 4;

/// What a part of a frame may be.
#[derive(Clone, Copy)]
enum Part {
    Number,
    Truth,
    /// One of the two words of a version.
    Half,
    PhaseWord,
    Piece,
    /// All bytes that are left.
    Remainder,
}

use Part::{Half, Number, PhaseWord, Piece, Remainder, Truth};

/// What stands behind the kind of a packet, from kind 1 on; first its two hosts.
const PACKETS: [&[Part]; 14] = [
    &[Number, Number, Number, Truth, Truth, Half, Half],
    &[Number, Number, Number, Truth],
    &[Number, Number, Number],
    &[Number, Number, Number, Half, Half],
    &[Number, Number, Number, Half, Half, Number],
    &[Number, Number, Number, Half, Half, Number, Number, Piece],
    &[Number, Number, Number, Half, Half, Number, Number, Piece],
    &[Number, Number, Number, Half, Half, Number],
    &[Number, Number, Number, Half, Half, Half, Half],
    &[Number, Number, Half, Half, Half, Half, Number, Number],
    &[Number, Number, Half, Half, Number, Piece],
    &[Number, Number, Half, Half, Half, Half],
    &[Number, Number, Half, Half],
    &[Number, Number, Half, Half],
];

/// What stands behind the tag of a reply, from tag 0 on.
const REPLIES: [&[Part]; 10] = [
    &[Remainder],
    &[Number],
    &[Number, Number, PhaseWord, Truth],
    &[Number, Number],
    &[Number],
    &[Number, Number],
    &[],
    &[],
    &[],
    &[Number],
];

/// What stands behind the kind of what a server tells of itself.
const TOLD: &[Part] = &[
    Number, Number, Number, Half, Half, PhaseWord, Number, Number, Number, Number,
];

/// The bytes that are left of a frame, and how many it had.
#[derive(Drop)]
struct Slow<'a> {
    len: usize,
    rest: &'a [u8],
}

impl Slow<'_> {
    /// The place in the frame that is read next.
    fn place(&self) -> usize {
        self.len.wrapping_sub(self.rest.len())
    }

    /// Reads a word. An error leaves all as it is.
    fn word(&mut self) -> Result<u32, FrameFault> {
        let [a, b, c, d, rest @ ..] = self.rest else {
            let at = self.place();
            return Err(FrameFault::Xdr(XdrFault::Short { at }));
        };
        self.rest = rest;
        Ok(u32::from_be_bytes([*a, *b, *c, *d]))
    }

    /// Reads a piece: its length, its bytes, and zero bytes up to whole words.
    fn piece(&mut self) -> Result<(), FrameFault> {
        let at = self.place();
        let len = self.word()?;
        if len > LONGEST_PIECE {
            return Err(FrameFault::Xdr(XdrFault::TooLong { len }));
        }
        let len = len as usize;
        let padded = len + (WORD - len % WORD) % WORD;
        if self.rest.len() < padded {
            return Err(FrameFault::Xdr(XdrFault::Short { at }));
        }
        let (piece, rest) = self.rest.split_at(padded);
        if piece[len..].iter().any(|byte| *byte != 0) {
            return Err(FrameFault::Xdr(XdrFault::Padding { at }));
        }
        self.rest = rest;
        Ok(())
    }

    /// Reads a part of a frame, which is refused where it is none of its kind.
    fn part(&mut self, part: Part) -> Result<(), FrameFault> {
        match part {
            Piece => return self.piece(),
            Remainder => {
                self.rest = &[];
                return Ok(());
            }
            _ => {}
        }
        let value = self.word()?;
        match part {
            Truth if value > 1 => Err(FrameFault::Xdr(XdrFault::BadBool { value })),
            Half if value >= VERSION_END => Err(FrameFault::Version { value }),
            PhaseWord if value > LAST_PHASE => Err(FrameFault::Kind { kind: value }),
            _ => Ok(()),
        }
    }

    /// Reads the kind of a frame, and of a packet or a reply in it: the parts that stand behind it.
    fn kind(&mut self) -> Result<&'static [Part], FrameFault> {
        match self.word()? {
            PACKET => {
                let kind = self.word()?;
                let parts = PACKETS.get(kind.wrapping_sub(1) as usize);
                parts.copied().ok_or(FrameFault::Kind { kind })
            }
            ASK => Ok(&[Number, Remainder]),
            REPLY => {
                self.word()?;
                let kind = self.word()?;
                let parts = REPLIES.get(kind as usize);
                parts.copied().ok_or(FrameFault::Kind { kind })
            }
            QUESTION => Ok(&[Number]),
            TELLING => Ok(TOLD),
            kind => Err(FrameFault::Kind { kind }),
        }
    }
}

/// Why these bytes are no frame by the table.
pub fn fault_by_table(bytes: &[u8]) -> Result<(), FrameFault> {
    if bytes.len() < WORD {
        return Err(FrameFault::Length { said: 0, have: 0 });
    }
    let mut slow = Slow {
        len: bytes.len(),
        rest: bytes,
    };
    let said = slow.word()?;
    let have = u32::try_from(slow.rest.len()).unwrap_or(u32::MAX);
    if said != have || said > LONGEST_FRAME {
        return Err(FrameFault::Length { said, have });
    }
    for part in slow.kind()? {
        slow.part(*part)?;
    }
    match slow.rest.len() {
        0 => Ok(()),
        left => Err(FrameFault::Xdr(XdrFault::Rest { left })),
    }
}
