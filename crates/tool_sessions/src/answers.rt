//! What stands behind a call: the answer, in words. `ok` comes with the fields of the answer, `rule`, `noquorum`, `notsync`,
//! `linefull`, `toolarge` and `badrecord` with the numbers of the reply. `state` comes with what a server says of itself: its host and
//! moment, epoch and counter, the number of its phase, the end of its lease, the sync site, whom it voted for, and when. `othernumber`
//! stands before an answer that has the number of another call, `garbage` for bytes that are no frame, `debug` for a frame of another
//! kind. `notsent`, `noanswer` and `lacks` are the ends of an ask without a frame; at the last, memory ran out before anything was
//! sent. `bytes` comes with a frame as it is.
use crate::frames::{DEBUG, REPLY, STATE, frame_of};
use io_base::Answer;
use script_words::{number_within, signed_number};
use session_rows::{Fault, bytes_in, first_of, long_in};
use std::alloc::Global;
use ubik_types::{Bytes, bytes_of};
use xdr_base::XdrWriter;

/// The longest name of a session, in bytes.
const MAX_NAME: usize = 255;

/// How many words say what a server says of itself.
const STATE_WORDS: u32 = 9;

/// What comes back to the call of this number: how the ask ends, and the frame.
pub fn answer_to(
    alloc: Global,
    number: u32,
    call: &str,
    answer: &str,
) -> Result<(Answer, Bytes), Fault> {
    let (word, rest) = first_of(answer);
    match word {
        "notsent" => Ok((Answer::NotSent, Bytes::new(Vec::new(alloc)))),
        "noanswer" => Ok((Answer::NoAnswer, Bytes::new(Vec::new(alloc)))),
        "lacks" => Ok((Answer::NoMemory, Bytes::new(Vec::new(alloc)))),
        "bytes" => Ok((Answer::Got, Bytes::new(bytes_in(alloc, rest)?))),
        "garbage" => Ok((Answer::Got, bytes_of(alloc, b"garbage")?)),
        "debug" => Ok((Answer::Got, frame_of(alloc, DEBUG, number, &[])?)),
        "othernumber" => Ok((
            Answer::Got,
            answer_frame(alloc, number.wrapping_add(1), call, rest)?,
        )),
        _ => Ok((Answer::Got, answer_frame(alloc, number, call, answer)?)),
    }
}

/// The frame that answers the call of this number: a reply, or what a server says of itself.
fn answer_frame(alloc: Global, number: u32, call: &str, answer: &str) -> Result<Bytes, Fault> {
    let (call, _) = first_of(call);
    let mut fields = Fields {
        rest: answer,
        out: XdrWriter::new(alloc),
    };
    let kind = match fields.word()? {
        "state" => {
            fields.put_numbers(STATE_WORDS)?;
            STATE
        }
        word => {
            fields.put_reply(call, word)?;
            REPLY
        }
    };
    let Fields { rest, out } = fields;
    if !rest.is_empty() {
        return Err(Fault::Form);
    }
    frame_of(alloc, kind, number, out.finish().as_slice())
}

/// Words that are left, and the fields that those before them spell.
#[derive(Drop)]
struct Fields<'a> {
    rest: &'a str,
    out: XdrWriter,
}

impl<'a> Fields<'a> {
    fn word(&mut self) -> Result<&'a str, Fault> {
        if self.rest.is_empty() {
            return Err(Fault::Form);
        }
        let (word, rest) = first_of(self.rest);
        self.rest = rest;
        Ok(word)
    }

    /// Spells the tag of a reply, which this word names, and what stands behind it.
    fn put_reply(&mut self, call: &str, tag: &str) -> Result<(), Fault> {
        match tag {
            "ok" => self.put_answer(call),
            "rule" => self.put_tagged(1, 1),
            "noquorum" => self.put_tagged(2, 4),
            "notsync" => self.put_tagged(3, 2),
            "linefull" => self.put_tagged(4, 1),
            "toolarge" => self.put_too_large(),
            "malformed" => self.put_tagged(6, 0),
            "diskfault" => self.put_tagged(7, 0),
            "nomemory" => self.put_tagged(8, 0),
            "badrecord" => self.put_tagged(9, 1),
            _ => Err(Fault::Form),
        }
    }

    /// Spells a number of 32 bits, which may have a sign.
    fn put_number(&mut self) -> Result<u32, Fault> {
        let word = self.word()?.as_bytes();
        let number = match signed_number(word) {
            Some(number) => number.cast_unsigned(),
            None => number_within(word, 0, u32::MAX).ok_or(Fault::Form)?,
        };
        self.out.put_u32(number)?;
        Ok(number)
    }

    fn put_numbers(&mut self, count: u32) -> Result<(), Fault> {
        for _ in 0..count {
            self.put_number()?;
        }
        Ok(())
    }

    fn put_name(&mut self) -> Result<(), Fault> {
        let name = self.word()?.as_bytes();
        if name.len() > MAX_NAME {
            return Err(Fault::Form);
        }
        self.out.put_bytes(name)?;
        Ok(())
    }

    /// Spells a tag and so many numbers.
    fn put_tagged(&mut self, tag: u32, count: u32) -> Result<(), Fault> {
        self.out.put_u32(tag)?;
        self.put_numbers(count)
    }

    /// Spells that an image would have so many bytes, a number of 64 bits.
    fn put_too_large(&mut self) -> Result<(), Fault> {
        let bytes = long_in(self.word()?)?;
        self.out.put_u32(5)?;
        self.out.put_u32((bytes >> 32) as u32)?;
        self.out.put_u32((bytes & 0xffff_ffff) as u32)?;
        Ok(())
    }

    /// Spells the answer to a call that was done. `outside` is one that is no answer to it.
    fn put_answer(&mut self, call: &str) -> Result<(), Fault> {
        self.out.put_u32(0)?;
        if self.rest == "outside" {
            self.word()?;
            self.out.put_u32(u32::MAX)?;
            return Ok(());
        }
        match call {
            "getentrybyname" | "getentrybyid" => self.put_volume(),
            "listentry" => self.put_user(),
            "listattributes" => self.put_volumes(),
            "listentries" => self.put_users(),
            "idtoname" => self.put_names(),
            "nametoid" | "listelements" | "listowned" | "getaddrs" => self.put_list(),
            "newentry" | "getnewvolumeid" => self.put_numbers(1),
            "listmax" => self.put_numbers(2),
            _ => Ok(()),
        }
    }

    /// Spells numbers, and how many there are.
    fn put_list(&mut self) -> Result<(), Fault> {
        let count = self.put_number()?;
        self.put_numbers(count)
    }

    /// Spells an entry of the location database: its name, five numbers, its sites, and its lock.
    fn put_volume(&mut self) -> Result<(), Fault> {
        self.put_name()?;
        self.put_numbers(5)?;
        let sites = self.put_number()?;
        for _ in 0..sites {
            self.put_numbers(3)?;
        }
        self.put_numbers(2)
    }

    /// Spells an entry of the protection database: six numbers, and its name.
    fn put_user(&mut self) -> Result<(), Fault> {
        self.put_numbers(6)?;
        self.put_name()
    }

    fn put_volumes(&mut self) -> Result<(), Fault> {
        let count = self.put_number()?;
        for _ in 0..count {
            self.put_volume()?;
        }
        Ok(())
    }

    fn put_users(&mut self) -> Result<(), Fault> {
        let count = self.put_number()?;
        for _ in 0..count {
            self.put_user()?;
        }
        Ok(())
    }

    fn put_names(&mut self) -> Result<(), Fault> {
        let count = self.put_number()?;
        for _ in 0..count {
            self.put_name()?;
        }
        Ok(())
    }
}
