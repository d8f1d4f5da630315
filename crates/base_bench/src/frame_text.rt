//! Writes a frame and reads it back: that of an ask, the only kind that can be so long beside the reply to one.
ghost use Rattle.std.specs.Prelude.{◌≡◌, ◌≤◌, IfOk, true};
ghost use Rattle.ubik_calls.specs.WireGrammar.{spelling};
ghost use Rattle.base_bench.specs.LongAsk.{long_ask};

use std::alloc::Global;
use ubik_calls::{Frame, decode, encode};
use ubik_types::{Bytes, NoMemory};

/// The number of the ask.
const NUMBER: u32 = 7;

/// Each byte of the call.
const FILL: u8 = 120;

/// How many bytes of the frame stand before the call: the length, the kind and the number.
const HEAD: u32 = 12;

/// The most kibibytes of a frame.
pub const MOST: u16 = 2048;

/// The ask with a call of so many bytes.
fn ask_of(alloc: Global, len: u32) -> Result<Frame, NoMemory>
    ensures { IfOk result (λ frame. frame ≡ long_ask len) }
{
    let call = Bytes::new(vec![in alloc; FILL; len as usize]?);
    Ok(Frame::Ask {
        number: NUMBER,
        call,
    })
}

/// The bytes of the ask.
fn written(alloc: Global, ask: &Frame, len: u32) -> Result<Bytes, NoMemory>
    requires ask { ask.now ≡ long_ask len }
    requires fits { len ≤ 2097140 }
    ensures { IfOk result (λ bytes. bytes ≡ spelling (long_ask len)) }
{
    encode(alloc, ask)
}

/// Whether a frame is an ask of this number with a call of so many bytes.
fn is_ask(frame: &Frame, len: u32) -> bool
    ensures { frame.now ≡ long_ask len → result ≡ true }
{
    match frame {
        Frame::Ask { number, call } => {
            *number == NUMBER && call.as_slice().len() == len as usize
        }
        _ => false,
    }
}

/// Whether the bytes of the ask are read as the ask, as they are.
fn is_read(alloc: Global, bytes: &[u8], len: u32) -> Result<bool, NoMemory>
    requires ask { bytes.now ≡ spelling (long_ask len) }
    requires fits { len ≤ 2097140 }
    ensures { IfOk result (λ whole. whole ≡ true) }
{
    match decode(alloc, bytes) {
        Ok(frame) => Ok(is_ask(&frame, len)),
        // They are a frame, so that this is want of memory.
        Err(_) => Err(NoMemory),
    }
}

/// Whether the bytes of the ask are so many times read as the ask, as they are.
fn is_read_often(alloc: Global, bytes: &[u8], len: u32, times: u16) -> Result<bool, NoMemory>
    requires ask { bytes.now ≡ spelling (long_ask len) }
    requires fits { len ≤ 2097140 }
    ensures { IfOk result (λ whole. whole ≡ true) }
{
    for _ in 0..times {
        if !is_read(alloc, bytes, len)? {
            return Ok(false);
        }
    }
    Ok(true)
}

/// Whether a frame of so many kibibytes, which is written so often after the first time, is so often read back, as it is.
pub fn goes_both_ways(
    alloc: Global,
    kibibytes: u16,
    writes: u16,
    reads: u16,
) -> Result<bool, NoMemory>
    requires some { 1 ≤ kibibytes }
    requires fits { kibibytes ≤ MOST }
    ensures { IfOk result (λ whole. whole ≡ true) }
{
    let len = u32::from(kibibytes) * 1024 - HEAD;
    let ask = ask_of(alloc, len)?;
    let mut bytes = written(alloc, &ask, len)?;
    for _ in 0..writes {
        bytes = written(alloc, &ask, len)?;
    }
    is_read_often(alloc, bytes.as_slice(), len, reads)
}
