//! A writer of XDR items.
ghost use Rattle.std.specs.Prelude.{◌≡◌, ◌<◌, ◌+◌, ◌^◌, ◌++◌, [], length, OnOk, OnErr};
ghost use Rattle.xdr_base.specs.Spelling.{word, signed, truth, opaque};

use crate::sizes::{WORD, opaque_len, padding};
use std::alloc::Global;
use std::marker::Model;
use ubik_types::{Bytes, NoMemory};

/// The bytes that may fill an opaque up to whole words.
const ZEROS: [u8; WORD - 1] = [0; WORD - 1];

/// Writes items one after the other. Contracts see the bytes written; what memory it has reserved is not
/// part of them.
#[derive(Debug, Drop)]
pub struct XdrWriter {
    bytes: Vec<u8>,
}

impl Model for XdrWriter {
    ghost use Rattle.std.specs.Prelude.{ℕ, List};

    ghost Value = { List ℕ };

    ghost view = { λ w. w.bytes.items };
}

impl XdrWriter {
    /// A writer that has written nothing. It takes no memory yet.
    pub fn new(alloc: Global) -> XdrWriter
        ensures { result ≡ [] }
    {
        XdrWriter {
            bytes: Vec::new(alloc),
        }
    }

    /// Writes a number. For want of memory nothing is written.
    pub fn put_u32(&mut self, v: u32) -> Result<(), NoMemory>
        ensures ok { OnOk result (self.new ≡ self.old ++ word v) }
        ensures err { OnErr result (self.new ≡ self.old) }
    {
        self.bytes.extend_from_slice(&v.to_be_bytes())?;
        Ok(())
    }

    /// Writes a signed number. For want of memory nothing is written.
    pub fn put_i32(&mut self, v: i32) -> Result<(), NoMemory>
        ensures ok { OnOk result (self.new ≡ self.old ++ signed v) }
        ensures err { OnErr result (self.new ≡ self.old) }
    {
        self.put_u32(v.cast_unsigned())
    }

    /// Writes a truth value. For want of memory nothing is written.
    pub fn put_bool(&mut self, v: bool) -> Result<(), NoMemory>
        ensures ok { OnOk result (self.new ≡ self.old ++ truth v) }
        ensures err { OnErr result (self.new ≡ self.old) }
    {
        self.put_u32(u32::from(v))
    }

    /// Writes an opaque, with its length and its padding. For want of memory nothing is written.
    pub fn put_bytes(&mut self, v: &[u8]) -> Result<(), NoMemory>
        requires { length v.now < 2 ^ 32 }
        ensures ok { OnOk result (self.new ≡ self.old ++ opaque v.now) }
        ensures err { OnErr result (self.new ≡ self.old) }
    {
        self.bytes.reserve(opaque_len(v.len()))?;
        let len = v.len() as u32;
        self.bytes.extend_from_slice(&len.to_be_bytes())?;
        self.bytes.extend_from_slice(v)?;
        self.bytes.extend_from_slice(&ZEROS[..padding(v.len())])?;
        Ok(())
    }

    /// The bytes written. It takes no memory.
    pub fn finish(self) -> Bytes
        ensures { result ≡ self }
    {
        Bytes::new(self.bytes)
    }
}
