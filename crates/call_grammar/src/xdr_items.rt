//! Items in bytes, both ways.
ghost use Rattle.std.specs.Prelude.{◌≡◌, ◌==◌, length, if◌then◌else◌};
ghost use Rattle.call_grammar.specs.Items.{xdr_text};
ghost use Rattle.call_grammar.specs.Reading.{xdr_item};

use crate::faults::{NoValue, NotRead};
use crate::limits::MAX_TEXT;
use crate::sinks::Sink;
use crate::sources::Source;
use ubik_types::NoMemory;
use xdr_base::{XdrReader, XdrWriter};

impl<'a> Source<'a> for XdrReader<'a> {
    ghost item_at = { xdr_item };

    fn number(&mut self) -> Result<u32, NoValue> {
        Ok(self.get_u32()?)
    }

    fn signed(&mut self) -> Result<i32, NoValue> {
        Ok(self.get_i32()?)
    }

    fn truth(&mut self) -> Result<bool, NoValue> {
        Ok(self.get_bool()?)
    }

    fn text(&mut self) -> Result<&'a [u8], NoValue> {
        Ok(self.get_bytes(MAX_TEXT)?)
    }

    fn count(&mut self, most: u32) -> Result<u32, NoValue> {
        Ok(self.get_count(most)?)
    }
}

/// That nothing is left.
pub fn at_end(reader: &XdrReader<'_>) -> Result<(), NotRead>
    ensures { result ≡ (if length reader.now.rest == 0 then Ok tt else Err NotRead.None) }
{
    Ok(reader.end()?)
}

impl Sink for XdrWriter {
    ghost text_of = { xdr_text };

    ghost written = { λ w. w };

    fn number(&mut self, n: u32) -> Result<(), NoMemory> {
        self.put_u32(n)
    }

    fn signed(&mut self, z: i32) -> Result<(), NoMemory> {
        self.put_i32(z)
    }

    fn truth(&mut self, b: bool) -> Result<(), NoMemory> {
        self.put_bool(b)
    }

    fn text(&mut self, text: &[u8]) -> Result<(), NoMemory> {
        self.put_bytes(text)
    }
}
