//! Bytes, as the words of a line write them: parts joined by `+`. A part is a text in quotes, hexadecimal digits, `$` and a name, or `-`
//! for none; `*N` behind it repeats it, `[A..B]` then takes a range of it, and `@N=PART` lays other bytes over it from a position on.
use session_rows::{Fault, long_in, push_digits};
use std::alloc::Global;

/// Names and the bytes that they stand for.
#[derive(Drop)]
pub struct Names {
    alloc: Global,
    list: Vec<Name>,
}

#[derive(Drop)]
struct Name {
    name: String,
    bytes: Vec<u8>,
}

impl Names {
    pub fn new(alloc: Global) -> Names {
        Names {
            alloc,
            list: Vec::new(alloc),
        }
    }

    /// Gives bytes a name, as `NAME BYTES`.
    pub fn add(&mut self, text: &str) -> Result<(), Fault> {
        let (name, word) = text.split_once(' ').ok_or(Fault::Form)?;
        let bytes = self.bytes_of(word)?;
        let name = String::from_str(self.alloc, name)?;
        self.list.push(Name { name, bytes })?;
        Ok(())
    }

    /// The bytes that a word writes.
    pub fn bytes_of(&self, word: &str) -> Result<Vec<u8>, Fault> {
        let mut parts = word.split('+');
        let mut bytes = match parts.next() {
            Some(first) => self.part(first)?,
            None => Vec::new(self.alloc),
        };
        for part in parts {
            bytes.extend_from_slice(&self.part(part)?)?;
        }
        Ok(bytes)
    }

    /// Bytes, over which others may be laid, within their length.
    fn part(&self, word: &str) -> Result<Vec<u8>, Fault> {
        let Some((below, laid)) = word.split_once('@') else {
            return self.range(word);
        };
        let mut bytes = self.range(below)?;
        for patch in laid.split('@') {
            let (at, over) = patch.split_once('=').ok_or(Fault::Form)?;
            let (at, over) = (long_in(at)? as usize, self.range(over)?);
            if at > bytes.len() || over.len() > bytes.len() - at {
                return Err(Fault::Form);
            }
            bytes[at..at + over.len()].copy_from_slice(&over);
        }
        Ok(bytes)
    }

    /// Bytes, or a range of them; where a bound is left out, it is theirs.
    fn range(&self, word: &str) -> Result<Vec<u8>, Fault> {
        let Some((whole, range)) = word.split_once('[') else {
            return self.repeated(word);
        };
        let bytes = self.repeated(whole)?;
        let (from, to) = range.split_once("..").ok_or(Fault::Form)?;
        let (to, _) = to.split_once(']').ok_or(Fault::Form)?;
        let len = bytes.len();
        let from = if from.is_empty() {
            0
        } else {
            long_in(from)? as usize
        };
        let to = if to.is_empty() {
            len
        } else {
            long_in(to)? as usize
        };
        if from.min(len) > to.min(len) {
            return Err(Fault::Form);
        }
        Ok(bytes[from.min(len)..to.min(len)].to_vec(self.alloc)?)
    }

    /// Bytes, or so many times the same.
    fn repeated(&self, word: &str) -> Result<Vec<u8>, Fault> {
        let Some((once, times)) = word.split_once('*') else {
            return self.atom(word);
        };
        let (once, times) = (self.atom(once)?, long_in(times)? as usize);
        if let [byte] = once.as_slice() {
            return Ok(vec![in self.alloc; *byte; times]?);
        }
        let mut bytes = Vec::new(self.alloc);
        for _ in 0..times {
            bytes.extend_from_slice(&once)?;
        }
        Ok(bytes)
    }

    fn atom(&self, word: &str) -> Result<Vec<u8>, Fault> {
        let mut bytes = Vec::new(self.alloc);
        match word.as_bytes() {
            [] => return Err(Fault::Form),
            b"-" => {}
            [b'"', text @ .., b'"'] => bytes.extend_from_slice(text)?,
            [b'$', name @ ..] => {
                for known in &self.list {
                    if known.name.as_bytes() == name {
                        return Ok(known.bytes.clone()?);
                    }
                }
                return Err(Fault::Form);
            }
            _ => push_digits(&mut bytes, word)?,
        }
        Ok(bytes)
    }
}
