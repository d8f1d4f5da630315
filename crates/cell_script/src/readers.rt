//! Reading a text line by line, with a limit to the bytes of a line.
ghost use Rattle.std.specs.Prelude.{◌≡◌, ◌+◌, ◌<◌, ◌≤◌, ℕ, true, false, List, [], length, IfSome, IfOk, vec_len, vec_capacity};
ghost use Rattle.disk_base.specs.Count.{HasCause};
ghost use Rattle.cell_script.specs.Lines.{ReadsLine};
ghost use Rattle.cell_script.specs.LineSteps.{TakesByte, Extends};

use disk_base::{Got, Source};
use std::alloc::Global;
use std::marker::Model;
use ubik_types::NoMemory;

/// The most bytes of a line of a script, without the LF that ends it.
pub const MAX_LINE: usize = 1024;

/// The byte that ends a line.
const LF: u8 = b'\n';

/// How the reading of a line ended.
#[derive(Clone, Copy, Debug, PartialEq, Eq)]
pub enum LineEnd {
    /// A line was read.
    Line,
    /// The line has more bytes than the limit of the reader. One byte past these was read; the rest of the line is left.
    TooLong,
    /// Nothing was left.
    End,
    /// The source failed. What was read of the line is lost.
    Failed,
}

/// Reads the lines of a source, one at a time, each of at most `LIMIT` bytes without its LF. It takes all its memory when
/// it is made, and holds one line at most. Contracts see the line that was read last, and whether the source has ended,
/// behind which it is not asked again.
#[derive(Drop)]
pub struct LimitedReader<const LIMIT: usize> {
    line: Vec<u8>,
    ended: bool,
}

/// Reads the lines of a script.
pub type LineReader = LimitedReader<MAX_LINE>;

impl<const LIMIT: usize> Model for LimitedReader<LIMIT> {
    ghost use Rattle.std.specs.Prelude.{length, ◌≤◌, vec_capacity};
    ghost use Rattle.cell_script.specs.Reader.{ReaderState};

    ghost Value = { ReaderState };

    ghost view = { λ r. record { line = r.line.items; ended = r.ended } };

    ghost invariant = { λ r. (LIMIT ≤ vec_capacity r.line) × (length r.line.items ≤ LIMIT) };
}

impl<const LIMIT: usize> LimitedReader<LIMIT> {
    /// A reader with room for one line, which holds the empty line. The error is want of memory.
    pub fn new(alloc: Global) -> Result<LimitedReader<LIMIT>, NoMemory>
        ensures { IfOk result (λ r. r ≡ record { line = []; ended = false }) }
    {
        let line = Vec::with_capacity(alloc, LIMIT)?;
        let ended = false;
        Ok(LimitedReader { line, ended })
    }

    /// The line that was read last, without its LF. It says nothing after an end other than
    /// [`LineEnd::Line`].
    pub fn line(&self) -> &[u8]
        ensures line { result.now ≡ self.now.line }
        ensures bound { length result.now ≤ LIMIT }
    {
        self.line.as_slice()
    }

    /// Reads the next line, without its LF. It reads a byte at a time, since the source is the buffer. Once the source
    /// has ended, be it behind a line that lacks its LF, nothing more is read.
    pub fn next_line<S: Source>(&mut self, source: &mut S) -> LineEnd
        ensures told { self.old.ended ≡ false →
            IfSome (S.left source.old) (λ text. ReadsLine LIMIT result text (S.left source.new) self.new.line self.new.ended) }
        ensures ended { self.old.ended ≡ true → (result ≡ LineEnd.End) × (source.new ≡ source.old) × (self.new ≡ self.old) }
        ensures cause { HasCause (S.faults source.old) (S.faults source.new) (result ≡ LineEnd.Failed) }
    {
        if self.ended {
            return LineEnd::End;
        }
        self.line.clear();
        loop {
            if let Some(end) = extend_line::<LIMIT, S>(&mut self.line, &mut self.ended, source) {
                return end;
            }
        }
    }
}

/// What stands next in a source.
enum Next {
    Byte(u8),
    End,
    Failed,
}

/// Takes one byte from a source.
fn next_byte<S: Source>(source: &mut S) -> Next
    ensures told { IfSome (S.left source.old) (λ text. TakesByte result text (S.left source.new)) }
    ensures cause { HasCause (S.faults source.old) (S.faults source.new) (result ≡ Next.Failed) }
{
    let mut buf = [0u8; 1];
    match source.read(&mut buf) {
        Got::Bytes(_) => Next::Byte(buf[0]),
        Got::End => Next::End,
        Got::Failed => Next::Failed,
    }
}

/// Reads one byte of a line, or notes that the source has ended. It says how the line ended, or nothing where the byte
/// was added to it.
fn extend_line<const LIMIT: usize, S: Source>(
    line: &mut Vec<u8>,
    ended: &mut bool,
    source: &mut S,
) -> Option<LineEnd>
    requires room { LIMIT ≤ vec_capacity line.old }
    requires bound { length line.old.items ≤ LIMIT }
    requires going { ended.old ≡ false }
    ensures told { IfSome (S.left source.old)
        (λ text. Extends LIMIT result text (S.left source.new) line.old.items line.new.items ended.new) }
    ensures room { LIMIT ≤ vec_capacity line.new }
    ensures bound { length line.new.items ≤ LIMIT }
    ensures longer { result ≡ None → length line.new.items ≡ length line.old.items + 1 }
    ensures going { result ≡ None → ended.new ≡ false }
    ensures cause { HasCause (S.faults source.old) (S.faults source.new) (result ≡ Some LineEnd.Failed) }
{
    match next_byte(source) {
        Next::Byte(LF) => Some(LineEnd::Line),
        Next::Byte(_) if line.len() == LIMIT => Some(LineEnd::TooLong),
        Next::Byte(byte) => {
            line.push(byte).unwrap();
            None
        }
        Next::End => {
            *ended = true;
            Some(if line.is_empty() {
                LineEnd::End
            } else {
                LineEnd::Line
            })
        }
        Next::Failed => Some(LineEnd::Failed),
    }
}
