//! A line split into words.
ghost use Rattle.std.specs.Prelude.{◌≡◌, ◌∷◌, [], length, IfOk, MatchOption};
ghost use Rattle.cell_script.specs.Words.{is_blank, has_outer_blank, inner_words, words_of};

use std::alloc::Global;
use std::marker::Model;
use ubik_types::{Bytes, NoMemory, bytes_of};

/// A list of words. Contracts see the list of their bytes.
#[derive(Drop)]
pub struct Words {
    list: Vec<Bytes>,
}

impl Model for Words {
    ghost use Rattle.std.specs.Prelude.{ℕ, List};

    ghost Value = { List (List ℕ) };

    ghost view = { λ w. w.list.items };
}

impl Words {
    /// The words in their order.
    pub fn as_slice(&self) -> &[Bytes]
        ensures { result.now ≡ self.now }
    {
        self.list.as_slice()
    }

    /// Takes the first word away, where there is one.
    pub fn take_first(&mut self) -> Option<Bytes>
        ensures { MatchOption result ((self.old ≡ []) × (self.new ≡ [])) (λ word. self.old ≡ word ∷ self.new) }
    {
        if self.list.is_empty() {
            return None;
        }
        Some(self.list.remove(0))
    }
}

/// The words of a line, which blanks separate; none where a blank stands first or last. The error is want of
/// memory.
pub fn split_words(alloc: Global, line: &[u8]) -> Result<Option<Words>, NoMemory>
    ensures { IfOk result (λ words. words ≡ words_of line.now) }
{
    if has_outer_blank(line) {
        return Ok(None);
    }
    let words = copy_words(alloc, line)?;
    Ok(Some(words))
}

/// A copy of the words of a line.
fn copy_words(alloc: Global, line: &[u8]) -> Result<Words, NoMemory>
    ensures { IfOk result (λ words. words ≡ inner_words line.now) }
{
    let mut list = Vec::new(alloc);
    for word in line.split(|byte| is_blank(*byte)) {
        if !word.is_empty() {
            let copy = bytes_of(alloc, word)?;
            list.push(copy)?;
        }
    }
    Ok(Words { list })
}

/// Whether a blank stands first or last.
fn has_outer_blank(line: &[u8]) -> bool
    ensures { result ≡ has_outer_blank line.now }
{
    match line {
        [] => false,
        [only] => is_blank(*only),
        [first, .., last] => is_blank(*first) || is_blank(*last),
    }
}

/// A blank is a space or a tab.
fn is_blank(byte: u8) -> bool
    ensures { result ≡ is_blank byte }
{
    byte == b' ' || byte == b'\t'
}
