//! Items in words of a script, both ways.
ghost use Rattle.std.specs.Prelude.{◌≡◌, ◌≤◌, ◌==◌, ◌++◌, ◌∷◌, [], length, IsTrue, OnOk};
ghost use Rattle.call_grammar.specs.Reading.{Reads, Stands};
ghost use Rattle.call_grammar.specs.Words.{are_quotes, are_visible, first_word, is_plain, is_quotes, quoted, text_of_word, told, truth_of_word, unquoted, word_item};

use crate::faults::NoValue;
use crate::limits::MAX_TEXT;
use crate::sinks::Sink;
use crate::sources::Source;
use script_words::{number_within, signed_number};
use std::alloc::Global;
use std::marker::Model;
use ubik_types::{Bytes, NoMemory};

/// Reads items from words, from left to right.
#[derive(Drop)]
pub struct WordReader<'a> {
    words: &'a [Bytes],
}

impl<'a> Model for WordReader<'a> {
    ghost use Rattle.std.specs.Prelude.{ℕ, List};

    ghost Value = { List (List ℕ) };

    ghost view = { λ s. s.words.now };
}

impl<'a> WordReader<'a> {
    /// The reader at the first of these words.
    pub fn new(words: &'a [Bytes]) -> WordReader<'a>
        ensures { result ≡ words.now }
    {
        WordReader { words }
    }

    /// That nothing is left.
    pub fn is_at_end(&self) -> bool
        ensures { result ≡ (length self.now == 0) }
    {
        self.words.is_empty()
    }

    /// The next word.
    pub fn word(&mut self) -> Result<&'a [u8], NoValue>
        ensures { Reads (λ word. word.now) self.new result (first_word self.old) }
    {
        match self.words {
            [] => Err(NoValue),
            [first, rest @ ..] => {
                self.words = rest;
                Ok(first.as_slice())
            }
        }
    }
}

/// The truth value that a word stands for.
fn truth_of(word: &[u8]) -> Option<bool>
    ensures { result ≡ truth_of_word word.now }
{
    if word == b"0".as_slice() {
        Some(false)
    } else if word == b"1".as_slice() {
        Some(true)
    } else {
        None
    }
}

fn are_quotes(text: &[u8]) -> bool
    ensures { result ≡ are_quotes text.now }
{
    text.iter().all(|b| *b == b'"')
}

/// Whether a string has a word form: it has no blank and no control byte.
pub fn are_visible(text: &[u8]) -> bool
    ensures { result ≡ are_visible text.now }
{
    text.iter().all(|b| *b >= 0x21)
}

/// Whether a word is quote marks, one or more.
fn is_quotes(word: &[u8]) -> bool
    ensures value { result ≡ is_quotes word.now }
    ensures nonempty { IsTrue result → 1 ≤ length word.now }
{
    !word.is_empty() && are_quotes(word)
}

/// Whether a word stands for itself.
fn is_plain(word: &[u8]) -> bool
    ensures { result ≡ is_plain word.now }
{
    !word.is_empty() && are_visible(word)
}

/// The string that a word stands for, however long it is.
#[tactic(auto, unfolding(crate::specs::Words::unquoted))]
fn unquoted(word: &[u8]) -> Option<&[u8]>
    ensures { Stands (λ text. text.now) result (unquoted word.now) }
{
    if is_quotes(word) {
        match word.len() {
            1 => Some(word),
            3 => None,
            _ => {
                let (_, text) = word.split_at(2);
                Some(text)
            }
        }
    } else if is_plain(word) {
        Some(word)
    } else {
        None
    }
}

/// The string of at most [`MAX_TEXT`] bytes that a word stands for.
#[tactic(auto, unfolding(crate::specs::Words::text_of_word))]
fn text_of_word(word: &[u8]) -> Option<&[u8]>
    ensures { Stands (λ text. text.now) result (text_of_word word.now) }
{
    let text = unquoted(word)?;
    if text.len() <= MAX_TEXT as usize {
        Some(text)
    } else {
        None
    }
}

#[tactic(auto, unfolding(crate::specs::Words::one_at))]
impl<'a> Source<'a> for WordReader<'a> {
    ghost item_at = { word_item };

    fn number(&mut self) -> Result<u32, NoValue> {
        let word = self.word()?;
        number_within(word, 0, u32::MAX).ok_or(NoValue)
    }

    fn signed(&mut self) -> Result<i32, NoValue> {
        let word = self.word()?;
        signed_number(word).ok_or(NoValue)
    }

    fn truth(&mut self) -> Result<bool, NoValue> {
        let word = self.word()?;
        truth_of(word).ok_or(NoValue)
    }

    fn text(&mut self) -> Result<&'a [u8], NoValue> {
        let word = self.word()?;
        match text_of_word(word) {
            Some(text) => Ok(text),
            None => Err(NoValue),
        }
    }

    fn count(&mut self, most: u32) -> Result<u32, NoValue> {
        let word = self.word()?;
        number_within(word, 0, most).ok_or(NoValue)
    }
}

/// Writes items as words, each behind a blank. Contracts see the bytes written.
#[derive(Drop)]
pub struct WordWriter {
    alloc: Global,
    bytes: Vec<u8>,
}

impl Model for WordWriter {
    ghost use Rattle.std.specs.Prelude.{ℕ, List};

    ghost Value = { List ℕ };

    ghost view = { λ w. w.bytes.items };
}

impl WordWriter {
    /// A writer that has written nothing. It takes no memory yet.
    pub fn new(alloc: Global) -> WordWriter
        ensures { result ≡ [] }
    {
        WordWriter {
            alloc,
            bytes: Vec::new(alloc),
        }
    }

    /// The bytes written. It takes no memory.
    pub fn finish(self) -> Bytes
        ensures { result ≡ self }
    {
        Bytes::new(self.bytes)
    }

    /// Writes a word behind a blank.
    fn word(&mut self, word: &[u8]) -> Result<(), NoMemory>
        ensures { OnOk result (self.new ≡ self.old ++ 32 ∷ word.now) }
    {
        self.bytes.push(b' ')?;
        self.bytes.extend_from_slice(word)?;
        Ok(())
    }

    /// Writes the word of a string.
    #[tactic(auto, unfolding(crate::specs::Words::quoted))]
    fn quoted(&mut self, text: &[u8]) -> Result<(), NoMemory>
        ensures { OnOk result (self.new ≡ self.old ++ 32 ∷ quoted text.now) }
    {
        self.bytes.push(b' ')?;
        if are_quotes(text) && text.len() != 1 {
            self.bytes.extend_from_slice(b"\"\"")?;
        }
        self.bytes.extend_from_slice(text)?;
        Ok(())
    }
}

impl Sink for WordWriter {
    ghost text_of = { told };

    ghost written = { λ w. w };

    fn number(&mut self, n: u32) -> Result<(), NoMemory> {
        let word = n.to_string(self.alloc)?;
        self.word(word.as_bytes())
    }

    fn signed(&mut self, z: i32) -> Result<(), NoMemory> {
        let word = z.to_string(self.alloc)?;
        self.word(word.as_bytes())
    }

    fn truth(&mut self, b: bool) -> Result<(), NoMemory> {
        let word: &[u8] = if b { b"1" } else { b"0" };
        self.word(word)
    }

    fn text(&mut self, text: &[u8]) -> Result<(), NoMemory> {
        self.quoted(text)
    }
}
