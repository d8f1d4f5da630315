//! A line cut into the words of a command.
ghost use Rattle.std.specs.Prelude.{◌≡◌, ◌≢◌, ◌==◌, ◌∷◌, ◌++◌, ℕ, List, [], IfOk, OnOk, option_map, string_bytes, map};
ghost use Rattle.std.specs.List.{All};
ghost use Rattle.std.specs.Str.{IsUtf8};
ghost use Rattle.command_lines.specs.Cuts.{HasNoText, is_blank, words_of, is_passed_over};

use std::alloc::Global;
use std::mem;
use thiserror::Error;
use ubik_types::{Bytes, NoMemory};

/// Why a line is no command.
#[derive(Clone, Copy, Debug, Error)]
pub enum LineFault {
    /// A quote begins and does not end.
    #[error("a quote does not end")]
    OpenQuote,
    /// A word is not UTF-8.
    #[error("a word is no text")]
    NotText,
    /// Memory ran out.
    #[error("out of memory")]
    NoMemory,
}

impl From<NoMemory> for LineFault {
    ghost use Rattle.std.specs.Prelude.{◌≡◌};
    ghost use Rattle.command_lines.specs.declared.cuts.LineFault.TheVariants as fault;

    ghost from_gives = { λ _ e. e ≡ fault.NoMemory };

    fn from(_: NoMemory) -> Self {
        LineFault::NoMemory
    }
}

/// Where a cut stands in a line.
#[derive(Clone, Copy)]
enum Place {
    /// Between two words.
    Between,
    /// In a word.
    Inside,
    /// In a word, between two quotes.
    Quoted,
}

/// A line under way: the words that have ended, and the bytes of the one that has not.
#[derive(Drop)]
struct Cutting {
    words: Vec<Bytes>,
    word: Vec<u8>,
    place: Place,
}

/// A space or a tab.
fn is_blank(byte: u8) -> bool
    ensures { result ≡ is_blank byte }
{
    byte == b' ' || byte == b'\t'
}

/// The byte that begins a part of a word that keeps its blanks, and ends it.
fn is_quote(byte: u8) -> bool
    ensures { result ≡ (byte == 34) }
{
    byte == b'"'
}

/// Whether a line is no command: nothing but blanks, or `#` in front.
pub fn is_passed_over(line: &[u8]) -> bool
    ensures { result ≡ is_passed_over line.now }
{
    let mut rest = line;
    while let [first, behind @ ..] = rest {
        if !is_blank(*first) {
            return *first == b'#';
        }
        rest = behind;
    }
    true
}

impl Cutting {
    ghost use Rattle.command_lines.specs.Cuts.{all_words};

    /// Before the first byte of a line.
    fn new(alloc: Global) -> Cutting
        ensures words { result.words.items ≡ [] }
        ensures word { result.word.items ≡ [] }
        ensures place { result.place ≡ Place.Between }
    {
        Cutting {
            words: Vec::new(alloc),
            word: Vec::new(alloc),
            place: Place::Between,
        }
    }

    /// Adds a byte to the word.
    fn push(&mut self, byte: u8, place: Place) -> Result<(), NoMemory>
        ensures words { self.new.words.items ≡ self.old.words.items }
        ensures word { OnOk result (self.new.word.items ≡ self.old.word.items ++ byte ∷ []) }
        ensures place { OnOk result (self.new.place ≡ place) }
    {
        self.word.push(byte)?;
        self.place = place;
        Ok(())
    }

    /// Ends the word.
    fn close(&mut self, alloc: Global) -> Result<(), NoMemory>
        ensures words { OnOk result (self.new.words.items ≡ self.old.words.items ++ self.old.word.items ∷ []) }
        ensures word { OnOk result (self.new.word.items ≡ []) }
        ensures place { OnOk result (self.new.place ≡ Place.Between) }
    {
        let word = mem::replace(&mut self.word, Vec::new(alloc));
        self.words.push(Bytes::new(word))?;
        self.place = Place::Between;
        Ok(())
    }

    /// Takes the next byte of the line between two words.
    fn take_between(&mut self, byte: u8) -> Result<(), NoMemory>
        requires place { self.old.place ≡ Place.Between }
        requires word { self.old.word.items ≡ [] }
        ensures words { OnOk result ((rest : List ℕ) →
            all_words self.new.words.items self.new.word.items self.new.place rest
            ≡ all_words self.old.words.items self.old.word.items self.old.place (byte ∷ rest)) }
        ensures between { OnOk result (self.new.place ≡ Place.Between → self.new.word.items ≡ []) }
    {
        if is_quote(byte) {
            self.place = Place::Quoted;
            Ok(())
        } else if is_blank(byte) {
            Ok(())
        } else {
            self.push(byte, Place::Inside)
        }
    }

    /// Takes the next byte of the line in a word.
    fn take_inside(&mut self, alloc: Global, byte: u8) -> Result<(), NoMemory>
        requires { self.old.place ≡ Place.Inside }
        ensures words { OnOk result ((rest : List ℕ) →
            all_words self.new.words.items self.new.word.items self.new.place rest
            ≡ all_words self.old.words.items self.old.word.items self.old.place (byte ∷ rest)) }
        ensures between { OnOk result (self.new.place ≡ Place.Between → self.new.word.items ≡ []) }
    {
        if is_quote(byte) {
            self.place = Place::Quoted;
            Ok(())
        } else if is_blank(byte) {
            self.close(alloc)
        } else {
            self.push(byte, Place::Inside)
        }
    }

    /// Takes the next byte of the line between two quotes.
    fn take_quoted(&mut self, byte: u8) -> Result<(), NoMemory>
        requires { self.old.place ≡ Place.Quoted }
        ensures words { OnOk result ((rest : List ℕ) →
            all_words self.new.words.items self.new.word.items self.new.place rest
            ≡ all_words self.old.words.items self.old.word.items self.old.place (byte ∷ rest)) }
        ensures between { OnOk result (self.new.place ≡ Place.Between → self.new.word.items ≡ []) }
    {
        if is_quote(byte) {
            self.place = Place::Inside;
            Ok(())
        } else {
            self.push(byte, Place::Quoted)
        }
    }

    /// Takes the next byte of the line.
    fn take(&mut self, alloc: Global, byte: u8) -> Result<(), NoMemory>
        requires { self.old.place ≡ Place.Between → self.old.word.items ≡ [] }
        ensures words { OnOk result ((rest : List ℕ) →
            all_words self.new.words.items self.new.word.items self.new.place rest
            ≡ all_words self.old.words.items self.old.word.items self.old.place (byte ∷ rest)) }
        ensures between { OnOk result (self.new.place ≡ Place.Between → self.new.word.items ≡ []) }
    {
        match self.place {
            Place::Between => self.take_between(byte),
            Place::Inside => self.take_inside(alloc, byte),
            Place::Quoted => self.take_quoted(byte),
        }
    }

    /// The words at the end of the line; none where a quote has not ended.
    fn end(mut self, alloc: Global) -> Result<Option<Vec<Bytes>>, NoMemory>
        requires { self.place ≡ Place.Between → self.word.items ≡ [] }
        ensures { IfOk result (λ words. option_map (λ list. list.items) words
            ≡ all_words self.words.items self.word.items self.place []) }
    {
        match self.place {
            Place::Between => Ok(Some(self.words)),
            Place::Inside => {
                self.close(alloc)?;
                Ok(Some(self.words))
            }
            Place::Quoted => Ok(None),
        }
    }
}

/// The words of a line; none where a quote does not end.
fn cut(alloc: Global, line: &[u8]) -> Result<Option<Vec<Bytes>>, NoMemory>
    ensures { IfOk result (λ words. option_map (λ list. list.items) words ≡ words_of line.now) }
{
    let mut cutting = Cutting::new(alloc);
    for byte in line {
        cutting.take(alloc, *byte)?;
    }
    cutting.end(alloc)
}

/// Words of bytes as words of text.
fn texts(alloc: Global, words: &[Bytes]) -> Result<Vec<String>, LineFault>
    ensures texts { IfOk result (λ texts. map string_bytes texts.items ≡ words.now) }
    ensures not_text { result ≡ Err LineFault.NotText → ¬ (All IsUtf8 words.now) }
    ensures only { result ≢ Err LineFault.OpenQuote }
{
    let mut texts = Vec::new(alloc);
    for word in words {
        let Ok(text) = str::from_utf8(word.as_slice()) else {
            return Err(LineFault::NotText);
        };
        let text = String::from_str(alloc, text).map_err(NoMemory::from)?;
        texts.push(text).map_err(NoMemory::from)?;
    }
    Ok(texts)
}

/// The words of a command that stands in a line: blanks part them, and do not where they stand between double quotes,
/// which are no part of a word. Two quotes with nothing between them are an empty word, and no mark stands for a quote.
pub fn command_words(alloc: Global, line: &[u8]) -> Result<Vec<String>, LineFault>
    ensures words { IfOk result (λ words. words_of line.now ≡ Some (map string_bytes words.items)) }
    ensures open_quote { result ≡ Err LineFault.OpenQuote → words_of line.now ≡ None }
    ensures not_text { result ≡ Err LineFault.NotText → HasNoText (words_of line.now) }
{
    match cut(alloc, line)? {
        Some(words) => texts(alloc, &words),
        None => Err(LineFault::OpenQuote),
    }
}
