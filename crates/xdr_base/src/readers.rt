//! A reader of XDR items over a slice.
ghost use Rattle.std.specs.Prelude.{◌≡◌, ◌≤◌, ◌<◌, ◌+◌, ◌^◌, ◌++◌, ◌↔◌, ℕ, ℤ, Bool, List, [], length, take, drop, replicate, IfOk, IfErr, IsOk, IsOkAnd, FitsSigned, IsTrue, ◌==◌};
ghost use Rattle.std.specs.List.{list_all};
ghost use Rattle.std.specs.Int.{w32};
ghost use Rattle.xdr_base.specs.Spelling.{word, signed, truth, opaque, opaque_len};
ghost use Rattle.xdr_base.specs.Spelling.{padding as padding_of};
ghost use Rattle.xdr_base.specs.Reading.{at_start, past, word_at, signed_at, truth_at, count_at, body_at, opaque_at, is_padded, Gives, Gets, Passes};

use crate::faults::XdrFault;
use crate::sizes::{WORD, opaque_len, padding};
use std::marker::Model;
use ubik_types::first_word;

/// Reads items from left to right. It takes no memory: the opaques that it gives are slices of what it was
/// made over. A get that is refused leaves it where it was. Contracts see the place of its next byte and the
/// bytes from there on.
#[derive(Debug, Drop)]
pub struct XdrReader<'a> {
    rest: &'a [u8],
    place: usize,
}

impl<'a> Model for XdrReader<'a> {
    ghost use Rattle.std.specs.Prelude.{◌<◌, ◌+◌, ◌^◌, length};
    ghost use Rattle.xdr_base.specs.Reading.{Reading};

    ghost Value = { Reading };

    ghost view = { λ r. record { place = r.place; rest = r.rest.now } };

    ghost invariant = { λ r. r.place + length r.rest.now < 2 ^ 64 };
}

impl<'a> XdrReader<'a> {
    /// The reader at the first of these bytes.
    pub fn new(bytes: &'a [u8]) -> XdrReader<'a>
        ensures { result ≡ at_start bytes.now }
    {
        XdrReader {
            rest: bytes,
            place: 0,
        }
    }

    /// The next number; `Short` where fewer than four bytes are left.
    pub fn get_u32(&mut self) -> Result<u32, XdrFault>
        ensures exact { Gets (λ n. n) self.old self.new result (word_at self.old) }
        ensures found { IfOk result (λ n. Passes self.old (word n) self.new) }
        ensures back { (n : ℕ) (after : List ℕ) → n < 2 ^ 32 → self.old.rest ≡ word n ++ after →
            IsOkAnd result (λ m. (m ≡ n) × (self.new.rest ≡ after)) }
    {
        self.next_word()
    }

    /// The next signed number; `Short` where fewer than four bytes are left.
    pub fn get_i32(&mut self) -> Result<i32, XdrFault>
        ensures exact { Gets (λ z. z) self.old self.new result (signed_at self.old) }
        ensures found { IfOk result (λ z. Passes self.old (signed z) self.new) }
        ensures back { (z : ℤ) (after : List ℕ) → FitsSigned w32 z → self.old.rest ≡ signed z ++ after →
            IsOkAnd result (λ y. (y ≡ z) × (self.new.rest ≡ after)) }
    {
        self.next_signed()
    }

    /// The next truth value; `Short` where fewer than four bytes are left, else `BadBool` where the word is
    /// neither 0 nor 1.
    pub fn get_bool(&mut self) -> Result<bool, XdrFault>
        ensures exact { Gets (λ b. b) self.old self.new result (truth_at self.old) }
        ensures found { IfOk result (λ b. Passes self.old (truth b) self.new) }
        ensures back { (b : Bool) (after : List ℕ) → self.old.rest ≡ truth b ++ after →
            IsOkAnd result (λ c. (c ≡ b) × (self.new.rest ≡ after)) }
    {
        self.next_truth()
    }

    /// The next opaque, of at most `most` bytes; `Short` where not even its length is whole, else `TooLong`
    /// where that is above `most`, else `Short` where its bytes and its padding do not all stand there, else
    /// `Padding` where a byte of the padding is not zero.
    pub fn get_bytes(&mut self, most: u32) -> Result<&'a [u8], XdrFault>
        ensures exact { Gets (λ bytes. bytes.now) self.old self.new result (opaque_at most self.old) }
        ensures found { IfOk result (λ bytes. Passes self.old (opaque bytes.now) self.new) }
        ensures most { IfOk result (λ bytes. length bytes.now ≤ most) }
        ensures back { (bytes after : List ℕ) → length bytes ≤ most → self.old.rest ≡ opaque bytes ++ after →
            IsOkAnd result (λ found. (found.now ≡ bytes) × (self.new.rest ≡ after)) }
    {
        self.next_opaque(most)
    }

    /// How many items follow, at most `most`; `Short` where fewer than four bytes are left, else `TooLong`
    /// where the number is above `most`.
    pub fn get_count(&mut self, most: u32) -> Result<u32, XdrFault>
        ensures exact { Gets (λ n. n) self.old self.new result (count_at most self.old) }
        ensures found { IfOk result (λ n. Passes self.old (word n) self.new) }
        ensures most { IfOk result (λ n. n ≤ most) }
        ensures back { (n : ℕ) (after : List ℕ) → n ≤ most → self.old.rest ≡ word n ++ after →
            IsOkAnd result (λ m. (m ≡ n) × (self.new.rest ≡ after)) }
    {
        self.next_count(most)
    }

    /// That nothing is left; `Rest` where something is.
    pub fn end(&self) -> Result<(), XdrFault>
        ensures done { IsOk result ↔ (self.now.rest ≡ []) }
        ensures left { IfErr result (λ fault. fault ≡ XdrFault.Rest (length self.now.rest)) }
    {
        if self.rest.is_empty() {
            return Ok(());
        }
        let left = self.rest.len();
        Err(XdrFault::Rest { left })
    }

    fn next_word(&mut self) -> Result<u32, XdrFault>
        ensures exact { Gets (λ n. n) self.old self.new result (word_at self.old) }
        ensures found { IfOk result (λ n. Passes self.old (word n) self.new) }
    {
        let number = self.word()?;
        self.pass(WORD);
        Ok(number)
    }

    #[tactic(auto, unfolding(crate::specs::Reading::signed_at))]
    fn next_signed(&mut self) -> Result<i32, XdrFault>
        ensures exact { Gets (λ z. z) self.old self.new result (signed_at self.old) }
        ensures found { IfOk result (λ z. Passes self.old (signed z) self.new) }
    {
        Ok(self.next_word()?.cast_signed())
    }

    #[tactic(auto, unfolding(crate::specs::Reading::truth_at))]
    fn next_truth(&mut self) -> Result<bool, XdrFault>
        ensures exact { Gets (λ b. b) self.old self.new result (truth_at self.old) }
        ensures found { IfOk result (λ b. Passes self.old (truth b) self.new) }
    {
        let value = match self.word()? {
            0 => false,
            1 => true,
            value => return Err(XdrFault::BadBool { value }),
        };
        self.pass(WORD);
        Ok(value)
    }

    fn next_count(&mut self, most: u32) -> Result<u32, XdrFault>
        ensures exact { Gets (λ n. n) self.old self.new result (count_at most self.old) }
        ensures found { IfOk result (λ n. Passes self.old (word n) self.new) }
        ensures most { IfOk result (λ n. n ≤ most) }
    {
        let count = self.count(most)?;
        self.pass(WORD);
        Ok(count)
    }

    #[tactic(auto, unfolding(crate::specs::Reading::opaque_at))]
    fn next_opaque(&mut self, most: u32) -> Result<&'a [u8], XdrFault>
        ensures exact { Gets (λ bytes. bytes.now) self.old self.new result (opaque_at most self.old) }
        ensures found { IfOk result (λ bytes. Passes self.old (opaque bytes.now) self.new) }
        ensures most { IfOk result (λ bytes. length bytes.now ≤ most) }
    {
        let len = self.count(most)? as usize;
        let bytes = self.body(len)?;
        self.pass(opaque_len(len));
        Ok(bytes)
    }

    /// The word at the place. The reader stays.
    fn word(&self) -> Result<u32, XdrFault>
        ensures there { Gives (λ n. (n, past WORD self.now)) result (word_at self.now) }
        ensures fits { IsOk result → WORD ≤ length self.now.rest }
        ensures found { IfOk result (λ n. self.now.rest ≡ word n ++ drop WORD self.now.rest) }
    {
        match first_word(self.rest) {
            Some((number, _)) => Ok(number),
            None => Err(XdrFault::Short { at: self.place }),
        }
    }

    /// The word at the place, which is at most `most`. The reader stays.
    #[tactic(auto, unfolding(crate::specs::Reading::count_at))]
    fn count(&self, most: u32) -> Result<u32, XdrFault>
        ensures there { Gives (λ n. (n, past WORD self.now)) result (count_at most self.now) }
        ensures fits { IsOk result → WORD ≤ length self.now.rest }
        ensures found { IfOk result (λ n. self.now.rest ≡ word n ++ drop WORD self.now.rest) }
        ensures most { IfOk result (λ n. n ≤ most) }
    {
        let len = self.word()?;
        if len > most {
            return Err(XdrFault::TooLong { len });
        }
        Ok(len)
    }

    /// The opaque at the place, whose length is known. The reader stays.
    fn body(&self, len: usize) -> Result<&'a [u8], XdrFault>
        requires { len < 2 ^ 32 }
        ensures there { Gives (λ bytes. (bytes.now, past (opaque_len len) self.now)) result (body_at len self.now) }
        ensures fits { IsOk result → opaque_len len ≤ length self.now.rest }
        ensures found { IfOk result (λ bytes. drop WORD self.now.rest
            ≡ bytes.now ++ replicate (padding_of len) 0 ++ drop (opaque_len len) self.now.rest) }
        ensures len { IfOk result (λ bytes. length bytes.now ≡ len) }
    {
        let size = opaque_len(len);
        if self.rest.len() < size {
            return Err(XdrFault::Short { at: self.place });
        }
        if !self.is_padded(len) {
            return Err(XdrFault::Padding { at: self.place });
        }
        Ok(&self.rest[WORD..WORD + len])
    }

    /// Whether the bytes behind an opaque of this length are zero, up to whole words.
    fn is_padded(&self, len: usize) -> bool
        requires len { len < 2 ^ 32 }
        requires fits { opaque_len len ≤ length self.now.rest }
        ensures { result ≡ is_padded len self.now }
    {
        let end = WORD + len;
        self.rest[end..end + padding(len)]
            .iter()
            .all(|byte| *byte == 0)
    }

    /// Goes on by some bytes.
    fn pass(&mut self, len: usize)
        requires { len ≤ length self.old.rest }
        ensures { self.new ≡ past len self.old }
    {
        self.rest = &self.rest[len..];
        self.place += len;
    }
}
