//! The write that a sync site began at another server.
ghost use Rattle.std.specs.Prelude.{◌≡◌, None, replicate, option_and_then, IfOk, OnOk, OnErr};
ghost use Rattle.cell_model.specs.Pieces.{joined};
ghost use Rattle.cell_model.specs.Receiver.{empty_write, changes_of_length, whole_changes};
ghost use Rattle.ubik_write.specs.Pending.{with_piece_at};

use crate::texts::changes_in;
use std::alloc::Global;
use std::marker::Model;
use ubik_types::{Bytes, Changes, NoMemory, Version, bytes_of};

/// What a begun write comes to.
#[derive(Drop)]
pub enum PendingEnd {
    /// All its pieces have come; its changes.
    Whole(Changes),
    /// A piece is missing, or the pieces are no text of changes of the length that was said.
    Missing,
    /// Memory ran out.
    NoMemory,
}

/// A begun write: its versions, the length of its text in bytes, and its pieces at their places, as far as they have come
/// (Kazar, "Ubik"; pieces are own). Contracts see the kept write of the model.
#[derive(Drop)]
pub struct Pending {
    old_version: Version,
    new_version: Version,
    len: u32,
    pieces: Vec<Option<Bytes>>,
}

impl Model for Pending {
    ghost use Rattle.cell_model.specs.Node.{KeptWrite};

    ghost Value = { KeptWrite };

    ghost view = { λ p. record { old = p.old_version; new = p.new_version; len = p.len; pieces = p.pieces.items } };
}

impl Pending {
    ghost use Rattle.ubik_write.specs.Pending.{EndsBy};

    /// A write of so many pieces, none of which has come. Its text is to have `len` bytes.
    pub fn begin(
        alloc: Global,
        old: Version,
        new: Version,
        pieces: u32,
        len: u32,
    ) -> Result<Pending, NoMemory>
        ensures { IfOk result (λ write. write ≡ empty_write old new pieces len) }
    {
        Ok(Pending {
            old_version: old,
            new_version: new,
            len,
            pieces: no_pieces(alloc, pieces)?,
        })
    }

    /// The version before the write, and the one after it.
    pub fn versions(&self) -> (Version, Version)
        ensures before { result.0 ≡ self.entry.now.old }
        ensures after { result.1 ≡ self.entry.now.new }
    {
        (self.old_version, self.new_version)
    }

    /// Takes a piece in, counted from 0. It takes the place of another one of its number; one at or past the count changes
    /// nothing. Where memory runs out all is as before.
    pub fn piece(&mut self, number: u32, bytes: &[u8]) -> Result<(), NoMemory>
        ensures ok { OnOk result (self.exit.now ≡ with_piece_at number bytes.now self.entry.now) }
        ensures err { OnErr result (self.exit.now ≡ self.entry.now) }
    {
        let number = number as usize;
        if number < self.pieces.len() {
            let bytes = bytes_of(*self.pieces.allocator(), bytes)?;
            self.pieces[number] = Some(bytes);
        }
        Ok(())
    }

    /// The changes whose text the pieces are, one behind the other.
    pub fn finish(&self) -> PendingEnd
        ensures { EndsBy (whole_changes self.entry.now) result }
    {
        match whole_changes(*self.pieces.allocator(), &self.pieces, self.len) {
            Ok(Some(changes)) => PendingEnd::Whole(changes),
            Ok(None) => PendingEnd::Missing,
            Err(NoMemory) => PendingEnd::NoMemory,
        }
    }
}

/// So many places for pieces.
fn no_pieces(alloc: Global, count: u32) -> Result<Vec<Option<Bytes>>, NoMemory>
    ensures { IfOk result (λ pieces. pieces.items ≡ replicate count None) }
{
    let mut pieces = Vec::new(alloc);
    for _place in 0..count {
        pieces.push(None)?;
    }
    Ok(pieces)
}

/// The changes of a text of that length, which is in pieces.
fn whole_changes(
    alloc: Global,
    pieces: &[Option<Bytes>],
    len: u32,
) -> Result<Option<Changes>, NoMemory>
    ensures { IfOk result (λ changes. changes ≡ option_and_then (changes_of_length len) (joined pieces.now)) }
{
    match joined(alloc, pieces)? {
        Some(text) if text.as_slice().len() == len as usize => changes_in(alloc, text.as_slice()),
        _ => Ok(None),
    }
}

/// The pieces one behind the other, where all of them have come.
fn joined(alloc: Global, pieces: &[Option<Bytes>]) -> Result<Option<Bytes>, NoMemory>
    ensures { IfOk result (λ text. text ≡ joined pieces.now) }
{
    let mut text = Vec::new(alloc);
    for piece in pieces {
        let Some(piece) = piece else {
            return Ok(None);
        };
        text.extend_from_slice(piece.as_slice())?;
    }
    Ok(Some(Bytes::new(text)))
}
