//! The write in flight of the sync site.
ghost use Rattle.std.specs.Prelude.{◌≡◌, ◌≤◌, ◌<◌, ◌+◌, ◌^◌, List, ℕ, length, take, drop, IfOk, IfSome, IsErrOf};
ghost use Rattle.ubik_types.specs.declared.images.Change.{Change};
ghost use Rattle.ubik_types.specs.declared.limits.TheConstants.{MAXSERVERS};
ghost use Rattle.ubik_types.specs.Image.{effect};
ghost use Rattle.xdr_base.specs.ChangeText.{text_of};
ghost use Rattle.db_image.specs.Images.{OnlyReads};
ghost use Rattle.cell_model.specs.Pieces.{piece_count, numbered_piece};
ghost use Rattle.ubik_write.specs.Flight.{IsFlightOf, Undoes, kept_by};
ghost use Rattle.ubik_write.specs.Undo.{ShowsWithin, IsUndone};

use crate::searches::{are_ascending, between};
use crate::texts::text_of;
use crate::undo::{Patch, undo_of, undone};
use db_image::ImageRead;
use std::alloc::{AllocError, AllocFailed, Global};
use std::marker::Model;
use thiserror::Error;
use ubik_calls::MAX_PIECE;
use ubik_types::{Bytes, Changes, MAXSERVERS, Marks, NoMemory, Version};

/// Why no flight was made.
#[derive(Clone, Copy, Debug, PartialEq, Eq, Error)]
pub enum FlightFault {
    /// What holds the image failed.
    #[error("the disk failed")]
    DiskFault,
    /// Memory ran out.
    #[error("out of memory")]
    NoMemory,
}

impl From<NoMemory> for FlightFault {
    ghost use Rattle.std.specs.Prelude.{◌≡◌};
    ghost use Rattle.ubik_write.specs.declared.flights.FlightFault.TheVariants as fault;

    ghost from_gives = { λ _ e. e ≡ fault.NoMemory };

    fn from(_: NoMemory) -> Self {
        FlightFault::NoMemory
    }
}

impl From<AllocError> for FlightFault {
    ghost use Rattle.std.specs.Prelude.{◌≡◌};
    ghost use Rattle.ubik_write.specs.declared.flights.FlightFault.TheVariants as fault;

    ghost from_gives = { λ _ e. e ≡ fault.NoMemory };

    fn from(_: AllocError) -> Self {
        FlightFault::NoMemory
    }
}

impl<T: Drop> From<AllocFailed<T>> for FlightFault {
    ghost use Rattle.std.specs.Prelude.{◌≡◌};
    ghost use Rattle.ubik_write.specs.declared.flights.FlightFault.TheVariants as fault;

    ghost from_gives = { λ _ e. e ≡ fault.NoMemory };

    fn from(_: AllocFailed<T>) -> Self {
        FlightFault::NoMemory
    }
}

/// A write in flight: the call that made it and when, in seconds, its versions, the servers that have it, the text of its
/// changes, and what they overwrote of the image before it (Kazar, "Ubik"; undo bytes and pieces are own).
#[derive(Drop)]
pub struct Flight {
    id: u32,
    began: u32,
    old_version: Version,
    new_version: Version,
    holders: [bool; MAXSERVERS],
    old_len: u32,
    undo: Vec<Patch>,
    /// Whether the patches ascend, so that a read can search for those that it needs.
    ascending: bool,
    text: Bytes,
}

impl Model for Flight {
    ghost use Rattle.ubik_write.specs.Flight.{FlightRecord};

    ghost Value = { FlightRecord };

    ghost use Rattle.ubik_write.specs.View.{flight_of, IsInOrder};

    ghost view = { flight_of };

    ghost invariant = { IsInOrder };
}

impl Flight {
    /// The flight of changes that are to be made to an image. Nobody has it yet. After a fault of the image, as for want of
    /// memory, the image has the bytes that it had.
    pub fn make<I: ImageRead>(
        alloc: Global,
        id: u32,
        old: Version,
        new: Version,
        now: u32,
        changes: &Changes,
        image: &mut I,
    ) -> Result<Flight, FlightFault>
        requires { length (text_of changes.now) < 2 ^ 32 }
        ensures flight { IfOk result (λ f. IsFlightOf id old new now changes.now f) }
        ensures undo { IfOk result (λ f. IfSome (I.held image.old) (λ bytes. Undoes f bytes changes.now)) }
        ensures len { IfOk result (λ f. f.old_len ≡ I.size image.old) }
        ensures reads { OnlyReads I.ImageRead image.old image.new (IsErrOf result FlightFault.DiskFault) }
    {
        let text = text_of(alloc, changes)?;
        let old_len = image.len();
        let undo = undo_of(alloc, changes, image)?;
        let ascending = are_ascending(&undo);
        Ok(Flight {
            id,
            began: now,
            old_version: old,
            new_version: new,
            holders: [false; MAXSERVERS],
            old_len,
            undo,
            ascending,
            text,
        })
    }

    /// The id of the call that made it, its versions, and the moment at which it began.
    pub fn ids(&self) -> (u32, Version, Version, u32)
        ensures id { result.0 ≡ self.now.id }
        ensures old { result.1 ≡ self.now.old_version }
        ensures new { result.2 ≡ self.now.new_version }
        ensures began { result.3 ≡ self.now.began }
    {
        (self.id, self.old_version, self.new_version, self.began)
    }

    /// Makes of a read of the image after the changes what the image before them had there. Of bytes behind the end of the
    /// image after the changes it does not matter what the buffer has.
    pub fn undone(&self, at: u32, buf: &mut [u8])
        requires { at + length buf.old ≤ self.now.old_len }
        ensures bytes { IsUndone self.now.undo at buf.old buf.new }
        ensures image { (image : List ℕ) (changes : List Change) → Undoes self.now image changes
            → ShowsWithin at (effect image changes) buf.old → buf.new ≡ take (length buf.old) (drop at image) }
    {
        let undo = if self.ascending {
            between(&self.undo, at, at as usize + buf.len())
        } else {
            self.undo.as_slice()
        };
        undone(undo, at, buf);
    }

    /// The length of the image before the changes.
    pub fn old_len(&self) -> u32
        ensures { result ≡ self.now.old_len }
    {
        self.old_len
    }

    /// A server has the new version.
    pub fn kept(&mut self, from: usize)
        requires { from < MAXSERVERS }
        ensures { self.new ≡ kept_by self.old from }
    {
        self.holders[from] = true;
    }

    /// The servers that have the new version.
    pub fn holders(&self) -> Marks
        ensures { result.set ≡ self.now.holders }
    {
        Marks { set: self.holders }
    }

    /// How many bytes the text of the changes has.
    pub fn text_len(&self) -> u32
        ensures { result ≡ length self.now.text }
    {
        self.text.as_slice().len() as u32
    }

    /// How many pieces the text of the changes has, all but the last of 8,192 bytes.
    pub fn pieces(&self) -> u32
        ensures { result ≡ piece_count self.now.text }
    {
        let len = self.text.as_slice().len();
        ((len + (MAX_PIECE - 1)) / MAX_PIECE) as u32
    }

    /// A piece of the text of the changes, counted from 0.
    pub fn piece(&self, number: u32) -> &[u8]
        requires { number < piece_count self.now.text }
        ensures { result.now ≡ numbered_piece self.now.text number }
    {
        let text = self.text.as_slice();
        let at = number as usize * MAX_PIECE;
        &text[at..text.len().min(at + MAX_PIECE)]
    }
}
