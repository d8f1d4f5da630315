//! The write in flight with the answer of its call.
ghost use Rattle.std.specs.Prelude.{◌≡◌, ◌<◌, length};
ghost use Rattle.xdr_base.specs.ChangeText.{text_of};
ghost use Rattle.cell_model.specs.Pieces.{piece_count, numbered_piece};
ghost use Rattle.site_writes.specs.OwnWrite.{own_write};

use ghost_values::{Ghost, Says};
use std::marker::Model;
use ubik_types::{Bytes, Changes, Version};
use ubik_write::Flight;

/// A write in flight, and the answer that its call gets once a majority of the servers has it (Kazar, "Ubik"). Contracts see
/// the call, the image before the write and its changes too, which no memory holds.
#[derive(Drop)]
pub struct OwnWrite {
    flight: Flight,
    answer: Bytes,
    call: Ghost<Bytes>,
    old_image: Ghost<Bytes>,
    changes: Ghost<Changes>,
}

impl Model for OwnWrite {
    ghost use Rattle.site_writes.specs.OwnWrite.{OwnRecord};

    ghost Value = { OwnRecord };

    ghost use Rattle.site_writes.specs.OwnView.{own_of, IsOfItsChanges};

    ghost view = { own_of };

    ghost invariant = { IsOfItsChanges };
}

/// How contracts see a call and its changes.
struct Seen;

impl<'a> Says<&'a [u8], Bytes> for Seen {
    ghost says = { λ call. call.now };
}

impl Says<Changes, Changes> for Seen {
    ghost says = { λ changes. changes };
}

impl OwnWrite {
    /// The write of a flight of these changes to an image, with its call and the answer of that. It takes no memory.
    pub fn new(
        flight: Flight,
        answer: Bytes,
        call: &[u8],
        changes: &Changes,
        old_image: Ghost<Bytes>,
    ) -> OwnWrite
        requires text { flight.text ≡ text_of changes.now }
        requires len { flight.old_len ≡ length old_image.value }
        ensures { result ≡ own_write flight answer call.now old_image.value changes.now }
    {
        OwnWrite {
            flight,
            answer,
            call: Ghost::of::<&[u8], Seen>(&call),
            old_image,
            changes: Ghost::of::<Changes, Seen>(changes),
        }
    }

    /// The id of its call.
    pub fn id(&self) -> u32
        ensures { result ≡ self.now.flight.id }
    {
        let (id, _, _, _) = self.flight.ids();
        id
    }

    /// The moment at which its call was evaluated, in seconds.
    pub fn began(&self) -> u32
        ensures { result ≡ self.now.flight.began }
    {
        let (_, _, _, began) = self.flight.ids();
        began
    }

    /// The version before the write, and the one after it.
    pub fn versions(&self) -> (Version, Version)
        ensures before { result.0 ≡ self.now.kept.old_version }
        ensures after { result.1 ≡ self.now.kept.new_version }
    {
        let (_, before, after, _) = self.flight.ids();
        (before, after)
    }

    /// The answer of its call.
    pub fn answer(&self) -> &[u8]
        ensures { result.now ≡ self.now.flight.answer }
    {
        self.answer.as_slice()
    }

    /// Gives the answer out, without taking memory.
    pub fn into_answer(self) -> Bytes
        ensures { result ≡ self.flight.answer }
    {
        self.answer
    }

    /// How many bytes the text of its changes has.
    pub fn text_len(&self) -> u32
        ensures { result ≡ length (text_of self.now.flight.changes) }
    {
        self.flight.text_len()
    }

    /// How many pieces the text of its changes has, all but the last of 8,192 bytes.
    pub fn pieces(&self) -> u32
        ensures { result ≡ piece_count (text_of self.now.flight.changes) }
    {
        self.flight.pieces()
    }

    /// A piece of the text of its changes, counted from 0.
    pub fn piece(&self, number: u32) -> &[u8]
        requires { number < piece_count (text_of self.now.flight.changes) }
        ensures { result.now ≡ numbered_piece (text_of self.now.flight.changes) number }
    {
        self.flight.piece(number)
    }

    /// The length of the image before it, in bytes.
    pub fn old_len(&self) -> u32
        ensures { result ≡ length self.now.flight.old_image }
    {
        self.flight.old_len()
    }

    /// What is kept of it, through which the image before it is read.
    pub fn flight(&self) -> &Flight
        ensures flight { result.now ≡ self.now.kept }
        ensures len { self.now.kept.old_len ≡ length self.now.flight.old_image }
        ensures text { self.now.kept.text ≡ text_of self.now.flight.changes }
    {
        &self.flight
    }
}
