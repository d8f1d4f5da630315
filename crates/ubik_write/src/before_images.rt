//! The image before a write in flight, read through the image after it.
ghost use Rattle.std.specs.Prelude.{◌≡◌, ◌+◌, ◌<◌, ◌≤◌, ℕ, List, IfSome, length, take, drop, slice_index};
ghost use Rattle.ubik_types.specs.declared.images.Change.{Change};
ghost use Rattle.ubik_types.specs.Image.{effect};
ghost use Rattle.db_image.specs.Draft.{ShowsFrom};
ghost use Rattle.db_image.specs.Images.{ReadsAtMost};
ghost use Rattle.ubik_write.specs.Flight.{FlightRecord, Undoes};
ghost use Rattle.ubik_write.specs.Undo.{image_before};

use crate::flights::Flight;
use db_image::{ImageRead, ReadEnd};

/// The image before a write in flight: the image after it, over which what the write overwrote or cut off is laid again. The
/// image after it is read as far as it goes, so no part of the one before is kept in memory but that. It is made as a literal:
/// an image that is itself lent is known again once it is taken out.
#[derive(Drop)]
pub struct BeforeImage<'a, I: ImageRead> {
    /// The image after the write.
    pub image: I,
    pub flight: &'a Flight,
}

impl<'a, I: ImageRead> ImageRead for BeforeImage<'a, I> {
    ghost use Rattle.std.specs.Prelude.{◌≡◌, refl};
    ghost use Rattle.std.proofs.Common.{◌∙◌};
    ghost use Rattle.std.specs.Option.{option_map};
    ghost use Rattle.ubik_write.specs.Undo.{image_before};

    ghost held = { λ before. option_map (image_before before.flight.now.undo before.flight.now.old_len) (I.held before.image) };

    ghost size = { λ before. before.flight.now.old_len };

    ghost faults = { λ before. I.faults before.image };

    ghost asked = { λ before. I.asked before.image };

    ghost came = { λ a b. (b.flight.now ≡ a.flight.now) × I.came a.image b.image };

    ghost comes_same = { λ before. (refl, I.comes_same before.image) };

    ghost comes_on = { λ a b c first second. (second.0 ∙ first.0, I.comes_on a.image b.image c.image first.1 second.1) };

    fn len(&self) -> u32 {
        self.flight.old_len()
    }

    fn read(&mut self, at: u32, buf: &mut [u8]) -> ReadEnd {
        let end = read_padded(&mut self.image, at, buf);
        if end == ReadEnd::Done {
            self.flight.undone(at, buf);
        }
        end
    }
}

/// Reads what an image has from a position on. Behind its end come zero bytes.
fn read_padded<I: ImageRead>(image: &mut I, at: u32, buf: &mut [u8]) -> ReadEnd
    ensures bytes { result ≡ ReadEnd.Done → IfSome (I.held image.old) (λ bytes. ShowsFrom at bytes buf.new) }
    ensures reads { ReadsAtMost I.ImageRead (length buf.old) image.old image.new (result ≡ ReadEnd.DiskFault) }
{
    clear(buf);
    let count = buf.len().min(image.len().saturating_sub(at) as usize);
    if count > 0 {
        read_front(image, at, count, buf)
    } else {
        ReadEnd::Done
    }
}

/// Makes all bytes of a buffer zero.
fn clear(buf: &mut [u8])
    ensures { (i : ℕ) → slice_index buf.new i ≡ 0 }
{
    for byte in buf.iter_mut() {
        *byte = 0;
    }
}

/// Reads so many bytes of an image into the front of a buffer.
fn read_front<I: ImageRead>(image: &mut I, at: u32, count: usize, buf: &mut [u8]) -> ReadEnd
    requires within { at + count ≤ I.size image.old }
    requires fits { count ≤ length buf.old }
    ensures front { result ≡ ReadEnd.Done → IfSome (I.held image.old) (λ bytes. take count buf.new ≡ take count (drop at bytes)) }
    ensures behind { drop count buf.new ≡ drop count buf.old }
    ensures reads { ReadsAtMost I.ImageRead count image.old image.new (result ≡ ReadEnd.DiskFault) }
{
    let end = image.read(at, &mut buf[..count]);
    end
}

/// The image before a write in flight, over the image that its changes lead to, holds the bytes that they were made to.
pub fn law_before_image_holds_the_old_bytes()
    ensures { (f : FlightRecord) (image : List ℕ) (changes : List Change) → Undoes f image changes
        → image_before f.undo f.old_len (effect image changes) ≡ image }
{}
