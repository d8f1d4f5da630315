//! A draft: an image with changed blocks.
ghost use Rattle.std.specs.Prelude.{◌≡◌, ◌+◌, ◌<◌, ◌≤◌, ◌^◌, List, ℕ, IfSome, IfOk, IfErr, OnOk, OnErr, IsErrOf, IsSomeAnd, length, max, take, drop};
ghost use Rattle.std.specs.Option.{option_map};
ghost use Rattle.ubik_types.specs.Image.{changed};
ghost use Rattle.ubik_types.specs.declared.images.Change.TheVariants.{Put};
ghost use Rattle.db_image.specs.Asked.{AsksAtMost};
ghost use Rattle.db_image.specs.Blocks.{changes_between, LeadSome, PutSome};
ghost use Rattle.db_image.specs.Draft.{StaysAsItWas, put_cost};
ghost use Rattle.db_image.specs.Images.{ReadsAtMost, IsOfImage};

use crate::overlays::Overlay;
use crate::{ImageRead, Layout, ReadEnd, RecordFault};
use std::alloc::Global;
use std::collections::BTreeMap;
use std::marker::Model;
use ubik_types::{Changes, NoMemory};

/// An image with changed blocks. It reads the image beneath where no block was changed, and keeps only the blocks that were.
#[derive(Drop)]
pub struct Draft<I: ImageRead> {
    image: I,
    over: Overlay,
}

impl<I: ImageRead> Model for Draft<I> {
    ghost use Rattle.std.specs.Option.{option_map};
    ghost use Rattle.db_image.specs.Draft.{Drafted, IsLaid, bytes_over};

    ghost Value = { Drafted I };

    ghost view = { λ d. record {
      image = d.image;
      bytes = option_map (bytes_over d.over) (I.held d.image);
      len = d.over.len;
      layout = d.over.layout;
    } };

    ghost invariant = { λ d. IsLaid d.over (I.size d.image) (I.held d.image) };
}

impl<I: ImageRead> Draft<I> {
    /// A draft in which nothing is changed, with a head and blocks of these lengths.
    pub fn over(alloc: Global, image: I, head: u32, block: u32) -> Draft<I>
        requires { 0 < block }
        ensures image { result.image ≡ image }
        ensures bytes { result.bytes ≡ I.held image }
        ensures len { result.len ≡ I.size image }
        ensures head { result.layout.head ≡ head }
        ensures block { result.layout.block ≡ block }
    {
        let over = Overlay {
            alloc,
            layout: Layout { head, block },
            len: image.len(),
            blocks: BTreeMap::new(alloc),
        };
        Draft { image, over }
    }

    /// Lays bytes at a position, after zero bytes where the draft is shorter. After a fault the draft has the bytes that it had.
    pub fn put(&mut self, at: u32, bytes: &[u8]) -> Result<(), RecordFault>
        requires { at + length bytes.now < 2 ^ 32 }
        ensures bytes { OnOk result (self.new.bytes ≡ option_map (λ image. changed image (Put at bytes.now)) self.old.bytes) }
        ensures len { OnOk result (self.new.len ≡ max self.old.len (at + length bytes.now)) }
        ensures layout { self.new.layout ≡ self.old.layout }
        ensures same { OnErr result (StaysAsItWas self.old self.new) }
        ensures fault { IfErr result IsOfImage }
        ensures reads { ReadsAtMost I.ImageRead (put_cost self.old.layout (length bytes.now)) self.old.image self.new.image
            (IsErrOf result RecordFault.DiskFault) }
    {
        self.over.put(&mut self.image, at, bytes)
    }

    /// The image beneath, and one put of each whole block that is new or in which a byte is another one than beneath, ascending. The image
    /// is not read. Where it tells its bytes, those of the draft are told. Where it tells nothing the puts lead from some image of its length to
    /// some image of the draft's.
    pub fn finish(self) -> (I, Result<Changes, NoMemory>)
        ensures image { result.0 ≡ self.image }
        ensures told { IfSome (I.held self.image) (λ old. IsSomeAnd self.bytes (λ new. length new ≡ self.len)) }
        ensures changes { IfOk result.1 (λ changes. IfSome (I.held self.image) (λ old. IfSome self.bytes (λ new.
            changes ≡ changes_between self.layout.head self.layout.block old new))) }
        ensures lead { IfOk result.1 (LeadSome self.layout.head self.layout.block (I.size self.image) self.len) }
        ensures puts { IfOk result.1 PutSome }
    {
        let changes = self.over.changes(self.image.len());
        let Self { image, over: _ } = self;
        (image, changes)
    }
}

impl<I: ImageRead> ImageRead for Draft<I> {
    ghost held = { λ d. d.bytes };

    ghost size = { λ d. d.len };

    ghost faults = { λ d. I.faults d.image };

    ghost asked = { λ d. I.asked d.image };

    ghost came = { λ a b. I.came a.image b.image };

    ghost comes_same = { λ d. I.comes_same d.image };

    ghost comes_on = { λ a b c first second. I.comes_on a.image b.image c.image first second };

    fn len(&self) -> u32 {
        self.over.len
    }

    fn read(&mut self, at: u32, buf: &mut [u8]) -> ReadEnd
        requires { at + length buf.old ≤ self.old.len }
        ensures bytes { result ≡ ReadEnd.Done → IfSome self.old.bytes (λ bytes. buf.new ≡ take (length buf.old) (drop at bytes)) }
        ensures same { StaysAsItWas self.old self.new }
        ensures reads { ReadsAtMost I.ImageRead (length buf.old) self.old.image self.new.image (result ≡ ReadEnd.DiskFault) }
    {
        self.over.read(&mut self.image, at, buf)
    }
}
