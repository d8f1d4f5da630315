//! The bytes of an image that changes overwrite or cut off.
ghost use Rattle.std.specs.Prelude.{◌≡◌, ◌≤◌, ◌<◌, ◌+◌, ◌-◌, ◌^◌, ℕ, List, length, map, take, drop, slice_index, IsOk, IfOk, IfSome, IsErrOf};
ghost use Rattle.ubik_types.specs.declared.images.Change.{Change};
ghost use Rattle.ubik_types.specs.Image.{effect};
ghost use Rattle.db_image.specs.Images.{OnlyReads};
ghost use Rattle.ubik_write.specs.Undo.{undo_of, touched, byte_laid, byte_before, IsUndone};

use crate::flights::FlightFault;
use db_image::{ImageRead, ReadEnd};
use std::alloc::Global;
use ubik_types::{Bytes, Change, Changes};

/// Bytes of an image from a position on.
#[derive(Drop)]
pub struct Patch {
    pub at: u32,
    pub bytes: Bytes,
}

impl Patch {
    ghost use Rattle.ubik_write.specs.Undo.{byte_under};

    /// Lays the bytes over those of a buffer, which begins at a position.
    fn lay(&self, at: u32, buf: &mut [u8])
        ensures { (i : ℕ) → i < length buf.old → slice_index buf.new i ≡ byte_under self.now (at + i) (slice_index buf.old i) }
    {
        lay(self.bytes.as_slice(), self.at as usize, at as usize, buf);
    }
}

/// Lays bytes, which begin at a position, over those of a buffer, which begins at another.
fn lay(bytes: &[u8], from: usize, at: usize, buf: &mut [u8])
    requires from { from < 2 ^ 32 }
    requires at { at < 2 ^ 32 }
    ensures { (i : ℕ) → i < length buf.old → slice_index buf.new i ≡ byte_laid from bytes.now (at + i) (slice_index buf.old i) }
{
    let start = from.max(at);
    let end = (from + bytes.len()).min(at + buf.len());
    if start < end {
        buf[start - at..end - at].copy_from_slice(&bytes[start - from..end - from]);
    }
}

/// What the changes overwrite or cut off, one patch for each.
pub fn undo_of<I: ImageRead>(
    alloc: Global,
    changes: &Changes,
    image: &mut I,
) -> Result<Vec<Patch>, FlightFault>
    ensures undo { IfOk result (λ undo. IfSome (I.held image.old) (λ bytes. undo.items ≡ map (undo_of bytes) changes.now)) }
    ensures reads { OnlyReads I.ImageRead image.old image.new (IsErrOf result FlightFault.DiskFault) }
{
    let mut undo = Vec::new(alloc);
    for change in changes.as_slice() {
        undo.push(patch_of(alloc, change, image)?)?;
    }
    Ok(undo)
}

/// Lays the patches over the bytes of a buffer, which begins at a position.
pub fn undone(undo: &[Patch], at: u32, buf: &mut [u8])
    ensures { IsUndone undo.now at buf.old buf.new }
{
    for patch in undo {
        patch.lay(at, buf);
    }
}

/// Where a change touches an image of so many bytes, and how many bytes of it.
fn touched(size: u32, change: &Change) -> (u32, usize)
    ensures { result ≡ touched size change.now }
{
    match change {
        Change::Put { at, bytes } => (
            *at,
            bytes
                .as_slice()
                .len()
                .min(size.saturating_sub(*at) as usize),
        ),
        Change::Cut { len } => (*len, size.saturating_sub(*len) as usize),
    }
}

/// What a change overwrites or cuts off of an image.
fn patch_of<I: ImageRead>(
    alloc: Global,
    change: &Change,
    image: &mut I,
) -> Result<Patch, FlightFault>
    ensures patch { IfOk result (λ patch. IfSome (I.held image.old) (λ bytes. patch ≡ undo_of bytes change.now)) }
    ensures reads { OnlyReads I.ImageRead image.old image.new (IsErrOf result FlightFault.DiskFault) }
{
    let (at, len) = touched(image.len(), change);
    let bytes = bytes_at(alloc, at, len, image)?;
    Ok(Patch { at, bytes })
}

/// So many bytes of an image from a position on, which lie within it.
fn bytes_at<I: ImageRead>(
    alloc: Global,
    at: u32,
    len: usize,
    image: &mut I,
) -> Result<Bytes, FlightFault>
    requires { len ≤ I.size image.old - at }
    ensures bytes { IfOk result (λ read. IfSome (I.held image.old) (λ bytes. read ≡ take len (drop at bytes))) }
    ensures reads { OnlyReads I.ImageRead image.old image.new (IsErrOf result FlightFault.DiskFault) }
{
    let mut bytes = vec![in alloc; 0u8; len]?;
    if len != 0 {
        done(image.read(at, &mut bytes))?;
    }
    Ok(Bytes::new(bytes))
}

/// The end of a read as a result.
fn done(end: ReadEnd) -> Result<(), FlightFault>
    ensures ok { IsOk result → end ≡ ReadEnd.Done }
    ensures fault { result ≡ Err FlightFault.DiskFault → end ≡ ReadEnd.DiskFault }
{
    match end {
        ReadEnd::Done => Ok(()),
        ReadEnd::DiskFault => Err(FlightFault::DiskFault),
        ReadEnd::NoMemory => Err(FlightFault::NoMemory),
    }
}

/// The bytes that changes overwrite or cut off, laid over those of the image after the changes, give the image before them: at
/// each position, whatever stands behind the end of the image after.
pub fn law_undo_gives_the_old_image()
    ensures { (image : List ℕ) (changes : List Change) (at byte : ℕ) → at < length image
        → (at < length (effect image changes) → byte ≡ slice_index (effect image changes) at)
        → byte_before (map (undo_of image) changes) at byte ≡ slice_index image at }
{}
