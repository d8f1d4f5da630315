//! Changed blocks over an image.
ghost use Rattle.std.specs.Prelude.{◌≡◌, ◌≢◌, ◌+◌, ◌-◌, ◌*◌, ◌<◌, ◌≤◌, ◌^◌, ℕ, List, Option, Some, IfSome, IsSome, IsSomeAnd, OnOk, OnErr, IfErr, IfOk, IsErrOf, length, slice_index, min, max, take, drop, replicate, ◌++◌, []};
ghost use Rattle.std.specs.Option.{ForSome, option_copied};
ghost use Rattle.ubik_types.specs.Image.{changed};
ghost use Rattle.ubik_types.specs.declared.images.Change.TheVariants.{Put};
ghost use Rattle.db_image.specs.Images.{OnlyReads, ReadsAtMost, IsOfImage};
ghost use Rattle.db_image.specs.Blocks.{block_at, block_change, changes_between, LeadSome, PutSome};
ghost use Rattle.db_image.specs.Places.{block_number, block_start, block_size};
ghost use Rattle.db_image.specs.Draft.{changed_at, byte_of, byte_over, IsLaid, IsFull, SameBytes, IsLoaded, Lays, Replaces, Keeps, IsLaidOver, ShowsFrom, bytes_over, range_cost, put_cost, IsChangeOf, changes_below};

use crate::places::{blocks_before, place_of, size_of, start_of};
use crate::services::Layout;
use crate::{ImageRead, ReadEnd, RecordFault};
use std::alloc::{AllocError, Global};
use std::collections::BTreeMap;
use ubik_types::{Bytes, Change, Changes, NoMemory, bytes_of, changes_new, changes_push};

/// A block that was changed: what it was, as far as the image beneath goes, and the whole block as it is.
#[derive(Drop)]
pub struct ChangedBlock {
    pub old: Vec<u8>,
    pub new: Vec<u8>,
}

/// The changed blocks of a draft, by their numbers, and its length.
#[derive(Drop)]
pub struct Overlay {
    pub alloc: Global,
    pub layout: Layout,
    pub len: u32,
    pub blocks: BTreeMap<u64, ChangedBlock>,
}

/// Lays a changed block from an offset on over bytes that were read beneath.
fn cover_part(block: Option<&ChangedBlock>, offset: usize, part: &mut [u8])
    requires { IfSome (option_copied block) (λ b. offset + length part.old ≤ length b.new.items) }
    ensures { (i : ℕ) → i < length part.new
        → slice_index part.new i ≡ byte_of (option_copied block.entry) (offset + i) (slice_index part.old i) }
{
    if let Some(block) = block {
        part.copy_from_slice(&block.new[offset..offset + part.len()]);
    }
}

/// Makes all bytes zero.
fn clear(buf: &mut [u8])
    ensures { (i : ℕ) → slice_index buf.new i ≡ 0 }
{
    for byte in buf.iter_mut() {
        *byte = 0;
    }
}

/// Reads bytes of an image into the front of a buffer.
fn read_front<I: ImageRead>(image: &mut I, at: u32, buf: &mut [u8], count: usize) -> ReadEnd
    requires within { at + count ≤ I.size image.old }
    requires fits { count ≤ length buf.old }
    ensures front { result ≡ ReadEnd.Done → IfSome (I.held image.old) (λ bytes. take count buf.new ≡ take count (drop at bytes)) }
    ensures behind { drop count buf.new ≡ drop count buf.old }
    ensures reads { ReadsAtMost I.ImageRead count image.old image.new (result ≡ ReadEnd.DiskFault) }
{
    let end = image.read(at, &mut buf[..count]);
    end
}

/// Reads bytes of an image from a position on, and zero bytes behind its end.
fn read_padded<I: ImageRead>(image: &mut I, at: u32, buf: &mut [u8]) -> ReadEnd
    ensures bytes { result ≡ ReadEnd.Done → IfSome (I.held image.old) (λ bytes. ShowsFrom at bytes buf.new) }
    ensures reads { ReadsAtMost I.ImageRead (length buf.old) image.old image.new (result ≡ ReadEnd.DiskFault) }
{
    clear(buf);
    let held = (image.len().saturating_sub(at) as usize).min(buf.len());
    if held == 0 {
        return ReadEnd::Done;
    }
    read_front(image, at, buf, held)
}

/// What an image has of a block.
fn read_block<I: ImageRead>(
    alloc: Global,
    image: &mut I,
    start: u64,
    size: u64,
) -> Result<Vec<u8>, RecordFault>
    ensures bytes { IfOk result (λ old. IfSome (I.held image.old) (λ bytes. old.items ≡ block_at bytes start size)) }
    ensures len { IfOk result (λ old. length old.items ≡ min (I.size image.old - start) size) }
    ensures fault { IfErr result IsOfImage }
    ensures reads { ReadsAtMost I.ImageRead size image.old image.new (IsErrOf result RecordFault.DiskFault) }
{
    let held = u64::from(image.len()).saturating_sub(start).min(size);
    let mut old = vec![in alloc; 0; held as usize]?;
    if held > 0 {
        image.read(start as u32, &mut old).done()?;
    }
    Ok(old)
}

/// The bytes, and zero bytes behind them up to a length.
fn padded(alloc: Global, bytes: &[u8], len: usize) -> Result<Vec<u8>, AllocError>
    ensures { IfOk result (λ v. v.items ≡ bytes.now ++ replicate (len - length bytes.now) 0) }
{
    let mut all = Vec::with_capacity(alloc, len)?;
    all.extend_from_slice(bytes)?;
    for _ in 0..len.saturating_sub(bytes.len()) {
        all.push(0)?;
    }
    Ok(all)
}

/// A changed block's first bytes, where they are other ones than beneath.
fn changed_bytes(
    alloc: Global,
    block: &ChangedBlock,
    count: usize,
) -> Result<Option<Bytes>, NoMemory>
    requires { count ≤ length block.now.new.items }
    ensures change { IfOk result (λ found. IsChangeOf block.now.old.items (take count block.now.new.items) found) }
    ensures len { IfOk result (λ found. IfSome found (λ bytes. length bytes ≡ count)) }
{
    let new = &block.new[..count];
    if new == block.old.as_slice() {
        return Ok(None);
    }
    Ok(Some(bytes_of(alloc, new)?))
}

/// The zero bytes of a new block.
fn zero_bytes(alloc: Global, count: usize) -> Result<Option<Bytes>, NoMemory>
    requires { 0 < count }
    ensures change { IfOk result (λ found. IsChangeOf [] (replicate count 0) found) }
    ensures len { IfOk result (λ found. IfSome found (λ bytes. length bytes ≡ count)) }
{
    Ok(Some(Bytes::new(padded(alloc, &[], count)?)))
}

impl Overlay {
    /// Lays the changed blocks over bytes that were read beneath, from a position on.
    pub fn cover(&self, at: u32, buf: &mut [u8])
        requires block { 0 < self.now.layout.block }
        requires full { IsFull self.now }
        requires fits { at + length buf.old < 2 ^ 33 }
        ensures { (i : ℕ) → i < length buf.new → slice_index buf.new i ≡ byte_over self.now (at + i) (slice_index buf.old i) }
    {
        let mut done = 0;
        while done < buf.len() {
            let place = place_of(self.layout, at as u64 + done as u64);
            let part = (place.size - place.offset).min((buf.len() - done) as u64) as usize;
            let block = self.blocks.get(&place.number);
            cover_part(block, place.offset as usize, &mut buf[done..done + part]);
            done += part;
        }
    }

    /// Adds a changed block, in place of one of that number.
    fn insert(&mut self, number: u64, block: ChangedBlock) -> Result<(), AllocError>
        ensures ok { OnOk result (Replaces number block self.old self.new) }
        ensures err { OnErr result (Keeps self.old self.new) }
    {
        match self.blocks.insert(number, block) {
            Ok(_) => Ok(()),
            Err(_) => Err(AllocError),
        }
    }

    /// Lays bytes over a changed block, from an offset on.
    fn lay_in_block(&mut self, number: u64, offset: usize, bytes: &[u8])
        requires { IsSomeAnd (changed_at self.old number) (λ b. offset + length bytes.now ≤ length b.new.items) }
        ensures others { (q : ℕ) → q ≢ number → changed_at self.new q ≡ changed_at self.old q }
        ensures here { IfSome (changed_at self.old number) (λ b. IsSomeAnd (changed_at self.new number)
            (λ c. IsLaidOver offset bytes.now b c)) }
        ensures len { self.new.len ≡ self.old.len }
        ensures layout { self.new.layout ≡ self.old.layout }
    {
        if let Some(block) = self.blocks.get_mut(&number) {
            block.new[offset..offset + bytes.len()].copy_from_slice(bytes);
        }
    }

    /// Brings the block of a position among the changed ones, as it is.
    fn load<I: ImageRead>(&mut self, image: &mut I, at: u64) -> Result<(), RecordFault>
        requires laid { IsLaid self.old (I.size image.old) (I.held image.old) }
        requires at { at < 2 ^ 33 }
        ensures laid { IsLaid self.new (I.size image.old) (I.held image.old) }
        ensures same { SameBytes (I.held image.old) self.old self.new }
        ensures loaded { OnOk result (IsSome (changed_at self.new (block_number self.new.layout at))) }
        ensures fault { IfErr result IsOfImage }
        ensures reads { ReadsAtMost I.ImageRead (block_size self.old.layout (block_number self.old.layout at)) image.old image.new
            (IsErrOf result RecordFault.DiskFault) }
    {
        let place = place_of(self.layout, at);
        if self.blocks.contains_key(&place.number) {
            return Ok(());
        }
        let old = read_block(self.alloc, image, at - place.offset, place.size)?;
        let new = padded(self.alloc, &old, place.size as usize)?;
        self.insert(place.number, ChangedBlock { old, new })?;
        Ok(())
    }

    /// Brings the blocks of a range among the changed ones, as they are.
    fn load_range<I: ImageRead>(
        &mut self,
        image: &mut I,
        at: u64,
        end: u64,
    ) -> Result<(), RecordFault>
        requires laid { IsLaid self.old (I.size image.old) (I.held image.old) }
        requires end { end < 2 ^ 33 }
        ensures laid { IsLaid self.new (I.size image.old) (I.held image.old) }
        ensures same { SameBytes (I.held image.old) self.old self.new }
        ensures loaded { OnOk result (IsLoaded self.new at end) }
        ensures fault { IfErr result IsOfImage }
        ensures reads { ReadsAtMost I.ImageRead (range_cost self.old.layout (end - at)) image.old image.new
            (IsErrOf result RecordFault.DiskFault) }
    {
        let mut from = at;
        while from < end {
            let place = place_of(self.layout, from);
            self.load(image, from)?;
            from += place.size - place.offset;
        }
        Ok(())
    }

    /// Lays bytes from a position on, as far as its block goes, which is a changed one. Returns how many.
    fn lay_part(&mut self, at: u64, bytes: &[u8]) -> usize
        requires block { 0 < self.old.layout.block }
        requires full { IsFull self.old }
        requires at { at < 2 ^ 33 }
        requires some { 0 < length bytes.now }
        requires loaded { IsSome (changed_at self.old (block_number self.old.layout at)) }
        ensures some { 0 < result }
        ensures most { result ≤ length bytes.now }
        ensures lays { Lays at (take result bytes.now) self.old self.new }
        ensures full { IsFull self.new }
    {
        let place = place_of(self.layout, at);
        let count = (place.size - place.offset).min(bytes.len() as u64) as usize;
        self.lay_in_block(place.number, place.offset as usize, &bytes[..count]);
        count
    }

    /// Lays bytes over changed blocks.
    fn lay(&mut self, at: u32, bytes: &[u8])
        requires block { 0 < self.old.layout.block }
        requires full { IsFull self.old }
        requires fits { at + length bytes.now < 2 ^ 33 }
        requires loaded { IsLoaded self.old at (at + length bytes.now) }
        ensures lays { Lays at bytes.now self.old self.new }
        ensures full { IsFull self.new }
    {
        let mut done = 0;
        while done < bytes.len() {
            done += self.lay_part(at as u64 + done as u64, &bytes[done..]);
        }
    }

    /// Reads an image from a position on, and zero bytes behind its end.
    pub fn read<I: ImageRead>(&self, image: &mut I, at: u32, buf: &mut [u8]) -> ReadEnd
        requires laid { IsLaid self.now (I.size image.old) (I.held image.old) }
        requires within { at + length buf.old ≤ self.now.len }
        ensures bytes { result ≡ ReadEnd.Done
            → IfSome (I.held image.old) (λ beneath. buf.new ≡ take (length buf.old) (drop at (bytes_over self.now beneath))) }
        ensures reads { ReadsAtMost I.ImageRead (length buf.old) image.old image.new (result ≡ ReadEnd.DiskFault) }
    {
        prove!(buf.len() <= self.len as usize);
        match read_padded(image, at, buf) {
            ReadEnd::Done => {
                self.cover(at, buf);
                ReadEnd::Done
            }
            end => end,
        }
    }

    /// Brings the block in which the image ends among the changed ones, where a put up to an end makes the draft longer.
    fn load_last<I: ImageRead>(&mut self, image: &mut I, end: u32) -> Result<(), RecordFault>
        requires laid { IsLaid self.old (I.size image.old) (I.held image.old) }
        ensures laid { IsLaid self.new (I.size image.old) (I.held image.old) }
        ensures same { SameBytes (I.held image.old) self.old self.new }
        ensures grown { OnOk result (self.old.len < end → IsSome (changed_at self.new (block_number self.new.layout (I.size image.old)))) }
        ensures fault { IfErr result IsOfImage }
        ensures reads { ReadsAtMost I.ImageRead (self.old.layout.head + self.old.layout.block) image.old image.new
            (IsErrOf result RecordFault.DiskFault) }
    {
        if end <= self.len {
            return Ok(());
        }
        let at = u64::from(image.len());
        self.load(image, at)?;
        Ok(())
    }

    /// Brings the blocks among the changed ones that a put of a range takes.
    fn prepare<I: ImageRead>(&mut self, image: &mut I, at: u32, end: u32) -> Result<(), RecordFault>
        requires laid { IsLaid self.old (I.size image.old) (I.held image.old) }
        ensures laid { IsLaid self.new (I.size image.old) (I.held image.old) }
        ensures same { SameBytes (I.held image.old) self.old self.new }
        ensures loaded { OnOk result (IsLoaded self.new at end) }
        ensures grown { OnOk result (self.old.len < end → IsSome (changed_at self.new (block_number self.new.layout (I.size image.old)))) }
        ensures fault { IfErr result IsOfImage }
        ensures reads { ReadsAtMost I.ImageRead (put_cost self.old.layout (end - at)) image.old image.new
            (IsErrOf result RecordFault.DiskFault) }
    {
        self.load_last(image, end)?;
        self.load_range(image, u64::from(at), u64::from(end))?;
        Ok(())
    }

    /// Lays bytes at a position. After a fault all bytes are as they were.
    pub fn put<I: ImageRead>(
        &mut self,
        image: &mut I,
        at: u32,
        bytes: &[u8],
    ) -> Result<(), RecordFault>
        requires laid { IsLaid self.old (I.size image.old) (I.held image.old) }
        requires fits { at + length bytes.now < 2 ^ 32 }
        ensures laid { IsLaid self.new (I.size image.old) (I.held image.old) }
        ensures bytes { OnOk result (IfSome (I.held image.old) (λ beneath. bytes_over self.new beneath
            ≡ changed (bytes_over self.old beneath) (Put at bytes.now))) }
        ensures len { OnOk result (self.new.len ≡ max self.old.len (at + length bytes.now)) }
        ensures layout { self.new.layout ≡ self.old.layout }
        ensures same { OnErr result (IfSome (I.held image.old) (λ beneath. bytes_over self.new beneath ≡ bytes_over self.old beneath)) }
        ensures same_len { OnErr result (self.new.len ≡ self.old.len) }
        ensures fault { IfErr result IsOfImage }
        ensures reads { ReadsAtMost I.ImageRead (put_cost self.old.layout (length bytes.now)) image.old image.new
            (IsErrOf result RecordFault.DiskFault) }
    {
        let end = at + bytes.len() as u32;
        self.prepare(image, at, end)?;
        self.len = self.len.max(end);
        self.lay(at, bytes);
        Ok(())
    }

    /// A block as it is, where it is new or a byte of it is another one than beneath, in an image of `size` bytes.
    fn change_of(&self, size: u32, number: u64, at: u32) -> Result<Option<Bytes>, NoMemory>
        requires full { IsFull self.now }
        requires at { at ≡ block_start self.now.layout number }
        ensures change { IfOk result (λ found. (beneath : List ℕ) → IsLaid self.now size (Some beneath)
            → IsChangeOf (block_at beneath at (block_size self.now.layout number))
            (block_at (bytes_over self.now beneath) at (block_size self.now.layout number)) found) }
        ensures some { IfOk result (λ found. IfSome found (λ bytes. 0 < length bytes)) }
    {
        let block = size_of(self.layout, number);
        let count = self.len.saturating_sub(at).min(block) as usize;
        if count == 0 {
            return Ok(None);
        }
        match self.blocks.get(&number) {
            Some(changed) => changed_bytes(self.alloc, changed, count),
            None if at < size => Ok(None),
            None => zero_bytes(self.alloc, count),
        }
    }

    /// Adds the put of a block, where it is new or a byte of it is another one than beneath.
    fn push_change(&self, changes: &mut Changes, size: u32, number: u64) -> Result<(), NoMemory>
        requires full { IsFull self.now }
        requires begins { block_start self.now.layout number < 2 ^ 32 }
        ensures puts { OnOk result (PutSome changes.old → PutSome changes.new) }
        ensures change { OnOk result ((beneath : List ℕ) → IsLaid self.now size (Some beneath)
            → changes.new ≡ changes.old ++ block_change beneath (bytes_over self.now beneath)
            (block_start self.now.layout number) (block_size self.now.layout number)) }
    {
        let at = start_of(self.layout, number);
        let Some(bytes) = self.change_of(size, number, at)? else {
            return Ok(());
        };
        changes_push(changes, Change::Put { at, bytes })
    }

    /// The puts of the first blocks, so many that begin in an image of `size` bytes. Only a changed block can be another one than beneath,
    /// so it walks those and no others.
    fn first_changes(&self, size: u32, count: u64) -> Result<Changes, NoMemory>
        requires full { IsFull self.now }
        requires begin { (k : ℕ) → k < count → block_start self.now.layout k < size }
        ensures puts { IfOk result PutSome }
        ensures changes { IfOk result (λ changes. (beneath : List ℕ) → IsLaid self.now size (Some beneath)
            → changes ≡ changes_below self.now.layout beneath (bytes_over self.now beneath) count) }
    {
        let mut changes = changes_new(self.alloc);
        for (number, _) in self.blocks.range(..count) {
            self.push_change(&mut changes, size, *number)?;
        }
        Ok(changes)
    }

    /// The puts of all blocks that are new or in which a byte is another one than beneath, ascending. It walks the changed blocks and the
    /// new ones, and not the image.
    pub fn changes(&self, size: u32) -> Result<Changes, NoMemory>
        requires full { IsFull self.now }
        ensures puts { IfOk result PutSome }
        ensures changes { IfOk result (λ changes. (beneath : List ℕ) → IsLaid self.now size (Some beneath)
            → changes ≡ changes_between self.now.layout.head self.now.layout.block beneath (bytes_over self.now beneath)) }
        ensures lead { IfOk result (λ changes. (held : Option (List ℕ)) → IsLaid self.now size held
            → LeadSome self.now.layout.head self.now.layout.block size self.now.len changes) }
    {
        let first_new = blocks_before(self.layout, size);
        let count = blocks_before(self.layout, self.len);
        let mut changes = self.first_changes(size, first_new)?;
        for number in first_new..count {
            self.push_change(&mut changes, size, number)?;
        }
        Ok(changes)
    }
}
