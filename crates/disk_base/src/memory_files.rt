//! One file of a disk in memory.
ghost use Rattle.std.specs.Prelude.{◌≡◌, ◌+◌, ◌<◌, ◌≤◌, [], ◌∷◌, ◌++◌, length, take, drop, All, OnOk, OnErr, vec_capacity};
ghost use Rattle.disk_base.specs.Files.{laid};
ghost use Rattle.disk_base.specs.Touches.{MayBe, IsFilled};
ghost use Rattle.disk_base.specs.Undos.{lost_to, all_undone, touches_in};

use crate::Fill;
use crate::touches::Touch;
use crate::undos::{Undo, lay, undo_all};
use std::alloc::Global;
use std::mem;
use ubik_types::NoMemory;

/// The bytes of a file, and what makes of them what it was when it was last synced. So a call costs what it changes.
#[derive(Drop)]
pub(crate) struct MemFile {
    alloc: Global,
    bytes: Vec<u8>,
    /// The changing calls since the last sync, in their order.
    undos: Vec<Undo>,
    /// How many bytes have room.
    room: u64,
    ghost may_be: { MayBe (all_undone undos.items bytes.items) (touches_in undos.items) bytes.items },
    ghost has_room: { length bytes.items ≤ room },
    // The room is memory that the file has.
    ghost has_memory: { room ≤ vec_capacity bytes },
    ghost undo_has_room: { All (λ undo. lost_to undo ≤ room) undos.items },
}

impl MemFile {
    ghost use Rattle.disk_base.specs.MemFile.{content_of, synced_of, touches_of, room_of, state_in};
    ghost use Rattle.disk_base.specs.Stops.{IsLeft};

    /// An empty file without room.
    pub(crate) fn new(alloc: Global) -> MemFile
        ensures bytes { content_of result ≡ [] }
        ensures synced { synced_of result ≡ [] }
        ensures touches { touches_of result ≡ [] }
        ensures room { room_of result ≡ 0 }
    {
        MemFile {
            alloc,
            bytes: Vec::new(alloc),
            undos: Vec::new(alloc),
            room: 0,
        }
    }

    pub(crate) fn len(&self) -> u64
        ensures { result ≡ length (content_of self.now) }
    {
        self.bytes.len() as u64
    }

    /// Takes memory for the first `len` bytes.
    pub(crate) fn reserve(&mut self, len: u64) -> Result<(), NoMemory>
        ensures reserved { OnOk result (len ≤ room_of self.new) }
        ensures no_memory { OnErr result (room_of self.old < len) }
        ensures room { room_of self.old ≤ room_of self.new }
        ensures bytes { content_of self.new ≡ content_of self.old }
        ensures synced { synced_of self.new ≡ synced_of self.old }
        ensures touches { touches_of self.new ≡ touches_of self.old }
    {
        if self.room < len {
            let missing = (len as usize).saturating_sub(self.bytes.len());
            self.bytes.reserve(missing)?;
            self.room = len;
        }
        Ok(())
    }

    pub(crate) fn read(&self, at: u64, buf: &mut [u8])
        requires { at + length buf.old ≤ length (content_of self.now) }
        ensures { buf.new ≡ take (length buf.old) (drop at (content_of self.now)) }
    {
        let from = at as usize;
        buf.copy_from_slice(&self.bytes[from..from + buf.len()]);
    }

    /// Lays bytes over the file from a position on. For want of memory it stays.
    pub(crate) fn write_at(&mut self, at: u64, bytes: &[u8]) -> Result<(), NoMemory>
        requires begins { at ≤ length (content_of self.old) }
        requires fits { at + length bytes.now ≤ room_of self.old }
        ensures ok { OnOk result (content_of self.new ≡ laid (content_of self.old) at bytes.now) }
        ensures err { OnErr result (content_of self.new ≡ content_of self.old) }
        ensures marked { OnOk result (touches_of self.new
            ≡ touches_of self.old ++ Touch.Wrote at (length bytes.now) ∷ []) }
        ensures unmarked { OnErr result (touches_of self.new ≡ touches_of self.old) }
        ensures synced { synced_of self.new ≡ synced_of self.old }
        ensures room { room_of self.new ≡ room_of self.old }
    {
        let at = at as usize;
        let undo = Undo::of_write(self.alloc, &self.bytes, at, bytes.len())?;
        self.undos.push(undo)?;
        lay(&mut self.bytes, at, bytes);
        Ok(())
    }

    /// Keeps the first `len` bytes, at most its length. For want of memory the file stays.
    pub(crate) fn cut(&mut self, len: u64) -> Result<(), NoMemory>
        requires { len ≤ length (content_of self.old) }
        ensures ok { OnOk result (content_of self.new ≡ take len (content_of self.old)) }
        ensures err { OnErr result (content_of self.new ≡ content_of self.old) }
        ensures marked { OnOk result (touches_of self.new ≡ touches_of self.old ++ Touch.Cut len ∷ []) }
        ensures unmarked { OnErr result (touches_of self.new ≡ touches_of self.old) }
        ensures synced { synced_of self.new ≡ synced_of self.old }
        ensures room { room_of self.new ≡ room_of self.old }
    {
        let len = len as usize;
        let undo = Undo::of_cut(self.alloc, &self.bytes, len)?;
        self.undos.push(undo)?;
        self.bytes.truncate(len);
        Ok(())
    }

    /// From now on the bytes are those as last synced.
    pub(crate) fn sync(&mut self)
        ensures bytes { content_of self.new ≡ content_of self.old }
        ensures synced { synced_of self.new ≡ content_of self.old }
        ensures touches { touches_of self.new ≡ [] }
        ensures room { room_of self.new ≡ room_of self.old }
    {
        self.undos.clear();
    }

    /// What a stop leaves becomes what a read gives and what was last synced. What was reserved past it is not
    /// kept.
    pub(crate) fn revive(&mut self, fill: Fill)
        ensures left { IsLeft fill (state_in self.old) (content_of self.old) (content_of self.new) }
        ensures synced { synced_of self.new ≡ content_of self.new }
        ensures touches { touches_of self.new ≡ [] }
        ensures room { room_of self.new ≡ length (content_of self.new) }
    {
        let undos = mem::replace(&mut self.undos, Vec::new(self.alloc));
        match fill {
            Fill::Old => undo_all(&undos, &mut self.bytes),
            Fill::New => {}
            Fill::Byte(byte) => fill_all(&mut self.bytes, &undos, byte),
        }
        self.room = self.bytes.len() as u64;
    }
}

/// Writes the byte into each position of the file that one of the changing calls wrote.
fn fill_all(file: &mut [u8], undos: &[Undo], byte: u8)
    ensures { IsFilled byte (touches_in undos.now) file.old file.new }
{
    for undo in undos {
        fill_touch(file, undo.touch(), byte);
    }
}

/// Writes the byte into each position of the file that the changing call wrote.
fn fill_touch(file: &mut [u8], touch: Touch, byte: u8)
    ensures { IsFilled byte (touch ∷ []) file.old file.new }
{
    if let Touch::Wrote { at, len } = touch {
        fill_from(file, at, len, byte);
    }
}

/// Writes the byte into so many positions from one on, as far as the file goes.
fn fill_from(file: &mut [u8], start: usize, len: usize, byte: u8)
    ensures { IsFilled byte (Touch.Wrote start len ∷ []) file.old file.new }
{
    for at in start..file.len().min(start.saturating_add(len)) {
        file[at] = byte;
    }
}
