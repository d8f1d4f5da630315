//! Lists of bytes, and the changes that are made to an image.
ghost use Rattle.std.specs.Prelude.{◌≡◌, ◌++◌, ◌∷◌, [], length, IfOk, OnOk, OnErr};

use crate::NoMemory;
use std::alloc::Global;
use std::marker::Model;

/// A list of bytes. Contracts see the list; what memory it has reserved is not part of it.
#[derive(Drop)]
pub struct Bytes {
    bytes: Vec<u8>,
}

impl Model for Bytes {
    ghost use Rattle.std.specs.Prelude.{ℕ, List};

    ghost Value = { List ℕ };

    ghost view = { λ b. b.bytes.items };
}

impl Bytes {
    /// The bytes of a vector, which keeps its memory.
    pub fn new(bytes: Vec<u8>) -> Self
        ensures { result ≡ bytes.items }
    {
        Bytes { bytes }
    }

    pub fn as_slice(&self) -> &[u8]
        ensures { result.now ≡ self.now }
    {
        self.bytes.as_slice()
    }

    /// Gives the vector back, without taking memory.
    pub fn into_vec(self) -> Vec<u8>
        ensures { result.items ≡ self }
    {
        self.bytes
    }
}

/// A copy of the bytes.
pub fn bytes_of(alloc: Global, from: &[u8]) -> Result<Bytes, NoMemory>
    ensures { IfOk result (λ bytes. bytes ≡ from.now) }
{
    let bytes = from.to_vec(alloc)?;
    Ok(Bytes { bytes })
}

/// One change of an image.
#[derive(Drop)]
pub enum Change {
    /// Lays the bytes at a position, after zero bytes where the image is shorter.
    Put { at: u32, bytes: Bytes },
    /// Keeps the first `len` bytes; a shorter image stays.
    Cut { len: u32 },
}

/// A list of changes, made one after the other.
#[derive(Drop)]
pub struct Changes {
    list: Vec<Change>,
}

impl Model for Changes {
    ghost use Rattle.std.specs.Prelude.{List};
    ghost use Rattle.ubik_types.specs.declared.images.Change.{Change};

    ghost Value = { List Change };

    ghost view = { λ c. c.list.items };
}

impl Changes {
    /// The changes of a vector, which keeps its memory.
    pub fn new(list: Vec<Change>) -> Self
        ensures { result ≡ list.items }
    {
        Changes { list }
    }

    pub fn as_slice(&self) -> &[Change]
        ensures { result.now ≡ self.now }
    {
        self.list.as_slice()
    }

    /// Gives the vector back, without taking memory.
    pub fn into_vec(self) -> Vec<Change>
        ensures { result.items ≡ self }
    {
        self.list
    }
}

/// No change.
pub fn changes_new(alloc: Global) -> Changes
    ensures { result ≡ [] }
{
    Changes::new(Vec::new(alloc))
}

/// Adds a change at the end. For want of memory the list stays.
pub fn changes_push(list: &mut Changes, change: Change) -> Result<(), NoMemory>
    ensures ok { OnOk result (list.new ≡ list.old ++ change ∷ []) }
    ensures err { OnErr result (list.new ≡ list.old) }
{
    list.list.push(change)?;
    Ok(())
}
