//! Images that are read a part at a time.
ghost use Rattle.std.specs.Prelude.{◌≡◌, ◌+◌, ◌<◌, ◌≤◌, ◌^◌, ℕ, List, Option, Some, IfSome, IfOk, IsOk, length, take, drop};
ghost use Rattle.db_image.specs.Asked.{AsksAtMost, told_of};

use crate::RecordFault;
use std::alloc::Global;
use ubik_types::NoMemory;

/// How a read of an image ended.
#[derive(Clone, Copy, Debug, PartialEq, Eq)]
pub enum ReadEnd {
    /// The buffer holds the bytes.
    Done,
    /// What holds the image failed.
    DiskFault,
    /// Memory ran out.
    NoMemory,
}

impl ReadEnd {
    /// The end as a result.
    pub fn done(self) -> Result<(), RecordFault>
        ensures ok { self ≡ ReadEnd.Done → IsOk result }
        ensures fault { self ≡ ReadEnd.DiskFault → result ≡ Err RecordFault.DiskFault }
        ensures no_memory { self ≡ ReadEnd.NoMemory → result ≡ Err RecordFault.NoMemory }
    {
        match self {
            ReadEnd::Done => Ok(()),
            ReadEnd::DiskFault => Err(RecordFault::DiskFault),
            ReadEnd::NoMemory => Err(RecordFault::NoMemory),
        }
    }
}

/// An image of a database, of which a caller reads what it needs.
pub trait ImageRead: Drop {
    /// Its bytes, where it tells them.
    ghost held: { Self → Option (List ℕ) };

    /// Its length, in bytes.
    ghost size: { Self → ℕ };

    /// How often a read has failed. It never falls.
    ghost faults: { Self → ℕ };

    /// How many bytes its reads have asked for, where it tells it.
    ghost asked: { Self → Option ℕ };

    /// It came from another one by reads alone: what holds the image is as reads leave it.
    ghost came: { Self → Self → Type 0 };

    /// No read is none.
    ghost comes_same: { (image : Self) → came image image };

    /// Reads after reads are reads.
    ghost comes_on: { (a b c : Self) → came a b → came b c → came a c };

    /// Its length, in bytes.
    fn len(&self) -> u32
        ensures size { result ≡ size self.now }
        ensures told { IfSome (held self.now) (λ bytes. length bytes ≡ size self.now) };

    /// Reads bytes from a position on, which lie within the image.
    fn read(&mut self, at: u32, buf: &mut [u8]) -> ReadEnd
        requires { at + length buf.old ≤ size self.old }
        ensures bytes { result ≡ ReadEnd.Done → IfSome (held self.old) (λ bytes. buf.new ≡ take (length buf.old) (drop at bytes)) }
        ensures held { held self.new ≡ held self.old }
        ensures size { size self.new ≡ size self.old }
        ensures asked { AsksAtMost (length buf.old) (asked self.old) (asked self.new) }
        ensures came { came self.old self.new }
        ensures never_falls { faults self.old ≤ faults self.new }
        ensures fault { result ≡ ReadEnd.DiskFault → faults self.old < faults self.new };
}

/// An image in memory. Its reads never fail.
#[derive(Drop)]
pub struct VecImage {
    bytes: Vec<u8>,
    asked: u64,
    ghost bound: { length bytes.items < 2 ^ 32 },
}

impl VecImage {
    ghost use Rattle.db_image.specs.VecImage.{bytes_of_image, asked_of_image};

    /// A copy of the bytes, of which nothing was asked.
    pub fn new(alloc: Global, bytes: &[u8]) -> Result<VecImage, NoMemory>
        requires { length bytes.now < 2 ^ 32 }
        ensures bytes { IfOk result (λ image. bytes_of_image image ≡ bytes.now) }
        ensures asked { IfOk result (λ image. asked_of_image image ≡ 0) }
    {
        Ok(VecImage {
            bytes: bytes.to_vec(alloc)?,
            asked: 0,
        })
    }
}

impl ImageRead for VecImage {
    ghost use Rattle.std.specs.Prelude.{min, ◌-◌};
    ghost use Rattle.db_image.specs.VecImage.{bytes_of_image, asked_of_image};

    ghost held = { λ image. Some (bytes_of_image image) };

    ghost size = { λ image. length (bytes_of_image image) };

    ghost faults = { λ image. 0 };

    ghost asked = { λ image. told_of (asked_of_image image) };

    ghost came = { λ _ _. Unit {0} };

    ghost comes_same = { λ _. tt };

    ghost comes_on = { λ _ _ _ _ _. tt };

    fn len(&self) -> u32 {
        self.bytes.len() as u32
    }

    fn read(&mut self, at: u32, buf: &mut [u8]) -> ReadEnd
        requires { at + length buf.old ≤ length (bytes_of_image self.old) }
        ensures done { result ≡ ReadEnd.Done }
        ensures read { buf.new ≡ take (length buf.old) (drop at (bytes_of_image self.old)) }
        ensures bytes { bytes_of_image self.new ≡ bytes_of_image self.old }
        ensures asked { asked_of_image self.new ≡ min (asked_of_image self.old + length buf.old) (2 ^ 64 - 1) }
    {
        let at = at as usize;
        buf.copy_from_slice(&self.bytes[at..at + buf.len()]);
        self.asked = self.asked.saturating_add(buf.len() as u64);
        ReadEnd::Done
    }
}
