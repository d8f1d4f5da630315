//! What the incoming file of a disk is: open, or ignored.
ghost use Rattle.std.specs.Prelude.{◌≡◌, ◌≤◌, ◌⊎◌, ◌++◌, ℕ, List, length, drop, None, IfOk, IfErr, IfSome, IsErrOf, OnOk};
ghost use Rattle.ubik_types.specs.Version.{IsVersion};
ghost use Rattle.disk_base.specs.Runs.{OnlyReads, OnlyReserves};
ghost use Rattle.disk_base.specs.Stops.{IsStopped};
ghost use Rattle.page_file.specs.Label.{label, IsHeadOf};
ghost use Rattle.incoming_file.specs.Incoming.{IsIncoming, IsIgnored};
ghost use Rattle.incoming_file.specs.Reading.{Finds, IsText};

use disk_base::{Disk, DiskEnd, FileNo, LenEnd, RoomEnd};
use page_file::{LABEL_LEN, MAX_DATABASE_LEN, label_bytes, version_of_file};
use std::alloc::{AllocError, Global};
use thiserror::Error;
use ubik_types::{Bytes, NoMemory, Version};

/// Why a call on the incoming file did not succeed.
#[derive(Clone, Copy, Debug, PartialEq, Eq, Error)]
pub enum IncomingFault {
    /// The disk failed.
    #[error("the disk failed")]
    DiskFault,
    /// Memory ran out.
    #[error("out of memory")]
    NoMemory,
}

impl From<AllocError> for IncomingFault {
    ghost use Rattle.std.specs.Prelude.{◌≡◌};
    ghost use Rattle.incoming_file.specs.declared.reads.IncomingFault.TheVariants as fault;

    ghost from_gives = { λ _ e. e ≡ fault.NoMemory };

    fn from(_: AllocError) -> Self {
        IncomingFault::NoMemory
    }
}

impl From<NoMemory> for IncomingFault {
    ghost use Rattle.std.specs.Prelude.{◌≡◌};
    ghost use Rattle.incoming_file.specs.declared.reads.IncomingFault.TheVariants as fault;

    ghost from_gives = { λ _ e. e ≡ fault.NoMemory };

    fn from(_: NoMemory) -> Self {
        IncomingFault::NoMemory
    }
}

/// The place of the gate: that of the last byte of a label.
pub(crate) const GATE: usize = LABEL_LEN - 1;

/// The byte of an open gate.
pub(crate) const OPEN: u8 = 0x65;

/// What the incoming file of a disk is.
#[derive(Drop)]
pub enum Found {
    /// It is open: the label and the image that it stands for, of this version.
    Open { text: Bytes, version: Version },
    /// It is ignored, and so many bytes long. Its gate stands open past the longest image, or not.
    Ignored { len: u64, gated: bool },
}

/// The version of an open incoming file of this length, by its head; none where it is ignored.
fn open_version(len: u64, head: &[u8; LABEL_LEN]) -> Option<Version>
    ensures open { IfSome result (λ version. (file : List ℕ) → len ≡ length file → IsHeadOf head.now file
        → IsIncoming file version (drop 64 file)) }
    ensures ignored { result ≡ None → (file : List ℕ) → len ≡ length file → IsHeadOf head.now file → IsIgnored file }
    ensures is_version { IfSome result IsVersion }
    ensures fits { IfSome result (λ _. (LABEL_LEN ≤ len) × (len ≤ MAX_DATABASE_LEN)) }
{
    if head[GATE] != OPEN {
        return None;
    }
    let mut label = *head;
    label[GATE] = 0;
    version_of_file(len, &label)
}

/// The length of the incoming file, in bytes.
fn incoming_len<D: Disk>(disk: &mut D) -> Result<u64, IncomingFault>
    ensures len { IfOk result (λ len. IfSome (D.files disk.old) (λ fs. len ≡ length fs.incoming)) }
    ensures stopped { IsStopped (D.stop disk.old) → IsErrOf result IncomingFault.DiskFault }
    ensures fault { IfErr result (λ fault. fault ≡ IncomingFault.DiskFault) }
    ensures reads { OnlyReads D.Disk disk.old disk.new (IsErrOf result IncomingFault.DiskFault) }
{
    match disk.len(FileNo::Incoming) {
        LenEnd::Known(len) => Ok(len),
        LenEnd::Failed => Err(IncomingFault::DiskFault),
    }
}

/// The head of the incoming file of this length: as many bytes as a label has, and zero bytes where it is shorter.
fn incoming_head<D: Disk>(disk: &mut D, len: u64) -> Result<[u8; LABEL_LEN], IncomingFault>
    requires { IfSome (D.files disk.old) (λ fs. len ≡ length fs.incoming) }
    ensures head { IfOk result (λ head. IfSome (D.files disk.old) (λ fs. IsHeadOf head fs.incoming)) }
    ensures fault { IfErr result (λ fault. fault ≡ IncomingFault.DiskFault) }
    ensures reads { OnlyReads D.Disk disk.old disk.new (IsErrOf result IncomingFault.DiskFault) }
{
    let mut head = [0; LABEL_LEN];
    let there = len.min(LABEL_LEN as u64) as usize;
    match disk.read(FileNo::Incoming, 0, &mut head[..there]) {
        DiskEnd::Done => Ok(head),
        DiskEnd::Failed => Err(IncomingFault::DiskFault),
    }
}

/// Writes the label of a version over the front of bytes.
pub(crate) fn put_label(text: &mut [u8], version: Version)
    requires { LABEL_LEN ≤ length text.old }
    ensures { text.new ≡ label version ++ drop LABEL_LEN text.old }
{
    text[..LABEL_LEN].copy_from_slice(&label_bytes(version));
}

/// Label and image of an open incoming file of this length and this version.
fn incoming_text<D: Disk>(
    alloc: Global,
    disk: &mut D,
    len: u64,
    version: Version,
) -> Result<Bytes, IncomingFault>
    requires len { IfSome (D.files disk.old) (λ fs. len ≡ length fs.incoming) }
    requires fits { (LABEL_LEN ≤ len) × (len ≤ MAX_DATABASE_LEN) }
    requires is_version { IsVersion version }
    ensures text { IfOk result (λ text. IsText text version) }
    ensures image { IfOk result (λ text. IfSome (D.files disk.old) (λ fs. drop 64 text ≡ drop 64 fs.incoming)) }
    ensures fault { IfErr result (λ fault. (fault ≡ IncomingFault.DiskFault) ⊎ (fault ≡ IncomingFault.NoMemory)) }
    ensures reads { OnlyReads D.Disk disk.old disk.new (IsErrOf result IncomingFault.DiskFault) }
{
    let mut text = vec![in alloc; 0u8; len as usize]?;
    if let DiskEnd::Failed = disk.read(FileNo::Incoming, 0, &mut text) {
        return Err(IncomingFault::DiskFault);
    }
    put_label(&mut text, version);
    Ok(Bytes::new(text))
}

/// Makes room for the first `len` bytes of the incoming file. For want of memory nothing changes.
pub fn reserve_incoming<D: Disk>(disk: &mut D, len: u64) -> Result<(), NoMemory>
    ensures reserved { OnOk result (len ≤ D.room disk.new FileNo.Incoming) }
    ensures reserves { OnlyReserves D.Disk disk.old disk.new }
{
    match disk.reserve(FileNo::Incoming, len) {
        RoomEnd::Done => Ok(()),
        RoomEnd::NoMemory => Err(NoMemory),
    }
}

/// Reads the incoming file: whole where it is open, and else its head. It makes the room that closing a gate needs.
pub fn read_incoming<D: Disk>(alloc: Global, disk: &mut D) -> Result<Found, IncomingFault>
    ensures finds { IfOk result (Finds D.Disk disk.new) }
    ensures fault { IfErr result (λ fault. (fault ≡ IncomingFault.DiskFault) ⊎ (fault ≡ IncomingFault.NoMemory)) }
    ensures stopped { IsStopped (D.stop disk.old) → IsErrOf result IncomingFault.DiskFault }
    ensures reads { OnlyReads D.Disk disk.old disk.new (IsErrOf result IncomingFault.DiskFault) }
{
    let len = incoming_len(disk)?;
    if len == 0 {
        return Ok(Found::Ignored { len, gated: false });
    }
    let head = incoming_head(disk, len)?;
    if let Some(version) = open_version(len, &head) {
        let text = incoming_text(alloc, disk, len, version)?;
        return Ok(Found::Open { text, version });
    }
    let gated = len > MAX_DATABASE_LEN && head[GATE] == OPEN;
    if gated {
        reserve_incoming(disk, LABEL_LEN as u64)?;
    }
    Ok(Found::Ignored { len, gated })
}
