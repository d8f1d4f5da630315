//! What is read of the database file: its length, its head, and parts of it.
ghost use Rattle.std.specs.Prelude.{◌≡◌, ◌+◌, ◌*◌, ◌≤◌, ◌<◌, ◌^◌, IfSome, OnOk, IfOk, IfErr, IsErr, length, take, drop};
ghost use Rattle.disk_base.specs.Stops.{IsStopped};
ghost use Rattle.disk_base.specs.Runs.{OnlyReads};
ghost use Rattle.page_file.specs.Kept.{IsPageOf};
ghost use Rattle.page_file.specs.Label.{IsHeadOf};
ghost use Rattle.page_file.specs.Pages.{image_of};

use crate::cache::PageBytes;
use crate::faults::PageFault;
use crate::label::LABEL_LEN;
use disk_base::{Disk, DiskEnd, FileNo, LenEnd};

/// The length of a page of the image, in bytes (Ubik).
pub const PAGE_LEN: usize = 1024;

/// The length of the database file, in bytes.
pub(crate) fn file_len<D: Disk>(disk: &mut D) -> Result<u64, PageFault>
    ensures len { IfOk result (λ len. IfSome (D.files disk.old) (λ fs. len ≡ length fs.database)) }
    ensures stopped { IsStopped (D.stop disk.old) → IsErr result }
    ensures fault { IfErr result (λ fault. fault ≡ PageFault.DiskFault) }
    ensures reads { OnlyReads D.Disk disk.old disk.new (IsErr result) }
{
    match disk.len(FileNo::Database) {
        LenEnd::Known(len) => Ok(len),
        LenEnd::Failed => Err(PageFault::DiskFault),
    }
}

/// The head of the database file of this length: as many bytes as a label has, and zero bytes where it is shorter.
pub(crate) fn read_head<D: Disk>(disk: &mut D, len: u64) -> Result<[u8; LABEL_LEN], PageFault>
    requires { IfSome (D.files disk.old) (λ fs. len ≡ length fs.database) }
    ensures head { IfOk result (λ head. IfSome (D.files disk.old) (λ fs. IsHeadOf head fs.database)) }
    ensures stopped { IsStopped (D.stop disk.old) → IsErr result }
    ensures fault { IfErr result (λ fault. fault ≡ PageFault.DiskFault) }
    ensures reads { OnlyReads D.Disk disk.old disk.new (IsErr result) }
{
    let mut head = [0; LABEL_LEN];
    let there = len.min(LABEL_LEN as u64) as usize;
    match disk.read(FileNo::Database, 0, &mut head[..there]) {
        DiskEnd::Done => Ok(head),
        DiskEnd::Failed => Err(PageFault::DiskFault),
    }
}

/// Reads bytes of the image from a position on, which lie within it.
fn read_image<D: Disk>(disk: &mut D, at: u64, buf: &mut [u8]) -> Result<(), PageFault>
    requires within { IfSome (D.files disk.old) (λ fs. at + length buf.old ≤ length (image_of fs.database)) }
    requires some { 0 < length buf.old }
    requires fits { at + LABEL_LEN < 2 ^ 64 }
    ensures bytes { OnOk result (IfSome (D.files disk.old) (λ fs. buf.new ≡ take (length buf.old) (drop at (image_of fs.database)))) }
    ensures stopped { IsStopped (D.stop disk.old) → IsErr result }
    ensures fault { IfErr result (λ fault. fault ≡ PageFault.DiskFault) }
    ensures reads { OnlyReads D.Disk disk.old disk.new (IsErr result) }
{
    match disk.read(FileNo::Database, LABEL_LEN as u64 + at, buf) {
        DiskEnd::Done => Ok(()),
        DiskEnd::Failed => Err(PageFault::DiskFault),
    }
}

/// Reads a page of an image of this length that has a byte of it.
pub(crate) fn read_page<D: Disk>(disk: &mut D, len: u64, page: u64) -> Result<PageBytes, PageFault>
    requires len { IfSome (D.files disk.old) (λ fs. len ≡ length (image_of fs.database)) }
    requires within { page * PAGE_LEN < len }
    requires fits { page * PAGE_LEN + PAGE_LEN + LABEL_LEN < 2 ^ 64 }
    ensures bytes { IfOk result (λ bytes. IfSome (D.files disk.old) (λ fs. IsPageOf (image_of fs.database) page bytes)) }
    ensures stopped { IsStopped (D.stop disk.old) → IsErr result }
    ensures fault { IfErr result (λ fault. fault ≡ PageFault.DiskFault) }
    ensures reads { OnlyReads D.Disk disk.old disk.new (IsErr result) }
{
    let at = page * PAGE_LEN as u64;
    let there = (len - at).min(PAGE_LEN as u64) as usize;
    let mut bytes = [0; PAGE_LEN];
    read_image(disk, at, &mut bytes[..there])?;
    Ok(bytes)
}
