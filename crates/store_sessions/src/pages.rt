//! Calls of pages over a database file. An opening asks for the length of the file once more.
ghost use Rattle.page_file.specs.Pages.{AgreesIn};

use crate::answers::Answer;
use crate::bytes::Names;
use crate::devices::{Device, PagedDisk};
use crate::words::version_of;
use disk_base::{Disk, FileNo, LenEnd, MemDisk};
use page_file::{LABEL_LEN, PageFault, Pages};
use session_rows::{Fault, number_in};
use std::alloc::Global;
use ubik_types::Version;

/// Reads length and label of a database file.
pub fn open_pages(alloc: Global, disk: MemDisk) -> Result<(Device, Answer), Fault> {
    let mut disk = disk;
    match Pages::open(alloc, &mut disk) {
        Ok(pages) => hold(alloc, disk, pages),
        Err(fault) => Ok((Device::Disk(disk), refusal(alloc, &fault)?)),
    }
}

/// Reads the length of a database file, and no label.
pub fn open_over(alloc: Global, disk: MemDisk) -> Result<(Device, Answer), Fault> {
    let mut disk = disk;
    match Pages::over(alloc, &mut disk) {
        Ok(pages) => hold(alloc, disk, pages),
        Err(fault) => Ok((Device::Disk(disk), refusal(alloc, &fault)?)),
    }
}

/// Why a database file is not taken.
fn refusal(alloc: Global, fault: &PageFault) -> Result<Answer, Fault> {
    match fault {
        PageFault::DiskFault => Answer::text(alloc, "failed"),
        PageFault::BadLabel { len, head } => Answer::bad_label(alloc, *len, head),
        PageFault::NoMemory => Err(Fault::NoMemory),
    }
}

/// Keeps the pages, where the file has room for a label.
fn hold(alloc: Global, disk: MemDisk, pages: Pages) -> Result<(Device, Answer), Fault>
    requires agrees { AgreesIn pages (⟦<MemDisk as Disk>⟧.files disk) }
{
    let answer = Answer::state(alloc, pages.version(), pages.len())?;
    let mut disk = disk;
    match disk.len(FileNo::Database) {
        LenEnd::Known(len) if len >= LABEL_LEN as u64 => {
            Ok((Device::Pages(PagedDisk { disk, pages }), answer))
        }
        LenEnd::Known(_) => Ok((Device::Disk(disk), answer)),
        LenEnd::Failed => Ok((Device::Disk(disk), Answer::text(alloc, "failed")?)),
    }
}

/// Makes a call of pages. After one that fails only the disk is left. Each reads its own words: a fault among them lets the pages go.
pub fn call_pages(
    alloc: Global,
    names: &Names,
    paged: PagedDisk,
    words: &[&str],
) -> Result<(Device, Answer), Fault> {
    match words {
        ["put", at, bytes] => put(alloc, names, paged, at, bytes),
        ["read", at, len] => read(alloc, paged, at, len),
        ["truncate", len] => truncate(alloc, paged, len),
        ["label", version] => label(alloc, paged, version),
        ["sync"] => sync(alloc, paged),
        ["kept", page] => kept(alloc, paged, page),
        _ => Err(Fault::Form),
    }
}

/// A call that was done answers with the version and the length that the pages have.
fn done(alloc: Global, paged: PagedDisk) -> Result<(Device, Answer), Fault> {
    let answer = Answer::state(alloc, paged.pages.version(), paged.pages.len())?;
    Ok((Device::Pages(paged), answer))
}

/// So does one that failed.
fn failed(alloc: Global, disk: MemDisk, pages: &Pages) -> Result<(Device, Answer), Fault> {
    let Version { epoch, counter } = pages.version();
    let len = pages.len();
    let text = format!(in alloc; "failed {epoch}.{counter} {len}")?;
    Ok((Device::Disk(disk), Answer::of(text)))
}

fn kept(alloc: Global, paged: PagedDisk, page: &str) -> Result<(Device, Answer), Fault> {
    let is_kept = paged.pages.kept(number_in(page)?);
    let answer = Answer::text(alloc, if is_kept { "yes" } else { "no" })?;
    Ok((Device::Pages(paged), answer))
}

fn put(
    alloc: Global,
    names: &Names,
    paged: PagedDisk,
    at: &str,
    bytes: &str,
) -> Result<(Device, Answer), Fault> {
    let (at, bytes) = (number_in(at)?, names.bytes_of(bytes)?);
    let PagedDisk {
        mut disk,
        mut pages,
    } = paged;
    let end = u64::from(at) + bytes.len() as u64;
    if at > pages.len() || end > u64::from(u32::MAX) {
        return Err(Fault::Form);
    }
    pages.reserve(&mut disk, end as u32)?;
    match pages.write_range(&mut disk, at, &bytes) {
        Ok(()) => done(alloc, PagedDisk { disk, pages }),
        Err(_) => failed(alloc, disk, &pages),
    }
}

fn read(alloc: Global, paged: PagedDisk, at: &str, len: &str) -> Result<(Device, Answer), Fault> {
    let (at, len) = (number_in(at)?, number_in(len)?);
    let PagedDisk {
        mut disk,
        mut pages,
    } = paged;
    if u64::from(at) + u64::from(len) > u64::from(pages.len()) {
        return Err(Fault::Form);
    }
    let mut bytes = vec![in alloc; 0u8; len as usize]?;
    match pages.read_range(&mut disk, at, &mut bytes) {
        Ok(()) => Ok((
            Device::Pages(PagedDisk { disk, pages }),
            Answer::bytes(alloc, bytes),
        )),
        Err(_) => failed(alloc, disk, &pages),
    }
}

fn truncate(alloc: Global, paged: PagedDisk, len: &str) -> Result<(Device, Answer), Fault> {
    let len = number_in(len)?;
    let PagedDisk {
        mut disk,
        mut pages,
    } = paged;
    if len > pages.len() {
        return Err(Fault::Form);
    }
    match pages.cut(&mut disk, len) {
        Ok(()) => done(alloc, PagedDisk { disk, pages }),
        Err(_) => failed(alloc, disk, &pages),
    }
}

fn label(alloc: Global, paged: PagedDisk, version: &str) -> Result<(Device, Answer), Fault> {
    let version = version_of(version)?;
    let PagedDisk {
        mut disk,
        mut pages,
    } = paged;
    match pages.set_label(&mut disk, version) {
        Ok(()) => done(alloc, PagedDisk { disk, pages }),
        Err(_) => failed(alloc, disk, &pages),
    }
}

fn sync(alloc: Global, paged: PagedDisk) -> Result<(Device, Answer), Fault> {
    let PagedDisk {
        mut disk,
        mut pages,
    } = paged;
    match pages.sync(&mut disk) {
        Ok(()) => done(alloc, PagedDisk { disk, pages }),
        Err(_) => failed(alloc, disk, &pages),
    }
}
