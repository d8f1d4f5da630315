//! Pages over the database file of a disk.
ghost use Rattle.std.specs.Prelude.{◌≡◌, ◌+◌, ◌-◌, ◌*◌, ◌/◌, ◌<◌, ◌≤◌, ◌^◌, Some, None, IsSome, IfSome, OnOk, OnErr, IfOk, IfErr, IsErr, IsErrOf, IsOk, length, take, drop, max, min, nat_eq, is_some, unwrap_or};
ghost use Rattle.std.specs.Map.{lookup};
ghost use Rattle.std.specs.Option.{option_map};
ghost use Rattle.ubik_types.specs.Version.{IsVersion, zero_version};
ghost use Rattle.disk_base.specs.Stops.{IsStopped};
ghost use Rattle.disk_base.specs.Crash.{After, InFile, LeavesOnly};
ghost use Rattle.disk_base.specs.Files.{with_file};
ghost use Rattle.disk_base.specs.Runs.{OnlyReads, OnlyReserves, Writes, Cuts, Syncs, ChangesAtMost};
ghost use Rattle.page_file.specs.Label.{label, version_of_database};
ghost use Rattle.page_file.specs.Fault.{Refuses, IsUnlabelled, IsTooLong};
ghost use Rattle.page_file.specs.Kept.{no_pages, IsKept, AreKept, BringsPage, BringsPages, pages_between, apart_from, without_pages};
ghost use Rattle.page_file.specs.Pages.{AgreesIn, SameButCache, IsNoLonger, image_of};

use crate::cache::Cache;
use crate::faults::PageFault;
use crate::label::{LABEL_LEN, MAX_DATABASE_LEN, label_bytes, version_of_file};
use crate::reads::{PAGE_LEN, file_len, read_head, read_page};
use disk_base::{Disk, DiskEnd, FileNo, RoomEnd};
use std::alloc::Global;
use std::marker::Model;
use ubik_types::{MAX_IMAGE, NoMemory, Version};

/// The version of a database that nothing was written to.
const FIRST_VERSION: Version = Version {
    epoch: 0,
    counter: 0,
};

/// The database file of a disk: its version, the length of its image, and the pages of it that are kept. The position p
/// of the image stands at `LABEL_LEN` + p in the file. The disk is lent to each call.
#[derive(Drop)]
pub struct Pages {
    version: Option<Version>,
    len: u64,
    cache: Cache,
}

impl Model for Pages {
    ghost use Rattle.page_file.specs.Pages.{Known};

    ghost Value = { Known };

    ghost use Rattle.page_file.specs.View.{known_of};

    ghost view = { known_of };
}

impl Pages {
    /// Reads length and label of the database file. An empty file has the first version and no image. Any other file
    /// without a label is refused, and so is one that is too long.
    pub fn open<D: Disk>(alloc: Global, disk: &mut D) -> Result<Pages, PageFault>
        ensures version { IfOk result (λ pages. IfSome (D.files disk.old) (λ fs. pages.version ≡ version_of_database fs.database)) }
        ensures labelled { IfOk result (λ pages. IsSome pages.version) }
        ensures numbers { IfOk result (λ pages. IfSome pages.version IsVersion) }
        ensures len { IfOk result (λ pages. pages.len ≤ MAX_IMAGE) }
        ensures cache { IfOk result (λ pages. pages.cache ≡ no_pages) }
        ensures agrees { IfOk result (λ pages. AgreesIn pages (D.files disk.new)) }
        ensures refused { IfErr result (λ fault. IfSome (D.files disk.old) (λ fs. Refuses IsUnlabelled fs.database fault)) }
        ensures stopped { IsStopped (D.stop disk.old) → IsErrOf result PageFault.DiskFault }
        ensures no_memory { ¬ IsErrOf result PageFault.NoMemory }
        ensures reads { OnlyReads D.Disk disk.old disk.new (IsErrOf result PageFault.DiskFault) }
    {
        let len = file_len(disk)?;
        if len == 0 {
            return Ok(Pages {
                version: Some(FIRST_VERSION),
                len,
                cache: Cache::new(alloc),
            });
        }
        let head = read_head(disk, len)?;
        match version_of_file(len, &head) {
            Some(version) => Ok(Pages {
                version: Some(version),
                len: len - LABEL_LEN as u64,
                cache: Cache::new(alloc),
            }),
            None => Err(PageFault::BadLabel { len, head }),
        }
    }

    /// Reads the length of the database file, and no label: for a file that a committed log stands over. A file
    /// that is too long is refused.
    pub fn over<D: Disk>(alloc: Global, disk: &mut D) -> Result<Pages, PageFault>
        ensures version { IfOk result (λ pages. pages.version ≡ None) }
        ensures fits { OnOk result (IfSome (D.files disk.old) (λ fs. ¬ IsTooLong fs.database)) }
        ensures len { IfOk result (λ pages. pages.len ≤ MAX_IMAGE) }
        ensures cache { IfOk result (λ pages. pages.cache ≡ no_pages) }
        ensures agrees { IfOk result (λ pages. AgreesIn pages (D.files disk.new)) }
        ensures refused { IfErr result (λ fault. IfSome (D.files disk.old) (λ fs. Refuses IsTooLong fs.database fault)) }
        ensures stopped { IsStopped (D.stop disk.old) → IsErrOf result PageFault.DiskFault }
        ensures no_memory { ¬ IsErrOf result PageFault.NoMemory }
        ensures reads { OnlyReads D.Disk disk.old disk.new (IsErrOf result PageFault.DiskFault) }
    {
        let len = file_len(disk)?;
        if len > MAX_DATABASE_LEN {
            let head = read_head(disk, len)?;
            return Err(PageFault::BadLabel { len, head });
        }
        Ok(Pages {
            version: None,
            len: len.saturating_sub(LABEL_LEN as u64),
            cache: Cache::new(alloc),
        })
    }

    /// The version of the label, and the first one where none was read or set.
    pub fn version(&self) -> Version
        ensures { result ≡ unwrap_or self.now.version zero_version }
    {
        self.version.unwrap_or(FIRST_VERSION)
    }

    /// The length of the image, in bytes.
    pub fn len(&self) -> u32
        ensures { result ≡ min self.now.len (2 ^ 32 - 1) }
    {
        self.len.min(u64::from(u32::MAX)) as u32
    }

    /// Whether a page is kept: a read of it needs no disk.
    pub fn kept(&self, page: u32) -> bool
        ensures { result ≡ is_some (lookup (nat_eq page) self.now.cache.pages) }
    {
        self.cache.holds(u64::from(page))
    }

    /// How often a page that was read found no memory to be kept, since the opening.
    pub fn left_out(&self) -> u64
        ensures { result ≡ self.now.cache.left_out }
    {
        self.cache.left_out()
    }

    /// Reads bytes of the image from a position on, which lie within it, in pages. Those that are kept are read from memory,
    /// and each of the others by one call of the disk, and kept from then on where there is memory for it.
    pub fn read_range<D: Disk>(
        &mut self,
        disk: &mut D,
        at: u32,
        buf: &mut [u8],
    ) -> Result<(), PageFault>
        requires agrees { AgreesIn self.old (D.files disk.old) }
        requires within { at + length buf.old ≤ self.old.len }
        ensures bytes { OnOk result (IfSome (D.files disk.old) (λ fs. buf.new ≡ take (length buf.old) (drop at (image_of fs.database)))) }
        ensures same { SameButCache self.old self.new }
        ensures brought { OnOk result (BringsPages (at / PAGE_LEN) (pages_between at (length buf.old)) self.old.cache self.new.cache) }
        ensures kept { AreKept self.old.cache at (length buf.old) → IsOk result × (disk.new ≡ disk.old) }
        ensures stopped { IsStopped (D.stop disk.old) → OnOk result (AreKept self.old.cache at (length buf.old)) }
        ensures agrees { ¬ IsErrOf result PageFault.DiskFault → AgreesIn self.new (D.files disk.new) }
        ensures fault { IfErr result (λ fault. fault ≡ PageFault.DiskFault) }
        ensures reads { OnlyReads D.Disk disk.old disk.new (IsErrOf result PageFault.DiskFault) }
    {
        if buf.is_empty() {
            return Ok(());
        }
        let begin = at as u64;
        let to = begin + buf.len() as u64;
        for page in begin / PAGE_LEN as u64..(to - 1) / PAGE_LEN as u64 + 1 {
            let start = page * PAGE_LEN as u64;
            let from = begin.max(start);
            let until = to.min(start + PAGE_LEN as u64);
            self.read_part(
                disk,
                page,
                (from - start) as usize,
                &mut buf[(from - begin) as usize..(until - begin) as usize],
            )?;
        }
        Ok(())
    }

    /// Reads bytes of one page from a position in it on, and brings it to the front of those that are kept.
    fn read_part<D: Disk>(
        &mut self,
        disk: &mut D,
        page: u64,
        from: usize,
        out: &mut [u8],
    ) -> Result<(), PageFault>
        requires agrees { AgreesIn self.old (D.files disk.old) }
        requires some { 0 < length out.old }
        requires one { from + length out.old ≤ PAGE_LEN }
        requires within { page * PAGE_LEN + from + length out.old ≤ self.old.len }
        requires fits { page * PAGE_LEN + PAGE_LEN + LABEL_LEN < 2 ^ 64 }
        ensures bytes { OnOk result (IfSome (D.files disk.old)
            (λ fs. out.new ≡ take (length out.old) (drop (page * PAGE_LEN + from) (image_of fs.database)))) }
        ensures same { SameButCache self.old self.new }
        ensures brought { OnOk result (BringsPage page self.old.cache self.new.cache) }
        ensures kept { IsKept self.old.cache page → IsOk result × (disk.new ≡ disk.old) }
        ensures stopped { IsStopped (D.stop disk.old) → OnOk result (IsKept self.old.cache page) }
        ensures agrees { OnOk result (AgreesIn self.new (D.files disk.new)) }
        ensures fault { IfErr result (λ fault. fault ≡ PageFault.DiskFault) }
        ensures reads { OnlyReads D.Disk disk.old disk.new (IsErr result) }
    {
        if self.cache.copy(page, from, out) {
            return Ok(());
        }
        let bytes = read_page(disk, self.len, page)?;
        out.copy_from_slice(&bytes[from..from + out.len()]);
        self.cache.keep(page, bytes);
        Ok(())
    }

    /// Makes room in the database file for an image of `len` bytes, and takes no memory where there is room. For want
    /// of memory nothing changes.
    pub fn reserve<D: Disk>(&mut self, disk: &mut D, len: u32) -> Result<(), NoMemory>
        requires agrees { AgreesIn self.old (D.files disk.old) }
        ensures reserved { OnOk result (LABEL_LEN + len ≤ D.room disk.new FileNo.Database) }
        ensures no_memory { OnErr result (D.room disk.old FileNo.Database < LABEL_LEN + len) }
        ensures pages { self.new ≡ self.old }
        ensures agrees { AgreesIn self.new (D.files disk.new) }
        ensures reserves { OnlyReserves D.Disk disk.old disk.new }
    {
        match disk.reserve(FileNo::Database, LABEL_LEN as u64 + len as u64) {
            RoomEnd::Done => Ok(()),
            RoomEnd::NoMemory => Err(NoMemory),
        }
    }

    /// Lays bytes over the image from a position on, at most its length. It takes no memory: their room was reserved.
    pub fn write_range<D: Disk>(
        &mut self,
        disk: &mut D,
        at: u32,
        bytes: &[u8],
    ) -> Result<(), PageFault>
        requires agrees { AgreesIn self.old (D.files disk.old) }
        requires begins { at ≤ self.old.len }
        requires fits { LABEL_LEN + at + length bytes.now ≤ D.room disk.old FileNo.Database }
        requires headed { IfSome (D.files disk.old) (λ fs. LABEL_LEN ≤ length fs.database) }
        ensures version { self.new.version ≡ self.old.version }
        ensures len { OnOk result (self.new.len ≡ max self.old.len (at + length bytes.now)) }
        ensures cache { OnOk result (self.new.cache ≡ apart_from at (at + length bytes.now) self.old.cache) }
        ensures same { OnErr result (self.new ≡ self.old) }
        ensures agrees { OnOk result (AgreesIn self.new (D.files disk.new)) }
        ensures headed { OnOk result (IfSome (D.files disk.new) (λ fs. LABEL_LEN ≤ length fs.database)) }
        ensures fault { IfErr result (λ fault. fault ≡ PageFault.DiskFault) }
        ensures writes { Writes D.Disk FileNo.Database (LABEL_LEN + at) bytes.now disk.old disk.new (IsErr result) }
    {
        let from = at as u64;
        match disk.write_at(FileNo::Database, LABEL_LEN as u64 + from, bytes) {
            DiskEnd::Done => {
                let to = from + bytes.len() as u64;
                self.len = self.len.max(to);
                self.cache.forget(from, to);
                Ok(())
            }
            DiskEnd::Failed => Err(PageFault::DiskFault),
        }
    }

    /// Keeps the first `len` bytes of the image, at most its length.
    pub fn cut<D: Disk>(&mut self, disk: &mut D, len: u32) -> Result<(), PageFault>
        requires agrees { AgreesIn self.old (D.files disk.old) }
        requires within { len ≤ self.old.len }
        requires headed { IfSome (D.files disk.old) (λ fs. LABEL_LEN ≤ length fs.database) }
        ensures version { self.new.version ≡ self.old.version }
        ensures len { OnOk result (self.new.len ≡ len) }
        ensures cache { OnOk result (self.new.cache ≡ apart_from len self.old.len self.old.cache) }
        ensures same { OnErr result (self.new ≡ self.old) }
        ensures agrees { OnOk result (AgreesIn self.new (D.files disk.new)) }
        ensures headed { OnOk result (IfSome (D.files disk.new) (λ fs. LABEL_LEN ≤ length fs.database)) }
        ensures fault { IfErr result (λ fault. fault ≡ PageFault.DiskFault) }
        ensures cuts { Cuts D.Disk FileNo.Database (LABEL_LEN + len) disk.old disk.new (IsErr result) }
    {
        let len = len as u64;
        match disk.cut(FileNo::Database, LABEL_LEN as u64 + len) {
            DiskEnd::Done => {
                self.cache.forget(len, self.len);
                self.len = len;
                Ok(())
            }
            DiskEnd::Failed => Err(PageFault::DiskFault),
        }
    }

    /// Puts another file in place of the one that is there, with the label of a version and an image behind it: all is cut, and then
    /// written in one call. It takes no memory: the room was reserved.
    pub fn replace<D: Disk>(
        &mut self,
        disk: &mut D,
        text: &[u8],
        v: Version,
    ) -> Result<(), PageFault>
        requires version { IsVersion v }
        requires labelled { take LABEL_LEN text.now ≡ label v }
        requires long { LABEL_LEN ≤ length text.now }
        requires fits { length text.now ≤ D.room disk.old FileNo.Database }
        ensures version { OnOk result (self.new.version ≡ Some v) }
        ensures len { OnOk result (LABEL_LEN + self.new.len ≡ length text.now) }
        ensures cache { OnOk result (self.new.cache ≡ without_pages self.old.cache) }
        ensures same { OnErr result (self.new ≡ self.old) }
        ensures agrees { OnOk result (AgreesIn self.new (D.files disk.new)) }
        ensures files { OnOk result (D.files disk.new ≡ option_map (λ fs. with_file fs FileNo.Database text.now) (D.files disk.old)) }
        ensures steps { OnOk result (D.steps disk.new ≡ D.steps disk.old + 2) }
        // A crash at any moment of the call leaves a file that is no longer than the one before it and the new one.
        ensures moments { LeavesOnly D.steps D.left_since disk.old disk.new
            (After (InFile FileNo.Database (IsNoLonger (length text.now))) (D.may_leave disk.old)) }
        ensures fault { IfErr result (λ fault. fault ≡ PageFault.DiskFault) }
        ensures changes { ChangesAtMost D.Disk FileNo.Database 2 disk.old disk.new (IsErr result) }
    {
        match disk.cut(FileNo::Database, 0) {
            DiskEnd::Done => {}
            DiskEnd::Failed => return Err(PageFault::DiskFault),
        }
        match disk.write_at(FileNo::Database, 0, text) {
            DiskEnd::Done => {
                self.version = Some(v);
                self.len = (text.len() - LABEL_LEN) as u64;
                self.cache.clear();
                Ok(())
            }
            DiskEnd::Failed => Err(PageFault::DiskFault),
        }
    }

    /// Writes the label of a version over the head of the file.
    pub fn set_label<D: Disk>(&mut self, disk: &mut D, v: Version) -> Result<(), PageFault>
        requires agrees { AgreesIn self.old (D.files disk.old) }
        requires version { IsVersion v }
        requires fits { D.files disk.old ≡ None → LABEL_LEN ≤ D.room disk.old FileNo.Database }
        requires headed { IfSome (D.files disk.old) (λ fs. LABEL_LEN ≤ length fs.database) }
        ensures version { OnOk result (self.new.version ≡ Some v) }
        ensures len { self.new.len ≡ self.old.len }
        ensures cache { self.new.cache ≡ self.old.cache }
        ensures same { OnErr result (self.new ≡ self.old) }
        ensures agrees { OnOk result (AgreesIn self.new (D.files disk.new)) }
        ensures headed { OnOk result (IfSome (D.files disk.new) (λ fs. LABEL_LEN ≤ length fs.database)) }
        ensures fault { IfErr result (λ fault. fault ≡ PageFault.DiskFault) }
        ensures writes { Writes D.Disk FileNo.Database 0 (label v) disk.old disk.new (IsErr result) }
    {
        match disk.write_at(FileNo::Database, 0, &label_bytes(v)) {
            DiskEnd::Done => {
                self.version = Some(v);
                Ok(())
            }
            DiskEnd::Failed => Err(PageFault::DiskFault),
        }
    }

    /// After it a crash leaves of the database file what a read gives.
    pub fn sync<D: Disk>(&mut self, disk: &mut D) -> Result<(), PageFault>
        requires agrees { AgreesIn self.old (D.files disk.old) }
        ensures pages { self.new ≡ self.old }
        ensures agrees { OnOk result (AgreesIn self.new (D.files disk.new)) }
        ensures fault { IfErr result (λ fault. fault ≡ PageFault.DiskFault) }
        ensures syncs { Syncs D.Disk FileNo.Database disk.old disk.new (IsErr result) }
    {
        match disk.sync(FileNo::Database) {
            DiskEnd::Done => Ok(()),
            DiskEnd::Failed => Err(PageFault::DiskFault),
        }
    }
}
