//! A disk that has its files in memory too, and so tells them.
ghost use Rattle.std.specs.Prelude.{◌≡◌, ◌≢◌, ◌≤◌, ◌^◌, ◌+◌, ◌<◌, ◌⊎◌, ℕ, min, true, false, Some, Err, IfOk, IfErr, IsErr, IfSome, IsSome, OnOk, length, take, drop};
ghost use Rattle.disk_base.specs.declared.disks.FileNo.{FileNo};
ghost use Rattle.disk_base.specs.Crash.{Only, OnlyIn, LeavesOthers};
ghost use Rattle.disk_base.specs.Files.{file_of};
ghost use Rattle.disk_base.specs.Count.{HasCause};
ghost use Rattle.disk_base.specs.Runs.{OnlyReads, Syncs};
ghost use Rattle.disk_base.specs.Stops.{IsStopped};
ghost use Rattle.disk_base.specs.Taking.{Takes, IsHeadOf, IsShown};
ghost use Rattle.disk_base.specs.Mirror.{mirror_now, mirror_room, mirror_steps, mirror_faults, mirror_pending, mirror_may_leave, mirror_left_since, most_of, AreTold, IsNewMirror, IsWithin};

use crate::mirrors::Mirror;
use crate::{Disk, DiskEnd, FileNo, LenEnd, Refused, RoomEnd};
use std::alloc::Global;
use thiserror::Error;

/// Three files that lie on a disk and in memory. Reads are answered out of memory; what changes a file is made on the
/// disk too, and counts as done where the disk says so. Once a call of the disk has failed each later call fails: the
/// disk may then hold a part of that call.
#[derive(Drop)]
pub struct Mirrored<D: Disk> {
    disk: D,
    mirror: Mirror,
    ghost has_room: { (f : FileNo) → length (file_of (mirror_now mirror) f) ≤ D.room disk f },
    ghost agrees: { mirror.broken ≡ false → AreTold (D.files disk) (mirror_now mirror) },
    // What a crash leaves of the disk, where it tells its files, is what may be left here.
    ghost leaves: { mirror.broken ≡ false → IsSome (D.files disk) → IsWithin (D.may_leave disk) (mirror_may_leave mirror) },
}

/// How many bytes each file of a disk may have, by its format. A longer one is not read.
#[derive(Clone, Copy, Debug, PartialEq, Eq)]
pub struct MostBytes {
    pub database: u64,
    pub log: u64,
    pub incoming: u64,
}

impl MostBytes {
    ghost use Rattle.disk_base.specs.Mirror.{most_of};

    const fn of(&self, f: FileNo) -> u64
        ensures { result ≡ most_of self.now f }
    {
        match f {
            FileNo::Database => self.database,
            FileNo::Log => self.log,
            FileNo::Incoming => self.incoming,
        }
    }
}

/// Why a disk was not mirrored.
#[derive(Clone, Copy, Debug, PartialEq, Eq, Error)]
pub enum MirrorFault {
    /// A call of the disk failed.
    #[error("the disk failed")]
    DiskFault,
    /// A file has more bytes than it may have, so many; `head` is its first 64.
    #[error("a file of {len} bytes is too long")]
    TooLong {
        file: FileNo,
        len: u64,
        head: [u8; HEAD_LEN],
    },
    /// There is not memory for a file.
    #[error("out of memory")]
    NoMemory,
}

/// As many bytes as are shown of a file that is too long.
const HEAD_LEN: usize = 64;

impl<D: Disk + Drop> Mirrored<D> {
    ghost use Rattle.disk_base.specs.Mirrored.{mirrored_files, mirrored_whole, mirrored_disk, mirrored_may_leave, mirrored_steps, mirrored_faults};

    /// Reads the files of a disk into memory, and syncs each once, so that no crash takes away what was read. It makes no
    /// other changing call: a crash at any moment of it leaves what one could leave before. A refused opening hands the
    /// disk back, with the files that it had.
    pub fn open(
        alloc: Global,
        disk: D,
        most: MostBytes,
    ) -> Result<Mirrored<D>, Refused<D, MirrorFault>>
        ensures files { IfOk result (λ m. IfSome (D.files disk) (λ fs. mirrored_files m ≡ fs)) }
        ensures within { IfOk result (λ m. (f : FileNo) → length (file_of (mirrored_files m) f) ≤ most_of most f) }
        ensures settled { IfOk result (λ m. Only (mirrored_files m) (mirrored_may_leave m)) }
        ensures steps { IfOk result (λ m. mirrored_steps m ≡ 0) }
        ensures faults { IfOk result (λ m. mirrored_faults m ≡ 0) }
        ensures too_long { IfErr result (λ refused. IfSome (D.files disk) (IsShown most refused.why)) }
        ensures cause { IfErr result (λ refused. HasCause (D.faults disk) (D.faults refused.disk) (refused.why ≡ MirrorFault.DiskFault)) }
        ensures own { IfErr result (λ refused. HasCause (D.own_faults disk) (D.own_faults refused.disk)
            ((refused.why ≡ MirrorFault.DiskFault) × ¬ IsStopped (D.stop refused.disk))) }
        ensures kept { IfErr result (λ refused. refused.why ≢ MirrorFault.DiskFault → D.files refused.disk ≡ D.files disk) }
        ensures taken { IfOk result (λ m. Takes D.Disk 3 disk (mirrored_disk m) ⊥) }
        ensures synced { IfOk result (λ m. D.steps (mirrored_disk m) ≡ D.steps disk + 3) }
        ensures refused { IfErr result (λ refused. Takes D.Disk 3 disk refused.disk (refused.why ≡ MirrorFault.DiskFault)) }
    {
        let mut disk = disk;
        match take_all(alloc, &mut disk, most) {
            Ok(mirror) => Ok(Mirrored { disk, mirror }),
            Err(why) => Err(Refused { disk, why }),
        }
    }

    /// Hands the disk back. Where no call has failed it has the files that reads gave, and a crash leaves of it what
    /// it could leave here.
    pub fn close(self) -> D
        ensures files { mirrored_whole self → AreTold (D.files result) (mirrored_files self) }
        ensures leaves { mirrored_whole self → IsSome (D.files result) → IsWithin (D.may_leave result) (mirrored_may_leave self) }
    {
        let Self { disk, mirror: _ } = self;
        disk
    }
}

/// Reads three files, and syncs each.
fn take_all<D: Disk>(alloc: Global, disk: &mut D, most: MostBytes) -> Result<Mirror, MirrorFault>
    ensures files { IfOk result (λ m. IfSome (D.files disk.old) (λ fs. mirror_now m ≡ fs)) }
    ensures within { IfOk result (λ m. (f : FileNo) → length (file_of (mirror_now m) f) ≤ most_of most f) }
    ensures new { IfOk result IsNewMirror }
    ensures room { IfOk result (λ m. (f : FileNo) → length (file_of (mirror_now m) f) ≤ D.room disk.new f) }
    ensures agrees { IfOk result (λ m. AreTold (D.files disk.new) (mirror_now m)) }
    ensures leaves { IfOk result (λ m. IsSome (D.files disk.new) → IsWithin (D.may_leave disk.new) (mirror_may_leave m)) }
    ensures too_long { IfErr result (λ why. IfSome (D.files disk.old) (IsShown most why)) }
    ensures steps { OnOk result (D.steps disk.new ≡ D.steps disk.old + 3) }
    ensures takes { Takes D.Disk 3 disk.old disk.new (result ≡ Err MirrorFault.DiskFault) }
{
    let database = take_in(alloc, disk, FileNo::Database, most)?;
    let log = take_in(alloc, disk, FileNo::Log, most)?;
    let incoming = take_in(alloc, disk, FileNo::Incoming, most)?;
    Ok(Mirror::of(database, log, incoming))
}

/// Reads a file that is not too long, and syncs it.
fn take_in<D: Disk>(
    alloc: Global,
    disk: &mut D,
    f: FileNo,
    most: MostBytes,
) -> Result<Vec<u8>, MirrorFault>
    ensures bytes { IfOk result (λ bytes. IfSome (D.files disk.old) (λ fs. bytes.items ≡ file_of fs f)) }
    ensures within { IfOk result (λ bytes. length bytes.items ≤ most_of most f) }
    ensures fits { IfOk result (λ bytes. length bytes.items ≤ D.room disk.new f) }
    ensures durable { IfOk result (λ bytes. IsSome (D.files disk.old) → OnlyIn f bytes.items (D.may_leave disk.new)) }
    ensures others { OnOk result (LeavesOthers f (D.may_leave disk.old) (D.may_leave disk.new)) }
    ensures too_long { IfErr result (λ why. IfSome (D.files disk.old) (IsShown most why)) }
    ensures steps { OnOk result (D.steps disk.new ≡ D.steps disk.old + 1) }
    ensures takes { Takes D.Disk 1 disk.old disk.new (result ≡ Err MirrorFault.DiskFault) }
{
    let bytes = read_in(alloc, disk, f, most)?;
    match settle(disk, f) {
        DiskEnd::Done => Ok(bytes),
        DiskEnd::Failed => Err(MirrorFault::DiskFault),
    }
}

/// Syncs a file.
fn settle<D: Disk>(disk: &mut D, f: FileNo) -> DiskEnd
    ensures syncs { Syncs D.Disk f disk.old disk.new (result ≡ DiskEnd.Failed) }
{
    disk.sync(f)
}

/// Reads a file that is not too long, for which the disk has made room.
fn read_in<D: Disk>(
    alloc: Global,
    disk: &mut D,
    f: FileNo,
    most: MostBytes,
) -> Result<Vec<u8>, MirrorFault>
    ensures bytes { IfOk result (λ bytes. IfSome (D.files disk.old) (λ fs. bytes.items ≡ file_of fs f)) }
    ensures within { IfOk result (λ bytes. length bytes.items ≤ most_of most f) }
    ensures fits { IfOk result (λ bytes. length bytes.items ≤ D.room disk.new f) }
    ensures too_long { IfErr result (λ why. IfSome (D.files disk.old) (IsShown most why)) }
    ensures reads { OnlyReads D.Disk disk.old disk.new (result ≡ Err MirrorFault.DiskFault) }
{
    let len = fitting(disk, f, most)?;
    let Ok(mut bytes) = Vec::from_elem(alloc, 0u8, len as usize) else {
        return Err(MirrorFault::NoMemory);
    };
    if disk.reserve(f, len) == RoomEnd::NoMemory {
        return Err(MirrorFault::NoMemory);
    }
    match disk.read(f, 0, &mut bytes) {
        DiskEnd::Done => Ok(bytes),
        DiskEnd::Failed => Err(MirrorFault::DiskFault),
    }
}

/// The length of a file, where it may be read.
fn fitting<D: Disk>(disk: &mut D, f: FileNo, most: MostBytes) -> Result<u64, MirrorFault>
    ensures length { IfOk result (λ len. IfSome (D.files disk.old) (λ fs. len ≡ length (file_of fs f))) }
    ensures within { IfOk result (λ len. len ≤ most_of most f) }
    ensures too_long { IfErr result (λ why. IfSome (D.files disk.old) (IsShown most why)) }
    ensures reads { OnlyReads D.Disk disk.old disk.new (result ≡ Err MirrorFault.DiskFault) }
{
    let LenEnd::Known(len) = disk.len(f) else {
        return Err(MirrorFault::DiskFault);
    };
    if len <= most.of(f) {
        return Ok(len);
    }
    let head = read_head(disk, f, len)?;
    Err(MirrorFault::TooLong { file: f, len, head })
}

/// The first bytes of a file of this length, and zero bytes where it is shorter.
fn read_head<D: Disk>(disk: &mut D, f: FileNo, len: u64) -> Result<[u8; HEAD_LEN], MirrorFault>
    requires { IfSome (D.files disk.old) (λ fs. len ≡ length (file_of fs f)) }
    ensures head { IfOk result (λ head. IfSome (D.files disk.old) (λ fs. IsHeadOf head (file_of fs f))) }
    ensures fault { IfErr result (λ fault. fault ≡ MirrorFault.DiskFault) }
    ensures reads { OnlyReads D.Disk disk.old disk.new (IsErr result) }
{
    let mut head = [0; HEAD_LEN];
    let there = len.min(HEAD_LEN as u64) as usize;
    match disk.read(f, 0, &mut head[..there]) {
        DiskEnd::Done => Ok(head),
        DiskEnd::Failed => Err(MirrorFault::DiskFault),
    }
}

impl<D: Disk> Disk for Mirrored<D> {
    ghost use Rattle.disk_base.specs.Stops.DiskStop.{Unarmed};
    ghost use Rattle.disk_base.specs.MirrorLaws.{counts_now, only_now, may_be_read, has_memory};
    ghost use Rattle.disk_base.specs.Files.{with_file, laid, OnDone, OnKnown, KeepsRoom};
    ghost use Rattle.disk_base.specs.Crash.{Torn, CutShort, InFile, Follows, Narrows, Elapses, LeavesSame};
    ghost use Rattle.disk_base.specs.Pending.{after_write, after_cut, after_sync};
    ghost use Rattle.disk_base.specs.Runs.{OnlyReserves, Writes, Cuts};
    ghost use Rattle.disk_base.specs.Stops.{CountsOwn, Keeps, IsWritten, IsCut};
    ghost use Rattle.disk_base.specs.Mirrored.{mirrored_files, mirrored_room, mirrored_steps, mirrored_faults, mirrored_pending, mirrored_may_leave, mirrored_left_since};
    ghost use Rattle.disk_base.specs.Mirrored.{mirrored_disk, mirrored_broken, mirrored_whole, Ends};
    ghost use Rattle.std.specs.Prelude.{refl};

    ghost files = { λ disk. Some (mirror_now disk.mirror) };

    ghost room = { λ disk f. min (mirror_room disk.mirror f) (D.room disk.disk f) };

    ghost steps = { λ disk. mirror_steps disk.mirror };

    ghost faults = { λ disk. mirror_faults disk.mirror };

    ghost own_faults = { λ disk. mirror_faults disk.mirror };

    ghost stop = { λ disk. Unarmed };

    ghost pending = { λ disk. Some (mirror_pending disk.mirror) };

    ghost tells = { λ disk. true };

    ghost may_leave = { λ disk. mirror_may_leave disk.mirror };

    ghost left_since = { λ disk. mirror_left_since disk.mirror };

    ghost counts_now = { λ disk t c since now. counts_now disk.mirror t c since now };

    ghost only_now = { λ disk c left. only_now disk.mirror c left };

    ghost may_be_read = { λ disk fs told. may_be_read disk.mirror fs told };

    ghost has_room = { λ disk f. has_memory disk.mirror f (D.room disk.disk f) (disk.has_room f) };

    ghost tells_both = { λ disk told. refl };

    ghost tells_now = { λ disk told. refl };

    ghost tells_pending = { λ disk told. refl };

    ghost leaves_pending = { λ disk c. (λ left. left, λ left. left) };

    fn len(&mut self, f: FileNo) -> LenEnd
        ensures length { OnKnown result (λ n. n ≡ length (file_of (mirrored_files self.old) f)) }
        ensures files { OnKnown result (λ _. Some (mirrored_files self.new) ≡ Some (mirrored_files self.old)) }
        ensures room { KeepsRoom (mirrored_room self.old) (mirrored_room self.new) }
        ensures steps { mirrored_steps self.new ≡ mirrored_steps self.old }
        ensures crash { LeavesSame (mirrored_may_leave self.old) (mirrored_may_leave self.new)
            (mirrored_left_since self.old) (mirrored_left_since self.new) }
        ensures pending { Some (mirrored_pending self.new) ≡ Some (mirrored_pending self.old) }
        ensures failed { Some (mirrored_files self.new) ≡ Some (mirrored_files self.old) }
        ensures cause { HasCause (mirrored_faults self.old) (mirrored_faults self.new) (result ≡ LenEnd.Failed) }
        ensures own { CountsOwn (mirrored_faults self.old) (mirrored_faults self.new) Unarmed (result ≡ LenEnd.Failed) }
        ensures ends { Ends self.old self.new (result ≡ LenEnd.Failed) }
        ensures refused { result ≡ LenEnd.Failed → mirrored_broken self.old ≡ true }
        ensures beneath { mirrored_disk self.new ≡ mirrored_disk self.old }
    {
        if self.mirror.broken() {
            self.mirror.end(DiskEnd::Failed);
            return LenEnd::Failed;
        }
        LenEnd::Known(self.mirror.len(f))
    }

    fn reserve(&mut self, f: FileNo, len: u64) -> RoomEnd
        ensures reserved { result ≡ RoomEnd.Done → len ≤ mirrored_room self.new f }
        ensures no_memory { result ≡ RoomEnd.NoMemory → mirrored_room self.old f < len }
        ensures files { Some (mirrored_files self.new) ≡ Some (mirrored_files self.old) }
        ensures room { KeepsRoom (mirrored_room self.old) (mirrored_room self.new) }
        ensures steps { mirrored_steps self.new ≡ mirrored_steps self.old }
        ensures crash { LeavesSame (mirrored_may_leave self.old) (mirrored_may_leave self.new)
            (mirrored_left_since self.old) (mirrored_left_since self.new) }
        ensures pending { Some (mirrored_pending self.new) ≡ Some (mirrored_pending self.old) }
        ensures faults { mirrored_faults self.new ≡ mirrored_faults self.old }
        ensures own { mirrored_faults self.new ≡ mirrored_faults self.old }
        ensures broken { mirrored_broken self.new ≡ mirrored_broken self.old }
        ensures beneath { OnlyReserves D.Disk (mirrored_disk self.old) (mirrored_disk self.new) }
    {
        if self.disk.reserve(f, len) == RoomEnd::NoMemory {
            return RoomEnd::NoMemory;
        }
        match self.mirror.reserve(f, len) {
            Ok(()) => RoomEnd::Done,
            Err(_) => RoomEnd::NoMemory,
        }
    }

    fn read(&mut self, f: FileNo, at: u64, buf: &mut [u8]) -> DiskEnd
        requires { at + length buf.old ≤ length (file_of (mirrored_files self.old) f) }
        ensures bytes { OnDone result (buf.new ≡ take (length buf.old) (drop at (file_of (mirrored_files self.old) f))) }
        ensures files { OnDone result (Some (mirrored_files self.new) ≡ Some (mirrored_files self.old)) }
        ensures room { KeepsRoom (mirrored_room self.old) (mirrored_room self.new) }
        ensures steps { mirrored_steps self.new ≡ mirrored_steps self.old }
        ensures crash { LeavesSame (mirrored_may_leave self.old) (mirrored_may_leave self.new)
            (mirrored_left_since self.old) (mirrored_left_since self.new) }
        ensures pending { Some (mirrored_pending self.new) ≡ Some (mirrored_pending self.old) }
        ensures failed { Some (mirrored_files self.new) ≡ Some (mirrored_files self.old) }
        ensures cause { HasCause (mirrored_faults self.old) (mirrored_faults self.new) (result ≡ DiskEnd.Failed) }
        ensures own { CountsOwn (mirrored_faults self.old) (mirrored_faults self.new) Unarmed (result ≡ DiskEnd.Failed) }
        ensures ends { Ends self.old self.new (result ≡ DiskEnd.Failed) }
        ensures refused { result ≡ DiskEnd.Failed → mirrored_broken self.old ≡ true }
        ensures beneath { mirrored_disk self.new ≡ mirrored_disk self.old }
    {
        if self.mirror.broken() {
            return self.mirror.end(DiskEnd::Failed);
        }
        self.mirror.read(f, at, buf);
        DiskEnd::Done
    }

    fn write_at(&mut self, f: FileNo, at: u64, bytes: &[u8]) -> DiskEnd
        requires begins { at ≤ length (file_of (mirrored_files self.old) f) }
        requires fits { at + length bytes.now ≤ mirrored_room self.old f }
        ensures written { OnDone result (Some (mirrored_files self.new)
            ≡ Some (with_file (mirrored_files self.old) f (laid (file_of (mirrored_files self.old) f) at bytes.now))) }
        ensures room { KeepsRoom (mirrored_room self.old) (mirrored_room self.new) }
        ensures steps { mirrored_steps self.new ≡ mirrored_steps self.old + 1 }
        ensures crash { Follows (InFile f (Torn at (length bytes.now))) (mirrored_may_leave self.old) (mirrored_may_leave self.new) }
        ensures others { LeavesOthers f (mirrored_may_leave self.old) (mirrored_may_leave self.new) }
        ensures time { Elapses (mirrored_steps self.old)
            (mirrored_left_since self.old) (mirrored_left_since self.new) (mirrored_may_leave self.new) }
        ensures pending { OnDone result (Some (mirrored_pending self.new)
            ≡ Some (after_write f at (length bytes.now) (mirrored_pending self.old))) }
        ensures failed { result ≡ DiskEnd.Failed
            → Keeps (Some (mirrored_files self.old)) (Some (mirrored_files self.new)) (Some (mirrored_pending self.old)) (Some (mirrored_pending self.new))
            ⊎ IsWritten f at bytes.now (Some (mirrored_files self.old)) (Some (mirrored_files self.new)) (Some (mirrored_pending self.old)) (Some (mirrored_pending self.new)) }
        ensures cause { HasCause (mirrored_faults self.old) (mirrored_faults self.new) (result ≡ DiskEnd.Failed) }
        ensures own { CountsOwn (mirrored_faults self.old) (mirrored_faults self.new) Unarmed (result ≡ DiskEnd.Failed) }
        ensures ends { Ends self.old self.new (result ≡ DiskEnd.Failed) }
        ensures made { IsWritten f at bytes.now
            (Some (mirrored_files self.old)) (Some (mirrored_files self.new)) (Some (mirrored_pending self.old)) (Some (mirrored_pending self.new)) }
        ensures beneath { mirrored_whole self.old → Writes D.Disk f at bytes.now
            (mirrored_disk self.old) (mirrored_disk self.new) (result ≡ DiskEnd.Failed) }
    {
        self.mirror.write_at(f, at, bytes);
        let end = if self.mirror.broken() {
            DiskEnd::Failed
        } else {
            self.disk.write_at(f, at, bytes)
        };
        self.mirror.end(end)
    }

    fn cut(&mut self, f: FileNo, len: u64) -> DiskEnd
        requires { len ≤ length (file_of (mirrored_files self.old) f) }
        ensures cut { OnDone result (Some (mirrored_files self.new)
            ≡ Some (with_file (mirrored_files self.old) f (take len (file_of (mirrored_files self.old) f)))) }
        ensures room { KeepsRoom (mirrored_room self.old) (mirrored_room self.new) }
        ensures steps { mirrored_steps self.new ≡ mirrored_steps self.old + 1 }
        ensures crash { Follows (InFile f (CutShort len)) (mirrored_may_leave self.old) (mirrored_may_leave self.new) }
        ensures others { LeavesOthers f (mirrored_may_leave self.old) (mirrored_may_leave self.new) }
        ensures time { Elapses (mirrored_steps self.old)
            (mirrored_left_since self.old) (mirrored_left_since self.new) (mirrored_may_leave self.new) }
        ensures pending { OnDone result (Some (mirrored_pending self.new) ≡ Some (after_cut f len (mirrored_pending self.old))) }
        ensures failed { result ≡ DiskEnd.Failed
            → Keeps (Some (mirrored_files self.old)) (Some (mirrored_files self.new)) (Some (mirrored_pending self.old)) (Some (mirrored_pending self.new))
            ⊎ IsCut f len (Some (mirrored_files self.old)) (Some (mirrored_files self.new)) (Some (mirrored_pending self.old)) (Some (mirrored_pending self.new)) }
        ensures cause { HasCause (mirrored_faults self.old) (mirrored_faults self.new) (result ≡ DiskEnd.Failed) }
        ensures own { CountsOwn (mirrored_faults self.old) (mirrored_faults self.new) Unarmed (result ≡ DiskEnd.Failed) }
        ensures ends { Ends self.old self.new (result ≡ DiskEnd.Failed) }
        ensures made { IsCut f len
            (Some (mirrored_files self.old)) (Some (mirrored_files self.new)) (Some (mirrored_pending self.old)) (Some (mirrored_pending self.new)) }
        ensures beneath { mirrored_whole self.old → Cuts D.Disk f len
            (mirrored_disk self.old) (mirrored_disk self.new) (result ≡ DiskEnd.Failed) }
    {
        self.mirror.cut(f, len);
        let end = if self.mirror.broken() {
            DiskEnd::Failed
        } else {
            self.disk.cut(f, len)
        };
        self.mirror.end(end)
    }

    fn sync(&mut self, f: FileNo) -> DiskEnd
        ensures files { OnDone result (Some (mirrored_files self.new) ≡ Some (mirrored_files self.old)) }
        ensures room { KeepsRoom (mirrored_room self.old) (mirrored_room self.new) }
        ensures steps { mirrored_steps self.new ≡ mirrored_steps self.old + 1 }
        ensures crash { Narrows (mirrored_may_leave self.old) (mirrored_may_leave self.new) }
        ensures others { LeavesOthers f (mirrored_may_leave self.old) (mirrored_may_leave self.new) }
        ensures time { Elapses (mirrored_steps self.old)
            (mirrored_left_since self.old) (mirrored_left_since self.new) (mirrored_may_leave self.new) }
        ensures durable { OnDone result (OnlyIn f (file_of (mirrored_files self.old) f) (mirrored_may_leave self.new)) }
        ensures pending { OnDone result (Some (mirrored_pending self.new)
            ≡ Some (after_sync f (file_of (mirrored_files self.old) f) (mirrored_pending self.old))) }
        ensures failed { result ≡ DiskEnd.Failed → Keeps
            (Some (mirrored_files self.old)) (Some (mirrored_files self.new)) (Some (mirrored_pending self.old)) (Some (mirrored_pending self.new)) }
        ensures cause { HasCause (mirrored_faults self.old) (mirrored_faults self.new) (result ≡ DiskEnd.Failed) }
        ensures own { CountsOwn (mirrored_faults self.old) (mirrored_faults self.new) Unarmed (result ≡ DiskEnd.Failed) }
        ensures ends { Ends self.old self.new (result ≡ DiskEnd.Failed) }
        ensures beneath { mirrored_whole self.old → Syncs D.Disk f
            (mirrored_disk self.old) (mirrored_disk self.new) (result ≡ DiskEnd.Failed) }
    {
        let end = if self.mirror.broken() {
            DiskEnd::Failed
        } else {
            self.disk.sync(f)
        };
        self.mirror.sync(f, end == DiskEnd::Done);
        self.mirror.end(end)
    }
}
