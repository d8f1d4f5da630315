//! A disk in memory, whose calls fail by their numbers, and which can be told to stop.
ghost use Rattle.std.specs.Prelude.{◌≡◌, ◌≢◌, ◌+◌, ◌<◌, ◌≤◌, ◌⊎◌, ℕ, List, ◌∷◌, Some, Option, Bool, true, IfOk, IfSome, IsSome, IsTrue, OnOk, OnErr, length, take, drop, ◌↔◌};
ghost use Rattle.disk_base.specs.Files.{no_files, file_of, with_file, laid, OnDone, OnKnown, KeepsRoom};
ghost use Rattle.disk_base.specs.Stops.{IsStopped};
ghost use Rattle.disk_base.specs.Stops.DiskStop.{Unarmed};
ghost use Rattle.std.specs.Borrow.{sem};
ghost use Rattle.disk_base.specs.Count.{HasCause};
ghost use Rattle.disk_base.specs.declared.disks.FileNo.{FileNo};
ghost use Rattle.disk_base.specs.Crash.{Torn, CutShort, InFile, Follows, LeavesOthers, Narrows, Only, OnlyIn, Elapses, LeavesSame, BeginsAnew};

use crate::memory_calls::{MemCalls, Passage};
use crate::memory_files::MemFile;
use crate::moments::Moments;
use crate::{Disk, DiskEnd, FileNo, Fill, LenEnd, RoomEnd, StopDisk};
use std::alloc::Global;
use ubik_types::NoMemory;

/// The three files of a disk in memory.
#[derive(Drop)]
pub(crate) struct MemFiles {
    database: MemFile,
    log: MemFile,
    incoming: MemFile,
}

impl MemFiles {
    ghost use Rattle.disk_base.specs.LendsFile.{LendsFile};
    ghost use Rattle.disk_base.specs.MemDisk.{file_at, now_in, pending_in, room_in};
    ghost use Rattle.disk_base.specs.Stops.{IsLeftBy};
    ghost use Rattle.disk_base.specs.Pending.{after_write, after_cut, after_sync, all_at_rest};

    /// Three empty files.
    fn new(alloc: Global) -> MemFiles
        ensures now { now_in result ≡ no_files }
        ensures pending { pending_in result ≡ all_at_rest no_files }
    {
        MemFiles {
            database: MemFile::new(alloc),
            log: MemFile::new(alloc),
            incoming: MemFile::new(alloc),
        }
    }

    /// The caller changes the file in its place.
    fn file_mut(&mut self, f: FileNo) -> &mut MemFile
        ensures* lends { sem 𝓛 (LendsFile self.entry f result) }
        ensures now { result.now ≡ file_at self.old f }
    {
        match f {
            FileNo::Database => &mut self.database,
            FileNo::Log => &mut self.log,
            FileNo::Incoming => &mut self.incoming,
        }
    }

    fn file(&self, f: FileNo) -> &MemFile
        ensures { result.now ≡ file_at self.now f }
    {
        match f {
            FileNo::Database => &self.database,
            FileNo::Log => &self.log,
            FileNo::Incoming => &self.incoming,
        }
    }

    fn reserve(&mut self, f: FileNo, len: u64) -> Result<(), NoMemory>
        ensures reserved { OnOk result (len ≤ room_in self.new f) }
        ensures no_memory { OnErr result (room_in self.old f < len) }
        ensures now { now_in self.new ≡ now_in self.old }
        ensures pending { pending_in self.new ≡ pending_in self.old }
        ensures room { KeepsRoom (room_in self.old) (room_in self.new) }
    {
        self.file_mut(f).reserve(len)
    }

    fn write_at(&mut self, f: FileNo, at: u64, bytes: &[u8]) -> Result<(), NoMemory>
        requires begins { at ≤ length (file_of (now_in self.old) f) }
        requires fits { at + length bytes.now ≤ room_in self.old f }
        ensures ok { OnOk result (now_in self.new
            ≡ with_file (now_in self.old) f (laid (file_of (now_in self.old) f) at bytes.now)) }
        ensures err { OnErr result (now_in self.new ≡ now_in self.old) }
        ensures marked { OnOk result (pending_in self.new ≡ after_write f at (length bytes.now) (pending_in self.old)) }
        ensures unmarked { OnErr result (pending_in self.new ≡ pending_in self.old) }
        ensures room { KeepsRoom (room_in self.old) (room_in self.new) }
    {
        self.file_mut(f).write_at(at, bytes)
    }

    fn cut(&mut self, f: FileNo, len: u64) -> Result<(), NoMemory>
        requires { len ≤ length (file_of (now_in self.old) f) }
        ensures ok { OnOk result (now_in self.new
            ≡ with_file (now_in self.old) f (take len (file_of (now_in self.old) f))) }
        ensures err { OnErr result (now_in self.new ≡ now_in self.old) }
        ensures marked { OnOk result (pending_in self.new ≡ after_cut f len (pending_in self.old)) }
        ensures unmarked { OnErr result (pending_in self.new ≡ pending_in self.old) }
        ensures room { KeepsRoom (room_in self.old) (room_in self.new) }
    {
        self.file_mut(f).cut(len)
    }

    fn sync(&mut self, f: FileNo)
        ensures now { now_in self.new ≡ now_in self.old }
        ensures pending { pending_in self.new ≡ after_sync f (file_of (now_in self.old) f) (pending_in self.old) }
        ensures room { KeepsRoom (room_in self.old) (room_in self.new) }
    {
        self.file_mut(f).sync()
    }

    fn revive(&mut self, fill: Fill)
        ensures left { IsLeftBy fill (pending_in self.old) (now_in self.old) (now_in self.new) }
        ensures pending { pending_in self.new ≡ all_at_rest (now_in self.new) }
        ensures room { (f : FileNo) → room_in self.new f ≡ length (file_of (now_in self.new) f) }
    {
        self.database.revive(fill);
        self.log.revive(fill);
        self.incoming.revive(fill);
    }
}

/// A disk whose files lie in memory, and are lost with it.
pub struct MemDisk {
    files: MemFiles,
    calls: MemCalls,
    moments: Moments,
}

// Derived, it would be spelled out for each field of each field wherever a caller lets a disk go, and proved there.
impl Drop for MemDisk {
    fn drop(self) {
        let Self {
            files: _,
            calls: _,
            moments: _,
        } = self;
    }
}

impl MemDisk {
    ghost use Rattle.disk_base.specs.Pending.{all_at_rest};
    ghost use Rattle.disk_base.specs.Plan.{IsFresh, after_call};
    ghost use Rattle.disk_base.specs.Stops.{CountsOwn, after_change};
    ghost use Rattle.disk_base.specs.MemDisk.{now_of, pending_of, disk_may_leave, disk_passage, disk_stop, disk_plan, disk_steps, disk_faults, disk_own_faults, disk_tells};

    /// A disk of three empty files, unarmed. Its call number k fails where k is in `fails`; calls of `len`, `read`,
    /// `write_at`, `cut` and `sync` are counted, from 1. A call that fails by its number changes no file.
    pub fn new(alloc: Global, fails: &[u64]) -> Result<MemDisk, NoMemory>
        ensures files { IfOk result (λ disk. now_of disk ≡ no_files) }
        ensures pending { IfOk result (λ disk. pending_of disk ≡ all_at_rest no_files) }
        ensures settled { IfOk result (λ disk. Only no_files (disk_may_leave disk)) }
        ensures tells { IfOk result (λ disk. disk_tells disk ≡ true) }
        ensures fails { IfOk result (λ disk. IsFresh fails.now (disk_plan disk)) }
        ensures stop { IfOk result (λ disk. disk_stop disk ≡ Unarmed) }
        ensures steps { IfOk result (λ disk. disk_steps disk ≡ 0) }
        ensures faults { IfOk result (λ disk. disk_faults disk ≡ 0) }
        ensures own { IfOk result (λ disk. disk_own_faults disk ≡ 0) }
    {
        Ok(MemDisk {
            files: MemFiles::new(alloc),
            calls: MemCalls::new(alloc, fails)?,
            moments: Moments::new(),
        })
    }

    /// Begins a call that changes a file, and says whether it passes. What was pending before it is then that of an earlier moment.
    fn begin_change(&mut self) -> Passage
        ensures passage { result ≡ disk_passage self.old }
        ensures stopped { IsStopped (disk_stop self.new) → result ≢ Passage.Passes }
        ensures cause { HasCause (disk_faults self.old) (disk_faults self.new) (result ≢ Passage.Passes) }
        ensures own { CountsOwn (disk_own_faults self.old) (disk_own_faults self.new) (disk_stop self.new) (result ≢ Passage.Passes) }
        ensures files { self.new.files ≡ self.old.files }
        ensures moments { self.new.moments ≡ pending_of self.old ∷ self.old.moments }
        ensures steps { disk_steps self.new ≡ disk_steps self.old + 1 }
        ensures stop { disk_stop self.new ≡ after_change (disk_stop self.old) }
        ensures plan { disk_plan self.new ≡ after_call (disk_plan self.old) }
    {
        self.moments = self.moments.next(&self.files);
        self.calls.begin_change()
    }

    /// Ends a changing call that passed, and failed only for want of memory.
    fn end(&mut self, done: Result<(), NoMemory>) -> DiskEnd
        ensures ok { OnOk done (result ≡ DiskEnd.Done) }
        ensures err { OnErr done (result ≡ DiskEnd.Failed) }
        ensures cause { HasCause (disk_faults self.old) (disk_faults self.new) (result ≡ DiskEnd.Failed) }
        ensures own { CountsOwn (disk_own_faults self.old) (disk_own_faults self.new) (disk_stop self.new) (result ≡ DiskEnd.Failed) }
        ensures files { self.new.files ≡ self.old.files }
        ensures moments { self.new.moments ≡ self.old.moments }
        ensures steps { disk_steps self.new ≡ disk_steps self.old }
        ensures stop { disk_stop self.new ≡ disk_stop self.old }
        ensures plan { disk_plan self.new ≡ disk_plan self.old }
    {
        match done {
            Ok(()) => DiskEnd::Done,
            Err(NoMemory) => {
                self.calls.fail();
                DiskEnd::Failed
            }
        }
    }
}

impl Disk for MemDisk {
    ghost use Rattle.disk_base.specs.Plan.{after_call};
    ghost use Rattle.disk_base.specs.Stops.{CountsOwn, after_change, StopsNext, Keeps, IsWritten};
    ghost use Rattle.disk_base.specs.Pending.{after_write, after_cut, after_sync};
    ghost use Rattle.disk_base.specs.MemDisk.{now_of, pending_of, disk_room, disk_stop, disk_plan, disk_steps, disk_faults, disk_own_faults};
    ghost use Rattle.disk_base.specs.MemDisk.{disk_may_leave, disk_left_since, disk_tells};
    ghost use Rattle.disk_base.specs.MemDisk.{disk_fails, disk_passage, done_unless, known_unless, end_of, FailsUnlessPassed};
    ghost use Rattle.std.specs.Prelude.{refl};
    ghost use Rattle.disk_base.specs.MemLaws.{counts_now, only_now, may_be_read, has_room, tells_both, tells_now, leaves_pending};

    ghost files = { λ disk. Some (now_of disk) };

    ghost room = { disk_room };

    ghost steps = { disk_steps };

    ghost faults = { disk_faults };

    ghost own_faults = { disk_own_faults };

    ghost stop = { disk_stop };

    ghost pending = { λ disk. Some (pending_of disk) };

    ghost tells = { disk_tells };

    ghost may_leave = { disk_may_leave };

    ghost left_since = { disk_left_since };

    ghost counts_now = { counts_now };

    ghost only_now = { only_now };

    ghost may_be_read = { may_be_read };

    ghost has_room = { has_room };

    ghost tells_both = { tells_both };

    ghost tells_now = { tells_now };

    ghost tells_pending = { λ disk told. refl };

    ghost leaves_pending = { leaves_pending };

    fn len(&mut self, f: FileNo) -> LenEnd
        ensures length { OnKnown result (λ n. n ≡ length (file_of (now_of self.old) f)) }
        ensures files { OnKnown result (λ _. Some (now_of self.new) ≡ Some (now_of self.old)) }
        ensures room { KeepsRoom (disk_room self.old) (disk_room self.new) }
        ensures steps { disk_steps self.new ≡ disk_steps self.old }
        ensures crash { LeavesSame (disk_may_leave self.old) (disk_may_leave self.new) (disk_left_since self.old) (disk_left_since self.new) }
        ensures pending { Some (pending_of self.new) ≡ Some (pending_of self.old) }
        ensures failed { Some (now_of self.new) ≡ Some (now_of self.old) }
        ensures tells { disk_tells self.new ≡ disk_tells self.old }
        ensures cause { HasCause (disk_faults self.old) (disk_faults self.new) (result ≡ LenEnd.Failed) }
        ensures own { CountsOwn (disk_own_faults self.old) (disk_own_faults self.new) (disk_stop self.new) (result ≡ LenEnd.Failed) }
        ensures exact { result ≡ known_unless (disk_fails self.old) (length (file_of (now_of self.old) f)) }
        ensures stop { disk_stop self.new ≡ disk_stop self.old }
        ensures stopped { IsStopped (disk_stop self.old) → result ≡ LenEnd.Failed }
        ensures counted { disk_plan self.new ≡ after_call (disk_plan self.old) }
    {
        if self.calls.begin() {
            return LenEnd::Failed;
        }
        LenEnd::Known(self.files.file(f).len())
    }

    fn reserve(&mut self, f: FileNo, len: u64) -> RoomEnd
        ensures reserved { result ≡ RoomEnd.Done → len ≤ disk_room self.new f }
        ensures no_memory { result ≡ RoomEnd.NoMemory → disk_room self.old f < len }
        ensures files { Some (now_of self.new) ≡ Some (now_of self.old) }
        ensures room { KeepsRoom (disk_room self.old) (disk_room self.new) }
        ensures steps { disk_steps self.new ≡ disk_steps self.old }
        ensures crash { LeavesSame (disk_may_leave self.old) (disk_may_leave self.new) (disk_left_since self.old) (disk_left_since self.new) }
        ensures pending { Some (pending_of self.new) ≡ Some (pending_of self.old) }
        ensures tells { disk_tells self.new ≡ disk_tells self.old }
        ensures faults { disk_faults self.new ≡ disk_faults self.old }
        ensures own { disk_own_faults self.new ≡ disk_own_faults self.old }
        ensures stop { disk_stop self.new ≡ disk_stop self.old }
        ensures counted { disk_plan self.new ≡ disk_plan self.old }
    {
        match self.files.reserve(f, len) {
            Ok(()) => RoomEnd::Done,
            Err(NoMemory) => RoomEnd::NoMemory,
        }
    }

    fn read(&mut self, f: FileNo, at: u64, buf: &mut [u8]) -> DiskEnd
        requires { at + length buf.old ≤ length (file_of (now_of self.old) f) }
        ensures bytes { OnDone result
            (buf.new ≡ take (length buf.old) (drop at (file_of (now_of self.old) f))) }
        ensures files { OnDone result (Some (now_of self.new) ≡ Some (now_of self.old)) }
        ensures room { KeepsRoom (disk_room self.old) (disk_room self.new) }
        ensures steps { disk_steps self.new ≡ disk_steps self.old }
        ensures crash { LeavesSame (disk_may_leave self.old) (disk_may_leave self.new) (disk_left_since self.old) (disk_left_since self.new) }
        ensures pending { Some (pending_of self.new) ≡ Some (pending_of self.old) }
        ensures failed { Some (now_of self.new) ≡ Some (now_of self.old) }
        ensures tells { disk_tells self.new ≡ disk_tells self.old }
        ensures cause { HasCause (disk_faults self.old) (disk_faults self.new) (result ≡ DiskEnd.Failed) }
        ensures own { CountsOwn (disk_own_faults self.old) (disk_own_faults self.new) (disk_stop self.new) (result ≡ DiskEnd.Failed) }
        ensures exact { result ≡ done_unless (disk_fails self.old) }
        ensures stop { disk_stop self.new ≡ disk_stop self.old }
        ensures stopped { IsStopped (disk_stop self.old) → result ≡ DiskEnd.Failed }
        ensures counted { disk_plan self.new ≡ after_call (disk_plan self.old) }
    {
        if self.calls.begin() {
            return DiskEnd::Failed;
        }
        self.files.file(f).read(at, buf);
        DiskEnd::Done
    }

    fn write_at(&mut self, f: FileNo, at: u64, bytes: &[u8]) -> DiskEnd
        requires begins { at ≤ length (file_of (now_of self.old) f) }
        requires fits { at + length bytes.now ≤ disk_room self.old f }
        ensures written { OnDone result (Some (now_of self.new)
            ≡ Some (with_file (now_of self.old) f (laid (file_of (now_of self.old) f) at bytes.now))) }
        ensures room { KeepsRoom (disk_room self.old) (disk_room self.new) }
        ensures steps { disk_steps self.new ≡ disk_steps self.old + 1 }
        ensures crash { Follows (InFile f (Torn at (length bytes.now))) (disk_may_leave self.old) (disk_may_leave self.new) }
        ensures others { LeavesOthers f (disk_may_leave self.old) (disk_may_leave self.new) }
        ensures time { Elapses (disk_steps self.old) (disk_left_since self.old) (disk_left_since self.new) (disk_may_leave self.new) }
        ensures pending { OnDone result (Some (pending_of self.new) ≡ Some (after_write f at (length bytes.now) (pending_of self.old))) }
        ensures failed { result ≡ DiskEnd.Failed → Keeps (Some (now_of self.old)) (Some (now_of self.new)) (Some (pending_of self.old)) (Some (pending_of self.new))
            ⊎ (StopsNext (disk_stop self.old) × IsWritten f at bytes.now (Some (now_of self.old)) (Some (now_of self.new)) (Some (pending_of self.old)) (Some (pending_of self.new))) }
        ensures tells { disk_tells self.new ≡ disk_tells self.old }
        ensures cause { HasCause (disk_faults self.old) (disk_faults self.new) (result ≡ DiskEnd.Failed) }
        ensures own { CountsOwn (disk_own_faults self.old) (disk_own_faults self.new) (disk_stop self.new) (result ≡ DiskEnd.Failed) }
        ensures fails { FailsUnlessPassed (disk_passage self.old) result }
        ensures stop { disk_stop self.new ≡ after_change (disk_stop self.old) }
        ensures stopped { IsStopped (disk_stop self.new) → result ≡ DiskEnd.Failed }
        ensures counted { disk_plan self.new ≡ after_call (disk_plan self.old) }
    {
        let passage = self.begin_change();
        if passage == Passage::Fails {
            return DiskEnd::Failed;
        }
        let written = self.files.write_at(f, at, bytes);
        if passage == Passage::Stops {
            return DiskEnd::Failed;
        }
        self.end(written)
    }

    fn cut(&mut self, f: FileNo, len: u64) -> DiskEnd
        requires { len ≤ length (file_of (now_of self.old) f) }
        ensures cut { OnDone result (Some (now_of self.new)
            ≡ Some (with_file (now_of self.old) f (take len (file_of (now_of self.old) f)))) }
        ensures room { KeepsRoom (disk_room self.old) (disk_room self.new) }
        ensures steps { disk_steps self.new ≡ disk_steps self.old + 1 }
        ensures crash { Follows (InFile f (CutShort len)) (disk_may_leave self.old) (disk_may_leave self.new) }
        ensures others { LeavesOthers f (disk_may_leave self.old) (disk_may_leave self.new) }
        ensures time { Elapses (disk_steps self.old) (disk_left_since self.old) (disk_left_since self.new) (disk_may_leave self.new) }
        ensures pending { OnDone result (Some (pending_of self.new) ≡ Some (after_cut f len (pending_of self.old))) }
        ensures failed { result ≡ DiskEnd.Failed → Keeps (Some (now_of self.old)) (Some (now_of self.new)) (Some (pending_of self.old)) (Some (pending_of self.new)) }
        ensures tells { disk_tells self.new ≡ disk_tells self.old }
        ensures cause { HasCause (disk_faults self.old) (disk_faults self.new) (result ≡ DiskEnd.Failed) }
        ensures own { CountsOwn (disk_own_faults self.old) (disk_own_faults self.new) (disk_stop self.new) (result ≡ DiskEnd.Failed) }
        ensures fails { FailsUnlessPassed (disk_passage self.old) result }
        ensures stop { disk_stop self.new ≡ after_change (disk_stop self.old) }
        ensures stopped { IsStopped (disk_stop self.new) → result ≡ DiskEnd.Failed }
        ensures counted { disk_plan self.new ≡ after_call (disk_plan self.old) }
    {
        if self.begin_change() != Passage::Passes {
            return DiskEnd::Failed;
        }
        let cut = self.files.cut(f, len);
        self.end(cut)
    }

    fn sync(&mut self, f: FileNo) -> DiskEnd
        ensures files { OnDone result (Some (now_of self.new) ≡ Some (now_of self.old)) }
        ensures room { KeepsRoom (disk_room self.old) (disk_room self.new) }
        ensures steps { disk_steps self.new ≡ disk_steps self.old + 1 }
        ensures durable { OnDone result (OnlyIn f (file_of (now_of self.old) f) (disk_may_leave self.new)) }
        ensures crash { Narrows (disk_may_leave self.old) (disk_may_leave self.new) }
        ensures others { LeavesOthers f (disk_may_leave self.old) (disk_may_leave self.new) }
        ensures time { Elapses (disk_steps self.old) (disk_left_since self.old) (disk_left_since self.new) (disk_may_leave self.new) }
        ensures pending { OnDone result (Some (pending_of self.new) ≡ Some (after_sync f (file_of (now_of self.old) f) (pending_of self.old))) }
        ensures failed { result ≡ DiskEnd.Failed → Keeps (Some (now_of self.old)) (Some (now_of self.new)) (Some (pending_of self.old)) (Some (pending_of self.new)) }
        ensures tells { disk_tells self.new ≡ disk_tells self.old }
        ensures cause { HasCause (disk_faults self.old) (disk_faults self.new) (result ≡ DiskEnd.Failed) }
        ensures own { CountsOwn (disk_own_faults self.old) (disk_own_faults self.new) (disk_stop self.new) (result ≡ DiskEnd.Failed) }
        ensures exact { result ≡ end_of (disk_passage self.old) }
        ensures stop { disk_stop self.new ≡ after_change (disk_stop self.old) }
        ensures stopped { IsStopped (disk_stop self.new) → result ≡ DiskEnd.Failed }
        ensures counted { disk_plan self.new ≡ after_call (disk_plan self.old) }
    {
        let passage = self.begin_change();
        if passage != Passage::Passes {
            return DiskEnd::Failed;
        }
        self.files.sync(f);
        DiskEnd::Done
    }
}

impl StopDisk for MemDisk {
    ghost use Rattle.disk_base.specs.Stops.{armed, fill_left, IsLeftBy};
    ghost use Rattle.disk_base.specs.Pending.{all_at_rest};
    ghost use Rattle.disk_base.specs.MemDisk.{now_of, pending_of, disk_room, disk_stop, disk_plan, disk_steps, disk_faults, disk_own_faults};
    ghost use Rattle.disk_base.specs.MemDisk.{disk_may_leave, disk_left_since, disk_tells};

    fn arm(&mut self, calls: u32, fill: Fill)
        ensures armed { disk_stop self.new ≡ armed (disk_stop self.old) calls fill }
        ensures files { Some (now_of self.new) ≡ Some (now_of self.old) }
        ensures room { KeepsRoom (disk_room self.old) (disk_room self.new) }
        ensures steps { disk_steps self.new ≡ disk_steps self.old }
        ensures pending { Some (pending_of self.new) ≡ Some (pending_of self.old) }
        ensures crash { LeavesSame (disk_may_leave self.old) (disk_may_leave self.new) (disk_left_since self.old) (disk_left_since self.new) }
        ensures tells { disk_tells self.new ≡ disk_tells self.old }
        ensures faults { disk_faults self.new ≡ disk_faults self.old }
        ensures own { disk_own_faults self.new ≡ disk_own_faults self.old }
        ensures counted { disk_plan self.new ≡ disk_plan self.old }
    {
        self.calls.arm(calls, fill);
    }

    fn stopped(&self) -> bool {
        self.calls.stopped()
    }

    fn revive(&mut self)
        ensures unarmed { disk_stop self.new ≡ Unarmed }
        ensures steps { disk_steps self.new ≡ disk_steps self.old }
        ensures faults { disk_faults self.new ≡ disk_faults self.old }
        ensures own { disk_own_faults self.new ≡ disk_own_faults self.old }
        ensures left { disk_may_leave self.old (now_of self.new) × Only (now_of self.new) (disk_may_leave self.new) }
        ensures by_fill { IsLeftBy (fill_left (disk_stop self.old)) (pending_of self.old) (now_of self.old) (now_of self.new) }
        ensures at_rest { Some (pending_of self.new) ≡ Some (all_at_rest (now_of self.new)) }
        ensures tells_files { disk_tells self.old ≡ true → IsSome (Some (now_of self.new)) }
        ensures begins_anew { BeginsAnew (disk_left_since self.new) (disk_may_leave self.new) }
        ensures room { (f : FileNo) → disk_room self.new f ≡ length (file_of (now_of self.new) f) }
        ensures tells { disk_tells self.new ≡ disk_tells self.old }
        ensures counted { disk_plan self.new ≡ disk_plan self.old }
    {
        let fill = self.calls.disarm();
        self.files.revive(fill);
        self.moments = Moments::new();
    }
}
