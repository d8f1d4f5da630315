//! The disk of a server: three files, written and synced.
ghost use Rattle.std.specs.Prelude.{◌≡◌, ◌+◌, ◌<◌, ◌≤◌, ◌⊎◌, ℕ, List, Option, Bool, IsTrue, true, Some, IsSome, IfSome, length, take, drop, ◌↔◌};
ghost use Rattle.std.specs.Option.{option_map};
ghost use Rattle.disk_base.specs.Files.{Files, file_of, with_file, laid, OnDone, OnKnown, KeepsRoom};
ghost use Rattle.disk_base.specs.Stops.DiskStop.{Unarmed};
ghost use Rattle.disk_base.specs.Stops.{DiskStop, IsStopped, CountsOwn, after_change, armed, fill_left, IsLeftBy, Keeps, IsWritten, IsCut};
ghost use Rattle.disk_base.specs.Count.{HasCause};
ghost use Rattle.disk_base.specs.Crash.{Torn, CutShort, InFile, Follows, LeavesOthers, Narrows, Only, OnlyIn, Elapses, LeavesSame, BeginsAnew};
ghost use Rattle.disk_base.specs.Pending.{Pending, MayLeave, after_write, after_cut, after_sync, all_at_rest};
ghost use Rattle.disk_base.specs.declared.disks.FileNo.{FileNo};

/// One of the three files of a server.
#[derive(Clone, Copy, Debug, PartialEq, Eq)]
pub enum FileNo {
    Database,
    Log,
    Incoming,
}

/// How a call of a disk ended.
#[derive(Clone, Copy, Debug, PartialEq, Eq)]
pub enum DiskEnd {
    Done,
    Failed,
}

/// The length of a file, in bytes.
#[derive(Clone, Copy, Debug, PartialEq, Eq)]
pub enum LenEnd {
    Known(u64),
    Failed,
}

/// Whether room was reserved.
#[derive(Clone, Copy, Debug, PartialEq, Eq)]
pub enum RoomEnd {
    Done,
    NoMemory,
}

/// What the bytes that were written since the last sync are after a stop.
#[derive(Clone, Copy, Debug, PartialEq, Eq)]
pub enum Fill {
    /// The files are as they were last synced.
    Old,
    /// The files are as a read gave them.
    New,
    /// As a read gave them, with this byte in each place that was written since the last sync.
    Byte(u8),
}

/// What a refused opening hands back, and why it was refused.
#[derive(Drop)]
pub struct Refused<D, F> {
    pub disk: D,
    pub why: F,
}

/// Three files. After `Failed` nothing more is promised of what a read gives, until the files are opened anew. A
/// disk that tells what is pending promises that such a call has changed nothing, or counts as made and is pending.
/// A disk that was told to stop fails in the changing call in which it stops, and in each call after it. Whether a call
/// is done or fails, what a crash may leave of the files that it does not name is as before.
pub trait Disk {
    /// What reads give, where the disk tells it.
    ghost files: { Self → Option Files };

    /// How many bytes of a file have room.
    ghost room: { Self → FileNo → ℕ };

    /// How many calls of `write_at`, `cut` and `sync` were made.
    ghost steps: { Self → ℕ };

    /// How often a call has failed. It never falls.
    ghost faults: { Self → ℕ };

    /// How often a call has failed that no stop brought: the disk is not stopped after it. Nobody who holds the disk can
    /// raise it, by arming a stop either.
    ghost own_faults: { Self → ℕ };

    /// Whether it is to stop in one of its next calls of `write_at`, `cut` and `sync`, or has stopped.
    ghost stop: { Self → DiskStop };

    /// What was last synced of each file, and the changing calls since, where the disk tells it.
    ghost pending: { Self → Option Pending };

    /// Whether the disk tells its files, once they are opened anew after a failure. It never changes.
    ghost tells: { Self → Bool };

    /// What a crash now may leave.
    ghost may_leave: { Self → Files → Type 0 };

    /// What a crash at some moment may have left since the step count stood at a number.
    ghost left_since: { Self → ℕ → Files → Type 0 };

    /// A moment since then is now.
    ghost counts_now: { (disk : Self) (t : ℕ) (c : Files) → t ≤ steps disk → may_leave disk c → left_since disk t c };

    /// Since the step count that stands now there was no other moment.
    ghost only_now: { (disk : Self) (c : Files) → left_since disk (steps disk) c → may_leave disk c };

    /// A crash may leave what a read gives.
    ghost may_be_read: { (disk : Self) (fs : Files) → files disk ≡ Some fs → may_leave disk fs };

    /// A file has room for what a read gives.
    ghost has_room: { (disk : Self) (f : FileNo) → IfSome (files disk) (λ fs. length (file_of fs f) ≤ room disk f) };

    /// A disk that tells what is pending tells its files.
    ghost tells_both: { (disk : Self) → IsSome (pending disk) → IsSome (files disk) };

    /// A disk that tells its files now is one that tells them.
    ghost tells_now: { (disk : Self) → IsSome (files disk) → tells disk ≡ true };

    /// A disk that tells its files tells what is pending. So a read that fails leaves its files as they were.
    ghost tells_pending: { (disk : Self) → tells disk ≡ true → IsSome (pending disk) };

    /// A crash may leave what the pending calls make of what was last synced, and nothing else.
    ghost leaves_pending: { (disk : Self) → IfSome (pending disk) (λ p. (c : Files) → may_leave disk c ↔ MayLeave p c) };

    /// The length of a file, in bytes.
    fn len(&mut self, f: FileNo) -> LenEnd
        ensures length { OnKnown result (λ n. IfSome (files self.old) (λ fs. n ≡ length (file_of fs f))) }
        ensures files { OnKnown result (λ _. files self.new ≡ files self.old) }
        ensures room { KeepsRoom (room self.old) (room self.new) }
        ensures steps { steps self.new ≡ steps self.old }
        ensures crash { LeavesSame (may_leave self.old) (may_leave self.new) (left_since self.old) (left_since self.new) }
        ensures stop { stop self.new ≡ stop self.old }
        ensures stopped { IsStopped (stop self.old) → result ≡ LenEnd.Failed }
        ensures pending { pending self.new ≡ pending self.old }
        ensures failed { IsSome (pending self.old) → files self.new ≡ files self.old }
        ensures tells { tells self.new ≡ tells self.old }
        ensures cause { HasCause (faults self.old) (faults self.new) (result ≡ LenEnd.Failed) }
        ensures own { CountsOwn (own_faults self.old) (own_faults self.new) (stop self.new) (result ≡ LenEnd.Failed) };

    /// Makes room for the first `len` bytes of a file. It takes no memory where there is room. For want of memory
    /// nothing changes.
    fn reserve(&mut self, f: FileNo, len: u64) -> RoomEnd
        ensures reserved { result ≡ RoomEnd.Done → len ≤ room self.new f }
        ensures no_memory { result ≡ RoomEnd.NoMemory → room self.old f < len }
        ensures files { files self.new ≡ files self.old }
        ensures room { KeepsRoom (room self.old) (room self.new) }
        ensures steps { steps self.new ≡ steps self.old }
        ensures crash { LeavesSame (may_leave self.old) (may_leave self.new) (left_since self.old) (left_since self.new) }
        ensures stop { stop self.new ≡ stop self.old }
        ensures pending { pending self.new ≡ pending self.old }
        ensures tells { tells self.new ≡ tells self.old }
        ensures faults { faults self.new ≡ faults self.old }
        ensures own { own_faults self.new ≡ own_faults self.old };

    /// Reads the bytes of a file from a position on, which lie within its length.
    fn read(&mut self, f: FileNo, at: u64, buf: &mut [u8]) -> DiskEnd
        requires { IfSome (files self.old) (λ fs. at + length buf.old ≤ length (file_of fs f)) }
        ensures bytes { OnDone result (IfSome (files self.old) (λ fs. buf.new ≡ take (length buf.old) (drop at (file_of fs f)))) }
        ensures files { OnDone result (files self.new ≡ files self.old) }
        ensures room { KeepsRoom (room self.old) (room self.new) }
        ensures steps { steps self.new ≡ steps self.old }
        ensures crash { LeavesSame (may_leave self.old) (may_leave self.new) (left_since self.old) (left_since self.new) }
        ensures stop { stop self.new ≡ stop self.old }
        ensures stopped { IsStopped (stop self.old) → result ≡ DiskEnd.Failed }
        ensures pending { pending self.new ≡ pending self.old }
        ensures failed { IsSome (pending self.old) → files self.new ≡ files self.old }
        ensures tells { tells self.new ≡ tells self.old }
        ensures cause { HasCause (faults self.old) (faults self.new) (result ≡ DiskEnd.Failed) }
        ensures own { CountsOwn (own_faults self.old) (own_faults self.new) (stop self.new) (result ≡ DiskEnd.Failed) };

    /// Writes bytes over a file from a position on, at most its length, and within its room.
    fn write_at(&mut self, f: FileNo, at: u64, bytes: &[u8]) -> DiskEnd
        requires begins { IfSome (files self.old) (λ fs. at ≤ length (file_of fs f)) }
        requires fits { at + length bytes.now ≤ room self.old f }
        ensures written { OnDone result (files self.new ≡ option_map (λ fs. with_file fs f (laid (file_of fs f) at bytes.now)) (files self.old)) }
        ensures room { KeepsRoom (room self.old) (room self.new) }
        ensures steps { steps self.new ≡ steps self.old + 1 }
        ensures crash { Follows (InFile f (Torn at (length bytes.now))) (may_leave self.old) (may_leave self.new) }
        ensures others { LeavesOthers f (may_leave self.old) (may_leave self.new) }
        ensures time { Elapses (steps self.old) (left_since self.old) (left_since self.new) (may_leave self.new) }
        ensures stop { stop self.new ≡ after_change (stop self.old) }
        ensures stopped { IsStopped (stop self.new) → result ≡ DiskEnd.Failed }
        ensures pending { OnDone result (pending self.new ≡ option_map (after_write f at (length bytes.now)) (pending self.old)) }
        ensures failed { IsSome (pending self.old) → result ≡ DiskEnd.Failed
            → Keeps (files self.old) (files self.new) (pending self.old) (pending self.new)
            ⊎ IsWritten f at bytes.now (files self.old) (files self.new) (pending self.old) (pending self.new) }
        ensures tells { tells self.new ≡ tells self.old }
        ensures cause { HasCause (faults self.old) (faults self.new) (result ≡ DiskEnd.Failed) }
        ensures own { CountsOwn (own_faults self.old) (own_faults self.new) (stop self.new) (result ≡ DiskEnd.Failed) };

    /// Keeps the first `len` bytes of a file, at most its length.
    fn cut(&mut self, f: FileNo, len: u64) -> DiskEnd
        requires { IfSome (files self.old) (λ fs. len ≤ length (file_of fs f)) }
        ensures cut { OnDone result (files self.new ≡ option_map (λ fs. with_file fs f (take len (file_of fs f))) (files self.old)) }
        ensures room { KeepsRoom (room self.old) (room self.new) }
        ensures steps { steps self.new ≡ steps self.old + 1 }
        ensures crash { Follows (InFile f (CutShort len)) (may_leave self.old) (may_leave self.new) }
        ensures others { LeavesOthers f (may_leave self.old) (may_leave self.new) }
        ensures time { Elapses (steps self.old) (left_since self.old) (left_since self.new) (may_leave self.new) }
        ensures stop { stop self.new ≡ after_change (stop self.old) }
        ensures stopped { IsStopped (stop self.new) → result ≡ DiskEnd.Failed }
        ensures pending { OnDone result (pending self.new ≡ option_map (after_cut f len) (pending self.old)) }
        ensures failed { IsSome (pending self.old) → result ≡ DiskEnd.Failed
            → Keeps (files self.old) (files self.new) (pending self.old) (pending self.new)
            ⊎ IsCut f len (files self.old) (files self.new) (pending self.old) (pending self.new) }
        ensures tells { tells self.new ≡ tells self.old }
        ensures cause { HasCause (faults self.old) (faults self.new) (result ≡ DiskEnd.Failed) }
        ensures own { CountsOwn (own_faults self.old) (own_faults self.new) (stop self.new) (result ≡ DiskEnd.Failed) };

    /// After it a crash leaves of the file what a read gives.
    fn sync(&mut self, f: FileNo) -> DiskEnd
        ensures files { OnDone result (files self.new ≡ files self.old) }
        ensures room { KeepsRoom (room self.old) (room self.new) }
        ensures steps { steps self.new ≡ steps self.old + 1 }
        ensures durable { OnDone result (IfSome (files self.old) (λ fs. OnlyIn f (file_of fs f) (may_leave self.new))) }
        ensures crash { Narrows (may_leave self.old) (may_leave self.new) }
        ensures others { LeavesOthers f (may_leave self.old) (may_leave self.new) }
        ensures time { Elapses (steps self.old) (left_since self.old) (left_since self.new) (may_leave self.new) }
        ensures stop { stop self.new ≡ after_change (stop self.old) }
        ensures stopped { IsStopped (stop self.new) → result ≡ DiskEnd.Failed }
        ensures pending { OnDone result (IfSome (files self.old) (λ fs. pending self.new ≡ option_map (after_sync f (file_of fs f)) (pending self.old))) }
        ensures failed { IsSome (pending self.old) → result ≡ DiskEnd.Failed → Keeps (files self.old) (files self.new) (pending self.old) (pending self.new) }
        ensures tells { tells self.new ≡ tells self.old }
        ensures cause { HasCause (faults self.old) (faults self.new) (result ≡ DiskEnd.Failed) }
        ensures own { CountsOwn (own_faults self.old) (own_faults self.new) (stop self.new) (result ≡ DiskEnd.Failed) };
}

/// A disk that can be told to stop in one of its next changing calls.
pub trait StopDisk: Disk {
    /// Lets so many further calls of `write_at`, `cut` and `sync` pass, and stops in the next one. A disk that has
    /// stopped stays so.
    fn arm(&mut self, calls: u32, fill: Fill)
        ensures armed { Self.stop self.new ≡ armed (Self.stop self.old) calls fill }
        ensures files { Self.files self.new ≡ Self.files self.old }
        ensures room { KeepsRoom (Self.room self.old) (Self.room self.new) }
        ensures steps { Self.steps self.new ≡ Self.steps self.old }
        ensures pending { Self.pending self.new ≡ Self.pending self.old }
        ensures crash { LeavesSame (Self.may_leave self.old) (Self.may_leave self.new) (Self.left_since self.old) (Self.left_since self.new) }
        ensures tells { Self.tells self.new ≡ Self.tells self.old }
        ensures faults { Self.faults self.new ≡ Self.faults self.old }
        ensures own { Self.own_faults self.new ≡ Self.own_faults self.old };

    /// Whether it has stopped.
    fn stopped(&self) -> bool
        ensures { IsTrue result ↔ IsStopped (Self.stop self.now) };

    /// Ends the stop: the files are opened anew, and are all synced. Its moments begin anew, and what was reserved
    /// is not kept. A disk that did not stop is revived as with `Fill::Old`.
    fn revive(&mut self)
        ensures unarmed { Self.stop self.new ≡ Unarmed }
        ensures left { IfSome (Self.files self.new) (λ fs. Self.may_leave self.old fs × Only fs (Self.may_leave self.new)) }
        ensures by_fill { IfSome (Self.pending self.old) (λ p. IfSome (Self.files self.old) (λ now. IfSome (Self.files self.new)
            (λ fs. IsLeftBy (fill_left (Self.stop self.old)) p now fs))) }
        ensures at_rest { IsSome (Self.pending self.old) → Self.pending self.new ≡ option_map all_at_rest (Self.files self.new) }
        ensures tells_files { Self.tells self.old ≡ true → IsSome (Self.files self.new) }
        ensures begins_anew { BeginsAnew (Self.left_since self.new) (Self.may_leave self.new) }
        ensures tells { Self.tells self.new ≡ Self.tells self.old }
        ensures steps { Self.steps self.new ≡ Self.steps self.old }
        ensures faults { Self.faults self.new ≡ Self.faults self.old }
        ensures own { Self.own_faults self.new ≡ Self.own_faults self.old };
}
