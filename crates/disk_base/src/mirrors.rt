//! A disk that has its three files in memory too, and tells them.
ghost use Rattle.std.specs.Prelude.{◌≡◌, ◌+◌, ◌<◌, ◌≤◌, IsTrue, true, false, OnOk, OnErr, length, take, drop, vec_capacity};
ghost use Rattle.disk_base.specs.Files.{three_files, file_of, with_file, laid, KeepsRoom};
ghost use Rattle.disk_base.specs.Crash.{Torn, CutShort, InFile, Follows, LeavesOthers, Narrows, Only, OnlyIn, Elapses};
ghost use Rattle.disk_base.specs.Pending.{MayLeave, after_write, after_cut, after_sync, all_at_rest};
ghost use Rattle.disk_base.specs.Count.{HasCause};
ghost use Rattle.disk_base.specs.Stops.{CountsOwn};
ghost use Rattle.disk_base.specs.Stops.DiskStop.{Unarmed};

use crate::moments::Moments;
use crate::touches::Touch;
use crate::undos::lay;
use crate::unsynced::Unsynced;
use crate::{DiskEnd, FileNo};
use ghost_values::Tally;
use ubik_types::NoMemory;

/// The bytes of three files.
#[derive(Drop)]
pub(crate) struct Held {
    database: Vec<u8>,
    log: Vec<u8>,
    incoming: Vec<u8>,
}

impl Held {
    ghost use Rattle.disk_base.specs.Mirror.{held_files, held_room};

    fn file(&self, f: FileNo) -> &[u8]
        ensures { result.now ≡ file_of (held_files self.now) f }
    {
        match f {
            FileNo::Database => &self.database,
            FileNo::Log => &self.log,
            FileNo::Incoming => &self.incoming,
        }
    }

    fn reserve(&mut self, f: FileNo, len: u64) -> Result<(), NoMemory>
        ensures reserved { OnOk result (len ≤ held_room self.new f) }
        ensures no_memory { OnErr result (held_room self.old f < len) }
        ensures now { held_files self.new ≡ held_files self.old }
        ensures room { KeepsRoom (held_room self.old) (held_room self.new) }
    {
        match f {
            FileNo::Database => reserve(&mut self.database, len),
            FileNo::Log => reserve(&mut self.log, len),
            FileNo::Incoming => reserve(&mut self.incoming, len),
        }
    }

    fn write_at(&mut self, f: FileNo, at: u64, bytes: &[u8])
        requires begins { at ≤ length (file_of (held_files self.old) f) }
        requires fits { at + length bytes.now ≤ held_room self.old f }
        ensures now { held_files self.new ≡ with_file (held_files self.old) f (laid (file_of (held_files self.old) f) at bytes.now) }
        ensures room { KeepsRoom (held_room self.old) (held_room self.new) }
    {
        match f {
            FileNo::Database => lay(&mut self.database, at as usize, bytes),
            FileNo::Log => lay(&mut self.log, at as usize, bytes),
            FileNo::Incoming => lay(&mut self.incoming, at as usize, bytes),
        }
    }

    fn cut(&mut self, f: FileNo, len: u64)
        ensures now { held_files self.new ≡ with_file (held_files self.old) f (take len (file_of (held_files self.old) f)) }
        ensures room { KeepsRoom (held_room self.old) (held_room self.new) }
    {
        match f {
            FileNo::Database => self.database.truncate(len as usize),
            FileNo::Log => self.log.truncate(len as usize),
            FileNo::Incoming => self.incoming.truncate(len as usize),
        }
    }
}

/// Takes memory for the first `len` bytes of a file.
fn reserve(file: &mut Vec<u8>, len: u64) -> Result<(), NoMemory>
    ensures reserved { OnOk result (len ≤ vec_capacity file.new) }
    ensures no_memory { OnErr result (vec_capacity file.old < len) }
    ensures bytes { file.new.items ≡ file.old.items }
    ensures room { vec_capacity file.old ≤ vec_capacity file.new }
{
    let missing = (len as usize).saturating_sub(file.len());
    file.reserve(missing)?;
    Ok(())
}

/// Three files in memory, and for contracts what is pending of them on the disk that they mirror.
#[derive(Drop)]
pub(crate) struct Mirror {
    held: Held,
    pending: Unsynced,
    /// What was pending at the earlier moments.
    moments: Moments,
    faults: Tally,
    /// A call of the disk has failed.
    broken: bool,
    ghost may_be: { MayLeave pending (three_files held.database.items held.log.items held.incoming.items) },
}

impl Mirror {
    ghost use Rattle.disk_base.specs.Mirror.{held_files, mirror_now, mirror_room, mirror_steps, mirror_faults, mirror_pending, mirror_may_leave, mirror_left_since, KeepsMoments};

    /// Of files that are all synced.
    pub(crate) fn of(database: Vec<u8>, log: Vec<u8>, incoming: Vec<u8>) -> Mirror
        ensures now { mirror_now result ≡ three_files database.items log.items incoming.items }
        ensures pending { mirror_pending result ≡ all_at_rest (mirror_now result) }
        ensures settled { Only (mirror_now result) (mirror_may_leave result) }
        ensures broken { result.broken ≡ false }
        ensures steps { mirror_steps result ≡ 0 }
        ensures faults { mirror_faults result ≡ 0 }
    {
        let pending = Unsynced::at_rest(&database, &log, &incoming);
        Mirror {
            held: Held {
                database,
                log,
                incoming,
            },
            pending,
            moments: Moments::new(),
            faults: Tally::new(),
            broken: false,
        }
    }

    pub(crate) fn broken(&self) -> bool
        ensures { result ≡ self.now.broken }
    {
        self.broken
    }

    pub(crate) fn len(&self, f: FileNo) -> u64
        ensures { result ≡ length (file_of (mirror_now self.now) f) }
    {
        self.held.file(f).len() as u64
    }

    pub(crate) fn read(&self, f: FileNo, at: u64, buf: &mut [u8])
        requires { at + length buf.old ≤ length (file_of (mirror_now self.now) f) }
        ensures { buf.new ≡ take (length buf.old) (drop at (file_of (mirror_now self.now) f)) }
    {
        let from = at as usize;
        buf.copy_from_slice(&self.held.file(f)[from..from + buf.len()]);
    }

    pub(crate) fn reserve(&mut self, f: FileNo, len: u64) -> Result<(), NoMemory>
        ensures reserved { OnOk result (len ≤ mirror_room self.new f) }
        ensures no_memory { OnErr result (mirror_room self.old f < len) }
        ensures room { KeepsRoom (mirror_room self.old) (mirror_room self.new) }
        ensures now { mirror_now self.new ≡ mirror_now self.old }
        ensures rests { KeepsMoments self.old self.new }
        ensures faults { mirror_faults self.new ≡ mirror_faults self.old }
        ensures broken { self.new.broken ≡ self.old.broken }
    {
        self.held.reserve(f, len)
    }

    /// Ends a call of the disk. Once one has failed the mirror is broken.
    pub(crate) fn end(&mut self, end: DiskEnd) -> DiskEnd
        ensures end { result ≡ end }
        ensures cause { HasCause (mirror_faults self.old) (mirror_faults self.new) (result ≡ DiskEnd.Failed) }
        ensures own { CountsOwn (mirror_faults self.old) (mirror_faults self.new) Unarmed (result ≡ DiskEnd.Failed) }
        ensures broken { self.new.broken ≡ false → (result ≡ DiskEnd.Done) × (self.old.broken ≡ false) }
        ensures done { result ≡ DiskEnd.Done → self.new.broken ≡ self.old.broken }
        ensures failed { result ≡ DiskEnd.Failed → self.new.broken ≡ true }
        ensures held { self.new.held ≡ self.old.held }
        ensures rests { KeepsMoments self.old self.new }
    {
        if end == DiskEnd::Failed {
            self.broken = true;
            self.faults = self.faults.next();
        }
        end
    }

    /// A write, which the disk may make whole, in part or not.
    pub(crate) fn write_at(&mut self, f: FileNo, at: u64, bytes: &[u8])
        requires begins { at ≤ length (file_of (mirror_now self.old) f) }
        requires fits { at + length bytes.now ≤ mirror_room self.old f }
        ensures now { mirror_now self.new ≡ with_file (mirror_now self.old) f (laid (file_of (mirror_now self.old) f) at bytes.now) }
        ensures pending { mirror_pending self.new ≡ after_write f at (length bytes.now) (mirror_pending self.old) }
        ensures room { KeepsRoom (mirror_room self.old) (mirror_room self.new) }
        ensures steps { mirror_steps self.new ≡ mirror_steps self.old + 1 }
        ensures faults { mirror_faults self.new ≡ mirror_faults self.old }
        ensures broken { self.new.broken ≡ self.old.broken }
        ensures crash { Follows (InFile f (Torn at (length bytes.now))) (mirror_may_leave self.old) (mirror_may_leave self.new) }
        ensures others { LeavesOthers f (mirror_may_leave self.old) (mirror_may_leave self.new) }
        ensures time { Elapses (mirror_steps self.old) (mirror_left_since self.old) (mirror_left_since self.new) (mirror_may_leave self.new) }
    {
        self.moments = self.moments.then(&self.pending);
        let touch = Touch::Wrote {
            at: at as usize,
            len: bytes.len(),
        };
        self.pending = self.pending.touched(f, touch);
        self.held.write_at(f, at, bytes);
    }

    /// A cut, which the disk may make whole, in part or not.
    pub(crate) fn cut(&mut self, f: FileNo, len: u64)
        requires { len ≤ length (file_of (mirror_now self.old) f) }
        ensures now { mirror_now self.new ≡ with_file (mirror_now self.old) f (take len (file_of (mirror_now self.old) f)) }
        ensures pending { mirror_pending self.new ≡ after_cut f len (mirror_pending self.old) }
        ensures room { KeepsRoom (mirror_room self.old) (mirror_room self.new) }
        ensures steps { mirror_steps self.new ≡ mirror_steps self.old + 1 }
        ensures faults { mirror_faults self.new ≡ mirror_faults self.old }
        ensures broken { self.new.broken ≡ self.old.broken }
        ensures crash { Follows (InFile f (CutShort len)) (mirror_may_leave self.old) (mirror_may_leave self.new) }
        ensures others { LeavesOthers f (mirror_may_leave self.old) (mirror_may_leave self.new) }
        ensures time { Elapses (mirror_steps self.old) (mirror_left_since self.old) (mirror_left_since self.new) (mirror_may_leave self.new) }
    {
        self.moments = self.moments.then(&self.pending);
        self.pending = self.pending.touched(f, Touch::Cut { len: len as usize });
        self.held.cut(f, len);
    }

    /// A sync, which the disk has made or not.
    pub(crate) fn sync(&mut self, f: FileNo, done: bool)
        ensures held { self.new.held ≡ self.old.held }
        ensures done { IsTrue done → mirror_pending self.new ≡ after_sync f (file_of (mirror_now self.old) f) (mirror_pending self.old) }
        ensures failed { done ≡ false → mirror_pending self.new ≡ mirror_pending self.old }
        ensures steps { mirror_steps self.new ≡ mirror_steps self.old + 1 }
        ensures faults { mirror_faults self.new ≡ mirror_faults self.old }
        ensures broken { self.new.broken ≡ self.old.broken }
        ensures durable { IsTrue done → OnlyIn f (file_of (mirror_now self.old) f) (mirror_may_leave self.new) }
        ensures crash { Narrows (mirror_may_leave self.old) (mirror_may_leave self.new) }
        ensures others { LeavesOthers f (mirror_may_leave self.old) (mirror_may_leave self.new) }
        ensures time { Elapses (mirror_steps self.old) (mirror_left_since self.old) (mirror_left_since self.new) (mirror_may_leave self.new) }
    {
        self.moments = self.moments.then(&self.pending);
        if done {
            self.pending = self.pending.synced(f, self.held.file(f));
        }
    }
}
