//! The store of a server.
ghost use Rattle.std.specs.Prelude.{◌≡◌, ◌≢◌, ◌+◌, ◌<◌, ◌≤◌, ◌⊎◌, ◌^◌, ◌↔◌, ℕ, List, [], ◌∷◌, ◌++◌, length, take, drop, true, false, IsTrue, Some, None, IsSome, IfOk, IfErr, IfSome, IsErrOf, IsOk, OnOk, OnErr, MatchResult};
ghost use Rattle.ubik_types.specs.Logged.{logged, too_large};
ghost use Rattle.ubik_types.specs.Version.{IsVersion, version_lt};
ghost use Rattle.ubik_types.specs.declared.images.Change.TheVariants as change;
ghost use Rattle.disk_base.specs.Crash.{IsSettled, LeavesSame, Only};
ghost use Rattle.disk_base.specs.Runs.{OnlyReads};
ghost use Rattle.disk_base.specs.Stops.{IsStopped, armed};
ghost use Rattle.disk_base.specs.Stops.DiskStop.{Unarmed};
ghost use Rattle.page_file.specs.Kept.{AreKept};
ghost use Rattle.page_file.specs.Label.{label};
ghost use Rattle.ubik_store.specs.DurableCall.{Commits, EndsAs, HasFailed, IsDurable, IsDurableIn, IsNeverLong, Rewrites};
ghost use Rattle.ubik_store.specs.Files.{StandsFor};
ghost use Rattle.ubik_store.specs.Install.{without_text};
ghost use Rattle.ubik_store.specs.Opening.{OpensIn, RefusesFiles, IsOpening};
ghost use Rattle.ubik_store.specs.Rest.{RestsAs, CanRelabel};
ghost use Rattle.ubik_store.specs.Rewrite.Rewrite.{Replaced};
ghost use Rattle.ubik_store.specs.Store.{Adds, IsForbidden, IsImageForbidden, IsPutRefused, IsSound, IsTooLong, SameButBegun, StaysAsItWas, changes_begun, image_in, taken_over};

use crate::commits::{commit_as_made, commit_changes, relabel_files};
use crate::faults::{NotInstalled, StoreFault};
use crate::installs::install_files;
use crate::measures::measure;
use crate::opening::open_files;
use crate::transactions::Transaction;
use disk_base::{Disk, Fill, Refused, StopDisk};
use incoming_file::RoomyText;
use page_file::{LABEL_LEN, Pages};
use std::alloc::Global;
use ubik_types::{Changes, MAX_IMAGE, Version};

/// A version and an image on a disk, and the changes that were begun over them. After a fault of the disk each call that may
/// fail answers `DiskFault`, until the disk is closed and opened anew; version and length are then those from before that call.
#[derive(Drop)]
pub struct Store<D: Disk> {
    alloc: Global,
    disk: D,
    pages: Pages,
    version: Version,
    len: u32,
    begun: Option<Transaction>,
    failed: bool,
}

impl<D: Disk> Store<D> {
    /// Opens a store over a disk on which nothing is pending: an open incoming file takes the place of database and log; without one a
    /// committed log is brought to its end, and any other is emptied, and so is the incoming file.
    pub fn open(alloc: Global, disk: D) -> Result<Store<D>, Refused<D, StoreFault>>
        requires settled { IsSettled (D.files disk) (D.may_leave disk) }
        ensures sound { IfOk result (IsSound D.Disk) }
        ensures fresh { IfOk result (λ store. (store.begun ≡ None) × (store.failed ≡ false)) }
        ensures stands { IfOk result (λ store. IfSome (D.files disk) (λ fs. (image : List ℕ) × StandsFor fs store.version image
            × RestsAs store.version image (D.files store.disk) × (store.len ≡ length image))) }
        ensures steps { IfOk result (λ store. IfSome (D.files disk) (λ fs.
            (calls : ℕ) → OpensIn fs calls → D.steps store.disk ≡ D.steps disk + calls)) }
        ensures untold { IfOk result (λ store. D.files disk ≡ None → D.files store.disk ≡ None) }
        ensures refused { IfErr result (λ refused. IfSome (D.files disk) (λ fs. RefusesFiles fs refused.why)) }
        ensures unchanged { IfErr result (λ refused. refused.why ≢ StoreFault.DiskFault → OnlyReads D.Disk disk refused.disk ⊥) }
        ensures opening { MatchResult result (λ store. IsOpening D.Disk disk store.disk ⊥)
            (λ refused. IsOpening D.Disk disk refused.disk (refused.why ≡ StoreFault.DiskFault)) }
    {
        let mut disk = disk;
        match open_files(alloc, &mut disk) {
            Ok(pages) => Ok(Store {
                alloc,
                version: pages.version(),
                len: pages.len(),
                disk,
                pages,
                begun: None,
                failed: false,
            }),
            Err(why) => Err(Refused { disk, why }),
        }
    }

    /// The version of the database.
    pub fn version(&self) -> Version
        ensures { result ≡ self.now.version }
    {
        self.version
    }

    /// The length of the committed image, in bytes.
    pub fn len(&self) -> u32
        ensures { result ≡ self.now.len }
    {
        self.len
    }

    /// Whether a call has found the disk failed since the opening.
    pub fn failed(&self) -> bool
        ensures { result ≡ self.now.failed }
    {
        self.failed
    }

    /// Reads bytes of the committed image from a position on, which lie within it. Pages that are kept are read without the disk.
    pub fn read(&mut self, at: u32, buf: &mut [u8]) -> Result<(), StoreFault>
        requires sound { IsSound D.Disk self.old }
        requires within { at + length buf.old ≤ self.old.len }
        ensures sound { IsSound D.Disk self.new }
        ensures bytes { OnOk result (IfSome (image_in (D.files self.old.disk)) (λ image. buf.new ≡ take (length buf.old) (drop at image))) }
        ensures same { OnOk result (StaysAsItWas self.old self.new) }
        ensures kept { changes_begun self.new.begun ≡ changes_begun self.old.begun }
        ensures fault { IfErr result (λ fault. (fault ≡ StoreFault.DiskFault) × HasFailed self.old self.new) }
        ensures rests { self.old.failed ≡ true → (self.new ≡ self.old) × IsErrOf result StoreFault.DiskFault }
        ensures disk { self.old.failed ≡ false → OnlyReads D.Disk self.old.disk self.new.disk (IsErrOf result StoreFault.DiskFault) }
        ensures from_memory { self.old.failed ≡ false → AreKept self.old.pages.cache at (length buf.old)
            → IsOk result × (self.new.disk ≡ self.old.disk) }
    {
        if self.failed {
            return Err(StoreFault::DiskFault);
        }
        match self.pages.read_range(&mut self.disk, at, buf) {
            Ok(()) => Ok(()),
            Err(_) => {
                self.failed = true;
                Err(StoreFault::DiskFault)
            }
        }
    }

    /// Begins changes: none yet.
    pub fn begin(&mut self)
        requires sound { IsSound D.Disk self.old }
        requires none { self.old.begun ≡ None }
        ensures sound { IsSound D.Disk self.new }
        ensures begun { changes_begun self.new.begun ≡ Some [] }
        ensures same { SameButBegun self.old self.new }
    {
        self.begun = Some(Transaction::new(self.alloc, self.len));
    }

    /// Whether changes were begun.
    pub fn begun(&self) -> bool
        ensures { IsTrue result ↔ IsSome self.now.begun }
    {
        self.begun.is_some()
    }

    /// Adds a put to the changes that were begun, after one of zero bytes for a gap before it. It is too large where the puts of the
    /// transaction would have more than 1,048,576 bytes, or the image more than 16,777,216. After such a fault, and for want of memory,
    /// nothing is added.
    pub fn put(&mut self, at: u32, bytes: &[u8]) -> Result<(), StoreFault>
        requires sound { IsSound D.Disk self.old }
        requires begun { IsSome self.old.begun }
        ensures sound { IsSound D.Disk self.new }
        ensures added { OnOk result (Adds (change.Put at bytes.now) self.old.begun self.new.begun) }
        ensures kept { OnErr result (changes_begun self.new.begun ≡ changes_begun self.old.begun) }
        ensures same { SameButBegun self.old self.new }
        ensures fault { IfErr result (λ fault. IsPutRefused self.old (change.Put at bytes.now) fault) }
        ensures rests { self.old.failed ≡ true → IsErrOf result StoreFault.DiskFault }
    {
        match &mut self.begun {
            Some(begun) if !self.failed => begun.put(at, bytes),
            _ => Err(StoreFault::DiskFault),
        }
    }

    /// Adds a cut to the changes that were begun: to a length, or to the present one where that is less.
    pub fn truncate(&mut self, len: u32) -> Result<(), StoreFault>
        requires sound { IsSound D.Disk self.old }
        requires begun { IsSome self.old.begun }
        ensures sound { IsSound D.Disk self.new }
        ensures added { OnOk result (Adds (change.Cut len) self.old.begun self.new.begun) }
        ensures kept { OnErr result (changes_begun self.new.begun ≡ changes_begun self.old.begun) }
        ensures same { SameButBegun self.old self.new }
        ensures fault { IfErr result (λ fault. IsPutRefused self.old (change.Cut len) fault) }
        ensures rests { self.old.failed ≡ true → IsErrOf result StoreFault.DiskFault }
    {
        match &mut self.begun {
            Some(begun) if !self.failed => Ok(begun.truncate(len)?),
            _ => Err(StoreFault::DiskFault),
        }
    }

    /// Drops the changes that were begun.
    pub fn abort(&mut self)
        requires sound { IsSound D.Disk self.old }
        ensures sound { IsSound D.Disk self.new }
        ensures begun { self.new.begun ≡ None }
        ensures same { SameButBegun self.old self.new }
    {
        self.begun = None;
    }

    /// Makes the changes that were begun one durable call, under a newer version. After `NotNewer` and for want of memory the
    /// changes are still begun, and nothing changed.
    pub fn commit(&mut self, v: Version) -> Result<(), StoreFault>
        requires sound { IsSound D.Disk self.old }
        requires version { IsVersion v }
        requires begun { IsSome self.old.begun }
        ensures sound { IsSound D.Disk self.new }
        ensures ended { IfSome (changes_begun self.old.begun) (λ changes.
            MatchResult result (λ _. Commits D.Disk changes v self.old self.new) (EndsAs D.Disk IsNeverLong v self.old self.new)) }
        ensures durable { self.old.failed ≡ false → IfSome (changes_begun self.old.begun) (λ changes.
            IsDurable D.Disk changes v self.old self.new (IsErrOf result StoreFault.DiskFault)) }
        ensures rests { self.old.failed ≡ true → (self.new.disk ≡ self.old.disk) × IsErrOf result StoreFault.DiskFault }
    {
        self.allow(v)?;
        match &self.begun {
            Some(begun) => {
                let ended = commit_changes(
                    self.alloc,
                    &mut self.disk,
                    &mut self.pages,
                    begun.changes(),
                    v,
                );
                self.end(ended, v)
            }
            None => Err(StoreFault::DiskFault),
        }
    }

    /// Makes these changes one durable call under a newer version, where none are begun: a put that leaves a gap goes behind one of zero
    /// bytes, a cut past the end to the present one. They are copied only where one of them leaves such a gap or goes past the end. They
    /// are too large where their puts have more than 1,048,576 bytes, or the image would have more than 16,777,216.
    pub fn commit_all(&mut self, changes: &Changes, v: Version) -> Result<(), StoreFault>
        requires sound { IsSound D.Disk self.old }
        requires version { IsVersion v }
        requires none { self.old.begun ≡ None }
        ensures sound { IsSound D.Disk self.new }
        ensures ended { MatchResult result (λ _. Commits D.Disk (logged self.old.len changes.now) v self.old self.new)
            (EndsAs D.Disk (λ bytes. too_large 0 self.old.len changes.now ≡ Some bytes) v self.old self.new) }
        ensures none { self.new.begun ≡ None }
        ensures fits { OnOk result (too_large 0 self.old.len changes.now ≡ None) }
        ensures too_large { self.old.failed ≡ false → (bytes : ℕ) → too_large 0 self.old.len changes.now ≡ Some bytes
            → IsErrOf result (StoreFault.TooLarge bytes) }
        ensures durable { self.old.failed ≡ false
            → IsDurable D.Disk (logged self.old.len changes.now) v self.old self.new (IsErrOf result StoreFault.DiskFault) }
        ensures rests { self.old.failed ≡ true → (self.new.disk ≡ self.old.disk) × IsErrOf result StoreFault.DiskFault }
    {
        if self.failed {
            return Err(StoreFault::DiskFault);
        }
        let seamless = measure(self.len, changes.as_slice())?;
        self.allow(v)?;
        let ended = commit_as_made(
            self.alloc,
            &mut self.disk,
            &mut self.pages,
            changes,
            self.len,
            seamless,
            v,
        );
        self.end(ended, v)
    }

    /// Gives the image a newer version, in one durable call. It makes no change of the image.
    pub fn relabel(&mut self, v: Version) -> Result<(), StoreFault>
        requires sound { IsSound D.Disk self.old }
        requires version { IsVersion v }
        requires none { self.old.begun ≡ None }
        ensures sound { IsSound D.Disk self.new }
        ensures ended { MatchResult result (λ _. Commits D.Disk [] v self.old self.new) (EndsAs D.Disk IsNeverLong v self.old self.new) }
        ensures durable { self.old.failed ≡ false → IsDurable D.Disk [] v self.old self.new (IsErrOf result StoreFault.DiskFault) }
        ensures no_memory { CanRelabel D.Disk self.old.disk → ¬ IsErrOf result StoreFault.NoMemory }
        ensures rests { self.old.failed ≡ true → (self.new.disk ≡ self.old.disk) × IsErrOf result StoreFault.DiskFault }
    {
        self.allow(v)?;
        let ended = relabel_files(self.alloc, &mut self.disk, &mut self.pages, v);
        self.end(ended, v)
    }

    /// Takes another image under a newer version, in one durable call of 15 changing calls, by way of the incoming file. A relabelling that
    /// comes next lacks no memory.
    pub fn install(&mut self, image: &[u8], v: Version) -> Result<(), StoreFault>
        requires sound { IsSound D.Disk self.old }
        requires version { IsVersion v }
        requires none { self.old.begun ≡ None }
        ensures sound { IsSound D.Disk self.new }
        ensures ended { MatchResult result (λ _. Rewrites D.Disk (Replaced image.now) v self.old self.new)
            (EndsAs D.Disk (IsTooLong image.now) v self.old self.new) }
        ensures fits { OnOk result (length image.now ≤ MAX_IMAGE) }
        ensures too_long { self.old.failed ≡ false → MAX_IMAGE < length image.now
            → IsErrOf result (StoreFault.TooLarge (length image.now)) }
        ensures image { OnOk result (IfSome (D.files self.old.disk) (λ _. image_in (D.files self.new.disk) ≡ Some image.now)) }
        ensures durable { self.old.failed ≡ false
            → IsDurableIn D.Disk (Replaced image.now) v self.old self.new (IsErrOf result StoreFault.DiskFault) }
        ensures rests { self.old.failed ≡ true → (self.new.disk ≡ self.old.disk) × IsErrOf result StoreFault.DiskFault }
    {
        self.allow_image(image.len(), v)?;
        let text = RoomyText::begun(self.alloc, image.len() as u32, image)?;
        match self.install_text(text, v) {
            Ok(()) => Ok(()),
            Err(refused) => Err(refused.why),
        }
    }

    /// The same of a text that has room for the label, which is not copied. It comes back where it is not installed.
    pub fn install_text(&mut self, text: RoomyText, v: Version) -> Result<(), NotInstalled>
        requires sound { IsSound D.Disk self.old }
        requires version { IsVersion v }
        requires none { self.old.begun ≡ None }
        ensures sound { IsSound D.Disk self.new }
        ensures ended { MatchResult (without_text result) (λ _. Rewrites D.Disk (Replaced text) v self.old self.new)
            (EndsAs D.Disk (IsTooLong text) v self.old self.new) }
        ensures fits { OnOk result (length text ≤ MAX_IMAGE) }
        ensures too_long { self.old.failed ≡ false → MAX_IMAGE < length text
            → IsErrOf (without_text result) (StoreFault.TooLarge (length text)) }
        ensures image { OnOk result (IfSome (D.files self.old.disk) (λ _. image_in (D.files self.new.disk) ≡ Some text)) }
        ensures durable { self.old.failed ≡ false
            → IsDurableIn D.Disk (Replaced text) v self.old self.new (IsErrOf (without_text result) StoreFault.DiskFault) }
        ensures rests { self.old.failed ≡ true → (self.new.disk ≡ self.old.disk) × IsErrOf (without_text result) StoreFault.DiskFault }
        ensures back { IfErr result (λ refused. refused.text ≡ text) }
    {
        let file = text.labelled(v);
        match self.install_labelled(file.as_slice(), v) {
            Ok(()) => Ok(()),
            Err(why) => Err(NotInstalled {
                why,
                text: RoomyText::behind_label(file),
            }),
        }
    }

    /// The same of the label of the version and an image behind it.
    fn install_labelled(&mut self, file: &[u8], v: Version) -> Result<(), StoreFault>
        requires sound { IsSound D.Disk self.old }
        requires version { IsVersion v }
        requires none { self.old.begun ≡ None }
        requires labelled { take LABEL_LEN file.now ≡ label v }
        requires long { LABEL_LEN ≤ length file.now }
        ensures sound { IsSound D.Disk self.new }
        ensures ended { MatchResult result (λ _. Rewrites D.Disk (Replaced (drop LABEL_LEN file.now)) v self.old self.new)
            (EndsAs D.Disk (IsTooLong (drop LABEL_LEN file.now)) v self.old self.new) }
        ensures fits { OnOk result (length (drop LABEL_LEN file.now) ≤ MAX_IMAGE) }
        ensures too_long { self.old.failed ≡ false → MAX_IMAGE < length (drop LABEL_LEN file.now)
            → IsErrOf result (StoreFault.TooLarge (length (drop LABEL_LEN file.now))) }
        ensures image { OnOk result (IfSome (D.files self.old.disk)
            (λ _. image_in (D.files self.new.disk) ≡ Some (drop LABEL_LEN file.now))) }
        ensures durable { self.old.failed ≡ false
            → IsDurableIn D.Disk (Replaced (drop LABEL_LEN file.now)) v self.old self.new (IsErrOf result StoreFault.DiskFault) }
        ensures rests { self.old.failed ≡ true → (self.new.disk ≡ self.old.disk) × IsErrOf result StoreFault.DiskFault }
    {
        self.allow_image(file.len() - LABEL_LEN, v)?;
        let ended = install_files(&mut self.disk, &mut self.pages, file, v);
        self.end(ended, v)
    }

    /// Refuses an image of so many bytes that is too long, a version that is not newer, and anything where the store has failed.
    fn allow_image(&self, bytes: usize, v: Version) -> Result<(), StoreFault>
        ensures ok { OnOk result ((self.now.failed ≡ false) × (version_lt self.now.version v ≡ true) × (bytes ≤ MAX_IMAGE)) }
        ensures too_long { self.now.failed ≡ false → MAX_IMAGE < bytes → IsErrOf result (StoreFault.TooLarge bytes) }
        ensures rests { self.now.failed ≡ true → IsErrOf result StoreFault.DiskFault }
        ensures fault { IfErr result (λ fault. IsImageForbidden self.now bytes v fault) }
    {
        if !self.failed && bytes > MAX_IMAGE {
            return Err(StoreFault::TooLarge {
                bytes: bytes as u64,
            });
        }
        self.allow(v)
    }

    /// Refuses a version that is not newer, and anything where the store has failed.
    fn allow(&self, v: Version) -> Result<(), StoreFault>
        ensures ok { OnOk result ((self.now.failed ≡ false) × (version_lt self.now.version v ≡ true)) }
        ensures fault { IfErr result (λ fault. IsForbidden self.now v fault) }
    {
        if self.failed {
            Err(StoreFault::DiskFault)
        } else if v <= self.version {
            Err(StoreFault::NotNewer {
                own: self.version,
                given: v,
            })
        } else {
            Ok(())
        }
    }

    /// Takes over how a durable call ended: version and length after it, or the mark of a failure.
    fn end(&mut self, ended: Result<(), StoreFault>, v: Version) -> Result<(), StoreFault>
        ensures store { self.new ≡ taken_over v self.old ended }
        ensures same { result ≡ ended }
    {
        match &ended {
            Ok(()) => {
                self.version = v;
                self.len = self.pages.len();
                self.begun = None;
            }
            Err(StoreFault::DiskFault) => self.failed = true,
            Err(_) => {}
        }
        ended
    }

    /// Gives the disk back.
    pub fn close(self) -> D
        ensures { result ≡ self.disk }
    {
        self.disk
    }
}

impl<D: StopDisk> Store<D> {
    /// Has the disk stop after so many further changing calls.
    pub fn arm(&mut self, calls: u32, fill: Fill)
        requires sound { IsSound D.Disk self.old }
        ensures sound { IsSound D.Disk self.new }
        ensures same { StaysAsItWas self.old self.new }
        ensures armed { D.stop self.new.disk ≡ armed (D.stop self.old.disk) calls fill }
        ensures files { D.files self.new.disk ≡ D.files self.old.disk }
        ensures steps { D.steps self.new.disk ≡ D.steps self.old.disk }
        ensures crash { LeavesSame (D.may_leave self.old.disk) (D.may_leave self.new.disk) (D.left_since self.old.disk) (D.left_since self.new.disk) }
        ensures tells { D.tells self.new.disk ≡ D.tells self.old.disk }
        ensures faults { D.faults self.new.disk ≡ D.faults self.old.disk }
    {
        self.disk.arm(calls, fill);
    }

    /// Whether the disk has stopped.
    pub fn stopped(&self) -> bool
        ensures { IsTrue result ↔ IsStopped (D.stop self.now.disk) }
    {
        self.disk.stopped()
    }

    /// Opens the files of a store anew whose disk has failed: they are what a crash leaves of them, all synced. The store stays failed.
    pub fn revive(&mut self)
        requires failed { self.old.failed ≡ true }
        requires sound { IsSound D.Disk self.old }
        ensures sound { IsSound D.Disk self.new }
        ensures same { StaysAsItWas self.old self.new }
        ensures unarmed { D.stop self.new.disk ≡ Unarmed }
        ensures left { IfSome (D.files self.new.disk) (λ fs. D.may_leave self.old.disk fs × Only fs (D.may_leave self.new.disk)) }
        ensures tells_files { D.tells self.old.disk ≡ true → IsSome (D.files self.new.disk) }
        ensures tells { D.tells self.new.disk ≡ D.tells self.old.disk }
        ensures steps { D.steps self.new.disk ≡ D.steps self.old.disk }
        ensures faults { D.faults self.new.disk ≡ D.faults self.old.disk }
    {
        self.disk.revive();
    }
}
