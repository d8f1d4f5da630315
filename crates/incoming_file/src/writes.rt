//! The writes of the incoming file, each of which is synced: a file is kept there with a closed gate, and one byte then opens it.
//! After a disk fault nothing more is said of what a read gives, until the disk is opened anew.
ghost use Rattle.std.specs.Prelude.{◌≡◌, ◌+◌, ◌≤◌, [], length, slice_index, IfSome, IsTrue};
ghost use Rattle.std.specs.Option.{option_map};
ghost use Rattle.disk_base.specs.Crash.{Torn, CutShort, InFile, LeavesOnly, OnlyIn, IsSettled, After, RisesAtMost};
ghost use Rattle.disk_base.specs.Files.{laid, OnDone};
ghost use Rattle.disk_base.specs.Runs.{ChangesAtMost};
ghost use Rattle.incoming_file.specs.Incoming.{IsIgnored, IsGateOpen, is_gated, clear_calls, shut, opened, with_incoming, HasIgnored, HasThisOrIgnored};

use crate::reads::{GATE, OPEN};
use disk_base::{Disk, DiskEnd, FileNo};
use page_file::LABEL_LEN;

/// Writes bytes over the incoming file from a position on, and syncs it.
fn put_incoming<D: Disk>(disk: &mut D, at: u64, bytes: &[u8]) -> DiskEnd
    requires begins { IfSome (D.files disk.old) (λ fs. at ≤ length fs.incoming) }
    requires fits { at + length bytes.now ≤ D.room disk.old FileNo.Incoming }
    ensures written { OnDone result (D.files disk.new
        ≡ option_map (λ fs. with_incoming (laid fs.incoming at bytes.now) fs) (D.files disk.old)) }
    ensures durable { OnDone result (IfSome (D.files disk.old) (λ fs.
        OnlyIn FileNo.Incoming (laid fs.incoming at bytes.now) (D.may_leave disk.new))) }
    ensures moments { LeavesOnly D.steps D.left_since disk.old disk.new
        (After (InFile FileNo.Incoming (Torn at (length bytes.now))) (D.may_leave disk.old)) }
    ensures steps { OnDone result (D.steps disk.new ≡ D.steps disk.old + 2) }
    ensures changes { ChangesAtMost D.Disk FileNo.Incoming 2 disk.old disk.new (result ≡ DiskEnd.Failed) }
{
    match disk.write_at(FileNo::Incoming, at, bytes) {
        DiskEnd::Done => disk.sync(FileNo::Incoming),
        DiskEnd::Failed => DiskEnd::Failed,
    }
}

/// Writes zero bytes in place of a label, and what stands from its last byte on behind them.
fn put_shut<D: Disk>(disk: &mut D, text: &[u8]) -> DiskEnd
    requires long { LABEL_LEN ≤ length text.now }
    requires empty { IfSome (D.files disk.old) (λ fs. fs.incoming ≡ []) }
    requires fits { length text.now ≤ D.room disk.old FileNo.Incoming }
    requires settled { IsSettled (D.files disk.old) (D.may_leave disk.old) }
    ensures files { OnDone result (D.files disk.new ≡ option_map (with_incoming (shut text.now)) (D.files disk.old)) }
    ensures settled { OnDone result (IsSettled (D.files disk.new) (D.may_leave disk.new)) }
    ensures moments { IfSome (D.files disk.old) (λ fs. LeavesOnly D.steps D.left_since disk.old disk.new (HasIgnored fs)) }
    ensures steps { OnDone result (D.steps disk.new ≡ D.steps disk.old + 4) }
    ensures changes { ChangesAtMost D.Disk FileNo.Incoming 4 disk.old disk.new (result ≡ DiskEnd.Failed) }
{
    let (_, rest) = text.split_at(GATE);
    match put_incoming(disk, 0, &[0; GATE]) {
        DiskEnd::Done => put_incoming(disk, GATE as u64, rest),
        DiskEnd::Failed => DiskEnd::Failed,
    }
}

/// Writes a label and an image, the label but for its last byte in the end.
fn put_closed<D: Disk>(disk: &mut D, text: &[u8]) -> DiskEnd
    requires long { LABEL_LEN ≤ length text.now }
    requires zero { slice_index text.now 63 ≡ 0 }
    requires empty { IfSome (D.files disk.old) (λ fs. fs.incoming ≡ []) }
    requires fits { length text.now ≤ D.room disk.old FileNo.Incoming }
    requires settled { IsSettled (D.files disk.old) (D.may_leave disk.old) }
    ensures files { OnDone result (D.files disk.new ≡ option_map (with_incoming text.now) (D.files disk.old)) }
    ensures settled { OnDone result (IsSettled (D.files disk.new) (D.may_leave disk.new)) }
    ensures moments { IfSome (D.files disk.old) (λ fs. LeavesOnly D.steps D.left_since disk.old disk.new (HasIgnored fs)) }
    ensures steps { OnDone result (D.steps disk.new ≡ D.steps disk.old + 6) }
    ensures changes { ChangesAtMost D.Disk FileNo.Incoming 6 disk.old disk.new (result ≡ DiskEnd.Failed) }
{
    let (front, _) = text.split_at(GATE);
    match put_shut(disk, text) {
        DiskEnd::Done => put_incoming(disk, 0, front),
        DiskEnd::Failed => DiskEnd::Failed,
    }
}

/// Keeps a label and the image behind it in the empty incoming file, with an open gate: zero bytes first, then all from the label's last
/// byte on, which is zero, then the rest of the label, and then the gate, and each is synced. The file's room was reserved.
pub fn keep_incoming<D: Disk>(disk: &mut D, text: &[u8]) -> DiskEnd
    requires long { LABEL_LEN ≤ length text.now }
    requires zero { slice_index text.now 63 ≡ 0 }
    requires empty { IfSome (D.files disk.old) (λ fs. fs.incoming ≡ []) }
    requires fits { length text.now ≤ D.room disk.old FileNo.Incoming }
    requires settled { IsSettled (D.files disk.old) (D.may_leave disk.old) }
    ensures files { OnDone result (D.files disk.new ≡ option_map (with_incoming (opened text.now)) (D.files disk.old)) }
    ensures settled { OnDone result (IsSettled (D.files disk.new) (D.may_leave disk.new)) }
    // A crash at any moment of the call leaves an ignored file, or the open one.
    ensures moments { IfSome (D.files disk.old) (λ fs.
        LeavesOnly D.steps D.left_since disk.old disk.new (HasThisOrIgnored (opened text.now) fs)) }
    ensures steps { OnDone result (D.steps disk.new ≡ D.steps disk.old + 8) }
    ensures changes { ChangesAtMost D.Disk FileNo.Incoming 8 disk.old disk.new (result ≡ DiskEnd.Failed) }
{
    match put_closed(disk, text) {
        DiskEnd::Done => put_incoming(disk, GATE as u64, &[OPEN]),
        DiskEnd::Failed => DiskEnd::Failed,
    }
}

/// Cuts the incoming file to nothing, and syncs it.
fn empty_incoming<D: Disk>(disk: &mut D) -> DiskEnd
    ensures files { OnDone result (D.files disk.new ≡ option_map (with_incoming []) (D.files disk.old)) }
    ensures durable { OnDone result (IfSome (D.files disk.old) (λ _. OnlyIn FileNo.Incoming [] (D.may_leave disk.new))) }
    ensures moments { LeavesOnly D.steps D.left_since disk.old disk.new
        (After (InFile FileNo.Incoming (CutShort 0)) (D.may_leave disk.old)) }
    ensures steps { OnDone result (D.steps disk.new ≡ D.steps disk.old + 2) }
    ensures changes { ChangesAtMost D.Disk FileNo.Incoming 2 disk.old disk.new (result ≡ DiskEnd.Failed) }
{
    match disk.cut(FileNo::Incoming, 0) {
        DiskEnd::Done => disk.sync(FileNo::Incoming),
        DiskEnd::Failed => DiskEnd::Failed,
    }
}

/// Closes the gate of the incoming file, which stands open, and empties the file.
pub fn end_incoming<D: Disk>(disk: &mut D) -> DiskEnd
    requires open { IfSome (D.files disk.old) (λ fs. IsGateOpen fs.incoming) }
    requires fits { LABEL_LEN ≤ D.room disk.old FileNo.Incoming }
    requires settled { IsSettled (D.files disk.old) (D.may_leave disk.old) }
    ensures files { OnDone result (D.files disk.new ≡ option_map (with_incoming []) (D.files disk.old)) }
    ensures settled { OnDone result (IsSettled (D.files disk.new) (D.may_leave disk.new)) }
    // A crash at any moment of the call leaves the file as it was, or an ignored one.
    ensures moments { IfSome (D.files disk.old) (λ fs. LeavesOnly D.steps D.left_since disk.old disk.new (HasThisOrIgnored fs.incoming fs)) }
    ensures steps { OnDone result (D.steps disk.new ≡ D.steps disk.old + 4) }
    ensures changes { ChangesAtMost D.Disk FileNo.Incoming 4 disk.old disk.new (result ≡ DiskEnd.Failed) }
{
    match put_incoming(disk, GATE as u64, &[0]) {
        DiskEnd::Done => empty_incoming(disk),
        DiskEnd::Failed => DiskEnd::Failed,
    }
}

/// Empties an incoming file that is ignored. Where its gate stands open it is closed first: a crash could else leave an open front
/// of it.
pub fn clear_incoming<D: Disk>(disk: &mut D, len: u64, gated: bool) -> DiskEnd
    requires ignored { IfSome (D.files disk.old) (λ fs. IsIgnored fs.incoming) }
    requires len { IfSome (D.files disk.old) (λ fs. len ≡ length fs.incoming) }
    requires gated { IfSome (D.files disk.old) (λ fs. gated ≡ is_gated fs.incoming) }
    requires fits { IsTrue gated → LABEL_LEN ≤ D.room disk.old FileNo.Incoming }
    requires settled { IsSettled (D.files disk.old) (D.may_leave disk.old) }
    ensures files { OnDone result (D.files disk.new ≡ option_map (with_incoming []) (D.files disk.old)) }
    ensures settled { OnDone result (IsSettled (D.files disk.new) (D.may_leave disk.new)) }
    // A crash at any moment of the call leaves an ignored file.
    ensures moments { IfSome (D.files disk.old) (λ fs. LeavesOnly D.steps D.left_since disk.old disk.new (HasIgnored fs)) }
    ensures steps { OnDone result (IfSome (D.files disk.old) (λ fs. D.steps disk.new ≡ D.steps disk.old + clear_calls fs.incoming)) }
    ensures few { IfSome (D.files disk.old) (λ fs. RisesAtMost (clear_calls fs.incoming) (D.steps disk.old) (D.steps disk.new)) }
    ensures changes { ChangesAtMost D.Disk FileNo.Incoming 4 disk.old disk.new (result ≡ DiskEnd.Failed) }
{
    if len == 0 {
        return DiskEnd::Done;
    }
    if gated {
        return end_incoming(disk);
    }
    empty_incoming(disk)
}
