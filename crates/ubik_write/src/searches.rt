//! The patches that may have a byte of a part of the image, found by a search where they ascend, as those of a database's changes do.
ghost use Rattle.std.specs.Prelude.{◌≡◌, ◌<◌, ◌≤◌, ◌↔◌, ℕ, IsTrue};
ghost use Rattle.ubik_write.specs.Undo.{AreAscending, byte_before, patch_end};

use crate::undo::Patch;

/// Where the bytes of a patch end.
fn end_of(patch: &Patch) -> usize
    ensures { result ≡ patch_end patch.now }
{
    patch.at as usize + patch.bytes.as_slice().len()
}

/// Whether neither the beginnings of patches nor their ends fall along the list.
pub fn are_ascending(undo: &[Patch]) -> bool
    ensures { IsTrue result ↔ AreAscending undo.now }
{
    let mut at = 0;
    let mut end = 0;
    for patch in undo {
        if patch.at < at || end_of(patch) < end {
            return false;
        }
        at = patch.at;
        end = end_of(patch);
    }
    true
}

/// The patches of an ascending list between those that end before a part of the image and those that begin behind it. The others have no
/// byte of it.
pub fn between(undo: &[Patch], start: u32, end: usize) -> &[Patch]
    requires ascending { AreAscending undo.now }
    ensures { (at byte : ℕ) → start ≤ at → at < end → byte_before result.now at byte ≡ byte_before undo.now at byte }
{
    let first = undo.partition_point(|patch| end_of(patch) <= start as usize);
    let behind = undo.partition_point(|patch| (patch.at as usize) < end);
    &undo[first..behind.max(first)]
}
