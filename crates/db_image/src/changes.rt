//! Whether changes are too many, and that the changes from one image to another lead there.
ghost use Rattle.std.specs.Prelude.{◌≡◌, ◌≢◌, ◌≤◌, ℕ, List, [], length};
ghost use Rattle.ubik_types.specs.Image.{effect};
ghost use Rattle.ubik_types.specs.Logged.{passed_limit, too_large};
ghost use Rattle.db_image.specs.Blocks.{changes_between, LeadSome};

use ubik_types::{Change, Changes, MAX_CHANGES, MAX_IMAGE};

/// What a put that ends at a position makes too large: the bytes that were put, or else the image.
fn passed_limit(sum: u64, end: u64) -> Option<u64>
    ensures { result ≡ passed_limit sum end }
{
    if sum > MAX_CHANGES as u64 {
        Some(sum)
    } else if end > MAX_IMAGE as u64 {
        Some(end)
    } else {
        None
    }
}

/// The number of bytes with which the first put of the changes passes a limit, over an image of `len` bytes: the bytes that were
/// put by it and before it, zero bytes of gaps too, or else the length of the image after it.
pub fn too_large(len: usize, changes: &Changes) -> Option<u64>
    requires { len ≤ MAX_IMAGE }
    ensures { result ≡ too_large 0 len changes.now }
{
    let mut sum = 0u64;
    let mut end = len as u64;
    for change in changes.as_slice() {
        match change {
            Change::Put { at, bytes } => {
                let at = u64::from(*at);
                sum += at.saturating_sub(end);
                end = end.max(at);
                if let Some(passed) = passed_limit(sum, end) {
                    return Some(passed);
                }
                let put = bytes.as_slice().len() as u64;
                sum += put;
                end = end.max(at + put);
                if let Some(passed) = passed_limit(sum, end) {
                    return Some(passed);
                }
            }
            Change::Cut { len } => end = end.min(u64::from(*len)),
        }
    }
    None
}

/// The changes from an image to another that is no shorter lead from the one to the other, so images without changes are equal.
/// Over each image of the old length they lead to one of the new length.
pub fn law_changes_lead()
    ensures leads { (head block : ℕ) (old new : List ℕ) → block ≢ 0 → length old ≤ length new
        → effect old (changes_between head block old new) ≡ new }
    ensures none { (head block : ℕ) (old new : List ℕ) → block ≢ 0 → length old ≤ length new
        → changes_between head block old new ≡ [] → old ≡ new }
    ensures len { (head block size len : ℕ) (changes : List Change) → block ≢ 0 → LeadSome head block size len changes
        → (image : List ℕ) → length image ≡ size → length (effect image changes) ≡ len }
{}
