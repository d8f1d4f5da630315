//! The label in front of a database file.
ghost use Rattle.std.specs.Prelude.{IfSome, IsSome, ◌≡◌, ◌≤◌, ◌+◌, length, take, drop};
ghost use Rattle.std.specs.Int.{w32, from_be_bytes};
ghost use Rattle.page_file.specs.Label.{label, version_of_label, version_by};

use ubik_types::{MAX_COUNTER, MAX_IMAGE, Version, WORD_LEN, first_word};

/// The length of the label, in bytes.
pub const LABEL_LEN: usize = 64;

/// The length of the longest database file, in bytes: a label and the longest image.
pub const MAX_DATABASE_LEN: u64 = (LABEL_LEN + MAX_IMAGE) as u64;

/// The places of epoch and counter in a label.
const EPOCH_AT: usize = 8;

const COUNTER_AT: usize = 12;

/// The label of a version.
pub fn label_bytes(version: Version) -> [u8; LABEL_LEN]
    ensures { result ≡ label version }
{
    let [a, b, c, d] = version.epoch.to_be_bytes();
    let [e, f, g, h] = version.counter.to_be_bytes();
    [
        0, 0x35, 0x45, 0x45, 0, 0, 0, 64, a, b, c, d, e, f, g, h, //
        0, 0, 0, 0, 0, 0, 0, 0, 0, 0, 0, 0, 0, 0, 0, 0, //
        0, 0, 0, 0, 0, 0, 0, 0, 0, 0, 0, 0, 0, 0, 0, 0, //
        0, 0, 0, 0, 0, 0, 0, 0, 0, 0, 0, 0, 0, 0, 0, 0,
    ]
}

/// The word at a position.
fn word_at(bytes: &[u8], at: usize) -> u32
    requires { at + WORD_LEN ≤ length bytes.now }
    ensures { result ≡ from_be_bytes w32 (take WORD_LEN (drop at bytes.now)) }
{
    match first_word(&bytes[at..]) {
        Some((word, _)) => word,
        None => unreachable!(),
    }
}

/// The version whose label this is.
pub fn read_label(bytes: &[u8; LABEL_LEN]) -> Option<Version>
    ensures label { result ≡ version_of_label bytes.now }
    ensures fits { IfSome result (λ v. (v.epoch ≤ MAX_COUNTER) × (v.counter ≤ MAX_COUNTER)) }
{
    let version = Version {
        epoch: word_at(bytes, EPOCH_AT),
        counter: word_at(bytes, COUNTER_AT),
    };
    if version.epoch > MAX_COUNTER {
        return None;
    }
    if version.counter > MAX_COUNTER {
        return None;
    }
    (*bytes == label_bytes(version)).then_some(version)
}

/// The version in the head of a file of some length; none where the file is too short or too long, or its
/// head is no label.
pub fn version_of_file(len: u64, head: &[u8; LABEL_LEN]) -> Option<Version>
    ensures version { result ≡ version_by len head.now }
    ensures labelled { IsSome result → LABEL_LEN ≤ len }
    ensures fits { IsSome result → len ≤ MAX_DATABASE_LEN }
    ensures numbers { IfSome result (λ v. (v.epoch ≤ MAX_COUNTER) × (v.counter ≤ MAX_COUNTER)) }
{
    if len < LABEL_LEN as u64 {
        return None;
    }
    if len > MAX_DATABASE_LEN {
        return None;
    }
    read_label(head)
}
