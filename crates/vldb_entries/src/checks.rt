//! What an entry is by itself.
ghost use Rattle.std.specs.Prelude.{◌≡◌};
ghost use Rattle.std.specs.List.{list_all};
ghost use Rattle.vldb_entries.specs.Location.{has_equal_ids, is_name, is_name_byte, repeats};

use crate::entries::VlSite;
use crate::layout::NAME_FIELD;

fn is_name_byte(byte: u8) -> bool
    ensures { result ≡ is_name_byte byte }
{
    byte.is_ascii_lowercase()
        || byte.is_ascii_uppercase()
        || byte.is_ascii_digit()
        || byte == b'.'
        || byte == b'-'
        || byte == b'_'
}

fn has_name_bytes(name: &[u8]) -> bool
    ensures { result ≡ list_all is_name_byte name.now }
{
    name.iter().all(|b| is_name_byte(*b))
}

/// Whether an entry may have this name: 1 to 64 letters, digits, `.`, `-` and `_`.
#[tactic(auto, unfolding(crate::specs::Location::is_name))]
pub fn is_name(name: &[u8]) -> bool
    ensures { result ≡ is_name name.now }
{
    !name.is_empty() && name.len() <= NAME_FIELD && has_name_bytes(name)
}

/// Whether two of three ids other than 0 are equal.
pub fn has_equal_ids(rw: u32, ro: u32, backup: u32) -> bool
    ensures { result ≡ has_equal_ids rw ro backup }
{
    (rw != 0 && (rw == ro || rw == backup)) || (ro != 0 && ro == backup)
}

/// Whether two sites are on one partition of one server, and the same volume lies on both.
pub fn repeats(a: &VlSite, b: &VlSite) -> bool
    ensures { result ≡ repeats a.now b.now }
{
    a.host == b.host && a.partition == b.partition && a.flags & b.flags & 14 != 0
}
