//! The flags of an entry and the letters of its access (ptserver): five places of four bits.
ghost use Rattle.std.specs.Prelude.{◌≡◌, ◌<◌, ◌≤◌, ◌==◌, length, position, IfSome};
ghost use Rattle.afs_commands.specs.Accesses.{access_word};
ghost use Rattle.pts_tool.specs.Flags.{letter_of, value_of, flags_text, flags_of};

use afs_commands::Access;

/// The letters of each place, by the value of its bits: `-` stands where a value has none.
const STATUS: &[u8] = b"-sS";

const OWNED: &[u8] = b"--O";

const MEMBERSHIP: &[u8] = b"-mM";

const ADD: &[u8] = b"-aA";

const REMOVE: &[u8] = b"-r";

/// Flags in letters: who sees the entry, what it owns, and its members; who adds members, and who removes them.
pub(crate) fn flags_text(flags: u32) -> [u8; 5]
    ensures { result ≡ flags_text flags }
{
    [
        letter_of(STATUS, flags / 65_536 % 16),
        letter_of(OWNED, flags / 4096 % 16),
        letter_of(MEMBERSHIP, flags / 256 % 16),
        letter_of(ADD, flags / 16 % 16),
        letter_of(REMOVE, flags % 16),
    ]
}

/// The flags that the letters of access write.
pub(crate) fn flags_of(access: Access) -> u32
    ensures { result ≡ flags_of (access_word access) }
{
    value_of(STATUS, access.status) * 65_536
        + value_of(OWNED, access.owned) * 4096
        + value_of(MEMBERSHIP, access.membership) * 256
        + value_of(ADD, access.add) * 16
        + value_of(REMOVE, access.remove)
}

/// The letter of a value.
fn letter_of(letters: &[u8], value: u32) -> u8
    ensures { result ≡ letter_of letters.now value }
{
    letters.get(value as usize).copied().unwrap_or(b'-')
}

/// The value of a letter.
fn value_of(letters: &[u8], letter: u8) -> u32
    requires { length letters.now ≤ 3 }
    ensures value { result ≡ value_of letters.now letter }
    ensures bound { result < 16 }
{
    match place_of(letters, letter) {
        Some(value) => value as u32,
        None => 0,
    }
}

/// Where a letter stands first.
fn place_of(letters: &[u8], letter: u8) -> Option<usize>
    ensures place { result ≡ position (λ other. other == letter) letters.now }
    ensures bound { IfSome result (λ place. place < length letters.now) }
{
    letters.iter().position(|other| *other == letter)
}
