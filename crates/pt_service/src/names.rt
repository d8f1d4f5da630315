//! Names of users and groups.
ghost use Rattle.std.specs.Prelude.{◌≡◌, ◌==◌, IfOk};
ghost use Rattle.std.specs.List.{list_all, position, position_or_len};
ghost use Rattle.std.specs.Str.{bytes_eq};
ghost use Rattle.prdb_layout.specs.Names.{is_name_byte, lowered};
ghost use Rattle.prdb_layout.specs.Registry.{is_group_name, is_text};
ghost use Rattle.prdb_layout.specs.State.{front_of};
ghost use Rattle.pt_service.specs.Names.{has_colon, is_name_of, system};

use prdb_layout::is_user_name;
use std::alloc::Global;
use ubik_types::NoMemory;

/// The most bytes of a name.
pub const MAX_NAME: usize = 63;

/// What stands before the `:` in the names of the system's groups, and is no entry's name itself.
const SYSTEM: &[u8] = b"system";

/// A name as it is stored and looked up: ASCII capitals are lowered.
pub fn lowered(alloc: Global, name: &[u8]) -> Result<Vec<u8>, NoMemory>
    ensures { IfOk result (λ v. v.items ≡ lowered name.now) }
{
    Ok(name.to_ascii_lowercase(alloc)?)
}

fn is_name_byte(byte: u8) -> bool
    ensures { result ≡ is_name_byte byte }
{
    (0x21..=0x7e).contains(&byte) && byte != b':' && byte != b'@'
}

fn has_name_bytes(text: &[u8]) -> bool
    ensures { result ≡ list_all is_name_byte text.now }
{
    text.iter().all(|b| is_name_byte(*b))
}

/// Whether a text has one byte or more of a name, and nothing else.
fn is_text(text: &[u8]) -> bool
    ensures { result ≡ is_text text.now }
{
    !text.is_empty() && has_name_bytes(text)
}

/// Where the first `:` of a name stands.
fn colon(name: &[u8]) -> Option<usize>
    ensures { result ≡ position (λ b. b == 58) name.now }
{
    name.iter().position(|b| *b == b':')
}

pub fn has_colon(name: &[u8]) -> bool
    ensures { result ≡ has_colon name.now }
{
    name.iter().any(|b| *b == b':')
}

/// How many bytes stand before the first `:` of a name; all of them where it has none.
fn front_len(name: &[u8]) -> usize
    ensures { result ≡ position_or_len (λ b. b == 58) name.now }
{
    colon(name).unwrap_or(name.len())
}

/// What stands before the first `:` of a name; all of it where it has none.
pub fn front_of(name: &[u8]) -> &[u8]
    ensures { result.now ≡ front_of name.now }
{
    &name[..front_len(name)]
}

pub(crate) fn is_system(text: &[u8]) -> bool
    ensures { result ≡ bytes_eq text.now system }
{
    text == SYSTEM
}

/// Whether a name in lower case has the form of a group's name: a text, or two that a `:` joins.
#[tactic(auto, unfolding(prdb_layout::specs::Registry::is_group_name))]
fn is_group_name(name: &[u8]) -> bool
    ensures { result ≡ is_group_name name.now }
{
    if name.len() > MAX_NAME {
        return false;
    }
    match colon(name) {
        Some(at) => is_text(&name[..at]) && is_text(&name[at + 1..]),
        None => is_text(name) && !is_system(name),
    }
}

/// Whether a name in lower case has the form of a group's name, or of a user's.
pub fn is_name_of(group: bool, name: &[u8]) -> bool
    ensures { result ≡ is_name_of group name.now }
{
    if group {
        is_group_name(name)
    } else {
        is_user_name(name)
    }
}
