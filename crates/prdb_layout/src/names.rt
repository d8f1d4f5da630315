//! Names of users.
ghost use Rattle.std.specs.Prelude.{◌≡◌};
ghost use Rattle.std.specs.List.{list_all};
ghost use Rattle.prdb_layout.specs.Names.{is_user_name, is_name_byte};

/// The name that stands for all entries of the system, and is no entry's.
const SYSTEM: &[u8] = b"system";

fn is_name_byte(byte: u8) -> bool
    ensures { result ≡ is_name_byte byte }
{
    (0x21..=0x7e).contains(&byte) && byte != b':' && byte != b'@'
}

fn has_name_bytes(name: &[u8]) -> bool
    ensures { result ≡ list_all is_name_byte name.now }
{
    name.iter().all(|b| is_name_byte(*b))
}

/// Whether a name in lower case has the form of a user's name.
#[tactic(auto, unfolding(crate::specs::Names::is_user_name))]
pub fn is_user_name(name: &[u8]) -> bool
    ensures { result ≡ is_user_name name.now }
{
    !name.is_empty() && name.len() <= 63 && has_name_bytes(name) && name != SYSTEM
}
