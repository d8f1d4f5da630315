//! Who may see and change the entry of a user or group.
ghost use Rattle.std.specs.Prelude.{◌≡◌};
ghost use Rattle.afs_commands.specs.Accesses.{access_of, are_changes, are_sights};

/// Who sees an entry, what it owns and its members, who adds members and who removes them: a letter each.
#[derive(Clone, Copy, Debug, PartialEq, Eq)]
pub struct Access {
    pub status: u8,
    pub owned: u8,
    pub membership: u8,
    pub add: u8,
    pub remove: u8,
}

impl Access {
    /// The access that five letters write, in the order of the fields.
    pub fn read(word: &[u8]) -> Option<Access>
        ensures { result ≡ access_of word.now }
    {
        match word {
            [status, owned, membership, add, remove]
                if are_sights(*status, *owned, *membership) && are_changes(*add, *remove) => {
                Some(Access {
                    status: *status,
                    owned: *owned,
                    membership: *membership,
                    add: *add,
                    remove: *remove,
                })
            }
            _ => None,
        }
    }
}

/// The letters that say who sees an entry, what it owns, and its members.
fn are_sights(status: u8, owned: u8, membership: u8) -> bool
    ensures { result ≡ are_sights status owned membership }
{
    b"sS".contains(&status) && b"-O".contains(&owned) && b"-mM".contains(&membership)
}

/// The letters that say who adds members and who removes them.
fn are_changes(add: u8, remove: u8) -> bool
    ensures { result ≡ are_changes add remove }
{
    b"-aA".contains(&add) && b"-r".contains(&remove)
}
