//! The entries that are always there.
ghost use Rattle.std.specs.Prelude.{◌≡◌, ◌||◌, negsuc};
ghost use Rattle.std.specs.Ordering.{int_eq};
ghost use Rattle.pt_service.specs.Turning.{is_fixed};

/// The id of `system:anyuser`, in which each user is.
const ANY_USER: i32 = -101;

/// The id of `system:authuser`, in which each user is but `anonymous`.
const SIGNED_IN: i32 = -102;

/// The id of `system:ptsviewers`.
const VIEWERS: i32 = -203;

/// The id of `system:administrators`.
const ADMINISTRATORS: i32 = -204;

/// The id of `system:backup`.
const BACKUP: i32 = -205;

/// The id of `anonymous`, a user.
const ANONYMOUS: i32 = 32766;

/// Whether a group has no pairs, as users are in it without them.
pub(crate) fn has_users_without_pairs(group: i32) -> bool
    ensures { result ≡ (int_eq group (negsuc 100) || int_eq group (negsuc 101)) }
{
    group == ANY_USER || group == SIGNED_IN
}

/// Whether an id is that of a fixed entry.
#[tactic(auto, unfolding(prdb_layout::specs::State::fixed_entries))]
pub fn is_fixed(id: i32) -> bool
    ensures { result ≡ is_fixed id }
{
    id == ANY_USER
        || id == SIGNED_IN
        || id == VIEWERS
        || id == ADMINISTRATORS
        || id == BACKUP
        || id == ANONYMOUS
}
