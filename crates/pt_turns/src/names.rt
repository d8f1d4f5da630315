//! Names, and those that follow another one.
ghost use Rattle.std.specs.Prelude.{◌≡◌, ◌&&◌, length};
ghost use Rattle.prdb_layout.specs.State.{front_of};
ghost use Rattle.pt_service.specs.Names.{with_front};
ghost use Rattle.pt_turns.specs.Under.{is_under};

use prdb_turns::behind_colon;
use pt_service::{front_of, has_colon};

/// Whether a name begins with the whole of another one and a `:`.
pub(crate) fn is_under(name: &[u8], whole: &[u8]) -> bool
    ensures { result ≡ is_under whole.now name.now }
{
    has_colon(name) && front_of(name) == whole
}

/// The length of a name once it has other text before its `:`.
pub(crate) fn len_with_front(front: &[u8], name: &[u8]) -> usize
    ensures { result ≡ length (with_front front.now name.now) }
{
    front.len() + 1 + behind_colon(name).len()
}
