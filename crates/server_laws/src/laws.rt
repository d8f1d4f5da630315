//! Laws of schedules: each is the clause of a call that does nothing.
ghost use Rattle.server_laws.specs.Laws.{AnyMakeAWorld, ServersMakeAWorld};

use db_image::DraftService;
use flight_laws::law_writes_stand;
use recovery_laws::law_images_stand;

/// In each cell, each fitting schedule is a run of the world, and after each of its entries each server that is not down is the replay of
/// its items since it was last opened, or since the first world, and what was seen of it since is what the replay puts out. What was evaluated
/// in the items may be whatever may have come: at each server of a run the step is then that of the world. The servers' own part of what
/// fits is that each keeps a journal of such items, in which no id is asked twice. It is asked of the database that it is one over drafts,
/// whose blocks have a length (`service`); or that no image is without a state, and then it may be any (`any`).
pub fn law_servers_make_a_world<S: DraftService>()
    ensures service { ServersMakeAWorld S.standing }
    ensures any { AnyMakeAWorld }
{
    law_images_stand::<S>();
    law_writes_stand::<S>();
}
