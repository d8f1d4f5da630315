//! Laws of recovery: each is the clause of a call that does nothing.
ghost use Rattle.std.specs.Prelude.{◌≢◌};
ghost use Rattle.recovery_laws.specs.Memory.{MemoryIsTold};
ghost use Rattle.recovery_laws.specs.Spreads.{RecoverySpreads};
ghost use Rattle.recovery_laws.specs.Stands.{ImagesStand, IsService};

use cell_pages::law_one_label;
use db_image::DraftService;
use ubik_calls::packets_are_as_long_as_said;

/// A server of a cell of any size that has no write in flight stays one in each event that it takes: in votes and recovery, and, in a cell
/// of one alone, in calls that write. It sends packets of votes and recovery alone, from host to host of the cell, and each of them has a
/// spelling; it makes at most two durable calls in a step, which lead to versions, fit an image and take no changes from another server;
/// and each Ok answers the call that is asked in that event. A server that was just opened is one.
pub fn law_recovery_spreads()
    ensures { RecoverySpreads }
{
    packets_are_as_long_as_said();
}

/// At a server that has no write in flight, and at which no call waits, a step is the one for which all memory was found; or it kept the
/// database, and told that memory was not found, and nothing else. So it is whatever the event.
pub fn law_memory_is_told()
    ensures { MemoryIsTold }
{}

/// In each cell, whatever happens, the image of each durable state stands for a state of the database, and so does that of each server that
/// is up, and of each piece of an image that was ever sent; and the image that is left where a server stops, or its disk fails, after the first
/// durable calls of a step (`stand`). It is asked of the database that it is one over drafts, whose blocks have a length: then it has
/// all that is asked (`service`).
pub fn law_images_stand<S: DraftService>()
    ensures service { S.standing.database.block ≢ 0 → IsService S.standing }
    ensures stand { ImagesStand S.standing }
{
    law_one_label();
}
