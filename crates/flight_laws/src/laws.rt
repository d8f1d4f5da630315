//! Laws of writes on their way: each is the clause of a call that does nothing.
ghost use Rattle.flight_laws.specs.Flights.{WritesStand};

use cell_orders::law_writes_are_made;
use db_image::DraftService;

/// In each cell, after each run: the image before the write in flight of a server stands for a state of the database, and so does that of a
/// server that has none. In each step of a server, whatever the event, the changes that it takes from another server are puts alone. It is
/// asked of the database that it is one over drafts, whose blocks have a length.
pub fn law_writes_stand<S: DraftService>()
    ensures { WritesStand S.standing }
{
    law_writes_are_made();
}
