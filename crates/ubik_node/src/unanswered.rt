//! Calls that a server has taken and not replied to.
ghost use Rattle.std.specs.Prelude.{ℕ, List, [], ◌∷◌, ◌++◌};
ghost use Rattle.site_writes.specs.Site.{flight_in};
ghost use Rattle.ubik_node.specs.Unanswered.{IsLeastOf, ids_of, unanswered};

use crate::nodes::Node;
use db_image::DraftService;
use disk_base::Disk;
use site_writes::SiteWrites;

impl<D: Disk, V: DraftService> Node<D, V> {
    ghost use Rattle.ubik_node.specs.Node.{node_of};

    /// The least id of a call that was taken since the opening and is not replied to yet: that of the write in flight, or of a call that
    /// waits for it. None where there is none, and of a halted server, which replies to none of them.
    pub fn unanswered(&self) -> Option<u32>
        ensures { IsLeastOf result (unanswered (node_of self.now)) }
    {
        match &self.state.writes {
            Some(writes) if !self.store.failed() => least_id(writes),
            _ => None,
        }
    }
}

/// The least id among the write in flight and the calls that wait.
fn least_id(writes: &SiteWrites) -> Option<u32>
    ensures { IsLeastOf result (ids_of (flight_in writes.now) writes.now.waiting) }
{
    let mut least = flight_id(writes);
    for place in 0..writes.waiting() {
        if let Some(id) = writes.waits_at(place) {
            least = lesser(least, id);
        }
    }
    least
}

/// The id of the write in flight.
fn flight_id(writes: &SiteWrites) -> Option<u32>
    ensures { IsLeastOf result (ids_of (flight_in writes.now) []) }
{
    match writes.in_flight() {
        Some(write) => Some(write.id()),
        None => None,
    }
}

/// The least of some ids and one more, given the least of them.
fn lesser(least: Option<u32>, id: u32) -> Option<u32>
    ensures { (ids : List ℕ) → IsLeastOf least ids → IsLeastOf result (ids ++ id ∷ []) }
{
    match least {
        Some(least) if least <= id => Some(least),
        _ => Some(id),
    }
}
