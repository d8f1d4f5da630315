//! The laws of runs, of schedules: the clause of a call that does nothing of its own.
ghost use Rattle.server_promises.specs.Promises.{AnyServersKeepPromises, RunningServersKeepPromises};

use cell_laws::{law_epochs_rise, law_leases_exclude};
use cell_orders::{
    law_acknowledged_stay, law_announcements_grow, law_prefixes_stay, law_replies,
    law_sites_serve_the_order,
};
use cell_pages::law_one_label;
use db_image::DraftService;
use server_laws::law_servers_make_a_world;

/// In each cell whose servers' journals stand in a schedule that fits: at each place of it at most one server is in lease, and one version
/// is one list of transactions; announced transactions have one order, which only grows; what was acknowledged stays in it, at its place;
/// the database of a ready sync site is that of the single copy after the order; and each Ok and each Rule that the replay of a journal
/// puts out is the single copy's reply to the call that was asked there under its id, after a front of the order, at the sync site after
/// all that was acknowledged before. It is asked of the database that it is one over drafts, whose blocks have a length (`service`); or that
/// no image is without a state, and then it may be any (`any`).
pub fn law_running_servers_keep_promises<S: DraftService>()
    ensures service { RunningServersKeepPromises S.standing }
    ensures any { AnyServersKeepPromises }
{
    law_servers_make_a_world::<S>();
    law_leases_exclude();
    law_epochs_rise();
    law_one_label();
    law_announcements_grow();
    law_acknowledged_stay();
    law_sites_serve_the_order();
    law_replies();
    law_prefixes_stay();
}
