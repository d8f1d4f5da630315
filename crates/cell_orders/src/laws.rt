//! Laws of the order in cells of 1 to 20 servers, over every run: each is the clause of a public call.
ghost use Rattle.cell_orders.specs.Laws.{
  AcknowledgedStay,
  AnnouncementsGrow,
  MajoritiesKeep,
  RepliesAnswerAsks,
  RepliesAreGiven,
  RepliesAreSingle,
  RepliesGrow,
  RepliesHaveAcknowledged,
  SitesServeTheOrder,
  WritesAreMade,
};

use lease_model::law_rules_are_safe;
use ubik_votes::lease_rests_on_greatest_start;

/// In each cell, whatever happens, the list of each announcement is a front of the list of each later one: announced transactions have
/// one order, which only grows.
pub fn law_announcements_grow()
    ensures { AnnouncementsGrow }
{
    law_rules_are_safe();
    lease_rests_on_greatest_start();
}

/// In each cell, whatever happens, each transaction that was answered Ok after its commit stays acknowledged, and is in every later order
/// at the place that its commit gave it.
pub fn law_acknowledged_stay()
    ensures { AcknowledgedStay }
{
    law_rules_are_safe();
    lease_rests_on_greatest_start();
}

/// In each cell, whatever happens, each server of some majority has gone on from the last announced version: it has that one or one above
/// it on its disk, be it up, halted or down.
pub fn law_majorities_keep()
    ensures { MajoritiesKeep }
{
    law_rules_are_safe();
    lease_rests_on_greatest_start();
}

/// In each cell, whatever happens, each ready sync site serves the version that was announced last, and its database, where no call makes
/// an image shorter, is that of the single copy after the order. While a write is in flight, its database is the one before that.
pub fn law_sites_serve_the_order()
    ensures { SitesServeTheOrder }
{
    law_rules_are_safe();
    lease_rests_on_greatest_start();
}

/// In each cell, whatever happens, each Ok and each Rule is a reply of the database to a call that was asked there under its id, and each
/// such reply is that of the single copy after a list of transactions, where no call makes an image shorter: at the sync site after the
/// order of that moment, with all that was acknowledged before; at another server after a front of it, the list of the version that its
/// kept ready beacon names. The order of that moment is a front of each later one, and the transaction of a commit that is answered Ok is
/// its next one; any other Ok to a call that writes changes nothing.
pub fn law_replies()
    ensures single { RepliesAreSingle }
    ensures given { RepliesAreGiven }
    ensures asked { RepliesAnswerAsks }
    ensures acknowledged { RepliesHaveAcknowledged }
{
    law_rules_are_safe();
    lease_rests_on_greatest_start();
}

/// In each cell, whatever happens, openings included, the lists from which one server gives Ok or Rule grow as prefixes.
pub fn law_prefixes_stay()
    ensures { RepliesGrow }
{
    law_rules_are_safe();
    lease_rests_on_greatest_start();
}

/// In each cell, whatever happens, a write in flight was evaluated on the image of the announced version, and made the own version of its
/// server; and a write that a server keeps of another one is one on its own version.
pub fn law_writes_are_made()
    ensures { WritesAreMade }
{
    law_rules_are_safe();
    lease_rests_on_greatest_start();
}
