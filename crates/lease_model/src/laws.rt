//! Laws of leases: each is the clause of a call that does nothing.
ghost use Rattle.lease_model.specs.Laws.{BothInLease, LeasesExclude, is_half};
ghost use Rattle.lease_model.specs.Rules.{AreSafe, cell_rules};
ghost use Rattle.std.specs.Prelude.{false};

use ubik_types::vote_quorums_share_a_server;

/// Where a yes is kept for as long as a lease and twice the skew, also through a restart, and two vote quorums share a
/// server, at most one server is in lease after each run.
pub fn law_leases_exclude()
    ensures { LeasesExclude }
{}

/// The rules of a cell are such, with a second to spare: so they are with a yes that is kept for 74 seconds, and with a lease of 61.
pub fn law_rules_are_safe()
    ensures cell { AreSafe cell_rules }
    ensures kept_74 { AreSafe (record cell_rules { keep = 74 }) }
    ensures lease_61 { AreSafe (record cell_rules { lease = 61 }) }
{
    vote_quorums_share_a_server();
}

/// With clocks 8 seconds apart two servers may be in lease at once.
pub fn law_skew_of_8_breaks()
    ensures { BothInLease (record cell_rules { skew = 8 }) }
{}

/// So they may where a yes is kept for 73 seconds.
pub fn law_yes_kept_73_breaks()
    ensures { BothInLease (record cell_rules { keep = 73 }) }
{}

/// So they may with leases of 62 seconds.
pub fn law_lease_of_62_breaks()
    ensures { BothInLease (record cell_rules { lease = 62 }) }
{}

/// So they may where a server that starts may say yes at once.
pub fn law_votes_forgotten_breaks()
    ensures { BothInLease (record cell_rules { start_binds = false }) }
{}

/// So they may where half of the servers suffice, and the lowest server is like any other.
pub fn law_quorum_of_half_breaks()
    ensures { BothInLease (record cell_rules { suffices = is_half }) }
{}
