//! Laws of the world: each is the clause of a call that does nothing.
ghost use Rattle.cell_model.specs.Causes.{RepliesHaveCauses};
ghost use Rattle.cell_model.specs.KeptLaws.{
  AcknowledgedStay,
  GivenAreSingle,
  OksAreAcknowledged,
  RepliesAreSingle,
  SitesAreSingle,
};
ghost use Rattle.cell_model.specs.Laws.{AnnouncementsGrow, DatabaseIsDurable};
ghost use Rattle.cell_model.specs.Voters.{VotersVote};

/// In each cell, whatever happens, the durable state of each server that is up, and not halted, is its version and its
/// image: none serves a database that is not durable.
pub fn law_database_is_durable()
    ensures { DatabaseIsDurable }
{}

/// In a cell of one server, whatever happens, the list of each announcement is a front of the list of each later one:
/// announced transactions have one order, which only grows.
pub fn law_announcements_grow()
    ensures { AnnouncementsGrow }
{}

/// In a cell of one server, whatever happens, a transaction that was acknowledged stays in the order, where its commit put
/// it: none is lost, and none moves.
pub fn law_acknowledged_stay()
    ensures { AcknowledgedStay }
{}

/// In a cell of one server, after each run, each Ok to a call that writes stands for a transaction that is acknowledged in that
/// event, or for one that makes no change to the single copy. So `law_acknowledged_stay` leaves out no write.
pub fn law_ok_is_acknowledged()
    ensures { OksAreAcknowledged }
{}

/// In a cell of one server, whatever happens, the database of each ready sync site is the image that the single copy has
/// after the order: the committed transactions, and nothing else.
pub fn law_sites_are_single()
    ensures { SitesAreSingle }
{}

/// In a cell of one server, whatever happens, each reply Ok, Rule or BadRecord is to a call that is asked in that event, and
/// is what the single copy replies to it after the order before the event, at the clock of the server. The evaluation
/// behind an Ok or a Rule names the version whose list that order is, and the transaction of a commit is its next one.
/// So each reply that a database gave in a run stays that of the single copy, after a front of the order.
pub fn law_replies_are_single()
    ensures seen { RepliesAreSingle }
    ensures given { GivenAreSingle }
{}

/// In each world of each cell a reply Malformed comes only to a call that is asked in that step, or waited before it, and that
/// is no call, or one to which the database replies so; and a reply NoMemory only where the event says that its call
/// found no memory.
pub fn law_replies_have_causes()
    ensures { RepliesHaveCauses }
{}

/// A server that takes part in votes, and in a cell of one alone in recovery and writes, stays one in each event that it takes. It
/// sends packets of votes from host to host of the cell alone, in a larger cell it makes no durable call, and each Ok answers the
/// call that is asked in that event. A server that was just opened is one.
pub fn law_voters_vote()
    ensures { VotersVote }
{}
