//! Runs that are written out: each is the clause of a call that does nothing.
ghost use Rattle.cell_examples.specs.Changed.{HalfIsTooFew, VersionsMustAgree};
ghost use Rattle.cell_examples.specs.Late.{LateCommitIsUndone, PollsOfOneSecond};
ghost use Rattle.cell_examples.specs.Running.{CheatsDoNotFit, ServersRun, ToldServersRun};
ghost use Rattle.cell_examples.specs.Unknown.{UnknownIsLeftOut, UnknownIsOrdered};

/// A write is answered Unknown, and a later order has it.
pub fn unknown_is_ordered()
    ensures { UnknownIsOrdered }
{}

/// A write is answered Unknown, and a later order has another one in its place.
pub fn unknown_is_left_out()
    ensures { UnknownIsLeftOut }
{}

/// A late commit of an old sync site changes its receiver and no order.
pub fn late_commit_is_undone()
    ensures { LateCommitIsUndone }
{}

/// Two polls of one second have one number, and an answer to the first counts for the second.
pub fn polls_of_one_second()
    ensures { PollsOfOneSecond }
{}

/// Where a poll goes on with the answers of half the cell, a write is lost that was acknowledged.
pub fn half_is_too_few()
    ensures { HalfIsTooFew }
{}

/// Where a fresh ready beacon allows reads whichever version it names, a later reply is older than an earlier one.
pub fn versions_must_agree()
    ensures { VersionsMustAgree }
{}

/// A server that runs, is halted and is opened again has a schedule that fits.
pub fn servers_run()
    ensures { ServersRun }
{}

/// A schedule fits in whose items something is told that may have come: of an image that stands for a state what the database has, of
/// another one what it pleases.
pub fn told_servers_run()
    ensures { ToldServersRun }
{}

/// A schedule does not fit that has a packet which nobody sent, a disk with another image, another moment than the clock's, an id twice,
/// memory that ran out for no reply, an evaluation that could not have come, or a halted server that goes on.
pub fn cheats_do_not_fit()
    ensures { CheatsDoNotFit }
{}
