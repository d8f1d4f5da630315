//! That the calls of a site's writes are the steps of the rules.
ghost use Rattle.site_writes.specs.Rules.{OfEachSite, IsFreeWithout, WriteIsInFlight, WriteIsOver, CallWaits, FirstHasItsTurn, AllAreDropped};

/// The writes of a site are the write in flight and the line of its server, and each call that changes the ones makes of the
/// server with the others what the rule does.
pub fn law_calls_are_steps()
    ensures is_free { OfEachSite IsFreeWithout }
    ensures begin { OfEachSite WriteIsInFlight }
    ensures end { OfEachSite WriteIsOver }
    ensures wait { OfEachSite CallWaits }
    ensures next { OfEachSite FirstHasItsTurn }
    ensures emptied { OfEachSite AllAreDropped }
{}
