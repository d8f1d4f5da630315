//! Laws of versions in cells of 1 to 20 servers, over every run: each is the clause of a public call.
ghost use Rattle.cell_pages.specs.Images.{ShorterImagesDiffer};
ghost use Rattle.cell_pages.specs.Laws.{ListsStay, VersionsAreMadeOnce};
ghost use Rattle.cell_pages.specs.OneLabel.{OneLabel};
ghost use Rattle.cell_pages.specs.Pages.{AllRise, LeadersAreAhead, ListsGoOn, VersionsNeverFall};

use lease_model::law_rules_are_safe;

/// In each cell, whatever happens, no version is made twice, and none is the first one.
pub fn law_versions_are_made_once()
    ensures { VersionsAreMadeOnce }
{
    law_rules_are_safe();
}

/// In each cell, whatever happens, each version in the book is above all before it: epochs rise, and so do the counters of one epoch.
pub fn law_versions_rise()
    ensures { AllRise }
{
    law_rules_are_safe();
}

/// In each cell, whatever happens, a server that is in lease and sends its database has a version that none in the book is above.
pub fn law_leaders_are_ahead()
    ensures { LeadersAreAhead }
{
    law_rules_are_safe();
}

/// In each cell the durable version of a server never falls, whatever happens to it: neither a packet of the past nor a restart takes it
/// back.
pub fn law_versions_never_fall()
    ensures { VersionsNeverFall }
{
    law_rules_are_safe();
}

/// In each cell a version that has a list of transactions keeps it, whatever happens later.
pub fn law_lists_stay()
    ensures { ListsStay }
{
    law_rules_are_safe();
}

/// In each cell, whatever happens, each version in the book goes on from one before it: a relabelling begins a later epoch and has
/// the same list, a commit is the next counter and has that list and then its transaction.
pub fn law_lists_go_on()
    ensures { ListsGoOn }
{
    law_rules_are_safe();
}

/// In each cell, whatever happens, one version is one list of transactions: the version of each durable state has one, and so has that of
/// each piece of an image that was ever sent. Over a database that makes no image shorter it is one image too: that of the single copy
/// after the list.
pub fn law_one_label()
    ensures { OneLabel }
{
    law_rules_are_safe();
}

/// A call that makes an image shorter has changes that do not lead to it: so `law_one_label` asks of a database that none does.
pub fn law_shorter_images_differ()
    ensures { ShorterImagesDiffer }
{}
