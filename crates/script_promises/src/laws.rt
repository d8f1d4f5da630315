//! Laws of scripts of one server: each is the clause of a call that does nothing.
ghost use Rattle.pt_database.specs.Service.{protection_standing};
ghost use Rattle.vl_database.specs.Service.{vl_standing};
ghost use Rattle.script_laws.specs.Runs.{NamesCalls};
ghost use Rattle.script_promises.specs.Databases.{databases};
ghost use Rattle.script_promises.specs.Lawful.{IsLawful};
ghost use Rattle.script_promises.specs.Promises.{ScriptsKeepPromises};

use cell_model::{
    law_acknowledged_stay, law_announcements_grow, law_ok_is_acknowledged, law_replies_are_single,
    law_sites_are_single,
};
use pt_database::{
    an_image_holds_one_protection_state, protection_calls_are_answered, protection_calls_are_meant,
    protection_words_name_calls,
};
use script_laws::law_scripts_are_runs;
use vl_database::{
    an_image_holds_one_location, location_calls_are_answered, location_calls_are_meant,
    location_words_name_calls,
};

/// The calls of the protection database make of images what they mean.
pub fn law_protection_is_lawful()
    ensures { IsLawful protection_standing }
{
    protection_calls_are_meant();
    protection_calls_are_answered();
    an_image_holds_one_protection_state();
}

/// So do those of the location database.
pub fn law_location_is_lawful()
    ensures { IsLawful vl_standing }
{
    location_calls_are_meant();
    location_calls_are_answered();
    an_image_holds_one_location();
}

/// What the words of a script name is a call of its database. So `law_scripts_are_runs` speaks of scripts over these databases.
pub fn law_words_are_calls()
    ensures { NamesCalls databases }
{
    protection_words_name_calls();
    location_words_name_calls();
}

/// Whatever the lines of a script, and whatever the disks do, wherever the server stops, crashes and is opened again: in a cell of
/// one server, of either database, committed transactions have one order, which only grows; what was acknowledged stays in it, at its
/// place; the database of the server, once it is ready, is that of the single copy; and, where memory is found, each reply of the
/// database is the single copy's to the call that was asked. Nothing is seen that such a cell cannot show: no packet, and no reply for
/// want of memory, of another server, or of a bad call or database.
pub fn law_scripts_keep_promises()
    ensures { ScriptsKeepPromises }
{
    law_protection_is_lawful();
    law_location_is_lawful();
    law_words_are_calls();
    law_announcements_grow();
    law_acknowledged_stay();
    law_ok_is_acknowledged();
    law_sites_are_single();
    law_replies_are_single();
    law_scripts_are_runs();
}
