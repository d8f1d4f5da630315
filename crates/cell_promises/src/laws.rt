//! Laws of scripts of cells of 1 to 20 servers: each is the clause of a call that does nothing.
ghost use Rattle.cell_promises.specs.Promises.{CellsKeepPromises, ScriptsHaveOrder};

use cell_orders::{
    law_acknowledged_stay, law_announcements_grow, law_prefixes_stay, law_replies,
    law_sites_serve_the_order,
};
use script_laws::law_scripts_are_runs;
use script_promises::{law_location_is_lawful, law_protection_is_lawful, law_words_are_calls};

/// Whatever the lines of a script, whatever the disks do, and over whatever databases no call of which makes an image shorter: in a cell
/// of 1 to 20 servers transactions have one order, which only grows; what was acknowledged stays in it, at its place; the database
/// of each ready sync site is that of the single copy; and each reply of the database is the single copy's after a front of the order, at
/// the sync site after the order of that moment, with all that was acknowledged before.
pub fn law_scripts_have_order()
    ensures { ScriptsHaveOrder }
{
    law_announcements_grow();
    law_acknowledged_stay();
    law_sites_serve_the_order();
    law_replies();
    law_prefixes_stay();
    law_scripts_are_runs();
}

/// So it is of scripts over the protection and the location database; and there each ready sync site's database stands for the state of
/// the order, and each reply is what its call means for the state of the list after which it is the single copy's.
pub fn law_cells_keep_promises()
    ensures { CellsKeepPromises }
{
    law_scripts_have_order();
    law_words_are_calls();
    law_protection_is_lawful();
    law_location_is_lawful();
}
