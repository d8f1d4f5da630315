//! The promises of running servers at each database: the clause of a call that does nothing of its own.
ghost use Rattle.pt_database.specs.Service.{protection_standing};
ghost use Rattle.vl_database.specs.Service.{vl_standing};
ghost use Rattle.database_promises.specs.Promises.{ServersKeepPromises};

use pt_database::PtService;
use server_promises::law_running_servers_keep_promises;
use vl_database::VlService;

/// In each cell of servers of the protection database, each schedule of their journals that fits keeps its promises.
pub fn law_protection_servers_keep_promises()
    ensures { ServersKeepPromises protection_standing }
{
    law_running_servers_keep_promises::<PtService>();
}

/// So does each of servers of the location database.
pub fn law_location_servers_keep_promises()
    ensures { ServersKeepPromises vl_standing }
{
    law_running_servers_keep_promises::<VlService>();
}
