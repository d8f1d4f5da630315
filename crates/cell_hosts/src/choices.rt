//! Which hosts are asked, of those that may be given.
ghost use Rattle.std.specs.Prelude.{◌≡◌, IfOk, option_map, string_bytes};
ghost use Rattle.cell_hosts.specs.Choices.{chosen_hosts};

use crate::files::hosts_in;
use std::alloc::Global;
use ubik_types::NoMemory;

/// The word of the environment that gives hosts.
pub const HOSTS_VARIABLE: &str = "CAVYGOLD_HOSTS";

/// The file that gives the hosts of the cell of a machine.
pub const HOSTS_FILE: &str = "/etc/cavygold/cell";

/// The hosts of the words where they give some; else those of the environment, where its word is not empty; else those
/// of the text of [`HOSTS_FILE`], as [`hosts_in`] reads it.
pub fn chosen_hosts(
    alloc: Global,
    given: Option<String>,
    variable: Option<String>,
    file: &[u8],
) -> Result<Option<String>, NoMemory>
    ensures { IfOk result (λ hosts. option_map string_bytes hosts
        ≡ chosen_hosts (option_map string_bytes given) (option_map string_bytes variable) file.now) }
{
    if let Some(hosts) = given {
        return Ok(Some(hosts));
    }
    match variable {
        Some(hosts) if !hosts.is_empty() => Ok(Some(hosts)),
        _ => hosts_in(alloc, file),
    }
}
