//! Several hosts in one word.
ghost use Rattle.std.specs.Prelude.{◌≡◌, IfOk, IfSome, is_some};
ghost use Rattle.std.specs.List.{list_all};
ghost use Rattle.host_words.specs.Hosts.{is_address, named_hosts, parts_of};

use crate::addresses::address;
use std::alloc::Global;
use ubik_types::{Host, NoMemory};

/// The hosts of the parts of a text between its commas, in their order; none where a part is no dotted address. A text
/// always has a part.
pub fn listed_hosts(alloc: Global, text: &[u8]) -> Result<Option<Vec<Host>>, NoMemory>
    ensures addresses { IfOk result (λ found. is_some found ≡ list_all is_address (parts_of text.now)) }
    ensures hosts { IfOk result (λ found. IfSome found (λ hosts. hosts.items ≡ named_hosts text.now)) }
{
    let mut hosts = Vec::new(alloc);
    for part in text.split(|byte| *byte == b',') {
        let Some(number) = address(part) else {
            return Ok(None);
        };
        hosts.push(Host(number))?;
    }
    Ok(Some(hosts))
}
