//! The hosts that a word names.
ghost use Rattle.std.specs.Prelude.{◌≡◌, IfOk, Err, Some, None};
ghost use Rattle.afs_client.specs.Hosts.{are_distinct, are_some_hosts, hosts_of};

use host_words::listed_hosts;
use std::alloc::Global;
use std::marker::Model;
use ubik_types::{Host, MAXSERVERS, NoMemory};

/// The servers that a client asks, 1 to 20 distinct hosts, in the order in which they were named. Contracts see
/// the list of them.
#[derive(Drop)]
pub struct Hosts {
    list: Vec<Host>,
}

impl Model for Hosts {
    ghost use Rattle.std.specs.Prelude.{List};
    ghost use Rattle.ubik_types.specs.declared.hosts.Host.{Host};

    ghost Value = { List Host };

    ghost view = { λ h. h.list.items };
}

/// Why a word names no hosts.
#[derive(Clone, Copy, Debug, PartialEq, Eq)]
pub enum HostsFault {
    /// A part between commas is no dotted address, a host stands twice, or there are more than 20.
    Malformed,
    NoMemory,
}

impl From<NoMemory> for HostsFault {
    ghost use Rattle.std.specs.Prelude.{◌≡◌};
    ghost use Rattle.afs_client.specs.declared.hosts.HostsFault.TheVariants as fault;

    ghost from_gives = { λ _ e. e ≡ fault.NoMemory };

    fn from(_: NoMemory) -> Self {
        HostsFault::NoMemory
    }
}

impl Hosts {
    /// The hosts of dotted addresses that commas separate.
    pub fn parse(alloc: Global, text: &[u8]) -> Result<Hosts, HostsFault>
        ensures hosts { IfOk result (λ hosts. hosts_of text.now ≡ Some hosts) }
        ensures malformed { result ≡ Err HostsFault.Malformed → hosts_of text.now ≡ None }
    {
        let Some(list) = listed_hosts(alloc, text)? else {
            return Err(HostsFault::Malformed);
        };
        if are_some_hosts(list.as_slice()) {
            Ok(Hosts { list })
        } else {
            Err(HostsFault::Malformed)
        }
    }

    /// The hosts in their order.
    pub fn as_slice(&self) -> &[Host]
        ensures { result.now ≡ self.now }
    {
        self.list.as_slice()
    }
}

/// Whether these are at most 20 distinct hosts.
fn are_some_hosts(hosts: &[Host]) -> bool
    ensures { result ≡ are_some_hosts hosts.now }
{
    hosts.len() <= MAXSERVERS && are_distinct(hosts)
}

/// Whether no host stands twice.
fn are_distinct(hosts: &[Host]) -> bool
    ensures { result ≡ are_distinct hosts.now }
{
    match hosts {
        [] => true,
        [first, others @ ..] => !others.contains(first) && are_distinct(others),
    }
}
