//! The places of the servers' addresses.
ghost use Rattle.std.specs.Prelude.{◌≡◌, ◌==◌, ◌<◌, IfSome};
ghost use Rattle.std.specs.List.{list_any, position};
ghost use Rattle.vldb_entries.specs.Location.{place_host, placed};

use vldb_entries::{PLACES, VlSite};

/// Whether an address is among them.
pub(crate) fn is_among(addresses: &[u32; PLACES], host: u32) -> bool
    ensures { result ≡ list_any (λ a. a == host) addresses.now }
{
    addresses.iter().any(|a| *a == host)
}

/// Where an address stands first.
pub(crate) fn place_of(addresses: &[u32; PLACES], host: u32) -> Option<usize>
    ensures at { result ≡ position (λ a. a == host) addresses.now }
    ensures within { IfSome result (λ k. k < PLACES) }
{
    addresses.iter().position(|a| *a == host)
}

/// The addresses with that of a server among them: a new one takes the lowest free place, if there is one.
fn place_host(mut addresses: [u32; PLACES], host: u32) -> Option<[u32; PLACES]>
    ensures { result ≡ place_host host addresses }
{
    if is_among(&addresses, host) {
        return Some(addresses);
    }
    match place_of(&addresses, 0) {
        Some(free) => {
            addresses[free] = host;
            Some(addresses)
        }
        None => None,
    }
}

/// The addresses with those of the sites' servers among them, if there are places for them.
#[tactic(auto, unfolding(vldb_entries::specs::Location::placed))]
pub(crate) fn placed(addresses: [u32; PLACES], sites: &[VlSite]) -> Option<[u32; PLACES]>
    ensures { result ≡ placed sites.now addresses }
{
    let mut places = addresses;
    let mut rest = sites;
    while let [site, others @ ..] = rest {
        places = place_host(places, site.host)?;
        rest = others;
    }
    Some(places)
}
