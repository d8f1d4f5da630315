//! The ready beacon that a server keeps.
ghost use Rattle.std.specs.Prelude.{◌≡◌};
ghost use Rattle.cell_model.specs.Voting.{beacon_kept};
ghost use Rattle.server_state.specs.Beacons.{beacon_of};

use ubik_types::Version;

/// A beacon of a server that claimed the lease and was ready to serve: under which version, and when it was
/// received, in seconds. The server by its place.
#[derive(Clone, Copy)]
pub struct ReadyBeacon {
    pub server: usize,
    pub version: Version,
    pub at: u32,
}

/// The ready beacon that is kept after one was heard, with its claim and whether its server is ready.
pub(crate) fn kept_beacon(
    before: Option<ReadyBeacon>,
    heard: ReadyBeacon,
    claim: bool,
    ready: bool,
) -> Option<ReadyBeacon>
    ensures { beacon_of result ≡ beacon_kept (beacon_of before) heard.at heard.server claim ready heard.version }
{
    match before {
        _ if claim && ready => Some(heard),
        Some(kept) if !ready && kept.server == heard.server => None,
        _ => before,
    }
}
