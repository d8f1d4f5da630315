//! How a server's state changes, as it tells it of itself.
ghost use Rattle.std.specs.Prelude.{◌≡◌, false, None};
ghost use Rattle.server_diary.specs.Changes.{ahead_change, epoch_change, heard_change, other_site, seen_of, site_change};

use ubik_calls::DebugIs;
use ubik_types::Host;

/// What counts of a server's state.
#[derive(Clone, Copy, Debug, PartialEq, Eq)]
pub struct Seen {
    /// Whether it is in lease.
    pub is_site: bool,
    /// The sync site that it heard, if that is another one.
    pub other: Option<Host>,
    /// The epoch of its database.
    pub epoch: u32,
}

/// What has changed. Moments are in Unix seconds.
#[derive(Clone, Copy, Debug, PartialEq, Eq)]
pub enum Change {
    /// It became the sync site, with a lease until then.
    Site { until: u32 },
    /// It is in lease no more.
    NoSite,
    /// It heard this sync site, another one.
    Heard { host: Host },
    /// It hears no other sync site any more.
    HeardNone,
    /// Its database has another epoch.
    Epoch { epoch: u32, counter: u32 },
    /// Its database's epoch is ahead of its clock.
    Ahead { epoch: u32 },
}

impl Seen {
    pub(crate) fn of(is: &DebugIs) -> Seen
        ensures { result ≡ seen_of is.entry.now }
    {
        Seen {
            is_site: is.now <= is.until,
            other: other_site(is),
            epoch: is.version.epoch,
        }
    }

    /// A server of which nothing was seen before, when it says this.
    pub(crate) fn first(is: &DebugIs) -> Seen
        ensures { result ≡ record { is_site = false; other = None; epoch = is.entry.now.version.epoch } }
    {
        Seen {
            is_site: false,
            other: None,
            epoch: is.version.epoch,
        }
    }
}

/// What has changed of the lease.
pub(crate) fn site_change(old: Seen, is: &DebugIs) -> Option<Change>
    ensures { result ≡ site_change old is.entry.now }
{
    let seen = Seen::of(is);
    match (old.is_site, seen.is_site) {
        (false, true) => Some(Change::Site { until: is.until }),
        (true, false) => Some(Change::NoSite),
        _ => None,
    }
}

/// What has changed of the other sync site that it heard.
pub(crate) fn heard_change(old: Seen, is: &DebugIs) -> Option<Change>
    ensures { result ≡ heard_change old is.entry.now }
{
    let Some(host) = other_site(is) else {
        return old.other.map(|_| Change::HeardNone);
    };
    match old.other {
        Some(before) if before.0 == host.0 => None,
        _ => Some(Change::Heard { host }),
    }
}

/// What has changed of the epoch.
pub(crate) fn epoch_change(old: Seen, is: &DebugIs) -> Option<Change>
    ensures { result ≡ epoch_change old is.entry.now }
{
    let version = is.version;
    if old.epoch == version.epoch {
        return None;
    }
    Some(Change::Epoch {
        epoch: version.epoch,
        counter: version.counter,
    })
}

/// An epoch that is ahead of the clock.
pub(crate) fn ahead_change(is: &DebugIs) -> Option<Change>
    ensures { result ≡ ahead_change is.entry.now }
{
    let epoch = is.version.epoch;
    if epoch > is.now {
        Some(Change::Ahead { epoch })
    } else {
        None
    }
}

/// The sync site that a server heard, if that is not itself.
fn other_site(is: &DebugIs) -> Option<Host>
    ensures { result ≡ other_site is.entry.now }
{
    if is.sync.0 == 0 || is.sync.0 == is.host.0 {
        None
    } else {
        Some(is.sync)
    }
}
