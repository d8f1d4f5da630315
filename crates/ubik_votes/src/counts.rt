//! The votes that a server gets, and the lease that rests on them. For each server of the cell there stands
//! the greatest start for which its yes was counted.
ghost use Rattle.std.specs.Prelude.{◌≡◌, ◌<◌, ◌≤◌, ◌+◌, ◌^◌, ℕ, List, Option, length};
ghost use Rattle.ubik_types.specs.Lease.{counted, with_start, is_from, supporters, quorum_start, lease_from, lease_end};
ghost use Rattle.ubik_types.specs.Quorum.{is_vote_quorum};
ghost use Rattle.ubik_votes.specs.Greatest.{AreMoments, RestsOnGreatest, better_start};

use ubik_types::{MAXSERVERS, SMALLTIME, votes_suffice};

/// Counts a server's yes for a start.
pub fn count(starts: &mut [Option<u32>], server: usize, start: u32)
    requires { server < length starts.old }
    ensures { starts.new ≡ with_start starts.old server start }
{
    starts[server] = Some(greater(starts[server], start));
}

/// The greater start, where one may stand already.
fn greater(before: Option<u32>, start: u32) -> u32
    ensures { Some result ≡ counted before start }
{
    before.map_or(start, |before| before.max(start))
}

/// The last moment of the lease, 0 where there is none.
pub fn lease_end(starts: &[Option<u32>]) -> u32
    requires few { length starts.now ≤ MAXSERVERS }
    requires starts { AreMoments starts.now }
    ensures { result ≡ lease_end (length starts.now) starts.now }
{
    match quorum_start(starts) {
        0 => 0,
        start => SMALLTIME + start,
    }
}

/// The greatest start that a vote quorum supports, 0 where there is none.
fn quorum_start(starts: &[Option<u32>]) -> u32
    requires few { length starts.now ≤ MAXSERVERS }
    requires starts { AreMoments starts.now }
    ensures greatest { result ≡ quorum_start (length starts.now) starts.now starts.now }
    ensures moment { result < 2 ^ 31 }
{
    let mut best = 0;
    for start in starts {
        best = better(starts, best, *start);
    }
    best
}

/// The greater of two starts, of which the second counts only where a vote quorum supports it.
fn better(starts: &[Option<u32>], best: u32, start: Option<u32>) -> u32
    requires { length starts.now ≤ MAXSERVERS }
    ensures { result ≡ better_start (length starts.now) starts.now best start }
{
    match start {
        Some(start) if is_supported(starts, start) => best.max(start),
        _ => best,
    }
}

/// Whether the servers whose start is at least this one are a vote quorum.
fn is_supported(starts: &[Option<u32>], least: u32) -> bool
    requires { length starts.now ≤ MAXSERVERS }
    ensures { result ≡ is_vote_quorum (length starts.now) (supporters starts.now least) }
{
    let mut set = [false; MAXSERVERS];
    for (i, start) in starts.iter().enumerate() {
        set[i] = is_from(least, *start);
    }
    votes_suffice(&set[..starts.len()])
}

/// Whether a server's greatest counted start is at least this one.
pub fn is_from(least: u32, start: Option<u32>) -> bool
    ensures { result ≡ is_from least start }
{
    start.is_some_and(|start| least <= start)
}

/// A lease is that of the greatest start which a vote quorum of the cell supports: that start is supported,
/// and no greater number is.
pub fn lease_rests_on_greatest_start()
    ensures { (n : ℕ) (starts : List (Option ℕ)) → RestsOnGreatest n starts }
{}
