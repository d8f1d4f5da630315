//! The votes that a server gives: the beacons that it heard, and its answers to them.
ghost use Rattle.std.specs.Prelude.{◌≡◌, ◌+◌, nat_lt};
ghost use Rattle.ubik_types.specs.Votes.{fresh_votes, still_heard, lowest_with, sync_with, beacon_heard, prefers, says_yes, answers_yes, answered};
ghost use Rattle.ubik_votes.specs.Answers.{heard_of, vote_state};

use ubik_types::BIGTIME;

/// A server that was heard, by its place, and the moment.
#[derive(Clone, Copy, Debug)]
pub struct HeardAt {
    pub server: usize,
    pub at: u32,
}

/// Whom a server voted for last, and the servers that it may vote for next.
#[derive(Clone, Copy, Debug)]
pub struct GivenVotes {
    pub yes_to: Option<usize>,
    pub yes_at: u32,
    pub lowest: Option<HeardAt>,
    pub sync: Option<HeardAt>,
}

impl GivenVotes {
    /// A server that starts may have voted just now, before it stopped.
    pub fn fresh(now: u32) -> Self
        ensures { vote_state result ≡ fresh_votes now }
    {
        GivenVotes {
            yes_to: None,
            yes_at: now,
            lowest: None,
            sync: None,
        }
    }

    /// Takes a beacon in and answers it; a yes is kept.
    pub fn answer(&mut self, now: u32, from: usize, claim: bool) -> bool
        ensures answer { result ≡ answers_yes (vote_state self.old) now from claim }
        ensures after { vote_state self.new ≡ answered (vote_state self.old) now from claim }
    {
        self.hear(now, from, claim);
        let yes = self.says_yes(now, from);
        if yes {
            self.yes_to = Some(from);
            self.yes_at = now;
        }
        yes
    }

    /// What the answer would be.
    pub fn would_answer(&self, now: u32, from: usize, claim: bool) -> bool
        ensures { result ≡ answers_yes (vote_state self.now) now from claim }
    {
        let mut copy = *self;
        copy.answer(now, from, claim)
    }

    fn hear(&mut self, now: u32, from: usize, claim: bool)
        ensures { vote_state self.new ≡ beacon_heard (vote_state self.old) now from claim }
    {
        self.lowest = next_lowest(still_heard(self.lowest, now), now, from);
        self.sync = next_sync(still_heard(self.sync, now), now, from, claim);
    }

    fn says_yes(&self, now: u32, server: usize) -> bool
        ensures { result ≡ says_yes (vote_state self.now) now server }
    {
        let is_free = is_past(self.yes_at, now) || self.yes_to == Some(server);
        is_free && self.prefers(server)
    }

    /// Whether the votes go to the server: the sync host, or else the lowest.
    fn prefers(&self, server: usize) -> bool
        ensures { result ≡ prefers (heard_of self.now.sync) (heard_of self.now.lowest) server }
    {
        match (self.sync, self.lowest) {
            (Some(sync), _) => sync.server == server,
            (None, Some(lowest)) => lowest.server == server,
            (None, None) => false,
        }
    }
}

/// Whether a moment lies more than 75 seconds back.
fn is_past(at: u32, now: u32) -> bool
    ensures { result ≡ nat_lt (at + BIGTIME) now }
{
    now.saturating_sub(at) > BIGTIME
}

/// Whom a server still knows to have heard.
pub fn still_heard(kept: Option<HeardAt>, now: u32) -> Option<HeardAt>
    ensures { heard_of result ≡ still_heard now (heard_of kept) }
{
    match kept {
        Some(heard) if !is_past(heard.at, now) => Some(heard),
        _ => None,
    }
}

/// The lowest server heard, after a beacon of `from`.
fn next_lowest(kept: Option<HeardAt>, now: u32, from: usize) -> Option<HeardAt>
    ensures { heard_of result ≡ lowest_with now from (heard_of kept) }
{
    match kept {
        Some(lowest) if lowest.server < from => Some(lowest),
        _ => Some(HeardAt {
            server: from,
            at: now,
        }),
    }
}

/// The sync host, after a beacon of `from`, which claims to be it or not.
fn next_sync(kept: Option<HeardAt>, now: u32, from: usize, claim: bool) -> Option<HeardAt>
    ensures { heard_of result ≡ sync_with now from claim (heard_of kept) }
{
    match kept {
        _ if claim => Some(HeardAt {
            server: from,
            at: now,
        }),
        Some(sync) if sync.server == from => None,
        _ => kept,
    }
}
