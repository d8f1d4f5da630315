//! A server among the votes.
ghost use Rattle.std.specs.Prelude.{◌≡◌, ◌<◌, ◌≤◌, ◌^◌, ◌&&◌, IsTrue, IfSome};
ghost use Rattle.ubik_types.specs.Lease.{is_counted};
ghost use Rattle.ubik_types.specs.Moment.{IsMoment};
ghost use Rattle.ubik_types.specs.Votes.{answers_yes, sync_heard};
ghost use Rattle.ubik_votes.specs.Voter.{fresh_voter, after_beacon, after_own_beacon, after_vote, leased_until, is_leased, is_due};

use crate::answers::{GivenVotes, still_heard};
use crate::counts::{count, is_from, lease_end};
use std::marker::Model;
use ubik_types::MAXSERVERS;

/// The votes that a server gives and gets. Servers are their places in the cell, moments are whole seconds
/// from 1 to 2147483647.
#[derive(Drop)]
pub struct Votes {
    servers: usize,
    me: usize,
    opened: u32,
    given: GivenVotes,
    starts: [Option<u32>; MAXSERVERS],
}

impl Model for Votes {
    ghost use Rattle.ubik_votes.specs.Voter.{Voter};

    ghost Value = { Voter };

    ghost use Rattle.ubik_votes.specs.View.{voter_of, IsInOrder};

    ghost view = { voter_of };

    ghost invariant = { IsInOrder };
}

impl Votes {
    /// The votes of server `me` of `n` servers, which starts now.
    pub fn start(n: usize, me: usize, now: u32) -> Votes
        requires servers { n ≤ MAXSERVERS }
        requires me { me < n }
        ensures { result ≡ fresh_voter n me now }
    {
        Votes {
            servers: n,
            me,
            opened: now,
            given: GivenVotes::fresh(now),
            starts: [None; MAXSERVERS],
        }
    }

    /// Takes a beacon of a server in, which claims to be in lease or not, and answers it.
    pub fn on_beacon(&mut self, now: u32, from: usize, claim: bool) -> bool
        requires { from < self.old.servers }
        ensures answer { result ≡ answers_yes self.old.votes now from claim }
        ensures after { self.new ≡ after_beacon self.old now from claim }
    {
        self.given.answer(now, from, claim)
    }

    /// Whether this server is to ask for votes now.
    pub fn beacon_due(&self, now: u32) -> bool
        ensures { result ≡ is_due self.now now }
    {
        self.given.would_answer(now, self.me, self.in_lease(now))
    }

    /// Asks for votes, which has to be due: the server votes for itself.
    pub fn beacon(&mut self, now: u32, claim: bool)
        requires moment { IsMoment now }
        requires due { IsTrue (is_due self.old now) }
        requires claim { claim ≡ is_leased self.old now }
        ensures { self.new ≡ after_own_beacon self.old now claim }
    {
        self.given.answer(now, self.me, claim);
        count(&mut self.starts, self.me, now);
    }

    /// Takes the vote of a server on the beacon of that start in. A no takes nothing away.
    pub fn on_vote(&mut self, from: usize, start: u32, yes: bool)
        requires { from < self.old.servers }
        ensures { self.new ≡ after_vote self.old from start yes }
    {
        if !self.counts(start, yes) {
            return;
        }
        count(&mut self.starts, from, start);
    }

    /// Whether a vote for the start counts.
    fn counts(&self, start: u32, yes: bool) -> bool
        ensures rule { result ≡ (yes && is_counted self.now.opened self.now.me self.now.starts start) }
        ensures moment { IsTrue result → start < 2 ^ 31 }
    {
        yes && self.opened < start && is_from(start, self.starts[self.me])
    }

    /// The last moment of the lease, 0 where there is none.
    pub fn lease_until(&self) -> u32
        ensures { result ≡ leased_until self.now }
    {
        lease_end(&self.starts[..self.servers])
    }

    pub fn in_lease(&self, now: u32) -> bool
        ensures { result ≡ is_leased self.now now }
    {
        now <= self.lease_until()
    }

    /// The server that was heard within 75 seconds to claim the lease, and when.
    pub fn sync_heard(&self, now: u32) -> Option<(usize, u32)>
        ensures heard { result ≡ sync_heard now self.now.votes }
        ensures server { IfSome result (λ h. h.0 < self.now.servers) }
    {
        still_heard(self.given.sync, now).map(|heard| (heard.server, heard.at))
    }

    /// To whom the last yes went, and when. After a start: to nobody, at the start.
    pub fn last_yes(&self) -> (Option<usize>, u32)
        ensures to { result.0 ≡ self.now.votes.yes_to }
        ensures at { result.1 ≡ self.now.votes.yes_at }
        ensures server { IfSome result.0 (λ server. server < self.now.servers) }
    {
        (self.given.yes_to, self.given.yes_at)
    }
}
