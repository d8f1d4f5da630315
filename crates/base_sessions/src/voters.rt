//! Calls on the votes of a server.
ghost use Rattle.std.specs.Prelude.{◌≡◌, ◌<◌, ◌≤◌};
ghost use Rattle.ubik_types.specs.declared.limits.TheConstants.{MAXSERVERS};

use crate::words::{number_text, server_in, truth_in, truth_word, word_text};
use session_rows::{Fault, number_in};
use std::alloc::Global;
use ubik_types::MAX_MOMENT;
use ubik_votes::Votes;

/// The votes of a server, and how many servers its cell has.
#[derive(Drop)]
pub struct Voter {
    votes: Votes,
    servers: usize,
    ghost same: { votes.servers ≡ servers },
}

impl Voter {
    /// Server `me` of so many, which starts now.
    pub fn start(servers: usize, me: usize, now: u32) -> Voter
        requires servers { servers ≤ MAXSERVERS }
        requires me { me < servers }
    {
        Voter {
            votes: Votes::start(servers, me, now),
            servers,
        }
    }

    /// Makes a call.
    pub fn call(&mut self, alloc: Global, words: &[&str]) -> Result<String, Fault> {
        match words {
            ["until"] => number_text(alloc, Some(self.votes.lease_until())),
            ["yes"] => yes_text(alloc, self.votes.last_yes()),
            ["heard", now] => heard_text(alloc, self.votes.sync_heard(number_in(now)?)),
            _ => word_text(alloc, self.step(words)?),
        }
    }

    /// Makes a call that changes the votes, or one that tells whether something holds.
    fn step(&mut self, words: &[&str]) -> Result<&'static str, Fault> {
        match words {
            ["start", servers, me, now] => self.begin_anew(servers, me, now),
            ["due", now] => Ok(truth_word(self.votes.beacon_due(number_in(now)?))),
            ["leased", now] => Ok(truth_word(self.votes.in_lease(number_in(now)?))),
            ["beacon", now] => self.send_beacon(now),
            ["asked", now, from, claim] => self.take_beacon(now, from, claim),
            ["from", from, start, yes] => self.take_vote(from, start, yes),
            _ => Err(Fault::Form),
        }
    }

    fn begin_anew(&mut self, servers: &str, me: &str, now: &str) -> Result<&'static str, Fault> {
        let (servers, me) = (server_in(servers)?, server_in(me)?);
        if me >= servers {
            return Err(Fault::Form);
        }
        *self = Voter::start(servers, me, number_in(now)?);
        Ok("done")
    }

    fn send_beacon(&mut self, now: &str) -> Result<&'static str, Fault> {
        let now = number_in(now)?;
        if now == 0 || now > MAX_MOMENT || !self.votes.beacon_due(now) {
            return Err(Fault::Form);
        }
        let claim = self.votes.in_lease(now);
        self.votes.beacon(now, claim);
        Ok("done")
    }

    fn take_beacon(&mut self, now: &str, from: &str, claim: &str) -> Result<&'static str, Fault> {
        let (now, from, claim) = (number_in(now)?, server_in(from)?, truth_in(claim)?);
        if from >= self.servers {
            return Err(Fault::Form);
        }
        Ok(truth_word(self.votes.on_beacon(now, from, claim)))
    }

    fn take_vote(&mut self, from: &str, start: &str, yes: &str) -> Result<&'static str, Fault> {
        let (from, start, yes) = (server_in(from)?, number_in(start)?, truth_in(yes)?);
        if from >= self.servers {
            return Err(Fault::Form);
        }
        self.votes.on_vote(from, start, yes);
        Ok("done")
    }
}

/// Which server was last promised a vote, and when.
fn yes_text(alloc: Global, yes: (Option<usize>, u32)) -> Result<String, Fault> {
    match yes {
        (Some(server), at) => Ok(format!(in alloc; "{server} {at}")?),
        (None, at) => Ok(format!(in alloc; "none {at}")?),
    }
}

/// Which server was heard to be the sync site, and when.
fn heard_text(alloc: Global, heard: Option<(usize, u32)>) -> Result<String, Fault> {
    match heard {
        Some((server, at)) => Ok(format!(in alloc; "{server} {at}")?),
        None => word_text(alloc, "none"),
    }
}
