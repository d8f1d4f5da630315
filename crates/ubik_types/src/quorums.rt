//! Which sets of servers decide.
ghost use Rattle.std.specs.Prelude.{◌≡◌, ◌≤◌, ◌↔◌, ℕ, List, Bool, IsTrue, length};
ghost use Rattle.ubik_types.specs.Quorum.{IsVoteQuorum, IsMajority, SharesServer, marked};

use crate::hosts::Cell;
use crate::limits::MAXSERVERS;

/// A set of servers of a cell, by their places. Marks at or past the cell's length do not count.
#[derive(Clone, Copy, Debug, PartialEq, Eq)]
pub struct Marks {
    pub set: [bool; MAXSERVERS],
}

/// Whether the set is a vote quorum of the cell: its votes outweigh all others, the lowest server having
/// half a vote more.
pub fn vote_quorum(cell: &Cell, marks: &Marks) -> bool
    ensures { IsTrue result ↔ IsVoteQuorum (length cell.now) (marked (length cell.now) marks.now.set) }
{
    votes_suffice(&marks.set[..cell.len()])
}

/// Whether the set has more than half of the cell's servers.
pub fn majority(cell: &Cell, marks: &Marks) -> bool
    ensures { IsTrue result ↔ IsMajority (length cell.now) (marked (length cell.now) marks.now.set) }
{
    let servers = cell.len();
    let size = marks.set[..servers]
        .iter()
        .filter(|marked| **marked)
        .count();
    size > servers / 2
}

/// Whether the set is a vote quorum, where the marks are those of all servers and no more.
pub fn votes_suffice(set: &[bool]) -> bool
    requires { length set.now ≤ MAXSERVERS }
    ensures { IsTrue result ↔ IsVoteQuorum (length set.now) set.now }
{
    let size = set.iter().filter(|marked| **marked).count();
    let bonus = usize::from(set.first() == Some(&true));
    2 * size + bonus > set.len()
}

/// Two vote quorums of a cell have a server in common.
pub fn vote_quorums_share_a_server()
    ensures { (n : ℕ) (a b : List Bool) → length a ≡ n → length b ≡ n
        → IsVoteQuorum n a → IsVoteQuorum n b → SharesServer a b }
{}

/// Two majorities of a cell have a server in common.
pub fn majorities_share_a_server()
    ensures { (n : ℕ) (a b : List Bool) → length a ≡ n → length b ≡ n
        → IsMajority n a → IsMajority n b → SharesServer a b }
{}
