//! Hosts, and the cell that they make.
ghost use Rattle.std.specs.Prelude.{◌≡◌, ◌<◌, ◌≤◌, ℕ, length, slice_get, Some, IfOk, IfErr, IfSome, IsPermutation, MatchOption, ◌==◌, position};
ghost use Rattle.ubik_types.specs.declared.hosts.Host.{Host};
ghost use Rattle.ubik_types.specs.Hosts.{IsCell, IsAscending, IsRising, IsLowestRepeated};
ghost use Rattle.ubik_types.specs.Refusals.{Refuses};

use crate::limits::MAXSERVERS;
use std::alloc::{AllocError, Global};
use std::fmt;
use std::marker::Model;
use thiserror::Error;

/// The address of a server, 32 bits: 10.0.0.1 is 167772161.
#[derive(Clone, Copy, Debug, PartialEq, Eq, PartialOrd, Ord, Hash)]
pub struct Host(pub u32);

impl fmt::Display for Host {
    fn fmt<W: fmt::Write>(&self, f: &mut fmt::Formatter<W>) -> fmt::Result {
        let [a, b, c, d] = self.0.to_be_bytes();
        write!(f, "{a}.{b}.{c}.{d}")
    }
}

/// Why a list of hosts makes no cell. The causes are tried in this order, but memory may run out before a
/// repeated host is seen.
#[derive(Clone, Copy, Debug, PartialEq, Eq, Error)]
pub enum CellFault {
    /// The list is empty.
    #[error("a cell has at least one server")]
    Empty,
    /// The list has more than 20 hosts.
    #[error("{count} servers, and a cell has at most 20")]
    TooMany { count: usize },
    /// The host stands at least twice, and no lower one does.
    #[error("{host} is named twice")]
    Repeated { host: Host },
    /// Memory ran out.
    #[error("out of memory")]
    NoMemory,
}

impl From<AllocError> for CellFault {
    ghost use Rattle.std.specs.Prelude.{◌≡◌};
    ghost use Rattle.ubik_types.specs.declared.hosts.CellFault.TheVariants as fault;

    ghost from_gives = { λ _ e. e ≡ fault.NoMemory };

    fn from(_: AllocError) -> Self {
        CellFault::NoMemory
    }
}

/// The servers of a cell, 1 to 20 distinct hosts. Contracts see the list of them, ascending.
#[derive(Drop)]
pub struct Cell {
    hosts: Vec<Host>,
}

impl Model for Cell {
    ghost use Rattle.std.specs.Prelude.{List};
    ghost use Rattle.ubik_types.specs.declared.hosts.Host.{Host};
    ghost use Rattle.ubik_types.specs.Hosts.{IsCell};

    ghost Value = { List Host };

    ghost view = { λ c. c.hosts.items };

    ghost invariant = { λ c. IsCell c.hosts.items };
}

impl Cell {
    /// The cell of these hosts, which may come in any order.
    pub fn new(alloc: Global, hosts: &[Host]) -> Result<Cell, CellFault>
        ensures cell { IfOk result (λ cell. IsCell cell) }
        ensures same { IfOk result (λ cell. IsPermutation hosts.now cell) }
        ensures refused { IfErr result (λ fault. Refuses hosts.now fault) }
    {
        if hosts.is_empty() {
            return Err(CellFault::Empty);
        }
        if hosts.len() > MAXSERVERS {
            let count = hosts.len();
            return Err(CellFault::TooMany { count });
        }
        let sorted = in_order(alloc, hosts)?;
        match first_repeated(&sorted) {
            Some(host) => Err(CellFault::Repeated { host }),
            None => Ok(Cell { hosts: sorted }),
        }
    }

    /// How many servers the cell has.
    pub fn len(&self) -> usize
        ensures len { result ≡ length self.now }
        ensures some { 0 < result }
        ensures not_more { result ≤ MAXSERVERS }
    {
        self.hosts.len()
    }

    /// The host of the server at a place.
    pub fn host(&self, i: usize) -> Host
        requires { i < length self.now }
        ensures { slice_get self.now i ≡ Some result }
    {
        self.hosts[i]
    }

    /// The place of a host's server; none where the host is not of the cell.
    pub fn index(&self, host: Host) -> Option<usize>
        ensures found { IfSome result (λ i. slice_get self.now i ≡ Some host) }
        ensures only { (i : ℕ) → slice_get self.now i ≡ Some host → result ≡ Some i }
    {
        place_of(&self.hosts, host)
    }
}

/// The hosts in ascending order, a repeated one as often as before.
fn in_order(alloc: Global, hosts: &[Host]) -> Result<Vec<Host>, AllocError>
    ensures same { IfOk result (λ sorted. IsPermutation hosts.now sorted.items) }
    ensures len { IfOk result (λ sorted. length sorted.items ≡ length hosts.now) }
    ensures rising { IfOk result (λ sorted. IsRising sorted.items) }
{
    let mut sorted = hosts.to_vec(alloc)?;
    sorted.sort_unstable();
    Ok(sorted)
}

/// The lowest host that stands twice in a list that is in order.
fn first_repeated(sorted: &[Host]) -> Option<Host>
    requires { IsRising sorted.now }
    ensures { MatchOption result (IsAscending sorted.now) (λ host. IsLowestRepeated sorted.now host) }
{
    for i in 1..sorted.len() {
        if sorted[i - 1] == sorted[i] {
            return Some(sorted[i]);
        }
    }
    None
}

/// The first place at which a host stands.
fn place_of(hosts: &[Host], host: Host) -> Option<usize>
    ensures { result ≡ position (λ (other : Host). other.0 == host.0) hosts.now }
{
    hosts.iter().position(|other| other.0 == host.0)
}
