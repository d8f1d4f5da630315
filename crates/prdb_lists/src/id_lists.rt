//! Ascending lists of ids.
ghost use Rattle.std.specs.Prelude.{◌≡◌, ◌↔◌, ◌<ℤ◌, ◌⊎◌, ◌++◌, ◌∷◌, [], ℤ, IsTrue, IfOk, OnOk, OnErr};
ghost use Rattle.std.specs.List.{All, Contains};
ghost use Rattle.entry_scans.specs.Lists.{IsAscending};
ghost use Rattle.prdb_lists.specs.Lists.{IsRank, ids_with, ids_without};

use std::alloc::{AllocError, Global};
use std::marker::Model;

/// An ascending list of ids. Contracts see its items; what memory it has reserved is not part of it.
#[derive(Drop)]
pub struct IdList {
    ids: Vec<i32>,
}

impl Model for IdList {
    ghost use Rattle.std.specs.Prelude.{ℤ, List};
    ghost use Rattle.entry_scans.specs.Lists.{IsAscending};

    ghost Value = { List ℤ };

    ghost view = { λ l. l.ids.items };

    ghost invariant = { λ l. IsAscending l.ids.items };
}

impl IdList {
    /// A list of no ids.
    pub fn new(alloc: Global) -> Self
        ensures { result ≡ [] }
    {
        IdList {
            ids: Vec::new(alloc),
        }
    }

    pub fn as_slice(&self) -> &[i32]
        ensures value { result.now ≡ self.now }
        ensures ascending { IsAscending result.now }
    {
        self.ids.as_slice()
    }

    /// Gives the vector back, without taking memory.
    pub fn into_vec(self) -> Vec<i32>
        ensures value { result.items ≡ self }
        ensures ascending { IsAscending result.items }
    {
        self.ids
    }

    /// Whether an id is in the list.
    pub fn contains(&self, id: i32) -> bool
        ensures { IsTrue result ↔ Contains self.now id }
    {
        self.ids.as_slice().contains(&id)
    }

    /// Whether an id is above all ids of the list.
    pub(crate) fn is_below(&self, id: i32) -> bool
        ensures { IsTrue result ↔ All (λ x. x <ℤ id) self.now }
    {
        match self.ids.as_slice() {
            [] => true,
            [.., last] => *last < id,
        }
    }

    /// Puts an id at the end.
    pub(crate) fn push(&mut self, id: i32) -> Result<(), AllocError>
        requires { All (λ x. x <ℤ id) self.old }
        ensures pushed { OnOk result (self.new ≡ self.old ++ id ∷ []) }
        ensures same { OnErr result (self.new ≡ self.old) }
    {
        self.ids.push(id)?;
        Ok(())
    }

    /// How many ids of the list are below one.
    fn rank(&self, id: i32) -> usize
        ensures { IsRank self.now id result }
    {
        let ids = self.ids.as_slice();
        for (i, x) in ids.iter().enumerate() {
            if *x >= id {
                return i;
            }
        }
        ids.len()
    }

    /// The same list with an id in its place, which may be there already.
    pub fn with(&self, alloc: Global, id: i32) -> Result<IdList, AllocError>
        ensures members { IfOk result (λ after. (x : ℤ) → Contains after x ↔ ((x ≡ id) ⊎ Contains self.now x)) }
        ensures ascending { IfOk result (λ after. IsAscending after) }
        ensures placed { IfOk result (λ after. ¬ Contains self.now id → after ≡ ids_with id self.now) }
    {
        let there = self.contains(id);
        let (below, behind) = self.ids.as_slice().split_at(self.rank(id));
        let mut ids = Vec::new(alloc);
        ids.extend_from_slice(below)?;
        if !there {
            ids.push(id)?;
        }
        ids.extend_from_slice(behind)?;
        Ok(IdList { ids })
    }

    /// The same list without an id.
    pub fn without(&self, alloc: Global, id: i32) -> Result<IdList, AllocError>
        ensures { IfOk result (λ after. after ≡ ids_without id self.now) }
    {
        let ids = others(alloc, self.ids.as_slice(), id)?;
        Ok(IdList { ids })
    }
}

/// All of these ids but one.
#[tactic(auto, unfolding(crate::specs::Lists::ids_without))]
fn others(alloc: Global, ids: &[i32], id: i32) -> Result<Vec<i32>, AllocError>
    ensures { IfOk result (λ others. others.items ≡ ids_without id ids.now) }
{
    ids.iter().copied().filter(|x| *x != id).collect(alloc)
}
