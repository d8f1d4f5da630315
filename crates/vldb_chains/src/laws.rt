//! What the chains of the location database are to one another, and a chain of one name and one id.
ghost use Rattle.std.specs.Prelude.{◌≡◌, ◌∷◌, ℕ, List, []};
ghost use Rattle.db_chains.specs.Free.{free_links};
ghost use Rattle.db_chains.specs.Others.{AreOtherSorts};
ghost use Rattle.vldb_chains.specs.Keys.{id_chain, name_chain};
ghost use Rattle.vldb_chains.specs.Places.{free_blocks, id_links, name_links};

/// The three sorts are other ones: a change of a chain of one leaves those of the others.
pub fn law_other_sorts()
    ensures names { (name : List ℕ) (id : ℕ) → AreOtherSorts name_links id_links (name_chain name) (id_chain id) }
    ensures ids { (name : List ℕ) (id : ℕ) → AreOtherSorts id_links name_links (id_chain id) (name_chain name) }
    ensures free_names { (name : List ℕ) → AreOtherSorts (free_links free_blocks) name_links free_blocks.first (name_chain name) }
    ensures free_ids { (id : ℕ) → AreOtherSorts (free_links free_blocks) id_links free_blocks.first (id_chain id) }
{}

/// Where the chains of the name `v24` and of the id 536870948 begin.
pub fn law_key_of_a_name()
    ensures name { name_chain (118 ∷ 50 ∷ 52 ∷ []) ≡ 1964 }
    ensures id { id_chain 536870948 ≡ 2252 }
{}
