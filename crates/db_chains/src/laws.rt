//! What a change of one chain leaves of the others.
ghost use Rattle.std.specs.Prelude.{◌≡◌, ◌+◌, ◌≤◌, ◌∷◌, ◌++◌, ℕ, List, length, true};
ghost use Rattle.db_blocks.specs.Blocks.{word_at};
ghost use Rattle.db_chains.specs.Chains.{HasChain};
ghost use Rattle.db_chains.specs.Changes.{IsHeadPlace, put_in, taken_out};
ghost use Rattle.db_chains.specs.Free.{AreFree, AreNotFree, IsFreed, IsTaken, NameOthers, free_links};
ghost use Rattle.db_chains.specs.Links.{AreLinks, is_right};
ghost use Rattle.db_chains.specs.Others.{AreApart, AreOtherSorts, HaveNoneOf, NamesSame};
ghost use Rattle.db_chains.specs.Walks.{place_behind};
ghost use Rattle.db_chains.specs.declared.free_blocks.FreeBlocks.{FreeBlocks};
ghost use Rattle.db_chains.specs.declared.links.Links.{Links};

/// A word that comes into a chain of one sort, or goes out of it, leaves each chain of another sort, whose words stand at other offsets.
pub fn law_other_sorts_stay()
    ensures put { (l m : Links) (image : List ℕ) (here there w : ℕ) (front back vs : List ℕ) → AreLinks l → AreLinks m
        → AreOtherSorts l m here there → IsHeadPlace l here → here + 4 ≤ length image → there + 4 ≤ length image
        → HasChain l image here (front ++ back) → is_right l image w ≡ true → HasChain m image there vs
        → HasChain m (put_in l (place_behind l here front) w image) there vs }
    ensures taken { (l m : Links) (image : List ℕ) (here there w : ℕ) (front back vs : List ℕ) → AreLinks l → AreLinks m
        → AreOtherSorts l m here there → IsHeadPlace l here → here + 4 ≤ length image → there + 4 ≤ length image
        → HasChain l image here (front ++ w ∷ back) → HasChain m image there vs
        → HasChain m (taken_out l (place_behind l here front) image) there vs }
{}

/// A word that comes into a chain, or goes out of it, leaves each chain of the same sort that has none of its words.
pub fn law_other_chains_stay()
    ensures put { (l : Links) (image : List ℕ) (here there w : ℕ) (front back vs : List ℕ) → AreLinks l → AreApart here there
        → IsHeadPlace l here → IsHeadPlace l there → here + 4 ≤ length image → there + 4 ≤ length image
        → HasChain l image here (front ++ back) → is_right l image w ≡ true → HasChain l image there vs → HaveNoneOf (w ∷ front) vs
        → HasChain l (put_in l (place_behind l here front) w image) there vs }
    ensures taken { (l : Links) (image : List ℕ) (here there w : ℕ) (front back vs : List ℕ) → AreLinks l → AreApart here there
        → IsHeadPlace l here → IsHeadPlace l there → here + 4 ≤ length image → there + 4 ≤ length image
        → HasChain l image here (front ++ w ∷ back) → HasChain l image there vs → HaveNoneOf (w ∷ front) vs
        → HasChain l (taken_out l (place_behind l here front) image) there vs }
{}

/// A chain stays with its first word and the blocks that its words name, whatever else changes.
pub fn law_chain_stays_with_its_blocks()
    ensures { (l : Links) (at : ℕ) (old new ws : List ℕ) → AreLinks l → length old ≤ length new → word_at new at ≡ word_at old at
        → NamesSame l old new ws → HasChain l old at ws → HasChain l new at ws }
{}

/// Where a block is taken, a chain of blocks that are not free stays with its first word.
pub fn law_chains_stay_where_a_block_is_taken()
    ensures { (f : FreeBlocks) (m : Links) (block image new : List ℕ) (at n : ℕ) (ws vs : List ℕ) → AreFree f → AreNotFree f m
        → HasChain (free_links f) image f.first ws → IsTaken f block image n new → word_at new at ≡ word_at image at
        → HasChain m image at vs → HasChain m new at vs }
{}

/// Where a block is freed, a chain of other blocks that are not free stays with its first word.
pub fn law_chains_stay_where_a_block_is_freed()
    ensures { (f : FreeBlocks) (m : Links) (image new : List ℕ) (at n : ℕ) (ws vs : List ℕ) → AreNotFree f m → IsFreed f ws n image new
        → NameOthers m n vs → word_at new at ≡ word_at image at → HasChain m image at vs → HasChain m new at vs }
{}
