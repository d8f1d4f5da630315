//! What the layout says of images.
ghost use Rattle.std.specs.Prelude.{◌≡◌, ◌+◌, ◌<◌, ◌≤◌, ◌⊎◌, ℕ, ℤ, pos, negsuc, true, List, [], codes};
ghost use Rattle.db_blocks.specs.Blocks.{IsWhole, word_at, kind_of};
ghost use Rattle.db_chains.specs.Changes.{put_in, put_word, taken_out};
ghost use Rattle.db_chains.specs.Free.{AreFree, AreNotFree};
ghost use Rattle.db_chains.specs.Links.{is_right};
ghost use Rattle.db_chains.specs.Others.{AreOtherSorts};
ghost use Rattle.prdb_layout.specs.Blocks.{block_count};
ghost use Rattle.prdb_layout.specs.Records.{block_in, block_place, registry_in};
ghost use Rattle.prdb_layout.specs.Registry.{Registry, first_registry};
ghost use Rattle.prdb_lists.specs.Members.{Members, no_members};
ghost use Rattle.prdb_finds.specs.Keys.{id_chain, name_chain};
ghost use Rattle.prdb_finds.specs.Places.{IsEntryPlace, entry_links, free_blocks, id_links, name_links, owned_links, owned_place};
ghost use Rattle.prdb_finds.specs.Records.{Holds, whole};
ghost use Rattle.prdb_finds.specs.Unchained.{unchained};
ghost use Rattle.db_blocks.specs.declared.blocks.TheConstants.{BLOCK_LEN};
ghost use Rattle.prdb_layout.specs.declared.blocks.TheConstants.{HEAD_LEN};

/// The empty image holds the first registry, and no pairs.
pub fn law_empty_image_holds_the_first()
    ensures { Holds [] first_registry no_members }
{}

/// An image holds one registry at most, which is a function of its bytes.
pub fn law_image_tells_its_registry()
    ensures { (image : List ℕ) (r : Registry) (m : Members) → Holds image r m → r ≡ registry_in (unchained (whole image)) }
{}

/// A number that is put where a chain has a word leaves the image without the words of chains.
pub fn law_words_of_chains_stand_apart()
    ensures head { (image : List ℕ) (p n : ℕ) → IsWhole HEAD_LEN image → (p ≡ 20) ⊎ ((64 ≤ p) × (p + 4 ≤ HEAD_LEN))
        → unchained (put_word p n image) ≡ unchained image }
    ensures entry { (image : List ℕ) (k offset n : ℕ) → IsWhole HEAD_LEN image → k < block_count image → kind_of (block_in image k) ≡ 1
        → 96 ≤ offset → offset + 4 ≤ 112 → unchained (put_word (block_place k + offset) n image) ≡ unchained image }
    ensures free { (image : List ℕ) (k n : ℕ) → IsWhole HEAD_LEN image → k < block_count image → kind_of (block_in image k) ≡ 0
        → unchained (put_word (block_place k + 4) n image) ≡ unchained image }
{}

/// An entry that comes into a chain, or goes out of it, leaves the image without the words of chains.
pub fn law_changes_of_chains_stand_apart()
    ensures put { (next : ℕ) (image : List ℕ) (at w : ℕ) → 96 ≤ next → next + 4 ≤ 112 → IsWhole HEAD_LEN image → IsEntryPlace image at
        → is_right (entry_links next) image w ≡ true → unchained (put_in (entry_links next) at w image) ≡ unchained image }
    ensures taken { (next : ℕ) (image : List ℕ) (at : ℕ) → 96 ≤ next → next + 4 ≤ 112 → IsWhole HEAD_LEN image → IsEntryPlace image at
        → is_right (entry_links next) image (word_at image at) ≡ true
        → unchained (taken_out (entry_links next) at image) ≡ unchained image }
{}

/// The four sorts of chains are other ones: a change of a chain of one leaves those of the others.
pub fn law_other_sorts()
    ensures names { (name : List ℕ) (id : ℤ) → AreOtherSorts name_links id_links (name_chain name) (id_chain id) }
    ensures ids { (name : List ℕ) (id : ℤ) → AreOtherSorts id_links name_links (id_chain id) (name_chain name) }
    ensures named { (name : List ℕ) (k : ℕ) → AreOtherSorts name_links owned_links (name_chain name) (owned_place k) }
    ensures known { (id : ℤ) (k : ℕ) → AreOtherSorts id_links owned_links (id_chain id) (owned_place k) }
    ensures owned_names { (name : List ℕ) (k : ℕ) → AreOtherSorts owned_links name_links (owned_place k) (name_chain name) }
    ensures owned_ids { (id : ℤ) (k : ℕ) → AreOtherSorts owned_links id_links (owned_place k) (id_chain id) }
    ensures free { AreFree free_blocks }
    ensures taken { (next : ℕ) → 4 ≤ next → next + 4 ≤ BLOCK_LEN → AreNotFree free_blocks (entry_links next) }
{}

/// Where the chains of the name `smith`, of the id 1 and of the id -204 begin.
pub fn law_keys()
    ensures name { name_chain (codes "smith") ≡ 212 }
    ensures user { id_chain (pos 1) ≡ 1092 }
    ensures group { id_chain (negsuc 203) ≡ 1296 }
{}
