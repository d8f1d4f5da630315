//! What an image tells.
ghost use Rattle.std.specs.Prelude.{◌≡◌, ◌<◌, ℕ, List};
ghost use Rattle.db_blocks.specs.Blocks.{kind_of};
ghost use Rattle.prdb_layout.specs.Blocks.{block_count};
ghost use Rattle.prdb_layout.specs.Records.{block_in};
ghost use Rattle.prdb_layout.specs.Registry.{Registry};
ghost use Rattle.prdb_lists.specs.Members.{Members};
ghost use Rattle.prdb_finds.specs.Records.{Holds, whole};
ghost use Rattle.prdb_finds.specs.Unchained.{unchained};
ghost use Rattle.prdb_scans.specs.Told.{HasCounted, members_in};

/// The pairs that an image holds are a function of its bytes.
pub fn law_image_tells_its_pairs()
    ensures { (image : List ℕ) (r : Registry) (m : Members) → Holds image r m → m ≡ members_in (unchained (whole image)) }
{}

/// An image holds one registry and one set of pairs at most.
pub fn law_image_holds_one()
    ensures { (image : List ℕ) (r s : Registry) (m n : Members) → Holds image r m → Holds image s n → (r ≡ s) × (m ≡ n) }
{}

/// Over an image that holds pairs, an entry's block tells the number of the ids with which the
/// entry is paired.
pub fn law_blocks_tell_counts()
    ensures { (image : List ℕ) (r : Registry) (m : Members) (k : ℕ) → Holds image r m → k < block_count (whole image)
        → kind_of (block_in (whole image) k) ≡ 1 → HasCounted m (block_in (whole image) k) }
{}
