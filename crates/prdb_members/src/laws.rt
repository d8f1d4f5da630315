//! Laws of the images that the changes make.
ghost use Rattle.std.specs.Prelude.{◌≡◌, ◌+◌, ◌≤◌, true, ℕ, ℤ, List, length};
ghost use Rattle.db_blocks.specs.Blocks.{word_at};
ghost use Rattle.prdb_layout.specs.Registry.{Registry};
ghost use Rattle.entry_scans.specs.Lists.{IsListOf};
ghost use Rattle.prdb_lists.specs.Changes.{place_in};
ghost use Rattle.prdb_lists.specs.Members.{MayJoin, MayLeave, Members, are_paired, with_pair, without_pair};
ghost use Rattle.prdb_lists.specs.Moves.{MayMove, moved_members, moved_registry};
ghost use Rattle.prdb_finds.specs.Keys.{id_chain};
ghost use Rattle.prdb_finds.specs.Records.{Holds, whole};
ghost use Rattle.prdb_members.specs.Changes.{after_join, after_part, after_parts};
ghost use Rattle.prdb_members.specs.Ends.{without_pairs_of};
ghost use Rattle.prdb_members.specs.Moves.{KeepsOrder, after_move};

/// The image after a pair more holds the pair, and all others.
pub fn law_join_adds_the_pair()
    ensures { (image : List ℕ) (r : Registry) (m : Members) (member group : ℤ) → Holds image r m → MayJoin member group r m
        → Holds (after_join member group image) r (with_pair member group m) }
{}

/// The image after a pair less holds all others.
pub fn law_part_takes_the_pair()
    ensures { (image : List ℕ) (r : Registry) (m : Members) (member group : ℤ) → Holds image r m → MayLeave member group m
        → Holds (after_part member group image) r (without_pair member group m) }
{}

/// The image after all pairs of an entry went holds those of others.
pub fn law_parts_take_all_pairs()
    ensures { (image : List ℕ) (r : Registry) (m : Members) (id : ℤ) (others : List ℤ) → Holds image r m
        → IsListOf (λ other. are_paired m id other ≡ true) others → Holds (after_parts id others image) r (without_pairs_of id m) }
{}

/// The image after an entry got another id, in its own blocks and in the lists of all that are paired with it, holds the entry and its
/// pairs under that id, and all others.
pub fn law_move_keeps_the_pairs()
    ensures { (image : List ℕ) (r : Registry) (m : Members) (old new : ℤ) (others : List ℤ) → Holds image r m → MayMove old new r
        → IsListOf (λ other. are_paired m old other ≡ true) others
        → Holds (after_move old new others image) (moved_registry old new r) (moved_members old new m) }
{}

/// An entry that gets another id comes in front of the chain of the new one. The chains of all names and those of what entries own stay, each
/// in its order: what it owns, its place in the chain of its name, and that in its owner's.
pub fn law_move_keeps_the_order()
    ensures first { (image : List ℕ) (r : Registry) (m : Members) (old new : ℤ) (others : List ℤ) → Holds image r m → MayMove old new r
        → IsListOf (λ other. are_paired m old other ≡ true) others
        → word_at (after_move old new others image) (id_chain new) ≡ place_in (whole image) old + 1 }
    ensures order { (image : List ℕ) (r : Registry) (m : Members) (old new : ℤ) (others : List ℤ) → Holds image r m → MayMove old new r
        → IsListOf (λ other. are_paired m old other ≡ true) others → KeepsOrder (whole image) (after_move old new others image) }
{}

/// No image is shorter after a change, whatever it holds.
pub fn law_no_change_shortens()
    ensures join { (member group : ℤ) (image : List ℕ) → length image ≤ length (after_join member group image) }
    ensures part { (member group : ℤ) (image : List ℕ) → length image ≤ length (after_part member group image) }
    ensures parts { (id : ℤ) (others : List ℤ) (image : List ℕ) → length image ≤ length (after_parts id others image) }
    ensures move_id { (old new : ℤ) (others : List ℤ) (image : List ℕ) → length image ≤ length (after_move old new others image) }
{}
