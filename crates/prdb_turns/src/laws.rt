//! Laws of the images that the changes make.
ghost use Rattle.std.specs.Prelude.{◌≡◌, ◌≤◌, true, ℕ, ℤ, List, length, map};
ghost use Rattle.prdb_layout.specs.Registry.{Registry};
ghost use Rattle.entry_scans.specs.Lists.{IsListOf};
ghost use Rattle.prdb_lists.specs.Members.{Members, are_paired};
ghost use Rattle.prdb_lists.specs.Moves.{moved_members};
ghost use Rattle.pt_service.specs.Turning.{moved};
ghost use Rattle.prdb_finds.specs.Records.{Holds, whole};
ghost use Rattle.prdb_members.specs.Owned.{AreInOrder};
ghost use Rattle.prdb_turns.specs.Owners.{AreItsOwn};
ghost use Rattle.prdb_turns.specs.Renumbering.{MayRenumber, after_renumber, renumbered};

/// The image after an entry got another id holds the entry, what it owns and its pairs under that id, and all others.
pub fn law_renumber_gives_the_id()
    ensures { (image : List ℕ) (r : Registry) (m : Members) (old new : ℤ) (its others : List ℤ) → Holds image r m → MayRenumber old new r
        → AreItsOwn (whole image) r old its → IsListOf (λ other. are_paired m old other ≡ true) others
        → Holds (after_renumber old new its others r image) (renumbered old new r) (moved_members old new m) }
{}

/// The groups that it owns stand along the owned chain of the new id in the order in which they stood along that of the old one. A group that
/// owns itself stands there by its new id.
pub fn law_renumber_keeps_the_order()
    ensures { (image : List ℕ) (r : Registry) (m : Members) (old new : ℤ) (its others groups : List ℤ) → Holds image r m
        → MayRenumber old new r → AreItsOwn (whole image) r old its → IsListOf (λ other. are_paired m old other ≡ true) others
        → AreInOrder (whole image) old groups
        → AreInOrder (after_renumber old new its others r image) new (map (moved old new) groups) }
{}

/// No image is shorter after it, whatever it holds.
pub fn law_renumber_leaves_no_shorter_image()
    ensures { (old new : ℤ) (its others : List ℤ) (r : Registry) (image : List ℕ)
        → length image ≤ length (after_renumber old new its others r image) }
{}
