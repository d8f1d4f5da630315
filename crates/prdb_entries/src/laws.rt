//! Laws of the images that the changes make.
ghost use Rattle.std.specs.Prelude.{◌≡◌, ◌<◌, ◌≤◌, ◌^◌, ℕ, ℤ, List, Some, length};
ghost use Rattle.prdb_layout.specs.Registry.{IsRecord, MayBeAdded, MayReplace, Registry, with_entry, without_entry};
ghost use Rattle.prdb_layout.specs.State.{PrEntry};
ghost use Rattle.prdb_lists.specs.Members.{Members};
ghost use Rattle.prdb_finds.specs.Records.{Holds};
ghost use Rattle.prdb_entries.specs.Changes.{after_insert, after_remove, after_replace};
ghost use Rattle.prdb_entries.specs.Ends.{MayGo};

/// The image after an entry more holds it, all others, and the same pairs.
pub fn law_insert_adds_the_entry()
    ensures { (image : List ℕ) (r : Registry) (m : Members) (e : PrEntry) → Holds image r m → IsRecord e → MayBeAdded e r
        → Holds (after_insert e image) (with_entry e r) m }
{}

/// The image after an entry got other fields holds it with them, all others, and the same pairs.
pub fn law_replace_gives_the_fields()
    ensures { (image : List ℕ) (r : Registry) (m : Members) (id : ℤ) (e : PrEntry) → Holds image r m → IsRecord e → MayReplace id e r
        → Holds (after_replace id e image) (with_entry e r) m }
{}

/// An entry that gets the fields that it has keeps its places in its chains, and no byte changes.
pub fn law_replace_by_the_same_changes_nothing()
    ensures { (image : List ℕ) (r : Registry) (m : Members) (e : PrEntry) → Holds image r m → r.entry e.id ≡ Some e
        → after_replace e.id e image ≡ image }
{}

/// The image after an entry less holds all others, and the same pairs.
pub fn law_remove_takes_the_entry()
    ensures { (image : List ℕ) (r : Registry) (m : Members) (id : ℤ) → Holds image r m → MayGo id r m
        → Holds (after_remove id image) (without_entry id r) m }
{}

/// No change leaves a shorter image, whatever that image is.
pub fn law_no_image_gets_shorter()
    ensures insert { (e : PrEntry) (image : List ℕ) → length image ≤ length (after_insert e image) }
    ensures replace { (id : ℤ) (e : PrEntry) (image : List ℕ) → length image ≤ length (after_replace id e image) }
    ensures remove { (id : ℤ) (image : List ℕ) → length image ≤ length (after_remove id image) }
{}
