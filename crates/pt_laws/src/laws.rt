//! Laws of what calls make of images: each is the clause of a call that does nothing.
ghost use Rattle.std.specs.Prelude.{◌≡◌, ◌≤◌, ℕ, List, [], length, Option};
ghost use Rattle.prdb_finds.specs.Records.{whole};
ghost use Rattle.prdb_layout.specs.Registry.{IsRegistry};
ghost use Rattle.pt_calls.specs.declared.calls.PtCall.{PtCall};
ghost use Rattle.pt_service.specs.Meaning.{Verdict, asked, state_by, verdict};
ghost use Rattle.pt_service.specs.NamedAfter.{NamesFollowOwners};
ghost use Rattle.pt_service.specs.State.{State, first_state};
ghost use Rattle.pt_looks.specs.States.{HoldsRecords, HoldsState};
ghost use Rattle.pt_changes.specs.Standing.{image_by};
ghost use Rattle.pt_laws.specs.Told.{state_in};

/// The empty image holds the first state.
pub fn law_empty_holds_the_first_state()
    ensures { HoldsState [] first_state }
{}

/// An image holds the records of one state at most, which is a function of its bytes.
pub fn law_image_tells_its_state()
    ensures { (image : List ℕ) (s : State) → HoldsRecords image s → s ≡ state_in (whole image) }
{}

/// What is decided of a call leaves groups named after their owners, where they were.
pub fn law_groups_are_named_after_their_owners()
    ensures { (s : State) (call : Option PtCall) → IsRegistry s.registry → NamesFollowOwners s.registry
        → NamesFollowOwners (state_by (verdict s call) s).registry }
{}

/// Over an image that holds a state, what is decided of a call leads to one that holds the state after it. The records need no names that
/// follow owners for it.
pub fn law_calls_lead_from_state_to_state()
    ensures records { (image : List ℕ) (s : State) (bytes : List ℕ) → HoldsRecords image s
        → HoldsRecords (image_by (verdict s (asked bytes)) s image) (state_by (verdict s (asked bytes)) s) }
    ensures state { (image : List ℕ) (s : State) (bytes : List ℕ) → HoldsState image s
        → HoldsState (image_by (verdict s (asked bytes)) s image) (state_by (verdict s (asked bytes)) s) }
{}

/// Where it leaves the state, it leaves the image.
pub fn law_unchanged_states_keep_their_images()
    ensures { (image : List ℕ) (s : State) (bytes : List ℕ) → HoldsRecords image s → state_by (verdict s (asked bytes)) s ≡ s
        → image_by (verdict s (asked bytes)) s image ≡ image }
{}

/// Whatever is decided, and whatever the image is: it is no shorter afterwards.
pub fn law_images_never_shrink()
    ensures { (v : Verdict) (s : State) (image : List ℕ) → length image ≤ length (image_by v s image) }
{}
