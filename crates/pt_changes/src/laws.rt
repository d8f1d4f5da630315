//! Laws of the definitions that the contracts cite.
ghost use Rattle.std.specs.Prelude.{◌≡◌, ℕ, ℤ, List, IsSome, false};
ghost use Rattle.pt_service.specs.Meaning.{Leave, state_after};
ghost use Rattle.pt_service.specs.State.{State};
ghost use Rattle.pt_service.specs.Turning.{is_fixed};
ghost use Rattle.pt_looks.specs.States.{HoldsRecords};
ghost use Rattle.pt_changes.specs.Leaving.{after_leave};

/// The image after an entry has left holds the records of the state after it.
pub fn law_leave_leaves_no_trace()
    ensures { (image : List ℕ) (s : State) (id : ℤ) → HoldsRecords image s → IsSome (s.registry.entry id) → is_fixed id ≡ false
        → HoldsRecords (after_leave id s image) (state_after (Leave id) s) }
{}
