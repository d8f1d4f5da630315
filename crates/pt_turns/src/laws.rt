//! Laws of the definitions that the contracts cite.
ghost use Rattle.std.specs.Prelude.{ℕ, ℤ, List};
ghost use Rattle.prdb_layout.specs.State.{PrEntry};
ghost use Rattle.pt_service.specs.State.{State};
ghost use Rattle.pt_service.specs.Turning.{with_turned};
ghost use Rattle.pt_looks.specs.States.{HoldsRecords};
ghost use Rattle.pt_changes.specs.Turning.{MayTurn, after_turn};

/// The image after an entry got another name, owner or id holds the records of the state after it.
pub fn law_turn_leaves_the_state_after_it()
    ensures { (image : List ℕ) (s : State) (e : PrEntry) (name : List ℕ) (owner id : ℤ)
        → HoldsRecords image s → MayTurn e name owner id s.registry
        → HoldsRecords (after_turn e name owner id s image) (with_turned e name owner id s) }
{}
