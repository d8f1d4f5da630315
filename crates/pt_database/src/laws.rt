//! Laws of the protection database: each is the clause of a call that does nothing.
ghost use Rattle.std.specs.Prelude.{[]};
ghost use Rattle.pt_looks.specs.States.{HoldsState};
ghost use Rattle.pt_database.specs.Laws.{AnswersCalls, DoesWhatIsMeant, HasEachChain, HoldsOne, LeavesStates, NamesCalls, NeverShrinks};
ghost use Rattle.pt_service.specs.Meaning.{protection_meaning};

/// Over an image that holds a state the database does what the call means in it; no call leaves a shorter image.
pub fn protection_calls_are_meant()
    ensures meant { DoesWhatIsMeant }
    ensures leaves { LeavesStates }
    ensures longer { NeverShrinks }
{}

/// The empty image holds the first state, and each image the records of one state at most.
pub fn an_image_holds_one_protection_state()
    ensures first { HoldsState [] protection_meaning.first }
    ensures one { HoldsOne }
{}

/// Bytes that are a call are answered as a call, whatever the image is.
pub fn protection_calls_are_answered()
    ensures { AnswersCalls }
{}

/// Words never name bytes that are no call.
pub fn protection_words_name_calls()
    ensures { NamesCalls }
{}

/// Over an image that holds the records of a state, the bound on what nametoid and idtoname ask for holds: each name and each id has its
/// one chain there.
pub fn protection_look_ups_have_chains()
    ensures { HasEachChain }
{}
