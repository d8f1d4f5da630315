//! Laws of items: each is the clause of a call that does nothing.
ghost use Rattle.journal_model.specs.Asking.{NumberedAskOnce};
ghost use Rattle.journal_model.specs.Laws.{ItemsTellSteps, StepsKeepJournals, StepsReplyFew};

use db_image::DraftService;

/// One item more is one step more: the replay goes on by the step that the item was made of, whichever of its replies are for want of memory,
/// and a server that is halted stays so.
pub fn law_items_tell_steps()
    ensures { ItemsTellSteps }
{}

/// A journal whose items may come at its server stays one with each step, as long as what was evaluated in the step may have come. So each
/// item of a server that keeps its journal so is one that a fitting schedule may have, for what is the server's own.
pub fn law_steps_keep_journals<S: DraftService>()
    ensures { StepsKeepJournals S.standing }
{}

/// A server that numbers its calls from 1 on asks none under an id that it asked before.
pub fn law_numbered_ask_once()
    ensures { NumberedAskOnce }
{}

/// A step has at most two replies more than there are calls that wait, so an item has a bit for each.
pub fn law_steps_reply_few()
    ensures { StepsReplyFew }
{}
