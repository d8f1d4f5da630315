//! Laws of the rules: each is the clause of a call that does nothing.
ghost use Rattle.state_laws.specs.Over.{ChangesFit, HasLikeChanges, ReadsNoImage, TurnsReply};
ghost use Rattle.state_laws.specs.States.{StepsKeepStates};
ghost use Rattle.state_laws.specs.Waiting.{StepsGoOn, TurnsInLine};

use db_image::DraftService;

/// Where the image of a server, and the one that it announces, stand for states of the database, they do after each step, as long as what the
/// step takes over from another server leads to such an image. It is asked of the database that it is one over drafts.
pub fn law_steps_keep_states<S: DraftService>()
    ensures { StepsKeepStates S.standing }
{}

/// The lapse of a server, and what holders lead to, are the same over each image.
pub fn law_images_are_not_read()
    ensures { ReadsNoImage }
{}

/// To each image as long as another one there are changes of the places and lengths that changes to that one have: too large, or none, where
/// those are.
pub fn law_images_have_like_changes()
    ensures { HasLikeChanges }
{}

/// After the turn of a writing call, at a server with others, no write can begin; or its call was replied to once, and nothing changed.
pub fn law_turns_reply()
    ensures { TurnsReply }
{}

/// How the turns of writing calls go: nobody has one where no write can begin; the first of those that wait has one, and the others behind it
/// where it was only replied to.
pub fn law_turns_go_in_line()
    ensures { TurnsInLine }
{}

/// A step is its lapse, and then what the event makes of the server; a write that a majority has is over, and then those that wait have their
/// turns. So it is over each image.
pub fn law_steps_go_on()
    ensures { StepsGoOn }
{}

/// Changes from one image to another that pass no limit lead to no image longer than 16,777,216 bytes. Where each change puts some bytes, the
/// text of those that pass none has less than 2^32 bytes.
pub fn law_changes_fit()
    ensures { ChangesFit }
{}
