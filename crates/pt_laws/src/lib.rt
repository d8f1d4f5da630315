//! Laws of the protection database over images: what an image tells, and what each call makes of it. Laws alone.
#![tactic(auto)]

mod laws;

pub use laws::{
    law_calls_lead_from_state_to_state, law_empty_holds_the_first_state,
    law_groups_are_named_after_their_owners, law_image_tells_its_state, law_images_never_shrink,
    law_unchanged_states_keep_their_images,
};
