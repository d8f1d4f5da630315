//! Which images stand for states of a database, and that each step of a server keeps it so; what of a step hangs on no byte of an image.
#![tactic(auto)]

mod laws;

pub use laws::{
    law_changes_fit, law_images_are_not_read, law_images_have_like_changes, law_steps_go_on,
    law_steps_keep_states, law_turns_go_in_line, law_turns_reply,
};
