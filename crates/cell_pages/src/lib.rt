//! Laws of versions, for cells of every size: they rise, and each is one list and one image.
#![tactic(auto)]

mod laws;

pub use laws::{
    law_leaders_are_ahead, law_lists_go_on, law_lists_stay, law_one_label,
    law_shorter_images_differ, law_versions_are_made_once, law_versions_never_fall,
    law_versions_rise,
};
