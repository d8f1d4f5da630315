//! One order of announced transactions, for cells of every size.
#![tactic(auto)]

mod laws;

pub use laws::{
    law_acknowledged_stay, law_announcements_grow, law_majorities_keep, law_prefixes_stay,
    law_replies, law_sites_serve_the_order, law_writes_are_made,
};
