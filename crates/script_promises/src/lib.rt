//! What the run of a script of one server is worth: a law over the definitions alone. No code of a server and none of a
//! simulator is named here.
#![tactic(auto)]

mod laws;

pub use laws::{
    law_location_is_lawful, law_protection_is_lawful, law_scripts_keep_promises,
    law_words_are_calls,
};
