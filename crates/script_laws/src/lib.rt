//! What holds of the meaning of every script: laws over the definitions alone. No code of a server and none of a simulator is
//! named here.
#![tactic(auto)]

mod laws;

pub use laws::{
    law_cells_go_on, law_faults_have_servers, law_memory_is_found, law_scripts_are_runs,
    law_sound_fronts, law_sound_scripts,
};
