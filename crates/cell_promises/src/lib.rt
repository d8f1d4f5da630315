//! What the run of a script is worth in a cell of every size: laws over the definitions alone. No code of a server and none of a
//! simulator is named here.
#![tactic(auto)]

mod laws;

pub use laws::{law_cells_keep_promises, law_scripts_have_order};
