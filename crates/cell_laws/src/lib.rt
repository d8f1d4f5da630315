//! Laws of the world, for cells of every size: leases exclude, and epochs rise.
#![tactic(auto)]

mod laws;

pub use laws::{law_cells_keep_leases, law_epochs_rise, law_leases_exclude};
