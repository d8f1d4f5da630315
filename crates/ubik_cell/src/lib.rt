//! A whole cell run from a script: its lines understood, its servers run, its exact trace written.
#![tactic(auto)]

mod cells;
mod runs;
mod scripts;
mod tops;

pub use cell_runs::{Ending, Which};
pub use cell_script::Why;
pub use cells::{CellEnd, CellKind};
pub use tops::cell_top;
