//! A running cell of 1 to 20 servers: their clocks, disks and packets, and what each line of a script does to them.
#![tactic(auto)]

mod calls;
mod causes;
mod cells;
mod deliveries;
mod drops;
mod faults;
mod openings;
mod outages;
mod packets;
mod places;
mod sent;
mod shows;
mod sites;
mod steps;
mod telling;
mod ticks;
mod turns;

pub use cells::{OpenCell, law_cell_opened};
pub use faults::LineFault;
