//! What a script does to a cell and what its trace says, in `specs/`: the meaning of each line, the text of what is seen, and the
//! limits of a script. No code of a server or of a simulator is named here.
#![tactic(auto)]

mod endings;
mod limits;
mod traces;

pub use endings::{Ending, Which};
pub use limits::{MAX_LINES, MAX_PACKET_BYTES, MAX_PACKETS, law_limits_are_these};
pub use traces::{Mark, Showing, tell_ending, tell_mark, tell_output, tell_show};
