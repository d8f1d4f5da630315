//! Both sides of a write over a majority: at the sync site the write in flight, with the bytes that undo it and the text of its
//! changes in pieces; at another server the write that a sync site began, until its pieces have come.
#![tactic(auto)]

mod before_images;
mod flights;
mod pendings;
mod searches;
mod texts;
mod undo;

pub use before_images::{BeforeImage, law_before_image_holds_the_old_bytes};
pub use flights::{Flight, FlightFault};
pub use pendings::{Pending, PendingEnd};
pub use texts::text_len;
pub use undo::law_undo_gives_the_old_image;
