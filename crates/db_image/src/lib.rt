//! Databases as a server sees them: what they make of a call, over images that are read a part at a time and drafts of what
//! comes after.
#![tactic(auto)]

mod changes;
mod draft_services;
mod drafts;
mod faults;
mod images;
mod overlays;
mod places;
mod services;
mod words;

pub use changes::{law_changes_lead, too_large};
pub use draft_services::{CallEnd, DraftService};
pub use drafts::Draft;
pub use faults::RecordFault;
pub use images::{ImageRead, ReadEnd, VecImage};
pub use services::{CallReply, Layout};
pub use words::DraftWords;
