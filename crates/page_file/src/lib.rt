//! The database file of a server: a label of 64 bytes with the version, and the image behind it, which is read in
//! pages. The pages that were read last are kept.
#![tactic(auto)]

mod cache;
mod faults;
mod label;
mod pages;
mod reads;

pub use cache::KEPT_PAGES;
pub use disk_base::Refused;
pub use faults::PageFault;
pub use label::{LABEL_LEN, MAX_DATABASE_LEN, label_bytes, read_label, version_of_file};
pub use pages::Pages;
pub use reads::PAGE_LEN;
